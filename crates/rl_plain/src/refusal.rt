//! A fault, or lack of memory: what a call that needs memory answers when it is refused.
ghost use Rattle.std.specs.Prelude.{◌≡◌};
ghost use Rattle.rl_plain.specs.declared.refusal.OrMemory.TheVariants.{Memory};

use std::alloc::{AllocError, AllocFailed};
use std::fmt;

/// A fault of what was given, or lack of memory, which says nothing of it.
#[derive(Clone, Copy, Debug, Drop, PartialEq, Eq)]
pub enum OrMemory<F> {
    Fault(F),
    Memory,
}

impl<F: fmt::Display> fmt::Display for OrMemory<F> {
    fn fmt<W: fmt::Write>(&self, f: &mut fmt::Formatter<W>) -> fmt::Result {
        match self {
            OrMemory::Fault(fault) => write!(f, "{fault}"),
            OrMemory::Memory => f.write_str("out of memory"),
        }
    }
}

impl<F> From<AllocError> for OrMemory<F> {
    ghost from_gives = { λ _ e. e ≡ Memory };

    fn from(_error: AllocError) -> Self {
        OrMemory::Memory
    }
}

impl<F, T: Drop> From<AllocFailed<T>> for OrMemory<F> {
    ghost from_gives = { λ _ e. e ≡ Memory };

    fn from(_error: AllocFailed<T>) -> Self {
        OrMemory::Memory
    }
}
