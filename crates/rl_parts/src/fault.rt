//! Why parts were not read from a store, not written to it, or not rewritten.
ghost use Rattle.std.specs.Prelude.{◌≡◌};
ghost use Rattle.rl_parts.specs.declared.fault.ReadFault.TheVariants as reads;
ghost use Rattle.rl_parts.specs.declared.fault.FlushFault.TheVariants as flushes;
ghost use Rattle.rl_parts.specs.declared.fault.RewriteFault.TheVariants as rewrites;
ghost use Rattle.rl_parts.specs.RewriteFaults.{unread, unput};

use std::alloc::{AllocError, AllocFailed};
use thiserror::Error;

/// Why what a store has was not read.
#[derive(Clone, Copy, Debug, Drop, Error, PartialEq, Eq)]
pub enum ReadFault {
    #[error("the store's device failed")]
    Fault,
    #[error("the store does not have the bytes that were put")]
    Damaged,
    #[error("out of memory")]
    Memory,
}

impl From<AllocError> for ReadFault {
    ghost from_gives = { λ _ e. e ≡ reads.Memory };

    fn from(_error: AllocError) -> Self {
        ReadFault::Memory
    }
}

/// Why a part was not written to a store.
#[derive(Clone, Copy, Debug, Drop, Error, PartialEq, Eq)]
pub enum FlushFault {
    #[error("the store's device failed")]
    Fault,
    #[error("no number is left under which a store could keep more")]
    NumbersSpent,
    #[error("out of memory")]
    Memory,
}

impl From<AllocError> for FlushFault {
    ghost from_gives = { λ _ e. e ≡ flushes.Memory };

    fn from(_error: AllocError) -> Self {
        FlushFault::Memory
    }
}

/// Why a stream was not rewritten.
#[derive(Clone, Copy, Debug, Drop, Error, PartialEq, Eq)]
pub enum RewriteFault {
    #[error("the store's device failed")]
    Fault,
    #[error("the store does not have the bytes that were put")]
    Damaged,
    #[error("no number is left under which a store could keep more")]
    NumbersSpent,
    #[error("out of memory")]
    Memory,
}

impl From<AllocError> for RewriteFault {
    ghost from_gives = { λ _ e. e ≡ rewrites.Memory };

    fn from(_error: AllocError) -> Self {
        RewriteFault::Memory
    }
}

impl<T: Drop> From<AllocFailed<T>> for RewriteFault {
    ghost from_gives = { λ _ e. e ≡ rewrites.Memory };

    fn from(_error: AllocFailed<T>) -> Self {
        RewriteFault::Memory
    }
}

impl From<ReadFault> for RewriteFault {
    ghost from_gives = { λ fault e. e ≡ unread fault };

    fn from(fault: ReadFault) -> Self {
        match fault {
            ReadFault::Fault => RewriteFault::Fault,
            ReadFault::Damaged => RewriteFault::Damaged,
            ReadFault::Memory => RewriteFault::Memory,
        }
    }
}

impl From<FlushFault> for RewriteFault {
    ghost from_gives = { λ fault e. e ≡ unput fault };

    fn from(fault: FlushFault) -> Self {
        match fault {
            FlushFault::Fault => RewriteFault::Fault,
            FlushFault::NumbersSpent => RewriteFault::NumbersSpent,
            FlushFault::Memory => RewriteFault::Memory,
        }
    }
}
