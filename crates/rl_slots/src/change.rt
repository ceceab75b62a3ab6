//! What lines change in the windows of slots.
ghost use Rattle.std.specs.Prelude.{◌≡◌};
ghost use Rattle.rl_slots.specs.declared.change.AddFault.TheVariants as adds;

use rl_windows::Element;
use std::alloc::AllocError;
use thiserror::Error;

/// An element that a line adds to a window of a slot, both by their indices.
#[derive(Drop)]
pub struct Change {
    pub slot: usize,
    pub window: usize,
    pub element: Element,
}

/// Why changes are not added.
#[derive(Clone, Copy, Debug, Drop, Error)]
pub enum AddFault {
    #[error("a window has as many lines as it may have")]
    Full,
    #[error("out of memory")]
    Memory,
}

impl From<AllocError> for AddFault {
    ghost from_gives = { λ _ e. e ≡ adds.Memory };

    fn from(_error: AllocError) -> Self {
        AddFault::Memory
    }
}
