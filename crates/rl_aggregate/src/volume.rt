//! A number of lines, and their bytes.
ghost use Rattle.std.specs.Prelude.{◌≡◌, IfOk, IsOk};

use rl_plain::{Same, TryCopy};
use std::alloc::AllocError;

/// How many lines there are, and how many bytes they have.
#[derive(Clone, Copy, PartialEq, Eq)]
pub struct Volume {
    pub count: u64,
    pub bytes: u64,
}

impl TryCopy for Volume {
    /// Takes no memory, and is never refused.
    fn try_copy(&self) -> Result<Self, AllocError>
        ensures copy { IfOk result (λ copy. copy ≡ self.now) }
        ensures made { IsOk result }
    {
        Ok(*self)
    }
}

impl Same for Volume {
    fn is_same(&self, other: &Self) -> bool {
        self.count == other.count && self.bytes == other.bytes
    }
}
