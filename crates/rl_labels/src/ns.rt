//! Moments and timestamps.
ghost use Rattle.std.specs.Prelude.{◌≡◌, ◌≤◌, ℕ, IfOk, IsOk, SomeIff};

use rl_plain::{Same, TryCopy};
use std::alloc::AllocError;
use std::marker::Model;

/// A second, in nanoseconds.
pub const SECOND: u64 = 1_000_000_000;

/// A moment in nanoseconds since the Unix epoch, at most 9,223,372,036,854,775,807. Contracts see it as the number.
#[derive(Clone, Copy, Debug, PartialEq, Eq, PartialOrd, Ord, Hash)]
pub struct Ns {
    nanoseconds: u64,
}

impl Model for Ns {
    ghost use Rattle.std.specs.Prelude.{ℕ, ◌≤◌};
    ghost use Rattle.rl_labels.specs.Quantity.{greatest_moment};

    ghost Value = { ℕ };

    ghost view = { λ a. a.nanoseconds };

    ghost invariant = { λ a. a.nanoseconds ≤ greatest_moment };

    ghost inverse = { λ n. record { nanoseconds = n } };
}

impl Ns {
    ghost use Rattle.rl_labels.specs.Quantity.{greatest_moment};

    /// The moment, unless it is past the greatest.
    pub fn new(nanoseconds: u64) -> Option<Ns>
        ensures { SomeIff result (nanoseconds ≤ greatest_moment) nanoseconds }
    {
        if nanoseconds > i64::MAX as u64 {
            return None;
        }
        Some(Ns { nanoseconds })
    }

    /// Nanoseconds since the Unix epoch.
    pub fn get(self) -> u64
        ensures value { result ≡ self }
        ensures bound { result ≤ greatest_moment }
    {
        self.nanoseconds
    }
}

impl TryCopy for Ns {
    /// Takes no memory, and is never refused.
    fn try_copy(&self) -> Result<Self, AllocError>
        ensures copy { IfOk result (λ copy. copy ≡ self.now) }
        ensures made { IsOk result }
    {
        Ok(*self)
    }
}

impl Same for Ns {
    fn is_same(&self, other: &Self) -> bool {
        self == other
    }
}
