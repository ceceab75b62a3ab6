//! Ranges of time.
ghost use Rattle.std.specs.Prelude.{◌≡◌, ◌<◌, ◌≤◌, ◌⊎◌, ◌&&◌, nat_le, true, false};

use crate::ns::Ns;
use std::marker::Model;

/// The moments from one to another, both included. There are none where it ends before it begins. Contracts see its ends.
#[derive(Clone, Copy)]
pub struct TimeRange {
    pub from: Ns,
    pub to: Ns,
}

impl Model for TimeRange {
    ghost use Rattle.rl_labels.specs.TimeRange.{TimeRangeView};

    ghost Value = { TimeRangeView };

    ghost view = { λ a. record { from = a.from; to = a.to } };

    ghost inverse = { λ v. record { from = v.from; to = v.to } };
}

impl TimeRange {
    /// Whether the moment is in the range.
    pub fn contains(self, moment: Ns) -> bool
        ensures { result ≡ (nat_le self.from moment && nat_le moment self.to) }
    {
        self.from <= moment && moment <= self.to
    }

    /// Whether the range has no moment from `first` to `last`, both included, where these are in order.
    pub fn is_apart(self, first: Ns, last: Ns) -> bool
        ensures apart { result ≡ true → (last < self.from) ⊎ (self.to < first) }
        ensures reaches { result ≡ false → (self.from ≤ last) × (first ≤ self.to) }
    {
        last < self.from || self.to < first
    }
}
