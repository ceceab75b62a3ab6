//! The horizon of retention.
ghost use Rattle.std.specs.Prelude.{◌≡◌, ◌≤◌};
ghost use Rattle.rl_labels.specs.Quantity.{greatest_moment};
ghost use Rattle.rl_deletes.specs.Horizons.{advanced};

use rl_labels::{Covers, Labels, Ns, SECOND};
use std::alloc::AllocError;
use std::marker::Model;

/// The moment below which entries are expired. Contracts see the moment.
#[derive(Clone, Copy, Debug)]
pub struct Horizon {
    moment: Ns,
}

impl Model for Horizon {
    ghost use Rattle.std.specs.Prelude.{ℕ};

    ghost Value = { ℕ };

    ghost view = { λ a. a.moment };

    ghost inverse = { λ n. record { moment = n } };
}

impl Horizon {
    /// The horizon under which nothing is expired.
    pub fn first() -> Horizon
        ensures { result ≡ 0 }
    {
        Horizon {
            moment: moment_of(0),
        }
    }

    pub fn moment(self) -> Ns
        ensures { result ≡ self }
    {
        self.moment
    }

    /// The horizon from a moment on, where entries are kept for `keep` seconds; with 0, for ever. It never goes down.
    pub fn advance(self, now: Ns, keep: u64) -> Horizon
        ensures moment { result ≡ advanced keep self now }
        ensures rises { self ≤ result }
    {
        let lowest = now.get().saturating_sub(keep.saturating_mul(SECOND));
        if keep == 0 || lowest <= self.moment.get() {
            return self;
        }
        Horizon {
            moment: moment_of(lowest),
        }
    }
}

impl Covers for Horizon {
    ghost use Rattle.std.specs.Prelude.{nat_lt, refl};
    ghost use Rattle.rl_deletes.specs.Horizons.{is_below};

    ghost covers_line = { λ horizon _ timestamp _. nat_lt timestamp horizon };

    ghost covers = { is_below };

    ghost by_parts = { λ _ _. refl };

    fn covers_line(
        &self,
        _labels: &Labels,
        timestamp: Ns,
        _line: &str,
    ) -> Result<bool, AllocError> {
        Ok(timestamp < self.moment)
    }

    fn may_cover(&self, _labels: &Labels, from: Ns, _to: Ns) -> Result<bool, AllocError> {
        Ok(from < self.moment)
    }
}

fn moment_of(nanoseconds: u64) -> Ns
    requires { nanoseconds ≤ greatest_moment }
    ensures { result ≡ nanoseconds }
{
    match Ns::new(nanoseconds) {
        Some(moment) => moment,
        None => unreachable!(),
    }
}
