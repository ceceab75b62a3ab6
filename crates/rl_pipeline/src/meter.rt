//! Counters of what evaluations cost.
ghost use Rattle.std.specs.Prelude.{◌≡◌};
ghost use Rattle.rl_pipeline.specs.Metering.{Metered, with_run, with_visits};

use std::marker::Model;

/// How many lines were sent through pipelines, and how many buckets of windows were visited. The counters stop at the
/// greatest number of 64 bits. Contracts see both.
#[derive(Clone, Copy)]
pub struct Meter {
    runs: u64,
    visits: u64,
}

impl Model for Meter {
    ghost use Rattle.rl_pipeline.specs.Metering.{Metered};

    ghost Value = { Metered };

    ghost view = { λ a. record { runs = a.runs; visits = a.visits } };

    ghost inverse = { λ m. record { runs = m.runs; visits = m.visits } };
}

impl Meter {
    /// A meter that has counted nothing.
    pub const fn new() -> Meter
        ensures { result ≡ record { runs = 0; visits = 0 } }
    {
        Meter { runs: 0, visits: 0 }
    }

    /// How many lines were sent through pipelines.
    pub fn runs(&self) -> u64
        ensures { result ≡ self.now.runs }
    {
        self.runs
    }

    /// How many buckets were visited.
    pub fn visits(&self) -> u64
        ensures { result ≡ self.now.visits }
    {
        self.visits
    }

    /// Counts one run more.
    pub fn count_run(&mut self)
        ensures { self.new ≡ with_run self.old }
    {
        self.runs = self.runs.saturating_add(1);
    }

    /// Adds to the count of visits.
    pub fn count_visits(&mut self, visits: u64)
        ensures { self.new ≡ with_visits visits self.old }
    {
        self.visits = self.visits.saturating_add(visits);
    }
}
