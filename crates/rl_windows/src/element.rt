//! Lines that count in a range, by timestamp and label set.
ghost use Rattle.std.specs.Prelude.{◌≡◌};

use rl_aggregate::{Run, Volume};
use rl_labels::{Labels, Ns};
use rl_plain::TryCopy;
use std::alloc::AllocError;

/// When lines were written, and the labels that they have after the stages. Ordered by time.
#[derive(Drop, PartialEq, Eq, PartialOrd, Ord)]
pub struct Stamp {
    /// Nanoseconds since the Unix epoch.
    pub timestamp: u64,
    /// None where a stage could not make sense of the lines.
    pub labels: Option<Labels>,
}

impl TryCopy for Stamp {
    fn try_copy(&self) -> Result<Self, AllocError> {
        let labels = self.labels.try_copy()?;
        Ok(Stamp {
            timestamp: self.timestamp,
            labels,
        })
    }
}

/// Lines of one stamp: how many, and their bytes.
#[derive(Drop)]
pub struct Element {
    pub stamp: Stamp,
    pub volume: Volume,
}

impl Element {
    /// Lines of this timestamp that count as the run.
    pub fn new(timestamp: Ns, run: Run) -> Element
        ensures { result ≡ record { stamp = record { timestamp = timestamp; labels = run.labels }; volume = run.volume } }
    {
        let Run { labels, volume } = run;
        let timestamp = timestamp.get();
        Element {
            stamp: Stamp { timestamp, labels },
            volume,
        }
    }
}
