//! Lines that count alike in a range.
ghost use Rattle.std.specs.Prelude.{◌≡◌, Some};
ghost use Rattle.rl_aggregate.specs.InRange.{has_error, line_run};
ghost use Rattle.rl_aggregate.specs.Partials.{has_labels};

use crate::volume::Volume;
use rl_labels::Labels;
use rl_labels::labels::ERROR_LABEL;

/// Lines with equal labels after the stages, or lines with an error: how many, and their bytes.
#[derive(Drop)]
pub struct Run {
    /// The labels that the lines have; none where a stage could not make sense of them.
    pub labels: Option<Labels>,
    /// The number of lines, and their bytes.
    pub volume: Volume,
}

impl Run {
    /// A line that has these labels after the stages, and this many bytes.
    pub fn of_line(labels: Labels, bytes: u64) -> Run
        ensures { result ≡ line_run labels bytes }
    {
        let volume = Volume { count: 1, bytes };
        if has_error(&labels) {
            return Run {
                labels: None,
                volume,
            };
        }
        Run {
            labels: Some(labels),
            volume,
        }
    }

    // Whether the lines have these labels, and no error.
    pub(crate) fn has(&self, labels: &Labels) -> bool
        ensures { result ≡ has_labels (Some labels.now) self.now }
    {
        match &self.labels {
            Some(own) => labels == own,
            None => false,
        }
    }
}

// Whether a stage could not make sense of the line.
fn has_error(labels: &Labels) -> bool
    ensures { result ≡ has_error labels.now }
{
    labels.get(ERROR_LABEL).is_some()
}
