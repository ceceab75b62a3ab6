//! Visitors of the lines of a stream.
ghost use Rattle.std.specs.Prelude.{◌≡◌, OnOk};
ghost use Rattle.rl_labels.specs.LabelSet.{LabelSet};
ghost use Rattle.rl_chunks.specs.declared.line.Line.{Line};

use rl_labels::{Labels, Ns};
use std::alloc::AllocError;

/// Visits lines one by one.
pub trait Visitor {
    /// What it becomes by one more line.
    ghost visiting: { Self → LabelSet × Line → Self };

    /// Visits one more line. The text is lent for the call alone.
    fn visit(&mut self, labels: &Labels, timestamp: Ns, text: &str) -> Result<(), AllocError>
        ensures { OnOk result (self.new ≡ visiting self.old (labels.now, record { timestamp = timestamp; text = text.now })) };
}
