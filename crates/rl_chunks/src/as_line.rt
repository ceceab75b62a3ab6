//! What is written as a line of a chunk.
ghost use Rattle.std.specs.Prelude.{◌≡◌};
ghost use Rattle.rl_chunks.specs.EntryLines.{line_of};
ghost use Rattle.rl_chunks.specs.declared.line.Line.{Line};

use crate::line::Line;
use rl_labels::{Entry, Ns};
use rl_plain::Shared;

/// Stands for a line, and lends it.
pub trait AsLine {
    ghost line: { Self → Line };

    /// When it was written.
    fn timestamp(&self) -> Ns
        ensures { result ≡ (line self.now).timestamp };

    /// The text, borrowed.
    fn text(&self) -> &str
        ensures { result.now ≡ (line self.now).text };
}

impl AsLine for Line {
    ghost line = { λ a. a };

    fn timestamp(&self) -> Ns {
        self.timestamp
    }

    fn text(&self) -> &str {
        self.text.as_str()
    }
}

impl AsLine for Shared<Entry> {
    ghost line = { line_of };

    fn timestamp(&self) -> Ns {
        self.get().timestamp
    }

    fn text(&self) -> &str {
        self.get().line.as_str()
    }
}
