//! A line of a stream.
use rl_labels::Ns;
use rl_plain::{PlainText, Same, TryCopy};
use std::alloc::AllocError;

/// A line and when it was written. Lines are ordered by timestamp, and then by bytes.
#[derive(Drop, PartialEq, Eq, PartialOrd, Ord)]
pub struct Line {
    pub timestamp: Ns,
    pub text: PlainText,
}

impl TryCopy for Line {
    fn try_copy(&self) -> Result<Self, AllocError> {
        let text = self.text.try_copy()?;
        Ok(Line {
            timestamp: self.timestamp,
            text,
        })
    }
}

impl Same for Line {
    fn is_same(&self, other: &Self) -> bool {
        self == other
    }
}
