//! What is read from the bytes of a chunk.
use crate::line::Line;
use rl_labels::Labels;
use rl_plain::{PlainList, Same, TryCopy};
use std::alloc::AllocError;

/// The labels of a stream, and lines of it.
#[derive(Drop)]
pub struct Chunk {
    pub labels: Labels,
    pub lines: PlainList<Line>,
}

impl TryCopy for Chunk {
    fn try_copy(&self) -> Result<Self, AllocError> {
        let labels = self.labels.try_copy()?;
        let lines = self.lines.try_copy()?;
        Ok(Chunk { labels, lines })
    }
}

impl Same for Chunk {
    fn is_same(&self, other: &Self) -> bool {
        self.labels.is_same(&other.labels) && self.lines.is_same(&other.lines)
    }
}
