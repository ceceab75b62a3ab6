//! Why bytes are no chunk.
ghost use Rattle.std.specs.Prelude.{◌≡◌};
ghost use Rattle.rl_plain.specs.declared.refusal.OrMemory.TheVariants.{Fault};

use rl_plain::OrMemory;
use thiserror::Error;

/// What is wrong with the bytes: the first fault from left to right.
#[derive(Clone, Copy, Debug, Drop, Error, PartialEq, Eq)]
pub enum ChunkFault {
    #[error("the bytes are no chunk: a field has what no chunk has there")]
    NotAChunk,
    #[error("the chunk is cut short: a field has too few bytes")]
    CutShort,
    #[error("a line is not above the line before it")]
    Disorder,
    #[error("bytes follow the last line")]
    TrailingBytes,
}

/// Why no chunk was read.
pub type ChunkError = OrMemory<ChunkFault>;

impl From<ChunkFault> for ChunkError {
    ghost from_gives = { λ fault e. e ≡ Fault fault };

    fn from(fault: ChunkFault) -> Self {
        OrMemory::Fault(fault)
    }
}
