//! Why bytes are no record.
ghost use Rattle.std.specs.Prelude.{◌≡◌};
ghost use Rattle.rl_plain.specs.declared.refusal.OrMemory.TheVariants.{Fault};

use rl_plain::OrMemory;
use thiserror::Error;

/// What is wrong with the bytes.
#[derive(Clone, Copy, Debug, Drop, Error, PartialEq, Eq)]
pub enum RecordFault {
    #[error("the bytes are those of no record")]
    NotARecord,
}

/// Why no record was read.
pub type RecordError = OrMemory<RecordFault>;

impl From<RecordFault> for RecordError {
    ghost from_gives = { λ fault e. e ≡ Fault fault };

    fn from(fault: RecordFault) -> Self {
        OrMemory::Fault(fault)
    }
}
