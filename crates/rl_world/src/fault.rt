//! Why a book or a world refuses.
ghost use Rattle.std.specs.Prelude.{◌≡◌};
ghost use Rattle.rl_plain.specs.declared.refusal.OrMemory.TheVariants.{Fault};

use rl_labels::Ns;
use rl_plain::OrMemory;
use thiserror::Error;

/// Why a book refused a call, which left it as it was.
#[derive(Clone, Copy, Debug, Drop, Error)]
pub enum BookFault {
    #[error("an evaluation is open")]
    Busy,
    /// The moment is not later than that of the last evaluation.
    #[error("the moment is not later than that of the last evaluation")]
    MomentNotLater { last: Ns },
    #[error("no evaluation is open")]
    NotOpen,
    #[error("the shard was asked already")]
    AlreadyGathered,
    #[error("not every shard was asked")]
    Incomplete,
    #[error("the book has as many records as it may have")]
    SessionFull,
}

/// A fault of a book, or lack of memory. Either left it as it was.
pub type BookError = OrMemory<BookFault>;

impl From<BookFault> for BookError {
    ghost from_gives = { λ fault e. e ≡ Fault fault };

    fn from(fault: BookFault) -> Self {
        OrMemory::Fault(fault)
    }
}

/// Why a world refused a step, which counts as no step.
#[derive(Clone, Copy, Debug, Drop, Error)]
pub enum Refusal {
    #[error("no such shard or group")]
    NoSuch,
    #[error("{0}")]
    Book(BookFault),
    #[error("the journal has as many records as it may have")]
    JournalFull,
    #[error("the store's device failed")]
    Fault,
    #[error("a chunk was missing or changed in the store")]
    Damaged,
    #[error("no blob number is left")]
    NumbersSpent,
    #[error("out of memory")]
    Memory,
}
