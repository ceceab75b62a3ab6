//! Why a query text is refused.
ghost use Rattle.std.specs.Prelude.{◌≡◌};
ghost use Rattle.rl_plain.specs.declared.refusal.OrMemory.TheVariants.{Fault};

use rl_plain::OrMemory;
use thiserror::Error;

/// The first fault of a text, with the byte at which its token begins.
#[derive(Clone, Copy, Debug, Drop, Error, PartialEq, Eq)]
pub enum QueryFault {
    #[error("not a query, at byte {0}")]
    Syntax(usize),
    #[error("not supported, at byte {0}")]
    Unsupported(usize),
    #[error("each matcher of the selector accepts a stream without the label")]
    NoRealMatcher,
    #[error("a range is whole seconds, from 1 to 2592000")]
    BadRange,
    #[error("this is no regular expression, or it takes too much room")]
    BadRegex,
    #[error("nested too deep, or too many stages")]
    TooDeep,
    #[error("a range has one parser at most")]
    TwoParsers,
}

/// Why a text gave no query.
pub type QueryError = OrMemory<QueryFault>;

impl From<QueryFault> for QueryError {
    ghost from_gives = { λ fault e. e ≡ Fault fault };

    fn from(fault: QueryFault) -> Self {
        OrMemory::Fault(fault)
    }
}
