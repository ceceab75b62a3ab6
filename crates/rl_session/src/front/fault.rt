//! Why an input is refused.
use rl_plain::OrMemory;
use rl_rules::RulesFault;
use thiserror::Error;

/// Why an input is refused, the lowest first.
#[derive(Clone, Copy, Debug, Drop, Error, PartialEq, Eq)]
pub enum FrontFault {
    #[error("a read failed")]
    ReadFault,
    #[error("more than 67108864 bytes, or as many turns")]
    TooLong,
    #[error("not UTF-8")]
    NotText,
    #[error("no line is %%")]
    NoMark,
    #[error("{0}")]
    Rules(RulesFault),
}

/// Why an input gave no groups and no commands.
pub type FrontError = OrMemory<FrontFault>;
