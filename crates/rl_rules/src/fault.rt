//! Why a rule file is refused.
ghost use Rattle.std.specs.Prelude.{◌≡◌};
ghost use Rattle.rl_plain.specs.declared.refusal.OrMemory.TheVariants.{Fault};

use rl_plain::OrMemory;
use rl_query::QueryFault;
use thiserror::Error;

/// Why a document has no groups, the lowest first.
#[derive(Clone, Copy, Debug, Drop, Error, PartialEq, Eq)]
pub enum RulesFault {
    #[error("not TOML, or the value of a key has another type or is out of range")]
    BadToml,
    #[error("a key that no group and no rule has")]
    UnknownKey,
    #[error("a key is missing: groups, name, rules, record or alert, or expr")]
    MissingKey,
    /// The first query that is refused. Groups and rules are counted from 0.
    #[error("group {group}, rule {rule}: {fault}")]
    BadQuery {
        group: usize,
        rule: usize,
        fault: QueryFault,
    },
    #[error("a name that no group, no metric or no alert has, or labels that no stream has")]
    BadName,
    #[error("two groups have one name")]
    SameGroup,
    #[error("more than 64 groups, or more than 256 rules of a group")]
    TooMany,
}

/// Why a rule file gave no groups.
pub type RulesError = OrMemory<RulesFault>;

impl From<RulesFault> for RulesError {
    ghost from_gives = { λ fault e. e ≡ Fault fault };

    fn from(fault: RulesFault) -> Self {
        OrMemory::Fault(fault)
    }
}
