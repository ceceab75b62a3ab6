//! Rules and groups of rules, as in Prometheus' rule files.
ghost use Rattle.std.specs.Prelude.{◌≡◌, ◌↔◌, IsTrue, IfOk, IsOk};

use rl_labels::Labels;
use rl_plain::{PlainList, PlainText, Same, TryCopy};
use rl_query::Query;
use std::alloc::AllocError;

/// A group of rules, evaluated one after another at one moment.
#[derive(Drop)]
pub struct Group {
    pub name: PlainText,
    /// From one evaluation to the next, in seconds.
    pub interval: u64,
    /// The most samples that the vector of a rule may have; 0 is no limit.
    pub limit: u64,
    pub rules: PlainList<Rule>,
}

/// A rule: a query under a name.
#[derive(Drop)]
pub struct Rule {
    pub kind: RuleKind,
    /// The name of the metric that is recorded, or of the alerts.
    pub name: PlainText,
    pub query: Query,
    /// Names and values that stand over the labels of each sample, by rising name. An empty value removes a label.
    pub labels: PlainList<(PlainText, PlainText)>,
    /// How long a series has to be there until its alert fires, in seconds.
    pub hold: u64,
    /// What else is said of each alert.
    pub annotations: Labels,
}

/// What a rule is for.
#[derive(Clone, Copy, Debug, PartialEq, Eq)]
pub enum RuleKind {
    /// Its vector is recorded under a new name.
    Recording,
    /// Each sample of its vector is an alert.
    Alerting,
}

impl TryCopy for RuleKind {
    /// Takes no memory, and is never refused.
    fn try_copy(&self) -> Result<Self, AllocError>
        ensures copy { IfOk result (λ copy. copy ≡ self.now) }
        ensures made { IsOk result }
    {
        Ok(*self)
    }
}

impl Same for RuleKind {
    fn is_same(&self, other: &Self) -> bool {
        self == other
    }
}

impl TryCopy for Rule {
    fn try_copy(&self) -> Result<Self, AllocError> {
        let name = self.name.try_copy()?;
        let query = self.query.try_copy()?;
        let labels = self.labels.try_copy()?;
        let annotations = self.annotations.try_copy()?;
        Ok(Rule {
            kind: self.kind,
            name,
            query,
            labels,
            hold: self.hold,
            annotations,
        })
    }
}

impl Same for Rule {
    fn is_same(&self, other: &Self) -> bool {
        self.kind == other.kind
            && self.name.is_same(&other.name)
            && self.query.is_same(&other.query)
            && self.labels.is_same(&other.labels)
            && self.hold == other.hold
            && self.annotations.is_same(&other.annotations)
    }
}

impl PartialEq for Rule {
    ghost use Rattle.std.specs.Cmp;
    ghost use Rattle.rl_rules.specs.SameCoded.{same_coded, same_coded-equiv};
    ghost use Rattle.rl_rules.specs.contracts.rule.Rule as rule_type;

    ghost eq = { same_coded rule_type.the_row.coded };

    ghost laws = { Cmp.partial_equiv_from_equiv (same_coded-equiv rule_type.the_row.coded) };

    fn eq(&self, other: &Self) -> bool
        ensures coded { result ≡ same_coded rule_type.the_row.coded self.now other.now }
        ensures one { IsTrue result ↔ (self.now ≡ other.now) }
    {
        self.is_same(other)
    }
}

impl Eq for Rule {
    ghost use Rattle.rl_rules.specs.SameCoded.{same_coded-equiv};
    ghost use Rattle.rl_rules.specs.contracts.rule.Rule as rule_type;

    ghost laws = { same_coded-equiv rule_type.the_row.coded };
}

impl TryCopy for Group {
    fn try_copy(&self) -> Result<Self, AllocError> {
        let name = self.name.try_copy()?;
        let rules = self.rules.try_copy()?;
        Ok(Group {
            name,
            interval: self.interval,
            limit: self.limit,
            rules,
        })
    }
}

impl Same for Group {
    fn is_same(&self, other: &Self) -> bool {
        self.interval == other.interval
            && self.limit == other.limit
            && self.name.is_same(&other.name)
            && self.rules.is_same(&other.rules)
    }
}

impl PartialEq for Group {
    ghost use Rattle.std.specs.Cmp;
    ghost use Rattle.rl_rules.specs.SameCoded.{same_coded, same_coded-equiv};
    ghost use Rattle.rl_rules.specs.contracts.rule.Group as group_type;

    ghost eq = { same_coded group_type.the_row.coded };

    ghost laws = { Cmp.partial_equiv_from_equiv (same_coded-equiv group_type.the_row.coded) };

    fn eq(&self, other: &Self) -> bool
        ensures coded { result ≡ same_coded group_type.the_row.coded self.now other.now }
        ensures one { IsTrue result ↔ (self.now ≡ other.now) }
    {
        self.is_same(other)
    }
}

impl Eq for Group {
    ghost use Rattle.rl_rules.specs.SameCoded.{same_coded-equiv};
    ghost use Rattle.rl_rules.specs.contracts.rule.Group as group_type;

    ghost laws = { same_coded-equiv group_type.the_row.coded };
}
