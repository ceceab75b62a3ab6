//! Evaluations of a group: what each of its rules made of its query's outcome at a moment.
ghost use Rattle.std.specs.Prelude.{◌≡◌, ◌↔◌, IsTrue, IfOk, IsOk};

use crate::alert::Alert;
use crate::rule::RuleKind;
use rl_aggregate::Sample;
use rl_labels::{Labels, Ns};
use rl_plain::{PlainList, PlainText, Same, TryCopy};
use std::alloc::AllocError;

/// An evaluation of a group at a moment.
#[derive(Drop)]
pub struct Evaluation {
    /// The name of the group.
    pub group: PlainText,
    pub t: Ns,
    /// For each shard, where its journal has what it showed.
    pub places: PlainList<u64>,
    /// What each rule gave, in the order of the rules.
    pub outcomes: PlainList<RuleResult>,
}

/// What a rule gave, with what a sink says of the rule.
#[derive(Drop)]
pub struct RuleResult {
    pub kind: RuleKind,
    pub name: PlainText,
    pub annotations: Labels,
    pub outcome: RuleOutcome,
}

/// What a rule gave.
#[derive(Drop)]
pub enum RuleOutcome {
    /// The recorded samples, in the order of their label sets.
    Samples(PlainList<Sample>),
    /// The alerts, in the order of their label sets. Those that are resolved are given once.
    Alerts(PlainList<Alert>),
    Failed(Cause),
}

/// Why a rule failed.
#[derive(Clone, Copy, Debug, PartialEq, Eq)]
pub enum Cause {
    /// A line had an error.
    PipelineError,
    /// Two samples have one final label set.
    SameLabels,
    /// The vector has more samples than the group's limit.
    LimitExceeded,
}

impl TryCopy for Cause {
    /// Takes no memory, and is never refused.
    fn try_copy(&self) -> Result<Self, AllocError>
        ensures copy { IfOk result (λ copy. copy ≡ self.now) }
        ensures made { IsOk result }
    {
        Ok(*self)
    }
}

impl Same for Cause {
    fn is_same(&self, other: &Self) -> bool {
        self == other
    }
}

impl TryCopy for RuleOutcome {
    fn try_copy(&self) -> Result<Self, AllocError> {
        match self {
            RuleOutcome::Samples(samples) => Ok(RuleOutcome::Samples(samples.try_copy()?)),
            RuleOutcome::Alerts(alerts) => Ok(RuleOutcome::Alerts(alerts.try_copy()?)),
            RuleOutcome::Failed(cause) => Ok(RuleOutcome::Failed(*cause)),
        }
    }
}

impl Same for RuleOutcome {
    fn is_same(&self, other: &Self) -> bool {
        match (self, other) {
            (RuleOutcome::Samples(samples), RuleOutcome::Samples(others)) => samples.is_same(
                others,
            ),
            (RuleOutcome::Alerts(alerts), RuleOutcome::Alerts(others)) => alerts.is_same(others),
            (RuleOutcome::Failed(cause), RuleOutcome::Failed(other)) => cause.is_same(other),
            _ => false,
        }
    }
}

impl PartialEq for RuleOutcome {
    ghost use Rattle.std.specs.Cmp;
    ghost use Rattle.rl_rules.specs.SameCoded.{same_coded, same_coded-equiv};
    ghost use Rattle.rl_rules.specs.contracts.evaluation.RuleOutcome as outcome_type;

    ghost eq = { same_coded outcome_type.the_row.coded };

    ghost laws = { Cmp.partial_equiv_from_equiv (same_coded-equiv outcome_type.the_row.coded) };

    fn eq(&self, other: &Self) -> bool
        ensures coded { result ≡ same_coded outcome_type.the_row.coded self.now other.now }
        ensures one { IsTrue result ↔ (self.now ≡ other.now) }
    {
        self.is_same(other)
    }
}

impl Eq for RuleOutcome {
    ghost use Rattle.rl_rules.specs.SameCoded.{same_coded-equiv};
    ghost use Rattle.rl_rules.specs.contracts.evaluation.RuleOutcome as outcome_type;

    ghost laws = { same_coded-equiv outcome_type.the_row.coded };
}

impl TryCopy for RuleResult {
    fn try_copy(&self) -> Result<Self, AllocError> {
        let name = self.name.try_copy()?;
        let annotations = self.annotations.try_copy()?;
        let outcome = self.outcome.try_copy()?;
        Ok(RuleResult {
            kind: self.kind,
            name,
            annotations,
            outcome,
        })
    }
}

impl Same for RuleResult {
    fn is_same(&self, other: &Self) -> bool {
        self.kind.is_same(&other.kind)
            && self.name.is_same(&other.name)
            && self.annotations.is_same(&other.annotations)
            && self.outcome.is_same(&other.outcome)
    }
}

impl PartialEq for RuleResult {
    ghost use Rattle.std.specs.Cmp;
    ghost use Rattle.rl_rules.specs.SameCoded.{same_coded, same_coded-equiv};
    ghost use Rattle.rl_rules.specs.contracts.evaluation.RuleResult as result_type;

    ghost eq = { same_coded result_type.the_row.coded };

    ghost laws = { Cmp.partial_equiv_from_equiv (same_coded-equiv result_type.the_row.coded) };

    fn eq(&self, other: &Self) -> bool
        ensures coded { result ≡ same_coded result_type.the_row.coded self.now other.now }
        ensures one { IsTrue result ↔ (self.now ≡ other.now) }
    {
        self.is_same(other)
    }
}

impl Eq for RuleResult {
    ghost use Rattle.rl_rules.specs.SameCoded.{same_coded-equiv};
    ghost use Rattle.rl_rules.specs.contracts.evaluation.RuleResult as result_type;

    ghost laws = { same_coded-equiv result_type.the_row.coded };
}

impl TryCopy for Evaluation {
    fn try_copy(&self) -> Result<Self, AllocError> {
        let group = self.group.try_copy()?;
        let places = self.places.try_copy()?;
        let outcomes = self.outcomes.try_copy()?;
        Ok(Evaluation {
            group,
            t: self.t,
            places,
            outcomes,
        })
    }
}

impl Same for Evaluation {
    fn is_same(&self, other: &Self) -> bool {
        self.t == other.t
            && self.group.is_same(&other.group)
            && self.places.is_same(&other.places)
            && self.outcomes.is_same(&other.outcomes)
    }
}

impl PartialEq for Evaluation {
    ghost use Rattle.std.specs.Cmp;
    ghost use Rattle.rl_rules.specs.SameCoded.{same_coded, same_coded-equiv};
    ghost use Rattle.rl_rules.specs.contracts.evaluation.Evaluation as evaluation_type;

    ghost eq = { same_coded evaluation_type.the_row.coded };

    ghost laws = { Cmp.partial_equiv_from_equiv (same_coded-equiv evaluation_type.the_row.coded) };

    fn eq(&self, other: &Self) -> bool
        ensures coded { result ≡ same_coded evaluation_type.the_row.coded self.now other.now }
        ensures one { IsTrue result ↔ (self.now ≡ other.now) }
    {
        self.is_same(other)
    }
}

impl Eq for Evaluation {
    ghost use Rattle.rl_rules.specs.SameCoded.{same_coded-equiv};
    ghost use Rattle.rl_rules.specs.contracts.evaluation.Evaluation as evaluation_type;

    ghost laws = { same_coded-equiv evaluation_type.the_row.coded };
}
