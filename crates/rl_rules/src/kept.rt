//! What is kept of a rule from one evaluation to the next.
ghost use Rattle.std.specs.Prelude.{◌≡◌, length, IfOk};
ghost use Rattle.std.specs.List.{AllByRecursion};
ghost use Rattle.rl_aggregate.specs.Evaluated.{finished, terms_of};
ghost use Rattle.rl_aggregate.specs.Limited.{IsLimited};
ghost use Rattle.rl_rules.specs.Outcomes.{alerts_left, result_of};

use crate::alert::Alert;
use crate::evaluation::RuleResult;
use crate::naming::LabelSetCache;
use crate::rule::Rule;
use crate::stepping::step_rule;
use rl_aggregate::{OutcomeCache, Partial};
use rl_labels::Ns;
use rl_plain::{PlainList, Shared, TryCopy};
use std::alloc::{AllocError, Global};
use std::marker::Model;

/// What is kept of a rule from one evaluation to the next: its alerts, and the outcome and the final label sets of the last
/// evaluation, which the next one shares where they are the same. Contracts see the alerts.
#[derive(Drop)]
pub struct KeptRule {
    alerts: PlainList<Alert>,
    outcome_cache: OutcomeCache,
    label_set_cache: LabelSetCache,
}

impl Model for KeptRule {
    ghost use Rattle.std.specs.Prelude.{List};
    ghost use Rattle.std.specs.Coded.{coded_list};
    ghost use Rattle.rl_rules.specs.declared.alert.Alert.{Alert};
    ghost use Rattle.rl_rules.specs.contracts.alert.Alert as alert_type;

    ghost Value = { List Alert };

    ghost coded = { coded_list alert_type.the_row.coded };

    ghost view = { λ a. a.alerts };
}

impl KeptRule {
    /// A rule that has these alerts, and no evaluation to share with.
    pub fn new(alloc: Global, alerts: PlainList<Alert>) -> KeptRule
        ensures { result ≡ alerts }
    {
        KeptRule {
            alerts,
            outcome_cache: OutcomeCache::new(),
            label_set_cache: LabelSetCache::new(alloc),
        }
    }

    /// The alerts that it has.
    pub fn alerts(&self) -> &PlainList<Alert>
        ensures { result.now ≡ self.now }
    {
        &self.alerts
    }

    /// What the rule makes at a moment of what its terms add up to, under the limit of its group, and the alerts that this
    /// leaves to it. It has those from `keep` on.
    pub fn step(
        &mut self,
        rule: &Rule,
        limit: u64,
        partials: &[Shared<Partial>],
        t: Ns,
    ) -> Result<(RuleResult, PlainList<Alert>), AllocError>
        requires terms { length partials.now ≡ length (terms_of rule.now.query) }
        requires limited { AllByRecursion IsLimited partials.now }
        ensures result { IfOk result (λ made. made.0 ≡ result_of limit t rule.now self.old (finished rule.now.query partials.now)) }
        ensures left { IfOk result (λ made. made.1 ≡ alerts_left self.old made.0.outcome) }
        ensures same { self.new ≡ self.old }
    {
        let alloc = self.alerts.allocator();
        let outcome = self.outcome_cache.finish(alloc, &rule.query, partials)?;
        let had = self.alerts.try_copy()?;
        let (left, outcome) = step_rule(rule, limit, had, outcome, &mut self.label_set_cache, t)?;
        let name = rule.name.try_copy()?;
        let annotations = rule.annotations.try_copy()?;
        let result = RuleResult {
            kind: rule.kind,
            name,
            annotations,
            outcome,
        };
        Ok((result, left))
    }

    /// It has these alerts from now on.
    pub fn keep(&mut self, alerts: PlainList<Alert>)
        ensures { self.new ≡ alerts }
    {
        self.alerts = alerts;
    }
}
