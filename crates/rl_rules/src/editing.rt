//! What an edit of a group hands on: the alerts of each rule that stays.
ghost use Rattle.std.specs.Prelude.{◌≡◌, IfOk};
ghost use Rattle.rl_rules.specs.Editing.{taken, handed_on};
ghost use Rattle.rl_rules.specs.SameRule.{is_same_rule};

use crate::alert::Alert;
use crate::kept::KeptRule;
use crate::rule::Rule;
use rl_plain::{PlainList, Same};
use std::alloc::{AllocError, Global};

/// What is kept of the rules of an edited group, given the rules before with their alerts: each rule in order takes those of the
/// first rule before that is equal in all fields and was not yet taken, and none where there is no such rule.
pub fn hand_on(
    alloc: Global,
    rules: &[Rule],
    mut before: Vec<(Rule, PlainList<Alert>)>,
) -> Result<Vec<KeptRule>, AllocError>
    ensures { IfOk result (λ kept. kept.items ≡ handed_on rules.now before.items) }
{
    let mut kept = Vec::with_capacity(alloc, rules.len())?;
    for rule in rules {
        let own = take_first(&mut before, rule);
        let alerts = own.unwrap_or(PlainList::new(alloc));
        kept.push(KeptRule::new(alloc, alerts))?;
    }
    Ok(kept)
}

// Removes the first rule that is equal, if there is one: its alerts.
fn take_first(before: &mut Vec<(Rule, PlainList<Alert>)>, rule: &Rule) -> Option<PlainList<Alert>>
    ensures { (result, before.new.items) ≡ taken rule.now before.old.items }
{
    for index in 0..before.len() {
        if is_same_rule(&before[index].0, rule) {
            return Some(before.remove(index).1);
        }
    }
    None
}

fn is_same_rule(one: &Rule, other: &Rule) -> bool
    ensures { result ≡ is_same_rule one.now other.now }
{
    one.is_same(other)
}
