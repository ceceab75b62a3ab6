//! What an edit of a group hands on of its alerts.
ghost use Rattle.std.specs.Prelude.{◌≡◌, IfOk, length, zip};
ghost use Rattle.rl_rules.specs.Editing.{handed_on};
ghost use Rattle.rl_world.specs.History.{alerts_edited};

use rl_plain::{PlainList, TryCopy};
use rl_rules::{Alert, Group, KeptRule, Rule, hand_on};
use std::alloc::{AllocError, Global};

/// What is kept of the rules of a group, given the rules before with their alerts.
pub(crate) fn kept_of(
    alloc: Global,
    group: &Group,
    before: Vec<(Rule, PlainList<Alert>)>,
) -> Result<Vec<KeptRule>, AllocError>
    ensures alerts { IfOk result (λ kept. kept.items ≡ handed_on group.now.rules before.items) }
    ensures each { IfOk result (λ kept. length kept.items ≡ length group.now.rules) }
{
    let kept = hand_on(alloc, group.rules.as_slice(), before)?;
    Ok(kept)
}

/// What is kept of the rules of an edited group, by the group before and what was kept of its rules.
pub(crate) fn kept_edited(
    alloc: Global,
    old: &Group,
    kept: &[KeptRule],
    new: &Group,
) -> Result<Vec<KeptRule>, AllocError>
    ensures alerts { IfOk result (λ handed. handed.items ≡ alerts_edited old.now kept.now new.now) }
    ensures each { IfOk result (λ handed. length handed.items ≡ length new.now.rules) }
{
    let before = rules_with_alerts(alloc, old.rules.as_slice(), kept)?;
    kept_of(alloc, new, before)
}

// Each rule with its alerts, as copies.
fn rules_with_alerts(
    alloc: Global,
    rules: &[Rule],
    kept: &[KeptRule],
) -> Result<Vec<(Rule, PlainList<Alert>)>, AllocError>
    ensures { IfOk result (λ both. both.items ≡ zip rules.now kept.now) }
{
    let mut both = Vec::new(alloc);
    for index in 0..rules.len().min(kept.len()) {
        let rule = rules[index].try_copy()?;
        let own = kept[index].alerts().try_copy()?;
        both.push((rule, own))?;
    }
    Ok(both)
}
