//! What becomes of the alerts of a rule at a moment.
ghost use Rattle.std.specs.Prelude.{◌≡◌, ◌++◌, map, IfOk, OnOk};
ghost use Rattle.std.specs.BTreeMap as tree;
ghost use Rattle.std.specs.FinMap.{entries, from_entries};
ghost use Rattle.std.specs.Option.{option_copied};
ghost use Rattle.rl_labels.specs.LabelText.{label_set_cmp};
ghost use Rattle.rl_rules.specs.Alerts.{keyed, active_from, fired_of, is_due, standing, gone, all_gone, in_label_order, alerts_after};

use crate::alert::{Alert, AlertState};
use rl_aggregate::Sample;
use rl_labels::{Labels, Ns};
use rl_plain::TryCopy;
use std::alloc::{AllocError, Global};
use std::collections::BTreeMap;

/// The alerts after a moment at which the vector has these samples, under their final label sets. An alert fires once its series
/// has been there for `hold` seconds.
pub(crate) fn alerts_after(
    alloc: Global,
    hold: u64,
    t: Ns,
    samples: &[Sample],
    alerts: &[Alert],
) -> Result<Vec<Alert>, AllocError>
    ensures { IfOk result (λ after. after.items ≡ alerts_after hold t samples.now alerts.now) }
{
    let before = by_labels(alloc, alerts)?;
    let mut after = Vec::new(alloc);
    push_standing(&mut after, hold, t, samples, &before)?;
    push_gone(&mut after, alerts)?;
    in_label_order(alloc, &after)
}

// Adds the alerts of the samples.
fn push_standing(
    after: &mut Vec<Alert>,
    hold: u64,
    t: Ns,
    samples: &[Sample],
    before: &BTreeMap<Labels, Alert>,
) -> Result<(), AllocError>
    ensures { OnOk result (after.new.items ≡ after.old.items ++ map (λ sample. standing hold t sample.labels sample.value (tree.get label_set_cmp before.now sample.labels)) samples.now) }
{
    for sample in samples {
        let alert = standing(hold, t, sample, before.get(&sample.labels))?;
        after.push(alert)?;
    }
    Ok(())
}

// Adds those that are resolved if their series are gone.
fn push_gone(after: &mut Vec<Alert>, alerts: &[Alert]) -> Result<(), AllocError>
    ensures { OnOk result (after.new.items ≡ after.old.items ++ all_gone alerts.now) }
{
    for alert in alerts {
        if let Some(resolved) = gone(alert)? {
            after.push(resolved)?;
        }
    }
    Ok(())
}

// What an alert is whose series is gone, if it is one.
fn gone(alert: &Alert) -> Result<Option<Alert>, AllocError>
    ensures { IfOk result (λ after. after ≡ gone alert.now) }
{
    match alert.state {
        AlertState::Firing => {
            let mut resolved = alert.try_copy()?;
            resolved.state = AlertState::Resolved;
            Ok(Some(resolved))
        }
        AlertState::Pending | AlertState::Resolved => Ok(None),
    }
}

// The alert of a sample that is there.
fn standing(hold: u64, t: Ns, sample: &Sample, before: Option<&Alert>) -> Result<Alert, AllocError>
    ensures { IfOk result (λ alert. alert ≡ standing hold t sample.now.labels sample.now.value (option_copied before.entry)) }
{
    let labels = sample.labels.try_copy()?;
    let active_at = active_from(t, before);
    let due = is_due(hold, active_at, t);
    Ok(Alert {
        labels,
        value: sample.value,
        active_at,
        fired: if due { fired_of(t, before) } else { None },
        state: if due {
            AlertState::Firing
        } else {
            AlertState::Pending
        },
    })
}

fn active_from(t: Ns, before: Option<&Alert>) -> Ns
    ensures { result ≡ active_from t (option_copied before.entry) }
{
    match before {
        Some(alert) if !matches!(alert.state, AlertState::Resolved) => alert.active_at,
        _ => t,
    }
}

fn fired_of(t: Ns, before: Option<&Alert>) -> Option<Ns>
    ensures { result ≡ fired_of t (option_copied before.entry) }
{
    match before {
        Some(alert) if matches!(alert.state, AlertState::Firing) => alert.fired,
        _ => Some(t),
    }
}

// Whether a series has been there for `hold` seconds.
fn is_due(hold: u64, active_at: Ns, t: Ns) -> bool
    ensures { result ≡ is_due hold active_at t }
{
    let held = u128::from(hold) * 1_000_000_000;
    u128::from(active_at.get()) + held <= u128::from(t.get())
}

// The alerts in the order of their label sets, of which the first with one counts.
fn in_label_order(alloc: Global, alerts: &[Alert]) -> Result<Vec<Alert>, AllocError>
    ensures { IfOk result (λ ordered. ordered.items ≡ in_label_order alerts.now) }
{
    let found = by_labels(alloc, alerts)?;
    let mut ordered = Vec::with_capacity(alloc, found.len())?;
    for (_, alert) in found {
        ordered.push(alert)?;
    }
    Ok(ordered)
}

// The alerts by their label sets. They go in from the last to the first, so that the first with a label set counts.
fn by_labels(alloc: Global, alerts: &[Alert]) -> Result<BTreeMap<Labels, Alert>, AllocError>
    ensures { IfOk result (λ found. found.entries ≡ entries (from_entries {R = label_set_cmp} (keyed alerts.now))) }
{
    let mut found = BTreeMap::new(alloc);
    for index in 0..alerts.len() {
        let alert = &alerts[alerts.len() - 1 - index];
        found.insert(alert.labels.try_copy()?, alert.try_copy()?)?;
    }
    Ok(found)
}
