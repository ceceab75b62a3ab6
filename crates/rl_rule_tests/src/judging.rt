//! Whether what rules gave is what is wanted of them.
ghost use Rattle.std.specs.Prelude.{◌≡◌, ◌++◌, map, IfOk, OnOk};
ghost use Rattle.std.specs.Option.{option_map};
ghost use Rattle.std.specs.List.{filter, flat_map};
ghost use Rattle.std.specs.Cmp.Lexicographic.{pointwise};
ghost use Rattle.rl_rule_tests.specs.Judging.{agrees, alert_row, failure_after, failure_of, form, has_annotations, has_state, has_value, is_named, is_of, meets, results_of, rows_of, sample_row, IsOutcome};

use crate::document::Check;
use crate::number::{Number, are_equal};
use crate::rows::{Outcome, Row};
use rl_aggregate::Sample;
use rl_labels::Labels;
use rl_plain::Shared;
use rl_rules::{Alert, AlertState, Cause, Evaluation, RuleOutcome, RuleResult};
use std::alloc::{AllocError, Global};

/// What the rules of a check gave, of these evaluations. More than one may have its name.
pub(crate) fn results_of<'a>(
    alloc: Global,
    check: &Check<'_>,
    evaluations: &'a [Shared<Evaluation>],
) -> Result<Vec<&'a RuleResult>, AllocError>
    ensures { IfOk result (λ results. map (λ one. one.now) results.items ≡ results_of check.now evaluations.now) }
{
    let mut results = Vec::new(alloc);
    for evaluation in evaluations {
        let evaluation = evaluation.get();
        if is_named(check.group, evaluation.group.as_str()) {
            push_results(&mut results, check, evaluation.outcomes.as_slice())?;
        }
    }
    Ok(results)
}

fn push_results<'a>(
    results: &mut Vec<&'a RuleResult>,
    check: &Check<'_>,
    outcomes: &'a [RuleResult],
) -> Result<(), AllocError>
    ensures { OnOk result (map (λ one. one.now) results.new.items ≡ map (λ one. one.now) results.old.items ++ filter (is_of check.now) outcomes.now) }
{
    for outcome in outcomes {
        if is_of(check, outcome) {
            results.push(outcome)?;
        }
    }
    Ok(())
}

// Whether a rule of the check gave it.
fn is_of(check: &Check<'_>, given: &RuleResult) -> bool
    ensures { result ≡ is_of check.now given.now }
{
    given.kind == check.kind && given.name.as_str() == check.name
}

/// Whether a group that is named, if one is, has the name.
pub(crate) fn is_named(group: Option<&str>, name: &str) -> bool
    ensures { result ≡ is_named group.entry name.now }
{
    match group {
        Some(group) => group == name,
        None => true,
    }
}

/// What rules gave, all together.
pub(crate) fn given<'a>(
    alloc: Global,
    results: &[&'a RuleResult],
) -> Result<Outcome<'a>, AllocError>
    ensures { IfOk result (IsOutcome (failure_of (map (λ one. one.now) results.now)) (flat_map rows_of (map (λ one. one.now) results.now))) }
{
    let mut failed = None;
    let mut rows = Vec::new(alloc);
    for one in results {
        push_rows(&mut rows, one)?;
        failed = failure_after(failed, &one.outcome);
    }
    Outcome::of(failed, rows)
}

// Why a rule failed, or one before it.
fn failure_after(failed: Option<Cause>, outcome: &RuleOutcome) -> Option<Cause>
    ensures { result ≡ failure_after failed outcome.now }
{
    match outcome {
        RuleOutcome::Failed(cause) => Some(*cause),
        RuleOutcome::Samples(_) | RuleOutcome::Alerts(_) => failed,
    }
}

fn push_rows<'a>(rows: &mut Vec<Row<'a>>, own: &'a RuleResult) -> Result<(), AllocError>
    ensures { OnOk result (map form rows.new.items ≡ map form rows.old.items ++ rows_of own.now) }
{
    match &own.outcome {
        RuleOutcome::Samples(samples) => push_samples(rows, samples.as_slice()),
        RuleOutcome::Alerts(alerts) => push_alerts(rows, &own.annotations, alerts.as_slice()),
        RuleOutcome::Failed(_) => Ok(()),
    }
}

fn push_samples<'a>(rows: &mut Vec<Row<'a>>, samples: &'a [Sample]) -> Result<(), AllocError>
    ensures { OnOk result (map form rows.new.items ≡ map form rows.old.items ++ map sample_row samples.now) }
{
    for sample in samples {
        rows.push(Row {
            labels: &sample.labels,
            state: None,
            value: Some(Number::computed(sample.value)),
            annotations: None,
        })?;
    }
    Ok(())
}

fn push_alerts<'a>(
    rows: &mut Vec<Row<'a>>,
    annotations: &'a Labels,
    alerts: &'a [Alert],
) -> Result<(), AllocError>
    ensures { OnOk result (map form rows.new.items ≡ map form rows.old.items ++ map (alert_row annotations.now) alerts.now) }
{
    for alert in alerts {
        rows.push(Row {
            labels: &alert.labels,
            state: Some(alert.state),
            value: Some(Number::computed(alert.value)),
            annotations: Some(annotations),
        })?;
    }
    Ok(())
}

/// Whether what was given is what is wanted: the same failure, or rows that meet each other one by one.
pub(crate) fn agree(wanted: &Outcome<'_>, given: &Outcome<'_>) -> bool
    ensures { result ≡ agrees wanted.now.failed given.now.failed (map form wanted.now.rows.items) (map form given.now.rows.items) }
{
    match (wanted.failed, given.failed) {
        (None, None) => rows_agree(&wanted.rows, &given.rows),
        (Some(cause), Some(other)) => cause == other,
        (Some(_), None) | (None, Some(_)) => false,
    }
}

fn rows_agree(wanted: &[Row<'_>], given: &[Row<'_>]) -> bool
    ensures { result ≡ pointwise meets (map form wanted.now) (map form given.now) }
{
    if wanted.len() != given.len() {
        return false;
    }
    for index in 0..wanted.len() {
        if !meets(&wanted[index], &given[index]) {
            return false;
        }
    }
    true
}

/// Whether a row is one that is wanted: its labels, and its state, value and annotations where these are looked at.
pub(crate) fn meets(wanted: &Row<'_>, given: &Row<'_>) -> bool
    ensures { result ≡ meets (form wanted.now) (form given.now) }
{
    wanted.labels == given.labels
        && has_state(wanted.state, given.state)
        && has_value(wanted.value, given.value)
        && has_annotations(wanted.annotations, given.annotations)
}

fn has_state(wanted: Option<AlertState>, given: Option<AlertState>) -> bool
    ensures { result ≡ has_state wanted given }
{
    match (wanted, given) {
        (Some(wanted), Some(given)) => wanted == given,
        (wanted, _) => wanted.is_none(),
    }
}

fn has_value(wanted: Option<Number<'_>>, given: Option<Number<'_>>) -> bool
    ensures { result ≡ has_value (option_map (λ number. number.fraction) wanted.entry) (option_map (λ number. number.fraction) given.entry) }
{
    match (wanted, given) {
        (Some(wanted), Some(given)) => are_equal(wanted.fraction, given.fraction),
        (wanted, _) => wanted.is_none(),
    }
}

fn has_annotations(wanted: Option<&Labels>, given: Option<&Labels>) -> bool
    ensures { result ≡ has_annotations (option_map (λ labels. labels.now) wanted.entry) (option_map (λ labels. labels.now) given.entry) }
{
    match (wanted, given) {
        (Some(wanted), Some(given)) => wanted == given,
        (wanted, _) => wanted.is_none(),
    }
}
