//! What a rule makes of the outcome of its query.
ghost use Rattle.std.specs.Prelude.{◌≡◌, map, IfOk, OnOk, Ok};
ghost use Rattle.std.specs.List.Sorted.{IsPermutation, IsSorted};
ghost use Rattle.rl_rules.specs.Outcomes.{rule_step, outcome_of, made_by, alerts_left, kept_at, final_samples, is_exceeded};
ghost use Rattle.rl_rules.specs.Recording.{named, named_by, sample_cmp, has_same_neighbours};

use crate::alert::Alert;
use crate::alerting::alerts_after;
use crate::evaluation::{Cause, RuleOutcome};
use crate::naming::LabelSetCache;
use crate::rule::{Rule, RuleKind};
use rl_aggregate::{Outcome, Sample};
use rl_labels::Ns;
use rl_plain::{PlainList, TryCopy};
use std::alloc::AllocError;

/// The alerts that a rule has after a moment, and what it makes of the outcome of its query, in a group with this limit and
/// with the alerts that it had before. Where the query failed it takes no memory, and is never refused. What the cache of label
/// sets has of the last evaluation is shared.
pub fn step_rule(
    rule: &Rule,
    limit: u64,
    alerts: PlainList<Alert>,
    outcome: Outcome,
    label_set_cache: &mut LabelSetCache,
    t: Ns,
) -> Result<(PlainList<Alert>, RuleOutcome), AllocError>
    ensures stepped { IfOk result (λ step. step ≡ rule_step rule.now limit alerts outcome t) }
    ensures failed { outcome ≡ Outcome.Failed → result ≡ Ok (alerts, RuleOutcome.Failed Cause.PipelineError) }
{
    match outcome {
        Outcome::Vector(samples) => {
            let made = make(rule, limit, &alerts, samples.into_vec(), label_set_cache, t)?;
            Ok((alerts_left(alerts, &made)?, made))
        }
        Outcome::Failed => {
            let left = kept_at(Cause::PipelineError, alerts);
            Ok((left, RuleOutcome::Failed(Cause::PipelineError)))
        }
    }
}

// The alerts that an outcome leaves to a rule that had these.
fn alerts_left(alerts: PlainList<Alert>, made: &RuleOutcome) -> Result<PlainList<Alert>, AllocError>
    ensures { IfOk result (λ left. left ≡ alerts_left alerts made.now) }
{
    match made {
        RuleOutcome::Samples(_) => Ok(PlainList::new(alerts.allocator())),
        RuleOutcome::Alerts(now) => now.try_copy(),
        RuleOutcome::Failed(cause) => Ok(kept_at(*cause, alerts)),
    }
}

// The alerts that a rule keeps where it failed.
fn kept_at(cause: Cause, alerts: PlainList<Alert>) -> PlainList<Alert>
    ensures { result ≡ kept_at cause alerts }
{
    match cause {
        Cause::PipelineError | Cause::SameLabels => alerts,
        Cause::LimitExceeded => PlainList::new(alerts.allocator()),
    }
}

// What the rule makes of its samples, under their final label sets and in the order of these.
fn make(
    rule: &Rule,
    limit: u64,
    alerts: &PlainList<Alert>,
    samples: Vec<Sample>,
    label_set_cache: &mut LabelSetCache,
    t: Ns,
) -> Result<RuleOutcome, AllocError>
    ensures { IfOk result (λ made. made ≡ outcome_of limit (made_by rule.now.kind rule.now.hold alerts.now t) (final_samples rule.now samples.items)) }
{
    let exceeded = is_exceeded(limit, samples.len());
    let samples = final_samples(rule, samples, label_set_cache)?;
    if has_same_neighbours(&samples) {
        return Ok(RuleOutcome::Failed(Cause::SameLabels));
    }
    if exceeded {
        return Ok(RuleOutcome::Failed(Cause::LimitExceeded));
    }
    made_by(rule, alerts, samples, t)
}

fn made_by(
    rule: &Rule,
    alerts: &PlainList<Alert>,
    samples: Vec<Sample>,
    t: Ns,
) -> Result<RuleOutcome, AllocError>
    ensures { IfOk result (λ made. made ≡ made_by rule.now.kind rule.now.hold alerts.now t samples.items) }
{
    match rule.kind {
        RuleKind::Recording => Ok(RuleOutcome::Samples(PlainList::from_vec(samples))),
        RuleKind::Alerting => {
            let after = alerts_after(
                alerts.allocator(),
                rule.hold,
                t,
                &samples,
                alerts.as_slice(),
            )?;
            Ok(RuleOutcome::Alerts(PlainList::from_vec(after)))
        }
    }
}

// The samples under their final label sets, sorted by these.
fn final_samples(
    rule: &Rule,
    mut samples: Vec<Sample>,
    label_set_cache: &mut LabelSetCache,
) -> Result<Vec<Sample>, AllocError>
    ensures moved { IfOk result (λ sorted. IsPermutation (map (named rule.now) samples.items) sorted.items) }
    ensures in_order { IfOk result (λ sorted. IsSorted sample_cmp sorted.items) }
{
    label_set_cache.begin(rule)?;
    name_samples(&mut samples, label_set_cache)?;
    label_set_cache.end();
    sort_samples(&mut samples);
    Ok(samples)
}

// Puts each sample under the final label set that the cache gives it.
fn name_samples(
    samples: &mut [Sample],
    label_set_cache: &mut LabelSetCache,
) -> Result<(), AllocError>
    ensures { OnOk result (samples.new ≡ map (named_by label_set_cache.old) samples.old) }
{
    for sample in samples.iter_mut() {
        sample.labels = label_set_cache.named(&sample.labels)?;
    }
    Ok(())
}

// Whether `count` samples are more than the limit; 0 is no limit.
fn is_exceeded(limit: u64, count: usize) -> bool
    ensures { result ≡ is_exceeded limit count }
{
    limit > 0 && count as u64 > limit
}

// Sorts the samples by label set.
fn sort_samples(samples: &mut [Sample])
    ensures moved { IsPermutation samples.old samples.new }
    ensures in_order { IsSorted sample_cmp samples.new }
{
    samples.sort_unstable_by(|sample, other| sample.labels.cmp(&other.labels));
}

// Whether two neighbours have one label set.
fn has_same_neighbours(samples: &[Sample]) -> bool
    ensures { result ≡ has_same_neighbours samples.now }
{
    for index in 1..samples.len() {
        if samples[index - 1].labels == samples[index].labels {
            return true;
        }
    }
    false
}
