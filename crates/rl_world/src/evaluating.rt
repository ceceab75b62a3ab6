//! The evaluation of a group, on the partials that its shards gave.
ghost use Rattle.std.specs.Prelude.{◌≡◌, ◌≤◌, map, length, option_to_list, flat_map, IfOk};
ghost use Rattle.std.specs.List.{AllByRecursion};
ghost use Rattle.std.specs.Option.{unwrap_or};
ghost use Rattle.rl_aggregate.specs.Evaluated.{terms_of};
ghost use Rattle.rl_aggregate.specs.Limited.{IsLimited};
ghost use Rattle.rl_aggregate.specs.Partials.{merge, Fits};
ghost use Rattle.rl_world.specs.Evaluating.{group_terms};
ghost use Rattle.rl_world.specs.History.{alerts_then};
ghost use Rattle.rl_world.specs.Kept.{evaluation_from, merged_from, merged_terms, results_from, no_partial};
ghost use Rattle.rl_world.specs.ShardAnswers.{IsKept, HasTerm, most_shards};

use crate::opened::{Gathered, OpenPartials};
use rl_aggregate::{Partial, merge};
use rl_labels::Ns;
use rl_plain::{PlainList, Shared, TryCopy};
use rl_query::Query;
use rl_records::Terms;
use rl_rules::{Alert, Evaluation, Group, KeptRule, RuleResult};
use std::alloc::{AllocError, Global};

/// What a book has of each shard: the partials of the group's terms, once the shard was asked.
pub(crate) type ShardAnswer = Option<Gathered<PlainList<Shared<Partial>>>>;

/// The terms of the group's rules, in their order.
pub(crate) fn terms_of_group(alloc: Global, group: &Group) -> Result<Terms, AllocError>
    ensures { IfOk result (λ terms. terms ≡ group_terms group.now) }
{
    let mut terms = Vec::new(alloc);
    for rule in group.rules.as_slice() {
        terms.push(rule.query.left.try_copy()?)?;
        if let Some(over) = &rule.query.over {
            terms.push(over.try_copy()?)?;
        }
    }
    let terms = Terms::new(alloc, terms)?;
    Ok(terms)
}

/// The evaluation of the group, which has `terms` terms, and the alerts that it leaves to each rule.
pub(crate) fn evaluate(
    alloc: Global,
    group: &Group,
    terms: usize,
    kept: &mut [KeptRule],
    opened: &OpenPartials,
) -> Result<(Shared<Evaluation>, Vec<PlainList<Alert>>), AllocError>
    requires terms { terms ≡ length (group_terms group.now) }
    requires each { length kept.old ≡ length group.now.rules }
    requires shards { length opened.now.gathered ≤ most_shards }
    requires answers { AllByRecursion (IsKept terms) opened.now.gathered }
    ensures evaluation { IfOk result (λ made. made.0 ≡ evaluation_from group.now kept.old opened.now) }
    ensures alerts { IfOk result (λ made. made.1.items ≡ alerts_then kept.old made.0.outcomes) }
    ensures each { IfOk result (λ made. length made.1.items ≡ length kept.old) }
    ensures same { kept.new ≡ kept.old }
{
    let answers = opened.gathered.as_slice();
    let (outcomes, left) = group_results(alloc, group, terms, opened.t, kept, answers)?;
    let places = places(alloc, answers)?;
    let name = group.name.try_copy()?;
    let evaluation = Evaluation {
        group: name,
        t: opened.t,
        places: PlainList::from_vec(places),
        outcomes: PlainList::from_vec(outcomes),
    };
    let shared = Shared::new(alloc, evaluation)?;
    Ok((shared, left))
}

// The results of the group's rules on what all shards have, and the alerts that are left. What a lone shard has is lent.
fn group_results(
    alloc: Global,
    group: &Group,
    terms: usize,
    t: Ns,
    kept: &mut [KeptRule],
    answers: &[ShardAnswer],
) -> Result<(Vec<RuleResult>, Vec<PlainList<Alert>>), AllocError>
    requires terms { terms ≡ length (group_terms group.now) }
    requires each { length kept.old ≡ length group.now.rules }
    requires shards { length answers.now ≤ most_shards }
    requires answers { AllByRecursion (IsKept terms) answers.now }
    ensures results { IfOk result (λ made. made.0.items ≡ results_from group.now.limit t group.now.rules kept.old (merged_terms 0 terms (flat_map option_to_list answers.now))) }
    ensures alerts { IfOk result (λ made. made.1.items ≡ alerts_then kept.old made.0.items) }
    ensures each { IfOk result (λ made. length made.1.items ≡ length kept.old) }
    ensures same { kept.new ≡ kept.old }
{
    if let [shard_answer] = answers {
        if let Some(answer) = shard_answer {
            return results(alloc, group, t, kept, answer.shown.as_slice());
        }
    }
    let partials = merged_terms(alloc, answers, terms)?;
    results(alloc, group, t, kept, &partials)
}

// Where the journals of the shards that were asked have the question.
fn places(alloc: Global, answers: &[ShardAnswer]) -> Result<Vec<u64>, AllocError>
    ensures { IfOk result (λ places. places.items ≡ map (λ answer. answer.place) (flat_map option_to_list answers.now)) }
{
    let mut places = Vec::with_capacity(alloc, answers.len())?;
    for shard_answer in answers {
        if let Some(answer) = shard_answer {
            places.push(answer.place)?;
        }
    }
    Ok(places)
}

// For each term, the merge of what the shards have of it.
fn merged_terms(
    alloc: Global,
    answers: &[ShardAnswer],
    terms: usize,
) -> Result<Vec<Shared<Partial>>, AllocError>
    requires shards { length answers.now ≤ most_shards }
    requires answers { AllByRecursion (IsKept terms) answers.now }
    ensures { IfOk result (λ partials. partials.items ≡ merged_terms 0 terms (flat_map option_to_list answers.now)) }
{
    let mut partials = Vec::with_capacity(alloc, terms)?;
    for term in 0..terms {
        let partial = merged(alloc, answers, term)?;
        let shared = Shared::new(alloc, partial)?;
        partials.push(shared)?;
    }
    Ok(partials)
}

// The merge of what the shards have of one term.
fn merged(alloc: Global, answers: &[ShardAnswer], term: usize) -> Result<Partial, AllocError>
    requires shards { length answers.now ≤ most_shards }
    requires answers { AllByRecursion (HasTerm term) answers.now }
    ensures { IfOk result (λ sum. sum ≡ merged_from no_partial term (flat_map option_to_list answers.now)) }
{
    let mut sum = None;
    for shard_answer in answers {
        if let Some(answer) = shard_answer {
            let both = merge_first(sum, answer.shown.as_slice()[term].get())?;
            sum = Some(both);
        }
    }
    match sum {
        Some(all) => Ok(all),
        None => Ok(Partial::empty(alloc)),
    }
}

// The merge with what is there so far; the first is copied.
fn merge_first(sum: Option<Partial>, own: &Partial) -> Result<Partial, AllocError>
    requires { Fits (merge (unwrap_or sum no_partial) own.now) }
    ensures { IfOk result (λ both. both ≡ merge (unwrap_or sum no_partial) own.now) }
{
    match sum {
        None => own.try_copy(),
        Some(before) => merge(before, own),
    }
}

// Each rule with its own alerts on the partials of its own terms, under the limit of the group, and the alerts that are
// left to each.
fn results(
    alloc: Global,
    group: &Group,
    t: Ns,
    kept: &mut [KeptRule],
    partials: &[Shared<Partial>],
) -> Result<(Vec<RuleResult>, Vec<PlainList<Alert>>), AllocError>
    requires terms { length partials.now ≡ length (group_terms group.now) }
    requires limited { AllByRecursion IsLimited partials.now }
    requires each { length kept.old ≡ length group.now.rules }
    ensures results { IfOk result (λ made. made.0.items ≡ results_from group.now.limit t group.now.rules kept.old partials.now) }
    ensures alerts { IfOk result (λ made. made.1.items ≡ alerts_then kept.old (results_from group.now.limit t group.now.rules kept.old partials.now)) }
    ensures each { IfOk result (λ made. length made.1.items ≡ length kept.old) }
    ensures same { kept.new ≡ kept.old }
{
    let rules = group.rules.as_slice();
    let mut results = Vec::with_capacity(alloc, rules.len())?;
    let mut left = Vec::with_capacity(alloc, rules.len())?;
    let mut rest = partials;
    for (index, rule) in rules.iter().enumerate() {
        let (own, others) = rest.split_at(count_terms(&rule.query));
        let (result, alerts) = kept[index].step(rule, group.limit, own, t)?;
        results.push(result)?;
        left.push(alerts)?;
        rest = others;
    }
    Ok((results, left))
}

// How many terms the query has.
fn count_terms(query: &Query) -> usize
    ensures { result ≡ length (terms_of query.now) }
{
    1 + usize::from(query.over.is_some())
}
