//! A cache of the outcome of a query, with what its terms added up to.
ghost use Rattle.std.specs.Prelude.{◌≡◌, length, true, IfOk, IfSome};
ghost use Rattle.std.specs.List.{AllByRecursion};
ghost use Rattle.rl_aggregate.specs.Evaluated.{finished, terms_of};
ghost use Rattle.rl_aggregate.specs.Limited.{IsLimited};

use crate::outcome::Outcome;
use crate::partial::Partial;
use crate::vector::finish;
use rl_plain::{PlainList, Same, Shared, TryCopy};
use rl_query::Query;
use std::alloc::{AllocError, Global};
use std::marker::Model;

/// A cache of outcomes: finishes a query at one evaluation after the other. Where its terms add up to what they did the last
/// time, the outcome is copied.
#[derive(Drop)]
pub struct OutcomeCache {
    last: Option<Finished>,
}

// A query, what its terms added up to, and its outcome.
#[derive(Drop)]
struct Finished {
    query: Query,
    partials: PlainList<Shared<Partial>>,
    outcome: Outcome,
}

impl Model for Finished {
    ghost use Rattle.std.specs.Prelude.{◌≡◌};
    ghost use Rattle.rl_aggregate.specs.Evaluated.{finished};
    ghost use Rattle.rl_aggregate.specs.declared.outcome.Outcome.{Outcome};
    ghost use Rattle.rl_aggregate.specs.contracts.outcome.Outcome as outcome_type;

    ghost Value = { Outcome };

    ghost coded = { outcome_type.the_row.coded };

    ghost view = { λ a. a.outcome };

    ghost invariant = { λ a. a.outcome ≡ finished a.query a.partials };
}

impl Finished {
    // Whether it is that of the query, whose terms add up to this.
    fn is_of(&self, query: &Query, partials: &[Shared<Partial>]) -> bool
        ensures { result ≡ true → self.now ≡ finished query.now partials.now }
    {
        are_same(self.partials.as_slice(), partials) && self.query.is_same(query)
    }
}

impl OutcomeCache {
    /// An empty cache.
    pub fn new() -> OutcomeCache {
        OutcomeCache { last: None }
    }

    /// The outcome of a query, with one partial for each of its terms.
    pub fn finish(
        &mut self,
        alloc: Global,
        query: &Query,
        partials: &[Shared<Partial>],
    ) -> Result<Outcome, AllocError>
        requires partials { length partials.now ≡ length (terms_of query.now) }
        requires limited { AllByRecursion IsLimited partials.now }
        ensures { IfOk result (λ outcome. outcome ≡ finished query.now partials.now) }
    {
        if let Some(outcome) = known(&self.last, query, partials)? {
            return Ok(outcome);
        }
        let outcome = finish(alloc, query, partials)?;
        self.last = Some(kept(alloc, query, partials, &outcome)?);
        Ok(outcome)
    }
}

// The outcome of the query, if it was the last and its terms added up to this.
fn known(
    last: &Option<Finished>,
    query: &Query,
    partials: &[Shared<Partial>],
) -> Result<Option<Outcome>, AllocError>
    ensures { IfOk result (λ known. IfSome known (λ outcome. outcome ≡ finished query.now partials.now)) }
{
    match last {
        Some(last) if last.is_of(query, partials) => Ok(Some(last.outcome.try_copy()?)),
        _ => Ok(None),
    }
}

// A copy of a query and of its outcome, with what its terms added up to.
fn kept(
    alloc: Global,
    query: &Query,
    partials: &[Shared<Partial>],
    outcome: &Outcome,
) -> Result<Finished, AllocError>
    requires { outcome.now ≡ finished query.now partials.now }
{
    let mut shared = Vec::with_capacity(alloc, partials.len())?;
    for partial in partials {
        shared.push(partial.try_copy()?)?;
    }
    let query = query.try_copy()?;
    let outcome = outcome.try_copy()?;
    Ok(Finished {
        query,
        partials: PlainList::from_vec(shared),
        outcome,
    })
}

// Whether both lists have equal partials, one by one.
fn are_same(partials: &[Shared<Partial>], others: &[Shared<Partial>]) -> bool
    ensures { result ≡ true → partials.now ≡ others.now }
{
    if partials.len() != others.len() {
        return false;
    }
    for (index, partial) in partials.iter().enumerate() {
        if !partial.is_same(&others[index]) {
            return false;
        }
    }
    true
}
