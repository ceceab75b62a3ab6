//! What a query gives, of what its terms add up to.
ghost use Rattle.std.specs.Prelude.{◌≡◌, ◌<◌, length, IfOk, IsOk};
ghost use Rattle.std.specs.List.{AllByRecursion};
ghost use Rattle.rl_aggregate.specs.Evaluated.{finished, have_errors, over_vector, query_vector, samples_by, term_vector, tested_by, terms_of, IsEvaluated, IsAbsent};
ghost use Rattle.rl_aggregate.specs.Limited.{IsLimited};
ghost use Rattle.rl_aggregate.specs.Vectors.{IsOfQuery};
ghost use Rattle.rl_aggregate.specs.declared.outcome.Outcome.TheVariants as outcomes;

use crate::absence::absence;
use crate::aggregation::aggregate_all;
use crate::outcome::{Outcome, Sample};
use crate::partial::Partial;
use crate::ratio::divide;
use crate::threshold::compare;
use crate::totals::Totals;
use rl_plain::{PlainList, Shared};
use rl_query::{Query, RangeFunction, Term, Threshold};
use std::alloc::{AllocError, Global};

/// The outcome of a query, with one partial for each of its terms. A query that fails takes no memory.
pub fn finish(
    alloc: Global,
    query: &Query,
    partials: &[Shared<Partial>],
) -> Result<Outcome, AllocError>
    requires partials { length partials.now ≡ length (terms_of query.now) }
    requires limited { AllByRecursion IsLimited partials.now }
    ensures finished { IfOk result (λ outcome. outcome ≡ finished query.now partials.now) }
    ensures failed { finished query.now partials.now ≡ outcomes.Failed → IsOk result }
    ensures evaluated { IfOk result (IsEvaluated query.now partials.now) }
    ensures absent { IfOk result (IsAbsent query.now partials.now) }
{
    if have_errors(partials) {
        return Ok(Outcome::Failed);
    }
    let samples = query_vector(alloc, query, partials)?;
    Ok(Outcome::Vector(PlainList::from_vec(samples)))
}

// Whether a line of some term has an error.
fn have_errors(partials: &[Shared<Partial>]) -> bool
    ensures { result ≡ have_errors partials.now }
{
    partials.iter().any(|partial| partial.get().errors > 0)
}

// The vector of a query.
fn query_vector(
    alloc: Global,
    query: &Query,
    partials: &[Shared<Partial>],
) -> Result<Vec<Sample>, AllocError>
    requires partials { length partials.now ≡ length (terms_of query.now) }
    requires limited { AllByRecursion IsLimited partials.now }
    ensures { IfOk result (λ samples. samples.items ≡ query_vector query.now partials.now) }
{
    match partials {
        [] => Ok(Vec::new(alloc)),
        [partial, rest @ ..] => {
            let samples = quotient(alloc, query, partial.get(), rest)?;
            Ok(tested_by(&query.test, samples))
        }
    }
}

// The vector of a query's term, over that of its divisor, if it has one.
fn quotient(
    alloc: Global,
    query: &Query,
    partial: &Partial,
    rest: &[Shared<Partial>],
) -> Result<Vec<Sample>, AllocError>
    requires limited { IsLimited partial.now }
    requires rest_limited { AllByRecursion IsLimited rest.now }
    ensures quotient { IfOk result (λ samples. samples.items ≡ over_vector query.now.over (term_vector query.now.left partial.now.totals) rest.now) }
    ensures small { IfOk result (λ samples. AllByRecursion IsOfQuery samples.items) }
{
    let samples = term_vector(alloc, &query.left, partial)?;
    match (&query.over, rest) {
        (Some(term), [divisor, ..]) => {
            let divisors = term_vector(alloc, term, divisor.get())?;
            divide(alloc, samples, &divisors)
        }
        _ => Ok(samples),
    }
}

// The vector of a term without errors.
fn term_vector(alloc: Global, term: &Term, partial: &Partial) -> Result<Vec<Sample>, AllocError>
    requires { IsLimited partial.now }
    ensures { IfOk result (λ samples. samples.items ≡ term_vector term.now partial.now.totals) }
{
    let samples = samples_of(alloc, term, &partial.totals)?;
    aggregate_all(alloc, term.aggregations.as_slice(), samples)
}

// What a threshold leaves of a vector, if there is one.
fn tested_by(test: &Option<Threshold>, samples: Vec<Sample>) -> Vec<Sample>
    requires { AllByRecursion IsOfQuery samples.items }
    ensures { result.items ≡ tested_by test.now samples.items }
{
    match test {
        Some(test) => compare(samples, test),
        None => samples,
    }
}

// The samples that a range aggregation gives of totals.
fn samples_of(alloc: Global, term: &Term, totals: &Totals) -> Result<Vec<Sample>, AllocError>
    ensures { IfOk result (λ samples. samples.items ≡ samples_by term.now.function term.now totals.now) }
{
    match term.function {
        RangeFunction::AbsentOverTime => {
            absence(alloc, term.range.selector.matchers.as_slice(), totals)
        }
        _ => totals.samples(alloc, term),
    }
}
