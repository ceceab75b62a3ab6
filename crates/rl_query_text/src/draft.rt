//! Ranges, terms and queries as they are read, before it is known that they keep their limits.
ghost use Rattle.std.specs.Prelude.{◌≡◌, option_map};
ghost use Rattle.rl_query_text.specs.Drafts.{range_draft, term_draft, query_draft, KeepsRange, KeepsTerm, KeepsOver, KeepsQuery};
ghost use Rattle.rl_query.specs.Form.{range_form, term_form, query_form};

use rl_plain::PlainList;
use rl_query::aggregation::{Aggregation, Threshold};
use rl_query::query::{LogRange, Query, RangeFunction, Selector, Term};
use rl_query::stages::Stage;

/// A range.
#[derive(Drop)]
pub struct DraftRange {
    pub selector: Selector,
    pub stages: Vec<Stage>,
    pub seconds: u64,
}

/// A term.
#[derive(Drop)]
pub struct DraftTerm {
    /// The outermost first.
    pub aggregations: Vec<Aggregation>,
    pub function: RangeFunction,
    pub range: DraftRange,
}

/// A query.
#[derive(Drop)]
pub struct DraftQuery {
    pub left: DraftTerm,
    pub over: Option<DraftTerm>,
    pub test: Option<Threshold>,
}

fn made_range(range: DraftRange) -> LogRange
    requires { KeepsRange range }
    ensures form { range_form result ≡ range_draft range }
    ensures stages { result.stages ≡ range.stages.items }
{
    LogRange {
        selector: range.selector,
        stages: PlainList::from_vec(range.stages),
        seconds: range.seconds,
    }
}

fn made_term(term: DraftTerm) -> Term
    requires { KeepsTerm term }
    ensures form { term_form result ≡ term_draft term }
    ensures stages { result.range.stages ≡ term.range.stages.items }
{
    let range = made_range(term.range);
    Term {
        aggregations: PlainList::from_vec(term.aggregations),
        function: term.function,
        range,
    }
}

fn made_over(over: Option<DraftTerm>) -> Option<Term>
    requires { KeepsOver over }
    ensures form { option_map term_form result ≡ option_map term_draft over }
    ensures stages { option_map (λ term. term.range.stages) result ≡ option_map (λ term. term.range.stages.items) over }
{
    match over {
        Some(over) => Some(made_term(over)),
        None => None,
    }
}

// The query of what was read.
pub(crate) fn made_query(query: DraftQuery) -> Query
    requires { KeepsQuery query }
    ensures { query_form result ≡ query_draft query }
{
    let left = made_term(query.left);
    let over = made_over(query.over);
    Query {
        left,
        over,
        test: query.test,
    }
}
