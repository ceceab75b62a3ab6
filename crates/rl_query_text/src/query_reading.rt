//! Queries, read from their tokens: ratios of terms and their thresholds.
ghost use Rattle.std.specs.Prelude.{◌≡◌, ◌-◌, Ok, IfOk, suc, map, option_map};
ghost use Rattle.rl_plain.specs.Answers.{Gives, Answers};
ghost use Rattle.rl_query_text.specs.Drafts.{term_draft, query_draft, KeepsQuery};
ghost use Rattle.rl_query.specs.Form.{stage_form, tests_of, label_tests, query_form, threshold_form};
ghost use Rattle.rl_query.specs.TestTree.{count_tests};
ghost use Rattle.rl_query_text.specs.QueryReading.{in_parentheses, room_after, is_term, over_at, divided_at, comes_to_test, compared_at, with_test, lone_at, operand_at, after_at, query_within, ends, whole_room, whole_at, query_in};
ghost use Rattle.rl_selector_text.specs.declared.front.Position.TheVariants as positions;

use crate::aggregation_reading::{compared_by, threshold_at};
use crate::draft::{DraftQuery, DraftTerm, made_query};
use crate::range_reading::opened_at;
use crate::term_reading::term_at;
use rl_query::aggregation::Threshold;
use rl_query::label_test::{LabelTests, TestParts};
use rl_query::quantity_test::Comparison;
use rl_query::query::Query;
use rl_query::stages::Stage;
use rl_query::token::{Lexeme, Sign, Token};
use rl_selector_text::front::{Position, expected, is_sign, next, refusal};
use rl_selector_text::room::Room;
use rl_selector_text::stage::MOST_STAGES;
use rl_selector_text::stop::{Stop, Stopped};
use std::alloc::Global;

// The most parentheses that are open at once.
const MOST_PARENTHESES: usize = 64;

// The most label tests of a text.
const MOST_TESTS: usize = 256;

// How many label tests may still come after some.
fn left_after_tests(tests: &LabelTests, left: usize) -> usize
    ensures { result ≡ left - count_tests tests.now }
{
    match tests.parts() {
        TestParts::One(_) => left.saturating_sub(1),
        TestParts::Joined(_, one, other) => left_after_tests(other, left_after_tests(one, left)),
    }
}

fn left_after_stage(stage: &Stage, left: usize) -> usize
    ensures { result ≡ left - tests_of (stage_form stage.now) }
{
    match stage {
        Stage::Filter(_) | Stage::Parser(_) => left,
        Stage::Tests(tests) => left_after_tests(tests, left),
    }
}

fn left_after_stages(stages: &[Stage], left: usize) -> usize
    ensures { result ≡ left - label_tests (map stage_form stages.now) }
{
    match stages {
        [] => left,
        [first, rest @ ..] => left_after_stages(rest, left_after_stage(first, left)),
    }
}

// What a text may still have after a term.
fn room_after(term: &DraftTerm, room: Room) -> Room
    ensures { result ≡ room_after (term_draft term.now) room }
{
    Room {
        depth: room.depth,
        stages: room.stages.saturating_sub(term.range.stages.len()),
        tests: left_after_stages(&term.range.stages, room.tests),
    }
}

// A term that is not divided or compared.
fn is_term(query: &DraftQuery) -> bool
    ensures { result ≡ is_term (query_draft query.now) }
{
    query.over.is_none() && query.test.is_none()
}

// The divisor after a term.
#[tactic(auto, unfolding(crate::specs::QueryReading::over_at))]
fn over_at(
    alloc: Global,
    left: DraftTerm,
    room: Room,
    lexemes: &[Lexeme],
) -> Result<(DraftQuery, &[Lexeme]), Stopped>
    ensures { Gives (λ x. (query_draft x.0, x.1.now)) result (over_at (term_draft left) room lexemes.now) }
{
    let room = room_after(&left, room);
    let (over, rest) = term_at(alloc, Position::Divisor, room, lexemes)?;
    let query = DraftQuery {
        left,
        over: Some(over),
        test: None,
    };
    Ok((query, rest))
}

// The divisor, where a slash comes.
#[tactic(auto, unfolding(crate::specs::QueryReading::divided_at))]
fn divided_at(
    alloc: Global,
    query: DraftQuery,
    room: Room,
    lexemes: &[Lexeme],
) -> Result<(DraftQuery, &[Lexeme]), Stopped>
    ensures { Gives (λ x. (query_draft x.0, x.1.now)) result (divided_at (query_draft query) room lexemes.now) }
{
    let (first, rest) = next(lexemes)?;
    if is_term(&query) && is_sign(Sign::Slash, &first.token) {
        return over_at(alloc, query.left, room, rest);
    }
    Ok((query, lexemes))
}

// The comparison that comes, where the query has none.
fn comes_to_test(query: &DraftQuery, token: &Token) -> Option<Comparison>
    ensures { result ≡ comes_to_test (query_draft query.now) token.now }
{
    if query.test.is_some() {
        return None;
    }
    compared_by(token)
}

// The threshold after a quotient, where a comparison comes.
#[tactic(auto, unfolding(crate::specs::QueryReading::compared_at))]
fn compared_at<'a>(
    query: &DraftQuery,
    lexemes: &'a [Lexeme],
) -> Result<(Option<Threshold>, &'a [Lexeme]), Stop>
    ensures { Answers (λ x. (option_map threshold_form x.0, x.1.now)) result (compared_at (query_draft query.now) lexemes.now) }
{
    let (first, rest) = next(lexemes)?;
    match comes_to_test(query, &first.token) {
        Some(comparison) => match threshold_at(comparison, rest) {
            Ok((test, rest)) => Ok((Some(test), rest)),
            Err(fault) => Err(fault),
        },
        None => Ok((None, lexemes)),
    }
}

// The query with the threshold that was read after it.
fn with_test(query: DraftQuery, test: Option<Threshold>) -> DraftQuery
    ensures { query_draft result ≡ with_test (query_draft query) (option_map threshold_form test) }
{
    match test {
        Some(test) => DraftQuery {
            left: query.left,
            over: query.over,
            test: Some(test),
        },
        None => query,
    }
}

// What an operand is divided by and compared with.
#[tactic(auto, unfolding(crate::specs::QueryReading::after_at))]
fn after_at(
    alloc: Global,
    operand: DraftQuery,
    room: Room,
    lexemes: &[Lexeme],
) -> Result<(DraftQuery, &[Lexeme]), Stopped>
    ensures { Gives (λ x. (query_draft x.0, x.1.now)) result (after_at (query_draft operand) room lexemes.now) }
{
    let (query, rest) = divided_at(alloc, operand, room, lexemes)?;
    match compared_at(&query, rest) {
        Ok((test, rest)) => Ok((with_test(query, test), rest)),
        Err(fault) => Err(Stopped::Fault(fault)),
    }
}

// A term as a query.
#[tactic(auto, unfolding(crate::specs::QueryReading::lone_at))]
fn lone_at(
    alloc: Global,
    room: Room,
    lexemes: &[Lexeme],
) -> Result<(DraftQuery, &[Lexeme]), Stopped>
    ensures { Gives (λ x. (query_draft x.0, x.1.now)) result (lone_at room lexemes.now) }
{
    let (left, rest) = term_at(alloc, Position::Start, room, lexemes)?;
    let query = DraftQuery {
        left,
        over: None,
        test: None,
    };
    Ok((query, rest))
}

// A query in parentheses.
#[cycle(queries)]
#[tactic(auto, unfolding(crate::specs::QueryReading::in_parentheses))]
fn inner_at(
    alloc: Global,
    room: Room,
    lexemes: &[Lexeme],
) -> Result<(DraftQuery, &[Lexeme]), Stopped>
    ensures { Gives (λ x. (query_draft x.0, x.1.now)) result (in_parentheses positions.Start (query_within room.depth) room lexemes.now) }
{
    let (inside, rest) = opened_at(Position::Start, room, lexemes)?;
    let (query, rest) = query_at(alloc, inside, rest)?;
    let rest = expected(Sign::CloseParenthesis, Position::AfterTerm, rest)?;
    Ok((query, rest))
}

// A query in parentheses, or a term.
#[cycle(queries)]
#[tactic(auto, unfolding(crate::specs::QueryReading::operand_at))]
fn operand_at(
    alloc: Global,
    room: Room,
    lexemes: &[Lexeme],
) -> Result<(DraftQuery, &[Lexeme]), Stopped>
    ensures { Gives (λ x. (query_draft x.0, x.1.now)) result (operand_at (query_within room.depth) room lexemes.now) }
{
    let (first, _) = next(lexemes)?;
    if is_sign(Sign::OpenParenthesis, &first.token) {
        return inner_at(alloc, room, lexemes);
    }
    lone_at(alloc, room, lexemes)
}

// An operand, and what follows it.
#[cycle(queries)]
#[tactic(auto, unfolding(crate::specs::QueryReading::query_by))]
fn query_at(
    alloc: Global,
    room: Room,
    lexemes: &[Lexeme],
) -> Result<(DraftQuery, &[Lexeme]), Stopped>
    ensures { Gives (λ x. (query_draft x.0, x.1.now)) result (query_within (suc room.depth) room lexemes.now) }
{
    let (operand, rest) = operand_at(alloc, room, lexemes)?;
    let (query, rest) = after_at(alloc, operand, room, rest)?;
    Ok((query, rest))
}

// Nothing follows a query.
fn ends(lexeme: &Lexeme) -> Result<(), Stop>
    ensures { result ≡ ends lexeme.now.offset lexeme.now.token }
{
    match &lexeme.token {
        Token::End => Ok(()),
        token => Err(refusal(Position::AfterTerm, lexeme.offset, token)),
    }
}

// All that a text may have.
fn whole_room() -> Room
    ensures { result ≡ whole_room }
{
    Room {
        depth: MOST_PARENTHESES,
        stages: MOST_STAGES,
        tests: MOST_TESTS,
    }
}

// A query with all of that.
fn whole_at(alloc: Global, lexemes: &[Lexeme]) -> Result<(DraftQuery, &[Lexeme]), Stopped>
    ensures read { Gives (λ x. (query_draft x.0, x.1.now)) result (whole_at lexemes.now) }
    ensures keeps { IfOk result (λ x. KeepsQuery x.0) }
{
    query_at(alloc, whole_room(), lexemes)
}

// The query that all tokens are.
#[tactic(auto, unfolding(crate::specs::QueryReading::query_in))]
pub(crate) fn query_in(alloc: Global, lexemes: &[Lexeme]) -> Result<Query, Stopped>
    ensures { Gives query_form result (query_in lexemes.now) }
{
    let (query, rest) = whole_at(alloc, lexemes)?;
    let (lexeme, _) = next(rest)?;
    ends(lexeme)?;
    Ok(made_query(query))
}
