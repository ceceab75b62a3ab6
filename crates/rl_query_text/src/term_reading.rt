//! Terms, read from their tokens: vector aggregations around a range aggregation.
ghost use Rattle.std.specs.Prelude.{◌≡◌, Ok, IfOk, suc};
ghost use Rattle.rl_plain.specs.Answers.{Gives};
ghost use Rattle.rl_query_text.specs.Drafts.{term_draft};
ghost use Rattle.rl_query.specs.Form.{aggregation_form};
ghost use Rattle.rl_query_text.specs.QueryReading.{in_parentheses, around, aggregated_at, ranged_at, worded_at, term_in, term_at};
ghost use Rattle.rl_selector_text.specs.declared.front.Position.TheVariants as positions;

use crate::aggregation_reading::{ended_at, front_at, is_operator_word};
use crate::draft::DraftTerm;
use crate::range_reading::{opened_at, range_at};
use rl_query::aggregation::Aggregation;
use rl_query::query::RangeFunction;
use rl_query::token::{Lexeme, Sign, Token};
use rl_selector_text::front::{Position, expected, is_sign, next, refusal, refused_word};
use rl_selector_text::room::Room;
use rl_selector_text::stop::Stopped;
use std::alloc::{AllocError, Global};

// The most vector aggregations of a term.
const MOST_AGGREGATIONS: usize = 8;

// A vector aggregation around a term.
fn around(aggregation: Aggregation, term: DraftTerm) -> Result<DraftTerm, AllocError>
    ensures { IfOk result (λ whole. term_draft whole ≡ around (aggregation_form aggregation) (term_draft term)) }
{
    let mut aggregations = term.aggregations;
    aggregations.insert(0, aggregation)?;
    Ok(DraftTerm {
        aggregations,
        function: term.function,
        range: term.range,
    })
}

// A range aggregation after its name.
#[tactic(auto, unfolding(crate::specs::QueryReading::ranged_at))]
fn ranged_at(
    alloc: Global,
    function: RangeFunction,
    room: Room,
    lexemes: &[Lexeme],
) -> Result<(DraftTerm, &[Lexeme]), Stopped>
    ensures { Gives (λ x. (term_draft x.0, x.1.now)) result (ranged_at function room lexemes.now) }
{
    let (range, rest) = range_at(alloc, room, lexemes)?;
    let aggregations = Vec::new(alloc);
    let term = DraftTerm {
        aggregations,
        function,
        range,
    };
    Ok((term, rest))
}

// A vector aggregation after its word.
#[cycle(terms)]
#[tactic(auto, unfolding(crate::specs::QueryReading::aggregated_at))]
fn aggregated_at<'a>(
    alloc: Global,
    word: &str,
    nest: usize,
    room: Room,
    lexemes: &'a [Lexeme],
) -> Result<(DraftTerm, &'a [Lexeme]), Stopped>
    ensures { Gives (λ x. (term_draft x.0, x.1.now)) result (aggregated_at (term_in room.depth) word.now nest room lexemes.now) }
{
    let (front, rest) = front_at(alloc, word, nest, room, lexemes)?;
    let (term, rest) = term_in(alloc, Position::InTerm, front.nest, front.room, rest)?;
    let (aggregation, rest) = ended_at(alloc, front, room, rest)?;
    let term = around(aggregation, term)?;
    Ok((term, rest))
}

// A term in parentheses.
#[cycle(terms)]
#[tactic(auto, unfolding(crate::specs::QueryReading::in_parentheses))]
fn enclosed_at(
    alloc: Global,
    nest: usize,
    room: Room,
    lexemes: &[Lexeme],
) -> Result<(DraftTerm, &[Lexeme]), Stopped>
    ensures { Gives (λ x. (term_draft x.0, x.1.now)) result (in_parentheses positions.InTerm (term_in room.depth positions.InTerm nest) room lexemes.now) }
{
    let (inside, rest) = opened_at(Position::InTerm, room, lexemes)?;
    let (term, rest) = term_in(alloc, Position::InTerm, nest, inside, rest)?;
    let rest = expected(Sign::CloseParenthesis, Position::AfterTerm, rest)?;
    Ok((term, rest))
}

// A term after its first word.
#[cycle(terms)]
fn worded_at<'a>(
    alloc: Global,
    position: Position,
    offset: usize,
    word: &str,
    nest: usize,
    room: Room,
    lexemes: &'a [Lexeme],
) -> Result<(DraftTerm, &'a [Lexeme]), Stopped>
    ensures { Gives (λ x. (term_draft x.0, x.1.now)) result (worded_at (term_in room.depth) position offset word.now nest room lexemes.now) }
{
    if is_operator_word(word) {
        return aggregated_at(alloc, word, nest, room, lexemes);
    }
    match RangeFunction::with_text(word) {
        Some(function) => ranged_at(alloc, function, room, lexemes),
        None => Err(Stopped::Fault(refused_word(position, offset, word))),
    }
}

// A term in which `nest` vector aggregations may come.
#[cycle(terms)]
#[tactic(auto, unfolding(crate::specs::QueryReading::term_by))]
fn term_in(
    alloc: Global,
    position: Position,
    nest: usize,
    room: Room,
    lexemes: &[Lexeme],
) -> Result<(DraftTerm, &[Lexeme]), Stopped>
    ensures { Gives (λ x. (term_draft x.0, x.1.now)) result (term_in (suc room.depth) position nest room lexemes.now) }
{
    let (first, rest) = next(lexemes)?;
    match &first.token {
        Token::Word(word) => {
            worded_at(
                alloc,
                position,
                first.offset,
                word.as_str(),
                nest,
                room,
                rest,
            )
        }
        token => {
            if is_sign(Sign::OpenParenthesis, token) {
                return enclosed_at(alloc, nest, room, lexemes);
            }
            Err(Stopped::Fault(refusal(position, first.offset, token)))
        }
    }
}

// A term.
pub(crate) fn term_at(
    alloc: Global,
    position: Position,
    room: Room,
    lexemes: &[Lexeme],
) -> Result<(DraftTerm, &[Lexeme]), Stopped>
    ensures { Gives (λ x. (term_draft x.0, x.1.now)) result (term_at position room lexemes.now) }
{
    term_in(alloc, position, MOST_AGGREGATIONS, room, lexemes)
}
