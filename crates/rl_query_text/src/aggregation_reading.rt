//! Groupings and operators of vector aggregations, and thresholds, read from their tokens.
ghost use Rattle.std.specs.Prelude.{◌≡◌, ◌==◌, ◌<◌, nat_le, Some, IfOk, IfSome, IsTrue, length, position};
ghost use Rattle.std.specs.Char.{is_ascii_digit};
ghost use Rattle.std.specs.List.{list_all};
ghost use Rattle.rl_labels.specs.Decimals.{decimal_of};
ghost use Rattle.rl_plain.specs.Answers.{Gives, Answers};
ghost use Rattle.rl_query.specs.Aggregations.{is_top, is_operator, is_grouping, is_threshold, top_of, threshold_of};
ghost use Rattle.rl_query_text.specs.AggregationReading.{label_name, name_follows, named_at, names_in, grouped_at, groups_loudly, grouping_at, top_at, topk_at, operator_at, is_operator_word, nested, front_at, back_at, ended_at, are_digits, is_digits, number_at, compared_by, threshold_at};
ghost use Rattle.rl_query.specs.Form.{aggregation_form, threshold_form};
ghost use Rattle.rl_selector_text.specs.Parsing.{listed_at};
ghost use Rattle.rl_query.specs.Tables.{plain_operator};

use crate::range_reading::opened_at;
use rl_labels::labels::is_label_name;
use rl_labels::{Decimal, number_of};
use rl_plain::{PlainList, PlainText, TryCopy};
use rl_query::aggregation::{Aggregation, Grouping, Threshold, VectorOperator};
use rl_query::fault::QueryFault;
use rl_query::quantity_test::Comparison;
use rl_query::token::{Lexeme, Sign, Token};
use rl_selector_text::front::{Position, expected, is_sign, name_of, next, refusal};
use rl_selector_text::room::Room;
use rl_selector_text::stop::{Stop, Stopped, offset_of};
use rl_selector_text::testing::{comparison_of, is_word};
use std::alloc::Global;

/// What stands before the term in a vector aggregation.
#[derive(Drop)]
pub struct Front {
    pub operator: VectorOperator,
    /// The grouping before the parentheses.
    pub grouping: Grouping,
    /// How many vector aggregations may still come.
    pub nest: usize,
    /// What may still come in the parentheses.
    pub room: Room,
}

// The name of a label.
fn label_name(lexeme: &Lexeme) -> Result<&PlainText, Stop>
    ensures { Answers (λ name. name.now) result (label_name lexeme.now.offset lexeme.now.token) }
{
    let name = name_of(lexeme)?;
    if is_label_name(name.as_str()) {
        return Ok(name);
    }
    Err(Stop::syntax(lexeme.offset))
}

// Whether another name follows.
fn name_follows(lexeme: &Lexeme) -> Result<bool, Stop>
    ensures { result ≡ name_follows lexeme.now.offset lexeme.now.token }
{
    if is_sign(Sign::Comma, &lexeme.token) {
        return Ok(true);
    }
    if is_sign(Sign::CloseParenthesis, &lexeme.token) {
        return Ok(false);
    }
    Err(refusal(Position::Elsewhere, lexeme.offset, &lexeme.token))
}

// A name, and whether another follows.
#[tactic(auto, unfolding(crate::specs::AggregationReading::named_at))]
fn named_at(lexemes: &[Lexeme]) -> Result<(PlainText, bool, &[Lexeme]), Stopped>
    ensures { Gives (λ x. (x.0, x.1, x.2.now)) result (named_at lexemes.now) }
{
    let (first, rest) = next(lexemes)?;
    let name = label_name(first)?;
    let (sign, rest) = next(rest)?;
    let more = name_follows(sign)?;
    let name = name.try_copy()?;
    Ok((name, more, rest))
}

// Names joined by commas, up to the closing parenthesis.
fn names_at(alloc: Global, lexemes: &[Lexeme]) -> Result<(Vec<PlainText>, &[Lexeme]), Stopped>
    ensures { Gives (λ x. (x.0.items, x.1.now)) result (listed_at named_at (length lexemes.now) lexemes.now) }
{
    let mut names = Vec::new(alloc);
    let mut rest = lexemes;
    for _turn in 0..lexemes.len() {
        let (name, more, following) = named_at(rest)?;
        names.push(name)?;
        if !more {
            return Ok((names, following));
        }
        rest = following;
    }
    Err(Stopped::Fault(Stop::syntax(0)))
}

// Such names, or none.
#[tactic(auto, unfolding(crate::specs::AggregationReading::names_in))]
fn names_in(alloc: Global, lexemes: &[Lexeme]) -> Result<(Vec<PlainText>, &[Lexeme]), Stopped>
    ensures { Gives (λ x. (x.0.items, x.1.now)) result (names_in lexemes.now) }
{
    let (first, rest) = next(lexemes)?;
    if is_sign(Sign::CloseParenthesis, &first.token) {
        return Ok((Vec::new(alloc), rest));
    }
    names_at(alloc, lexemes)
}

// The names of a grouping in their parentheses.
#[tactic(auto, unfolding(crate::specs::AggregationReading::grouped_at))]
fn grouped_at(
    alloc: Global,
    room: Room,
    lexemes: &[Lexeme],
) -> Result<(PlainList<PlainText>, &[Lexeme]), Stopped>
    ensures { Gives (λ x. (x.0, x.1.now)) result (grouped_at room lexemes.now) }
{
    let (_, rest) = opened_at(Position::Elsewhere, room, lexemes)?;
    let (names, rest) = names_in(alloc, rest)?;
    Ok((PlainList::from_vec(names), rest))
}

// A word of groupings in another case.
fn groups_loudly(token: &Token) -> bool
    ensures { result ≡ groups_loudly token.now }
{
    match token {
        Token::Word(word) => {
            let word = word.as_str();
            word.eq_ignore_ascii_case("by") || word.eq_ignore_ascii_case("without")
        }
        _ => false,
    }
}

// A grouping, of all where none comes.
#[tactic(auto, unfolding(crate::specs::AggregationReading::grouping_at))]
fn grouping_in(
    alloc: Global,
    room: Room,
    lexemes: &[Lexeme],
) -> Result<(Grouping, &[Lexeme]), Stopped>
    ensures { Gives (λ x. (x.0, x.1.now)) result (grouping_at room lexemes.now) }
{
    let (first, rest) = next(lexemes)?;
    if is_word("by", &first.token) {
        let (names, rest) = grouped_at(alloc, room, rest)?;
        return Ok((Grouping::By(names), rest));
    }
    if is_word("without", &first.token) {
        let (names, rest) = grouped_at(alloc, room, rest)?;
        return Ok((Grouping::Without(names), rest));
    }
    if groups_loudly(&first.token) {
        return Err(Stopped::Fault(Stop::unsupported(first.offset)));
    }
    Ok((Grouping::All, lexemes))
}

// A grouping, by names that labels may have.
#[tactic(auto, using(crate::proofs::AggregationProductions::grouping_named))]
fn grouping_at(
    alloc: Global,
    room: Room,
    lexemes: &[Lexeme],
) -> Result<(Grouping, &[Lexeme]), Stopped>
    ensures read { Gives (λ x. (x.0, x.1.now)) result (grouping_at room lexemes.now) }
    ensures named { IfOk result (λ x. IsTrue (is_grouping x.0)) }
{
    grouping_in(alloc, room, lexemes)
}

// The number of samples that topk keeps.
fn top_of(number: &str) -> Option<u16>
    ensures top { result ≡ top_of number.now }
    ensures proper { IfSome result (λ top. IsTrue (is_top top)) }
{
    let top = number_of(number.as_bytes(), 15)?;
    if top >= 1 && top <= 65_535 {
        return Some(top as u16);
    }
    None
}

fn top_at(lexeme: &Lexeme) -> Result<u16, Stop>
    ensures top { result ≡ top_at lexeme.now.offset lexeme.now.token }
    ensures proper { IfOk result (λ top. IsTrue (is_top top)) }
{
    match &lexeme.token {
        Token::Number(number) => top_of(number.as_str()).ok_or(Stop::unsupported(lexeme.offset)),
        token => Err(refusal(Position::InParameter, lexeme.offset, token)),
    }
}

// That number and a comma.
#[tactic(auto, unfolding(crate::specs::AggregationReading::topk_at))]
fn topk_at(lexemes: &[Lexeme]) -> Result<(VectorOperator, &[Lexeme]), Stop>
    ensures read { Answers (λ x. (x.0, x.1.now)) result (topk_at lexemes.now) }
    ensures proper { IfOk result (λ x. IsTrue (is_operator x.0)) }
{
    let (number, rest) = next(lexemes)?;
    let top = top_at(number)?;
    let rest = expected(Sign::Comma, Position::Elsewhere, rest)?;
    Ok((VectorOperator::Topk(top), rest))
}

// The operator without a number of samples whose word it is.
fn plain_operator(word: &str) -> Option<VectorOperator>
    ensures operator { result ≡ plain_operator word.now }
    ensures proper { IfSome result (λ operator. IsTrue (is_operator operator)) }
{
    match word {
        "sum" => Some(VectorOperator::Sum),
        "count" => Some(VectorOperator::Count),
        "min" => Some(VectorOperator::Min),
        "max" => Some(VectorOperator::Max),
        _ => None,
    }
}

// The operator of the word, and the number that topk has.
fn operator_at<'a>(
    word: &str,
    lexemes: &'a [Lexeme],
) -> Result<(VectorOperator, &'a [Lexeme]), Stop>
    ensures read { Answers (λ x. (x.0, x.1.now)) result (operator_at word.now lexemes.now) }
    ensures proper { IfOk result (λ x. IsTrue (is_operator x.0)) }
{
    match plain_operator(word) {
        Some(operator) => Ok((operator, lexemes)),
        None => topk_at(lexemes),
    }
}

// The word of a vector aggregation.
pub(crate) fn is_operator_word(word: &str) -> bool
    ensures { result ≡ is_operator_word word.now }
{
    plain_operator(word).is_some() || word == "topk"
}

// One vector aggregation more.
fn nested(offset: usize, nest: usize) -> Result<usize, Stop>
    ensures { result ≡ nested offset nest }
{
    if nest == 0 {
        return Err(Stop::new(QueryFault::TooDeep, offset));
    }
    Ok(nest - 1)
}

// What follows the word of a vector aggregation, up to the term in it.
#[tactic(auto, unfolding(crate::specs::AggregationReading::front_at))]
pub(crate) fn front_at<'a>(
    alloc: Global,
    word: &str,
    nest: usize,
    room: Room,
    lexemes: &'a [Lexeme],
) -> Result<(Front, &'a [Lexeme]), Stopped>
    ensures read { Gives (λ x. (x.0, x.1.now)) result (front_at word.now nest room lexemes.now) }
    ensures proper { IfOk result (λ x. IsTrue (is_operator x.0.operator)) }
    ensures named { IfOk result (λ x. IsTrue (is_grouping x.0.grouping)) }
{
    let nest = nested(offset_of(lexemes), nest)?;
    let (grouping, rest) = grouping_at(alloc, room, lexemes)?;
    let (room, rest) = opened_at(Position::Elsewhere, room, rest)?;
    let (operator, rest) = operator_at(word, rest)?;
    let front = Front {
        operator,
        grouping,
        nest,
        room,
    };
    Ok((front, rest))
}

// The grouping after the parentheses, where none stands before them.
fn back_at(
    alloc: Global,
    front: Grouping,
    room: Room,
    lexemes: &[Lexeme],
) -> Result<(Grouping, &[Lexeme]), Stopped>
    requires { IsTrue (is_grouping front) }
    ensures read { Gives (λ x. (x.0, x.1.now)) result (back_at front room lexemes.now) }
    ensures named { IfOk result (λ x. IsTrue (is_grouping x.0)) }
{
    match front {
        Grouping::All => grouping_at(alloc, room, lexemes),
        front => Ok((front, lexemes)),
    }
}

// The parenthesis after the term of a vector aggregation, and the grouping.
#[tactic(auto, unfolding(crate::specs::AggregationReading::ended_at))]
pub(crate) fn ended_at(
    alloc: Global,
    front: Front,
    room: Room,
    lexemes: &[Lexeme],
) -> Result<(Aggregation, &[Lexeme]), Stopped>
    requires proper { IsTrue (is_operator front.operator) }
    requires named { IsTrue (is_grouping front.grouping) }
    ensures { Gives (λ x. (aggregation_form x.0, x.1.now)) result (ended_at front room lexemes.now) }
{
    let rest = expected(Sign::CloseParenthesis, Position::AfterTerm, lexemes)?;
    let operator = front.operator;
    let (grouping, rest) = back_at(alloc, front.grouping, room, rest)?;
    Ok((Aggregation { operator, grouping }, rest))
}

// Digits and nothing else.
fn all_digits(bytes: &[u8]) -> bool
    ensures { result ≡ list_all is_ascii_digit bytes.now }
{
    bytes.iter().all(|byte| byte.is_ascii_digit())
}

// Digits, one at least.
fn are_digits(bytes: &[u8]) -> bool
    ensures { result ≡ are_digits bytes.now }
{
    !bytes.is_empty() && all_digits(bytes)
}

// The index of the first point.
fn point_in(text: &[u8]) -> Option<usize>
    ensures offset { result ≡ position (λ b. b == 46) text.now }
    ensures inside { IfSome result (λ offset. offset < length text.now) }
{
    text.iter().position(|byte| *byte == b'.')
}

// Digits, and perhaps a point and digits after it.
fn is_digits(number: &[u8]) -> bool
    ensures { result ≡ is_digits number.now }
{
    match point_in(number) {
        Some(offset) => {
            are_digits(number.split_at(offset).0) && are_digits(number.split_at(offset + 1).1)
        }
        None => are_digits(number),
    }
}

// Whether at most six digits follow the point.
fn has_few_digits(number: &[u8], value: Decimal) -> bool
    requires { decimal_of 9 number.now ≡ Some value }
    ensures { result ≡ nat_le value.digits 6 }
{
    match point_in(number) {
        Some(offset) => number.len() - offset - 1 <= 6,
        None => true,
    }
}

// The threshold that a number writes.
fn threshold_of(number: &str) -> Option<Decimal>
    ensures value { result ≡ threshold_of number.now }
    ensures proper { IfSome result (λ value. IsTrue (is_threshold value)) }
{
    let value = Decimal::of_digits(number.as_bytes(), 9)?;
    if has_few_digits(number.as_bytes(), value) {
        return Some(value);
    }
    None
}

fn number_at(lexeme: &Lexeme) -> Result<Decimal, Stop>
    ensures value { result ≡ number_at lexeme.now.offset lexeme.now.token }
    ensures proper { IfOk result (λ value. IsTrue (is_threshold value)) }
{
    match &lexeme.token {
        Token::Number(number) => match threshold_of(number.as_str()) {
            Some(value) => Ok(value),
            None => Err(if is_digits(number.as_str().as_bytes()) {
                Stop::unsupported(lexeme.offset)
            } else {
                Stop::syntax(lexeme.offset)
            }),
        },
        token => Err(refusal(Position::InThreshold, lexeme.offset, token)),
    }
}

// The comparison of a threshold that a token is.
pub(crate) fn compared_by(token: &Token) -> Option<Comparison>
    ensures { result ≡ compared_by token.now }
{
    match token {
        Token::Sign(Sign::Equal) => None,
        Token::Sign(sign) => comparison_of(*sign),
        _ => None,
    }
}

// The number after a comparison.
#[tactic(auto, unfolding(crate::specs::AggregationReading::threshold_at))]
pub(crate) fn threshold_at(
    comparison: Comparison,
    lexemes: &[Lexeme],
) -> Result<(Threshold, &[Lexeme]), Stop>
    ensures { Answers (λ x. (threshold_form x.0, x.1.now)) result (threshold_at comparison lexemes.now) }
{
    let (first, rest) = next(lexemes)?;
    let value = number_at(first)?;
    Ok((Threshold { comparison, value }, rest))
}
