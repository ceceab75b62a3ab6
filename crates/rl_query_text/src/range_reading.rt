//! Ranges, read from their tokens: a selector, stages and a duration in parentheses.
ghost use Rattle.std.specs.Prelude.{◌≡◌, ◌&&◌, ◌-◌, slice_index, ◌<◌, ◌≤◌, [], None, Ok, Err, Some, IfOk, length, map};
ghost use Rattle.std.specs.List.{list_all};
ghost use Rattle.rl_query.specs.Form.{stage_form};
ghost use Rattle.rl_plain.specs.Answers.{Gives, Answers};
ghost use Rattle.rl_selector_text.specs.Fronts.{refusal, next, expected};
ghost use Rattle.rl_query_text.specs.Drafts.{range_draft};
ghost use Rattle.rl_selector_text.specs.Parsing.{selector_at};
ghost use Rattle.rl_query_text.specs.RangeReading.{is_unit_letter, is_duration_byte, looks_like_duration, range_of, seconds_of, checked_range, seconds_at, closed_at, timed_at, closing_at, deeper, opened_at, range_at};
ghost use Rattle.rl_query.specs.Durations.{duration_of};
ghost use Rattle.rl_query.specs.Limits.{longest_range};
ghost use Rattle.std.specs.Char.{is_ascii_digit};

use crate::draft::DraftRange;
use rl_labels::Duration;
use rl_query::duration::{LONGEST_RANGE, duration_of};
use rl_query::fault::QueryFault;
use rl_query::stages::Stage;
use rl_query::token::{Lexeme, Sign, Token};
use rl_selector_text::front::{Position, expected, next, refusal};
use rl_selector_text::room::Room;
use rl_selector_text::selector::selector_at;
use rl_selector_text::stage::{after_stages, stages_at};
use rl_selector_text::stop::{Stop, Stopped, offset_of};
use std::alloc::Global;

// Digits, points and letters of units, with a letter at the end, or a duration as label tests have it.
fn looks_like_duration(number: &str) -> bool
    ensures { result ≡ looks_like_duration number.now }
{
    is_like_duration(number.as_bytes()) || Duration::read(number).is_ok()
}

fn is_like_duration(bytes: &[u8]) -> bool
    ensures { result ≡ (list_all is_duration_byte bytes.now && is_unit_letter (slice_index bytes.now (length bytes.now - 1))) }
{
    are_duration_bytes(bytes) && ends_with_letter(bytes)
}

fn are_duration_bytes(bytes: &[u8]) -> bool
    ensures { result ≡ list_all is_duration_byte bytes.now }
{
    bytes.iter().all(|byte| is_duration_byte(*byte))
}

fn is_duration_byte(byte: u8) -> bool
    ensures { result ≡ is_duration_byte byte }
{
    byte.is_ascii_digit() || byte == b'.' || is_unit_letter(byte)
}

fn is_unit_letter(byte: u8) -> bool
    ensures { result ≡ is_unit_letter byte }
{
    matches!(byte, b'w' | b'd' | b'h' | b'm' | b's' | b'y' | b'n' | b'u')
}

fn ends_with_letter(bytes: &[u8]) -> bool
    ensures { result ≡ is_unit_letter (slice_index bytes.now (length bytes.now - 1)) }
{
    if bytes.is_empty() {
        return false;
    }
    is_unit_letter(bytes[bytes.len() - 1])
}

// The seconds of a range.
fn range_of(lexeme: &Lexeme) -> Result<u64, Stop>
    ensures read { result ≡ range_of lexeme.now.offset lexeme.now.token }
    ensures fits { IfOk result (λ seconds. (1 ≤ seconds) × (seconds ≤ longest_range)) }
{
    match &lexeme.token {
        Token::Number(number) => seconds_of(lexeme.offset, number.as_str()),
        token => Err(refusal(Position::Elsewhere, lexeme.offset, token)),
    }
}

fn seconds_of(offset: usize, number: &str) -> Result<u64, Stop>
    ensures read { result ≡ seconds_of (duration_of number.now) offset number.now }
    ensures fits { IfOk result (λ seconds. (1 ≤ seconds) × (seconds ≤ longest_range)) }
{
    match duration_of(number.as_bytes()) {
        Some(seconds) => checked_range(offset, seconds),
        None => Err(if looks_like_duration(number) {
            Stop::new(QueryFault::BadRange, offset)
        } else {
            Stop::syntax(offset)
        }),
    }
}

fn checked_range(offset: usize, seconds: u64) -> Result<u64, Stop>
    ensures read { result ≡ checked_range offset seconds }
    ensures fits { IfOk result (λ seconds. (1 ≤ seconds) × (seconds ≤ longest_range)) }
{
    if seconds >= 1 && seconds <= LONGEST_RANGE {
        return Ok(seconds);
    }
    Err(Stop::new(QueryFault::BadRange, offset))
}

// The seconds of a range between its brackets.
#[tactic(auto, unfolding(crate::specs::RangeReading::seconds_at))]
fn seconds_at(position: Position, lexemes: &[Lexeme]) -> Result<(u64, &[Lexeme]), Stop>
    ensures read { Answers (λ x. (x.0, x.1.now)) result (seconds_at position lexemes.now) }
    ensures fits { IfOk result (λ x. (1 ≤ x.0) × (x.0 ≤ longest_range)) }
{
    let rest = expected(Sign::OpenBracket, position, lexemes)?;
    let (lexeme, rest) = next(rest)?;
    let seconds = range_of(lexeme)?;
    let rest = expected(Sign::CloseBracket, Position::InRange, rest)?;
    Ok((seconds, rest))
}

// The parenthesis after a range, and the stages before it, if none stand before the range.
#[tactic(auto, unfolding(crate::specs::RangeReading::closed_at))]
fn closed_at(
    alloc: Global,
    room: Room,
    front: Vec<Stage>,
    lexemes: &[Lexeme],
) -> Result<(Vec<Stage>, &[Lexeme]), Stopped>
    ensures { Gives (λ x. (map stage_form x.0.items, x.1.now)) result (closed_at room (map stage_form front.items) lexemes.now) }
{
    if front.is_empty() {
        return staged_at(alloc, room, lexemes);
    }
    let rest = expected(
        Sign::CloseParenthesis,
        Position::AfterFilteredRange,
        lexemes,
    )?;
    Ok((front, rest))
}

// Stages after a range, and the parenthesis.
#[tactic(auto, unfolding(crate::specs::RangeReading::closed_at))]
fn staged_at(
    alloc: Global,
    room: Room,
    lexemes: &[Lexeme],
) -> Result<(Vec<Stage>, &[Lexeme]), Stopped>
    ensures { Gives (λ x. (map stage_form x.0.items, x.1.now)) result (closed_at room [] lexemes.now) }
{
    let (stages, rest) = stages_at(alloc, room, lexemes)?;
    let position = after_stages(Position::AfterRange, &stages);
    let rest = expected(Sign::CloseParenthesis, position, rest)?;
    Ok((stages, rest))
}

// A range in brackets after stages or none, and what closes it.
#[tactic(auto, unfolding(crate::specs::RangeReading::timed_at))]
fn timed_at(
    alloc: Global,
    room: Room,
    front: Vec<Stage>,
    lexemes: &[Lexeme],
) -> Result<(Vec<Stage>, u64, &[Lexeme]), Stopped>
    ensures { Gives (λ x. (map stage_form x.0.items, x.1, x.2.now)) result (timed_at room (map stage_form front.items) lexemes.now) }
{
    let position = after_stages(Position::AfterSelector, &front);
    let (seconds, rest) = seconds_at(position, lexemes)?;
    let (stages, rest) = closed_at(alloc, room, front, rest)?;
    Ok((stages, seconds, rest))
}

// After a selector: stages and a range in brackets, whichever stand first, and the parenthesis.
#[tactic(auto, unfolding(crate::specs::RangeReading::closing_at))]
fn closing_at(
    alloc: Global,
    room: Room,
    lexemes: &[Lexeme],
) -> Result<(Vec<Stage>, u64, &[Lexeme]), Stopped>
    ensures { Gives (λ x. (map stage_form x.0.items, x.1, x.2.now)) result (closing_at room lexemes.now) }
{
    let (front, rest) = stages_at(alloc, room, lexemes)?;
    timed_at(alloc, room, front, rest)
}

// The room inside one parenthesis more.
fn deeper(offset: usize, room: Room) -> Result<Room, Stop>
    ensures { result ≡ deeper offset room.depth room }
{
    if room.depth == 0 {
        return Err(Stop::new(QueryFault::TooDeep, offset));
    }
    Ok(Room {
        depth: room.depth - 1,
        stages: room.stages,
        tests: room.tests,
    })
}

// An opening parenthesis, and the room inside it.
#[tactic(auto, unfolding(crate::specs::RangeReading::opened_at))]
pub(crate) fn opened_at(
    position: Position,
    room: Room,
    lexemes: &[Lexeme],
) -> Result<(Room, &[Lexeme]), Stop>
    ensures { Answers (λ x. (x.0, x.1.now)) result (opened_at position room lexemes.now) }
{
    let following = expected(Sign::OpenParenthesis, position, lexemes)?;
    let inside = deeper(offset_of(lexemes), room)?;
    Ok((inside, following))
}

// The selector, the stages and the range in parentheses, after the name of the aggregation.
#[tactic(auto, unfolding(crate::specs::RangeReading::range_at))]
pub(crate) fn range_at(
    alloc: Global,
    room: Room,
    lexemes: &[Lexeme],
) -> Result<(DraftRange, &[Lexeme]), Stopped>
    ensures { Gives (λ x. (range_draft x.0, x.1.now)) result (range_at room lexemes.now) }
{
    let (inside, rest) = opened_at(Position::Elsewhere, room, lexemes)?;
    let rest = expected(Sign::OpenBrace, Position::Elsewhere, rest)?;
    let (selector, rest) = selector_at(alloc, rest)?;
    let (stages, seconds, rest) = closing_at(alloc, inside, rest)?;
    let range = DraftRange {
        selector,
        stages,
        seconds,
    };
    Ok((range, rest))
}
