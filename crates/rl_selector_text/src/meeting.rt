//! The patterns that a reading meets: whether each has room.
ghost use Rattle.std.specs.Prelude.{◌≡◌, ◌≤◌, length, nat_lt, IfErr, IfSome, IsTrue, true, false};
ghost use Rattle.std.specs.List.{prefix_len};
ghost use Rattle.rl_selector_text.specs.Answering.{IsForRoom};
ghost use Rattle.rl_selector_text.specs.Meeting.{precedes_pattern, has_pattern_token, tokens_before, ends_before_pattern, IsRefusal};

use crate::stop::Stopped;
use crate::testing::is_label;
use rl_patterns::{PatternCode, PatternError, WholePatternCode};
use rl_plain::{OrMemory, PlainText};
use rl_query::fault::{QueryError, QueryFault};
use rl_query::token::{Lexeme, Sign, Token};
use std::alloc::Global;

// What a pattern is matched with.
enum Matched {
    /// Somewhere in a line.
    Line,
    /// The whole value of a label.
    Label,
}

/// Why a text is refused at which reading stopped: for a pattern before that which has no room, else for the fault there.
pub fn refused(alloc: Global, lexemes: &[Lexeme], stopped: Stopped) -> QueryError
    ensures { IsRefusal lexemes.now stopped result }
{
    match stopped {
        OrMemory::Fault(stop) => match have_room(alloc, before(stop.offset, lexemes)) {
            Ok(()) => QueryError::Fault(stop.fault),
            Err(error) => error,
        },
        OrMemory::Memory => QueryError::Memory,
    }
}

// The tokens before an offset.
fn before(offset: usize, lexemes: &[Lexeme]) -> &[Lexeme]
    ensures { result.now ≡ tokens_before offset lexemes.now }
{
    let (before, _) = lexemes.split_at(count_before(offset, lexemes));
    before
}

fn count_before(offset: usize, lexemes: &[Lexeme]) -> usize
    ensures count { result ≡ prefix_len (λ lexeme. nat_lt lexeme.offset offset) lexemes.now }
    ensures within { result ≤ length lexemes.now }
{
    for (index, lexeme) in lexemes.iter().enumerate() {
        if lexeme.offset >= offset {
            return index;
        }
    }
    lexemes.len()
}

/// That each pattern among the tokens has room.
#[tactic(auto, using(crate::proofs::Meetings::pattern_room))]
pub fn have_room(alloc: Global, lexemes: &[Lexeme]) -> Result<(), QueryError>
    ensures { IfErr result (IsForRoom (has_pattern_token false lexemes.now)) }
{
    let mut in_selector = false;
    for (index, lexeme) in lexemes.iter().enumerate() {
        match &lexeme.token {
            Token::Sign(Sign::OpenBrace) => in_selector = true,
            Token::Sign(Sign::CloseBrace) => in_selector = false,
            Token::Text(text) => text_has_room(alloc, &lexemes[..index], in_selector, text)?,
            _ => {}
        }
    }
    Ok(())
}

// That a text has room, where it is a pattern.
fn text_has_room(
    alloc: Global,
    before: &[Lexeme],
    in_selector: bool,
    text: &PlainText,
) -> Result<(), QueryError>
    ensures { IfErr result (IsForRoom (ends_before_pattern false before.now)) }
{
    match before {
        [.., name, sign] => match matched_after(name, sign, in_selector) {
            Some(matched) => has_room(alloc, matched, text),
            None => Ok(()),
        },
        _ => Ok(()),
    }
}

// What the text after a sign is matched with, if it is a pattern. A label stands before `!~` in a selector and in a label test.
fn matched_after(name: &Lexeme, sign: &Lexeme, in_selector: bool) -> Option<Matched>
    ensures { IfSome result (λ _. IsTrue (precedes_pattern sign.now.token)) }
{
    match &sign.token {
        Token::Sign(Sign::ContainsMatch) => Some(Matched::Line),
        Token::Sign(Sign::Matches) => Some(Matched::Label),
        Token::Sign(Sign::NotMatches) if in_selector || is_label(&name.token) => {
            Some(Matched::Label)
        }
        Token::Sign(Sign::NotMatches) => Some(Matched::Line),
        _ => None,
    }
}

fn has_room(alloc: Global, matched: Matched, pattern: &PlainText) -> Result<(), QueryError>
    ensures { IfErr result (IsForRoom true) }
{
    let refusal = match matched {
        Matched::Line => PatternCode::build(alloc, pattern.as_str()).err(),
        Matched::Label => WholePatternCode::build(alloc, pattern.as_str()).err(),
    };
    match refusal {
        None => Ok(()),
        Some(PatternError::Fault(_)) => Err(QueryError::Fault(QueryFault::BadRegex)),
        Some(PatternError::Memory) => Err(QueryError::Memory),
    }
}
