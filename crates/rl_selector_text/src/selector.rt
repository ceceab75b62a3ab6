//! Selectors, read from their tokens.
ghost use Rattle.std.specs.Prelude.{◌≡◌, ◌-◌, ◌<◌, Ok, Err, IfOk, length, map};
ghost use Rattle.rl_query.specs.Form.{matcher_form};
ghost use Rattle.rl_plain.specs.Answers.{Gives};
ghost use Rattle.rl_selector_text.specs.Fronts.{refusal, next, is_sign, matcher_at};
ghost use Rattle.rl_selector_text.specs.Parsing.{goes_on, item_at, matchers_at, some_matcher, real_matchers, selector_at};
ghost use Rattle.rl_query.specs.Limits.{has_real_matcher};

use crate::front::{Position, is_sign, matcher_at, next, refusal};
use crate::stop::{Stop, Stopped, offset_of};
use rl_labels::Matcher;
use rl_plain::PlainList;
use rl_query::fault::QueryFault;
use rl_query::query::Selector;
use rl_query::token::{Lexeme, Sign};
use std::alloc::{AllocError, Global};

// Whether another matcher follows.
fn goes_on(lexeme: &Lexeme) -> Result<bool, Stop>
    ensures { result ≡ goes_on lexeme.now.offset lexeme.now.token }
{
    if is_sign(Sign::Comma, &lexeme.token) {
        return Ok(true);
    }
    if is_sign(Sign::CloseBrace, &lexeme.token) {
        return Ok(false);
    }
    Err(refusal(Position::Elsewhere, lexeme.offset, &lexeme.token))
}

// A matcher, and whether another follows.
#[tactic(auto, unfolding(crate::specs::Parsing::item_at))]
fn item_at(lexemes: &[Lexeme]) -> Result<(Matcher, bool, &[Lexeme]), Stopped>
    ensures { Gives (λ x. (matcher_form x.0, x.1, x.2.now)) result (item_at lexemes.now) }
{
    let (matcher, rest) = matcher_at(lexemes)?;
    let (lexeme, rest) = next(rest)?;
    let more = goes_on(lexeme)?;
    Ok((matcher, more, rest))
}

// Matchers joined by commas, up to the closing brace.
fn matchers_at(alloc: Global, lexemes: &[Lexeme]) -> Result<(Vec<Matcher>, &[Lexeme]), Stopped>
    ensures { Gives (λ x. (map matcher_form x.0.items, x.1.now)) result (matchers_at (length lexemes.now) lexemes.now) }
{
    let mut matchers = Vec::new(alloc);
    let mut rest = lexemes;
    for _turn in 0..lexemes.len() {
        let (matcher, more, following) = item_at(rest)?;
        matchers.push(matcher)?;
        if !more {
            return Ok((matchers, following));
        }
        rest = following;
    }
    Err(Stopped::Fault(Stop::syntax(0)))
}

/// The selector after its opening brace.
#[tactic(auto, unfolding(crate::specs::Parsing::selector_at))]
pub fn selector_at(alloc: Global, lexemes: &[Lexeme]) -> Result<(Selector, &[Lexeme]), Stopped>
    ensures { Gives (λ x. (map matcher_form x.0.matchers, x.1.now)) result (selector_at lexemes.now) }
{
    let (lexeme, _) = next(lexemes)?;
    some_matcher(lexeme)?;
    let (matchers, rest) = matchers_at(alloc, lexemes)?;
    let selector = real_selector(offset_of(rest), matchers)?;
    Ok((selector, rest))
}

// A selector that closes at once has no matcher.
fn some_matcher(lexeme: &Lexeme) -> Result<(), Stop>
    ensures { result ≡ some_matcher lexeme.now.offset lexeme.now.token }
{
    if is_sign(Sign::CloseBrace, &lexeme.token) {
        return Err(Stop::new(QueryFault::NoRealMatcher, lexeme.offset));
    }
    Ok(())
}

// The selector of matchers of which one at least refuses a stream without its label.
#[tactic(auto, using(crate::proofs::Items::real_forms))]
fn real_selector(offset: usize, matchers: Vec<Matcher>) -> Result<Selector, Stopped>
    ensures { Gives (λ selector. map matcher_form selector.matchers) result (real_matchers offset (map matcher_form matchers.items)) }
{
    if !has_real_matcher(&matchers)? {
        return Err(Stopped::Fault(Stop::new(QueryFault::NoRealMatcher, offset)));
    }
    let matchers = PlainList::from_vec(matchers);
    Ok(Selector { matchers })
}

// Whether some matcher refuses the empty text, as which the labels of a stream without labels read.
fn has_real_matcher(matchers: &[Matcher]) -> Result<bool, AllocError>
    ensures { IfOk result (λ answer. answer ≡ has_real_matcher matchers.now) }
{
    for matcher in matchers {
        if !matcher.accepts_missing()? {
            return Ok(true);
        }
    }
    Ok(false)
}
