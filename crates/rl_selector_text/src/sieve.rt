//! Sieves: what a delete request covers, read from texts and printed canonically.
ghost use Rattle.std.specs.Prelude.{◌≡◌, ◌≤◌, IfOk, MatchResult, length, map, string_bytes};
ghost use Rattle.rl_plain.specs.Answers.{Gives};
ghost use Rattle.rl_selector_text.specs.Answering.{Reads, IsForRoom};
ghost use Rattle.rl_query.specs.Form.{SieveForm, filter_form, sieve_form, sieve_has_pattern};
ghost use Rattle.rl_selector_text.specs.Grammar.{DerivesSieve};
ghost use Rattle.rl_query.specs.Limits.{most_stages};
ghost use Rattle.rl_query.specs.Printing.{sieve_text};
ghost use Rattle.rl_selector_text.specs.Sieving.{after_filters, sieve_ends, rest_at, sieve_in, sieve_of, sieve_meets_pattern};
ghost use Rattle.rl_query.specs.declared.filter.Sieve.{Sieve};

use crate::front::{Position, expected, next, refusal};
use crate::lexer::lexemes_of;
use crate::meeting::{have_room, refused};
use crate::selector::selector_at;
use crate::stage::filters_at;
use crate::stop::{Stop, Stopped};
use rl_plain::PlainList;
use rl_query::fault::QueryError;
use rl_query::filter::{LineFilter, Sieve};
use rl_query::printer::sieve_text;
use rl_query::token::{Lexeme, Sign, Token};
use std::alloc::{AllocError, Global};

/// The sieve that a whole text is, or the first fault from the left: a selector and line filters (LogQL).
pub fn parse_delete(alloc: Global, text: &str) -> Result<Sieve, QueryError>
    ensures read { Reads sieve_form result (sieve_of text.now) (sieve_meets_pattern text.now) }
    ensures derives { IfOk result (λ sieve. DerivesSieve text.now (sieve_form sieve)) }
    ensures complete { (sieve : SieveForm) → DerivesSieve text.now sieve → MatchResult result (λ same. sieve_form same ≡ sieve) (IsForRoom (sieve_has_pattern sieve)) }
    ensures again { (sieve : Sieve) → text.now ≡ sieve_text (sieve_form sieve) → MatchResult result (λ same. same ≡ sieve) (IsForRoom (sieve_has_pattern (sieve_form sieve))) }
{
    read(alloc, text)
}

#[tactic(auto, using(crate::proofs::Meetings::read_refused, crate::proofs::Meetings::stop_refused))]
fn read(alloc: Global, text: &str) -> Result<Sieve, QueryError>
    ensures { Reads sieve_form result (sieve_of text.now) (sieve_meets_pattern text.now) }
{
    let lexemes = lexemes_of(alloc, text)?;
    match sieve_in(alloc, &lexemes) {
        Ok(sieve) => {
            have_room(alloc, &lexemes)?;
            Ok(sieve)
        }
        Err(stopped) => Err(refused(alloc, &lexemes, stopped)),
    }
}

/// The canonical text of a sieve, which no other sieve has, as `{app="a"} |= "error"`.
pub fn print_sieve(alloc: Global, sieve: &Sieve) -> Result<String, AllocError>
    ensures text { IfOk result (λ text. string_bytes text ≡ sieve_text (sieve_form sieve.now)) }
    ensures alone { IfOk result (λ text. (other : Sieve) → string_bytes text ≡ sieve_text (sieve_form other) → other ≡ sieve.now) }
{
    let text = sieve_text(alloc, sieve)?;
    Ok(text)
}

fn after_filters(filters: &[LineFilter]) -> Position
    ensures { result ≡ after_filters (map filter_form filters.now) }
{
    match filters {
        [] => Position::AfterSieveSelector,
        _ => Position::AfterSieveFilter,
    }
}

fn sieve_ends(position: Position, lexeme: &Lexeme) -> Result<(), Stop>
    ensures { result ≡ sieve_ends position lexeme.now.offset lexeme.now.token }
{
    match &lexeme.token {
        Token::End => Ok(()),
        token => Err(refusal(position, lexeme.offset, token)),
    }
}

// The line filters of a sieve, and then the end.
#[tactic(auto, unfolding(crate::specs::Sieving::rest_at))]
fn rest_at(alloc: Global, lexemes: &[Lexeme]) -> Result<Vec<LineFilter>, Stopped>
    ensures read { Gives (λ filters. map filter_form filters.items) result (rest_at lexemes.now) }
    ensures few { IfOk result (λ filters. length filters.items ≤ most_stages) }
{
    let (filters, rest) = filters_at(alloc, lexemes)?;
    let (last, _) = next(rest)?;
    sieve_ends(after_filters(&filters), last)?;
    Ok(filters)
}

// The sieve that all tokens are.
#[tactic(auto, unfolding(crate::specs::Sieving::sieve_in))]
fn sieve_in(alloc: Global, lexemes: &[Lexeme]) -> Result<Sieve, Stopped>
    ensures { Gives sieve_form result (sieve_in lexemes.now) }
{
    let rest = expected(Sign::OpenBrace, Position::Elsewhere, lexemes)?;
    let (selector, rest) = selector_at(alloc, rest)?;
    let filters = rest_at(alloc, rest)?;
    let filters = PlainList::from_vec(filters);
    Ok(Sieve { selector, filters })
}
