//! The parser: queries from texts, by the first fault from the left.
ghost use Rattle.std.specs.Prelude.{◌≡◌, ◌-◌, ◌<◌, Ok, Err, IfOk, MatchResult};
ghost use Rattle.rl_selector_text.specs.Answering.{Reads, IsForRoom};
ghost use Rattle.rl_query.specs.Form.{QueryForm, query_has_pattern, query_form};
ghost use Rattle.rl_query_text.specs.TermGrammar.{Derives};
ghost use Rattle.rl_query.specs.Printing.{query_text};
ghost use Rattle.rl_query.specs.declared.query.Query.{Query};
ghost use Rattle.rl_query_text.specs.QueryReading.{query_of, query_meets_pattern};

use crate::query_reading::query_in;
use rl_query::fault::QueryError;
use rl_query::query::Query;
use rl_selector_text::lexer::lexemes_of;
use rl_selector_text::meeting::{have_room, refused};
use std::alloc::Global;

/// The query that a whole text is, or the first fault from the left (LogQL).
pub fn parse(alloc: Global, text: &str) -> Result<Query, QueryError>
    ensures read { Reads query_form result (query_of text.now) (query_meets_pattern text.now) }
    ensures derives { IfOk result (λ query. Derives text.now (query_form query)) }
    ensures complete { (query : QueryForm) → Derives text.now query → MatchResult result (λ same. query_form same ≡ query) (IsForRoom (query_has_pattern query)) }
    ensures again { (query : Query) → text.now ≡ query_text (query_form query) → MatchResult result (λ same. same ≡ query) (IsForRoom (query_has_pattern (query_form query))) }
{
    read(alloc, text)
}

#[tactic(auto, using(rl_selector_text::proofs::Meetings::read_refused, rl_selector_text::proofs::Meetings::stop_refused))]
fn read(alloc: Global, text: &str) -> Result<Query, QueryError>
    ensures { Reads query_form result (query_of text.now) (query_meets_pattern text.now) }
{
    let lexemes = lexemes_of(alloc, text)?;
    match query_in(alloc, &lexemes) {
        Ok(query) => {
            have_room(alloc, &lexemes)?;
            Ok(query)
        }
        Err(stopped) => Err(refused(alloc, &lexemes, stopped)),
    }
}
