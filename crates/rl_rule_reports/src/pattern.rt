//! The regular expression of a query that is none.

use crate::findings::OutOfMemory;
use crate::location::{cut_at, line_at, push_line};
use rl_query::token::{Lexeme, Sign, Token};
use rl_query::{QueryError, QueryFault};
use rl_query_text::parse;
use rl_selector_text::lexer::lexemes_of;
use std::alloc::Global;
use std::fmt::Write;

// How a regular expression is used.
#[derive(Clone, Copy)]
enum Use {
    // In a matcher, which has to match whole values.
    Matcher,
    // In a line filter.
    Filter,
}

/// Writes the line that has the first text which is no regular expression, a caret under it, and the text.
pub(crate) fn push_bad_pattern(text: &mut String, query: &str) -> Result<(), OutOfMemory> {
    let alloc = *text.allocator();
    let lexemes = lexemes_of(alloc, query)?;
    let mut before = false;
    let mut wanted = None;
    for lexeme in lexemes.iter() {
        if let (Some(meant), Token::Text(pattern)) = (wanted, &lexeme.token) {
            if is_refused(alloc, meant, raw_text(&lexemes, query, lexeme.offset))? {
                push_line(text, line_at(query, lexeme.offset))?;
                writeln!(text, "  the pattern is {pattern}")?;
                return Ok(());
            }
        }
        wanted = meant_by(&lexeme.token, before);
        before = matches!(lexeme.token, Token::Word(_));
    }
    Ok(())
}

// The use of a regular expression after a sign. After a word it is that of a matcher.
fn meant_by(token: &Token, is_after_word: bool) -> Option<Use> {
    match token {
        Token::Sign(Sign::Matches) => Some(Use::Matcher),
        Token::Sign(Sign::NotMatches) if is_after_word => Some(Use::Matcher),
        Token::Sign(Sign::NotMatches | Sign::ContainsMatch) => Some(Use::Filter),
        _ => None,
    }
}

// A text of the query as it is written, with its quotes, up to the next token.
fn raw_text<'a>(lexemes: &[Lexeme], query: &'a str, byte: usize) -> &'a str {
    let mut end = query.len();
    for lexeme in lexemes.iter().rev() {
        if lexeme.offset > byte {
            end = lexeme.offset;
        }
    }
    let (front, _) = cut_at(query, end);
    let (_, raw) = cut_at(front, byte);
    raw
}

// Whether a text is refused as a regular expression in a query of its own.
fn is_refused(alloc: Global, meant: Use, raw: &str) -> Result<bool, OutOfMemory> {
    let mut query = String::new(alloc);
    match meant {
        Use::Matcher => write!(query, "rate({{a=\"b\", c=~{raw}\n}} [1s])")?,
        Use::Filter => write!(query, "rate({{a=\"b\"}} |~ {raw}\n [1s])")?,
    }
    match parse(alloc, query.as_str()) {
        Err(QueryError::Fault(QueryFault::BadRegex)) => Ok(true),
        Err(QueryError::Memory) => Err(OutOfMemory),
        _ => Ok(false),
    }
}
