//! What is not closed where a query is refused: parentheses, braces, brackets and quotes.

use crate::findings::OutOfMemory;
use crate::location::{cut_at, line_at, push_line};
use crate::stop::{Piece, Stop};
use rl_query::token::{Lexeme, Sign, Token};
use std::alloc::Global;
use std::fmt::Write;

/// A bracket that is open, and its byte.
#[derive(Clone, Copy)]
pub(crate) struct Opened {
    pub(crate) sign: Sign,
    byte: usize,
}

impl Opened {
    /// Writes that nothing in the query closes it.
    pub(crate) fn push_open(self, text: &mut String, stop: Stop<'_>) -> Result<(), OutOfMemory> {
        if let Some(closes) = closing(self.sign) {
            push_missing(text, stop, closes.as_str(), self.sign.as_str(), self.byte)?;
        }
        Ok(())
    }
}

/// The brackets that are open before a byte, the outermost first.
pub(crate) fn opened_before(
    alloc: Global,
    lexemes: &[Lexeme],
    byte: usize,
) -> Result<Vec<Opened>, OutOfMemory> {
    let mut opened = Vec::new(alloc);
    for lexeme in lexemes {
        if lexeme.offset >= byte {
            return Ok(opened);
        }
        if let Token::Sign(sign) = &lexeme.token {
            if closing(*sign).is_some() {
                opened.push(Opened {
                    sign: *sign,
                    byte: lexeme.offset,
                })?;
            } else if is_closing(*sign) {
                let _ = opened.pop();
            }
        }
    }
    Ok(opened)
}

// The sign that closes what another opens.
fn closing(sign: Sign) -> Option<Sign> {
    match sign {
        Sign::OpenBrace => Some(Sign::CloseBrace),
        Sign::OpenParenthesis => Some(Sign::CloseParenthesis),
        Sign::OpenBracket => Some(Sign::CloseBracket),
        _ => None,
    }
}

fn is_closing(sign: Sign) -> bool {
    matches!(
        sign,
        Sign::CloseBrace | Sign::CloseParenthesis | Sign::CloseBracket
    )
}

/// Writes which bracket or quote is missing and where the other one stands, if one is; whether it did.
pub(crate) fn push_unclosed(
    text: &mut String,
    stop: Stop<'_>,
    innermost: Option<Opened>,
) -> Result<bool, OutOfMemory> {
    if matches!(stop.piece(), Piece::Bad) {
        return push_bad(text, stop);
    }
    if let (Piece::Text, Some(byte)) = (stop.before(1), stop.byte_before()) {
        if stop.has_quote_following() {
            writeln!(
                text,
                "  a quote is missing: the text from byte {byte} on goes too far"
            )?;
            push_other_line(text, stop, byte)?;
            return Ok(true);
        }
    }
    let Some(opened) = innermost else {
        return Ok(false);
    };
    if !is_unclosed(stop, opened.sign) {
        return Ok(false);
    }
    opened.push_open(text, stop)?;
    Ok(true)
}

// Whether what closes has to stand before the token.
fn is_unclosed(stop: Stop<'_>, opens: Sign) -> bool {
    match stop.piece() {
        Piece::End => true,
        Piece::Sign(sign) if is_closing(sign) => closing(opens) != Some(sign),
        Piece::Sign(sign) if opens == Sign::OpenBrace => {
            matches!(stop.before(1), Piece::Text) && sign != Sign::Comma
        }
        _ => false,
    }
}

// Writes that a bracket or a quote is missing, and the line of the other one where it is another line.
fn push_missing(
    text: &mut String,
    stop: Stop<'_>,
    closes: &str,
    opens: &str,
    byte: usize,
) -> Result<(), OutOfMemory> {
    writeln!(
        text,
        "  {closes} is missing: the {opens} at byte {byte} is not closed"
    )?;
    push_other_line(text, stop, byte)
}

fn push_other_line(text: &mut String, stop: Stop<'_>, byte: usize) -> Result<(), OutOfMemory> {
    let (front, _) = cut_at(stop.query, stop.byte);
    let (_, between) = cut_at(front, byte);
    if between.contains('\n') {
        push_line(text, line_at(stop.query, byte))?;
    }
    Ok(())
}

// What begins no token: a text that is not closed or has another escape, or another sign.
fn push_bad(text: &mut String, stop: Stop<'_>) -> Result<bool, OutOfMemory> {
    let (_, back) = cut_at(stop.query, stop.byte);
    if let Some(rest) = back.strip_prefix('`') {
        if !rest.contains('`') {
            push_missing(text, stop, "`", "`", stop.byte)?;
            return Ok(true);
        }
    }
    if let Some(rest) = back.strip_prefix('"') {
        if is_closed(rest) {
            text.push_str(
                "  in its place: \\\\ for each \\ in quotes, or backquotes for the quotes\n",
            )?;
        } else {
            push_missing(text, stop, "\"", "\"", stop.byte)?;
        }
        return Ok(true);
    }
    match sign_near(back) {
        Some(sign) => {
            writeln!(text, "  in its place: {sign}")?;
            Ok(true)
        }
        None => Ok(false),
    }
}

// Whether a quote stands in the text without a backslash before it.
fn is_closed(text: &str) -> bool {
    let mut is_escaped = false;
    for byte in text.bytes() {
        if is_escaped {
            is_escaped = false;
        } else if byte == b'"' {
            return true;
        } else {
            is_escaped = byte == b'\\';
        }
    }
    false
}

fn sign_near(text: &str) -> Option<&'static str> {
    if text.starts_with('\'') || text.starts_with('“') || text.starts_with('”') {
        Some("\" or a backquote")
    } else if text.starts_with("&&") {
        Some("and")
    } else if text.starts_with('!') {
        Some("!=, !~ or another comparison")
    } else {
        None
    }
}
