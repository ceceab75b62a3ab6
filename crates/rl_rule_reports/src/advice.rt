//! What is meant where a query is refused, as far as its tokens show it.

use crate::amounts::push_amount;
use crate::findings::OutOfMemory;
use crate::near::is_near;
use crate::opened::{Opened, opened_before, push_unclosed};
use crate::stop::{Piece, Stop, comparison_of};
use rl_query::QueryFault;
use rl_query::token::Sign;
use rl_selector_text::lexer::lexemes_of;
use std::fmt::Write;

// The words of which one begins a term, or its grouping.
const TERM_WORDS: [&str; 12] = [
    "count_over_time",
    "rate",
    "bytes_over_time",
    "bytes_rate",
    "absent_over_time",
    "sum",
    "count",
    "min",
    "max",
    "topk",
    "without",
    "by",
];

/// Writes what is missing, or what is lawful in the place of what stands there, if that is known; whether it did.
pub(crate) fn push_advice(
    text: &mut String,
    query: &str,
    fault: QueryFault,
) -> Result<bool, OutOfMemory> {
    let byte = match fault {
        QueryFault::Syntax(byte) | QueryFault::Unsupported(byte) => byte,
        _ => return Ok(false),
    };
    let alloc = *text.allocator();
    let lexemes = lexemes_of(alloc, query)?;
    let stop = Stop::new(query, byte, lexemes.as_slice());
    let opened = opened_before(alloc, lexemes.as_slice(), byte)?;
    let innermost = opened.last().copied();
    if push_unclosed(text, stop, innermost)? {
        return Ok(true);
    }
    if comparison_of(stop.piece()).is_some() && innermost.is_some() {
        let opened = opened_before(alloc, lexemes.as_slice(), query.len())?;
        if let Some(left) = opened.last() {
            left.push_open(text, stop)?;
            return Ok(true);
        }
    }
    if push_amount(text, stop, innermost)? {
        return Ok(true);
    }
    push_word_advice(text, stop, innermost)
}

// Near a word, or a sign after one.
fn push_word_advice(
    text: &mut String,
    stop: Stop<'_>,
    innermost: Option<Opened>,
) -> Result<bool, OutOfMemory> {
    let hint = match (stop.before(1), stop.piece()) {
        (Piece::Word("json"), Piece::Word(_)) => {
            Some("| json alone, which makes a label of each field, as a_b of {\"a\":{\"b\":1}}")
        }
        (Piece::Word("logfmt"), Piece::Word(_)) => {
            Some("| logfmt alone, which makes a label of each key")
        }
        (Piece::Text, Piece::Word(_)) if is_brace(innermost) => {
            Some("a comma between two matchers")
        }
        (Piece::Word(last), Piece::Sign(_)) => {
            parser_near(last, matches!(stop.before(2), Piece::Sign(Sign::Pipe)))
        }
        (_, Piece::Word(word)) => {
            let lower = word.to_ascii_lowercase(*text.allocator())?;
            hint_of_word(lower.as_str())
        }
        _ => None,
    };
    match hint {
        Some(hint) => {
            writeln!(text, "  in its place: {hint}")?;
            Ok(true)
        }
        None => Ok(false),
    }
}

fn is_brace(opened: Option<Opened>) -> bool {
    match opened {
        Some(opened) => opened.sign == Sign::OpenBrace,
        None => false,
    }
}

// The parser that a word after a pipe is nearly.
fn parser_near(word: &str, is_after_pipe: bool) -> Option<&'static str> {
    if !is_after_pipe {
        None
    } else if is_near("json", word) {
        Some("json")
    } else if is_near("logfmt", word) {
        Some("logfmt")
    } else {
        None
    }
}

// What the ruler has near a word of LogQL, of PromQL, or of neither.
fn hint_of_word(word: &str) -> Option<&'static str> {
    match word {
        "bool" => Some("the comparison alone: samples for which it is false are left out"),
        "line_format" => Some("nothing: a rule counts lines, and a line stays as it was pushed"),
        "label_format" => Some("by (..) for the labels that stay, and labels of the rule"),
        "decolorize" | "distinct" => Some("nothing: a line stays as it was pushed"),
        "label_replace" | "label_join" => Some("labels of the rule, as labels = { team = \"a\" }"),
        "vector" => Some("absent_over_time(..), which is 1 where there is no line"),
        "offset" => Some("nothing: a range ends at the evaluation"),
        "increase" => Some("count_over_time"),
        "irate" => Some("rate"),
        "absent" => Some("absent_over_time"),
        "approx_topk" => Some("topk"),
        "mean" => Some("sum(..) / count(..)"),
        _ => term_word_near(word),
    }
}

fn term_word_near(word: &str) -> Option<&'static str> {
    for near in TERM_WORDS {
        if near != word && is_near(near, word) {
            return Some(near);
        }
    }
    None
}
