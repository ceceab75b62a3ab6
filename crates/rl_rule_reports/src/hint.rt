//! What a ruler has near what it refuses in a query, and near what LogQL has beside the language.

use crate::findings::OutOfMemory;
use crate::location::cut_at;
use crate::no_toml::{first_word, last_word};
use rl_query::{QueryFault, RangeFunction};
use std::fmt::Write;

// Near a range that is none.
const SECONDS: &str = "whole seconds, as [5m]";

/// Writes what a ruler has near the fault of a query, if it has something.
pub(crate) fn push_hint(
    text: &mut String,
    query: &str,
    fault: QueryFault,
) -> Result<(), OutOfMemory> {
    match fault {
        QueryFault::Syntax(location) => {
            let (front, back) = cut_at(query, location);
            push_near_syntax(text, front.trim_end(), back)
        }
        QueryFault::Unsupported(location) => {
            let (front, back) = cut_at(query, location);
            push_near_unsupported(text, front.trim_end(), back)
        }
        QueryFault::NoRealMatcher => push(
            text,
            "a matcher that does not accept the empty text, as app=\"shop\" or app=~\".+\"",
        ),
        QueryFault::BadRange => push(text, SECONDS),
        QueryFault::TwoParsers => push(text, "a rule for each parser"),
        QueryFault::BadRegex | QueryFault::TooDeep => Ok(()),
    }
}

fn push(text: &mut String, hint: &str) -> Result<(), OutOfMemory> {
    writeln!(text, "  in its place: {hint}")?;
    Ok(())
}

// Near what no query has where it stands.
fn push_near_syntax(text: &mut String, front: &str, back: &str) -> Result<(), OutOfMemory> {
    let (before, word) = (last_word(front), first_word(back));
    if is_grouping(before) && !word.is_empty() {
        writeln!(text, "  in its place: {before} ({word})")?;
        return Ok(());
    }
    if front.ends_with(',') && closes_names(front, back) {
        return push(text, "no comma before the bracket");
    }
    if front.ends_with('[') {
        return push(text, SECONDS);
    }
    if ends_comparison(front) && is_too_long(first_number(back)) {
        return push(text, "at most 15 digits before the point and nine after it");
    }
    Ok(())
}

// The number of a label test at the front of a text, without its unit.
fn first_number(text: &str) -> &str {
    let rest = text.trim_start_matches(|letter: char| letter.is_ascii_digit() || letter == '.');
    text.strip_suffix(rest).unwrap_or("")
}

// Whether a number has more digits than one of a label test may have.
fn is_too_long(number: &str) -> bool {
    let (whole, part) = match number.split_once('.') {
        Some(parts) => parts,
        None => (number, "0"),
    };
    are_digits(whole) && are_digits(part) && (whole.len() > 15 || part.len() > 9)
}

fn are_digits(text: &str) -> bool {
    !text.is_empty() && text.bytes().all(|byte| byte.is_ascii_digit())
}

// Whether a bracket closes that has names or matchers before it.
fn closes_names(front: &str, back: &str) -> bool {
    if back.starts_with('}') {
        return true;
    }
    match front.rsplit_once('(') {
        Some((outside, _)) => {
            let outside = outside.trim_end();
            back.starts_with(')') && (outside.ends_with('|') || is_grouping(last_word(outside)))
        }
        None => false,
    }
}

fn is_grouping(word: &str) -> bool {
    word == "by" || word == "without"
}

fn is_join(word: &str) -> bool {
    word == "and" || word == "or"
}

fn is_parser(word: &str) -> bool {
    word == "json" || word == "logfmt"
}

// A word that begins a term, or its grouping.
fn is_term_word(word: &str) -> bool {
    RangeFunction::with_text(word).is_some()
        || is_grouping(word)
        || matches!(word, "sum" | "count" | "min" | "max" | "topk")
}

// Near what LogQL has where it stands.
fn push_near_unsupported(text: &mut String, front: &str, back: &str) -> Result<(), OutOfMemory> {
    if begins_with_digit(back) {
        return push(text, number_near(front));
    }
    let word = first_word(back);
    if word.is_empty() {
        return push_known(text, hint_of_sign(back));
    }
    let lower = word.to_ascii_lowercase(*text.allocator())?;
    if lower.as_str() != word && is_lawful_after(front, lower.as_str()) {
        return push(text, lower.as_str());
    }
    if is_join(lower.as_str()) && is_after_tests(front) {
        return push(text, lower.as_str());
    }
    if lower.as_str() == "or" && ends_text(front) {
        return push(text, "|~ or !~ with a regular expression, as |~ \"x|y\"");
    }
    push_known(text, hint_of_word(lower.as_str()))
}

fn push_known(text: &mut String, hint: Option<&'static str>) -> Result<(), OutOfMemory> {
    match hint {
        Some(hint) => push(text, hint),
        None => Ok(()),
    }
}

// Whether label tests end there: a stage that is neither a line filter nor a parser, and in which as much is closed as opened.
fn is_after_tests(front: &str) -> bool {
    match front.rsplit_once('|') {
        Some((_, stage)) => {
            let is_filter = stage.starts_with('=') || stage.starts_with('~');
            let is_closed = stage.contains(']')
                || stage.split(')').count() > stage.split('(').count();
            !is_filter && !is_closed && !is_parser(first_word(stage.trim_start()))
        }
        None => false,
    }
}

fn begins_with_digit(text: &str) -> bool {
    match text.as_bytes() {
        [first, ..] => first.is_ascii_digit(),
        [] => false,
    }
}

// Whether the word is one of the ruler's at this position. After a comparison none is.
fn is_lawful_after(front: &str, word: &str) -> bool {
    if front.ends_with('|') {
        is_parser(word)
    } else if ends_comparison(front) {
        false
    } else {
        is_term_word(word)
    }
}

// Whether the sign of a comparison ends there.
fn ends_comparison(front: &str) -> bool {
    front.ends_with('>') || front.ends_with('<') || front.ends_with('=')
}

// Whether a text in quotes or backquotes ends there.
fn ends_text(front: &str) -> bool {
    front.ends_with('"') || front.ends_with('`')
}

// The numbers that stand after the parenthesis of `topk`, or after a comparison.
fn number_near(front: &str) -> &'static str {
    if front.ends_with('(') {
        "a number from 1 to 65535"
    } else {
        "at most nine digits before the point and six after it"
    }
}

fn hint_of_word(word: &str) -> Option<&'static str> {
    match word {
        "avg" => Some("sum(..) / count(..)"),
        "bottomk" => Some("min(..), or a comparison with <"),
        "sort" | "sort_desc" => Some("nothing: elements stand in the order of their labels"),
        "unwrap"
        | "sum_over_time"
        | "avg_over_time"
        | "min_over_time"
        | "max_over_time"
        | "first_over_time"
        | "last_over_time"
        | "quantile_over_time"
        | "stddev_over_time"
        | "stdvar_over_time"
        | "rate_counter" => {
            Some("count_over_time(..) of the lines that a label test keeps, as | took > 1.5s")
        }
        "pattern" | "regexp" | "unpack" => Some("json or logfmt"),
        "drop" | "keep" => Some("by (..) or without (..) at a vector aggregation"),
        "on" | "ignoring" | "group_left" | "group_right" => {
            Some("by (..) on both sides, since a ratio is of equal labels")
        }
        "and" | "or" | "unless" => Some("a rule for each side"),
        "ip" => Some("|~ with a regular expression"),
        _ => None,
    }
}

fn hint_of_sign(text: &str) -> Option<&'static str> {
    if text.starts_with("{") {
        Some("a range aggregation around it, as count_over_time({..} [5m])")
    } else if text.starts_with("|>") {
        Some("|= or |~")
    } else if text.starts_with("!>") {
        Some("!= or !~")
    } else {
        None
    }
}
