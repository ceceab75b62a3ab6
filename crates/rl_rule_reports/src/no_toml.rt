//! A text that is no TOML document.

use crate::findings::{Findings, OutOfMemory};
use crate::layout::open_text;
use crate::location::{CutLine, Location, cut_at, line_at, push_line};
use crate::values::is_duration;
use std::fmt::Write;
use toml::de::Error;

/// Where a document stands: the number of its first line, and what stands before it on that line.
#[derive(Clone, Copy)]
pub struct Standing<'a> {
    pub first_line: usize,
    pub lead: &'a str,
}

/// A file of its own.
pub(crate) const ALONE: Standing<'static> = Standing {
    first_line: 1,
    lead: "",
};

// What YAML has where a rule file begins, and where its groups and rules do.
const YAML_STARTS: [&str; 5] = ["groups:", "- name:", "- alert:", "- record:", "---"];

/// Why a document is none: the line and the column, counted from 1, what the reader says, the line with a caret under the byte,
/// and what is lawful there, where that is a duration in quotes; of YAML, what makes TOML of it.
pub(crate) fn push_no_toml(
    findings: &mut Findings,
    location: &Location<'_>,
    standing: Standing<'_>,
    document: &str,
    error: &Error,
) -> Result<(), OutOfMemory> {
    let byte = match error.span() {
        Some(span) => span.start,
        None => 0,
    };
    let (front, _) = cut_at(document, byte);
    let feeds = front.bytes().filter(|byte| *byte == b'\n').count();
    let lead = if feeds == 0 { standing.lead } else { "" };
    let line = line_at(document, byte);
    findings.count = findings.count.saturating_add(1);
    let number = standing.first_line.saturating_add(feeds);
    let before = lead
        .chars()
        .count()
        .saturating_add(line.before.chars().count());
    let (column, message) = (before.saturating_add(1), error.message());
    match location.file_name() {
        Some(name) => writeln!(findings.text, "{name}:{number}:{column}: {message}")?,
        None => writeln!(findings.text, "line {number}, column {column}: {message}")?,
    }
    push_led_line(findings, lead, line)?;
    if is_yaml(document) {
        findings.text.push_str(
            "  in its place: TOML, which scripts/rules_from_yaml makes of YAML\n",
        )?;
        return Ok(());
    }
    if findings.is_full && push_quotes(&mut findings.text, document, line)? {
        return Ok(());
    }
    push_near_text(findings, line)
}

// Which quote is missing and where the other one stands, if one is; whether it was written.
fn push_quotes(text: &mut String, document: &str, line: CutLine<'_>) -> Result<bool, OutOfMemory> {
    match open_text(document) {
        Some((number, quotes)) => {
            push_missing(text, quotes, "line", number)?;
            Ok(true)
        }
        None => push_quote(text, line),
    }
}

// The same of a text of one line.
fn push_quote(text: &mut String, line: CutLine<'_>) -> Result<bool, OutOfMemory> {
    let Some((key, value)) = line.before.split_once('=') else {
        return Ok(false);
    };
    let start = value.trim_start();
    let Some(quote) = quote_of(start) else {
        return Ok(false);
    };
    let count = start.matches(quote).count();
    if count == 1 && line.following.trim_end().is_empty() {
        push_missing(text, quote, "column", column_of(key, value, start))?;
        return Ok(true);
    }
    if count == 2 && quote == "\"" && line.following.contains('"') {
        text.push_str("  in its place: single quotes around a text that has \" inside\n")?;
        return Ok(true);
    }
    Ok(false)
}

// The column, from 1, of what follows a key, a sign and blanks.
fn column_of(key: &str, value: &str, start: &str) -> usize {
    let blanks = value.len().saturating_sub(start.len());
    let column = key.chars().count().saturating_add(blanks);
    column.saturating_add(2)
}

fn push_missing(
    text: &mut String,
    quote: &str,
    unit: &str,
    number: usize,
) -> Result<(), OutOfMemory> {
    writeln!(
        text,
        "  {quote} is missing: the {quote} at {unit} {number} is not closed"
    )?;
    Ok(())
}

// The quote with which a value begins.
fn quote_of(value: &str) -> Option<&'static str> {
    if value.starts_with('"') {
        Some("\"")
    } else if value.starts_with('\'') {
        Some("'")
    } else {
        None
    }
}

// Whether a line begins as only YAML does.
fn is_yaml(document: &str) -> bool {
    for line in document.split('\n') {
        let line = line.trim_start();
        for start in YAML_STARTS {
            if line.starts_with(start) {
                return true;
            }
        }
    }
    false
}

// The line after its lead.
fn push_led_line(
    findings: &mut Findings,
    lead: &str,
    line: CutLine<'_>,
) -> Result<(), OutOfMemory> {
    let mut before = String::from_str(*findings.text.allocator(), lead)?;
    before.push_str(line.before)?;
    let following = line.following.strip_suffix('\r').unwrap_or(line.following);
    push_line(
        &mut findings.text,
        CutLine {
            before: before.as_str(),
            following,
        },
    )
}

// The word that the byte is in as a text, if it is a duration.
fn push_near_text(findings: &mut Findings, line: CutLine<'_>) -> Result<(), OutOfMemory> {
    let mut word = String::new(*findings.text.allocator());
    word.push_str(last_word(line.before))?;
    word.push_str(first_word(line.following))?;
    if is_duration(word.as_str(), 0) {
        writeln!(findings.text, "  in its place: a text, \"{word}\"")?;
    }
    Ok(())
}

/// The letters and digits at the end of a text.
pub(crate) fn last_word(text: &str) -> &str {
    let front = text.trim_end_matches(|letter: char| is_word_letter(letter));
    text.strip_prefix(front).unwrap_or("")
}

/// The letters and digits at the front of a text.
pub(crate) fn first_word(text: &str) -> &str {
    let rest = text.trim_start_matches(|letter: char| is_word_letter(letter));
    text.strip_suffix(rest).unwrap_or("")
}

fn is_word_letter(letter: char) -> bool {
    letter.is_ascii_alphanumeric() || letter == '_'
}
