//! What stands at a key, and what is wanted there.

use crate::findings::{Findings, OutOfMemory};
use crate::keys::{Key, Kind};
use crate::location::Location;
use rl_query::duration::{LONGEST_RANGE, duration_of};
use std::fmt::Write;
use toml::{Table, Value};

// The longest text that is shown, in bytes.
const LONGEST_SHOWN: usize = 60;

/// The items of the array at a key, none where there is none.
pub(crate) fn items_at<'a>(table: &'a Table, key: &str) -> &'a [Value] {
    match table.get(key) {
        Some(value) => match value.as_array() {
            Some(items) => items.as_slice(),
            None => &[],
        },
        None => &[],
    }
}

/// The text at a key, if one is there.
pub(crate) fn text_at<'a>(table: &'a Table, key: &str) -> Option<&'a str> {
    match table.get(key) {
        Some(value) => value.as_str(),
        None => None,
    }
}

/// The faults of what stands at a key.
pub(crate) fn push_value(
    findings: &mut Findings,
    location: &Location<'_>,
    key: &Key,
    value: &Value,
) -> Result<(), OutOfMemory> {
    match key.kind {
        Kind::Text => push_text(findings, location, key.name, value),
        Kind::Tables(head) => push_tables(findings, location, key.name, head, value),
        Kind::Seconds(least) => push_seconds(findings, location, key.name, least, value),
        Kind::Number(most) => push_number(findings, location, key.name, most, value),
        Kind::Texts => push_texts(findings, location, key.name, value),
    }
}

fn push_text(
    findings: &mut Findings,
    location: &Location<'_>,
    name: &str,
    value: &Value,
) -> Result<(), OutOfMemory> {
    if value.is_str() {
        return Ok(());
    }
    push_misfit(findings, location, name, value)?;
    findings.text.push_str("a text is wanted\n")?;
    Ok(())
}

fn push_tables(
    findings: &mut Findings,
    location: &Location<'_>,
    name: &str,
    head: &str,
    value: &Value,
) -> Result<(), OutOfMemory> {
    let Some(items) = value.as_array() else {
        push_misfit(findings, location, name, value)?;
        findings.text.push_str("an array of tables is wanted\n")?;
        if value.is_table() {
            writeln!(findings.text, "  in its place: {head}")?;
        }
        return Ok(());
    };
    for (index, item) in items.iter().enumerate() {
        if !item.is_table() {
            findings.begin(location)?;
            let (number, kind) = (index.saturating_add(1), kind_of(item));
            writeln!(
                findings.text,
                "number {number} of {name} is {kind}, where a table is wanted"
            )?;
        }
    }
    Ok(())
}

fn push_seconds(
    findings: &mut Findings,
    location: &Location<'_>,
    name: &str,
    least: u64,
    value: &Value,
) -> Result<(), OutOfMemory> {
    let text = value.as_str();
    if text.is_some_and(|text| is_duration(text, least)) {
        return Ok(());
    }
    push_misfit(findings, location, name, value)?;
    let from = if least == 0 { "0" } else { "1s" };
    writeln!(
        findings.text,
        "a duration from {from} to 30d is wanted, as \"5m\""
    )?;
    match text {
        Some(text) => push_near_duration(findings, text, least),
        None => Ok(()),
    }
}

// The duration that a text is without its blanks and in lower case, if it is one.
fn push_near_duration(findings: &mut Findings, text: &str, least: u64) -> Result<(), OutOfMemory> {
    let mut plain = String::new(*findings.text.allocator());
    for letter in text.chars() {
        if !letter.is_ascii_whitespace() {
            plain.push(letter.to_ascii_lowercase())?;
        }
    }
    if is_duration(plain.as_str(), least) {
        writeln!(findings.text, "  in its place: \"{plain}\"")?;
    }
    Ok(())
}

/// Whether a text is a duration from the least up to 30 days.
pub(crate) fn is_duration(text: &str, least: u64) -> bool {
    if text == "0" {
        return least == 0;
    }
    match duration_of(text.as_bytes()) {
        Some(seconds) => !text.is_empty() && least <= seconds && seconds <= LONGEST_RANGE,
        None => false,
    }
}

fn push_number(
    findings: &mut Findings,
    location: &Location<'_>,
    name: &str,
    most: u64,
    value: &Value,
) -> Result<(), OutOfMemory> {
    match value.as_integer() {
        Some(number) if number >= 0 && number.unsigned_abs() <= most => return Ok(()),
        _ => {}
    }
    push_misfit(findings, location, name, value)?;
    writeln!(findings.text, "a whole number from 0 to {most} is wanted")?;
    match value.as_str() {
        Some(text) => push_near_number(findings, text, most),
        None => Ok(()),
    }
}

// The number that a text is, if it is one.
fn push_near_number(findings: &mut Findings, text: &str, most: u64) -> Result<(), OutOfMemory> {
    match text.trim().parse::<u64>() {
        Ok(number) if number <= most => {
            writeln!(findings.text, "  in its place: {number}")?;
            Ok(())
        }
        _ => Ok(()),
    }
}

fn push_texts(
    findings: &mut Findings,
    location: &Location<'_>,
    name: &str,
    value: &Value,
) -> Result<(), OutOfMemory> {
    let Some(table) = value.as_table() else {
        push_misfit(findings, location, name, value)?;
        findings.text.push_str("a table of texts is wanted\n")?;
        return Ok(());
    };
    for (key, item) in table.iter() {
        if !item.is_str() {
            let mut path = String::new(*findings.text.allocator());
            write!(path, "{name}.")?;
            push_name(&mut path, key.as_str())?;
            push_text(findings, location, path.as_str(), item)?;
        }
    }
    Ok(())
}

// The position and the value that does not fit; what is wanted follows.
fn push_misfit(
    findings: &mut Findings,
    location: &Location<'_>,
    name: &str,
    value: &Value,
) -> Result<(), OutOfMemory> {
    findings.begin(location)?;
    push_shown(&mut findings.text, name, value)?;
    findings.text.push_str(", where ")?;
    Ok(())
}

// A key and its value as TOML writes it, or what it is where that is long.
fn push_shown(shown: &mut String, name: &str, value: &Value) -> Result<(), OutOfMemory> {
    match value {
        Value::String(text) if text.len() > LONGEST_SHOWN => {
            write!(shown, "{name} is a text of {} bytes", text.len())?;
            Ok(())
        }
        Value::String(text) => {
            write!(shown, "{name} = ")?;
            push_quoted(shown, text.as_str())
        }
        Value::Array(_) | Value::Table(_) => {
            write!(shown, "{name} is {}", kind_of(value))?;
            Ok(())
        }
        _ => {
            write!(shown, "{name} = {value}")?;
            Ok(())
        }
    }
}

// What TOML calls a value.
fn kind_of(value: &Value) -> &'static str {
    match value {
        Value::String(_) => "a text",
        Value::Integer(_) => "an integer",
        Value::Float(_) => "a float",
        Value::Boolean(_) => "a boolean",
        Value::Datetime(_) => "a date-time",
        Value::Array(_) => "an array",
        Value::Table(_) => "a table",
    }
}

/// Writes a key as a document has it: alone where TOML lets it, else in quotes.
pub fn push_name(text: &mut String, name: &str) -> Result<(), OutOfMemory> {
    let is_bare = name.bytes().all(|byte| {
        byte.is_ascii_alphanumeric() || byte == b'_' || byte == b'-'
    });
    if is_bare && !name.is_empty() {
        text.push_str(name)?;
        return Ok(());
    }
    push_quoted(text, name)
}

/// Writes a text in quotes, on one line, with the escapes of TOML.
pub(crate) fn push_quoted(text: &mut String, value: &str) -> Result<(), OutOfMemory> {
    text.push('"')?;
    for letter in value.chars() {
        match letter {
            '"' => text.push_str("\\\"")?,
            '\\' => text.push_str("\\\\")?,
            '\n' => text.push_str("\\n")?,
            '\r' => text.push_str("\\r")?,
            '\t' => text.push_str("\\t")?,
            '\u{0}'..='\u{1f}' | '\u{7f}' => write!(text, "\\u{:04x}", u32::from(letter))?,
            _ => text.push(letter)?,
        }
    }
    text.push('"')?;
    Ok(())
}
