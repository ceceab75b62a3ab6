//! Names of groups and rules, and the labels of rules.

use crate::findings::{Findings, OutOfMemory};
use crate::keys::Owner;
use crate::location::{Location, Spot};
use crate::values::{push_quoted, text_at};
use rl_labels::Labels;
use rl_labels::labels::is_label_name;
use rl_plain::{OrMemory, PlainText};
use std::alloc::Global;
use std::fmt::Write;
use toml::Table;

// The longest name of a group or of alerts, in bytes.
const LONGEST_NAME: usize = 256;

/// Where a group or a rule stands, by the text at a key and its number.
pub(crate) fn spot_of<'a>(table: &'a Table, key: &str, number: usize) -> Spot<'a> {
    let name = match text_at(table, key) {
        Some(name) if is_name(name) => Some(name),
        _ => None,
    };
    Spot { name, number }
}

// Whether a group or alerts may have the name.
fn is_name(name: &str) -> bool {
    !name.is_empty() && name.len() <= LONGEST_NAME && !has_control(name)
}

fn has_control(name: &str) -> bool {
    name.bytes().any(|byte| byte < 32 || byte == 127)
}

/// The fault of the name of a group or of alerts, if it is a text with one.
pub(crate) fn push_name_fault(
    findings: &mut Findings,
    location: &Location<'_>,
    table: &Table,
    key: &str,
) -> Result<(), OutOfMemory> {
    let Some(name) = text_at(table, key) else {
        return Ok(());
    };
    if is_name(name) {
        return Ok(());
    }
    findings.begin(&location.of_key(key))?;
    if name.is_empty() {
        writeln!(findings.text, "{key} is empty")?;
    } else if name.len() > LONGEST_NAME {
        let len = name.len();
        writeln!(
            findings.text,
            "{key} has {len} bytes, where {LONGEST_NAME} are allowed"
        )?;
    } else {
        writeln!(findings.text, "{key} has a control character")?;
    }
    Ok(())
}

/// The fault of the name of a rule, if it is a text with one.
pub(crate) fn push_rule_name_fault(
    findings: &mut Findings,
    location: &Location<'_>,
    owner: Owner,
    rule: &Table,
) -> Result<(), OutOfMemory> {
    match owner {
        Owner::Recording => push_metric_fault(findings, location, rule),
        _ => push_name_fault(findings, location, rule, "alert"),
    }
}

fn push_metric_fault(
    findings: &mut Findings,
    location: &Location<'_>,
    rule: &Table,
) -> Result<(), OutOfMemory> {
    let Some(name) = text_at(rule, "record") else {
        return Ok(());
    };
    if is_metric_name(name) {
        return Ok(());
    }
    findings.begin(&location.of_key("record"))?;
    push_quoted(&mut findings.text, name)?;
    findings.text.push_str(
        " is no name of a metric, which has letters, digits, _ and :, and no digit first\n",
    )?;
    Ok(())
}

fn is_metric_name(name: &str) -> bool {
    match name.as_bytes() {
        [] => false,
        [first, ..] => !first.is_ascii_digit() && name.bytes().all(is_metric_byte),
    }
}

fn is_metric_byte(byte: u8) -> bool {
    byte.is_ascii_alphanumeric() || byte == b'_' || byte == b':'
}

/// The faults of the labels or the annotations at a key, by the word for one of them.
pub(crate) fn push_labels(
    findings: &mut Findings,
    location: &Location<'_>,
    rule: &Table,
    key: &str,
    word: &str,
) -> Result<(), OutOfMemory> {
    let Some(table) = rule.get(key).and_then(|value| value.as_table()) else {
        return Ok(());
    };
    let location = &location.of_key(key);
    let before = findings.count;
    for name in table.keys() {
        push_label_name(findings, location, word, name.as_str())?;
    }
    let alloc = *findings.text.allocator();
    if findings.count == before && !make_labels(alloc, table)? {
        findings.begin(location)?;
        writeln!(
            findings.text,
            "{key} have more than 4096 bytes as a label text"
        )?;
    }
    Ok(())
}

fn push_label_name(
    findings: &mut Findings,
    location: &Location<'_>,
    word: &str,
    name: &str,
) -> Result<(), OutOfMemory> {
    if name == "__error__" {
        findings.begin(location)?;
        writeln!(findings.text, "{word} __error__ is one that no stream has")?;
    } else if !is_label_name(name) {
        findings.begin(location)?;
        write!(findings.text, "{word} ")?;
        push_quoted(&mut findings.text, name)?;
        findings.text.push_str(" is no label name\n")?;
    }
    Ok(())
}

// Whether the texts of a table make a label set.
fn make_labels(alloc: Global, table: &Table) -> Result<bool, OutOfMemory> {
    let mut pairs = Vec::with_capacity(alloc, table.len())?;
    for (name, value) in table.iter() {
        let name = PlainText::from_str(alloc, name.as_str())?;
        let value = PlainText::from_str(alloc, value.as_str().unwrap_or(""))?;
        pairs.push((name, value))?;
    }
    match Labels::from_pairs(alloc, pairs) {
        Ok(_) => Ok(true),
        Err(OrMemory::Fault(_)) => Ok(false),
        Err(OrMemory::Memory) => Err(OutOfMemory),
    }
}
