//! What stands at the keys of a rule file: texts, arrays, durations, whole numbers, tables of texts, and the name of a rule.
ghost use Rattle.std.specs.Prelude.{◌≡◌, Some, unwrap_or, option_and_then, option_map, IfOk};
ghost use Rattle.toml.specs.Data.{get_member};
ghost use Rattle.toml.specs.View.{view, table_view, items_view};
ghost use Rattle.rl_rules.specs.Document.{items_in};
ghost use Rattle.rl_query.specs.Limits.{capped, longest_range};
ghost use Rattle.rl_rules.specs.Values.{within, seconds_of, seconds_in, number_in, are_texts, texts_of, members_in, text_at, texts_at, labels_at, kind_of, name_key, name_of};

use crate::rule::RuleKind;
use rl_labels::Labels;
use rl_plain::{OrMemory, PlainText};
use rl_query::duration::{LONGEST_RANGE, duration_of};
use std::alloc::{AllocError, Global};
use toml::{Table, Value};

// The value at a key.
pub(crate) fn value_at<'a>(table: &'a Table, key: &str) -> Option<&'a Value>
    ensures { option_map (λ value. view value.now) result ≡ get_member key.now (table_view table.now) }
{
    table.get(key)
}

// The text at a key, the empty one where there is none.
pub(crate) fn text_at<'a>(table: &'a Table, key: &str) -> &'a str
    ensures { result.now ≡ text_at key.now (table_view table.now) }
{
    match value_at(table, key) {
        Some(value) => value.as_str().unwrap_or(""),
        None => "",
    }
}

// The items of the array at a key, none where there is none.
pub(crate) fn items_at<'a>(table: &'a Table, key: &str) -> &'a [Value]
    ensures { items_view result.now ≡ items_in (get_member key.now (table_view table.now)) }
{
    match value_at(table, key) {
        Some(value) => items_of(value),
        None => &[],
    }
}

fn items_of(value: &Value) -> &[Value]
    ensures { items_view result.now ≡ items_in (Some (view value.now)) }
{
    match value.as_array() {
        Some(items) => items.as_slice(),
        None => &[],
    }
}

// The seconds at a key, from the least on, and others where there are none.
pub(crate) fn seconds_at(table: &Table, key: &str, least: u64, others: u64) -> u64
    ensures { result ≡ unwrap_or (option_and_then (seconds_in least) (get_member key.now (table_view table.now))) others }
{
    match value_at(table, key) {
        Some(value) => seconds_in(value, least).unwrap_or(others),
        None => others,
    }
}

// The whole number at a key, up to the most, and another where there is none.
pub(crate) fn number_at(table: &Table, key: &str, most: u64, other: u64) -> u64
    ensures { result ≡ unwrap_or (option_and_then (number_in most) (get_member key.now (table_view table.now))) other }
{
    match value_at(table, key) {
        Some(value) => number_in(value, most).unwrap_or(other),
        None => other,
    }
}

// The seconds that a value is, from the least up to 30 days.
pub(crate) fn seconds_in(value: &Value, least: u64) -> Option<u64>
    ensures { result ≡ seconds_in least (view value.now) }
{
    match value.as_str() {
        Some(text) => seconds_from(text, least),
        None => None,
    }
}

fn seconds_from(text: &str, least: u64) -> Option<u64>
    ensures { result ≡ option_and_then (within least longest_range) (seconds_of text.now) }
{
    let seconds = seconds_of(text)?;
    within(least, LONGEST_RANGE, seconds)
}

// The seconds of a text. A longer duration than 30 days counts as one second above that.
fn seconds_of(text: &str) -> Option<u64>
    ensures { result ≡ option_map capped (seconds_of text.now) }
{
    if text == "0" {
        return Some(0);
    }
    if text.is_empty() {
        return None;
    }
    duration_of(text.as_bytes())
}

// The whole number that a value is, up to the most.
pub(crate) fn number_in(value: &Value, most: u64) -> Option<u64>
    ensures { result ≡ number_in most (view value.now) }
{
    match value.as_integer() {
        Some(number) if number >= 0 => within(0, most, number as u64),
        _ => None,
    }
}

fn within(least: u64, most: u64, number: u64) -> Option<u64>
    ensures { result ≡ within least most number }
{
    if least <= number && number <= most {
        Some(number)
    } else {
        None
    }
}

// Whether each value of a table is a text.
pub(crate) fn are_texts(table: &Table) -> bool
    ensures { result ≡ are_texts (table_view table.now) }
{
    table.values().all(Value::is_str)
}

// The texts of the table at a key with their keys, none where there is none.
pub(crate) fn texts_at(
    alloc: Global,
    table: &Table,
    key: &str,
) -> Result<Vec<(PlainText, PlainText)>, AllocError>
    ensures { IfOk result (λ texts. texts.items ≡ texts_at key.now (table_view table.now)) }
{
    match value_at(table, key) {
        Some(value) => texts_in(alloc, value),
        None => Ok(Vec::new(alloc)),
    }
}

fn texts_in(alloc: Global, value: &Value) -> Result<Vec<(PlainText, PlainText)>, AllocError>
    ensures { IfOk result (λ texts. texts.items ≡ texts_of (members_in (Some (view value.now)))) }
{
    match value.as_table() {
        Some(table) => texts_of(alloc, table),
        None => Ok(Vec::new(alloc)),
    }
}

fn texts_of(alloc: Global, table: &Table) -> Result<Vec<(PlainText, PlainText)>, AllocError>
    ensures { IfOk result (λ texts. texts.items ≡ texts_of (table_view table.now)) }
{
    let mut texts = Vec::with_capacity(alloc, table.len())?;
    for (name, value) in table.iter() {
        let name = PlainText::from_str(alloc, name.as_str())?;
        let text = PlainText::from_str(alloc, value.as_str().unwrap_or(""))?;
        texts.push((name, text))?;
    }
    Ok(texts)
}

// The label set that the texts of the table at a key make, the empty one where they make none.
pub(crate) fn labels_at(alloc: Global, table: &Table, key: &str) -> Result<Labels, AllocError>
    ensures { IfOk result (λ labels. labels ≡ labels_at key.now (table_view table.now)) }
{
    match Labels::from_pairs(alloc, texts_at(alloc, table, key)?) {
        Ok(labels) => Ok(labels),
        Err(OrMemory::Fault(_)) => Labels::empty(alloc),
        Err(OrMemory::Memory) => Err(AllocError),
    }
}

// The kind of the rule that a table is: with the key `record` a recording one.
pub(crate) fn kind_of(rule: &Table) -> RuleKind
    ensures { result ≡ kind_of (table_view rule.now) }
{
    if value_at(rule, "record").is_some() {
        RuleKind::Recording
    } else {
        RuleKind::Alerting
    }
}

// The name of the rule that a table is.
pub(crate) fn name_of(rule: &Table) -> &str
    ensures { result.now ≡ name_of (table_view rule.now) }
{
    text_at(rule, name_key(kind_of(rule)))
}

fn name_key(kind: RuleKind) -> &'static str
    ensures { result.now ≡ name_key kind }
{
    match kind {
        RuleKind::Recording => "record",
        RuleKind::Alerting => "alert",
    }
}
