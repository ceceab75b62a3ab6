//! Names of groups, of recorded metrics and of alerts, and labels of rules.
ghost use Rattle.std.specs.Prelude.{◌≡◌, true, not, IfOk};
ghost use Rattle.std.specs.List.{list_all};
ghost use Rattle.std.specs.Option.{option_map_or};
ghost use Rattle.toml.specs.Data.{as_table};
ghost use Rattle.toml.specs.View.{view, table_view, items_view};
ghost use Rattle.rl_rules.specs.Document.{tables_of, make_labels, is_rule_name, rule_is_named_well, group_is_named_well, groups_are_named_well};
ghost use Rattle.rl_rules.specs.Values.{texts_at};
ghost use Rattle.rl_rules.specs.RuleNames.{is_metric_name, is_metric_start, is_metric_byte, is_control, is_group_name};

use crate::rule::RuleKind;
use crate::values::{items_at, kind_of, name_of, text_at, texts_at};
use rl_labels::Labels;
use rl_plain::OrMemory;
use std::alloc::{AllocError, Global};
use toml::{Table, Value};

/// The longest name of a group or of alerts, in bytes.
pub const LONGEST_GROUP_NAME: usize = 256;

// Whether the names of the groups of an array's tables, and of their rules, are good, and their labels make sets.
pub(crate) fn groups_are_named_well(alloc: Global, items: &[Value]) -> Result<bool, AllocError>
    ensures { IfOk result (λ good. good ≡ groups_are_named_well (tables_of (items_view items.now))) }
{
    for item in items {
        if !group_is_named_well(alloc, item)? {
            return Ok(false);
        }
    }
    Ok(true)
}

// Whether an item is named well, if it is the table of a group.
fn group_is_named_well(alloc: Global, item: &Value) -> Result<bool, AllocError>
    ensures { IfOk result (λ good. good ≡ option_map_or group_is_named_well (as_table (view item.now)) true) }
{
    match item.as_table() {
        Some(group) if is_group_name(text_at(group, "name")) => {
            rules_are_named_well(alloc, items_at(group, "rules"))
        }
        Some(_) => Ok(false),
        None => Ok(true),
    }
}

fn rules_are_named_well(alloc: Global, items: &[Value]) -> Result<bool, AllocError>
    ensures { IfOk result (λ good. good ≡ list_all rule_is_named_well (tables_of (items_view items.now))) }
{
    for item in items {
        if !rule_is_named_well(alloc, item)? {
            return Ok(false);
        }
    }
    Ok(true)
}

// Whether an item is named well, if it is the table of a rule.
fn rule_is_named_well(alloc: Global, item: &Value) -> Result<bool, AllocError>
    ensures { IfOk result (λ good. good ≡ option_map_or rule_is_named_well (as_table (view item.now)) true) }
{
    match item.as_table() {
        Some(rule) if is_rule_name(kind_of(rule), name_of(rule)) => {
            Ok(make_labels(alloc, rule, "labels")? && make_labels(alloc, rule, "annotations")?)
        }
        Some(_) => Ok(false),
        None => Ok(true),
    }
}

// Whether the text is a name that a metric may have, or alerts.
fn is_rule_name(kind: RuleKind, name: &str) -> bool
    ensures { result ≡ is_rule_name kind name.now }
{
    match kind {
        RuleKind::Recording => is_metric_name(name),
        RuleKind::Alerting => is_group_name(name),
    }
}

// Whether the texts of the table at a key make a label set.
fn make_labels(alloc: Global, table: &Table, key: &str) -> Result<bool, AllocError>
    ensures { IfOk result (λ good. good ≡ make_labels (texts_at key.now (table_view table.now))) }
{
    match Labels::from_pairs(alloc, texts_at(alloc, table, key)?) {
        Ok(_) => Ok(true),
        Err(OrMemory::Fault(_)) => Ok(false),
        Err(OrMemory::Memory) => Err(AllocError),
    }
}

// Whether the text is `[a-zA-Z_:][a-zA-Z0-9_:]*`.
pub(crate) fn is_metric_name(name: &str) -> bool
    ensures { result ≡ is_metric_name name.now }
{
    match name.as_bytes() {
        [] => false,
        [first, rest @ ..] => is_metric_start(*first) && are_metric_bytes(rest),
    }
}

fn is_metric_start(byte: u8) -> bool
    ensures { result ≡ is_metric_start byte }
{
    byte.is_ascii_lowercase() || byte.is_ascii_uppercase() || byte == b'_' || byte == b':'
}

fn are_metric_bytes(bytes: &[u8]) -> bool
    ensures { result ≡ list_all is_metric_byte bytes.now }
{
    bytes
        .iter()
        .all(|byte| is_metric_start(*byte) || byte.is_ascii_digit())
}

// Whether the text has 1 to 256 bytes, and no control character.
pub(crate) fn is_group_name(name: &str) -> bool
    ensures { result ≡ is_group_name name.now }
{
    !name.is_empty() && name.len() <= LONGEST_GROUP_NAME && has_no_control(name.as_bytes())
}

fn has_no_control(bytes: &[u8]) -> bool
    ensures { result ≡ list_all (λ byte. not (is_control byte)) bytes.now }
{
    bytes.iter().all(|byte| !is_control(*byte))
}

fn is_control(byte: u8) -> bool
    ensures { result ≡ is_control byte }
{
    byte < 32 || byte == 127
}
