//! Each fault of a document, in the order of its groups and rules.

use crate::findings::{Findings, OutOfMemory};
use crate::keys::{Key, Owner};
use crate::location::Location;
use crate::names::{push_labels, push_name_fault, push_rule_name_fault, spot_of};
use crate::queries::push_query;
use crate::values::{items_at, push_name, push_value, text_at};
use rl_rules::reading::{MOST_GROUPS, MOST_RULES};
use std::collections::BTreeSet;
use std::fmt::Write;
use toml::Table;

/// The faults of a document: its own, and those of each group and of each rule. Those of one table come by its known keys, by
/// its unknown ones in their order, and by those that are missing.
pub(crate) fn push_faults(
    findings: &mut Findings,
    location: &Location<'_>,
    document: &Table,
) -> Result<(), OutOfMemory> {
    push_keys(findings, location, Owner::File, document)?;
    let items = items_at(document, "groups");
    if items.len() > MOST_GROUPS {
        let count = items.len();
        findings.begin(location)?;
        writeln!(
            findings.text,
            "{count} groups, where {MOST_GROUPS} are allowed"
        )?;
    }
    let mut names = BTreeSet::new(*findings.text.allocator());
    for (number, item) in items.iter().enumerate() {
        if let Some(group) = item.as_table() {
            let location = location.of_group(spot_of(group, "name", number));
            push_group(findings, &location, group, &mut names)?;
        }
    }
    Ok(())
}

// The faults of a group after others, whose names are known.
fn push_group(
    findings: &mut Findings,
    location: &Location<'_>,
    group: &Table,
    names: &mut BTreeSet<String>,
) -> Result<(), OutOfMemory> {
    push_keys(findings, location, Owner::Group, group)?;
    push_name_fault(findings, location, group, "name")?;
    push_same_name(findings, location, group, names)?;
    let items = items_at(group, "rules");
    if items.len() > MOST_RULES {
        let count = items.len();
        findings.begin(location)?;
        writeln!(
            findings.text,
            "{count} rules, where {MOST_RULES} are allowed"
        )?;
    }
    for (number, item) in items.iter().enumerate() {
        if let Some(rule) = item.as_table() {
            push_rule(findings, location, number, rule)?;
        }
    }
    Ok(())
}

fn push_same_name(
    findings: &mut Findings,
    location: &Location<'_>,
    group: &Table,
    names: &mut BTreeSet<String>,
) -> Result<(), OutOfMemory> {
    let Some(name) = text_at(group, "name") else {
        return Ok(());
    };
    if !names.insert(String::from_str(*findings.text.allocator(), name)?)? {
        findings.begin(&location.of_key("name"))?;
        findings.text.push_str("two groups have this name\n")?;
    }
    Ok(())
}

fn push_rule(
    findings: &mut Findings,
    location: &Location<'_>,
    number: usize,
    rule: &Table,
) -> Result<(), OutOfMemory> {
    let (owner, key) = if rule.get("record").is_some() {
        (Owner::Recording, "record")
    } else {
        (Owner::Alerting, "alert")
    };
    let location = location.of_rule(spot_of(rule, key, number));
    push_keys(findings, &location, owner, rule)?;
    push_rule_name_fault(findings, &location, owner, rule)?;
    push_labels(findings, &location, rule, "labels", "label")?;
    if owner.has("annotations") {
        push_labels(findings, &location, rule, "annotations", "annotation")?;
    }
    match text_at(rule, "expr") {
        Some(query) => push_query(findings, &location.of_key("expr"), query),
        None => Ok(()),
    }
}

// The faults of a table by its keys.
fn push_keys(
    findings: &mut Findings,
    location: &Location<'_>,
    owner: Owner,
    table: &Table,
) -> Result<(), OutOfMemory> {
    for key in owner.keys() {
        if let Some(value) = table.get(key.name) {
            push_value(findings, &location.of_key(key.name), key, value)?;
        }
    }
    for name in table.keys() {
        if !owner.has(name.as_str()) {
            push_unknown(findings, location, owner, name.as_str())?;
        }
    }
    for key in owner.keys() {
        if key.is_needed && table.get(key.name).is_none() {
            push_missing(findings, location, owner, key)?;
        }
    }
    Ok(())
}

fn push_unknown(
    findings: &mut Findings,
    location: &Location<'_>,
    owner: Owner,
    name: &str,
) -> Result<(), OutOfMemory> {
    findings.begin(&location.of_key(name))?;
    write!(findings.text, "{} has no key ", owner.as_str())?;
    push_name(&mut findings.text, name)?;
    findings.text.push('\n')?;
    if let Some(hint) = owner.near(name, findings.is_full) {
        writeln!(findings.text, "  in its place: {hint}")?;
    }
    Ok(())
}

fn push_missing(
    findings: &mut Findings,
    location: &Location<'_>,
    owner: Owner,
    key: &Key,
) -> Result<(), OutOfMemory> {
    findings.begin(location)?;
    writeln!(findings.text, "the key {} is missing", owner.missing(key))?;
    Ok(())
}
