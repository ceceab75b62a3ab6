//! Rule files: groups of rules from a TOML text.
ghost use Rattle.std.specs.Prelude.{◌≡◌, nat_lt, length, map};
ghost use Rattle.std.specs.List.{list_any};
ghost use Rattle.toml.specs.View.{table_view, items_view};
ghost use Rattle.rl_plain.specs.Answers.{Answers};
ghost use Rattle.rl_labels.specs.Name.{is_text};
ghost use Rattle.rl_query.specs.Form.{query_form};
ghost use Rattle.rl_query_text.specs.QueryReading.{query_of};
ghost use Rattle.rl_rules.specs.Answering.{QueryLacksRoom, RuleLacksRoom, OneLacksRoom, GroupLacksRoom, DocumentLacksRoom, LacksRoom, Reads};
ghost use Rattle.rl_rules.specs.Forms.{group_form, rule_form};
ghost use Rattle.rl_rules.specs.Document.{groups_of, document_groups, tables_of, query_at, rule_at, group_at, each_from, most_rules, has_same_group, has_too_many, checked, check_keys};

use crate::fault::{RulesError, RulesFault};
use crate::names::groups_are_named_well;
use crate::rule::{Group, Rule};
use crate::shape::{GREATEST_LIMIT, SHORTEST_HOLD, SHORTEST_INTERVAL, Test, document_passes};
use crate::values::{
    items_at, kind_of, labels_at, name_of, number_at, seconds_at, text_at, texts_at,
};
use rl_plain::{PlainList, PlainText};
use rl_query::{Query, QueryError};
use rl_query_text::parse;
use std::alloc::Global;
use toml::{Table, Value};

/// The most groups of a rule file.
pub const MOST_GROUPS: usize = 64;

/// The most rules of a group.
pub const MOST_RULES: usize = 256;

// From one evaluation of a group to the next where it names none, in seconds.
const USUAL_INTERVAL: u64 = 60;

/// The groups of a rule file, unless its document has a fault: the lowest that it has anywhere.
#[tactic(auto, unfolding(crate::specs::Document::groups_of))]
pub fn read_rules(alloc: Global, text: &str) -> Result<Vec<Group>, RulesError>
    ensures { Reads (λ groups. map group_form groups.items) result (groups_of text.now) (LacksRoom text.now) }
{
    match toml::table_from_str(alloc, text) {
        Ok(document) => groups_in(alloc, &document),
        Err(error) if error.is_memory() => Err(RulesError::Memory),
        Err(_) => Err(RulesError::Fault(RulesFault::BadToml)),
    }
}

// The groups of a document.
fn groups_in(alloc: Global, document: &Table) -> Result<Vec<Group>, RulesError>
    ensures { Reads (λ groups. map group_form groups.items) result (document_groups (table_view document.now)) (DocumentLacksRoom (table_view document.now)) }
{
    check_keys(document)?;
    let items = items_at(document, "groups");
    let groups = groups_from(alloc, items)?;
    let named = groups_are_named_well(alloc, items)?;
    Ok(checked(named, groups)?)
}

// The lowest fault of the keys, if they have one.
fn check_keys(document: &Table) -> Result<(), RulesFault>
    ensures { result ≡ check_keys (table_view document.now) }
{
    if !document_passes(Test::Typed, document) {
        return Err(RulesFault::BadToml);
    }
    if !document_passes(Test::Known, document) {
        return Err(RulesFault::UnknownKey);
    }
    if !document_passes(Test::Whole, document) {
        return Err(RulesFault::MissingKey);
    }
    Ok(())
}

// The groups of an array's tables.
fn groups_from(alloc: Global, items: &[Value]) -> Result<Vec<Group>, RulesError>
    ensures { Reads (λ groups. map group_form groups.items) result (each_from group_at 0 (tables_of (items_view items.now))) (OneLacksRoom group_at GroupLacksRoom (tables_of (items_view items.now))) }
{
    let mut groups = Vec::new(alloc);
    for item in items {
        if let Some(table) = item.as_table() {
            let group = group_at(alloc, groups.len(), table)?;
            groups.push(group)?;
        }
    }
    Ok(groups)
}

fn group_at(alloc: Global, group: usize, table: &Table) -> Result<Group, RulesError>
    ensures { Reads group_form result (group_at group (table_view table.now)) (GroupLacksRoom group (table_view table.now)) }
{
    let rules = rules_from(alloc, group, items_at(table, "rules"))?;
    let name = PlainText::from_str(alloc, text_at(table, "name"))?;
    Ok(Group {
        name,
        interval: seconds_at(table, "interval", SHORTEST_INTERVAL, USUAL_INTERVAL),
        limit: number_at(table, "limit", GREATEST_LIMIT, 0),
        rules: PlainList::from_vec(rules),
    })
}

// The rules of an array's tables.
fn rules_from(alloc: Global, group: usize, items: &[Value]) -> Result<Vec<Rule>, RulesError>
    ensures { Reads (λ rules. map rule_form rules.items) result (each_from (rule_at group) 0 (tables_of (items_view items.now))) (OneLacksRoom (rule_at group) (RuleLacksRoom group) (tables_of (items_view items.now))) }
{
    let mut rules = Vec::new(alloc);
    for item in items {
        if let Some(table) = item.as_table() {
            let rule = rule_at(alloc, group, rules.len(), table)?;
            rules.push(rule)?;
        }
    }
    Ok(rules)
}

fn rule_at(alloc: Global, group: usize, rule: usize, table: &Table) -> Result<Rule, RulesError>
    ensures { Reads rule_form result (rule_at group rule (table_view table.now)) (RuleLacksRoom group rule (table_view table.now)) }
{
    let query = query_at(alloc, group, rule, text_at(table, "expr"))?;
    let name = PlainText::from_str(alloc, name_of(table))?;
    let labels = texts_at(alloc, table, "labels")?;
    let annotations = labels_at(alloc, table, "annotations")?;
    Ok(Rule {
        kind: kind_of(table),
        name,
        query,
        labels: PlainList::from_vec(labels),
        hold: seconds_at(table, "for", SHORTEST_HOLD, 0),
        annotations,
    })
}

// The query of a rule, or its fault with the indexes of the group and of the rule.
fn query_at(alloc: Global, group: usize, rule: usize, text: &str) -> Result<Query, RulesError>
    ensures { Reads query_form result (query_at group rule (query_of text.now)) (QueryLacksRoom group rule text.now) }
{
    match parse(alloc, text) {
        Ok(query) => Ok(query),
        Err(QueryError::Fault(fault)) => Err(RulesError::Fault(RulesFault::BadQuery {
            group,
            rule,
            fault,
        })),
        Err(QueryError::Memory) => Err(RulesError::Memory),
    }
}

// The groups, unless a name or a number is refused.
fn checked(named: bool, groups: Vec<Group>) -> Result<Vec<Group>, RulesFault>
    ensures { Answers (λ groups. map group_form groups.items) result (checked named (map group_form groups.items)) }
{
    if !named {
        return Err(RulesFault::BadName);
    }
    if has_same_group(&groups) {
        return Err(RulesFault::SameGroup);
    }
    if has_too_many(&groups) {
        return Err(RulesFault::TooMany);
    }
    Ok(groups)
}

// Whether two groups have one name.
fn has_same_group(groups: &[Group]) -> bool
    ensures { result ≡ has_same_group (map group_form groups.now) }
{
    for (index, group) in groups.iter().enumerate() {
        if has_name(&groups[index + 1..], group.name.as_str()) {
            return true;
        }
    }
    false
}

fn has_name(groups: &[Group], name: &str) -> bool
    ensures { result ≡ list_any (λ group. is_text name.now group.name) groups.now }
{
    groups.iter().any(|group| name == group.name.as_str())
}

// Whether there are more than 64 groups, or more than 256 rules of a group.
fn has_too_many(groups: &[Group]) -> bool
    ensures { result ≡ has_too_many (map group_form groups.now) }
{
    groups.len() > MOST_GROUPS || groups.iter().any(has_many_rules)
}

fn has_many_rules(group: &Group) -> bool
    ensures { result ≡ nat_lt most_rules (length group.now.rules) }
{
    group.rules.len() > MOST_RULES
}
