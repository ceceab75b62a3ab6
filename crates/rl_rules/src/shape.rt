//! The shape of a rule file: which keys its tables have, and what stands at them.
ghost use Rattle.std.specs.Prelude.{◌≡◌, true, map};
ghost use Rattle.std.specs.Option.{option_map_or};
ghost use Rattle.std.specs.List.{list_all, list_any};
ghost use Rattle.toml.specs.Data.{as_table};
ghost use Rattle.toml.specs.View.{view, table_view, items_view};
ghost use Rattle.rl_labels.specs.Name.{is_text};
ghost use Rattle.rl_rules.specs.Forms.{key_form};
ghost use Rattle.rl_rules.specs.Document.{rule_keys, tables_of, are_tables, is_of, has_kind, has_needed, is_typed, is_known, is_whole, passes, rule_passes, group_passes, document_passes};

use crate::rule::RuleKind;
use crate::values::{are_texts, items_at, kind_of, number_in, seconds_in, value_at};
use toml::{Table, Value};

/// A key that a table may have: its name, what stands there, and whether it has to be there.
#[derive(Clone, Copy)]
pub(crate) struct Key(&'static str, Kind, Need);

/// What stands at a key.
#[derive(Clone, Copy)]
pub(crate) enum Kind {
    Text,
    /// An array of tables.
    Tables,
    /// A duration, from the least up to 30 days.
    Seconds(u64),
    /// A whole number from 0 up to the most.
    Number(u64),
    /// A table of texts.
    Texts,
}

/// Whether a key has to be there.
#[derive(Clone, Copy)]
pub(crate) enum Need {
    Required,
    Optional,
}

/// A test of a table by the keys that it may have.
#[derive(Clone, Copy)]
pub(crate) enum Test {
    /// Whether what stands at the keys is of their kinds.
    Typed,
    /// Whether no other key is there.
    Known,
    /// Whether the keys that have to be there are.
    Whole,
}

/// The shortest interval of a group, in seconds.
pub(crate) const SHORTEST_INTERVAL: u64 = 1;

/// The shortest time until an alert fires, in seconds.
pub(crate) const SHORTEST_HOLD: u64 = 0;

/// The greatest limit of a group.
pub(crate) const GREATEST_LIMIT: u64 = 1_000_000;

// The keys of a document, of a group, and of a rule of each kind.
const DOCUMENT_KEYS: &[Key] = &[Key("groups", Kind::Tables, Need::Required)];

const GROUP_KEYS: &[Key] = &[
    Key("name", Kind::Text, Need::Required),
    Key("rules", Kind::Tables, Need::Required),
    Key("interval", Kind::Seconds(SHORTEST_INTERVAL), Need::Optional),
    Key("limit", Kind::Number(GREATEST_LIMIT), Need::Optional),
];

const RECORDING_KEYS: &[Key] = &[
    Key("record", Kind::Text, Need::Required),
    Key("expr", Kind::Text, Need::Required),
    Key("labels", Kind::Texts, Need::Optional),
];

const ALERTING_KEYS: &[Key] = &[
    Key("alert", Kind::Text, Need::Required),
    Key("expr", Kind::Text, Need::Required),
    Key("for", Kind::Seconds(SHORTEST_HOLD), Need::Optional),
    Key("labels", Kind::Texts, Need::Optional),
    Key("annotations", Kind::Texts, Need::Optional),
];

// Whether a value is of the kind.
fn is_of(kind: Kind, value: &Value) -> bool
    ensures { result ≡ is_of kind (view value.now) }
{
    match kind {
        Kind::Text => value.is_str(),
        Kind::Tables => value.as_array().is_some_and(|items| are_tables(items)),
        Kind::Seconds(least) => seconds_in(value, least).is_some(),
        Kind::Number(most) => number_in(value, most).is_some(),
        Kind::Texts => value.as_table().is_some_and(|table| are_texts(table)),
    }
}

fn are_tables(items: &[Value]) -> bool
    ensures { result ≡ are_tables (items_view items.now) }
{
    items.iter().all(Value::is_table)
}

// Whether what stands at a key is of its kind.
fn has_kind(table: &Table, key: &Key) -> bool
    ensures { result ≡ has_kind (table_view table.now) (key_form key.now) }
{
    let Key(name, kind, _) = *key;
    value_at(table, name).is_none_or(|value| is_of(kind, value))
}

// Whether a key that has to be there is there.
fn has_needed(table: &Table, key: &Key) -> bool
    ensures { result ≡ has_needed (table_view table.now) (key_form key.now) }
{
    let Key(name, _, need) = *key;
    match need {
        Need::Required => value_at(table, name).is_some(),
        Need::Optional => true,
    }
}

// Whether what stands at the keys is of their kinds.
fn is_typed(table: &Table, keys: &[Key]) -> bool
    ensures { result ≡ is_typed (map key_form keys.now) (table_view table.now) }
{
    keys.iter().all(|key| has_kind(table, key))
}

// Whether no other key is there.
fn is_known(table: &Table, keys: &[Key]) -> bool
    ensures { result ≡ is_known (map key_form keys.now) (table_view table.now) }
{
    table.keys().all(|name| is_one_of(keys, name.as_str()))
}

fn is_one_of(keys: &[Key], name: &str) -> bool
    ensures { result ≡ list_any (λ key. is_text key.0.now name.now) keys.now }
{
    keys.iter().any(|key| key.0 == name)
}

// Whether the keys that have to be there are.
fn is_whole(table: &Table, keys: &[Key]) -> bool
    ensures { result ≡ is_whole (map key_form keys.now) (table_view table.now) }
{
    keys.iter().all(|key| has_needed(table, key))
}

// Whether a table with these keys passes a test.
fn passes(test: Test, table: &Table, keys: &[Key]) -> bool
    ensures { result ≡ passes test (map key_form keys.now) (table_view table.now) }
{
    match test {
        Test::Typed => is_typed(table, keys),
        Test::Known => is_known(table, keys),
        Test::Whole => is_whole(table, keys),
    }
}

fn rule_keys(kind: RuleKind) -> &'static [Key]
    ensures { map key_form result.now ≡ rule_keys kind }
{
    match kind {
        RuleKind::Recording => RECORDING_KEYS,
        RuleKind::Alerting => ALERTING_KEYS,
    }
}

// Whether an item passes it, if it is the table of a rule.
fn rule_passes(test: Test, item: &Value) -> bool
    ensures { result ≡ option_map_or (rule_passes (passes test)) (as_table (view item.now)) true }
{
    match item.as_table() {
        Some(rule) => passes(test, rule, rule_keys(kind_of(rule))),
        None => true,
    }
}

fn rules_pass(test: Test, items: &[Value]) -> bool
    ensures { result ≡ list_all (rule_passes (passes test)) (tables_of (items_view items.now)) }
{
    items.iter().all(|item| rule_passes(test, item))
}

// Whether an item and each of its rules pass it, if it is the table of a group.
fn group_passes(test: Test, item: &Value) -> bool
    ensures { result ≡ option_map_or (group_passes (passes test)) (as_table (view item.now)) true }
{
    match item.as_table() {
        Some(group) => {
            passes(test, group, GROUP_KEYS) && rules_pass(test, items_at(group, "rules"))
        }
        None => true,
    }
}

fn groups_pass(test: Test, items: &[Value]) -> bool
    ensures { result ≡ list_all (group_passes (passes test)) (tables_of (items_view items.now)) }
{
    items.iter().all(|item| group_passes(test, item))
}

/// Whether a document, each of its groups and each of their rules pass the test.
pub(crate) fn document_passes(test: Test, document: &Table) -> bool
    ensures { result ≡ document_passes (passes test) (table_view document.now) }
{
    passes(test, document, DOCUMENT_KEYS) && groups_pass(test, items_at(document, "groups"))
}
