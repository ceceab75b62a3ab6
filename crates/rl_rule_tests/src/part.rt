//! A table of a test file, and what stands at its keys. What is missing or of another kind is a fault.
ghost use Rattle.std.specs.Prelude.{◌≡◌, ◌++◌, ℕ, true, map, List, [], ◌∷◌, Some, is_ok, is_some, option_map, IfOk, IfSome, IsOk, IsTrue, OnOk};
ghost use Rattle.std.specs.List.{list_any};
ghost use Rattle.std.specs.Option.{option_map_or};
ghost use Rattle.toml.specs.Data.{as_array, as_table, get_member, Members};
ghost use Rattle.toml.specs.View.{items_view, table_view, view};
ghost use Rattle.rl_labels.specs.EntryParts.{are_stream_labels};
ghost use Rattle.rl_labels.specs.Name.{is_text};
ghost use Rattle.rl_rules.specs.Document.{items_in, tables_at};
ghost use Rattle.rl_rules.specs.Values.{are_texts, texts_at, texts_of};
ghost use Rattle.rl_rules.specs.declared.rule.RuleKind.{RuleKind};
ghost use Rattle.rl_rule_tests.specs.Document.{has_only, has_tables, has_texts, text_at, time_at, time_of, with_own, AreAppended, AreItems, AreLabels, IsSteps, IsTextIf};

use crate::fault::{TestsError, fault, within};
use rl_labels::{Duration, Labels, LabelsError};
use rl_plain::PlainText;
use rl_rules::RuleKind;
use std::alloc::Global;
use toml::{Table, Value};

// The longest time, 30 days.
const LONGEST: u64 = 2_592_000_000_000_000;

/// A table, and what is known of it from around it.
#[derive(Clone, Copy)]
pub(crate) struct Part<'a> {
    pub(crate) alloc: Global,
    pub(crate) table: &'a Table,
    /// The kind of the rules of which something is wanted, and their name where it is known.
    pub(crate) kind: RuleKind,
    pub(crate) rule: &'a str,
}

/// What an item of an array says.
pub(crate) trait Item<'a>: Drop {
    // Whether it is what a table says, of rules of a kind with a name.
    ghost is: { RuleKind → List ℕ → Members → Self → Type 0 };

    fn read(part: Part<'a>) -> Result<Self, TestsError>
        ensures { IfOk result (is part.entry.kind part.entry.rule.now (table_view part.entry.table.now)) };
}

/// Moments of a test, each a step after the one before it.
#[derive(Clone, Copy)]
pub(crate) struct Steps {
    pub(crate) from: u64,
    pub(crate) step: u64,
    pub(crate) count: u64,
}

impl<'a> Part<'a> {
    pub(crate) fn fault(self, what: &str) -> TestsError {
        fault(format!(in self.alloc; "{what}"))
    }

    /// A fault of a key.
    pub(crate) fn key_fault(self, key: &str, what: &str) -> TestsError {
        fault(format!(in self.alloc; "the key {key} {what}"))
    }

    /// Refuses a key that is none of these.
    pub(crate) fn only(self, keys: &[&str]) -> Result<(), TestsError>
        ensures { is_ok result ≡ has_only (map (λ key. key.now) keys.now) (table_view self.entry.table.now) }
    {
        for (key, _) in self.table.iter() {
            if !is_one_of(keys, key.as_str()) {
                return Err(self.key_fault(key.as_str(), "is not known"));
            }
        }
        Ok(())
    }

    /// The value at a key.
    pub(crate) fn value_at(self, key: &str) -> Option<&'a Value>
        ensures { option_map (λ value. view value.now) result ≡ get_member key.now (table_view self.entry.table.now) }
    {
        self.table.get(key)
    }

    /// Whether the table has the key.
    pub(crate) fn has(self, key: &str) -> bool
        ensures { result ≡ is_some (get_member key.now (table_view self.entry.table.now)) }
    {
        self.value_at(key).is_some()
    }

    /// The text at a key, if there is one.
    pub(crate) fn text(self, key: &str) -> Result<Option<&'a str>, TestsError>
        ensures { IfOk result (λ text. IsTextIf key.now (table_view self.entry.table.now) text) }
    {
        match self.value_at(key) {
            None => Ok(None),
            Some(value) => match value.as_str() {
                Some(text) => Ok(Some(text)),
                None => Err(self.key_fault(key, "is no text")),
            },
        }
    }

    /// The text at a key that is wanted.
    pub(crate) fn wanted_text(self, key: &str) -> Result<&'a str, TestsError>
        ensures { IfOk result (λ text. text_at key.now (table_view self.entry.table.now) ≡ Some text.now) }
    {
        match self.text(key)? {
            Some(text) => Ok(text),
            None => Err(self.key_fault(key, "is missing")),
        }
    }

    /// The time at a key that is wanted, in nanoseconds.
    pub(crate) fn time(self, key: &str) -> Result<u64, TestsError>
        ensures { IfOk result (λ time. time_at key.now (table_view self.entry.table.now) ≡ Some time) }
    {
        let text = self.wanted_text(key)?;
        match nanoseconds_in(text) {
            Some(time) => Ok(time),
            None => Err(self.key_fault(key, "is no time from 0s to 720h, as 1m30s")),
        }
    }

    /// The moments at `from` and each `step` after it, up to `to` itself.
    pub(crate) fn steps(self) -> Result<Steps, TestsError>
        ensures { IfOk result (IsSteps (table_view self.entry.table.now)) }
    {
        let (from, to, step) = (self.time("from")?, self.time("to")?, self.time("step")?);
        match (
            to.checked_sub(from),
            to.saturating_sub(from).checked_div(step),
        ) {
            (_, None) => Err(self.key_fault("step", "is no time above 0s")),
            (None, _) => Err(self.fault("to is before from")),
            (Some(_), Some(steps)) => Ok(Steps {
                from,
                step,
                count: steps.saturating_add(1),
            }),
        }
    }

    /// The items of the array at a key, none where there is none.
    pub(crate) fn all<T: Item<'a>>(self, array: &str) -> Result<Vec<T>, TestsError>
        ensures { IfOk result (λ all. AreItems (T.is self.entry.kind self.entry.rule.now) array.now (table_view self.entry.table.now) all.items) }
    {
        let mut all = Vec::new(self.alloc);
        self.push_all(array, &mut all)?;
        Ok(all)
    }

    /// Adds the items of the array at a key to others.
    pub(crate) fn push_all<T: Item<'a>>(
        self,
        array: &str,
        all: &mut Vec<T>,
    ) -> Result<(), TestsError>
        ensures tables { OnOk result (IsTrue (has_tables array.now (table_view self.entry.table.now))) }
        ensures items { OnOk result (AreAppended (T.is self.entry.kind self.entry.rule.now) (tables_at array.now (table_view self.entry.table.now)) all.old.items all.new.items) }
    {
        for (index, value) in self.items(array)?.iter().enumerate() {
            match self.item(value) {
                Ok(item) => all.push(item)?,
                Err(error) => return Err(within(self.alloc, error, array, index)),
            }
        }
        Ok(())
    }

    fn items(self, array: &str) -> Result<&'a [Value], TestsError>
        ensures items { IfOk result (λ items. items_view items.now ≡ items_in (get_member array.now (table_view self.entry.table.now))) }
        ensures array { IsOk result → option_map_or (λ value. is_some (as_array value)) (get_member array.now (table_view self.entry.table.now)) true ≡ true }
    {
        match self.value_at(array) {
            None => Ok(&[]),
            Some(value) => match value.as_array() {
                Some(items) => Ok(items.as_slice()),
                None => Err(self.key_fault(array, "is no array of tables")),
            },
        }
    }

    fn item<T: Item<'a>>(self, value: &'a Value) -> Result<T, TestsError>
        ensures item { IfOk result (λ item. IfSome (as_table (view value.now)) (λ table. T.is self.entry.kind self.entry.rule.now table item)) }
        ensures table { IsOk result → is_some (as_table (view value.now)) ≡ true }
    {
        match value.as_table() {
            Some(table) => T::read(Part {
                alloc: self.alloc,
                table,
                kind: self.kind,
                rule: self.rule,
            }),
            None => Err(self.fault("this is no table")),
        }
    }

    /// The label set of the table at a key, with a name and a text where the table leaves that name out.
    pub(crate) fn labels(self, key: &str, own: Option<(&str, &str)>) -> Result<Labels, TestsError>
        ensures labels { IfOk result (AreLabels key.now (option_map (λ pair. (pair.0.now, pair.1.now)) own.entry) (table_view self.entry.table.now)) }
        ensures of_stream { IfOk result (λ labels. IsTrue (are_stream_labels labels)) }
    {
        let mut pairs = Vec::new(self.alloc);
        self.push_pairs(key, &mut pairs)?;
        push_own(&mut pairs, own)?;
        match Labels::from_pairs(self.alloc, pairs) {
            Ok(labels) => Ok(labels),
            Err(LabelsError::Fault(what)) => Err(fault(format!(in self.alloc;
                "the key {key} makes no label set: {what}"
            ))),
            Err(LabelsError::Memory) => Err(TestsError::Memory),
        }
    }

    fn push_pairs(
        self,
        key: &str,
        pairs: &mut Vec<(PlainText, PlainText)>,
    ) -> Result<(), TestsError>
        ensures texts { OnOk result (IsTrue (has_texts key.now (table_view self.entry.table.now))) }
        ensures pairs { OnOk result (pairs.new.items ≡ pairs.old.items ++ texts_at key.now (table_view self.entry.table.now)) }
    {
        let Some(value) = self.value_at(key) else {
            return Ok(());
        };
        let Some(table) = value.as_table() else {
            return Err(self.key_fault(key, "is no table of texts"));
        };
        self.push_texts(key, table, pairs)
    }

    fn push_texts(
        self,
        key: &str,
        table: &Table,
        pairs: &mut Vec<(PlainText, PlainText)>,
    ) -> Result<(), TestsError>
        ensures texts { OnOk result (are_texts (table_view table.now) ≡ true) }
        ensures pairs { OnOk result (pairs.new.items ≡ pairs.old.items ++ texts_of (table_view table.now)) }
    {
        for (name, value) in table.iter() {
            match value.as_str() {
                Some(text) => push_pair(pairs, name.as_str(), text)?,
                None => return Err(self.key_fault(key, "is no table of texts")),
            }
        }
        Ok(())
    }
}

fn is_one_of(keys: &[&str], key: &str) -> bool
    ensures { result ≡ list_any (λ one. is_text one key.now) (map (λ one. one.now) keys.now) }
{
    keys.contains(&key)
}

// Adds a pair of its own where its name is not among the others.
fn push_own(
    pairs: &mut Vec<(PlainText, PlainText)>,
    own: Option<(&str, &str)>,
) -> Result<(), TestsError>
    ensures { OnOk result (pairs.new.items ≡ with_own (option_map (λ pair. (pair.0.now, pair.1.now)) own.entry) pairs.old.items) }
{
    match own {
        Some((name, text)) => push_unless_named(pairs, name, text),
        None => Ok(()),
    }
}

fn push_unless_named(
    pairs: &mut Vec<(PlainText, PlainText)>,
    name: &str,
    text: &str,
) -> Result<(), TestsError>
    ensures { OnOk result (pairs.new.items ≡ with_own (Some (name.now, text.now)) pairs.old.items) }
{
    if has_name(pairs, name) {
        return Ok(());
    }
    push_pair(pairs, name, text)
}

fn has_name(pairs: &[(PlainText, PlainText)], name: &str) -> bool
    ensures { result ≡ list_any (λ pair. is_text pair.0 name.now) pairs.now }
{
    for pair in pairs {
        if pair.0.as_str() == name {
            return true;
        }
    }
    false
}

fn push_pair(
    pairs: &mut Vec<(PlainText, PlainText)>,
    name: &str,
    text: &str,
) -> Result<(), TestsError>
    ensures { OnOk result (pairs.new.items ≡ pairs.old.items ++ (name.now, text.now) ∷ []) }
{
    let alloc = *pairs.allocator();
    let name = PlainText::from_str(alloc, name)?;
    let text = PlainText::from_str(alloc, text)?;
    pairs.push((name, text))?;
    Ok(())
}

/// The nanoseconds of a time, which is at most 30 days.
pub(crate) fn nanoseconds_in(text: &str) -> Option<u64>
    ensures { result ≡ time_of text.now }
{
    let time = Duration::read(text).ok()?;
    let time = u64::try_from(time.value() / 1_000_000_000).ok()?;
    if time <= LONGEST { Some(time) } else { None }
}
