//! Cases of names, label sets, values of labels, moments, entries, matchers and limits.
//!
//! A matcher is written as `a=x` or with `!=`, `=~`, `!~`. Where two label sets are compared, `=x` has the value `x` under
//! the label `a`, whatever signs the value has.
use crate::compared::compared;
use crate::given::{Read, labels_in, list_in, moment_in, number_in, raw_limits_in, words_of};
use crate::output::{push_debug, push_fault_text, push_refused, push_value};
use crate::trouble::Trouble;
use rl_labels::entry::MAX_LINE_LEN;
use rl_labels::labels::{ERROR_LABEL, MAX_TEXT_LEN, is_label_name};
use rl_labels::{
    BadLimit, Decimal, Duration, Entry, Labels, LabelsError, LimitField, Limits, MatchOp, Matcher,
    MatcherError, Ns, Signed,
};
use rl_patterns::PatternCode;
use rl_plain::{OrMemory, PlainText};
use std::alloc::Global;

pub(crate) fn answer(output: &mut String, directive: &str, input: &str) -> Result<(), Trouble> {
    match directive {
        "constants" => constants(output),
        "name" => push_value(output, &is_label_name(input)),
        "set" => set(output, input),
        "value" => value(output, input),
        "read" => read(output, input),
        "with" => with(output, input),
        "number" => number(output, input),
        "duration" => duration(output, input),
        "moment" => push_debug(output, &Ns::new(number_in(input)?)),
        "entry" => entry(output, input),
        "matcher" => matcher(output, input),
        "limits" => limits(output, input),
        "others" => others(output),
        _ => comparison(output, directive, input),
    }
}

// How two values stand to each other.
fn comparison(output: &mut String, directive: &str, input: &str) -> Result<(), Trouble> {
    match directive {
        "sets" => compared::<Labels>(output, input),
        "moments" => compared::<Ns>(output, input),
        "entries" => compared::<Entry>(output, input),
        "matchers" => compared::<Matcher>(output, input),
        "operators" => compared::<MatchOp>(output, input),
        _ => Err(Trouble::NoSuchDirective),
    }
}

impl Read for Labels {
    fn read(alloc: Global, text: &str) -> Result<Self, Trouble> {
        match text.strip_prefix('=') {
            Some(value) => of_value(alloc, value),
            None => labels_in(alloc, text),
        }
    }
}

impl Read for MatchOp {
    fn read(_alloc: Global, text: &str) -> Result<Self, Trouble> {
        Ok(parts_of(text).1)
    }
}

impl Read for Matcher {
    fn read(alloc: Global, text: &str) -> Result<Self, Trouble> {
        matcher_of(alloc, text).or(Err(Trouble::BadInput))
    }
}

fn constants(output: &mut String) -> Result<(), Trouble> {
    writeln!(output, "{ERROR_LABEL} {MAX_TEXT_LEN} {MAX_LINE_LEN}")?;
    Ok(())
}

// The set of pairs, shown, and the length of its text.
fn set(output: &mut String, input: &str) -> Result<(), Trouble> {
    let alloc = *output.allocator();
    match Labels::from_pairs(alloc, list_in(alloc, input, ",")?) {
        Ok(labels) => push_set(output, &labels),
        Err(refused) => push_refused(output, &refused),
    }
}

fn push_set(output: &mut String, labels: &Labels) -> Result<(), Trouble> {
    let len = labels.as_text().len();
    writeln!(output, "{labels} {len}")?;
    Ok(())
}

// The text of the set that has the value under the label `a`.
fn value(output: &mut String, input: &str) -> Result<(), Trouble> {
    let labels = of_value(*output.allocator(), input)?;
    let text = labels.text()?;
    push_value(output, &text)
}

// The set that has the value under the label `a`.
fn of_value(alloc: Global, value: &str) -> Result<Labels, Trouble> {
    Ok(Labels::empty(alloc)?.with_label("a", value)?)
}

// The labels of the first line's set, and the values that it has under the names of the other lines.
fn read(output: &mut String, input: &str) -> Result<(), Trouble> {
    let (first, names) = input.split_once('\n').ok_or(Trouble::BadInput)?;
    let labels = labels_in(*output.allocator(), first)?;
    push_pairs(output, &labels, names)
}

fn push_pairs(output: &mut String, labels: &Labels, names: &str) -> Result<(), Trouble> {
    for (name, value) in labels.pairs() {
        writeln!(output, "{name}: {value}")?;
    }
    for name in names.split('\n') {
        let value = labels.get(name);
        writeln!(output, "{name} {value:?}")?;
    }
    Ok(())
}

// The first line's set with each other line's label set in it, and the set itself after these.
fn with(output: &mut String, input: &str) -> Result<(), Trouble> {
    let (first, changes) = input.split_once('\n').ok_or(Trouble::BadInput)?;
    let labels = labels_in(*output.allocator(), first)?;
    push_changes(output, &labels, changes)
}

fn push_changes(output: &mut String, labels: &Labels, changes: &str) -> Result<(), Trouble> {
    for change in changes.split('\n') {
        push_changed(output, labels, change)?;
    }
    push_value(output, &labels.as_text())
}

fn push_changed(output: &mut String, labels: &Labels, change: &str) -> Result<(), Trouble> {
    let (name, value) = change.split_once('=').ok_or(Trouble::BadInput)?;
    if !is_label_name(name) {
        return Err(Trouble::BadInput);
    }
    let changed = labels.with_label(name, value)?;
    push_value(output, &changed)
}

// The number that a label's value is, in billionths.
fn number(output: &mut String, input: &str) -> Result<(), Trouble> {
    match Signed::<Decimal>::read(input) {
        Ok(number) => push_value(output, &number.value()),
        Err(fault) => push_debug(output, &fault),
    }
}

// The duration that a label's value is, in billionths of a nanosecond.
fn duration(output: &mut String, input: &str) -> Result<(), Trouble> {
    match Signed::<Duration>::read(input) {
        Ok(duration) => push_value(output, &duration.value()),
        Err(fault) => push_debug(output, &fault),
    }
}

// The parts of an entry, and its fault where it is refused.
fn entry(output: &mut String, input: &str) -> Result<(), Trouble> {
    let alloc = *output.allocator();
    let (moment, rest) = words_of(input);
    let (labels, line) = words_of(rest);
    let moment = moment_in(moment)?;
    let line = PlainText::from_str(alloc, line)?;
    match Entry::new(labels_in(alloc, labels)?, moment, line) {
        Ok(made) => push_entry(output, &made.labels, made.timestamp, &made.line),
        Err(refused) => {
            push_fault_text(output, &refused.fault)?;
            push_entry(output, &refused.labels, refused.timestamp, &refused.line)
        }
    }
}

fn push_entry(
    output: &mut String,
    labels: &Labels,
    timestamp: Ns,
    line: &PlainText,
) -> Result<(), Trouble> {
    let moment = timestamp.get();
    writeln!(output, "{moment} {labels} {line}")?;
    Ok(())
}

// The name, the operator and the value. Without an operator there is neither name nor value.
fn parts_of(text: &str) -> (&str, MatchOp, &str) {
    if let Some((name, value)) = text.split_once("=~") {
        return (name, MatchOp::Matches, value);
    }
    if let Some((name, value)) = text.split_once("!~") {
        return (name, MatchOp::NotMatches, value);
    }
    if let Some((name, value)) = text.split_once("!=") {
        return (name, MatchOp::NotEqual, value);
    }
    let (name, value) = text.split_once('=').unwrap_or(("", ""));
    (name, MatchOp::Equal, value)
}

fn matcher_of(alloc: Global, text: &str) -> Result<Matcher, MatcherError> {
    let (name, op, value) = parts_of(text);
    let name = PlainText::from_str(alloc, name)?;
    Matcher::new(name, op, PlainText::from_str(alloc, value)?)
}

fn matcher(output: &mut String, input: &str) -> Result<(), Trouble> {
    match matcher_of(*output.allocator(), input) {
        Ok(made) => push_matcher(output, &made),
        Err(refused) => push_refused(output, &refused),
    }
}

fn push_matcher(output: &mut String, made: &Matcher) -> Result<(), Trouble> {
    let (name, op, value) = (&made.name, made.op, &made.value);
    writeln!(output, "{name} {op:?} {value}")?;
    Ok(())
}

// Limits that hold, or the first that is out of its range.
fn limits(output: &mut String, input: &str) -> Result<(), Trouble> {
    match Limits::check(raw_limits_in(input)?) {
        Ok(limits) => push_limits(output, limits),
        Err(bad) => push_bad(output, bad),
    }
}

fn push_bad(output: &mut String, bad: BadLimit) -> Result<(), Trouble> {
    let field = bad.field;
    writeln!(output, "{field:?}: {bad}")?;
    Ok(())
}

fn push_limits(output: &mut String, limits: Limits) -> Result<(), Trouble> {
    for (name, limit) in [
        ("entries", limits.entries),
        ("chunk_entries", limits.chunk_entries),
        ("chunk_age", limits.chunk_age),
        ("cancel", limits.cancel),
        ("keep", limits.keep),
        ("cache", limits.cache),
        ("records", limits.records),
        ("first_blob", limits.first_blob),
    ] {
        writeln!(output, "{name}={limit}")?;
    }
    Ok(())
}

// The texts of the faults that no input has, and that of a pattern of ten million letters.
fn others(output: &mut String) -> Result<(), Trouble> {
    let memory: LabelsError = OrMemory::Memory;
    push_fault_text(output, &memory)?;
    let field = LimitField::FirstBlob;
    push_bad(output, BadLimit { field })?;
    let big = PatternCode::build(*output.allocator(), "a{1000}{1000}{10}").err();
    push_debug(output, &big)
}
