//! Aggregations: what entries add up to, and what steps on a partial make of it.
ghost use Rattle.std.specs.Prelude.{◌≤◌, length, IfOk};

use crate::given::{labels_in, list_in, moment_in, number_in, words_of};
use crate::output::push_value;
use crate::query::query_in;
use crate::trouble::Trouble;
use rl_aggregate::{Fraction, Outcome, Partial, Sample, Totals, Volume, finish, merge, scratch};
use rl_labels::{Entry, Labels, Ns};
use rl_plain::{Same, Shared, TryCopy};
use rl_query::{Query, RangeFunction, Term};
use std::alloc::Global;
use std::mem;

// The total of no entry.
const NOTHING: Volume = Volume { count: 0, bytes: 0 };

pub(crate) fn answer(output: &mut String, directive: &str, input: &str) -> Result<(), Trouble> {
    let (query, rest) = input.split_once('\n').ok_or(Trouble::BadInput)?;
    let query = query_in(*output.allocator(), query)?;
    let ended = of_query(output, directive, &query, rest);
    mem::forget(query);
    ended
}

fn of_query(
    output: &mut String,
    directive: &str,
    query: &Query,
    rest: &str,
) -> Result<(), Trouble> {
    match directive {
        "range" => push_range(output, query, rest),
        "partial" => push_steps(output, query, rest),
        _ => Err(Trouble::NoSuchDirective),
    }
}

// Writes what the entries of two lists add up to, and what the query gives of both together.
fn push_range(output: &mut String, query: &Query, input: &str) -> Result<(), Trouble> {
    let (moment, entries) = input.split_once('\n').ok_or(Trouble::BadInput)?;
    let (first, second) = entries.split_once("\n--\n").unwrap_or((entries, ""));
    let moment = moment_in(moment)?;
    let partial = merged(*output.allocator(), first, second, &query.left, moment)?;
    push_partial(output, query, &partial)
}

// What two lists of entries add up to.
fn merged(
    alloc: Global,
    first: &str,
    second: &str,
    term: &Term,
    moment: Ns,
) -> Result<Partial, Trouble> {
    let first = entries_in(alloc, first)?;
    let second = entries_in(alloc, second)?;
    let here = scratch(alloc, &first, term, moment)?;
    let there = scratch(alloc, &second, term, moment)?;
    Ok(merge(here, &there)?)
}

// A few entries, one a line.
fn entries_in(alloc: Global, text: &str) -> Result<Vec<Shared<Entry>>, Trouble>
    ensures { IfOk result (λ entries. length entries.items ≤ 1000) }
{
    let entries = list_in(alloc, text, "\n")?;
    if entries.len() > 1_000 {
        return Err(Trouble::BadInput);
    }
    Ok(entries)
}

/// Writes what a partial has, and what its query gives.
pub(crate) fn push_partial(
    output: &mut String,
    query: &Query,
    partial: &Partial,
) -> Result<(), Trouble> {
    let (errors, many) = (partial.errors, partial.totals.len());
    writeln!(output, "{errors} errors, {many} label sets")?;
    let outcome = finished(*output.allocator(), query, partial)?;
    push_outcome(output, &outcome, &partial.totals)
}

fn push_outcome(output: &mut String, outcome: &Outcome, totals: &Totals) -> Result<(), Trouble> {
    match outcome {
        Outcome::Failed => push_value(output, &"failed"),
        Outcome::Vector(samples) => push_samples(output, samples.as_slice(), totals),
    }
}

fn push_samples(output: &mut String, samples: &[Sample], totals: &Totals) -> Result<(), Trouble> {
    for sample in samples {
        push_sample(output, sample, totals.get(&sample.labels))?;
    }
    Ok(())
}

fn push_sample(output: &mut String, sample: &Sample, total: Option<Volume>) -> Result<(), Trouble> {
    let (labels, value) = (&sample.labels, sample.value);
    let (numerator, denominator) = (value.numerator, value.denominator);
    let Volume { count, bytes } = total.unwrap_or(NOTHING);
    write!(output, "{labels} {numerator}/{denominator}")?;
    writeln!(output, ", {count} entries of {bytes} bytes")?;
    Ok(())
}

// The outcome of a query of one term, of a partial within the limits of one.
fn finished(alloc: Global, query: &Query, partial: &Partial) -> Result<Outcome, Trouble> {
    let shared = Shared::new(alloc, partial.try_copy()?)?;
    match (&query.over, shared.get().is_limited()) {
        (None, true) => Ok(finish(alloc, query, &[shared])?),
        _ => Err(Trouble::BadInput),
    }
}

// Writes what steps give on a partial that has nothing at first, and on a copy of it, of which the query is asked.
fn push_steps(output: &mut String, query: &Query, steps: &str) -> Result<(), Trouble> {
    let alloc = *output.allocator();
    let mut here = Partial::empty(alloc);
    let mut copy = Partial::empty(alloc);
    push_each(output, query, &mut here, &mut copy, steps)
}

fn push_each(
    output: &mut String,
    query: &Query,
    here: &mut Partial,
    copy: &mut Partial,
    steps: &str,
) -> Result<(), Trouble> {
    for line in steps.split('\n') {
        let (word, rest) = words_of(line);
        if !has_changed(*output.allocator(), here, copy, word, rest)? {
            push_step(output, query, here, copy, word, rest)?;
        }
    }
    Ok(())
}

// Takes a step that changes the partial or its copy. Whether it is one.
fn has_changed(
    alloc: Global,
    here: &mut Partial,
    copy: &mut Partial,
    word: &str,
    rest: &str,
) -> Result<bool, Trouble> {
    match word {
        "add" => add(alloc, &mut here.totals, rest)?,
        "errors" => here.errors = number_in(rest)?,
        "copy" => *copy = here.try_copy()?,
        "swap" => mem::swap(here, copy),
        _ => return Ok(false),
    }
    Ok(true)
}

// Writes what a step that changes nothing gives.
fn push_step(
    output: &mut String,
    query: &Query,
    here: &Partial,
    copy: &Partial,
    word: &str,
    rest: &str,
) -> Result<(), Trouble> {
    match word {
        "empty" => push_value(output, &here.totals.is_empty()),
        "get" => push_finished(output, &here.totals, &copy.totals, rest),
        "same" => push_same(output, query, here, copy),
        "show" => push_partial(output, query, here),
        _ => Err(Trouble::BadInput),
    }
}

// Writes the totals at a label set, and whether they and their values are the copy's.
fn push_finished(
    output: &mut String,
    here: &Totals,
    copy: &Totals,
    labels: &str,
) -> Result<(), Trouble> {
    let (here, copy) = both_at(*output.allocator(), here, copy, labels)?;
    push_total(output, here)?;
    push_total(output, copy)?;
    let totals = compared(&here, &copy)?;
    let values = compared(&value_of(here), &value_of(copy))?;
    writeln!(output, "{totals}, values {values}")?;
    Ok(())
}

fn both_at(
    alloc: Global,
    here: &Totals,
    copy: &Totals,
    labels: &str,
) -> Result<(Option<Volume>, Option<Volume>), Trouble> {
    let labels = labels_in(alloc, labels)?;
    Ok((here.get(&labels), copy.get(&labels)))
}

// Writes whether the query gives the same value of both.
fn push_same(
    output: &mut String,
    query: &Query,
    here: &Partial,
    copy: &Partial,
) -> Result<(), Trouble> {
    let alloc = *output.allocator();
    let here = finished(alloc, query, here)?;
    let copy = finished(alloc, query, copy)?;
    push_value(output, &compared(&here, &copy)?)
}

fn push_total(output: &mut String, total: Option<Volume>) -> Result<(), Trouble> {
    match total {
        Some(Volume { count, bytes }) => write!(output, "{count} of {bytes} bytes; ")?,
        None => write!(output, "none; ")?,
    }
    Ok(())
}

fn value_of(total: Option<Volume>) -> Option<Fraction> {
    Some(Fraction::of(RangeFunction::CountOverTime, 5, total?))
}

/// Adds a total, as `a=x 3 7`, if the sum fits.
pub(crate) fn add(alloc: Global, totals: &mut Totals, text: &str) -> Result<(), Trouble> {
    let (labels, total) = words_of(text);
    let (count, bytes) = words_of(total);
    let (count, bytes) = (number_in(count)?, number_in(bytes)?);
    let labels = labels_in(alloc, labels)?;
    add_at(totals, &labels, Volume { count, bytes })
}

fn add_at(totals: &mut Totals, labels: &Labels, total: Volume) -> Result<(), Trouble> {
    let old = totals.get(labels).unwrap_or(NOTHING);
    if old.count.checked_add(total.count).is_none()
        || old.bytes.checked_add(total.bytes).is_none()
    {
        return Err(Trouble::BadInput);
    }
    Ok(totals.add(labels, total)?)
}

// Whether two values are one; a copy of a value has to be the value.
fn compared<T: Same + TryCopy>(a: &T, b: &T) -> Result<&'static str, Trouble> {
    let copy = a.try_copy()?;
    if !copy.is_same(a) {
        return Ok("no copy");
    }
    Ok(if a.is_same(b) { "one" } else { "two" })
}
