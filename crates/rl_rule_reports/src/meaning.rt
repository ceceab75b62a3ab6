//! Rules that a ruler takes, and that give something else than they seem to.

use crate::findings::{Findings, OutOfMemory};
use crate::fraction::fraction_in;
use crate::grouping::{are_equal, has_name, labels_of, push_list};
use crate::lint::begin;
use crate::location::Location;
use rl_query::Term;
use rl_rules::Rule;
use std::fmt::Write;

/// A line for each such thing of a rule: ranges, tests that no fraction passes, and labels of samples.
pub(crate) fn push_more(
    findings: &mut Findings,
    location: &Location<'_>,
    interval: u64,
    rule: &Rule,
) -> Result<(), OutOfMemory> {
    let query = &rule.query;
    let location = &location.of_key("expr");
    push_range(findings, location, interval, &query.left)?;
    push_fractions(findings, location, &query.left)?;
    if let Some(over) = &query.over {
        push_over(findings, location, interval, &query.left, over)?;
    }
    push_overridden(findings, location, rule)
}

// What a term is divided by.
fn push_over(
    findings: &mut Findings,
    location: &Location<'_>,
    interval: u64,
    left: &Term,
    over: &Term,
) -> Result<(), OutOfMemory> {
    if over.range.seconds != left.range.seconds {
        push_range(findings, location, interval, over)?;
    }
    push_fractions(findings, location, over)?;
    push_sides(findings, location, left, over)
}

// A range that leaves out lines between two evaluations.
fn push_range(
    findings: &mut Findings,
    location: &Location<'_>,
    interval: u64,
    term: &Term,
) -> Result<(), OutOfMemory> {
    let seconds = term.range.seconds;
    if seconds < interval {
        begin(findings, location)?;
        writeln!(
            findings.text,
            "the range {seconds}s is shorter than the interval {interval}s, so some lines are never counted"
        )?;
    }
    Ok(())
}

// A test that no line passes whose number is a fraction.
fn push_fractions(
    findings: &mut Findings,
    location: &Location<'_>,
    term: &Term,
) -> Result<(), OutOfMemory> {
    let stages = term.range.stages.as_slice();
    if let Some(test) = fraction_in(*findings.text.allocator(), stages)? {
        begin(findings, location)?;
        let name = test.name.as_str();
        writeln!(
            findings.text,
            "a fraction in JSON gives no label, so a line whose {name} is one does not pass the test of {name}"
        )?;
    }
    Ok(())
}

// Sides of a ratio whose samples have other labels.
fn push_sides(
    findings: &mut Findings,
    location: &Location<'_>,
    left: &Term,
    over: &Term,
) -> Result<(), OutOfMemory> {
    let alloc = *findings.text.allocator();
    let Some(one) = labels_of(alloc, left)? else {
        return Ok(());
    };
    let Some(other) = labels_of(alloc, over)? else {
        return Ok(());
    };
    if are_equal(one.as_slice(), other.as_slice()) {
        return Ok(());
    }
    begin(findings, location)?;
    findings.text.push_str("the sides are grouped by ")?;
    push_list(&mut findings.text, one.as_slice())?;
    findings.text.push_str(" and ")?;
    push_list(&mut findings.text, other.as_slice())?;
    findings
        .text
        .push_str(", and a ratio has samples of equal labels alone\n")?;
    Ok(())
}

// A label that samples are grouped by, where the rule sets another value.
fn push_overridden(
    findings: &mut Findings,
    location: &Location<'_>,
    rule: &Rule,
) -> Result<(), OutOfMemory> {
    let alloc = *findings.text.allocator();
    let Some(names) = labels_of(alloc, &rule.query.left)? else {
        return Ok(());
    };
    let location = &location.of_key("labels");
    for (name, _) in rule.labels.as_slice() {
        if has_name(names.as_slice(), name.as_str()) {
            begin(findings, location)?;
            writeln!(
                findings.text,
                "the label {name} is set over that of by, so samples that differ in it alone become equal and fail the rule"
            )?;
        }
    }
    Ok(())
}
