//! Where what a rule gave differs from what is wanted, as text.
use crate::judging::meets;
use crate::number::push_number;
use crate::rows::{Outcome, Row};
use rl_rules::AlertState;
use std::alloc::AllocError;
use std::cmp::Ordering;

/// Adds both sides where they differ: label set by label set where both are rows.
pub(crate) fn push_differences(
    text: &mut String,
    wanted: &Outcome<'_>,
    given: &Outcome<'_>,
) -> Result<(), AllocError> {
    if wanted.failed.is_none() && given.failed.is_none() {
        return push_pairs(text, &wanted.rows, &given.rows);
    }
    push_side(text, "wanted", wanted)?;
    push_side(text, "got", given)
}

/// Adds all of a side.
pub(crate) fn push_side(
    text: &mut String,
    side: &str,
    outcome: &Outcome<'_>,
) -> Result<(), AllocError> {
    if let Some(cause) = outcome.failed {
        return writeln!(text, "  {side:<7} failed {cause:?}");
    }
    if outcome.rows.is_empty() {
        return push_line(text, side, None, false);
    }
    for row in &outcome.rows {
        push_line(text, side, Some(*row), true)?;
    }
    Ok(())
}

// Adds a row, or that there is none.
fn push_line(
    text: &mut String,
    side: &str,
    row: Option<Row<'_>>,
    annotated: bool,
) -> Result<(), AllocError> {
    write!(text, "  {side:<7} ")?;
    match row {
        Some(row) => push_row(text, row, annotated)?,
        None => text.push_str("nothing")?,
    }
    text.push('\n')?;
    Ok(())
}

// Adds the state, the label text and the value, each where the row has one, and the annotations where they are printed.
fn push_row(text: &mut String, row: Row<'_>, annotated: bool) -> Result<(), AllocError> {
    if let Some(state) = row.state {
        write!(text, "{} ", state_name(state))?;
    }
    text.push_str(row.labels.as_text())?;
    if let Some(value) = row.value {
        push_number(text, value)?;
    }
    match row.annotations {
        Some(annotations) if annotated => write!(text, " {annotations}"),
        _ => Ok(()),
    }
}

fn state_name(state: AlertState) -> &'static str {
    match state {
        AlertState::Pending => "pending",
        AlertState::Firing => "firing",
        AlertState::Resolved => "resolved",
    }
}

// Adds the rows of both sides that differ. Both are in the order of the label sets.
fn push_pairs(text: &mut String, wanted: &[Row<'_>], given: &[Row<'_>]) -> Result<(), AllocError> {
    let (mut here, mut there) = (0usize, 0usize);
    for _ in 0..wanted.len().saturating_add(given.len()) {
        let (one, other) = (wanted.get(here).copied(), given.get(there).copied());
        let order = order_of(one, other);
        match order {
            Ordering::Less => push_pair(text, one, None)?,
            Ordering::Equal => push_pair(text, one, other)?,
            Ordering::Greater => push_pair(text, None, other)?,
        }
        here = here.saturating_add(usize::from(order != Ordering::Greater));
        there = there.saturating_add(usize::from(order != Ordering::Less));
    }
    Ok(())
}

// Which side has the next label set. One that is at its end comes after the other.
fn order_of(wanted: Option<Row<'_>>, given: Option<Row<'_>>) -> Ordering {
    match (wanted, given) {
        (Some(one), Some(other)) => one.labels.cmp(other.labels),
        (None, Some(_)) => Ordering::Greater,
        (Some(_), None) => Ordering::Less,
        (None, None) => Ordering::Equal,
    }
}

// Adds both sides where they differ, with annotations where they are looked at.
fn push_pair(
    text: &mut String,
    wanted: Option<Row<'_>>,
    given: Option<Row<'_>>,
) -> Result<(), AllocError> {
    let (is_same, annotated) = match (wanted, given) {
        (Some(wanted), Some(given)) => (meets(&wanted, &given), wanted.annotations.is_some()),
        (Some(wanted), None) => (false, wanted.annotations.is_some()),
        (None, given) => (given.is_none(), false),
    };
    if is_same {
        return Ok(());
    }
    push_line(text, "wanted", wanted, annotated)?;
    push_line(text, "got", given, annotated)
}
