//! Alerts and samples as rows: those that are wanted, and those that a rule gave.
ghost use Rattle.std.specs.Prelude.{map, IfOk};
ghost use Rattle.rl_rule_tests.specs.Judging.{form, IsInOrder, IsOutcome};

use crate::number::Number;
use rl_labels::Labels;
use rl_rules::{AlertState, Cause};
use std::alloc::AllocError;

/// An alert or a sample. Of what is wanted it has no state, value or annotations where these are not looked at.
#[derive(Clone, Copy)]
pub(crate) struct Row<'a> {
    pub(crate) labels: &'a Labels,
    pub(crate) state: Option<AlertState>,
    pub(crate) value: Option<Number<'a>>,
    pub(crate) annotations: Option<&'a Labels>,
}

/// What a rule gives, or is to give.
#[derive(Drop)]
pub(crate) struct Outcome<'a> {
    pub(crate) failed: Option<Cause>,
    /// In the order of the label sets.
    pub(crate) rows: Vec<Row<'a>>,
}

impl<'a> Outcome<'a> {
    /// A failure, or rows in any order. Those with one label set stay in their order.
    pub(crate) fn of(failed: Option<Cause>, rows: Vec<Row<'a>>) -> Result<Outcome<'a>, AllocError>
        ensures { IfOk result (IsOutcome failed (map form rows.entry.items)) }
    {
        let rows = in_order(rows)?;
        Ok(Outcome { failed, rows })
    }
}

fn in_order(rows: Vec<Row<'_>>) -> Result<Vec<Row<'_>>, AllocError>
    ensures { IfOk result (λ sorted. IsInOrder rows.entry.items sorted.items) }
{
    let mut rows = rows;
    rows.sort_by(|row, other| row.labels.cmp(other.labels))?;
    Ok(rows)
}
