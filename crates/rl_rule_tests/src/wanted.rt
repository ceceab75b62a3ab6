//! What is wanted of a rule, as a test file has it.
ghost use Rattle.std.specs.Prelude.{◌≡◌, map, Some, is_some, codes, option_and_then, option_map, IfOk, IsTrue, OnOk};
ghost use Rattle.toml.specs.Data.{get_member};
ghost use Rattle.toml.specs.View.{table_view};
ghost use Rattle.rl_rules.specs.Document.{tables_at};
ghost use Rattle.rl_rule_tests.specs.Document.{has_tables, state_text, text_at, value_of, wanted_keys, AreAppended, IsCauseIf, IsWanted};
ghost use Rattle.rl_rule_tests.specs.Judging.{wanted_row, IsOutcome};

use crate::document::Check;
use crate::fault::TestsError;
use crate::number::{Number, number_in};
use crate::part::{Item, Part};
use crate::rows::{Outcome, Row};
use rl_labels::Labels;
use rl_rules::naming::{ALERT_LABEL, NAME_LABEL};
use rl_rules::{AlertState, Cause, RuleKind};
use std::alloc::{AllocError, Global};

/// A row that is wanted. What it has not is not looked at.
#[derive(Drop)]
pub(crate) struct Wanted<'a> {
    pub(crate) labels: Labels,
    pub(crate) state: Option<AlertState>,
    pub(crate) value: Option<Number<'a>>,
    pub(crate) annotations: Option<Labels>,
}

/// What is wanted by a check: rows, or a failure.
pub(crate) fn wanted_of<'a>(alloc: Global, check: &'a Check<'_>) -> Result<Outcome<'a>, AllocError>
    ensures { IfOk result (IsOutcome check.now.failed (map wanted_row check.now.wanted.items)) }
{
    let mut rows = Vec::new(alloc);
    for row in &check.wanted {
        rows.push(Row {
            labels: &row.labels,
            state: row.state,
            value: row.value,
            annotations: row.annotations.as_ref(),
        })?;
    }
    Outcome::of(check.failed, rows)
}

/// Reads what is wanted of a rule: all its rows, or why it fails.
pub(crate) fn read_wanted<'a>(
    check: Part<'a>,
    wanted: &mut Vec<Wanted<'a>>,
) -> Result<Option<Cause>, TestsError>
    ensures failed { IfOk result (IsCauseIf (table_view check.entry.table.now)) }
    ensures tables { OnOk result (IsTrue (has_tables (codes "wanted") (table_view check.entry.table.now))) }
    ensures rows { OnOk result (AreAppended (IsWanted check.entry.kind check.entry.rule.now) (tables_at (codes "wanted") (table_view check.entry.table.now)) wanted.old.items wanted.new.items) }
{
    match (check.has("wanted"), check.text("failed")?) {
        (true, None) => {
            check.push_all("wanted", wanted)?;
            Ok(None)
        }
        (false, Some("PipelineError")) => Ok(Some(Cause::PipelineError)),
        (false, Some("SameLabels")) => Ok(Some(Cause::SameLabels)),
        (false, Some("LimitExceeded")) => Ok(Some(Cause::LimitExceeded)),
        (false, Some(_)) => Err(check.key_fault(
            "failed",
            "is none of PipelineError, SameLabels and LimitExceeded",
        )),
        (true, Some(_)) => Err(check.fault("the keys wanted and failed stand both")),
        (false, None) => Err(check.fault("the key wanted or failed is missing")),
    }
}

impl<'a> Item<'a> for Wanted<'a> {
    ghost is = { IsWanted };

    fn read(part: Part<'a>) -> Result<Self, TestsError> {
        part.only(wanted_keys(part.kind))?;
        let (label, state) = match part.kind {
            RuleKind::Alerting => (ALERT_LABEL, Some(read_state(part)?)),
            RuleKind::Recording => (NAME_LABEL, None),
        };
        let labels = part.labels("labels", Some((label, part.rule)))?;
        let annotations = if part.has("annotations") {
            Some(part.labels("annotations", None)?)
        } else {
            None
        };
        let value = read_value(part)?;
        Ok(Wanted {
            labels,
            state,
            value,
            annotations,
        })
    }
}

// The keys of a row that is wanted.
fn wanted_keys(kind: RuleKind) -> &'static [&'static str]
    ensures { map (λ key. key.now) result.now ≡ wanted_keys kind }
{
    match kind {
        RuleKind::Alerting => &["state", "labels", "value", "annotations"],
        RuleKind::Recording => &["labels", "value"],
    }
}

fn read_state(part: Part<'_>) -> Result<AlertState, TestsError>
    ensures { IfOk result (λ state. text_at (codes "state") (table_view part.entry.table.now) ≡ Some (state_text state)) }
{
    match part.wanted_text("state")? {
        "pending" => Ok(AlertState::Pending),
        "firing" => Ok(AlertState::Firing),
        "resolved" => Ok(AlertState::Resolved),
        _ => Err(part.key_fault("state", "is none of pending, firing and resolved")),
    }
}

fn read_value<'a>(part: Part<'a>) -> Result<Option<Number<'a>>, TestsError>
    ensures value { IfOk result (λ value. option_map (λ number. number.fraction) value ≡ option_and_then value_of (get_member (codes "value") (table_view part.entry.table.now))) }
    ensures read { IfOk result (λ value. is_some value ≡ is_some (get_member (codes "value") (table_view part.entry.table.now))) }
{
    let Some(value) = part.value_at("value") else {
        return Ok(None);
    };
    match number_in(value) {
        Some(number) => Ok(Some(number)),
        None => Err(part.key_fault(
            "value",
            "is no whole number, and no text as \"12\", \"0.2\" or \"1/5\"",
        )),
    }
}
