//! What a test file has: tests with streams, evaluations, edits, and what is wanted of rules.
ghost use Rattle.std.specs.Prelude.{◌≡◌, ◌⊎◌, None, Some, codes, IfErr, IfOk};
ghost use Rattle.toml.specs.Parse.{parse_document};
ghost use Rattle.toml.specs.View.{table_view};
ghost use Rattle.rl_plain.specs.declared.refusal.OrMemory.TheVariants.{Memory};
ghost use Rattle.rl_rule_tests.specs.Document.{AreChecks, AreItems, IsCheck, IsDocument, IsEdit, IsSpan, IsTest};

use crate::fault::{TestsError, fault};
use crate::lines::Stream;
use crate::part::{Item, Part, Steps};
use crate::streams::read_streams;
use crate::wanted::{Wanted, read_wanted};
use rl_rules::{Cause, Group, RuleKind};
use std::alloc::Global;
use toml::Table;
use toml::de::Error;

/// The most moments at which a test asks for evaluations: what a ruler keeps of a group.
pub(crate) const MOST_MOMENTS: u64 = 1_048_576;

/// A test file.
#[derive(Drop)]
pub struct Document<'a> {
    /// The path of the rule file.
    pub rules: &'a str,
    pub tests: Vec<Test<'a>>,
}

/// A test. All times are nanoseconds from its start on.
#[derive(Drop)]
pub struct Test<'a> {
    pub(crate) name: &'a str,
    pub(crate) streams: Vec<Stream<'a>>,
    /// When groups are evaluated; where there are none, by their intervals.
    pub(crate) spans: Vec<Span<'a>>,
    pub edits: Vec<Edit<'a>>,
    pub(crate) checks: Vec<Check<'a>>,
}

/// The moments at which a group is evaluated, or all groups are.
#[derive(Clone, Copy, Drop)]
pub(crate) struct Span<'a> {
    pub(crate) group: Option<&'a str>,
    pub(crate) steps: Steps,
}

/// A rule file whose groups stand in for those of their names.
#[derive(Drop)]
pub struct Edit<'a> {
    pub(crate) at: u64,
    /// The path of the rule file.
    pub rules: &'a str,
    /// None before the file is read.
    pub groups: Vec<Group>,
}

/// What is wanted of a rule at a moment: rows, unless it is to fail.
#[derive(Drop)]
pub(crate) struct Check<'a> {
    pub(crate) kind: RuleKind,
    pub(crate) name: &'a str,
    pub(crate) group: Option<&'a str>,
    pub(crate) at: u64,
    pub(crate) failed: Option<Cause>,
    pub(crate) wanted: Vec<Wanted<'a>>,
}

/// Reads the TOML of a test file.
pub fn read_table(alloc: Global, text: &str) -> Result<Table, TestsError>
    ensures ok { IfOk result (λ table. parse_document text.now ≡ Some (table_view table)) }
    ensures fault { IfErr result (λ error. (error ≡ Memory) ⊎ (parse_document text.now ≡ None)) }
{
    match toml::table_from_str(alloc, text) {
        Ok(table) => Ok(table),
        Err(error) if error.is_memory() => Err(TestsError::Memory),
        Err(error) => Err(toml_fault(alloc, text, &error)),
    }
}

// A fault of TOML with the line and the column, which counts characters.
fn toml_fault(alloc: Global, text: &str, error: &Error) -> TestsError {
    let start = match error.span() {
        Some(span) => span.start,
        None => 0,
    };
    let (mut line, mut column) = (1usize, 1usize);
    for (offset, letter) in text.char_indices() {
        if offset >= start {
            break;
        }
        if letter == '\n' {
            line = line.saturating_add(1);
            column = 1;
        } else {
            column = column.saturating_add(1);
        }
    }
    fault(format!(in alloc; "line {line}, column {column}: {}", error.message()))
}

/// Reads a test file. No edit has its groups yet.
pub fn read_document<'a>(alloc: Global, table: &'a Table) -> Result<Document<'a>, TestsError>
    ensures { IfOk result (IsDocument (table_view table.now)) }
{
    let top = Part {
        alloc,
        table,
        kind: RuleKind::Alerting,
        rule: "",
    };
    top.only(&["rules", "tests"])?;
    if !top.has("tests") {
        return Err(top.key_fault("tests", "is missing"));
    }
    let rules = top.wanted_text("rules")?;
    let tests = top.all("tests")?;
    Ok(Document { rules, tests })
}

impl<'a> Item<'a> for Test<'a> {
    ghost is = { IsTest };

    fn read(part: Part<'a>) -> Result<Self, TestsError> {
        part.only(&["name", "streams", "evaluate", "edits", "alerts", "samples"])?;
        let name = part.wanted_text("name")?;
        let streams = read_streams(part)?;
        let spans = read_spans(part)?;
        let edits = part.all("edits")?;
        let checks = read_checks(part)?;
        Ok(Test {
            name,
            streams,
            spans,
            edits,
            checks,
        })
    }
}

fn read_spans<'a>(part: Part<'a>) -> Result<Vec<Span<'a>>, TestsError>
    ensures { IfOk result (λ spans. AreItems (IsSpan part.entry.kind part.entry.rule.now) (codes "evaluate") (table_view part.entry.table.now) spans.items) }
{
    let spans = part.all("evaluate")?;
    limit_moments(part, &spans)?;
    Ok(spans)
}

fn read_checks<'a>(part: Part<'a>) -> Result<Vec<Check<'a>>, TestsError>
    ensures { IfOk result (λ checks. AreChecks part.entry.rule.now (table_view part.entry.table.now) checks.items) }
{
    let kind = RuleKind::Alerting;
    let mut checks = Part { kind, ..part }.all("alerts")?;
    let kind = RuleKind::Recording;
    Part { kind, ..part }.push_all("samples", &mut checks)?;
    Ok(checks)
}

fn limit_moments(part: Part<'_>, spans: &[Span<'_>]) -> Result<(), TestsError> {
    let mut moments = 0u64;
    for span in spans {
        moments = moments.saturating_add(span.steps.count);
    }
    if moments > MOST_MOMENTS {
        return Err(part.key_fault("evaluate", "has more than 1048576 moments"));
    }
    Ok(())
}

impl<'a> Item<'a> for Span<'a> {
    ghost is = { IsSpan };

    fn read(part: Part<'a>) -> Result<Self, TestsError> {
        part.only(&["group", "from", "to", "step"])?;
        let steps = part.steps()?;
        let group = part.text("group")?;
        Ok(Span { group, steps })
    }
}

impl<'a> Item<'a> for Edit<'a> {
    ghost is = { IsEdit };

    fn read(part: Part<'a>) -> Result<Self, TestsError> {
        part.only(&["at", "rules"])?;
        let at = part.time("at")?;
        let rules = part.wanted_text("rules")?;
        let groups = Vec::new(part.alloc);
        Ok(Edit { at, rules, groups })
    }
}

impl<'a> Item<'a> for Check<'a> {
    ghost is = { IsCheck };

    fn read(part: Part<'a>) -> Result<Self, TestsError> {
        let key = match part.kind {
            RuleKind::Alerting => "alert",
            RuleKind::Recording => "record",
        };
        part.only(&["at", key, "group", "wanted", "failed"])?;
        let at = part.time("at")?;
        let (name, group) = (part.wanted_text(key)?, part.text("group")?);
        let mut wanted = Vec::new(part.alloc);
        let failed = read_wanted(Part { rule: name, ..part }, &mut wanted)?;
        Ok(Check {
            kind: part.kind,
            name,
            group,
            at,
            failed,
            wanted,
        })
    }
}
