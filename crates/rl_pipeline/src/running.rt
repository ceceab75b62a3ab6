//! Runs of a pipeline over many lines.
ghost use Rattle.std.specs.Prelude.{◌≡◌, ◌≤◌, ℕ, List, true, false, Some, IfOk, IfSome, IsOk, length, drop, map};
ghost use Rattle.std.specs.List.{list_all};
ghost use Rattle.rl_labels.specs.LabelSet.{LabelSet};
ghost use Rattle.rl_pipeline.specs.Metering.{with_run};
ghost use Rattle.rl_pipeline.specs.Running.{where_true, run, keeps, lets_pass, kept_run, labels_after, is_filter, IsPlain};
ghost use Rattle.rl_pipeline.specs.Steps.{code_stage, step_stage};

use crate::draft::Draft;
use crate::line::ParsedLine;
use crate::meter::Meter;
use crate::parsing::ParserRunning;
use crate::pipeline::StageCode;
use crate::search::Search;
use crate::testing::TestsRunning;
use rl_labels::{Labels, LabelsBuilder};
use rl_plain::TryCopy;
use std::alloc::{AllocError, Global};
use std::marker::Model;

/// What sends many lines through a pipeline's stages, with one set of caches, which grow. Contracts see the stages.
#[derive(Drop)]
pub struct Running<'a> {
    steps: Vec<Step<'a>>,
}

// What a stage does with many lines.
#[derive(Drop)]
pub(crate) enum Step<'a> {
    Filter(Search<'a>),
    Parser(ParserRunning),
    Tests(TestsRunning<'a>),
}

impl<'a> Model for Running<'a> {
    ghost use Rattle.std.specs.Prelude.{List, map};
    ghost use Rattle.rl_query.specs.declared.stages.Stage.{Stage};
    ghost use Rattle.rl_pipeline.specs.Steps.{step_stage};
    ghost use Rattle.std.specs.Coded.{coded_list};
    ghost use Rattle.rl_query.specs.contracts.stages.Stage as stage;

    ghost Value = { List Stage };

    ghost coded = { coded_list stage.the_row.coded };

    ghost view = { λ a. map step_stage a.steps.items };
}

impl<'a> Running<'a> {
    pub(crate) fn new(alloc: Global, codes: &'a [StageCode]) -> Result<Self, AllocError>
        ensures { IfOk result (λ running. running ≡ map code_stage codes.now) }
    {
        let mut steps = Vec::with_capacity(alloc, codes.len())?;
        for code in codes {
            steps.push(step_of(alloc, code)?)?;
        }
        Ok(Running { steps })
    }

    /// Whether each stage is a line filter, so that lines keep the labels of their stream.
    #[tactic(auto, using(crate::proofs::Stages::all_filters, crate::proofs::Stages::filters_plain))]
    pub fn is_plain(&self) -> bool
        ensures answer { result ≡ list_all is_filter self.now }
        ensures plain { result ≡ true → IsPlain self.now }
    {
        are_filters(&self.steps)
    }

    /// Whether each line filter lets the line pass. They are asked in their order, up to the first that does not.
    #[tactic(auto, using(crate::proofs::Stages::all_keep))]
    pub fn keeps(&mut self, line: &str) -> bool
        ensures answer { result ≡ keeps self.old line.now }
        ensures same { self.new ≡ self.old }
    {
        all_pass(&mut self.steps, line)
    }

    /// The labels that a line of a stream has after the stages, if it stays. All line filters are asked first.
    /// The run is counted.
    pub fn run(
        &mut self,
        meter: &mut Meter,
        labels: &Labels,
        line: &str,
    ) -> Result<Option<Labels>, AllocError>
        ensures run { IfOk result (λ found. found ≡ run self.old line.now labels.now) }
        ensures counted { meter.new ≡ with_run meter.old }
        ensures left_out { keeps self.old line.now ≡ false → IsOk result }
        ensures same { self.new ≡ self.old }
    {
        let mut line = ParsedLine::new(labels, line);
        self.run_shared(meter, &mut line)
    }

    /// As `run`, for a line that other pipelines have too: what its first parser finds is shared with them.
    pub fn run_shared(
        &mut self,
        meter: &mut Meter,
        line: &mut ParsedLine<'_>,
    ) -> Result<Option<Labels>, AllocError>
        ensures run { IfOk result (λ found. found ≡ run self.old line.old.text line.old.labels) }
        ensures counted { meter.new ≡ with_run meter.old }
        ensures left_out { keeps self.old line.old.text ≡ false → IsOk result }
        ensures same { self.new ≡ self.old }
        ensures line { line.new ≡ line.old }
    {
        meter.count_run();
        self.labels_of(line)
    }

    // As `run_shared`, and nothing is counted.
    #[tactic(auto, using(crate::proofs::Stages::filters_first))]
    pub(crate) fn labels_of(
        &mut self,
        line: &mut ParsedLine<'_>,
    ) -> Result<Option<Labels>, AllocError>
        ensures run { IfOk result (λ found. found ≡ run self.old line.old.text line.old.labels) }
        ensures left_out { keeps self.old line.old.text ≡ false → IsOk result }
        ensures same { self.new ≡ self.old }
        ensures line { line.new ≡ line.old }
    {
        if !self.keeps(line.text()) {
            return Ok(None);
        }
        let alloc = *self.steps.allocator();
        send(alloc, &mut self.steps, line)
    }
}

fn step_of(alloc: Global, code: &StageCode) -> Result<Step<'_>, AllocError>
    ensures { IfOk result (λ step. step_stage step ≡ code_stage code.now) }
{
    match code {
        StageCode::Filter(filter) => Ok(Step::Filter(filter.search()?)),
        StageCode::Parser(parser) => Ok(Step::Parser(ParserRunning::new(alloc, *parser)?)),
        StageCode::Tests(tests) => Ok(Step::Tests(TestsRunning::new(alloc, tests)?)),
    }
}

fn are_filters(steps: &[Step<'_>]) -> bool
    ensures { result ≡ list_all (λ step. is_filter (step_stage step)) steps.now }
{
    for step in steps {
        if !is_filter(step) {
            return false;
        }
    }
    true
}

fn is_filter(step: &Step<'_>) -> bool
    ensures { result ≡ is_filter (step_stage step.now) }
{
    match step {
        Step::Filter(_) => true,
        Step::Parser(_) | Step::Tests(_) => false,
    }
}

// Whether each line filter lets the line pass.
fn all_pass(steps: &mut [Step<'_>], line: &str) -> bool
    ensures answer { result ≡ list_all (λ step. lets_pass (step_stage step) line.now) steps.old }
    ensures same { steps.new ≡ steps.old }
{
    for step in steps.iter_mut() {
        if !lets_pass(step, line) {
            return false;
        }
    }
    true
}

fn lets_pass(step: &mut Step<'_>, line: &str) -> bool
    ensures answer { result ≡ lets_pass (step_stage step.old) line.now }
    ensures same { step.new ≡ step.old }
{
    match step {
        Step::Filter(search) => search.passes(line),
        Step::Parser(_) | Step::Tests(_) => true,
    }
}

// The labels that a line which each line filter lets pass has after the other stages, if it stays. What the first of them
// finds is shared, if it is a parser.
fn send(
    alloc: Global,
    steps: &mut [Step<'_>],
    line: &mut ParsedLine<'_>,
) -> Result<Option<Labels>, AllocError>
    ensures sent { IfOk result (λ found. found ≡ labels_after (map step_stage steps.old) line.old.text line.old.labels) }
    ensures same { steps.new ≡ steps.old }
    ensures line { line.new ≡ line.old }
{
    let position = filters_in_front(steps);
    send_after(alloc, steps, position, line)
}

// The labels that such a line has after the stages that follow the line filters in front, if it stays.
fn send_after(
    alloc: Global,
    steps: &mut [Step<'_>],
    position: usize,
    line: &mut ParsedLine<'_>,
) -> Result<Option<Labels>, AllocError>
    ensures sent { IfOk result (λ found. found ≡ labels_after (map step_stage (drop position steps.old)) line.old.text line.old.labels) }
    ensures same { steps.new ≡ steps.old }
    ensures line { line.new ≡ line.old }
{
    let (labels, text) = (line.labels(), line.text());
    if position >= steps.len() {
        return send_from(alloc, steps, position, Draft::of(labels), text);
    }
    read_by(alloc, &mut steps[position], line)?;
    match found_by(&steps[position], line) {
        Some(found) => send_from(alloc, steps, position + 1, Draft::parsed(found), text),
        None => send_from(alloc, steps, position, Draft::of(labels), text),
    }
}

// Reads the line by a stage that is a parser, unless one read it so before.
fn read_by(alloc: Global, step: &mut Step<'_>, line: &mut ParsedLine<'_>) -> Result<(), AllocError>
    ensures same { step.new ≡ step.old }
    ensures line { line.new ≡ line.old }
{
    let Step::Parser(reading) = step else {
        return Ok(());
    };
    let parser = reading.parser();
    if line.found(parser).is_none() {
        let found = reading.labels_after(alloc, line.labels(), line.text())?;
        line.keep(parser, found);
    }
    Ok(())
}

// What a stage that is a parser found in the line.
fn found_by<'l>(step: &Step<'_>, line: &'l ParsedLine<'_>) -> Option<&'l LabelsBuilder>
    ensures { IfSome result (λ found. kept_run (step_stage step.now) line.now.text line.now.labels ≡ Some found.now) }
{
    match step {
        Step::Parser(reading) => line.found(reading.parser()),
        Step::Filter(_) | Step::Tests(_) => None,
    }
}

// How many line filters stand in front. They have let the line pass, so the stages after them are left.
fn filters_in_front(steps: &[Step<'_>]) -> usize
    ensures within { result ≤ length steps.now }
    ensures left { (line : List ℕ) (labels : LabelSet) → labels_after (map step_stage steps.now) line labels ≡ labels_after (map step_stage (drop result steps.now)) line labels }
{
    for (position, step) in steps.iter().enumerate() {
        if !is_filter(step) {
            return position;
        }
    }
    steps.len()
}

// The labels that such a line has after the stages from an index on, if it stays.
fn send_from(
    alloc: Global,
    steps: &mut [Step<'_>],
    position: usize,
    draft: Draft<'_>,
    line: &str,
) -> Result<Option<Labels>, AllocError>
    ensures sent { IfOk result (λ found. found ≡ labels_after (map step_stage (drop position steps.old)) line.now draft.entry) }
    ensures same { steps.new ≡ steps.old }
{
    let mut draft = draft;
    for index in position..steps.len() {
        if !send_on(alloc, &mut steps[index], &mut draft, line)? {
            return Ok(None);
        }
    }
    Ok(Some(draft.labels()?))
}

// Sends a line through one stage that is no line filter. Whether it stays.
fn send_on(
    alloc: Global,
    step: &mut Step<'_>,
    draft: &mut Draft<'_>,
    line: &str,
) -> Result<bool, AllocError>
    ensures sent { IfOk result (λ stays. kept_run (step_stage step.old) line.now draft.old ≡ where_true (stays, draft.new)) }
    ensures same { step.new ≡ step.old }
{
    match step {
        Step::Filter(_) => Ok(true),
        Step::Parser(parser) => {
            draft.parse(alloc, parser, line)?;
            Ok(true)
        }
        Step::Tests(tests) => tests.ask(alloc, draft),
    }
}
