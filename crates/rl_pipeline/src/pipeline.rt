//! Pipelines: the built stages of a range.
ghost use Rattle.std.specs.Prelude.{◌≡◌, ◌≤◌, None, Ok, IfOk, IfErr, IfSome, IsOk, drop, length, map, true};
ghost use Rattle.std.specs.Option.{option_and_then};
ghost use Rattle.rl_labels.specs.LabelSet.{LabelSet};
ghost use Rattle.rl_pipeline.specs.Building.{has_pattern, have_pattern, IsUnbuilt};
ghost use Rattle.rl_pipeline.specs.Metering.{with_run};
ghost use Rattle.rl_pipeline.specs.Running.{run, text_leaves_out};
ghost use Rattle.rl_pipeline.specs.Steps.{code_stage};

use crate::filter::FilterCode;
use crate::label_tests::TestsCode;
use crate::line::ParsedLine;
use crate::meter::Meter;
use crate::running::Running;
use rl_labels::Labels;
use rl_patterns::PatternError;
use rl_query::{Parser, Stage, Term};
use std::alloc::{AllocError, Global};
use std::marker::Model;

/// Built stages, through which lines go in their order. Contracts see the stages.
#[derive(Drop)]
pub struct Pipeline {
    codes: Vec<StageCode>,
}

// A built stage.
#[derive(Drop)]
pub(crate) enum StageCode {
    Filter(FilterCode),
    Parser(Parser),
    Tests(TestsCode),
}

impl Model for Pipeline {
    ghost use Rattle.std.specs.Prelude.{List, map};
    ghost use Rattle.rl_query.specs.declared.stages.Stage.{Stage};
    ghost use Rattle.rl_pipeline.specs.Steps.{code_stage};
    ghost use Rattle.std.specs.Coded.{coded_list};
    ghost use Rattle.rl_query.specs.contracts.stages.Stage as stage;

    ghost Value = { List Stage };

    ghost coded = { coded_list stage.the_row.coded };

    ghost view = { λ a. map code_stage a.codes.items };
}

impl Pipeline {
    /// The code of the term's stages. BadRegex where a pattern takes too much room.
    pub fn build(alloc: Global, term: &Term) -> Result<Pipeline, PatternError>
        ensures code { IfOk result (λ code. code ≡ term.now.range.stages) }
        ensures refused { IfErr result (IsUnbuilt (have_pattern term.now.range.stages)) }
    {
        Pipeline::of_stages(alloc, term.range.stages.as_slice())
    }

    fn of_stages(alloc: Global, stages: &[Stage]) -> Result<Pipeline, PatternError>
        ensures code { IfOk result (λ code. code ≡ stages.now) }
        ensures refused { IfErr result (IsUnbuilt (have_pattern stages.now)) }
    {
        let mut codes = Vec::with_capacity(alloc, stages.len())?;
        for stage in stages {
            codes.push(stage_code(alloc, stage)?)?;
        }
        Ok(Pipeline { codes })
    }

    /// What sends many lines through the stages.
    pub fn running(&self) -> Result<Running<'_>, AllocError>
        ensures { IfOk result (λ running. running ≡ self.now) }
    {
        Running::new(*self.codes.allocator(), &self.codes)
    }

    /// The labels that a line of a stream has after the stages, if it stays. What its first parser finds is shared with other
    /// pipelines that have the line. The run is counted. Only what follows the line filters in front takes caches, anew for
    /// each line, so what has many lines sends them through `running`.
    pub fn run_shared(
        &self,
        meter: &mut Meter,
        line: &mut ParsedLine<'_>,
    ) -> Result<Option<Labels>, AllocError>
        ensures run { IfOk result (λ found. found ≡ run self.now line.old.text line.old.labels) }
        ensures counted { meter.new ≡ with_run meter.old }
        ensures left_out { text_leaves_out self.now line.old.text ≡ true → IsOk result }
        ensures line { line.new ≡ line.old }
    {
        meter.count_run();
        let Some(front) = passed_in_front(&self.codes, line.text())? else {
            return Ok(None);
        };
        let mut running = Running::new(*self.codes.allocator(), &self.codes[front..])?;
        running.labels_of(line)
    }
}

// How many line filters stand in front, if each lets the line pass. Those by text take no memory.
fn passed_in_front(codes: &[StageCode], line: &str) -> Result<Option<usize>, AllocError>
    ensures run { IfOk result (λ front. (labels : LabelSet) → run (map code_stage codes.now) line.now labels ≡ option_and_then (λ n. run (map code_stage (drop n codes.now)) line.now labels) front) }
    ensures within { IfOk result (λ front. IfSome front (λ n. n ≤ length codes.now)) }
    ensures left_out { text_leaves_out (map code_stage codes.now) line.now ≡ true → result ≡ Ok None }
{
    for (position, code) in codes.iter().enumerate() {
        let StageCode::Filter(filter) = code else {
            return Ok(Some(position));
        };
        if !filter.passes(line)? {
            return Ok(None);
        }
    }
    Ok(Some(codes.len()))
}

fn stage_code(alloc: Global, stage: &Stage) -> Result<StageCode, PatternError>
    ensures code { IfOk result (λ code. code_stage code ≡ stage.now) }
    ensures refused { IfErr result (IsUnbuilt (has_pattern stage.now)) }
{
    match stage {
        Stage::Filter(filter) => Ok(StageCode::Filter(FilterCode::build(alloc, filter)?)),
        Stage::Parser(parser) => Ok(StageCode::Parser(*parser)),
        Stage::Tests(tests) => Ok(StageCode::Tests(TestsCode::build(alloc, tests)?)),
    }
}
