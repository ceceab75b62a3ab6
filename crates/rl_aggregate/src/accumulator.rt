//! What lines add up to after the stages of one pipeline.
ghost use Rattle.std.specs.Prelude.{◌≡◌, ◌≤◌, length, None, IfOk, IfSome, OnOk, OnErr};
ghost use Rattle.rl_labels.specs.EntryParts.{longest_line};
ghost use Rattle.rl_aggregate.specs.InRange.{line_run};
ghost use Rattle.rl_aggregate.specs.Accumulators.{nothing_counted, with_line, with_waiting, HasRoom};
ghost use Rattle.rl_aggregate.specs.Runs.{with_run, IsProper};

use crate::partial::Partial;
use crate::run::Run;
use rl_labels::Labels;
use rl_pipeline::{Meter, ParsedLine, Pipeline, Running};
use rl_plain::TryCopy;
use std::alloc::{AllocError, Global};
use std::marker::Model;

// What sends lines through the stages of a pipeline, and what they add up to so far. Where lines keep their labels, those of
// one stream wait to be added at once. Contracts see the stages, and what all lines add up to.
#[derive(Drop)]
pub(crate) struct Accumulator<'a> {
    running: Running<'a>,
    is_plain: bool,
    found: Partial,
    waiting: Option<Run>,
}

impl<'a> Model for Accumulator<'a> {
    ghost use Rattle.std.specs.Prelude.{◌≡◌, true, IfSome};
    ghost use Rattle.rl_pipeline.specs.Running.{IsPlain};
    ghost use Rattle.rl_aggregate.specs.Accumulators.{AccumulatorView, accumulator_code, with_waiting};
    ghost use Rattle.rl_aggregate.specs.Runs.{IsProper};

    ghost Value = { AccumulatorView };

    ghost coded = { accumulator_code };

    ghost view = { λ a. record { running = a.running; found = with_waiting a.waiting a.found } };

    ghost invariant = { λ a. (a.is_plain ≡ true → IsPlain a.running) × IfSome a.waiting IsProper };
}

impl<'a> Accumulator<'a> {
    // Nothing counted.
    pub(crate) fn new(alloc: Global, pipeline: &'a Pipeline) -> Result<Accumulator<'a>, AllocError>
        ensures { IfOk result (λ accumulator. accumulator ≡ nothing_counted pipeline.now) }
    {
        let running = pipeline.running()?;
        let is_plain = running.is_plain();
        Ok(Accumulator {
            running,
            is_plain,
            found: Partial::empty(alloc),
            waiting: None,
        })
    }

    // Counts a line of a stream with these labels, if it stays. Refused, the accumulator stays as it was.
    pub(crate) fn count(
        &mut self,
        meter: &mut Meter,
        line: &mut ParsedLine<'_>,
        labels: &Labels,
        text: &str,
    ) -> Result<(), AllocError>
        requires room { HasRoom 1 self.old.found }
        requires fits { length text.now ≤ longest_line }
        requires line { line.old ≡ record { labels = labels.now; text = text.now } }
        ensures ok { OnOk result (self.new ≡ with_line labels.now text.now self.old) }
        ensures err { OnErr result (self.new ≡ self.old) }
        ensures line { line.new ≡ line.old }
    {
        if self.is_plain {
            if self.running.keeps(text) {
                return add_line(
                    &mut self.found,
                    &mut self.waiting,
                    labels,
                    text.len() as u64,
                );
            }
            return Ok(());
        }
        let Some(labels_after) = self.running.run_shared(meter, line)? else {
            return Ok(());
        };
        let run = Run::of_line(labels_after, text.len() as u64);
        add_waiting(&mut self.found, &mut self.waiting)?;
        self.found.add_owned(run)
    }

    // What was counted.
    pub(crate) fn partial(self) -> Result<Partial, AllocError>
        requires { HasRoom 0 self.found }
        ensures { IfOk result (λ partial. partial ≡ self.entry.found) }
    {
        let mut found = self.found;
        let mut waiting = self.waiting;
        add_waiting(&mut found, &mut waiting)?;
        Ok(found)
    }
}

// Adds a line to those that wait where they have its labels, and else they are added and it waits. Refused, all of them add
// up to what they did.
fn add_line(
    found: &mut Partial,
    waiting: &mut Option<Run>,
    labels: &Labels,
    bytes: u64,
) -> Result<(), AllocError>
    requires room { HasRoom 1 (with_waiting waiting.old found.old) }
    requires proper { IfSome waiting.old IsProper }
    requires fits { bytes ≤ longest_line }
    ensures ok { OnOk result (with_waiting waiting.new found.new ≡ with_run (line_run labels.now bytes) (with_waiting waiting.old found.old)) }
    ensures err { OnErr result (with_waiting waiting.new found.new ≡ with_waiting waiting.old found.old) }
    ensures proper { IfSome waiting.new IsProper }
{
    if let Some(run) = waiting {
        if run.has(labels) {
            run.volume.count += 1;
            run.volume.bytes += bytes;
            return Ok(());
        }
    }
    let run = Run::of_line(labels.try_copy()?, bytes);
    add_waiting(found, waiting)?;
    *waiting = Some(run);
    Ok(())
}

// Adds the lines that wait.
fn add_waiting(found: &mut Partial, waiting: &mut Option<Run>) -> Result<(), AllocError>
    requires room { HasRoom 0 (with_waiting waiting.old found.old) }
    ensures ok { OnOk result (found.new ≡ with_waiting waiting.old found.old) }
    ensures none { OnOk result (waiting.new ≡ None) }
    ensures err { OnErr result (found.new ≡ found.old) }
    ensures waits { OnErr result (waiting.new ≡ waiting.old) }
{
    let Some(run) = &*waiting else {
        return Ok(());
    };
    found.add(&run.labels, run.volume)?;
    *waiting = None;
    Ok(())
}
