//! Lines counted one by one, after the stages of several pipelines.
ghost use Rattle.std.specs.Prelude.{◌≡◌, ◌≤◌, ◌+◌, ℕ, false, map, length, IfOk, OnOk};
ghost use Rattle.std.specs.List.{AllByRecursion};
ghost use Rattle.rl_labels.specs.EntryParts.{longest_line};
ghost use Rattle.rl_aggregate.specs.Counter.{counted_line};
ghost use Rattle.rl_aggregate.specs.Limited.{IsWithin};
ghost use Rattle.rl_aggregate.specs.Partials.{most_entries};
ghost use Rattle.rl_aggregate.specs.Accumulators.{nothing_counted, with_line, HasRoom};

use crate::accumulator::Accumulator;
use crate::partial::Partial;
use rl_labels::Labels;
use rl_labels::entry::MAX_LINE_LEN;
use rl_pipeline::{Meter, ParsedLine, Pipeline};
use std::alloc::{AllocError, Global};
use std::marker::Model;

/// Counts lines of streams one by one, after the stages of several pipelines, up to a limit. Lines that keep their labels
/// are added together as long as they are of one stream.
#[derive(Drop)]
pub struct Counter<'a> {
    most: u64,
    left: u64,
    is_over: bool,
    accumulators: Vec<Accumulator<'a>>,
}

impl<'a> Model for Counter<'a> {
    ghost use Rattle.rl_aggregate.specs.Counter.{CounterView, IsCounter, counter_code};

    ghost Value = { CounterView };

    ghost coded = { counter_code };

    ghost view = { λ a. record { most = a.most; left = a.left; is_over = a.is_over; accumulators = a.accumulators.items } };

    ghost invariant = { λ a. IsCounter a.most a.left a.accumulators.items };
}

impl<'a> Counter<'a> {
    /// Nothing counted.
    pub fn new(
        alloc: Global,
        pipelines: &'a [Pipeline],
        most: u64,
    ) -> Result<Counter<'a>, AllocError>
        requires few { most ≤ most_entries }
        ensures { IfOk result (λ counter. counter ≡ record { most = most; left = most; is_over = false; accumulators = map nothing_counted pipelines.now }) }
    {
        let accumulators = accumulators_of(alloc, pipelines)?;
        Ok(Counter {
            most,
            left: most,
            is_over: false,
            accumulators,
        })
    }

    /// Counts a line of a stream with these labels, as far as it stays.
    pub fn count(&mut self, labels: &Labels, text: &str) -> Result<(), AllocError>
        ensures { OnOk result (self.new ≡ counted_line labels.now text.now self.old) }
    {
        if self.left == 0 || text.len() > MAX_LINE_LEN {
            self.is_over = true;
            return Ok(());
        }
        self.left -= 1;
        count_in_each(&mut self.accumulators, labels, text)
    }

    /// Whether a line came that it may not count.
    pub fn is_over(&self) -> bool
        ensures { result ≡ self.now.is_over }
    {
        self.is_over
    }

    /// What each pipeline has counted. Whatever lines came, it is within what `most` lines add up to.
    pub fn partials(self, alloc: Global) -> Result<Vec<Partial>, AllocError>
        ensures found { IfOk result (λ partials. partials.items ≡ map (λ accumulator. accumulator.found) self.entry.accumulators) }
        ensures within { IfOk result (λ partials. AllByRecursion (IsWithin self.entry.most) partials.items) }
    {
        partials_of(alloc, self.accumulators)
    }
}

// An accumulator of each pipeline, in which nothing is counted.
fn accumulators_of<'a>(
    alloc: Global,
    pipelines: &'a [Pipeline],
) -> Result<Vec<Accumulator<'a>>, AllocError>
    ensures { IfOk result (λ accumulators. accumulators.items ≡ map nothing_counted pipelines.now) }
{
    let mut accumulators = Vec::with_capacity(alloc, pipelines.len())?;
    for pipeline in pipelines {
        accumulators.push(Accumulator::new(alloc, pipeline)?)?;
    }
    Ok(accumulators)
}

// Counts a line in each accumulator, as far as it stays there.
fn count_in_each(
    accumulators: &mut [Accumulator<'_>],
    labels: &Labels,
    text: &str,
) -> Result<(), AllocError>
    requires room { AllByRecursion (λ accumulator. HasRoom 1 accumulator.found) accumulators.old }
    requires fits { length text.now ≤ longest_line }
    ensures counted { OnOk result (accumulators.new ≡ map (with_line labels.now text.now) accumulators.old) }
    ensures within { (lines : ℕ) → AllByRecursion (λ accumulator. IsWithin lines accumulator.found) accumulators.old → AllByRecursion (λ accumulator. IsWithin (lines + 1) accumulator.found) accumulators.new }
{
    let mut meter = Meter::new();
    let mut line = ParsedLine::new(labels, text);
    for index in 0..accumulators.len() {
        accumulators[index].count(&mut meter, &mut line, labels, text)?;
    }
    Ok(())
}

// What was counted in each.
fn partials_of(
    alloc: Global,
    accumulators: Vec<Accumulator<'_>>,
) -> Result<Vec<Partial>, AllocError>
    requires { AllByRecursion (λ accumulator. HasRoom 0 accumulator.found) accumulators.items }
    ensures { IfOk result (λ partials. partials.items ≡ map (λ accumulator. accumulator.found) accumulators.entry.items) }
{
    let mut partials = Vec::with_capacity(alloc, accumulators.len())?;
    for accumulator in accumulators {
        partials.push(accumulator.partial()?)?;
    }
    Ok(partials)
}
