//! Windows of several ranges that the lines of streams come into.
ghost use Rattle.std.specs.Prelude.{◌≡◌, ◌≤◌, ◌+◌, ℕ, false, length, map, OnOk, OnErr, IfOk};
ghost use Rattle.rl_labels.specs.EntryParts.{longest_line};
ghost use Rattle.rl_pipeline.specs.Metering.{with_run};
ghost use Rattle.rl_aggregate.specs.Partials.{most_entries};
ghost use Rattle.rl_windows.specs.Filling.{counted_in, filled, nothing_in, with_line, with_runs, HaveRoom};
ghost use Rattle.rl_windows.specs.Windows.{count_of};

use crate::element::Element;
use crate::window::Window;
use rl_aggregate::Run;
use rl_labels::entry::MAX_LINE_LEN;
use rl_labels::{Labels, Ns};
use rl_pipeline::{Meter, ParsedLine, Pipeline, Running};
use rl_query::Term;
use std::alloc::{AllocError, Global};
use std::marker::Model;

// A range's window, and what sends lines through the range's stages.
#[derive(Drop)]
pub(crate) struct Filling<'a> {
    pub(crate) running: Running<'a>,
    pub(crate) window: Window,
}

// Windows, and how many lines may still come into each. Contracts see these, and whether a line came that may not.
#[derive(Drop)]
pub(crate) struct Fillings<'a> {
    left: u64,
    is_over: bool,
    each: Vec<Filling<'a>>,
}

impl<'a> Model for Fillings<'a> {
    ghost use Rattle.rl_windows.specs.Filling.{FillingsView, fillings_code, HaveRoom};

    ghost Value = { FillingsView };

    ghost coded = { fillings_code };

    ghost view = { λ a. record { left = a.left; is_over = a.is_over; each = a.each.items } };

    ghost invariant = { λ a. HaveRoom a.left a.each.items };
}

impl<'a> Filling<'a> {
    // A window of the term's range at a moment, without a line. The pipeline is of the range's stages.
    fn new(
        alloc: Global,
        term: &Term,
        pipeline: &'a Pipeline,
        moment: Ns,
        most: u64,
    ) -> Result<Filling<'a>, AllocError>
        requires stages { pipeline.now ≡ term.now.range.stages }
        requires few { most ≤ most_entries }
        ensures { IfOk result (λ filling. filling ≡ nothing_in moment most term.now) }
    {
        Ok(Filling {
            running: pipeline.running()?,
            window: Window::new(alloc, term.range.seconds, moment, most),
        })
    }

    // Lets a line in, as far as it stays and is needed. The run is counted. Refused, nothing has come in.
    fn add(
        &mut self,
        meter: &mut Meter,
        line: &mut ParsedLine<'_>,
        timestamp: Ns,
    ) -> Result<(), AllocError>
        requires fits { length line.old.text ≤ longest_line }
        requires room { count_of self.old.window.buckets + 1 ≤ self.old.window.most }
        ensures ok { OnOk result (self.new ≡ with_line line.old timestamp self.old) }
        ensures err { OnErr result (self.new ≡ self.old) }
        ensures counted { meter.new ≡ with_run meter.old }
        ensures line { line.new ≡ line.old }
    {
        let Some(labels) = self.running.run_shared(meter, line)? else {
            return Ok(());
        };
        let run = Run::of_line(labels, line.text().len() as u64);
        self.window.add(&Element::new(timestamp, run))
    }
}

impl<'a> Fillings<'a> {
    // Windows of the terms' ranges at a moment, which at most `most` lines may come into. The pipelines are of their stages.
    pub(crate) fn new(
        alloc: Global,
        terms: &[&Term],
        pipelines: &'a [Pipeline],
        moment: Ns,
        most: u64,
    ) -> Result<Fillings<'a>, AllocError>
        requires stages { pipelines.now ≡ map (λ term. term.now.range.stages) terms.now }
        requires few { most ≤ most_entries }
        ensures { IfOk result (λ fillings. fillings ≡ record { left = most; is_over = false; each = map (λ term. nothing_in moment most term.now) terms.now }) }
    {
        let mut each = Vec::with_capacity(alloc, terms.len())?;
        for (index, term) in terms.iter().enumerate() {
            each.push(Filling::new(alloc, term, &pipelines[index], moment, most)?)?;
        }
        Ok(Fillings {
            left: most,
            is_over: false,
            each,
        })
    }

    // Lets a line of a stream into each window, as far as it stays there and is needed.
    pub(crate) fn add(
        &mut self,
        meter: &mut Meter,
        labels: &Labels,
        timestamp: Ns,
        text: &str,
    ) -> Result<(), AllocError>
        ensures ok { OnOk result (self.new ≡ filled (record { labels = labels.now; text = text.now }) timestamp self.old) }
        ensures counted { OnOk result (meter.new ≡ counted_in (length text.now) self.old meter.old) }
    {
        if self.left == 0 || text.len() > MAX_LINE_LEN {
            self.is_over = true;
            return Ok(());
        }
        self.left -= 1;
        add_to_each(&mut self.each, meter, labels, timestamp, text)
    }

    // Whether a line came that may not.
    pub(crate) fn is_over(&self) -> bool
        ensures { result ≡ self.now.is_over }
    {
        self.is_over
    }

    // The windows.
    pub(crate) fn windows(self, alloc: Global) -> Result<Vec<Window>, AllocError>
        ensures { IfOk result (λ windows. windows.items ≡ map (λ filling. filling.window) self.entry.each) }
    {
        windows_of(alloc, self.each)
    }
}

// Lets a line into each window, as far as it stays there and is needed.
fn add_to_each(
    each: &mut [Filling<'_>],
    meter: &mut Meter,
    labels: &Labels,
    timestamp: Ns,
    text: &str,
) -> Result<(), AllocError>
    requires fits { length text.now ≤ longest_line }
    requires room { HaveRoom 1 each.old }
    ensures ok { OnOk result (each.new ≡ map (with_line (record { labels = labels.now; text = text.now }) timestamp) each.old) }
    ensures counted { OnOk result (meter.new ≡ with_runs (length each.old) meter.old) }
    ensures room { (left : ℕ) → HaveRoom (left + 1) each.old → HaveRoom left each.new }
{
    let mut line = ParsedLine::new(labels, text);
    for index in 0..each.len() {
        each[index].add(meter, &mut line, timestamp)?;
    }
    Ok(())
}

// The windows alone.
fn windows_of(alloc: Global, each: Vec<Filling<'_>>) -> Result<Vec<Window>, AllocError>
    ensures { IfOk result (λ windows. windows.items ≡ map (λ filling. filling.window) each.entry.items) }
{
    let mut windows = Vec::with_capacity(alloc, each.len())?;
    for filling in each {
        windows.push(filling.window)?;
    }
    Ok(windows)
}
