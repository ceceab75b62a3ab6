//! Windows of what streams hold.
ghost use Rattle.std.specs.Prelude.{◌≡◌, ◌≤◌, true, List, length, map, IfOk, if◌then◌else◌};
ghost use Rattle.std.specs.FinMap.{keys};
ghost use Rattle.std.specs.List.{AllByRecursion, AllZip};
ghost use Rattle.rl_labels.specs.declared.matcher.Matcher.{Matcher};
ghost use Rattle.rl_labels.specs.Quantity.{greatest_moment};
ghost use Rattle.rl_deletes.specs.Deletes.{covered, covered_line};
ghost use Rattle.rl_parts.specs.Rewriting.{uncovered};
ghost use Rattle.rl_parts.specs.StoreUse.{Right, after_read};
ghost use Rattle.rl_streams.specs.StreamsState.{Looks};
ghost use Rattle.rl_windows.specs.Built.{timely, AreBuilt};
ghost use Rattle.rl_windows.specs.Filling.{counted_in, filled};
ghost use Rattle.rl_windows.specs.Ranges.{code_of, elements_for};
ghost use Rattle.rl_windows.specs.Windows.{first_needed, StandsFor};

use crate::filling::Fillings;
use crate::window::{Window, first_needed};
use rl_aggregate::pipelines_of;
use rl_chunks::Store;
use rl_deletes::Requests;
use rl_labels::{Covers, Labels, Ns, TimeRange};
use rl_parts::{ReadFault, Visitor};
use rl_pipeline::Meter;
use rl_query::Term;
use rl_streams::Streams;
use std::alloc::{AllocError, Global};

// Lets each visited line into windows that no received request covers.
#[derive(Drop)]
struct Building<'a, 'b> {
    fillings: Fillings<'a>,
    meter: Meter,
    requests: &'b Requests,
}

impl<'a, 'b> Visitor for Building<'a, 'b> {
    ghost visiting = { λ building line. if covered_line building.requests.now line.0 line.1.timestamp line.1.text then building else record { fillings = filled (record { labels = line.0; text = line.1.text }) line.1.timestamp building.fillings; meter = counted_in (length line.1.text) building.fillings building.meter; requests = building.requests } };

    fn visit(&mut self, labels: &Labels, timestamp: Ns, text: &str) -> Result<(), AllocError> {
        if self.requests.covers_line(labels, timestamp, text)? {
            return Ok(());
        }
        self.fillings.add(&mut self.meter, labels, timestamp, text)
    }
}

/// Windows of the ranges of terms of one selector at a moment, one for each, with all lines that streams hold and no received
/// request covers, as far as they are needed. The streams are visited once, and each line is a run for each window.
pub fn build<S: Store>(
    alloc: Global,
    streams: &mut Streams<S>,
    requests: &Requests,
    terms: &[&Term],
    moment: Ns,
    meter: &mut Meter,
) -> Result<Vec<Window>, ReadFault>
    requires some { 1 ≤ length terms.now }
    requires of_one { (matchers : List Matcher) × AllByRecursion (λ term. term.now.range.selector.matchers ≡ matchers) terms.now }
    ensures same { Looks streams.old streams.new }
    ensures faults { streams.new.seen.faults ≡ after_read result streams.old.seen.faults }
    // Which lines a part that the store has gives follows from bytes with its digest, over any store.
    ensures read { IfOk result (λ windows. AreBuilt (covered_line requests.now) streams.old (map (λ term. term.now) terms.now) moment meter.old meter.new windows.items) }
    ensures right { streams.old.seen.honest ≡ true → Right result (λ windows. AllZip (λ term window. StandsFor window (elements_for (code_of term.now) (uncovered (covered requests.now) (timely (keys streams.old.held))))) terms.now windows.items) }
{
    show_few(streams);
    let pipelines = pipelines_of(alloc, terms)?;
    let most = streams.limits().entries;
    let fillings = Fillings::new(alloc, terms, &pipelines, moment, most)?;
    let mut building = Building {
        fillings,
        meter: *meter,
        requests,
    };
    let range = TimeRange {
        from: start_of(terms, moment),
        to: greatest_moment(),
    };
    streams.each(&terms[0].range.selector.matchers, range, &mut building)?;
    *meter = building.meter;
    if building.fillings.is_over() {
        // More lines, or longer ones, than entries are held: the store lies.
        return Err(ReadFault::Damaged);
    }
    Ok(building.fillings.windows(alloc)?)
}

// Shows contracts that no more is held than may be.
fn show_few<S: Store>(streams: &Streams<S>)
    ensures { length (keys streams.now.held) ≤ streams.now.limits.entries }
{
    streams.len();
}

// The first timestamp that one of the terms' ranges needs at the moment.
fn start_of(terms: &[&Term], moment: Ns) -> Ns
    ensures { AllByRecursion (λ term. result ≤ first_needed term.now.range.seconds moment) terms.now }
{
    let mut longest = 0;
    for term in terms {
        longest = longest.max(term.range.seconds);
    }
    match Ns::new(first_needed(longest, moment)) {
        Some(start) => start,
        // No term, so none needs any.
        None => moment,
    }
}

// The greatest moment that there is.
fn greatest_moment() -> Ns
    ensures { result ≡ greatest_moment }
{
    match Ns::new(i64::MAX as u64) {
        Some(greatest) => greatest,
        None => unreachable!(),
    }
}
