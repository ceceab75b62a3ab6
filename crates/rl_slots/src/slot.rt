//! The windows of a group's terms.
ghost use Rattle.std.specs.Prelude.{◌≡◌, ◌≤◌, ◌<◌, ◌+◌, ◌++◌, ℕ, List, length, map, slice_get, IfOk, IfSome, IsErrOf, OnErr, OnOk};
ghost use Rattle.std.specs.Bool.{Decides};
ghost use Rattle.std.specs.List.{AllByRecursion, AllZip, sum_by};
ghost use Rattle.rl_labels.specs.declared.entry.Entry.{Entry};
ghost use Rattle.rl_aggregate.specs.Limited.{IsWithin};
ghost use Rattle.rl_aggregate.specs.Partials.{partial};
ghost use Rattle.rl_windows.specs.Ranges.{HasRuns};
ghost use Rattle.rl_windows.specs.declared.element.Element.{Element};
ghost use Rattle.rl_windows.specs.declared.range.RangeCode.{RangeCode};
ghost use Rattle.rl_query.specs.declared.query.Term.{Term};
ghost use Rattle.rl_slots.specs.Slots.{changes_there, key_of, outline, selecting_in, term_key, visits_by, visits_for, visits_of, with_element_at, AreExactIn, ArePicked, AreSums, HasVisits, IsFull, IsLive, IsNeededFrom, IsOfLine, IsPartialAt, IsSumAt, IsWindowOf, StandIn, ContentsIn};
ghost use Rattle.rl_slots.specs.declared.change.AddFault.TheVariants as adds;

use crate::answer::{Answer, answer_of};
use crate::change::{AddFault, Change};
use crate::range_window::RangeWindow;
use crate::window_index::WindowIndex;
use rl_aggregate::Partial;
use rl_labels::{Labels, Ns};
use rl_pipeline::{Meter, ParsedLine};
use rl_plain::{PlainList, Same, Shared};
use rl_query::Term;
use rl_windows::Element;
use std::alloc::{AllocError, Global};
use std::marker::Model;

/// The windows of the terms that a group asked about last, one for each range. Contracts see the number of the group's slot, the
/// terms, the moment that was answered last, one that no window is past, and the windows.
#[derive(Drop)]
pub struct Slot {
    number: u64,
    terms: Shared<PlainList<Term>>,
    collected: Ns,
    reached: Ns,
    windows: Vec<RangeWindow>,
    // Where the window of each term is.
    indices: Vec<usize>,
}

impl Model for Slot {
    ghost use Rattle.rl_slots.specs.Slots.{slot_code, IsSlot, SlotView};

    ghost Value = { SlotView };

    ghost coded = { slot_code };

    ghost view = { λ a. record { number = a.number; terms = a.terms; collected = a.collected; reached = a.reached; windows = a.windows.items } };

    ghost invariant = { λ a. IsSlot a.terms a.collected a.reached a.windows.items a.indices.items };
}

impl Slot {
    /// The slot of a group that was answered at a moment, with the window of each term by its index. The windows are of ranges of the
    /// terms, in their order.
    pub fn new(
        number: u64,
        terms: Shared<PlainList<Term>>,
        t: Ns,
        windows: Vec<RangeWindow>,
        indices: Vec<usize>,
    ) -> Slot
        requires of_terms { AllZip (IsWindowOf windows.items) terms indices.items }
        requires picked { ArePicked (map key_of windows.items) (map term_key terms) }
        requires moments { AllByRecursion (λ it. it.window.moment ≡ t) windows.items }
        ensures { result ≡ record { number = number; terms = terms; collected = t; reached = t; windows = windows.items } }
    {
        Slot {
            number,
            terms,
            collected: t,
            reached: t,
            windows,
            indices,
        }
    }

    /// The number of the group's slot.
    pub fn number(&self) -> u64
        ensures { result ≡ self.now.number }
    {
        self.number
    }

    /// Whether it answers the terms at the moment.
    pub fn is_live(&self, terms: &PlainList<Term>, t: Ns) -> bool
        ensures { Decides result (IsLive terms.now t self.now) }
    {
        self.reached <= t && self.terms.get().is_same(terms)
    }

    // Adds where the windows are here that select a stream.
    pub(crate) fn select(
        &self,
        slot: usize,
        labels: &Labels,
        indices: &mut Vec<WindowIndex>,
    ) -> Result<(), AllocError>
        ensures indices { OnOk result (indices.new.items ≡ indices.old.items ++ selecting_in labels.now slot 0 self.now.windows) }
        ensures few { OnOk result (length indices.new.items ≤ length indices.old.items + length self.now.terms) }
    {
        for (window, it) in self.windows.iter().enumerate() {
            if !it.code.selector.accepts(labels)? {
                continue;
            }
            indices.push(WindowIndex { slot, window })?;
        }
        Ok(())
    }

    // Lists what a line changes in the window at an index, if there is one.
    pub(crate) fn list(
        &self,
        index: WindowIndex,
        meter: &mut Meter,
        line: &mut ParsedLine<'_>,
        timestamp: Ns,
        changes: &mut Vec<Change>,
    ) -> Result<(), AllocError>
        ensures listed { OnOk result (changes.new.items ≡ changes.old.items ++ changes_there line.old timestamp index (slice_get self.now.windows index.window)) }
        ensures runs { HasRuns 1 meter.old meter.new }
        ensures line { line.new ≡ line.old }
    {
        let Some(it) = self.windows.get(index.window) else {
            return Ok(());
        };
        let Some(element) = it.element_of(meter, line, timestamp)? else {
            return Ok(());
        };
        changes.push(Change {
            slot: index.slot,
            window: index.window,
            element,
        })?;
        Ok(())
    }

    // The first timestamp that one of the windows needs, if it is before another.
    pub(crate) fn first_needed(&self, other: u64) -> u64
        ensures first { AllByRecursion (IsNeededFrom result) self.now.windows }
        ensures least { result ≤ other }
    {
        let mut first = other;
        for it in &self.windows {
            first = first.min(it.window.first_needed());
        }
        first
    }

    // Adds an element to a window that has room for it. Refused, the slot stays as it was.
    pub(crate) fn add(&mut self, window: usize, element: &Element) -> Result<(), AddFault>
        requires { IsOfLine element.now.volume }
        ensures stands { OnOk result ((contents : ℕ → RangeCode → List Element) → StandIn self.old.windows contents → StandIn self.new.windows (with_element_at window element.now contents)) }
        ensures err { OnErr result (self.new ≡ self.old) }
        ensures full { IsErrOf result adds.Full → IfSome (slice_get self.old.windows window) IsFull }
        ensures outline { outline self.new ≡ outline self.old }
    {
        if window >= self.windows.len() {
            return Ok(());
        }
        self.windows[window].add(element)
    }

    // Takes an element out of a window.
    pub(crate) fn take_out(&mut self, window: usize, element: &Element)
        ensures stands { (contents : ℕ → RangeCode → List Element) → StandIn self.old.windows (with_element_at window element.now contents) → StandIn self.new.windows contents }
        ensures outline { outline self.new ≡ outline self.old }
    {
        if window >= self.windows.len() {
            return;
        }
        self.windows[window].take_out(element);
    }

    /// Answers what each term's range has at a moment, which the windows move on to. Whatever comes of it, the slot answers its terms
    /// from the moment on.
    pub fn collect(&mut self, alloc: Global, t: Ns, meter: &mut Meter) -> Result<Answer, AllocError>
        requires { self.old.reached ≤ t }
        ensures partials { IfOk result (λ answer. (entries : List Entry) → AreExactIn self.old.windows entries → answer.partials ≡ map (λ term. partial entries term t) self.old.terms) }
        ensures each { IfOk result (λ answer. length answer.partials ≡ length self.old.terms) }
        ensures copied { IfOk result (λ answer. answer.copy ≡ answer.partials) }
        ensures sums { IfOk result (λ answer. (contents : ContentsIn) → StandIn self.old.windows contents → AreSums self.old.windows t contents self.old.terms answer.partials) }
        ensures within { IfOk result (λ answer. (most : ℕ) → AllByRecursion (λ it. it.window.most ≡ most) self.old.windows → AllByRecursion (IsWithin most) answer.partials) }
        ensures stand { (contents : ContentsIn) → StandIn self.old.windows contents → StandIn self.new.windows contents }
        ensures most { (most : ℕ) → AllByRecursion (λ it. it.window.most ≡ most) self.old.windows → AllByRecursion (λ it. it.window.most ≡ most) self.new.windows }
        ensures visits { (entries : List Entry) → AreExactIn self.old.windows entries → HasVisits (sum_by (visits_for entries self.old.collected t) self.old.terms) meter.old meter.new }
        ensures runs { meter.new.runs ≡ meter.old.runs }
        ensures ranges { map key_of self.new.windows ≡ map key_of self.old.windows }
        ensures asked { (self.new.number ≡ self.old.number) × (self.new.terms ≡ self.old.terms) × (self.new.reached ≡ t) }
        ensures collected { OnOk result (self.new.collected ≡ t) }
        ensures kept { OnErr result (self.new.collected ≡ self.old.collected) }
    {
        self.reached = t;
        let partials = collect_each(alloc, &mut self.windows, &self.indices, t, meter)?;
        let answer = answer_of(partials)?;
        self.collected = t;
        Ok(answer)
    }
}

// What the ranges of windows by their indices have at a moment, which all move on to.
fn collect_each(
    alloc: Global,
    windows: &mut [RangeWindow],
    indices: &[usize],
    t: Ns,
    meter: &mut Meter,
) -> Result<Vec<Shared<Partial>>, AllocError>
    requires there { AllByRecursion (λ index. index < length windows.old) indices.now }
    requires moments { AllByRecursion (λ it. it.window.moment ≤ t) windows.old }
    ensures partials { IfOk result (λ partials. (entries : List Entry) → AreExactIn windows.old entries → AllZip (IsPartialAt windows.old entries t) indices.now partials.items) }
    ensures each { IfOk result (λ partials. length partials.items ≡ length indices.now) }
    ensures sums { IfOk result (λ partials. (contents : ContentsIn) → StandIn windows.old contents → AllZip (IsSumAt windows.old t contents) indices.now partials.items) }
    ensures within { IfOk result (λ partials. (most : ℕ) → AllByRecursion (λ it. it.window.most ≡ most) windows.old → AllByRecursion (IsWithin most) partials.items) }
    ensures stand { (contents : ContentsIn) → StandIn windows.old contents → StandIn windows.new contents }
    ensures ranges { map key_of windows.new ≡ map key_of windows.old }
    ensures most { (most : ℕ) → AllByRecursion (λ it. it.window.most ≡ most) windows.old → AllByRecursion (λ it. it.window.most ≡ most) windows.new }
    ensures moments { AllByRecursion (λ it. it.window.moment ≤ t) windows.new }
    ensures moved { OnOk result (AllByRecursion (λ it. it.window.moment ≡ t) windows.new) }
    ensures since { (since : ℕ) → AllByRecursion (λ it. since ≤ it.window.moment) windows.old → AllByRecursion (λ it. since ≤ it.window.moment) windows.new }
    ensures visits { HasVisits (visits_of windows.old t) meter.old meter.new }
    ensures few { (entries : List Entry) (since : ℕ) → AreExactIn windows.old entries → AllByRecursion (λ it. since ≤ it.window.moment) windows.old → HasVisits (sum_by (visits_by entries since t) (map key_of windows.old)) meter.old meter.new }
{
    slide_each(windows, t, meter)?;
    partials_at(alloc, windows, indices, t)
}

// Moves windows on to a moment.
fn slide_each(windows: &mut [RangeWindow], t: Ns, meter: &mut Meter) -> Result<(), AllocError>
    requires { AllByRecursion (λ it. it.window.moment ≤ t) windows.old }
    ensures stand { (contents : ContentsIn) → StandIn windows.old contents → StandIn windows.new contents }
    ensures ranges { map key_of windows.new ≡ map key_of windows.old }
    ensures most { (most : ℕ) → AllByRecursion (λ it. it.window.most ≡ most) windows.old → AllByRecursion (λ it. it.window.most ≡ most) windows.new }
    ensures moments { AllByRecursion (λ it. it.window.moment ≤ t) windows.new }
    ensures moved { OnOk result (AllByRecursion (λ it. it.window.moment ≡ t) windows.new) }
    ensures since { (since : ℕ) → AllByRecursion (λ it. since ≤ it.window.moment) windows.old → AllByRecursion (λ it. since ≤ it.window.moment) windows.new }
    ensures visits { HasVisits (visits_of windows.old t) meter.old meter.new }
    ensures few { (entries : List Entry) (since : ℕ) → AreExactIn windows.old entries → AllByRecursion (λ it. since ≤ it.window.moment) windows.old → HasVisits (sum_by (visits_by entries since t) (map key_of windows.old)) meter.old meter.new }
{
    for index in 0..windows.len() {
        windows[index].slide(t, meter)?;
    }
    Ok(())
}

// What the ranges of windows by their indices have at the moment of these.
fn partials_at(
    alloc: Global,
    windows: &mut [RangeWindow],
    indices: &[usize],
    t: Ns,
) -> Result<Vec<Shared<Partial>>, AllocError>
    requires there { AllByRecursion (λ index. index < length windows.old) indices.now }
    requires moments { AllByRecursion (λ it. it.window.moment ≡ t) windows.old }
    ensures same { windows.new ≡ windows.old }
    ensures partials { IfOk result (λ partials. (entries : List Entry) → AreExactIn windows.old entries → AllZip (IsPartialAt windows.old entries t) indices.now partials.items) }
    ensures each { IfOk result (λ partials. length partials.items ≡ length indices.now) }
    ensures sums { IfOk result (λ partials. (contents : ContentsIn) → StandIn windows.old contents → AllZip (IsSumAt windows.old t contents) indices.now partials.items) }
    ensures within { IfOk result (λ partials. (most : ℕ) → AllByRecursion (λ it. it.window.most ≡ most) windows.old → AllByRecursion (IsWithin most) partials.items) }
{
    let mut partials = Vec::with_capacity(alloc, indices.len())?;
    for index in indices {
        let partial = windows[*index].partial()?;
        partials.push(partial)?;
    }
    Ok(partials)
}
