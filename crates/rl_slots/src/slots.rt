//! The slots of all groups.
ghost use Rattle.std.specs.Prelude.{◌≡◌, ◌≤◌, ◌<◌, ◌+◌, ◌==◌, ℕ, List, [], ◌++◌, length, map, option_map, slice_get, Some, IfNone, IfOk, IfSome, IsErrOf, OnErr, OnOk};
ghost use Rattle.std.specs.List.{AllByRecursion, position, sum_by};
ghost use Rattle.rl_labels.specs.declared.entry.Entry.{Entry};
ghost use Rattle.rl_aggregate.specs.Limited.{IsWithin};
ghost use Rattle.rl_aggregate.specs.Partials.{partial};
ghost use Rattle.rl_windows.specs.Ranges.{HasRuns};
ghost use Rattle.rl_slots.specs.Slots.{changes_of, changes_of_all, collected_in, outline, term_count, visits_for, with_change, with_changes, with_slot, AllStand, AreExact, AreNeededFrom, AreOfMost, Contents, HasVisits, IsFull, IsLive, IsLiveIn, IsMovedOn, IsOfLine, SlotView};
ghost use Rattle.rl_slots.specs.declared.change.AddFault.TheVariants as adds;

use crate::answer::Answer;
use crate::asked::AskedSlots;
use crate::change::{AddFault, Change};
use crate::slot::Slot;
use crate::table::list_by;
use crate::window_index::WindowIndex;
use indexmap::IndexMap;
use rl_labels::{Labels, Ns};
use rl_pipeline::{Meter, ParsedLine};
use rl_plain::PlainList;
use rl_query::Term;
use std::alloc::{AllocError, Global};
use std::marker::Model;

/// The slots of all groups that asked. Contracts see them in the order in which they came.
#[derive(Drop)]
pub struct Slots {
    slots: Vec<Slot>,
    // Where the windows are that select a stream, for each stream that had a line since a slot was set.
    table: IndexMap<Labels, PlainList<WindowIndex>>,
}

impl Model for Slots {
    ghost use Rattle.std.specs.Prelude.{List};
    ghost use Rattle.std.specs.Coded.{coded_list};
    ghost use Rattle.rl_slots.specs.Slots.{slot_code, IsTable, SlotView};

    ghost Value = { List SlotView };

    ghost coded = { coded_list slot_code };

    ghost view = { λ a. a.slots.items };

    ghost invariant = { λ a. IsTable a.slots.items a.table.entries };
}

impl Slots {
    /// No slot.
    pub fn new(alloc: Global) -> Slots
        ensures { result ≡ [] }
    {
        Slots {
            slots: Vec::new(alloc),
            table: IndexMap::new(alloc),
        }
    }

    /// Where the slot of a number is.
    pub fn index_of(&self, number: u64) -> Option<usize>
        ensures { result ≡ position (λ slot. slot.number == number) self.now }
    {
        self.slots.iter().position(|slot| slot.number() == number)
    }

    /// The slot at an index.
    pub fn get(&self, index: usize) -> Option<&Slot>
        ensures { option_map (λ slot. slot.now) result ≡ slice_get self.now index }
    {
        self.slots.get(index)
    }

    /// Where the slot of a number is, if it answers the terms at the moment. Takes no memory.
    pub fn live(&self, number: u64, terms: &PlainList<Term>, t: Ns) -> Option<usize>
        ensures some { IfSome result (λ index. (index < length self.now) × (position (λ slot. slot.number == number) self.now ≡ Some index) × IfSome (slice_get self.now index) (IsLive terms.now t)) }
        ensures none { IfNone result (IsLiveIn number terms.now t self.now → ⊥) }
    {
        let index = self.index_of(number)?;
        if !self.slots[index].is_live(terms, t) {
            return None;
        }
        Some(index)
    }

    /// Lists what a line changes in all windows. Of a stream that had a line since a slot was set only those that select it are asked.
    pub fn list(
        &mut self,
        meter: &mut Meter,
        line: &mut ParsedLine<'_>,
        timestamp: Ns,
        changes: &mut Vec<Change>,
    ) -> Result<(), AllocError>
        ensures listed { OnOk result (changes.new.items ≡ changes.old.items ++ changes_of line.old timestamp self.old) }
        ensures same { self.new ≡ self.old }
        ensures runs { HasRuns (term_count self.old) meter.old meter.new }
        ensures line { line.new ≡ line.old }
    {
        list_by(
            &mut self.table,
            &self.slots,
            meter,
            line,
            timestamp,
            changes,
        )
    }

    /// The slots, to ask them about many lines while they are borrowed.
    pub fn asked(&self) -> AskedSlots<'_>
        ensures { result ≡ self.now }
    {
        AskedSlots::new(*self.slots.allocator(), &self.slots)
    }

    /// The first timestamp that a window needs, in nanoseconds, if it is before another.
    pub fn first_needed(&self, other: u64) -> u64
        ensures first { AreNeededFrom result self.now }
        ensures least { result ≤ other }
    {
        let mut first = other;
        for slot in &self.slots {
            first = slot.first_needed(first);
        }
        first
    }

    /// Adds what changes have to their windows, each of which has to have room. Refused, each window stands for what it stood for.
    pub fn add(&mut self, changes: &[Change]) -> Result<(), AddFault>
        requires { AllByRecursion (λ change. IsOfLine change.element.volume) changes.now }
        ensures stand { OnOk result ((contents : Contents) → AllStand self.old contents → AllStand self.new (with_changes changes.now contents)) }
        ensures exact { OnOk result ((gained entries : List Entry) → changes.now ≡ changes_of_all gained self.old → AreExact self.old entries → AreExact self.new (gained ++ entries)) }
        ensures refused { OnErr result ((contents : Contents) → AllStand self.old contents → AllStand self.new contents) }
        ensures full { IsErrOf result adds.Full → (most : ℕ) (gained entries : List Entry) → AreOfMost most self.old → changes.now ≡ changes_of_all gained self.old → AreExact self.old entries → most < length gained + length entries }
        ensures outline { map outline self.new ≡ map outline self.old }
    {
        for (index, change) in changes.iter().enumerate() {
            if let Err(fault) = self.add_one(change) {
                self.take_out(&changes[..index]);
                return Err(fault);
            }
        }
        Ok(())
    }

    /// Takes what changes have out of their windows. Takes no memory.
    pub fn take_out(&mut self, changes: &[Change])
        ensures stand { (contents : Contents) → AllStand self.old (with_changes changes.now contents) → AllStand self.new contents }
        ensures exact { (lost entries : List Entry) (slots : List SlotView) → map outline slots ≡ map outline self.old → changes.now ≡ changes_of_all lost slots → AreExact self.old (lost ++ entries) → AreExact self.new entries }
        ensures outline { map outline self.new ≡ map outline self.old }
    {
        let mut left = changes.len();
        while left > 0 {
            left -= 1;
            self.take_one(&changes[left]);
        }
    }

    /// Answers what the terms of a slot that is live have at a moment, which its windows move on to. Nothing is read. Whatever comes
    /// of it, the slot is live from the moment on, and the others stay as they were.
    pub fn collect(
        &mut self,
        alloc: Global,
        index: usize,
        t: Ns,
        meter: &mut Meter,
    ) -> Result<Answer, AllocError>
        requires there { index < length self.old }
        requires live { IfSome (slice_get self.old index) (λ slot. slot.reached ≤ t) }
        ensures partials { IfOk result (λ answer. IfSome (slice_get self.old index) (λ slot. (entries : List Entry) → AreExact self.old entries → answer.partials ≡ map (λ term. partial entries term t) slot.terms)) }
        ensures each { IfOk result (λ answer. IfSome (slice_get self.old index) (λ slot. length answer.partials ≡ length slot.terms)) }
        ensures copied { IfOk result (λ answer. answer.copy ≡ answer.partials) }
        ensures within { IfOk result (λ answer. (most : ℕ) → AreOfMost most self.old → AllByRecursion (IsWithin most) answer.partials) }
        ensures stand { (contents : Contents) → AllStand self.old contents → AllStand self.new contents }
        ensures most { (most : ℕ) → AreOfMost most self.old → AreOfMost most self.new }
        ensures moved { IsMovedOn index t self.old self.new }
        ensures collected { OnOk result ((number : ℕ) → position (λ slot. slot.number == number) self.old ≡ Some index → collected_in number self.new ≡ Some t) }
        ensures others { (number : ℕ) → (position (λ slot. slot.number == number) self.old ≡ Some index → ⊥) → collected_in number self.new ≡ collected_in number self.old }
        ensures kept { OnErr result ((number : ℕ) → collected_in number self.new ≡ collected_in number self.old) }
        ensures visits { (entries : List Entry) → AreExact self.old entries → IfSome (slice_get self.old index) (λ slot. HasVisits (sum_by (visits_for entries slot.collected t) slot.terms) meter.old meter.new) }
        ensures runs { meter.new.runs ≡ meter.old.runs }
    {
        self.slots[index].collect(alloc, t, meter)
    }

    /// Puts a slot in the stead of the one of its number, or beside the others. Refused, all stay as they were.
    pub fn set(&mut self, slot: Slot) -> Result<(), AllocError>
        ensures ok { OnOk result (self.new ≡ with_slot slot self.old) }
        ensures err { OnErr result (self.new ≡ self.old) }
    {
        match self.index_of(slot.number()) {
            Some(index) => self.slots[index] = slot,
            None => self.slots.push(slot)?,
        }
        self.table.clear();
        Ok(())
    }

    // Adds what one change has. Refused, the slots stay as they were.
    fn add_one(&mut self, change: &Change) -> Result<(), AddFault>
        requires { IsOfLine change.now.element.volume }
        ensures stand { OnOk result ((contents : Contents) → AllStand self.old contents → AllStand self.new (with_change change.now contents)) }
        ensures err { OnErr result (self.new ≡ self.old) }
        ensures full { IsErrOf result adds.Full → IfSome (slice_get self.old change.now.slot) (λ slot. IfSome (slice_get slot.windows change.now.window) IsFull) }
        ensures outline { map outline self.new ≡ map outline self.old }
    {
        if change.slot >= self.slots.len() {
            return Ok(());
        }
        self.slots[change.slot].add(change.window, &change.element)
    }

    // Takes out what one change has.
    fn take_one(&mut self, change: &Change)
        ensures stand { (contents : Contents) → AllStand self.old (with_change change.now contents) → AllStand self.new contents }
        ensures outline { map outline self.new ≡ map outline self.old }
    {
        if change.slot >= self.slots.len() {
            return;
        }
        self.slots[change.slot].take_out(change.window, &change.element);
    }
}
