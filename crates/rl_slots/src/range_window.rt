//! Windows with the code of their range.
ghost use Rattle.std.specs.Prelude.{◌≡◌, ◌≤◌, ℕ, List, ◌∷◌, IfOk, IsErrOf, OnErr, OnOk};
ghost use Rattle.rl_labels.specs.declared.entry.Entry.{Entry};
ghost use Rattle.rl_query.specs.declared.query.Term.{Term};
ghost use Rattle.rl_aggregate.specs.Limited.{IsWithin};
ghost use Rattle.rl_aggregate.specs.Partials.{partial};
ghost use Rattle.rl_windows.specs.Ranges.{code_of, elements_for, HasRuns};
ghost use Rattle.rl_windows.specs.Windows.{in_range, visits, StandsFor};
ghost use Rattle.rl_windows.specs.declared.element.Element.{Element};
ghost use Rattle.rl_slots.specs.Slots.{key_of, range_of, visits_by, wanted, HasVisits, IsFull, IsOfLine};
ghost use Rattle.rl_slots.specs.declared.change.AddFault.TheVariants as adds;

use crate::change::AddFault;
use rl_aggregate::Partial;
use rl_labels::Ns;
use rl_pipeline::{Meter, ParsedLine};
use rl_plain::Shared;
use rl_windows::{Element, RangeCode, Window};
use std::alloc::AllocError;

/// A window with the code of its range, which says what a line adds to it.
#[derive(Drop)]
pub struct RangeWindow {
    pub code: RangeCode,
    pub window: Window,
}

impl RangeWindow {
    // What a line adds to the window: nothing where the window does not need it or the range does not have it.
    pub(crate) fn element_of(
        &self,
        meter: &mut Meter,
        line: &mut ParsedLine<'_>,
        timestamp: Ns,
    ) -> Result<Option<Element>, AllocError>
        ensures element { IfOk result (λ element. element ≡ wanted line.old timestamp self.now) }
        ensures runs { HasRuns 1 meter.old meter.new }
        ensures line { line.new ≡ line.old }
    {
        if !self.window.needs(timestamp) {
            return Ok(None);
        }
        self.code.element_for(meter, line, timestamp)
    }

    // Adds an element of one line, if there is room for it. Refused, the window stays as it was.
    pub(crate) fn add(&mut self, element: &Element) -> Result<(), AddFault>
        requires { IsOfLine element.now.volume }
        ensures stands { OnOk result ((es : List Element) → StandsFor self.old.window es → StandsFor self.new.window (element.now ∷ es)) }
        ensures err { OnErr result (self.new ≡ self.old) }
        ensures full { IsErrOf result adds.Full → IsFull self.old }
        ensures range { range_of self.new ≡ range_of self.old }
    {
        if !self.window.has_room() {
            return Err(AddFault::Full);
        }
        self.window.add(element)?;
        Ok(())
    }

    // Takes an element out, if it can be there.
    pub(crate) fn take_out(&mut self, element: &Element)
        ensures stands { (es : List Element) → StandsFor self.old.window (element.now ∷ es) → StandsFor self.new.window es }
        ensures range { range_of self.new ≡ range_of self.old }
    {
        self.window.take_out(element);
    }

    // Moves the window on to a moment.
    pub(crate) fn slide(&mut self, t: Ns, meter: &mut Meter) -> Result<(), AllocError>
        requires { self.old.window.moment ≤ t }
        ensures stands { (es : List Element) → StandsFor self.old.window es → StandsFor self.new.window es }
        ensures range { key_of self.new ≡ key_of self.old }
        ensures most { self.new.window.most ≡ self.old.window.most }
        ensures moment { (self.old.window.moment ≤ self.new.window.moment) × (self.new.window.moment ≤ t) }
        ensures moved { OnOk result (self.new.window.moment ≡ t) }
        ensures visits { HasVisits (visits self.old.window t) meter.old meter.new }
        ensures few { (entries : List Entry) (since : ℕ) → since ≤ self.old.window.moment → StandsFor self.old.window (elements_for self.old.code entries) → visits self.old.window t ≤ visits_by entries since t (key_of self.old) }
    {
        self.window.slide(t, meter)
    }

    // What its range has at the moment of the window.
    pub(crate) fn partial(&mut self) -> Result<Shared<Partial>, AllocError>
        ensures same { self.new ≡ self.old }
        ensures sum { IfOk result (λ found. (es : List Element) → StandsFor self.old.window es → found ≡ in_range self.old.window.seconds self.old.window.moment es) }
        ensures within { IfOk result (IsWithin self.old.window.most) }
        ensures partial { IfOk result (λ found. (term : Term) (entries : List Entry) → term.range.seconds ≡ self.old.window.seconds → StandsFor self.old.window (elements_for (code_of term) entries) → found ≡ partial entries term self.old.window.moment) }
    {
        self.window.partial()
    }
}
