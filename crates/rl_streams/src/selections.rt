//! Which streams selectors select, kept from one question to the next.
ghost use Rattle.std.specs.Prelude.{◌≡◌, ◌<◌, ◌^◌, ◌-◌, List, [], length, slice_get, true, IfOk, OnErr, OnOk, Some};
ghost use Rattle.std.specs.List.{AllByRecursion};
ghost use Rattle.std.specs.Map.{keys_of};
ghost use Rattle.std.specs.Option.{option_map};
ghost use Rattle.rl_labels.specs.LabelSet.{LabelSet};
ghost use Rattle.rl_streams.specs.Selected.{asked_next, AreSelections, IsSelection};
ghost use Rattle.rl_streams.specs.StreamRows.{IsOwn};

use indexmap::IndexMap;
use rl_labels::{Labels, Matcher, SelectorCode};
use rl_parts::Stream;
use rl_plain::{PlainList, Same, TryCopy};
use std::alloc::{AllocError, Global};
use std::marker::Model;

// How many are kept at most.
const MOST: usize = 1_024;

// Which of the streams that were asked so far a built selector selects, by their indices.
#[derive(Drop)]
pub(crate) struct Selection {
    selector: PlainList<Matcher>,
    code: SelectorCode,
    asked: usize,
    positions: Vec<usize>,
}

impl Model for Selection {
    ghost use Rattle.std.specs.Prelude.{◌≡◌};
    ghost use Rattle.rl_streams.specs.Selected.{SelectionView, selection_code};

    ghost Value = { SelectionView };

    ghost coded = { selection_code };

    ghost view = { λ a. record { selector = a.selector; asked = a.asked; positions = a.positions.items } };

    ghost invariant = { λ a. a.code ≡ a.selector };
}

impl Selection {
    // The selector's, of which no stream was asked.
    fn new(alloc: Global, selector: &PlainList<Matcher>) -> Result<Selection, AllocError>
        ensures { IfOk result (λ selection. selection ≡ record { selector = selector.now; asked = 0; positions = [] }) }
    {
        // Its patterns were built when it was read, so a refusal is one for memory.
        let code = SelectorCode::build(alloc, selector.as_slice()).or(Err(AllocError))?;
        let selector = selector.try_copy()?;
        Ok(Selection {
            selector,
            code,
            asked: 0,
            positions: Vec::new(alloc),
        })
    }

    // Whether it is the selector's.
    fn is_of(&self, selector: &PlainList<Matcher>) -> bool
        ensures { result ≡ true → self.now.selector ≡ selector.now }
    {
        self.selector.is_same(selector)
    }

    // The indices of the streams that are selected, the lowest first.
    pub(crate) fn positions(&self) -> &[usize]
        ensures { result.now ≡ self.now.positions }
    {
        self.positions.as_slice()
    }

    // How many streams were asked.
    fn asked(&self) -> usize
        ensures { result ≡ self.now.asked }
    {
        self.asked
    }

    // Asks the next stream, which has these labels.
    fn ask(&mut self, labels: &Labels) -> Result<(), AllocError>
        requires { self.old.asked < 2 ^ 64 - 1 }
        ensures asked { OnOk result (self.new ≡ asked_next self.old labels.now) }
        ensures refused { OnErr result (self.new ≡ self.old) }
    {
        if self.code.accepts(labels)? {
            self.positions.push(self.asked)?;
        }
        self.asked += 1;
        Ok(())
    }
}

// Selections of selectors, each of the first streams.
#[derive(Drop)]
pub(crate) struct Selections {
    kept: Vec<Selection>,
    // Where one is sought first, because rules ask in turn.
    next: usize,
}

impl Model for Selections {
    ghost use Rattle.std.specs.Prelude.{List};
    ghost use Rattle.std.specs.Coded.{coded_list};
    ghost use Rattle.rl_streams.specs.Selected.{SelectionView, selection_code};

    ghost Value = { List SelectionView };

    ghost coded = { coded_list selection_code };

    ghost view = { λ a. a.kept.items };
}

impl Selections {
    // None.
    pub(crate) fn new(alloc: Global) -> Selections
        ensures { result ≡ [] }
    {
        Selections {
            kept: Vec::new(alloc),
            next: 0,
        }
    }

    // The one at an index.
    pub(crate) fn at(&self, position: usize) -> &Selection
        requires { position < length self.now }
        ensures { slice_get self.now position ≡ Some result.now }
    {
        &self.kept[position]
    }

    // Where the selector's is, of which all streams are asked then.
    pub(crate) fn select(
        &mut self,
        alloc: Global,
        streams: &IndexMap<Labels, Stream>,
        selector: &PlainList<Matcher>,
    ) -> Result<usize, AllocError>
        requires own { AllByRecursion IsOwn streams.now.entries }
        requires kept { AreSelections (keys_of streams.now.entries) self.old }
        ensures kept { AreSelections (keys_of streams.now.entries) self.new }
        ensures found { IfOk result (λ position. option_map (λ one. one.selector) (slice_get self.new position) ≡ Some selector.now) }
        ensures asked { IfOk result (λ position. option_map (λ one. one.asked) (slice_get self.new position) ≡ Some (length streams.now.entries)) }
    {
        let position = position_in(alloc, &mut self.kept, self.next, selector)?;
        self.next = position.saturating_add(1);
        ask_all(&mut self.kept[position], streams)?;
        Ok(position)
    }
}

// Where the selector's selection is. One that is not kept begins.
fn position_in(
    alloc: Global,
    kept: &mut Vec<Selection>,
    first: usize,
    selector: &PlainList<Matcher>,
) -> Result<usize, AllocError>
    ensures kept { (labels : List LabelSet) → AreSelections labels kept.old.items → AreSelections labels kept.new.items }
    ensures found { IfOk result (λ position. option_map (λ one. one.selector) (slice_get kept.new.items position) ≡ Some selector.now) }
{
    match position_of(kept, first, selector) {
        Some(position) => Ok(position),
        None => begin(alloc, kept, selector),
    }
}

// Where the selector's selection is, if it is kept: at the index that is tried first, or elsewhere.
fn position_of(kept: &[Selection], first: usize, selector: &PlainList<Matcher>) -> Option<usize>
    ensures { option_map (λ position. option_map (λ one. one.selector) (slice_get kept.now position)) result ≡ option_map (λ _. Some selector.now) result }
{
    if first < kept.len() && kept[first].is_of(selector) {
        return Some(first);
    }
    kept.iter().position(|one| one.is_of(selector))
}

// Keeps one of the selector, of which no stream was asked, and says where. Where `MOST` are kept already, these go.
fn begin(
    alloc: Global,
    kept: &mut Vec<Selection>,
    selector: &PlainList<Matcher>,
) -> Result<usize, AllocError>
    ensures kept { (labels : List LabelSet) → AreSelections labels kept.old.items → AreSelections labels kept.new.items }
    ensures found { IfOk result (λ position. option_map (λ one. one.selector) (slice_get kept.new.items position) ≡ Some selector.now) }
{
    let selection = Selection::new(alloc, selector)?;
    if kept.len() >= MOST {
        kept.clear();
    }
    let position = kept.len();
    kept.push(selection)?;
    Ok(position)
}

// Asks the streams that were not asked yet.
fn ask_all(selection: &mut Selection, streams: &IndexMap<Labels, Stream>) -> Result<(), AllocError>
    requires own { AllByRecursion IsOwn streams.now.entries }
    requires kept { IsSelection (keys_of streams.now.entries) selection.old }
    ensures kept { IsSelection (keys_of streams.now.entries) selection.new }
    ensures same { selection.new.selector ≡ selection.old.selector }
    ensures all { OnOk result (selection.new.asked ≡ length streams.now.entries) }
{
    for position in selection.asked()..streams.len() {
        selection.ask(streams[position].labels())?;
    }
    Ok(())
}
