//! A book: one rule group, its history, and its sinks.
ghost use Rattle.std.specs.Prelude.{◌≡◌, ◌≤◌, ◌<◌, ◌-◌, ◌^◌, List, map, length, not, replicate, slice_get, slice_set, option_map, option_and_then, IfOk, IfErr, OnOk, OnErr, IfSome, None, Some, is_some, false};
ghost use Rattle.rl_sinks.specs.SinkState.{SinkState, closed};
ghost use Rattle.rl_sinks.specs.Texts.{tail_text};
ghost use Rattle.rl_world.specs.BookCalls.{Refuses};
ghost use Rattle.rl_world.specs.Closed.{HasAnswered, IsBookClosed, IsClosed, failures};
ghost use Rattle.rl_world.specs.History.{asked_fault, closing_fault, has_passed, with_shown};
ghost use Rattle.rl_world.specs.WorldRun.{ArePumped};
ghost use Rattle.rl_world.specs.WorldState.{with_sinks};
ghost use Rattle.std.specs.List.{AllByRecursion, AllZip, list_all};
ghost use Rattle.std.specs.Option.{option_copied};
ghost use Rattle.sha2.specs.Sha256.{sha256};

use crate::editing::{kept_edited, kept_of};
use crate::evaluating::{ShardAnswer, evaluate, terms_of_group};
use crate::fault::{BookError, BookFault};
use crate::item::Item;
use crate::offering::{catch_up_all, offer_all};
use crate::opened::{Gathered, OpenEvaluation, OpenPartials};
use crate::step::Committed;
use rl_aggregate::Partial;
use rl_labels::Ns;
use rl_plain::{PlainList, Shared, TryCopy};
use rl_records::Terms;
use rl_rules::{Alert, Evaluation, Group, KeptRule};
use rl_sinks::{Sink, tail_digest};
use std::alloc::{AllocError, Global};
use std::marker::Model;
use std::mem;

/// A rule group with its history and its sinks. Contracts see a `BookState`.
#[derive(Drop)]
pub struct Book<S: Sink> {
    alloc: Global,
    // As it began, and as it is now.
    first: Shared<Group>,
    group: Shared<Group>,
    // Of the group's rules, in their order.
    terms: Terms,
    slot: u64,
    shards: usize,
    records: u64,
    // Of each of the group's rules.
    kept: Vec<KeptRule>,
    // Edits and evaluations in order, and the evaluations alone.
    items: Vec<Item>,
    evaluations: Vec<Shared<Evaluation>>,
    opened: Option<OpenPartials>,
    sinks: Vec<S>,
}

impl<S: Sink> Model for Book<S> {
    ghost use Rattle.std.specs.Prelude.{map};
    ghost use Rattle.rl_world.specs.WorldState.{BookState, IsBook};

    ghost Value = { BookState };

    ghost use Rattle.std.specs.Coded.{codes};
    ghost use Rattle.rl_labels.specs.LabelSet.{label_set_code};
    ghost use Rattle.rl_aggregate.specs.contracts.totals.Totals as totals_type;
    ghost use Rattle.rl_query.specs.contracts.label_test.LabelTests as tests_type;

    ghost coded = { Prim.hlevel (codes, label_set_code, totals_type.the_row.coded, tests_type.the_row.coded) };

    ghost view = { λ a. record { history = record { first = a.first; records = a.records; items = a.items.items; group = a.group; evaluations = a.evaluations.items; opened = a.opened }; shards = a.shards; slot = a.slot; sinks = map S.state a.sinks.items } };

    ghost invariant = { λ a. IsBook a.terms a.kept.items (record { history = record { first = a.first; records = a.records; items = a.items.items; group = a.group; evaluations = a.evaluations.items; opened = a.opened }; shards = a.shards; slot = a.slot; sinks = map S.state a.sinks.items }) };
}

impl<S: Sink> Book<S> {
    ghost use Rattle.rl_world.specs.BookCalls.{new_book, with_history, IsFresh, Answers, moment_of};
    ghost use Rattle.rl_labels.specs.declared.entry.Entry.{Entry};
    ghost use Rattle.rl_world.specs.declared.item.Item.TheVariants as kinds;
    ghost use Rattle.rl_world.specs.declared.opened.OpenEvaluation.{OpenEvaluation};
    ghost use Rattle.rl_world.specs.WorldState.{kept_open};
    ghost use Rattle.rl_world.specs.Evaluating.{group_terms, evaluation_of};
    ghost use Rattle.rl_world.specs.Kept.{evaluation_from};
    ghost use Rattle.rl_world.specs.History.{alerts_of, group_after, evaluations_in, is_due, begin_fault, edit_fault, gather_fault, commit_fault, abandon_fault, begun, edited, gathered, committed, abandoned};
    ghost use Rattle.rl_world.specs.Offering.{AllOffered, behind_of};
    ghost use Rattle.rl_world.specs.ShardAnswers.{AreOfOneShard, most_shards};

    /// A book with no evaluation. It asks `shards` shards, under the number `slot`, and keeps at most `records` edits and
    /// evaluations, up to 1,048,576. The sinks have taken nothing.
    pub fn open(
        alloc: Global,
        group: Group,
        slot: u64,
        shards: usize,
        sinks: Vec<S>,
        records: u64,
    ) -> Result<Self, AllocError>
        requires shards { shards ≤ most_shards }
        requires records { records ≤ 1048576 }
        requires fresh { AllByRecursion IsFresh (map S.state sinks.items) }
        ensures { IfOk result (λ book. book ≡ new_book slot records shards group (map S.state sinks.items)) }
    {
        let terms = terms_of_group(alloc, &group)?;
        let kept = kept_of(alloc, &group, Vec::new(alloc))?;
        let first = Shared::new(alloc, group)?;
        let now = first.try_copy()?;
        Ok(Book {
            alloc,
            first,
            group: now,
            terms,
            slot,
            shards,
            records,
            kept,
            items: Vec::new(alloc),
            evaluations: Vec::new(alloc),
            opened: None,
            sinks,
        })
    }

    /// Replaces the group by another one under its name. Each of the new rules, in order, takes the alerts of the
    /// first rule before that is equal in all fields and was not yet taken. The index of the edit in the history.
    pub fn edit(&mut self, group: Shared<Group>) -> Result<u64, BookError>
        requires name { group.name ≡ self.old.history.group.name }
        ensures answer { Answers (edit_fault self.old.history) result }
        ensures place { IfOk result (λ place. place ≡ length self.old.history.items) }
        ensures ok { OnOk result (self.new ≡ with_history self.old (edited self.old.history group)) }
        ensures err { OnErr result (self.new ≡ self.old) }
    {
        let place = self.may_edit()?;
        let to = group.get();
        let terms = terms_of_group(self.alloc, to)?;
        let kept = kept_edited(self.alloc, self.group.get(), &self.kept, to)?;
        let item = Item::Edited(group.try_copy()?);
        self.items.push(item)?;
        self.group = group;
        self.terms = terms;
        self.kept = kept;
        Ok(place)
    }

    /// The same with a group that nothing shares.
    pub(crate) fn edit_own(&mut self, group: Group) -> Result<u64, BookError>
        requires name { group.name ≡ self.old.history.group.name }
        ensures answer { Answers (edit_fault self.old.history) result }
        ensures place { IfOk result (λ place. place ≡ length self.old.history.items) }
        ensures ok { OnOk result (self.new ≡ with_history self.old (edited self.old.history group)) }
        ensures err { OnErr result (self.new ≡ self.old) }
    {
        self.may_edit()?;
        let group = Shared::new(self.alloc, group)?;
        self.edit(group)
    }

    // The index that an edit has in the history. Refuses where an evaluation is open, and where the book is full.
    fn may_edit(&self) -> Result<u64, BookFault>
        ensures answer { Refuses (edit_fault self.now.history) result }
        ensures place { IfOk result (λ place. place ≡ length self.now.history.items) }
        ensures closed { OnOk result (self.now.history.opened ≡ None) }
        ensures room { OnOk result (length self.now.history.items < self.now.history.records) }
    {
        let busy = self.opened.is_some();
        if busy {
            return Err(BookFault::Busy);
        }
        let place = self.items.len() as u64;
        if place >= self.records {
            return Err(BookFault::SessionFull);
        }
        Ok(place)
    }

    /// Opens an evaluation at the moment.
    pub fn begin(&mut self, t: Ns) -> Result<(), BookError>
        ensures answer { Answers (begin_fault self.old.history t) result }
        ensures ok { OnOk result (self.new ≡ with_history self.old (begun self.old.shards self.old.history t)) }
        ensures err { OnErr result (self.new ≡ self.old) }
    {
        self.may_begin(t)?;
        let gathered = no_answers(self.alloc, self.shards)?;
        self.opened = Some(OpenEvaluation { t, gathered });
        Ok(())
    }

    // Refuses where one is open, and a moment that is not later than the last evaluation's.
    fn may_begin(&self, t: Ns) -> Result<(), BookFault>
        ensures { Refuses (begin_fault self.now.history t) result }
    {
        if self.opened.is_some() {
            return Err(BookFault::Busy);
        }
        if let Some(last) = self.evaluations.last() {
            let last = last.get().t;
            if t <= last {
                return Err(BookFault::MomentNotLater { last });
            }
        }
        Ok(())
    }

    /// The moment at which the shard is to be asked.
    pub fn asks(&self, shard: usize) -> Result<Ns, BookFault>
        requires { shard < self.now.shards }
        ensures answer { Refuses (gather_fault self.now.history shard) result }
        ensures moment { IfOk result (λ t. moment_of self.now.history ≡ Some t) }
    {
        asked(&self.opened, shard)
    }

    /// Takes what a shard showed: one partial for each of the group's terms, and the place in the shard's journal.
    pub fn put_partials(
        &mut self,
        shard: usize,
        place: u64,
        partials: PlainList<Shared<Partial>>,
    ) -> Result<(), BookFault>
        requires shard { shard < self.old.shards }
        requires partials { AreOfOneShard (length (group_terms self.old.history.group)) partials }
        ensures answer { Refuses (gather_fault self.old.history shard) result }
        ensures ok { OnOk result (self.new ≡ with_history self.old (gathered self.old.history shard place partials)) }
        ensures err { OnErr result (self.new ≡ self.old) }
    {
        asked(&self.opened, shard)?;
        let answer = Gathered {
            place,
            shown: partials,
        };
        put(&mut self.opened, shard, answer);
        Ok(())
    }

    /// Evaluates the group on what its shards showed, and offers each sink all that it has not taken, until it refuses.
    pub fn commit(&mut self) -> Result<Committed, BookError>
        ensures answer { Answers (commit_fault self.old.history) result }
        ensures number { IfOk result (λ answer. answer.number ≡ length self.old.history.evaluations) }
        ensures evaluation { IfOk result (λ answer. IfSome self.old.history.opened (λ opened. answer.evaluation ≡ evaluation_from self.old.history.group (alerts_of self.old.history) opened)) }
        ensures from_scratch { IfOk result (λ answer. (shown : OpenEvaluation (List Entry)) → self.old.history.opened ≡ Some (kept_open (group_terms self.old.history.group) shown) → answer.evaluation ≡ evaluation_of self.old.history.group (alerts_of self.old.history) shown) }
        ensures history { IfOk result (λ answer. self.new.history ≡ committed self.old.history answer.evaluation) }
        ensures rest { OnOk result ((self.new.shards ≡ self.old.shards) × (self.new.slot ≡ self.old.slot)) }
        ensures offered { OnOk result (AllOffered self.new.history.evaluations self.old.sinks self.new.sinks) }
        ensures behind { IfOk result (λ answer. answer.behind ≡ behind_of self.new.history.evaluations self.new.sinks) }
        ensures err { OnErr result (self.new ≡ self.old) }
    {
        let number = self.evaluations.len() as u64;
        let full = self.items.len() as u64 >= self.records;
        let opened = complete(&self.opened, full)?;
        let terms = self.terms.list().get().len();
        let group = self.group.get();
        let (evaluation, alerts) = evaluate(self.alloc, group, terms, &mut self.kept, opened)?;
        let copy = evaluation.try_copy()?;
        let item = Item::Evaluated(evaluation.try_copy()?);
        let mut behind = Vec::with_capacity(self.alloc, self.sinks.len())?;
        self.items.reserve(1)?;
        self.evaluations.push(evaluation)?;
        self.items.push_reserved(item);
        keep_all(&mut self.kept, alerts);
        close(&mut self.opened);
        offer_all(&mut self.sinks, &self.evaluations, &mut behind);
        Ok(Committed {
            number,
            evaluation: copy,
            behind: PlainList::from_vec(behind),
        })
    }

    /// Puts a block in place of that of the last evaluation, to which it is equal, so that both are held once. Whatever it answers,
    /// the book is seen as before.
    pub fn share_last(&mut self, evaluation: &Shared<Evaluation>) -> Result<(), AllocError>
        requires last { slice_get self.old.history.items (length self.old.history.items - 1) ≡ Some (kinds.Evaluated evaluation.now) }
        ensures { self.new ≡ self.old }
    {
        let item = Item::Evaluated(evaluation.try_copy()?);
        let own = evaluation.try_copy()?;
        replace_last(&mut self.items, item);
        replace_last(&mut self.evaluations, own);
        Ok(())
    }

    /// Closes the open evaluation, of which nothing is left.
    pub fn abandon(&mut self) -> Result<(), BookFault>
        ensures answer { Refuses (abandon_fault self.old.history) result }
        ensures ok { OnOk result (self.new ≡ with_history self.old (abandoned self.old.history)) }
        ensures err { OnErr result (self.new ≡ self.old) }
    {
        if self.opened.is_none() {
            return Err(BookFault::NotOpen);
        }
        self.opened = None;
        Ok(())
    }

    /// Pumps each sink, and then offers each all that it has not taken, until it refuses. The sinks that refused, by their numbers.
    pub fn catch_up(&mut self) -> Result<PlainList<u64>, AllocError>
        ensures history { OnOk result (self.new.history ≡ self.old.history) }
        ensures rest { OnOk result ((self.new.shards ≡ self.old.shards) × (self.new.slot ≡ self.old.slot)) }
        ensures offered { OnOk result ((ready : List SinkState) × ArePumped self.old.sinks ready × AllByRecursion (HasAnswered S.state S.pump_answers) ready × AllOffered self.new.history.evaluations ready self.new.sinks) }
        ensures behind { IfOk result (λ behind. behind ≡ behind_of self.new.history.evaluations self.new.sinks) }
        ensures err { OnErr result (self.new ≡ self.old) }
    {
        let mut behind = Vec::with_capacity(self.alloc, self.sinks.len())?;
        catch_up_all(&mut self.sinks, &self.evaluations, &mut behind);
        Ok(PlainList::from_vec(behind))
    }

    /// The group as it is now: that of the last edit, or as it began.
    pub fn group(&self) -> &Group
        ensures now { result.now ≡ self.now.history.group }
        ensures last { result.now ≡ group_after self.now.history.first self.now.history.items }
    {
        self.group.get()
    }

    /// The group as it began.
    pub fn first_group(&self) -> &Group
        ensures { result.now ≡ self.now.history.first }
    {
        self.first.get()
    }

    /// An edit or an evaluation by its index in the history, counted from 0.
    pub fn item(&self, index: u64) -> Option<&Item>
        ensures { option_copied result ≡ slice_get self.now.history.items index }
    {
        self.items.get(index as usize)
    }

    /// Whether an evaluation is due: none is open, and there was none, or the group's interval has passed after the last.
    pub fn due(&self, now: Ns) -> bool
        ensures { result ≡ is_due self.now.history now }
    {
        if self.opened.is_some() {
            return false;
        }
        match self.evaluations.last() {
            Some(last) => has_passed(self.group.get().interval, last.get().t, now),
            None => true,
        }
    }

    /// The number under which the book asks its shards.
    pub fn slot(&self) -> u64
        ensures { result ≡ self.now.slot }
    {
        self.slot
    }

    /// The terms of the group's rules, in their order, with repeats.
    pub fn terms(&self) -> &Terms
        ensures { result.now ≡ group_terms self.now.history.group }
    {
        &self.terms
    }

    /// What is kept of each rule, in their order: the alerts that it has.
    pub fn alerts(&self) -> &[KeptRule]
        ensures { result.now ≡ alerts_of self.now.history }
    {
        &self.kept
    }

    /// A committed evaluation by its number, counted from 0 among the evaluations of the history.
    pub fn evaluation(&self, number: u64) -> Option<&Evaluation>
        ensures numbered { option_copied result ≡ slice_get self.now.history.evaluations number }
        ensures listed { option_copied result ≡ slice_get (evaluations_in self.now.history.items) number }
    {
        let evaluation = self.evaluations.get(number as usize)?;
        Some(evaluation.get())
    }

    /// The SHA-256 (FIPS 180-4) of what a tail is given of a committed evaluation, by its number. Takes no memory.
    pub fn mark(&self, number: u64) -> Option<[u8; 32]>
        ensures { result ≡ option_map (λ evaluation. sha256 (tail_text evaluation)) (slice_get self.now.history.evaluations number) }
    {
        let evaluation = self.evaluation(number)?;
        Some(tail_digest(evaluation))
    }

    /// How many evaluations were committed.
    pub fn evaluations(&self) -> u64
        ensures { result ≡ length self.now.history.evaluations }
    {
        self.evaluations.len() as u64
    }

    /// How many sinks it has.
    pub fn sinks(&self) -> usize
        ensures { result ≡ length self.now.sinks }
    {
        self.sinks.len()
    }

    /// How many texts a sink has taken, if there is such a sink.
    pub fn sink_count(&self, sink: usize) -> Option<u64>
        ensures count { result ≡ option_map (λ sink. sink.count) (slice_get self.now.sinks sink) }
        ensures kept { IfSome (slice_get self.now.sinks sink) (λ sink. length sink.kept ≤ sink.count) }
    {
        let sink = self.sinks.get(sink)?;
        Some(sink.count())
    }

    /// A text that a sink keeps, counted from 0, the oldest first.
    pub fn sink_text(&self, sink: usize, index: u64) -> Option<&str>
        ensures { option_copied result ≡ option_and_then (λ sink. slice_get sink.kept index) (slice_get self.now.sinks sink) }
    {
        let sink = self.sinks.get(sink)?;
        sink.kept(index)
    }

    /// Closes each sink in order. How many could not write all.
    pub fn close_sinks(&mut self) -> u64
        ensures closed { IsBookClosed self.old self.new }
        ensures counted { result ≡ failures self.new.sinks }
        ensures answers { AllByRecursion (HasAnswered S.state S.close_answers) self.new.sinks }
    {
        close_all(&mut self.sinks)
    }

    /// Closes a sink by its number. Whether it could write all.
    pub fn close_sink(&mut self, sink: usize) -> bool
        requires { sink < length self.old.sinks }
        ensures closed { IfSome (slice_get self.old.sinks sink) (λ own. self.new ≡ with_sinks self.old (slice_set self.old.sinks sink (closed own (not result)))) }
        ensures answer { IfSome (slice_get self.new.sinks sink) (HasAnswered S.state S.close_answers) }
    {
        self.sinks[sink].close().is_ok()
    }

    /// The sinks. All else is let go as it stands and is not taken apart, so its memory is given back with the process alone.
    pub fn into_sinks(self) -> Vec<S>
        ensures { map S.state result.items ≡ self.sinks }
    {
        let Book {
            first,
            group,
            terms,
            kept,
            items,
            evaluations,
            opened,
            sinks,
            ..
        } = self;
        mem::forget(first);
        mem::forget(group);
        mem::forget(terms);
        mem::forget(kept);
        mem::forget(items);
        mem::forget(evaluations);
        mem::forget(opened);
        sinks
    }
}

// Whether `seconds` seconds have passed after a moment.
fn has_passed(seconds: u64, last: Ns, now: Ns) -> bool
    ensures { result ≡ has_passed seconds (Some last) now }
{
    u128::from(last.get()) + u128::from(seconds) * 1_000_000_000 <= u128::from(now.get())
}

// The moment at which the shard is to be asked.
fn asked(opened: &Option<OpenPartials>, shard: usize) -> Result<Ns, BookFault>
    requires { IfSome opened.now (λ opened. shard < length opened.gathered) }
    ensures answer { Refuses (asked_fault opened.now shard) result }
    ensures moment { IfOk result (λ t. option_map (λ opened. opened.t) opened.now ≡ Some t) }
{
    let Some(opened) = opened else {
        return Err(BookFault::NotOpen);
    };
    if opened.gathered.as_slice()[shard].is_some() {
        return Err(BookFault::AlreadyGathered);
    }
    Ok(opened.t)
}

// The open evaluation, if it can be committed to a book that is full or not.
fn complete(opened: &Option<OpenPartials>, full: bool) -> Result<&OpenPartials, BookFault>
    ensures refused { IfErr result (λ fault. closing_fault opened.now full ≡ Some fault) }
    ensures free { OnOk result (closing_fault opened.now full ≡ None) }
    ensures room { OnOk result (full ≡ false) }
    ensures ok { IfOk result (λ complete. opened.now ≡ Some complete.now) }
{
    let Some(opened) = opened else {
        return Err(BookFault::NotOpen);
    };
    if !all_asked(opened.gathered.as_slice()) {
        return Err(BookFault::Incomplete);
    }
    if full {
        return Err(BookFault::SessionFull);
    }
    Ok(opened)
}

// Whether every shard was asked.
fn all_asked(answers: &[ShardAnswer]) -> bool
    ensures { result ≡ list_all is_some answers.now }
{
    answers.iter().all(|answer| answer.is_some())
}

// Keeps what a shard showed as its answer.
fn put(
    opened: &mut Option<OpenPartials>,
    shard: usize,
    answer: Gathered<PlainList<Shared<Partial>>>,
)
    requires { IfSome opened.old (λ opened. shard < length opened.gathered) }
    ensures { opened.new ≡ option_map (with_shown shard answer.place answer.shown) opened.old }
{
    if let Some(opened) = opened {
        opened.gathered.set(shard, Some(answer));
    }
}

// Each rule has its alerts from now on.
fn keep_all(kept: &mut [KeptRule], alerts: Vec<PlainList<Alert>>)
    requires { length kept.old ≡ length alerts.items }
    ensures { kept.new ≡ alerts.items }
{
    let mut index = 0;
    for own in alerts {
        kept[index].keep(own);
        index += 1;
    }
}

// Nothing is open afterwards.
fn close(opened: &mut Option<OpenPartials>)
    ensures { opened.new ≡ None }
{
    *opened = None;
}

// Puts a value in place of the last, to which it is equal.
fn replace_last<T: Drop>(values: &mut Vec<T>, value: T)
    requires { slice_get values.old.items (length values.old.items - 1) ≡ Some value }
    ensures { values.new.items ≡ values.old.items }
{
    if let Some(last) = values.last_mut() {
        *last = value;
    }
}

// For each shard no answer, as none was asked.
fn no_answers(alloc: Global, shards: usize) -> Result<PlainList<ShardAnswer>, AllocError>
    ensures { IfOk result (λ answers. answers ≡ replicate shards None) }
{
    let mut answers = Vec::with_capacity(alloc, shards)?;
    for _ in 0..shards {
        answers.push(None)?;
    }
    Ok(PlainList::from_vec(answers))
}

// Closes each sink in order. How many could not write all.
fn close_all<S: Sink>(sinks: &mut [S]) -> u64
    requires { length sinks.old < 2 ^ 63 }
    ensures closed { AllZip IsClosed (map S.state sinks.old) (map S.state sinks.new) }
    ensures counted { result ≡ failures (map S.state sinks.new) }
    ensures answers { AllByRecursion (HasAnswered S.state S.close_answers) (map S.state sinks.new) }
{
    let mut failed = 0;
    for number in 0..sinks.len() {
        if sinks[number].close().is_err() {
            failed += 1;
        }
    }
    failed
}
