//! A ruler that many callers use at once.
ghost use Rattle.std.specs.Prelude.{◌≡◌, ◌≤◌, ◌<◌, ◌∷◌, [], ℕ, nat_le, true, map, length, IfOk, IfErr, OnOk, OnErr};
ghost use Rattle.std.specs.List.{list_all, AllByRecursion};
ghost use Rattle.rl_labels.specs.Routing.{shard_of};
ghost use Rattle.rl_records.specs.declared.step.ShardStep.TheVariants as steps;
ghost use Rattle.rl_world.specs.BookCalls.{IsFresh};
ghost use Rattle.rl_audit.specs.Merged.{receipt_of};
ghost use Rattle.rl_workers.specs.Receipts.{HasAdded, HasKept, HasReceived};
ghost use Rattle.rl_workers.specs.Rulers.{counts_fit, open_fault, AreDecided, IsEvaluated, IsNoted, IsRefused};
ghost use Rattle.rl_shard.specs.declared.step.ShardFault.{ShardFault};
ghost use Rattle.rl_workers.specs.declared.fault.AllFault.TheVariants as all_faults;
ghost use Rattle.rl_workers.specs.declared.fault.EditFault.TheVariants as edits;
ghost use Rattle.rl_workers.specs.declared.fault.EvaluationFault.TheVariants as evaluations;
ghost use Rattle.rl_workers.specs.declared.fault.GroupFault.TheVariants as group_faults;

use crate::crew::Crew;
use crate::desk::Desks;
use crate::fault::{AllFault, EditFault, EvaluationFault, GroupFault, OpenFault};
use crate::opening::{counts_fit, open_desks, open_passes, open_seats};
use crate::pass::Pass;
use crate::seat::{Seat, edit, evaluate};
use rl_audit::{Note, note_of};
use rl_chunks::Store;
use rl_deletes::Deletion;
use rl_labels::{Entry, Limits, Ns, shard_of};
use rl_plain::{PlainList, Shared, TryCopy};
use rl_records::SieveText;
use rl_rules::Group;
use rl_shard::{ShardFault, ShardReply, ShardStep};
use rl_sinks::Sink;
use rl_world::{Committed, World};
use std::alloc::{AllocError, Global};
use std::marker::Model;
use std::sync::ledger::Blank;
use std::sync::{Mutex, Wait};

/// Shards, and a book for each rule group, each under a lock of its own. Every call takes locks and may wait. Contracts see how many
/// shards, groups and callers there are.
#[derive(Drop)]
pub struct Ruler<D: Store, S: Sink, L: Crew, P: Crew> {
    pub(crate) alloc: Global,
    pub(crate) desks: Desks<D, L, P>,
    pub(crate) seats: Vec<Mutex<Seat<S, L>>>,
    pub(crate) callers: usize,
}

impl<D: Store, S: Sink, L: Crew, P: Crew> Model for Ruler<D, S, L, P> {
    ghost use Rattle.std.specs.Prelude.{◌≡◌, ◌≤◌, length};
    ghost use Rattle.std.specs.Coded.{codes};
    ghost use Rattle.rl_workers.specs.Rulers.{RulerView};

    ghost Value = { RulerView };

    ghost coded = { Prim.hlevel codes };

    ghost view = { λ a. record { shards = length a.desks.shards.items; groups = length a.seats.items; callers = a.callers } };

    ghost invariant = { λ a. (1 ≤ length a.desks.shards.items) × (length a.desks.shards.items ≤ 16) × (length a.desks.shards.items ≡ L.all) × (a.callers ≡ P.all) };
}

impl<D: Store, S: Sink, L: Crew, P: Crew> Ruler<D, S, L, P> {
    /// A ruler with an empty shard over each store and a book for each group with its sinks, which have taken nothing, and a pass for
    /// each caller. BadCount comes before a lack of memory. The blanks are those of the ledgers of records and of receipts.
    pub fn open(
        alloc: Global,
        limits: Limits,
        stores: Vec<D>,
        groups: Vec<Group>,
        sinks: Vec<Vec<S>>,
        callers: usize,
        blanks: (Blank, Blank),
    ) -> Result<(Self, Vec<Pass<P>>), OpenFault>
        requires names { (blanks.0.name ≡ L.name) × (blanks.1.name ≡ P.name) }
        requires shards { (blanks.0.parts ≡ L.parts) × (L.parts ≡ L.all) × (L.all ≡ length stores.items) }
        requires callers { (blanks.1.parts ≡ P.parts) × (P.parts ≡ P.all) × (P.all ≡ callers) }
        requires fresh { AllByRecursion (λ own. AllByRecursion IsFresh (map S.state own.items)) sinks.items }
        ensures refused { IfErr result (λ fault. fault ≡ open_fault (counts_fit (length stores.items) callers groups.items (length sinks.items) (list_all (λ own. nat_le (length own.items) 16) sinks.items))) }
        ensures counts { OnOk result (counts_fit (length stores.items) callers groups.items (length sinks.items) (list_all (λ own. nat_le (length own.items) 16) sinks.items) ≡ true) }
        ensures ruler { IfOk result (λ opened. opened.0 ≡ record { shards = length stores.items; groups = length groups.items; callers = callers }) }
        ensures passes { IfOk result (λ opened. (length opened.1.items ≡ callers) × AllByRecursion (λ pass. (pass.receipts ≡ []) × (pass.notes ≡ [])) opened.1.items) }
    {
        if !counts_fit(stores.len(), callers, &groups, &sinks) {
            return Err(OpenFault::BadCount);
        }
        match open_counted(alloc, limits, stores, (groups, sinks), callers, blanks) {
            Ok(opened) => Ok(opened),
            Err(_error) => Err(OpenFault::Memory),
        }
    }

    /// How many groups it has.
    pub fn groups(&self) -> usize
        ensures { result ≡ self.now.groups }
    {
        self.seats.len()
    }

    /// Hands an entry to the shard of its stream.
    pub fn push<R: Wait>(
        &self,
        rt: &R,
        pass: &mut Pass<P>,
        entry: Shared<Entry>,
    ) -> Result<ShardReply, ShardFault>
        ensures received { IfOk result (λ reply. (place : ℕ) × HasReceived pass.old (receipt_of (shard_of entry.labels self.now.shards) place (record { step = steps.Push entry; reply = reply }) ∷ []) pass.new) }
        ensures err { OnErr result (HasKept pass.old pass.new) }
    {
        pass.reserve(1, 0)?;
        let number = shard_of(&entry.get().labels, self.desks.len());
        let (_place, reply) = self.desks.apply(rt, pass, number, ShardStep::Push(entry))?;
        Ok(reply)
    }

    /// Seals the heads of all streams, in one shard after the other. The reply of each.
    pub fn cut<R: Wait>(
        &self,
        rt: &R,
        pass: &mut Pass<P>,
    ) -> Result<PlainList<ShardReply>, AllFault>
        ensures decided { AreDecided self.now.shards steps.Cut pass.old result pass.new }
    {
        self.ask_all(rt, pass, &ShardStep::Cut)
    }

    /// Writes the sealed chunks to the stores, in one shard after the other. The reply of each.
    pub fn flush<R: Wait>(
        &self,
        rt: &R,
        pass: &mut Pass<P>,
    ) -> Result<PlainList<ShardReply>, AllFault>
        ensures decided { AreDecided self.now.shards steps.Flush pass.old result pass.new }
    {
        self.ask_all(rt, pass, &ShardStep::Flush)
    }

    /// Hands a request to delete entries to one shard after the other. The reply of each.
    pub fn delete<R: Wait>(
        &self,
        rt: &R,
        pass: &mut Pass<P>,
        deletion: Deletion<SieveText>,
    ) -> Result<PlainList<ShardReply>, AllFault>
        ensures decided { AreDecided self.now.shards (steps.Delete deletion) pass.old result pass.new }
    {
        self.ask_all(rt, pass, &ShardStep::Delete(deletion))
    }

    /// Cancels a request in one shard after the other. The reply of each.
    pub fn cancel<R: Wait>(
        &self,
        rt: &R,
        pass: &mut Pass<P>,
        id: u64,
    ) -> Result<PlainList<ShardReply>, AllFault>
        ensures decided { AreDecided self.now.shards (steps.Cancel id) pass.old result pass.new }
    {
        self.ask_all(rt, pass, &ShardStep::Cancel { id })
    }

    /// Removes what a request covers from one shard after the other. The reply of each.
    pub fn process<R: Wait>(
        &self,
        rt: &R,
        pass: &mut Pass<P>,
        id: u64,
        now: Ns,
    ) -> Result<PlainList<ShardReply>, AllFault>
        ensures decided { AreDecided self.now.shards (steps.Process id now) pass.old result pass.new }
    {
        self.ask_all(rt, pass, &ShardStep::Process { id, now })
    }

    /// Removes what retention does not keep at a moment from one shard after the other. The reply of each.
    pub fn retain<R: Wait>(
        &self,
        rt: &R,
        pass: &mut Pass<P>,
        now: Ns,
    ) -> Result<PlainList<ShardReply>, AllFault>
        ensures decided { AreDecided self.now.shards (steps.Retain now) pass.old result pass.new }
    {
        self.ask_all(rt, pass, &ShardStep::Retain { now })
    }

    /// Replaces a group by one of the same name. Rules that stay keep their alerts.
    pub fn edit<R: Wait>(
        &self,
        rt: &R,
        pass: &mut Pass<P>,
        group: usize,
        to: Group,
    ) -> Result<(), EditFault>
        ensures noted { OnOk result (IsNoted group to pass.old pass.new) }
        ensures err { OnErr result (HasKept pass.old pass.new) }
        ensures no_such { self.now.groups ≤ group → IfErr result (λ fault. fault ≡ edits.NoSuch) × IfOk result (λ _. ⊥) }
    {
        if group >= self.seats.len() {
            return Err(EditFault::NoSuch);
        }
        let Ok(to) = Shared::new(self.alloc, to) else {
            return Err(EditFault::Memory);
        };
        let Ok(()) = pass.reserve(0, 1) else {
            return Err(EditFault::Memory);
        };
        let Ok(copy) = to.try_copy() else {
            return Err(EditFault::Memory);
        };
        let index = edit(&mut self.seats[group].lock(rt).book, to)?;
        pass.note(Note::Edited {
            group,
            index,
            to: copy,
        });
        Ok(())
    }

    /// Evaluates a group at a moment, on what each shard shows when it is asked, in their order.
    pub fn evaluate<R: Wait>(
        &self,
        rt: &R,
        pass: &mut Pass<P>,
        group: usize,
        t: Ns,
    ) -> Result<Committed, EvaluationFault>
        ensures evaluated { IfOk result (λ committed. IsEvaluated self.now.shards group t pass.old committed pass.new) }
        ensures refused { IfErr result (λ fault. IsRefused fault self.now.shards t pass.old pass.new) }
        ensures no_such { self.now.groups ≤ group → IfErr result (λ fault. fault ≡ evaluations.NoSuch) × IfOk result (λ _. ⊥) }
    {
        if group >= self.seats.len() {
            return Err(EvaluationFault::NoSuch);
        }
        let Ok(()) = pass.reserve(self.desks.len(), 1) else {
            return Err(EvaluationFault::Memory);
        };
        let mut seat = self.seats[group].lock(rt);
        let committed = evaluate(rt, &mut seat.book, &self.desks, pass, t)?;
        pass.note(note_of(group, &committed));
        Ok(committed)
    }

    /// Pumps the sinks of a group, then offers each what it has not taken. The sinks that refused, by their numbers.
    pub fn catch_up<R: Wait>(&self, rt: &R, group: usize) -> Result<PlainList<u64>, GroupFault>
        ensures no_such { self.now.groups ≤ group → IfErr result (λ fault. fault ≡ group_faults.NoSuch) × IfOk result (λ _. ⊥) }
    {
        if group >= self.seats.len() {
            return Err(GroupFault::NoSuch);
        }
        let mut seat = self.seats[group].lock(rt);
        match seat.book.catch_up() {
            Ok(behind) => Ok(behind),
            Err(_error) => Err(GroupFault::Memory),
        }
    }

    /// Whether an evaluation of a group is due, as its book has it then. False where there is no such group.
    pub fn is_due<R: Wait>(&self, rt: &R, group: usize, now: Ns) -> bool {
        if group >= self.seats.len() {
            return false;
        }
        let seat = self.seats[group].lock(rt);
        seat.book.due(now)
    }

    /// How many texts a sink of a group has taken, if there is such a sink.
    pub fn sink_count<R: Wait>(&self, rt: &R, group: usize, sink: usize) -> Option<u64> {
        if group >= self.seats.len() {
            return None;
        }
        let seat = self.seats[group].lock(rt);
        seat.book.sink_count(sink)
    }

    /// A copy of a text that a sink of a group keeps, counted from 0, the oldest first, if there is one.
    pub fn sink_text<R: Wait>(
        &self,
        rt: &R,
        group: usize,
        sink: usize,
        index: u64,
    ) -> Result<Option<String>, AllocError> {
        if group >= self.seats.len() {
            return Ok(None);
        }
        let seat = self.seats[group].lock(rt);
        match seat.book.sink_text(sink, index) {
            Some(text) => Ok(Some(String::from_str(self.alloc, text)?)),
            None => Ok(None),
        }
    }

    /// Asks one shard after the other for a step. The reply of each.
    pub fn ask_all<R: Wait>(
        &self,
        rt: &R,
        pass: &mut Pass<P>,
        step: &ShardStep,
    ) -> Result<PlainList<ShardReply>, AllFault>
        ensures decided { AreDecided self.now.shards step.now pass.old result pass.new }
    {
        let shards = self.desks.len();
        let Ok(mut replies) = Vec::with_capacity(self.alloc, shards) else {
            return Err(AllFault::Memory);
        };
        let Ok(()) = pass.reserve(shards, 0) else {
            return Err(AllFault::Memory);
        };
        for number in 0..shards {
            let reply = self.ask_one(rt, pass, number, step)?;
            replies.push_reserved(reply);
        }
        Ok(PlainList::from_vec(replies))
    }

    // Asks a shard for a step, after those that decided it.
    fn ask_one<R: Wait>(
        &self,
        rt: &R,
        pass: &mut Pass<P>,
        number: usize,
        step: &ShardStep,
    ) -> Result<ShardReply, AllFault>
        requires there { number < self.now.shards }
        requires room { 0 < pass.old.receipt_room }
        ensures received { IfOk result (λ reply. (place : ℕ) × HasAdded pass.old (receipt_of number place (record { step = step.now; reply = reply })) pass.new) }
        ensures err { IfErr result (λ fault. (why : ShardFault) × (fault ≡ all_faults.Partly number why) × (pass.new ≡ pass.old)) }
    {
        let done = number;
        let Ok(step) = step.try_copy() else {
            let fault = ShardFault::Memory;
            return Err(AllFault::Partly { done, fault });
        };
        match self.desks.apply(rt, pass, number, step) {
            Ok((_place, reply)) => Ok(reply),
            Err(fault) => Err(AllFault::Partly { done, fault }),
        }
    }
}

// A ruler of as many shards and callers as there may be, with a list of sinks for each group.
fn open_counted<D: Store, S: Sink, L: Crew, P: Crew>(
    alloc: Global,
    limits: Limits,
    stores: Vec<D>,
    books: (Vec<Group>, Vec<Vec<S>>),
    callers: usize,
    blanks: (Blank, Blank),
) -> Result<(Ruler<D, S, L, P>, Vec<Pass<P>>), AllocError>
    requires names { (blanks.0.name ≡ L.name) × (blanks.1.name ≡ P.name) }
    requires shards { (blanks.0.parts ≡ L.parts) × (L.parts ≡ L.all) × (L.all ≡ length stores.items) }
    requires callers { (blanks.1.parts ≡ P.parts) × (P.parts ≡ P.all) × (P.all ≡ callers) }
    requires fresh { AllByRecursion (λ own. AllByRecursion IsFresh (map S.state own.items)) books.1.items }
    requires few { (1 ≤ length stores.items) × (length stores.items ≤ 16) }
    requires lists { length books.1.items ≡ length books.0.items }
    ensures ruler { IfOk result (λ opened. opened.0 ≡ record { shards = length stores.items; groups = length books.0.items; callers = callers }) }
    ensures passes { IfOk result (λ opened. (length opened.1.items ≡ callers) × AllByRecursion (λ pass. (pass.receipts ≡ []) × (pass.notes ≡ [])) opened.1.items) }
{
    let (groups, sinks) = books;
    let (records, receipts) = blanks;
    let world = World::open(alloc, limits, stores, groups, sinks)?;
    let (shards, books) = world.into_parts();
    let (passes, sums) = open_passes(alloc, callers, receipts)?;
    let desks = open_desks(alloc, shards, records, sums)?;
    let seats = open_seats(alloc, books)?;
    let ruler = Ruler {
        alloc,
        desks,
        seats,
        callers,
    };
    Ok((ruler, passes))
}
