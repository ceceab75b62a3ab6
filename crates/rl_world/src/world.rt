//! A world: shards and books, by lists of steps.
ghost use Rattle.std.specs.Prelude.{◌≡◌, ◌+◌, ◌-◌, ◌^◌, ◌≤◌, ◌++◌, map, min, length, slice_get, vec_capacity, IsOk, IfOk, OnOk, OnErr};
ghost use Rattle.std.specs.List.{AllByRecursion, AllZip};
ghost use Rattle.std.specs.Option.{option_copied};
ghost use Rattle.rl_world.specs.BookCalls.{books_from, IsFresh};
ghost use Rattle.rl_world.specs.Closed.{HasAnswered, IsBookClosed, failures, sinks_of};
ghost use Rattle.rl_world.specs.ShardAnswers.{most_shards};
ghost use Rattle.rl_shard.specs.ShardState.{opened_over};

use crate::book::Book;
use crate::fault::Refusal;
use crate::parts::WorldParts;
use crate::step::{Committed, Reply, Step};
use rl_chunks::Store;
use rl_labels::{Limits, Ns};
use rl_plain::PlainList;
use rl_rules::Group;
use rl_shard::{Shard, ShardReply, ShardStep};
use rl_sinks::Sink;
use std::alloc::{AllocError, Global};
use std::marker::Model;
use std::mem;

/// Shards, and a book for each rule group. The numbers of both are counted from 0. Contracts see a `WorldBooks`.
#[derive(Drop)]
pub struct World<D: Store, S: Sink> {
    parts: WorldParts<D, S>,
}

impl<D: Store, S: Sink> Model for World<D, S> {
    ghost use Rattle.rl_world.specs.WorldState.{WorldBooks};

    ghost Value = { WorldBooks };

    ghost use Rattle.std.specs.Coded.{codes};
    ghost use Rattle.rl_labels.specs.LabelSet.{label_set_code};
    ghost use Rattle.rl_aggregate.specs.contracts.totals.Totals as totals_type;
    ghost use Rattle.rl_query.specs.contracts.label_test.LabelTests as tests_type;
    ghost use Rattle.rl_shard.specs.ShardState.{shard_view_code};

    ghost coded = { Prim.hlevel (codes, label_set_code, totals_type.the_row.coded, tests_type.the_row.coded, shard_view_code) };

    ghost view = { λ a. record { shards = a.parts.shards.items; books = a.parts.books.items } };
}

impl<D: Store, S: Sink> World<D, S> {
    ghost use Rattle.rl_world.specs.Listings.{SinksFollow};
    ghost use Rattle.rl_world.specs.ShardsTurn.{AreHonest};
    ghost use Rattle.rl_world.specs.Reads.{ReadsThrough};
    ghost use Rattle.rl_world.specs.Stores.{StoresFollow};
    ghost use Rattle.rl_world.specs.WorldRun.{Turned, Ran, Replays, gained};
    ghost use Rattle.rl_world.specs.WorldState.{world_of, StandsForSome, TookPrefixes};
    ghost use Rattle.rl_world.specs.WorldStep.{as_reply};
    ghost use Rattle.rl_world.specs.declared.step.Reply.TheVariants as replies;
    ghost use Rattle.rl_world.specs.declared.step.Step.TheVariants as steps;

    /// A world with an empty shard over each store, and a book for each group with its sinks. The sinks have taken nothing.
    pub fn open(
        alloc: Global,
        limits: Limits,
        stores: Vec<D>,
        groups: Vec<Group>,
        sinks: Vec<Vec<S>>,
    ) -> Result<Self, AllocError>
        requires shards { length stores.items ≤ most_shards }
        requires lists { length sinks.items ≡ length groups.items }
        requires fresh { AllByRecursion (λ own. AllByRecursion IsFresh (map S.state own.items)) sinks.items }
        ensures shards { IfOk result (λ world. world.shards ≡ map (λ store. opened_over limits (D.seen store)) stores.items) }
        ensures books { IfOk result (λ world. world.books ≡ books_from 0 limits.records (length stores.items) groups.items (map (λ own. map S.state own.items) sinks.items)) }
        ensures shown { IfOk result (λ world. StandsForSome (world_of world.shards world.books)) }
    {
        let books = open_books(alloc, limits.records, stores.len(), groups, sinks)?;
        let shards = open_shards(alloc, limits, stores)?;
        Ok(World {
            parts: WorldParts { shards, books },
        })
    }

    /// Answers one step, in one turn, as the call of its kind does.
    pub fn answer(&mut self, step: Step) -> Reply
        ensures turned { Turned self.old step result self.new }
        ensures prefixes { AllByRecursion TookPrefixes self.new.books }
    {
        match step {
            Step::Shard { number, step } => match self.ask(number, step) {
                Ok((place, reply)) => Reply::Decided { place, reply },
                Err(refusal) => Reply::Refused(refusal),
            },
            Step::Edit { group, to } => match self.edit(group, to) {
                Ok(place) => Reply::Edited { place },
                Err(refusal) => Reply::Refused(refusal),
            },
            Step::Begin { group, t } => match self.begin(group, t) {
                Ok(()) => Reply::Begun,
                Err(refusal) => Reply::Refused(refusal),
            },
            Step::Gather { group, number } => match self.gather(group, number) {
                Ok(place) => Reply::Gathered { place },
                Err(refusal) => Reply::Refused(refusal),
            },
            Step::Commit { group } => match self.commit(group) {
                Ok(committed) => Reply::Committed(committed),
                Err(refusal) => Reply::Refused(refusal),
            },
            Step::Abandon { group } => match self.abandon(group) {
                Ok(()) => Reply::Abandoned,
                Err(refusal) => Reply::Refused(refusal),
            },
            Step::CatchUp { group } => match self.catch_up(group) {
                Ok(behind) => Reply::CaughtUp { behind },
                Err(refusal) => Reply::Refused(refusal),
            },
        }
    }

    /// A step of one shard: its place in the shard's journal, and the reply.
    pub fn ask(&mut self, number: usize, step: ShardStep) -> Result<(u64, ShardReply), Refusal>
        ensures turned { Turned self.old (steps.Shard number step) (as_reply (λ answer. replies.Decided answer.0 answer.1) result) self.new }
        ensures prefixes { AllByRecursion TookPrefixes self.new.books }
    {
        self.parts.shard(number, step)
    }

    /// Replaces the group by another one under its name: the edit's index in the history. Rules that stay keep their alerts.
    pub fn edit(&mut self, group: usize, to: Group) -> Result<u64, Refusal>
        ensures turned { Turned self.old (steps.Edit group to) (as_reply replies.Edited result) self.new }
        ensures prefixes { AllByRecursion TookPrefixes self.new.books }
    {
        self.parts.edit(group, to)
    }

    /// Opens an evaluation of the group at a moment.
    pub fn begin(&mut self, group: usize, t: Ns) -> Result<(), Refusal>
        ensures turned { Turned self.old (steps.Begin group t) (as_reply (λ _. replies.Begun) result) self.new }
        ensures prefixes { AllByRecursion TookPrefixes self.new.books }
    {
        self.parts.begin(group, t)
    }

    /// Asks a shard, for the open evaluation of the group: the question's place in the shard's journal.
    pub fn gather(&mut self, group: usize, number: usize) -> Result<u64, Refusal>
        ensures turned { Turned self.old (steps.Gather group number) (as_reply replies.Gathered result) self.new }
        ensures prefixes { AllByRecursion TookPrefixes self.new.books }
    {
        self.parts.gather(group, number)
    }

    /// Evaluates the group on what its shards showed, and offers its sinks what they have not taken.
    pub fn commit(&mut self, group: usize) -> Result<Committed, Refusal>
        ensures turned { Turned self.old (steps.Commit group) (as_reply replies.Committed result) self.new }
        ensures prefixes { AllByRecursion TookPrefixes self.new.books }
    {
        self.parts.commit(group)
    }

    /// Closes the open evaluation of the group, of which nothing is left.
    pub fn abandon(&mut self, group: usize) -> Result<(), Refusal>
        ensures turned { Turned self.old (steps.Abandon group) (as_reply (λ _. replies.Abandoned) result) self.new }
        ensures prefixes { AllByRecursion TookPrefixes self.new.books }
    {
        self.parts.abandon(group)
    }

    /// Pumps each sink of the group, then offers it what it has not taken: the numbers of those that refused.
    pub fn catch_up(&mut self, group: usize) -> Result<PlainList<u64>, Refusal>
        ensures turned { Turned self.old (steps.CatchUp group) (as_reply replies.CaughtUp result) self.new }
        ensures prefixes { AllByRecursion TookPrefixes self.new.books }
    {
        self.parts.catch_up(group)
    }

    /// Answers each step in order, with one reply at the end of `out`. With no room for all replies it does nothing.
    pub fn run(&mut self, steps: Vec<Step>, out: &mut Vec<Reply>) -> Result<(), AllocError>
        ensures memory { OnErr result ((self.new ≡ self.old) × (out.new.items ≡ out.old.items)) }
        ensures room { length out.old.items + length steps.items ≤ vec_capacity out.old → IsOk result }
        ensures capacity { vec_capacity out.old ≤ vec_capacity out.new }
        ensures replies { OnOk result (out.new.items ≡ out.old.items ++ gained out.old.items out.new.items) }
        ensures ran { OnOk result (Ran self.old steps.items (gained out.old.items out.new.items) self.new) }
        ensures replays { AreHonest self.old.shards → OnOk result (Replays self.old steps.items (gained out.old.items out.new.items) self.new) }
        ensures reads { OnOk result (ReadsThrough self.old steps.items (gained out.old.items out.new.items) self.new) }
        ensures stores { OnOk result (StoresFollow self.old.shards steps.items (gained out.old.items out.new.items) self.new.shards) }
        ensures follows { OnOk result (SinksFollow self.old.books steps.items (gained out.old.items out.new.items) self.new.books) }
        ensures prefixes { AllByRecursion TookPrefixes self.new.books }
    {
        let _parts = &self.parts;
        self.answer_all(steps, out)?;
        Ok(())
    }

    // Answers each step, turn by turn.
    fn answer_all(&mut self, steps: Vec<Step>, out: &mut Vec<Reply>) -> Result<(), AllocError>
        ensures memory { OnErr result ((self.new ≡ self.old) × (out.new.items ≡ out.old.items)) }
        ensures room { length out.old.items + length steps.items ≤ vec_capacity out.old → IsOk result }
        ensures capacity { vec_capacity out.old ≤ vec_capacity out.new }
        ensures replies { OnOk result (out.new.items ≡ out.old.items ++ gained out.old.items out.new.items) }
        ensures turns { OnOk result (Ran self.old steps.items (gained out.old.items out.new.items) self.new) }
        ensures prefixes { AllByRecursion TookPrefixes self.old.books → AllByRecursion TookPrefixes self.new.books }
    {
        out.reserve(steps.len())?;
        for step in steps {
            let reply = self.answer(step);
            out.push_reserved(reply);
        }
        Ok(())
    }

    /// How many shards it has.
    pub fn shards(&self) -> usize
        ensures { result ≡ length self.now.shards }
    {
        self.parts.shards.len()
    }

    /// A shard by its number.
    pub fn shard(&self, number: usize) -> Option<&Shard<D>>
        ensures { option_copied result ≡ slice_get self.now.shards number }
    {
        self.parts.shards.get(number)
    }

    /// How many groups it has.
    pub fn groups(&self) -> usize
        ensures { result ≡ length self.now.books }
    {
        self.parts.books.len()
    }

    /// The book of a group by its number.
    pub fn book(&self, group: usize) -> Option<&Book<S>>
        ensures { option_copied result ≡ slice_get self.now.books group }
    {
        self.parts.books.get(group)
    }

    /// Closes the sinks of each group in order. How many could not write all.
    pub fn close_sinks(&mut self) -> u64
        ensures closed { (self.new.shards ≡ self.old.shards) × AllZip IsBookClosed self.old.books self.new.books }
        ensures counted { result ≡ min (failures (sinks_of self.new.books)) (2 ^ 64 - 1) }
        ensures answers { AllByRecursion (HasAnswered S.state S.close_answers) (sinks_of self.new.books) }
    {
        self.parts.close_sinks()
    }

    /// The shards and the books.
    pub fn into_parts(self) -> (Vec<Shard<D>>, Vec<Book<S>>)
        ensures shards { result.0.items ≡ self.shards }
        ensures books { result.1.items ≡ self.books }
    {
        let WorldParts { shards, books } = self.parts;
        (shards, books)
    }

    /// The books. The shards are let go as they stand and are not taken apart, so their memory is given back with the process
    /// alone.
    pub fn into_books(self) -> Vec<Book<S>>
        ensures { result.items ≡ self.books }
    {
        let WorldParts { shards, books } = self.parts;
        mem::forget(shards);
        books
    }
}

// An empty shard over each store.
fn open_shards<D: Store>(
    alloc: Global,
    limits: Limits,
    stores: Vec<D>,
) -> Result<Vec<Shard<D>>, AllocError>
    ensures { IfOk result (λ shards. shards.items ≡ map (λ store. opened_over limits (D.seen store)) stores.items) }
{
    let mut shards = Vec::with_capacity(alloc, stores.len())?;
    for store in stores {
        shards.push(Shard::open(alloc, store, limits))?;
    }
    Ok(shards)
}

// A book for each group, with the sinks at the group's index.
fn open_books<S: Sink>(
    alloc: Global,
    records: u64,
    shards: usize,
    groups: Vec<Group>,
    sinks: Vec<Vec<S>>,
) -> Result<Vec<Book<S>>, AllocError>
    requires shards { shards ≤ most_shards }
    requires records { records ≤ 1048576 }
    requires lists { length sinks.items ≡ length groups.items }
    requires fresh { AllByRecursion (λ own. AllByRecursion IsFresh (map S.state own.items)) sinks.items }
    ensures { IfOk result (λ books. books.items ≡ books_from 0 records shards groups.items (map (λ own. map S.state own.items) sinks.items)) }
{
    let mut books = Vec::with_capacity(alloc, groups.len())?;
    for (group, own) in groups.into_iter().zip(sinks) {
        let slot = books.len() as u64;
        let book = Book::open(alloc, group, slot, shards, own, records)?;
        books.push(book)?;
    }
    Ok(books)
}
