//! What a world does at each kind of step.
ghost use Rattle.std.specs.Prelude.{◌≡◌, ◌+◌, ◌≤◌, length, IfOk, IfErr, OnOk, OnErr};
ghost use Rattle.rl_labels.specs.Name.{is_text};
ghost use Rattle.rl_chunks.specs.StoreState.{greatest};
ghost use Rattle.rl_parts.specs.StoreUse.{Grown};
ghost use Rattle.rl_shard.specs.ShardFault.{Gives, IsHonest, MayCome, Stored};
ghost use Rattle.rl_shard.specs.ShardState.{journalled, visible};
ghost use Rattle.rl_shard.specs.ShardStep.{recorded};
ghost use Rattle.rl_records.specs.declared.step.ShardReply.TheVariants as shard_replies;
ghost use Rattle.rl_records.specs.declared.step.ShardStep.TheVariants as shard_steps;
ghost use Rattle.rl_world.specs.Kept.{partials_of};
ghost use Rattle.rl_world.specs.ShardsTurn.{AreHonest, Decides, ShardsTurn};
ghost use Rattle.rl_world.specs.ShardAnswers.{AreOfOneShard};
ghost use Rattle.rl_world.specs.WorldRun.{SinkStep};
ghost use Rattle.rl_world.specs.WorldState.{seen_as, world_of};
ghost use Rattle.rl_world.specs.WorldStep.{WorldStep, IfRefused, IsRefused, partials, refusal_of_shard, refusal_of_book, as_reply};
ghost use Rattle.rl_world.specs.declared.step.Reply.TheVariants as replies;
ghost use Rattle.rl_world.specs.declared.step.Step.TheVariants as steps;

use crate::fault::{BookError, Refusal};
use crate::parts::WorldParts;
use crate::step::Committed;
use rl_aggregate::Partial;
use rl_chunks::Store;
use rl_labels::Ns;
use rl_plain::{PlainList, Shared, TryCopy};
use rl_records::Terms;
use rl_rules::Group;
use rl_shard::{Shard, ShardFault, ShardReply, ShardStep};
use rl_sinks::Sink;

impl<D: Store, S: Sink> WorldParts<D, S> {
    // A shard decides a step.
    pub(crate) fn shard(
        &mut self,
        number: usize,
        step: ShardStep,
    ) -> Result<(u64, ShardReply), Refusal>
        ensures refused { IfRefused (as_reply (λ answer. replies.Decided answer.0 answer.1) result) (λ refusal. IsRefused (world_of self.old.shards.items self.old.books.items) (steps.Shard number step) refusal (world_of self.new.shards.items self.new.books.items)) }
        ensures step { AreHonest self.old.shards.items → WorldStep partials (world_of self.old.shards.items self.old.books.items) (steps.Shard number step) (as_reply (λ answer. replies.Decided answer.0 answer.1) result) (world_of self.new.shards.items self.new.books.items) }
        ensures sinks { SinkStep self.old.books.items (steps.Shard number step) (as_reply (λ answer. replies.Decided answer.0 answer.1) result) self.new.books.items }
        ensures stores { ShardsTurn (seen_as self.old.shards.items self.old.books.items) (steps.Shard number step) (as_reply (λ answer. replies.Decided answer.0 answer.1) result) (seen_as self.new.shards.items self.new.books.items) }
    {
        if number >= self.shards.len() {
            return Err(Refusal::NoSuch);
        }
        let shard = &mut self.shards[number];
        match shard.apply(step) {
            Ok((place, reply)) => Ok((place, reply)),
            Err(fault) => Err(refusal_of_shard(fault)),
        }
    }

    // A group is edited under its own name.
    pub(crate) fn edit(&mut self, group: usize, to: Group) -> Result<u64, Refusal>
        ensures step { WorldStep partials (world_of self.old.shards.items self.old.books.items) (steps.Edit group to) (as_reply replies.Edited result) (world_of self.new.shards.items self.new.books.items) }
        ensures sinks { SinkStep self.old.books.items (steps.Edit group to) (as_reply replies.Edited result) self.new.books.items }
        ensures shards { self.new.shards.items ≡ self.old.shards.items }
    {
        if group >= self.books.len() {
            return Err(Refusal::NoSuch);
        }
        if !is_same_name(&to, self.books[group].group()) {
            return Err(Refusal::NoSuch);
        }
        let book = &mut self.books[group];
        match book.edit_own(to) {
            Ok(place) => Ok(place),
            Err(error) => Err(refusal_of_book(error)),
        }
    }

    // A group opens an evaluation.
    pub(crate) fn begin(&mut self, group: usize, t: Ns) -> Result<(), Refusal>
        ensures step { WorldStep partials (world_of self.old.shards.items self.old.books.items) (steps.Begin group t) (as_reply (λ _. replies.Begun) result) (world_of self.new.shards.items self.new.books.items) }
        ensures sinks { SinkStep self.old.books.items (steps.Begin group t) (as_reply (λ _. replies.Begun) result) self.new.books.items }
        ensures shards { self.new.shards.items ≡ self.old.shards.items }
    {
        if group >= self.books.len() {
            return Err(Refusal::NoSuch);
        }
        let book = &mut self.books[group];
        match book.begin(t) {
            Ok(()) => Ok(()),
            Err(error) => Err(refusal_of_book(error)),
        }
    }

    // A shard is asked for the open evaluation of a group.
    pub(crate) fn gather(&mut self, group: usize, number: usize) -> Result<u64, Refusal>
        ensures refused { IfRefused (as_reply replies.Gathered result) (λ refusal. IsRefused (world_of self.old.shards.items self.old.books.items) (steps.Gather group number) refusal (world_of self.new.shards.items self.new.books.items)) }
        ensures step { AreHonest self.old.shards.items → WorldStep partials (world_of self.old.shards.items self.old.books.items) (steps.Gather group number) (as_reply replies.Gathered result) (world_of self.new.shards.items self.new.books.items) }
        ensures sinks { SinkStep self.old.books.items (steps.Gather group number) (as_reply replies.Gathered result) self.new.books.items }
        ensures stores { ShardsTurn (seen_as self.old.shards.items self.old.books.items) (steps.Gather group number) (as_reply replies.Gathered result) (seen_as self.new.shards.items self.new.books.items) }
    {
        if group >= self.books.len() || number >= self.shards.len() {
            return Err(Refusal::NoSuch);
        }
        let book = &self.books[group];
        let t = match book.asks(number) {
            Ok(t) => t,
            Err(fault) => return Err(Refusal::Book(fault)),
        };
        if self.shards[number].is_journal_full() {
            return Err(Refusal::JournalFull);
        }
        let Ok(terms) = book.terms().try_copy() else {
            return Err(Refusal::Memory);
        };
        let (place, shown) = match ask(&mut self.shards[number], group as u64, terms, t) {
            Ok(answer) => answer,
            Err(fault) => return Err(refusal_of_shard(fault)),
        };
        let book = &mut self.books[group];
        match book.put_partials(number, place, shown) {
            Ok(()) => Ok(place),
            Err(fault) => Err(Refusal::Book(fault)),
        }
    }

    // A group closes its evaluation.
    pub(crate) fn commit(&mut self, group: usize) -> Result<Committed, Refusal>
        ensures step { WorldStep partials (world_of self.old.shards.items self.old.books.items) (steps.Commit group) (as_reply replies.Committed result) (world_of self.new.shards.items self.new.books.items) }
        ensures sinks { SinkStep self.old.books.items (steps.Commit group) (as_reply replies.Committed result) self.new.books.items }
        ensures shards { self.new.shards.items ≡ self.old.shards.items }
    {
        if group >= self.books.len() {
            return Err(Refusal::NoSuch);
        }
        let book = &mut self.books[group];
        match book.commit() {
            Ok(answer) => Ok(answer),
            Err(error) => Err(refusal_of_book(error)),
        }
    }

    // A group closes its evaluation, of which nothing is left.
    pub(crate) fn abandon(&mut self, group: usize) -> Result<(), Refusal>
        ensures step { WorldStep partials (world_of self.old.shards.items self.old.books.items) (steps.Abandon group) (as_reply (λ _. replies.Abandoned) result) (world_of self.new.shards.items self.new.books.items) }
        ensures sinks { SinkStep self.old.books.items (steps.Abandon group) (as_reply (λ _. replies.Abandoned) result) self.new.books.items }
        ensures shards { self.new.shards.items ≡ self.old.shards.items }
    {
        if group >= self.books.len() {
            return Err(Refusal::NoSuch);
        }
        let book = &mut self.books[group];
        match book.abandon() {
            Ok(()) => Ok(()),
            Err(fault) => Err(Refusal::Book(fault)),
        }
    }

    // A group's sinks catch up.
    pub(crate) fn catch_up(&mut self, group: usize) -> Result<PlainList<u64>, Refusal>
        ensures step { WorldStep partials (world_of self.old.shards.items self.old.books.items) (steps.CatchUp group) (as_reply replies.CaughtUp result) (world_of self.new.shards.items self.new.books.items) }
        ensures sinks { SinkStep self.old.books.items (steps.CatchUp group) (as_reply replies.CaughtUp result) self.new.books.items }
        ensures shards { self.new.shards.items ≡ self.old.shards.items }
    {
        if group >= self.books.len() {
            return Err(Refusal::NoSuch);
        }
        let book = &mut self.books[group];
        match book.catch_up() {
            Ok(behind) => Ok(behind),
            Err(_error) => Err(Refusal::Memory),
        }
    }
}

// Asks a shard what it shows of the terms at the moment: the place of the question in its journal, and the partials.
fn ask<D: Store>(
    shard: &mut Shard<D>,
    slot: u64,
    terms: Terms,
    t: Ns,
) -> Result<(u64, PlainList<Shared<Partial>>), ShardFault>
    ensures may_come { IfErr result (λ fault. MayCome shard.old (shard_steps.Collect slot terms t) fault shard.new) }
    ensures grown { OnErr result (Grown shard.old.streams.seen shard.old.streams.next (shard.new.streams.next + 1) shard.new.streams.seen) }
    ensures gives { Gives (shard_steps.Collect slot terms t) shard.old.streams shard.new.streams }
    ensures kept { OnErr result (journalled shard.new ≡ journalled shard.old) }
    ensures stored { Stored shard.old.streams shard.new.streams }
    ensures numbers { shard.new.streams.next ≤ greatest }
    ensures decides { IfOk result (λ answer. Decides answer.0 (shard_steps.Collect slot terms t) (shard_replies.Collected answer.1) shard.old shard.new) }
    ensures one_shard { IfOk result (λ answer. AreOfOneShard (length terms) answer.1) }
    ensures shown { IsHonest shard.old → IfOk result (λ answer. answer.1 ≡ partials_of (visible (journalled shard.old).state) terms t) }
    ensures changed { IsHonest shard.old → OnOk result (journalled shard.new ≡ recorded (journalled shard.old) (shard_steps.Collect slot terms t)) }
{
    let (place, reply) = shard.apply(ShardStep::Collect { slot, terms, t })?;
    match reply {
        ShardReply::Collected(partials) => Ok((place, partials)),
        _ => unreachable!(),
    }
}

/// Whether two groups have one name.
pub fn is_same_name(one: &Group, other: &Group) -> bool
    ensures { result ≡ is_text one.now.name other.now.name }
{
    one.name.as_str() == other.name.as_str()
}

/// A fault of a shard, as a world reports it.
pub fn refusal_of_shard(fault: ShardFault) -> Refusal
    ensures { result ≡ refusal_of_shard fault }
{
    match fault {
        ShardFault::JournalFull => Refusal::JournalFull,
        ShardFault::Fault => Refusal::Fault,
        ShardFault::Damaged => Refusal::Damaged,
        ShardFault::NumbersSpent => Refusal::NumbersSpent,
        ShardFault::Memory => Refusal::Memory,
    }
}

// A refusal of a book, as a world reports it.
fn refusal_of_book(error: BookError) -> Refusal
    ensures { result ≡ refusal_of_book error }
{
    match error {
        BookError::Fault(fault) => Refusal::Book(fault),
        BookError::Memory => Refusal::Memory,
    }
}
