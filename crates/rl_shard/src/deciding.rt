//! What becomes of each step.
ghost use Rattle.std.specs.Prelude.{◌≡◌, ◌≤◌, ◌+◌, ℕ, List, None, true, IfErr, IfOk, IsErrOf, OnErr, OnOk};
ghost use Rattle.rl_chunks.specs.StoreState.{greatest};
ghost use Rattle.rl_parts.specs.StoreUse.{IsGrown, after_flush};
ghost use Rattle.rl_parts.specs.declared.fault.FlushFault.TheVariants as flushes;
ghost use Rattle.rl_slots.specs.Slots.{collected_in, term_count, IsLiveIn};
ghost use Rattle.rl_query.specs.declared.query.Term.{Term};
ghost use Rattle.rl_streams.specs.StreamsState.{age_refusal, Cuts, Flushes};
ghost use Rattle.rl_shard.specs.Collecting.{IsOfReading};
ghost use Rattle.rl_records.specs.Replies.{IsPlain};
ghost use Rattle.rl_shard.specs.Decisions.{first_of, reply_of, IsChange};
ghost use Rattle.rl_shard.specs.Deciding.{Decides, Lasts, Refuses};
ghost use Rattle.rl_shard.specs.Pushing.{is_taken, unsought, IsOfPush, IsPushed, Pushes};
ghost use Rattle.rl_shard.specs.ShardFault.{GivesNone, IsOfDeciding, IsOfStore, IsUndecided, LeavesStore, after_step, refused};
ghost use Rattle.rl_shard.specs.ShardState.{state_of};
ghost use Rattle.rl_shard.specs.ShardStep.{age_answer, push_reply, pushed, IsAnswered};
ghost use Rattle.rl_records.specs.declared.step.ShardStep.TheVariants as steps;

use crate::parts::ShardParts;
use crate::pushing::{let_in, settle};
use crate::step::ShardFault;
use rl_chunks::Store;
use rl_deletes::Deletion;
use rl_labels::{Entry, Ns};
use rl_parts::FlushFault;
use rl_plain::{Shared, TryCopy};
use rl_query::Sieve;
use rl_records::{Record, ShardReply, ShardStep, SieveText};
use rl_streams::{AddRefusal, Streams};
use std::alloc::AllocError;

// The reply to a step, and its record.
#[derive(Drop)]
pub(crate) struct Decision {
    pub(crate) reply: ShardReply,
    pub(crate) kept: Record,
}

// The reply to a step, and a copy of it for its record.
#[derive(Drop)]
struct TwoReplies {
    reply: ShardReply,
    kept: ShardReply,
}

impl<S: Store> ShardParts<S> {
    // What becomes of a step: its reply, and its record. Where no memory is left for the record nothing is decided.
    pub(crate) fn decide(&mut self, step: ShardStep) -> Result<Decision, ShardFault>
        ensures decides { Decides step self.old (reply_of result) self.new }
        ensures undecided { IfErr result (λ fault. IsOfDeciding fault → IsUndecided self.old.streams.limits (state_of self.old) step) }
        ensures pushed { Pushes self.old.streams self.old.horizon step (reply_of result) self.new.streams }
        ensures kept { IfOk result (λ decision. decision.kept ≡ record { step = step; reply = decision.reply }) }
    {
        self.show_bounds();
        let step = adopted(&self.streams, step)?;
        let kept = step.try_copy()?;
        let replies = self.answer(step)?;
        Ok(Decision {
            reply: replies.reply,
            kept: Record {
                step: kept,
                reply: replies.kept,
            },
        })
    }

    // What becomes of a step, once there is memory for its record.
    fn answer(&mut self, step: ShardStep) -> Result<TwoReplies, ShardFault>
        ensures decides { Decides step self.old (first_of result) self.new }
        ensures undecided { OnErr result (IsUndecided self.old.streams.limits (state_of self.old) step) }
        ensures pushed { IsOfPush self.old.streams self.old.horizon step (first_of result) self.new.streams }
        ensures kept { IfOk result (λ replies. replies.kept ≡ replies.reply) }
    {
        match step {
            ShardStep::Collect { slot, terms, t } => {
                let answer = self.collect(slot, terms.into_list(), t)?;
                Ok(TwoReplies {
                    reply: ShardReply::Collected(answer.partials),
                    kept: ShardReply::Collected(answer.copy),
                })
            }
            change => {
                let reply = self.change(change)?;
                let kept = reply.copy_plain();
                Ok(TwoReplies { reply, kept })
            }
        }
    }

    // What becomes of a step that asks for no partials.
    fn change(&mut self, step: ShardStep) -> Result<ShardReply, ShardFault>
        requires { IsChange step }
        ensures decides { Decides step self.old result self.new }
        ensures undecided { OnErr result (IsUndecided self.old.streams.limits (state_of self.old) step) }
        ensures pushed { IsOfPush self.old.streams self.old.horizon step result self.new.streams }
        ensures plain { IfOk result IsPlain }
    {
        match step {
            ShardStep::Push(entry) => self.push(entry),
            ShardStep::Cut => {
                self.cut()?;
                Ok(ShardReply::Done)
            }
            ShardStep::Flush => {
                self.flush()?;
                Ok(ShardReply::Done)
            }
            ShardStep::Delete(deletion) => self.delete(with_sieve(deletion)),
            ShardStep::Cancel { id } => self.cancel(id),
            ShardStep::Process { id, now } => self.process(id, now),
            ShardStep::Retain { now } => self.retain(now),
            ShardStep::Collect { .. } => unreachable!(),
        }
    }

    // Takes an entry, or says why not.
    fn push(&mut self, entry: Shared<Entry>) -> Result<ShardReply, ShardFault>
        ensures lasts { Lasts self.old.streams self.new.streams }
        ensures gives { GivesNone self.old.streams self.new.streams }
        ensures pushed { IsPushed self.old.streams self.old.horizon entry result self.new.streams }
        ensures runs { self.new.meter.runs ≤ self.old.meter.runs + term_count self.old.slots }
        ensures live { (number : ℕ) (terms : List Term) (u : ℕ) → IsLiveIn number terms u self.old.slots → IsLiveIn number terms u self.new.slots }
        ensures collected { (number : ℕ) → collected_in number self.new.slots ≡ collected_in number self.old.slots }
        ensures meets { IfErr result IsOfReading }
        ensures undecided { OnErr result (age_answer self.old.streams.limits (state_of self.old) entry ≡ None) }
        ensures refused { IfErr result (λ fault. Refuses self.old fault self.new) }
        ensures left { OnOk result (LeavesStore self.old.streams self.new.streams) }
        ensures answered { IfOk result (λ reply. IsAnswered self.old.streams.limits (state_of self.old) (steps.Push entry) reply (state_of self.new)) }
        ensures decided { self.old.streams.seen.honest ≡ true → IfOk result (λ reply. reply ≡ push_reply self.old.streams.limits (state_of self.old) entry) }
        ensures changed { self.old.streams.seen.honest ≡ true → OnOk result (state_of self.new ≡ pushed self.old.streams.limits (state_of self.old) entry) }
    {
        let horizon = self.horizon.moment();
        let (slots, meter) = (&mut self.slots, &mut self.meter);
        let Ok(changes) = let_in(self.alloc, slots, &self.requests, meter, entry.get()) else {
            return not_sought(&self.streams, entry.get(), horizon);
        };
        let added = self.streams.add(entry, horizon);
        settle(&mut self.slots, &changes, is_taken(&added));
        match added {
            Ok(_) => Ok(ShardReply::Accepted),
            Err(refusal) => refused(refusal),
        }
    }

    // Seals the head of each stream.
    fn cut(&mut self) -> Result<(), AllocError>
        ensures cuts { Cuts self.old.streams self.new.streams }
        ensures all { OnOk result (self.new.streams.loose ≡ 0) }
        ensures numbers { self.new.streams.next ≤ greatest }
        ensures others { (self.new.requests ≡ self.old.requests) × (self.new.horizon ≡ self.old.horizon) × (self.new.slots ≡ self.old.slots) }
    {
        self.streams.cut()
    }

    // Writes the sealed parts that the store does not have.
    fn flush(&mut self) -> Result<(), FlushFault>
        ensures flushes { Flushes self.old.streams self.new.streams }
        ensures all { OnOk result (self.new.streams.unwritten ≡ 0) }
        ensures grown { IsGrown result self.old.streams.seen self.old.streams.next self.new.streams.next self.new.streams.seen }
        ensures counted { self.new.streams.seen.faults ≡ after_flush result self.old.streams.seen.faults }
        ensures spent { IsErrOf result flushes.NumbersSpent → self.new.streams.next ≡ greatest }
        ensures numbers { self.new.streams.next ≤ greatest }
        ensures others { (self.new.requests ≡ self.old.requests) × (self.new.horizon ≡ self.old.horizon) × (self.new.slots ≡ self.old.slots) }
    {
        self.streams.flush()
    }
}

// The step, whose entry has the label set of its stream.
fn adopted<S: Store>(streams: &Streams<S>, step: ShardStep) -> Result<ShardStep, AllocError>
    ensures { IfOk result (λ own. own ≡ step) }
{
    match step {
        ShardStep::Push(entry) => Ok(ShardStep::Push(streams.adopt(entry)?)),
        other => Ok(other),
    }
}

// The deletion of a sieve, without its text.
fn with_sieve(deletion: Deletion<SieveText>) -> Deletion<Shared<Sieve>>
    ensures { result ≡ deletion }
{
    Deletion {
        id: deletion.id,
        selector: deletion.selector.into_sieve(),
        start: deletion.start,
        end: deletion.end,
        created: deletion.created,
    }
}

// Whether streams took an entry.
fn is_taken(added: &Result<bool, AddRefusal>) -> bool
    ensures { result ≡ is_taken added.now }
{
    match added {
        Ok(taken) => *taken,
        Err(_) => false,
    }
}

// What becomes of an entry for which windows have no memory.
fn not_sought<S: Store>(
    streams: &Streams<S>,
    entry: &Entry,
    horizon: Ns,
) -> Result<ShardReply, ShardFault>
    ensures { result ≡ unsought (age_refusal streams.now.limits streams.now.newest horizon entry.now) }
{
    match streams.age_refusal(entry, horizon) {
        Some(refusal) => refused(refusal),
        None => Err(ShardFault::Memory),
    }
}

// What becomes of an entry that was not taken.
fn refused(refusal: AddRefusal) -> Result<ShardReply, ShardFault>
    ensures { result ≡ refused refusal }
{
    match refusal {
        AddRefusal::Expired { horizon } => Ok(ShardReply::Expired { horizon }),
        AddRefusal::TooFarBehind { newest } => Ok(ShardReply::TooFarBehind { newest }),
        AddRefusal::Full => Ok(ShardReply::Full),
        AddRefusal::Read(fault) => Err(ShardFault::from(fault)),
    }
}
