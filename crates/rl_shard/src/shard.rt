//! A shard, by its steps.
ghost use Rattle.std.specs.Prelude.{◌≡◌, ◌+◌, ◌≤◌, ◌++◌, ◌∷◌, [], ℕ, List, false, IsTrue, Err, Some, length, map, slice_get, IfOk, IfErr, OnOk, OnErr};
ghost use Rattle.rl_records.specs.RecordBytes.{digest_of};

use crate::digested::Digested;
use crate::parts::ShardParts;
use crate::step::ShardFault;
use rl_chunks::Store;
use rl_labels::{Limits, Ns};
use rl_pipeline::Meter;
use rl_plain::{PlainList, TryCopy};
use rl_query::Term;
use rl_records::{Record, ShardReply, ShardStep};
use std::alloc::{AllocError, Global};
use std::marker::Model;

/// One shard. Contracts see a `ShardView`; worlds speak of the part of it that is `journalled`, and of its store.
#[derive(Drop)]
pub struct Shard<S: Store> {
    parts: ShardParts<S>,
    journal: Vec<Digested>,
}

impl<S: Store> Model for Shard<S> {
    ghost use Rattle.rl_shard.specs.Journal.{IsShard};
    ghost use Rattle.rl_shard.specs.ShardState.{ShardView, shard_view_code};

    ghost Value = { ShardView };

    ghost coded = { shard_view_code };

    ghost view = { λ a. record { streams = a.parts.streams; requests = a.parts.requests; horizon = a.parts.horizon; slots = a.parts.slots; meter = a.parts.meter; journal = a.journal.items } };

    ghost invariant = { λ a. IsShard a.parts a.journal.items };
}

impl<S: Store> Shard<S> {
    ghost use Rattle.rl_chunks.specs.StoreState.{greatest};
    ghost use Rattle.std.specs.Bool.{Decides};
    ghost use Rattle.rl_query.specs.declared.query.Term.{Term};
    ghost use Rattle.rl_slots.specs.Slots.{collected_in, term_count, IsLiveIn};
    ghost use Rattle.rl_shard.specs.Collecting.{AreRead};
    ghost use Rattle.rl_shard.specs.Live.{collected_after, visits_due, IsAnsweredLive, IsOfWindows, IsPush, Keeps};
    ghost use Rattle.rl_shard.specs.Journal.{IsJournalOf, last_digest};
    ghost use Rattle.rl_shard.specs.Pushing.{Pushes, replied};
    ghost use Rattle.rl_shard.specs.ShardFault.{Gives, IsDone, IsHonest, MayCome, Stored};
    ghost use Rattle.rl_shard.specs.ShardState.{journalled, opened_over, visible};
    ghost use Rattle.rl_parts.specs.StoreUse.{Grown};
    ghost use Rattle.rl_shard.specs.ShardStep.{recorded, is_journal_full, IsAnswered, IsReply};
    ghost use Rattle.rl_shard.specs.Showing.{Shows};
    ghost use Rattle.rl_shard.specs.declared.step.ShardFault.TheVariants as faults;

    /// A shard over a store that holds nothing, with an empty journal.
    pub fn open(alloc: Global, store: S, limits: Limits) -> Self
        ensures { result ≡ opened_over limits (S.seen store) }
    {
        Shard {
            parts: ShardParts::new(alloc, store, limits),
            journal: Vec::new(alloc),
        }
    }

    /// The store.
    pub fn store(&self) -> &S
        ensures { S.seen result.now ≡ self.now.streams.seen }
    {
        self.parts.streams().store()
    }

    /// How many records the journal has.
    pub fn journal_len(&self) -> u64
        ensures length { result ≡ (journalled self.now).records }
        // Over an honest store it is legal, and what the shard holds is its replay.
        ensures legal { IsHonest self.now → IsJournalOf (journalled self.now).limits self.now.journal (journalled self.now).state }
    {
        self.journal.len() as u64
    }

    /// A copy of the record at a place of the journal, which shares what the record has. `None` past the end.
    pub fn journal_at(&mut self, place: u64) -> Result<Option<Record>, ShardFault>
        ensures record { IfOk result (λ found. found ≡ slice_get self.old.journal place) }
        ensures meets { IfErr result (λ fault. fault ≡ faults.Memory) }
        ensures same { self.new ≡ self.old }
    {
        match self.journal.get(place as usize) {
            Some(found) => Ok(Some(found.record().try_copy()?)),
            None => Ok(None),
        }
    }

    /// The SHA-256 of each record's bytes, in their order.
    pub fn digests(&mut self) -> Result<Vec<[u8; 32]>, ShardFault>
        ensures digests { IfOk result (λ digests. digests.items ≡ map digest_of self.old.journal) }
        ensures meets { IfErr result (λ fault. fault ≡ faults.Memory) }
        ensures same { self.new ≡ self.old }
    {
        Ok(digests_of(self.parts.alloc, &self.journal)?)
    }

    /// The SHA-256 of the last record's bytes. Takes no memory.
    pub fn last_digest(&self) -> Option<[u8; 32]>
        ensures { result ≡ last_digest self.now.journal }
    {
        let last = self.journal.last()?;
        Some(last.digest())
    }

    /// Whether the journal has reached its limit of records.
    pub fn is_journal_full(&self) -> bool
        ensures { result ≡ is_journal_full (journalled self.now) }
    {
        self.journal.len() as u64 >= self.parts.streams().limits().records
    }

    /// Whether the windows of a group's slot answer terms at a moment, so that a Collect of these reads nothing. Takes no memory.
    pub fn is_live(&self, slot: u64, terms: &PlainList<Term>, t: Ns) -> bool
        ensures { Decides result (IsLiveIn slot terms.now t self.now.slots) }
    {
        self.parts.is_live(slot, terms, t)
    }

    /// How many lines went through pipelines, and how many buckets of windows were visited.
    pub fn meter(&self) -> &Meter
        ensures { result.now ≡ self.now.meter }
    {
        self.parts.meter()
    }

    /// Decides a step, and answers the place of its record in the journal, counted from 0, with the reply. JournalFull comes before
    /// all else, and then a lack of memory for the record. A step that is refused makes no record and changes nothing of what is held,
    /// the requests or the horizon; parts that were written before a fault stay in the store.
    pub fn apply(&mut self, step: ShardStep) -> Result<(u64, ShardReply), ShardFault>
        ensures journal_full { IsTrue (is_journal_full (journalled self.old)) → (result ≡ Err faults.JournalFull) × (self.new ≡ self.old) }
        ensures may_come { IfErr result (λ fault. MayCome self.old step fault self.new) }
        ensures kept { OnErr result (journalled self.new ≡ journalled self.old) }
        ensures grown { OnErr result (Grown self.old.streams.seen self.old.streams.next (self.new.streams.next + 1) self.new.streams.seen) }
        ensures gives { Gives step self.old.streams self.new.streams }
        ensures stored { Stored self.old.streams self.new.streams }
        ensures numbers { self.new.streams.next ≤ greatest }
        // Over any store.
        ensures place { IfOk result (λ answer. answer.0 ≡ (journalled self.old).records) }
        ensures record { OnOk result (((journalled self.new).limits ≡ (journalled self.old).limits) × ((journalled self.new).records ≡ (journalled self.old).records + 1)) }
        ensures journal { IfOk result (λ answer. self.new.journal ≡ self.old.journal ++ (record { step = step; reply = answer.1 }) ∷ []) }
        ensures digest { IfOk result (λ answer. last_digest self.new.journal ≡ Some (digest_of (record { step = step; reply = answer.1 }))) }
        ensures unrecorded { OnErr result (self.new.journal ≡ self.old.journal) }
        ensures answered { IfOk result (λ answer. IsAnswered (journalled self.old).limits (journalled self.old).state step answer.1 (journalled self.new).state) }
        ensures done { OnOk result (IsDone (journalled self.old).limits (journalled self.old).state step self.old.streams self.new.streams) }
        // What is read of a chunk follows from bytes with the digest that was kept.
        ensures pushed { is_journal_full (journalled self.old) ≡ false → Pushes self.old.streams self.old.horizon step (replied result) self.new.streams }
        ensures read { IfOk result (λ answer. AreRead self.old.streams self.old.requests self.old.slots step answer.1) }
        // What windows answer is neither read nor run.
        ensures keeps { (number : ℕ) (terms : List Term) (u : ℕ) → Keeps step (replied result) number u → IsLiveIn number terms u self.old.slots → IsLiveIn number terms u self.new.slots }
        ensures live { OnOk result (IsAnsweredLive step self.new.slots) }
        ensures unread { IsOfWindows step self.old.slots → (self.new.streams ≡ self.old.streams) × (self.new.meter.runs ≡ self.old.meter.runs) }
        ensures runs { IsPush step → self.new.meter.runs ≤ self.old.meter.runs + term_count self.old.slots }
        ensures collected { (number : ℕ) → collected_in number self.new.slots ≡ collected_after step (replied result) number self.old.slots }
        ensures visits { IsHonest self.old → IsOfWindows step self.old.slots → self.new.meter.visits ≤ self.old.meter.visits + visits_due (visible (journalled self.old).state) step self.old.slots }
        // Over an honest store.
        ensures decided { IsHonest self.old → IfOk result (λ answer. IsReply (journalled self.old).limits (journalled self.old).state step answer.1) }
        ensures changed { IsHonest self.old → OnOk result (journalled self.new ≡ recorded (journalled self.old) step) }
        ensures shown { IsHonest self.old → OnOk result (Shows (journalled self.old).limits (journalled self.old).state step (visible (journalled self.new).state)) }
        ensures few { length (visible (journalled self.old).state) ≤ (journalled self.old).limits.entries }
    {
        self.parts.show_bounds();
        if self.is_journal_full() {
            return Err(ShardFault::JournalFull);
        }
        self.journal.reserve(1)?;
        let decision = self.parts.decide(step)?;
        let place = self.journal.len() as u64;
        self.journal.push_reserved(Digested::new(decision.kept));
        Ok((place, decision.reply))
    }
}

// The digest of each record.
fn digests_of(alloc: Global, journal: &[Digested]) -> Result<Vec<[u8; 32]>, AllocError>
    ensures { IfOk result (λ digests. digests.items ≡ map digest_of journal.now) }
{
    let mut digests = Vec::with_capacity(alloc, journal.len())?;
    for one in journal {
        digests.push(one.digest())?;
    }
    Ok(digests)
}
