//! One stream as its parts.
ghost use Rattle.std.specs.Prelude.{◌≡◌, ◌+◌, ◌<◌, ◌≤◌, ◌^◌, max, true, false, [], ◌∷◌, length, IsTrue, ◌↔◌, Ok, OnOk, OnErr, IfOk, IsErrOf, MatchResult};

use crate::chunk_store::ChunkStore;
use crate::fault::{FlushFault, ReadFault, RewriteFault};
use crate::flushing::write_parts;
use crate::part::Part;
use crate::plan::{Plan, carry, count_parts, plan_parts};
use crate::rewriting::uncovered;
use crate::sealing::{later, put, seal_head};
use crate::searching::{any_here, any_there, has_entry, is_above};
use crate::stored::{StoredEntry, with_labels};
use crate::visiting_lines::{visit_all, visit_parts};
use crate::visitor::Visitor;
use rl_chunks::Store;
use rl_labels::{Covers, Entry, Labels, Ns, TimeRange};
use rl_plain::{Shared, TryCopy};
use std::alloc::{AllocError, Global};
use std::marker::Model;
use std::mem;
use std::snapshot::Snapshot;

/// The most entries that a part can have.
pub const MAX_PART_LEN: u64 = 1_048_576;

/// One stream. Contracts see its labels, its sealed parts, its head, and its newest timestamp.
#[derive(Drop)]
pub struct Stream {
    labels: Labels,
    parts: Vec<Part>,
    // Not sealed yet; by timestamp and line.
    head: Vec<StoredEntry>,
    newest: Ns,
    // The newest timestamp in a part, if there is a part.
    sealed_to: Option<Ns>,
}

impl Model for Stream {
    ghost use Rattle.rl_parts.specs.StreamParts.{StreamView, stream_code};

    ghost Value = { StreamView };

    ghost coded = { stream_code };

    ghost use Rattle.rl_parts.specs.StreamState.{IsInOrder};

    ghost view = { λ a. record { labels = a.labels; parts = a.parts.items; head = a.head.items; newest = a.newest } };

    ghost invariant = { λ a. IsInOrder (record { labels = a.labels; parts = a.parts.items; head = a.head.items; newest = a.newest }) a.sealed_to };
}

impl Stream {
    ghost use Rattle.std.specs.List.{All, Contains, fold};
    ghost use Rattle.rl_chunks.specs.StoreState.{greatest};
    ghost use Rattle.rl_parts.specs.StreamParts.{entries_of, most_entries};
    ghost use Rattle.rl_parts.specs.StoreUse.{Reads, ArePut, AreKept, Right, after_read, after_flush};
    ghost use Rattle.rl_parts.specs.Reading.{NoneReaches, IsFoundIn, IsMissingIn, IsVisited, entries_here, visited_in_range};
    ghost use Rattle.rl_parts.specs.Changes.{IsStarted, IsInserted, IsHeld, AreSealed, AreNoted, sealed_parts, unwritten_count};
    ghost use Rattle.rl_parts.specs.Rewriting.{AreLeft, AreRenumbered, after_rewrite, note_numbers, uncovered};

    /// A stream of one entry. It is sealed at once where a part has no more than one.
    pub fn start(alloc: Global, entry: Shared<Entry>, most: u64) -> Result<Stream, AllocError>
        requires some { 1 ≤ most }
        requires few { most ≤ most_entries }
        ensures labels { IfOk result (λ stream. stream.labels ≡ entry.labels) }
        ensures newest { IfOk result (λ stream. stream.newest ≡ entry.timestamp) }
        ensures entries { IfOk result (λ stream. entries_of stream ≡ entry ∷ []) }
        ensures shape { IfOk result (IsStarted most entry) }
    {
        let labels = entry.get().labels.try_copy()?;
        let newest = entry.get().timestamp;
        let mut head = Vec::new(alloc);
        head.push(StoredEntry::new(entry))?;
        let mut stream = Stream {
            labels,
            parts: Vec::new(alloc),
            head,
            newest,
            sealed_to: None,
        };
        if most == 1 {
            stream.seal()?;
        }
        Ok(stream)
    }

    /// The labels of the stream.
    pub fn labels(&self) -> &Labels
        ensures { result.now ≡ self.now.labels }
    {
        &self.labels
    }

    /// How many entries it has, wherever they are.
    pub fn len(&self) -> u64
        requires { length (entries_of self.now) < 2 ^ 64 }
        ensures { result ≡ length (entries_of self.now) }
    {
        count_parts(&self.parts) + self.head.len() as u64
    }

    /// The newest timestamp that it ever had.
    pub fn newest(&self) -> Ns
        ensures { result ≡ self.now.newest }
    {
        self.newest
    }

    /// Takes an entry of the stream that is not in the head, and keeps it with the stream's own label set where no one else
    /// shares the entry. A head of `most` entries becomes a part. A refusal changes nothing.
    pub fn hold(&mut self, entry: Shared<Entry>, most: u64) -> Result<(), AllocError>
        requires labels { entry.labels ≡ self.old.labels }
        requires new { Contains self.old.head entry → ⊥ }
        requires some { 1 ≤ most }
        requires few { most ≤ most_entries }
        ensures labels { self.new.labels ≡ self.old.labels }
        ensures newest { OnOk result (self.new.newest ≡ max self.old.newest entry.timestamp) }
        ensures entries { OnOk result (IsInserted (entries_of self.old) entry (entries_of self.new)) }
        ensures parts { OnOk result (AreSealed self.old.parts self.new.parts) }
        ensures short { OnOk result (length self.new.head < most) }
        ensures shape { OnOk result (IsHeld most self.old entry self.new) }
        ensures err { OnErr result (self.new ≡ self.old) }
    {
        let timestamp = entry.get().timestamp;
        self.parts.reserve(1)?;
        let entry = with_labels(entry, &self.labels)?;
        put(&mut self.head, entry)?;
        self.newest = later(Some(self.newest), timestamp);
        if (self.head.len() as u64) < most {
            return Ok(());
        }
        seal_head(&mut self.parts, &mut self.head, &mut self.sealed_to);
        Ok(())
    }

    /// Makes a part of the head, if it has an entry. A refusal changes nothing.
    pub fn seal(&mut self) -> Result<(), AllocError>
        ensures labels { self.new.labels ≡ self.old.labels }
        ensures newest { self.new.newest ≡ self.old.newest }
        ensures entries { entries_of self.new ≡ entries_of self.old }
        ensures parts { OnOk result (AreSealed self.old.parts self.new.parts) }
        ensures head { OnOk result (self.new.head ≡ []) }
        ensures shape { OnOk result (self.new.parts ≡ sealed_parts self.old) }
        ensures err { OnErr result (self.new ≡ self.old) }
    {
        if self.head.is_empty() {
            return Ok(());
        }
        self.parts.reserve(1)?;
        seal_head(&mut self.parts, &mut self.head, &mut self.sealed_to);
        Ok(())
    }

    /// Writes each part that no store has, in order, under the numbers from the next on, and lets their lines go. What
    /// was written before a fault stays written. The greatest number is never given.
    pub fn flush<S: Store>(&mut self, chunks: &mut ChunkStore<S>) -> Result<(), FlushFault>
        ensures labels { self.new.labels ≡ self.old.labels }
        ensures newest { self.new.newest ≡ self.old.newest }
        ensures head { self.new.head ≡ self.old.head }
        ensures entries { entries_of self.new ≡ entries_of self.old }
        ensures parts { AreNoted self.old.parts chunks.old.next self.new.parts chunks.new.next }
        ensures counted_parts { chunks.new.next + unwritten_count self.new.parts ≡ chunks.old.next + unwritten_count self.old.parts }
        ensures all { OnOk result (unwritten_count self.new.parts ≡ 0) }
        ensures kept { AreKept chunks.old self.old → AreKept chunks.new self.new }
        ensures puts { ArePut result chunks.old chunks.new }
        ensures counted { chunks.new.seen.faults ≡ after_flush result chunks.old.seen.faults }
        ensures spent { IsErrOf result FlushFault.NumbersSpent → chunks.new.next ≡ greatest }
    {
        write_parts(chunks, &self.labels, &mut self.parts)
    }

    /// Whether the stream has an entry with its labels. Entries in memory are found first, whatever the store does. A part
    /// that a store has is read only where its range of time, both ends included, has the entry's timestamp, and one of its
    /// entries the same fingerprint, a hash of the line.
    pub fn holds<S: Store>(
        &self,
        chunks: &mut ChunkStore<S>,
        entry: &Entry,
    ) -> Result<bool, ReadFault>
        requires { entry.now.labels ≡ self.now.labels }
        ensures reads { Reads chunks.old chunks.new }
        ensures counted { chunks.new.seen.faults ≡ after_read result chunks.old.seen.faults }
        ensures here { Contains (entries_here self.now) entry.now → (result ≡ Ok true) × (chunks.new ≡ chunks.old) }
        ensures unread { NoneReaches entry.now.timestamp entry.now.timestamp self.now → chunks.new ≡ chunks.old }
        // Where no such part has the timestamp the answer is right, whatever the store does.
        ensures exact { NoneReaches entry.now.timestamp entry.now.timestamp self.now → MatchResult result (λ found. IsTrue found ↔ Contains (entries_of self.now) entry.now) (λ _. ⊥) }
        // What is answered of a part that a store has follows from bytes with the digest, whatever the store does.
        ensures yes { IfOk result (λ found. found ≡ true → IsFoundIn entry.now self.now) }
        ensures no { IfOk result (λ found. found ≡ false → IsMissingIn entry.now self.now) }
        ensures right { AreKept chunks.old self.now → chunks.old.seen.honest ≡ true → Right result (λ found. IsTrue found ↔ Contains (entries_of self.now) entry.now) }
    {
        if has_entry(&self.head, entry) {
            return Ok(true);
        }
        if is_above(self.sealed_to, entry.timestamp) {
            return Ok(false);
        }
        if any_here(&self.parts, entry) {
            return Ok(true);
        }
        any_there(chunks, &self.parts, entry)
    }

    /// Visits the entries of a range of time, each once: part by part, and then the head. A part
    /// that a store has is read only where its range of time reaches into the range.
    pub fn each<S: Store, T: Visitor>(
        &self,
        chunks: &mut ChunkStore<S>,
        range: TimeRange,
        visitor: &mut T,
    ) -> Result<(), ReadFault>
        ensures reads { Reads chunks.old chunks.new }
        ensures counted { chunks.new.seen.faults ≡ after_read result chunks.old.seen.faults }
        ensures unread { NoneReaches range.from range.to self.now → chunks.new ≡ chunks.old }
        ensures visited { NoneReaches range.from range.to self.now → OnOk result (visitor.new ≡ fold T.visiting visitor.old (visited_in_range range.from range.to (entries_of self.now))) }
        // What is visited of a part that a store has follows from bytes with the digest, whatever the store does.
        ensures pieces { OnOk result ((mid : T) × IsVisited T.visiting self.now.labels range.from range.to self.now.parts visitor.old mid × (visitor.new ≡ fold T.visiting mid (visited_in_range range.from range.to self.now.head))) }
        ensures right { AreKept chunks.old self.now → chunks.old.seen.honest ≡ true → Right result (λ _. visitor.new ≡ fold T.visiting visitor.old (visited_in_range range.from range.to (entries_of self.now))) }
    {
        visit_parts(chunks, &self.labels, &self.parts, range, visitor)?;
        visit_all(&self.labels, &self.head, range, visitor)?;
        Ok(())
    }

    /// What the stream becomes without its covered entries. A part that a store has is read only where an entry of its range
    /// of time may be covered; what is left of it is put into the store under the next number. What was put before a fault
    /// stays there unused. The greatest number is never given.
    pub fn plan<S: Store, C: Covers>(
        &self,
        chunks: &mut ChunkStore<S>,
        covered: &C,
    ) -> Result<Plan, RewriteFault>
        ensures of { IfOk result (λ plan. plan.of ≡ self.now) }
        ensures labels { IfOk result (λ plan. plan.becomes.labels ≡ self.now.labels) }
        ensures newest { IfOk result (λ plan. plan.becomes.newest ≡ self.now.newest) }
        ensures head { IfOk result (λ plan. plan.becomes.head ≡ uncovered (C.covers covered.now) self.now.head) }
        ensures own { IfOk result (λ plan. All (λ entry. entry.labels ≡ self.now.labels) (entries_of plan.becomes)) }
        // What is left of a part that a store has follows from bytes with the digest, whatever the store does.
        ensures parts { IfOk result (λ plan. AreLeft (C.covers covered.now) self.now.labels self.now.parts plan.becomes.parts) }
        ensures fewer { IfOk result (λ plan. length (entries_of plan.becomes) ≤ length (entries_of self.now)) }
        ensures numbers { IfOk result (λ plan. AreRenumbered (note_numbers self.now.parts) chunks.old.next chunks.new.next (note_numbers plan.becomes.parts) plan.gone) }
        ensures kept { AreKept chunks.old self.now → IfOk result (λ plan. AreKept chunks.new plan.becomes) }
        ensures right { chunks.old.seen.honest ≡ true → AreKept chunks.old self.now → IfOk result (λ plan. entries_of plan.becomes ≡ uncovered (C.covers covered.now) (entries_of self.now)) }
        ensures undamaged { chunks.old.seen.honest ≡ true → AreKept chunks.old self.now → IsErrOf result RewriteFault.Damaged → ⊥ }
        ensures puts { ArePut result chunks.old chunks.new }
        ensures counted { chunks.new.seen.faults ≡ after_rewrite result chunks.old.seen.faults }
        ensures spent { IsErrOf result RewriteFault.NumbersSpent → chunks.new.next ≡ greatest }
    {
        let alloc = *chunks.allocator();
        let head = uncovered(alloc, covered, &self.head)?;
        let room = Vec::with_capacity(alloc, self.parts.len())?;
        let changes = plan_parts(chunks, covered, &self.labels, &self.parts)?;
        Ok(Plan {
            of: Snapshot::of(self),
            changes: changes.of_parts,
            room,
            head,
            sealed_to: self.sealed_to,
            gone: changes.gone,
        })
    }

    /// Becomes what the plan of this stream says, without memory. Answers the numbers that are no longer used.
    pub fn carry_out(&mut self, plan: Plan) -> Vec<u64>
        requires { plan.of ≡ self.old }
        ensures stream { self.new ≡ plan.becomes }
        ensures gone { result.items ≡ plan.gone }
    {
        let none = Vec::new(*self.parts.allocator());
        let parts = mem::replace(&mut self.parts, none);
        self.parts = carry(parts, plan.changes, plan.room);
        self.head = plan.head;
        self.sealed_to = plan.sealed_to;
        plan.gone
    }
}
