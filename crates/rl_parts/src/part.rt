//! Sealed entries of a stream, in memory or in a store.
use crate::chunk_store::ChunkStore;
use crate::fault::{FlushFault, ReadFault, RewriteFault};
use crate::flushing::write_entries;
use crate::plan::Change;
use crate::rewriting::{rewrite_here, rewrite_written};
use crate::searching::{has_entry, has_written};
use crate::stored::StoredEntry;
use crate::visiting_lines::{visit_all, visit_written};
use crate::visitor::Visitor;
use rl_chunks::Store;
use rl_labels::{Covers, Entry, Labels, Ns, TimeRange};
use rl_plain::PlainList;
use std::marker::Model;
use std::snapshot::Snapshot;

// What is kept of entries that a store has. The entries themselves are seen by contracts alone.
#[derive(Drop)]
pub(crate) struct Written {
    pub(crate) number: u64,
    pub(crate) digest: [u8; 32],
    pub(crate) first: Ns,
    pub(crate) last: Ns,
    // Fingerprints of all entries, in rising order. The store is read for an entry only where its own is one of them.
    pub(crate) fingerprints: PlainList<u64>,
    pub(crate) entries: Snapshot<PlainList<StoredEntry>>,
}

// Where the entries are.
#[derive(Drop)]
enum Location {
    Here(PlainList<StoredEntry>),
    InStore(Written),
}

/// Sealed entries of a stream, by timestamp and line. They do not change any more.
#[derive(Drop)]
pub struct Part {
    location: Location,
}

impl Model for Part {
    ghost use Rattle.rl_parts.specs.StreamParts.{PartView, part_code};

    ghost Value = { PartView };

    ghost coded = { part_code };

    ghost use Rattle.rl_parts.specs.PartState.{part_at, RangeAndFingerprintsAreKept};

    ghost view = { λ a. part_at a.location };

    ghost invariant = { λ a. RangeAndFingerprintsAreKept a.location };
}

impl Part {
    ghost use Rattle.std.specs.Prelude.{◌≡◌, ◌+◌, length, true, false, Ok, Some, [], ◌∷◌, IsTrue, ◌↔◌, IfOk, IsErrOf, OnOk, IsSome};
    ghost use Rattle.std.specs.Option.{option_map};
    ghost use Rattle.std.specs.List.{Contains, fold};
    ghost use Rattle.rl_chunks.specs.StoreState.{greatest};
    ghost use Rattle.rl_parts.specs.StreamParts.{IsPart, unwritten};
    ghost use Rattle.rl_parts.specs.StoreUse.{ArePut, IsKept, Reads, Right, after_read, after_flush};
    ghost use Rattle.rl_parts.specs.Reading.{IsOutside, IsWith, IsWithout, IsVisited, in_memory, in_store, visited_in_range};
    ghost use Rattle.rl_parts.specs.Changes.{AreNoted, unwritten_count};
    ghost use Rattle.rl_parts.specs.Fingerprints.{AreFingerprints};
    ghost use Rattle.rl_parts.specs.PartState.{IsRange};
    ghost use Rattle.rl_parts.specs.Rewriting.{AreRewritten, after_rewrite, gone_by, left_by};

    // A part that no store has.
    pub(crate) fn new(entries: Vec<StoredEntry>) -> Part
        ensures { result ≡ unwritten entries.items }
    {
        let location = Location::Here(PlainList::from_vec(entries));
        Part { location }
    }

    // A part that a store has.
    pub(crate) fn kept(written: Written) -> Part
        requires range { IsRange written.entries.value written.first written.last }
        requires fingerprints { AreFingerprints written.entries.value written.fingerprints }
        ensures { result ≡ record { entries = written.entries.value; note = Some (record { number = written.number; digest = written.digest }) } }
    {
        Part {
            location: Location::InStore(written),
        }
    }

    // How many entries it has.
    pub(crate) fn len(&self) -> usize
        ensures { result ≡ length self.now.entries }
    {
        match &self.location {
            Location::Here(entries) => entries.len(),
            Location::InStore(written) => written.fingerprints.len(),
        }
    }

    // The number under which a store has the part.
    pub(crate) fn number(&self) -> Option<u64>
        ensures { result ≡ option_map (λ note. note.number) self.now.note }
    {
        match &self.location {
            Location::Here(_) => None,
            Location::InStore(written) => Some(written.number),
        }
    }

    // Writes the part under the next number, unless a store has it.
    pub(crate) fn write<S: Store>(
        &mut self,
        chunks: &mut ChunkStore<S>,
        labels: &Labels,
    ) -> Result<(), FlushFault>
        requires { IsPart labels.now self.old }
        ensures noted { AreNoted (self.old ∷ []) chunks.old.next (self.new ∷ []) chunks.new.next }
        ensures kept { IsKept chunks.old labels.now self.old → IsKept chunks.new labels.now self.new }
        ensures counted_parts { chunks.new.next + unwritten_count (self.new ∷ []) ≡ chunks.old.next + unwritten_count (self.old ∷ []) }
        ensures written { OnOk result (IsSome self.new.note) }
        ensures puts { ArePut result chunks.old chunks.new }
        ensures counted { chunks.new.seen.faults ≡ after_flush result chunks.old.seen.faults }
        ensures spent { IsErrOf result FlushFault.NumbersSpent → chunks.new.next ≡ greatest }
    {
        let written = match &self.location {
            Location::InStore(_) => return Ok(()),
            Location::Here(entries) => write_entries(chunks, labels, entries)?,
        };
        self.location = Location::InStore(written);
        Ok(())
    }

    // Whether the part has the entry in memory.
    pub(crate) fn has_here(&self, entry: &Entry) -> bool
        requires { IsPart entry.now.labels self.now }
        ensures { IsTrue result ↔ Contains (in_memory self.now) entry.now }
    {
        match &self.location {
            Location::Here(entries) => has_entry(entries.as_slice(), entry),
            Location::InStore(_) => false,
        }
    }

    // Whether a store has the entry in this part.
    pub(crate) fn has_there<S: Store>(
        &self,
        chunks: &mut ChunkStore<S>,
        entry: &Entry,
    ) -> Result<bool, ReadFault>
        requires { IsPart entry.now.labels self.now }
        ensures reads { Reads chunks.old chunks.new }
        ensures counted { chunks.new.seen.faults ≡ after_read result chunks.old.seen.faults }
        ensures unread { IsOutside entry.now.timestamp entry.now.timestamp self.now → chunks.new ≡ chunks.old }
        ensures exact { IsOutside entry.now.timestamp entry.now.timestamp self.now → result ≡ Ok false }
        ensures yes { IfOk result (λ found. found ≡ true → IsWith entry.now self.now) }
        ensures no { IfOk result (λ found. found ≡ false → IsWithout entry.now self.now) }
        ensures right { IsKept chunks.old entry.now.labels self.now → chunks.old.seen.honest ≡ true → Right result (λ found. IsTrue found ↔ Contains (in_store self.now) entry.now) }
    {
        match &self.location {
            Location::Here(_) => Ok(false),
            Location::InStore(written) => has_written(chunks, written, entry),
        }
    }

    // Visits the entries of the range.
    pub(crate) fn visit_lines<S: Store, T: Visitor>(
        &self,
        chunks: &mut ChunkStore<S>,
        labels: &Labels,
        range: TimeRange,
        visitor: &mut T,
    ) -> Result<(), ReadFault>
        requires { IsPart labels.now self.now }
        ensures reads { Reads chunks.old chunks.new }
        ensures counted { chunks.new.seen.faults ≡ after_read result chunks.old.seen.faults }
        ensures unread { IsOutside range.from range.to self.now → chunks.new ≡ chunks.old }
        ensures visited { IsOutside range.from range.to self.now → OnOk result (visitor.new ≡ fold T.visiting visitor.old (visited_in_range range.from range.to self.now.entries)) }
        ensures piece { OnOk result (IsVisited T.visiting labels.now range.from range.to (self.now ∷ []) visitor.old visitor.new) }
        ensures right { IsKept chunks.old labels.now self.now → chunks.old.seen.honest ≡ true → Right result (λ _. visitor.new ≡ fold T.visiting visitor.old (visited_in_range range.from range.to self.now.entries)) }
    {
        match &self.location {
            Location::Here(entries) => visit_all(labels, entries.as_slice(), range, visitor)?,
            Location::InStore(written) => {
                return visit_written(chunks, written, labels, range, visitor);
            }
        }
        Ok(())
    }

    // What becomes of the part without its covered entries. It is read only where an entry of its range of time may be
    // covered; what is left of it is put into the store under the next number.
    pub(crate) fn rewrite<S: Store, C: Covers>(
        &self,
        chunks: &mut ChunkStore<S>,
        covered: &C,
        labels: &Labels,
    ) -> Result<Change, RewriteFault>
        requires { IsPart labels.now self.now }
        ensures rewritten { IfOk result (λ change. AreRewritten (C.covers covered.now) labels.now (self.now ∷ []) chunks.old (left_by self.now change) (gone_by self.now change) chunks.new) }
        ensures undamaged { IsKept chunks.old labels.now self.now → chunks.old.seen.honest ≡ true → IsErrOf result RewriteFault.Damaged → ⊥ }
        ensures puts { ArePut result chunks.old chunks.new }
        ensures counted { chunks.new.seen.faults ≡ after_rewrite result chunks.old.seen.faults }
        ensures spent { IsErrOf result RewriteFault.NumbersSpent → chunks.new.next ≡ greatest }
    {
        match &self.location {
            Location::Here(entries) => {
                let change = rewrite_here(*chunks.allocator(), covered, entries.as_slice())?;
                Ok(change)
            }
            Location::InStore(written) => rewrite_written(chunks, covered, labels, written),
        }
    }
}
