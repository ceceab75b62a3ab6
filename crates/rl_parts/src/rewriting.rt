//! Removing covered entries from the entries of a part.
ghost use Rattle.std.specs.Prelude.{◌≡◌, ◌<◌, ◌≤◌, ◌++◌, ◌∷◌, [], IsTrue, IfOk, IsErrOf, List, OnOk, length, map, true};
ghost use Rattle.std.specs.List.{All};
ghost use Rattle.rl_labels.specs.EntryParts.{is_stream, longest_line};
ghost use Rattle.rl_labels.specs.LabelSet.{LabelSet};
ghost use Rattle.rl_labels.specs.declared.entry.Entry.{Entry};
ghost use Rattle.rl_chunks.specs.EntryLines.{line_of};
ghost use Rattle.rl_chunks.specs.StoreState.{greatest};
ghost use Rattle.rl_chunks.specs.declared.chunk.Chunk.{Chunk};
ghost use Rattle.rl_parts.specs.Fingerprints.{AreFingerprints};
ghost use Rattle.rl_parts.specs.PartState.{IsRange, part_at};
ghost use Rattle.rl_parts.specs.Reading.{IsReadAs};
ghost use Rattle.rl_parts.specs.Rewriting.{AreOfLines, AreRewritten, IsChangedHere, after_rewrite, gone_by, left_by, uncovered};
ghost use Rattle.rl_parts.specs.StoreUse.{ArePut, IsKept, Reads, Right, after_read};
ghost use Rattle.rl_parts.specs.StreamParts.{IsPart, unwritten};
ghost use Rattle.rl_parts.specs.declared.part.Location.TheVariants.{InStore};

use crate::chunk_store::ChunkStore;
use crate::fault::{ReadFault, RewriteFault};
use crate::flushing::write_entries;
use crate::part::{Part, Written};
use crate::plan::Change;
use crate::stored::StoredEntry;
use rl_chunks::{Line, Store};
use rl_labels::{Covers, Entry, Labels, Ns};
use rl_plain::{PlainList, Shared, TryCopy};
use std::alloc::{AllocError, Global};

// The entries that are not covered, shared.
pub(crate) fn uncovered<C: Covers>(
    alloc: Global,
    covered: &C,
    entries: &[StoredEntry],
) -> Result<Vec<StoredEntry>, AllocError>
    ensures { IfOk result (λ left. left.items ≡ uncovered (C.covers covered.now) entries.now) }
{
    let mut left = Vec::new(alloc);
    for stored in entries {
        if !covered.covers(stored.entry())? {
            left.push(stored.share()?)?;
        }
    }
    Ok(left)
}

// What becomes of a part in memory.
pub(crate) fn rewrite_here<C: Covers>(
    alloc: Global,
    covered: &C,
    entries: &[StoredEntry],
) -> Result<Change, AllocError>
    ensures { IfOk result (λ change. IsChangedHere (C.covers covered.now) entries.now change) }
{
    let left = uncovered(alloc, covered, entries)?;
    if left.len() == entries.len() {
        return Ok(Change::Stays);
    }
    if left.is_empty() {
        return Ok(Change::Goes);
    }
    Ok(Change::Becomes(Part::new(left)))
}

// The entry of the stream that has the line.
fn entry_of(labels: &Labels, line: Line) -> Result<Entry, AllocError>
    requires stream { IsTrue (is_stream labels.now) }
    requires short { length line.text ≤ longest_line }
    ensures labels { IfOk result (λ entry. entry.labels ≡ labels.now) }
    ensures line { IfOk result (λ entry. line_of entry ≡ line) }
{
    let labels = labels.try_copy()?;
    Ok(Entry {
        labels,
        timestamp: line.timestamp,
        line: line.text,
    })
}

// Appends an entry to others, unless it is covered.
fn push_uncovered<C: Covers>(
    alloc: Global,
    covered: &C,
    left: &mut Vec<StoredEntry>,
    entry: Entry,
) -> Result<(), AllocError>
    ensures { OnOk result (left.new.items ≡ left.old.items ++ uncovered (C.covers covered.now) (entry ∷ [])) }
{
    if !covered.covers(&entry)? {
        left.push(StoredEntry::new(Shared::new(alloc, entry)?))?;
    }
    Ok(())
}

// The lines as entries of the stream, without those that are covered.
fn uncovered_lines<C: Covers>(
    alloc: Global,
    covered: &C,
    labels: &Labels,
    lines: Vec<Line>,
) -> Result<Vec<StoredEntry>, AllocError>
    requires stream { IsTrue (is_stream labels.now) }
    requires short { All (λ line. length line.text ≤ longest_line) lines.items }
    ensures { IfOk result (λ left. (read : List Entry) × AreOfLines labels.now lines.items read × (left.items ≡ uncovered (C.covers covered.now) read)) }
{
    let mut left = Vec::new(alloc);
    for line in lines {
        let entry = entry_of(labels, line)?;
        push_uncovered(alloc, covered, &mut left, entry)?;
    }
    Ok(left)
}

// Whether there are `many` lines, none newer than `last`.
fn are_of_part(lines: &[Line], many: usize, last: Ns) -> bool
    ensures many { result ≡ true → length lines.now ≡ many }
    ensures old { result ≡ true → All (λ line. line.timestamp ≤ last) lines.now }
    ensures yes { length lines.now ≡ many → All (λ line. line.timestamp ≤ last) lines.now → result ≡ true }
{
    lines.len() == many && lines.iter().all(|line| line.timestamp <= last)
}

// The lines of a written part, read again. Bytes that are more or fewer lines, or newer ones, were not put.
fn read_again<S: Store>(
    chunks: &mut ChunkStore<S>,
    written: &Written,
) -> Result<Vec<Line>, ReadFault>
    ensures found { IfOk result (λ lines. (chunk : Chunk) × IsReadAs written.now.digest chunk × (lines.items ≡ chunk.lines)) }
    ensures many { IfOk result (λ lines. length lines.items ≡ length written.now.fingerprints) }
    ensures old { IfOk result (λ lines. All (λ line. line.timestamp ≤ written.now.last) lines.items) }
    ensures reads { Reads chunks.old chunks.new }
    ensures counted { chunks.new.seen.faults ≡ after_read result chunks.old.seen.faults }
    ensures right { (labels : LabelSet) → IsPart labels (unwritten written.now.entries.value) → IsRange written.now.entries.value written.now.first written.now.last → AreFingerprints written.now.entries.value written.now.fingerprints → IsKept chunks.old labels (part_at (InStore written.now)) → chunks.old.seen.honest ≡ true → Right result (λ lines. lines.items ≡ map line_of written.now.entries.value) }
{
    let chunk = chunks.fetch(written.number, &written.digest)?;
    if !are_of_part(
        chunk.lines.as_slice(),
        written.fingerprints.len(),
        written.last,
    ) {
        return Err(ReadFault::Damaged);
    }
    Ok(chunk.lines.into_vec())
}

// What becomes of a written part. It is read only where an entry of its range of time may be covered.
pub(crate) fn rewrite_written<S: Store, C: Covers>(
    chunks: &mut ChunkStore<S>,
    covered: &C,
    labels: &Labels,
    written: &Written,
) -> Result<Change, RewriteFault>
    requires part { IsPart labels.now (unwritten written.now.entries.value) }
    requires range { IsRange written.now.entries.value written.now.first written.now.last }
    requires fingerprints { AreFingerprints written.now.entries.value written.now.fingerprints }
    ensures rewritten { IfOk result (λ change. AreRewritten (C.covers covered.now) labels.now (part_at (InStore written.now) ∷ []) chunks.old (left_by (part_at (InStore written.now)) change) (gone_by (part_at (InStore written.now)) change) chunks.new) }
    ensures undamaged { IsKept chunks.old labels.now (part_at (InStore written.now)) → chunks.old.seen.honest ≡ true → IsErrOf result RewriteFault.Damaged → ⊥ }
    ensures puts { ArePut result chunks.old chunks.new }
    ensures counted { chunks.new.seen.faults ≡ after_rewrite result chunks.old.seen.faults }
    ensures spent { IsErrOf result RewriteFault.NumbersSpent → chunks.new.next ≡ greatest }
{
    if !covered.may_cover(labels, written.first, written.last)? {
        return Ok(Change::Stays);
    }
    let lines = read_again(chunks, written)?;
    let many = lines.len();
    let left = uncovered_lines(*chunks.allocator(), covered, labels, lines)?;
    if left.len() == many {
        return Ok(Change::Stays);
    }
    if left.is_empty() {
        return Ok(Change::Goes);
    }
    let left = PlainList::from_vec(left);
    let written = write_entries(chunks, labels, &left)?;
    Ok(Change::Becomes(Part::kept(written)))
}
