//! Lines of a range of time, visited.
ghost use Rattle.std.specs.Prelude.{◌≡◌, ◌⊎◌, true, List, [], ◌∷◌, map, OnOk};
ghost use Rattle.std.specs.List.{AllByRecursion, flat_map, fold};
ghost use Rattle.rl_parts.specs.StreamParts.{IsPart, unwritten};
ghost use Rattle.rl_parts.specs.PartState.{IsRange, part_at};
ghost use Rattle.rl_parts.specs.declared.part.Location.TheVariants.{InStore};
ghost use Rattle.rl_parts.specs.StoreUse.{Reads, IsKept, Right, after_read};
ghost use Rattle.rl_parts.specs.Reading.{IsApart, IsOutside, IsReadAs, IsVisited, lines_in_range, visited_in_range};
ghost use Rattle.rl_labels.specs.LabelSet.{LabelSet};
ghost use Rattle.rl_chunks.specs.declared.chunk.Chunk.{Chunk};
ghost use Rattle.rl_chunks.specs.declared.line.Line.{Line};

use crate::chunk_store::ChunkStore;
use crate::fault::ReadFault;
use crate::part::{Part, Written};
use crate::visitor::Visitor;
use rl_chunks::{AsLine, Store};
use rl_labels::{Labels, TimeRange};
use std::alloc::AllocError;

// Visits a line, if it is in the range.
fn visit_line<L: AsLine, T: Visitor>(
    labels: &Labels,
    line: &L,
    range: TimeRange,
    visitor: &mut T,
) -> Result<(), AllocError>
    ensures { OnOk result (visitor.new ≡ fold T.visiting visitor.old (lines_in_range labels.now range.from range.to (L.line line.now ∷ []))) }
{
    let timestamp = line.timestamp();
    if range.contains(timestamp) {
        return visitor.visit(labels, timestamp, line.text());
    }
    Ok(())
}

// Visits the lines of the range.
pub(crate) fn visit_all<L: AsLine, T: Visitor>(
    labels: &Labels,
    lines: &[L],
    range: TimeRange,
    visitor: &mut T,
) -> Result<(), AllocError>
    ensures { OnOk result (visitor.new ≡ fold T.visiting visitor.old (lines_in_range labels.now range.from range.to (map L.line lines.now))) }
{
    for line in lines {
        visit_line(labels, line, range, visitor)?;
    }
    Ok(())
}

// Visits what a store has of a part. The store is read only where the part's range of time reaches into the range.
pub(crate) fn visit_written<S: Store, T: Visitor>(
    chunks: &mut ChunkStore<S>,
    written: &Written,
    labels: &Labels,
    range: TimeRange,
    visitor: &mut T,
) -> Result<(), ReadFault>
    requires part { IsPart labels.now (unwritten written.now.entries.value) }
    requires range { IsRange written.now.entries.value written.now.first written.now.last }
    ensures reads { Reads chunks.old chunks.new }
    ensures counted { chunks.new.seen.faults ≡ after_read result chunks.old.seen.faults }
    ensures unread { IsApart range.from range.to written.now.entries.value → chunks.new ≡ chunks.old }
    ensures visited { IsApart range.from range.to written.now.entries.value → OnOk result (visitor.new ≡ fold T.visiting visitor.old (visited_in_range range.from range.to written.now.entries.value)) }
    ensures piece { OnOk result ((piece : List (LabelSet × Line)) × ((IsApart range.from range.to written.now.entries.value × (piece ≡ [])) ⊎ ((chunk : Chunk) × IsReadAs written.now.digest chunk × (piece ≡ lines_in_range labels.now range.from range.to chunk.lines))) × (visitor.new ≡ fold T.visiting visitor.old piece)) }
    ensures right { IsKept chunks.old labels.now (part_at (InStore written.now)) → chunks.old.seen.honest ≡ true → Right result (λ _. visitor.new ≡ fold T.visiting visitor.old (visited_in_range range.from range.to written.now.entries.value)) }
{
    if range.is_apart(written.first, written.last) {
        return Ok(());
    }
    let chunk = chunks.fetch(written.number, &written.digest)?;
    visit_all(labels, chunk.lines.as_slice(), range, visitor)?;
    Ok(())
}

// Visits the entries of parts.
pub(crate) fn visit_parts<S: Store, T: Visitor>(
    chunks: &mut ChunkStore<S>,
    labels: &Labels,
    parts: &[Part],
    range: TimeRange,
    visitor: &mut T,
) -> Result<(), ReadFault>
    requires { AllByRecursion (IsPart labels.now) parts.now }
    ensures reads { Reads chunks.old chunks.new }
    ensures counted { chunks.new.seen.faults ≡ after_read result chunks.old.seen.faults }
    ensures unread { AllByRecursion (IsOutside range.from range.to) parts.now → chunks.new ≡ chunks.old }
    ensures visited { AllByRecursion (IsOutside range.from range.to) parts.now → OnOk result (visitor.new ≡ fold T.visiting visitor.old (visited_in_range range.from range.to (flat_map (λ part. part.entries) parts.now))) }
    ensures pieces { OnOk result (IsVisited T.visiting labels.now range.from range.to parts.now visitor.old visitor.new) }
    ensures right { AllByRecursion (IsKept chunks.old labels.now) parts.now → chunks.old.seen.honest ≡ true → Right result (λ _. visitor.new ≡ fold T.visiting visitor.old (visited_in_range range.from range.to (flat_map (λ part. part.entries) parts.now))) }
{
    for part in parts {
        part.visit_lines(chunks, labels, range, visitor)?;
    }
    Ok(())
}
