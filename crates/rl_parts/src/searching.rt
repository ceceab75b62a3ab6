//! Whether a stream has an entry.
ghost use Rattle.std.specs.Prelude.{◌≡◌, ◌<◌, ◌⊎◌, true, false, IsTrue, ◌↔◌, IfOk, Ok};
ghost use Rattle.std.specs.Option.{unwrap_or};
ghost use Rattle.std.specs.List.{AllByRecursion, Contains, flat_map};
ghost use Rattle.rl_chunks.specs.EntryLines.{line_of};
ghost use Rattle.rl_parts.specs.StreamParts.{PartView, IsPart, IsRun, unwritten};
ghost use Rattle.rl_chunks.specs.declared.chunk.Chunk.{Chunk};
ghost use Rattle.rl_parts.specs.Fingerprints.{AreFingerprints};
ghost use Rattle.rl_parts.specs.PartState.{IsRange, part_at};
ghost use Rattle.rl_parts.specs.declared.part.Location.TheVariants.{InStore};
ghost use Rattle.rl_parts.specs.StoreUse.{Reads, IsKept, Right, after_read};
ghost use Rattle.rl_parts.specs.Reading.{IsApart, IsOutside, IsReadAs, IsWith, IsWithout, in_memory, in_store};

use crate::chunk_store::ChunkStore;
use crate::fault::ReadFault;
use crate::fingerprints::{fingerprint_of, has_fingerprint};
use crate::part::{Part, Written};
use crate::sealing::search;
use crate::stored::StoredEntry;
use rl_chunks::{Line, Store};
use rl_labels::{Entry, Ns, TimeRange};

// Whether entries in order have this one.
pub(crate) fn has_entry(entries: &[StoredEntry], entry: &Entry) -> bool
    requires { IsRun entry.now.labels entries.now }
    ensures { IsTrue result ↔ Contains entries.now entry.now }
{
    match search(entries, entry) {
        Ok(_) => true,
        Err(_) => false,
    }
}

// Whether the line is that of the entry.
fn is_line_of(line: &Line, entry: &Entry) -> bool
    ensures { IsTrue result ↔ (line.now ≡ line_of entry.now) }
{
    line.timestamp == entry.timestamp && line.text == entry.line
}

// Whether the line of the entry is among the lines.
fn has_line(lines: &[Line], entry: &Entry) -> bool
    ensures { IsTrue result ↔ Contains lines.now (line_of entry.now) }
{
    for line in lines {
        if is_line_of(line, entry) {
            return true;
        }
    }
    false
}

// Whether a timestamp is above the newest one of the parts.
pub(crate) fn is_above(sealed_to: Option<Ns>, timestamp: Ns) -> bool
    ensures { result ≡ true → unwrap_or sealed_to 0 < timestamp }
{
    match sealed_to {
        Some(newest) => newest < timestamp,
        None => false,
    }
}

// Whether the entry may be one of a written part's: the range of time has its timestamp, and one entry has its fingerprint.
fn may_have(written: &Written, entry: &Entry) -> bool
    requires part { IsPart entry.now.labels (unwritten written.now.entries.value) }
    requires range { IsRange written.now.entries.value written.now.first written.now.last }
    requires fingerprints { AreFingerprints written.now.entries.value written.now.fingerprints }
    ensures absent { result ≡ false → Contains written.now.entries.value entry.now → ⊥ }
    ensures reaches { result ≡ true → IsApart entry.now.timestamp entry.now.timestamp written.now.entries.value → ⊥ }
{
    let moment = TimeRange {
        from: entry.timestamp,
        to: entry.timestamp,
    };
    if moment.is_apart(written.first, written.last) {
        return false;
    }
    let fingerprint = fingerprint_of(entry.timestamp, entry.line.as_str());
    has_fingerprint(written.fingerprints.as_slice(), fingerprint)
}

// Whether the entry is among those that a store has of a part. The store is read only where the part's range of time has
// the entry's timestamp, and one of its entries the same fingerprint.
pub(crate) fn has_written<S: Store>(
    chunks: &mut ChunkStore<S>,
    written: &Written,
    entry: &Entry,
) -> Result<bool, ReadFault>
    requires part { IsPart entry.now.labels (unwritten written.now.entries.value) }
    requires range { IsRange written.now.entries.value written.now.first written.now.last }
    requires fingerprints { AreFingerprints written.now.entries.value written.now.fingerprints }
    ensures reads { Reads chunks.old chunks.new }
    ensures counted { chunks.new.seen.faults ≡ after_read result chunks.old.seen.faults }
    ensures unread { IsApart entry.now.timestamp entry.now.timestamp written.now.entries.value → chunks.new ≡ chunks.old }
    ensures exact { IsApart entry.now.timestamp entry.now.timestamp written.now.entries.value → result ≡ Ok false }
    ensures yes { IfOk result (λ found. found ≡ true → (chunk : Chunk) × IsReadAs written.now.digest chunk × Contains chunk.lines (line_of entry.now)) }
    ensures no { IfOk result (λ found. found ≡ false → (Contains written.now.entries.value entry.now → ⊥) ⊎ ((chunk : Chunk) × IsReadAs written.now.digest chunk × (Contains chunk.lines (line_of entry.now) → ⊥))) }
    ensures right { IsKept chunks.old entry.now.labels (part_at (InStore written.now)) → chunks.old.seen.honest ≡ true → Right result (λ found. IsTrue found ↔ Contains written.now.entries.value entry.now) }
{
    if !may_have(written, entry) {
        return Ok(false);
    }
    let chunk = chunks.fetch(written.number, &written.digest)?;
    Ok(has_line(chunk.lines.as_slice(), entry))
}

// Whether a part in memory has the entry.
pub(crate) fn any_here(parts: &[Part], entry: &Entry) -> bool
    requires { AllByRecursion (IsPart entry.now.labels) parts.now }
    ensures { IsTrue result ↔ Contains (flat_map in_memory parts.now) entry.now }
{
    for part in parts {
        if part.has_here(entry) {
            return true;
        }
    }
    false
}

// Whether a store has the entry in a part.
pub(crate) fn any_there<S: Store>(
    chunks: &mut ChunkStore<S>,
    parts: &[Part],
    entry: &Entry,
) -> Result<bool, ReadFault>
    requires { AllByRecursion (IsPart entry.now.labels) parts.now }
    ensures reads { Reads chunks.old chunks.new }
    ensures counted { chunks.new.seen.faults ≡ after_read result chunks.old.seen.faults }
    ensures unread { AllByRecursion (IsOutside entry.now.timestamp entry.now.timestamp) parts.now → chunks.new ≡ chunks.old }
    ensures exact { AllByRecursion (IsOutside entry.now.timestamp entry.now.timestamp) parts.now → result ≡ Ok false }
    ensures yes { IfOk result (λ found. found ≡ true → (part : PartView) × Contains parts.now part × IsWith entry.now part) }
    ensures no { IfOk result (λ found. found ≡ false → AllByRecursion (IsWithout entry.now) parts.now) }
    ensures right { AllByRecursion (IsKept chunks.old entry.now.labels) parts.now → chunks.old.seen.honest ≡ true → Right result (λ found. IsTrue found ↔ Contains (flat_map in_store parts.now) entry.now) }
{
    for part in parts {
        if part.has_there(chunks, entry)? {
            return Ok(true);
        }
    }
    Ok(false)
}
