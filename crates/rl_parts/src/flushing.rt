//! Parts that are written to a store.
ghost use Rattle.std.specs.Prelude.{◌≡◌, ◌+◌, ◌<◌, length, Err, IfOk, IsErrOf, OnOk, MatchResult};
ghost use Rattle.std.specs.List.{AllByRecursion};
ghost use Rattle.rl_chunks.specs.StoreState.{greatest};
ghost use Rattle.rl_parts.specs.StreamParts.{IsPart, unwritten};
ghost use Rattle.rl_parts.specs.PartState.{IsRange, IsWritten};
ghost use Rattle.rl_parts.specs.StoreUse.{ArePut, IsKept, after_flush};
ghost use Rattle.rl_parts.specs.Changes.{AreNoted, unwritten_count};

use crate::chunk_store::ChunkStore;
use crate::fault::FlushFault;
use crate::fingerprints::fingerprints_of;
use crate::part::{Part, Written};
use crate::stored::StoredEntry;
use rl_chunks::{AsLine, Store, encode};
use rl_labels::{Labels, Ns};
use rl_plain::PlainList;
use sha2::{Digest, Sha256};
use std::snapshot::Snapshot;

// The timestamps of the first and the last entry.
fn range_of(entries: &[StoredEntry]) -> (Ns, Ns)
    requires { 0 < length entries.now }
    ensures { IsRange entries.now result.0 result.1 }
{
    let first = entries[0].timestamp();
    let last = entries[entries.len() - 1].timestamp();
    (first, last)
}

// Writes entries of a stream under the next number. The greatest number is not given.
pub(crate) fn write_entries<S: Store>(
    chunks: &mut ChunkStore<S>,
    labels: &Labels,
    entries: &PlainList<StoredEntry>,
) -> Result<Written, FlushFault>
    requires { IsPart labels.now (unwritten entries.now) }
    ensures written { IfOk result (IsWritten chunks.new labels.now entries.now chunks.old.next) }
    ensures next { MatchResult result (λ _. chunks.new.next ≡ chunks.old.next + 1) (λ _. chunks.new.next ≡ chunks.old.next) }
    ensures puts { ArePut result chunks.old chunks.new }
    ensures counted { chunks.new.seen.faults ≡ after_flush result chunks.old.seen.faults }
    ensures spent_first { chunks.old.next ≡ greatest → (result ≡ Err FlushFault.NumbersSpent) × (chunks.new ≡ chunks.old) }
    ensures spent { IsErrOf result FlushFault.NumbersSpent → chunks.new.next ≡ greatest }
{
    if chunks.next() == u64::MAX {
        return Err(FlushFault::NumbersSpent);
    }
    let alloc = *chunks.allocator();
    let bytes = encode(alloc, labels, entries.as_slice())?;
    let digest = Sha256::digest(bytes.as_slice());
    let fingerprints = fingerprints_of(alloc, entries.as_slice())?;
    let number = chunks.put(bytes)?;
    let (first, last) = range_of(entries.as_slice());
    Ok(Written {
        number,
        digest,
        first,
        last,
        fingerprints,
        entries: Snapshot::of(entries),
    })
}

// Writes each part that no store has, in order, under the numbers from the next on.
pub(crate) fn write_parts<S: Store>(
    chunks: &mut ChunkStore<S>,
    labels: &Labels,
    parts: &mut [Part],
) -> Result<(), FlushFault>
    requires { AllByRecursion (IsPart labels.now) parts.old }
    ensures noted { AreNoted parts.old chunks.old.next parts.new chunks.new.next }
    ensures kept { AllByRecursion (IsKept chunks.old labels.now) parts.old → AllByRecursion (IsKept chunks.new labels.now) parts.new }
    ensures counted_parts { chunks.new.next + unwritten_count parts.new ≡ chunks.old.next + unwritten_count parts.old }
    ensures all { OnOk result (unwritten_count parts.new ≡ 0) }
    ensures puts { ArePut result chunks.old chunks.new }
    ensures counted { chunks.new.seen.faults ≡ after_flush result chunks.old.seen.faults }
    ensures spent { IsErrOf result FlushFault.NumbersSpent → chunks.new.next ≡ greatest }
{
    for index in 0..parts.len() {
        let part = &mut parts[index];
        part.write(chunks, labels)?;
    }
    Ok(())
}
