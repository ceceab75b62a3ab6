//! Fingerprints of entries, which show that an entry is not in a part that a store has.
ghost use Rattle.std.specs.Prelude.{◌≡◌, IsTrue, ◌↔◌, IfOk};
ghost use Rattle.std.specs.Ordering.{nat_cmp};
ghost use Rattle.std.specs.List.{Contains};
ghost use Rattle.std.specs.List.Sorted.{IsSorted};
ghost use Rattle.rl_parts.specs.Fingerprints.{fingerprint, AreFingerprints};

use crate::stored::StoredEntry;
use rl_chunks::AsLine;
use rl_labels::Ns;
use rl_plain::PlainList;
use std::alloc::{AllocError, Global};
use std::hash::{FoldHasher, Hasher};

// The fingerprint of a line. Equal lines have the same one, and others seldom.
pub(crate) fn fingerprint_of(timestamp: Ns, text: &str) -> u64
    ensures { result ≡ fingerprint (record { timestamp = timestamp; text = text.now }) }
{
    let mut hasher = FoldHasher::default();
    hasher.write_u64(timestamp.get());
    hasher.write(text.as_bytes());
    hasher.finish()
}

// The fingerprints of entries, in rising order.
pub(crate) fn fingerprints_of(
    alloc: Global,
    entries: &[StoredEntry],
) -> Result<PlainList<u64>, AllocError>
    ensures { IfOk result (λ fingerprints. AreFingerprints entries.now fingerprints) }
{
    let mut fingerprints = Vec::with_capacity(alloc, entries.len())?;
    for entry in entries {
        fingerprints.push(fingerprint_of(entry.timestamp(), entry.text()))?;
    }
    fingerprints.sort_unstable();
    Ok(PlainList::from_vec(fingerprints))
}

// Whether the fingerprint is one of these, which are in rising order.
pub(crate) fn has_fingerprint(fingerprints: &[u64], fingerprint: u64) -> bool
    requires { IsSorted nat_cmp fingerprints.now }
    ensures { IsTrue result ↔ Contains fingerprints.now fingerprint }
{
    fingerprints.binary_search(&fingerprint).is_ok()
}
