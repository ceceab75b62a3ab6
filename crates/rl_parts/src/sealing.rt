//! Heads: entries in order, and how a head becomes a part.
ghost use Rattle.std.specs.Prelude.{◌≡◌, ◌-◌, ◌<◌, max, [], ◌∷◌, ◌++◌, length, vec_len, vec_capacity, IfOk, IfErr, OnOk, OnErr};
ghost use Rattle.std.specs.Option.{unwrap_or};
ghost use Rattle.std.specs.List.{Contains};
ghost use Rattle.rl_parts.specs.StreamParts.{IsRun, unwritten};
ghost use Rattle.rl_parts.specs.PartState.{timestamp_at};
ghost use Rattle.rl_parts.specs.StreamState.{BelongsAt, IsPut};

use crate::part::Part;
use crate::stored::StoredEntry;
use rl_chunks::AsLine;
use rl_labels::{Entry, Ns};
use rl_plain::Shared;
use std::alloc::AllocError;
use std::mem;

// Where the entry stands among those of its stream, or else where it belongs. One that is greater than all belongs after
// them, and is not searched for.
pub(crate) fn search(entries: &[StoredEntry], entry: &Entry) -> Result<usize, usize>
    requires { IsRun entry.now.labels entries.now }
    ensures stands { IfOk result (λ _. Contains entries.now entry.now) }
    ensures belongs { IfErr result (λ index. BelongsAt entries.now entry.now index) }
{
    match entries.last() {
        Some(last) if last.order(entry).is_lt() => Err(entries.len()),
        _ => entries.binary_search_by(|stored| stored.order(entry)),
    }
}

// Where an entry that is not there belongs.
fn index_of(entries: &[StoredEntry], entry: &Entry) -> usize
    requires run { IsRun entry.now.labels entries.now }
    requires new { Contains entries.now entry.now → ⊥ }
    ensures { BelongsAt entries.now entry.now result }
{
    match search(entries, entry) {
        Ok(index) => index,
        Err(index) => index,
    }
}

// Puts an entry that is not there where it belongs. There is room for it.
pub(crate) fn put(entries: &mut Vec<StoredEntry>, entry: Shared<Entry>) -> Result<(), AllocError>
    requires run { IsRun entry.labels entries.old.items }
    requires new { Contains entries.old.items entry → ⊥ }
    ensures ok { OnOk result (IsPut entries.old.items entry entries.new.items) }
    ensures err { OnErr result (entries.new.items ≡ entries.old.items) }
{
    let index = index_of(entries, entry.get());
    entries.insert(index, StoredEntry::new(entry))?;
    Ok(())
}

// The later of two timestamps, if there is a first one.
pub(crate) fn later(before: Option<Ns>, timestamp: Ns) -> Ns
    ensures { result ≡ max (unwrap_or before 0) timestamp }
{
    match before {
        Some(before) if timestamp < before => before,
        _ => timestamp,
    }
}

// The newest timestamp in a part, once the head is one too.
fn sealed_past(sealed_to: Option<Ns>, head: &[StoredEntry]) -> Option<Ns>
    ensures { unwrap_or result 0 ≡ max (unwrap_or sealed_to 0) (timestamp_at head.now (length head.now - 1)) }
{
    match head.last() {
        None => sealed_to,
        Some(last) => Some(later(sealed_to, last.timestamp())),
    }
}

// Makes a part of a head. There is room for the part.
pub(crate) fn seal_head(
    parts: &mut Vec<Part>,
    head: &mut Vec<StoredEntry>,
    sealed_to: &mut Option<Ns>,
)
    requires { vec_len parts.old < vec_capacity parts.old }
    ensures parts { parts.new.items ≡ parts.old.items ++ unwritten head.old.items ∷ [] }
    ensures head { head.new.items ≡ [] }
    ensures sealed_to { unwrap_or sealed_to.new 0 ≡ max (unwrap_or sealed_to.old 0) (timestamp_at head.old.items (length head.old.items - 1)) }
{
    *sealed_to = sealed_past(*sealed_to, head);
    let none = Vec::new(*head.allocator());
    let entries = mem::replace(head, none);
    parts.push_reserved(Part::new(entries));
}
