//! Plans of streams without their covered entries. A plan is made over a stream that is only read, and may be refused; it is
//! carried out without memory, and is not refused.
ghost use Rattle.std.specs.Prelude.{◌≡◌, ◌+◌, ◌<◌, ◌≤◌, ◌^◌, ◌++◌, [], IfOk, IsErrOf, OnOk, length, true, vec_capacity, vec_len};
ghost use Rattle.std.specs.List.{AllByRecursion};
ghost use Rattle.rl_chunks.specs.StoreState.{greatest};
ghost use Rattle.rl_parts.specs.Rewriting.{AreRewritten, IsOneMore, after_rewrite, carried, entries_in, gone_by, left_by};
ghost use Rattle.rl_parts.specs.StoreUse.{ArePut, IsKept};
ghost use Rattle.rl_parts.specs.StreamParts.{IsPart};

use crate::chunk_store::ChunkStore;
use crate::fault::RewriteFault;
use crate::part::Part;
use crate::stored::StoredEntry;
use crate::stream::Stream;
use rl_chunks::Store;
use rl_labels::{Covers, Labels, Ns};
use std::alloc::AllocError;
use std::marker::Model;
use std::snapshot::Snapshot;

// What becomes of a part.
#[derive(Drop)]
pub(crate) enum Change {
    Stays,
    Goes,
    Becomes(Part),
}

// What becomes of parts in turn, and the numbers that are gone.
#[derive(Drop)]
pub(crate) struct Changes {
    pub(crate) of_parts: Vec<Change>,
    pub(crate) gone: Vec<u64>,
}

/// What a stream becomes without covered entries, with all that this takes. Contracts see the stream, what it becomes, and the
/// numbers that are no longer used then.
#[derive(Drop)]
pub struct Plan {
    pub(crate) of: Snapshot<Stream>,
    pub(crate) changes: Vec<Change>,
    // Room for the parts.
    pub(crate) room: Vec<Part>,
    pub(crate) head: Vec<StoredEntry>,
    pub(crate) sealed_to: Option<Ns>,
    pub(crate) gone: Vec<u64>,
}

impl Model for Plan {
    ghost use Rattle.rl_parts.specs.Rewriting.{PlanView, plan_code, planned};

    ghost Value = { PlanView };

    ghost coded = { plan_code };

    ghost use Rattle.std.specs.Prelude.{◌≡◌, ◌≤◌, [], length, vec_capacity};
    ghost use Rattle.rl_parts.specs.StreamState.{IsInOrder};

    ghost view = { λ a. record { of = a.of.value; becomes = planned a.of.value a.changes.items a.head.items; gone = a.gone.items } };

    ghost invariant = { λ a. IsInOrder (planned a.of.value a.changes.items a.head.items) a.sealed_to × (a.room.items ≡ []) × (length a.of.value.parts ≤ vec_capacity a.room) };
}

// Appends the number of a part that does not stay.
fn push_gone(gone: &mut Vec<u64>, part: &Part, change: &Change) -> Result<(), AllocError>
    ensures { OnOk result (gone.new.items ≡ gone.old.items ++ gone_by part.now change.now) }
{
    if matches!(change, Change::Stays) {
        return Ok(());
    }
    if let Some(number) = part.number() {
        gone.push(number)?;
    }
    Ok(())
}

// Plans one part more.
fn plan_part<S: Store, C: Covers>(
    chunks: &mut ChunkStore<S>,
    covered: &C,
    labels: &Labels,
    part: &Part,
    changes: &mut Changes,
) -> Result<(), RewriteFault>
    requires { IsPart labels.now part.now }
    ensures more { OnOk result (IsOneMore (C.covers covered.now) labels.now part.now chunks.old chunks.new changes.old changes.new) }
    ensures undamaged { IsKept chunks.old labels.now part.now → chunks.old.seen.honest ≡ true → IsErrOf result RewriteFault.Damaged → ⊥ }
    ensures puts { ArePut result chunks.old chunks.new }
    ensures counted { chunks.new.seen.faults ≡ after_rewrite result chunks.old.seen.faults }
    ensures spent { IsErrOf result RewriteFault.NumbersSpent → chunks.new.next ≡ greatest }
{
    let change = part.rewrite(chunks, covered, labels)?;
    push_gone(&mut changes.gone, part, &change)?;
    changes.of_parts.push(change)?;
    Ok(())
}

// What becomes of each part in turn.
pub(crate) fn plan_parts<S: Store, C: Covers>(
    chunks: &mut ChunkStore<S>,
    covered: &C,
    labels: &Labels,
    parts: &[Part],
) -> Result<Changes, RewriteFault>
    requires { AllByRecursion (IsPart labels.now) parts.now }
    ensures rewritten { IfOk result (λ changes. AreRewritten (C.covers covered.now) labels.now parts.now chunks.old (carried parts.now changes.of_parts.items) changes.gone.items chunks.new) }
    ensures undamaged { AllByRecursion (IsKept chunks.old labels.now) parts.now → chunks.old.seen.honest ≡ true → IsErrOf result RewriteFault.Damaged → ⊥ }
    ensures puts { ArePut result chunks.old chunks.new }
    ensures counted { chunks.new.seen.faults ≡ after_rewrite result chunks.old.seen.faults }
    ensures spent { IsErrOf result RewriteFault.NumbersSpent → chunks.new.next ≡ greatest }
{
    let alloc = *chunks.allocator();
    let mut changes = Changes {
        of_parts: Vec::new(alloc),
        gone: Vec::new(alloc),
    };
    for part in parts {
        plan_part(chunks, covered, labels, part, &mut changes)?;
    }
    Ok(changes)
}

// Appends what is left of a part. There is room for it.
fn push_left(left: &mut Vec<Part>, part: Part, change: Change)
    requires { vec_len left.old < vec_capacity left.old }
    ensures items { left.new.items ≡ left.old.items ++ left_by part change }
    ensures len { vec_len left.new ≤ vec_len left.old + 1 }
    ensures capacity { vec_capacity left.new ≡ vec_capacity left.old }
{
    match change {
        Change::Stays => left.push_reserved(part),
        Change::Goes => {}
        Change::Becomes(now) => left.push_reserved(now),
    }
}

// The parts with their changes. There is room for all of them.
pub(crate) fn carry(parts: Vec<Part>, changes: Vec<Change>, room: Vec<Part>) -> Vec<Part>
    requires none { room.items ≡ [] }
    requires room { length parts.items ≤ vec_capacity room }
    ensures { result.items ≡ carried parts.items changes.items }
{
    let mut left = room;
    let mut rest = changes.into_iter();
    for part in parts {
        match rest.next() {
            Some(change) => push_left(&mut left, part, change),
            None => return left,
        }
    }
    left
}

// How many entries the parts have.
pub(crate) fn count_parts(parts: &[Part]) -> u64
    requires { length (entries_in parts.now) < 2 ^ 64 }
    ensures { result ≡ length (entries_in parts.now) }
{
    let mut count = 0;
    for part in parts {
        count += part.len() as u64;
    }
    count
}
