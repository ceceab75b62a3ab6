//! The audit of notes.
ghost use Rattle.std.specs.Prelude.{◌≡◌, ◌++◌, ◌∷◌, [], if◌then◌else◌, List, Some, map, length, slice_get, slice_index_or, IfOk, IfSome, IsSome, IsTrue, OnOk};
ghost use Rattle.std.specs.List.{AllByRecursion};
ghost use Rattle.rl_audit.specs.Claims.{IsRight, Place};
ghost use Rattle.rl_audit.specs.Flagged.{StandFor};
ghost use Rattle.rl_rules.specs.declared.evaluation.Evaluation.{Evaluation};
ghost use Rattle.rl_sinks.specs.Texts.{tail_text};
ghost use Rattle.rl_world.specs.declared.item.Item.TheVariants as kinds;
ghost use Rattle.sha2.specs.Sha256.{sha256};
ghost use Rattle.rl_audit.specs.Merged.{evaluation_indices, is_evaluated, item_of, AreNoted, Describes};

use crate::carrier::Carrier;
use crate::fault::AuditFault;
use crate::flags::Flags;
use crate::receipt::Note;
use rl_plain::{PlainList, Same};
use rl_rules::{Evaluation, Group};
use rl_sinks::{Sink, tail_digest};
use rl_world::{Book, Item};
use std::alloc::{AllocError, Global};

/// Where the evaluations of a history stand in it, and how many items it has.
#[derive(Drop)]
struct Index {
    evaluations: PlainList<usize>,
    items: usize,
}

/// Whether the notes of all callers name each evaluation and each edit of the books once and nothing else, each as it was, and those
/// of one caller rise in each book. Mismatch has the first note that does not, else the first item that none names.
pub(crate) fn audit_notes<S: Sink, C: Carrier>(
    alloc: Global,
    books: &[Book<S>],
    callers: &[C],
) -> Result<(), AuditFault>
    ensures { OnOk result (AreNoted (map (λ book. book.history.items) books.now) (map C.notes callers.now)) }
{
    let indices = indices_of(alloc, books)?;
    let mut flags = Flags::new(alloc, &sizes_of(alloc, &indices)?)?;
    for caller in callers {
        claim_all(&mut flags, books, &indices, caller.notes())?;
        flags.next_caller();
    }
    match flags.unclaimed() {
        Some((group, index)) => Err(mismatch_at(books, group, index as u64)),
        None => Ok(()),
    }
}

// Where the evaluations of each book stand.
fn indices_of<S: Sink>(alloc: Global, books: &[Book<S>]) -> Result<Vec<Index>, AllocError>
    ensures evaluations { IfOk result (λ indices. map (λ own. own.evaluations) indices.items ≡ map (λ book. evaluation_indices 0 book.history.items) books.now) }
    ensures items { IfOk result (λ indices. map (λ own. own.items) indices.items ≡ map (λ book. length book.history.items) books.now) }
{
    let mut indices = Vec::with_capacity(alloc, books.len())?;
    for book in books {
        indices.push_reserved(index_of(alloc, book)?);
    }
    Ok(indices)
}

// Where the evaluations of a book stand.
fn index_of<S: Sink>(alloc: Global, book: &Book<S>) -> Result<Index, AllocError>
    ensures evaluations { IfOk result (λ own. own.evaluations ≡ evaluation_indices 0 book.now.history.items) }
    ensures items { IfOk result (λ own. own.items ≡ length book.now.history.items) }
{
    let mut evaluations = Vec::new(alloc);
    let mut items = 0usize;
    while let Some(item) = book.item(items as u64) {
        add_evaluation(&mut evaluations, items, item)?;
        let Some(next) = items.checked_add(1) else {
            return Err(AllocError);
        };
        items = next;
    }
    Ok(Index {
        evaluations: PlainList::from_vec(evaluations),
        items,
    })
}

// The index of an item that is an evaluation.
fn add_evaluation(evaluations: &mut Vec<usize>, index: usize, item: &Item) -> Result<(), AllocError>
    ensures { OnOk result (evaluations.new.items ≡ evaluations.old.items ++ (if is_evaluated item.now then index ∷ [] else [])) }
{
    match item {
        Item::Evaluated(_) => {
            evaluations.push(index)?;
            Ok(())
        }
        Item::Edited(_) => Ok(()),
    }
}

// How many items each history has.
fn sizes_of(alloc: Global, indices: &[Index]) -> Result<Vec<usize>, AllocError>
    ensures { IfOk result (λ sizes. sizes.items ≡ map (λ own. own.items) indices.now) }
{
    let mut sizes = Vec::with_capacity(alloc, indices.len())?;
    for own in indices {
        sizes.push_reserved(own.items);
    }
    Ok(sizes)
}

// A caller claims the item of each note, which it describes.
fn claim_all<S: Sink>(
    flags: &mut Flags,
    books: &[Book<S>],
    indices: &[Index],
    notes: &[Note],
) -> Result<(), AuditFault>
    requires { map (λ own. own.evaluations) indices.now ≡ map (λ book. evaluation_indices 0 book.history.items) books.now }
    ensures sizes { map length flags.new.flags.items ≡ map length flags.old.flags.items }
    ensures claimed { OnOk result ((before : List Place) → StandFor flags.old.flags.items flags.old.nexts before [] → StandFor flags.new.flags.items flags.new.nexts before (map (item_of (map (λ book. book.history.items) books.now)) notes.now)) }
    ensures right { OnOk result (AllByRecursion (IsRight (map (λ book. book.history.items) books.now) (item_of (map (λ book. book.history.items) books.now)) Describes) notes.now) }
{
    for note in notes {
        let Some((group, index)) = item_of(books, indices, note) else {
            return Err(mismatch_of(books, note));
        };
        if !flags.claim(group, index) {
            return Err(mismatch_of(books, note));
        }
    }
    Ok(())
}

// The item that a note names, if it describes it.
fn item_of<S: Sink>(books: &[Book<S>], indices: &[Index], note: &Note) -> Option<(usize, usize)>
    requires { map (λ own. own.evaluations) indices.now ≡ map (λ book. evaluation_indices 0 book.history.items) books.now }
    ensures named { IfSome result (λ place. place ≡ item_of (map (λ book. book.history.items) books.now) note.now) }
    ensures right { IsSome result → IsRight (map (λ book. book.history.items) books.now) (item_of (map (λ book. book.history.items) books.now)) Describes note.now }
{
    match note {
        Note::Evaluated {
            group,
            number,
            digest,
        } => {
            let index = evaluation_at(books.get(*group)?, indices.get(*group)?, *number, digest)?;
            Some((*group, index))
        }
        Note::Edited { group, index, to } => {
            if !is_edit(books.get(*group)?, *index, to.get()) {
                return None;
            }
            Some((*group, *index as usize))
        }
    }
}

// Where an evaluation stands by its number, if it has a digest.
fn evaluation_at<S: Sink>(
    book: &Book<S>,
    own: &Index,
    number: u64,
    digest: &[u8; 32],
) -> Option<usize>
    requires { own.now.evaluations ≡ evaluation_indices 0 book.now.history.items }
    ensures there { IfSome result (λ index. index ≡ slice_index_or (evaluation_indices 0 book.now.history.items) number (length book.now.history.items)) }
    ensures right { IfSome result (λ index. (evaluation : Evaluation) × (slice_get book.now.history.items index ≡ Some (kinds.Evaluated evaluation)) × (digest.now ≡ sha256 (tail_text evaluation))) }
{
    let evaluation = book.evaluation(number)?;
    let index = *own.evaluations.as_slice().get(number as usize)?;
    if tail_digest(evaluation) == *digest {
        Some(index)
    } else {
        None
    }
}

// Whether a book was edited at an index to this group.
fn is_edit<S: Sink>(book: &Book<S>, index: u64, to: &Group) -> bool
    ensures { IsTrue result → slice_get book.now.history.items index ≡ Some (kinds.Edited to.now) }
{
    match book.item(index) {
        Some(Item::Edited(group)) => group.get().is_same(to),
        _ => false,
    }
}

// That a note differs.
fn mismatch_of<S: Sink>(books: &[Book<S>], note: &Note) -> AuditFault {
    let place = match note {
        Note::Evaluated { group, number, .. } => match books.get(*group) {
            Some(book) => place_of(book.evaluation(*number)),
            None => 0,
        },
        Note::Edited { .. } => 0,
    };
    AuditFault::Mismatch { shard: 0, place }
}

// That no note names an item.
fn mismatch_at<S: Sink>(books: &[Book<S>], group: usize, index: u64) -> AuditFault {
    let place = match books.get(group) {
        Some(book) => match book.item(index) {
            Some(Item::Evaluated(evaluation)) => place_of(Some(evaluation.get())),
            _ => 0,
        },
        None => 0,
    };
    AuditFault::Mismatch { shard: 0, place }
}

// The place of an evaluation in the journal of the first shard, and 0 if there is none.
pub(crate) fn place_of(evaluation: Option<&Evaluation>) -> u64 {
    match evaluation {
        Some(evaluation) => evaluation.places.as_slice().first().copied().unwrap_or(0),
        None => 0,
    }
}
