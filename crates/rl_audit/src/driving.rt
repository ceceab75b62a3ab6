//! Books that are driven anew.
ghost use Rattle.std.specs.Prelude.{◌≡◌, ◌<◌, ◌≤◌, None, [], map, length, IfOk, IsTrue, OnOk};
ghost use Rattle.std.specs.List.{AllZip};
ghost use Rattle.rl_world.specs.BookCalls.{new_book, with_history};
ghost use Rattle.rl_world.specs.Evaluating.{group_terms};
ghost use Rattle.rl_world.specs.History.{alerts_of, committed, edited, gather_fault, gathered};
ghost use Rattle.rl_world.specs.ShardAnswers.{most_shards, AreOfOneShard};
ghost use Rattle.rl_audit.specs.Driven.{AreGathered, IsDriven, IsLater};
ghost use Rattle.rl_audit.specs.Founded.{IsAudited, IsFounded};

use crate::asked::{Question, partials_at};
use crate::fault::AuditFault;
use crate::notes::place_of;
use rl_aggregate::Partial;
use rl_chunks::Store;
use rl_plain::{OrMemory, PlainList, Same, Shared, TryCopy};
use rl_rules::{Evaluation, Group};
use rl_shard::Shard;
use rl_sinks::Sink;
use rl_world::{Book, BookError, Item, is_same_name};
use std::alloc::{AllocError, Global};

// The most edits and evaluations of a book.
const MOST_RECORDS: u64 = 1_048_576;

/// Whether each evaluation of a book is what the partials give that the records at its places have, and its places are after those
/// of the one before. A book without sinks is driven anew through the history. Mismatch has the first evaluation that differs.
pub(crate) fn audit_book<D: Store, S: Sink>(
    alloc: Global,
    shards: &mut [Shard<D>],
    book: &Book<S>,
) -> Result<(), AuditFault>
    requires few { length shards.old ≤ most_shards }
    ensures audited { OnOk result (IsAudited (map (λ shard. shard.journal) shards.old) book.now) }
    ensures same { shards.new ≡ shards.old }
{
    let mut driven = driven_from(alloc, book, shards.len())?;
    let mut index = 0u64;
    while let Some(item) = book.item(index) {
        drive(&mut driven, shards, item)?;
        let Some(next) = index.checked_add(1) else {
            return Err(AuditFault::Memory);
        };
        index = next;
    }
    Ok(())
}

// A book without sinks with a history that begins as another's.
fn driven_from<S: Sink>(alloc: Global, book: &Book<S>, shards: usize) -> Result<Book<S>, AllocError>
    requires { shards ≤ most_shards }
    ensures { IfOk result (λ driven. driven ≡ new_book book.now.slot 1048576 shards book.now.history.first []) }
{
    let first = book.first_group().try_copy()?;
    Book::open(
        alloc,
        first,
        book.slot(),
        shards,
        Vec::new(alloc),
        MOST_RECORDS,
    )
}

// Drives a book by one item more.
fn drive<D: Store, S: Sink>(
    driven: &mut Book<S>,
    shards: &mut [Shard<D>],
    item: &Item,
) -> Result<(), AuditFault>
    requires shards { driven.old.shards ≡ length shards.old }
    requires closed { driven.old.history.opened ≡ None }
    ensures driven { OnOk result (IsDriven (map (λ shard. shard.journal) shards.old) driven.old item.now driven.new) }
    ensures same { shards.new ≡ shards.old }
{
    match item {
        Item::Edited(group) => edit_again(driven, group),
        Item::Evaluated(evaluation) => evaluate_again(driven, shards, evaluation),
    }
}

// Drives a book by an edit.
fn edit_again<S: Sink>(driven: &mut Book<S>, to: &Shared<Group>) -> Result<(), AuditFault>
    ensures history { OnOk result (driven.new ≡ with_history driven.old (edited driven.old.history to.now)) }
{
    if !is_same_name(to.get(), driven.group()) {
        return Err(AuditFault::Mismatch { shard: 0, place: 0 });
    }
    match driven.edit(to.try_copy()?) {
        Ok(_index) => Ok(()),
        Err(error) => Err(fault_at(error, 0)),
    }
}

// Drives a book by an evaluation, on the partials of the records at its places. The two hold it once.
fn evaluate_again<D: Store, S: Sink>(
    driven: &mut Book<S>,
    shards: &mut [Shard<D>],
    evaluation: &Shared<Evaluation>,
) -> Result<(), AuditFault>
    requires shards { driven.old.shards ≡ length shards.old }
    requires closed { driven.old.history.opened ≡ None }
    ensures history { OnOk result (driven.new.history ≡ committed driven.old.history evaluation.now) }
    ensures rest { OnOk result ((driven.new.shards ≡ driven.old.shards) × (driven.new.slot ≡ driven.old.slot)) }
    ensures founded { OnOk result (IsFounded (map (λ shard. shard.journal) shards.old) driven.old.slot driven.old.history.group (alerts_of driven.old.history) evaluation.now) }
    ensures later { OnOk result (IsLater driven.old.history evaluation.now) }
    ensures same { shards.new ≡ shards.old }
{
    let given = evaluation.get();
    let place = place_of(Some(given));
    if !is_later(driven, given) {
        return Err(AuditFault::Mismatch { shard: 0, place });
    }
    gather_again(driven, shards, given)?;
    match driven.commit() {
        Ok(made) => {
            if made.evaluation.get().is_same(given) {
                driven.share_last(evaluation)?;
                Ok(())
            } else {
                Err(AuditFault::Mismatch { shard: 0, place })
            }
        }
        Err(error) => Err(fault_at(error, place)),
    }
}

// Whether the places of an evaluation are after those of the last one.
fn is_later<S: Sink>(driven: &Book<S>, evaluation: &Evaluation) -> bool
    ensures { IsTrue result → IsLater driven.now.history evaluation.now }
{
    let count = driven.evaluations();
    if count == 0 {
        return true;
    }
    match driven.evaluation(count - 1) {
        Some(last) => are_after(last.places.as_slice(), evaluation.places.as_slice()),
        None => true,
    }
}

// Whether there are as many places as others, each before the other.
fn are_after(places: &[u64], later: &[u64]) -> bool
    ensures { IsTrue result → AllZip (λ place later. place < later) places.now later.now }
{
    places.len() == later.len() && places.iter().zip(later).all(|(place, later)| place < later)
}

// Opens an evaluation of a book, and gives it the partials of the records at places.
fn gather_again<D: Store, S: Sink>(
    driven: &mut Book<S>,
    shards: &mut [Shard<D>],
    evaluation: &Evaluation,
) -> Result<(), AuditFault>
    requires shards { driven.old.shards ≡ length shards.old }
    requires closed { driven.old.history.opened ≡ None }
    ensures gathered { OnOk result (AreGathered (map (λ shard. shard.journal) shards.old) (length shards.old) evaluation.now.t driven.old driven.new) }
    ensures same { shards.new ≡ shards.old }
{
    let question = Question {
        slot: driven.slot(),
        terms: driven.terms().try_copy()?,
        t: evaluation.t,
    };
    let place = place_of(Some(evaluation));
    match driven.begin(evaluation.t) {
        Ok(()) => {}
        Err(error) => return Err(fault_at(error, place)),
    }
    for number in 0..shards.len() {
        let Some(own) = evaluation.places.as_slice().get(number) else {
            return Err(AuditFault::Mismatch { shard: 0, place });
        };
        let Some(shown) = partials_at(&mut shards[number], *own, &question)? else {
            return Err(AuditFault::Mismatch { shard: 0, place });
        };
        put_again(driven, number, *own, shown);
    }
    Ok(())
}

// Gives an open evaluation the partials of a shard that was not asked.
fn put_again<S: Sink>(
    driven: &mut Book<S>,
    number: usize,
    place: u64,
    shown: PlainList<Shared<Partial>>,
)
    requires there { number < driven.old.shards }
    requires free { gather_fault driven.old.history number ≡ None }
    requires one_shard { AreOfOneShard (length (group_terms driven.old.history.group)) shown }
    ensures { driven.new ≡ with_history driven.old (gathered driven.old.history number place shown) }
{
    match driven.put_partials(number, place, shown) {
        Ok(()) => {}
        Err(_) => unreachable!(),
    }
}

// Why a driven book refuses: it has no memory, or what it is given differs.
fn fault_at(error: BookError, place: u64) -> AuditFault {
    match error {
        OrMemory::Memory => AuditFault::Memory,
        OrMemory::Fault(_) => AuditFault::Mismatch { shard: 0, place },
    }
}
