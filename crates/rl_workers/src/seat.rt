//! The book of a group under its lock.
ghost use Rattle.std.specs.Prelude.{◌≡◌, ◌≤◌, ◌<◌, None, false, is_some, length, IfOk, IfErr, OnOk, OnErr};
ghost use Rattle.rl_world.specs.BookCalls.{with_history};
ghost use Rattle.rl_world.specs.History.{begin_fault, begun, edited, gather_fault};
ghost use Rattle.rl_workers.specs.Seats.{late_fault, refusal_to_begin, refusal_to_commit, AreGathered, IsCommitted, IsGathered, IsLeftOpen, IsNotEdited, IsNotBegun, IsNotEvaluated, IsNotGathered, MayNotBegin, MayNotCommit};
ghost use Rattle.rl_plain.specs.declared.refusal.OrMemory.TheVariants as errors;

use crate::crew::Crew;
use crate::desk::{Desks, Question};
use crate::fault::{EditFault, EvaluationFault};
use crate::pass::Pass;
use rl_chunks::Store;
use rl_labels::Ns;
use rl_plain::{OrMemory, Shared, TryCopy};
use rl_rules::Group;
use rl_shard::ShardFault;
use rl_sinks::Sink;
use rl_world::{Book, BookError, BookFault, Committed, is_same_name};
use std::marker::PhantomData;
use std::sync::Wait;

/// A book that has no evaluation open, and that asks as many shards as the ledger of records has parts.
#[derive(Drop)]
pub(crate) struct Seat<S: Sink, L: Crew> {
    pub(crate) book: Book<S>,
    pub(crate) of: PhantomData<L>,
    ghost closed: { is_some book.history.opened ≡ false },
    ghost shards: { book.shards ≡ L.all },
}

impl<S: Sink, L: Crew> Seat<S, L> {
    // Takes the place of a book that has no evaluation open.
    pub(crate) fn new(book: Book<S>) -> Self
        requires closed { is_some book.history.opened ≡ false }
        requires shards { book.shards ≡ L.all }
        ensures { result.book ≡ book }
    {
        Seat {
            book,
            of: PhantomData,
        }
    }
}

// A book evaluates its group at a moment: it asks each shard in order and commits. Where it is refused nothing is committed. A pass
// with room has a receipt of each question that a shard recorded.
pub(crate) fn evaluate<D: Store, S: Sink, L: Crew, P: Crew, R: Wait>(
    rt: &R,
    book: &mut Book<S>,
    desks: &Desks<D, L, P>,
    pass: &mut Pass<P>,
    t: Ns,
) -> Result<Committed, EvaluationFault>
    requires closed { is_some book.old.history.opened ≡ false }
    requires shards { book.old.shards ≡ length desks.now.shards.items }
    requires room { book.old.shards ≤ pass.old.receipt_room }
    ensures closed { is_some book.new.history.opened ≡ false }
    ensures shards { book.new.shards ≡ book.old.shards }
    ensures evaluated { IfOk result (λ committed. IsCommitted t book.old pass.old committed book.new pass.new) }
    ensures room { OnOk result (pass.new.note_room ≡ pass.old.note_room) }
    ensures refused { IfErr result (λ fault. IsNotEvaluated fault t book.old pass.old book.new pass.new) }
{
    match finish(rt, book, desks, pass, t) {
        Ok(committed) => Ok(committed),
        Err(fault) => {
            let _ = book.abandon();
            Err(fault)
        }
    }
}

// Asks each shard and commits. Where it is refused an evaluation may be left open.
fn finish<D: Store, S: Sink, L: Crew, P: Crew, R: Wait>(
    rt: &R,
    book: &mut Book<S>,
    desks: &Desks<D, L, P>,
    pass: &mut Pass<P>,
    t: Ns,
) -> Result<Committed, EvaluationFault>
    requires closed { is_some book.old.history.opened ≡ false }
    requires shards { book.old.shards ≡ length desks.now.shards.items }
    requires room { book.old.shards ≤ pass.old.receipt_room }
    ensures evaluated { IfOk result (λ committed. IsCommitted t book.old pass.old committed book.new pass.new) }
    ensures rest { OnOk result ((is_some book.new.history.opened ≡ false) × (book.new.shards ≡ book.old.shards) × (pass.new.note_room ≡ pass.old.note_room)) }
    ensures refused { IfErr result (λ fault. IsLeftOpen fault t book.old pass.old book.new pass.new) }
{
    ask_each(rt, book, desks, pass, t)?;
    match book.commit() {
        Ok(committed) => Ok(committed),
        Err(error) => Err(commit_fault(error)),
    }
}

// Opens an evaluation of a book at a moment, and asks each shard in order.
fn ask_each<D: Store, S: Sink, L: Crew, P: Crew, R: Wait>(
    rt: &R,
    book: &mut Book<S>,
    desks: &Desks<D, L, P>,
    pass: &mut Pass<P>,
    t: Ns,
) -> Result<(), EvaluationFault>
    requires closed { is_some book.old.history.opened ≡ false }
    requires shards { book.old.shards ≡ length desks.now.shards.items }
    requires room { book.old.shards ≤ pass.old.receipt_room }
    ensures gathered { OnOk result (AreGathered book.old.shards t book.old pass.old book.new pass.new) }
    ensures refused { IfErr result (λ fault. IsNotGathered fault t book.old pass.old book.new pass.new) }
{
    begin(book, t)?;
    for number in 0..desks.len() {
        match gather(rt, book, desks, pass, number) {
            Ok(()) => {}
            Err(fault) => {
                return Err(EvaluationFault::AtShard {
                    shard: number,
                    fault,
                });
            }
        }
    }
    Ok(())
}

// Opens an evaluation of a book that has none open.
fn begin<S: Sink>(book: &mut Book<S>, t: Ns) -> Result<(), EvaluationFault>
    requires { is_some book.old.history.opened ≡ false }
    ensures ok { OnOk result ((begin_fault book.old.history t ≡ None) × (book.new ≡ with_history book.old (begun book.old.shards book.old.history t))) }
    ensures err { OnErr result (book.new ≡ book.old) }
    ensures refused { IfErr result (λ fault. IsNotBegun fault book.old t) }
{
    match book.begin(t) {
        Ok(()) => Ok(()),
        Err(error) => Err(begin_refusal(error)),
    }
}

// Why a book that has no evaluation open did not begin one.
fn begin_refusal(error: BookError) -> EvaluationFault
    requires { MayNotBegin error }
    ensures { result ≡ refusal_to_begin error }
{
    match error {
        OrMemory::Fault(fault) => late(fault),
        OrMemory::Memory => EvaluationFault::Memory,
    }
}

// A moment that is not later, as an evaluation is refused for it.
fn late(fault: BookFault) -> EvaluationFault
    requires { MayNotBegin (errors.Fault fault) }
    ensures { result ≡ late_fault fault }
{
    match fault {
        BookFault::MomentNotLater { last } => EvaluationFault::MomentNotLater { last },
        _ => unreachable!(),
    }
}

// Asks a shard for the open evaluation of a book, which keeps its answer.
fn gather<D: Store, S: Sink, L: Crew, P: Crew, R: Wait>(
    rt: &R,
    book: &mut Book<S>,
    desks: &Desks<D, L, P>,
    pass: &mut Pass<P>,
    number: usize,
) -> Result<(), ShardFault>
    requires there { (number < book.old.shards) × (number < length desks.now.shards.items) }
    requires free { gather_fault book.old.history number ≡ None }
    requires room { 0 < pass.old.receipt_room }
    ensures gathered { OnOk result (IsGathered number book.old pass.old book.new pass.new) }
    ensures err { OnErr result ((book.new ≡ book.old) × (pass.new ≡ pass.old)) }
{
    let Ok(t) = book.asks(number) else {
        unreachable!()
    };
    let question = Question {
        slot: book.slot(),
        terms: book.terms().try_copy()?,
        t,
    };
    let (place, shown) = desks.collect(rt, pass, number, question)?;
    match book.put_partials(number, place, shown) {
        Ok(()) => Ok(()),
        Err(_) => unreachable!(),
    }
}

// Why a complete evaluation was not committed.
fn commit_fault(error: BookError) -> EvaluationFault
    requires { MayNotCommit error }
    ensures { result ≡ refusal_to_commit error }
{
    match error {
        OrMemory::Fault(BookFault::SessionFull) => EvaluationFault::SessionFull,
        OrMemory::Fault(_) => unreachable!(),
        OrMemory::Memory => EvaluationFault::Memory,
    }
}

// Replaces the group of a book by one of the same name: the index of the edit in its history.
pub(crate) fn edit<S: Sink>(book: &mut Book<S>, to: Shared<Group>) -> Result<u64, EditFault>
    requires closed { is_some book.old.history.opened ≡ false }
    ensures closed { is_some book.new.history.opened ≡ false }
    ensures shards { book.new.shards ≡ book.old.shards }
    ensures index { IfOk result (λ index. index ≡ length book.old.history.items) }
    ensures edited { OnOk result (book.new ≡ with_history book.old (edited book.old.history to)) }
    ensures refused { IfErr result (λ fault. IsNotEdited fault to book.old) }
    ensures err { OnErr result (book.new ≡ book.old) }
{
    if !is_same_name(to.get(), book.group()) {
        return Err(EditFault::NoSuch);
    }
    match book.edit(to) {
        Ok(index) => Ok(index),
        Err(OrMemory::Fault(BookFault::SessionFull)) => Err(EditFault::SessionFull),
        Err(OrMemory::Fault(_)) => unreachable!(),
        Err(OrMemory::Memory) => Err(EditFault::Memory),
    }
}
