//! The end of a ruler.
ghost use Rattle.std.specs.Prelude.{◌≡◌, ◌+◌, ◌<◌, ◌≤◌, ◌++◌, [], true, map, length, vec_len, vec_capacity, IfOk, IfErr, OnOk};
ghost use Rattle.std.specs.List.{AllByRecursion, sum_by};
ghost use Rattle.std.proofs.Props.{props};
ghost use Rattle.rl_audit.specs.Founded.{AreFromScratch, IsAudited};
ghost use Rattle.rl_audit.specs.Merged.{AreMerged, AreNoted};
ghost use Rattle.rl_shard.specs.ShardFault.{IsHonest};
ghost use Rattle.rl_world.specs.WorldState.{with_sinks};
ghost use Rattle.rl_workers.specs.Closing.{unclosed_in, unclosed_of, without_sinks, AreClosed, IsOfAudit, IsSeated};
ghost use Rattle.rl_workers.specs.declared.fault.CloseFault.TheVariants as faults;

use crate::crew::Crew;
use crate::desk::{Desk, Desks};
use crate::ended::{Ended, NotClosed};
use crate::fault::CloseFault;
use crate::pass::Pass;
use crate::ruler::Ruler;
use crate::seat::Seat;
use crate::tally::Tally;
use rl_audit::{AuditFault, audit};
use rl_chunks::Store;
use rl_shard::Shard;
use rl_sinks::Sink;
use rl_world::Book;
use std::alloc::{AllocError, Global};
use std::sync::Mutex;
use std::sync::ledger::Share;

impl<D: Store, S: Sink, L: Crew, P: Crew> Ruler<D, S, L, P> {
    /// Ends the ruler, with the passes of all callers: their receipts are as many as the records of all shards, and the audit finds
    /// journals and histories to be what the passes have. The sinks are closed. A refusal leaves all as it was; PassMissing comes
    /// before what the audit meets. Takes no lock, and waits for nothing.
    pub fn close(self, passes: Vec<Pass<P>>) -> Result<Ended<D, S>, NotClosed<D, S, L, P>>
        requires parts { (L.parts ≡ L.all) × (P.parts ≡ P.all) }
        ensures missing { length passes.items < self.callers → IfErr result (λ left. left.fault ≡ faults.PassMissing) × IfOk result (λ _. ⊥) }
        ensures refused { self.callers ≤ length passes.items → IfErr result (λ left. IsOfAudit left.fault) }
        ensures back { IfErr result (λ left. (left.ruler ≡ self) × (left.passes.items ≡ passes.items)) }
        ensures counted { IfOk result (λ ended. sum_by (λ shard. length shard.journal) ended.shards.items ≡ sum_by (λ pass. length pass.receipts) passes.items) }
        ensures count { IfOk result (λ ended. (length ended.shards.items ≡ self.shards) × (length ended.books.items ≡ self.groups)) }
        ensures merged { IfOk result (λ ended. AreMerged (map (λ shard. shard.journal) ended.shards.items) (map (λ pass. pass.receipts) passes.items)) }
        ensures noted { IfOk result (λ ended. AreNoted (map (λ book. book.history.items) ended.books.items) (map (λ pass. pass.notes) passes.items)) }
        ensures audited { IfOk result (λ ended. AllByRecursion (IsAudited (map (λ shard. shard.journal) ended.shards.items)) ended.books.items) }
        // Over honest stores each evaluation is LogQL from scratch.
        ensures from_scratch { IfOk result (λ ended. AllByRecursion IsHonest ended.shards.items → AllByRecursion (AreFromScratch ended.shards.items) ended.books.items) }
        ensures closed { IfOk result (λ ended. AreClosed ended.books.items) }
        ensures unclosed { IfOk result (λ ended. ended.unclosed.items ≡ unclosed_in 0 ended.books.items) }
    {
        if passes.len() < self.callers {
            return Err(refused(CloseFault::PassMissing, self, passes));
        }
        let mut unlocked = match unlock(self) {
            Ok(unlocked) => unlocked,
            Err(ruler) => return Err(refused(CloseFault::Memory, ruler, passes)),
        };
        let mut unclosed = match audited(unlocked.alloc, &mut unlocked.rooms, &passes) {
            Ok(unclosed) => unclosed,
            Err(fault) => return Err(refused(fault.into(), lock(unlocked), passes)),
        };
        let Unlocked { rooms, tally, .. } = unlocked;
        let Rooms {
            shards,
            shares,
            mut books,
            ..
        } = rooms;
        join(tally, shares, passes);
        close_all(&mut books, &mut unclosed);
        Ok(Ended {
            shards,
            books,
            unclosed,
        })
    }
}

// Shards and books without their locks, and room for these.
#[derive(Drop)]
struct Rooms<D: Store, S: Sink, L: Crew> {
    shards: Vec<Shard<D>>,
    // Of each shard its share of the ledger of records.
    shares: Vec<Share<L>>,
    books: Vec<Book<S>>,
    desks: Vec<Mutex<Desk<D, L>>>,
    seats: Vec<Mutex<Seat<S, L>>>,
}

// A ruler that no caller uses any more, without its locks.
#[derive(Drop)]
struct Unlocked<D: Store, S: Sink, L: Crew, P: Crew> {
    alloc: Global,
    rooms: Rooms<D, S, L>,
    tally: Tally<L, P>,
    callers: usize,
    ghost parts: { AllByRecursion (λ share. share.parts ≡ 1) rooms.shares.items } by { Prim.hlevel props },
    ghost amounts: { map (λ share. share.amount) rooms.shares.items ≡ map (λ shard. length shard.journal) rooms.shards.items },
    ghost seated: { AllByRecursion (IsSeated L.all) rooms.books.items } by { Prim.hlevel props },
    ghost many: { (1 ≤ length rooms.shards.items) × (length rooms.shards.items ≤ 16) × (length rooms.shards.items ≡ L.all) × (callers ≡ P.all) },
    ghost desks_fit: { (vec_len rooms.desks ≡ 0) × (length rooms.shards.items ≤ vec_capacity rooms.desks) },
    ghost seats_fit: { (vec_len rooms.seats ≡ 0) × (length rooms.books.items ≤ vec_capacity rooms.seats) },
}

// A ruler that was not closed.
fn refused<D: Store, S: Sink, L: Crew, P: Crew>(
    fault: CloseFault,
    ruler: Ruler<D, S, L, P>,
    passes: Vec<Pass<P>>,
) -> NotClosed<D, S, L, P>
    ensures { (result.fault ≡ fault) × (result.ruler ≡ ruler) × (result.passes.items ≡ passes.items) }
{
    NotClosed {
        fault,
        ruler,
        passes,
    }
}

// Takes the locks off, where there is memory for it.
fn unlock<D: Store, S: Sink, L: Crew, P: Crew>(
    ruler: Ruler<D, S, L, P>,
) -> Result<Unlocked<D, S, L, P>, Ruler<D, S, L, P>>
    ensures ok { IfOk result (λ unlocked. ruler ≡ record { shards = length unlocked.rooms.shards.items; groups = length unlocked.rooms.books.items; callers = unlocked.callers }) }
    ensures err { IfErr result (λ left. left ≡ ruler) }
{
    let alloc = ruler.alloc;
    let Ok(mut rooms) = rooms_for(alloc, ruler.desks.len(), ruler.seats.len()) else {
        return Err(ruler);
    };
    let Ruler {
        desks,
        seats,
        callers,
        ..
    } = ruler;
    let Desks { shards, tally } = desks;
    for desk in shards {
        let Desk { shard, share } = desk.into_inner();
        rooms.shards.push_reserved(shard);
        rooms.shares.push_reserved(share);
    }
    for seat in seats {
        let Seat { book, .. } = seat.into_inner();
        rooms.books.push_reserved(book);
    }
    Ok(Unlocked {
        alloc,
        rooms,
        tally: tally.into_inner(),
        callers,
    })
}

fn rooms_for<D: Store, S: Sink, L: Crew>(
    alloc: Global,
    shards: usize,
    books: usize,
) -> Result<Rooms<D, S, L>, AllocError>
    ensures empty { IfOk result (λ rooms. (rooms.shards.items ≡ []) × (rooms.shares.items ≡ []) × (rooms.books.items ≡ []) × (vec_len rooms.desks ≡ 0) × (vec_len rooms.seats ≡ 0)) }
    ensures shards { IfOk result (λ rooms. (shards ≤ vec_capacity rooms.shards) × (shards ≤ vec_capacity rooms.shares) × (shards ≤ vec_capacity rooms.desks)) }
    ensures books { IfOk result (λ rooms. (books ≤ vec_capacity rooms.books) × (books ≤ vec_capacity rooms.seats)) }
{
    Ok(Rooms {
        shards: Vec::with_capacity(alloc, shards)?,
        shares: Vec::with_capacity(alloc, shards)?,
        books: Vec::with_capacity(alloc, books)?,
        desks: Vec::with_capacity(alloc, shards)?,
        seats: Vec::with_capacity(alloc, books)?,
    })
}

// Puts the locks back. Takes no memory.
fn lock<D: Store, S: Sink, L: Crew, P: Crew>(unlocked: Unlocked<D, S, L, P>) -> Ruler<D, S, L, P>
    ensures { result ≡ record { shards = length unlocked.rooms.shards.items; groups = length unlocked.rooms.books.items; callers = unlocked.callers } }
{
    let Unlocked {
        alloc,
        rooms,
        tally,
        callers,
    } = unlocked;
    let Rooms {
        shards,
        shares,
        books,
        mut desks,
        mut seats,
    } = rooms;
    for (shard, share) in shards.into_iter().zip(shares) {
        desks.push_reserved(Mutex::new(Desk { shard, share }));
    }
    for book in books {
        seats.push_reserved(Mutex::new(Seat::new(book)));
    }
    Ruler {
        alloc,
        desks: Desks {
            shards: desks,
            tally: Mutex::new(tally),
        },
        seats,
        callers,
    }
}

// Audits shards and books without their locks, with the passes of their callers. An empty list with room for all sinks.
fn audited<D: Store, S: Sink, L: Crew, P: Crew>(
    alloc: Global,
    rooms: &mut Rooms<D, S, L>,
    passes: &[Pass<P>],
) -> Result<Vec<(usize, usize)>, AuditFault>
    requires few { length rooms.old.shards.items ≤ 16 }
    ensures merged { OnOk result (AreMerged (map (λ shard. shard.journal) rooms.new.shards.items) (map (λ pass. pass.receipts) passes.now)) }
    ensures noted { OnOk result (AreNoted (map (λ book. book.history.items) rooms.new.books.items) (map (λ pass. pass.notes) passes.now)) }
    ensures audited { OnOk result (AllByRecursion (IsAudited (map (λ shard. shard.journal) rooms.new.shards.items)) rooms.new.books.items) }
    ensures from_scratch { OnOk result (AllByRecursion IsHonest rooms.new.shards.items → AllByRecursion (AreFromScratch rooms.new.shards.items) rooms.new.books.items) }
    ensures empty { IfOk result (λ room. room.items ≡ []) }
    ensures room { IfOk result (λ room. sum_by (λ book. length book.sinks) rooms.new.books.items ≤ vec_capacity room) }
    ensures items { (rooms.new.shards.items ≡ rooms.old.shards.items) × (rooms.new.shares.items ≡ rooms.old.shares.items) × (rooms.new.books.items ≡ rooms.old.books.items) }
    ensures desks { (vec_len rooms.new.desks ≡ vec_len rooms.old.desks) × (vec_capacity rooms.new.desks ≡ vec_capacity rooms.old.desks) }
    ensures seats { (vec_len rooms.new.seats ≡ vec_len rooms.old.seats) × (vec_capacity rooms.new.seats ≡ vec_capacity rooms.old.seats) }
{
    audit(alloc, &mut rooms.shards, &rooms.books, passes)?;
    Ok(room_for_sinks(alloc, &rooms.books)?)
}

// Joins the shares of both ledgers: all amounts of the one add up to those of the other.
fn join<L: Crew, P: Crew>(tally: Tally<L, P>, shares: Vec<Share<L>>, passes: Vec<Pass<P>>)
    requires records { (length shares.items ≡ L.parts) × AllByRecursion (λ share. share.parts ≡ 1) shares.items }
    requires receipts { P.parts ≤ length passes.items }
    ensures { sum_by (λ share. share.amount) shares.items ≡ sum_by (λ pass. length pass.receipts) passes.items }
{
    let Tally {
        mut records,
        mut receipts,
        mut no_record,
        mut no_receipt,
    } = tally;
    // What has no part has no amount.
    records.audit(&mut no_record);
    receipts.audit(&mut no_receipt);
    for share in shares {
        no_record.merge(share);
    }
    for pass in passes {
        let Pass { share, .. } = pass;
        no_receipt.merge(share);
    }
    records.audit(&mut no_record);
    receipts.audit(&mut no_receipt);
}

// An empty list with room for all sinks of books.
fn room_for_sinks<S: Sink>(
    alloc: Global,
    books: &[Book<S>],
) -> Result<Vec<(usize, usize)>, AllocError>
    ensures empty { IfOk result (λ room. room.items ≡ []) }
    ensures room { IfOk result (λ room. sum_by (λ book. length book.sinks) books.now ≤ vec_capacity room) }
{
    let mut count = 0usize;
    for book in books {
        let Some(more) = count.checked_add(book.sinks()) else {
            return Err(AllocError);
        };
        count = more;
    }
    Vec::with_capacity(alloc, count)
}

// Closes the sinks of a group's book, and adds those that could not write all to a list with room.
fn close_sinks<S: Sink>(book: &mut Book<S>, group: usize, unclosed: &mut Vec<(usize, usize)>)
    requires room { length unclosed.old.items + length book.old.sinks ≤ vec_capacity unclosed.old }
    ensures closed { AllByRecursion (λ sink. sink.closed ≡ true) book.new.sinks }
    ensures rest { book.new ≡ with_sinks book.old book.new.sinks }
    ensures count { length book.new.sinks ≡ length book.old.sinks }
    ensures unclosed { unclosed.new.items ≡ unclosed.old.items ++ unclosed_of group 0 book.new.sinks }
    ensures capacity { vec_capacity unclosed.new ≡ vec_capacity unclosed.old }
{
    for sink in 0..book.sinks() {
        if !book.close_sink(sink) {
            unclosed.push_reserved((group, sink));
        }
    }
}

// Closes the sinks of all books, and adds those that could not write all to a list with room.
fn close_all<S: Sink>(books: &mut [Book<S>], unclosed: &mut Vec<(usize, usize)>)
    requires room { length unclosed.old.items + sum_by (λ book. length book.sinks) books.old ≤ vec_capacity unclosed.old }
    ensures closed { AreClosed books.new }
    ensures rest { map without_sinks books.new ≡ map without_sinks books.old }
    ensures unclosed { unclosed.new.items ≡ unclosed.old.items ++ unclosed_in 0 books.new }
{
    for group in 0..books.len() {
        close_sinks(&mut books[group], group, unclosed);
    }
}
