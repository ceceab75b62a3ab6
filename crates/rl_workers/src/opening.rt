//! The parts of a ruler, as they begin.
ghost use Rattle.std.specs.Prelude.{◌≡◌, ◌≤◌, [], nat_le, true, length, IfOk};
ghost use Rattle.std.specs.List.{list_all, AllByRecursion};
ghost use Rattle.rl_workers.specs.Closing.{IsSeated};
ghost use Rattle.rl_workers.specs.Rulers.{counts_fit};

use crate::crew::Crew;
use crate::desk::{Desk, Desks};
use crate::pass::Pass;
use crate::seat::Seat;
use crate::tally::Tally;
use rl_chunks::Store;
use rl_rules::Group;
use rl_shard::Shard;
use rl_sinks::Sink;
use rl_world::Book;
use std::alloc::{AllocError, Global};
use std::sync::ledger::{Blank, Share};
use std::sync::{Mutex, ledger};

/// Whether there are as many shards, callers, groups, rules and sinks as there may be.
pub(crate) fn counts_fit<S: Sink>(
    shards: usize,
    callers: usize,
    groups: &Vec<Group>,
    sinks: &Vec<Vec<S>>,
) -> bool
    ensures fit { result ≡ counts_fit shards callers groups.now.items (length sinks.now.items) (list_all (λ own. nat_le (length own.items) 16) sinks.now.items) }
    ensures few { result ≡ true → (1 ≤ shards) × (shards ≤ 16) × (length sinks.now.items ≡ length groups.now.items) }
{
    if shards < 1 {
        return false;
    }
    if 16 < shards {
        return false;
    }
    if callers < 1 {
        return false;
    }
    if 64 < callers {
        return false;
    }
    if 64 < groups.len() {
        return false;
    }
    if sinks.len() != groups.len() {
        return false;
    }
    if !are_small(groups) {
        return false;
    }
    are_few(sinks)
}

// Whether no group has too many rules.
fn are_small(groups: &[Group]) -> bool
    ensures { result ≡ list_all (λ group. nat_le (length group.rules) 256) groups.now }
{
    groups.iter().all(|group| group.rules.len() <= 256)
}

// Whether no group has too many sinks.
fn are_few<S: Sink>(sinks: &[Vec<S>]) -> bool
    ensures { result ≡ list_all (λ own. nat_le (length own.items) 16) sinks.now }
{
    sinks.iter().all(|own| own.len() <= 16)
}

/// A pass for each caller, with a part of the ledger of receipts; what is left of the whole share, and the book.
pub(crate) fn open_passes<P: Crew>(
    alloc: Global,
    callers: usize,
    blank: Blank,
) -> Result<(Vec<Pass<P>>, (Share<P>, ledger::Book<P>)), AllocError>
    requires name { blank.name ≡ P.name }
    requires parts { (blank.parts ≡ P.parts) × (P.parts ≡ callers) }
    ensures count { IfOk result (λ opened. length opened.0.items ≡ callers) }
    ensures empty { IfOk result (λ opened. AllByRecursion (λ pass. (pass.receipts ≡ []) × (pass.notes ≡ [])) opened.0.items) }
    ensures left { IfOk result (λ opened. opened.1.0.parts ≡ 0) }
    ensures total { IfOk result (λ opened. opened.1.1.total ≡ 0) }
{
    let (book, mut left) = blank.open::<P>();
    let mut passes = Vec::with_capacity(alloc, callers)?;
    for _ in 0..callers {
        let share = left.split_off(1, 0);
        passes.push(Pass::new(alloc, share))?;
    }
    Ok((passes, (left, book)))
}

/// Each shard under its lock, with a part of the ledger of records, and the sums of both ledgers, which are nothing yet.
pub(crate) fn open_desks<D: Store, L: Crew, P: Crew>(
    alloc: Global,
    shards: Vec<Shard<D>>,
    blank: Blank,
    receipts: (Share<P>, ledger::Book<P>),
) -> Result<Desks<D, L, P>, AllocError>
    requires name { blank.name ≡ L.name }
    requires parts { (blank.parts ≡ L.parts) × (L.parts ≡ length shards.items) }
    requires empty { AllByRecursion (λ shard. shard.journal ≡ []) shards.items }
    requires receipts { (receipts.0.parts ≡ 0) × (receipts.1.total ≡ 0) }
    ensures count { IfOk result (λ desks. length desks.shards.items ≡ length shards.items) }
{
    let (no_receipt, receipts) = receipts;
    let (records, mut left) = blank.open::<L>();
    let mut desks = Vec::with_capacity(alloc, shards.len())?;
    for shard in shards {
        let share = left.split_off(1, 0);
        desks.push(Mutex::new(Desk { shard, share }))?;
    }
    let tally = Tally {
        records,
        receipts,
        no_record: left,
        no_receipt,
    };
    Ok(Desks {
        shards: desks,
        tally: Mutex::new(tally),
    })
}

/// Each book under its lock.
pub(crate) fn open_seats<S: Sink, L: Crew>(
    alloc: Global,
    books: Vec<Book<S>>,
) -> Result<Vec<Mutex<Seat<S, L>>>, AllocError>
    requires closed { AllByRecursion (IsSeated L.all) books.items }
    ensures { IfOk result (λ seats. length seats.items ≡ length books.items) }
{
    let mut seats = Vec::with_capacity(alloc, books.len())?;
    for book in books {
        seats.push(Mutex::new(Seat::new(book)))?;
    }
    Ok(seats)
}
