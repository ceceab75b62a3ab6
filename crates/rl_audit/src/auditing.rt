//! The audit of all that callers came away with.
ghost use Rattle.std.specs.Prelude.{◌≡◌, ◌≤◌, map, length, OnOk};
ghost use Rattle.std.specs.List.{AllByRecursion};
ghost use Rattle.rl_shard.specs.ShardFault.{IsHonest};
ghost use Rattle.rl_world.specs.ShardAnswers.{most_shards};
ghost use Rattle.rl_audit.specs.Founded.{AreFromScratch, IsAudited, IsLegal};
ghost use Rattle.rl_audit.specs.Merged.{AreMerged, AreNoted};

use crate::carrier::Carrier;
use crate::driving::audit_book;
use crate::fault::AuditFault;
use crate::notes::audit_notes;
use crate::receipts::audit_receipts;
use rl_chunks::Store;
use rl_shard::Shard;
use rl_sinks::Sink;
use rl_world::Book;
use std::alloc::Global;

/// Whether the journals of shards and the histories of books are what all callers came away with, and whether each evaluation is what
/// the journals have where it asked. The receipts come first, then the notes, then the books, one after the other.
pub fn audit<D: Store, S: Sink, C: Carrier>(
    alloc: Global,
    shards: &mut [Shard<D>],
    books: &[Book<S>],
    callers: &[C],
) -> Result<(), AuditFault>
    requires few { length shards.old ≤ most_shards }
    ensures merged { OnOk result (AreMerged (map (λ shard. shard.journal) shards.old) (map C.receipts callers.now)) }
    ensures noted { OnOk result (AreNoted (map (λ book. book.history.items) books.now) (map C.notes callers.now)) }
    ensures audited { OnOk result (AllByRecursion (IsAudited (map (λ shard. shard.journal) shards.old)) books.now) }
    // Over honest stores each evaluation is LogQL from scratch.
    ensures from_scratch { OnOk result (AllByRecursion IsHonest shards.old → AllByRecursion (AreFromScratch shards.old) books.now) }
    ensures same { shards.new ≡ shards.old }
{
    audit_receipts(alloc, shards, callers)?;
    audit_notes(alloc, books, callers)?;
    are_legal(shards);
    for book in books {
        audit_book(alloc, shards, book)?;
    }
    Ok(())
}

// The journals of shards are legal over honest stores.
fn are_legal<D: Store>(shards: &[Shard<D>])
    ensures { AllByRecursion IsLegal shards.now }
{
    for shard in shards {
        let _records = shard.journal_len();
    }
}
