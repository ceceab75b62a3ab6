//! The audit of receipts.
ghost use Rattle.std.specs.Prelude.{◌≡◌, [], List, map, length, IfOk, IsTrue, OnOk};
ghost use Rattle.std.specs.List.{AllByRecursion};
ghost use Rattle.rl_audit.specs.Claims.{AreClaimed, IsRight, Place};
ghost use Rattle.rl_audit.specs.Flagged.{StandFor};
ghost use Rattle.rl_audit.specs.Merged.{place_of, AreMerged, IsOf};
ghost use Rattle.rl_records.specs.RecordBytes.{digest_of};

use crate::carrier::Carrier;
use crate::fault::AuditFault;
use crate::flags::Flags;
use crate::receipt::Receipt;
use rl_chunks::Store;
use rl_plain::PlainList;
use rl_shard::Shard;
use std::alloc::{AllocError, Global};

/// Whether the receipts of all callers name each record of the shards' journals once and nothing else, each by its digest, and those
/// of one caller rise in each journal. Mismatch has the first receipt that does not, else the first record that none names.
pub(crate) fn audit_receipts<D: Store, C: Carrier>(
    alloc: Global,
    shards: &mut [Shard<D>],
    callers: &[C],
) -> Result<(), AuditFault>
    ensures merged { OnOk result (AreMerged (map (λ shard. shard.journal) shards.old) (map C.receipts callers.now)) }
    ensures same { shards.new ≡ shards.old }
{
    let digests = digests_of(alloc, shards)?;
    audit_digests(alloc, &digests, callers)
}

// The digest of each record of each journal.
fn digests_of<D: Store>(
    alloc: Global,
    shards: &mut [Shard<D>],
) -> Result<Vec<PlainList<[u8; 32]>>, AuditFault>
    ensures digests { IfOk result (λ digests. digests.items ≡ map (map digest_of) (map (λ shard. shard.journal) shards.old)) }
    ensures same { shards.new ≡ shards.old }
{
    let mut digests = Vec::with_capacity(alloc, shards.len())?;
    for number in 0..shards.len() {
        let own = shards[number].digests()?;
        digests.push_reserved(PlainList::from_vec(own));
    }
    Ok(digests)
}

// Whether the receipts of all callers name each digest once and nothing else.
fn audit_digests<C: Carrier>(
    alloc: Global,
    digests: &[PlainList<[u8; 32]>],
    callers: &[C],
) -> Result<(), AuditFault>
    ensures { OnOk result (AreClaimed digests.now place_of IsOf (map C.receipts callers.now)) }
{
    let mut flags = Flags::new(alloc, &sizes_of(alloc, digests)?)?;
    for caller in callers {
        claim_all(&mut flags, digests, caller.receipts())?;
        flags.next_caller();
    }
    match flags.unclaimed() {
        Some((shard, place)) => Err(AuditFault::Mismatch {
            shard,
            place: place as u64,
        }),
        None => Ok(()),
    }
}

// How many records each journal has.
fn sizes_of(alloc: Global, digests: &[PlainList<[u8; 32]>]) -> Result<Vec<usize>, AllocError>
    ensures { IfOk result (λ sizes. sizes.items ≡ map length digests.now) }
{
    let mut sizes = Vec::with_capacity(alloc, digests.len())?;
    for own in digests {
        sizes.push_reserved(own.len());
    }
    Ok(sizes)
}

// A caller claims the place of each receipt, which has the digest there.
fn claim_all(
    flags: &mut Flags,
    digests: &[PlainList<[u8; 32]>],
    receipts: &[Receipt],
) -> Result<(), AuditFault>
    ensures sizes { map length flags.new.flags.items ≡ map length flags.old.flags.items }
    ensures claimed { OnOk result ((before : List Place) → StandFor flags.old.flags.items flags.old.nexts before [] → StandFor flags.new.flags.items flags.new.nexts before (map place_of receipts.now)) }
    ensures right { OnOk result (AllByRecursion (IsRight digests.now place_of IsOf) receipts.now) }
{
    for receipt in receipts {
        let (shard, place) = (receipt.shard, receipt.place);
        if !has_digest(digests, receipt) || !flags.claim(shard, place as usize) {
            return Err(AuditFault::Mismatch { shard, place });
        }
    }
    Ok(())
}

// Whether a receipt has the digest of the record that it names.
fn has_digest(digests: &[PlainList<[u8; 32]>], receipt: &Receipt) -> bool
    ensures { IsTrue result → IsRight digests.now place_of IsOf receipt.now }
{
    let Some(own) = digests.get(receipt.shard) else {
        return false;
    };
    match own.as_slice().get(receipt.place as usize) {
        Some(digest) => *digest == receipt.digest,
        None => false,
    }
}
