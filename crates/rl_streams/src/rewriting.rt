//! Removing covered entries from all streams.
ghost use Rattle.std.specs.Prelude.{◌≡◌, ◌≤◌, IfOk, IsErrOf, length, true};
ghost use Rattle.std.specs.List.{AllByRecursion};
ghost use Rattle.rl_chunks.specs.StoreState.{greatest};
ghost use Rattle.rl_parts.specs.Rewriting.{after_rewrite};
ghost use Rattle.rl_parts.specs.StoreUse.{AreKept, ArePut};
ghost use Rattle.rl_streams.specs.Rewritten.{AreOf, ArePlanned, AreRemoved, numbers_gone, rewritten};
ghost use Rattle.rl_streams.specs.StreamRows.{joined};

use indexmap::IndexMap;
use rl_chunks::Store;
use rl_labels::{Covers, Labels};
use rl_parts::{ChunkStore, Plan, RewriteFault, Stream};

// What each stream in turn becomes without its covered entries.
pub(crate) fn plan_all<S: Store, C: Covers>(
    chunks: &mut ChunkStore<S>,
    streams: &IndexMap<Labels, Stream>,
    covered: &C,
) -> Result<Vec<Plan>, RewriteFault>
    ensures of { IfOk result (λ plans. AreOf streams.now.entries plans.items) }
    ensures planned { IfOk result (λ plans. ArePlanned (C.covers covered.now) chunks.old plans.items chunks.new) }
    ensures undamaged { chunks.old.seen.honest ≡ true → AllByRecursion (λ row. AreKept chunks.old row.1) streams.now.entries → IsErrOf result RewriteFault.Damaged → ⊥ }
    ensures puts { ArePut result chunks.old chunks.new }
    ensures counted { chunks.new.seen.faults ≡ after_rewrite result chunks.old.seen.faults }
    ensures spent { IsErrOf result RewriteFault.NumbersSpent → chunks.new.next ≡ greatest }
{
    let mut plans = Vec::with_capacity(*chunks.allocator(), streams.len())?;
    for position in 0..streams.len() {
        let plan = streams[position].plan(chunks, covered)?;
        plans.push(plan)?;
    }
    Ok(plans)
}

// Removes what the numbers have. What the store refuses to remove stays there unused.
fn remove_all<S: Store>(chunks: &mut ChunkStore<S>, numbers: &[u64])
    ensures { AreRemoved chunks.old numbers.now chunks.new }
{
    for number in numbers {
        let _ = chunks.remove(*number);
    }
}

// Carries out the plans of all streams, and removes what is no longer used.
pub(crate) fn carry_out_all<S: Store>(
    chunks: &mut ChunkStore<S>,
    streams: &mut IndexMap<Labels, Stream>,
    plans: Vec<Plan>,
)
    requires { AreOf streams.old.entries plans.items }
    ensures streams { streams.new.entries ≡ rewritten streams.old.entries plans.items }
    ensures removed { AreRemoved chunks.old (numbers_gone plans.items) chunks.new }
{
    let mut position = 0;
    for plan in plans {
        let gone = streams[position].carry_out(plan);
        remove_all(chunks, &gone);
        position += 1;
    }
}

// How many entries there are in all streams, which are no more than this.
pub(crate) fn count(streams: &IndexMap<Labels, Stream>, most: u64) -> u64
    requires { length (joined streams.now.entries) ≤ most }
    ensures { result ≡ length (joined streams.now.entries) }
{
    let mut count = 0;
    for position in 0..streams.len() {
        count += streams[position].len();
    }
    count
}
