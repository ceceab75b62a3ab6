//! Writing the parts of all streams to the store.
ghost use Rattle.std.specs.Prelude.{◌≡◌, [], IsErrOf, OnOk};
ghost use Rattle.rl_chunks.specs.StoreState.{greatest};
ghost use Rattle.rl_parts.specs.StoreUse.{ArePut, after_flush};
ghost use Rattle.rl_streams.specs.StreamRows.{unwritten_in};
ghost use Rattle.rl_streams.specs.RowSteps.{AreFlushed};

use indexmap::IndexMap;
use rl_chunks::Store;
use rl_labels::Labels;
use rl_parts::{ChunkStore, FlushFault, Stream};

// Writes the parts that the store does not have, stream by stream, under the next numbers. What was written before a fault
// stays written.
pub(crate) fn flush<S: Store>(
    chunks: &mut ChunkStore<S>,
    streams: &mut IndexMap<Labels, Stream>,
) -> Result<(), FlushFault>
    ensures flushed { AreFlushed streams.old.entries chunks.old streams.new.entries chunks.new }
    ensures all { OnOk result (unwritten_in streams.new.entries ≡ []) }
    ensures puts { ArePut result chunks.old chunks.new }
    ensures counted { chunks.new.seen.faults ≡ after_flush result chunks.old.seen.faults }
    ensures spent { IsErrOf result FlushFault.NumbersSpent → chunks.new.next ≡ greatest }
{
    for position in 0..streams.len() {
        streams[position].flush(chunks)?;
    }
    Ok(())
}
