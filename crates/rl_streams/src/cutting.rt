//! Sealing the heads of all streams.
ghost use Rattle.std.specs.Prelude.{◌≡◌, [], OnOk};
ghost use Rattle.rl_streams.specs.StreamRows.{loose_in};
ghost use Rattle.rl_streams.specs.RowSteps.{AreCut};

use indexmap::IndexMap;
use rl_labels::Labels;
use rl_parts::Stream;
use std::alloc::AllocError;

// Makes a part of each head that has an entry. A refusal leaves the rest of the heads as they are.
pub(crate) fn cut(streams: &mut IndexMap<Labels, Stream>) -> Result<(), AllocError>
    ensures cut { AreCut streams.old.entries streams.new.entries }
    ensures all { OnOk result (loose_in streams.new.entries ≡ []) }
{
    for position in 0..streams.len() {
        streams[position].seal()?;
    }
    Ok(())
}
