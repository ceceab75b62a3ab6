//! What a store was asked to keep, as contracts see it.
use rl_plain::PlainList;
use std::snapshot::Snapshot;

/// The calls that were answered Ok, the last one first. What stood before is seen by contracts alone, so this takes no memory.
#[derive(Drop)]
pub enum History {
    Nothing,
    Put {
        number: u64,
        bytes: Snapshot<PlainList<u8>>,
        before: Snapshot<History>,
    },
    Removed {
        number: u64,
        before: Snapshot<History>,
    },
}
