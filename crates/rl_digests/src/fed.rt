//! What a hasher was fed, as contracts see it.
use std::snapshot::Snapshot;

/// The bytes that a hasher was fed, the last one first. What stood before is seen by contracts alone, so this takes no memory.
#[derive(Drop)]
pub enum Fed {
    Nothing,
    Byte { byte: u8, before: Snapshot<Fed> },
}
