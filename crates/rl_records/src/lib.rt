//! What a shard's journal has: steps and their replies, as records, and the bytes and the SHA-256 of each.
//!
//! The bytes of a record are fixed by `specs/RecordBytes.antt`, and have steps and replies in full. Their digest takes no memory, so
//! whoever was answered can be given it.
//!
//! - `step`: `ShardStep`, `ShardReply`. `terms`: `Terms`, with what is printed of them; `sieve_text`: `SieveText`, likewise.
//! - `record`: `Record`. `bytes`: `record_bytes` and `digest_of`; `target`: what takes bytes piece by piece.
//! - `sending`: a probe for what may cross to another thread.
#![tactic(auto)]

pub mod bytes;
pub mod record;
pub mod sending;
pub mod sieve_text;
pub mod step;
pub mod target;
pub mod terms;

pub use bytes::{digest_of, record_bytes};
pub use record::Record;
pub use sieve_text::SieveText;
pub use step::{ShardReply, ShardStep};
pub use terms::Terms;
