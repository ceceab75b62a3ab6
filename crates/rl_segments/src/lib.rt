//! Records of a journal that are read from their bytes, and segments, in which they lie in a store.
//!
//! - `record`: `record_read`. `steps`, `replies`: what a record has; `fields`, `label_text`: what these have; `frames`: numbers, and
//!   texts after their length. `fault`: `RecordError`.
//! - `segment`: `segment_bytes`, and `record_at`, the bytes of one record of a segment.
#![tactic(auto)]

pub mod fault;
mod fields;
mod frames;
pub mod in_memory;
mod label_text;
pub mod record;
mod replies;
pub mod segment;
mod steps;

pub use fault::{RecordError, RecordFault};
pub use in_memory::is_in_memory;
pub use record::record_read;
pub use segment::{record_at, segment_bytes};
