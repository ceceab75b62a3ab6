//! One stream's head and chunks over a store: a head of log entries that grows, sealed parts, and parts that the store has.
//!
//! - `stream`: `Stream`, made of its first entry. It holds entries, seals its head, writes its parts to a store and reads them
//!   there. `part`: `Part`, sealed entries, in memory or in a store.
//! - `plan`: `Plan`, what a stream becomes without entries that are covered. It is made first, and then carried out.
//! - `chunk_store`: `ChunkStore`, the chunks of a shard in a store, by number.
//! - `visitor`: `Visitor`, a visitor of the lines of a stream.
//! - `fault`: why reading, writing or rewriting was refused. `sending`: a probe for what may cross to another thread.
#![tactic(auto)]

pub mod chunk_store;
pub mod fault;
mod fingerprints;
mod flushing;
pub mod part;
pub mod plan;
mod rewriting;
mod sealing;
mod searching;
pub mod sending;
mod stored;
pub mod stream;
mod visiting_lines;
pub mod visitor;

pub use chunk_store::ChunkStore;
pub use fault::{FlushFault, ReadFault, RewriteFault};
pub use part::Part;
pub use plan::Plan;
pub use stream::Stream;
pub use visitor::Visitor;
