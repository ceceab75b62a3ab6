//! The set of all streams of a shard: one set of log entries, over a store that may have parts of them.
//!
//! - `streams`: `Streams`. It takes entries, seals what it holds and writes it to the store, reads it again, and
//!   removes what is covered.
//! - `cursor`: `Cursor`, which visits what was asked of the streams line by line.
//! - `refusal`: `AddRefusal`, why an entry is not taken. `sending`: a probe for what may cross to another thread.
#![tactic(auto)]

mod adding;
pub mod cursor;
mod cutting;
mod flushing;
mod lines;
mod reading;
pub mod refusal;
mod rewriting;
mod selections;
pub mod sending;
pub mod streams;

pub use cursor::Cursor;
pub use refusal::AddRefusal;
pub use streams::Streams;
