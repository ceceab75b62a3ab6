//! One shard: its streams over a store, its delete requests and the horizon of retention, and a journal place for each step that it decided.
//!
//! `Shard::apply` answers a step exactly as the definition of the shard step says, and leaves exactly the state that it
//! says, where its store is honest. A step that is refused for a fault changes nothing of what is held, over any store.
//!
//! - `step`: `ShardFault`, why a step is not decided; steps, replies and records are those of rl_records. `shard`: `Shard`. `digested`: a record with its digest. `parts`: what its steps change; `deciding`, with `deleting`: what becomes
//!   of each step; `pushing`: what an entry changes in windows, `turning`: what entries that a step hides or shows do. `collecting`, with `windows`: what it shows of the ranges of terms. `sending`: a
//!   probe for what may cross to another thread.
#![tactic(auto)]

mod collecting;
mod deciding;
mod deleting;
mod digested;
mod parts;
mod pushing;
pub mod sending;
pub mod shard;
pub mod step;
mod turning;
mod windows;

pub use rl_records::{Record, ShardReply, ShardStep, SieveText, Terms};
pub use shard::Shard;
pub use step::ShardFault;
