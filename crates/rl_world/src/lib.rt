//! Books and worlds: rule groups over shards, evaluated step by step.
//!
//! `World::run` takes any list of steps. Over honest stores what it answers is a replay of the definition of the world step, in
//! which each evaluation is LogQL from scratch on the entries that each shard showed when it was asked. Over any stores every
//! sink has taken exactly the texts of the first evaluations of its group, and a fault of a store is reported with its cause.
//!
//! - `step`: `Step`, `Reply`, `Committed`. `fault`: `BookFault`, `BookError`, `Refusal`. `opened`: an evaluation that is open.
//! - `item`: `Item`, an edit or an evaluation in the history of a group.
//! - `book`: `Book`, one group with its sinks. `world`: `World`. `evaluation`: its evaluation of a group as a whole. `sending`: a probe for what may cross to another thread.
//! - `aggregate`, `shard`, `rules`, `sinks`: the crates below, passed on.
#![tactic(auto)]

pub mod book;
mod editing;
mod evaluating;
mod evaluation;
pub mod fault;
pub mod item;
mod offering;
pub mod opened;
mod parts;
pub mod sending;
pub mod step;
mod turns;
pub mod world;

pub use book::Book;
pub use fault::{BookError, BookFault, Refusal};
pub use item::Item;
pub use rl_aggregate as aggregate;
pub use rl_rules as rules;
pub use rl_shard as shard;
pub use rl_sinks as sinks;
pub use step::{Committed, Reply, Step};
pub use turns::{is_same_name, refusal_of_shard};
pub use world::World;
