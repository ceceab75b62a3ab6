//! What a world can be asked, and what it answers. Shards, groups and sinks go by their number, counted from 0.
use crate::fault::Refusal;
use rl_labels::Ns;
use rl_plain::{PlainList, Shared};
use rl_rules::{Evaluation, Group};
use rl_shard::{ShardReply, ShardStep};

/// A step of a world.
#[derive(Drop)]
pub enum Step {
    /// A step of one shard.
    Shard { number: usize, step: ShardStep },
    /// Replaces the group by another one under its name. Rules that stay keep their alerts.
    Edit { group: usize, to: Group },
    /// Opens an evaluation of the group at a moment.
    Begin { group: usize, t: Ns },
    /// Asks a shard, for the open evaluation of the group.
    Gather { group: usize, number: usize },
    /// Evaluates the group on what its shards showed, and offers its sinks what they have not taken.
    Commit { group: usize },
    /// Closes the open evaluation of the group, of which nothing is left.
    Abandon { group: usize },
    /// Pumps each sink of the group, then offers it what it has not taken.
    CatchUp { group: usize },
}

/// What a world answered to a step.
#[derive(Drop)]
pub enum Reply {
    /// The shard decided the step; its journal has it at the place.
    Decided { place: u64, reply: ShardReply },
    /// The group was edited; its history has the edit at the index.
    Edited { place: u64 },
    Begun,
    /// The shard was asked; its journal has the question at the place.
    Gathered { place: u64 },
    Committed(Committed),
    Abandoned,
    /// The sinks that refused, by their numbers.
    CaughtUp { behind: PlainList<u64> },
    /// Nothing changed.
    Refused(Refusal),
}

/// An evaluation that was committed.
#[derive(Drop)]
pub struct Committed {
    /// Its number in the group's history, counted from 0.
    pub number: u64,
    /// One block with the book's own.
    pub evaluation: Shared<Evaluation>,
    /// The sinks that refused, by their numbers.
    pub behind: PlainList<u64>,
}
