//! What a session asks of whatever evaluates its groups.
ghost use Rattle.std.specs.Prelude.{◌≡◌, ℕ, length, IfOk};
ghost use Rattle.rl_session.specs.Engine.{Calls, number_named, ShowsIn};

use crate::printer::Printer;
use rl_labels::{Entry, Ns};
use rl_plain::{PlainList, Shared};
use rl_rules::Group;
use rl_shard::{ShardReply, ShardStep};
use rl_world::{Committed, Refusal};
use std::io::Write;

/// Why a step was not decided by every shard.
#[derive(Clone, Copy)]
pub struct Partly {
    /// How many shards decided it.
    pub done: u64,
    /// Why the next one did not.
    pub refusal: Refusal,
}

/// Evaluates rule groups over shards: a world on one thread, or many threads with locks. Groups and their sinks go by their
/// number, counted from 0. None of them comes or goes, and no group gets another name.
pub trait Engine: Drop {
    // What is known of each answer.
    ghost calls: { Calls Self };

    /// How many groups it has.
    fn groups(&self) -> usize
        ensures { result ≡ length (calls.groups self.now) };

    /// The number of the first group with the name.
    fn group(&self, name: &str) -> Option<usize>
        ensures { result ≡ number_named name.now (calls.groups self.now) };

    /// Hands an entry to its shard.
    fn push(&mut self, entry: Shared<Entry>) -> Result<ShardReply, Refusal>
        ensures answer { calls.pushes self.old entry result self.new }
        ensures groups { calls.groups self.new ≡ calls.groups self.old };

    /// Asks each shard for a step, in their order, up to the first that does not decide it. The first reply that is a refusal.
    fn ask_all(&mut self, step: ShardStep) -> Result<Option<ShardReply>, Partly>
        ensures answer { calls.asks_all self.old step result self.new }
        ensures groups { calls.groups self.new ≡ calls.groups self.old };

    /// Replaces the group at the number by one of the same name.
    fn edit(&mut self, group: usize, to: Group) -> Result<(), Refusal>
        ensures answer { calls.edits self.old group to result self.new }
        ensures groups { calls.groups self.new ≡ calls.groups self.old };

    /// Evaluates the group at the number. An evaluation that is refused leaves none open.
    fn evaluate(&mut self, group: usize, t: Ns) -> Result<Committed, Refusal>
        ensures answer { calls.evaluates self.old group t result self.new }
        ensures moment { IfOk result (λ committed. committed.evaluation.t ≡ t) }
        ensures groups { calls.groups self.new ≡ calls.groups self.old };

    /// Pumps the sinks of the group at the number, then offers each what it has not taken. The sinks that refused, by their numbers.
    fn catch_up(&mut self, group: usize) -> Result<PlainList<u64>, Refusal>
        ensures answer { calls.catches_up self.old group result self.new }
        ensures groups { calls.groups self.new ≡ calls.groups self.old };

    /// Whether an evaluation of the group at the number is due.
    fn is_due(&self, group: usize, now: Ns) -> bool
        ensures { calls.is_due self.now group now result };

    /// Prints `count`, how many texts the sink has taken, and the texts that it keeps. False, and nothing is printed, where there
    /// is no such sink.
    fn show<W: Write>(&self, group: usize, sink: usize, out: &mut Printer<W>) -> bool
        ensures { ShowsIn calls self.now group sink out.old result out.new };

    /// Whether lines over it stop at one that begins a block.
    fn takes_blocks(&self) -> bool
        ensures { result ≡ calls.blocks };
}

/// An engine whose sinks can be closed where it stands.
pub trait Closes: Engine {
    // What is known of a close: how many sinks could not write all.
    ghost closes: { Self → ℕ → Self → Type 0 };

    /// Closes the sinks. How many could not write all.
    fn close(&mut self) -> u64
        ensures { closes self.old result self.new };
}
