//! An engine whose answers are counted.
ghost use Rattle.std.specs.Prelude.{◌≡◌};

use crate::tally::Tally;
use rl_labels::{Entry, Ns};
use rl_plain::{PlainList, Shared};
use rl_rules::Group;
use rl_session::{Engine, Partly, Printer};
use rl_shard::{ShardReply, ShardStep};
use rl_world::{Committed, Refusal};
use std::alloc::Global;
use std::io::Write;

/// An engine over another one that counts what it answers.
#[derive(Drop)]
pub(crate) struct Counting<E: Engine> {
    engine: E,
    tally: Tally,
}

impl<E: Engine> Counting<E> {
    /// Over the engine as it is, with nothing counted yet.
    pub(crate) fn new(alloc: Global, engine: E) -> Self
        ensures { result.engine ≡ engine }
    {
        Counting {
            engine,
            tally: Tally::new(alloc),
        }
    }

    /// The engine below, and what was counted.
    pub(crate) fn into_parts(self) -> (E, Tally)
        ensures { result.0 ≡ self.engine }
    {
        (self.engine, self.tally)
    }
}

impl<E: Engine> Engine for Counting<E> {
    ghost use Rattle.rl_session.specs.Engine.{calls_below};

    ghost calls = { calls_below (λ s. s.engine) E.calls };

    fn groups(&self) -> usize {
        self.engine.groups()
    }

    fn group(&self, name: &str) -> Option<usize> {
        self.engine.group(name)
    }

    fn push(&mut self, entry: Shared<Entry>) -> Result<ShardReply, Refusal> {
        self.tally.count_time(entry.get());
        let answer = self.engine.push(entry);
        self.tally.count_push(&answer);
        answer
    }

    fn ask_all(&mut self, step: ShardStep) -> Result<Option<ShardReply>, Partly> {
        self.engine.ask_all(step)
    }

    fn edit(&mut self, group: usize, to: Group) -> Result<(), Refusal> {
        self.engine.edit(group, to)
    }

    fn evaluate(&mut self, group: usize, t: Ns) -> Result<Committed, Refusal> {
        let answer = self.engine.evaluate(group, t);
        match &answer {
            Ok(committed) => self.tally.count_evaluation(committed.evaluation.get()),
            Err(refusal) => self.tally.count_refusal(*refusal),
        }
        answer
    }

    fn catch_up(&mut self, group: usize) -> Result<PlainList<u64>, Refusal> {
        self.engine.catch_up(group)
    }

    fn is_due(&self, group: usize, now: Ns) -> bool {
        self.engine.is_due(group, now)
    }

    fn show<W: Write>(&self, group: usize, sink: usize, out: &mut Printer<W>) -> bool {
        self.engine.show(group, sink, out)
    }

    fn takes_blocks(&self) -> bool {
        self.engine.takes_blocks()
    }
}
