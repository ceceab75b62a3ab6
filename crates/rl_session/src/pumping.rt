//! An engine that lets the sinks of a group catch up after each evaluation of it.
ghost use Rattle.std.specs.Prelude.{◌≡◌, ℕ, true, IfOk};
ghost use Rattle.rl_session.specs.Pumping.{CatchesUpAfter};

use crate::engine::{Closes, Engine, Partly};
use crate::printer::Printer;
use rl_labels::{Entry, Ns};
use rl_plain::{PlainList, Shared};
use rl_rules::Group;
use rl_shard::{ShardReply, ShardStep};
use rl_world::{Committed, Refusal};
use std::io::Write;

/// An engine over another one. After each evaluation that is committed the sinks of the group catch up, if that is asked for, so
/// that they write at once.
#[derive(Drop)]
pub struct Pumping<E: Engine> {
    engine: E,
    pumps: bool,
}

impl<E: Engine> Pumping<E> {
    /// Over the engine as it is. Without `pumps` it only hands on what it is asked.
    pub fn new(engine: E, pumps: bool) -> Self
        ensures engine { result.engine ≡ engine }
        ensures pumps { result.pumps ≡ pumps }
    {
        Pumping { engine, pumps }
    }

    /// The engine below.
    pub fn into_engine(self) -> E
        ensures { result ≡ self.engine }
    {
        self.engine
    }
}

impl<E: Engine> Engine for Pumping<E> {
    ghost use Rattle.rl_session.specs.Pumping.{pumping_calls};

    ghost calls = { pumping_calls (λ s. s.engine) (λ s. s.pumps) E.calls };

    fn groups(&self) -> usize {
        self.engine.groups()
    }

    fn group(&self, name: &str) -> Option<usize> {
        self.engine.group(name)
    }

    fn push(&mut self, entry: Shared<Entry>) -> Result<ShardReply, Refusal> {
        self.engine.push(entry)
    }

    fn ask_all(&mut self, step: ShardStep) -> Result<Option<ShardReply>, Partly> {
        self.engine.ask_all(step)
    }

    fn edit(&mut self, group: usize, to: Group) -> Result<(), Refusal> {
        self.engine.edit(group, to)
    }

    fn evaluate(&mut self, group: usize, t: Ns) -> Result<Committed, Refusal> {
        let made = self.engine.evaluate(group, t);
        if self.pumps {
            catch_up_after(&mut self.engine, group, made)
        } else {
            made
        }
    }

    fn catch_up(&mut self, group: usize) -> Result<PlainList<u64>, Refusal> {
        self.engine.catch_up(group)
    }

    fn is_due(&self, group: usize, now: Ns) -> bool {
        self.engine.is_due(group, now)
    }

    fn show<W: Write>(&self, group: usize, sink: usize, out: &mut Printer<W>) -> bool {
        self.engine.show(group, sink, out)
    }

    fn takes_blocks(&self) -> bool {
        self.engine.takes_blocks()
    }
}

impl<E: Closes> Closes for Pumping<E> {
    ghost closes = { λ old failed new. E.closes old.engine failed new.engine × (new.pumps ≡ old.pumps) };

    fn close(&mut self) -> u64 {
        self.engine.close()
    }
}

// The sinks of a group catch up after what was committed. It lists those that refused again.
fn catch_up_after<E: Engine>(
    engine: &mut E,
    group: usize,
    made: Result<Committed, Refusal>,
) -> Result<Committed, Refusal>
    ensures after { CatchesUpAfter E.calls true engine.old group made result engine.new }
    ensures groups { E.calls.groups engine.new ≡ E.calls.groups engine.old }
    ensures moment { (t : ℕ) → IfOk made (λ committed. committed.evaluation.t ≡ t) → IfOk result (λ committed. committed.evaluation.t ≡ t) }
{
    let committed = made?;
    match engine.catch_up(group) {
        Ok(behind) => Ok(Committed {
            behind,
            ..committed
        }),
        Err(_refusal) => Ok(committed),
    }
}
