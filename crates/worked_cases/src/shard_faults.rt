//! Steps of a shard beside windows, over stores of which one call fails.
//!
//! An input is limits, a question, and a step a line, as `shard` has them; a line `ask` asks the question. After each step it
//! is written what was replied and how many lines the windows show, if they answer the question. Then the steps are asked of
//! new shards, one for each call of the store, which fails there. A step that is refused has to leave the journal and what
//! windows show, and to be done when it is asked again. So each shard has to reply the same; and it is written how many calls
//! there are, and how many of them refused a step.
use crate::failing_store::FailingStore;
use crate::given::{Read, limits_in};
use crate::shard_random::is_live;
use crate::trouble::Trouble;
use crate::world_steps::word_of;
use rl_aggregate::Partial;
use rl_plain::TryCopy;
use rl_records::{ShardReply, ShardStep};
use rl_shard::{Shard, ShardFault};
use std::alloc::Global;
use std::mem;

/// Writes what a shard replies, and how many calls of its store may fail.
pub(crate) fn faults(output: &mut String, input: &str) -> Result<(), Trouble> {
    let mut refused = 0u64;
    let calls = run(output, input, u64::MAX, &mut refused)?;
    for call in 0..calls {
        let mut other = String::new(*output.allocator());
        run(&mut other, input, call, &mut refused)?;
        if other.as_str() != output.as_str() {
            writeln!(output, "and where call {call} fails\n{other}")?;
            return Ok(());
        }
    }
    writeln!(output, "{calls} calls, {refused} refuse a step")?;
    Ok(())
}

// Writes what a new shard replies whose store fails at a call, and how many calls there were. Counts the steps that it refused.
fn run(output: &mut String, input: &str, call: u64, refused: &mut u64) -> Result<u64, Trouble> {
    let alloc = *output.allocator();
    let (limits, lines) = input.split_once('\n').ok_or(Trouble::BadInput)?;
    let (question, steps) = lines.split_once('\n').ok_or(Trouble::BadInput)?;
    let limits = limits_in(limits)?;
    let question = ShardStep::read(alloc, question)?;
    let store = FailingStore::failing_at(alloc, call);
    let mut asking = Asking {
        shard: Shard::open(alloc, store, limits),
        question,
        refused: 0,
    };
    let ended = asking.take_steps(output, steps);
    let calls = asking.shard.store().calls();
    *refused = refused.saturating_add(asking.refused);
    mem::forget(asking);
    ended?;
    Ok(calls)
}

// A shard, a question, and how many steps were refused.
#[derive(Drop)]
struct Asking {
    shard: Shard<FailingStore>,
    question: ShardStep,
    refused: u64,
}

impl Asking {
    fn take_steps(&mut self, output: &mut String, steps: &str) -> Result<(), Trouble> {
        for text in steps.split('\n') {
            self.take_line(output, text)?;
        }
        Ok(())
    }

    fn take_line(&mut self, output: &mut String, text: &str) -> Result<(), Trouble> {
        let step = self.step_in(*output.allocator(), text)?;
        let ended = self.take(output, &step);
        mem::forget(step);
        ended
    }

    fn step_in(&self, alloc: Global, text: &str) -> Result<ShardStep, Trouble> {
        if text == "ask" {
            return Ok(self.question.try_copy()?);
        }
        ShardStep::read(alloc, text)
    }

    // Asks for a step, and again where it is refused.
    fn take(&mut self, output: &mut String, step: &ShardStep) -> Result<(), Trouble> {
        let shown = self.shown()?;
        let records = self.shard.journal_len();
        if self.is_done(output, step)? {
            return Ok(());
        }
        self.refused = self.refused.saturating_add(1);
        if self.shard.journal_len() != records || self.shown()? != shown {
            writeln!(output, "refused, and changed")?;
        }
        if !self.is_done(output, step)? {
            writeln!(output, "refused again")?;
        }
        Ok(())
    }

    // Whether a step is not refused. Writes what is replied to it, and how many lines are shown then.
    fn is_done(&mut self, output: &mut String, step: &ShardStep) -> Result<bool, Trouble> {
        let word = match self.shard.apply(step.try_copy()?) {
            Ok((_, reply)) => word_of(&reply),
            Err(ShardFault::Fault) => return Ok(false),
            Err(_) => return Err(Trouble::BadInput),
        };
        let shown = self.shown()?;
        writeln!(output, "{word} {shown:?}")?;
        Ok(true)
    }

    // How many lines windows show, if they answer the question.
    fn shown(&mut self) -> Result<Option<u64>, Trouble> {
        if !is_live(&self.shard, &self.question) {
            return Ok(None);
        }
        match self.shard.apply(self.question.try_copy()?) {
            Ok((_, reply)) => Ok(lines_in(&reply)),
            Err(_) => Err(Trouble::Memory),
        }
    }
}

fn lines_in(reply: &ShardReply) -> Option<u64> {
    match reply {
        ShardReply::Collected(partials) => Some(lines_of(partials.as_slice().first()?.get())),
        _ => None,
    }
}

fn lines_of(partial: &Partial) -> u64 {
    let mut lines = 0u64;
    for (_, volume) in partial.totals.iter() {
        lines = lines.saturating_add(volume.count);
    }
    lines
}
