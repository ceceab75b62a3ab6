//! Random steps of two shards: one whose windows run, over a store that may fail, and the plain one, which builds the windows
//! of each question anew.
//!
//! An input is how many steps there are, a number from which they are drawn, of how many calls of the first shard's store about
//! one fails (or 0), and limits by their names. After each step both have to reply the same, and the first shard to have the
//! windows of what each group asked last, from that moment on; what these answer may read nothing and run nothing. A step that
//! is refused for the store makes no record and loses no windows; before it is asked again, both shards are asked what each
//! group asked last.
use crate::failing_store::FailingStore;
use crate::given::{Read, limits_in, number_in, words_of};
use crate::shard_steps::StepDraws;
use crate::trouble::Trouble;
use crate::world_steps::push_decision;
use rl_aggregate::Partial;
use rl_labels::Ns;
use rl_plain::{Same, Shared, TryCopy};
use rl_records::{ShardReply, ShardStep, Terms};
use rl_shard::Shard;
use std::alloc::{AllocError, Global};
use std::mem;

type Driven = Shard<FailingStore>;

/// Writes whether the first shard replied as the plain one, or what went wrong at the first step at which something did.
pub(crate) fn random(output: &mut String, input: &str) -> Result<(), Trouble> {
    let (count, settings) = words_of(input);
    let (seed, settings) = words_of(settings);
    let (often, limits) = words_of(settings);
    let mut draws = StepDraws::new(*output.allocator(), number_in(seed)?);
    let mut both = Both::open(*output.allocator(), number_in(often)?, limits)?;
    let ended = both.take_steps(output, &mut draws, number_in(count)?);
    mem::forget(both);
    ended
}

// How often something of a kind came.
#[derive(Clone, Copy)]
struct Counts {
    // Entries that were taken, and those that were not.
    taken: u64,
    untaken: u64,
    // Other steps that were done, and those that were not.
    done: u64,
    undone: u64,
    // Questions that windows answered, and those for which they were built.
    live: u64,
    built: u64,
    // Steps that were refused for the store.
    faults: u64,
}

const NONE: Counts = Counts {
    taken: 0,
    untaken: 0,
    done: 0,
    undone: 0,
    live: 0,
    built: 0,
    faults: 0,
};

impl Counts {
    fn count(&mut self, reply: &ShardReply, is_live: bool) {
        let count = match reply {
            ShardReply::Accepted => &mut self.taken,
            ShardReply::Expired { .. } | ShardReply::TooFarBehind { .. } | ShardReply::Full => {
                &mut self.untaken
            }
            ShardReply::Done => &mut self.done,
            ShardReply::Collected(_) if is_live => &mut self.live,
            ShardReply::Collected(_) => &mut self.built,
            _ => &mut self.undone,
        };
        *count = count.saturating_add(1);
    }

    // Whether each came at least once in a hundred steps, faults where calls of the store may fail, and only there.
    fn are_often(self, steps: u64, may_fail: bool) -> bool {
        let least = steps / 100;
        let pushes = self.taken.min(self.untaken);
        let others = self.done.min(self.undone);
        let questions = self.live.min(self.built);
        let is_often = pushes.min(others).min(questions) >= least;
        is_often
            && (if may_fail {
                self.faults >= least
            } else {
                self.faults == 0
            })
    }
}

// What a shard has read, and how many lines ran through pipelines for its windows.
fn cost_of(shard: &Driven) -> (u64, u64) {
    (shard.store().reads(), shard.meter().runs())
}

/// Whether windows of a shard answer a step.
pub(crate) fn is_live(shard: &Driven, step: &ShardStep) -> bool {
    match step {
        ShardStep::Collect { slot, terms, t } => shard.is_live(*slot, terms.list().get(), *t),
        _ => false,
    }
}

// Whether windows answer what a step asked, from its moment on and not before.
fn is_live_from(shard: &Driven, step: &ShardStep) -> bool {
    let ShardStep::Collect { slot, terms, t } = step else {
        return false;
    };
    let (slot, terms) = (*slot, terms.list().get());
    let earlier = at(t.get().saturating_sub(1), *t);
    let later = at(t.get().saturating_add(3_600_000_000_000), *t);
    shard.is_live(slot, terms, *t)
        && shard.is_live(slot, terms, later)
        && (!shard.is_live(slot, terms, earlier) || earlier == *t)
}

fn at(nanoseconds: u64, other: Ns) -> Ns {
    Ns::new(nanoseconds).unwrap_or(other)
}

// Whether a question is of the group of another one.
fn is_of_group(step: &ShardStep, other: &ShardStep) -> bool {
    match (step, other) {
        (ShardStep::Collect { slot, .. }, ShardStep::Collect { slot: number, .. }) => {
            slot == number
        }
        _ => false,
    }
}

// Whether windows that answered a question answer another one.
fn goes_on(step: &ShardStep, asked: &ShardStep) -> bool {
    match (step, asked) {
        (
            ShardStep::Collect { slot, terms, t },
            ShardStep::Collect {
                slot: number,
                terms: own,
                t: from,
            },
        ) => slot == number && from <= t && terms.is_same(own),
        _ => false,
    }
}

// The two shards, what each group asked the first one last, and how often something of a kind came.
#[derive(Drop)]
struct Both {
    first: Driven,
    plain: Driven,
    asked: Vec<ShardStep>,
    counts: Counts,
    may_fail: bool,
}

impl Both {
    fn open(alloc: Global, often: u64, limits: &str) -> Result<Both, Trouble> {
        let limits = limits_in(limits)?;
        let often = u32::try_from(often).unwrap_or(0);
        Ok(Both {
            first: Shard::open(alloc, FailingStore::new(alloc, often), limits),
            plain: Shard::open(alloc, FailingStore::new(alloc, 0), limits),
            asked: Vec::new(alloc),
            counts: NONE,
            may_fail: often > 0,
        })
    }

    fn take_steps(
        &mut self,
        output: &mut String,
        draws: &mut StepDraws,
        count: u64,
    ) -> Result<(), Trouble> {
        for number in 0..count {
            self.take_step(output, draws)?;
            if !output.is_empty() {
                writeln!(output, "at step {number}")?;
                return Ok(());
            }
        }
        let is_varied = self.counts.are_often(count, self.may_fail);
        writeln!(
            output,
            "{count} steps as the plain shard; each kind came often: {is_varied}"
        )?;
        Ok(())
    }

    // Takes a step, and writes what goes wrong.
    fn take_step(&mut self, output: &mut String, draws: &mut StepDraws) -> Result<(), Trouble> {
        let text = draws.step()?;
        let step = ShardStep::read(*output.allocator(), text.as_str())?;
        let ended = self.ask(output, &step);
        mem::forget(step);
        if !output.is_empty() {
            writeln!(output, "{text}")?;
        }
        ended
    }

    fn ask(&mut self, output: &mut String, step: &ShardStep) -> Result<(), Trouble> {
        let is_live = is_live(&self.first, step);
        if is_live != self.is_awaited_live(step) {
            writeln!(output, "windows answer it: {is_live}")?;
        }
        let cost = cost_of(&self.first);
        let reply = self.decide(output, step)?;
        let has_cost = cost_of(&self.first) != cost;
        let ended = self.check(output, step, &reply, is_live && has_cost);
        self.counts.count(&reply, is_live);
        mem::forget(reply);
        ended
    }

    // Whether the group asked the same last, not later.
    fn is_awaited_live(&self, step: &ShardStep) -> bool {
        for asked in &self.asked {
            if goes_on(step, asked) {
                return true;
            }
        }
        false
    }

    // What the first shard replies, which is asked again where it refuses, at most a hundred times.
    fn decide(&mut self, output: &mut String, step: &ShardStep) -> Result<ShardReply, Trouble> {
        for _ in 0..100 {
            if let Some(reply) = self.try_decide(output, step)? {
                return Ok(reply);
            }
        }
        Err(Trouble::BadInput)
    }

    // What the first shard replies. Where it refuses, it has to have what it had.
    fn try_decide(
        &mut self,
        output: &mut String,
        step: &ShardStep,
    ) -> Result<Option<ShardReply>, Trouble> {
        let records = self.first.journal_len();
        if let Ok((_, reply)) = self.first.apply(step.try_copy()?) {
            return Ok(Some(reply));
        }
        self.counts.faults = self.counts.faults.saturating_add(1);
        if self.first.journal_len() != records || !self.are_live() {
            writeln!(output, "a fault that changes something")?;
        }
        self.ask_again(output)?;
        Ok(None)
    }

    // Asks both shards again what each group asked last.
    fn ask_again(&mut self, output: &mut String) -> Result<(), Trouble> {
        for index in 0..self.asked.len() {
            self.ask_at(output, index)?;
        }
        Ok(())
    }

    fn ask_at(&mut self, output: &mut String, index: usize) -> Result<(), Trouble> {
        let Some(step) = self.asked.get(index) else {
            return Ok(());
        };
        let step = step.try_copy()?;
        let ended = self.ask_windows(output, &step);
        mem::forget(step);
        ended
    }

    // Asks what windows answer, for which the store is not called.
    fn ask_windows(&mut self, output: &mut String, step: &ShardStep) -> Result<(), Trouble> {
        let cost = cost_of(&self.first);
        let Ok((_, reply)) = self.first.apply(step.try_copy()?) else {
            writeln!(output, "windows that refuse")?;
            return Ok(());
        };
        let has_cost = cost_of(&self.first) != cost;
        let ended = self.check(output, step, &reply, has_cost);
        mem::forget(reply);
        ended
    }

    // Asks the plain shard too, and compares the replies; then the windows of the first one.
    fn check(
        &mut self,
        output: &mut String,
        step: &ShardStep,
        reply: &ShardReply,
        is_late: bool,
    ) -> Result<(), Trouble> {
        if is_late {
            writeln!(output, "windows that answer by reading or running")?;
        }
        self.compare(output, step, reply)?;
        self.let_go(*output.allocator(), step)?;
        note_asked(&mut self.asked, step)?;
        if !self.are_live() {
            writeln!(output, "windows that do not answer")?;
        }
        Ok(())
    }

    fn compare(
        &mut self,
        output: &mut String,
        step: &ShardStep,
        reply: &ShardReply,
    ) -> Result<(), Trouble> {
        if is_live(&self.plain, step) {
            writeln!(output, "the plain shard has windows")?;
        }
        let Ok((_, plain)) = self.plain.apply(step.try_copy()?) else {
            return Err(Trouble::Memory);
        };
        let ended = push_difference(output, reply, &plain);
        mem::forget(plain);
        ended
    }

    // Has the plain shard let its windows go, by a question about nothing.
    fn let_go(&mut self, alloc: Global, step: &ShardStep) -> Result<(), Trouble> {
        let ShardStep::Collect { slot, t, .. } = step else {
            return Ok(());
        };
        let terms = Terms::new(alloc, Vec::new(alloc))?;
        let (slot, t) = (*slot, *t);
        match self.plain.apply(ShardStep::Collect { slot, terms, t }) {
            Ok(_) => Ok(()),
            Err(_) => Err(Trouble::Memory),
        }
    }

    // Whether the first shard has the windows of what each group asked last.
    fn are_live(&self) -> bool {
        for step in &self.asked {
            if !is_live_from(&self.first, step) {
                return false;
            }
        }
        true
    }
}

// Keeps a question in the stead of the last one of its group.
fn note_asked(asked: &mut Vec<ShardStep>, step: &ShardStep) -> Result<(), AllocError> {
    if !matches!(step, ShardStep::Collect { .. }) {
        return Ok(());
    }
    let copy = step.try_copy()?;
    for index in 0..asked.len() {
        if is_of_group(&asked[index], step) {
            asked[index] = copy;
            return Ok(());
        }
    }
    asked.push(copy)?;
    Ok(())
}

// Writes two replies that are not the same.
fn push_difference(
    output: &mut String,
    reply: &ShardReply,
    plain: &ShardReply,
) -> Result<(), Trouble> {
    if reply.is_same(plain) {
        return Ok(());
    }
    push_reply(output, "replied", reply)?;
    push_reply(output, "and not", plain)
}

fn push_reply(output: &mut String, words: &str, reply: &ShardReply) -> Result<(), Trouble> {
    writeln!(output, "{words}")?;
    push_decision(output, 0, reply)?;
    if let ShardReply::Collected(partials) = reply {
        push_partials(output, partials.as_slice())?;
    }
    Ok(())
}

fn push_partials(output: &mut String, partials: &[Shared<Partial>]) -> Result<(), Trouble> {
    for partial in partials {
        let (errors, many) = (partial.get().errors, partial.get().totals.len());
        writeln!(output, "{errors} errors, {many} label sets")?;
    }
    Ok(())
}
