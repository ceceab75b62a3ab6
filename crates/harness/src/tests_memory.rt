//! Calls that run out of memory. One allocation of a test may fail: the call reports it, and made again it answers as ever.
//! Where memory runs out for what a test is given, it ends well.
use crate::tests_given::{
    Asked, End, FULL, Planned, catch_up, collect, commit, delete, is, pushes, recorded, session,
    two,
};
use rl_aggregate::Partial;
use rl_chunks::MemStore;
use rl_labels::{DEFAULT_LIMITS, Limits};
use rl_plain::{Shared, TryCopy};
use rl_session::{FrontError, Status, read_front};
use rl_shard::{Shard, ShardFault, ShardReply, ShardStep};
use std::alloc::Global;
use std::process::Abort;

const INPUT: &str =
    "[[groups]]\nname = \"g\"\n[[groups.rules]]\nrecord = \"c\"\nexpr = 'count_over_time({app=\"a\"}[10s])'\n%%\neval 10 g\n";

// How many groups it has, and how long its commands are.
fn sizes(alloc: Global) -> Result<(usize, usize), FrontError> {
    let front = read_front(alloc, &mut INPUT.as_bytes())?;
    Ok((front.groups.len(), front.commands.as_str().len()))
}

#[test]
fn an_input(rt: HostRuntime) {
    let mut found = sizes(rt.alloc());
    if found == Err(FrontError::Memory) {
        found = sizes(rt.alloc());
    }
    is(&rt, found, Ok((1, 10)), 0);
}

const COMMANDS: &str =
    "push {\"streams\":[{\"stream\":{\"app\":\"a\"},\"values\":[[\"5000000000\",\"x\"]]}]}\neval 10 g\neval 20 g\nshow 0 g\n";

// What the session prints, and what it prints where one of these runs out of memory: reading the push, taking its line, the
// first evaluation, its text, the second evaluation, its text.
const ENDS: [&str; 7] = [
    "accepted 1\neval 10000000000 g\n{__name__=\"c\",app=\"a\"} 1\neval 20000000000 g\n{__name__=\"c\",app=\"a\"} 1\ncount 2\n{__name__=\"c\",app=\"a\"} 1 10000000000\n{__name__=\"c\",app=\"a\"} 1 20000000000\nclosed\n",
    "refused BadPush Memory\neval 10000000000 g\neval 20000000000 g\ncount 2\nclosed\n",
    "accepted 0 refused 1\n  0 Memory\neval 10000000000 g\neval 20000000000 g\ncount 2\nclosed\n",
    "accepted 1\nrefused Memory\neval 20000000000 g\n{__name__=\"c\",app=\"a\"} 1\ncount 1\n{__name__=\"c\",app=\"a\"} 1 20000000000\nclosed\n",
    "accepted 1\neval 10000000000 g\n{__name__=\"c\",app=\"a\"} 1\nbehind 0\neval 20000000000 g\n{__name__=\"c\",app=\"a\"} 1\ncount 2\n{__name__=\"c\",app=\"a\"} 1 10000000000\n{__name__=\"c\",app=\"a\"} 1 20000000000\nclosed\n",
    "accepted 1\neval 10000000000 g\n{__name__=\"c\",app=\"a\"} 1\nrefused Memory\ncount 1\n{__name__=\"c\",app=\"a\"} 1 10000000000\nclosed\n",
    "accepted 1\neval 10000000000 g\n{__name__=\"c\",app=\"a\"} 1\neval 20000000000 g\n{__name__=\"c\",app=\"a\"} 1\nbehind 0\ncount 1\n{__name__=\"c\",app=\"a\"} 1 10000000000\nclosed\n",
];

// Whether a session may end like this. Lack of memory does not stop it.
fn may_end(end: End, printed: &str) -> bool {
    let status = [Status::Taken, Status::Refused][printed.contains("refused") as usize];
    end == Ok(status) && ENDS.contains(&printed)
}

// What is written, with room for all of it.
fn roomy(alloc: Global) -> Option<Planned> {
    let mut planned = Planned::new(alloc, 99, (0, 0), FULL);
    planned.bytes.reserve(999).ok()?;
    Some(planned)
}

// Runs the session. Whether it had all the memory.
fn runs(rt: &impl Abort, alloc: Global) -> Option<bool> {
    let mut out = roomy(alloc)?;
    let mut sink = roomy(alloc)?;
    let end = session(alloc, COMMANDS, &mut sink, &mut out)?;
    let printed = out.text();
    is(rt, may_end(end, printed), true, printed.len() as u64);
    Some(printed == ENDS[0])
}

#[test]
fn a_session(rt: HostRuntime) {
    let runs = (runs(&rt, rt.alloc()), runs(&rt, rt.alloc()));
    is(&rt, runs.0 == Some(true) || runs.1 == Some(true), true, 0);
}

// The number of an evaluation, and how many sinks are behind then.
fn committed<W: Asked>(world: &mut W, t: u64) -> Option<(u64, u64)> {
    let answer = commit(world, (0, t))?;
    Some((answer.number, answer.behind.len() as u64))
}

// How often the recorder is behind in three evaluations.
fn behind<W: Asked>(rt: &impl Abort, world: &mut W) -> u64 {
    let mut all = 0u64;
    for number in 0..3u64 {
        let (found, behind) = committed(world, number * 10 + 10).unwrap_or((u64::MAX, 0));
        is(rt, found, number, 0);
        is(
            rt,
            world.count(0, 0),
            (number + 1).checked_sub(behind),
            number,
        );
        all = all.wrapping_add(behind);
    }
    all
}

// A recorder that ran out of memory is behind, and catches up.
#[test]
fn a_world(rt: HostRuntime) {
    if let Some(mut world) = recorded(rt.alloc(), 8) {
        is(&rt, behind(&rt, &mut world) < 2, true, 3);
    }
}

// A recorder has room for one of two evaluations. Where memory runs out while it could catch up, its count stays, and it
// catches up when that is asked again.
fn catches_up<W: Asked>(rt: &impl Abort, world: &mut W) {
    for t in [10, 20] {
        is(rt, commit(world, (0, t)).is_some(), true, t);
    }
    if catch_up(world) != Some(0) {
        is(rt, world.count(0, 0), Some(1), 1);
        is(rt, catch_up(world), Some(0), 2);
    }
    is(rt, world.count(0, 0), Some(2), 3);
}

#[test]
fn a_full_recorder(rt: HostRuntime) {
    if let Some(mut world) = recorded(rt.alloc(), 1) {
        catches_up(&rt, &mut world);
    }
}

// A shard whose windows answer a question. No contract says anything of it, so what asks it is proved soon.
trait Live {
    // Whether a step is done; nothing where memory runs out.
    fn ask(&mut self, step: &ShardStep) -> Option<bool>;

    // Whether the windows answer the question.
    fn is_live(&self) -> bool;

    // How many lines they show of each range, as digits; nothing where memory runs out.
    fn count(&mut self) -> Option<u64>;

    // How often the store was read, and how many lines ran through pipelines.
    fn cost(&self) -> (u64, u64);
}

#[derive(Drop)]
struct Asking {
    shard: Shard<MemStore>,
    question: ShardStep,
}

impl Live for Asking {
    fn ask(&mut self, step: &ShardStep) -> Option<bool> {
        match self.shard.apply(step.try_copy().ok()?) {
            Ok((_, reply)) => Some(is_done(&reply)),
            Err(ShardFault::Memory) => None,
            Err(_) => Some(false),
        }
    }

    fn is_live(&self) -> bool {
        match &self.question {
            ShardStep::Collect { slot, terms, t } => {
                self.shard.is_live(*slot, terms.list().get(), *t)
            }
            _ => false,
        }
    }

    fn count(&mut self) -> Option<u64> {
        let (_, reply) = self.shard.apply(self.question.try_copy().ok()?).ok()?;
        digits_in(&reply)
    }

    fn cost(&self) -> (u64, u64) {
        (self.shard.store().reads(), self.shard.meter().runs())
    }
}

fn is_done(reply: &ShardReply) -> bool {
    matches!(reply, ShardReply::Accepted | ShardReply::Done)
}

// How many lines the partial of each term has, as digits.
fn digits_in(reply: &ShardReply) -> Option<u64> {
    match reply {
        ShardReply::Collected(partials) => Some(digits(partials.as_slice())),
        _ => None,
    }
}

fn digits(partials: &[Shared<Partial>]) -> u64 {
    let mut digits = 0u64;
    for partial in partials {
        digits = digits.wrapping_mul(10).wrapping_add(lines(partial.get()));
    }
    digits
}

fn lines(partial: &Partial) -> u64 {
    let mut lines = 0u64;
    for (_, volume) in partial.totals.iter() {
        lines = lines.wrapping_add(volume.count);
    }
    lines
}

// At 15 seconds, from 0 seconds on and from after 5 seconds on.
const QUERIES: [&str; 2] = [
    r#"count_over_time({app="a"}[20s])"#,
    r#"count_over_time({app="a"}[10s])"#,
];

// A line that a chunk has. It is in the longer range alone, so that the first line of the other one takes memory.
const FLUSHED: &str = r#"{"streams":[{"stream":{"app":"a"},"values":[["3000000000","kept"]]}]}"#;

// A line of both ranges, a late one of the longer range, and each line again.
const PUSHED: &str =
    r#"{"streams":[{"stream":{"app":"a"},"values":[["7000000000","x"],["4000000000","y"],["7000000000","x"],["3000000000","kept"]]}]}"#;

// A line of the longer range, which is hidden, and then one of both ranges, which is pushed while it would be hidden.
const HIDDEN: &str = r#"{"streams":[{"stream":{"app":"a"},"values":[["4000000000","gone"]]}]}"#;

const UNSEEN: &str = r#"{"streams":[{"stream":{"app":"a"},"values":[["7000000000","gone"]]}]}"#;

// A shard that has answered how many lines it has: that of the chunk. Here and below there is nothing where memory runs out.
fn asked_twice(alloc: Global) -> Option<Asking> {
    let question = collect(alloc, &QUERIES, 15_000_000_000)?;
    let limits = Limits::check(DEFAULT_LIMITS).ok()?;
    let shard = Shard::open(alloc, MemStore::new(alloc), limits);
    let mut asking = Asking { shard, question };
    fill(&mut asking, &pushes(alloc, FLUSHED)?)?;
    Some(asking)
}

fn fill<L: Live>(shard: &mut L, steps: &[ShardStep]) -> Option<u64> {
    for step in steps {
        shard.ask(step)?;
    }
    shard.ask(&ShardStep::Cut)?;
    shard.ask(&ShardStep::Flush)?;
    shard.count()
}

// Windows answer, reading nothing and running nothing. Where memory runs out they stay, and answer when they are asked again.
fn shows<L: Live>(rt: &impl Abort, shard: &mut L, want: u64) {
    is(rt, shard.is_live(), true, want);
    let cost = shard.cost();
    let mut found = shard.count();
    if found.is_none() {
        is(rt, shard.is_live(), true, want);
        found = shard.count();
    }
    is(rt, found, Some(want), want);
    is(rt, shard.cost(), cost, want);
}

// A step is done. Where memory runs out windows show what they showed, and the step is done when it is asked for again.
fn turns<L: Live>(rt: &impl Abort, shard: &mut L, step: &ShardStep, counts: (u64, u64)) {
    let mut done = shard.ask(step);
    if done.is_none() {
        shows(rt, shard, counts.0);
        done = shard.ask(step);
    }
    is(rt, done, Some(true), counts.1);
    shows(rt, shard, counts.1);
}

// Asks for each step, after which windows show so many lines.
fn turns_each<L: Live>(rt: &impl Abort, shard: &mut L, steps: &[ShardStep], counts: &[u64]) {
    let mut before = 10;
    shows(rt, shard, before);
    is(rt, steps.len(), counts.len(), 0);
    for (step, count) in steps.iter().zip(counts) {
        turns(rt, shard, step, (before, *count));
        before = *count;
    }
}

fn takes_lines(rt: &impl Abort, alloc: Global) -> Option<()> {
    let steps = pushes(alloc, PUSHED)?;
    turns_each(rt, &mut asked_twice(alloc)?, &steps, &[21, 31, 31, 31]);
    Some(())
}

#[test]
fn a_push_beside_live_windows(rt: HostRuntime) {
    let alloc = rt.alloc();
    let is_given = takes_lines(&rt, alloc).is_some() || takes_lines(&rt, alloc).is_some();
    is(&rt, is_given, true, 0);
}

// Steps that hide lines, and show them again.
fn turning(alloc: Global) -> Option<Vec<ShardStep>> {
    let mut steps = pushes(alloc, HIDDEN)?;
    steps
        .push(delete(alloc, r#"{app="a"} |= "gone""#, 9_000_000_000)?)
        .ok()?;
    steps.append(&mut pushes(alloc, UNSEEN)?).ok()?;
    steps.push(ShardStep::Cancel { id: 7 }).ok()?;
    Some(steps)
}

fn hides_lines(rt: &impl Abort, alloc: Global) -> Option<()> {
    let steps = turning(alloc)?;
    turns_each(rt, &mut asked_twice(alloc)?, &steps, &[20, 10, 10, 31]);
    Some(())
}

#[test]
fn a_cancel_beside_live_windows(rt: HostRuntime) {
    let alloc = rt.alloc();
    let is_given = hides_lines(&rt, alloc).is_some() || hides_lines(&rt, alloc).is_some();
    is(&rt, is_given, true, 0);
}
