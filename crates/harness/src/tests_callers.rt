//! A ruler of two shards and two groups, and callers of it, each in a thread of its own.
ghost use Rattle.std.specs.Prelude.{◌≡◌, ◌∷◌, [], IfSome, map};
ghost use Rattle.std.specs.List.{AllByRecursion};
ghost use Rattle.rl_sinks.specs.LogState.{log_state};
ghost use Rattle.rl_world.specs.BookCalls.{IsFresh};
ghost use Rattle.rl_sinks.specs.declared.sink.SinkKind.TheVariants as kinds;

use crate::tests_given::{FULL, Failing, Planned, one, two};
use rl_chunks::{Store, StoreFault};
use rl_labels::{DEFAULT_LIMITS, Entry, Limits, Ns};
use rl_plain::{PlainList, Shared};
use rl_rules::{Evaluation, Group, RuleOutcome, read_rules};
use rl_session::read_push;
use rl_shard::{ShardFault, ShardReply};
use rl_sinks::{Recorder, Sink};
use rl_workers::{AllFault, Crew, EvaluationFault, Pass, Receipt, Ruler};
use rl_world::Committed;
use std::alloc::Global;
use std::sync::Wait;
use std::sync::ledger::Blank;
use std::thread;
use std::thread::Threads;

// Two groups, which count all lines of ten minutes.
const RULES: &str = r#"groups = [
    {name = "g", rules = [{record = "all", expr = 'sum(count_over_time({app=~".+"}[600s]))'}]},
    {name = "h", rules = [{record = "all", expr = 'sum(count_over_time({app=~".+"}[600s]))'}]}]"#;

// The first group as it is edited: it counts the lines of one stream.
const EDITED: &str = r#"groups = [
    {name = "g", rules = [{record = "some", expr = 'sum(count_over_time({app="b"}[600s]))'}]}]"#;

/// A ruler of which stores and sinks may fail.
pub(crate) type TestRuler<L, P> = Ruler<Failing, Recorder<Planned>, L, P>;

/// What the shards of a ruler may keep, and what fails.
#[derive(Clone, Copy)]
pub(crate) struct Setup {
    /// The most records of one journal.
    pub records: u64,
    /// The calls of the stores that are refused, counted from 0.
    pub refused: (u64, u64),
    /// How many writes of the sink of each group fail, the first ones.
    pub unwritten: (u64, u64),
}

/// Where nothing fails.
pub(crate) const SOUND: Setup = Setup {
    records: 1_048_576,
    refused: (u64::MAX, u64::MAX),
    unwritten: (0, 0),
};

// The sinks of a group: a recorder, which cannot write at first.
fn recorders(alloc: Global, unwritten: u64) -> Option<Vec<Recorder<Planned>>>
    ensures { IfSome result (λ own. AllByRecursion IsFresh (map (log_state kinds.Recorder) own.items)) }
{
    let writer = Planned::new(alloc, 99, (1, unwritten), FULL);
    one(alloc, Recorder::new(alloc, writer, 99))
}

/// Such a ruler, and the passes of two callers. Here and below there is nothing where memory runs out.
pub(crate) fn opened<L: Crew, P: Crew>(
    alloc: Global,
    setup: Setup,
    blanks: (Blank, Blank),
) -> Option<(TestRuler<L, P>, Vec<Pass<P>>)>
    requires names { (blanks.0.name ≡ L.name) × (blanks.1.name ≡ P.name) }
    requires shards { (blanks.0.parts ≡ L.parts) × (L.parts ≡ L.all) × (L.all ≡ 2) }
    requires callers { (blanks.1.parts ≡ P.parts) × (P.parts ≡ P.all) × (P.all ≡ 2) }
{
    let mut limits = DEFAULT_LIMITS;
    limits.records = setup.records;
    let limits = Limits::check(limits).ok()?;
    let first = Failing::new(alloc, setup.refused.0, StoreFault::Fault);
    let second = Failing::new(alloc, setup.refused.1, StoreFault::Fault);
    let stores = two(alloc, first, second)?;
    let groups = read_rules(alloc, RULES).ok()?;
    let own = recorders(alloc, setup.unwritten.0)?;
    let sinks = two(alloc, own, recorders(alloc, setup.unwritten.1)?)?;
    Ruler::open(alloc, limits, stores, groups, sinks, 2, blanks).ok()
}

/// What a caller does: it may edit the first group, and then in each round it pushes lines of a stream, one a second, and may
/// evaluate a group, two seconds after it did in the round before.
#[derive(Clone, Copy)]
pub(crate) struct Plan {
    pub edits: bool,
    pub app: &'static str,
    /// The second of the first line.
    pub first: u64,
    pub rounds: u64,
    /// How many lines are pushed in a round.
    pub lines: u64,
    pub group: usize,
    /// The second of the first evaluation, if there is one.
    pub at: Option<u64>,
}

/// Pushes no line, in one round.
pub(crate) const NO_PLAN: Plan = Plan {
    edits: false,
    app: "a",
    first: 1,
    rounds: 1,
    lines: 0,
    group: 0,
    at: None,
};

/// What a caller was answered.
#[derive(Clone, Copy, Debug, Default, Drop, PartialEq)]
pub(crate) struct Answers {
    pub edits: u64,
    pub pushes: u64,
    pub evaluations: u64,
    /// The evaluations that were refused since their moment was not later.
    pub late: u64,
    /// The value of the last evaluation.
    pub last: u64,
}

/// A caller, with its pass, and what it was answered.
#[derive(Drop)]
pub(crate) struct Caller<'a, D: Store, S: Sink, L: Crew, P: Crew, R> {
    pub rt: &'a R,
    pub ruler: &'a Ruler<D, S, L, P>,
    pub alloc: Global,
    pub pass: Pass<P>,
    pub plan: Plan,
    pub answers: Answers,
}

impl<'a, D: Store, S: Sink, L: Crew, P: Crew, R: Wait> Caller<'a, D, S, L, P, R> {
    // One that was answered nothing.
    fn new(
        rt: &'a R,
        alloc: Global,
        ruler: &'a Ruler<D, S, L, P>,
        pass: Pass<P>,
        plan: Plan,
    ) -> Self {
        Caller {
            rt,
            ruler,
            alloc,
            pass,
            plan,
            answers: Answers::default(),
        }
    }

    // Does what is planned.
    fn run(&mut self) {
        if self.plan.edits && self.edit() {
            self.answers.edits = 1;
        }
        for round in 0..self.plan.rounds {
            self.push_lines(round);
            if let Some(at) = self.plan.at {
                self.evaluate(at.saturating_add(round.saturating_mul(2)));
            }
        }
    }

    // Edits the first group. Whether it was edited.
    fn edit(&mut self) -> bool {
        match edited(self.alloc) {
            Some(to) => self.ruler.edit(self.rt, &mut self.pass, 0, to).is_ok(),
            None => false,
        }
    }

    // Pushes the lines of a round.
    fn push_lines(&mut self, round: u64) {
        let before = round.saturating_mul(self.plan.lines);
        for line in 0..self.plan.lines {
            let second = self.plan.first.saturating_add(before).saturating_add(line);
            let line = entry(self.alloc, self.plan.app, second);
            if push(self.rt, self.ruler, &mut self.pass, line) {
                self.answers.pushes = self.answers.pushes.saturating_add(1);
            }
        }
    }

    // Evaluates the planned group at a second.
    fn evaluate(&mut self, second: u64) {
        let Some(t) = Ns::new(second.saturating_mul(1_000_000_000)) else {
            return;
        };
        match self
            .ruler
            .evaluate(self.rt, &mut self.pass, self.plan.group, t)
        {
            Ok(committed) => {
                self.answers.evaluations = self.answers.evaluations.saturating_add(1);
                self.answers.last = value_of(committed.evaluation.get()).unwrap_or(u64::MAX);
            }
            Err(EvaluationFault::MomentNotLater { .. }) => {
                self.answers.late = self.answers.late.saturating_add(1);
            }
            Err(_) => {}
        }
    }
}

/// Two callers do what they plan, each in a thread of its own. Both passes, and what they were answered.
pub(crate) fn run_both<
    D: Store + Send,
    S: Sink + Send,
    L: Crew + Send,
    P: Crew + Send,
    R: Threads + Wait + Sync,
>(
    rt: &R,
    alloc: Global,
    ruler: &Ruler<D, S, L, P>,
    mut passes: Vec<Pass<P>>,
    plans: (Plan, Plan),
) -> Option<(Vec<Pass<P>>, Answers, Answers)> {
    let (second, first) = (passes.pop()?, passes.pop()?);
    let first = Caller::new(rt, alloc, ruler, first, plans.0);
    let second = Caller::new(rt, alloc, ruler, second, plans.1);
    let mut callers = two(alloc, first, second)?;
    thread::for_each_mut(rt, &mut callers, 2, &|_, caller| caller.run());
    let (second, first) = (callers.pop()?, callers.pop()?);
    let (first_answers, second_answers) = (first.answers, second.answers);
    passes.push(first.pass).ok()?;
    passes.push(second.pass).ok()?;
    Some((passes, first_answers, second_answers))
}

// The first group as it is edited.
fn edited(alloc: Global) -> Option<Group> {
    read_rules(alloc, EDITED).ok()?.pop()
}

/// Pushes a line. Whether it was accepted.
pub(crate) fn push<D: Store, S: Sink, L: Crew, P: Crew, R: Wait>(
    rt: &R,
    ruler: &Ruler<D, S, L, P>,
    pass: &mut Pass<P>,
    line: Option<Shared<Entry>>,
) -> bool {
    match line {
        Some(line) => matches!(ruler.push(rt, pass, line), Ok(ShardReply::Accepted)),
        None => false,
    }
}

/// A line of a stream at a second.
pub(crate) fn entry(alloc: Global, app: &str, second: u64) -> Option<Shared<Entry>> {
    let body = format!(in alloc;
        r#"{{"streams":[{{"stream":{{"app":"{app}"}},"values":[["{second}000000000","x"]]}}]}}"#
    ).ok()?;
    let entry = read_push(alloc, body.as_bytes()).ok()?.pop()?;
    Shared::new(alloc, entry).ok()
}

/// The value of the first sample of the first rule; 0 where it has none.
pub(crate) fn value_of(evaluation: &Evaluation) -> Option<u64> {
    let result = evaluation.outcomes.as_slice().first()?;
    let RuleOutcome::Samples(samples) = &result.outcome else {
        return None;
    };
    match samples.as_slice().first() {
        Some(sample) => u64::try_from(sample.value.numerator).ok(),
        None => Some(0),
    }
}

/// How many receipts of a shard there are.
pub(crate) fn received(receipts: &[Receipt], shard: usize) -> u64 {
    let mut count = 0u64;
    for receipt in receipts {
        count = count.saturating_add((receipt.shard == shard) as u64);
    }
    count
}

/// How many shards decided a step that all were asked for, and why no more.
pub(crate) fn decided(answer: &Result<PlainList<ShardReply>, AllFault>) -> (usize, &'static str) {
    match answer {
        Ok(replies) => (replies.len(), "all"),
        Err(AllFault::Partly { done, fault }) => (*done, fault_name(*fault)),
        Err(AllFault::Memory) => (0, "memory"),
    }
}

/// Which shard did not answer an evaluation, and why, where it was refused for that.
pub(crate) fn refused_at(answer: &Result<Committed, EvaluationFault>) -> (usize, &'static str) {
    match answer {
        Ok(_) => (0, "committed"),
        Err(EvaluationFault::AtShard { shard, fault }) => (*shard, fault_name(*fault)),
        Err(_) => (0, "another refusal"),
    }
}

// The name of a fault.
fn fault_name(fault: ShardFault) -> &'static str {
    match fault {
        ShardFault::JournalFull => "full",
        ShardFault::Fault => "fault",
        _ => "another fault",
    }
}
