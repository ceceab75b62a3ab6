//! What several tests are given.
ghost use Rattle.std.specs.Prelude.{◌≡◌, ◌∷◌, [], false, IfErr, IfSome, length, map};
ghost use Rattle.std.specs.List.{AllByRecursion};
ghost use Rattle.rl_world.specs.BookCalls.{IsFresh};

use rl_chunks::{MemStore, Store, StoreFault};
use rl_deletes::Deletion;
use rl_labels::{DEFAULT_LIMITS, Limits, Ns};
use rl_plain::{PlainList, Shared};
use rl_query::Term;
use rl_query_text::parse;
use rl_records::{SieveText, Terms};
use rl_rules::{Group, read_rules};
use rl_selector_text::parse_delete;
use rl_session::{Closes, Printer, RunError, Session, Status, WorldEngine, read_push};
use rl_shard::ShardStep;
use rl_sinks::{Recorder, Sink};
use rl_world::{Committed, Reply, Step, World};
use std::alloc::Global;
use std::io::{self, ErrorKind, Write};
use std::process::Abort;

// The rules of a group, which counts the lines of a minute.
const RULES: &str =
    r#"groups = [{name = "g", rules = [{record = "c", expr = 'count_over_time({app="a"}[60s])'}]}]"#;

// A line at five seconds.
const PUSH: &str = r#"{"streams":[{"stream":{"app":"a"},"values":[["5000000000","x"]]}]}"#;

/// What the recorder of the group `g` writes that took one text: 37 bytes of the text, and 8 of the last line.
pub const WRITTEN: &str = "{__name__=\"c\",app=\"a\"} 1 10000000000\n# end 1\n";

/// Asserts that an answer is the one that is wanted.
pub(crate) fn is<T: PartialEq + std::fmt::Debug + Drop>(
    rt: &impl Abort,
    found: T,
    want: T,
    at: u64,
) {
    assert!(rt; found == want, "at {at}: {found:?} and not {want:?}");
}

/// The first bytes of a text.
pub(crate) fn front(text: &str, bytes: u64) -> &str {
    text.get(..bytes as usize).unwrap_or("no text")
}

// The group. Here and below there is nothing where memory runs out.
fn group(alloc: Global) -> Option<Group> {
    read_rules(alloc, RULES).ok()?.pop()
}

fn groups(alloc: Global, count: usize) -> Option<Vec<Group>> {
    let mut groups = Vec::new(alloc);
    for _ in 0..count {
        groups.push(group(alloc)?).ok()?;
    }
    Some(groups)
}

// The step that pushes the line.
fn push(alloc: Global) -> Option<Step> {
    let entry = read_push(alloc, PUSH.as_bytes()).ok()?.pop()?;
    let step = ShardStep::Push(Shared::new(alloc, entry).ok()?);
    Some(Step::Shard { number: 0, step })
}

/// Steps that push the lines of a body.
pub(crate) fn pushes(alloc: Global, body: &str) -> Option<Vec<ShardStep>> {
    let mut steps = Vec::new(alloc);
    for entry in read_push(alloc, body.as_bytes()).ok()? {
        let entry = Shared::new(alloc, entry).ok()?;
        steps.push(ShardStep::Push(entry)).ok()?;
    }
    Some(steps)
}

/// The step that asks for the first term of each query at a moment in nanoseconds.
pub(crate) fn collect(alloc: Global, queries: &[&str], t: u64) -> Option<ShardStep> {
    let t = Ns::new(t)?;
    let terms = Terms::new(alloc, terms(alloc, queries)?).ok()?;
    Some(ShardStep::Collect { slot: 0, terms, t })
}

fn terms(alloc: Global, queries: &[&str]) -> Option<Vec<Term>> {
    let mut terms = Vec::new(alloc);
    for query in queries {
        terms.push(term(alloc, query)?).ok()?;
    }
    Some(terms)
}

fn term(alloc: Global, query: &str) -> Option<Term> {
    let query = parse(alloc, query).ok()?;
    Some(query.left)
}

/// The step that deletes what a selector covers up to a moment in nanoseconds, by the request 7, which is made at 4 nanoseconds.
pub(crate) fn delete(alloc: Global, selector: &str, end: u64) -> Option<ShardStep> {
    let (start, end, created) = (Ns::new(0)?, Ns::new(end)?, Ns::new(4)?);
    let sieve = parse_delete(alloc, selector).ok()?;
    let selector = SieveText::new(alloc, sieve).ok()?;
    Some(ShardStep::Delete(Deletion {
        id: 7,
        selector,
        start,
        end,
        created,
    }))
}

fn empty<S: Sink>(alloc: Global, sinks: Vec<Vec<S>>) -> Option<World<MemStore, S>>
    requires { AllByRecursion (λ own. AllByRecursion IsFresh (map S.state own.items)) sinks.items }
{
    let groups = groups(alloc, sinks.len())?;
    if groups.len() != sinks.len() {
        return None;
    }
    let limits = Limits::check(DEFAULT_LIMITS).ok()?;
    let stores = one(alloc, MemStore::new(alloc))?;
    World::open(alloc, limits, stores, groups, sinks).ok()
}

/// A world of one shard, which holds the line, and of a group for each list of sinks.
pub(crate) fn opened<S: Sink>(alloc: Global, sinks: Vec<Vec<S>>) -> Option<World<MemStore, S>>
    requires { AllByRecursion (λ own. AllByRecursion IsFresh (map S.state own.items)) sinks.items }
{
    let step = push(alloc)?;
    let mut world = empty(alloc, sinks)?;
    if takes(&mut world, step) {
        Some(world)
    } else {
        None
    }
}

/// Such a world of one group with a recorder, which has room for `cap` texts.
pub(crate) fn recorded(alloc: Global, cap: usize) -> Option<World<MemStore, Recorder<Vec<u8>>>> {
    let own = one(alloc, Recorder::new(alloc, Vec::new(alloc), cap))?;
    opened(alloc, one(alloc, own)?)
}

/// A world of whose answers no contract says anything, so what asks it is proved soon.
pub(crate) trait Asked {
    fn ask(&mut self, step: Step) -> Reply;

    /// How many evaluations a sink of a group has taken.
    fn count(&self, group: usize, sink: usize) -> Option<u64>;

    fn close_sinks(&mut self) -> u64;
}

impl<S: Sink> Asked for World<MemStore, S> {
    fn ask(&mut self, step: Step) -> Reply {
        self.answer(step)
    }

    fn count(&self, group: usize, sink: usize) -> Option<u64> {
        self.book(group)?.sink_count(sink)
    }

    fn close_sinks(&mut self) -> u64 {
        World::close_sinks(self)
    }
}

// Whether its shard decides a step.
fn takes<W: Asked>(world: &mut W, step: Step) -> bool {
    matches!(world.ask(step), Reply::Decided { .. })
}

/// Evaluates a group at a moment in seconds, and tries again where memory runs out the first time.
pub(crate) fn commit<W: Asked>(world: &mut W, at: (usize, u64)) -> Option<Committed> {
    let (group, t) = (at.0, Ns::new(at.1.saturating_mul(1_000_000_000))?);
    for _ in 0..2 {
        world.ask(Step::Begin { group, t });
        world.ask(Step::Gather { group, number: 0 });
        if let Reply::Committed(answer) = world.ask(Step::Commit { group }) {
            return Some(answer);
        }
    }
    None
}

/// The numbers of sinks, counted from 1, as digits.
pub(crate) fn digits(sinks: &PlainList<u64>) -> u64 {
    let mut all = 0u64;
    for sink in sinks.as_slice() {
        all = all.wrapping_mul(10).wrapping_add(*sink).wrapping_add(1);
    }
    all
}

/// Lets the sinks of the first group catch up. Which are still behind, as digits; nothing where memory runs out.
pub(crate) fn catch_up<W: Asked>(world: &mut W) -> Option<u64> {
    match world.ask(Step::CatchUp { group: 0 }) {
        Reply::CaughtUp { behind } => Some(digits(&behind)),
        _ => None,
    }
}

/// A list of one, made without an array: a `vec!` of what holds a `&mut` gets no proof.
pub(crate) fn one<T: Drop>(alloc: Global, item: T) -> Option<Vec<T>>
    ensures { IfSome result (λ list. list.items ≡ item ∷ []) }
{
    let mut list = Vec::new(alloc);
    list.push(item).ok()?;
    Some(list)
}

/// A list of two.
pub(crate) fn two<T: Drop>(alloc: Global, first: T, second: T) -> Option<Vec<T>>
    ensures { IfSome result (λ list. list.items ≡ first ∷ second ∷ []) }
{
    let mut list = one(alloc, first)?;
    list.push(second).ok()?;
    Some(list)
}

/// How a session ends.
pub type End = Result<Status, RunError>;

// A world of one shard and the group, with its sinks.
fn engine<S: Sink>(alloc: Global, sinks: Vec<Vec<S>>) -> Option<WorldEngine<MemStore, S>>
    requires one { length sinks.items ≡ 1 }
    requires fresh { AllByRecursion (λ own. AllByRecursion IsFresh (map S.state own.items)) sinks.items }
{
    let groups = one(alloc, group(alloc)?)?;
    let limits = Limits::check(DEFAULT_LIMITS).ok()?;
    let stores = one(alloc, MemStore::new(alloc))?;
    WorldEngine::open(alloc, limits, stores, groups, sinks).ok()
}

// Runs commands over any engine.
fn run<E: Closes>(alloc: Global, engine: E, text: &str, out: &mut Planned) -> End
    requires { E.calls.blocks ≡ false }
{
    Session::new(alloc, engine).run_commands(text, &mut Printer::new(out))
}

/// Runs commands over the group `g` with a recorder.
pub(crate) fn session(
    alloc: Global,
    text: &str,
    sink: &mut Planned,
    out: &mut Planned,
) -> Option<End> {
    let sinks = one(alloc, one(alloc, Recorder::new(alloc, sink, 8))?)?;
    let engine = engine(alloc, sinks)?;
    Some(run(alloc, engine, text, out))
}

/// A full disk.
pub const FULL: Option<ErrorKind> = Some(ErrorKind::StorageFull);

/// Keeps what is written to it, and fails by plan.
#[derive(Drop)]
pub struct Planned {
    pub bytes: Vec<u8>,
    // The most bytes that are taken at a write.
    step: usize,
    // The calls from the first to the last of these fail, counted from 1.
    fails: (u64, u64),
    // How they fail; with none they take no byte.
    kind: Option<ErrorKind>,
    /// How often it was called, to write or to flush.
    pub calls: u64,
}

impl Planned {
    pub(crate) fn new(
        alloc: Global,
        step: usize,
        fails: (u64, u64),
        kind: Option<ErrorKind>,
    ) -> Planned {
        Planned {
            bytes: Vec::new(alloc),
            step,
            fails,
            kind,
            calls: 0,
        }
    }

    pub(crate) fn text(&self) -> &str {
        std::str::from_utf8(self.bytes.as_slice()).unwrap_or("no text")
    }
}

impl Write for Planned {
    fn write(&mut self, buf: &[u8]) -> io::Result<usize> {
        self.calls = self.calls.wrapping_add(1);
        if self.fails.0 <= self.calls && self.calls <= self.fails.1 {
            return match self.kind {
                Some(kind) => Err(io::Error::from(kind)),
                None => Ok(0),
            };
        }
        let count = buf.len().min(self.step);
        self.bytes.extend_from_slice(&buf[..count])?;
        Ok(count)
    }

    fn flush(&mut self) -> io::Result<()> {
        self.write(b"")?;
        Ok(())
    }
}

/// A store in memory that refuses one call.
#[derive(Drop)]
pub struct Failing {
    pub inner: MemStore,
    // The call that is refused, counted from 0, and why.
    at: u64,
    why: StoreFault,
    /// How often it was called.
    pub calls: u64,
    /// How often it refused.
    pub refusals: u64,
    // How often its device failed, up to the greatest number.
    faults: u64,
}

impl Failing {
    ghost use Rattle.rl_chunks.specs.StoreState.{faults_after};

    pub(crate) fn new(alloc: Global, at: u64, why: StoreFault) -> Failing {
        Failing {
            inner: MemStore::new(alloc),
            at,
            why,
            calls: 0,
            refusals: 0,
            faults: 0,
        }
    }

    // Counts a call, and refuses it by plan, for this reason.
    fn called(&mut self, why: StoreFault) -> Result<(), StoreFault>
        ensures inner { self.new.inner ≡ self.old.inner }
        ensures why { IfErr result (λ fault. fault ≡ why) }
        ensures counted { self.new.faults ≡ faults_after result self.old.faults }
    {
        let call = self.calls;
        self.calls = call.wrapping_add(1);
        if call != self.at {
            return Ok(());
        }
        self.refusals = self.refusals.saturating_add(1);
        match why {
            StoreFault::Fault => {
                self.faults = self.faults.saturating_add(1);
                Err(StoreFault::Fault)
            }
            StoreFault::Memory => Err(StoreFault::Memory),
        }
    }
}

impl Store for Failing {
    ghost use Rattle.std.specs.Prelude.{true};
    ghost use Rattle.rl_chunks.specs.MemState.{blobs_of};

    ghost seen = { λ store. record { blobs = blobs_of store.inner; honest = true; reads = store.inner.reads; faults = store.faults } };

    fn put(&mut self, number: u64, bytes: Vec<u8>) -> Result<(), StoreFault> {
        self.called(self.why)?;
        self.inner.put(number, bytes)
    }

    fn get(&mut self, number: u64) -> Result<Option<Vec<u8>>, StoreFault> {
        let found = self.inner.get(number);
        self.called(self.why)?;
        found
    }

    fn remove(&mut self, number: u64) -> Result<(), StoreFault> {
        self.called(StoreFault::Fault)?;
        self.inner.remove(number)
    }
}
