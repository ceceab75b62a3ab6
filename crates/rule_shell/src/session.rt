//! A session of callers over a new ruler, from its opening to its close.
ghost use Rattle.std.specs.Prelude.{◌≡◌, ◌≤◌, length, map, IfOk};
ghost use Rattle.std.specs.List.{AllByRecursion};
ghost use Rattle.rl_callers.specs.Callers.{listed};
ghost use Rattle.rl_world.specs.BookCalls.{IsFresh};
ghost use Rattle.rule_shell.specs.Options.{AreWithin};
ghost use Rattle.rule_shell.specs.Runs.{listed_groups, sinks_asked, Ends, IsRunOf, RunsWith};

use crate::counted::Counted;
use crate::counting::Counting;
use crate::options::{Plan, SinkOptions};
use crate::tally::Tally;
use rl_callers::{Caller, Listing, Runner, close_fault_name, run_callers};
use rl_chunks::Store;
use rl_plain::TryCopy;
use rl_rules::Group;
use rl_session::{Commands, Printer, Pumping, RunError, Status, end_closed, end_not_closed};
use rl_shard::Shard;
use rl_sinks::Sink;
use rl_workers::{Crew, Ended, Pass, Ruler};
use rl_world::Book;
use std::alloc::{AllocError, Global};
use std::io::Write;
use std::sync::Wait;
use std::sync::ledger::Blank;
use std::thread::Threads;
use std::{io, mem};

/// What a run is given besides its plan: a store for each shard, the groups, the sinks of each, and the commands.
#[derive(Drop)]
pub(crate) struct Given<D: Store, S: Sink> {
    pub(crate) stores: Vec<Counted<D>>,
    pub(crate) groups: Vec<Group>,
    pub(crate) sinks: Vec<Vec<S>>,
    pub(crate) commands: Commands,
}

// What the lines of a run left: whether one was refused, or why they stopped; what each caller has; what was counted.
#[derive(Drop)]
struct Ran<P: Crew> {
    refused: Result<bool, RunError>,
    passes: Vec<Pass<P>>,
    tally: Tally,
}

/// Runs the commands by callers of a new ruler, and closes it. As many groups and rules as a rule file may have are no more than a
/// ruler may have, so Memory alone keeps it from opening.
pub(crate) fn run_session<
    D: Store + Send,
    S: Sink + Send,
    L: Crew + Send,
    P: Crew + Send,
    R: Threads + Wait + Sync,
    W: Write,
>(
    rt: &HostRuntime,
    threads: &R,
    plan: Plan,
    given: Given<D, S>,
    blanks: (Blank, Blank),
    out: &mut Printer<W>,
) -> Result<Status, RunError>
    requires within { AreWithin (length given.stores.items) plan.callers }
    requires names { (blanks.0.name ≡ L.name) × (blanks.1.name ≡ P.name) }
    requires shards { (blanks.0.parts ≡ L.parts) × (L.parts ≡ L.all) × (L.all ≡ length given.stores.items) }
    requires callers { (blanks.1.parts ≡ P.parts) × (P.parts ≡ P.all) × (P.all ≡ plan.callers) }
    requires fresh { AllByRecursion (λ own. AllByRecursion IsFresh (map S.state own.items)) given.sinks.items }
    requires asked { map (λ own. map S.state own.items) given.sinks.items ≡ map (λ _. sinks_asked plan.sinks) given.groups.items }
    ensures { IfOk result (IsRunOf plan (length given.stores.items) given.groups.items given.commands out.old out.new) }
{
    let alloc = rt.alloc();
    let Given {
        stores,
        groups,
        sinks,
        commands,
    } = given;
    let listings = listings_of(alloc, &groups, sinks_of(plan.sinks))?;
    let (limits, callers) = (plan.limits, plan.callers);
    let opened = Ruler::<Counted<D>, S, L, P>::open(
        alloc, limits, stores, groups, sinks, callers, blanks,
    );
    let Ok((ruler, passes)) = opened else {
        return Err(RunError::Memory);
    };
    let ran = run_passes(
        threads,
        plan.pumps,
        &ruler,
        &listings,
        passes,
        commands.as_str(),
        out,
    )?;
    close(rt, plan.summary, ruler, ran, out)
}

// How many sinks each group has.
fn sinks_of(asked: SinkOptions) -> usize
    ensures { result ≡ length (sinks_asked asked) }
{
    if asked.all { 3 } else { 1 }
}

// The groups as callers know them.
fn listings_of(alloc: Global, groups: &[Group], sinks: usize) -> Result<Vec<Listing>, AllocError>
    ensures { IfOk result (λ listings. map listed listings.items ≡ listed_groups sinks groups.now) }
{
    let mut listings = Vec::with_capacity(alloc, groups.len())?;
    for group in groups {
        let name = group.name.try_copy()?;
        listings.push(Listing { name, sinks })?;
    }
    Ok(listings)
}

// Runs the commands by a caller for each pass.
fn run_passes<
    'a,
    D: Store + Send,
    S: Sink + Send,
    L: Crew + Send,
    P: Crew + Send,
    R: Threads + Wait + Sync,
    W: Write,
>(
    rt: &'a R,
    pumps: bool,
    ruler: &'a Ruler<Counted<D>, S, L, P>,
    listings: &'a [Listing],
    passes: Vec<Pass<P>>,
    commands: &str,
    out: &mut Printer<W>,
) -> Result<Ran<P>, RunError>
    requires { 1 ≤ length passes.items }
    ensures { IfOk result (λ ran. RunsWith pumps ruler.entry.now.shards (map listed listings.entry.now) passes.items commands.now out.old ran.refused out.new ran.passes.items) }
{
    let alloc = *passes.allocator();
    let mut left = Vec::with_capacity(alloc, passes.len())?;
    let mut callers = Vec::with_capacity(alloc, passes.len())?;
    for pass in passes {
        let engine = Pumping::new(Caller::new(rt, ruler, listings, pass), pumps);
        callers.push_reserved(Runner::new(alloc, Counting::new(alloc, engine)));
    }
    let refused = run_callers(rt, alloc, &mut callers, commands, out);
    let mut tally = Tally::new(alloc);
    for caller in callers {
        let (engine, own) = caller.into_engine().into_parts();
        tally.add(&own);
        left.push_reserved(engine.into_engine().into_pass());
    }
    Ok(Ran {
        refused,
        passes: left,
        tally,
    })
}

// Closes a ruler with the passes of its callers, and prints that, where the lines did not stop before. Without it the sinks are
// dropped first, so that they write what they have taken.
fn close<D: Store, S: Sink, L: Crew, P: Crew, W: Write>(
    rt: &HostRuntime,
    summary: bool,
    ruler: Ruler<Counted<D>, S, L, P>,
    ran: Ran<P>,
    out: &mut Printer<W>,
) -> Result<Status, RunError>
    requires { (L.parts ≡ L.all) × (P.parts ≡ P.all) }
    ensures { Ends ran.passes.items ran.refused out.old result out.new }
{
    let Ran {
        refused,
        passes,
        tally,
    } = ran;
    if summary {
        let _ = tally.print(rt);
    }
    match ruler.close(passes) {
        Ok(ended) => {
            let failed = ended.unclosed.len() as u64;
            leave(rt, summary, ended);
            end_closed(failed, refused?, out)
        }
        Err(left) => {
            let name = close_fault_name(left.fault);
            drop(left);
            refused?;
            end_not_closed(name, out)
        }
    }
}

// Drops the sinks of a ruler that is closed. Nothing else is taken apart: the process gives its memory back at once.
fn leave<D: Store, S: Sink>(rt: &HostRuntime, summary: bool, ended: Ended<Counted<D>, S>) {
    let Ended { shards, books, .. } = ended;
    if summary {
        let _ = print_rest(rt, &shards, &books);
    }
    mem::forget(shards);
    for book in books {
        drop(book.into_sinks());
    }
}

// Prints which sinks are behind, and how many chunks were written and read.
fn print_rest<D: Store, S: Sink>(
    rt: &HostRuntime,
    shards: &[Shard<Counted<D>>],
    books: &[Book<S>],
) -> io::Result<()> {
    for book in books {
        print_behind(rt, book)?;
    }
    let mut written = 0u64;
    let mut read = 0u64;
    for shard in shards {
        written = written.saturating_add(shard.store().written());
        read = read.saturating_add(shard.store().read());
    }
    eprintln!(rt; "chunks: {written} written, {read} read")
}

// Prints which sinks of a group are behind, and by how many evaluations.
fn print_behind<S: Sink>(rt: &HostRuntime, book: &Book<S>) -> io::Result<()> {
    let group = book.group().name.as_str();
    for number in 0..book.sinks() {
        let taken = book.sink_count(number).unwrap_or(0);
        let left = book.evaluations().saturating_sub(taken);
        if left > 0 {
            eprintln!(rt; "sink {number} of group {group}: behind by {left}")?;
        }
    }
    Ok(())
}
