//! Sinks of a world that refuse, or cannot write what they took, and catch up.
ghost use Rattle.std.specs.Prelude.{◌≡◌, [], Some, IfSome, map};
ghost use Rattle.std.specs.List.{AllByRecursion};
ghost use Rattle.rl_sinks.specs.LogState.{log_state};
ghost use Rattle.rl_world.specs.BookCalls.{IsFresh};
ghost use Rattle.rl_sinks.specs.declared.sink.SinkKind.TheVariants as kinds;

use crate::tests_given::{
    Asked, FULL, Planned, WRITTEN, catch_up, commit, digits, is, one, opened, two,
};
use rl_chunks::MemStore;
use rl_rules::Evaluation;
use rl_sinks::{Recorder, Sink, SinkFault, SinkKind};
use rl_world::World;
use std::alloc::Global;
use std::process::Abort;

// Evaluates and closes a world, and again.
fn closes<W: Asked>(rt: &impl Abort, world: &mut W, failed: u64) {
    for (t, failed) in [(10, failed), (20, 0)] {
        is(rt, commit(world, (0, t)).is_some(), true, t);
        is(rt, world.close_sinks(), failed, t);
    }
}

// A recorder with room for one text, of whose writes one may fail.
fn recorder(alloc: Global, at: u64) -> Recorder<Planned>
    ensures { IsFresh (log_state kinds.Recorder result) }
{
    Recorder::new(alloc, Planned::new(alloc, 99, (at, at), FULL), 1)
}

// The sinks of a group: one such recorder.
fn alone(alloc: Global, at: u64) -> Option<Vec<Recorder<Planned>>>
    ensures { IfSome result (λ own. AllByRecursion IsFresh (map (log_state kinds.Recorder) own.items)) }
{
    one(alloc, recorder(alloc, at))
}

// Two groups with such a recorder each.
fn recorders_close(rt: &impl Abort, alloc: Global, fails: (u64, u64), failed: u64) -> Option<bool> {
    let sinks = two(alloc, alone(alloc, fails.0)?, alone(alloc, fails.1)?)?;
    let mut world = opened(alloc, sinks)?;
    closes(rt, &mut world, failed);
    Some(true)
}

// How many could not write is reported, over all groups; closed again they write the rest, and none is reported.
#[test]
fn sinks_of_every_group_are_closed(rt: HostRuntime) {
    for (at, other, failed) in [(0, 0, 0), (1, 0, 1), (0, 3, 1), (4, 1, 2)] {
        let closed = recorders_close(&rt, rt.alloc(), (at, other), failed);
        is(&rt, closed, Some(true), failed);
    }
}

// A group with two such recorders, of which the first fails at its first write.
fn both(alloc: Global) -> Option<World<MemStore, Recorder<Planned>>> {
    let own = two(alloc, recorder(alloc, 1), recorder(alloc, 0))?;
    opened(alloc, one(alloc, own)?)
}

// Which sinks are behind, as digits, when a group was evaluated at a moment, or at none could catch up.
fn still_behind<W: Asked>(world: &mut W, t: u64) -> Option<u64> {
    if t == 0 {
        return catch_up(world);
    }
    let answer = commit(world, (0, t))?;
    Some(digits(&answer.behind))
}

// Asserts that, and how many evaluations each recorder has taken then.
fn takes_in_turn<W: Asked>(rt: &impl Abort, world: &mut W) {
    let turns = [(10, 0, 1, 1), (20, 12, 1, 1), (0, 1, 1, 2), (0, 0, 2, 2)];
    for (t, behind, first, second) in turns {
        is(rt, still_behind(world, t), Some(behind), t);
        is(rt, world.count(0, 0), Some(first), t);
        is(rt, world.count(0, 1), Some(second), t);
    }
}

// A recorder that is full takes more once it is pumped. One that could not write is still full, and listed.
#[test]
fn recorders_that_are_full_catch_up(rt: HostRuntime) {
    match both(rt.alloc()) {
        Some(mut world) => takes_in_turn(&rt, &mut world),
        None => is(&rt, "no world", "a world", 0),
    }
}

// Keeps no text, and cannot write. It refuses some, and then takes all.
#[derive(Default, Drop)]
struct Reluctant {
    refuses: u64,
    count: u64,
    refusals: u64,
    closed: bool,
    pumps: u64,
    failed: bool,
}

impl Sink for Reluctant {
    ghost state = { λ sink. record { kind = kinds.Tail; limit = Some 0; count = sink.count; kept = []; closed = sink.closed; refusals = sink.refusals; pumps = sink.pumps; failed = sink.failed } };

    fn kind(&self) -> SinkKind {
        SinkKind::Tail
    }

    fn limit(&self) -> Option<u64> {
        Some(0)
    }

    fn count(&self) -> u64 {
        self.count
    }

    fn kept(&self, _index: u64) -> Option<&str> {
        None
    }

    fn take(&mut self, _evaluation: &Evaluation) -> Result<(), SinkFault> {
        let open = !self.closed;
        if open && self.refusals >= self.refuses {
            self.count += 1;
            return Ok(());
        }
        self.refusals = self.refusals.wrapping_add(1);
        Err(SinkFault::Refused(if open { 2 } else { 1 }))
    }

    fn pump(&mut self) -> Result<(), SinkFault> {
        self.pumps = self.pumps.wrapping_add(1);
        self.failed = true;
        Err(SinkFault::WriteFault)
    }

    fn close(&mut self) -> Result<(), SinkFault> {
        self.closed = true;
        self.failed = false;
        Ok(())
    }
}

fn refusing(refuses: u64) -> Reluctant
    ensures { result.count ≡ 0 }
{
    let mut sink = Reluctant::default();
    sink.refuses = refuses;
    sink
}

// Two groups, whose sinks refuse two, none and one.
fn sluggish(alloc: Global) -> Option<World<MemStore, Reluctant>> {
    let own = two(alloc, refusing(2), refusing(0))?;
    let other = one(alloc, refusing(1))?;
    opened(alloc, two(alloc, own, other)?)
}

// How many sinks are behind when a group was evaluated at a moment.
fn behind<W: Asked>(world: &mut W, at: (usize, u64)) -> Option<usize> {
    Some(commit(world, at)?.behind.len())
}

// Asserts that, and how many evaluations each sink has taken then.
fn commits<W: Asked>(rt: &impl Abort, world: &mut W, at: (usize, u64), want: (usize, [u64; 3])) {
    is(rt, behind(world, at), Some(want.0), at.1);
    is(rt, world.count(0, 0), Some(want.1[0]), at.1);
    is(rt, world.count(0, 1), Some(want.1[1]), at.1);
    is(rt, world.count(1, 0), Some(want.1[2]), at.1);
}

fn catches_up<W: Asked>(rt: &impl Abort, world: &mut W) {
    commits(rt, world, (0, 10), (1, [0, 1, 0]));
    commits(rt, world, (0, 20), (1, [0, 2, 0]));
    is(rt, catch_up(world), Some(0), 25);
    is(rt, world.count(0, 0), Some(2), 25);
    commits(rt, world, (1, 10), (1, [2, 2, 0]));
    commits(rt, world, (0, 30), (0, [3, 3, 0]));
    commits(rt, world, (1, 20), (0, [3, 3, 2]));
}

// A sink that refused is offered the same evaluation again, and then those that came after it, also where its pump failed.
// What it refuses does not touch another of its group, nor that of another group.
#[test]
fn a_sink_catches_up(rt: HostRuntime) {
    match sluggish(rt.alloc()) {
        Some(mut world) => catches_up(&rt, &mut world),
        None => is(&rt, "no world", "a world", 0),
    }
}

// A world whose recorder took a text ends: its books are taken, and then their sinks, which are dropped. How many these are.
fn ends(alloc: Global, to: &mut Planned) -> Option<usize> {
    let sinks = one(alloc, one(alloc, Recorder::new(alloc, to, 8))?)?;
    let mut world = opened(alloc, sinks)?;
    commit(&mut world, (0, 10))?;
    let mut dropped = 0usize;
    for book in world.into_books() {
        dropped = dropped.wrapping_add(book.into_sinks().len());
    }
    Some(dropped)
}

// An end drops the sinks of each book, which write what they hold and the last line.
#[test]
fn an_end_drops_the_sinks(rt: HostRuntime) {
    let mut writer = Planned::new(rt.alloc(), 99, (0, 0), FULL);
    let dropped = ends(rt.alloc(), &mut writer);
    is(&rt, (dropped, writer.text()), (Some(1), WRITTEN), 0);
}
