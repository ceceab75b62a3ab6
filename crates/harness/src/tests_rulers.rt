//! Callers of a ruler in threads, whatever their schedule; shards that do not decide a step of all; and how a ruler is closed.
ghost use Rattle.std.specs.Prelude.{◌≡◌};

use crate::tests_callers::{
    Answers, NO_PLAN, Plan, SOUND, Setup, TestRuler, decided, entry, opened, push, received,
    refused_at, run_both, value_of,
};
use crate::tests_given::is;
use rl_labels::Ns;
use rl_workers::{Carrier, CloseFault, Crew, NotClosed, Note, Pass, Receipt};
use std::alloc::Global;
use std::marker::Brand;
use std::process::Abort;
use std::sync::Wait;
use std::sync::ledger::Blank;
use std::thread::Threads;

// What is tried of a ruler.
#[derive(Clone, Copy)]
enum Trial {
    // Two callers push, and the second evaluates.
    TwoCallers,
    // The first caller edits the group that the second evaluates.
    Edits,
    // Two callers push and evaluate often, both one group or each its own.
    Often { own: bool },
    // Each journal has room for one record.
    Full,
    // The store of a shard refuses its first call.
    Refused { shard: usize },
    // The sink of the second group cannot write.
    Unwritten,
}

fn setup_of(trial: Trial) -> Setup {
    let mut setup = SOUND;
    match trial {
        Trial::Full => setup.records = 1,
        Trial::Refused { shard: 0 } => setup.refused.0 = 0,
        Trial::Refused { .. } => setup.refused.1 = 0,
        Trial::Unwritten => setup.unwritten.1 = u64::MAX,
        _ => {}
    }
    setup
}

// Tries a ruler: the sinks that could not write all, as digits. Here and below there is nothing where memory runs out.
fn try_out<R: Threads + Wait + Abort + Sync>(rt: &R, alloc: Global, trial: Trial) -> Option<u64> {
    let blanks = (Blank::new(2), Blank::new(2));
    tried::<Brand, Brand, R>(rt, alloc, trial, blanks)
}

fn tried<L: Crew + Send, P: Crew + Send, R: Threads + Wait + Abort + Sync>(
    rt: &R,
    alloc: Global,
    trial: Trial,
    blanks: (Blank, Blank),
) -> Option<u64>
    requires names { (blanks.0.name ≡ L.name) × (blanks.1.name ≡ P.name) }
    requires shards { (blanks.0.parts ≡ L.parts) × (L.parts ≡ L.all) × (L.all ≡ 2) }
    requires callers { (blanks.1.parts ≡ P.parts) × (P.parts ≡ P.all) × (P.all ≡ 2) }
{
    let (ruler, passes) = opened::<L, P>(alloc, setup_of(trial), blanks)?;
    let passes = match trial {
        Trial::TwoCallers => two_callers(rt, alloc, &ruler, passes),
        Trial::Edits => edits(rt, alloc, &ruler, passes),
        Trial::Often { own } => often(rt, alloc, &ruler, passes, own),
        Trial::Full => full(rt, alloc, &ruler, passes),
        Trial::Refused { shard } => refused(rt, alloc, &ruler, passes, shard),
        Trial::Unwritten => unwritten(rt, alloc, &ruler, passes),
    }?;
    closed(rt, ruler, passes)
}

// Closes a ruler, which is refused without the last pass. The sinks that could not write all, as digits.
fn closed<L: Crew, P: Crew>(
    rt: &impl Abort,
    ruler: TestRuler<L, P>,
    mut passes: Vec<Pass<P>>,
) -> Option<u64>
    requires { (L.parts ≡ L.all) × (P.parts ≡ P.all) }
{
    let last = passes.pop()?;
    let Err(left) = ruler.close(passes) else {
        return None;
    };
    let NotClosed {
        fault,
        ruler,
        mut passes,
    } = left;
    is(rt, matches!(fault, CloseFault::PassMissing), true, 0);
    passes.push(last).ok()?;
    let ended = ruler.close(passes).ok()?;
    Some(sink_digits(&ended.unclosed))
}

// The numbers of a group and of its sink, counted from 1, as digits.
fn sink_digits(sinks: &[(usize, usize)]) -> u64 {
    let mut digits = 0u64;
    for (group, sink) in sinks {
        digits = digits.wrapping_mul(10).wrapping_add(*group as u64);
        digits = digits.wrapping_mul(10).wrapping_add(*sink as u64);
        digits = digits.wrapping_add(11);
    }
    digits
}

// The value of a group at a second.
fn value_at<L: Crew, P: Crew, R: Wait>(
    rt: &R,
    ruler: &TestRuler<L, P>,
    passes: &mut [Pass<P>],
    group: usize,
    second: u64,
) -> Option<u64> {
    let t = Ns::new(second.saturating_mul(1_000_000_000))?;
    let committed = ruler.evaluate(rt, passes.first_mut()?, group, t).ok()?;
    value_of(committed.evaluation.get())
}

fn two_callers<L: Crew + Send, P: Crew + Send, R: Threads + Wait + Abort + Sync>(
    rt: &R,
    alloc: Global,
    ruler: &TestRuler<L, P>,
    passes: Vec<Pass<P>>,
) -> Option<Vec<Pass<P>>> {
    let pushes = Plan {
        lines: 2,
        ..NO_PLAN
    };
    let evaluates = Plan {
        first: 3,
        lines: 1,
        at: Some(10),
        ..NO_PLAN
    };
    let (mut passes, first, second) = run_both(rt, alloc, ruler, passes, (pushes, evaluates))?;
    is(
        rt,
        (first.pushes, second.pushes, second.evaluations),
        (2, 1, 1),
        1,
    );
    is(rt, 1 <= second.last && second.last <= 3, true, second.last);
    is(rt, value_at(rt, ruler, &mut passes, 0, 20)?, 3, 2);
    Some(passes)
}

// The second caller pushes and evaluates. When a group of 5 lines is evaluated at a moment after the edit, the 2 of one stream count.
fn edits<L: Crew + Send, P: Crew + Send, R: Threads + Wait + Abort + Sync>(
    rt: &R,
    alloc: Global,
    ruler: &TestRuler<L, P>,
    passes: Vec<Pass<P>>,
) -> Option<Vec<Pass<P>>> {
    let edits = Plan {
        edits: true,
        lines: 3,
        ..NO_PLAN
    };
    let evaluates = Plan {
        app: "b",
        rounds: 2,
        lines: 1,
        at: Some(10),
        ..NO_PLAN
    };
    let (mut passes, first, second) = run_both(rt, alloc, ruler, passes, (edits, evaluates))?;
    is(
        rt,
        (first.edits, first.pushes, second.pushes, second.evaluations),
        (1, 3, 2, 2),
        1,
    );
    is(rt, value_at(rt, ruler, &mut passes, 0, 20)?, 2, 2);
    let edits = (
        edits_in(passes.first()?.notes()),
        edits_in(passes.last()?.notes()),
    );
    is(rt, edits, (1, 0), 3);
    Some(passes)
}

// How many notes are of the edit.
fn edits_in(notes: &[Note]) -> u64 {
    let mut count = 0u64;
    for note in notes {
        count = count.wrapping_add(is_of_edit(note) as u64);
    }
    count
}

fn is_of_edit(note: &Note) -> bool {
    match note {
        Note::Edited { group: 0, to, .. } => {
            to.get()
                .rules
                .as_slice()
                .iter()
                .all(|rule| rule.name.as_str() == "some")
        }
        _ => false,
    }
}

// Each caller pushes 200 lines to a shard of its own, and evaluates after each 20.
fn often<L: Crew + Send, P: Crew + Send, R: Threads + Wait + Abort + Sync>(
    rt: &R,
    alloc: Global,
    ruler: &TestRuler<L, P>,
    passes: Vec<Pass<P>>,
    own: bool,
) -> Option<Vec<Pass<P>>> {
    let to_second = Plan {
        rounds: 10,
        lines: 20,
        at: Some(301),
        ..NO_PLAN
    };
    let to_first = Plan {
        app: "b",
        group: own as usize,
        at: Some(300),
        ..to_second
    };
    let (mut passes, first, second) = run_both(rt, alloc, ruler, passes, (to_second, to_first))?;
    has_received(rt, passes.first()?.receipts(), first, (1, 0));
    has_received(rt, passes.last()?.receipts(), second, (0, 1));
    is(rt, own && (first.late != 0 || second.late != 0), false, 2);
    is(rt, value_at(rt, ruler, &mut passes, 0, 400)?, 400, 3);
    is(rt, value_at(rt, ruler, &mut passes, 1, 400)?, 400, 4);
    Some(passes)
}

// Asserts that each push to the first of two shards was accepted and each evaluation made or late, and that there is a receipt of
// each push, and one of each shard for each evaluation.
fn has_received(rt: &impl Abort, receipts: &[Receipt], answers: Answers, shards: (usize, usize)) {
    let made = answers.evaluations;
    is(rt, answers.pushes, 200, 5);
    is(rt, made.wrapping_add(answers.late), 10, 6);
    is(rt, received(receipts, shards.0), made.wrapping_add(200), 7);
    is(rt, received(receipts, shards.1), made, 8);
}

// The shards of the receipts, counted from 1, as digits.
fn shards_of(receipts: &[Receipt]) -> u64 {
    let mut digits = 0u64;
    for receipt in receipts {
        digits = digits
            .wrapping_mul(10)
            .wrapping_add(receipt.shard as u64)
            .wrapping_add(1);
    }
    digits
}

fn full<L: Crew, P: Crew, R: Wait + Abort>(
    rt: &R,
    alloc: Global,
    ruler: &TestRuler<L, P>,
    mut passes: Vec<Pass<P>>,
) -> Option<Vec<Pass<P>>> {
    let pass = passes.first_mut()?;
    is(rt, push(rt, ruler, pass, entry(alloc, "a", 1)), true, 1);
    is(rt, decided(&ruler.cut(rt, pass)), (1, "full"), 2);
    let answer = ruler.evaluate(rt, pass, 0, Ns::new(10_000_000_000)?);
    is(rt, refused_at(&answer), (0, "full"), 3);
    is(rt, shards_of(pass.receipts()), 21, 4);
    Some(passes)
}

// A flush goes up to the shard, and goes on with it when it is asked for again.
fn refused<L: Crew, P: Crew, R: Wait + Abort>(
    rt: &R,
    alloc: Global,
    ruler: &TestRuler<L, P>,
    mut passes: Vec<Pass<P>>,
    shard: usize,
) -> Option<Vec<Pass<P>>> {
    let pass = passes.first_mut()?;
    is(rt, push(rt, ruler, pass, entry(alloc, "a", 1)), true, 1);
    is(rt, push(rt, ruler, pass, entry(alloc, "b", 1)), true, 2);
    is(rt, decided(&ruler.cut(rt, pass)), (2, "all"), 3);
    is(rt, decided(&ruler.flush(rt, pass)), (shard, "fault"), 4);
    is(rt, decided(&ruler.flush(rt, pass)), (2, "all"), 5);
    let wanted = if shard == 0 { 211212 } else { 2112112 };
    is(rt, shards_of(pass.receipts()), wanted, 6);
    Some(passes)
}

fn unwritten<L: Crew, P: Crew, R: Wait + Abort>(
    rt: &R,
    alloc: Global,
    ruler: &TestRuler<L, P>,
    mut passes: Vec<Pass<P>>,
) -> Option<Vec<Pass<P>>> {
    is(
        rt,
        push(rt, ruler, passes.first_mut()?, entry(alloc, "a", 1)),
        true,
        1,
    );
    is(rt, value_at(rt, ruler, &mut passes, 0, 10)?, 1, 2);
    is(rt, value_at(rt, ruler, &mut passes, 1, 10)?, 1, 3);
    Some(passes)
}

#[test]
fn two_callers_push_and_evaluate(rt: HostRuntime) {
    is(&rt, try_out(&rt, rt.alloc(), Trial::TwoCallers), Some(0), 0);
}

#[test]
fn a_group_is_edited_while_it_is_evaluated(rt: HostRuntime) {
    is(&rt, try_out(&rt, rt.alloc(), Trial::Edits), Some(0), 0);
}

// No line and no receipt is lost, whatever the schedule. Of one group a moment that is not later is refused.
#[test]
fn two_callers_push_and_evaluate_often(rt: HostRuntime) {
    for own in [false, true] {
        is(
            &rt,
            try_out(&rt, rt.alloc(), Trial::Often { own }),
            Some(0),
            own as u64,
        );
    }
}

// A shard that does not decide a step ends it: those before it decided it, and it may be asked for again.
#[test]
fn a_step_of_all_is_decided_partly(rt: HostRuntime) {
    is(&rt, try_out(&rt, rt.alloc(), Trial::Full), Some(0), 0);
    for shard in [0, 1] {
        is(
            &rt,
            try_out(&rt, rt.alloc(), Trial::Refused { shard }),
            Some(0),
            shard as u64,
        );
    }
}

// A ruler is closed also where a sink cannot write, and lists it.
#[test]
fn a_sink_that_cannot_write_is_listed(rt: HostRuntime) {
    is(&rt, try_out(&rt, rt.alloc(), Trial::Unwritten), Some(21), 0);
}
