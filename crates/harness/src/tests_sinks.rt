//! What recorders and tails write when writes fail, are short or are interrupted: as they are pumped, closed and dropped.
use crate::tests_given::{FULL, Planned, WRITTEN, commit, front, is, recorded};
use rl_plain::Shared;
use rl_rules::Evaluation;
use rl_sinks::SinkFault::{Full, Refused, WriteFault};
use rl_sinks::{Recorder, Sink, SinkFault, SinkKind, Tail};
use std::alloc::Global;
use std::io::{BufWriter, ErrorKind};
use std::process::Abort;
use std::test::Fail;

// What a recorder writes of two evaluations and a quiet one between them: 37, 37 and 8 bytes.
const THREE: &str =
    "{__name__=\"c\",app=\"a\"} 1 10000000000\n{__name__=\"c\",app=\"a\"} 1 10000000000\n# end 3\n";

// What a tail that keeps two texts writes of these three: 20, 44 and 8 bytes.
const LAST: &str =
    "eval 100000000000 g\neval 10000000000 g\n{__name__=\"c\",app=\"a\"} 1\n# end 3\n";

// An evaluation, which has a sample at ten seconds and none at a hundred; nothing where memory runs out.
fn evaluation(alloc: Global, t: u64) -> Option<Shared<Evaluation>> {
    let mut world = recorded(alloc, 8)?;
    Some(commit(&mut world, (0, t))?.evaluation)
}

fn take<S: Sink>(rt: &impl Abort, sink: &mut S, evaluation: &Evaluation) -> Result<(), SinkFault> {
    assert!(rt; sink.count() < 99);
    sink.take(evaluation)
}

// Pumps a sink, and again where that failed. How often it failed.
fn pumps<S: Sink>(rt: &impl Abort, sink: &mut S) -> u64 {
    if sink.pump().is_ok() {
        return 0;
    }
    is(rt, sink.pump(), Ok(()), 0);
    1
}

// Closes a sink until that is well, three times at most. How often it failed.
fn closes<S: Sink>(sink: &mut S) -> u64 {
    for failed in 0..3 {
        if sink.close().is_ok() {
            return failed;
        }
    }
    3
}

// A sink takes three texts. The bits of a plan say after which of them it is pumped, and the last one whether it is closed.
// How often that failed.
fn uses<S: Sink>(rt: &impl Abort, sink: &mut S, evaluations: [&Evaluation; 3], plan: u64) -> u64 {
    let (mut rest, mut failed) = (plan, 0u64);
    for evaluation in evaluations {
        is(rt, take(rt, sink, evaluation), Ok(()), plan);
        if rest % 2 > 0 {
            failed = failed.wrapping_add(pumps(rt, sink));
        }
        rest /= 2;
    }
    if rest > 0 {
        failed = failed.wrapping_add(closes(sink));
    }
    failed
}

// A recorder is used by a plan, and dropped. How often it failed before that.
fn recorder_fails(
    rt: &impl Abort,
    alloc: Global,
    to: &mut Planned,
    evaluations: [&Evaluation; 3],
    plan: u64,
) -> u64 {
    let mut recorder = Recorder::new(alloc, to, 3);
    uses(rt, &mut recorder, evaluations, plan)
}

// A tail is used by a plan, and dropped. How often it failed before that; no such number where memory ran out.
fn tail_fails(
    rt: &impl Abort,
    alloc: Global,
    to: &mut Planned,
    evaluations: [&Evaluation; 3],
    plan: u64,
) -> u64 {
    match Tail::new(alloc, to, 2) {
        Ok(mut tail) => uses(rt, &mut tail, evaluations, plan),
        Err(_) => u64::MAX,
    }
}

// Asserts what a sink that is gone wrote: all of a text, in a number of writes and the one that failed. Where only the
// drop met that one, it stopped there; a sink that was closed met it before.
fn is_written(
    rt: &impl Abort,
    writer: &Planned,
    want: (&str, u64, u64),
    failed: u64,
    closed: bool,
) {
    let (all, writes, at) = want;
    let met = failed == (at > 0) as u64;
    let calls = if met { writes.wrapping_add(failed) } else { at };
    is(rt, (met, writer.calls), (met || closed, calls), at);
    let text = writer.text();
    is(rt, text, front(all, text.len() as u64), at);
    is(rt, text.len() == all.len(), met, at);
}

// A recorder or a tail by each plan. One write fails, counted from 1, or none.
fn plans(
    rt: &impl Abort,
    alloc: Global,
    evaluations: [&Evaluation; 3],
    device: (usize, u64, Option<ErrorKind>),
    want: (SinkKind, u64),
) {
    let (step, at, kind) = device;
    for plan in 0..16 {
        let mut writer = Planned::new(alloc, step, (at, at), kind);
        let (all, failed) = match want.0 {
            SinkKind::Tail => (LAST, tail_fails(rt, alloc, &mut writer, evaluations, plan)),
            _ => (
                THREE,
                recorder_fails(rt, alloc, &mut writer, evaluations, plan),
            ),
        };
        is_written(rt, &writer, (all, want.1, at), failed, plan > 7);
    }
}

// Each write of a sink fails in turn. By a step it makes the wanted number of them.
fn goes_on(
    rt: &impl Abort,
    alloc: Global,
    evaluations: [&Evaluation; 3],
    step: usize,
    want: (SinkKind, u64),
) {
    for at in 0..=want.1 {
        for kind in [FULL, Some(ErrorKind::Interrupted), None] {
            plans(rt, alloc, evaluations, (step, at, kind), want);
        }
    }
}

// Each write of a recorder fails from one on, a byte a write. What came before it is written, and no more: it is closed three
// times, and its drop tries once.
fn stops(rt: &impl Abort, alloc: Global, evaluations: [&Evaluation; 3]) {
    for at in 1..83 {
        let mut writer = Planned::new(alloc, 1, (at, 99), FULL);
        let failed = recorder_fails(rt, alloc, &mut writer, evaluations, 8);
        is(rt, writer.text(), front(THREE, at - 1), at);
        is(rt, (failed, writer.calls), (3, at + 3), at);
    }
}

// How many writes a recorder and a tail make by a step.
fn all_devices(rt: &impl Abort, alloc: Global, evaluations: [&Evaluation; 3]) {
    for (step, recorder, tail) in [(1, 82, 72), (4, 24, 20), (36, 7, 6), (37, 5, 6), (99, 5, 5)] {
        goes_on(rt, alloc, evaluations, step, (SinkKind::Recorder, recorder));
        goes_on(rt, alloc, evaluations, step, (SinkKind::Tail, tail));
    }
}

#[test]
fn each_byte_is_written_once(rt: HostRuntime) {
    match (evaluation(rt.alloc(), 10), evaluation(rt.alloc(), 100)) {
        (Some(one), Some(quiet)) => {
            let evaluations = [one.get(), quiet.get(), one.get()];
            all_devices(&rt, rt.alloc(), evaluations);
            stops(&rt, rt.alloc(), evaluations);
        }
        _ => is(&rt, "no evaluations", "two", 0),
    }
}

// A tail takes three texts, and is closed once, while a write fails, and dropped.
fn is_closed_once(
    rt: &impl Abort,
    alloc: Global,
    to: &mut Planned,
    evaluations: [&Evaluation; 3],
    at: u64,
) -> bool {
    let Ok(mut tail) = Tail::new(alloc, to, 2) else {
        return false;
    };
    uses(rt, &mut tail, evaluations, 0);
    is(rt, tail.close(), Err(WriteFault), at);
    true
}

// The drop of a tail that was closed goes on at the byte that was not written, a byte a write.
#[test]
fn a_dropped_tail_goes_on(rt: HostRuntime) {
    match (evaluation(rt.alloc(), 10), evaluation(rt.alloc(), 100)) {
        (Some(one), Some(quiet)) => {
            for at in 1..73 {
                let evaluations = [one.get(), quiet.get(), one.get()];
                let mut writer = Planned::new(rt.alloc(), 1, (at, at), FULL);
                let closed = is_closed_once(&rt, rt.alloc(), &mut writer, evaluations, at);
                is(&rt, (closed, writer.calls), (true, 73), at);
                is(&rt, writer.text(), LAST, at);
            }
        }
        _ => is(&rt, "no evaluations", "two", 0),
    }
}

// A recorder over a buffer takes a text, and is dropped.
fn is_buffered(rt: &impl Abort, alloc: Global, to: &mut Planned, one: &Evaluation) -> bool {
    let Ok(buffer) = BufWriter::new(alloc, to) else {
        return false;
    };
    let mut recorder = Recorder::new(alloc, buffer, 8);
    is(rt, take(rt, &mut recorder, one), Ok(()), 0);
    true
}

// The writer of a recorder that is dropped is dropped too: a buffer hands on what it holds.
#[test]
fn a_dropped_recorder_drops_its_writer(rt: HostRuntime) -> Result<(), Fail> {
    let one = evaluation(rt.alloc(), 10).ok_or("an evaluation")?;
    let mut writer = Planned::new(rt.alloc(), 99, (0, 0), FULL);
    let buffered = is_buffered(&rt, rt.alloc(), &mut writer, one.get());
    is(&rt, (buffered, writer.text()), (true, WRITTEN), 0);
    Ok(())
}

// A recorder with room for two texts takes the second while the first is written in part.
#[test]
fn a_text_that_is_half_written(rt: HostRuntime) -> Result<(), Fail> {
    let one = evaluation(rt.alloc(), 10).ok_or("an evaluation")?;
    let writer = Planned::new(rt.alloc(), 30, (2, 2), FULL);
    let mut recorder = Recorder::new(rt.alloc(), writer, 2);
    is(&rt, take(&rt, &mut recorder, one.get()), Ok(()), 1);
    is(&rt, recorder.pump(), Err(WriteFault), 2);
    is(&rt, take(&rt, &mut recorder, one.get()), Ok(()), 3);
    is(&rt, take(&rt, &mut recorder, one.get()), Err(Full), 4);
    Ok(())
}

// A sink with room for one text, over a writer that takes a part of it, and then fails twice.
fn is_the_recorder<S: Sink>(rt: &impl Abort, sink: &mut S, one: &Evaluation) {
    is(rt, sink.kind(), SinkKind::Recorder, 0);
    is(rt, take(rt, sink, one), Ok(()), 1);
    is(rt, sink.pump(), Err(WriteFault), 2);
    is(rt, take(rt, sink, one), Err(Full), 3);
    is(rt, sink.kept(0), Some(front(THREE, 37)), 4);
    is(rt, sink.kept(1), None, 5);
    for want in [Err(WriteFault), Ok(()), Ok(())] {
        is(rt, sink.close(), want, 6);
        is(rt, take(rt, sink, one), Err(Refused(1)), 7);
    }
}

#[test]
fn a_box_is_the_sink_in_it(rt: HostRuntime) -> Result<(), Fail> {
    let one = evaluation(rt.alloc(), 10).ok_or("an evaluation")?;
    let writer = Planned::new(rt.alloc(), 30, (2, 3), FULL);
    let mut sink: Box<dyn Sink + Send> = Box::new(
        rt.alloc(),
        Recorder::new(rt.alloc(), writer, 1),
    )?;
    is_the_recorder(&rt, &mut sink, one.get());
    Ok(())
}
