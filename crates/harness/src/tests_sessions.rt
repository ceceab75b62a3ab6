//! Sessions whose output or whose recorder fails, or takes few bytes a write: how they end, what was written before, and how often the
//! output is flushed.
use crate::tests_given::{End, FULL, Planned, WRITTEN, front, is, session};
use rl_session::{RunError, Status};
use std::alloc::Global;
use std::io::ErrorKind;
use std::process::Abort;

const COMMANDS: &str =
    "push {\"streams\":[{\"stream\":{\"app\":\"a\"},\"values\":[[\"5000000000\",\"x\"]]}]}\neval 10 g\nshow 0 g\n\nsow 0 g\nend\n";

// What the session prints of its commands: 11, 44, 45, 19, 0 and 7 bytes.
const PRINTED: &str =
    "accepted 1\neval 10000000000 g\n{__name__=\"c\",app=\"a\"} 1\ncount 1\n{__name__=\"c\",app=\"a\"} 1 10000000000\nrefused BadCommand\nclosed\n";

// Which calls of an output that takes a byte a write are flushes: after each command but blank lines, and at the end.
const FLUSHES: [u64; 6] = [12, 57, 103, 123, 124, 132];

// How many bytes are printed before a call.
fn printed(at: u64) -> u64 {
    let mut bytes = at.saturating_sub(1);
    for flush in FLUSHES {
        bytes = bytes.saturating_sub((flush < at) as u64);
    }
    bytes
}

// Runs the session. Asserts how it ends, what it prints and what its recorder writes. How often both were called.
fn ends(
    rt: &impl Abort,
    alloc: Global,
    out: Planned,
    sink: Planned,
    want: (End, &str, &str),
) -> (u64, u64) {
    let (mut out, mut sink) = (out, sink);
    let end = session(alloc, COMMANDS, &mut sink, &mut out);
    is(rt, end, Some(want.0), out.calls);
    is(rt, out.text(), want.1, out.calls);
    is(rt, sink.text(), want.2, out.calls);
    (out.calls, sink.calls)
}

// One call of the output fails. A write that is interrupted is made again. Else nothing is printed after it, and the
// recorder writes what it has taken, which is a text from the evaluation on.
fn output_fails(rt: &impl Abort, alloc: Global, at: u64, kind: Option<ErrorKind>) {
    let out = Planned::new(alloc, 1, (at, at), kind);
    let sink = Planned::new(alloc, 99, (0, 0), FULL);
    if kind != FULL && FLUSHES.contains(&at) == kind.is_none() {
        ends(
            rt,
            alloc,
            out,
            sink,
            (Ok(Status::Refused), PRINTED, WRITTEN),
        );
    } else {
        let written = if at < 13 { "# end 0\n" } else { WRITTEN };
        let printed = front(PRINTED, printed(at));
        let want = (Err(RunError::WriteFault), printed, written);
        is(rt, ends(rt, alloc, out, sink, want).0, at, at);
    }
}

#[test]
fn the_output_fails_at_a_call(rt: HostRuntime) {
    for at in 1..133 {
        for kind in [FULL, Some(ErrorKind::Interrupted), None] {
            output_fails(&rt, rt.alloc(), at, kind);
        }
    }
}

// Each command but push and eval, none of which is a blank line.
const OTHERS: &str =
    "tick 10\npump g\nshow 0 g\ncut\nflush\ndelete 1 0 1 2 {app=\"a\"}\ncancel 1\nprocess 1 3\nretain 4\nedit groups = []";

// What the session prints of them, 93 bytes.
const OTHERS_PRINTED: &str =
    "eval 10000000000 g\nok\ncount 1\nok\nok\nok\nok\nrefused WasCancelled\nok\nrefused NotOneGroup\nclosed\n";

// Each call of an output that takes a byte a write is a byte, but for a flush after each of the ten commands and at the end.
#[test]
fn each_answer_is_flushed(rt: HostRuntime) {
    let mut out = Planned::new(rt.alloc(), 1, (0, 0), FULL);
    let mut sink = Planned::new(rt.alloc(), 99, (0, 0), FULL);
    let end = session(rt.alloc(), OTHERS, &mut sink, &mut out);
    is(&rt, end, Some(Ok(Status::Refused)), 0);
    is(&rt, out.text(), OTHERS_PRINTED, 1);
    is(&rt, out.calls, 104, 2);
}

// At each second an evaluation without samples. The recorder has room for eight.
const NINE: &str =
    "eval 1 g\neval 2 g\neval 3 g\neval 4 g\neval 5 g\neval 6 g\neval 7 g\neval 8 g\neval 9 g\n";

// What the session prints of them: nine lines of 18 bytes, 9 bytes that name the sink that is behind, and 7.
const NINE_PRINTED: &str =
    "eval 1000000000 g\neval 2000000000 g\neval 3000000000 g\neval 4000000000 g\neval 5000000000 g\neval 6000000000 g\neval 7000000000 g\neval 8000000000 g\neval 9000000000 g\nbehind 0\nclosed\n";

// A write of the line that names the sink that is behind fails, a byte a write. Nothing is printed after it.
#[test]
fn a_line_that_is_cut_off_is_not_ended(rt: HostRuntime) {
    for byte in 0..9 {
        let at = 171 + byte;
        let mut out = Planned::new(rt.alloc(), 1, (at, at), FULL);
        let mut sink = Planned::new(rt.alloc(), 99, (0, 0), FULL);
        let end = session(rt.alloc(), NINE, &mut sink, &mut out);
        is(&rt, end, Some(Err(RunError::WriteFault)), at);
        is(&rt, out.text(), front(NINE_PRINTED, 162 + byte), at);
        is(&rt, sink.text(), "# end 8\n", at);
    }
}

// A line of a stream whose labels are longer than a write is.
const LONG: &str =
    "push {\"streams\":[{\"stream\":{\"app\":\"a\",\"b\":\"0123456789012345678901234567890123456789012345678901234567890123456789\"},\"values\":[[\"5000000000\",\"x\"]]}]}\neval 10 g\n";

// What its recorder writes: 112 bytes of a text, and 8 of the last line.
const LONG_WRITTEN: &str =
    "{__name__=\"c\",app=\"a\",b=\"0123456789012345678901234567890123456789012345678901234567890123456789\"} 1 10000000000\n# end 1\n";

// A recorder whose writes are short goes on, and closes well.
#[test]
fn short_writes_of_a_long_text(rt: HostRuntime) {
    for step in [1, 64, 65, 111, 112] {
        let mut out = Planned::new(rt.alloc(), 99, (0, 0), FULL);
        let mut sink = Planned::new(rt.alloc(), step, (0, 0), FULL);
        let end = session(rt.alloc(), LONG, &mut sink, &mut out);
        is(&rt, end, Some(Ok(Status::Taken)), step as u64);
        is(&rt, sink.text(), LONG_WRITTEN, step as u64);
    }
}

// One write of the recorder fails or is interrupted. Its close reports it, and its drop goes on at that byte. Where the output
// fails too, before its last line, it is that failure that is reported.
fn recorder_fails(rt: &impl Abort, alloc: Global, at: u64, kind: Option<ErrorKind>) {
    for (last, want) in [(0, Ok(Status::Unwritten)), (1, Err(RunError::WriteFault))] {
        let out = Planned::new(alloc, 1, (124 * last, 124 * last), FULL);
        let sink = Planned::new(alloc, 1, (at, at), kind);
        let want = (want, front(PRINTED, 126 - 7 * last), WRITTEN);
        is(rt, ends(rt, alloc, out, sink, want).1, 46, at);
    }
}

#[test]
fn the_recorder_fails_at_a_byte(rt: HostRuntime) {
    for at in 1..46 {
        for kind in [FULL, Some(ErrorKind::Interrupted), None] {
            recorder_fails(&rt, rt.alloc(), at, kind);
        }
    }
}
