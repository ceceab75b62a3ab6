//! Readers of an input, turn by turn.
use crate::tests_given::is;
use rl_session::FrontFault::{NoMark, NotText, ReadFault, TooLong};
use rl_session::{Front, FrontError, FrontFault, read_front};
use std::alloc::Global;
use std::io::{self, ErrorKind, Read};
use std::process::Abort;

// An input with 15 bytes in front of its commands, which have 2.
const TEXT: &[u8] = b"groups = []\n%%\n\xc3\xa9";

// Gives what another reader has, by a plan: the most bytes a turn; a period of turns, of which the last one gives bytes and the
// others are interrupted; and whether it fails where it would end.
#[derive(Drop)]
struct Slow<R> {
    inner: R,
    plan: (usize, u64, bool),
    turns: u64,
}

impl<R: Read> Read for Slow<R> {
    fn read(&mut self, buf: &mut [u8]) -> io::Result<usize> {
        let (step, period, fails) = self.plan;
        self.turns = self.turns.wrapping_add(1);
        if self.turns.checked_rem(period) != Some(0) {
            return Err(io::Error::from(ErrorKind::Interrupted));
        }
        let room = buf.len().min(step);
        match self.inner.read(&mut buf[..room])? {
            0 if fails => Err(io::Error::from(ErrorKind::ConnectionReset)),
            count => Ok(count),
        }
    }
}

// How many bytes the commands have after the first character; no such number where memory ran out.
fn rest(found: Result<Front, FrontError>) -> Result<usize, FrontFault> {
    match found {
        Ok(front) => Ok(front.commands.as_str().trim_start_matches('é').len()),
        Err(FrontError::Fault(fault)) => Err(fault),
        Err(FrontError::Memory) => Ok(usize::MAX),
    }
}

// What is wanted where the reader ends and where it fails instead, and in how many turns.
type Wants = ([Result<usize, FrontFault>; 2], u64);

// Reads a text, followed by a number of `a`, by a step and a period. Asserts the rest of the commands, or the fault.
fn reads(rt: &impl Abort, alloc: Global, input: (&[u8], u64), plan: (usize, u64), wants: Wants) {
    for (fails, want) in [(false, wants.0[0]), (true, wants.0[1])] {
        let inner = input.0.chain(io::repeat(b'a').take(input.1));
        let mut reader = Slow {
            inner,
            plan: (plan.0, plan.1, fails),
            turns: 0,
        };
        is(rt, rest(read_front(alloc, &mut reader)), want, wants.1);
        is(rt, reader.turns, wants.1, wants.1);
    }
}

#[test]
fn few_bytes_a_turn(rt: HostRuntime) {
    for (step, period, turns) in [(1, 1, 18), (16, 1, 3), (17, 1, 2), (1, 3, 54), (17, 6, 12)] {
        let wants = ([Ok(0), Err(ReadFault)], turns);
        reads(&rt, rt.alloc(), (TEXT, 0), (step, period), wants);
    }
    for (text, fault, turns) in [
        (b"".as_slice(), NoMark, 1),
        (b"\xff".as_slice(), NotText, 2),
    ] {
        let wants = ([Err(fault), Err(ReadFault)], turns);
        reads(&rt, rt.alloc(), (text, 0), (9, 1), wants);
    }
}

// An input that is interrupted at every other turn, also after thousands of bytes, and one that ends with a full turn.
#[test]
fn many_bytes_a_turn(rt: HostRuntime) {
    for (filler, rest, step, period, turns) in [
        (10_000, 10_000, 100, 2, 204),
        (65_519, 65_519, 65_536, 1, 3),
    ] {
        let wants = ([Ok(rest), Err(ReadFault)], turns);
        reads(&rt, rt.alloc(), (TEXT, filler), (step, period), wants);
    }
}

// An input has at most 67,108,864 bytes, and 67,108,864 turns. With a byte more its end is not looked for; the last turn may
// give the end.
#[test]
fn the_longest_input(rt: HostRuntime) {
    let cases = [
        (67_108_847, 65_536, 1, Ok(67_108_847), 1_026),
        (67_108_848, 65_536, 1, Err(TooLong), 1_025),
        (u64::MAX, 65_536, 1, Err(TooLong), 1_025),
        (67_108_846, 1, 1, Ok(67_108_846), 67_108_864),
        (67_108_847, 1, 1, Err(TooLong), 67_108_864),
        (0, 17, 33_554_432, Ok(0), 67_108_864),
        (0, 17, 33_554_433, Err(TooLong), 67_108_864),
        (0, 17, u64::MAX, Err(TooLong), 67_108_864),
    ];
    for (filler, step, period, want, turns) in cases {
        let wants = ([want, want.and(Err(ReadFault))], turns);
        reads(&rt, rt.alloc(), (TEXT, filler), (step, period), wants);
    }
}
