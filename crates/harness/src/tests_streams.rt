//! Streams over a store whose device fails in the middle of a flush, which is then asked again.
use crate::tests_given::{Failing, is};
use rl_chunks::StoreFault;
use rl_labels::{DEFAULT_LIMITS, Limits, Ns};
use rl_parts::FlushFault;
use rl_plain::Shared;
use rl_session::read_push;
use rl_streams::Streams;
use std::alloc::Global;
use std::process::Abort;

// Three streams of two lines each.
const LINES: &str = r#"{"streams":[
    {"stream":{"app":"a"},"values":[["1","a one"],["2","a two"]]},
    {"stream":{"app":"b"},"values":[["1","b one"],["2","b two"]]},
    {"stream":{"app":"c"},"values":[["1","c one"],["2","c two"]]}]}"#;

// The streams take the lines. Here and below there is nothing where memory runs out.
fn add(alloc: Global, streams: &mut Streams<Failing>) -> Option<u64> {
    let horizon = Ns::new(0)?;
    let mut taken = 0u64;
    for entry in read_push(alloc, LINES.as_bytes()).ok()? {
        let entry = Shared::new(alloc, entry).ok()?;
        if streams.add(entry, horizon).is_ok() {
            taken = taken.wrapping_add(1);
        }
    }
    Some(taken)
}

// How many of the lines are held.
fn held(alloc: Global, streams: &mut Streams<Failing>) -> Option<u64> {
    let mut held = 0u64;
    for entry in read_push(alloc, LINES.as_bytes()).ok()? {
        if streams.holds(&entry) == Ok(true) {
            held = held.wrapping_add(1);
        }
    }
    Some(held)
}

// Streams that seal each line in a part of its own, over a store that refuses one call.
fn streams(alloc: Global, refused: u64) -> Option<Streams<Failing>> {
    let mut raw = DEFAULT_LIMITS;
    raw.chunk_entries = 1;
    let limits = Limits::check(raw).ok()?;
    let store = Failing::new(alloc, refused, StoreFault::Fault);
    Some(Streams::new(alloc, store, limits))
}

// Asserts how many chunks there are, and that all lines are held.
fn holds(rt: &impl Abort, alloc: Global, streams: &mut Streams<Failing>, chunks: usize) {
    is(rt, streams.store().inner.len(), chunks, 0);
    is(rt, held(alloc, streams), Some(6), chunks as u64);
}

// A flush that fails at a put leaves the lines, and goes on when it is asked again.
fn flushes(rt: &impl Abort, alloc: Global, streams: &mut Streams<Failing>, puts: usize) {
    is(rt, add(alloc, streams), Some(6), 0);
    is(rt, streams.flush(), Err(FlushFault::Fault), 1);
    holds(rt, alloc, streams, puts);
    is(rt, streams.flush(), Ok(()), 2);
    holds(rt, alloc, streams, 6);
}

#[test]
fn a_flush_that_failed_goes_on_where_it_stopped(rt: HostRuntime) {
    for puts in 0..6 {
        match streams(rt.alloc(), puts as u64) {
            Some(mut streams) => flushes(&rt, rt.alloc(), &mut streams, puts),
            None => is(&rt, "no streams", "streams", 0),
        }
    }
}
