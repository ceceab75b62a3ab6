//! A shard over a store that refuses a call of a removal, which is then asked for again; and what faults of requests say.
use crate::tests_given::{Failing, collect, delete, is};
use rl_aggregate::Partial;
use rl_chunks::StoreFault;
use rl_deletes::{CancelFault, ProcessFault, ReceiveFault};
use rl_labels::{DEFAULT_LIMITS, Limits, Ns};
use rl_plain::Shared;
use rl_session::read_push;
use rl_shard::{Shard, ShardFault, ShardReply, ShardStep};
use std::alloc::Global;
use std::fmt::Display;
use std::process::Abort;

// Lines that are flushed, a chunk for each stream.
const FLUSHED: &str = r#"{"streams":[
    {"stream":{"app":"a"},"values":[["1","gone"],["4","kept"]]},
    {"stream":{"app":"b"},"values":[["1","gone"]]},
    {"stream":{"app":"c"},"values":[["1","gone"]]}]}"#;

// Lines that are sealed after them.
const SEALED: &str = r#"{"streams":[
    {"stream":{"app":"a"},"values":[["2","gone"],["5","kept"]]},
    {"stream":{"app":"b"},"values":[["5","kept"]]}]}"#;

// Lines that stay in a head.
const HEAD: &str = r#"{"streams":[{"stream":{"app":"a"},"values":[["3","gone"],["6","kept"]]}]}"#;

// A line of each stream.
const STREAMS: &str = r#"{"streams":[
    {"stream":{"app":"a"},"values":[["1",""]]},
    {"stream":{"app":"b"},"values":[["1",""]]},
    {"stream":{"app":"c"},"values":[["1",""]]}]}"#;

const QUERY: &str = r#"count_over_time({app=~".+"}[10s])"#;

// What the request covers: 3 lines of `a` and one of `b`.
const SIEVE: &str = r#"{app=~"a|b"} |= "gone""#;

// A second, and the moment from which on lines are kept.
const NOW: u64 = 1_000_000_004;

// How often the store is called before a removal: 3 puts of the flush, and 3 reads of what is shown.
const BEFORE: u64 = 6;

// A removal, and what is wanted of it.
struct Removal {
    // Whether a request is processed. Else lines expire.
    is_process: bool,
    // How many lines of `a`, `b` and `c` are shown, as digits: before it, after it, and when all were pushed again.
    shown: [u64; 3],
    // How many lines are taken when all are pushed again.
    taken: u64,
    // How many of its calls report a refusal; the first ones.
    reporting: u64,
    // How many chunks there are at the end where the store refused a call, for each call; and last, where it refused none.
    chunks: &'static [usize],
}

// It reads `a`, puts what is left of it, and reads `b`. Then it removes both.
const PROCESS: Removal = Removal {
    is_process: true,
    shown: [311, 311, 621],
    taken: 9,
    reporting: 3,
    chunks: &[2, 2, 3, 3, 3, 2],
};

// It reads the three for the windows. Then it reads `a`, puts what is left of it, and reads `b` and `c`. Then it removes the three.
const RETAIN: Removal = Removal {
    is_process: false,
    shown: [621, 310, 310],
    taken: 4,
    reporting: 7,
    chunks: &[1, 1, 1, 1, 1, 2, 2, 2, 2, 2, 1],
};

fn reply_name(reply: &ShardReply) -> &'static str {
    match reply {
        ShardReply::Accepted => "accepted",
        ShardReply::Done => "done",
        _ => "another reply",
    }
}

fn fault_name(fault: ShardFault) -> &'static str {
    match fault {
        ShardFault::Fault => "fault",
        ShardFault::Memory => "memory",
        ShardFault::NumbersSpent => "no number",
        _ => "another fault",
    }
}

fn answered(shard: &mut Shard<Failing>, step: ShardStep) -> &'static str {
    match shard.apply(step) {
        Ok((_, reply)) => reply_name(&reply),
        Err(fault) => fault_name(fault),
    }
}

// The name of what is answered. Here and below there is nothing where memory runs out.
fn asked(shard: &mut Shard<Failing>, step: Option<ShardStep>) -> &'static str {
    match step {
        Some(step) => answered(shard, step),
        None => "no step",
    }
}

// How many of the lines of a body are taken.
fn pushed(alloc: Global, shard: &mut Shard<Failing>, body: &str) -> Option<u64> {
    let mut taken = 0u64;
    for entry in read_push(alloc, body.as_bytes()).ok()? {
        let step = ShardStep::Push(Shared::new(alloc, entry).ok()?);
        taken = taken.wrapping_add((answered(shard, step) == "accepted") as u64);
    }
    Some(taken)
}

fn pushed_all(alloc: Global, shard: &mut Shard<Failing>) -> Option<u64> {
    let mut taken = 0u64;
    for body in [FLUSHED, SEALED, HEAD] {
        taken = taken.wrapping_add(pushed(alloc, shard, body)?);
    }
    Some(taken)
}

// How many lines of `a`, `b` and `c` a partial has, as digits.
fn digits(alloc: Global, partial: &Partial) -> Option<u64> {
    let mut digits = 0u64;
    for entry in read_push(alloc, STREAMS.as_bytes()).ok()? {
        let count = partial
            .totals
            .get(&entry.labels)
            .map_or(0, |total| total.count);
        digits = digits.wrapping_mul(10).wrapping_add(count);
    }
    Some(digits)
}

// How many lines of each a shard shows, as digits.
fn shown(alloc: Global, shard: &mut Shard<Failing>) -> Option<u64> {
    match shard.apply(collect(alloc, &[QUERY], 9)?) {
        Ok((_, ShardReply::Collected(partials))) => {
            digits(alloc, partials.as_slice().first()?.get())
        }
        _ => None,
    }
}

// The removal, as soon as it is due.
fn removing(is_process: bool) -> Option<ShardStep> {
    let now = Ns::new(NOW)?;
    Some(if is_process {
        ShardStep::Process { id: 7, now }
    } else {
        ShardStep::Retain { now }
    })
}

// Lets a shard hold the lines, and hides some of them where they are to be processed.
fn fill(alloc: Global, shard: &mut Shard<Failing>, is_process: bool) -> Option<u64> {
    let flushed = pushed(alloc, shard, FLUSHED)?;
    answered(shard, ShardStep::Cut);
    answered(shard, ShardStep::Flush);
    let sealed = pushed(alloc, shard, SEALED)?;
    answered(shard, ShardStep::Cut);
    let head = pushed(alloc, shard, HEAD)?;
    if is_process {
        asked(shard, delete(alloc, SIEVE, 9));
    }
    Some(flushed.wrapping_add(sealed).wrapping_add(head))
}

// A shard over a store that refuses a call, counted from 0. Its chunks have the numbers from the first on. A request can be
// cancelled for a second, and lines are kept for a second.
fn shard(alloc: Global, first_blob: u64, refused: (u64, StoreFault)) -> Option<Shard<Failing>> {
    let mut raw = DEFAULT_LIMITS;
    raw.cancel = 1;
    raw.keep = 1;
    raw.first_blob = first_blob;
    let limits = Limits::check(raw).ok()?;
    let store = Failing::new(alloc, refused.0, refused.1);
    Some(Shard::open(alloc, store, limits))
}

// A removal that is refused leaves no record, and all that was shown.
fn refuses(
    rt: &impl Abort,
    alloc: Global,
    shard: &mut Shard<Failing>,
    of: &Removal,
    why: (&str, u64),
) {
    let records = shard.journal_len();
    is(rt, asked(shard, removing(of.is_process)), why.0, why.1);
    is(rt, shard.journal_len(), records, why.1);
    is(rt, shown(alloc, shard), Some(of.shown[0]), why.1);
}

// A removal that is done makes all of its calls. It leaves no line that it covers, and each other line.
fn finishes(rt: &impl Abort, alloc: Global, shard: &mut Shard<Failing>, of: &Removal, at: u64) {
    let before = shard.store().calls;
    is(rt, asked(shard, removing(of.is_process)), "done", at);
    let calls = shard.store().calls.wrapping_sub(before);
    is(rt, calls.wrapping_add(1), of.chunks.len() as u64, at);
    is(rt, shown(alloc, shard), Some(of.shown[1]), at);
    is(rt, pushed_all(alloc, shard), Some(of.taken), at);
    is(rt, shown(alloc, shard), Some(of.shown[2]), at);
}

// Asks for a removal, one of whose calls is refused, and again where that is reported.
fn removes(
    rt: &impl Abort,
    alloc: Global,
    shard: &mut Shard<Failing>,
    of: &Removal,
    why: (&str, u64),
) {
    is(rt, fill(alloc, shard, of.is_process), Some(9), why.1);
    is(rt, shown(alloc, shard), Some(of.shown[0]), why.1);
    is(rt, shard.store().calls, BEFORE, why.1);
    if why.1 < of.reporting {
        refuses(rt, alloc, shard, of, why);
    }
    finishes(rt, alloc, shard, of, why.1);
}

// Removes with a new shard. Asserts how often its store refused, and how many chunks that has at the end.
fn removes_anew(
    rt: &impl Abort,
    alloc: Global,
    of: &Removal,
    fault: (StoreFault, &str),
    want: (u64, usize),
) {
    // After the last call none is refused.
    let is_refused = want.0.wrapping_add(1) < of.chunks.len() as u64;
    let refused = if is_refused {
        BEFORE.wrapping_add(want.0)
    } else {
        u64::MAX
    };
    match shard(alloc, 0, (refused, fault.0)) {
        Some(mut shard) => {
            removes(rt, alloc, &mut shard, of, (fault.1, want.0));
            let store = shard.store();
            is(
                rt,
                (store.refusals, store.inner.len()),
                (is_refused as u64, want.1),
                want.0,
            );
        }
        None => is(rt, "no shard", "a shard", want.0),
    }
}

fn each_call(rt: &impl Abort, alloc: Global, of: &Removal) {
    for fault in [(StoreFault::Fault, "fault"), (StoreFault::Memory, "memory")] {
        for (at, chunks) in of.chunks.iter().enumerate() {
            removes_anew(rt, alloc, of, fault, (at as u64, *chunks));
        }
    }
}

#[test]
fn a_request_is_processed_when_it_is_asked_again(rt: HostRuntime) {
    each_call(&rt, rt.alloc(), &PROCESS);
}

#[test]
fn lines_expire_when_it_is_asked_again(rt: HostRuntime) {
    each_call(&rt, rt.alloc(), &RETAIN);
}

// Cancels a request whose processing was refused. What it would have removed is shown again.
fn cancels(rt: &impl Abort, alloc: Global, shard: &mut Shard<Failing>, why: &str) {
    is(rt, fill(alloc, shard, true), Some(9), 0);
    is(rt, asked(shard, removing(true)), why, 1);
    is(rt, answered(shard, ShardStep::Cancel { id: 7 }), "done", 2);
    is(rt, shown(alloc, shard), Some(621), 3);
}

// 3 puts come before the calls of a processing. The chunks of the flush may have the last numbers.
#[test]
fn what_was_to_be_removed_is_shown_again(rt: HostRuntime) {
    for (first_blob, refused, why) in [
        (0, 3, "fault"),
        (0, 4, "fault"),
        (0, 5, "fault"),
        (u64::MAX - 3, u64::MAX, "no number"),
    ] {
        match shard(rt.alloc(), first_blob, (refused, StoreFault::Fault)) {
            Some(mut shard) => cancels(&rt, rt.alloc(), &mut shard, why),
            None => is(&rt, "no shard", "a shard", refused),
        }
    }
}

const RECEIVING: [(ReceiveFault, &str); 2] = [
    (
        ReceiveFault::IdTaken,
        "the number is that of another request, or of one that was cancelled or processed",
    ),
    (ReceiveFault::Full, "there are 65536 requests"),
];

const CANCELLING: [(CancelFault, &str); 2] = [
    (CancelFault::NoSuchRequest, "no request has the number"),
    (CancelFault::AlreadyProcessed, "the request was processed"),
];

const PROCESSING: [(ProcessFault, &str); 3] = [
    (ProcessFault::NoSuchRequest, "no request has the number"),
    (ProcessFault::WasCancelled, "the request was cancelled"),
    (ProcessFault::TooEarly, "the request can still be cancelled"),
];

fn say<F: Display>(rt: &impl Abort, alloc: Global, faults: &[(F, &str)]) {
    for (fault, want) in faults {
        match format!(in alloc; "{fault}") {
            Ok(text) => is(rt, text.as_str(), *want, 0),
            Err(_) => is(rt, "no text", *want, 0),
        }
    }
}

// No program prints these.
#[test]
fn faults_of_requests_have_texts(rt: HostRuntime) {
    say(&rt, rt.alloc(), &RECEIVING);
    say(&rt, rt.alloc(), &CANCELLING);
    say(&rt, rt.alloc(), &PROCESSING);
}
