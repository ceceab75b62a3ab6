//! Records of a shard's journal: their bytes, and the SHA-256 of these, both in hexadecimal.
//!
//! A record is a step, as `shard` reads one, then ` ~ ` and a reply. A reply is `accepted`, `done`, `expired` and a moment,
//! `too-far` and a moment, `full`, `id-taken`, `requests-full`, `no-such-request`, `already-processed`, `was-cancelled`,
//! `too-early`; or `collected`, and in a line each its partials: how many lines have an error, and the totals of label sets,
//! as `2 a=x 3 7; a=y 1 0`. Its bytes are read again: whole, cut at each length, and with each byte changed in turn.
//!
//! A segment is the place of its first record, and in a line each its records; after its bytes come the records that it has at the
//! places around. A reading is bytes in hexadecimal.
use crate::aggregate::add;
use crate::chunks::{bytes_in, push_bytes};
use crate::compared::halves;
use crate::given::{Read, list_in, moment_in, number_in, words_of};
use crate::shard::push_digest;
use crate::trouble::Trouble;
use rl_aggregate::Partial;
use rl_plain::{OrMemory, PlainList, Same};
use rl_records::{Record, ShardReply, ShardStep, digest_of, record_bytes};
use rl_segments::{RecordFault, record_at, record_read, segment_bytes};
use std::alloc::Global;

// The most records of a segment.
const MOST_RECORDS: usize = 4096;

/// What a directive gives for its input.
pub(crate) fn answer(output: &mut String, directive: &str, input: &str) -> Result<(), Trouble> {
    let alloc = *output.allocator();
    match directive {
        "record" => push_record(output, &record_in(alloc, input)?),
        "read" => push_reading(output, &bytes_in(alloc, input)?),
        "segment" => push_segment(output, input),
        _ => Err(Trouble::NoSuchDirective),
    }
}

fn record_in(alloc: Global, input: &str) -> Result<Record, Trouble> {
    let (step, reply) = halves(input)?;
    let step = ShardStep::read(alloc, step)?;
    let reply = reply_in(alloc, reply)?;
    Ok(Record { step, reply })
}

fn push_record(output: &mut String, record: &Record) -> Result<(), Trouble> {
    let bytes = record_bytes(*output.allocator(), record)?;
    push_bytes(output, &bytes)?;
    writeln!(output)?;
    push_digest(output, Some(digest_of(record)))?;
    push_read(output, record, &bytes)
}

// Whether the bytes of a record are read as it is, and neither where they are cut nor where one is another.
fn push_read(output: &mut String, record: &Record, bytes: &[u8]) -> Result<(), Trouble> {
    let alloc = *output.allocator();
    if !is_read_as(alloc, bytes, record) {
        writeln!(output, "not read again")?;
    }
    for end in 0..bytes.len() {
        if !is_none(alloc, &bytes[..end]) {
            writeln!(output, "read where it is cut at {end}")?;
        }
    }
    let mut changed = Vec::from_slice(alloc, bytes)?;
    for index in 0..bytes.len() {
        turn_bit(&mut changed, index);
        if is_read_as(alloc, &changed, record) {
            writeln!(output, "read where byte {index} is another")?;
        }
        turn_bit(&mut changed, index);
    }
    Ok(())
}

// Turns the lowest bit of a byte.
fn turn_bit(bytes: &mut [u8], index: usize) {
    if let Some(byte) = bytes.get_mut(index) {
        *byte ^= 1;
    }
}

fn is_read_as(alloc: Global, bytes: &[u8], record: &Record) -> bool {
    match record_read(alloc, bytes) {
        Ok(read) => read.is_same(record),
        Err(_) => false,
    }
}

fn is_none(alloc: Global, bytes: &[u8]) -> bool {
    matches!(
        record_read(alloc, bytes),
        Err(OrMemory::Fault(RecordFault::NotARecord))
    )
}

// What bytes are read as: the bytes of the record, or why there is none.
fn push_reading(output: &mut String, bytes: &[u8]) -> Result<(), Trouble> {
    let alloc = *output.allocator();
    match record_read(alloc, bytes) {
        Ok(record) => push_bytes(output, &record_bytes(alloc, &record)?)?,
        Err(OrMemory::Fault(RecordFault::NotARecord)) => output.push_str("NotARecord")?,
        Err(OrMemory::Memory) => output.push_str("Memory")?,
    }
    output.push('\n')?;
    Ok(())
}

fn push_segment(output: &mut String, input: &str) -> Result<(), Trouble> {
    let alloc = *output.allocator();
    let (first, lines) = input.split_once('\n').unwrap_or((input, ""));
    let first = number_in(first)?;
    let mut records = Vec::new(alloc);
    for line in lines.split_terminator('\n') {
        records.push(record_in(alloc, line)?)?;
    }
    if records.len() > MOST_RECORDS {
        return Err(Trouble::BadInput);
    }
    let bytes = segment_bytes(alloc, first, &records)?;
    push_bytes(output, &bytes)?;
    output.push('\n')?;
    for place in first.saturating_sub(1)..first.saturating_add(records.len() as u64 + 1) {
        push_found(output, place, record_at(&bytes, place))?;
    }
    Ok(())
}

// What a segment has at a place.
fn push_found(output: &mut String, place: u64, found: Option<&[u8]>) -> Result<(), Trouble> {
    write!(output, "{place} ")?;
    match found {
        Some(bytes) => push_bytes(output, bytes)?,
        None => output.push_str("none")?,
    }
    output.push('\n')?;
    Ok(())
}

fn reply_in(alloc: Global, text: &str) -> Result<ShardReply, Trouble> {
    let (line, partials) = text.split_once('\n').unwrap_or((text, ""));
    let (word, moment) = words_of(line);
    match word {
        "collected" => {
            let partials = list_in(alloc, partials, "\n")?;
            Ok(ShardReply::Collected(PlainList::from_vec(partials)))
        }
        "expired" => Ok(ShardReply::Expired {
            horizon: moment_in(moment)?,
        }),
        "too-far" => Ok(ShardReply::TooFarBehind {
            newest: moment_in(moment)?,
        }),
        _ => plain_reply_in(word),
    }
}

// A reply that is no more than its name.
fn plain_reply_in(word: &str) -> Result<ShardReply, Trouble> {
    match word {
        "accepted" => Ok(ShardReply::Accepted),
        "done" => Ok(ShardReply::Done),
        "full" => Ok(ShardReply::Full),
        "id-taken" => Ok(ShardReply::IdTaken),
        "requests-full" => Ok(ShardReply::RequestsFull),
        "no-such-request" => Ok(ShardReply::NoSuchRequest),
        "already-processed" => Ok(ShardReply::AlreadyProcessed),
        "was-cancelled" => Ok(ShardReply::WasCancelled),
        "too-early" => Ok(ShardReply::TooEarly),
        _ => Err(Trouble::BadInput),
    }
}

impl Read for Partial {
    fn read(alloc: Global, text: &str) -> Result<Self, Trouble> {
        let (errors, totals) = words_of(text);
        let mut partial = Partial::empty(alloc);
        partial.errors = number_in(errors)?;
        for total in totals.split_terminator("; ") {
            add(alloc, &mut partial.totals, total)?;
        }
        Ok(partial)
    }
}
