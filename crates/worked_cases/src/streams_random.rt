//! Streams, and one plain list that is asked the same questions.
use crate::chunks::Draws;
use crate::given::{entry_in, moment_in};
use crate::streams::{Asked, Visited, all_time, opened, selector_in};
use crate::trouble::Trouble;
use rl_labels::Entry;
use rl_plain::Shared;
use rl_streams::AddRefusal;
use std::alloc::{AllocError, Global};
use std::mem;

// A stream, a timestamp in seconds, and a line.
type Drawn = (u32, u64, u32);

/// In how many of `count` turns streams answer as the plain list, and whether both hold the same at the end. A turn may cut or
/// flush, asks whether an entry is held, and pushes it.
pub(crate) fn random(output: &mut String, count: u64) -> Result<(), Trouble> {
    let alloc = *output.allocator();
    let limits = "entries=600 chunk_entries=4 chunk_age=10 first_blob=3";
    let mut streams = opened(alloc, limits, "")?;
    let ended = push_turns(output, &mut streams, &mut Vec::new(alloc), count);
    mem::forget(streams);
    ended
}

fn push_turns(
    output: &mut String,
    streams: &mut Asked,
    held: &mut Vec<Drawn>,
    count: u64,
) -> Result<(), Trouble> {
    let mut draws = Draws { state: 7 };
    let mut same = 0u64;
    for turn in 0..count {
        if is_right(*output.allocator(), streams, held, &mut draws, turn)? {
            same = same.saturating_add(1);
        }
    }
    let is_same = hold_the_same(*output.allocator(), streams, held)?;
    let is_flushed = streams.store().inner().len() > 0;
    write!(output, "{same} of {count}; the same is held: {is_same}; ")?;
    writeln!(output, "some of it in chunks: {is_flushed}")?;
    Ok(())
}

// Takes a turn. Whether streams answer as the plain list.
fn is_right(
    alloc: Global,
    streams: &mut Asked,
    held: &mut Vec<Drawn>,
    draws: &mut Draws,
    turn: u64,
) -> Result<bool, Trouble> {
    match draws.up_to(9) {
        0 => streams.cut()?,
        1 => streams.flush().ok().ok_or(Trouble::BadInput)?,
        _ => {}
    }
    let late = u64::from(draws.up_to(8));
    let stream = draws.up_to(2);
    let drawn = (stream, (turn / 4).saturating_sub(late), draws.up_to(2));
    let (is_held, answer) = asked(alloc, streams, drawn)?;
    Ok(is_held == held.contains(&drawn) && answer == plain(held, drawn)?)
}

fn entry_of(alloc: Global, drawn: Drawn) -> Result<Entry, Trouble> {
    let (stream, timestamp, line) = drawn;
    let text = format!(in alloc; "{timestamp}s app={stream} {line}")?;
    entry_in(alloc, text.as_str())
}

// What streams answer: whether the entry is held, and what becomes of it.
fn asked(
    alloc: Global,
    streams: &mut Asked,
    drawn: Drawn,
) -> Result<(bool, &'static str), Trouble> {
    let entry = entry_of(alloc, drawn)?;
    let is_held = streams.holds(&entry).ok().ok_or(Trouble::BadInput)?;
    let added = streams.add(Shared::new(alloc, entry)?, moment_in("0")?);
    Ok((is_held, word_of(added)))
}

fn word_of(added: Result<bool, AddRefusal>) -> &'static str {
    match added {
        Ok(true) => "taken",
        Ok(false) => "held",
        Err(AddRefusal::TooFarBehind { newest: _ }) => "behind",
        Err(AddRefusal::Full) => "full",
        Err(_) => "failed",
    }
}

// What the definition answers, where nothing is ever taken away.
fn plain(held: &mut Vec<Drawn>, drawn: Drawn) -> Result<&'static str, AllocError> {
    let mut newest = 0u64;
    for other in held.iter() {
        if other.0 == drawn.0 {
            newest = newest.max(other.1);
        }
    }
    if drawn.1.saturating_add(5) < newest {
        return Ok("behind");
    }
    if held.contains(&drawn) {
        return Ok("held");
    }
    if held.len() >= 600 {
        return Ok("full");
    }
    held.push(drawn)?;
    Ok("taken")
}

// Whether streams have the number of lines that the plain list has, and each of its lines, of which no two are equal.
fn hold_the_same(alloc: Global, streams: &mut Asked, held: &[Drawn]) -> Result<bool, Trouble> {
    let output = visited_by(alloc, streams)?;
    let lines = output.text.as_str();
    let count = held.len();
    if lines.split_terminator('\n').count() != count || streams.len() != count as u64 {
        return Ok(false);
    }
    have_all(alloc, lines, held)
}

// All lines of streams.
fn visited_by(alloc: Global, streams: &mut Asked) -> Result<Visited, Trouble> {
    let selector = selector_in(alloc, "-")?;
    let text = String::new(alloc);
    let mut output = Visited { text };
    let ended = streams.each(&selector, all_time()?, &mut output);
    ended.ok().ok_or(Trouble::BadInput)?;
    Ok(output)
}

fn have_all(alloc: Global, lines: &str, held: &[Drawn]) -> Result<bool, Trouble> {
    for drawn in held {
        if !has(alloc, lines, *drawn)? {
            return Ok(false);
        }
    }
    Ok(true)
}

fn has(alloc: Global, lines: &str, drawn: Drawn) -> Result<bool, Trouble> {
    let entry = entry_of(alloc, drawn)?;
    let (labels, timestamp) = (&entry.labels, entry.timestamp.get());
    let wanted = format!(in alloc; "{labels} {timestamp} {}", entry.line)?;
    Ok(is_among(lines, wanted.as_str()))
}

fn is_among(lines: &str, wanted: &str) -> bool {
    for line in lines.split_terminator('\n') {
        if line == wanted {
            return true;
        }
    }
    false
}
