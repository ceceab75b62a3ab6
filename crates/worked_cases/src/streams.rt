//! Cases of streams over a store.
//!
//! The first line of an input has limits by their names, and after a `|` how reads of the store are spoilt: `0=gone` and
//! `1=flip:9`, `2=cut:3`, `3=swap:7`. Each line after it is a call: `push` and `holds` with an entry, `horizon` with a
//! moment, `cut`, `flush`, `len`, `reads`, `chunks`, `put` with a text, `get` with a number, `each` with labels and two
//! moments, `walk` with labels, by a cursor, and `windows`, which are built.
use crate::given::{Read, entry_in, limits_in, list_in, moment_in, number_in, words_of};
use crate::output::push_value;
use crate::streams_random::random;
use crate::trouble::Trouble;
use crate::windows_built::push_windows;
use rl_chunks::{MemStore, Spoil, SpoilStore};
use rl_labels::{Labels, MatchOp, Matcher, Ns, SelectorCode, TimeRange};
use rl_parts::Visitor;
use rl_plain::{PlainList, PlainText, Shared};
use rl_streams::{Cursor, Streams};
use std::alloc::{AllocError, Global};
use std::fmt::Display;
use std::marker::Model;
use std::mem;

/// What a directive gives for its input.
pub(crate) fn answer(output: &mut String, directive: &str, input: &str) -> Result<(), Trouble> {
    match directive {
        "run" => run(output, input),
        "random" => random(output, number_in(input)?),
        _ => Err(Trouble::NoSuchDirective),
    }
}

/// Streams over a store in memory, whose reads may be spoilt.
pub(crate) type Asked = Streams<SpoilStore<MemStore>>;

// What streams answer to each line.
fn run(output: &mut String, input: &str) -> Result<(), Trouble> {
    let (settings, lines) = input.split_once('\n').unwrap_or((input, ""));
    let (limits, spoils) = settings.split_once('|').unwrap_or((settings, ""));
    let mut streams = opened(*output.allocator(), limits, spoils)?;
    let ended = push_calls(output, &mut streams, lines);
    mem::forget(streams);
    ended
}

/// Streams under limits, whose reads are spoilt in these ways.
pub(crate) fn opened(alloc: Global, limits: &str, spoils: &str) -> Result<Asked, Trouble> {
    let limits = limits_in(limits)?;
    let plan = plan_in(alloc, spoils)?;
    let store = SpoilStore::new(MemStore::new(alloc), plan);
    Ok(Streams::new(alloc, store, limits))
}

fn push_calls(output: &mut String, streams: &mut Asked, lines: &str) -> Result<(), Trouble> {
    let mut horizon = moment_in("0")?;
    for line in lines.split('\n') {
        let (word, rest) = words_of(line);
        if word == "horizon" {
            horizon = moment_in(rest)?;
        } else {
            call(output, streams, horizon, word, rest)?;
        }
    }
    Ok(())
}

/// How reads are spoilt.
pub(crate) fn plan_in(alloc: Global, text: &str) -> Result<PlainList<(u64, Spoil)>, Trouble> {
    Ok(PlainList::from_vec(list_in(alloc, text.trim_start(), " ")?))
}

impl Read for Spoil {
    fn read(_alloc: Global, word: &str) -> Result<Self, Trouble> {
        let (how, number) = word.split_once(':').unwrap_or((word, "0"));
        let number = number_in(number)?;
        match how {
            "gone" => Ok(Spoil::Gone),
            "swap" => Ok(Spoil::Swap(number)),
            "flip" => Ok(Spoil::Flip(number as usize)),
            "cut" => Ok(Spoil::Cut(number as usize)),
            _ => Err(Trouble::BadInput),
        }
    }
}

// Writes what one call answers.
fn call(
    output: &mut String,
    streams: &mut Asked,
    horizon: Ns,
    word: &str,
    rest: &str,
) -> Result<(), Trouble> {
    match word {
        "push" => push(output, streams, horizon, rest),
        "holds" => holds(output, streams, rest),
        "cut" => Ok(streams.cut()?),
        "flush" => push_ended(output, &streams.flush()),
        "len" => push_value(output, &streams.len()),
        "chunks" => push_value(output, &streams.store().inner().len()),
        "reads" => push_value(output, &streams.store().inner().reads()),
        "put" => put(output, streams, rest),
        "get" => get(output, streams, rest),
        "each" => each(output, streams, rest),
        "walk" => walk(output, streams, rest),
        "windows" => push_windows(output, streams, rest),
        _ => Err(Trouble::BadInput),
    }
}

fn push(output: &mut String, streams: &mut Asked, horizon: Ns, entry: &str) -> Result<(), Trouble> {
    let alloc = *output.allocator();
    let entry = entry_in(alloc, entry)?;
    match streams.add(Shared::new(alloc, entry)?, horizon) {
        Ok(_) => push_value(output, &"ok"),
        Err(refusal) => push_value(output, &refusal),
    }
}

fn holds(output: &mut String, streams: &mut Asked, entry: &str) -> Result<(), Trouble> {
    let entry = entry_in(*output.allocator(), entry)?;
    match streams.holds(&entry) {
        Ok(held) => push_value(output, &held),
        Err(fault) => push_value(output, &fault),
    }
}

fn push_ended<F: Display>(output: &mut String, ended: &Result<(), F>) -> Result<(), Trouble> {
    match ended {
        Ok(()) => push_value(output, &"ok"),
        Err(fault) => push_value(output, fault),
    }
}

fn put(output: &mut String, streams: &mut Asked, text: &str) -> Result<(), Trouble> {
    let bytes = Vec::from_slice(*output.allocator(), text.as_bytes())?;
    match streams.put_blob(bytes) {
        Ok(number) => push_value(output, &number),
        Err(fault) => push_value(output, &fault),
    }
}

fn get(output: &mut String, streams: &mut Asked, number: &str) -> Result<(), Trouble> {
    match streams.get_blob(number_in(number)?) {
        Ok(Some(bytes)) => {
            let text = str::from_utf8(&bytes).or(Err(Trouble::BadInput))?;
            push_value(output, &text)
        }
        Ok(None) => push_value(output, &"nothing"),
        Err(fault) => push_value(output, &fault),
    }
}

// A selector of the labels.
pub(crate) fn selector_in(alloc: Global, text: &str) -> Result<PlainList<Matcher>, Trouble> {
    let mut matchers = Vec::new(alloc);
    for (name, value) in list_in::<(PlainText, PlainText)>(alloc, text, ",")? {
        let matcher = Matcher::new(name, MatchOp::Equal, value);
        matchers.push(matcher.or(Err(Trouble::BadInput))?)?;
    }
    Ok(PlainList::from_vec(matchers))
}

// Lines that were visited, with their labels, as text. Contracts see nothing of it.
#[derive(Drop)]
pub(crate) struct Visited {
    pub(crate) text: String,
}

impl Model for Visited {
    ghost use Rattle.std.specs.Prelude.{ℕ};

    ghost Value = { ℕ };

    ghost view = { λ _. 0 };
}

impl Visitor for Visited {
    ghost visiting = { λ output _. output };

    fn visit(&mut self, labels: &Labels, timestamp: Ns, text: &str) -> Result<(), AllocError> {
        push_line(&mut self.text, labels, timestamp, text)
    }
}

fn push_line(
    output: &mut String,
    labels: &Labels,
    timestamp: Ns,
    text: &str,
) -> Result<(), AllocError> {
    let timestamp = timestamp.get();
    writeln!(output, "{labels} {timestamp} {text}")
}

// The lines that are visited from one moment to another, or the fault after those that were visited until then.
fn each(output: &mut String, streams: &mut Asked, rest: &str) -> Result<(), Trouble> {
    let (labels, range) = words_of(rest);
    let (from, to) = words_of(range);
    let range = TimeRange {
        from: moment_in(from)?,
        to: moment_in(to)?,
    };
    let mut visited = Visited {
        text: String::new(*output.allocator()),
    };
    let ended = visit_lines(&mut visited, streams, labels, range);
    output.push_str(visited.text.as_str())?;
    ended
}

fn visit_lines(
    visited: &mut Visited,
    streams: &mut Asked,
    labels: &str,
    range: TimeRange,
) -> Result<(), Trouble> {
    let selector = selector_in(*visited.text.allocator(), labels)?;
    match streams.each(&selector, range, visited) {
        Ok(()) => Ok(()),
        Err(fault) => push_value(&mut visited.text, &fault),
    }
}

/// More time than the lines of a case have.
pub(crate) fn all_time() -> Result<TimeRange, Trouble> {
    Ok(TimeRange {
        from: moment_in("0")?,
        to: moment_in("9000000000s")?,
    })
}

// The lines that a cursor gives, one by one. After a fault it is asked again, at most a hundred times in all.
fn walk(output: &mut String, streams: &mut Asked, rest: &str) -> Result<(), Trouble> {
    let alloc = *output.allocator();
    let selector = selector_in(alloc, rest)?;
    let selector = SelectorCode::build(alloc, selector.as_slice()).or(Err(Trouble::BadInput))?;
    push_walk(output, &mut streams.cursor(&selector, all_time()?))
}

fn push_walk(output: &mut String, cursor: &mut Walker<'_>) -> Result<(), Trouble> {
    for _ in 0..100 {
        if !push_next(output, cursor)? {
            return Ok(());
        }
    }
    Ok(())
}

type Walker<'a> = Cursor<'a, SpoilStore<MemStore>>;

// Writes what a cursor gives next. Whether there was something.
fn push_next(output: &mut String, cursor: &mut Walker<'_>) -> Result<bool, Trouble> {
    match cursor.next() {
        Ok(Some((labels, line))) => {
            push_line(output, labels.get(), line.timestamp, line.text.as_str())?;
        }
        Ok(None) => return Ok(false),
        Err(fault) => push_value(output, &fault)?,
    }
    Ok(true)
}
