//! Values that cases write in short.
//!
//! A label set is `a=x,b=y`, and `-` has no label. A moment is nanoseconds, or seconds as `5s`. An entry is a moment, a
//! label set and the rest of its line, one space apart. Limits are those that are not the default ones, as `keep=1 cache=2`.
ghost use Rattle.std.specs.Prelude.{IsTrue, IfOk};
ghost use Rattle.rl_labels.specs.EntryParts.{are_stream_labels};

use crate::trouble::Trouble;
use rl_labels::{DEFAULT_LIMITS, Entry, Labels, Limits, Ns, RawLimits};
use rl_plain::PlainText;
use std::alloc::Global;

/// A value that a case writes as a text.
pub(crate) trait Read: Drop {
    fn read(alloc: Global, text: &str) -> Result<Self, Trouble>;
}

impl Read for u64 {
    fn read(_alloc: Global, text: &str) -> Result<Self, Trouble> {
        number_in(text)
    }
}

impl Read for Ns {
    fn read(_alloc: Global, text: &str) -> Result<Self, Trouble> {
        moment_in(text)
    }
}

impl Read for PlainText {
    fn read(alloc: Global, text: &str) -> Result<Self, Trouble> {
        Ok(PlainText::from_str(alloc, text)?)
    }
}

/// A pair has `=` between its halves.
impl<A: Read, B: Read> Read for (A, B) {
    fn read(alloc: Global, text: &str) -> Result<Self, Trouble> {
        let (first, second) = text.split_once('=').ok_or(Trouble::BadInput)?;
        let first = A::read(alloc, first)?;
        Ok((first, B::read(alloc, second)?))
    }
}

impl Read for Entry {
    fn read(alloc: Global, text: &str) -> Result<Self, Trouble> {
        entry_in(alloc, text)
    }
}

/// A list of values with a sign between two; `-` has none.
pub(crate) fn list_in<T: Read>(alloc: Global, text: &str, sign: &str) -> Result<Vec<T>, Trouble> {
    let mut items = Vec::new(alloc);
    if text == "-" {
        return Ok(items);
    }
    for item in text.split_terminator(sign) {
        items.push(T::read(alloc, item)?)?;
    }
    Ok(items)
}

pub(crate) fn number_in(text: &str) -> Result<u64, Trouble> {
    text.parse::<u64>().ok().ok_or(Trouble::BadInput)
}

/// A moment, or the longest that there is.
pub(crate) fn moment_in(text: &str) -> Result<Ns, Trouble> {
    let nanoseconds = match text.strip_suffix("s") {
        Some(seconds) => number_in(seconds)?.saturating_mul(1_000_000_000),
        None => number_in(text)?,
    };
    Ns::new(nanoseconds).ok_or(Trouble::BadInput)
}

/// The first word, and what follows its space.
pub(crate) fn words_of(text: &str) -> (&str, &str) {
    text.split_once(' ').unwrap_or((text, ""))
}

pub(crate) fn labels_in(alloc: Global, text: &str) -> Result<Labels, Trouble>
    ensures { IfOk result (λ labels. IsTrue (are_stream_labels labels)) }
{
    let pairs = list_in(alloc, text, ",")?;
    Labels::from_pairs(alloc, pairs).or(Err(Trouble::BadInput))
}

pub(crate) fn entry_in(alloc: Global, text: &str) -> Result<Entry, Trouble> {
    let (moment, rest) = words_of(text);
    let (labels, line) = words_of(rest);
    let timestamp = moment_in(moment)?;
    let line = PlainText::from_str(alloc, line)?;
    let entry = Entry::new(labels_in(alloc, labels)?, timestamp, line);
    entry.or(Err(Trouble::BadInput))
}

pub(crate) fn limits_in(text: &str) -> Result<Limits, Trouble> {
    Limits::check(raw_limits_in(text)?).or(Err(Trouble::BadInput))
}

/// Limits that may be out of their ranges.
pub(crate) fn raw_limits_in(text: &str) -> Result<RawLimits, Trouble> {
    let mut raw = DEFAULT_LIMITS;
    for word in text.split_whitespace() {
        let (name, number) = word.split_once('=').ok_or(Trouble::BadInput)?;
        let number = number_in(number)?;
        match name {
            "entries" => raw.entries = number,
            "chunk_entries" => raw.chunk_entries = number,
            "chunk_age" => raw.chunk_age = number,
            "cancel" => raw.cancel = number,
            "keep" => raw.keep = number,
            "cache" => raw.cache = number,
            "records" => raw.records = number,
            "first_blob" => raw.first_blob = number,
            _ => return Err(Trouble::BadInput),
        }
    }
    Ok(raw)
}
