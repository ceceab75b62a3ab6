//! Reads the streams of a test, and their lines.
ghost use Rattle.std.specs.Prelude.{◌≡◌, ◌++◌, codes, IfOk, OnOk};
ghost use Rattle.std.specs.List.{flat_map, AllZip};
ghost use Rattle.toml.specs.Data.{get_member};
ghost use Rattle.toml.specs.View.{table_view};
ghost use Rattle.rl_rule_tests.specs.Document.{lines_at, repeated_lines, AreItems, IsExpansion, IsRepeat, IsStream, IsTimes, IsUnexpanded};

use crate::fault::{TestsError, within};
use crate::lines::{Repeat, Stream, TestLine};
use crate::part::{Item, Part, nanoseconds_in};
use std::alloc::Global;

// The most lines of a test: about what a ruler's journal has room for.
const MOST_LINES: u64 = 1_000_000;

impl<'a> Item<'a> for Stream<'a> {
    ghost is = { IsUnexpanded };

    fn read(part: Part<'a>) -> Result<Self, TestsError> {
        part.only(&["labels", "late", "lines", "repeat"])?;
        if !part.has("labels") {
            return Err(part.key_fault("labels", "is missing"));
        }
        let late = if part.has("late") {
            part.time("late")?
        } else {
            0
        };
        let labels = part.labels("labels", None)?;
        if labels.pairs().is_empty() {
            return Err(part.key_fault("labels", "has no label with a value"));
        }
        let mut lines = Vec::new(part.alloc);
        push_written(part, &mut lines)?;
        let repeats = part.all("repeat")?;
        Ok(Stream {
            labels,
            late,
            lines,
            repeats,
        })
    }
}

fn push_written<'a>(part: Part<'a>, lines: &mut Vec<TestLine<'a>>) -> Result<(), TestsError> {
    let Some(text) = part.text("lines")? else {
        return Ok(());
    };
    for (index, line) in text.lines().enumerate() {
        let line = line.trim_start();
        if !line.is_empty() {
            match line_in(line) {
                Some(line) => lines.push(line)?,
                None => {
                    let error = part.fault("it begins with no time from 0s to 720h");
                    return Err(within(part.alloc, error, "line", index));
                }
            }
        }
    }
    Ok(())
}

// The line that is written after its time and blanks.
fn line_in(line: &str) -> Option<TestLine<'_>> {
    let (time, text) = match line.find(|letter: char| letter == ' ' || letter == '\t') {
        Some(end) => line.split_at(end),
        None => (line, ""),
    };
    Some(TestLine {
        moment: nanoseconds_in(time)?,
        before: 0,
        number: None,
        text: text.trim_start(),
    })
}

impl<'a> Item<'a> for Repeat<'a> {
    ghost is = { IsRepeat };

    fn read(part: Part<'a>) -> Result<Self, TestsError> {
        part.only(&["from", "to", "step", "line", "times"])?;
        let steps = part.steps()?;
        let times = read_times(part)?;
        let line = part.wanted_text("line")?;
        Ok(Repeat { steps, times, line })
    }
}

// How often a line stands at each moment.
fn read_times(part: Part<'_>) -> Result<u64, TestsError>
    ensures { IfOk result (IsTimes (get_member (codes "times") (table_view part.entry.table.now))) }
{
    let Some(value) = part.value_at("times") else {
        return Ok(1);
    };
    match value.as_integer() {
        Some(number) if number >= 1 && number <= 1_000 => Ok(number as u64),
        _ => Err(part.key_fault("times", "is no whole number from 1 to 1000")),
    }
}

/// The streams of a test, with all of their lines, where these are not too many.
#[tactic(auto, using(crate::proofs::Expansions::items_expanded))]
pub(crate) fn read_streams<'a>(test: Part<'a>) -> Result<Vec<Stream<'a>>, TestsError>
    ensures { IfOk result (λ streams. AreItems (IsStream test.entry.kind test.entry.rule.now) (codes "streams") (table_view test.entry.table.now) streams.items) }
{
    let streams = test.all("streams")?;
    if count_lines(&streams) > MOST_LINES {
        return Err(test.key_fault("streams", "has more than 1000000 lines"));
    }
    let streams = expand_all(test.alloc, streams)?;
    Ok(streams)
}

// How many lines there are, with those that are repeated.
fn count_lines(streams: &[Stream<'_>]) -> u64 {
    let mut lines = 0u64;
    for stream in streams {
        lines = lines.saturating_add(stream.lines.len() as u64);
        for repeat in &stream.repeats {
            lines = lines.saturating_add(repeat.steps.count.saturating_mul(repeat.times));
        }
    }
    lines
}

// Writes out the lines that are repeated.
fn expand_all<'a>(alloc: Global, streams: Vec<Stream<'a>>) -> Result<Vec<Stream<'a>>, TestsError>
    ensures { IfOk result (λ all. AllZip IsExpansion streams.entry.items all.items) }
{
    let mut all = Vec::with_capacity(alloc, streams.len())?;
    for stream in streams {
        all.push(expand(stream)?)?;
    }
    Ok(all)
}

fn expand(stream: Stream<'_>) -> Result<Stream<'_>, TestsError>
    ensures { IfOk result (IsExpansion stream.entry) }
{
    let Stream {
        labels,
        late,
        lines,
        repeats,
    } = stream;
    let mut lines = lines;
    push_repeats(&mut lines, &repeats)?;
    Ok(Stream {
        labels,
        late,
        lines,
        repeats,
    })
}

fn push_repeats<'a>(lines: &mut Vec<TestLine<'a>>, repeats: &[Repeat<'a>]) -> Result<(), TestsError>
    ensures { OnOk result (lines.new.items ≡ lines.old.items ++ flat_map repeated_lines repeats.now) }
{
    for repeat in repeats {
        push_repeated(lines, *repeat)?;
    }
    Ok(())
}

fn push_repeated<'a>(lines: &mut Vec<TestLine<'a>>, repeat: Repeat<'a>) -> Result<(), TestsError>
    ensures { OnOk result (lines.new.items ≡ lines.old.items ++ repeated_lines repeat.entry) }
{
    for index in 0..repeat.steps.count {
        push_moment(lines, repeat, index)?;
    }
    Ok(())
}

// Adds the repeated lines at a moment. The last has the moment itself, and each one before it a nanosecond less.
fn push_moment<'a>(
    lines: &mut Vec<TestLine<'a>>,
    repeat: Repeat<'a>,
    index: u64,
) -> Result<(), TestsError>
    ensures { OnOk result (lines.new.items ≡ lines.old.items ++ lines_at repeat.entry index) }
{
    let Repeat { steps, times, line } = repeat;
    for number in 0..times {
        lines.push(TestLine {
            moment: steps.from.saturating_add(index.saturating_mul(steps.step)),
            before: times - number - 1,
            number: Some(index.saturating_add(1)),
            text: line,
        })?;
    }
    Ok(())
}
