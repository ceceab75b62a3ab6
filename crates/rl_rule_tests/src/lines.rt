//! The streams of a test, and their lines.
ghost use Rattle.std.specs.Prelude.{IsTrue};
ghost use Rattle.rl_labels.specs.EntryParts.{are_stream_labels};

use crate::part::Steps;
use rl_labels::Labels;

/// The lines of a stream, each of which arrives later than its time by `late`.
#[derive(Drop)]
pub(crate) struct Stream<'a> {
    pub(crate) labels: Labels,
    pub(crate) late: u64,
    pub(crate) lines: Vec<TestLine<'a>>,
    // What stands for more lines, until it is written out.
    pub(crate) repeats: Vec<Repeat<'a>>,
    ghost of_stream: { IsTrue (are_stream_labels labels) },
}

/// A line, whose time lies `before` nanoseconds before its moment. A repeated one has its moment's number, from 1, for `{n}`.
#[derive(Clone, Copy)]
pub(crate) struct TestLine<'a> {
    pub(crate) moment: u64,
    pub(crate) before: u64,
    pub(crate) number: Option<u64>,
    pub(crate) text: &'a str,
}

// A line that stands `times` times at each moment.
#[derive(Clone, Copy, Drop)]
pub(crate) struct Repeat<'a> {
    pub(crate) steps: Steps,
    pub(crate) times: u64,
    pub(crate) line: &'a str,
}
