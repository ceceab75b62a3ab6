//! What is asked of streams, given line by line.
ghost use Rattle.std.specs.Prelude.{◌≡◌, ◌≤◌, [], ◌∷◌, true, length, IfOk, MatchOption, OnErr, OnOk};
ghost use Rattle.rl_parts.specs.StoreUse.{Right, after_read};
ghost use Rattle.rl_streams.specs.Asking.{left};
ghost use Rattle.rl_streams.specs.CursorState.{AreAsked};
ghost use Rattle.rl_streams.specs.StreamsState.{order_of, Looks};

use crate::lines::WaitingLines;
use crate::streams::Streams;
use rl_chunks::{Line, Store};
use rl_labels::{Labels, SelectorCode, TimeRange};
use rl_parts::ReadFault;
use rl_plain::Shared;

/// Gives what is asked of streams line by line, and reads them one after the other.
#[derive(Drop)]
pub struct Cursor<'a, S: Store> {
    streams: &'a mut Streams<S>,
    selector: &'a SelectorCode,
    range: TimeRange,
    // Where the next stream stands.
    position: usize,
    // Lines of the streams before it, which wait here.
    lines: WaitingLines,
}

// Asks streams from the index on, until lines wait or no stream is left. A stream that was not read to its end is asked again.
fn fill<S: Store>(
    streams: &mut Streams<S>,
    selector: &SelectorCode,
    range: TimeRange,
    position: &mut usize,
    lines: &mut WaitingLines,
) -> Result<(), ReadFault>
    ensures same { Looks streams.old streams.new }
    ensures counted { streams.new.seen.faults ≡ after_read result streams.old.seen.faults }
    ensures undamaged { streams.old.seen.honest ≡ true → Right result (λ _. Unit {0}) }
    ensures left { streams.old.seen.honest ≡ true → left selector.now range.from range.to (order_of streams.new) position.new lines.new ≡ left selector.now range.from range.to (order_of streams.old) position.old lines.old }
    ensures asked { AreAsked streams.old.rows selector.now range.from range.to position.old lines.old position.new lines.new }
    ensures all { OnOk result (lines.new ≡ [] → length (order_of streams.new) ≤ position.new) }
{
    for next in *position..streams.stream_count() {
        if !lines.is_empty() {
            return Ok(());
        }
        if let Err(fault) = streams.visit_lines(next, selector, range, lines) {
            lines.clear();
            return Err(fault);
        }
        *position = next + 1;
    }
    Ok(())
}

impl<'a, S: Store> Cursor<'a, S> {
    ghost use Rattle.rl_streams.specs.CursorState.{left_in, AreAsked, IsGiven};

    // What the streams are asked.
    pub(crate) fn new(
        streams: &'a mut Streams<S>,
        selector: &'a SelectorCode,
        range: TimeRange,
        lines: WaitingLines,
    ) -> Self
        ensures same_reference { result.streams.ghost_name ≡ streams.entry.ghost_name }
        ensures streams { result.streams.now ≡ streams.old }
        ensures asks { (result.selector.now ≡ selector.now) × (result.range ≡ range) }
        ensures position { result.position ≡ 0 }
        ensures lines { result.lines ≡ lines }
    {
        Cursor {
            streams,
            selector,
            range,
            position: 0,
            lines,
        }
    }

    /// The next line with its labels, if one is left. After a refusal as much is left as before, and the stream that was not
    /// read to its end is asked again.
    pub fn next(&mut self) -> Result<Option<(Shared<Labels>, Line)>, ReadFault>
        ensures same_reference { self.new.streams.ghost_name ≡ self.old.streams.ghost_name }
        ensures asks { (self.new.selector.now ≡ self.old.selector.now) × (self.new.range ≡ self.old.range) }
        ensures same { Looks self.old.streams.now self.new.streams.now }
        ensures counted { self.new.streams.now.seen.faults ≡ after_read result self.old.streams.now.seen.faults }
        // What is given of a part that the store has follows from bytes with its digest, over any store.
        ensures read { IfOk result (λ found. IsGiven self.old.streams.now.rows self.old.selector.now self.old.range.from self.old.range.to self.old.position self.old.lines found self.new.position self.new.lines) }
        ensures again { OnErr result (AreAsked self.old.streams.now.rows self.old.selector.now self.old.range.from self.old.range.to self.old.position self.old.lines self.new.position self.new.lines) }
        ensures right { self.old.streams.now.seen.honest ≡ true → Right result (λ found. MatchOption found (left_in self.old ≡ []) (λ line. left_in self.old ≡ line ∷ left_in self.new)) }
        ensures refused { OnErr result (self.old.streams.now.seen.honest ≡ true → left_in self.new ≡ left_in self.old) }
    {
        let (position, lines) = (&mut self.position, &mut self.lines);
        fill(self.streams, self.selector, self.range, position, lines)?;
        Ok(self.lines.pop())
    }
}
