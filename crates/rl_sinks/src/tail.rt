//! A sink for human eyes, which keeps the last texts.
ghost use Rattle.std.specs.Prelude.{◌≡◌, ◌+◌, ◌<◌, ◌^◌, IfOk, OnOk, OnErr, IfErr, is_err};
ghost use Rattle.rl_sinks.specs.Pieces.{Writes};

use crate::sink::{Sink, SinkFault, SinkKind};
use crate::text::text_with_room;
use crate::writing::write_rest;
use circular_buffer::HeapCircularBuffer;
use rl_plain::PlainText;
use rl_rules::Evaluation;
use std::alloc::{AllocError, Global};
use std::io::Write;
use std::marker::Model;

/// Keeps the last texts, and writes those to its writer when it is closed or dropped, the last line `# end <count>` after them.
/// It is never full, and a pump writes nothing. Contracts see a `Tailed`.
pub struct Tail<W: Write + Drop> {
    writer: W,
    kept: HeapCircularBuffer<PlainText>,
    count: u64,
    // How many pieces are wholly written: kept texts, and then the parts of the last line.
    next: usize,
    // How many bytes of the next one are written.
    part: usize,
    closed: bool,
    refusals: u64,
    pumps: u64,
    // Whether the last close could not write all, and no pump came since.
    failed: bool,
}

impl<W: Write + Drop> Model for Tail<W> {
    ghost use Rattle.rl_sinks.specs.TailState.{Tailed, tailed_code, IsTailed};

    ghost Value = { Tailed W };

    ghost coded = { tailed_code W.code };

    ghost view = { λ a. record { writer = a.writer; limit = a.kept.capacity; kept = a.kept.items; count = a.count; next = a.next; part = a.part; closed = a.closed; refusals = a.refusals; pumps = a.pumps; failed = a.failed } };

    ghost invariant = { λ a. IsTailed a.kept.items a.count a.next a.part a.closed };
}

impl<W: Write + Drop> Tail<W> {
    ghost use Rattle.rl_sinks.specs.Texts.{tail_text};
    ghost use Rattle.rl_sinks.specs.TailState.{new_tail, with_text, TakeAnswers};

    /// A tail that has taken nothing, with room for the `limit` texts that it keeps.
    pub fn new(alloc: Global, writer: W, limit: usize) -> Result<Self, AllocError>
        ensures { IfOk result (λ tail. tail ≡ new_tail writer limit) }
    {
        let kept = HeapCircularBuffer::with_capacity(alloc, limit)?;
        Ok(Tail {
            writer,
            kept,
            count: 0,
            next: 0,
            part: 0,
            closed: false,
            refusals: 0,
            pumps: 0,
            failed: false,
        })
    }

    // Takes the evaluation's text, unless it is closed.
    fn add(&mut self, evaluation: &Evaluation) -> Result<(), SinkFault>
        requires { self.old.count + 1 < 2 ^ 64 }
        ensures answer { TakeAnswers self.old result }
        ensures ok { OnOk result (self.new ≡ with_text self.old (tail_text evaluation.now)) }
        ensures err { OnErr result (self.new ≡ self.old) }
    {
        if self.closed {
            return Err(SinkFault::Refused(1));
        }
        let room = self.kept.back().map_or(0, |text| text.len());
        let text = text_with_room(*self.kept.allocator(), SinkKind::Tail, evaluation, room)?;
        self.kept.push_back(PlainText::from_string(text));
        self.count += 1;
        Ok(())
    }
}

impl<W: Write + Drop> Sink for Tail<W> {
    ghost use Rattle.rl_sinks.specs.declared.sink.SinkFault.TheVariants as faults;
    ghost use Rattle.rl_sinks.specs.Texts.{tail_text};
    ghost use Rattle.rl_sinks.specs.TailState.{tail_state, with_text, with_refusal, pumped_tail, closed_as, unwritten, TakeAnswers, PumpAnswers, CloseAnswers};

    ghost state = { tail_state };

    ghost take_answers = { TakeAnswers };

    ghost pump_answers = { PumpAnswers };

    ghost close_answers = { CloseAnswers };

    fn kind(&self) -> SinkKind {
        SinkKind::Tail
    }

    fn limit(&self) -> Option<u64> {
        Some(self.kept.capacity() as u64)
    }

    fn count(&self) -> u64 {
        self.count
    }

    fn kept(&self, index: u64) -> Option<&str> {
        self.kept.get(index as usize).map(|text| text.as_str())
    }

    fn take(&mut self, evaluation: &Evaluation) -> Result<(), SinkFault>
        requires { self.old.count + 1 < 2 ^ 64 }
        ensures answer { TakeAnswers self.old result }
        ensures one_more { OnOk result (self.new ≡ with_text self.old (tail_text evaluation.now)) }
        ensures one_refused { OnErr result (self.new ≡ with_refusal self.old) }
    {
        if let Err(fault) = self.add(evaluation) {
            self.refusals = self.refusals.wrapping_add(1);
            return Err(fault);
        }
        Ok(())
    }

    fn pump(&mut self) -> Result<(), SinkFault>
        ensures answer { PumpAnswers self.new result }
        ensures same { self.new ≡ pumped_tail self.old }
    {
        self.pumps = self.pumps.wrapping_add(1);
        self.failed = false;
        Ok(())
    }

    fn close(&mut self) -> Result<(), SinkFault>
        ensures fault { IfErr result (λ fault. fault ≡ faults.WriteFault) }
        ensures answer { CloseAnswers self.new result }
        ensures same { self.new ≡ closed_as self.old self.new (is_err result) }
        ensures writes { Writes (W.contents self.old.writer) (W.contents self.new.writer) (unwritten self.old) (unwritten self.new) }
    {
        self.closed = true;
        let written = write_rest(
            &mut self.writer,
            self.kept.make_contiguous(),
            self.count,
            true,
            &mut self.next,
            &mut self.part,
        );
        self.failed = written.is_err();
        written
    }
}

impl<W: Write + Drop> Drop for Tail<W> {
    fn drop(mut self) {
        let _ = self.close();
        let Self {
            writer,
            kept,
            count,
            next,
            part,
            closed,
            refusals,
            pumps,
            failed,
        } = self;
    }
}
