//! Texts that are all kept, and written to a writer.
ghost use Rattle.std.specs.Prelude.{◌≡◌, ◌+◌, ◌<◌, ◌^◌, length, true, IfOk, OnOk, OnErr, IfErr, is_err, slice_get, string_bytes};
ghost use Rattle.std.specs.Option.{option_copied};
ghost use Rattle.rl_sinks.specs.Pieces.{Writes};
ghost use Rattle.rl_sinks.specs.Texts.{evaluation_text};
ghost use Rattle.rl_sinks.specs.declared.sink.SinkFault.TheVariants as faults;

use crate::sink::{SinkFault, SinkKind};
use crate::text::text_with_room;
use crate::writing::write_rest;
use rl_plain::PlainText;
use rl_rules::Evaluation;
use std::alloc::{AllocError, Global};
use std::io::Write;
use std::marker::Model;

/// Keeps every text, and writes them to its writer, the last line `# end <count>` after them. A drop writes what is left of
/// both. Contracts see a `Logged`.
pub(crate) struct TextLog<W: Write + Drop> {
    writer: W,
    // How many texts may wait to be written.
    cap: usize,
    texts: Vec<PlainText>,
    // How many pieces are wholly written: texts, and then the parts of the last line.
    next: usize,
    // How many bytes of the next one are written.
    part: usize,
    closed: bool,
    refusals: u64,
    pumps: u64,
    // Whether the last pump or close could not write all.
    failed: bool,
}

impl<W: Write + Drop> Model for TextLog<W> {
    ghost use Rattle.rl_sinks.specs.LogState.{Logged, logged_code, IsLogged};

    ghost Value = { Logged W };

    ghost coded = { logged_code W.code };

    ghost view = { λ a. record { writer = a.writer; room = a.cap; texts = a.texts.items; next = a.next; part = a.part; closed = a.closed; refusals = a.refusals; pumps = a.pumps; failed = a.failed } };

    ghost invariant = { λ a. IsLogged a.texts.items a.next a.part a.closed };
}

impl<W: Write + Drop> TextLog<W> {
    ghost use Rattle.rl_sinks.specs.LogState.{new_log, with_text, with_refusal, pumped_as, closed_as, unwritten, unwritten_texts, TakeAnswers, PumpAnswers, CloseAnswers};

    pub(crate) fn new(alloc: Global, writer: W, cap: usize) -> Self
        ensures { result ≡ new_log writer cap }
    {
        TextLog {
            writer,
            cap,
            texts: Vec::new(alloc),
            next: 0,
            part: 0,
            closed: false,
            refusals: 0,
            pumps: 0,
            failed: false,
        }
    }

    pub(crate) fn count(&self) -> u64
        ensures { result ≡ length self.now.texts }
    {
        self.texts.len() as u64
    }

    pub(crate) fn text(&self, index: u64) -> Option<&str>
        ensures { option_copied result ≡ slice_get self.now.texts index }
    {
        self.texts.get(index as usize).map(|text| text.as_str())
    }

    // Takes the evaluation's text for a kind of sink. A refusal is counted.
    pub(crate) fn take(&mut self, kind: SinkKind, evaluation: &Evaluation) -> Result<(), SinkFault>
        requires { length self.old.texts + 1 < 2 ^ 64 }
        ensures answer { TakeAnswers self.old result }
        ensures ok { OnOk result (self.new ≡ with_text self.old (evaluation_text kind evaluation.now)) }
        ensures err { OnErr result (self.new ≡ with_refusal self.old) }
    {
        if let Err(fault) = self.add(kind, evaluation) {
            self.refusals = self.refusals.wrapping_add(1);
            return Err(fault);
        }
        Ok(())
    }

    // Takes the evaluation's text, unless it is closed or full.
    fn add(&mut self, kind: SinkKind, evaluation: &Evaluation) -> Result<(), SinkFault>
        ensures answer { TakeAnswers self.old result }
        ensures ok { OnOk result (self.new ≡ with_text self.old (evaluation_text kind evaluation.now)) }
        ensures err { OnErr result (self.new ≡ self.old) }
    {
        if self.closed {
            return Err(SinkFault::Refused(1));
        }
        if self.texts.len() - self.next >= self.cap {
            return Err(SinkFault::Full);
        }
        let text = next_text(&self.texts, kind, evaluation)?;
        self.texts.push(PlainText::from_string(text))?;
        Ok(())
    }

    // Writes what is left of the texts.
    pub(crate) fn pump(&mut self) -> Result<(), SinkFault>
        ensures same { self.new ≡ pumped_as self.old self.new (is_err result) }
        ensures fault { IfErr result (λ fault. fault ≡ faults.WriteFault) }
        ensures texts { Writes (W.contents self.old.writer) (W.contents self.new.writer) (unwritten_texts self.old) (unwritten_texts self.new) }
        ensures writes { Writes (W.contents self.old.writer) (W.contents self.new.writer) (unwritten self.old) (unwritten self.new) }
        ensures answer { PumpAnswers self.new result }
    {
        let kept = self.texts.len() as u64;
        let written = write_rest(
            &mut self.writer,
            &self.texts,
            kept,
            false,
            &mut self.next,
            &mut self.part,
        );
        self.pumps = self.pumps.wrapping_add(1);
        self.failed = written.is_err();
        written
    }

    // Writes what is left of the texts and of the last line, and is closed with either answer.
    pub(crate) fn close(&mut self) -> Result<(), SinkFault>
        ensures same { self.new ≡ closed_as self.old self.new (is_err result) }
        ensures fault { IfErr result (λ fault. fault ≡ faults.WriteFault) }
        ensures writes { Writes (W.contents self.old.writer) (W.contents self.new.writer) (unwritten self.old) (unwritten self.new) }
        ensures answer { CloseAnswers self.new result }
    {
        self.closed = true;
        let count = self.texts.len() as u64;
        let written = write_rest(
            &mut self.writer,
            &self.texts,
            count,
            true,
            &mut self.next,
            &mut self.part,
        );
        self.failed = written.is_err();
        written
    }
}

impl<W: Write + Drop> Drop for TextLog<W> {
    fn drop(mut self) {
        let _ = self.close();
        let Self {
            writer,
            cap,
            texts,
            next,
            part,
            closed,
            refusals,
            pumps,
            failed,
        } = self;
    }
}

// The evaluation's text, which is mostly as long as the last one.
fn next_text(
    texts: &Vec<PlainText>,
    kind: SinkKind,
    evaluation: &Evaluation,
) -> Result<String, AllocError>
    ensures { IfOk result (λ text. string_bytes text ≡ evaluation_text kind evaluation.now) }
{
    let room = texts.last().map_or(0, |text| text.len());
    text_with_room(*texts.allocator(), kind, evaluation, room)
}
