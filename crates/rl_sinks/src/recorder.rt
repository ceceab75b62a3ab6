//! A sink that writes the samples of recording rules, and keeps every text.
ghost use Rattle.std.specs.Prelude.{◌≡◌, ◌+◌, ◌<◌, ◌^◌, length, OnOk, OnErr, IfErr, is_err};
ghost use Rattle.rl_sinks.specs.Pieces.{Writes};

use crate::log::TextLog;
use crate::sink::{Sink, SinkFault, SinkKind};
use rl_rules::Evaluation;
use std::alloc::Global;
use std::io::Write;
use std::marker::Model;

/// Keeps every text, and writes them to its writer when it is pumped, closed or dropped, the last line `# end <count>` after
/// them when it is closed or dropped. Contracts see a `Logged`.
#[derive(Drop)]
pub struct Recorder<W: Write + Drop> {
    log: TextLog<W>,
}

impl<W: Write + Drop> Model for Recorder<W> {
    ghost use Rattle.rl_sinks.specs.LogState.{Logged, logged_code};

    ghost Value = { Logged W };

    ghost coded = { logged_code W.code };

    ghost view = { λ a. a.log };
}

impl<W: Write + Drop> Recorder<W> {
    ghost use Rattle.rl_sinks.specs.LogState.{new_log};

    /// A recorder that has taken nothing. At most `cap` texts wait to be written; where that is 0, each is refused as Full.
    pub fn new(alloc: Global, writer: W, cap: usize) -> Self
        ensures { result ≡ new_log writer cap }
    {
        Recorder {
            log: TextLog::new(alloc, writer, cap),
        }
    }
}

impl<W: Write + Drop> Sink for Recorder<W> {
    ghost use Rattle.rl_sinks.specs.Texts.{evaluation_text};
    ghost use Rattle.rl_sinks.specs.LogState.{log_state, with_text, with_refusal, pumped_as, closed_as, unwritten, unwritten_texts, TakeAnswers, PumpAnswers, CloseAnswers};
    ghost use Rattle.rl_sinks.specs.declared.sink.SinkFault.TheVariants as faults;
    ghost use Rattle.rl_sinks.specs.declared.sink.SinkKind.TheVariants as kinds;

    ghost state = { log_state kinds.Recorder };

    ghost take_answers = { TakeAnswers };

    ghost pump_answers = { PumpAnswers };

    ghost close_answers = { CloseAnswers };

    fn kind(&self) -> SinkKind {
        SinkKind::Recorder
    }

    fn limit(&self) -> Option<u64> {
        None
    }

    fn count(&self) -> u64 {
        self.log.count()
    }

    fn kept(&self, index: u64) -> Option<&str> {
        self.log.text(index)
    }

    fn take(&mut self, evaluation: &Evaluation) -> Result<(), SinkFault>
        requires { length self.old.texts + 1 < 2 ^ 64 }
        ensures answer { TakeAnswers self.old result }
        ensures one_more { OnOk result (self.new ≡ with_text self.old (evaluation_text kinds.Recorder evaluation.now)) }
        ensures one_refused { OnErr result (self.new ≡ with_refusal self.old) }
    {
        self.log.take(SinkKind::Recorder, evaluation)
    }

    fn pump(&mut self) -> Result<(), SinkFault>
        ensures same { self.new ≡ pumped_as self.old self.new (is_err result) }
        ensures fault { IfErr result (λ fault. fault ≡ faults.WriteFault) }
        ensures answer { PumpAnswers self.new result }
        ensures texts { Writes (W.contents self.old.writer) (W.contents self.new.writer) (unwritten_texts self.old) (unwritten_texts self.new) }
        ensures writes { Writes (W.contents self.old.writer) (W.contents self.new.writer) (unwritten self.old) (unwritten self.new) }
    {
        self.log.pump()
    }

    fn close(&mut self) -> Result<(), SinkFault>
        ensures fault { IfErr result (λ fault. fault ≡ faults.WriteFault) }
        ensures answer { CloseAnswers self.new result }
        ensures same { self.new ≡ closed_as self.old self.new (is_err result) }
        ensures writes { Writes (W.contents self.old.writer) (W.contents self.new.writer) (unwritten self.old) (unwritten self.new) }
    {
        self.log.close()
    }
}
