//! What a sink is, and why it refuses.
ghost use Rattle.std.specs.Prelude.{◌≡◌, ◌+◌, ◌<◌, ◌^◌, ⊤, not, IsTrue, Result, Err, OnOk, OnErr, IfErr, is_err, slice_get};
ghost use Rattle.std.specs.Option.{option_copied};
ghost use Rattle.rl_sinks.specs.SinkState.{SinkState, taken, refused, pumped, closed, is_open_refusal};
ghost use Rattle.rl_sinks.specs.Texts.{evaluation_text};
ghost use Rattle.rl_sinks.specs.declared.sink.SinkFault.{SinkFault};
ghost use Rattle.rl_sinks.specs.declared.sink.SinkFault.TheVariants as faults;
ghost use Rattle.rl_sinks.specs.declared.sink.SinkFault.TheVariants.{Memory};

use rl_rules::Evaluation;
use std::alloc::{AllocError, AllocFailed};
use thiserror::Error;

/// What a sink is given of an evaluation.
#[derive(Clone, Copy, Debug, PartialEq, Eq)]
pub enum SinkKind {
    /// The samples of recording rules.
    Recorder,
    /// Alerts that began to fire, or that are resolved.
    Notifier,
    /// All, as a human reads it.
    Tail,
}

/// Why a sink did not take a text, or did not write it.
#[derive(Clone, Copy, Debug, Drop, Error, PartialEq, Eq)]
pub enum SinkFault {
    #[error("as many texts wait to be written as the sink has room for")]
    Full,
    /// The sink's own reason; 1 is that of a closed sink alone.
    #[error("refused, reason {0}")]
    Refused(u64),
    #[error("out of memory")]
    Memory,
    #[error("a write failed")]
    WriteFault,
}

impl From<AllocError> for SinkFault {
    ghost from_gives = { λ _ e. e ≡ Memory };

    fn from(_error: AllocError) -> Self {
        SinkFault::Memory
    }
}

impl<T: Drop> From<AllocFailed<T>> for SinkFault {
    ghost from_gives = { λ _ e. e ≡ Memory };

    fn from(_error: AllocFailed<T>) -> Self {
        SinkFault::Memory
    }
}

/// Takes the text of each evaluation. What hands a sink to another thread asks for `Send` besides.
pub trait Sink: Drop {
    ghost state: { Self → SinkState };
    // What a sink says beside of an answer: of `take`, by the sink before it, and of `pump` and `close`, by the sink after it.
    ghost take_answers: { Self → Result ⊤ SinkFault → Type 0 } = { λ _ _. ⊤ };

    ghost pump_answers: { Self → Result ⊤ SinkFault → Type 0 } = { λ _ _. ⊤ };

    ghost close_answers: { Self → Result ⊤ SinkFault → Type 0 } = { λ _ _. ⊤ };

    fn kind(&self) -> SinkKind
        ensures { result ≡ (state self.now).kind };

    /// How many texts it keeps, if not all.
    fn limit(&self) -> Option<u64>
        ensures { result ≡ (state self.now).limit };

    /// How many texts it has taken.
    fn count(&self) -> u64
        ensures { result ≡ (state self.now).count };

    /// A text that it keeps, counted from 0, the oldest first.
    fn kept(&self, index: u64) -> Option<&str>
        ensures { option_copied result ≡ slice_get (state self.now).kept index };

    /// Takes the evaluation's text for its kind. A refusal keeps nothing and is counted. A closed sink refuses with reason 1,
    /// and no sink that is open does; so `Refused(1)` means that the sink is closed.
    fn take(&mut self, evaluation: &Evaluation) -> Result<(), SinkFault>
        requires { (state self.old).count + 1 < 2 ^ 64 }
        ensures ok { OnOk result (state self.new ≡ taken (state self.old) (evaluation_text (state self.old).kind evaluation.now)) }
        ensures err { OnErr result (state self.new ≡ refused (state self.old)) }
        ensures closed { IsTrue (state self.old).closed → result ≡ Err (faults.Refused 1) }
        ensures open { IsTrue (not (state self.old).closed) → IfErr result (λ fault. IsTrue (is_open_refusal fault)) }
        ensures answer { take_answers self.old result };

    /// Writes the texts that are not yet written, so that more can be taken.
    fn pump(&mut self) -> Result<(), SinkFault>
        ensures pumped { state self.new ≡ pumped (state self.old) (is_err result) }
        ensures fault { IfErr result (λ fault. fault ≡ faults.WriteFault) }
        ensures answer { pump_answers self.new result };

    /// Writes what is not yet written, and a last line after it, and closes the sink with either answer. A sink that is closed
    /// can be closed again, to go on; so does its drop.
    fn close(&mut self) -> Result<(), SinkFault>
        ensures closed { state self.new ≡ closed (state self.old) (is_err result) }
        ensures fault { IfErr result (λ fault. fault ≡ faults.WriteFault) }
        ensures answer { close_answers self.new result };
}

impl Sink for Box<dyn Sink + Send> {
    ghost state = { λ sink. (Sink-box sink).state sink.value };

    ghost take_answers = { λ sink. (Sink-box sink).take_answers sink.value };

    ghost pump_answers = { λ sink. (Sink-box sink).pump_answers sink.value };

    ghost close_answers = { λ sink. (Sink-box sink).close_answers sink.value };

    fn kind(&self) -> SinkKind {
        (**self).kind()
    }

    fn limit(&self) -> Option<u64> {
        (**self).limit()
    }

    fn count(&self) -> u64 {
        (**self).count()
    }

    fn kept(&self, index: u64) -> Option<&str> {
        (**self).kept(index)
    }

    fn take(&mut self, evaluation: &Evaluation) -> Result<(), SinkFault> {
        (**self).take(evaluation)
    }

    fn pump(&mut self) -> Result<(), SinkFault> {
        (**self).pump()
    }

    fn close(&mut self) -> Result<(), SinkFault> {
        (**self).close()
    }
}
