//! Sinks: they take the text of each evaluation, and keep it or refuse it.
//!
//! A sink is seen as its kind, the texts that it keeps, how many it has taken, whether it is closed, and how often it
//! refused. `take` that is answered Ok adds one text; a refusal counts as one and changes nothing else.
//!
//! - `sink`: `Sink`, `SinkKind`, `SinkFault`, and boxes of sinks. `text`: `evaluation_text`, `write_tail`, `tail_digest`.
//!   `target`: `TextTarget`, what takes a text piece by piece.
//! - `recorder`: `Recorder`, which writes the samples of recording rules. `notifier`: `Notifier`, which reports alerts.
//!   Both are a `TextLog`, in `log`: each text is kept and written once, in order.
//! - `tail`: `Tail`, which keeps the last texts. `writing`: piece by piece to a writer that may stop anywhere.
#![tactic(auto)]

mod log;
pub mod notifier;
pub mod recorder;
pub mod sink;
pub mod tail;
mod target;
pub mod text;
mod writing;

pub use notifier::Notifier;
pub use recorder::Recorder;
pub use sink::{Sink, SinkFault, SinkKind};
pub use tail::Tail;
pub use target::TextTarget;
pub use text::{evaluation_text, tail_digest, write_tail};
