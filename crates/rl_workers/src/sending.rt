//! A ruler may be shared by threads, and a pass sent to another one.

use crate::crew::Crew;
use crate::pass::Pass;
use crate::ruler::Ruler;
use rl_chunks::Store;
use rl_plain::sending::{is_sendable, is_shareable};
use rl_sinks::Sink;

/// A pass may be sent to another thread: that is all that this says.
pub fn pass_is_sendable<P: Crew + Send>(pass: &Pass<P>) {
    is_sendable(pass);
}

/// A ruler may be sent to another thread, and shared by several, where its stores and its sinks may be sent: that is all that this says.
pub fn ruler_is_shareable<D: Store + Send, S: Sink + Send, L: Crew + Send, P: Crew + Send>(
    ruler: &Ruler<D, S, L, P>,
) {
    is_shareable(ruler);
}
