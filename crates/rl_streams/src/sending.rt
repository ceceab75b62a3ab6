//! Streams may be sent to another thread.

use crate::streams::Streams;
use rl_chunks::Store;
use rl_plain::sending::is_sendable;

/// Streams are such a value where their store is: that is all that this says.
pub fn streams_is_sendable<S: Store + Send>(streams: &Streams<S>) {
    is_sendable(streams);
}
