//! Streams may be sent to another thread.

use crate::stream::Stream;
use rl_plain::sending::is_sendable;

/// A stream is such a value, which is all that this says.
pub fn stream_is_sendable(stream: &Stream) {
    is_sendable(stream);
}
