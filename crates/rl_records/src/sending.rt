//! Records may be sent to another thread.

use crate::record::Record;
use rl_plain::sending::is_sendable;

/// A record is such a value, which is all that this says.
pub fn record_is_sendable(record: &Record) {
    is_sendable(record);
}
