//! Requests may be sent to another thread.

use crate::requests::Requests;
use rl_plain::sending::is_sendable;

/// Requests are such a value, which is all that this says.
pub fn requests_are_sendable(requests: &Requests) {
    is_sendable(requests);
}
