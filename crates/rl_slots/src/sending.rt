//! Slots may be sent to another thread.

use crate::slots::Slots;
use rl_plain::sending::is_sendable;

/// Slots are such a value, which is all that this says.
pub fn slots_are_sendable(slots: &Slots) {
    is_sendable(slots);
}
