//! Built code may be sent to another thread.

use crate::pattern::{PatternCode, WholePatternCode};
use rl_plain::sending::is_sendable;

/// Built code is such a value, which is all that this says.
pub fn code_is_sendable(code: &PatternCode, whole: &WholePatternCode) {
    is_sendable(code);
    is_sendable(whole);
}
