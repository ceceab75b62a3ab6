//! Built matchers may be sent to another thread.

use crate::matcher::MatcherCode;
use crate::selector::SelectorCode;
use rl_plain::sending::is_sendable;

/// Built matchers are such values, which is all that this says.
pub fn code_is_sendable(matcher: &MatcherCode, selector: &SelectorCode) {
    is_sendable(matcher);
    is_sendable(selector);
}
