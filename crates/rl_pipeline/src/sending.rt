//! Built pipelines and sieves may be sent to another thread.

use crate::pipeline::Pipeline;
use crate::sieve::SieveCode;
use rl_plain::sending::is_sendable;

/// Built pipelines and sieves are such values, which is all that this says.
pub fn code_is_sendable(pipeline: &Pipeline, sieve: &SieveCode) {
    is_sendable(pipeline);
    is_sendable(sieve);
}
