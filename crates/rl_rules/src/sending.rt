//! Groups and evaluations may be sent to another thread, and looked at from two.

use crate::evaluation::Evaluation;
use crate::rule::Group;
use rl_plain::sending::is_shareable;
use rl_plain::{PlainList, Shared};

/// Groups and evaluations are such values, shared ones and lists of shared ones: that is all that this says.
pub fn group_is_shareable(
    group: &Group,
    groups: &PlainList<Shared<Group>>,
    evaluation: &Evaluation,
    shared: &Shared<Evaluation>,
) {
    is_shareable(group);
    is_shareable(groups);
    is_shareable(evaluation);
    is_shareable(shared);
}
