//! What stands in the history of a group.
use rl_plain::Shared;
use rl_rules::{Evaluation, Group};

/// An edit of a group, or an evaluation that was committed.
#[derive(Drop)]
pub enum Item {
    /// The group was edited: as it is from then on.
    Edited(Shared<Group>),
    Evaluated(Shared<Evaluation>),
}
