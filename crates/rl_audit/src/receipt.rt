//! What a caller comes away with.
ghost use Rattle.std.specs.Prelude.{◌≡◌};
ghost use Rattle.rl_audit.specs.Merged.{note_of};

use rl_plain::Shared;
use rl_rules::Group;
use rl_sinks::tail_digest;
use rl_world::Committed;

/// That the journal of a shard has a record of the caller's.
#[derive(Clone, Copy, Debug, Drop)]
pub struct Receipt {
    /// The shard, by its number.
    pub shard: usize,
    /// Where its journal has the record, counted from 0.
    pub place: u64,
    /// The SHA-256 (FIPS 180-4) of the record's bytes.
    pub digest: [u8; 32],
}

/// That the history of a group has an evaluation or an edit of the caller's.
#[derive(Drop)]
pub enum Note {
    Evaluated {
        /// The group, by its number.
        group: usize,
        /// The number of the evaluation in the group's history, counted from 0.
        number: u64,
        /// The SHA-256 (FIPS 180-4) of what a tail is given of the evaluation.
        digest: [u8; 32],
    },
    Edited {
        /// The group, by its number.
        group: usize,
        /// The index of the edit in the group's history, counted from 0.
        index: u64,
        /// The group as it was edited.
        to: Shared<Group>,
    },
}

/// The note of an evaluation of a group that was committed. Takes no memory.
pub fn note_of(group: usize, committed: &Committed) -> Note
    ensures { result ≡ note_of group committed.now }
{
    Note::Evaluated {
        group,
        number: committed.number,
        digest: tail_digest(committed.evaluation.get()),
    }
}
