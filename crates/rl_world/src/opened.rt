//! An evaluation that is open: what it has of the shards so far.
use rl_aggregate::Partial;
use rl_labels::Ns;
use rl_plain::{PlainList, Shared};

/// What a shard gave when it was asked.
#[derive(Drop)]
pub struct Gathered<X> {
    /// Where its journal has the question.
    pub place: u64,
    /// What is kept of what it showed: a book keeps the partials of its terms.
    pub shown: X,
}

/// An evaluation that is open.
#[derive(Drop)]
pub struct OpenEvaluation<X> {
    pub t: Ns,
    /// One for each shard; `None` until it is asked.
    pub gathered: PlainList<Option<Gathered<X>>>,
}

/// What a book has of an evaluation that is open: of each shard that was asked, the partials of the group's terms.
pub(crate) type OpenPartials = OpenEvaluation<PlainList<Shared<Partial>>>;
