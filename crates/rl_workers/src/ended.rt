//! What a ruler leaves when it is closed.
use crate::crew::Crew;
use crate::fault::CloseFault;
use crate::pass::Pass;
use crate::ruler::Ruler;
use rl_chunks::Store;
use rl_shard::Shard;
use rl_sinks::Sink;
use rl_world::Book;

/// The shards and the books of a ruler that was closed, and the sinks that could not write all.
#[derive(Drop)]
pub struct Ended<D: Store, S: Sink> {
    pub shards: Vec<Shard<D>>,
    /// Each sink of theirs is closed.
    pub books: Vec<Book<S>>,
    /// The numbers of the group and of the sink, for each sink whose close failed.
    pub unclosed: Vec<(usize, usize)>,
}

/// Why a ruler was not closed, with all as it was.
#[derive(Drop)]
pub struct NotClosed<D: Store, S: Sink, L: Crew, P: Crew> {
    pub fault: CloseFault,
    pub ruler: Ruler<D, S, L, P>,
    pub passes: Vec<Pass<P>>,
}
