//! Shards may be sent to another thread.

use crate::shard::Shard;
use rl_chunks::Store;
use rl_plain::sending::is_sendable;

/// A shard is such a value where its store is: that is all that this says.
pub fn shard_is_sendable<S: Store + Send>(shard: &Shard<S>) {
    is_sendable(shard);
}
