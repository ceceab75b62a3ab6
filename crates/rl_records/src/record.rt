//! A step that a shard decided, with its reply.
use crate::step::{ShardReply, ShardStep};
use rl_plain::{Same, TryCopy};
use std::alloc::AllocError;

/// A record of a shard's journal. It shares the entry, the sieve, the terms and the partials with whoever else has them.
#[derive(Drop)]
pub struct Record {
    pub step: ShardStep,
    pub reply: ShardReply,
}

impl TryCopy for Record {
    /// Takes memory for the list of partials alone.
    fn try_copy(&self) -> Result<Self, AllocError> {
        let step = self.step.try_copy()?;
        let reply = self.reply.try_copy()?;
        Ok(Record { step, reply })
    }
}

impl Same for Record {
    fn is_same(&self, other: &Self) -> bool {
        self.step.is_same(&other.step) && self.reply.is_same(&other.reply)
    }
}
