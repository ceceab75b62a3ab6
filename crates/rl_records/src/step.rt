//! What a shard can be asked, and what it answers.
ghost use Rattle.std.specs.Prelude.{◌≡◌};
ghost use Rattle.rl_records.specs.Replies.{IsPlain};

use crate::sieve_text::SieveText;
use crate::terms::Terms;
use rl_aggregate::Partial;
use rl_deletes::Deletion;
use rl_labels::{Entry, Ns};
use rl_plain::{PlainList, Same, Shared, TryCopy};
use std::alloc::AllocError;

/// A step of a shard.
#[derive(Drop)]
pub enum ShardStep {
    /// Takes a log entry, which the shard holds as it is.
    Push(Shared<Entry>),
    /// Seals the head of each stream as a chunk.
    Cut,
    /// Writes the sealed chunks to the store, and lets their lines go.
    Flush,
    /// Receives a request to delete entries: they are hidden.
    Delete(Deletion<SieveText>),
    /// Cancels a request: what it alone covers is shown again.
    Cancel {
        id: u64,
    },
    /// Removes what a request covers, once it has waited its time.
    Process {
        id: u64,
        now: Ns,
    },
    /// Raises the horizon to where retention wants it at the moment, and removes the entries below it.
    Retain {
        now: Ns,
    },
    /// Answers what each term's range has at the moment.
    Collect {
        /// The number of the group that asks.
        slot: u64,
        /// Of the group's rules, in their order, with repeats.
        terms: Terms,
        t: Ns,
    },
}

/// What a shard answered. It stands in the journal with the step.
#[derive(Drop)]
pub enum ShardReply {
    /// The entry is held, whether it was held before or not.
    Accepted,
    /// All was done that the step asks for.
    Done,
    /// The entry is older than the horizon.
    Expired { horizon: Ns },
    /// The entry is older than the newest of its stream by more than half of the age of a chunk.
    TooFarBehind { newest: Ns },
    /// The shard has reached its limit of entries.
    Full,
    /// The number is that of another request, or of one that was cancelled or processed.
    IdTaken,
    /// The shard has reached its limit of requests.
    RequestsFull,
    /// No request has the number.
    NoSuchRequest,
    /// The request was processed, and cannot be cancelled.
    AlreadyProcessed,
    /// The request was cancelled, and cannot be processed.
    WasCancelled,
    /// The request has not waited its time.
    TooEarly,
    /// One partial for each term.
    Collected(PlainList<Shared<Partial>>),
}

impl TryCopy for ShardStep {
    /// Shares the entry, the sieve or the terms, and takes no memory.
    fn try_copy(&self) -> Result<Self, AllocError> {
        match self {
            ShardStep::Push(entry) => Ok(ShardStep::Push(entry.try_copy()?)),
            ShardStep::Cut => Ok(ShardStep::Cut),
            ShardStep::Flush => Ok(ShardStep::Flush),
            ShardStep::Delete(deletion) => Ok(ShardStep::Delete(deletion.try_copy()?)),
            ShardStep::Cancel { id } => Ok(ShardStep::Cancel { id: *id }),
            ShardStep::Process { id, now } => Ok(ShardStep::Process { id: *id, now: *now }),
            ShardStep::Retain { now } => Ok(ShardStep::Retain { now: *now }),
            ShardStep::Collect { slot, terms, t } => Ok(ShardStep::Collect {
                slot: *slot,
                terms: terms.try_copy()?,
                t: *t,
            }),
        }
    }
}

impl Same for ShardStep {
    fn is_same(&self, other: &Self) -> bool {
        match (self, other) {
            (ShardStep::Push(left), ShardStep::Push(right)) => left.is_same(right),
            (ShardStep::Cut, ShardStep::Cut) => true,
            (ShardStep::Flush, ShardStep::Flush) => true,
            (ShardStep::Delete(left), ShardStep::Delete(right)) => left.is_same(right),
            (ShardStep::Cancel { id }, ShardStep::Cancel { id: other }) => id == other,
            (
                ShardStep::Process { id, now },
                ShardStep::Process {
                    id: other_id,
                    now: other_now,
                },
            ) => id == other_id && now.is_same(other_now),
            (ShardStep::Retain { now }, ShardStep::Retain { now: other }) => now.is_same(other),
            (
                ShardStep::Collect { slot, terms, t },
                ShardStep::Collect {
                    slot: other_slot,
                    terms: other_terms,
                    t: other_t,
                },
            ) => slot == other_slot && t.is_same(other_t) && terms.is_same(other_terms),
            _ => false,
        }
    }
}

impl ShardReply {
    /// A copy of a reply that has no partials. Takes no memory.
    pub fn copy_plain(&self) -> ShardReply
        requires { IsPlain self.now }
        ensures { result ≡ self.now }
    {
        match self {
            ShardReply::Accepted => ShardReply::Accepted,
            ShardReply::Done => ShardReply::Done,
            ShardReply::Expired { horizon } => ShardReply::Expired { horizon: *horizon },
            ShardReply::TooFarBehind { newest } => ShardReply::TooFarBehind { newest: *newest },
            ShardReply::Full => ShardReply::Full,
            ShardReply::IdTaken => ShardReply::IdTaken,
            ShardReply::RequestsFull => ShardReply::RequestsFull,
            ShardReply::NoSuchRequest => ShardReply::NoSuchRequest,
            ShardReply::AlreadyProcessed => ShardReply::AlreadyProcessed,
            ShardReply::WasCancelled => ShardReply::WasCancelled,
            ShardReply::TooEarly => ShardReply::TooEarly,
            ShardReply::Collected(_) => unreachable!(),
        }
    }
}

impl TryCopy for ShardReply {
    /// Shares the partials, and takes memory for their list alone.
    fn try_copy(&self) -> Result<Self, AllocError> {
        match self {
            ShardReply::Collected(partials) => Ok(ShardReply::Collected(partials.try_copy()?)),
            plain => Ok(plain.copy_plain()),
        }
    }
}

impl Same for ShardReply {
    fn is_same(&self, other: &Self) -> bool {
        match (self, other) {
            (ShardReply::Accepted, ShardReply::Accepted) => true,
            (ShardReply::Done, ShardReply::Done) => true,
            (ShardReply::Full, ShardReply::Full) => true,
            (ShardReply::IdTaken, ShardReply::IdTaken) => true,
            (ShardReply::RequestsFull, ShardReply::RequestsFull) => true,
            (ShardReply::NoSuchRequest, ShardReply::NoSuchRequest) => true,
            (ShardReply::AlreadyProcessed, ShardReply::AlreadyProcessed) => true,
            (ShardReply::WasCancelled, ShardReply::WasCancelled) => true,
            (ShardReply::TooEarly, ShardReply::TooEarly) => true,
            (ShardReply::Expired { horizon }, ShardReply::Expired { horizon: other }) => {
                horizon.is_same(other)
            }
            (ShardReply::TooFarBehind { newest }, ShardReply::TooFarBehind { newest: other }) => {
                newest.is_same(other)
            }
            (ShardReply::Collected(left), ShardReply::Collected(right)) => left.is_same(right),
            _ => false,
        }
    }
}
