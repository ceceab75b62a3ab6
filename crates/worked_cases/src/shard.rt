//! Steps of a shard, and what new shards reply to them.
//!
//! A case of `steps` compares two steps. One of `journal` has limits, and a step a line for a new shard: the place of each or why it
//! is not decided, then the bytes of the record at each place and at the one after the last, the digest of each record, and that of
//! the last. A step is `cut`, or `flush`, or `push` and an entry, or `collect`, the number of a group, a
//! moment and a query, of which the first term is asked for; or `delete`, a number, a start, an end, when it was made and a
//! delete selector; or `cancel` and a number; or `process`, a number and a moment; or `retain` and a moment.
use crate::chunks::push_bytes;
use crate::compared::halves;
use crate::given::{Read, limits_in, list_in, moment_in, number_in, words_of};
use crate::query::query_in;
use crate::shard_faults::faults;
use crate::shard_random::random;
use crate::trouble::Trouble;
use rl_chunks::MemStore;
use rl_deletes::Deletion;
use rl_plain::{Same, Shared, TryCopy};
use rl_query::{Sieve, Term};
use rl_records::{ShardReply, ShardStep, SieveText, Terms, record_bytes};
use rl_shard::Shard;
use std::alloc::Global;
use std::mem;

/// What a directive gives for its input.
pub(crate) fn answer(output: &mut String, directive: &str, input: &str) -> Result<(), Trouble> {
    match directive {
        "steps" => steps(output, input),
        "journal" => journal(output, input),
        "random" => random(output, input),
        "faults" => faults(output, input),
        _ => Err(Trouble::NoSuchDirective),
    }
}

// How a copy of the left step stands to the right one, and a copy of the left reply to the right one.
fn steps(output: &mut String, input: &str) -> Result<(), Trouble> {
    let alloc = *output.allocator();
    let (left, right) = halves(input)?;
    let steps = likeness::<ShardStep>(alloc, left, right)?;
    let replies = likeness::<ShardReply>(alloc, left, right)?;
    writeln!(output, "{steps} steps, {replies} replies")?;
    Ok(())
}

fn likeness<T>(alloc: Global, left: &str, right: &str) -> Result<&'static str, Trouble>
where
    T: Read + Same + TryCopy,
{
    let right = T::read(alloc, right)?;
    let copy = T::read(alloc, left)?.try_copy()?;
    Ok(if copy.is_same(&right) {
        "same"
    } else {
        "other"
    })
}

impl<T: Read> Read for Shared<T> {
    fn read(alloc: Global, text: &str) -> Result<Self, Trouble> {
        Ok(Shared::new(alloc, T::read(alloc, text)?)?)
    }
}

impl Read for ShardStep {
    fn read(alloc: Global, text: &str) -> Result<Self, Trouble> {
        let (word, rest) = words_of(text);
        step_in(alloc, word, rest)
    }
}

/// The step that a word and what follows it ask for.
pub(crate) fn step_in(alloc: Global, word: &str, rest: &str) -> Result<ShardStep, Trouble> {
    match word {
        "push" => Ok(ShardStep::Push(Shared::read(alloc, rest)?)),
        "delete" => delete_in(alloc, rest),
        "collect" => collect_in(alloc, rest),
        _ => plain_step_in(word, rest),
    }
}

// A step that owns nothing.
fn plain_step_in(word: &str, rest: &str) -> Result<ShardStep, Trouble> {
    let (first, second) = words_of(rest);
    Ok(match word {
        "cut" => ShardStep::Cut,
        "flush" => ShardStep::Flush,
        "retain" => ShardStep::Retain {
            now: moment_in(first)?,
        },
        "cancel" => ShardStep::Cancel {
            id: number_in(first)?,
        },
        "process" => ShardStep::Process {
            id: number_in(first)?,
            now: moment_in(second)?,
        },
        _ => return Err(Trouble::BadInput),
    })
}

fn delete_in(alloc: Global, text: &str) -> Result<ShardStep, Trouble> {
    let (id, rest) = words_of(text);
    let (start, rest) = words_of(rest);
    let (end, rest) = words_of(rest);
    let (created, selector) = words_of(rest);
    let (id, created) = (number_in(id)?, moment_in(created)?);
    let (start, end) = (moment_in(start)?, moment_in(end)?);
    let selector = SieveText::new(alloc, Sieve::read(alloc, selector)?)?;
    Ok(ShardStep::Delete(Deletion {
        id,
        selector,
        start,
        end,
        created,
    }))
}

fn collect_in(alloc: Global, text: &str) -> Result<ShardStep, Trouble> {
    let (slot, rest) = words_of(text);
    let (t, query) = words_of(rest);
    let (slot, t) = (number_in(slot)?, moment_in(t)?);
    let terms = Terms::new(alloc, list_in(alloc, query, "\n")?)?;
    Ok(ShardStep::Collect { slot, terms, t })
}

// The first term of a query.
impl Read for Term {
    fn read(alloc: Global, query: &str) -> Result<Self, Trouble> {
        let query = query_in(alloc, query)?;
        let term = query.left.try_copy();
        mem::forget(query);
        Ok(term?)
    }
}

// What a new shard replies to a step.
impl Read for ShardReply {
    fn read(alloc: Global, step: &str) -> Result<Self, Trouble> {
        let step = ShardStep::read(alloc, step)?;
        let mut shard = Shard::open(alloc, MemStore::new(alloc), limits_in("")?);
        let reply = reply_of(&mut shard, step);
        mem::forget(shard);
        reply
    }
}

// What the journal of a new shard has after steps.
fn journal(output: &mut String, input: &str) -> Result<(), Trouble> {
    let alloc = *output.allocator();
    let (limits, steps) = input.split_once('\n').ok_or(Trouble::BadInput)?;
    let mut shard = Shard::open(alloc, MemStore::new(alloc), limits_in(limits)?);
    let written = push_steps(output, &mut shard, steps);
    mem::forget(shard);
    written
}

fn push_steps(
    output: &mut String,
    shard: &mut Shard<MemStore>,
    steps: &str,
) -> Result<(), Trouble> {
    for step in steps.split('\n') {
        push_place(output, shard, step)?;
    }
    for place in 0..=shard.journal_len() {
        push_record_at(output, shard, place)?;
    }
    for digest in shard.digests().or(Err(Trouble::Memory))? {
        push_digest(output, Some(digest))?;
    }
    push_digest(output, shard.last_digest())
}

// The place of a step, or why it is not decided.
fn push_place(output: &mut String, shard: &mut Shard<MemStore>, step: &str) -> Result<(), Trouble> {
    let step = ShardStep::read(*output.allocator(), step)?;
    match shard.apply(step) {
        Ok((place, _)) => writeln!(output, "{place}")?,
        Err(fault) => writeln!(output, "{fault:?}")?,
    }
    Ok(())
}

// The bytes of the record at a place.
fn push_record_at(
    output: &mut String,
    shard: &mut Shard<MemStore>,
    place: u64,
) -> Result<(), Trouble> {
    match shard.journal_at(place).or(Err(Trouble::Memory))? {
        Some(record) => push_bytes(output, &record_bytes(*output.allocator(), &record)?)?,
        None => output.push_str("none")?,
    }
    output.push('\n')?;
    Ok(())
}

/// A digest, if there is one.
pub(crate) fn push_digest(output: &mut String, digest: Option<[u8; 32]>) -> Result<(), Trouble> {
    match digest {
        Some(digest) => push_bytes(output, &digest)?,
        None => output.push_str("none")?,
    }
    output.push('\n')?;
    Ok(())
}

fn reply_of(shard: &mut Shard<MemStore>, step: ShardStep) -> Result<ShardReply, Trouble> {
    match shard.apply(step) {
        Ok((_, reply)) => Ok(reply),
        Err(_) => Err(Trouble::Memory),
    }
}
