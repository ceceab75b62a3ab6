//! Steps of records, read from the front of bytes.
ghost use Rattle.std.specs.Prelude.{◌≡◌, map};
ghost use Rattle.rl_plain.specs.Answers.{Gives};
ghost use Rattle.rl_query.specs.Form.{term_form};
ghost use Rattle.rl_segments.specs.Forms.{step_form};
ghost use Rattle.rl_segments.specs.RecordReading.{cancel_at, collect_at, delete_at, in_turn, process_at, push_at, retain_at, step_at, step_by, term_at};

use crate::fault::{RecordError, RecordFault};
use crate::fields::{byte_at, moment_at, number_at, sieve_at, stream_at, term_at, text_at};
use rl_deletes::Deletion;
use rl_labels::Entry;
use rl_plain::{PlainText, Shared};
use rl_query::Term;
use rl_records::{ShardStep, Terms};
use std::alloc::Global;

/// A step, by its tag.
#[tactic(auto, unfolding(crate::specs::RecordReading::step_at))]
pub(crate) fn step_at(alloc: Global, bytes: &[u8]) -> Result<(ShardStep, &[u8]), RecordError>
    ensures { Gives (λ x. (step_form x.0, x.1.now)) result (step_at bytes.now) }
{
    let (tag, rest) = byte_at(bytes)?;
    step_by(alloc, tag, rest)
}

// What follows a step's tag.
#[tactic(auto, unfolding(crate::specs::RecordReading::step_by))]
fn step_by(alloc: Global, tag: u8, bytes: &[u8]) -> Result<(ShardStep, &[u8]), RecordError>
    ensures { Gives (λ x. (step_form x.0, x.1.now)) result (step_by tag bytes.now) }
{
    match tag {
        1 => push_at(alloc, bytes),
        2 => Ok((ShardStep::Cut, bytes)),
        3 => Ok((ShardStep::Flush, bytes)),
        4 => delete_at(alloc, bytes),
        5 => cancel_at(bytes),
        6 => process_at(bytes),
        7 => retain_at(bytes),
        8 => collect_at(alloc, bytes),
        _ => Err(RecordFault::NotARecord.into()),
    }
}

#[tactic(auto, unfolding(crate::specs::RecordReading::push_at))]
fn push_at(alloc: Global, bytes: &[u8]) -> Result<(ShardStep, &[u8]), RecordError>
    ensures { Gives (λ x. (step_form x.0, x.1.now)) result (push_at bytes.now) }
{
    let (labels, rest) = stream_at(alloc, bytes)?;
    let (timestamp, rest) = match moment_at(rest) {
        Ok(read) => read,
        Err(error) => return Err(error),
    };
    let (line, rest) = text_at(rest)?;
    let line = PlainText::from_str(alloc, line)?;
    match Entry::new(labels, timestamp, line) {
        Ok(entry) => Ok((ShardStep::Push(Shared::new(alloc, entry)?), rest)),
        Err(_refused) => Err(RecordFault::NotARecord.into()),
    }
}

#[tactic(auto, unfolding(crate::specs::RecordReading::delete_at))]
fn delete_at(alloc: Global, bytes: &[u8]) -> Result<(ShardStep, &[u8]), RecordError>
    ensures { Gives (λ x. (step_form x.0, x.1.now)) result (delete_at bytes.now) }
{
    let (id, rest) = number_at(bytes)?;
    let (selector, rest) = sieve_at(alloc, rest)?;
    let (start, rest) = match moment_at(rest) {
        Ok(read) => read,
        Err(error) => return Err(error),
    };
    let (end, rest) = match moment_at(rest) {
        Ok(read) => read,
        Err(error) => return Err(error),
    };
    let (created, rest) = match moment_at(rest) {
        Ok(read) => read,
        Err(error) => return Err(error),
    };
    let deletion = Deletion {
        id,
        selector,
        start,
        end,
        created,
    };
    Ok((ShardStep::Delete(deletion), rest))
}

#[tactic(auto, unfolding(crate::specs::RecordReading::cancel_at))]
fn cancel_at(bytes: &[u8]) -> Result<(ShardStep, &[u8]), RecordError>
    ensures { Gives (λ x. (step_form x.0, x.1.now)) result (cancel_at bytes.now) }
{
    let (id, rest) = number_at(bytes)?;
    Ok((ShardStep::Cancel { id }, rest))
}

#[tactic(auto, unfolding(crate::specs::RecordReading::process_at))]
fn process_at(bytes: &[u8]) -> Result<(ShardStep, &[u8]), RecordError>
    ensures { Gives (λ x. (step_form x.0, x.1.now)) result (process_at bytes.now) }
{
    let (id, rest) = number_at(bytes)?;
    let (now, rest) = match moment_at(rest) {
        Ok(read) => read,
        Err(error) => return Err(error),
    };
    Ok((ShardStep::Process { id, now }, rest))
}

#[tactic(auto, unfolding(crate::specs::RecordReading::retain_at))]
fn retain_at(bytes: &[u8]) -> Result<(ShardStep, &[u8]), RecordError>
    ensures { Gives (λ x. (step_form x.0, x.1.now)) result (retain_at bytes.now) }
{
    let (now, rest) = match moment_at(bytes) {
        Ok(read) => read,
        Err(error) => return Err(error),
    };
    Ok((ShardStep::Retain { now }, rest))
}

#[tactic(auto, unfolding(crate::specs::RecordReading::collect_at))]
fn collect_at(alloc: Global, bytes: &[u8]) -> Result<(ShardStep, &[u8]), RecordError>
    ensures { Gives (λ x. (step_form x.0, x.1.now)) result (collect_at bytes.now) }
{
    let (slot, rest) = number_at(bytes)?;
    let (count, rest) = number_at(rest)?;
    let (terms, rest) = terms_at(alloc, count, rest)?;
    let (t, rest) = match moment_at(rest) {
        Ok(read) => read,
        Err(error) => return Err(error),
    };
    let terms = Terms::new(alloc, terms)?;
    Ok((ShardStep::Collect { slot, terms, t }, rest))
}

// So many terms.
fn terms_at(alloc: Global, count: u64, bytes: &[u8]) -> Result<(Vec<Term>, &[u8]), RecordError>
    ensures { Gives (λ x. (map term_form x.0.items, x.1.now)) result (in_turn term_at count bytes.now) }
{
    let mut terms = Vec::new(alloc);
    let mut rest = bytes;
    for _ in 0..count {
        let (term, following) = match term_at(alloc, rest) {
            Ok(read) => read,
            Err(error) => return Err(error),
        };
        terms.push(term)?;
        rest = following;
    }
    Ok((terms, rest))
}
