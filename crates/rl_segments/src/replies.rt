//! Replies of records, read from the front of bytes.
ghost use Rattle.std.specs.Prelude.{◌≡◌, IfErr, Ok, OnOk};
ghost use Rattle.rl_plain.specs.Answers.{Answers, Fails, Gives};
ghost use Rattle.rl_segments.specs.RecordReading.{collected_at, expired_at, in_turn, late_at, partial_at, plain_reply, reply_at, reply_by, totals_of, volume_at, with_total};

use crate::fault::{RecordError, RecordFault};
use crate::fields::{byte_at, labels_at, moment_at, number_at};
use rl_aggregate::{Partial, Totals, Volume};
use rl_labels::Labels;
use rl_plain::{PlainList, Shared};
use rl_records::ShardReply;
use std::alloc::Global;

/// A reply, by its tag.
#[tactic(auto, unfolding(crate::specs::RecordReading::reply_at))]
pub(crate) fn reply_at(alloc: Global, bytes: &[u8]) -> Result<(ShardReply, &[u8]), RecordError>
    ensures { Gives (λ x. (x.0, x.1.now)) result (reply_at bytes.now) }
{
    let (tag, rest) = byte_at(bytes)?;
    reply_by(alloc, tag, rest)
}

// What follows a reply's tag.
#[tactic(auto, unfolding(crate::specs::RecordReading::reply_by))]
fn reply_by(alloc: Global, tag: u8, bytes: &[u8]) -> Result<(ShardReply, &[u8]), RecordError>
    ensures { Gives (λ x. (x.0, x.1.now)) result (reply_by tag bytes.now) }
{
    match tag {
        3 => expired_at(bytes),
        4 => late_at(bytes),
        12 => collected_at(alloc, bytes),
        _ => {
            let reply = plain_reply(tag)?;
            Ok((reply, bytes))
        }
    }
}

// A reply that is its tag.
#[tactic(auto, unfolding(crate::specs::RecordReading::plain_reply))]
fn plain_reply(tag: u8) -> Result<ShardReply, RecordFault>
    ensures { Answers (λ reply. reply) result (plain_reply tag) }
{
    match tag {
        1 => Ok(ShardReply::Accepted),
        2 => Ok(ShardReply::Done),
        5 => Ok(ShardReply::Full),
        6 => Ok(ShardReply::IdTaken),
        7 => Ok(ShardReply::RequestsFull),
        8 => Ok(ShardReply::NoSuchRequest),
        9 => Ok(ShardReply::AlreadyProcessed),
        10 => Ok(ShardReply::WasCancelled),
        11 => Ok(ShardReply::TooEarly),
        _ => Err(RecordFault::NotARecord),
    }
}

#[tactic(auto, unfolding(crate::specs::RecordReading::expired_at))]
fn expired_at(bytes: &[u8]) -> Result<(ShardReply, &[u8]), RecordError>
    ensures { Gives (λ x. (x.0, x.1.now)) result (expired_at bytes.now) }
{
    let (horizon, rest) = match moment_at(bytes) {
        Ok(read) => read,
        Err(error) => return Err(error),
    };
    Ok((ShardReply::Expired { horizon }, rest))
}

#[tactic(auto, unfolding(crate::specs::RecordReading::late_at))]
fn late_at(bytes: &[u8]) -> Result<(ShardReply, &[u8]), RecordError>
    ensures { Gives (λ x. (x.0, x.1.now)) result (late_at bytes.now) }
{
    let (newest, rest) = match moment_at(bytes) {
        Ok(read) => read,
        Err(error) => return Err(error),
    };
    Ok((ShardReply::TooFarBehind { newest }, rest))
}

#[tactic(auto, unfolding(crate::specs::RecordReading::collected_at))]
fn collected_at(alloc: Global, bytes: &[u8]) -> Result<(ShardReply, &[u8]), RecordError>
    ensures { Gives (λ x. (x.0, x.1.now)) result (collected_at bytes.now) }
{
    let (count, rest) = number_at(bytes)?;
    let (partials, rest) = partials_at(alloc, count, rest)?;
    Ok((ShardReply::Collected(PlainList::from_vec(partials)), rest))
}

// So many partials.
fn partials_at(
    alloc: Global,
    count: u64,
    bytes: &[u8],
) -> Result<(Vec<Shared<Partial>>, &[u8]), RecordError>
    ensures { Gives (λ x. (x.0.items, x.1.now)) result (in_turn partial_at count bytes.now) }
{
    let mut partials: Vec<Shared<Partial>> = Vec::new(alloc);
    let mut rest = bytes;
    for _ in 0..count {
        let (partial, following) = match partial_at(alloc, rest) {
            Ok(read) => read,
            Err(error) => return Err(error),
        };
        partials.push(Shared::new(alloc, partial)?)?;
        rest = following;
    }
    Ok((partials, rest))
}

// What the lines of a term's range add up to.
#[tactic(auto, unfolding(crate::specs::RecordReading::partial_at))]
fn partial_at(alloc: Global, bytes: &[u8]) -> Result<(Partial, &[u8]), RecordError>
    ensures { Gives (λ x. (x.0, x.1.now)) result (partial_at bytes.now) }
{
    let (errors, rest) = number_at(bytes)?;
    let (count, rest) = number_at(rest)?;
    let (volumes, rest) = volumes_at(alloc, count, rest)?;
    let totals = totals_of(alloc, &volumes)?;
    Ok((Partial { errors, totals }, rest))
}

// So many label sets, each with what its lines add up to.
fn volumes_at(
    alloc: Global,
    count: u64,
    bytes: &[u8],
) -> Result<(Vec<(Labels, Volume)>, &[u8]), RecordError>
    ensures { Gives (λ x. (x.0.items, x.1.now)) result (in_turn volume_at count bytes.now) }
{
    let mut volumes = Vec::new(alloc);
    let mut rest = bytes;
    for _ in 0..count {
        let (volume, following) = match volume_at(alloc, rest) {
            Ok(read) => read,
            Err(error) => return Err(error),
        };
        volumes.push(volume)?;
        rest = following;
    }
    Ok((volumes, rest))
}

// A label set, and what its lines add up to.
#[tactic(auto, unfolding(crate::specs::RecordReading::volume_at))]
fn volume_at(alloc: Global, bytes: &[u8]) -> Result<((Labels, Volume), &[u8]), RecordError>
    ensures { Gives (λ x. (x.0, x.1.now)) result (volume_at bytes.now) }
{
    let (labels, rest) = labels_at(alloc, bytes)?;
    let (count, rest) = number_at(rest)?;
    let (bytes, rest) = number_at(rest)?;
    Ok(((labels, Volume { count, bytes }), rest))
}

// The totals of label sets, from the last one on.
fn totals_of(alloc: Global, volumes: &[(Labels, Volume)]) -> Result<Totals, RecordError>
    ensures { Gives (λ totals. totals) result (totals_of volumes.now) }
{
    let mut totals = Totals::new(alloc);
    let mut left = volumes.len();
    while left > 0 {
        left -= 1;
        let (labels, volume) = &volumes[left];
        match add(&mut totals, labels, volume.count, volume.bytes) {
            Ok(()) => {}
            Err(error) => return Err(error),
        }
    }
    Ok(totals)
}

// Adds what the lines of a label set add up to, which the totals have not.
fn add(totals: &mut Totals, labels: &Labels, count: u64, bytes: u64) -> Result<(), RecordError>
    ensures ok { OnOk result (with_total (labels.now, record { count = count; bytes = bytes }) totals.old ≡ Ok totals.new) }
    ensures err { IfErr result (λ error. Fails error (with_total (labels.now, record { count = count; bytes = bytes }) totals.old)) }
{
    if totals.get(labels).is_some() {
        return Err(RecordFault::NotARecord.into());
    }
    totals.add(labels, Volume { count, bytes })?;
    Ok(())
}
