//! What the record of a shard's journal says of an evaluation.
ghost use Rattle.std.specs.Prelude.{◌≡◌, length, IfOk, IfSome, IsTrue};
ghost use Rattle.std.specs.List.{AllByRecursion};
ghost use Rattle.rl_aggregate.specs.Limited.{IsWithin};
ghost use Rattle.rl_records.specs.declared.step.ShardStep.TheVariants as steps;
ghost use Rattle.rl_world.specs.ShardAnswers.{most_in_shard, AreOfOneShard};
ghost use Rattle.rl_audit.specs.Founded.{IsAsked};

use crate::fault::AuditFault;
use rl_aggregate::Partial;
use rl_chunks::Store;
use rl_labels::Ns;
use rl_plain::{PlainList, Same, Shared};
use rl_records::{Record, Terms};
use rl_shard::{Shard, ShardReply, ShardStep};

// The most entries that a shard may be set to hold, and the most bytes that their lines may have.
const MOST_LINES: u64 = 67_108_864;

const MOST_BYTES: u64 = MOST_LINES * 65_535;

/// What a group asks of each shard: terms at a moment, under the number of its slot.
#[derive(Drop)]
pub(crate) struct Question {
    pub(crate) slot: u64,
    pub(crate) terms: Terms,
    pub(crate) t: Ns,
}

/// The partials that a shard's record at a place has, if it is the answered question.
pub(crate) fn partials_at<D: Store>(
    shard: &mut Shard<D>,
    place: u64,
    question: &Question,
) -> Result<Option<PlainList<Shared<Partial>>>, AuditFault>
    ensures asked { IfOk result (λ found. IfSome found (λ shown. IsAsked question.now.slot question.now.terms question.now.t shard.old.journal (record { place = place; shown = shown }))) }
    ensures one_shard { IfOk result (λ found. IfSome found (AreOfOneShard (length question.now.terms))) }
    ensures same { shard.new ≡ shard.old }
{
    let Some(found) = shard.journal_at(place)? else {
        return Ok(None);
    };
    let Record { step, reply } = found;
    if !is_question(&step, question) {
        return Ok(None);
    }
    match reply {
        ShardReply::Collected(shown) => Ok(of_one_shard(shown, question.terms.list().get().len())),
        _ => Ok(None),
    }
}

// Whether a step is a question.
fn is_question(step: &ShardStep, question: &Question) -> bool
    ensures { IsTrue result → step.now ≡ steps.Collect question.now.slot question.now.terms question.now.t }
{
    match step {
        ShardStep::Collect { slot, terms, t } => {
            *slot == question.slot && *t == question.t && terms.is_same(&question.terms)
        }
        _ => false,
    }
}

// Partials, if there is one for each term, within what one shard may hold.
fn of_one_shard(
    shown: PlainList<Shared<Partial>>,
    terms: usize,
) -> Option<PlainList<Shared<Partial>>>
    ensures { IfSome result (λ same. (same ≡ shown) × AreOfOneShard terms same) }
{
    if shown.len() == terms && are_within(shown.as_slice()) {
        Some(shown)
    } else {
        None
    }
}

// Whether partials are within what one shard may hold.
fn are_within(partials: &[Shared<Partial>]) -> bool
    ensures { IsTrue result → AllByRecursion (IsWithin most_in_shard) partials.now }
{
    partials.iter().all(|partial| is_within(partial.get()))
}

// Whether a partial is within what one shard may hold.
fn is_within(partial: &Partial) -> bool
    ensures { IsTrue result → IsWithin most_in_shard partial.now }
{
    let sets = partial.totals.len() as u64;
    if sets > MOST_LINES || partial.errors > MOST_LINES {
        return false;
    }
    let mut lines = MOST_LINES - partial.errors;
    let mut bytes = MOST_BYTES;
    for (_, total) in partial.totals.iter() {
        if total.count > lines || total.bytes > bytes {
            return false;
        }
        lines -= total.count;
        bytes -= total.bytes;
    }
    true
}
