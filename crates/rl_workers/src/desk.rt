//! Shards under their locks.
ghost use Rattle.std.specs.Prelude.{◌≡◌, ◌<◌, length, IfOk, OnErr};
ghost use Rattle.rl_records.specs.declared.step.ShardReply.TheVariants as replies;
ghost use Rattle.rl_records.specs.declared.step.ShardStep.TheVariants as steps;
ghost use Rattle.rl_world.specs.ShardAnswers.{AreOfOneShard};
ghost use Rattle.rl_audit.specs.Merged.{receipt_of};
ghost use Rattle.rl_workers.specs.Receipts.{HasAdded};
ghost use Rattle.rl_workers.specs.Rulers.{IsAnsweredIn};

use crate::crew::Crew;
use crate::pass::Pass;
use crate::tally::Tally;
use rl_aggregate::Partial;
use rl_audit::Receipt;
use rl_chunks::Store;
use rl_labels::Ns;
use rl_plain::{PlainList, Shared};
use rl_records::Terms;
use rl_shard::{Shard, ShardFault, ShardReply, ShardStep};
use std::sync::ledger::Share;
use std::sync::{Mutex, Wait};

/// What a shard is asked for an evaluation: what terms have at a moment, under the number of the group's slot.
#[derive(Drop)]
pub(crate) struct Question {
    pub(crate) slot: u64,
    pub(crate) terms: Terms,
    pub(crate) t: Ns,
}

/// A shard, with its share of the ledger of records.
#[derive(Drop)]
pub(crate) struct Desk<D: Store, L: Crew> {
    pub(crate) shard: Shard<D>,
    pub(crate) share: Share<L>,
    ghost part: { share.parts ≡ 1 },
    ghost counted: { share.amount ≡ length shard.journal },
}

impl<D: Store, L: Crew> Desk<D, L> {
    // The shard decides a step. What it decided is counted, and a pass with room has the receipt of its record.
    pub(crate) fn apply<P: Crew, R: Wait>(
        &mut self,
        rt: &R,
        tally: &Mutex<Tally<L, P>>,
        pass: &mut Pass<P>,
        number: usize,
        step: ShardStep,
    ) -> Result<(u64, ShardReply), ShardFault>
        requires room { 0 < pass.old.receipt_room }
        ensures received { IfOk result (λ answer. HasAdded pass.old (receipt_of number answer.0 (record { step = step; reply = answer.1 })) pass.new) }
        ensures answered { IfOk result (λ answer. IsAnsweredIn step answer.1) }
        ensures err { OnErr result (pass.new ≡ pass.old) }
    {
        let (place, reply) = self.shard.apply(step)?;
        let Some(digest) = self.shard.last_digest() else {
            unreachable!()
        };
        let receipt = Receipt {
            shard: number,
            place,
            digest,
        };
        let mut sums = tally.lock(rt);
        sums.count(&mut self.share, pass, receipt);
        Ok((place, reply))
    }

    // The shard answers what terms have at a moment: the place of the question in its journal, and a partial for each.
    pub(crate) fn collect<P: Crew, R: Wait>(
        &mut self,
        rt: &R,
        tally: &Mutex<Tally<L, P>>,
        pass: &mut Pass<P>,
        number: usize,
        question: Question,
    ) -> Result<(u64, PlainList<Shared<Partial>>), ShardFault>
        requires room { 0 < pass.old.receipt_room }
        ensures received { IfOk result (λ answer. HasAdded pass.old (receipt_of number answer.0 (record { step = steps.Collect question.slot question.terms question.t; reply = replies.Collected answer.1 })) pass.new) }
        ensures one_shard { IfOk result (λ answer. AreOfOneShard (length question.terms) answer.1) }
        ensures err { OnErr result (pass.new ≡ pass.old) }
    {
        let Question { slot, terms, t } = question;
        let step = ShardStep::Collect { slot, terms, t };
        let (place, reply) = self.apply(rt, tally, pass, number, step)?;
        match reply {
            ShardReply::Collected(partials) => Ok((place, partials)),
            _ => unreachable!(),
        }
    }
}

/// The shards of a ruler, each under a lock of its own, and the sums of both ledgers under theirs. No call holds two of these locks
/// of one kind, and the lock of the sums is taken last.
#[derive(Drop)]
pub(crate) struct Desks<D: Store, L: Crew, P: Crew> {
    pub(crate) shards: Vec<Mutex<Desk<D, L>>>,
    pub(crate) tally: Mutex<Tally<L, P>>,
}

impl<D: Store, L: Crew, P: Crew> Desks<D, L, P> {
    // How many shards there are.
    pub(crate) fn len(&self) -> usize
        ensures { result ≡ length self.now.shards.items }
    {
        self.shards.len()
    }

    // A shard decides a step, under its lock.
    pub(crate) fn apply<R: Wait>(
        &self,
        rt: &R,
        pass: &mut Pass<P>,
        number: usize,
        step: ShardStep,
    ) -> Result<(u64, ShardReply), ShardFault>
        requires there { number < length self.now.shards.items }
        requires room { 0 < pass.old.receipt_room }
        ensures received { IfOk result (λ answer. HasAdded pass.old (receipt_of number answer.0 (record { step = step; reply = answer.1 })) pass.new) }
        ensures err { OnErr result (pass.new ≡ pass.old) }
    {
        let mut desk = self.shards[number].lock(rt);
        desk.apply(rt, &self.tally, pass, number, step)
    }

    // A shard answers what terms have at a moment, under its lock.
    pub(crate) fn collect<R: Wait>(
        &self,
        rt: &R,
        pass: &mut Pass<P>,
        number: usize,
        question: Question,
    ) -> Result<(u64, PlainList<Shared<Partial>>), ShardFault>
        requires there { number < length self.now.shards.items }
        requires room { 0 < pass.old.receipt_room }
        ensures received { IfOk result (λ answer. HasAdded pass.old (receipt_of number answer.0 (record { step = steps.Collect question.slot question.terms question.t; reply = replies.Collected answer.1 })) pass.new) }
        ensures one_shard { IfOk result (λ answer. AreOfOneShard (length question.terms) answer.1) }
        ensures err { OnErr result (pass.new ≡ pass.old) }
    {
        let mut desk = self.shards[number].lock(rt);
        desk.collect(rt, &self.tally, pass, number, question)
    }
}
