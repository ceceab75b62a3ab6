//! The sums of two ledgers.
ghost use Rattle.std.specs.Prelude.{◌≡◌, ◌+◌, ◌-◌, ◌<◌, ◌++◌, ◌∷◌, []};
ghost use Rattle.rl_workers.specs.Receipts.{PassView};

use crate::crew::Crew;
use crate::pass::Pass;
use rl_audit::Receipt;
use std::sync::ledger::{Book, Share};

/// How many records all journals have, and how many receipts all passes: as many.
#[derive(Drop)]
pub(crate) struct Tally<L: Crew, P: Crew> {
    pub(crate) records: Book<L>,
    pub(crate) receipts: Book<P>,
    // What the shares of shards and callers were cut from, where they are joined again.
    pub(crate) no_record: Share<L>,
    pub(crate) no_receipt: Share<P>,
    ghost equal: { records.total ≡ receipts.total },
    ghost record_parts: { no_record.parts ≡ 0 },
    ghost receipt_parts: { no_receipt.parts ≡ 0 },
}

impl<L: Crew, P: Crew> Tally<L, P> {
    // Counts a record of a shard, and gives its receipt to a pass, which has room for it.
    pub(crate) fn count(&mut self, of_shard: &mut Share<L>, pass: &mut Pass<P>, receipt: Receipt)
        requires part { 0 < of_shard.old.parts }
        requires room { 0 < pass.old.receipt_room }
        ensures parts { of_shard.new.parts ≡ of_shard.old.parts }
        ensures amount { of_shard.new.amount ≡ of_shard.old.amount + 1 }
        ensures receipts { pass.new.receipts ≡ pass.old.receipts ++ receipt ∷ [] }
        ensures notes { pass.new.notes ≡ pass.old.notes }
        ensures receipt_room { pass.new.receipt_room + 1 ≡ pass.old.receipt_room }
        ensures note_room { pass.new.note_room ≡ pass.old.note_room }
    {
        self.records.add(of_shard, 1);
        self.receipts.add(&mut pass.share, 1);
        pass.receipts.push_reserved(receipt);
    }
}
