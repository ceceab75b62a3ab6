//! What becomes of the steps that hide entries, show them again, or remove them.
ghost use Rattle.std.specs.Prelude.{◌≡◌, ◌≤◌, ℕ, List, [], false, IfErr, IfOk, IfSome, IsSome, MatchResult, None, OnErr, OnOk, Some, true};
ghost use Rattle.std.specs.List.{AllByRecursion};
ghost use Rattle.rl_chunks.specs.StoreState.{greatest};
ghost use Rattle.rl_deletes.specs.Deletes.{asked, cancel_fault, cancelled, hidden_alone, is_new_request, process_fault, received_at, IsReceiveFault};
ghost use Rattle.rl_deletes.specs.Horizons.{advanced, newly_expired};
ghost use Rattle.rl_shard.specs.Deciding.{Lasts, Refuses};
ghost use Rattle.rl_query.specs.declared.query.Term.{Term};
ghost use Rattle.rl_slots.specs.Slots.{collected_in, IsLiveIn, IsOfLine};
ghost use Rattle.rl_streams.specs.StreamsState.{Looks};
ghost use Rattle.rl_shard.specs.Collecting.{IsOfReading};
ghost use Rattle.rl_shard.specs.ShardFault.{IsOfRemoving, IsOfStore, IsRemoved, after_step};
ghost use Rattle.rl_shard.specs.Turning.{AreTurned};
ghost use Rattle.rl_shard.specs.ShardStep.{deleted, left_of, processed_if, removed_by, removed_if, reply_to_cancel, reply_to_process, IsDeleteReply};
ghost use Rattle.rl_shard.specs.declared.step.ShardFault.TheVariants as faults;
ghost use Rattle.rl_records.specs.declared.step.ShardReply.TheVariants as replies;

use crate::collecting::show_few;
use crate::parts::ShardParts;
use crate::step::ShardFault;
use crate::turning::{Listing, changes_of_turned};
use rl_chunks::Store;
use rl_deletes::{
    ActiveRequest, CancelFault, Deletion, HiddenAlone, Horizon, NewlyExpired, ProcessFault,
    ReceiveFault,
};
use rl_labels::{Ns, TimeRange};
use rl_plain::{OrMemory, PlainList, Shared};
use rl_query::Sieve;
use rl_records::ShardReply;
use rl_slots::Change;

impl<S: Store> ShardParts<S> {
    // Receives a request: what it hides leaves the windows.
    pub(crate) fn delete(
        &mut self,
        deletion: Deletion<Shared<Sieve>>,
    ) -> Result<ShardReply, ShardFault>
        ensures same { Looks self.old.streams self.new.streams }
        ensures meets { IfErr result IsOfReading }
        ensures counted { self.new.streams.seen.faults ≡ after_step result self.old.streams.seen.faults }
        ensures of_store { IfErr result (λ fault. IsOfStore self.old.streams fault self.new.streams) }
        ensures undecided { OnErr result (IsReceiveFault self.old.requests deletion.id (asked deletion) None) }
        ensures reply { IfOk result (IsDeleteReply self.old.requests deletion.id (asked deletion)) }
        ensures deleted { OnOk result (self.new.requests ≡ deleted self.old.requests deletion.id (asked deletion)) }
        ensures kept { OnErr result (self.new.requests ≡ self.old.requests) }
        ensures numbers { self.new.streams.next ≤ greatest }
        ensures others { self.new.horizon ≡ self.old.horizon }
        ensures live { (number : ℕ) (terms : List Term) (u : ℕ) → IsLiveIn number terms u self.old.slots → IsLiveIn number terms u self.new.slots }
        ensures collected { (number : ℕ) → collected_in number self.new.slots ≡ collected_in number self.old.slots }
    {
        let lost = self.lost_by(&deletion)?;
        match self.requests.receive(deletion) {
            Ok(()) => {
                self.slots.take_out(&lost);
                Ok(ShardReply::Done)
            }
            Err(OrMemory::Fault(ReceiveFault::IdTaken)) => Ok(ShardReply::IdTaken),
            Err(OrMemory::Fault(ReceiveFault::Full)) => Ok(ShardReply::RequestsFull),
            Err(OrMemory::Memory) => Err(ShardFault::Memory),
        }
    }

    // What windows have of the entries that a request for the deletion would hide: nothing where it would not be received anew.
    fn lost_by(&mut self, deletion: &Deletion<Shared<Sieve>>) -> Result<Vec<Change>, ShardFault>
        ensures same { Looks self.old.streams self.new.streams }
        ensures meets { IfErr result IsOfReading }
        ensures counted { self.new.streams.seen.faults ≡ after_step result self.old.streams.seen.faults }
        ensures of_store { IfErr result (λ fault. IsOfStore self.old.streams fault self.new.streams) }
        ensures undecided { OnErr result (IsReceiveFault self.old.requests deletion.now.id (asked deletion.now) None) }
        ensures none { IfOk result (λ changes. is_new_request self.old.requests deletion.now.id ≡ false → changes.items ≡ []) }
        ensures lost { self.old.streams.seen.honest ≡ true → is_new_request self.old.requests deletion.now.id ≡ true → IfOk result (λ changes. AreTurned (hidden_alone self.old.requests deletion.now.id (asked deletion.now)) self.old.streams.held self.old.slots changes.items) }
        ensures numbers { self.new.streams.next ≤ greatest }
        ensures others { (self.new.requests ≡ self.old.requests) × (self.new.horizon ≡ self.old.horizon) × (self.new.slots ≡ self.old.slots) }
    {
        if !self.requests.is_new(deletion.id) {
            return Ok(Vec::new(self.alloc));
        }
        let own = ActiveRequest::build(self.alloc, deletion)?;
        let turning = HiddenAlone {
            own: &own,
            number: deletion.id,
            requests: &self.requests,
        };
        let selector = &deletion.selector.get().selector.matchers;
        let range = deletion.range();
        let listing = Listing::new(self.alloc, self.meter);
        let (streams, slots) = (&mut self.streams, &self.slots);
        let listing = changes_of_turned(streams, slots, selector, range, &turning, listing)?;
        self.meter = listing.meter;
        Ok(listing.changes)
    }

    // Cancels a request: what it alone hides comes into the windows.
    pub(crate) fn cancel(&mut self, id: u64) -> Result<ShardReply, ShardFault>
        ensures same { Looks self.old.streams self.new.streams }
        ensures meets { IfErr result IsOfReading }
        ensures counted { self.new.streams.seen.faults ≡ after_step result self.old.streams.seen.faults }
        ensures of_store { IfErr result (λ fault. IsOfStore self.old.streams fault self.new.streams) }
        ensures undecided { OnErr result (IsSome (received_at self.old.requests id)) }
        ensures reply { IfOk result (λ reply. reply ≡ reply_to_cancel (cancel_fault self.old.requests id)) }
        ensures cancelled { OnOk result (self.new.requests ≡ cancelled self.old.requests id) }
        ensures kept { OnErr result (self.new.requests ≡ self.old.requests) }
        ensures numbers { self.new.streams.next ≤ greatest }
        ensures others { self.new.horizon ≡ self.old.horizon }
        ensures live { (number : ℕ) (terms : List Term) (u : ℕ) → IsLiveIn number terms u self.old.slots → IsLiveIn number terms u self.new.slots }
        ensures collected { (number : ℕ) → collected_in number self.new.slots ≡ collected_in number self.old.slots }
    {
        show_few(&self.streams, &self.requests);
        if self.requests.received(id).is_none() {
            return Ok(cancel_reply(self.requests.cancel(id)));
        }
        let gained = self.gained_by(id)?;
        if let Err(fault) = self.slots.add(&gained) {
            return Err(ShardFault::from(fault));
        }
        Ok(cancel_reply(self.requests.cancel(id)))
    }

    // What windows lack of the entries that the received request with the number alone hides.
    fn gained_by(&mut self, id: u64) -> Result<Vec<Change>, ShardFault>
        ensures same { Looks self.old.streams self.new.streams }
        ensures meets { IfErr result IsOfReading }
        ensures counted { self.new.streams.seen.faults ≡ after_step result self.old.streams.seen.faults }
        ensures of_store { IfErr result (λ fault. IsOfStore self.old.streams fault self.new.streams) }
        ensures lines { IfOk result (λ changes. AllByRecursion (λ change. IsOfLine change.element.volume) changes.items) }
        ensures gained { self.old.streams.seen.honest ≡ true → IfSome (received_at self.old.requests id) (λ own. IfOk result (λ changes. AreTurned (hidden_alone self.old.requests id own) self.old.streams.held self.old.slots changes.items)) }
        ensures numbers { self.new.streams.next ≤ greatest }
        ensures others { (self.new.requests ≡ self.old.requests) × (self.new.horizon ≡ self.old.horizon) × (self.new.slots ≡ self.old.slots) }
    {
        let (Some(own), Some(request)) = (self.requests.received(id), self.requests.request(id))
        else {
            return Ok(Vec::new(self.alloc));
        };
        let turning = HiddenAlone {
            own,
            number: id,
            requests: &self.requests,
        };
        let selector = &request.deletion.selector.get().selector.matchers;
        let range = request.deletion.range();
        let listing = Listing::new(self.alloc, self.meter);
        let (streams, slots) = (&mut self.streams, &self.slots);
        let listing = changes_of_turned(streams, slots, selector, range, &turning, listing)?;
        self.meter = listing.meter;
        Ok(listing.changes)
    }

    // Removes what a request covers that is due. The streams are rewritten first, so that a fault leaves the request received.
    pub(crate) fn process(&mut self, id: u64, now: Ns) -> Result<ShardReply, ShardFault>
        ensures lasts { Lasts self.old.streams self.new.streams }
        ensures meets { IfErr result IsOfRemoving }
        ensures undecided { OnErr result (IsSome (removed_if (process_fault self.old.requests id now) self.old.requests id)) }
        ensures refused { IfErr result (λ fault. Refuses self.old fault self.new) }
        ensures reply { IfOk result (λ reply. reply ≡ reply_to_process (process_fault self.old.requests id now)) }
        ensures requests { OnOk result (self.new.requests ≡ processed_if (process_fault self.old.requests id now) self.old.requests id) }
        ensures others { (self.new.streams.newest ≡ self.old.streams.newest) × (self.new.horizon ≡ self.old.horizon) × (self.new.slots ≡ self.old.slots) }
        ensures unless { OnOk result (removed_if (process_fault self.old.requests id now) self.old.requests id ≡ None → self.new.streams.held ≡ self.old.streams.held) }
        ensures left { OnOk result (IsRemoved (removed_if (process_fault self.old.requests id now) self.old.requests id) self.old.streams self.new.streams) }
        ensures right { self.old.streams.seen.honest ≡ true → OnOk result (self.new.streams.held ≡ left_of (removed_if (process_fault self.old.requests id now) self.old.requests id) self.old.streams.held) }
    {
        match self.requests.due(id, now) {
            Ok(None) => return Ok(ShardReply::Done),
            Ok(Some(request)) => self.streams.rewrite(request)?,
            Err(fault) => return Ok(not_processed(fault)),
        }
        match self.requests.process(id, now) {
            Ok(()) => Ok(ShardReply::Done),
            Err(fault) => Ok(not_processed(fault)),
        }
    }

    // Removes what is expired at the moment, from the windows too. The streams are rewritten first, so that a fault leaves the horizon and
    // the windows where they were.
    pub(crate) fn retain(&mut self, now: Ns) -> Result<ShardReply, ShardFault>
        ensures lasts { Lasts self.old.streams self.new.streams }
        ensures meets { IfErr result IsOfRemoving }
        ensures undecided { OnErr result (IsSome (removed_by self.old.streams.limits self.old.horizon now)) }
        ensures refused { IfErr result (λ fault. Refuses self.old fault self.new) }
        ensures reply { IfOk result (λ reply. reply ≡ replies.Done) }
        ensures horizon { OnOk result (self.new.horizon ≡ advanced self.old.streams.limits.keep self.old.horizon now) }
        ensures others { (self.new.streams.newest ≡ self.old.streams.newest) × (self.new.requests ≡ self.old.requests) }
        ensures live { (number : ℕ) (terms : List Term) (u : ℕ) → IsLiveIn number terms u self.old.slots → IsLiveIn number terms u self.new.slots }
        ensures collected { (number : ℕ) → collected_in number self.new.slots ≡ collected_in number self.old.slots }
        ensures unless { OnOk result (removed_by self.old.streams.limits self.old.horizon now ≡ None → self.new.streams.held ≡ self.old.streams.held) }
        ensures left { OnOk result (IsRemoved (removed_by self.old.streams.limits self.old.horizon now) self.old.streams self.new.streams) }
        ensures right { self.old.streams.seen.honest ≡ true → OnOk result (self.new.streams.held ≡ left_of (removed_by self.old.streams.limits self.old.horizon now) self.old.streams.held) }
    {
        let keep = self.streams.limits().keep;
        if keep == 0 {
            return Ok(ShardReply::Done);
        }
        let raised = self.horizon.advance(now, keep);
        let lost = self.lost_below(raised)?;
        self.streams.rewrite(&raised)?;
        self.horizon = raised;
        self.slots.take_out(&lost);
        Ok(ShardReply::Done)
    }

    // What windows have of the entries below a horizon.
    fn lost_below(&mut self, horizon: Horizon) -> Result<Vec<Change>, ShardFault>
        ensures same { Looks self.old.streams self.new.streams }
        ensures meets { IfErr result IsOfReading }
        ensures counted { self.new.streams.seen.faults ≡ after_step result self.old.streams.seen.faults }
        ensures of_store { IfErr result (λ fault. IsOfStore self.old.streams fault self.new.streams) }
        ensures lost { self.old.streams.seen.honest ≡ true → IfOk result (λ changes. AreTurned (newly_expired self.old.requests horizon) self.old.streams.held self.old.slots changes.items) }
        ensures numbers { self.new.streams.next ≤ greatest }
        ensures others { (self.new.requests ≡ self.old.requests) × (self.new.horizon ≡ self.old.horizon) × (self.new.slots ≡ self.old.slots) }
    {
        let turning = NewlyExpired {
            horizon,
            requests: &self.requests,
        };
        let every = PlainList::new(self.alloc);
        let range = TimeRange {
            from: Horizon::first().moment(),
            to: horizon.moment(),
        };
        let listing = Listing::new(self.alloc, self.meter);
        let (streams, slots) = (&mut self.streams, &self.slots);
        let listing = changes_of_turned(streams, slots, &every, range, &turning, listing)?;
        self.meter = listing.meter;
        Ok(listing.changes)
    }
}

// What is answered to a cancel.
fn cancel_reply(outcome: Result<(), CancelFault>) -> ShardReply
    ensures { MatchResult outcome (λ _. result ≡ replies.Done) (λ fault. result ≡ reply_to_cancel (Some fault)) }
{
    match outcome {
        Ok(()) => ShardReply::Done,
        Err(CancelFault::NoSuchRequest) => ShardReply::NoSuchRequest,
        Err(CancelFault::AlreadyProcessed) => ShardReply::AlreadyProcessed,
    }
}

// Why a request was not processed.
fn not_processed(fault: ProcessFault) -> ShardReply
    ensures { result ≡ reply_to_process (Some fault) }
{
    match fault {
        ProcessFault::NoSuchRequest => ShardReply::NoSuchRequest,
        ProcessFault::WasCancelled => ShardReply::WasCancelled,
        ProcessFault::TooEarly => ShardReply::TooEarly,
    }
}
