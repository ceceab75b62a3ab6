//! What a shard shows of the ranges of terms.
ghost use Rattle.std.specs.Prelude.{◌≡◌, ◌≤◌, ◌+◌, ◌==◌, ◌⊎◌, ℕ, true, length, map, IfErr, IfOk, List, OnErr, OnOk, Some, if◌then◌else◌};
ghost use Rattle.std.specs.Option.{unwrap_or};
ghost use Rattle.std.specs.FinMap.{keys};
ghost use Rattle.std.specs.List.{AllByRecursion, AllZip, sum_by};
ghost use Rattle.rl_chunks.specs.StoreState.{greatest};
ghost use Rattle.rl_query.specs.declared.query.Term.{Term};
ghost use Rattle.rl_aggregate.specs.Limited.{IsWithin};
ghost use Rattle.rl_aggregate.specs.Partials.{partial};
ghost use Rattle.rl_slots.specs.Slots.{collected_in, visits_for, IsLiveIn};
ghost use Rattle.rl_streams.specs.StreamsState.{Looks};
ghost use Rattle.rl_shard.specs.Collecting.{shown, AreReadFor, IsOfReading};
ghost use Rattle.rl_shard.specs.ShardFault.{IsOfStore, after_step};

use crate::parts::ShardParts;
use crate::step::ShardFault;
use crate::windows::{TermWindows, windows_of};
use rl_chunks::Store;
use rl_deletes::Requests;
use rl_labels::Ns;
use rl_plain::{PlainList, Shared};
use rl_query::Term;
use rl_slots::{Answer, Slot};
use rl_streams::Streams;

impl<S: Store> ShardParts<S> {
    // What the entries in each term's range add up to that no received request covers: what the windows of the slot have, where they
    // answer these terms, and else those that are built for them.
    pub(crate) fn collect(
        &mut self,
        number: u64,
        terms: Shared<PlainList<Term>>,
        t: Ns,
    ) -> Result<Answer, ShardFault>
        ensures same { Looks self.old.streams self.new.streams }
        ensures meets { IfErr result IsOfReading }
        ensures counted { self.new.streams.seen.faults ≡ after_step result self.old.streams.seen.faults }
        ensures of_store { IfErr result (λ fault. IsOfStore self.old.streams fault self.new.streams) }
        ensures each { IfOk result (λ answer. length answer.partials ≡ length terms) }
        ensures within { IfOk result (λ answer. AllByRecursion (IsWithin self.old.streams.limits.entries) answer.partials) }
        ensures copied { IfOk result (λ answer. answer.copy ≡ answer.partials) }
        ensures read { IfOk result (λ answer. IsLiveIn number terms t self.old.slots ⊎ AreReadFor self.old.streams self.old.requests terms t answer.partials) }
        ensures exact { self.old.streams.seen.honest ≡ true → IfOk result (λ answer. answer.partials ≡ map (λ term. partial (shown self.old.streams self.old.requests) term t) terms) }
        ensures numbers { self.new.streams.next ≤ greatest }
        ensures others { (self.new.requests ≡ self.old.requests) × (self.new.horizon ≡ self.old.horizon) }
        ensures live { OnOk result ((u : ℕ) → t ≤ u → IsLiveIn number terms u self.new.slots) }
        ensures kept { (other : ℕ) (asked : List Term) (u : ℕ) → (other ≡ number → ⊥) → IsLiveIn other asked u self.old.slots → IsLiveIn other asked u self.new.slots }
        ensures refused { OnErr result ((asked : List Term) (u : ℕ) → t ≤ u → IsLiveIn number asked u self.old.slots → IsLiveIn number asked u self.new.slots) }
        ensures unread { IsLiveIn number terms t self.old.slots → (self.new.streams ≡ self.old.streams) × (self.new.meter.runs ≡ self.old.meter.runs) }
        ensures collected { OnOk result ((other : ℕ) → collected_in other self.new.slots ≡ (if number == other then Some t else collected_in other self.old.slots)) }
        ensures uncollected { OnErr result ((other : ℕ) → collected_in other self.new.slots ≡ collected_in other self.old.slots) }
        ensures visits { self.old.streams.seen.honest ≡ true → IsLiveIn number terms t self.old.slots → self.new.meter.visits ≤ self.old.meter.visits + sum_by (visits_for (shown self.old.streams self.old.requests) (unwrap_or (collected_in number self.old.slots) 0) t) terms }
    {
        // Read for contracts, which learn that it is within the greatest.
        let _moment = t.get();
        match self.slots.live(number, terms.get(), t) {
            Some(index) => Ok(self.slots.collect(self.alloc, index, t, &mut self.meter)?),
            None => self.build(number, terms, t),
        }
    }

    // The same by windows that are built for the terms, and take the place of those that the slot has.
    fn build(
        &mut self,
        number: u64,
        terms: Shared<PlainList<Term>>,
        t: Ns,
    ) -> Result<Answer, ShardFault>
        ensures same { Looks self.old.streams self.new.streams }
        ensures meets { IfErr result IsOfReading }
        ensures counted { self.new.streams.seen.faults ≡ after_step result self.old.streams.seen.faults }
        ensures of_store { IfErr result (λ fault. IsOfStore self.old.streams fault self.new.streams) }
        ensures each { IfOk result (λ answer. length answer.partials ≡ length terms) }
        ensures within { IfOk result (λ answer. AllByRecursion (IsWithin self.old.streams.limits.entries) answer.partials) }
        ensures copied { IfOk result (λ answer. answer.copy ≡ answer.partials) }
        ensures read { IfOk result (λ answer. AreReadFor self.old.streams self.old.requests terms t answer.partials) }
        ensures exact { self.old.streams.seen.honest ≡ true → IfOk result (λ answer. answer.partials ≡ map (λ term. partial (shown self.old.streams self.old.requests) term t) terms) }
        ensures numbers { self.new.streams.next ≤ greatest }
        ensures others { (self.new.requests ≡ self.old.requests) × (self.new.horizon ≡ self.old.horizon) }
        ensures live { OnOk result ((u : ℕ) → t ≤ u → IsLiveIn number terms u self.new.slots) }
        ensures kept { (other : ℕ) (asked : List Term) (u : ℕ) → (other ≡ number → ⊥) → IsLiveIn other asked u self.old.slots → IsLiveIn other asked u self.new.slots }
        ensures refused { OnErr result (self.new.slots ≡ self.old.slots) }
        ensures collected { OnOk result ((other : ℕ) → collected_in other self.new.slots ≡ (if number == other then Some t else collected_in other self.old.slots)) }
    {
        // Read for contracts, as in `collect`.
        let _moment = t.get();
        let alloc = self.alloc;
        let asked = terms.get().as_slice();
        let (streams, meter) = (&mut self.streams, &mut self.meter);
        let built = windows_of(alloc, streams, &self.requests, asked, t, meter)?;
        let TermWindows { windows, indices } = built;
        let mut slot = Slot::new(number, terms, t, windows, indices);
        let answer = slot.collect(alloc, t, &mut self.meter)?;
        self.slots.set(slot)?;
        Ok(answer)
    }
}

// Shows contracts that no more is held than may be, nor is shown.
pub(crate) fn show_few<S: Store>(streams: &Streams<S>, _requests: &Requests)
    ensures held { length (keys streams.now.held) ≤ streams.now.limits.entries }
    ensures shown { length (shown streams.now _requests.now) ≤ streams.now.limits.entries }
{
    streams.len();
}
