//! All requests of a shard.
ghost use Rattle.std.specs.Prelude.{◌≡◌, None, Some, IfOk, OnOk, OnErr, IsSome, MatchResult, cond, false, ℕ};
ghost use Rattle.std.specs.BTreeMap.{is_at};
ghost use Rattle.std.specs.FinMap as map;
ghost use Rattle.std.specs.Map.{lookup};
ghost use Rattle.std.specs.Option.{option_map};
ghost use Rattle.std.specs.Ordering.{nat_cmp};
ghost use Rattle.rl_deletes.specs.Deletes.{asked, cancel_fault, cancelled, covered_beside, covered_line, ended, is_in_force, is_new_request, no_requests, process_fault, processed, received, received_at, with_request, with_status, without_request, IsReceiveAnswer, IsReceiveFault};

use crate::active::ActiveRequest;
use crate::deletion::Deletion;
use crate::fault::{CancelFault, ProcessFault, ReceiveError, ReceiveFault};
use crate::request::{Request, RequestStatus};
use rl_labels::{Covers, Entry, Labels, Limits, Ns, SECOND};
use rl_plain::{OrMemory, Shared};
use rl_query::Sieve;
use std::alloc::{AllocError, Global};
use std::collections::BTreeMap;
use std::marker::Model;

/// The most requests, whatever their status.
pub const MOST_REQUESTS: usize = 65_536;

/// Delete requests by their numbers. Contracts see a finite map, and how long after its making a request is not processed.
#[derive(Drop)]
pub struct Requests {
    alloc: Global,
    cancel: u64,
    requests: BTreeMap<u64, Request>,
    // Those that are received.
    active: BTreeMap<u64, ActiveRequest>,
    // None of these covers a later timestamp.
    latest: u64,
}

impl Model for Requests {
    ghost use Rattle.rl_deletes.specs.Deletes.{RequestsView};
    ghost use Rattle.rl_deletes.specs.Views.{requests_code, view_of, AreBuilt};

    ghost Value = { RequestsView };

    ghost coded = { requests_code };

    ghost view = { λ a. view_of a.cancel a.requests.entries };

    ghost invariant = { λ a. AreBuilt a.cancel a.requests.entries a.active.entries a.latest };
}

impl Requests {
    /// No requests. Each waits for as long as the limits say before it can be processed.
    pub fn new(alloc: Global, limits: &Limits) -> Requests
        ensures { result ≡ no_requests limits.now }
    {
        Requests {
            alloc,
            cancel: limits.cancel,
            requests: BTreeMap::new(alloc),
            active: BTreeMap::new(alloc),
            latest: 0,
        }
    }

    /// Receives a request. One that is received already, with that sieve, start and end, stays as it is.
    pub fn receive(&mut self, deletion: Deletion<Shared<Sieve>>) -> Result<(), ReceiveError>
        ensures ok { OnOk result (IsReceiveFault self.old deletion.id (asked deletion) None × (self.new ≡ received self.old deletion.id (asked deletion))) }
        ensures fault { IsReceiveAnswer self.old deletion.id (asked deletion) result }
        ensures err { OnErr result (self.new ≡ self.old) }
    {
        let id = deletion.id;
        if let Some(known) = self.request(id) {
            let status = RequestStatus::Received;
            if (Request { deletion, status }).repeats(known) {
                return Ok(());
            }
            return Err(OrMemory::Fault(ReceiveFault::IdTaken));
        }
        if self.len() >= MOST_REQUESTS {
            return Err(OrMemory::Fault(ReceiveFault::Full));
        }
        self.add(deletion)?;
        Ok(())
    }

    /// Cancels a request, which then covers nothing. A repeat changes nothing.
    pub fn cancel(&mut self, id: u64) -> Result<(), CancelFault>
        ensures { MatchResult result (λ _. (cancel_fault self.old id ≡ None) × (self.new ≡ cancelled self.old id)) (λ fault. (cancel_fault self.old id ≡ Some fault) × (self.new ≡ self.old)) }
    {
        let Some(request) = self.request(id) else {
            return Err(CancelFault::NoSuchRequest);
        };
        match request.status {
            RequestStatus::Received => {}
            RequestStatus::Cancelled => return Ok(()),
            RequestStatus::Processed => return Err(CancelFault::AlreadyProcessed),
        }
        self.retire(id, RequestStatus::Cancelled);
        Ok(())
    }

    /// Takes note that what a request covered is removed, once it has waited its time. A repeat changes nothing.
    pub fn process(&mut self, id: u64, now: Ns) -> Result<(), ProcessFault>
        ensures { MatchResult result (λ _. (process_fault self.old id now ≡ None) × (self.new ≡ processed self.old id)) (λ fault. (process_fault self.old id now ≡ Some fault) × (self.new ≡ self.old)) }
    {
        if self.due(id, now)?.is_some() {
            self.retire(id, RequestStatus::Processed);
        }
        Ok(())
    }

    /// The request that a process at the moment would end; none where it was processed before.
    pub fn due(&self, id: u64, now: Ns) -> Result<Option<&ActiveRequest>, ProcessFault>
        ensures { MatchResult result (λ due. (process_fault self.now id now ≡ None) × (option_map (λ active. active.now) due ≡ received_at self.now id)) (λ fault. process_fault self.now id now ≡ Some fault) }
    {
        let Some(request) = self.request(id) else {
            return Err(ProcessFault::NoSuchRequest);
        };
        match request.status {
            RequestStatus::Received => {}
            RequestStatus::Cancelled => return Err(ProcessFault::WasCancelled),
            RequestStatus::Processed => return Ok(None),
        }
        if now.get() < request.deletion.created.get() + self.cancel * SECOND {
            return Err(ProcessFault::TooEarly);
        }
        Ok(self.received(id))
    }

    /// The request with the number, whatever its status.
    pub fn request(&self, id: u64) -> Option<&Request>
        ensures { option_map (λ request. request.now) result ≡ map.get self.now.requests id }
    {
        self.requests.get(&id)
    }

    /// The received request with the number.
    pub fn received(&self, id: u64) -> Option<&ActiveRequest>
        ensures { option_map (λ active. active.now) result ≡ received_at self.now id }
    {
        self.active.get(&id)
    }

    /// Whether a request under the number would be received: no request has it, and there is room for one more.
    pub fn is_new(&self, id: u64) -> bool
        ensures { result ≡ is_new_request self.now id }
    {
        self.len() < MOST_REQUESTS && self.request(id).is_none()
    }

    /// Whether a received request covers the entry, but for the one with the number.
    pub fn covers_beside(&self, id: u64, entry: &Entry) -> Result<bool, AllocError>
        ensures { IfOk result (λ answer. answer ≡ covered_beside self.now id entry.now) }
    {
        self.covers_line_beside(id, &entry.labels, entry.timestamp, entry.line.as_str())
    }

    // Whether one covers a line, but for the one with the number.
    pub(crate) fn covers_line_beside(
        &self,
        id: u64,
        labels: &Labels,
        timestamp: Ns,
        line: &str,
    ) -> Result<bool, AllocError>
        ensures { IfOk result (λ answer. answer ≡ covered_line (without_request self.now id) labels.now timestamp line.now) }
    {
        if self.latest < timestamp.get() {
            return Ok(false);
        }
        for (number, active) in self.active.iter() {
            if *number == id {
                continue;
            }
            if active.covers_line(labels, timestamp, line)? {
                return Ok(true);
            }
        }
        Ok(false)
    }

    // How many requests there are, whatever their status.
    fn len(&self) -> usize
        ensures { result ≡ map.len self.now.requests }
    {
        self.requests.len()
    }

    // Adds a request whose number is new, built.
    fn add(&mut self, deletion: Deletion<Shared<Sieve>>) -> Result<(), AllocError>
        requires { map.get self.old.requests deletion.id ≡ None }
        ensures ok { OnOk result (self.new ≡ with_request self.old deletion.id (asked deletion)) }
        ensures err { OnErr result (self.new ≡ self.old) }
    {
        let id = deletion.id;
        self.latest = self.latest.max(deletion.end.get());
        let active = ActiveRequest::build(self.alloc, &deletion)?;
        self.active.insert(id, active)?;
        let status = RequestStatus::Received;
        match self.requests.insert(id, Request { deletion, status }) {
            Ok(_) => Ok(()),
            Err(refused) => {
                self.active.remove(&id);
                Err(refused.into())
            }
        }
    }

    // Ends a received request.
    fn retire(&mut self, id: u64, status: RequestStatus)
        requires received { IsSome (received_at self.old id) }
        requires ends { is_in_force status ≡ false }
        ensures { self.new ≡ ended status self.old id }
    {
        set_status(&mut self.requests, id, status);
        self.active.remove(&id);
    }
}

impl Covers for Requests {
    ghost use Rattle.std.specs.Prelude.{refl};
    ghost use Rattle.rl_deletes.specs.Deletes.{covered, covered_line};

    ghost covers_line = { covered_line };

    ghost covers = { covered };

    ghost by_parts = { λ _ _. refl };

    fn covers_line(&self, labels: &Labels, timestamp: Ns, line: &str) -> Result<bool, AllocError> {
        if self.active.len() == 0 || self.latest < timestamp.get() {
            return Ok(false);
        }
        for active in self.active.values() {
            if active.covers_line(labels, timestamp, line)? {
                return Ok(true);
            }
        }
        Ok(false)
    }

    fn may_cover(&self, labels: &Labels, from: Ns, to: Ns) -> Result<bool, AllocError> {
        for active in self.active.values() {
            if active.may_cover(labels, from, to)? {
                return Ok(true);
            }
        }
        Ok(false)
    }
}

// Sets the status of the request with the number.
fn set_status(requests: &mut BTreeMap<u64, Request>, id: u64, status: RequestStatus)
    ensures { (q : ℕ) → lookup (is_at (nat_cmp q)) requests.new.entries ≡ cond (is_at (nat_cmp id) q) (option_map (with_status status) (lookup (is_at (nat_cmp id)) requests.old.entries)) (lookup (is_at (nat_cmp q)) requests.old.entries) }
{
    if let Some(request) = requests.get_mut(&id) {
        request.status = status;
    }
}
