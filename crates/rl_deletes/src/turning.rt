//! Entries that a step hides or shows.

use crate::active::ActiveRequest;
use crate::horizon::Horizon;
use crate::requests::Requests;
use rl_labels::{Covers, Labels, Ns};
use std::alloc::AllocError;

/// What a request covers that no other received one covers. It has the number among the requests, or none has it.
#[derive(Drop)]
pub struct HiddenAlone<'a> {
    pub own: &'a ActiveRequest,
    pub number: u64,
    pub requests: &'a Requests,
}

/// What is below a horizon and no received request covers.
#[derive(Drop)]
pub struct NewlyExpired<'a> {
    pub horizon: Horizon,
    pub requests: &'a Requests,
}

impl<'a> Covers for HiddenAlone<'a> {
    ghost use Rattle.std.specs.Prelude.{not, ◌&&◌, refl};
    ghost use Rattle.rl_deletes.specs.Deletes.{covered_line, covers_line, hidden_alone, without_request};

    ghost covers_line = { λ it labels timestamp line. covers_line it.own.now labels timestamp line && not (covered_line (without_request it.requests.now it.number) labels timestamp line) };

    ghost covers = { λ it. hidden_alone it.requests.now it.number it.own.now };

    ghost by_parts = { λ _ _. refl };

    fn covers_line(&self, labels: &Labels, timestamp: Ns, line: &str) -> Result<bool, AllocError> {
        if !self.own.covers_line(labels, timestamp, line)? {
            return Ok(false);
        }
        let is_covered = self
            .requests
            .covers_line_beside(self.number, labels, timestamp, line)?;
        Ok(!is_covered)
    }

    fn may_cover(&self, labels: &Labels, from: Ns, to: Ns) -> Result<bool, AllocError> {
        self.own.may_cover(labels, from, to)
    }
}

impl<'a> Covers for NewlyExpired<'a> {
    ghost use Rattle.std.specs.Prelude.{not, ◌&&◌, nat_lt, refl};
    ghost use Rattle.rl_deletes.specs.Deletes.{covered_line};
    ghost use Rattle.rl_deletes.specs.Horizons.{newly_expired};

    ghost covers_line = { λ it labels timestamp line. nat_lt timestamp it.horizon && not (covered_line it.requests.now labels timestamp line) };

    ghost covers = { λ it. newly_expired it.requests.now it.horizon };

    ghost by_parts = { λ _ _. refl };

    fn covers_line(&self, labels: &Labels, timestamp: Ns, line: &str) -> Result<bool, AllocError> {
        if !self.horizon.covers_line(labels, timestamp, line)? {
            return Ok(false);
        }
        let is_covered = self.requests.covers_line(labels, timestamp, line)?;
        Ok(!is_covered)
    }

    fn may_cover(&self, labels: &Labels, from: Ns, to: Ns) -> Result<bool, AllocError> {
        self.horizon.may_cover(labels, from, to)
    }
}
