//! A received request with its built sieve, which decides what it covers.
ghost use Rattle.std.specs.Prelude.{◌≡◌, IfOk};
ghost use Rattle.rl_deletes.specs.Deletes.{asked};

use crate::deletion::Deletion;
use rl_labels::{Covers, Labels, Ns};
use rl_pipeline::SieveCode;
use rl_plain::Shared;
use rl_query::Sieve;
use std::alloc::{AllocError, Global};
use std::marker::Model;

/// A received request, built. Contracts see the request.
#[derive(Drop)]
pub struct ActiveRequest {
    deletion: Deletion<SieveCode>,
}

impl Model for ActiveRequest {
    ghost use Rattle.rl_deletes.specs.declared.request.Request.{Request};
    ghost use Rattle.rl_deletes.specs.Deletes.{asked};

    ghost Value = { Request };

    ghost view = { λ a. asked a.deletion };
}

impl ActiveRequest {
    /// The request for a deletion built, as it is received. A pattern that no longer builds is answered as lack of memory.
    pub fn build(
        alloc: Global,
        deletion: &Deletion<Shared<Sieve>>,
    ) -> Result<ActiveRequest, AllocError>
        ensures { IfOk result (λ active. active ≡ asked deletion.now) }
    {
        let Ok(selector) = SieveCode::build(alloc, deletion.selector.get()) else {
            return Err(AllocError);
        };
        Ok(ActiveRequest {
            deletion: deletion.with_selector(selector),
        })
    }
}

impl Covers for ActiveRequest {
    ghost use Rattle.std.specs.Prelude.{refl};
    ghost use Rattle.rl_deletes.specs.Deletes.{covers_line, covers_one};

    ghost covers_line = { covers_line };

    ghost covers = { covers_one };

    ghost by_parts = { λ _ _. refl };

    // The time is asked first, then the stream, then the line.
    fn covers_line(&self, labels: &Labels, timestamp: Ns, line: &str) -> Result<bool, AllocError> {
        let asked = &self.deletion;
        if timestamp < asked.start || asked.end < timestamp {
            return Ok(false);
        }
        asked.selector.selects(labels, line)
    }

    fn may_cover(&self, labels: &Labels, from: Ns, to: Ns) -> Result<bool, AllocError> {
        let asked = &self.deletion;
        if to < asked.start || asked.end < from {
            return Ok(false);
        }
        asked.selector.selects_stream(labels)
    }
}
