//! A delete request.
ghost use Rattle.std.specs.Prelude.{◌≡◌, ◌↔◌, IsTrue};
ghost use Rattle.rl_deletes.specs.Deletes.{is_received, IsRepeat};

use crate::deletion::Deletion;
use rl_plain::{Same, Shared};
use rl_query::Sieve;

/// The status of a request.
#[derive(Clone, Copy, Debug, PartialEq, Eq)]
pub enum RequestStatus {
    /// What it covers is hidden.
    Received,
    /// It covers nothing any more.
    Cancelled,
    /// What it covered is removed, and it covers nothing any more.
    Processed,
}

/// A request to delete entries.
#[derive(Drop)]
pub struct Request {
    pub deletion: Deletion<Shared<Sieve>>,
    pub status: RequestStatus,
}

impl Request {
    /// Whether it was neither cancelled nor processed.
    pub fn is_received(&self) -> bool
        ensures { result ≡ is_received self.now }
    {
        match self.status {
            RequestStatus::Received => true,
            RequestStatus::Cancelled => false,
            RequestStatus::Processed => false,
        }
    }

    // Whether the known request is received and covers what this one asks for.
    pub(crate) fn repeats(&self, known: &Request) -> bool
        ensures { IsTrue result ↔ IsRepeat self.now known.now }
    {
        let (own, other) = (&self.deletion, &known.deletion);
        known.is_received()
            && other.selector.is_same(&own.selector)
            && other.start == own.start
            && other.end == own.end
    }
}
