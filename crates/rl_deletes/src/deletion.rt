//! What a delete request asks for.
ghost use Rattle.std.specs.Prelude.{◌≡◌};
ghost use Rattle.rl_deletes.specs.Deletes.{with_selector};

use rl_labels::{Ns, TimeRange};
use rl_plain::{Same, TryCopy};
use std::alloc::AllocError;

/// What is to be deleted under a number, and when that was asked for: what the selector with its line filters selects from the
/// start to the end, both included (Loki's log deletion). The selector is a text in a command, and a sieve in a request.
#[derive(Clone, Copy, Drop)]
pub struct Deletion<S> {
    pub id: u64,
    pub selector: S,
    pub start: Ns,
    pub end: Ns,
    pub created: Ns,
}

impl<S> Deletion<S> {
    /// The range of time, in nanoseconds.
    pub fn range(&self) -> TimeRange
        ensures { result ≡ record { from = self.now.start; to = self.now.end } }
    {
        TimeRange {
            from: self.start,
            to: self.end,
        }
    }

    /// The deletion of what something else selects.
    pub fn with_selector<T>(&self, selector: T) -> Deletion<T>
        ensures { result ≡ with_selector selector self.now }
    {
        Deletion {
            id: self.id,
            selector,
            start: self.start,
            end: self.end,
            created: self.created,
        }
    }
}

impl<S: TryCopy> TryCopy for Deletion<S> {
    fn try_copy(&self) -> Result<Self, AllocError> {
        let selector = self.selector.try_copy()?;
        Ok(self.with_selector(selector))
    }
}

impl<S: Same> Same for Deletion<S> {
    fn is_same(&self, other: &Self) -> bool {
        self.id == other.id
            && self.start.is_same(&other.start)
            && self.end.is_same(&other.end)
            && self.created.is_same(&other.created)
            && self.selector.is_same(&other.selector)
    }
}
