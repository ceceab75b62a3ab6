//! Which places are claimed.
ghost use Rattle.std.specs.Prelude.{◌≡◌, ◌++◌, ◌∷◌, [], List, map, length, true, false, IsTrue, Some, IfOk, IfSome, IfNone, ◌<◌, ◌≤◌, ◌+◌, ◌^◌, not, replicate, slice_get, slice_index_or};
ghost use Rattle.std.specs.List.{position};
ghost use Rattle.rl_audit.specs.Claims.{item_at, Place};
ghost use Rattle.rl_audit.specs.Flagged.{StandFor};

use rl_plain::PlainList;
use std::alloc::{AllocError, Global};

/// Flags of the places of columns. Callers claim places one after the other: each place once, and in each column in rising order.
#[derive(Drop)]
pub(crate) struct Flags {
    /// Of each column, whether each of its places is claimed.
    pub(crate) flags: Vec<PlainList<bool>>,
    /// Of each column, the first index that the caller may claim.
    pub(crate) nexts: PlainList<usize>,
    ghost each: { length nexts ≡ length flags.items },
}

impl Flags {
    /// No place is claimed, of columns of these sizes.
    pub(crate) fn new(alloc: Global, sizes: &[usize]) -> Result<Self, AllocError>
        ensures sizes { IfOk result (λ made. map length made.flags.items ≡ sizes.now) }
        ensures fresh { IfOk result (λ made. StandFor made.flags.items made.nexts [] []) }
    {
        let mut flags = Vec::with_capacity(alloc, sizes.len())?;
        for size in sizes {
            flags.push(unset(alloc, *size)?)?;
        }
        let nexts = no_nexts(alloc, sizes.len())?;
        Ok(Flags { flags, nexts })
    }

    /// Claims a place, unless it is claimed, or before one that the caller has claimed in its column, or there is no such place.
    pub(crate) fn claim(&mut self, column: usize, place: usize) -> bool
        ensures sizes { map length self.new.flags.items ≡ map length self.old.flags.items }
        ensures claimed { IsTrue result → (before own : List Place) → StandFor self.old.flags.items self.old.nexts before own → StandFor self.new.flags.items self.new.nexts before (own ++ (column, place) ∷ []) }
        ensures refused { result ≡ false → self.new ≡ self.old }
    {
        if !self.is_free(column, place) {
            return false;
        }
        self.flags[column].set(place, true);
        self.nexts.set(column, place + 1);
        true
    }

    // Whether a place may be claimed now.
    fn is_free(&self, column: usize, place: usize) -> bool
        ensures flagged { IsTrue result → item_at self.now.flags.items (column, place) ≡ Some false }
        ensures next { IsTrue result → (column < length self.now.nexts) × (slice_index_or self.now.nexts column 0 ≤ place) }
        ensures column { IsTrue result → column < length self.now.flags.items }
        ensures fits { IsTrue result → place + 1 < 2 ^ 64 }
    {
        let Some(flags) = self.flags.get(column) else {
            return false;
        };
        let Some(flag) = flags.as_slice().get(place) else {
            return false;
        };
        !*flag && self.nexts.as_slice()[column] <= place
    }

    /// Another caller claims places from now on.
    pub(crate) fn next_caller(&mut self)
        ensures sizes { map length self.new.flags.items ≡ map length self.old.flags.items }
        ensures begun { (before own : List Place) → StandFor self.old.flags.items self.old.nexts before own → StandFor self.new.flags.items self.new.nexts (before ++ own) [] }
    {
        for column in 0..self.flags.len() {
            self.nexts.set(column, 0);
        }
    }

    /// The first place that is not claimed, if there is one.
    pub(crate) fn unclaimed(&self) -> Option<(usize, usize)>
        ensures all { IfNone result ((place : Place) → IfSome (item_at self.now.flags.items place) (λ flag. flag ≡ true)) }
        ensures one { IfSome result (λ place. item_at self.now.flags.items place ≡ Some false) }
    {
        for (column, flags) in self.flags.iter().enumerate() {
            if let Some(place) = first_unset(flags.as_slice()) {
                return Some((column, place));
            }
        }
        None
    }
}

// Places of a column, none of them claimed.
fn unset(alloc: Global, places: usize) -> Result<PlainList<bool>, AllocError>
    ensures { IfOk result (λ flags. flags ≡ replicate places false) }
{
    let mut flags = Vec::with_capacity(alloc, places)?;
    for _ in 0..places {
        flags.push_reserved(false);
    }
    Ok(PlainList::from_vec(flags))
}

// Of each column the first index.
fn no_nexts(alloc: Global, columns: usize) -> Result<PlainList<usize>, AllocError>
    ensures { IfOk result (λ nexts. nexts ≡ replicate columns 0) }
{
    let mut nexts = Vec::with_capacity(alloc, columns)?;
    for _ in 0..columns {
        nexts.push_reserved(0);
    }
    Ok(PlainList::from_vec(nexts))
}

// The index of the first place that is not claimed.
fn first_unset(flags: &[bool]) -> Option<usize>
    ensures { result ≡ position not flags.now }
{
    flags.iter().position(|flag| !*flag)
}
