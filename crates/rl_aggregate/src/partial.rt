//! What the lines of a range add up to, on one shard or on several.
ghost use Rattle.std.specs.Prelude.{◌≡◌, IfOk, IsOk, OnErr, OnOk, if◌then◌else◌};
ghost use Rattle.std.specs.Bool.{Decides};
ghost use Rattle.std.specs.FinMap as map;
ghost use Rattle.rl_aggregate.specs.Limited.{IsLimited};
ghost use Rattle.rl_aggregate.specs.TotalsMap.{HasAll};
ghost use Rattle.rl_aggregate.specs.Partials.{merge, Fits, IsOfBoth};
ghost use Rattle.rl_aggregate.specs.Runs.{has_at_least, with_run, with_volume, without_volume, IsOneLess, IsOneMore};

use crate::run::Run;
use crate::totals::Totals;
use crate::volume::Volume;
use rl_labels::Labels;
use rl_plain::{Same, TryCopy};
use std::alloc::{AllocError, Global};

/// What the lines of a term's range add up to.
#[derive(Drop)]
pub struct Partial {
    /// How many lines have an error.
    pub errors: u64,
    /// The totals of the others, by label set.
    pub totals: Totals,
}

impl Partial {
    /// What no line adds up to.
    pub fn empty(alloc: Global) -> Self
        ensures { result ≡ record { errors = 0; totals = map.empty } }
    {
        Partial {
            errors: 0,
            totals: Totals::new(alloc),
        }
    }

    /// Whether it is within the limits of one term: at most 2^30 lines and 2^30 label sets, and less than 2^46 bytes.
    pub fn is_limited(&self) -> bool
        ensures { Decides result (IsLimited self.now) }
    {
        let sum = self.totals.sum();
        self.totals.len() <= 1 << 30 && sum.count <= 1 << 30 && sum.bytes < 1 << 46
    }

    /// Adds lines of a label set, or lines with an error. Takes memory for a label set that is new alone; refused, the partial
    /// stays as it was.
    pub fn add(&mut self, labels: &Option<Labels>, volume: Volume) -> Result<(), AllocError>
        requires { Fits (with_volume labels.now volume self.old) }
        ensures ok { OnOk result (self.new ≡ with_volume labels.now volume self.old) }
        ensures err { OnErr result (self.new ≡ self.old) }
        ensures known { HasAll self.old.totals (with_volume labels.now volume self.old).totals → IsOk result }
        ensures one_more { OnOk result (IsOneMore (record { labels = labels.now; volume = volume }) self.old self.new) }
    {
        let Some(own) = labels else {
            self.errors += volume.count;
            return Ok(());
        };
        self.totals.add(own, volume)
    }

    // Like `add`, with a run that is owned.
    pub(crate) fn add_owned(&mut self, run: Run) -> Result<(), AllocError>
        requires { Fits (with_run run self.old) }
        ensures ok { OnOk result (self.new ≡ with_run run self.old) }
        ensures err { OnErr result (self.new ≡ self.old) }
    {
        let Run {
            labels,
            volume: lines,
        } = run;
        let Some(labels) = labels else {
            self.errors += lines.count;
            return Ok(());
        };
        self.totals.add_owned(labels, lines)
    }

    /// Takes lines of a label set out, or lines with an error, if the partial has at least that, and says whether it has; else
    /// nothing changes. Takes no memory.
    pub fn take_out(&mut self, labels: &Option<Labels>, volume: Volume) -> bool
        ensures there { result ≡ has_at_least labels.now volume self.old }
        ensures left { self.new ≡ (if has_at_least labels.now volume self.old then without_volume labels.now volume self.old else self.old) }
        ensures one_less { IsOneLess (record { labels = labels.now; volume = volume }) self.old self.new }
    {
        let Some(own) = labels else {
            if self.errors < volume.count {
                return false;
            }
            self.errors -= volume.count;
            return true;
        };
        self.totals.take_out(own, volume)
    }
}

/// What two partials of one term add up to together. Takes memory for label sets that are new to the first alone; where it
/// runs out, the first is gone.
pub fn merge(a: Partial, b: &Partial) -> Result<Partial, AllocError>
    requires { Fits (merge a b.now) }
    ensures merged { IfOk result (λ both. both ≡ merge a b.now) }
    ensures known { HasAll a.totals b.now.totals → IsOk result }
    ensures of_both { IfOk result (IsOfBoth a b.now) }
{
    let mut both = a;
    both.totals.add_all(&b.totals)?;
    both.errors += b.errors;
    Ok(both)
}

impl TryCopy for Partial {
    fn try_copy(&self) -> Result<Self, AllocError> {
        let totals = self.totals.try_copy()?;
        Ok(Partial {
            errors: self.errors,
            totals,
        })
    }
}

impl Same for Partial {
    fn is_same(&self, other: &Self) -> bool {
        self.errors == other.errors && self.totals.is_same(&other.totals)
    }
}
