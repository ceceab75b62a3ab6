//! Lines by stamp.
ghost use Rattle.std.specs.Prelude.{◌≡◌, ◌+◌, ◌<◌, ◌≤◌, ◌^◌, nat_le, ◌&&◌, ◌-◌, OnOk, OnErr, Some, if◌then◌else◌};
ghost use Rattle.std.specs.BTreeMap as tree;
ghost use Rattle.std.specs.BTreeMap.{is_at};
ghost use Rattle.std.specs.FinMap as map;
ghost use Rattle.std.specs.List.{filter};
ghost use Rattle.std.specs.Option.{unwrap_or};
ghost use Rattle.rl_aggregate.specs.Partials.{most_entries, VolumeFits};
ghost use Rattle.rl_aggregate.specs.TotalsMap.{added, if_any, minus, no_total, plus, taken, total_at};
ghost use Rattle.rl_windows.specs.Buckets.{may_go, stamp_cmp};
ghost use Rattle.rl_windows.specs.Windows.{count_of, is_between, moments, IsSumOf};
ghost use Rattle.rl_windows.specs.declared.element.Stamp.{Stamp};

use crate::element::Stamp;
use crate::found::Found;
use crate::spans;
use rl_aggregate::Volume;
use rl_labels::Ns;
use rl_labels::entry::MAX_LINE_LEN;
use std::alloc::{AllocError, Global};
use std::collections::BTreeMap;
use std::marker::Model;

// No lines.
const NOTHING: Volume = Volume { count: 0, bytes: 0 };

// How many lines there are at each stamp, and their bytes. Contracts see a finite map.
#[derive(Drop)]
pub(crate) struct Buckets {
    by_stamp: BTreeMap<Stamp, Volume>,
}

impl Model for Buckets {
    ghost use Rattle.rl_windows.specs.Buckets.{buckets_in, BucketsMap, buckets_code};

    ghost Value = { BucketsMap };

    ghost coded = { buckets_code };

    ghost view = { λ a. buckets_in a.by_stamp.entries };
}

impl Buckets {
    // No buckets.
    pub(crate) fn new(alloc: Global) -> Self
        ensures { result ≡ map.empty }
    {
        Buckets {
            by_stamp: BTreeMap::new(alloc),
        }
    }

    // Adds lines at a stamp. Takes memory for one that is new; refused, the buckets stay as they were.
    pub(crate) fn add(&mut self, stamp: Stamp, volume: Volume) -> Result<(), AllocError>
        requires { VolumeFits (plus (total_at self.old stamp) volume) }
        ensures ok { OnOk result (self.new ≡ added self.old stamp volume) }
        ensures err { OnErr result (self.new ≡ self.old) }
    {
        add_at(&mut self.by_stamp, stamp, volume)
    }

    // Takes lines out at a stamp, if they can be there, and says whether they can. The bucket goes where no line is left.
    pub(crate) fn take_out(&mut self, stamp: &Stamp, volume: Volume) -> bool
        ensures there { result ≡ may_go (map.get self.old stamp.now) volume }
        ensures left { self.new ≡ (if may_go (map.get self.old stamp.now) volume then taken self.old stamp.now volume else self.old) }
    {
        take_at(&mut self.by_stamp, stamp, volume)
    }

    // Adds the lines that come due after one moment and by another to what was found. Refused, that stays as it was.
    pub(crate) fn enter(&self, found: &mut Found, from: Ns, to: Ns) -> Result<(), AllocError>
        requires later { from ≤ to }
        requires few { count_of self.now ≤ most_entries }
        requires sum { IsSumOf from self.now found.old }
        ensures sum { OnOk result (IsSumOf to self.now found.new) }
        ensures err { OnErr result (found.new ≡ found.old) }
    {
        spans::enter(&self.by_stamp, found, from.get(), to.get())
    }

    // Takes all lines before a timestamp out, of what was found too, and says how many went. Takes no memory.
    pub(crate) fn leave(&mut self, found: &mut Found, high: u64, moment: Ns) -> u64
        requires due { high ≤ moment + 1 }
        requires few { count_of self.old ≤ most_entries }
        requires sum { IsSumOf moment self.old found.old }
        ensures left { map.entries self.new ≡ filter (λ line. nat_le high line.0.timestamp) (map.entries self.old) }
        ensures sum { IsSumOf moment self.new found.new }
        ensures count { result + count_of self.new ≡ count_of self.old }
    {
        spans::leave(&mut self.by_stamp, found, high, moment.get())
    }

    // How many different timestamps there are from one up to another, which is past them.
    pub(crate) fn moments(&self, low: u64, high: u64) -> u64
        requires { low ≤ high }
        ensures moments { result ≡ moments (filter (λ line. is_between low high line.0) (map.entries self.now)) }
        ensures bound { result < 2 ^ 63 }
    {
        spans::moments(&self.by_stamp, low, high)
    }
}

// Adds lines at a stamp, which is sought once.
fn add_at(
    by_stamp: &mut BTreeMap<Stamp, Volume>,
    stamp: Stamp,
    volume: Volume,
) -> Result<(), AllocError>
    requires { VolumeFits (plus (unwrap_or (tree.get stamp_cmp by_stamp.old stamp) no_total) volume) }
    ensures ok { OnOk result ((q : Stamp) → tree.get stamp_cmp by_stamp.new q ≡ (if is_at (stamp_cmp stamp) q then Some (plus (unwrap_or (tree.get stamp_cmp by_stamp.old stamp) no_total) volume) else tree.get stamp_cmp by_stamp.old q)) }
    ensures err { OnErr result (by_stamp.new.entries ≡ by_stamp.old.entries) }
{
    let there = by_stamp.entry(stamp)?.or_insert(NOTHING);
    there.count += volume.count;
    there.bytes += volume.bytes;
    Ok(())
}

// Takes lines out at a stamp, if they can be there.
fn take_at(by_stamp: &mut BTreeMap<Stamp, Volume>, stamp: &Stamp, volume: Volume) -> bool
    ensures there { result ≡ may_go (tree.get stamp_cmp by_stamp.old stamp.now) volume }
    ensures left { (q : Stamp) → tree.get stamp_cmp by_stamp.new q ≡ (if result && is_at (stamp_cmp stamp.now) q then if_any (minus (unwrap_or (tree.get stamp_cmp by_stamp.old stamp.now) no_total) volume) else tree.get stamp_cmp by_stamp.old q) }
{
    let Some(there) = by_stamp.get_mut(stamp) else {
        return false;
    };
    if !may_go(*there, volume) {
        return false;
    }
    there.count -= volume.count;
    there.bytes -= volume.bytes;
    if there.count == 0 {
        by_stamp.remove(stamp);
    }
    true
}

// Whether lines can be among those that are there.
fn may_go(there: Volume, volume: Volume) -> bool
    ensures { result ≡ may_go (Some there) volume }
{
    if volume.count == 0 || there.count < volume.count || there.bytes < volume.bytes {
        return false;
    }
    let longest = (there.count - volume.count).saturating_mul(MAX_LINE_LEN as u64);
    there.bytes - volume.bytes <= longest
}
