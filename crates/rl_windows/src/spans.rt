//! Lines that come due, and lines that leave: spans of a tree of lines by stamp.
ghost use Rattle.std.specs.Prelude.{◌≡◌, ◌+◌, ◌<◌, ◌≤◌, ◌^◌, nat_le, ◌∷◌, None, IfNone, IfSome, OnErr, OnOk};
ghost use Rattle.std.specs.BTreeMap.{IsOrdered};
ghost use Rattle.std.specs.FinMap.{entries};
ghost use Rattle.std.specs.declared.ops.Bound.TheVariants.{Excluded, Included};
ghost use Rattle.std.specs.List.{filter, AllByRecursion};
ghost use Rattle.rl_aggregate.specs.Partials.{most_entries};
ghost use Rattle.rl_windows.specs.Buckets.{buckets_in, stamp_cmp, AreShort};
ghost use Rattle.rl_windows.specs.Windows.{count_of, is_between, is_due, moments, partial_in, one_if_new, HaveEntered, IsSumOf};

use crate::element::Stamp;
use crate::found::Found;
use rl_aggregate::Volume;
use std::alloc::AllocError;
use std::collections::BTreeMap;
use std::ops::Bound;

// The bounds of all stamps from one timestamp up to another, which is past them.
fn bounds(low: u64, high: u64) -> (Bound<Stamp>, Bound<Stamp>)
    ensures { result ≡ (Included (record { timestamp = low; labels = None }), Excluded (record { timestamp = high; labels = None })) }
{
    let first = Stamp {
        timestamp: low,
        labels: None,
    };
    let end = Stamp {
        timestamp: high,
        labels: None,
    };
    (Bound::Included(first), Bound::Excluded(end))
}

// Adds the lines that come due after one moment and by another. Refused, what was found stays as it was.
pub(crate) fn enter(
    by_stamp: &BTreeMap<Stamp, Volume>,
    found: &mut Found,
    from: u64,
    to: u64,
) -> Result<(), AllocError>
    requires later { from ≤ to }
    requires bound { to < 2 ^ 63 }
    requires few { count_of (buckets_in by_stamp.now.entries) ≤ most_entries }
    requires sum { IsSumOf from (buckets_in by_stamp.now.entries) found.old }
    ensures sum { OnOk result (IsSumOf to (buckets_in by_stamp.now.entries) found.new) }
    ensures err { OnErr result (found.new ≡ found.old) }
{
    let span = bounds(from + 1, to + 1);
    let mut entered = 0;
    for (stamp, volume) in by_stamp.range(span) {
        if found.add(&stamp.labels, *volume).is_err() {
            take_back(by_stamp, found, from, to, entered);
            return Err(AllocError);
        }
        entered += 1;
    }
    Ok(())
}

// Takes the first lines out that came due after one moment and by another.
fn take_back(
    by_stamp: &BTreeMap<Stamp, Volume>,
    found: &mut Found,
    from: u64,
    to: u64,
    entered: usize,
)
    requires later { from ≤ to }
    requires bound { to < 2 ^ 63 }
    requires short { AreShort by_stamp.now.entries }
    requires sum { HaveEntered entered (filter (λ line. is_between (from + 1) (to + 1) line.0) by_stamp.now.entries) (filter (λ line. is_due from line.0) by_stamp.now.entries) found.old }
    ensures { found.new ≡ partial_in (is_due from) by_stamp.now.entries }
{
    let span = bounds(from + 1, to + 1);
    let mut left = entered;
    for (stamp, volume) in by_stamp.range(span) {
        if left == 0 {
            return;
        }
        found.take_out(&stamp.labels, *volume);
        left -= 1;
    }
}

// How many different timestamps there are from one up to another, which is past them.
pub(crate) fn moments(by_stamp: &BTreeMap<Stamp, Volume>, low: u64, high: u64) -> u64
    requires { low ≤ high }
    ensures moments { result ≡ moments (filter (λ line. is_between low high line.0) (entries (buckets_in by_stamp.now.entries))) }
    ensures bound { result < 2 ^ 63 }
{
    let span = bounds(low, high);
    let mut count = 0;
    let mut last = None;
    for (stamp, _) in by_stamp.range(span) {
        count += one_if_new(last, stamp.timestamp);
        last = Some(stamp.timestamp);
    }
    count
}

// 1 for a timestamp that is not the last, else 0.
fn one_if_new(last: Option<u64>, timestamp: u64) -> u64
    ensures { result ≡ one_if_new last timestamp }
{
    match last {
        Some(last) if last == timestamp => 0,
        _ => 1,
    }
}

// Takes all lines before a timestamp out, of what was found too, and says how many went. Takes no memory.
pub(crate) fn leave(
    by_stamp: &mut BTreeMap<Stamp, Volume>,
    found: &mut Found,
    high: u64,
    moment: u64,
) -> u64
    requires due { high ≤ moment + 1 }
    requires few { count_of (buckets_in by_stamp.old.entries) ≤ most_entries }
    requires sum { IsSumOf moment (buckets_in by_stamp.old.entries) found.old }
    ensures left { entries (buckets_in by_stamp.new.entries) ≡ filter (λ line. nat_le high line.0.timestamp) (entries (buckets_in by_stamp.old.entries)) }
    ensures sum { IsSumOf moment (buckets_in by_stamp.new.entries) found.new }
    ensures count { result + count_of (buckets_in by_stamp.new.entries) ≡ count_of (buckets_in by_stamp.old.entries) }
{
    let mut gone = 0;
    while let Some((stamp, volume)) = pop_before(by_stamp, high) {
        found.take_out(&stamp.labels, volume);
        gone += volume.count;
    }
    gone
}

// Removes the first lines, if they were written before a timestamp.
fn pop_before(by_stamp: &mut BTreeMap<Stamp, Volume>, high: u64) -> Option<(Stamp, Volume)>
    ensures first { IfSome result (λ line. by_stamp.old.entries ≡ line ∷ by_stamp.new.entries) }
    ensures before { IfSome result (λ line. line.0.timestamp < high) }
    ensures none { IfNone result (by_stamp.new.entries ≡ by_stamp.old.entries) }
    ensures rest { IfNone result (AllByRecursion (λ line. high ≤ line.0.timestamp) by_stamp.old.entries) }
    ensures ordered { IsOrdered stamp_cmp by_stamp.old }
{
    let first = by_stamp.keys().next()?;
    if high <= first.timestamp {
        return None;
    }
    by_stamp.pop_first()
}
