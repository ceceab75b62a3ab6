//! Totals by label set.
ghost use Rattle.std.specs.Prelude.{◌≡◌, ◌==◌, ◌&&◌, ◌-◌, ◌^◌, min, IfOk, IsOk, IsSome, OnOk, OnErr, IsTrue, Some, if◌then◌else◌};
ghost use Rattle.std.specs.BTreeMap as tree;
ghost use Rattle.std.specs.BTreeMap.{is_at};
ghost use Rattle.std.specs.FinMap as map;
ghost use Rattle.std.specs.Option.{unwrap_or};
ghost use Rattle.rl_aggregate.specs.TotalsMap.{added, has_volume, if_any, minus, no_total, plus, taken, total_at, HasAll};
ghost use Rattle.rl_aggregate.specs.Partials.{VolumeFits, both_totals};
ghost use Rattle.rl_aggregate.specs.Evaluated.{samples};
ghost use Rattle.rl_aggregate.specs.Limited.{sum_of};
ghost use Rattle.rl_labels.specs.LabelSet.{LabelSet};
ghost use Rattle.rl_labels.specs.LabelText.{label_set_cmp};

use crate::outcome::{Fraction, Sample};
use crate::volume::Volume;
use rl_labels::Labels;
use rl_plain::{Same, TryCopy};
use rl_query::Term;
use std::alloc::{AllocError, Global};
use std::collections::BTreeMap;
use std::collections::btree_map::Iter;
use std::marker::Model;

// What nothing adds up to.
const NOTHING: Volume = Volume { count: 0, bytes: 0 };

/// Totals by label set. Contracts see a finite map.
#[derive(Drop)]
pub struct Totals {
    by_labels: BTreeMap<Labels, Volume>,
}

impl Model for Totals {
    ghost use Rattle.rl_aggregate.specs.TotalsMap.{TotalsMap, totals_code};
    ghost use Rattle.std.specs.FinMap as map;

    ghost Value = { TotalsMap };

    ghost coded = { totals_code };

    ghost view = { λ a. map.from_entries a.by_labels.entries };
}

impl Totals {
    /// No totals.
    pub fn new(alloc: Global) -> Self
        ensures { result ≡ map.empty }
    {
        Totals {
            by_labels: BTreeMap::new(alloc),
        }
    }

    /// How many label sets there are.
    pub fn len(&self) -> usize
        ensures { result ≡ map.len self.now }
    {
        self.by_labels.len()
    }

    pub fn is_empty(&self) -> bool
        ensures { result ≡ (map.len self.now == 0) }
    {
        self.len() == 0
    }

    /// The total of a label set, if there is one.
    pub fn get(&self, labels: &Labels) -> Option<Volume>
        ensures { result ≡ map.get self.now labels.now }
    {
        self.by_labels.get(labels).copied()
    }

    /// The label sets with their totals, in their order.
    pub fn iter(&self) -> Iter<'_, Labels, Volume>
        ensures { result ≡ map.entries self.now }
    {
        self.by_labels.iter()
    }

    /// Adds a total at a label set. Takes memory for a label set that is new alone; refused, the totals stay as they were.
    pub fn add(&mut self, labels: &Labels, total: Volume) -> Result<(), AllocError>
        requires { VolumeFits (plus (total_at self.old labels.now) total) }
        ensures ok { OnOk result (self.new ≡ added self.old labels.now total) }
        ensures err { OnErr result (self.new ≡ self.old) }
        ensures known { IsTrue (map.contains_key self.old labels.now) → IsOk result }
    {
        add_shared(&mut self.by_labels, labels, total)
    }

    // Like `add`, with a label set that is owned.
    pub(crate) fn add_owned(&mut self, labels: Labels, total: Volume) -> Result<(), AllocError>
        requires { VolumeFits (plus (total_at self.old labels) total) }
        ensures ok { OnOk result (self.new ≡ added self.old labels total) }
        ensures err { OnErr result (self.new ≡ self.old) }
    {
        add_at(&mut self.by_labels, labels, total)
    }

    // Takes a total out at a label set, if at least that stands there, and says whether it does. The label set goes where no
    // line is left.
    pub(crate) fn take_out(&mut self, labels: &Labels, total: Volume) -> bool
        ensures there { result ≡ has_volume (map.get self.old labels.now) total }
        ensures left { self.new ≡ (if has_volume (map.get self.old labels.now) total then taken self.old labels.now total else self.old) }
    {
        take_at(&mut self.by_labels, labels, total)
    }

    // Adds each total of the others at its label set.
    pub(crate) fn add_all(&mut self, others: &Totals) -> Result<(), AllocError>
        requires { (labels : LabelSet) → VolumeFits (plus (total_at self.old labels) (total_at others.now labels)) }
        ensures ok { OnOk result (self.new ≡ both_totals self.old others.now) }
        ensures known { HasAll self.old others.now → IsOk result }
    {
        for (labels, total) in others.by_labels.iter() {
            self.add(labels, *total)?;
        }
        Ok(())
    }

    // The sum of all totals, as far as 64 bits hold it.
    pub(crate) fn sum(&self) -> Volume
        ensures count { result.count ≡ min (sum_of (λ total. total.count) self.now) (2 ^ 64 - 1) }
        ensures bytes { result.bytes ≡ min (sum_of (λ total. total.bytes) self.now) (2 ^ 64 - 1) }
    {
        let mut count = 0u64;
        let mut bytes = 0u64;
        for (_, total) in self.by_labels.iter() {
            count = count.saturating_add(total.count);
            bytes = bytes.saturating_add(total.bytes);
        }
        Volume { count, bytes }
    }

    // A sample for each label set, in their order.
    pub(crate) fn samples(&self, alloc: Global, term: &Term) -> Result<Vec<Sample>, AllocError>
        ensures { IfOk result (λ made. made.items ≡ samples term.now self.now) }
    {
        let mut samples = Vec::with_capacity(alloc, self.len())?;
        for (labels, total) in self.by_labels.iter() {
            let labels = labels.try_copy()?;
            let value = Fraction::of(term.function, term.range.seconds, *total);
            samples.push(Sample { labels, value })?;
        }
        Ok(samples)
    }
}

// Adds a total at a label set, by a copy that shares it. Where none can be made, it is added if the label set is there.
fn add_shared(
    by_labels: &mut BTreeMap<Labels, Volume>,
    labels: &Labels,
    total: Volume,
) -> Result<(), AllocError>
    requires { VolumeFits (plus (unwrap_or (tree.get label_set_cmp by_labels.old labels.now) no_total) total) }
    ensures ok { OnOk result ((q : LabelSet) → tree.get label_set_cmp by_labels.new q ≡ (if is_at (label_set_cmp labels.now) q then Some (plus (unwrap_or (tree.get label_set_cmp by_labels.old labels.now) no_total) total) else tree.get label_set_cmp by_labels.old q)) }
    ensures err { OnErr result (by_labels.new.entries ≡ by_labels.old.entries) }
    ensures known { IsSome (tree.get label_set_cmp by_labels.old labels.now) → IsOk result }
{
    match labels.try_copy() {
        Ok(copy) => add_at(by_labels, copy, total),
        Err(_) => add_known(by_labels, labels, total),
    }
}

// Adds a total at a label set, which is sought once.
fn add_at(
    by_labels: &mut BTreeMap<Labels, Volume>,
    labels: Labels,
    total: Volume,
) -> Result<(), AllocError>
    requires { VolumeFits (plus (unwrap_or (tree.get label_set_cmp by_labels.old labels) no_total) total) }
    ensures ok { OnOk result ((q : LabelSet) → tree.get label_set_cmp by_labels.new q ≡ (if is_at (label_set_cmp labels) q then Some (plus (unwrap_or (tree.get label_set_cmp by_labels.old labels) no_total) total) else tree.get label_set_cmp by_labels.old q)) }
    ensures err { OnErr result (by_labels.new.entries ≡ by_labels.old.entries) }
    ensures known { IsSome (tree.get label_set_cmp by_labels.old labels) → IsOk result }
{
    let there = by_labels.entry(labels)?.or_insert(NOTHING);
    there.count += total.count;
    there.bytes += total.bytes;
    Ok(())
}

// Adds a total at a label set that is there already. Takes no memory.
fn add_known(
    by_labels: &mut BTreeMap<Labels, Volume>,
    labels: &Labels,
    total: Volume,
) -> Result<(), AllocError>
    requires { VolumeFits (plus (unwrap_or (tree.get label_set_cmp by_labels.old labels.now) no_total) total) }
    ensures ok { OnOk result ((q : LabelSet) → tree.get label_set_cmp by_labels.new q ≡ (if is_at (label_set_cmp labels.now) q then Some (plus (unwrap_or (tree.get label_set_cmp by_labels.old labels.now) no_total) total) else tree.get label_set_cmp by_labels.old q)) }
    ensures err { OnErr result (by_labels.new.entries ≡ by_labels.old.entries) }
    ensures known { IsSome (tree.get label_set_cmp by_labels.old labels.now) → IsOk result }
{
    let Some(sum) = by_labels.get_mut(labels) else {
        return Err(AllocError);
    };
    sum.count += total.count;
    sum.bytes += total.bytes;
    Ok(())
}

// Takes a total out at a label set, if at least that stands there. The label set goes where no line is left.
fn take_at(by_labels: &mut BTreeMap<Labels, Volume>, labels: &Labels, total: Volume) -> bool
    ensures there { result ≡ has_volume (tree.get label_set_cmp by_labels.old labels.now) total }
    ensures left { (q : LabelSet) → tree.get label_set_cmp by_labels.new q ≡ (if result && is_at (label_set_cmp labels.now) q then if_any (minus (unwrap_or (tree.get label_set_cmp by_labels.old labels.now) no_total) total) else tree.get label_set_cmp by_labels.old q) }
{
    let Some(sum) = by_labels.get_mut(labels) else {
        return false;
    };
    let is_there = total.count <= sum.count && total.bytes <= sum.bytes;
    if !is_there {
        return false;
    }
    sum.count -= total.count;
    sum.bytes -= total.bytes;
    if sum.count == 0 {
        by_labels.remove(labels);
    }
    true
}

impl TryCopy for Totals {
    /// Takes memory for the copy's tree, and shares the label sets.
    fn try_copy(&self) -> Result<Self, AllocError> {
        Ok(Totals {
            by_labels: self.by_labels.clone()?,
        })
    }
}

impl Same for Totals {
    fn is_same(&self, other: &Self) -> bool {
        self.by_labels.len() == other.by_labels.len() && self.by_labels == other.by_labels
    }
}
