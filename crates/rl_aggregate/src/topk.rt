//! The samples of a vector with the greatest values.
ghost use Rattle.std.specs.Prelude.{◌≡◌, IfOk, IsTrue};
ghost use Rattle.std.specs.List.{filter};
ghost use Rattle.std.specs.List.Sorted.{IsPermutation, IsSorted, IsStrictlySortedBy};
ghost use Rattle.rl_aggregate.specs.Grouping.{rank_cmp, sample_cmp, is_among_first, rises};

use crate::group_labels::group_of;
use crate::groups::Groups;
use crate::outcome::Sample;
use rl_labels::Labels;
use rl_plain::TryCopy;
use rl_query::{Grouping, VectorOperator};
use std::alloc::{AllocError, Global};

// The `k` samples of each group with the greatest values, in the order of their labels. Values are sorted, and label sets
// only of what is kept.
pub(crate) fn topk(
    alloc: Global,
    k: u16,
    grouping: &Grouping,
    samples: Vec<Sample>,
) -> Result<Vec<Sample>, AllocError>
    requires { IsTrue (rises samples.items) }
    ensures { IfOk result (λ made. made.items ≡ filter (is_among_first k grouping.now samples.items) samples.items) }
{
    let ranked = ranked(samples)?;
    let mut kept = first_of_each(alloc, k, grouping, ranked)?;
    sort_by_labels(&mut kept);
    Ok(kept)
}

// The samples by their ranks. They are in the order of their labels, and samples with equal values stay so.
fn ranked(samples: Vec<Sample>) -> Result<Vec<Sample>, AllocError>
    requires { IsTrue (rises samples.items) }
    ensures moved { IfOk result (λ made. IsPermutation samples.items made.items) }
    ensures ranked { IfOk result (λ made. IsStrictlySortedBy rank_cmp made.items) }
{
    let mut samples = samples;
    samples.sort_by(|sample, other| other.value.numerator.cmp(&sample.value.numerator))?;
    Ok(samples)
}

// The first `k` samples of each group.
fn first_of_each(
    alloc: Global,
    k: u16,
    grouping: &Grouping,
    ranked: Vec<Sample>,
) -> Result<Vec<Sample>, AllocError>
    requires { IsStrictlySortedBy rank_cmp ranked.items }
    ensures { IfOk result (λ made. made.items ≡ filter (is_among_first k grouping.now ranked.items) ranked.items) }
{
    let none = Labels::empty(alloc)?;
    let mut labels = none.try_copy()?;
    let mut counts = Groups::new(alloc);
    let mut kept = Vec::new(alloc);
    for sample in ranked {
        labels = group_of(alloc, grouping, &none, &labels, &sample.labels)?;
        let before = counts.count(&labels);
        counts.add(VectorOperator::Count, &labels, sample.value)?;
        if before < u128::from(k) {
            kept.push(sample)?;
        }
    }
    Ok(kept)
}

// Sorts the samples by their label sets.
fn sort_by_labels(samples: &mut [Sample])
    ensures moved { IsPermutation samples.old samples.new }
    ensures in_order { IsSorted sample_cmp samples.new }
{
    samples.sort_unstable_by(|sample, other| sample.labels.cmp(&other.labels));
}
