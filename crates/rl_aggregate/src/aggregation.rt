//! Vector aggregations of a vector.
ghost use Rattle.std.specs.Prelude.{◌≡◌, ◌<◌, ◌^◌, IfOk, IsTrue};
ghost use Rattle.rl_aggregate.specs.Grouping.{total, rises, grouped, aggregated, aggregated_by};

use crate::group_labels::group_of;
use crate::groups::Groups;
use crate::outcome::Sample;
use crate::topk::topk;
use rl_labels::Labels;
use rl_plain::TryCopy;
use rl_query::{Aggregation, Grouping, VectorOperator};
use std::alloc::{AllocError, Global};

// What vector aggregations, the outermost first, make of a vector in the order of its labels.
pub(crate) fn aggregate_all(
    alloc: Global,
    aggregations: &[Aggregation],
    samples: Vec<Sample>,
) -> Result<Vec<Sample>, AllocError>
    requires rises { IsTrue (rises samples.items) }
    requires fits { total samples.items < 2 ^ 128 }
    ensures { IfOk result (λ made. made.items ≡ aggregated_by aggregations.now samples.items) }
{
    let mut vector = samples;
    let mut rest = aggregations;
    while let Some((aggregation, outer)) = rest.split_last() {
        vector = aggregate(alloc, aggregation, vector)?;
        rest = outer;
    }
    Ok(vector)
}

// What a vector aggregation makes of a vector.
fn aggregate(
    alloc: Global,
    aggregation: &Aggregation,
    samples: Vec<Sample>,
) -> Result<Vec<Sample>, AllocError>
    requires rises { IsTrue (rises samples.items) }
    requires fits { total samples.items < 2 ^ 128 }
    ensures { IfOk result (λ made. made.items ≡ aggregated aggregation.now.operator aggregation.now.grouping samples.items) }
{
    match aggregation.operator {
        VectorOperator::Topk(k) => topk(alloc, k, &aggregation.grouping, samples),
        operator => grouped(alloc, operator, &aggregation.grouping, &samples),
    }
}

// A sample for each group, in the order of their labels.
fn grouped(
    alloc: Global,
    operator: VectorOperator,
    grouping: &Grouping,
    samples: &[Sample],
) -> Result<Vec<Sample>, AllocError>
    requires { total samples.now < 2 ^ 128 }
    ensures { IfOk result (λ made. made.items ≡ grouped operator grouping.now samples.now) }
{
    let none = Labels::empty(alloc)?;
    let mut labels = none.try_copy()?;
    let mut groups = Groups::new(alloc);
    for sample in samples {
        labels = group_of(alloc, grouping, &none, &labels, &sample.labels)?;
        groups.add(operator, &labels, sample.value)?;
    }
    groups.samples(alloc)
}
