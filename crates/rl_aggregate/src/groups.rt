//! Values by the labels of groups.
ghost use Rattle.std.specs.Prelude.{◌≡◌, ◌<◌, ◌^◌, map as map_list, IfOk, OnOk};
ghost use Rattle.std.specs.FinMap as map;
ghost use Rattle.rl_aggregate.specs.GroupsMap.{first_value, next_value, with_value, numerator_at};
ghost use Rattle.rl_aggregate.specs.Grouping.{sample_of};

use crate::outcome::{Fraction, Sample};
use rl_labels::Labels;
use rl_plain::TryCopy;
use rl_query::VectorOperator;
use std::alloc::{AllocError, Global};
use std::collections::BTreeMap;
use std::marker::Model;

// Values by the labels of groups. Contracts see a finite map.
#[derive(Drop)]
pub(crate) struct Groups {
    by_labels: BTreeMap<Labels, Fraction>,
}

impl Model for Groups {
    ghost use Rattle.rl_aggregate.specs.GroupsMap.{GroupsMap, groups_code};
    ghost use Rattle.std.specs.FinMap as map;

    ghost Value = { GroupsMap };

    ghost coded = { groups_code };

    ghost view = { λ a. map.from_entries a.by_labels.entries };
}

impl Groups {
    // No groups.
    pub(crate) fn new(alloc: Global) -> Self
        ensures { result ≡ map.empty }
    {
        Groups {
            by_labels: BTreeMap::new(alloc),
        }
    }

    // The value of the group with these labels, if there is one.
    pub(crate) fn get(&self, labels: &Labels) -> Option<Fraction>
        ensures { result ≡ map.get self.now labels.now }
    {
        self.by_labels.get(labels).copied()
    }

    // How many samples are in the group with these labels, where the values count them.
    pub(crate) fn count(&self, labels: &Labels) -> u128
        ensures { result ≡ numerator_at (map.get self.now labels.now) }
    {
        match self.get(labels) {
            Some(value) => value.numerator,
            None => 0,
        }
    }

    // One more sample with this value in the group with these labels, after the others.
    pub(crate) fn add(
        &mut self,
        operator: VectorOperator,
        labels: &Labels,
        value: Fraction,
    ) -> Result<(), AllocError>
        requires { (with_value operator (map.get self.old labels.now) value).numerator < 2 ^ 128 }
        ensures { OnOk result (self.new ≡ map.insert self.old labels.now (with_value operator (map.get self.old labels.now) value)) }
    {
        if let Some(group) = self.by_labels.get_mut(labels) {
            *group = next_value(operator, *group, value);
            return Ok(());
        }
        self.by_labels
            .insert(labels.try_copy()?, first_value(operator, value))?;
        Ok(())
    }

    // A sample for each group, in the order of their labels.
    pub(crate) fn samples(&self, alloc: Global) -> Result<Vec<Sample>, AllocError>
        ensures { IfOk result (λ made. made.items ≡ map_list sample_of (map.entries self.now)) }
    {
        let mut samples = Vec::with_capacity(alloc, self.by_labels.len())?;
        for (labels, value) in self.by_labels.iter() {
            let labels = labels.try_copy()?;
            samples.push(Sample {
                labels,
                value: *value,
            })?;
        }
        Ok(samples)
    }
}

// The value of a group whose first sample has this value.
fn first_value(operator: VectorOperator, value: Fraction) -> Fraction
    ensures { result ≡ first_value operator value }
{
    match operator {
        VectorOperator::Count => Fraction::ONE,
        _ => value,
    }
}

// The value of a group with one more sample of this value.
fn next_value(operator: VectorOperator, group: Fraction, value: Fraction) -> Fraction
    requires { (next_value operator group value).numerator < 2 ^ 128 }
    ensures { result ≡ next_value operator group value }
{
    let numerator = match operator {
        VectorOperator::Sum => group.numerator + value.numerator,
        VectorOperator::Count => group.numerator + 1,
        VectorOperator::Min => group.numerator.min(value.numerator),
        VectorOperator::Max | VectorOperator::Topk(_) => group.numerator.max(value.numerator),
    };
    Fraction {
        numerator,
        denominator: group.denominator,
    }
}
