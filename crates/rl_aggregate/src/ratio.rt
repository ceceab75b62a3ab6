//! Ratios of vectors.
ghost use Rattle.std.specs.Prelude.{◌≡◌, ◌<◌, ◌^◌, IfOk};
ghost use Rattle.std.specs.List.{AllByRecursion};
ghost use Rattle.rl_aggregate.specs.Ratios.{not_before, quotient, ratios, value_over};
ghost use Rattle.rl_aggregate.specs.Vectors.{AreInOrder, IsOfOneTerm};

use crate::outcome::{Fraction, Sample};
use rl_labels::Labels;
use std::alloc::{AllocError, Global};

// Each sample over the one with its labels, in one pass over both. A sample without a partner, or whose partner is 0, is left out.
pub(crate) fn divide(
    alloc: Global,
    samples: Vec<Sample>,
    divisors: &[Sample],
) -> Result<Vec<Sample>, AllocError>
    requires order { AreInOrder samples.items }
    requires divisors_order { AreInOrder divisors.now }
    requires small { AllByRecursion IsOfOneTerm samples.items }
    requires divisors_small { AllByRecursion IsOfOneTerm divisors.now }
    ensures { IfOk result (λ made. made.items ≡ ratios samples.items divisors.now) }
{
    let mut made = Vec::with_capacity(alloc, samples.len().min(divisors.len()))?;
    let mut rest = divisors;
    for sample in samples {
        rest = not_before(&sample.labels, rest);
        let Some(value) = value_over(rest, &sample) else {
            continue;
        };
        let labels = sample.labels;
        made.push(Sample { labels, value })?;
    }
    Ok(made)
}

// Those from the first on that does not stand before the labels.
fn not_before<'a>(labels: &Labels, divisors: &'a [Sample]) -> &'a [Sample]
    ensures { result.now ≡ not_before labels.now divisors.now }
{
    let mut rest = divisors;
    while let Some((first, others)) = rest.split_first() {
        if first.labels >= *labels {
            return rest;
        }
        rest = others;
    }
    rest
}

// The value of the sample over that of the first divisor, if this is its partner and not 0.
fn value_over(divisors: &[Sample], sample: &Sample) -> Option<Fraction>
    requires order { AreInOrder divisors.now }
    requires from { not_before sample.now.labels divisors.now ≡ divisors.now }
    requires small { IsOfOneTerm sample.now }
    requires divisors_small { AllByRecursion IsOfOneTerm divisors.now }
    ensures { result ≡ value_over divisors.now sample.now }
{
    let [partner, ..] = divisors else {
        return None;
    };
    if partner.labels == sample.labels {
        quotient(sample.value, partner.value)
    } else {
        None
    }
}

// A fraction by another that is not 0, unreduced.
fn quotient(value: Fraction, divisor: Fraction) -> Option<Fraction>
    requires value { (value.numerator < 2 ^ 46) × (value.denominator < 2 ^ 46) }
    requires divisor { (divisor.numerator < 2 ^ 46) × (divisor.denominator < 2 ^ 46) }
    ensures { result ≡ quotient value divisor }
{
    if divisor.numerator == 0 {
        return None;
    }
    Some(Fraction {
        numerator: value.numerator * divisor.denominator,
        denominator: value.denominator * divisor.numerator,
    })
}
