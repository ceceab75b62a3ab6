//! Comparisons of vectors with a number.
ghost use Rattle.std.specs.Prelude.{◌≡◌, ◌<◌, ◌^◌};
ghost use Rattle.std.specs.List.{AllByRecursion};
ghost use Rattle.rl_aggregate.specs.Ratios.{millionths, passes, tested};
ghost use Rattle.rl_aggregate.specs.Vectors.{IsOfQuery};

use crate::outcome::{Fraction, Sample};
use rl_pipeline::holds;
use rl_query::{Comparison, Threshold};

// The samples whose values pass the test, without a new vector.
pub(crate) fn compare(samples: Vec<Sample>, test: &Threshold) -> Vec<Sample>
    requires { AllByRecursion IsOfQuery samples.items }
    ensures { result.items ≡ tested test.now samples.items }
{
    let threshold = millionths(test);
    let mut samples = samples;
    let mut kept = 0;
    for index in 0..samples.len() {
        if passes(test.comparison, threshold, samples[index].value) {
            samples.swap(kept, index);
            kept += 1;
        }
    }
    samples.truncate(kept);
    samples
}

// The threshold in millionths.
fn millionths(test: &Threshold) -> u128
    ensures value { result ≡ millionths test.now.value }
    ensures small { result < 10 ^ 15 }
{
    test.value.billionths() / 1_000
}

// Whether the comparison holds of a value and a threshold in millionths, each multiplied by the other's divisor.
fn passes(comparison: Comparison, threshold: u128, value: Fraction) -> bool
    requires threshold { threshold < 10 ^ 15 }
    requires value { (value.numerator < 2 ^ 68) × (value.denominator < 2 ^ 68) }
    ensures { result ≡ passes comparison threshold value }
{
    let numerator = value.numerator * 1_000_000;
    let bound = threshold * value.denominator;
    holds(comparison, numerator.cmp(&bound))
}
