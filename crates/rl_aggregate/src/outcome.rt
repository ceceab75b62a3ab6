//! What a query gives at a moment: a vector, or nothing for an error in a line.
ghost use Rattle.std.specs.Prelude.{◌≡◌, IfOk, IsOk};

use crate::volume::Volume;
use rl_labels::Labels;
use rl_plain::{PlainList, Same, TryCopy};
use rl_query::RangeFunction;
use std::alloc::AllocError;

/// A value: a fraction as it was computed, never reduced.
#[derive(Clone, Copy, PartialEq, Eq)]
pub struct Fraction {
    pub numerator: u128,
    pub denominator: u128,
}

/// A sample of a vector.
#[derive(Drop, PartialEq, Eq)]
pub struct Sample {
    pub labels: Labels,
    pub value: Fraction,
}

/// What a query gives at a moment.
#[derive(Drop)]
pub enum Outcome {
    /// The samples, in the order of their label sets.
    Vector(PlainList<Sample>),
    /// A line had an error.
    Failed,
}

impl Fraction {
    ghost use Rattle.rl_aggregate.specs.Evaluated.{fraction};

    /// 1/1.
    pub const ONE: Fraction = Fraction {
        numerator: 1,
        denominator: 1,
    };

    /// What a range aggregation gives of a total over a range in seconds. `absent_over_time` gives 1/1.
    pub fn of(function: RangeFunction, seconds: u64, total: Volume) -> Fraction
        ensures { result ≡ fraction function seconds total }
    {
        match function {
            RangeFunction::CountOverTime => Fraction::over(total.count, 1),
            RangeFunction::Rate => Fraction::over(total.count, seconds),
            RangeFunction::BytesOverTime => Fraction::over(total.bytes, 1),
            RangeFunction::BytesRate => Fraction::over(total.bytes, seconds),
            RangeFunction::AbsentOverTime => Fraction::ONE,
        }
    }

    fn over(numerator: u64, denominator: u64) -> Fraction
        ensures { result ≡ record { numerator = numerator; denominator = denominator } }
    {
        Fraction {
            numerator: u128::from(numerator),
            denominator: u128::from(denominator),
        }
    }
}

impl TryCopy for Fraction {
    /// Takes no memory, and is never refused.
    fn try_copy(&self) -> Result<Self, AllocError>
        ensures copy { IfOk result (λ copy. copy ≡ self.now) }
        ensures made { IsOk result }
    {
        Ok(*self)
    }
}

impl Same for Fraction {
    fn is_same(&self, other: &Self) -> bool {
        self == other
    }
}

impl TryCopy for Sample {
    fn try_copy(&self) -> Result<Self, AllocError> {
        let labels = self.labels.try_copy()?;
        Ok(Sample {
            labels,
            value: self.value,
        })
    }
}

impl Same for Sample {
    fn is_same(&self, other: &Self) -> bool {
        self == other
    }
}

impl TryCopy for Outcome {
    fn try_copy(&self) -> Result<Self, AllocError> {
        match self {
            Outcome::Vector(samples) => Ok(Outcome::Vector(samples.try_copy()?)),
            Outcome::Failed => Ok(Outcome::Failed),
        }
    }
}

impl Same for Outcome {
    fn is_same(&self, other: &Self) -> bool {
        match (self, other) {
            (Outcome::Vector(samples), Outcome::Vector(others)) => samples.is_same(others),
            (Outcome::Failed, Outcome::Failed) => true,
            _ => false,
        }
    }
}
