//! Vector aggregations and thresholds of queries. Their limits are facts of the types.
ghost use Rattle.std.specs.Prelude.{IsTrue};
ghost use Rattle.rl_query.specs.Aggregations.{is_grouping, is_operator, is_threshold};

use crate::quantity_test::Comparison;
use rl_labels::Decimal;
use rl_plain::{PlainList, PlainText, Same, TryCopy};
use std::alloc::AllocError;

/// What a vector aggregation makes of each group of samples (LogQL).
#[derive(Clone, Copy, PartialEq, Eq)]
pub enum VectorOperator {
    /// The sum of the values.
    Sum,
    /// How many samples there are.
    Count,
    /// The least value.
    Min,
    /// The greatest value.
    Max,
    /// This many samples with the greatest values, 1 to 65,535.
    Topk(u16),
}

/// Which samples are in one group (LogQL).
#[derive(Drop, PartialEq, Eq)]
pub enum Grouping {
    /// All samples.
    All,
    /// `by`: those with equal values of these labels.
    By(PlainList<PlainText>),
    /// `without`: those with equal values of all other labels.
    Without(PlainList<PlainText>),
}

/// A vector aggregation.
#[derive(Drop, PartialEq, Eq)]
pub struct Aggregation {
    pub operator: VectorOperator,
    pub grouping: Grouping,
    ghost proper: { IsTrue (is_operator operator) },
    ghost named: { IsTrue (is_grouping grouping) },
}

/// A comparison with a number: samples for which it is false are left out (LogQL).
#[derive(Drop, PartialEq, Eq)]
pub struct Threshold {
    pub comparison: Comparison,
    /// Below 1,000,000,000, with at most 6 digits after its point.
    pub value: Decimal,
    ghost proper: { IsTrue (is_threshold value) },
}

impl TryCopy for Grouping {
    fn try_copy(&self) -> Result<Self, AllocError> {
        match self {
            Grouping::All => Ok(Grouping::All),
            Grouping::By(names) => Ok(Grouping::By(names.try_copy()?)),
            Grouping::Without(names) => Ok(Grouping::Without(names.try_copy()?)),
        }
    }
}

impl Same for Grouping {
    fn is_same(&self, other: &Self) -> bool {
        match (self, other) {
            (Grouping::All, Grouping::All) => true,
            (Grouping::By(names), Grouping::By(others)) => names.is_same(others),
            (Grouping::Without(names), Grouping::Without(others)) => names.is_same(others),
            _ => false,
        }
    }
}

impl TryCopy for Aggregation {
    fn try_copy(&self) -> Result<Self, AllocError> {
        let grouping = self.grouping.try_copy()?;
        Ok(Aggregation {
            operator: self.operator,
            grouping,
        })
    }
}

impl Same for Aggregation {
    fn is_same(&self, other: &Self) -> bool {
        self.operator == other.operator && self.grouping.is_same(&other.grouping)
    }
}

impl TryCopy for Threshold {
    fn try_copy(&self) -> Result<Self, AllocError> {
        Ok(Threshold {
            comparison: self.comparison,
            value: self.value,
        })
    }
}

impl Same for Threshold {
    fn is_same(&self, other: &Self) -> bool {
        self.comparison == other.comparison && self.value == other.value
    }
}
