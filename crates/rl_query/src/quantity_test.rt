//! Quantities of queries, and tests that compare a label with one. Their limits are facts of the types.
ghost use Rattle.std.specs.Prelude.{IsTrue, not};
ghost use Rattle.rl_labels.specs.Name.{is_name};
ghost use Rattle.rl_query.specs.Limits.{is_taken};
ghost use Rattle.rl_query.specs.Quantities.{is_quantity};

use rl_labels::{Decimal, Duration, Size};
use rl_plain::{PlainText, Same, TryCopy};
use std::alloc::AllocError;

/// How a number is compared with another (LogQL).
#[derive(Clone, Copy, PartialEq, Eq)]
pub enum Comparison {
    /// `==`, which label tests also write `=`.
    Equal,
    NotEqual,
    Greater,
    GreaterOrEqual,
    Less,
    LessOrEqual,
}

/// A quantity as a query writes it: without a sign, and without a space.
#[derive(Drop, PartialEq, Eq)]
pub enum Quantity {
    /// Without a unit.
    Number(Decimal),
    Duration(Duration),
    Size(Size),
}

/// A label whose value is a quantity is compared with another, as in `took>1.5s`.
#[derive(Drop, PartialEq, Eq)]
pub struct QuantityTest {
    pub name: PlainText,
    pub comparison: Comparison,
    pub quantity: Quantity,
    ghost named: { IsTrue (is_name name) },
    ghost free: { IsTrue (not (is_taken name)) },
    ghost proper: { IsTrue (is_quantity quantity) },
}

impl TryCopy for Quantity {
    fn try_copy(&self) -> Result<Self, AllocError> {
        match self {
            Quantity::Number(number) => Ok(Quantity::Number(*number)),
            Quantity::Duration(duration) => Ok(Quantity::Duration(duration.try_copy()?)),
            Quantity::Size(size) => Ok(Quantity::Size(*size)),
        }
    }
}

impl Same for Quantity {
    fn is_same(&self, other: &Self) -> bool {
        match (self, other) {
            (Quantity::Number(one), Quantity::Number(same)) => one == same,
            (Quantity::Duration(one), Quantity::Duration(same)) => one.is_same(same),
            (Quantity::Size(one), Quantity::Size(same)) => one == same,
            _ => false,
        }
    }
}

impl TryCopy for QuantityTest {
    fn try_copy(&self) -> Result<Self, AllocError> {
        let name = self.name.try_copy()?;
        let quantity = self.quantity.try_copy()?;
        Ok(QuantityTest {
            name,
            comparison: self.comparison,
            quantity,
        })
    }
}

impl Same for QuantityTest {
    fn is_same(&self, other: &Self) -> bool {
        self.name.is_same(&other.name)
            && self.comparison == other.comparison
            && self.quantity.is_same(&other.quantity)
    }
}
