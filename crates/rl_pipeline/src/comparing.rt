//! Quantities of labels, compared with those of tests.
ghost use Rattle.std.specs.Prelude.{◌≡◌, IfOk};
ghost use Rattle.rl_pipeline.specs.QuantityTests.{compared, holds, quantity_answer};

use crate::draft::Draft;
use rl_labels::labels::ERROR_LABEL;
use rl_labels::{Decimal, Duration, Signed, Size};
use rl_query::{Comparison, Quantity, QuantityTest};
use std::alloc::{AllocError, Global};
use std::cmp::Ordering;

// The error of a line whose label is no quantity of the test's kind.
const LABEL_FILTER_ERROR: &str = "LabelFilterErr";

// Whether labels pass a test by quantity. Those with an error pass.
pub(crate) fn ask_quantity(
    alloc: Global,
    test: &QuantityTest,
    draft: &mut Draft<'_>,
) -> Result<bool, AllocError>
    ensures { IfOk result (λ passes. quantity_answer test.now draft.old ≡ (passes, draft.new)) }
{
    if draft.get(ERROR_LABEL).is_some() {
        return Ok(true);
    }
    let Some(value) = draft.get(test.name.as_str()) else {
        return Ok(false);
    };
    if let Some(order) = compared(value, &test.quantity) {
        return Ok(holds(test.comparison, order));
    }
    draft.set_error(alloc, LABEL_FILTER_ERROR)?;
    Ok(true)
}

// How a label's value compares with a quantity, if it is one of that kind.
fn compared(value: &str, quantity: &Quantity) -> Option<Ordering>
    ensures { result ≡ compared value.now quantity.now }
{
    match quantity {
        Quantity::Number(number) => {
            let found = Signed::<Decimal>::read(value).ok()?;
            Some(found.compare(*number))
        }
        Quantity::Duration(duration) => {
            let found = Signed::<Duration>::read(value).ok()?;
            Some(found.compare(duration))
        }
        Quantity::Size(size) => {
            let found = Size::read(value).ok()?;
            Some(found.value().cmp(&size.value()))
        }
    }
}

/// Whether the comparison holds of numbers that compare so.
pub fn holds(comparison: Comparison, order: Ordering) -> bool
    ensures { result ≡ holds comparison order }
{
    match comparison {
        Comparison::Equal => order.is_eq(),
        Comparison::NotEqual => order.is_ne(),
        Comparison::Greater => order.is_gt(),
        Comparison::GreaterOrEqual => order.is_ge(),
        Comparison::Less => order.is_lt(),
        Comparison::LessOrEqual => order.is_le(),
    }
}
