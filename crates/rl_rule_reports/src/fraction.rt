//! Tests that no fraction of JSON passes: a number that is no whole number gives no label.

use crate::doubt::leaves_of;
use crate::findings::OutOfMemory;
use rl_query::{LabelTest, Parser, Quantity, QuantityTest, Stage};
use std::alloc::Global;

// A whole number is a multiple of this many billionths.
const WHOLE: u128 = 1_000_000_000;

/// The first test after `json` that compares a label with a fraction, if there is one.
pub(crate) fn fraction_in(
    alloc: Global,
    stages: &[Stage],
) -> Result<Option<&QuantityTest>, OutOfMemory> {
    let mut is_json = false;
    for stage in stages {
        match stage {
            Stage::Parser(parser) => is_json = matches!(parser, Parser::Json),
            Stage::Tests(tests) if is_json => {
                let leaves = leaves_of(alloc, tests)?;
                if let Some(test) = first_of(leaves.as_slice()) {
                    return Ok(Some(test));
                }
            }
            Stage::Tests(_) | Stage::Filter(_) => {}
        }
    }
    Ok(None)
}

fn first_of<'a>(tests: &[&'a LabelTest]) -> Option<&'a QuantityTest> {
    for test in tests {
        if let LabelTest::Quantity(test) = *test {
            if is_fraction(&test.quantity) {
                return Some(test);
            }
        }
    }
    None
}

fn is_fraction(quantity: &Quantity) -> bool {
    match quantity {
        Quantity::Number(number) => number.billionths() % WHOLE != 0,
        Quantity::Duration(_) | Quantity::Size(_) => false,
    }
}
