//! The printer of label tests.
ghost use Rattle.std.specs.Prelude.{◌≡◌, ◌-◌, ◌++◌, Ok, IfOk, OnOk, string_bytes};
ghost use Rattle.rl_query.specs.Form.{quantity_form, test_form, tests_form};
ghost use Rattle.rl_query.specs.Quantities.{quantity_text};
ghost use Rattle.rl_query.specs.Tables.{comparison_sign};
ghost use Rattle.rl_query.specs.TestPrinting.{quantity_test_text, test_text, join_text, enclosed, tests_text};
ghost use Rattle.rl_query.specs.TestDepth.{left_level, right_level, needs};

use crate::label_test::{Join, LabelTest, LabelTests, Level, TestParts};
use crate::printer::push_matcher;
use crate::quantity_test::{Comparison, Quantity, QuantityTest};
use crate::token::Sign;
use std::alloc::{AllocError, Global};

/// The canonical text of label tests.
pub fn tests_text(alloc: Global, tests: &LabelTests) -> Result<String, AllocError>
    ensures { IfOk result (λ text. string_bytes text ≡ tests_text (tests_form tests.now)) }
{
    let mut text = String::new(alloc);
    push_tests(&mut text, tests)?;
    Ok(text)
}

// The sign that is printed of a comparison.
pub(crate) fn comparison_sign(comparison: Comparison) -> Sign
    ensures { result ≡ comparison_sign comparison }
{
    match comparison {
        Comparison::Equal => Sign::EqualTo,
        Comparison::NotEqual => Sign::NotEqual,
        Comparison::Greater => Sign::Greater,
        Comparison::GreaterOrEqual => Sign::GreaterOrEqual,
        Comparison::Less => Sign::Less,
        Comparison::LessOrEqual => Sign::LessOrEqual,
    }
}

fn push_quantity(text: &mut String, quantity: &Quantity) -> Result<(), AllocError>
    ensures { OnOk result (string_bytes text.new ≡ string_bytes text.old ++ quantity_text quantity.now) }
{
    match quantity {
        Quantity::Number(number) => number.push_to(text),
        Quantity::Duration(duration) => duration.push_to(text),
        Quantity::Size(size) => size.push_to(text),
    }
}

fn push_quantity_test(text: &mut String, test: &QuantityTest) -> Result<(), AllocError>
    ensures { OnOk result (string_bytes text.new ≡ string_bytes text.old ++ quantity_test_text (quantity_form test.now)) }
{
    text.push_str(test.name.as_str())?;
    text.push_str(comparison_sign(test.comparison).as_str())?;
    push_quantity(text, &test.quantity)
}

fn push_test(text: &mut String, test: &LabelTest) -> Result<(), AllocError>
    ensures { OnOk result (string_bytes text.new ≡ string_bytes text.old ++ test_text (test_form test.now)) }
{
    match test {
        LabelTest::Text(test) => push_matcher(text, &test.matcher),
        LabelTest::Quantity(test) => push_quantity_test(text, test),
    }
}

fn join_text(join: Join) -> &'static str
    ensures { result.now ≡ join_text join }
{
    match join {
        Join::And => " and ",
        Join::Or => " or ",
    }
}

fn left_level(join: Join) -> Level
    ensures { result ≡ left_level join }
{
    match join {
        Join::And => Level::All,
        Join::Or => Level::Tests,
    }
}

fn right_level(join: Join) -> Level
    ensures { result ≡ right_level join }
{
    match join {
        Join::And => Level::One,
        Join::Or => Level::All,
    }
}

// Whether tests need parentheses in a position.
fn needs(level: Level, tests: &LabelTests) -> bool
    ensures { result ≡ needs level (tests_form tests.now) }
{
    match (level, tests.parts()) {
        (Level::All, TestParts::Joined(Join::Or, _, _)) => true,
        (Level::One, TestParts::Joined(_, _, _)) => true,
        _ => false,
    }
}

// Tests, in parentheses where they need them in a position.
#[cycle(printing)]
fn push_enclosed(text: &mut String, level: Level, tests: &LabelTests) -> Result<(), AllocError>
    ensures { OnOk result (string_bytes text.new ≡ string_bytes text.old ++ enclosed (needs level (tests_form tests.now)) (tests_text (tests_form tests.now))) }
{
    if !needs(level, tests) {
        return push_tests(text, tests);
    }
    text.push('(')?;
    push_tests(text, tests)?;
    text.push(')')
}

#[cycle(printing)]
pub(crate) fn push_tests(text: &mut String, tests: &LabelTests) -> Result<(), AllocError>
    ensures { OnOk result (string_bytes text.new ≡ string_bytes text.old ++ tests_text (tests_form tests.now)) }
{
    match tests.parts() {
        TestParts::One(test) => push_test(text, test),
        TestParts::Joined(join, left, right) => {
            push_enclosed(text, left_level(join), left)?;
            text.push_str(join_text(join))?;
            push_enclosed(text, right_level(join), right)
        }
    }
}
