//! Values that are wanted: whole numbers, decimals and fractions.
ghost use Rattle.std.specs.Prelude.{◌≡◌, ◌==◌, ◌<◌, length, position, IfSome};
ghost use Rattle.std.specs.Option.{option_map, option_or};
ghost use Rattle.toml.specs.View.{view};
ghost use Rattle.rl_labels.specs.Decimals.{decimal_of, number_of};
ghost use Rattle.rl_rule_tests.specs.Document.{billionths_of, cut_at_slash, fraction_in, fraction_of, value_of, whole, whole_in};
ghost use Rattle.rl_rule_tests.specs.Judging.{are_equal};

use rl_aggregate::Fraction;
use rl_labels::{Decimal, number_of};
use std::alloc::AllocError;
use toml::Value;

/// A number as it is written, and what it is. One that was computed is written nowhere.
#[derive(Clone, Copy)]
pub(crate) struct Number<'a> {
    pub(crate) text: &'a str,
    pub(crate) fraction: Fraction,
}

impl Number<'static> {
    /// A number that was computed.
    pub(crate) fn computed(fraction: Fraction) -> Self
        ensures { result.fraction ≡ fraction }
    {
        Number { text: "", fraction }
    }
}

/// The number that a value of a test file is, if it is one.
pub(crate) fn number_in(value: &Value) -> Option<Number<'_>>
    ensures { option_map (λ number. number.fraction) result ≡ value_of (view value.now) }
{
    if let Some(number) = value.as_integer() {
        let fraction = whole_in(number)?;
        return Some(Number::computed(fraction));
    }
    let text = value.as_str()?;
    let fraction = fraction_in(text)?;
    Some(Number { text, fraction })
}

fn whole_in(number: i64) -> Option<Fraction>
    ensures { result ≡ whole_in number }
{
    if number < 0 {
        return None;
    }
    Some(whole(number as u64))
}

fn whole(number: u64) -> Fraction
    ensures { result ≡ whole number }
{
    Fraction {
        numerator: u128::from(number),
        denominator: 1,
    }
}

// The fraction that a text is: `12`, `0.2` or `1/5`.
fn fraction_in(text: &str) -> Option<Fraction>
    ensures { result ≡ fraction_in text.now }
{
    match cut_at_slash(text.as_bytes()) {
        Some((above, below)) => fraction_of(above, below),
        None => decimal_in(text),
    }
}

// The fraction that a text without a slash is.
fn decimal_in(text: &str) -> Option<Fraction>
    ensures { result ≡ option_or (option_map whole (number_of 19 text.now)) (option_map billionths_of (decimal_of 15 text.now)) }
{
    if let Some(number) = number_of(text.as_bytes(), 19) {
        return Some(whole(number));
    }
    match Decimal::read(text) {
        Ok(decimal) => Some(Fraction {
            numerator: decimal.billionths(),
            denominator: 1_000_000_000,
        }),
        Err(_) => None,
    }
}

// The parts before and after the first slash.
fn cut_at_slash(text: &[u8]) -> Option<(&[u8], &[u8])>
    ensures { option_map (λ parts. (parts.0.now, parts.1.now)) result ≡ cut_at_slash text.now }
{
    let offset = slash_in(text)?;
    Some((text.split_at(offset).0, text.split_at(offset + 1).1))
}

// The index of the first slash.
fn slash_in(text: &[u8]) -> Option<usize>
    ensures offset { result ≡ position (λ byte. byte == 47) text.now }
    ensures inside { IfSome result (λ offset. offset < length text.now) }
{
    text.iter().position(|byte| *byte == b'/')
}

fn fraction_of(above: &[u8], below: &[u8]) -> Option<Fraction>
    ensures { result ≡ fraction_of (above.now, below.now) }
{
    let numerator = number_of(above, 19)?;
    let denominator = number_of(below, 19)?;
    if denominator == 0 {
        return None;
    }
    Some(Fraction {
        numerator: u128::from(numerator),
        denominator: u128::from(denominator),
    })
}

/// Whether two fractions are one value. Products that are too large for this are not equal.
pub(crate) fn are_equal(one: Fraction, other: Fraction) -> bool
    ensures { result ≡ are_equal one other }
{
    if one == other {
        return true;
    }
    let left = one.numerator.checked_mul(other.denominator);
    let right = other.numerator.checked_mul(one.denominator);
    left.is_some() && left == right
}

/// Adds a number as it is written, and one that is not in lowest terms, after a space.
pub(crate) fn push_number(text: &mut String, number: Number<'_>) -> Result<(), AllocError> {
    if !number.text.is_empty() {
        return write!(text, " {}", number.text);
    }
    let Fraction {
        numerator,
        denominator,
    } = number.fraction;
    let divisor = common_divisor(numerator, denominator);
    let above = numerator.checked_div(divisor).unwrap_or(0);
    let below = denominator.checked_div(divisor).unwrap_or(0);
    write!(text, " {above}")?;
    if below != 1 {
        write!(text, "/{below}")?;
    }
    Ok(())
}

// The greatest number that divides both, by Euclid's steps, of which 128 bits take fewer.
fn common_divisor(one: u128, other: u128) -> u128 {
    let (mut divisor, mut rest) = (one, other);
    for _ in 0..256 {
        match divisor.checked_rem(rest) {
            Some(next) => {
                divisor = rest;
                rest = next;
            }
            None => break,
        }
    }
    divisor
}
