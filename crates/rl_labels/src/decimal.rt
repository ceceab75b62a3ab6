//! Rows of digits, and decimals.
ghost use Rattle.std.specs.Prelude.{◌≡◌, ◌==◌, ◌<◌, ◌≤◌, ◌^◌, ◌++◌, ℕ, length, true, IfOk, IfSome, IsOk, IsTrue, OnOk, Some, position, string_bytes};
ghost use Rattle.std.specs.Option.{option_map};
ghost use Rattle.std.specs.Result.{result_ok};
ghost use Rattle.std.specs.List.{list_all};
ghost use Rattle.std.specs.Char.{is_ascii_digit};
ghost use Rattle.std.specs.Str.Parse.{digits_value};
ghost use Rattle.rl_labels.specs.Decimals.{DecimalForm, is_row, number_of, decimal_of, cut_at_point};
ghost use Rattle.rl_labels.specs.QuantityTexts.{digits_text, decimal_text, is_decimal};

use rl_plain::{Same, TryCopy};
use std::alloc::AllocError;
use std::marker::Model;
use thiserror::Error;

/// The text is no quantity of this kind.
#[derive(Clone, Copy, Debug, Drop, Error)]
#[error("not a quantity of this kind")]
pub struct NotOne;

/// The number that a row of digits writes, of at least one digit and at most `most`. Any other text is `None`.
pub fn number_of(text: &[u8], most: usize) -> Option<u64>
    requires { most ≤ 19 }
    ensures value { result ≡ number_of most text.now }
    ensures few { IfSome result (λ n. (length text.now ≤ most) × ((digits : ℕ) → length text.now ≤ digits → n < 10 ^ digits)) }
{
    if is_row(text, most) {
        Some(value_of(text))
    } else {
        None
    }
}

fn is_row(text: &[u8], most: usize) -> bool
    ensures { result ≡ is_row most text.now }
{
    !text.is_empty() && text.len() <= most && are_digits(text)
}

fn are_digits(bytes: &[u8]) -> bool
    ensures { result ≡ list_all is_ascii_digit bytes.now }
{
    bytes.iter().all(|byte| byte.is_ascii_digit())
}

fn value_of(digits: &[u8]) -> u64
    requires digits { list_all is_ascii_digit digits.now ≡ true }
    requires few { length digits.now ≤ 19 }
    ensures value { result ≡ digits_value 10 digits.now }
    ensures few { (most : ℕ) → length digits.now ≤ most → result < 10 ^ most }
{
    let mut value = 0;
    for byte in digits {
        value = 10 * value + u64::from(byte - b'0');
    }
    value
}

/// A decimal as it is written, without a sign: up to 15 digits, and up to 9 after a point.
#[derive(Clone, Copy, Debug, PartialEq, Eq)]
pub struct Decimal {
    whole: u64,
    fraction: u64,
    digits: u32,
}

impl Model for Decimal {
    ghost use Rattle.std.specs.Prelude.{◌<◌, ◌≤◌, ◌^◌};
    ghost use Rattle.rl_labels.specs.Decimals.{DecimalForm, decimal_code};

    ghost Value = { DecimalForm };

    ghost coded = { decimal_code };

    ghost view = { λ a. record { whole = a.whole; fraction = a.fraction; digits = a.digits } };

    ghost invariant = { λ a. (a.whole < 10 ^ 15) × ((a.fraction < 10 ^ a.digits) × (a.digits ≤ 9)) };

    ghost inverse = { λ d. record { whole = d.whole; fraction = d.fraction; digits = d.digits } };
}

impl Default for Decimal {
    ghost use Rattle.rl_labels.specs.Decimals.{no_decimal};

    ghost is_default = { λ d. d ≡ no_decimal };

    fn default() -> Self {
        Decimal {
            whole: 0,
            fraction: 0,
            digits: 0,
        }
    }
}

impl Decimal {
    ghost use Rattle.rl_labels.specs.Decimals.{billionths};

    /// The decimal that a text is. Any other text is `NotOne`.
    #[tactic(auto, using(crate::specs::laws::QuantityLaws::decimal_again, crate::specs::laws::QuantityLaws::decimal_proper))]
    pub fn read(text: &str) -> Result<Decimal, NotOne>
        ensures read { result_ok result ≡ decimal_of 15 text.now }
        ensures again { (decimal : DecimalForm) → IsTrue (is_decimal decimal) → text.now ≡ decimal_text decimal → result_ok result ≡ Some decimal }
        ensures proper { IfOk result (λ decimal. IsTrue (is_decimal decimal)) }
    {
        Decimal::of_digits(text.as_bytes(), 15).ok_or(NotOne)
    }

    /// The decimal that a text is, with at most `most` digits in front of its point.
    pub fn of_digits(text: &[u8], most: usize) -> Option<Decimal>
        requires { most ≤ 15 }
        ensures { result ≡ decimal_of most text.now }
    {
        match cut_at_point(text) {
            None => {
                let whole = number_of(text, most)?;
                Some(Decimal {
                    whole,
                    fraction: 0,
                    digits: 0,
                })
            }
            Some((whole, following)) => {
                let whole = number_of(whole, most)?;
                let fraction = number_of(following, 9)?;
                let digits = following.len() as u32;
                Some(Decimal {
                    whole,
                    fraction,
                    digits,
                })
            }
        }
    }

    /// Its value in billionths.
    pub fn billionths(self) -> u128
        ensures value { result ≡ billionths self }
        ensures small { result < 10 ^ 24 }
    {
        let zeros = 9 - self.digits;
        let fraction = self.fraction * 10u64.pow(zeros);
        u128::from(self.whole) * 1_000_000_000 + u128::from(fraction)
    }

    /// Appends its canonical text, as `0.50`.
    pub fn push_to(self, text: &mut String) -> Result<(), AllocError>
        ensures { OnOk result (string_bytes text.new ≡ string_bytes text.old ++ decimal_text self) }
    {
        write!(text, "{}", self.whole)?;
        if self.digits > 0 {
            text.push('.')?;
            push_digits(text, self.digits, self.fraction)?;
        }
        Ok(())
    }
}

// Appends the last `count` digits of a number.
fn push_digits(text: &mut String, count: u32, number: u64) -> Result<(), AllocError>
    ensures { OnOk result (string_bytes text.new ≡ string_bytes text.old ++ digits_text count number) }
{
    if count == 0 {
        return Ok(());
    }
    push_digits(text, count - 1, number / 10)?;
    write!(text, "{}", number % 10)
}

impl TryCopy for Decimal {
    /// Takes no memory, and is never refused.
    fn try_copy(&self) -> Result<Self, AllocError>
        ensures copy { IfOk result (λ copy. copy ≡ self.now) }
        ensures made { IsOk result }
    {
        Ok(*self)
    }
}

impl Same for Decimal {
    fn is_same(&self, other: &Self) -> bool {
        self == other
    }
}

// The parts before and after the first point.
fn cut_at_point(text: &[u8]) -> Option<(&[u8], &[u8])>
    ensures { option_map (λ parts. (parts.0.now, parts.1.now)) result ≡ cut_at_point text.now }
{
    let offset = point_in(text)?;
    Some((text.split_at(offset).0, text.split_at(offset + 1).1))
}

// The index of the first point.
fn point_in(text: &[u8]) -> Option<usize>
    ensures offset { result ≡ position (λ b. b == 46) text.now }
    ensures inside { IfSome result (λ offset. offset < length text.now) }
{
    text.iter().position(|byte| *byte == b'.')
}
