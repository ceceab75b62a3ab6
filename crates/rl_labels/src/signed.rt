//! The quantities that labels' values are: with a sign, as none in a query has.
ghost use Rattle.std.specs.Prelude.{◌≡◌, ◌<◌, ◌^◌, pos};
ghost use Rattle.std.specs.Result.{result_ok};
ghost use Rattle.std.specs.Ordering.{int_cmp};
ghost use Rattle.rl_labels.specs.Decimals.{billionths, decimal_of};
ghost use Rattle.rl_labels.specs.Quantities.{duration_value, signed, sign_at, signed_value, duration_in_label};

use crate::decimal::{Decimal, NotOne};
use crate::duration::{Duration, duration_in, no_time};
use std::cmp::Ordering;

/// A quantity that a label's value is: one that may have a sign, as none in a query has.
#[derive(Drop)]
pub struct Signed<Q> {
    pub is_negative: bool,
    pub quantity: Q,
}

impl Signed<Decimal> {
    /// The number that a label's value is: perhaps a minus, and a decimal. Any other text is `NotOne`.
    pub fn read(text: &str) -> Result<Self, NotOne>
        ensures { result_ok result ≡ signed (decimal_of 15) text.now }
    {
        let (is_negative, rest) = sign_at(text.as_bytes());
        match Decimal::of_digits(rest, 15) {
            Some(quantity) => Ok(Signed {
                is_negative,
                quantity,
            }),
            None => Err(NotOne),
        }
    }

    /// Its value in billionths.
    pub fn value(&self) -> i128
        ensures { result ≡ signed_value self.now.is_negative (billionths self.now.quantity) }
    {
        with_sign(self.is_negative, self.quantity.billionths())
    }

    /// How it compares with a number of a query: by their values, however they are written.
    pub fn compare(&self, other: Decimal) -> Ordering
        ensures { result ≡ int_cmp (signed_value self.now.is_negative (billionths self.now.quantity)) (pos (billionths other)) }
    {
        self.value().cmp(&with_sign(false, other.billionths()))
    }
}

impl Signed<Duration> {
    /// The duration that a label's value is: `0`, or perhaps a minus, and 1 to 8 parts. Any other text is `NotOne`.
    pub fn read(text: &str) -> Result<Self, NotOne>
        ensures { result_ok result ≡ duration_in_label text.now }
    {
        if text == "0" {
            return Ok(Signed {
                is_negative: false,
                quantity: no_time(),
            });
        }
        let (is_negative, rest) = sign_at(text.as_bytes());
        match duration_in(rest) {
            Some(quantity) => Ok(Signed {
                is_negative,
                quantity,
            }),
            None => Err(NotOne),
        }
    }

    /// Its value in billionths of a nanosecond.
    pub fn value(&self) -> i128
        ensures { result ≡ signed_value self.now.is_negative (duration_value self.now.quantity) }
    {
        with_sign(self.is_negative, self.quantity.value())
    }

    /// How it compares with a duration of a query: by their values, however they are written.
    pub fn compare(&self, other: &Duration) -> Ordering
        ensures { result ≡ int_cmp (signed_value self.now.is_negative (duration_value self.now.quantity)) (pos (duration_value other.now)) }
    {
        self.value().cmp(&with_sign(false, other.value()))
    }
}

// Whether a minus stands at the front, and what follows it.
fn sign_at(text: &[u8]) -> (bool, &[u8])
    ensures { (result.0, result.1.now) ≡ sign_at text.now }
{
    match text {
        [b'-', rest @ ..] => (true, rest),
        _ => (false, text),
    }
}

fn with_sign(is_negative: bool, value: u128) -> i128
    requires { value < 10 ^ 38 }
    ensures { result ≡ signed_value is_negative value }
{
    if is_negative {
        -(value as i128)
    } else {
        value as i128
    }
}
