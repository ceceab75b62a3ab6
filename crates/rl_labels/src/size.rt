//! Sizes as LogQL's label filters write them.
ghost use Rattle.std.specs.Prelude.{◌≡◌, ◌<◌, ◌^◌, ◌++◌, IfOk, IsOk, IsTrue, OnOk, Some, string_bytes};
ghost use Rattle.std.specs.Result.{result_ok};
ghost use Rattle.rl_labels.specs.Quantities.{bytes_in, size_unit, without_space, size_of, size_value};
ghost use Rattle.rl_labels.specs.QuantityTexts.{size_unit_text, size_text, is_size};
ghost use Rattle.rl_labels.specs.declared.size.Size.{Size};

use crate::decimal::{Decimal, NotOne};
use crate::quantity::front_of;
use rl_plain::{Same, TryCopy};
use std::alloc::AllocError;

/// A unit of sizes, in bytes.
#[derive(Clone, Copy, Debug, PartialEq, Eq)]
pub enum SizeUnit {
    Byte,
    Kilobyte,
    Kibibyte,
    Megabyte,
    Mebibyte,
    Gigabyte,
    Gibibyte,
}

impl SizeUnit {
    /// How many bytes it has.
    pub fn bytes(self) -> u64
        ensures value { result ≡ bytes_in self }
        ensures small { result < 10 ^ 10 }
    {
        match self {
            SizeUnit::Byte => 1,
            SizeUnit::Kilobyte => 1_000,
            SizeUnit::Kibibyte => 1 << 10,
            SizeUnit::Megabyte => 1_000_000,
            SizeUnit::Mebibyte => 1 << 20,
            SizeUnit::Gigabyte => 1_000_000_000,
            SizeUnit::Gibibyte => 1 << 30,
        }
    }

    // As canonical texts write it.
    fn text(self) -> &'static str
        ensures { result.now ≡ size_unit_text self }
    {
        match self {
            SizeUnit::Byte => "b",
            SizeUnit::Kilobyte => "kb",
            SizeUnit::Kibibyte => "kib",
            SizeUnit::Megabyte => "mb",
            SizeUnit::Mebibyte => "mib",
            SizeUnit::Gigabyte => "gb",
            SizeUnit::Gibibyte => "gib",
        }
    }
}

// The unit that a text is, in either case.
fn size_unit(text: &[u8]) -> Option<SizeUnit>
    ensures { result ≡ size_unit text.now }
{
    if text.eq_ignore_ascii_case(b"b") {
        Some(SizeUnit::Byte)
    } else if text.eq_ignore_ascii_case(b"kb") {
        Some(SizeUnit::Kilobyte)
    } else if text.eq_ignore_ascii_case(b"kib") {
        Some(SizeUnit::Kibibyte)
    } else if text.eq_ignore_ascii_case(b"mb") {
        Some(SizeUnit::Megabyte)
    } else if text.eq_ignore_ascii_case(b"mib") {
        Some(SizeUnit::Mebibyte)
    } else if text.eq_ignore_ascii_case(b"gb") {
        Some(SizeUnit::Gigabyte)
    } else if text.eq_ignore_ascii_case(b"gib") {
        Some(SizeUnit::Gibibyte)
    } else {
        None
    }
}

/// A size as it is written.
#[derive(Clone, Copy, PartialEq, Eq)]
pub struct Size {
    pub number: Decimal,
    pub unit: SizeUnit,
}

impl Size {
    /// The size that a text is: a decimal, at most one space, and a unit. Any other text is `NotOne`.
    #[tactic(auto, using(crate::specs::laws::QuantityLaws::size_again, crate::specs::laws::QuantityLaws::size_proper))]
    pub fn read(text: &str) -> Result<Size, NotOne>
        ensures read { result_ok result ≡ size_of text.now }
        ensures again { (size : Size) → IsTrue (is_size size) → text.now ≡ size_text size → result_ok result ≡ Some size }
        ensures proper { IfOk result (λ size. IsTrue (is_size size)) }
    {
        size_in(text.as_bytes()).ok_or(NotOne)
    }

    /// Its value in billionths of a byte.
    pub fn value(self) -> u128
        ensures value { result ≡ size_value self }
        ensures small { result < 10 ^ 34 }
    {
        self.number.billionths() * u128::from(self.unit.bytes())
    }

    /// Appends its canonical text, as `1.5kib`.
    pub fn push_to(self, text: &mut String) -> Result<(), AllocError>
        ensures { OnOk result (string_bytes text.new ≡ string_bytes text.old ++ size_text self) }
    {
        self.number.push_to(text)?;
        text.push_str(self.unit.text())
    }
}

fn size_in(text: &[u8]) -> Option<Size>
    ensures { result ≡ size_of text.now }
{
    let (number, unit) = front_of(text, true);
    let number = Decimal::of_digits(number, 15)?;
    let unit = size_unit(without_space(unit))?;
    Some(Size { number, unit })
}

// The text without a space at its front.
fn without_space(text: &[u8]) -> &[u8]
    ensures { result.now ≡ without_space text.now }
{
    match text {
        [b' ', rest @ ..] => rest,
        _ => text,
    }
}

impl TryCopy for SizeUnit {
    /// Takes no memory, and is never refused.
    fn try_copy(&self) -> Result<Self, AllocError>
        ensures copy { IfOk result (λ copy. copy ≡ self.now) }
        ensures made { IsOk result }
    {
        Ok(*self)
    }
}

impl Same for SizeUnit {
    fn is_same(&self, other: &Self) -> bool {
        self == other
    }
}

impl TryCopy for Size {
    /// Takes no memory, and is never refused.
    fn try_copy(&self) -> Result<Self, AllocError>
        ensures copy { IfOk result (λ copy. copy ≡ self.now) }
        ensures made { IsOk result }
    {
        Ok(*self)
    }
}

impl Same for Size {
    fn is_same(&self, other: &Self) -> bool {
        self == other
    }
}
