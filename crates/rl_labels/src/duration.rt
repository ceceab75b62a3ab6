//! Durations as LogQL's label filters write them.
ghost use Rattle.std.specs.Prelude.{◌≡◌, ◌<◌, ◌≤◌, ◌^◌, ◌++◌, List, length, IfOk, IsOk, IsTrue, OnOk, None, Some, [], string_bytes, if◌then◌else◌};
ghost use Rattle.std.specs.Option.{option_map};
ghost use Rattle.std.specs.Result.{result_ok};
ghost use Rattle.rl_labels.specs.Quantities.{nanoseconds_in, duration_unit, part_at, part_value, duration_of, duration_value, no_time};
ghost use Rattle.rl_labels.specs.QuantityTexts.{duration_unit_text, part_text, duration_text, is_duration};
ghost use Rattle.rl_labels.specs.declared.duration.DurationPart.{DurationPart};

use crate::decimal::{Decimal, NotOne};
use crate::quantity::front_of;
use arrayvec::ArrayVec;
use rl_plain::{Same, TryCopy};
use std::alloc::AllocError;
use std::marker::Model;

/// A unit of durations. `us` is also written with either micro sign.
#[derive(Clone, Copy, Debug, Default, PartialEq, Eq)]
pub enum DurationUnit {
    Nanosecond,
    Microsecond,
    Millisecond,
    #[default]
    Second,
    Minute,
    Hour,
}

impl DurationUnit {
    /// How many nanoseconds it has.
    pub fn nanoseconds(self) -> u64
        ensures value { result ≡ nanoseconds_in self }
        ensures small { result < 10 ^ 13 }
    {
        match self {
            DurationUnit::Nanosecond => 1,
            DurationUnit::Microsecond => 1_000,
            DurationUnit::Millisecond => 1_000_000,
            DurationUnit::Second => 1_000_000_000,
            DurationUnit::Minute => 60_000_000_000,
            DurationUnit::Hour => 3_600_000_000_000,
        }
    }

    // As canonical texts write it.
    fn text(self) -> &'static str
        ensures { result.now ≡ duration_unit_text self }
    {
        match self {
            DurationUnit::Nanosecond => "ns",
            DurationUnit::Microsecond => "us",
            DurationUnit::Millisecond => "ms",
            DurationUnit::Second => "s",
            DurationUnit::Minute => "m",
            DurationUnit::Hour => "h",
        }
    }
}

// The unit that a text is.
fn duration_unit(text: &[u8]) -> Option<DurationUnit>
    ensures { result ≡ duration_unit text.now }
{
    if text == b"ns".as_slice() {
        Some(DurationUnit::Nanosecond)
    } else if text == b"us".as_slice() {
        Some(DurationUnit::Microsecond)
    } else if text == b"\xc2\xb5s".as_slice() {
        Some(DurationUnit::Microsecond)
    } else if text == b"\xce\xbcs".as_slice() {
        Some(DurationUnit::Microsecond)
    } else if text == b"ms".as_slice() {
        Some(DurationUnit::Millisecond)
    } else if text == b"s".as_slice() {
        Some(DurationUnit::Second)
    } else if text == b"m".as_slice() {
        Some(DurationUnit::Minute)
    } else if text == b"h".as_slice() {
        Some(DurationUnit::Hour)
    } else {
        None
    }
}

/// A part of a duration.
#[derive(Clone, Copy, Default, PartialEq, Eq)]
pub struct DurationPart {
    pub number: Decimal,
    pub unit: DurationUnit,
}

// A part of a duration at the front, and what follows it.
fn part_at(text: &[u8]) -> Option<(DurationPart, &[u8])>
    ensures { option_map (λ part. (part.0, part.1.now)) result ≡ part_at text.now }
{
    let (number, rest) = front_of(text, true);
    let (unit, following) = front_of(rest, false);
    let number = Decimal::of_digits(number, 15)?;
    let unit = duration_unit(unit)?;
    Some((DurationPart { number, unit }, following))
}

impl DurationPart {
    /// Its value in billionths of a nanosecond.
    pub fn value(self) -> u128
        ensures value { result ≡ part_value self }
        ensures small { result < 10 ^ 37 }
    {
        self.number.billionths() * u128::from(self.unit.nanoseconds())
    }

    // Appends its canonical text.
    fn push_to(self, text: &mut String) -> Result<(), AllocError>
        ensures { OnOk result (string_bytes text.new ≡ string_bytes text.old ++ part_text self) }
    {
        self.number.push_to(text)?;
        text.push_str(self.unit.text())
    }
}

// The most parts of a duration.
const MOST_PARTS: usize = 8;

/// A duration as it is written: 1 to 8 parts, which are added. Contracts see them.
#[derive(Drop)]
pub struct Duration {
    parts: ArrayVec<DurationPart, 8>,
}

impl Model for Duration {
    ghost use Rattle.std.specs.Prelude.{List};
    ghost use Rattle.rl_labels.specs.declared.duration.DurationPart.{DurationPart};

    ghost Value = { List DurationPart };

    ghost view = { λ a. a.parts.items };
}

impl PartialEq for Duration {
    ghost use Rattle.std.specs.Cmp.Lexicographic.{pointwise, lists_per};
    ghost use Rattle.rl_labels.specs.contracts.duration.DurationPartPartialEq.TheImpl as parts;
    ghost use Rattle.rl_labels.specs.contracts.duration.DurationPartPartialEq.TheImpl.Laws as parts_laws;

    ghost eq = { pointwise (parts.ghosts).eq };

    ghost laws = { lists_per parts_laws.laws-law };

    fn eq(&self, other: &Self) -> bool {
        self.parts() == other.parts()
    }
}

impl Eq for Duration {
    ghost use Rattle.std.specs.Cmp.Lexicographic.{lists_equiv};
    ghost use Rattle.rl_labels.specs.contracts.duration.DurationPartEq.TheImpl.Laws as parts_laws;

    ghost laws = { lists_equiv parts_laws.laws-law };
}

impl Duration {
    /// The duration that a text is. Any other text is `NotOne`.
    #[tactic(auto, using(crate::specs::laws::QuantityLaws::duration_again, crate::specs::laws::QuantityLaws::duration_proper))]
    pub fn read(text: &str) -> Result<Duration, NotOne>
        ensures read { result_ok result ≡ duration_of text.now }
        ensures again { (parts : List DurationPart) → IsTrue (is_duration parts) → text.now ≡ duration_text parts → result_ok result ≡ Some parts }
        ensures proper { IfOk result (λ duration. IsTrue (is_duration duration)) }
    {
        duration_in(text.as_bytes()).ok_or(NotOne)
    }

    /// The parts as they were written.
    pub fn parts(&self) -> &[DurationPart]
        ensures parts { result.now ≡ self.now }
        ensures few { length result.now ≤ 8 }
    {
        self.parts.as_slice()
    }

    /// Its value in billionths of a nanosecond.
    pub fn value(&self) -> u128
        ensures value { result ≡ duration_value self.now }
        ensures small { result < 10 ^ 38 }
    {
        let mut value = 0;
        for part in self.parts() {
            value += part.value();
        }
        value
    }

    /// Appends its canonical text, as `1h30m`.
    pub fn push_to(&self, text: &mut String) -> Result<(), AllocError>
        ensures { OnOk result (string_bytes text.new ≡ string_bytes text.old ++ duration_text self.now) }
    {
        for part in self.parts() {
            part.push_to(text)?;
        }
        Ok(())
    }
}

pub(crate) fn duration_in(text: &[u8]) -> Option<Duration>
    ensures { result ≡ duration_of text.now }
{
    let mut parts = ArrayVec::new();
    if read_parts(text, &mut parts) {
        Some(Duration { parts })
    } else {
        None
    }
}

// Reads 1 to 8 parts. Whether the text is nothing else.
fn read_parts(text: &[u8], parts: &mut ArrayVec<DurationPart, 8>) -> bool
    requires { parts.old.items ≡ [] }
    ensures { duration_of text.now ≡ if result then Some parts.new.items else None }
{
    let mut rest = text;
    for _turn in 0..MOST_PARTS {
        let Some((part, following)) = part_at(rest) else {
            return false;
        };
        parts.push(part);
        if following.is_empty() {
            return true;
        }
        rest = following;
    }
    false
}

/// Zero seconds.
pub(crate) fn no_time() -> Duration
    ensures { result ≡ no_time }
{
    let mut parts = ArrayVec::new();
    parts.push(DurationPart::default());
    Duration { parts }
}

impl TryCopy for DurationUnit {
    /// Takes no memory, and is never refused.
    fn try_copy(&self) -> Result<Self, AllocError>
        ensures copy { IfOk result (λ copy. copy ≡ self.now) }
        ensures made { IsOk result }
    {
        Ok(*self)
    }
}

impl Same for DurationUnit {
    fn is_same(&self, other: &Self) -> bool {
        self == other
    }
}

impl TryCopy for DurationPart {
    /// Takes no memory, and is never refused.
    fn try_copy(&self) -> Result<Self, AllocError>
        ensures copy { IfOk result (λ copy. copy ≡ self.now) }
        ensures made { IsOk result }
    {
        Ok(*self)
    }
}

impl Same for DurationPart {
    fn is_same(&self, other: &Self) -> bool {
        self == other
    }
}

impl TryCopy for Duration {
    /// Takes no memory, and is never refused.
    fn try_copy(&self) -> Result<Self, AllocError>
        ensures copy { IfOk result (λ copy. copy ≡ self.now) }
        ensures made { IsOk result }
    {
        let mut parts = ArrayVec::new();
        for part in self.parts() {
            parts.push(*part);
        }
        Ok(Duration { parts })
    }
}

impl Same for Duration {
    fn is_same(&self, other: &Self) -> bool {
        self == other
    }
}
