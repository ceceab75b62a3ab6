//! Queries as values. Their limits are facts of the types, so a query always has a text that is read again.
ghost use Rattle.std.specs.Prelude.{◌≡◌, ◌≤◌, IsTrue, length};
ghost use Rattle.rl_query.specs.Limits.{has_real_matcher, longest_range, most_aggregations, most_stages, most_tests};
ghost use Rattle.rl_query.specs.Stages.{count_parsers, count_label_tests, are_shallow_in, in_both};
ghost use Rattle.rl_query.specs.Tables.{function_text, function_with_text};

use crate::aggregation::{Aggregation, Threshold};
use crate::stages::Stage;
use rl_labels::Matcher;
use rl_plain::{PlainList, Same, TryCopy};
use std::alloc::AllocError;

/// A metric query: a term, or the ratio of two, whose samples are perhaps compared with a number. Both terms together have at most 256 stages and 256 label tests.
#[derive(Drop, PartialEq, Eq)]
pub struct Query {
    pub left: Term,
    /// What it is divided by.
    pub over: Option<Term>,
    pub test: Option<Threshold>,
    ghost few: { in_both (λ term. length term.range.stages) left over ≤ most_stages },
    ghost few_tests: { in_both (λ term. count_label_tests term.range.stages) left over ≤ most_tests },
}

/// At most 8 vector aggregations around a range aggregation. Its tests keep to the parentheses that these leave: at most 64 are open at once.
#[derive(Drop, PartialEq, Eq)]
pub struct Term {
    /// The outermost first.
    pub aggregations: PlainList<Aggregation>,
    pub function: RangeFunction,
    pub range: LogRange,
    ghost nested: { length aggregations ≤ most_aggregations },
    ghost shallow: { IsTrue (are_shallow_in aggregations range.stages) },
}

/// What a range aggregation computes of the lines in its range (LogQL).
#[derive(Clone, Copy, Debug, PartialEq, Eq)]
pub enum RangeFunction {
    /// `count_over_time`: how many lines there are.
    CountOverTime,
    /// `rate`: how many there are in a second.
    Rate,
    /// `bytes_over_time`: how many bytes the lines have.
    BytesOverTime,
    /// `bytes_rate`: how many they have in a second.
    BytesRate,
    /// `absent_over_time`: 1 where there is no line.
    AbsentOverTime,
}

/// The range aggregations.
pub const ALL_FUNCTIONS: [RangeFunction; 5] = [
    RangeFunction::CountOverTime,
    RangeFunction::Rate,
    RangeFunction::BytesOverTime,
    RangeFunction::BytesRate,
    RangeFunction::AbsentOverTime,
];

impl RangeFunction {
    /// The word of the range aggregation.
    pub fn as_str(self) -> &'static str
        ensures { result.now ≡ function_text self }
    {
        match self {
            RangeFunction::CountOverTime => "count_over_time",
            RangeFunction::Rate => "rate",
            RangeFunction::BytesOverTime => "bytes_over_time",
            RangeFunction::BytesRate => "bytes_rate",
            RangeFunction::AbsentOverTime => "absent_over_time",
        }
    }

    /// The range aggregation whose word it is.
    pub fn with_text(word: &str) -> Option<RangeFunction>
        ensures { result ≡ function_with_text word.now }
    {
        match word {
            "count_over_time" => Some(RangeFunction::CountOverTime),
            "rate" => Some(RangeFunction::Rate),
            "bytes_over_time" => Some(RangeFunction::BytesOverTime),
            "bytes_rate" => Some(RangeFunction::BytesRate),
            "absent_over_time" => Some(RangeFunction::AbsentOverTime),
            _ => None,
        }
    }
}

/// The lines of a selector's streams that go through each stage, over a range. There are at most 256 stages, one parser and 256 label tests.
#[derive(Drop, PartialEq, Eq)]
pub struct LogRange {
    pub selector: Selector,
    pub stages: PlainList<Stage>,
    /// The range in seconds, 1 to 2,592,000.
    pub seconds: u64,
    ghost few: { length stages ≤ most_stages },
    ghost one_parser: { count_parsers stages ≤ 1 },
    ghost few_tests: { count_label_tests stages ≤ most_tests },
    ghost in_range: { (1 ≤ seconds) × (seconds ≤ longest_range) },
}

/// A stream selector: label matchers, of which at least one refuses a stream without its label.
#[derive(Drop, PartialEq, Eq)]
pub struct Selector {
    pub matchers: PlainList<Matcher>,
    ghost real: { IsTrue (has_real_matcher matchers) },
}

impl TryCopy for Selector {
    fn try_copy(&self) -> Result<Self, AllocError> {
        let matchers = self.matchers.try_copy()?;
        Ok(Selector { matchers })
    }
}

impl Same for Selector {
    fn is_same(&self, other: &Self) -> bool {
        self.matchers.is_same(&other.matchers)
    }
}

impl TryCopy for LogRange {
    fn try_copy(&self) -> Result<Self, AllocError> {
        let selector = self.selector.try_copy()?;
        let stages = self.stages.try_copy()?;
        Ok(LogRange {
            selector,
            stages,
            seconds: self.seconds,
        })
    }
}

impl Same for LogRange {
    fn is_same(&self, other: &Self) -> bool {
        self.seconds == other.seconds
            && self.selector.is_same(&other.selector)
            && self.stages.is_same(&other.stages)
    }
}

impl TryCopy for Term {
    fn try_copy(&self) -> Result<Self, AllocError> {
        let aggregations = self.aggregations.try_copy()?;
        let range = self.range.try_copy()?;
        Ok(Term {
            aggregations,
            function: self.function,
            range,
        })
    }
}

impl Same for Term {
    fn is_same(&self, other: &Self) -> bool {
        self.function == other.function
            && self.aggregations.is_same(&other.aggregations)
            && self.range.is_same(&other.range)
    }
}

impl TryCopy for Query {
    fn try_copy(&self) -> Result<Self, AllocError> {
        let left = self.left.try_copy()?;
        let over = self.over.try_copy()?;
        let test = self.test.try_copy()?;
        Ok(Query { left, over, test })
    }
}

impl Same for Query {
    fn is_same(&self, other: &Self) -> bool {
        self.left.is_same(&other.left)
            && self.over.is_same(&other.over)
            && self.test.is_same(&other.test)
    }
}
