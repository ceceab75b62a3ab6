//! Label matchers, as in LogQL's stream selectors.
ghost use Rattle.std.specs.Prelude.{◌≡◌, IfOk, IfErr, IsOk, IsTrue, not, true, []};
ghost use Rattle.rl_plain.specs.declared.refusal.OrMemory.TheVariants.{Fault};
ghost use Rattle.rl_patterns.specs.Matching.{is_whole_pattern};
ghost use Rattle.rl_labels.specs.Name.{is_name};
ghost use Rattle.rl_labels.specs.Operators.{is_by_pattern, is_comparable, passes, refusal_of, IsRefusedMatcher, IsUnbuilt, IsUnread};

use crate::labels::{Labels, is_label_name};
use rl_patterns::{PatternError, WholePatternCode, is_whole_pattern, matches_empty};
use rl_plain::{OrMemory, PlainText, Same, TryCopy};
use std::alloc::AllocError;
use std::cmp::Ordering;
use std::marker::Model;
use thiserror::Error;

/// How a matcher compares the label with its value.
#[derive(Clone, Copy, Debug, PartialEq, Eq, PartialOrd, Ord, Hash)]
pub enum MatchOp {
    /// `=`: the label has this value.
    Equal,
    /// `!=`: it has another.
    NotEqual,
    /// `=~`: the pattern matches the label's whole value.
    Matches,
    /// `!~`: it does not.
    NotMatches,
}

/// A label matcher, as in `app="a"`. A missing label reads as the empty text.
#[derive(Drop, PartialEq, Eq, PartialOrd, Hash)]
pub struct Matcher {
    pub name: PlainText,
    pub op: MatchOp,
    pub value: PlainText,
    ghost named: { IsTrue (is_name name) },
    ghost comparable: { IsTrue (is_comparable op value) },
}

/// Why a matcher is refused, the lowest first.
#[derive(Clone, Copy, Debug, Drop, Error)]
pub enum MatcherFault {
    #[error("a label name is not [a-zA-Z_][a-zA-Z0-9_]*")]
    BadName,
    #[error("this is no regular expression, or it takes too much room")]
    BadRegex,
}

/// Why no matcher was made or built.
pub type MatcherError = OrMemory<MatcherFault>;

impl From<MatcherFault> for MatcherError {
    ghost from_gives = { λ fault e. e ≡ Fault fault };

    fn from(fault: MatcherFault) -> Self {
        OrMemory::Fault(fault)
    }
}

impl MatchOp {
    /// Whether the operator compares with a pattern, `=~` and `!~`, and not with a text.
    pub fn is_by_pattern(self) -> bool
        ensures { result ≡ is_by_pattern self }
    {
        match self {
            MatchOp::Equal | MatchOp::NotEqual => false,
            MatchOp::Matches | MatchOp::NotMatches => true,
        }
    }
}

impl Matcher {
    /// The matcher of its parts. A pattern is built to see whether it can be: `BadRegex` where it is none alone or as
    /// `^(?:pattern)$`, or too big.
    pub fn new(name: PlainText, op: MatchOp, value: PlainText) -> Result<Matcher, MatcherError>
        ensures parts { IfOk result (λ matcher. (matcher.name ≡ name) × (matcher.op ≡ op) × (matcher.value ≡ value)) }
        ensures refused { IfErr result (IsRefusedMatcher name op) }
    {
        let matcher = Matcher::read(name, op, value)?;
        if op.is_by_pattern() {
            pattern_of(&matcher.value)?;
        }
        Ok(matcher)
    }

    /// The matcher of its parts. A pattern is read and not built: `BadRegex` exactly where it is none.
    pub fn read(name: PlainText, op: MatchOp, value: PlainText) -> Result<Matcher, MatcherError>
        ensures parts { IfOk result (λ matcher. (matcher.name ≡ name) × (matcher.op ≡ op) × (matcher.value ≡ value)) }
        ensures refused { IfErr result (IsUnread name op value) }
    {
        if !is_label_name(name.as_str()) {
            return Err(OrMemory::Fault(MatcherFault::BadName));
        }
        if op.is_by_pattern() && !is_whole_pattern(value.allocator(), value.as_str())? {
            return Err(OrMemory::Fault(MatcherFault::BadRegex));
        }
        Ok(Matcher { name, op, value })
    }

    /// The code that applies the matcher to many label sets.
    pub fn build(&self) -> Result<MatcherCode, MatcherError>
        ensures code { IfOk result (λ code. code ≡ self.now) }
        ensures refused { IfErr result (IsUnbuilt (is_by_pattern self.now.op)) }
    {
        let matcher = self.try_copy()?;
        let pattern = if self.op.is_by_pattern() {
            Some(pattern_of(&self.value)?)
        } else {
            None
        };
        Ok(MatcherCode { matcher, pattern })
    }

    /// Whether the matcher accepts a stream without its label, which reads as the empty text. A pattern is read and not
    /// built.
    pub fn accepts_missing(&self) -> Result<bool, AllocError>
        ensures answer { IfOk result (λ answer. answer ≡ passes self.now.op self.now.value []) }
        ensures no_memory { IsTrue (not (is_by_pattern self.now.op)) → IsOk result }
    {
        let value = self.value.as_str();
        match self.op {
            MatchOp::Equal => Ok(value.is_empty()),
            MatchOp::NotEqual => Ok(!value.is_empty()),
            MatchOp::Matches => matches_empty(self.value.allocator(), value),
            MatchOp::NotMatches => Ok(!matches_empty(self.value.allocator(), value)?),
        }
    }
}

/// A built matcher. Contracts see it as the matcher that it was built of.
#[derive(Drop)]
pub struct MatcherCode {
    matcher: Matcher,
    pattern: Option<WholePatternCode>,
}

impl Model for MatcherCode {
    ghost use Rattle.std.specs.Prelude.{◌≡◌, if◌then◌else◌, Some, None};
    ghost use Rattle.rl_labels.specs.Operators.{is_by_pattern};
    ghost use Rattle.rl_labels.specs.declared.matcher.Matcher.{Matcher};

    ghost Value = { Matcher };

    ghost view = { λ a. a.matcher };

    ghost invariant = { λ a. a.pattern ≡ (if is_by_pattern a.matcher.op then Some a.matcher.value else None) };
}

impl MatcherCode {
    ghost use Rattle.rl_labels.specs.Selects.{accepts, compares_so};

    /// Whether the matcher accepts the label set.
    pub fn accepts(&self, labels: &Labels) -> Result<bool, AllocError>
        ensures accepts { IfOk result (λ answer. answer ≡ accepts self.now labels.now) }
        ensures no_memory { IsTrue (not (is_by_pattern self.now.op)) → IsOk result }
    {
        let value = labels.get(self.matcher.name.as_str()).unwrap_or("");
        let is_alike = match &self.pattern {
            Some(pattern) => pattern.matches(value)?,
            None => self.matcher.value.as_str() == value,
        };
        match self.matcher.op {
            MatchOp::Equal | MatchOp::Matches => Ok(is_alike),
            MatchOp::NotEqual | MatchOp::NotMatches => Ok(!is_alike),
        }
    }

    // Whether the matcher has a pattern, or has none, as is asked.
    pub(crate) fn compares_so(&self, by_pattern: bool) -> bool
        ensures { result ≡ compares_so by_pattern self.now }
    {
        self.matcher.op.is_by_pattern() == by_pattern
    }
}

// The code of a matcher's pattern.
fn pattern_of(pattern: &PlainText) -> Result<WholePatternCode, MatcherError>
    ensures code { IfOk result (λ code. code ≡ pattern.now) }
    ensures read { IfOk result (λ _. IsTrue (is_whole_pattern pattern.now)) }
    ensures refused { IfErr result (IsUnbuilt true) }
{
    match WholePatternCode::build(pattern.allocator(), pattern.as_str()) {
        Ok(code) => Ok(code),
        Err(error) => Err(refusal_of(error)),
    }
}

// Why a matcher is refused whose pattern was.
fn refusal_of(error: PatternError) -> MatcherError
    ensures { result ≡ refusal_of error }
{
    match error {
        OrMemory::Fault(_) => OrMemory::Fault(MatcherFault::BadRegex),
        OrMemory::Memory => OrMemory::Memory,
    }
}

impl TryCopy for MatchOp {
    /// Takes no memory, and is never refused.
    fn try_copy(&self) -> Result<Self, AllocError>
        ensures copy { IfOk result (λ copy. copy ≡ self.now) }
        ensures made { IsOk result }
    {
        Ok(*self)
    }
}

impl Same for MatchOp {
    fn is_same(&self, other: &Self) -> bool {
        self == other
    }
}

impl TryCopy for Matcher {
    fn try_copy(&self) -> Result<Self, AllocError> {
        let name = self.name.try_copy()?;
        let value = self.value.try_copy()?;
        Ok(Matcher {
            name,
            op: self.op,
            value,
        })
    }
}

impl Same for Matcher {
    fn is_same(&self, other: &Self) -> bool {
        self == other
    }
}

impl Ord for Matcher {
    ghost use Rattle.std.proofs.Common.{rules};
    ghost use Rattle.std.specs.Cmp.Rules.{comparing};
    ghost use Rattle.rl_labels.specs.MatcherOrder.{matcher_cmp};
    ghost use Rattle.rl_labels.specs.laws.OrderLaws.{operators_tie, matcher_cmp_total};

    ghost cmp = { matcher_cmp };

    ghost total = { matcher_cmp_total };

    ghost matches_partial_cmp = { Prim.search (comparing, rules) };

    ghost matches_eq = { Prim.search (operators_tie, comparing, rules) };

    fn cmp(&self, other: &Self) -> Ordering {
        self.name
            .cmp(&other.name)
            .then_with(|| self.op.cmp(&other.op))
            .then_with(|| self.value.cmp(&other.value))
    }
}
