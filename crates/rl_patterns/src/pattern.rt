//! Built patterns.
ghost use Rattle.std.specs.Prelude.{◌≡◌, ◌↔◌, IfOk, IfErr, IsTrue, length, string_bytes, true};
ghost use Rattle.rl_plain.specs.declared.refusal.OrMemory.TheVariants.{Fault, Memory};
ghost use Rattle.rl_patterns.specs.Building.{refusal_of};
ghost use Rattle.regex.specs.Patterns.{Matches, Re};
ghost use Rattle.rl_patterns.specs.Matching.{has_match, is_pattern, is_whole_pattern, matches_whole, wrapped, IsRefusalOf, WrapsAs};

use crate::searching::Searching;
use regex::Regex;
use regex_syntax::{Config, ErrorKind};
use rl_plain::{OrMemory, PlainText};
use std::alloc::{AllocError, Global};
use std::marker::Model;
use thiserror::Error;

/// Why a text is refused as a pattern.
#[derive(Clone, Copy, Debug, Drop, Error)]
pub enum PatternFault {
    #[error("this is no regular expression, or it nests too deep")]
    BadRegex,
    #[error("the regular expression takes too much room")]
    TooBig,
}

/// Why no pattern was built.
pub type PatternError = OrMemory<PatternFault>;

impl From<PatternFault> for PatternError {
    ghost from_gives = { λ fault e. e ≡ Fault fault };

    fn from(fault: PatternFault) -> Self {
        OrMemory::Fault(fault)
    }
}

/// A built pattern. Contracts see it as its text.
#[derive(Drop)]
pub struct PatternCode {
    alloc: Global,
    regex: Regex,
}

impl Model for PatternCode {
    ghost use Rattle.std.specs.Prelude.{List, ℕ};
    ghost use Rattle.regex.specs.Strings.{regex_source};
    ghost use Rattle.rl_patterns.specs.Building.{IsBuilt};

    ghost Value = { List ℕ };

    ghost view = { λ a. regex_source a.regex };

    ghost invariant = { λ a. IsBuilt a.regex };
}

impl PatternCode {
    /// The code of the pattern. BadRegex where the text is none, TooBig where its program is.
    pub fn build(alloc: Global, pattern: &str) -> Result<Self, PatternError>
        ensures code { IfOk result (λ code. code ≡ pattern.now) }
        ensures read { IfOk result (λ _. IsTrue (is_pattern pattern.now)) }
        ensures refused { IfErr result (IsRefusalOf (is_pattern pattern.now)) }
    {
        match Regex::new(alloc, pattern) {
            Ok(regex) => Ok(PatternCode { alloc, regex }),
            Err(error) => Err(refusal_of(error)),
        }
    }

    /// Whether the pattern matches somewhere in the text. A `Searching` is faster where there are many.
    pub fn has_match(&self, text: &str) -> Result<bool, AllocError>
        ensures { IfOk result (λ found. found ≡ has_match self.now text.now) }
    {
        let mut searching = self.searching()?;
        Ok(searching.has_match(text))
    }

    /// What searches many texts for the pattern.
    pub fn searching(&self) -> Result<Searching<'_>, AllocError>
        ensures { IfOk result (λ searching. searching ≡ self.now) }
    {
        Searching::new(self.alloc, &self.regex)
    }
}

/// A built pattern that is compared with whole values, as `^(?:pattern)$`. Contracts see it as the pattern's text.
#[derive(Drop)]
pub struct WholePatternCode {
    pattern: PlainText,
    code: PatternCode,
}

impl Model for WholePatternCode {
    ghost use Rattle.std.specs.Prelude.{◌≡◌, List, ℕ};
    ghost use Rattle.rl_patterns.specs.Matching.{wrapped};

    ghost Value = { List ℕ };

    ghost view = { λ a. a.pattern };

    ghost invariant = { λ a. a.code ≡ wrapped a.pattern };
}

impl WholePatternCode {
    /// The code of the pattern. BadRegex where the text is none alone or wrapped, TooBig where its program is.
    #[tactic(auto, unfolding(crate::specs::Matching::is_whole_pattern))]
    pub fn build(alloc: Global, pattern: &str) -> Result<Self, PatternError>
        ensures code { IfOk result (λ code. code ≡ pattern.now) }
        ensures read { IfOk result (λ _. IsTrue (is_whole_pattern pattern.now)) }
        ensures refused { IfErr result (IsRefusalOf (is_whole_pattern pattern.now)) }
    {
        if !is_pattern(alloc, pattern)? {
            return Err(OrMemory::Fault(PatternFault::BadRegex));
        }
        let text = wrapped(alloc, pattern)?;
        let code = PatternCode::build(alloc, text.as_str())?;
        let pattern = PlainText::from_str(alloc, pattern)?;
        Ok(WholePatternCode { pattern, code })
    }

    /// Whether the pattern matches the whole value. A `Searching` is faster where there are many.
    #[tactic(auto, unfolding(crate::specs::Matching::matches_whole))]
    pub fn matches(&self, value: &str) -> Result<bool, AllocError>
        ensures answer { IfOk result (λ answer. answer ≡ matches_whole self.now value.now) }
        ensures whole { IfOk result (λ answer. (re : Re) → WrapsAs self.now re → ((answer ≡ true) ↔ Matches value.now re 0 (length value.now))) }
    {
        self.code.has_match(value)
    }

    /// What compares many values with the pattern: it searches for the wrapped pattern.
    pub fn searching(&self) -> Result<Searching<'_>, AllocError>
        ensures { IfOk result (λ searching. searching ≡ wrapped self.now) }
    {
        self.code.searching()
    }
}

/// Whether the text is a pattern. It is read and not built.
pub fn is_pattern(alloc: Global, text: &str) -> Result<bool, AllocError>
    ensures { IfOk result (λ answer. answer ≡ is_pattern text.now) }
{
    match regex_syntax::parse(alloc, text, &Config::default()) {
        Ok(_) => Ok(true),
        Err(error) => match error.kind {
            ErrorKind::OutOfMemory => Err(AllocError),
            _ => Ok(false),
        },
    }
}

/// Whether the text is a pattern of whole values, alone and as `^(?:pattern)$`. It is read and not built.
#[tactic(auto, unfolding(crate::specs::Matching::is_whole_pattern))]
pub fn is_whole_pattern(alloc: Global, pattern: &str) -> Result<bool, AllocError>
    ensures { IfOk result (λ answer. answer ≡ is_whole_pattern pattern.now) }
{
    if !is_pattern(alloc, pattern)? {
        return Ok(false);
    }
    let text = wrapped(alloc, pattern)?;
    is_pattern(alloc, text.as_str())
}

// The pattern that matches whole values alone.
pub(crate) fn wrapped(alloc: Global, pattern: &str) -> Result<String, AllocError>
    ensures { IfOk result (λ text. string_bytes text ≡ wrapped pattern.now) }
{
    let mut text = String::from_str(alloc, "^(?:")?;
    text.push_str(pattern)?;
    text.push_str(")$")?;
    Ok(text)
}

// Why a text is refused, by the error that its build gave.
fn refusal_of(error: regex::Error) -> PatternError
    ensures { result ≡ refusal_of error }
{
    match error {
        regex::Error::Syntax(_) => OrMemory::Fault(PatternFault::BadRegex),
        regex::Error::CompiledTooBig | regex::Error::Internal => {
            OrMemory::Fault(PatternFault::TooBig)
        }
        regex::Error::OutOfMemory => OrMemory::Memory,
    }
}
