//! Selectors: label matchers that must all accept.
ghost use Rattle.std.specs.Prelude.{◌≡◌, ◌||◌, IfOk, IfErr, IsOk, IsTrue, not};
ghost use Rattle.rl_labels.specs.Operators.{IsUnbuilt};
ghost use Rattle.rl_labels.specs.Selects.{selects, selects_by, are_by_text};

use crate::labels::Labels;
use crate::matcher::{Matcher, MatcherCode, MatcherError};
use std::alloc::{AllocError, Global};
use std::marker::Model;

/// A built selector, for many label sets. Contracts see the matchers that it was built of.
#[derive(Drop)]
pub struct SelectorCode {
    codes: Vec<MatcherCode>,
}

impl Model for SelectorCode {
    ghost use Rattle.std.specs.Prelude.{List};
    ghost use Rattle.rl_labels.specs.declared.matcher.Matcher.{Matcher};

    ghost Value = { List Matcher };

    ghost view = { λ a. a.codes.items };
}

impl SelectorCode {
    /// The code that applies the matchers.
    pub fn build(alloc: Global, matchers: &[Matcher]) -> Result<SelectorCode, MatcherError>
        ensures code { IfOk result (λ code. code ≡ matchers.now) }
        ensures refused { IfErr result (IsUnbuilt (not (are_by_text matchers.now))) }
    {
        let mut codes = Vec::with_capacity(alloc, matchers.len())?;
        for matcher in matchers {
            codes.push(matcher.build()?)?;
        }
        Ok(SelectorCode { codes })
    }

    /// Whether each matcher accepts the label set. Those that compare texts are asked before those with a pattern.
    #[tactic(auto, using(crate::proofs::Selecting::one_refuses, crate::proofs::Selecting::others_decide))]
    pub fn accepts(&self, labels: &Labels) -> Result<bool, AllocError>
        ensures accepts { IfOk result (λ answer. answer ≡ selects self.now labels.now) }
        ensures no_memory { IsTrue (are_by_text self.now) → IsOk result }
    {
        if !all_accept(false, &self.codes, labels)? {
            return Ok(false);
        }
        all_accept(true, &self.codes, labels)
    }
}

// Whether each matcher that has a pattern, or each that has none, accepts the label set.
fn all_accept(by_pattern: bool, codes: &[MatcherCode], labels: &Labels) -> Result<bool, AllocError>
    ensures accepts { IfOk result (λ answer. answer ≡ selects_by by_pattern codes.now labels.now) }
    ensures no_memory { IsTrue (not by_pattern || are_by_text codes.now) → IsOk result }
{
    for code in codes {
        if code.compares_so(by_pattern) && !code.accepts(labels)? {
            return Ok(false);
        }
    }
    Ok(true)
}
