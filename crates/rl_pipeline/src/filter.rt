//! Built line filters.
ghost use Rattle.std.specs.Prelude.{◌≡◌, false, true, IfOk, IfErr, IsOk};
ghost use Rattle.rl_patterns.specs.Matching.{has_match};
ghost use Rattle.rl_pipeline.specs.Building.{is_by_pattern, IsUnbuilt};
ghost use Rattle.rl_pipeline.specs.Filtering.{passes};

use crate::search::{Looking, Search};
use memchr::memmem::Finder;
use rl_patterns::{PatternCode, PatternError, PatternFault, Searching};
use rl_plain::{OrMemory, TryCopy};
use rl_query::{LineFilter, LineOp};
use std::alloc::{AllocError, Global};
use std::marker::Model;

/// A built line filter. Contracts see it as the filter that it was built of.
#[derive(Drop)]
pub struct FilterCode {
    alloc: Global,
    filter: LineFilter,
    sought: Sought,
}

// What a filter looks for in a line.
#[derive(Drop)]
pub(crate) enum Sought {
    Text(Finder<'static>),
    Pattern(PatternCode),
}

impl Model for FilterCode {
    ghost use Rattle.rl_query.specs.declared.filter.LineFilter.{LineFilter};

    ghost Value = { LineFilter };

    ghost use Rattle.rl_pipeline.specs.Sought.{IsSoughtBy};

    ghost view = { λ a. a.filter };

    ghost invariant = { λ a. IsSoughtBy a.filter a.sought };
}

// The code of a pattern. What takes too much room is reported as BadRegex.
fn pattern_code(alloc: Global, pattern: &str) -> Result<PatternCode, PatternError>
    ensures code { IfOk result (λ code. code ≡ pattern.now) }
    ensures refused { IfErr result (IsUnbuilt true) }
{
    match PatternCode::build(alloc, pattern) {
        Ok(code) => Ok(code),
        Err(OrMemory::Fault(_)) => Err(OrMemory::Fault(PatternFault::BadRegex)),
        Err(OrMemory::Memory) => Err(OrMemory::Memory),
    }
}

// What searches many lines for a pattern. Its caches are large, so they lie in a frame of its own.
#[inline(never)]
fn boxed_searching(alloc: Global, code: &PatternCode) -> Result<Box<Searching<'_>>, AllocError>
    ensures { IfOk result (λ searching. searching.value ≡ code.now) }
{
    let searching = Box::new(alloc, code.searching()?)?;
    Ok(searching)
}

// Whether a pattern matches somewhere in a line, with caches for this line alone, which lie in a frame of their own.
#[inline(never)]
fn has_match(code: &PatternCode, line: &str) -> Result<bool, AllocError>
    ensures { IfOk result (λ found. found ≡ has_match code.now line.now) }
{
    code.has_match(line)
}

impl FilterCode {
    /// The code of the filter. BadRegex where its pattern takes too much room.
    pub fn build(alloc: Global, filter: &LineFilter) -> Result<FilterCode, PatternError>
        ensures code { IfOk result (λ code. code ≡ filter.now) }
        ensures refused { IfErr result (IsUnbuilt (is_by_pattern filter.now)) }
    {
        let filter = filter.try_copy()?;
        let sought = match filter.op {
            LineOp::Contains | LineOp::Lacks => {
                Sought::Text(Finder::new(filter.text.as_str().as_bytes()).into_owned(alloc)?)
            }
            LineOp::Matches | LineOp::NotMatches => {
                Sought::Pattern(pattern_code(alloc, filter.text.as_str())?)
            }
        };
        Ok(FilterCode {
            alloc,
            filter,
            sought,
        })
    }

    /// What asks many lines for the filter.
    pub fn search(&self) -> Result<Search<'_>, AllocError>
        ensures { IfOk result (λ search. search ≡ self.now) }
    {
        let looking = match &self.sought {
            Sought::Text(finder) => Looking::Text(finder),
            Sought::Pattern(code) => Looking::Pattern(boxed_searching(self.alloc, code)?),
        };
        Ok(Search {
            filter: &self.filter,
            looking,
        })
    }

    // Whether the filter lets one line pass. One by text takes no memory. A `Search` is faster where there are many lines.
    #[tactic(auto, using(crate::proofs::Standing::found))]
    pub(crate) fn passes(&self, line: &str) -> Result<bool, AllocError>
        ensures answer { IfOk result (λ answer. answer ≡ passes self.now line.now) }
        ensures by_text { is_by_pattern self.now ≡ false → IsOk result }
    {
        let is_found = match &self.sought {
            Sought::Text(finder) => finder.find(line.as_bytes()).is_some(),
            Sought::Pattern(code) => has_match(code, line)?,
        };
        match self.filter.op {
            LineOp::Contains | LineOp::Matches => Ok(is_found),
            LineOp::Lacks | LineOp::NotMatches => Ok(!is_found),
        }
    }
}
