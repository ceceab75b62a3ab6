//! Built sieves, which decide what delete requests cover.
ghost use Rattle.std.specs.Prelude.{◌≡◌, IfOk, IfErr};
ghost use Rattle.std.specs.List.{list_all};
ghost use Rattle.rl_labels.specs.Selects.{selects};
ghost use Rattle.rl_pipeline.specs.Building.{IsUnbuilt};
ghost use Rattle.rl_pipeline.specs.Filtering.{passes};
ghost use Rattle.rl_pipeline.specs.Sieving.{are_by_pattern, selects_line, sieve_by_pattern};

use crate::filter::FilterCode;
use rl_labels::{Covers, Labels, Ns, SelectorCode};
use rl_patterns::{PatternError, PatternFault};
use rl_plain::{OrMemory, TryCopy};
use rl_query::{LineFilter, Sieve};
use std::alloc::{AllocError, Global};
use std::marker::Model;

/// A built sieve. Contracts see the sieve.
#[derive(Drop)]
pub struct SieveCode {
    sieve: Sieve,
    selector: SelectorCode,
    filters: Vec<FilterCode>,
}

impl Model for SieveCode {
    ghost use Rattle.std.specs.Prelude.{◌≡◌};
    ghost use Rattle.rl_query.specs.declared.filter.Sieve.{Sieve};

    ghost Value = { Sieve };

    ghost view = { λ a. a.sieve };

    ghost invariant = { λ a. (a.selector ≡ a.sieve.selector.matchers) × (a.filters.items ≡ a.sieve.filters) };
}

impl SieveCode {
    /// The code of the sieve. BadRegex where a pattern takes too much room.
    pub fn build(alloc: Global, sieve: &Sieve) -> Result<SieveCode, PatternError>
        ensures code { IfOk result (λ code. code ≡ sieve.now) }
        ensures refused { IfErr result (IsUnbuilt (sieve_by_pattern sieve.now)) }
    {
        let sieve = sieve.try_copy()?;
        let selector = selector_code(alloc, &sieve)?;
        let filters = filter_codes(alloc, sieve.filters.as_slice())?;
        Ok(SieveCode {
            sieve,
            selector,
            filters,
        })
    }

    /// Whether the selector selects the stream.
    pub fn selects_stream(&self, labels: &Labels) -> Result<bool, AllocError>
        ensures { IfOk result (λ answer. answer ≡ selects self.now.selector.matchers labels.now) }
    {
        self.selector.accepts(labels)
    }

    /// Whether the sieve selects the line of the stream.
    pub fn selects(&self, labels: &Labels, line: &str) -> Result<bool, AllocError>
        ensures { IfOk result (λ answer. answer ≡ selects_line self.now labels.now line.now) }
    {
        if !self.selects_stream(labels)? {
            return Ok(false);
        }
        all_pass(&self.filters, line)
    }
}

impl Covers for SieveCode {
    ghost use Rattle.std.specs.Prelude.{refl};
    ghost use Rattle.rl_pipeline.specs.Sieving.{selects_line, sieve_selects};

    ghost covers_line = { λ sieve labels _ line. selects_line sieve labels line };

    ghost covers = { sieve_selects };

    ghost by_parts = { λ _ _. refl };

    fn covers_line(&self, labels: &Labels, _timestamp: Ns, line: &str) -> Result<bool, AllocError> {
        self.selects(labels, line)
    }

    fn may_cover(&self, labels: &Labels, _from: Ns, _to: Ns) -> Result<bool, AllocError> {
        self.selects_stream(labels)
    }
}

// The code of the selector. Its patterns are patterns, so it is refused for memory or for their size.
fn selector_code(alloc: Global, sieve: &Sieve) -> Result<SelectorCode, PatternError>
    ensures code { IfOk result (λ code. code ≡ sieve.now.selector.matchers) }
    ensures refused { IfErr result (IsUnbuilt (sieve_by_pattern sieve.now)) }
{
    match SelectorCode::build(alloc, sieve.selector.matchers.as_slice()) {
        Ok(code) => Ok(code),
        Err(OrMemory::Fault(_)) => Err(OrMemory::Fault(PatternFault::BadRegex)),
        Err(OrMemory::Memory) => Err(OrMemory::Memory),
    }
}

fn filter_codes(alloc: Global, filters: &[LineFilter]) -> Result<Vec<FilterCode>, PatternError>
    ensures code { IfOk result (λ codes. codes.items ≡ filters.now) }
    ensures refused { IfErr result (IsUnbuilt (are_by_pattern filters.now)) }
{
    let mut codes = Vec::with_capacity(alloc, filters.len())?;
    for filter in filters {
        codes.push(FilterCode::build(alloc, filter)?)?;
    }
    Ok(codes)
}

// Whether each line filter lets the line pass.
fn all_pass(filters: &[FilterCode], line: &str) -> Result<bool, AllocError>
    ensures { IfOk result (λ answer. answer ≡ list_all (λ filter. passes filter line.now) filters.now) }
{
    for filter in filters {
        if !filter.passes(line)? {
            return Ok(false);
        }
    }
    Ok(true)
}
