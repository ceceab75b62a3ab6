//! Windows of the ranges of terms, built of what streams hold.
ghost use Rattle.std.specs.Prelude.{◌≡◌, ◌≤◌, ◌⊎◌, ◌++◌, List, [], ◌∷◌, length, map, take, true, IfErr, IfOk, IfSome, OnOk};
ghost use Rattle.std.specs.List.{AllByRecursion, AllZip};
ghost use Rattle.rl_labels.specs.declared.matcher.Matcher.{Matcher};
ghost use Rattle.rl_windows.specs.Ranges.{code_of};
ghost use Rattle.rl_slots.specs.Slots.{key_of, term_key, ArePicked, IsWindowOf};
ghost use Rattle.rl_streams.specs.StreamsState.{Looks};
ghost use Rattle.rl_shard.specs.Collecting.{IsOfReading};
ghost use Rattle.rl_shard.specs.Live.{IsBuiltFrom, IsRangeAt};
ghost use Rattle.rl_shard.specs.ShardFault.{IsOfStore, after_step};

use crate::step::ShardFault;
use rl_chunks::Store;
use rl_deletes::Requests;
use rl_labels::Ns;
use rl_pipeline::Meter;
use rl_plain::Same;
use rl_query::Term;
use rl_slots::RangeWindow;
use rl_streams::Streams;
use rl_windows::{RangeCode, Window, build};
use std::alloc::{AllocError, Global};

// A window for each range of terms, and for each term the index of its own.
#[derive(Drop)]
pub(crate) struct TermWindows {
    pub(crate) windows: Vec<RangeWindow>,
    pub(crate) indices: Vec<usize>,
}

// A term for each range of terms, and for each term the index of the one with its range.
#[derive(Drop)]
struct TermRanges<'a> {
    terms: Vec<&'a Term>,
    indices: Vec<usize>,
}

// Windows of terms at a moment, with the lines that no received request covers.
pub(crate) fn windows_of<S: Store>(
    alloc: Global,
    streams: &mut Streams<S>,
    requests: &Requests,
    terms: &[Term],
    t: Ns,
    meter: &mut Meter,
) -> Result<TermWindows, ShardFault>
    ensures same { Looks streams.old streams.new }
    ensures meets { IfErr result IsOfReading }
    ensures counted { streams.new.seen.faults ≡ after_step result streams.old.seen.faults }
    ensures of_store { IfErr result (λ fault. IsOfStore streams.old fault streams.new) }
    ensures of_terms { IfOk result (λ built. AllZip (IsWindowOf built.windows.items) terms.now built.indices.items) }
    ensures picked { IfOk result (λ built. ArePicked (map key_of built.windows.items) (map term_key terms.now)) }
    ensures built { IfOk result (λ built. AllByRecursion (IsBuiltFrom streams.old requests.now t) built.windows.items) }
{
    let ranges = ranges_of(alloc, terms)?;
    let windows = each_window(alloc, streams, requests, &ranges.terms, t, meter)?;
    Ok(TermWindows {
        windows,
        indices: ranges.indices,
    })
}

// A window of each term. Terms that stand together and have one selector are read together.
fn each_window<S: Store>(
    alloc: Global,
    streams: &mut Streams<S>,
    requests: &Requests,
    terms: &[&Term],
    t: Ns,
    meter: &mut Meter,
) -> Result<Vec<RangeWindow>, ShardFault>
    ensures same { Looks streams.old streams.new }
    ensures meets { IfErr result IsOfReading }
    ensures counted { streams.new.seen.faults ≡ after_step result streams.old.seen.faults }
    ensures of_store { IfErr result (λ fault. IsOfStore streams.old fault streams.new) }
    ensures keys { IfOk result (λ windows. map key_of windows.items ≡ map (λ term. term_key term.now) terms.now) }
    ensures built { IfOk result (λ windows. AllByRecursion (IsBuiltFrom streams.old requests.now t) windows.items) }
{
    let mut windows = Vec::with_capacity(alloc, terms.len())?;
    let mut first = 0;
    while first < terms.len() {
        let rest = &terms[first..];
        let alike = &rest[..alike_len(rest)];
        let mut built = windows_alike(alloc, streams, requests, alike, t, meter)?;
        windows.append(&mut built)?;
        first += alike.len();
    }
    Ok(windows)
}

// How many of the first terms have one selector.
fn alike_len(terms: &[&Term]) -> usize
    requires { 1 ≤ length terms.now }
    ensures some { (1 ≤ result) × (result ≤ length terms.now) }
    ensures of_one { (matchers : List Matcher) × AllByRecursion (λ term. term.now.range.selector.matchers ≡ matchers) (take result terms.now) }
{
    let selector = &terms[0].range.selector;
    let mut len = 1;
    while len < terms.len() && terms[len].range.selector.is_same(selector) {
        len += 1;
    }
    len
}

// The windows of terms of one selector, read by one visit.
fn windows_alike<S: Store>(
    alloc: Global,
    streams: &mut Streams<S>,
    requests: &Requests,
    terms: &[&Term],
    t: Ns,
    meter: &mut Meter,
) -> Result<Vec<RangeWindow>, ShardFault>
    requires some { 1 ≤ length terms.now }
    requires of_one { (matchers : List Matcher) × AllByRecursion (λ term. term.now.range.selector.matchers ≡ matchers) terms.now }
    ensures same { Looks streams.old streams.new }
    ensures meets { IfErr result IsOfReading }
    ensures counted { streams.new.seen.faults ≡ after_step result streams.old.seen.faults }
    ensures of_store { IfErr result (λ fault. IsOfStore streams.old fault streams.new) }
    ensures keys { IfOk result (λ windows. map key_of windows.items ≡ map (λ term. term_key term.now) terms.now) }
    ensures built { IfOk result (λ windows. AllByRecursion (IsBuiltFrom streams.old requests.now t) windows.items) }
{
    // Read for contracts, which learn that it is within the greatest.
    let _moment = t.get();
    let built = build(alloc, streams, requests, terms, t, meter)?;
    Ok(with_codes(alloc, terms, built)?)
}

// Windows with the codes of the ranges of their terms.
fn with_codes(
    alloc: Global,
    terms: &[&Term],
    windows: Vec<Window>,
) -> Result<Vec<RangeWindow>, AllocError>
    requires { length windows.items ≡ length terms.now }
    ensures codes { IfOk result (λ coded. map (λ it. it.code) coded.items ≡ map (λ term. code_of term.now) terms.now) }
    ensures windows { IfOk result (λ coded. map (λ it. it.window) coded.items ≡ windows.items) }
{
    let mut coded = Vec::with_capacity(alloc, terms.len())?;
    for (term, window) in terms.iter().zip(windows) {
        let code = RangeCode::build(alloc, term)?;
        coded.push(RangeWindow { code, window })?;
    }
    Ok(coded)
}

// The ranges of terms, each once.
fn ranges_of<'a>(alloc: Global, terms: &'a [Term]) -> Result<TermRanges<'a>, AllocError>
    ensures of_terms { IfOk result (λ ranges. AllZip (IsRangeAt (map (λ term. term_key term.now) ranges.terms.items)) terms.now ranges.indices.items) }
    ensures picked { IfOk result (λ ranges. ArePicked (map (λ term. term_key term.now) ranges.terms.items) (map term_key terms.now)) }
{
    let mut first = Vec::new(alloc);
    let mut indices = Vec::with_capacity(alloc, terms.len())?;
    for term in terms {
        let index = index_in(&mut first, term)?;
        indices.push(index)?;
    }
    Ok(TermRanges {
        terms: first,
        indices,
    })
}

// The index of a term of the same range, which is the term itself where there was none.
fn index_in<'a>(terms: &mut Vec<&'a Term>, term: &'a Term) -> Result<usize, AllocError>
    ensures found { IfOk result (IsRangeAt (map (λ one. term_key one.now) terms.new.items) term.now) }
    ensures more { OnOk result ((terms.new.items ≡ terms.old.items) ⊎ (terms.new.items ≡ terms.old.items ++ term.entry ∷ [])) }
{
    if let Some(index) = index_of(terms, term) {
        return Ok(index);
    }
    terms.push(term)?;
    Ok(terms.len() - 1)
}

// The index of a term of the same range, if there is one.
fn index_of(terms: &[&Term], term: &Term) -> Option<usize>
    ensures { IfSome result (IsRangeAt (map (λ one. term_key one.now) terms.now) term.now) }
{
    terms.iter().position(|one| is_of(one, term))
}

// Whether both have one range. Ranges that are asked for together mostly differ in their stages, which are compared first.
fn is_of(one: &Term, term: &Term) -> bool
    ensures { result ≡ true → term_key one.now ≡ term_key term.now }
{
    one.range.stages.is_same(&term.range.stages) && one.range.is_same(&term.range)
}
