//! What the range of a term has at a moment, added up anew.
ghost use Rattle.std.specs.Prelude.{◌≡◌, ◌≤◌, List, length, map, IfOk, OnOk};
ghost use Rattle.std.specs.List.{filter, fold};
ghost use Rattle.std.specs.List.Sorted.{IsPermutation};
ghost use Rattle.rl_labels.specs.Selects.{selects};
ghost use Rattle.rl_labels.specs.declared.entry.Entry.{Entry};
ghost use Rattle.rl_query.specs.Limits.{longest_range};
ghost use Rattle.rl_aggregate.specs.Counter.{counted_entry};
ghost use Rattle.rl_aggregate.specs.InRange.{in_window, is_selected};
ghost use Rattle.rl_aggregate.specs.Partials.{partial, most_entries};

use crate::counter::Counter;
use crate::partial::Partial;
use rl_labels::{Entry, Labels, Ns, SECOND, SelectorCode};
use rl_pipeline::Pipeline;
use rl_plain::Shared;
use rl_query::Term;
use std::alloc::{AllocError, Global};

/// What the entries in the term's range at the moment add up to.
pub fn scratch(
    alloc: Global,
    entries: &[Shared<Entry>],
    term: &Term,
    t: Ns,
) -> Result<Partial, AllocError>
    requires { length entries.now ≤ most_entries }
    ensures partial { IfOk result (λ found. found ≡ partial entries.now term.now t) }
    ensures any_order { (others : List Entry) → IsPermutation entries.now others → IfOk result (λ found. found ≡ partial others term.now t) }
{
    let selector = selector_of(alloc, term)?;
    let pipelines = pipelines_of(alloc, &[term])?;
    let mut counter = Counter::new(alloc, &pipelines, entries.len() as u64)?;
    count_selected(&mut counter, &selector, entries, term, t)?;
    let mut partials = counter.partials(alloc)?;
    Ok(partials.remove(0))
}

// Counts the lines of the entries that are selected. The selector, which is the term's, built, is asked again only where the
// labels are others than those of the entry before.
fn count_selected(
    counter: &mut Counter<'_>,
    selector: &SelectorCode,
    entries: &[Shared<Entry>],
    term: &Term,
    t: Ns,
) -> Result<(), AllocError>
    requires { selector.now ≡ term.now.range.selector.matchers }
    ensures { OnOk result (counter.new ≡ fold counted_entry counter.old (filter (is_selected term.now t) entries.now)) }
{
    let [first, ..] = entries else {
        return Ok(());
    };
    let mut labels = &first.get().labels;
    let mut is_accepted = selector.accepts(labels)?;
    for entry in entries {
        let entry = entry.get();
        if in_window(term.range.seconds, t, entry.timestamp) {
            is_accepted = accepts_next(selector, labels, is_accepted, &entry.labels)?;
            labels = &entry.labels;
            if is_accepted {
                counter.count(labels, entry.line.as_str())?;
            }
        }
    }
    Ok(())
}

// Whether the selector accepts the labels, by what it answered of those before.
fn accepts_next(
    selector: &SelectorCode,
    before: &Labels,
    is_accepted: bool,
    labels: &Labels,
) -> Result<bool, AllocError>
    requires { is_accepted ≡ selects selector.now before.now }
    ensures { IfOk result (λ answer. answer ≡ selects selector.now labels.now) }
{
    if before == labels {
        Ok(is_accepted)
    } else {
        selector.accepts(labels)
    }
}

/// The built selector of a term. Its patterns were built when it was read, so a refusal is one for memory.
pub fn selector_of(alloc: Global, term: &Term) -> Result<SelectorCode, AllocError>
    ensures { IfOk result (λ selector. selector ≡ term.now.range.selector.matchers) }
{
    SelectorCode::build(alloc, term.range.selector.matchers.as_slice()).or(Err(AllocError))
}

/// The built stages of a term. Their patterns were built when it was read, so a refusal is one for memory.
pub fn pipeline_of(alloc: Global, term: &Term) -> Result<Pipeline, AllocError>
    ensures { IfOk result (λ pipeline. pipeline ≡ term.now.range.stages) }
{
    Pipeline::build(alloc, term).or(Err(AllocError))
}

/// The built stages of several terms.
pub fn pipelines_of(alloc: Global, terms: &[&Term]) -> Result<Vec<Pipeline>, AllocError>
    ensures { IfOk result (λ pipelines. pipelines.items ≡ map (λ term. term.now.range.stages) terms.now) }
{
    let mut pipelines = Vec::with_capacity(alloc, terms.len())?;
    for term in terms {
        pipelines.push(pipeline_of(alloc, term)?)?;
    }
    Ok(pipelines)
}

// Whether the window of a range in seconds has the timestamp.
fn in_window(seconds: u64, t: Ns, timestamp: Ns) -> bool
    requires { seconds ≤ longest_range }
    ensures { result ≡ in_window seconds t timestamp }
{
    timestamp <= t && t.get() < timestamp.get() + seconds * SECOND
}
