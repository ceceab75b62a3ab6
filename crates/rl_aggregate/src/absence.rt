//! What `absent_over_time` gives: where no line is, 1 with the labels that follow from the selector.
ghost use Rattle.std.specs.Prelude.{◌≡◌, IfOk};
ghost use Rattle.std.specs.FinMap as map;
ghost use Rattle.rl_aggregate.specs.Absence.{absence, absent_labels, gives_label, stands_once};

use crate::outcome::{Fraction, Sample};
use crate::totals::Totals;
use rl_labels::{Labels, MatchOp, Matcher};
use std::alloc::{AllocError, Global};

// A sample where there are no totals, and none where there are some.
pub(crate) fn absence(
    alloc: Global,
    matchers: &[Matcher],
    totals: &Totals,
) -> Result<Vec<Sample>, AllocError>
    ensures { IfOk result (λ samples. samples.items ≡ absence matchers.now totals.now) }
{
    let mut samples = Vec::new(alloc);
    if totals.is_empty() {
        let labels = absent_labels(alloc, matchers)?;
        samples.push(Sample {
            labels,
            value: Fraction::ONE,
        })?;
    }
    Ok(samples)
}

// The labels that follow from the matchers of a selector.
fn absent_labels(alloc: Global, matchers: &[Matcher]) -> Result<Labels, AllocError>
    ensures { IfOk result (λ labels. labels ≡ absent_labels matchers.now) }
{
    let mut labels = Labels::empty(alloc)?;
    let mut rest = matchers;
    while let Some((matcher, before)) = rest.split_last() {
        if gives_label(matchers, matcher) {
            labels = labels.with_label(matcher.name.as_str(), matcher.value.as_str())?;
        }
        rest = before;
    }
    Ok(labels)
}

// Whether the matcher asks for a text that is not empty, and no other asks for that label.
fn gives_label(matchers: &[Matcher], matcher: &Matcher) -> bool
    ensures { result ≡ gives_label matchers.now matcher.now }
{
    matches!(matcher.op, MatchOp::Equal)
        && !matcher.value.as_str().is_empty()
        && stands_once(matchers, matcher.name.as_str())
}

// Whether one matcher alone has the name.
fn stands_once(matchers: &[Matcher], name: &str) -> bool
    ensures { result ≡ stands_once matchers.now name.now }
{
    let same = matchers
        .iter()
        .filter(|matcher| matcher.name.as_str() == name);
    same.count() == 1
}
