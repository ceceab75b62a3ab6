//! The labels that all samples of a group of a vector have.
ghost use Rattle.std.specs.Prelude.{◌≡◌, true, IfOk};
ghost use Rattle.std.specs.List.{filter, list_any};
ghost use Rattle.rl_labels.specs.LabelSet.{no_labels};
ghost use Rattle.rl_labels.specs.Name.{is_text};
ghost use Rattle.rl_aggregate.specs.Grouping.{is_grouping_label, group_of};

use rl_labels::{Labels, LabelsBuilder, ShortText};
use rl_plain::{PlainText, TryCopy};
use rl_query::Grouping;
use std::alloc::{AllocError, Global};

// The labels of the group that a sample with these labels is in. They are shared with the group of another sample
// where they are its labels too, and else a label set is built, from none.
pub(crate) fn group_of(
    alloc: Global,
    grouping: &Grouping,
    none: &Labels,
    other: &Labels,
    labels: &Labels,
) -> Result<Labels, AllocError>
    requires { none.now ≡ no_labels }
    ensures { IfOk result (λ made. made ≡ group_of grouping.now labels.now) }
{
    if are_of_group(grouping, other.pairs(), labels.pairs()) {
        other.try_copy()
    } else {
        kept_labels(alloc, grouping, none, labels)
    }
}

// Whether these are the labels of the group that a sample with those labels is in. Takes no memory.
fn are_of_group(
    grouping: &Grouping,
    group: &[(ShortText, ShortText)],
    labels: &[(ShortText, ShortText)],
) -> bool
    ensures { result ≡ true → group.now ≡ filter (λ pair. is_grouping_label grouping.now pair.0) labels.now }
{
    let mut rest = group;
    for label in labels {
        if is_grouping_label(grouping, label.0.as_str()) {
            let Some((first, others)) = rest.split_first() else {
                return false;
            };
            if !is_label(first, label) {
                return false;
            }
            rest = others;
        }
    }
    rest.is_empty()
}

// Whether two labels are one.
fn is_label(label: &(ShortText, ShortText), other: &(ShortText, ShortText)) -> bool
    ensures { result ≡ true → label.now ≡ other.now }
{
    label.1.as_str() == other.1.as_str() && label.0.as_str() == other.0.as_str()
}

// The labels that decide the group, from the last to the first: each then goes to the front.
fn kept_labels(
    alloc: Global,
    grouping: &Grouping,
    none: &Labels,
    labels: &Labels,
) -> Result<Labels, AllocError>
    requires { none.now ≡ no_labels }
    ensures { IfOk result (λ made. made ≡ group_of grouping.now labels.now) }
{
    let mut builder = LabelsBuilder::new(alloc, none)?;
    let mut rest = labels.pairs();
    while let Some((pair, before)) = rest.split_last() {
        let name = pair.0.as_str();
        if is_grouping_label(grouping, name) {
            builder.add(name, pair.1.as_str())?;
        }
        rest = before;
    }
    builder.build()
}

// Whether a label of this name decides the group of its sample.
fn is_grouping_label(grouping: &Grouping, name: &str) -> bool
    ensures { result ≡ is_grouping_label grouping.now name.now }
{
    match grouping {
        Grouping::All => false,
        Grouping::By(names) => is_among(names.as_slice(), name),
        Grouping::Without(names) => !is_among(names.as_slice(), name),
    }
}

// Whether one of the names is this.
fn is_among(names: &[PlainText], name: &str) -> bool
    ensures { result ≡ list_any (is_text name.now) names.now }
{
    names.iter().any(|other| name == other.as_str())
}
