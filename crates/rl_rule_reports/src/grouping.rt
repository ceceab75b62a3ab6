//! The labels that the samples of a term have at most, where its aggregations say it.

use crate::findings::OutOfMemory;
use rl_plain::PlainText;
use rl_query::{Grouping, Term, VectorOperator};
use std::alloc::Global;

/// The names by which the samples of a term are grouped, if they are grouped by names.
pub(crate) fn labels_of<'a>(
    alloc: Global,
    term: &'a Term,
) -> Result<Option<Vec<&'a str>>, OutOfMemory> {
    let mut known = None;
    for aggregation in term.aggregations.as_slice() {
        // Of topk each sample has its own labels.
        if !matches!(aggregation.operator, VectorOperator::Topk(_)) {
            known = after_grouping(alloc, known, &aggregation.grouping)?;
            if known.is_none() {
                return Ok(None);
            }
        }
    }
    Ok(known)
}

// The names that an outer aggregation leaves, if there is one, below which samples are grouped.
fn after_grouping<'a>(
    alloc: Global,
    outer: Option<Vec<&'a str>>,
    grouping: &'a Grouping,
) -> Result<Option<Vec<&'a str>>, OutOfMemory> {
    match (grouping, outer) {
        (Grouping::All, _) => Ok(Some(Vec::new(alloc))),
        (Grouping::By(names), None) => Ok(Some(texts_of(alloc, names.as_slice())?)),
        (Grouping::Without(_), None) => Ok(None),
        (Grouping::By(names), Some(outer)) => {
            let kept = kept(alloc, outer.as_slice(), names.as_slice(), true)?;
            Ok(Some(kept))
        }
        (Grouping::Without(names), Some(outer)) => {
            let kept = kept(alloc, outer.as_slice(), names.as_slice(), false)?;
            Ok(Some(kept))
        }
    }
}

fn texts_of(alloc: Global, names: &[PlainText]) -> Result<Vec<&str>, OutOfMemory> {
    let mut texts = Vec::new(alloc);
    for name in names {
        texts.push(name.as_str())?;
    }
    Ok(texts)
}

// The names that are in the list, or those that are not.
fn kept<'a>(
    alloc: Global,
    names: &[&'a str],
    list: &[PlainText],
    is_listed: bool,
) -> Result<Vec<&'a str>, OutOfMemory> {
    let mut kept = Vec::new(alloc);
    for name in names {
        if has_text(list, name) == is_listed {
            kept.push(*name)?;
        }
    }
    Ok(kept)
}

fn has_text(list: &[PlainText], name: &str) -> bool {
    list.iter().any(|one| one.as_str() == name)
}

/// Whether a name is in the list.
pub(crate) fn has_name(names: &[&str], name: &str) -> bool {
    for one in names {
        if *one == name {
            return true;
        }
    }
    false
}

/// Whether the lists have the same names.
pub(crate) fn are_equal(one: &[&str], other: &[&str]) -> bool {
    has_all(one, other) && has_all(other, one)
}

fn has_all(one: &[&str], other: &[&str]) -> bool {
    for name in other {
        if !has_name(one, name) {
            return false;
        }
    }
    true
}

/// Writes names as a query has them after `by`.
pub(crate) fn push_list(text: &mut String, names: &[&str]) -> Result<(), OutOfMemory> {
    text.push('(')?;
    let mut between = "";
    for name in names {
        text.push_str(between)?;
        text.push_str(name)?;
        between = ", ";
    }
    text.push(')')?;
    Ok(())
}
