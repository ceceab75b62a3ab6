//! Lines that would be errors of a range: a rule that meets one fails.

use crate::findings::OutOfMemory;
use rl_labels::{Labels, Matcher};
use rl_plain::OrMemory;
use rl_query::{LabelTest, LabelTests, Parser, Quantity, Stage, TestParts};
use std::alloc::Global;

// A tree of at most 256 tests has no more nodes.
const MOST_NODES: usize = 511;

/// A line that would be an error.
#[derive(Clone, Copy)]
pub(crate) enum Doubt<'a> {
    // A line that is no JSON object.
    Unread,
    // A line with a label of another kind than it is compared with.
    Other(&'a str, &'static str),
}

// What is known after some stages: whether one is a parser, and what is in doubt.
#[derive(Clone, Copy)]
struct Known<'a> {
    is_parsed: bool,
    doubt: Option<Doubt<'a>>,
}

/// The line that would be an error and stay, after a parser, if there is one.
pub(crate) fn doubt_of(alloc: Global, stages: &[Stage]) -> Result<Option<Doubt<'_>>, OutOfMemory> {
    let mut known = Known {
        is_parsed: false,
        doubt: None,
    };
    for stage in stages {
        known = after_stage(alloc, known, stage)?;
    }
    Ok(known.doubt)
}

fn after_stage<'a>(
    alloc: Global,
    known: Known<'a>,
    stage: &'a Stage,
) -> Result<Known<'a>, OutOfMemory> {
    let (is_parsed, doubt) = match stage {
        Stage::Parser(Parser::Json) => (true, Some(Doubt::Unread)),
        Stage::Parser(Parser::Logfmt) => (true, known.doubt),
        Stage::Tests(tests) if known.is_parsed => {
            let tests = leaves_of(alloc, tests)?;
            (true, after_tests(alloc, known.doubt, tests.as_slice())?)
        }
        Stage::Tests(_) | Stage::Filter(_) => (known.is_parsed, known.doubt),
    };
    Ok(Known { is_parsed, doubt })
}

/// The tests that are joined, from left to right.
pub(crate) fn leaves_of(alloc: Global, tests: &LabelTests) -> Result<Vec<&LabelTest>, OutOfMemory> {
    let mut leaves = Vec::new(alloc);
    let mut waiting = Vec::new(alloc);
    waiting.push(tests)?;
    for _ in 0..MOST_NODES {
        let Some(tests) = waiting.pop() else {
            break;
        };
        match tests.parts() {
            TestParts::One(test) => leaves.push(test)?,
            TestParts::Joined(_, left, right) => {
                waiting.push(right)?;
                waiting.push(left)?;
            }
        }
    }
    Ok(leaves)
}

// What is in doubt after tests: nothing where one asks for errors; such a line still where each test lets it pass.
fn after_tests<'a>(
    alloc: Global,
    doubt: Option<Doubt<'a>>,
    tests: &[&'a LabelTest],
) -> Result<Option<Doubt<'a>>, OutOfMemory> {
    if tests.iter().any(|test| asks_for_errors(*test)) {
        return Ok(None);
    }
    match doubt {
        Some(Doubt::Unread) if passes_all(alloc, tests)? => Ok(doubt),
        Some(Doubt::Other(..)) => Ok(doubt),
        _ => Ok(compared_in(tests)),
    }
}

fn asks_for_errors(test: &LabelTest) -> bool {
    match test {
        LabelTest::Text(test) => test.matcher.name.as_str() == "__error__",
        LabelTest::Quantity(_) => false,
    }
}

// Whether each test lets a line pass that has an error and no label.
fn passes_all(alloc: Global, tests: &[&LabelTest]) -> Result<bool, OutOfMemory> {
    for test in tests {
        if let LabelTest::Text(test) = *test {
            if !accepts_none(alloc, &test.matcher)? {
                return Ok(false);
            }
        }
    }
    Ok(true)
}

fn accepts_none(alloc: Global, matcher: &Matcher) -> Result<bool, OutOfMemory> {
    match matcher.build() {
        Ok(code) => Ok(code.accepts(&Labels::empty(alloc)?)?),
        Err(OrMemory::Fault(_)) => Ok(false),
        Err(OrMemory::Memory) => Err(OutOfMemory),
    }
}

// The first label that is compared with a quantity.
fn compared_in<'a>(tests: &[&'a LabelTest]) -> Option<Doubt<'a>> {
    for test in tests {
        if let LabelTest::Quantity(test) = *test {
            let kind = match &test.quantity {
                Quantity::Number(_) => "number",
                Quantity::Duration(_) => "duration",
                Quantity::Size(_) => "size",
            };
            return Some(Doubt::Other(test.name.as_str(), kind));
        }
    }
    None
}
