//! Label tests that many lines are asked for.
ghost use Rattle.std.specs.Prelude.{◌≡◌, IfOk};
ghost use Rattle.std.specs.Option.{option_map};
ghost use Rattle.rl_labels.specs.Selects.{accepts};
ghost use Rattle.rl_patterns.specs.Matching.{wrapped};
ghost use Rattle.rl_pipeline.specs.TestNodes.{asking_tree};
ghost use Rattle.rl_pipeline.specs.LabelTests.{is_decided, matcher_pattern, test_answer, tests_answer};

use crate::comparing::ask_quantity;
use crate::draft::Draft;
use crate::label_tests::{Node, TestCode, TestsCode};
use rl_labels::{MatchOp, Matcher};
use rl_patterns::{Searching, WholePatternCode};
use rl_query::{Join, LabelTest};
use std::alloc::{AllocError, Global};
use std::marker::Model;

/// A test that many lines are asked for, with caches that grow. They are large, so they lie in a box, and only where a
/// pattern is. Contracts see the test.
#[derive(Drop)]
pub(crate) struct Testing<'a> {
    test: &'a LabelTest,
    searching: Option<Box<Searching<'a>>>,
}

impl<'a> Model for Testing<'a> {
    ghost use Rattle.std.specs.Prelude.{◌≡◌};
    ghost use Rattle.std.specs.Option.{option_map};
    ghost use Rattle.rl_patterns.specs.Matching.{wrapped};
    ghost use Rattle.rl_query.specs.declared.label_test.LabelTest.{LabelTest};
    ghost use Rattle.rl_pipeline.specs.LabelTests.{test_pattern};

    ghost Value = { LabelTest };

    ghost view = { λ a. a.test.now };

    ghost invariant = { λ a. option_map (λ boxed. boxed.value) a.searching ≡ option_map wrapped (test_pattern a.test.now) };
}

/// Label tests that many lines are asked for. Contracts see the tests. A node is a few words, because a query may have a
/// deep tree.
#[cycle(asking)]
pub(crate) struct TestsRunning<'a> {
    node: Asking<'a>,
}

#[cycle(asking)]
enum Asking<'a> {
    One(Testing<'a>),
    Joined(Pair<'a>),
}

// Two joined.
#[cycle(asking)]
struct Pair<'a> {
    join: Join,
    left: Box<TestsRunning<'a>>,
    right: Box<TestsRunning<'a>>,
}

impl<'a> Model for TestsRunning<'a> {
    ghost use Rattle.rl_query.specs.TestTree.{TestTree, tree_code, tree_size};
    ghost use Rattle.rl_query.specs.declared.label_test.LabelTest.{LabelTest};
    ghost use Rattle.rl_query.specs.contracts.label_test.LabelTest as test;

    ghost Value = { TestTree LabelTest };

    ghost coded = { tree_code test.the_row.coded };

    ghost use Rattle.rl_pipeline.specs.TestNodes.{asking_tree};

    ghost view = { λ a. asking_tree a.node };

    ghost size = { tree_size };

    ghost use Rattle.std.proofs.Common.{arith};

    ghost size_decreases = { λ a h. Prim.grind (arith) };
}

impl Drop for TestsRunning<'_> {
    // A long row of tests leans to the left: what is on the left is dropped by the loop.
    #[cycle(ending)]
    fn drop(mut self) {
        loop {
            let TestsRunning { node } = self;
            match node {
                Asking::One(_) => return,
                Asking::Joined(pair) => {
                    let Pair {
                        join: _,
                        left,
                        right,
                    } = pair;
                    drop(right);
                    self = Box::into_inner(left);
                }
            }
        }
    }
}

impl<'a> Testing<'a> {
    fn new(alloc: Global, code: &'a TestCode) -> Result<Self, AllocError>
        ensures { IfOk result (λ testing. testing ≡ code.now) }
    {
        let searching = match &code.pattern {
            Some(pattern) => Some(boxed_searching(alloc, pattern)?),
            None => None,
        };
        Ok(Testing {
            test: &code.test,
            searching,
        })
    }

    // Whether labels pass the test.
    fn ask(&mut self, alloc: Global, draft: &mut Draft<'_>) -> Result<bool, AllocError>
        ensures answer { IfOk result (λ passes. test_answer self.old draft.old ≡ (passes, draft.new)) }
        ensures same { self.new ≡ self.old }
    {
        match self.test {
            LabelTest::Text(text) => Ok(accepts(&text.matcher, &mut self.searching, draft)),
            LabelTest::Quantity(test) => ask_quantity(alloc, test, draft),
        }
    }
}

// Whether a matcher accepts the labels, by what searches for its pattern, if it has one.
#[tactic(auto, unfolding(rl_patterns::specs::Matching::matches_whole))]
fn accepts(matcher: &Matcher, searching: &mut Option<Box<Searching<'_>>>, draft: &Draft<'_>) -> bool
    requires { option_map (λ boxed. boxed.value) searching.old ≡ option_map wrapped (matcher_pattern matcher.now) }
    ensures answer { result ≡ accepts matcher.now draft.now }
    ensures same { option_map (λ boxed. boxed.value) searching.new ≡ option_map (λ boxed. boxed.value) searching.old }
{
    let value = draft.get(matcher.name.as_str()).unwrap_or("");
    let is_alike = match searching {
        Some(searching) => searching.has_match(value),
        None => matcher.value.as_str() == value,
    };
    match matcher.op {
        MatchOp::Equal | MatchOp::Matches => is_alike,
        MatchOp::NotEqual | MatchOp::NotMatches => !is_alike,
    }
}

// What compares many values with a pattern. Its caches are large, so they lie in a frame of its own.
#[inline(never)]
fn boxed_searching(alloc: Global, code: &WholePatternCode) -> Result<Box<Searching<'_>>, AllocError>
    ensures { IfOk result (λ searching. searching.value ≡ wrapped code.now) }
{
    let searching = Box::new(alloc, code.searching()?)?;
    Ok(searching)
}

impl<'a> TestsRunning<'a> {
    // What asks many lines for the tests.
    pub(crate) fn new(alloc: Global, tests: &'a TestsCode) -> Result<Self, AllocError>
        ensures { IfOk result (λ running. running ≡ tests.now) }
    {
        let node = match &tests.node {
            Node::One(test) => Asking::One(Testing::new(alloc, test)?),
            Node::Joined(join, left, right) => {
                let left = Box::new(alloc, TestsRunning::new(alloc, left)?)?;
                let right = Box::new(alloc, TestsRunning::new(alloc, right)?)?;
                Asking::Joined(Pair {
                    join: *join,
                    left,
                    right,
                })
            }
        };
        Ok(TestsRunning { node })
    }

    // Whether labels pass. The tests are made from left to right, as far as they decide.
    pub(crate) fn ask(&mut self, alloc: Global, draft: &mut Draft<'_>) -> Result<bool, AllocError>
        ensures answer { IfOk result (λ passes. tests_answer self.old draft.old ≡ (passes, draft.new)) }
        ensures same { self.new ≡ self.old }
    {
        match &mut self.node {
            Asking::One(test) => test.ask(alloc, draft),
            Asking::Joined(pair) => {
                let passes = pair.left.ask(alloc, draft)?;
                if is_decided(pair.join, passes) {
                    return Ok(passes);
                }
                pair.right.ask(alloc, draft)
            }
        }
    }
}

// Whether the first of two joined tests decides: `and` stops at the first that is false, and `or` at the first that is true.
fn is_decided(join: Join, passes: bool) -> bool
    ensures { result ≡ is_decided join passes }
{
    match join {
        Join::And => !passes,
        Join::Or => passes,
    }
}
