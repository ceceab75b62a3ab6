//! Built label tests.
ghost use Rattle.std.specs.Prelude.{◌≡◌, IfOk, IfErr};
ghost use Rattle.rl_labels.specs.Operators as operators;
ghost use Rattle.rl_pipeline.specs.Building.{IsUnbuilt};
ghost use Rattle.rl_query.specs.TestTree.{one};
ghost use Rattle.rl_pipeline.specs.TestNodes.{node_tree};
ghost use Rattle.rl_pipeline.specs.LabelTests.{is_by_pattern, are_by_pattern, matcher_pattern, test_pattern};

use rl_labels::{MatchOp, Matcher};
use rl_patterns::{PatternError, PatternFault, WholePatternCode};
use rl_plain::{OrMemory, TryCopy};
use rl_query::{Join, LabelTest, LabelTests, TestParts};
use std::alloc::Global;
use std::marker::Model;

/// A built test of one label. Contracts see the test.
#[derive(Drop)]
pub struct TestCode {
    pub(crate) test: LabelTest,
    pub(crate) pattern: Option<WholePatternCode>,
}

impl Model for TestCode {
    ghost use Rattle.std.specs.Prelude.{◌≡◌};
    ghost use Rattle.rl_query.specs.declared.label_test.LabelTest.{LabelTest};
    ghost use Rattle.rl_pipeline.specs.LabelTests.{test_pattern};

    ghost Value = { LabelTest };

    ghost view = { λ a. a.test };

    ghost invariant = { λ a. a.pattern ≡ test_pattern a.test };
}

/// Built label tests. Contracts see the tests. A node is a few words, because a query may have a deep tree.
#[cycle(tests)]
pub struct TestsCode {
    pub(crate) node: Node,
}

#[cycle(tests)]
pub(crate) enum Node {
    One(Box<TestCode>),
    Joined(Join, Box<TestsCode>, Box<TestsCode>),
}

impl Model for TestsCode {
    ghost use Rattle.rl_query.specs.TestTree.{TestTree, tree_code, tree_size};
    ghost use Rattle.rl_query.specs.declared.label_test.LabelTest.{LabelTest};
    ghost use Rattle.rl_query.specs.contracts.label_test.LabelTest as test;

    ghost Value = { TestTree LabelTest };

    ghost coded = { tree_code test.the_row.coded };

    ghost use Rattle.rl_pipeline.specs.TestNodes.{node_tree};

    ghost view = { λ a. node_tree a.node };

    ghost size = { tree_size };

    ghost use Rattle.std.proofs.Common.{arith};

    ghost size_decreases = { λ a h. Prim.grind (arith) };
}

impl Drop for TestsCode {
    // A long row of tests leans to the left, so what is on the left is dropped by the loop.
    #[cycle(ending)]
    fn drop(mut self) {
        loop {
            let TestsCode { node } = self;
            match node {
                Node::One(test) => {
                    end_apart(test);
                    return;
                }
                Node::Joined(_, left, right) => {
                    drop(right);
                    self = Box::into_inner(left);
                }
            }
        }
    }
}

// Drops a test.
#[inline(never)]
fn end(test: Box<TestCode>) {
    drop(test);
}

// Drops a test by a pointer, as `one_code_apart` builds one.
fn end_apart(test: Box<TestCode>) {
    let ends: fn(Box<TestCode>) = end;
    ends(test);
}

// The code of a matcher's pattern, if it has one. The pattern is one, so it is refused for memory or for its size, and the
// second is reported as BadRegex.
fn pattern_code(alloc: Global, matcher: &Matcher) -> Result<Option<WholePatternCode>, PatternError>
    ensures code { IfOk result (λ code. code ≡ matcher_pattern matcher.now) }
    ensures refused { IfErr result (IsUnbuilt (operators.is_by_pattern matcher.now.op)) }
{
    if matches!(matcher.op, MatchOp::Equal | MatchOp::NotEqual) {
        return Ok(None);
    }
    match WholePatternCode::build(alloc, matcher.value.as_str()) {
        Ok(code) => Ok(Some(code)),
        Err(OrMemory::Fault(_)) => Err(OrMemory::Fault(PatternFault::BadRegex)),
        Err(OrMemory::Memory) => Err(OrMemory::Memory),
    }
}

fn test_code(alloc: Global, test: &LabelTest) -> Result<TestCode, PatternError>
    ensures code { IfOk result (λ code. code ≡ test.now) }
    ensures refused { IfErr result (IsUnbuilt (is_by_pattern test.now)) }
{
    let pattern = match test {
        LabelTest::Text(text) => pattern_code(alloc, &text.matcher)?,
        LabelTest::Quantity(_) => None,
    };
    let test = test.try_copy()?;
    Ok(TestCode { test, pattern })
}

// The code of one test, alone.
#[inline(never)]
fn one_code(alloc: Global, test: &LabelTest) -> Result<Node, PatternError>
    ensures code { IfOk result (λ node. node_tree node ≡ one test.now) }
    ensures refused { IfErr result (IsUnbuilt (is_by_pattern test.now)) }
{
    let code = Box::new(alloc, test_code(alloc, test)?)?;
    Ok(Node::One(code))
}

// As `one_code`, by a pointer, which is called and not inlined: a test is large, so it lies in a frame of its own.
fn one_code_apart(alloc: Global, test: &LabelTest) -> Result<Node, PatternError>
    ensures code { IfOk result (λ node. node_tree node ≡ one test.now) }
    ensures refused { IfErr result (IsUnbuilt (is_by_pattern test.now)) }
{
    let coded: fn(Global, &LabelTest) -> Result<Node, PatternError> = one_code;
    coded(alloc, test)
}

impl TestsCode {
    /// The code of the tests. BadRegex where a pattern takes too much room.
    pub fn build(alloc: Global, tests: &LabelTests) -> Result<TestsCode, PatternError>
        ensures code { IfOk result (λ code. code ≡ tests.now) }
        ensures refused { IfErr result (IsUnbuilt (are_by_pattern tests.now)) }
    {
        let node = match tests.parts() {
            TestParts::One(test) => one_code_apart(alloc, test)?,
            TestParts::Joined(join, left, right) => {
                let left = Box::new(alloc, TestsCode::build(alloc, left)?)?;
                let right = Box::new(alloc, TestsCode::build(alloc, right)?)?;
                Node::Joined(join, left, right)
            }
        };
        Ok(TestsCode { node })
    }
}
