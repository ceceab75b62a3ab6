//! Tests of labels, joined by `and` and `or`. Contracts see them as the tree that they are.
ghost use Rattle.std.specs.Prelude.{◌≡◌, IfOk};
ghost use Rattle.rl_query.specs.TestTree.{one, joined};
ghost use Rattle.rl_query.specs.Tested.{parts_tree};

use crate::matcher_test::MatcherTest;
use crate::quantity_test::QuantityTest;
use rl_plain::{Same, TryCopy};
use std::alloc::{AllocError, Global};
use std::marker::Model;

/// How two tests are joined.
#[derive(Clone, Copy, PartialEq, Eq)]
pub enum Join {
    And,
    Or,
}

/// A test of one label.
#[derive(Drop, PartialEq, Eq)]
pub enum LabelTest {
    /// The label's text, as in `a="x"`.
    Text(MatcherTest),
    /// The label's quantity, as in `a>5`.
    Quantity(QuantityTest),
}

/// Tests of labels, as in `a="x" and (b!="y" or c=~"z.*")`. A node is a few words, because a query may have a deep tree.
#[cycle(tests)]
#[derive(Drop)]
pub struct LabelTests {
    node: Node,
}

#[cycle(tests)]
#[derive(Drop)]
enum Node {
    One(Box<LabelTest>),
    Joined(Join, Box<LabelTests>, Box<LabelTests>),
}

/// The parts of label tests.
#[derive(Clone, Copy)]
pub enum TestParts<'a> {
    One(&'a LabelTest),
    Joined(Join, &'a LabelTests, &'a LabelTests),
}

impl Model for LabelTests {
    ghost use Rattle.rl_query.specs.TestTree.{TestTree, tree_code, tree_size};
    ghost use Rattle.rl_query.specs.declared.label_test.LabelTest.{LabelTest};
    ghost use Rattle.rl_query.specs.contracts.label_test.LabelTest as test;

    ghost Value = { TestTree LabelTest };

    ghost coded = { tree_code test.the_row.coded };

    ghost use Rattle.rl_query.specs.Tested.{node_tree};

    ghost view = { λ a. node_tree a.node };

    ghost size = { tree_size };

    ghost use Rattle.std.proofs.Common.{arith};

    ghost size_decreases = { λ a h. Prim.grind (arith) };
}

impl LabelTests {
    /// One test alone.
    pub fn one(alloc: Global, test: LabelTest) -> Result<LabelTests, AllocError>
        ensures { IfOk result (λ tests. tests ≡ one test) }
    {
        let test = Box::new(alloc, test)?;
        Ok(LabelTests {
            node: Node::One(test),
        })
    }

    /// Two joined.
    pub fn joined(
        alloc: Global,
        join: Join,
        left: LabelTests,
        right: LabelTests,
    ) -> Result<LabelTests, AllocError>
        ensures { IfOk result (λ tests. tests ≡ joined join left right) }
    {
        let left = Box::new(alloc, left)?;
        let right = Box::new(alloc, right)?;
        Ok(LabelTests {
            node: Node::Joined(join, left, right),
        })
    }

    /// The parts.
    pub fn parts(&self) -> TestParts<'_>
        ensures { parts_tree result ≡ self.now }
    {
        match &self.node {
            Node::One(test) => TestParts::One(test),
            Node::Joined(join, left, right) => TestParts::Joined(*join, left, right),
        }
    }
}

impl TryCopy for LabelTest {
    fn try_copy(&self) -> Result<Self, AllocError> {
        match self {
            LabelTest::Text(test) => Ok(LabelTest::Text(test.try_copy()?)),
            LabelTest::Quantity(test) => Ok(LabelTest::Quantity(test.try_copy()?)),
        }
    }
}

impl Same for LabelTest {
    fn is_same(&self, other: &Self) -> bool {
        match (self, other) {
            (LabelTest::Text(one), LabelTest::Text(same)) => one.is_same(same),
            (LabelTest::Quantity(one), LabelTest::Quantity(same)) => one.is_same(same),
            _ => false,
        }
    }
}

// A copy of a test, alone. The test is large, so it lies in a frame of its own.
#[inline(never)]
fn copied(alloc: Global, test: &LabelTest) -> Result<LabelTests, AllocError>
    ensures { IfOk result (λ tests. tests ≡ one test.now) }
{
    LabelTests::one(alloc, test.try_copy()?)
}

impl TryCopy for LabelTests {
    fn try_copy(&self) -> Result<Self, AllocError> {
        match &self.node {
            Node::One(test) => copied(*Box::allocator(test), test),
            Node::Joined(join, left, right) => {
                let alloc = *Box::allocator(left);
                LabelTests::joined(alloc, *join, left.try_copy()?, right.try_copy()?)
            }
        }
    }
}

impl Same for LabelTests {
    fn is_same(&self, other: &Self) -> bool {
        match (&self.node, &other.node) {
            (Node::One(one), Node::One(same)) => one.is_same(same),
            (Node::Joined(join, left, right), Node::Joined(same, front, back)) => {
                join == same && left.is_same(front) && right.is_same(back)
            }
            _ => false,
        }
    }
}

impl PartialEq for LabelTests {
    ghost use Rattle.std.specs.Cmp;
    ghost use Rattle.rl_query.specs.TestEquality.{tree_eq, tree_equiv};
    ghost use Rattle.rl_query.specs.contracts.label_test.LabelTestPartialEq.TheImpl as tests;
    ghost use Rattle.rl_query.specs.contracts.label_test.LabelTestEq.TheImpl.Laws as tests_laws;

    ghost eq = { tree_eq (tests.ghosts).eq };

    ghost laws = { Cmp.partial_equiv_from_equiv (tree_equiv tests_laws.laws-law) };

    fn eq(&self, other: &Self) -> bool {
        match (&self.node, &other.node) {
            (Node::One(one), Node::One(same)) => **one == **same,
            (Node::Joined(join, left, right), Node::Joined(same, front, back)) => {
                join == same && **left == **front && **right == **back
            }
            _ => false,
        }
    }
}

impl Eq for LabelTests {
    ghost use Rattle.rl_query.specs.TestEquality.{tree_equiv};
    ghost use Rattle.rl_query.specs.contracts.label_test.LabelTestEq.TheImpl.Laws as tests_laws;

    ghost laws = { tree_equiv tests_laws.laws-law };
}

/// What may stand in a position without parentheses.
#[derive(Clone, Copy)]
pub enum Level {
    /// Any tests.
    Tests,
    /// What `and` joins.
    All,
    /// One test.
    One,
}
