//! Matchers as tests of labels. That the name is free is a fact of the type.
ghost use Rattle.std.specs.Prelude.{IsTrue, not};
ghost use Rattle.rl_query.specs.Limits.{is_taken};

use rl_labels::Matcher;
use rl_plain::{Same, TryCopy};
use std::alloc::AllocError;

/// A matcher as a test: its name is no word of the grammar of tests.
#[derive(Drop, PartialEq, Eq)]
pub struct MatcherTest {
    pub matcher: Matcher,
    ghost free: { IsTrue (not (is_taken matcher.name)) },
}

impl TryCopy for MatcherTest {
    fn try_copy(&self) -> Result<Self, AllocError> {
        let matcher = self.matcher.try_copy()?;
        Ok(MatcherTest { matcher })
    }
}

impl Same for MatcherTest {
    fn is_same(&self, other: &Self) -> bool {
        self.matcher.is_same(&other.matcher)
    }
}
