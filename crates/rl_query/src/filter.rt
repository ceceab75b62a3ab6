//! Line filters, and sieves made of them. Their limits are facts of the types.
ghost use Rattle.std.specs.Prelude.{◌≤◌, IsTrue, length};
ghost use Rattle.rl_query.specs.Limits.{is_filter, most_stages};

use crate::query::Selector;
use rl_plain::{PlainList, PlainText, Same, TryCopy};
use std::alloc::AllocError;

/// How a line filter looks at a line (LogQL).
#[derive(Clone, Copy, Debug, PartialEq, Eq)]
pub enum LineOp {
    /// `|=`: the line contains the text.
    Contains,
    /// `!=`: it does not.
    Lacks,
    /// `|~`: the pattern matches somewhere in the line.
    Matches,
    /// `!~`: it does not.
    NotMatches,
}

/// A line filter, as in `|= "error"`.
#[derive(Drop, PartialEq, Eq)]
pub struct LineFilter {
    pub op: LineOp,
    pub text: PlainText,
    ghost comparable: { IsTrue (is_filter op text) },
}

/// The lines that a delete request covers: those of a selector that pass each line filter, of which there are at most 256.
#[derive(Drop, PartialEq, Eq)]
pub struct Sieve {
    pub selector: Selector,
    pub filters: PlainList<LineFilter>,
    ghost few: { length filters ≤ most_stages },
}

impl TryCopy for LineFilter {
    fn try_copy(&self) -> Result<Self, AllocError> {
        let text = self.text.try_copy()?;
        Ok(LineFilter { op: self.op, text })
    }
}

impl Same for LineFilter {
    fn is_same(&self, other: &Self) -> bool {
        self.op == other.op && self.text.is_same(&other.text)
    }
}

impl TryCopy for Sieve {
    fn try_copy(&self) -> Result<Self, AllocError> {
        let selector = self.selector.try_copy()?;
        let filters = self.filters.try_copy()?;
        Ok(Sieve { selector, filters })
    }
}

impl Same for Sieve {
    fn is_same(&self, other: &Self) -> bool {
        self.selector.is_same(&other.selector) && self.filters.is_same(&other.filters)
    }
}
