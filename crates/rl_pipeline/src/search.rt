//! Searches of many lines for what one filter looks for.
ghost use Rattle.std.specs.Prelude.{◌≡◌};
ghost use Rattle.rl_pipeline.specs.Filtering.{passes};

use memchr::memmem::Finder;
use rl_patterns::Searching;
use rl_query::{LineFilter, LineOp};
use std::marker::Model;

/// What asks many lines for one filter, with caches that grow. Contracts see it as the filter.
#[derive(Drop)]
pub struct Search<'a> {
    pub(crate) filter: &'a LineFilter,
    pub(crate) looking: Looking<'a>,
}

// What looks for a text, or for a pattern. The caches of a pattern are large, so they lie in a box.
#[derive(Drop)]
pub(crate) enum Looking<'a> {
    Text(&'a Finder<'static>),
    Pattern(Box<Searching<'a>>),
}

impl<'a> Model for Search<'a> {
    ghost use Rattle.rl_query.specs.declared.filter.LineFilter.{LineFilter};

    ghost Value = { LineFilter };

    ghost use Rattle.rl_pipeline.specs.Sought.{LooksBy};

    ghost view = { λ a. a.filter.now };

    ghost invariant = { λ a. LooksBy a.filter.now a.looking };
}

impl<'a> Search<'a> {
    /// Whether the filter lets the line pass.
    #[tactic(auto, using(crate::proofs::Standing::found))]
    pub fn passes(&mut self, line: &str) -> bool
        ensures answer { result ≡ passes self.old line.now }
        ensures same { self.new ≡ self.old }
    {
        let is_found = match &mut self.looking {
            Looking::Text(finder) => finder.find(line.as_bytes()).is_some(),
            Looking::Pattern(searching) => searching.has_match(line),
        };
        match self.filter.op {
            LineOp::Contains | LineOp::Matches => is_found,
            LineOp::Lacks | LineOp::NotMatches => !is_found,
        }
    }
}
