//! Searches of many texts for one pattern.
ghost use Rattle.std.specs.Prelude.{◌≡◌, IfOk};
ghost use Rattle.regex.specs.Strings.{regex_source};
ghost use Rattle.rl_patterns.specs.Building.{IsBuilt};
ghost use Rattle.rl_patterns.specs.Matching.{has_match};

use regex::{Matcher, Regex};
use std::alloc::{AllocError, Global};
use std::marker::Model;

/// What searches many texts for one pattern, with caches that grow. Contracts see it as the pattern's text.
#[derive(Drop)]
pub struct Searching<'a> {
    regex: &'a Regex,
    matcher: Matcher<'a>,
}

impl<'a> Model for Searching<'a> {
    ghost use Rattle.std.specs.Prelude.{List, ℕ};
    ghost use Rattle.regex.specs.Strings.{regex_source};
    ghost use Rattle.rl_patterns.specs.Building.{IsBuilt, SearchesFor};

    ghost Value = { List ℕ };

    ghost view = { λ a. regex_source a.regex.now };

    ghost invariant = { λ a. IsBuilt a.regex.now × SearchesFor a.regex.now a.matcher };
}

impl<'a> Searching<'a> {
    pub(crate) fn new(alloc: Global, regex: &'a Regex) -> Result<Self, AllocError>
        requires { IsBuilt regex.now }
        ensures { IfOk result (λ searching. searching ≡ regex_source regex.now) }
    {
        let matcher = regex.matcher(alloc)?;
        Ok(Searching { regex, matcher })
    }

    /// Whether the pattern matches somewhere in the text.
    pub fn has_match(&mut self, text: &str) -> bool
        ensures found { result ≡ has_match self.old text.now }
        ensures same { self.new ≡ self.old }
    {
        self.matcher.is_match(text)
    }
}
