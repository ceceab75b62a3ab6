//! The text of the commands.
ghost use Rattle.std.specs.Prelude.{◌≡◌, drop, string_bytes};
ghost use Rattle.std.specs.Str.{IsCharBoundary};

use std::marker::Model;

/// Commands, one a line: the end of the text in which they stood.
#[derive(Drop)]
pub struct Commands {
    text: String,
    start: usize,
}

impl Model for Commands {
    ghost use Rattle.std.specs.Prelude.{List, ℕ, drop, string_bytes};
    ghost use Rattle.std.specs.Str.{IsCharBoundary};

    ghost Value = { List ℕ };

    ghost view = { λ a. drop a.start (string_bytes a.text) };

    ghost invariant = { λ a. IsCharBoundary (string_bytes a.text) a.start };
}

impl Commands {
    /// What stands in a text from a byte on, without memory.
    pub(super) fn new(text: String, start: usize) -> Self
        requires { IsCharBoundary (string_bytes text) start }
        ensures { result ≡ drop start (string_bytes text) }
    {
        Commands { text, start }
    }

    pub fn as_str(&self) -> &str
        ensures { result.now ≡ self.now }
    {
        let (_, commands) = self.text.split_at(self.start);
        commands
    }
}
