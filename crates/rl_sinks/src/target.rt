//! Where a text goes: into memory, to a hasher, or to whatever a crate above prints on.
ghost use Rattle.std.specs.Prelude.{ℕ, List, Option, Some, OnOk, string_bytes};
ghost use Rattle.std.specs.Io.KnownBytes.{Appends};

use rl_digests::Hasher;
use std::alloc::AllocError;
use std::convert::Infallible;

/// Takes a text piece by piece.
pub trait TextTarget {
    type Error: Drop;
    // What it was given, where that is known.
    ghost contents: { Self → Option (List ℕ) };

    /// Takes a piece after those before it.
    fn put(&mut self, piece: &str) -> Result<(), Self::Error>
        ensures { OnOk result (Appends (contents self.old) (contents self.new) piece.now) };
}

/// A text that grows in memory.
#[derive(Drop)]
pub(crate) struct InMemory {
    pub(crate) text: String,
}

impl TextTarget for InMemory {
    type Error = AllocError;

    ghost contents = { λ target. Some (string_bytes target.text) };

    fn put(&mut self, piece: &str) -> Result<(), AllocError> {
        self.text.push_str(piece)
    }
}

impl TextTarget for Hasher {
    type Error = Infallible;

    ghost contents = { λ hasher. Some hasher };

    fn put(&mut self, piece: &str) -> Result<(), Infallible> {
        Hasher::put(self, piece.as_bytes());
        Ok(())
    }
}
