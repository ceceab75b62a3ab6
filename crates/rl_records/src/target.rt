//! What takes bytes piece by piece: memory, or a hasher.
ghost use Rattle.std.specs.Prelude.{ℕ, List, Option, Some, OnOk};
ghost use Rattle.std.specs.Io.KnownBytes.{Appends};

use rl_digests::Hasher;
use std::alloc::AllocError;
use std::convert::Infallible;

// Takes bytes piece by piece.
pub(crate) trait ByteTarget {
    type Error: Drop;
    // What it was given.
    ghost contents: { Self → Option (List ℕ) };

    // Takes a piece after those before it.
    fn put(&mut self, piece: &[u8]) -> Result<(), Self::Error>
        ensures { OnOk result (Appends (contents self.old) (contents self.new) piece.now) };
}

// Bytes that grow in memory.
#[derive(Drop)]
pub(crate) struct InMemory {
    pub(crate) bytes: Vec<u8>,
}

impl ByteTarget for InMemory {
    type Error = AllocError;

    ghost contents = { λ target. Some target.bytes.items };

    fn put(&mut self, piece: &[u8]) -> Result<(), AllocError> {
        self.bytes.extend_from_slice(piece)
    }
}

impl ByteTarget for Hasher {
    type Error = Infallible;

    ghost contents = { λ hasher. Some hasher };

    fn put(&mut self, piece: &[u8]) -> Result<(), Infallible> {
        Hasher::put(self, piece);
        Ok(())
    }
}
