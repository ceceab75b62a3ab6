//! A store that counts its chunks.
ghost use Rattle.std.specs.Prelude.{◌≡◌};

use rl_chunks::{Store, StoreFault};

/// A store that counts the chunks that were written to it and read from it.
#[derive(Drop)]
pub(crate) struct Counted<D: Store> {
    inner: D,
    written: u64,
    read: u64,
}

impl<D: Store> Counted<D> {
    /// Over the store, with nothing counted yet.
    pub(crate) fn new(inner: D) -> Self
        ensures { result ≡ record { inner = inner; written = 0; read = 0 } }
    {
        Counted {
            inner,
            written: 0,
            read: 0,
        }
    }

    /// How many chunks were written.
    pub(crate) fn written(&self) -> u64 {
        self.written
    }

    /// How often a chunk was read.
    pub(crate) fn read(&self) -> u64 {
        self.read
    }
}

impl<D: Store> Store for Counted<D> {
    ghost seen = { λ store. D.seen store.inner };

    fn put(&mut self, number: u64, bytes: Vec<u8>) -> Result<(), StoreFault> {
        let put = self.inner.put(number, bytes);
        self.written = count_ok(self.written, put.is_ok());
        put
    }

    fn get(&mut self, number: u64) -> Result<Option<Vec<u8>>, StoreFault> {
        let found = self.inner.get(number);
        self.read = count_ok(self.read, found.is_ok());
        found
    }

    fn remove(&mut self, number: u64) -> Result<(), StoreFault> {
        self.inner.remove(number)
    }
}

// One more, where the call did what it was asked.
fn count_ok(count: u64, done: bool) -> u64 {
    if done { count.saturating_add(1) } else { count }
}
