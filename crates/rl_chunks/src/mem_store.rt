//! A store in memory.
use crate::store::{Store, StoreFault};
use rl_plain::PlainList;
use std::alloc::Global;
use std::collections::BTreeMap;

/// Keeps its bytes in memory. It is honest and has no device that could fail.
#[derive(Drop)]
pub struct MemStore {
    alloc: Global,
    blobs: BTreeMap<u64, PlainList<u8>>,
    reads: u64,
}

impl MemStore {
    ghost use Rattle.std.specs.Prelude.{◌≡◌};
    ghost use Rattle.std.specs.Option.{option_map};
    ghost use Rattle.std.specs.FinMap as map;
    ghost use Rattle.rl_chunks.specs.MemState.{blobs_of, mem_seen};

    /// A store with no bytes.
    pub fn new(alloc: Global) -> MemStore
        ensures blobs { blobs_of result ≡ map.empty }
        ensures reads { result.reads ≡ 0 }
    {
        MemStore {
            alloc,
            blobs: BTreeMap::new(alloc),
            reads: 0,
        }
    }

    /// How often it was read, counted from the greatest number to 0 again.
    pub fn reads(&self) -> u64
        ensures { result ≡ (mem_seen self.now).reads }
    {
        self.reads
    }

    /// How many numbers have bytes.
    pub fn len(&self) -> usize
        ensures { result ≡ map.len (blobs_of self.now) }
    {
        self.blobs.len()
    }

    /// The bytes of a number, lent. It is no read.
    pub fn bytes(&self, number: u64) -> Option<&[u8]>
        ensures { option_map (λ b. b.now) result ≡ map.get (blobs_of self.now) number }
    {
        match self.blobs.get(&number) {
            None => None,
            Some(blob) => Some(blob.as_slice()),
        }
    }
}

impl Store for MemStore {
    ghost use Rattle.rl_chunks.specs.MemState.{mem_seen};

    ghost seen = { mem_seen };

    fn put(&mut self, number: u64, bytes: Vec<u8>) -> Result<(), StoreFault> {
        self.blobs.insert(number, PlainList::from_vec(bytes))?;
        Ok(())
    }

    fn get(&mut self, number: u64) -> Result<Option<Vec<u8>>, StoreFault> {
        self.reads = self.reads.wrapping_add(1);
        match self.blobs.get(&number) {
            None => Ok(None),
            Some(blob) => Ok(Some(Vec::from_slice(self.alloc, blob.as_slice())?)),
        }
    }

    fn remove(&mut self, number: u64) -> Result<(), StoreFault> {
        self.blobs.remove(&number);
        Ok(())
    }
}
