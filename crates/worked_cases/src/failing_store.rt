//! A store in memory, some of whose calls fail, as if at random, or one by its number.
ghost use Rattle.std.specs.Prelude.{◌≡◌, IfErr};
ghost use Rattle.rl_chunks.specs.declared.store.StoreFault.TheVariants as store_faults;

use crate::chunks::Draws;
use rl_chunks::{MemStore, Store, StoreFault};
use std::alloc::Global;

/// A store that refuses some calls, and spoils some of what is read.
#[derive(Drop)]
pub(crate) struct FailingStore {
    inner: MemStore,
    draws: Draws,
    // About one call of so many fails; with 0 none.
    often: u32,
    // The call that fails too, counted from 0.
    at: u64,
    calls: u64,
    // How often its device failed, up to the greatest number.
    faults: u64,
}

impl FailingStore {
    ghost use Rattle.rl_chunks.specs.StoreState.{faults_after};

    pub(crate) fn new(alloc: Global, often: u32) -> FailingStore {
        FailingStore {
            inner: MemStore::new(alloc),
            draws: Draws { state: 1 },
            often,
            at: u64::MAX,
            calls: 0,
            faults: 0,
        }
    }

    /// One of whose calls the one with the number fails, counted from 0.
    pub(crate) fn failing_at(alloc: Global, at: u64) -> FailingStore {
        let mut store = FailingStore::new(alloc, 0);
        store.at = at;
        store
    }

    /// How often it was called.
    pub(crate) fn calls(&self) -> u64 {
        self.calls
    }

    /// How often it was read.
    pub(crate) fn reads(&self) -> u64 {
        self.inner.reads()
    }

    // Whether a call fails.
    fn fails(&mut self) -> bool
        ensures inner { self.new.inner ≡ self.old.inner }
        ensures faults { self.new.faults ≡ self.old.faults }
    {
        let call = self.calls;
        self.calls = call.wrapping_add(1);
        call == self.at || (self.often > 0 && self.draws.up_to(self.often) == 0)
    }

    // A call of the device, which may fail.
    fn call(&mut self) -> Result<(), StoreFault>
        ensures inner { self.new.inner ≡ self.old.inner }
        ensures fault { IfErr result (λ fault. fault ≡ store_faults.Fault) }
        ensures counted { self.new.faults ≡ faults_after result self.old.faults }
    {
        if !self.fails() {
            return Ok(());
        }
        self.refuse()
    }

    // A call of the device that fails.
    fn refuse(&mut self) -> Result<(), StoreFault>
        ensures inner { self.new.inner ≡ self.old.inner }
        ensures fault { IfErr result (λ fault. fault ≡ store_faults.Fault) }
        ensures counted { self.new.faults ≡ faults_after result self.old.faults }
    {
        self.faults = self.faults.saturating_add(1);
        Err(StoreFault::Fault)
    }
}

// Lets the bytes go past the first.
fn cut(found: &mut Option<Vec<u8>>) {
    if let Some(bytes) = found {
        bytes.truncate(20);
    }
}

impl Store for FailingStore {
    ghost use Rattle.std.specs.Prelude.{false};
    ghost use Rattle.rl_chunks.specs.MemState.{blobs_of};

    ghost seen = { λ store. record { blobs = blobs_of store.inner; honest = false; reads = store.inner.reads; faults = store.faults } };

    fn put(&mut self, number: u64, bytes: Vec<u8>) -> Result<(), StoreFault> {
        self.call()?;
        self.inner.put(number, bytes)
    }

    // The bytes; or the first of them, or none, or no answer; always no answer at the call with the number.
    fn get(&mut self, number: u64) -> Result<Option<Vec<u8>>, StoreFault> {
        let mut found = self.inner.get(number)?;
        if !self.fails() {
            return Ok(found);
        }
        let spoilt = if self.often == 0 {
            0
        } else {
            self.draws.up_to(2)
        };
        match spoilt {
            0 => self.refuse()?,
            1 => found = None,
            _ => cut(&mut found),
        }
        Ok(found)
    }

    fn remove(&mut self, number: u64) -> Result<(), StoreFault> {
        self.call()?;
        self.inner.remove(number)
    }
}
