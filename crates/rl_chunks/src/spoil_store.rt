//! A store that spoils what is read, for tests of what stands above a store.
ghost use Rattle.std.specs.Prelude.{◌≡◌};
ghost use Rattle.rl_chunks.specs.Spoiling.{spoil_at, flipped};

use crate::store::{Store, StoreFault};
use rl_plain::PlainList;

/// How an answer is spoilt.
#[derive(Clone, Copy, Debug, Drop, PartialEq, Eq)]
pub enum Spoil {
    /// At most this many of its first bytes.
    Cut(usize),
    /// One byte plus 1, from the greatest to 0; past the end no change.
    Flip(usize),
    /// What another number has.
    Swap(u64),
    /// None.
    Gone,
}

/// Another store, some of whose answers are spoilt. The plan says which reads, counted from 0, and how; of two entries for
/// one read the first counts. It is honest where the plan is empty and the other store is.
#[derive(Drop)]
pub struct SpoilStore<S> {
    inner: S,
    plan: PlainList<(u64, Spoil)>,
    reads: u64,
}

// How the plan spoils a read, if it does.
fn spoil_at(plan: &[(u64, Spoil)], read: u64) -> Option<Spoil>
    ensures { result ≡ spoil_at plan.now read }
{
    for planned in plan {
        if planned.0 == read {
            return Some(planned.1);
        }
    }
    None
}

// One byte plus 1, if there is one at that index.
fn flip(bytes: &mut Vec<u8>, offset: usize)
    ensures { bytes.new.items ≡ flipped offset bytes.old.items }
{
    if offset < bytes.len() {
        bytes[offset] = bytes[offset].wrapping_add(1);
    }
}

impl<S> SpoilStore<S> {
    /// Nothing is read yet.
    pub fn new(inner: S, plan: PlainList<(u64, Spoil)>) -> Self
        ensures inner { result.inner ≡ inner }
        ensures plan { result.plan ≡ plan }
        ensures reads { result.reads ≡ 0 }
    {
        SpoilStore {
            inner,
            plan,
            reads: 0,
        }
    }

    /// The store whose answers are spoilt.
    pub fn inner(&self) -> &S
        ensures { result.now ≡ self.now.inner }
    {
        &self.inner
    }
}

impl<S: Store> Store for SpoilStore<S> {
    ghost use Rattle.std.specs.Prelude.{◌≡◌, true, IfOk};
    ghost use Rattle.std.specs.Option.{option_map};
    ghost use Rattle.std.specs.FinMap as map;
    ghost use Rattle.rl_chunks.specs.StoreState.{IsRead, faults_after};
    ghost use Rattle.rl_chunks.specs.Spoiling.{spoil_seen, spoil_at, spoilt};

    ghost seen = { λ store. spoil_seen (S.seen store.inner) store.plan store.reads };

    fn put(&mut self, number: u64, bytes: Vec<u8>) -> Result<(), StoreFault> {
        self.inner.put(number, bytes)
    }

    /// What the other store answers, or what the plan makes of it.
    fn get(&mut self, number: u64) -> Result<Option<Vec<u8>>, StoreFault>
        ensures found { (spoil_seen (S.seen self.old.inner) self.old.plan self.old.reads).honest ≡ true → IfOk result (λ bytes. option_map (λ b. b.items) bytes ≡ map.get (S.seen self.old.inner).blobs number) }
        ensures read { IsRead (spoil_seen (S.seen self.old.inner) self.old.plan self.old.reads) (spoil_seen (S.seen self.new.inner) self.new.plan self.new.reads) }
        ensures counted { (S.seen self.new.inner).faults ≡ faults_after result (S.seen self.old.inner).faults }
        ensures spoilt { (S.seen self.old.inner).honest ≡ true → IfOk result (λ bytes. option_map (λ b. b.items) bytes ≡ spoilt (spoil_at self.old.plan self.old.reads) (S.seen self.old.inner).blobs number) }
    {
        let spoil = spoil_at(self.plan.as_slice(), self.reads);
        self.reads = self.reads.wrapping_add(1);
        match spoil {
            None => self.inner.get(number),
            Some(Spoil::Gone) => Ok(None),
            Some(Spoil::Swap(other)) => self.inner.get(other),
            Some(Spoil::Cut(len)) => {
                let mut found = self.inner.get(number)?;
                if let Some(bytes) = &mut found {
                    bytes.truncate(len);
                }
                Ok(found)
            }
            Some(Spoil::Flip(offset)) => {
                let mut found = self.inner.get(number)?;
                if let Some(bytes) = &mut found {
                    flip(bytes, offset);
                }
                Ok(found)
            }
        }
    }

    fn remove(&mut self, number: u64) -> Result<(), StoreFault> {
        self.inner.remove(number)
    }
}
