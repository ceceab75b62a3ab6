//! The chunks of a shard, each under a number of its own, in a store.
ghost use Rattle.std.specs.Prelude.{◌≡◌, ◌+◌, ◌≤◌, List, ℕ, true, Ok, Err, Some, IfOk, IfErr, IsErrOf, MatchResult, OnErr, OnOk};
ghost use Rattle.std.specs.Option.{option_map};
ghost use Rattle.std.specs.FinMap as map;
ghost use Rattle.sha2.specs.Sha256.{sha256};
ghost use Rattle.rl_chunks.specs.ChunkText.{IsChunkText};
ghost use Rattle.rl_chunks.specs.ChunkReading.{read_chunk};
ghost use Rattle.rl_chunks.specs.StoreState.{KeepsReads, LeavesOthers, faults_after, greatest};
ghost use Rattle.rl_chunks.specs.declared.chunk.Chunk.{Chunk};
ghost use Rattle.rl_chunks.specs.declared.store.StoreFault.TheVariants as stores;
ghost use Rattle.rl_parts.specs.StoreUse.{ArePut, Grown, Looked, Reads, Right, after_flush, after_read};

use crate::fault::{FlushFault, ReadFault};
use rl_chunks::{Chunk, Store, StoreFault, decode};
use rl_plain::OrMemory;
use sha2::{Digest, Sha256};
use std::alloc::Global;
use std::marker::Model;

/// The chunks of a shard, in a store. Contracts see the store, and the number that the next chunk gets.
#[derive(Drop)]
pub struct ChunkStore<S: Store> {
    alloc: Global,
    store: S,
    next: u64,
}

impl<S: Store> Model for ChunkStore<S> {
    ghost use Rattle.rl_parts.specs.ChunksState.{ChunksView, chunks_code};

    ghost Value = { ChunksView };

    ghost coded = { chunks_code };

    ghost view = { λ a. record { seen = S.seen a.store; next = a.next } };
}

// The bytes that the store has under the number.
fn bytes_of<S: Store>(store: &mut S, number: u64) -> Result<Vec<u8>, ReadFault>
    ensures looked { Looked (S.seen store.old) (S.seen store.new) }
    ensures counted { (S.seen store.new).faults ≡ after_read result (S.seen store.old).faults }
    ensures right { (text : List ℕ) → (S.seen store.old).honest ≡ true → map.get (S.seen store.old).blobs number ≡ Some text → Right result (λ bytes. bytes.items ≡ text) }
{
    match store.get(number) {
        Ok(Some(bytes)) => Ok(bytes),
        Ok(None) => Err(ReadFault::Damaged),
        Err(StoreFault::Fault) => Err(ReadFault::Fault),
        Err(StoreFault::Memory) => Err(ReadFault::Memory),
    }
}

// The chunk that the bytes are.
fn chunk_in(alloc: Global, bytes: &[u8]) -> Result<Chunk, ReadFault>
    ensures found { IfOk result (λ chunk. IsChunkText bytes.now chunk) }
    ensures no_device { IsErrOf result ReadFault.Fault → ⊥ }
    ensures right { (chunk : Chunk) → read_chunk bytes.now ≡ Ok chunk → Right result (λ found. found ≡ chunk) }
{
    match decode(alloc, bytes) {
        Ok(chunk) => Ok(chunk),
        Err(OrMemory::Fault(_)) => Err(ReadFault::Damaged),
        Err(OrMemory::Memory) => Err(ReadFault::Memory),
    }
}

// Puts bytes under a number.
fn put_bytes<S: Store>(store: &mut S, number: u64, bytes: Vec<u8>) -> Result<(), FlushFault>
    ensures there { OnOk result (map.get (S.seen store.new).blobs number ≡ Some bytes.items) }
    ensures grown { Grown (S.seen store.old) number (number + 1) (S.seen store.new) }
    ensures counted { (S.seen store.new).faults ≡ after_flush result (S.seen store.old).faults }
    ensures not_spent { IsErrOf result FlushFault.NumbersSpent → ⊥ }
{
    match store.put(number, bytes) {
        Ok(()) => Ok(()),
        Err(StoreFault::Fault) => Err(FlushFault::Fault),
        Err(StoreFault::Memory) => Err(FlushFault::Memory),
    }
}

impl<S: Store> ChunkStore<S> {
    /// The chunks of a store, of which the next one gets this number.
    pub fn new(alloc: Global, store: S, first: u64) -> Self
        ensures { result ≡ record { seen = S.seen store; next = first } }
    {
        ChunkStore {
            alloc,
            store,
            next: first,
        }
    }

    /// The store.
    pub fn store(&self) -> &S
        ensures { S.seen result.now ≡ self.now.seen }
    {
        &self.store
    }

    /// What chunks are read and written with.
    pub fn allocator(&self) -> &Global {
        &self.alloc
    }

    /// The number that the next chunk gets, unless it is the greatest.
    pub fn next(&self) -> u64
        ensures next { result ≡ self.now.next }
        ensures bound { self.now.next ≤ greatest }
    {
        self.next
    }

    /// The chunk under the number, if its bytes have the digest.
    pub fn fetch(&mut self, number: u64, digest: &[u8; 32]) -> Result<Chunk, ReadFault>
        // What is answered has the digest, whatever the store does.
        ensures found { IfOk result (λ chunk. (bytes : List ℕ) × IsChunkText bytes chunk × (sha256 bytes ≡ digest.now)) }
        ensures reads { Reads self.old self.new }
        ensures counted { self.new.seen.faults ≡ after_read result self.old.seen.faults }
        // What was put is read again over an honest store.
        ensures right { (text : List ℕ) (chunk : Chunk) → self.old.seen.honest ≡ true → map.get self.old.seen.blobs number ≡ Some text → sha256 text ≡ digest.now → read_chunk text ≡ Ok chunk → Right result (λ found. found ≡ chunk) }
    {
        let bytes = bytes_of(&mut self.store, number)?;
        if Sha256::digest(bytes.as_slice()) != *digest {
            return Err(ReadFault::Damaged);
        }
        chunk_in(self.alloc, &bytes)
    }

    /// Puts bytes under the next number, and answers that. The greatest is not given.
    pub fn put(&mut self, bytes: Vec<u8>) -> Result<u64, FlushFault>
        ensures number { IfOk result (λ number. number ≡ self.old.next) }
        ensures there { OnOk result (map.get self.new.seen.blobs self.old.next ≡ Some bytes.items) }
        ensures next { MatchResult result (λ _. self.new.next ≡ self.old.next + 1) (λ _. self.new.next ≡ self.old.next) }
        ensures puts { ArePut result self.old self.new }
        ensures counted { self.new.seen.faults ≡ after_flush result self.old.seen.faults }
        ensures spent_first { self.old.next ≡ greatest → (result ≡ Err FlushFault.NumbersSpent) × (self.new ≡ self.old) }
        ensures spent { IsErrOf result FlushFault.NumbersSpent → self.new.next ≡ greatest }
    {
        let number = self.next;
        if number == u64::MAX {
            return Err(FlushFault::NumbersSpent);
        }
        put_bytes(&mut self.store, number, bytes)?;
        self.next = number + 1;
        Ok(number)
    }

    /// What the number has in the store, if it has something. No digest is compared.
    pub fn get(&mut self, number: u64) -> Result<Option<Vec<u8>>, StoreFault>
        ensures found { self.old.seen.honest ≡ true → IfOk result (λ bytes. option_map (λ b. b.items) bytes ≡ map.get self.old.seen.blobs number) }
        ensures reads { Reads self.old self.new }
        ensures counted { self.new.seen.faults ≡ faults_after result self.old.seen.faults }
    {
        self.store.get(number)
    }

    /// Takes away what the number has. What the store refuses to take away may stay.
    pub fn remove(&mut self, number: u64) -> Result<(), StoreFault>
        ensures ok { OnOk result (self.new.seen.blobs ≡ map.remove self.old.seen.blobs number) }
        ensures err { OnErr result (LeavesOthers number self.old.seen.blobs self.new.seen.blobs) }
        ensures keeps { KeepsReads self.old.seen self.new.seen }
        ensures device { IfErr result (λ fault. fault ≡ stores.Fault) }
        ensures counted { self.new.seen.faults ≡ faults_after result self.old.seen.faults }
        ensures next { self.new.next ≡ self.old.next }
    {
        self.store.remove(number)
    }
}
