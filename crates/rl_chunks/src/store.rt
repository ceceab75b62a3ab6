//! What a store is, and why it refuses.
ghost use Rattle.std.specs.Prelude.{◌≡◌, Option, true, OnOk, OnErr, IfOk, IfErr};
ghost use Rattle.std.specs.Option.{option_map};
ghost use Rattle.std.specs.FinMap as map;
ghost use Rattle.rl_chunks.specs.StoreState.{Seen, KeepsReads, IsRead, LeavesOthers, faults_after};
ghost use Rattle.rl_chunks.specs.declared.store.StoreFault.TheVariants.{Fault, Memory};

use std::alloc::{AllocError, AllocFailed};
use thiserror::Error;

/// Why a store did not do what it was asked.
#[derive(Clone, Copy, Debug, Drop, Error, PartialEq, Eq)]
pub enum StoreFault {
    #[error("the device failed")]
    Fault,
    #[error("out of memory")]
    Memory,
}

impl From<AllocError> for StoreFault {
    ghost from_gives = { λ _ e. e ≡ Memory };

    fn from(_error: AllocError) -> Self {
        StoreFault::Memory
    }
}

impl<T: Drop> From<AllocFailed<T>> for StoreFault {
    ghost from_gives = { λ _ e. e ≡ Memory };

    fn from(_error: AllocFailed<T>) -> Self {
        StoreFault::Memory
    }
}

/// Keeps bytes by number. Its device may fail, lose bytes or lie; where the store is honest, what is read is what was put.
/// What hands a store to another thread asks for `Send` besides.
pub trait Store: Drop {
    ghost seen: { Self → Seen };

    /// Keeps the bytes under the number, instead of those before. A refusal may lose what the number had.
    fn put(&mut self, number: u64, bytes: Vec<u8>) -> Result<(), StoreFault>
        ensures ok { OnOk result ((seen self.new).blobs ≡ map.insert (seen self.old).blobs number bytes.items) }
        ensures err { OnErr result (LeavesOthers number (seen self.old).blobs (seen self.new).blobs) }
        ensures keeps { KeepsReads (seen self.old) (seen self.new) }
        ensures counted { (seen self.new).faults ≡ faults_after result (seen self.old).faults };

    /// The bytes of the number, if there are any. It counts as a read with any answer.
    fn get(&mut self, number: u64) -> Result<Option<Vec<u8>>, StoreFault>
        ensures found { (seen self.old).honest ≡ true → IfOk result (λ bytes. option_map (λ b. b.items) bytes ≡ map.get (seen self.old).blobs number) }
        ensures read { IsRead (seen self.old) (seen self.new) }
        ensures counted { (seen self.new).faults ≡ faults_after result (seen self.old).faults };

    /// Takes away what the number has. A refusal may take it away too. It is the device's, also where that lacked memory.
    fn remove(&mut self, number: u64) -> Result<(), StoreFault>
        ensures ok { OnOk result ((seen self.new).blobs ≡ map.remove (seen self.old).blobs number) }
        ensures err { OnErr result (LeavesOthers number (seen self.old).blobs (seen self.new).blobs) }
        ensures keeps { KeepsReads (seen self.old) (seen self.new) }
        ensures device { IfErr result (λ fault. fault ≡ Fault) }
        ensures counted { (seen self.new).faults ≡ faults_after result (seen self.old).faults };
}
