//! A hasher.
ghost use Rattle.std.specs.Prelude.{◌≡◌, ◌++◌, []};
ghost use Rattle.sha2.specs.Sha256.{sha256};
ghost use Rattle.rl_digests.specs.FedBytes.{bytes_fed};

use crate::fed::Fed;
use sha2::{Digest, Sha256};
use std::marker::Model;
use std::mem;
use std::snapshot::Snapshot;

/// SHA-256 of what it was fed so far. Contracts see the bytes. Takes no memory.
#[derive(Drop)]
pub struct Hasher {
    sha: Sha256,
    fed: Snapshot<Fed>,
}

impl Model for Hasher {
    ghost use Rattle.std.specs.Prelude.{ℕ, List};
    ghost use Rattle.std.specs.Coded.{coded_list, coded_ℕ};
    ghost use Rattle.sha2.specs.Hashers.{Holds256};
    ghost use Rattle.rl_digests.specs.FedBytes.{bytes_fed};

    ghost Value = { List ℕ };

    ghost coded = { coded_list coded_ℕ };

    ghost view = { λ a. bytes_fed a.fed.value };

    ghost invariant = { λ a. Holds256 a.sha (bytes_fed a.fed.value) };
}

impl Hasher {
    /// A hasher that was fed nothing.
    pub fn new() -> Hasher
        ensures { result ≡ [] }
    {
        Hasher {
            sha: Sha256::new(),
            fed: Snapshot::of(&Fed::Nothing),
        }
    }

    /// Feeds it a piece after those before.
    pub fn put(&mut self, piece: &[u8])
        ensures { self.new ≡ self.old ++ piece.now }
    {
        self.sha.update(piece);
        note(&mut self.fed, piece);
    }

    /// The digest of all that it was fed.
    pub fn digest(self) -> [u8; 32]
        ensures { result ≡ sha256 self }
    {
        self.sha.finalize()
    }
}

// What was fed, with a piece after it. Nothing of it is there when the program runs.
fn note(fed: &mut Snapshot<Fed>, piece: &[u8])
    ensures { bytes_fed fed.new.value ≡ bytes_fed fed.old.value ++ piece.now }
{
    for byte in piece {
        let before = mem::replace(fed, Snapshot::of(&Fed::Nothing));
        *fed = Snapshot::of(&Fed::Byte {
            byte: *byte,
            before,
        });
    }
}
