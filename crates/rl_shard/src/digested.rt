//! Records with their digests.
ghost use Rattle.std.specs.Prelude.{◌≡◌};
ghost use Rattle.rl_records.specs.RecordBytes.{digest_of};

use rl_records::{Record, digest_of};
use std::marker::Model;

/// A record, and the SHA-256 of its bytes, which is made once. Contracts see the record.
#[derive(Drop)]
pub(crate) struct Digested {
    record: Record,
    digest: [u8; 32],
}

impl Model for Digested {
    ghost use Rattle.std.specs.Prelude.{◌≡◌};
    ghost use Rattle.rl_records.specs.RecordBytes.{digest_of};
    ghost use Rattle.rl_records.specs.contracts.record.Record as record_type;
    ghost use Rattle.rl_records.specs.declared.record.Record.{Record};

    ghost Value = { Record };

    ghost coded = { record_type.the_row.coded };

    ghost view = { λ a. a.record };

    ghost invariant = { λ a. a.digest ≡ digest_of a.record };
}

impl Digested {
    pub(crate) fn new(made: Record) -> Self
        ensures { result ≡ made }
    {
        let digest = digest_of(&made);
        Digested {
            record: made,
            digest,
        }
    }

    pub(crate) fn record(&self) -> &Record
        ensures { result.now ≡ self.now }
    {
        &self.record
    }

    pub(crate) fn digest(&self) -> [u8; 32]
        ensures { result ≡ digest_of self.now }
    {
        self.digest
    }
}
