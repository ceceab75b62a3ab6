//! Why an audit refuses.
ghost use Rattle.std.specs.Prelude.{◌≡◌};
ghost use Rattle.rl_audit.specs.declared.fault.AuditFault.TheVariants as faults;
ghost use Rattle.rl_audit.specs.Faults.{fault_of};

use rl_shard::ShardFault;
use std::alloc::{AllocError, AllocFailed};
use thiserror::Error;

/// Why an audit did not end well.
#[derive(Clone, Copy, Debug, Drop, Error)]
pub enum AuditFault {
    /// What callers came away with, and what journals and histories have, differ. Of an item of a history it is the place of the
    /// evaluation in the journal of shard 0, and 0 if there is none.
    #[error("shard {shard} differs at place {place}")]
    Mismatch { shard: usize, place: u64 },
    #[error("the store's device failed")]
    Fault,
    #[error("a journal was missing or changed in the store")]
    Damaged,
    #[error("out of memory")]
    Memory,
}

impl From<AllocError> for AuditFault {
    ghost from_gives = { λ _ e. e ≡ faults.Memory };

    fn from(_error: AllocError) -> Self {
        AuditFault::Memory
    }
}

impl<T: Drop> From<AllocFailed<T>> for AuditFault {
    ghost from_gives = { λ _ e. e ≡ faults.Memory };

    fn from(_error: AllocFailed<T>) -> Self {
        AuditFault::Memory
    }
}

impl From<ShardFault> for AuditFault {
    ghost from_gives = { λ fault e. e ≡ fault_of fault };

    // A journal that is read meets no other.
    fn from(fault: ShardFault) -> Self {
        match fault {
            ShardFault::Fault => AuditFault::Fault,
            ShardFault::Damaged => AuditFault::Damaged,
            _ => AuditFault::Memory,
        }
    }
}
