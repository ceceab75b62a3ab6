//! Why a ruler refuses.
ghost use Rattle.std.specs.Prelude.{◌≡◌};
ghost use Rattle.rl_workers.specs.Closing.{close_fault};
ghost use Rattle.rl_workers.specs.declared.fault.OpenFault.TheVariants as opens;

use rl_audit::AuditFault;
use rl_labels::Ns;
use rl_shard::ShardFault;
use std::alloc::{AllocError, AllocFailed};
use thiserror::Error;

/// Why a ruler was not opened. What it was given is dropped.
#[derive(Clone, Copy, Debug, Drop, Error)]
pub enum OpenFault {
    #[error("not as many shards, callers, groups, rules or sinks as there may be")]
    BadCount,
    #[error("out of memory")]
    Memory,
}

impl From<AllocError> for OpenFault {
    ghost from_gives = { λ _ e. e ≡ opens.Memory };

    fn from(_error: AllocError) -> Self {
        OpenFault::Memory
    }
}

impl<T: Drop> From<AllocFailed<T>> for OpenFault {
    ghost from_gives = { λ _ e. e ≡ opens.Memory };

    fn from(_error: AllocFailed<T>) -> Self {
        OpenFault::Memory
    }
}

/// Why a step was not decided by all shards.
#[derive(Clone, Copy, Debug, Drop, Error)]
pub enum AllFault {
    /// The first shards decided it, and the next one did not. It may be asked for again.
    #[error("{fault}, after {done} shards")]
    Partly { done: usize, fault: ShardFault },
    /// No shard was asked.
    #[error("out of memory")]
    Memory,
}

/// Why a group was not evaluated. Nothing is committed, and the same moment may be asked for again.
#[derive(Clone, Copy, Debug, Drop, Error)]
pub enum EvaluationFault {
    #[error("no such group")]
    NoSuch,
    /// The moment is not later than that of the last evaluation.
    #[error("the moment is not later than that of the last evaluation")]
    MomentNotLater { last: Ns },
    /// A shard did not answer; those before it did.
    #[error("{fault}, at shard {shard}")]
    AtShard { shard: usize, fault: ShardFault },
    #[error("the book has as many records as it may have")]
    SessionFull,
    #[error("out of memory")]
    Memory,
}

/// Why a group was not edited. It stays as it was.
#[derive(Clone, Copy, Debug, Drop, Error)]
pub enum EditFault {
    /// No group has the number, or the group has another name.
    #[error("no such group")]
    NoSuch,
    #[error("the book has as many records as it may have")]
    SessionFull,
    #[error("out of memory")]
    Memory,
}

/// Why nothing is known of a group, whose book stays as it was.
#[derive(Clone, Copy, Debug, Drop, Error)]
pub enum GroupFault {
    #[error("no such group")]
    NoSuch,
    #[error("out of memory")]
    Memory,
}

/// Why a ruler was not closed.
#[derive(Clone, Copy, Debug, Drop, Error)]
pub enum CloseFault {
    /// Fewer passes came than were opened.
    #[error("a pass is missing")]
    PassMissing,
    /// What the passes have, and what journals and histories have, differ, as the audit has it.
    #[error("shard {shard} differs at place {place}")]
    Mismatch { shard: usize, place: u64 },
    #[error("the store's device failed")]
    Fault,
    #[error("a journal was missing or changed in the store")]
    Damaged,
    #[error("out of memory")]
    Memory,
}

impl From<AuditFault> for CloseFault {
    ghost from_gives = { λ fault e. e ≡ close_fault fault };

    fn from(fault: AuditFault) -> Self {
        match fault {
            AuditFault::Mismatch { shard, place } => CloseFault::Mismatch { shard, place },
            AuditFault::Fault => CloseFault::Fault,
            AuditFault::Damaged => CloseFault::Damaged,
            AuditFault::Memory => CloseFault::Memory,
        }
    }
}
