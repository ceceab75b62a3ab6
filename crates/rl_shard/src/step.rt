//! Why a step of a shard is not decided.
ghost use Rattle.std.specs.Prelude.{◌≡◌};
ghost use Rattle.rl_parts.specs.declared.fault.ReadFault.{ReadFault};
ghost use Rattle.rl_parts.specs.declared.fault.FlushFault.{FlushFault};
ghost use Rattle.rl_parts.specs.declared.fault.RewriteFault.{RewriteFault};
ghost use Rattle.rl_slots.specs.declared.change.AddFault.{AddFault};
ghost use Rattle.rl_shard.specs.ShardFault.{fault_of_flush, fault_of_read, fault_of_rewrite, fault_of_windows};
ghost use Rattle.rl_shard.specs.declared.step.ShardFault.TheVariants.{Memory};

use rl_parts::{FlushFault, ReadFault, RewriteFault};
use rl_slots::AddFault;
use std::alloc::{AllocError, AllocFailed};
use thiserror::Error;

/// Why a step was not decided. It made no record.
#[derive(Clone, Copy, Debug, Drop, Error)]
pub enum ShardFault {
    #[error("the journal has as many records as it may have")]
    JournalFull,
    #[error("the store's device failed")]
    Fault,
    #[error("a chunk was missing or changed in the store")]
    Damaged,
    #[error("no blob number is left")]
    NumbersSpent,
    #[error("out of memory")]
    Memory,
}

impl From<AllocError> for ShardFault {
    ghost from_gives = { λ _ e. e ≡ Memory };

    fn from(_error: AllocError) -> Self {
        ShardFault::Memory
    }
}

impl<T: Drop> From<AllocFailed<T>> for ShardFault {
    ghost from_gives = { λ _ e. e ≡ Memory };

    fn from(_error: AllocFailed<T>) -> Self {
        ShardFault::Memory
    }
}

impl From<AddFault> for ShardFault {
    ghost from_gives = { λ fault e. e ≡ fault_of_windows fault };

    // A shard holds as many entries as a window has room for, unless its store lies.
    fn from(fault: AddFault) -> Self {
        match fault {
            AddFault::Full => ShardFault::Damaged,
            AddFault::Memory => ShardFault::Memory,
        }
    }
}

impl From<ReadFault> for ShardFault {
    ghost from_gives = { λ fault e. e ≡ fault_of_read fault };

    fn from(fault: ReadFault) -> Self {
        match fault {
            ReadFault::Fault => ShardFault::Fault,
            ReadFault::Damaged => ShardFault::Damaged,
            ReadFault::Memory => ShardFault::Memory,
        }
    }
}

impl From<FlushFault> for ShardFault {
    ghost from_gives = { λ fault e. e ≡ fault_of_flush fault };

    fn from(fault: FlushFault) -> Self {
        match fault {
            FlushFault::Fault => ShardFault::Fault,
            FlushFault::NumbersSpent => ShardFault::NumbersSpent,
            FlushFault::Memory => ShardFault::Memory,
        }
    }
}

impl From<RewriteFault> for ShardFault {
    ghost from_gives = { λ fault e. e ≡ fault_of_rewrite fault };

    fn from(fault: RewriteFault) -> Self {
        match fault {
            RewriteFault::Fault => ShardFault::Fault,
            RewriteFault::Damaged => ShardFault::Damaged,
            RewriteFault::NumbersSpent => ShardFault::NumbersSpent,
            RewriteFault::Memory => ShardFault::Memory,
        }
    }
}
