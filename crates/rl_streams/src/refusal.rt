//! Why an entry is not taken.
ghost use Rattle.std.specs.Prelude.{◌≡◌};
ghost use Rattle.rl_parts.specs.declared.fault.ReadFault.TheVariants.{Memory};
ghost use Rattle.rl_streams.specs.declared.refusal.AddRefusal.TheVariants.{Read};

use rl_labels::Ns;
use rl_parts::ReadFault;
use std::alloc::{AllocError, AllocFailed};
use thiserror::Error;

/// Why an entry is not taken, the lowest first; the search for it comes before the count.
#[derive(Clone, Copy, Debug, Drop, Error)]
pub enum AddRefusal {
    #[error("the entry is older than the horizon")]
    Expired { horizon: Ns },
    #[error("the entry is older than the newest of its stream by more than half of the age of a chunk")]
    TooFarBehind { newest: Ns },
    #[error("as many entries are held as may be")]
    Full,
    #[error("{0}")]
    Read(ReadFault),
}

impl From<ReadFault> for AddRefusal {
    ghost from_gives = { λ fault e. e ≡ Read fault };

    fn from(fault: ReadFault) -> Self {
        AddRefusal::Read(fault)
    }
}

impl From<AllocError> for AddRefusal {
    ghost from_gives = { λ _ e. e ≡ Read Memory };

    fn from(_error: AllocError) -> Self {
        AddRefusal::Read(ReadFault::Memory)
    }
}

impl<T: Drop> From<AllocFailed<T>> for AddRefusal {
    ghost from_gives = { λ _ e. e ≡ Read Memory };

    fn from(_error: AllocFailed<T>) -> Self {
        AddRefusal::Read(ReadFault::Memory)
    }
}
