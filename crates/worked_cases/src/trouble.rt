//! Why a case has no answer.
use std::alloc::{AllocError, AllocFailed};
use std::io;

/// Why a case has no answer.
#[derive(Clone, Copy, Debug, Drop)]
pub enum Trouble {
    Memory,
    NoSuchDirective,
    /// The input is not what the directive reads.
    BadInput,
    /// A file could not be read, or the output not written.
    Files,
}

impl From<AllocError> for Trouble {
    fn from(_error: AllocError) -> Self {
        Trouble::Memory
    }
}

impl<T: Drop> From<AllocFailed<T>> for Trouble {
    fn from(_error: AllocFailed<T>) -> Self {
        Trouble::Memory
    }
}

impl From<io::Error> for Trouble {
    fn from(_error: io::Error) -> Self {
        Trouble::Files
    }
}
