//! Why calls on requests are refused.

use rl_plain::OrMemory;
use thiserror::Error;

/// Why a request is not received, the lowest first.
#[derive(Clone, Copy, Debug, Drop, Error, PartialEq, Eq)]
pub enum ReceiveFault {
    #[error("the number is that of another request, or of one that was cancelled or processed")]
    IdTaken,
    #[error("there are 65536 requests")]
    Full,
}

/// Why a request is not received.
pub type ReceiveError = OrMemory<ReceiveFault>;

/// Why a request is not cancelled, the lowest first.
#[derive(Clone, Copy, Debug, Drop, Error, PartialEq, Eq)]
pub enum CancelFault {
    #[error("no request has the number")]
    NoSuchRequest,
    #[error("the request was processed")]
    AlreadyProcessed,
}

/// Why a request is not processed, the lowest first.
#[derive(Clone, Copy, Debug, Drop, Error, PartialEq, Eq)]
pub enum ProcessFault {
    #[error("no request has the number")]
    NoSuchRequest,
    #[error("the request was cancelled")]
    WasCancelled,
    #[error("the request can still be cancelled")]
    TooEarly,
}
