//! Delete requests and the horizon of retention: which entries are hidden, and which are too old.
//!
//! - `deletion`: `Deletion`, what a request asks for. `request`: `Request`, and `RequestStatus`, its status.
//! - `requests`: `Requests`, all requests of a shard by their numbers, with what those that are received cover.
//! - `active`: `ActiveRequest`, a received request with its built sieve. `fault`: why a call is refused.
//! - `horizon`: `Horizon`, below which entries are expired. `turning`: the entries that a step hides or shows, as
//!   `HiddenAlone` and `NewlyExpired`.
//! - `sending`: requests may be sent to another thread.
#![tactic(auto)]

pub mod active;
pub mod deletion;
pub mod fault;
pub mod horizon;
pub mod request;
pub mod requests;
pub mod sending;
pub mod turning;

pub use active::ActiveRequest;
pub use deletion::Deletion;
pub use fault::{CancelFault, ProcessFault, ReceiveError, ReceiveFault};
pub use horizon::Horizon;
pub use request::{Request, RequestStatus};
pub use requests::{MOST_REQUESTS, Requests};
pub use turning::{HiddenAlone, NewlyExpired};
