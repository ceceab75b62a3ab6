//! Callers of a ruler of threads: each is an engine of sessions, and the lines of a block run in threads, one for each caller.
//!
//! - `caller`: `Caller`, an engine that asks a ruler with a pass of its own; `Listing`, a group as it is known to all of them.
//! - `block`: the lines of a block: whose they are. `runner`: `Runner`, a caller's engine with what its lines of a block were answered.
//! - `running`: `run_callers`, the lines and blocks of a session. `names`: the names of faults.
#![tactic(auto)]

mod block;
pub mod caller;
pub mod names;
pub mod runner;
pub mod running;

pub use caller::{Caller, Listing};
pub use names::close_fault_name;
pub use runner::Runner;
pub use running::run_callers;
