//! A ruler of threads: many callers push and evaluate at once, under locks, and each comes away with receipts.
//!
//! A shard stands under a lock of its own, and so does the book of each group. What a caller is given for each record of a shard is a
//! receipt, for each evaluation and each edit a note; two ledgers make sure that no record is without its receipt.
//!
//! - `ruler`: `Ruler`, its opening and its calls. `pass`: `Pass`, what a caller holds.
//! - `ended`: what a ruler leaves when it is closed. `fault`: why calls are refused. `crew`: `Crew`, a ledger that says its parts.
//! - `sending`: probes for what may cross to another thread.
#![tactic(auto)]

mod closing;
pub mod crew;
mod desk;
pub mod ended;
pub mod fault;
mod opening;
pub mod pass;
pub mod ruler;
mod seat;
pub mod sending;
mod tally;

pub use crew::Crew;
pub use ended::{Ended, NotClosed};
pub use fault::{AllFault, CloseFault, EditFault, EvaluationFault, GroupFault, OpenFault};
pub use pass::Pass;
pub use rl_audit::{AuditFault, Carrier, Note, Receipt};
pub use ruler::Ruler;
