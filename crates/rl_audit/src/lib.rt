//! The audit of a ruler of threads: whether journals and histories are what its callers came away with.
//!
//! It works on plain slices, with no lock and no ledger. Nothing but what is stored is trusted: the digest of each receipt is compared
//! with the one of the record, and each evaluation is made anew of the partials in the journals.
//!
//! - `receipt`: `Receipt`, `Note`. `carrier`: `Carrier`, who carries them. `flags`: `Flags`, which places are claimed.
//! - `receipts`, `notes`: the audit of each. `driving`: books that are driven anew. `asked`: what records say of evaluations.
//! - `auditing`: `audit`, all of it. `fault`: why it refuses.
#![tactic(auto)]

mod asked;
pub mod auditing;
pub mod carrier;
mod driving;
pub mod fault;
mod flags;
mod notes;
pub mod receipt;
mod receipts;

pub use auditing::audit;
pub use carrier::Carrier;
pub use fault::AuditFault;
pub use receipt::{Note, Receipt, note_of};
