//! Windows that run: what the lines of a range add up to, while lines come and go and the moment moves on.
//!
//! A `Window` keeps how many lines of a range there are at each timestamp and label set, and their bytes, and what those
//! up to its moment add up to. A line that comes is added, one that is deleted is taken out, and a later moment lets in
//! what is due and lets go what has left. So an evaluation costs what enters, what leaves and the series that it shows.
//!
//! - `element`: `Stamp`, a timestamp and a label set, and `Element`, what a line counts as. `range`: `RangeCode`, which says
//!   what a line adds.
//! - `window`: `Window`. `buckets`: its lines by stamp. `spans`: those that come due and those that leave. `found`: what
//!   those that are due add up to.
//! - `building`: windows of what streams hold. `filling`: such windows while lines come in.
#![tactic(auto)]

mod buckets;
pub mod building;
pub mod element;
mod filling;
mod found;
pub mod range;
mod spans;
pub mod window;

pub use building::build;
pub use element::{Element, Stamp};
pub use range::RangeCode;
pub use window::Window;
