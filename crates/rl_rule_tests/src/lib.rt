//! Tests of rules: what a test file says, and whether rules give what it wants.
//!
//! - `document`: a test file, with `part` for a table and its keys, `streams` for `lines`, `wanted` for what is wanted and
//!   `number` for values. `fault`: why a text is no test file.
//! - `events`: what happens in a test, in its order. `playing`: that, played to a ruler.
//! - `judging`: whether what rules gave is what is wanted, as `rows`. `differences`: where it is not, as text.
//! - `report`: what is printed of tests, and the counts.
#![tactic(auto)]

mod differences;
mod document;
mod events;
mod fault;
mod judging;
mod lines;
mod number;
mod part;
mod playing;
mod report;
mod rows;
mod streams;
mod wanted;

pub use document::{Document, Edit, Test, read_document, read_table};
pub use fault::{TestsError, TestsFault};
pub use playing::play;
pub use report::Report;
