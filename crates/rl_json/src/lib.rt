//! JSON documents whose texts are borrowed, as the data that `serde_json` reads. Contracts see a value by `data_of`.
//!
//! - `reading`: `read` and `read_bytes`, the value that a document is.
//! - `members`: `value_at`, the value at a key of an object; `sorted`, its members by their keys.
//! - `number`: `number_of`, the `Number` that a text is.
#![tactic(auto)]

pub mod members;
pub mod number;
pub mod reading;

pub use members::{sorted, value_at};
pub use number::{Number, number_of};
pub use reading::{read, read_bytes};
