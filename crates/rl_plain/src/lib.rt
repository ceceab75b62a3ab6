//! Lists and texts as plain data: contracts see a `PlainList<T>` as the list of its items and a `PlainText` as its
//! bytes, also inside structs and enums, however they nest.
//!
//! - `list`: `PlainList<T>`, made from a `Vec` and given back without memory; lawful comparisons and hash.
//! - `text`: `PlainText`, likewise from a `String`.
//! - `copying`: `TryCopy`, whose copy is the value.
//! - `escape`: texts as they are written between quotes, by a table of escapes.
//! - `hexadecimal`: numbers of four hexadecimal digits.
//! - `refusal`: `OrMemory`, a fault or lack of memory.
//! - `run`: runs of bytes of a `ByteClass` at the front of a text.
//! - `sameness`: `Same`, whose answer is true exactly when the two values are one.
//! - `sending`: probes for what may cross to another thread.
//! - `shared`: `Shared<T>`, whose copies are one block.
#![tactic(auto)]

pub mod copying;
pub mod escape;
pub mod hexadecimal;
pub mod list;
pub mod refusal;
pub mod run;
pub mod sameness;
pub mod sending;
pub mod shared;
pub mod text;

pub use copying::TryCopy;
pub use escape::{count_escapes, push_escaped, unescape};
pub use hexadecimal::hex_number;
pub use list::PlainList;
pub use refusal::OrMemory;
pub use run::{ByteClass, after_first, run_front};
pub use sameness::Same;
pub use shared::Shared;
pub use text::PlainText;
