//! Texts of selectors and of what a line goes through: tokens, stream selectors, line filters, parsers and label tests, and the sieves of delete requests.
//!
//! `parse_delete` reads a text as a `Sieve` only where the grammar derives it, and refuses by the first fault from the left.
//! What `print_sieve` writes is read again as the same sieve. Metric queries are read in rl_query_text, over what is read here.
//!
//! - `sieve`: `parse_delete` and `print_sieve`.
//! - `test_printer`: `print_tests`.
//! - `lexer`: the tokens of a text. `stop`: where reading them stops, and why.
//! - `meeting`: the patterns that a reading meets, and whether each has room.
//! - `front`: the token at the front, at its position.
//! - `selector`: selectors from their tokens.
//! - `stage`: line filters and stages from their tokens.
//! - `testing`: label tests from their tokens.
//! - `room`: what the rest of a text may still have.
#![tactic(auto)]

pub mod front;
pub mod lexer;
pub mod meeting;
pub mod room;
pub mod selector;
pub mod sieve;
pub mod stage;
pub mod stop;
pub mod test_printer;
pub mod testing;

pub use sieve::{parse_delete, print_sieve};
pub use test_printer::print_tests;
