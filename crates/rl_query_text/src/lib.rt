//! Query texts: LogQL metric queries, read from texts.
//!
//! `parse` reads a text as a `Query` only where the grammar derives it, and refuses by the first fault from the left.
//! What `rl_query::print` writes is read again as the same query.
//!
//! - `parser`: `parse`.
//! - `term_printer`: `print_term`, whose text no other term has.
//! - `query_reading`: queries from their tokens.
//! - `term_reading`: terms from their tokens.
//! - `range_reading`: ranges from their tokens.
//! - `aggregation_reading`: groupings, operators and thresholds from their tokens.
//! - `draft`: what was read before it is known that it keeps its limits.
#![tactic(auto)]

pub mod aggregation_reading;
pub mod draft;
pub mod parser;
pub mod query_reading;
pub mod range_reading;
pub mod term_printer;
pub mod term_reading;

pub use parser::parse;
pub use term_printer::print_term;
