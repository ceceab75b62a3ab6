//! Queries as values: LogQL metric queries, the sieves of delete requests, and what both are made of.
//!
//! The limits of a query are facts of its types, so each `Query`, `Term` and `Sieve` that exists keeps them. Whether two
//! queries are one is decided without memory. Each has a canonical text. Texts are read in rl_selector_text
//! and rl_query_text.
//!
//! - `query`: `Query`, `Term`, `LogRange`, `RangeFunction` and `Selector`.
//! - `aggregation`: `Aggregation`, `Grouping`, `VectorOperator` and `Threshold`.
//! - `stages`: `Stage` and `Parser`.
//! - `filter`: `LineFilter`, `LineOp` and `Sieve`.
//! - `label_test`: `LabelTests`, trees of `LabelTest` under a `Join`.
//! - `matcher_test`: `MatcherTest`, a test of a text.
//! - `quantity_test`: `QuantityTest`, a test of a quantity.
//! - `token`: `Token`, `Sign` and `Lexeme`, of which texts of queries are made.
//! - `printer` and `test_printer`: canonical texts.
//! - `duration`: the seconds of a range.
//! - `fault`: `QueryFault`, why a text is refused.
//! - `sending`: what may be sent to another thread, and looked at from two.
#![tactic(auto)]

pub mod aggregation;
pub mod duration;
pub mod fault;
pub mod filter;
pub mod label_test;
pub mod matcher_test;
pub mod printer;
pub mod quantity_test;
pub mod query;
pub mod sending;
pub mod stages;
pub mod test_printer;
pub mod token;

pub use aggregation::{Aggregation, Grouping, Threshold, VectorOperator};
pub use fault::{QueryError, QueryFault};
pub use filter::{LineFilter, LineOp, Sieve};
pub use label_test::{Join, LabelTest, LabelTests, TestParts};
pub use matcher_test::MatcherTest;
pub use printer::print;
pub use quantity_test::{Comparison, Quantity, QuantityTest};
pub use query::{LogRange, Query, RangeFunction, Selector, Term};
pub use stages::{Parser, Stage};
