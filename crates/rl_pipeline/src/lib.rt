//! Pipelines of LogQL: what becomes of a line that goes through the stages of a range, built once and asked for many lines.
//!
//! Contracts see a built line filter as the filter, and a pipeline as its list of stages. What becomes of a line is said in
//! `specs/Running.antt`: `run` of a list of stages, a line and the labels of its stream.
//!
//! - `filter`: `FilterCode`, a built line filter. `search`: `Search`, which asks many lines for one filter.
//! - `json_labels`, `logfmt`: what the parsers find in a line. `lent`: texts that a line lends. `extracting`: the labels that it becomes. `parsing`: either of both.
//! - `label_tests`: built label tests. `testing`: what asks many lines for them. `comparing`: tests by quantity, and `holds`, the comparison of numbers.
//! - `line`: `ParsedLine`, which several pipelines have read once. `draft`: the labels of a line on its way through the stages. `meter`: `Meter`, which counts the runs.
//! - `pipeline`: `Pipeline`, built stages. `running`: `Running`, which sends many lines through them with one set of caches.
//! - `sieve`: `SieveCode`, a built sieve. `sending`: what may be sent to another thread.
#![tactic(auto)]

pub(crate) mod comparing;
pub(crate) mod draft;
pub mod extracting;
pub mod filter;
pub mod json_labels;
pub mod label_tests;
pub(crate) mod lent;
pub mod line;
pub mod logfmt;
pub mod meter;
pub mod parsing;
pub mod pipeline;
pub mod running;
pub mod search;
pub mod sending;
pub mod sieve;
pub(crate) mod testing;

pub use comparing::holds;
pub use filter::FilterCode;
pub use line::ParsedLine;
pub use meter::Meter;
pub use parsing::parsed;
pub use pipeline::Pipeline;
pub use running::Running;
pub use search::Search;
pub use sieve::SieveCode;
