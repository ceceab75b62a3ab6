//! Aggregations: what the range of a query's term has at a moment, what it adds up to, and what the query gives.
//!
//! A `Counter` counts lines one by one for several terms that read the same lines, `scratch` adds up entries anew, `merge`
//! joins what shards added up, and `finish` makes the vector of it. The partial of one list of entries followed by another is
//! the merge of their partials, and the order of entries does not matter.
//!
//! - `volume`, `totals`: counts and bytes, by label set. `run`: `Run`, lines that count alike. `partial`: `Partial`, `merge`. `counter`: `Counter`, by an `accumulator` for each term. `range`: `scratch`, and what is built of terms.
//! - `aggregation`: what vector aggregations make of a vector, with `group_labels` and `groups`, and `topk`. `ratio` and `threshold`: ratios of vectors, and what is left of them.
//! - `outcome`: `Outcome`, `Sample`, `Fraction`. `absence`: what `absent_over_time` gives. `vector`: `finish`. `finishing`: `OutcomeCache`, a cache of outcomes.
#![tactic(auto)]

pub mod absence;
mod accumulator;
mod aggregation;
pub mod counter;
pub mod finishing;
mod group_labels;
mod groups;
pub mod outcome;
pub mod partial;
pub mod range;
mod ratio;
pub mod run;
mod threshold;
mod topk;
pub mod totals;
pub mod vector;
pub mod volume;

pub use counter::Counter;
pub use finishing::OutcomeCache;
pub use outcome::{Fraction, Outcome, Sample};
pub use partial::{Partial, merge};
pub use range::{pipelines_of, scratch};
pub use run::Run;
pub use totals::Totals;
pub use vector::finish;
pub use volume::Volume;
