//! Label sets, entries, matchers, quantities and limits: the values that a log ruler speaks of.
//!
//! A label set is seen as a finite map from names to texts that are not empty, `LabelSet`, and two label sets are equal,
//! ordered and hashed by their canonical texts. Upper crates speak of it by `label`, `value_of` and `canonical_text`.
//!
//! - `labels`: `Labels`, made from pairs with named refusals. `builder`: `LabelsBuilder`, label sets that grow. `label_tree`: many labels, in a tree.
//! - `entry`: `Entry`, labels with a moment and a line.
//! - `matcher`: `Matcher`, and its built code that accepts label sets. `selector`: the code of many that must all accept.
//! - `covers`: what covers entries, as delete requests do. `routing`: which of several shards a stream goes to.
//! - `short`: `ShortText`, which lies in the value itself where it is short.
//! - `decimal`: rows of digits, and `Decimal`. `duration`: `Duration`. `size`: `Size`. `signed`: `Signed`, which labels' values are.
//! - `sending`: built matchers may be sent to another thread.
//! - `ns`: `Ns`, moments in nanoseconds, and `SECOND`. `time_range`: `TimeRange`, from one moment to another.
//! - `limits`: `Limits`, made from numbers that are in their ranges.
#![tactic(auto)]

pub mod builder;
pub mod covers;
pub mod decimal;
pub mod duration;
pub mod entry;
mod label_tree;
pub mod labels;
pub mod limits;
pub mod matcher;
pub mod ns;
mod quantity;
pub mod routing;
pub mod selector;
pub mod sending;
pub mod short;
pub mod signed;
pub mod size;
pub mod time_range;

pub use builder::LabelsBuilder;
pub use covers::Covers;
pub use decimal::{Decimal, NotOne, number_of};
pub use duration::{Duration, DurationPart, DurationUnit};
pub use entry::{Entry, EntryFault, RefusedEntry};
pub use labels::{Labels, LabelsError, LabelsFault};
pub use limits::{BadLimit, DEFAULT_LIMITS, LimitField, Limits, RawLimits};
pub use matcher::{MatchOp, Matcher, MatcherCode, MatcherError, MatcherFault};
pub use ns::{Ns, SECOND};
pub use routing::shard_of;
pub use selector::SelectorCode;
pub use short::ShortText;
pub use signed::Signed;
pub use size::{Size, SizeUnit};
pub use time_range::TimeRange;
