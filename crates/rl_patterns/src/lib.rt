//! Regular expressions, built once and searched often. Only this crate uses the crate `regex`.
//!
//! Contracts see a built pattern as its text. What the text means is said in `specs/Matching.antt`: `has_match` of a
//! pattern and a text, and `matches_whole` of a pattern and a value, as `^(?:pattern)$`.
//!
//! - `pattern`: `PatternCode`, which says whether a text has a match, and `WholePatternCode`, whether a value is one.
//! - `empty`: `matches_empty`, whether a pattern matches the empty text as a whole, which is decided without building it.
//! - `searching`: `Searching`, which serves many texts with one set of caches.
//! - `sending`: built code may be sent to another thread.
#![tactic(auto)]

pub mod empty;
pub mod pattern;
pub mod searching;
pub mod sending;

pub use empty::matches_empty;
pub use pattern::{
    PatternCode, PatternError, PatternFault, WholePatternCode, is_pattern, is_whole_pattern,
};
pub use searching::Searching;
