//! Stages of a range as values: line filters, parsers and label tests.
use crate::filter::LineFilter;
use crate::label_test::LabelTests;
use rl_plain::{Same, TryCopy};
use std::alloc::AllocError;

/// How the fields of a line are found (LogQL).
#[derive(Clone, Copy, Debug, PartialEq, Eq)]
pub enum Parser {
    /// `| json`: the line is an object.
    Json,
    /// `| logfmt`: the line is pairs of a name and a text.
    Logfmt,
}

/// A stage of a range: each line goes through all of them, in their order.
#[derive(Drop, PartialEq, Eq)]
pub enum Stage {
    /// Lines that do not pass are left out.
    Filter(LineFilter),
    /// The fields of the line are found.
    Parser(Parser),
    /// Lines whose labels do not pass are left out.
    Tests(LabelTests),
}

impl TryCopy for Stage {
    fn try_copy(&self) -> Result<Self, AllocError> {
        match self {
            Stage::Filter(filter) => Ok(Stage::Filter(filter.try_copy()?)),
            Stage::Parser(parser) => Ok(Stage::Parser(*parser)),
            Stage::Tests(tests) => Ok(Stage::Tests(tests.try_copy()?)),
        }
    }
}

impl Same for Stage {
    fn is_same(&self, other: &Self) -> bool {
        match (self, other) {
            (Stage::Filter(one), Stage::Filter(same)) => one.is_same(same),
            (Stage::Parser(one), Stage::Parser(same)) => one == same,
            (Stage::Tests(one), Stage::Tests(same)) => one.is_same(same),
            _ => false,
        }
    }
}
