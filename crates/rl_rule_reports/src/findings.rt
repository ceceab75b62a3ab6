//! What is reported: a text, and how many faults it has.
ghost use Rattle.std.specs.Prelude.{◌≡◌, ◌==◌, ◌&&◌, ◌||◌, not};

use crate::location::{Location, push_location, push_place};
use std::alloc::{AllocError, AllocFailed, Global};
use std::fmt;

/// What is reported, and whether a ruler takes the file.
#[derive(Drop)]
pub struct Report {
    pub text: String,
    pub is_taken: bool,
}

/// Why nothing can be reported: memory ran out.
#[derive(Debug, Drop)]
pub struct OutOfMemory;

impl From<AllocError> for OutOfMemory {
    fn from(_error: AllocError) -> Self {
        OutOfMemory
    }
}

impl<T: Drop> From<AllocFailed<T>> for OutOfMemory {
    fn from(_error: AllocFailed<T>) -> Self {
        OutOfMemory
    }
}

impl From<fmt::Error> for OutOfMemory {
    fn from(_error: fmt::Error) -> Self {
        OutOfMemory
    }
}

/// How a report is made.
#[derive(Clone, Copy)]
pub struct Manner<'a> {
    pub prints: bool,
    pub is_strict: bool,
    /// The name of the file as lines have it, if they go by it.
    pub name: Option<&'a str>,
    pub is_one_of_several: bool,
}

impl Manner<'_> {
    /// Whether all that is known is said. Standard input without a name has the short form.
    pub(crate) fn is_full(self) -> bool {
        self.is_strict || self.name.is_some()
    }
}

/// The faults that are reported so far, how many there are, and how many lints.
#[derive(Drop)]
pub struct Findings {
    pub text: String,
    pub count: usize,
    pub(crate) lints: usize,
    pub(crate) is_full: bool,
}

impl Findings {
    /// None.
    pub fn new(alloc: Global, is_full: bool) -> Self {
        Findings {
            text: String::new(alloc),
            count: 0,
            lints: 0,
            is_full,
        }
    }

    /// Begins one more, with its position. The caller writes the rest of its line.
    pub fn begin(&mut self, location: &Location<'_>) -> Result<(), OutOfMemory> {
        self.count = self.count.saturating_add(1);
        push_place(&mut self.text, location)?;
        push_location(&mut self.text, location)
    }

    /// Begins the line of a lint, with its position.
    pub fn begin_lint(&mut self, location: &Location<'_>) -> Result<(), OutOfMemory> {
        self.lints = self.lints.saturating_add(1);
        push_place(&mut self.text, location)?;
        self.text.push_str("lint: ")?;
        Ok(())
    }

    /// The report of what a ruler takes, or does not take. Under `is_strict` nothing with a lint is taken.
    pub fn into_report(self, is_taken: bool, is_strict: bool) -> Report
        ensures { result.is_taken ≡ (is_taken && (self.lints == 0 || not is_strict)) }
    {
        let Findings {
            text,
            count: _,
            lints,
            is_full: _,
        } = self;
        Report {
            text,
            is_taken: is_taken && (lints == 0 || !is_strict),
        }
    }
}
