//! Why a text is no test file, and where.
use rl_plain::OrMemory;
use std::alloc::{AllocError, Global};

/// What is wrong with a test file, and where: `tests 2, streams 1`, or nothing for the whole file.
#[derive(Drop)]
pub struct TestsFault {
    pub location: String,
    pub what: String,
}

/// Why no test file was read.
pub type TestsError = OrMemory<TestsFault>;

// The fault of an item as one of what has the array.
pub(crate) fn within(alloc: Global, error: TestsError, array: &str, index: usize) -> TestsError {
    match error {
        TestsError::Fault(fault) => {
            match location_within(alloc, array, index, fault.location.as_str()) {
                Ok(location) => TestsError::Fault(TestsFault {
                    location,
                    what: fault.what,
                }),
                Err(_) => TestsError::Memory,
            }
        }
        TestsError::Memory => TestsError::Memory,
    }
}

// Numbers count from 1.
fn location_within(
    alloc: Global,
    array: &str,
    index: usize,
    inner: &str,
) -> Result<String, AllocError> {
    let number = index.saturating_add(1);
    if inner.is_empty() {
        format!(in alloc; "{array} {number}")
    } else {
        format!(in alloc; "{array} {number}, {inner}")
    }
}

// The fault with this text.
pub(crate) fn fault(report: Result<String, AllocError>) -> TestsError {
    match report {
        Ok(what) => TestsError::Fault(TestsFault {
            location: String::new(*what.allocator()),
            what,
        }),
        Err(_) => TestsError::Memory,
    }
}
