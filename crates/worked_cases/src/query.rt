//! Query texts that no rule file shows: what they are read as, what their faults say, and the texts of delete requests.
use crate::compared::{halves, matched};
use crate::given::Read;
use crate::output::{push_debug, push_value};
use crate::trouble::Trouble;
use rl_query::{Query, QueryError, QueryFault, Sieve, Stage, print};
use rl_query_text::parse;
use rl_selector_text::{parse_delete, print_sieve, print_tests};
use std::alloc::{AllocError, AllocFailed, Global};
use std::mem;

pub(crate) fn answer(output: &mut String, directive: &str, input: &str) -> Result<(), Trouble> {
    match directive {
        "parse" => printed(output, input),
        "tests" => tests(output, input),
        "fault" => fault(output, input),
        "faults" => faults(output, input),
        "delete" => printed_sieve(output, input),
        "sieves" => matched::<Sieve>(output, input),
        _ => Err(Trouble::NoSuchDirective),
    }
}

pub(crate) fn query_in(alloc: Global, text: &str) -> Result<Query, Trouble> {
    parse(alloc, text).or(Err(Trouble::BadInput))
}

impl Read for Sieve {
    fn read(alloc: Global, text: &str) -> Result<Self, Trouble> {
        parse_delete(alloc, text).or(Err(Trouble::BadInput))
    }
}

// The canonical text of the query that a text is, or its fault.
fn printed(output: &mut String, input: &str) -> Result<(), Trouble> {
    match parse(*output.allocator(), input) {
        Ok(query) => {
            let ended = push_query(output, &query);
            mem::forget(query);
            ended
        }
        Err(error) => push_error(output, error),
    }
}

fn push_query(output: &mut String, query: &Query) -> Result<(), Trouble> {
    let text = print(*output.allocator(), query)?;
    push_value(output, &text)
}

// The texts of the label tests of a query's first term.
fn tests(output: &mut String, input: &str) -> Result<(), Trouble> {
    let query = query_in(*output.allocator(), input)?;
    let ended = push_tests(output, query.left.range.stages.as_slice());
    mem::forget(query);
    ended
}

fn push_tests(output: &mut String, stages: &[Stage]) -> Result<(), Trouble> {
    for stage in stages {
        if let Stage::Tests(tests) = stage {
            let text = print_tests(*output.allocator(), tests)?;
            push_value(output, &text)?;
        }
    }
    Ok(())
}

fn push_error(output: &mut String, error: QueryError) -> Result<(), Trouble> {
    match error {
        QueryError::Fault(fault) => push_debug(output, &fault),
        QueryError::Memory => Err(Trouble::Memory),
    }
}

// What is printed of the fault of a text that is no query, or of the lack of memory that is named.
fn fault(output: &mut String, input: &str) -> Result<(), Trouble> {
    let error = match input {
        "AllocError" => QueryError::from(AllocError),
        "AllocFailed" => QueryError::from(AllocFailed { value: 0u8 }),
        _ => QueryError::from(fault_of(*output.allocator(), input)?),
    };
    push_value(output, &error)
}

fn fault_of(alloc: Global, text: &str) -> Result<QueryFault, Trouble> {
    match parse(alloc, text) {
        Err(QueryError::Fault(fault)) => Ok(fault),
        Err(QueryError::Memory) => Err(Trouble::Memory),
        Ok(query) => {
            mem::forget(query);
            Err(Trouble::BadInput)
        }
    }
}

// Whether the faults of two texts are equal.
fn faults(output: &mut String, input: &str) -> Result<(), Trouble> {
    let alloc = *output.allocator();
    let (left, right) = halves(input)?;
    let (left, right) = (fault_of(alloc, left)?, fault_of(alloc, right)?);
    push_value(output, &(left == right))
}

// The canonical text of the sieve that a text is, or its fault.
fn printed_sieve(output: &mut String, input: &str) -> Result<(), Trouble> {
    match parse_delete(*output.allocator(), input) {
        Ok(sieve) => push_sieve(output, &sieve),
        Err(error) => push_error(output, error),
    }
}

fn push_sieve(output: &mut String, sieve: &Sieve) -> Result<(), Trouble> {
    let text = print_sieve(*output.allocator(), sieve)?;
    push_value(output, &text)
}
