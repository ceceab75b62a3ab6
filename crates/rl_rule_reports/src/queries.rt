//! The query of a rule, and why it is refused.

use crate::advice::push_advice;
use crate::findings::{Findings, OutOfMemory};
use crate::hint::push_hint;
use crate::location::{Location, line_at, push_line};
use crate::pattern::push_bad_pattern;
use rl_query::{QueryError, QueryFault};
use rl_query_text::parse;
use std::fmt::Write;

/// The fault of a query, if it has one: the line in which it is, a caret under the byte, and what a ruler has near it.
pub(crate) fn push_query(
    findings: &mut Findings,
    location: &Location<'_>,
    query: &str,
) -> Result<(), OutOfMemory> {
    match parse(*findings.text.allocator(), query) {
        Ok(_) => Ok(()),
        Err(QueryError::Memory) => Err(OutOfMemory),
        Err(QueryError::Fault(fault)) => {
            findings.begin(location)?;
            push_query_fault(findings, query, fault)
        }
    }
}

/// The fault of a text that is no query, after its position.
pub fn push_query_fault(
    findings: &mut Findings,
    query: &str,
    fault: QueryFault,
) -> Result<(), OutOfMemory> {
    let text = &mut findings.text;
    writeln!(text, "{fault}")?;
    match fault {
        QueryFault::Syntax(location) | QueryFault::Unsupported(location) => {
            push_line(text, line_at(query, location))?;
        }
        QueryFault::BadRegex if findings.is_full => push_bad_pattern(text, query)?,
        _ => {}
    }
    if findings.is_full && push_advice(text, query, fault)? {
        return Ok(());
    }
    push_hint(text, query, fault)
}
