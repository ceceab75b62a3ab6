//! What is reported of the input of a session: rules, a line `%%`, and commands.

use crate::commands::{Known, push_command};
use rl_rule_reports::{
    Findings, Location, Manner, OutOfMemory, Report, ending, push_counts, push_rules,
};
use rl_session::front::{MAX_INPUT_LEN, split_front};
use rl_session::{FrontFault, is_blank};
use std::alloc::Global;
use std::fmt::Write;

/// The report of an input: all that is reported of its rules, then the faults of each command up to `end`, and how much it has.
pub(crate) fn session_report(
    alloc: Global,
    bytes: Vec<u8>,
    manner: Manner<'_>,
    cap: Option<u64>,
) -> Result<Report, OutOfMemory> {
    let mut findings = Findings::new(alloc, true);
    let is_taken = match text_of(bytes) {
        Ok(text) => push_text(&mut findings, text.as_str(), manner.prints, cap)?,
        Err(fault) => push_front_fault(&mut findings, fault)?,
    };
    Ok(findings.into_report(is_taken, manner.is_strict))
}

// The text that the bytes are.
fn text_of(bytes: Vec<u8>) -> Result<String, FrontFault> {
    if bytes.len() > MAX_INPUT_LEN {
        return Err(FrontFault::TooLong);
    }
    match String::from_utf8(bytes) {
        Ok(text) => Ok(text),
        Err(_) => Err(FrontFault::NotText),
    }
}

// The fault of an input that has no two parts, which is not taken.
fn push_front_fault(findings: &mut Findings, fault: FrontFault) -> Result<bool, OutOfMemory> {
    findings.begin(&Location::whole(None))?;
    writeln!(findings.text, "{fault}")?;
    Ok(false)
}

// What is reported of the two parts of an input, and whether it is taken.
fn push_text(
    findings: &mut Findings,
    text: &str,
    prints: bool,
    cap: Option<u64>,
) -> Result<bool, OutOfMemory> {
    let Some((document, commands)) = split_front(text) else {
        return push_front_fault(findings, FrontFault::NoMark);
    };
    let groups = push_rules(findings, &Location::whole(None), document, prints)?;
    let feeds = document.bytes().filter(|byte| *byte == b'\n').count();
    let first = feeds.saturating_add(2);
    let mut known = Known::new(*findings.text.allocator(), groups.as_deref(), cap)?;
    let count = push_commands(findings, &mut known, first, commands)?;
    match &groups {
        Some(groups) if findings.count == 0 => {
            push_counts(&mut findings.text, groups)?;
            writeln!(findings.text, ", {count} command{}", ending(count))?;
            Ok(true)
        }
        _ => Ok(false),
    }
}

// The faults of the commands, and how many lines are not blank, up to `end`.
fn push_commands(
    findings: &mut Findings,
    known: &mut Known<'_>,
    first: usize,
    commands: &str,
) -> Result<usize, OutOfMemory> {
    let mut number = first;
    let mut count = 0usize;
    for line in commands.split('\n') {
        if !is_blank(line) {
            count = count.saturating_add(1);
            if push_command(findings, known, number, line)? {
                break;
            }
        }
        number = number.saturating_add(1);
    }
    Ok(count)
}
