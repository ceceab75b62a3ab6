//! The rule tester: plays test files of rules, and reports where rules give something else than is wanted.
//!
//! `options` reads the command line, and `files` the files. What a test file says, and whether rules give it, is decided by
//! `rl_rule_tests`, and what is reported of a rule file that has faults by `rl_rule_reports`.
#![tactic(auto)]

mod files;
mod options;

use files::{read_edits, read_file, read_groups};
use options::read_options;
use rl_rule_tests::{Report, TestsError, play, read_document, read_table};
use std::alloc::{AllocError, AllocFailed};
use std::io;
use std::process::ExitCode;

/// Why the program stops before it has played all tests.
#[derive(Drop)]
pub(crate) enum Stop {
    BadOptions,
    /// What the program does was asked for.
    Help(String),
    /// What is wrong with a file, and where; nothing for the whole file.
    Fault { location: String, what: String },
    /// The report of a rule file that has faults.
    Rules(String),
    /// The file that cannot be read.
    Unread(String),
    Unwritten,
    Memory,
}

impl From<AllocError> for Stop {
    fn from(_error: AllocError) -> Self {
        Stop::Memory
    }
}

impl<T: Drop> From<AllocFailed<T>> for Stop {
    fn from(_error: AllocFailed<T>) -> Self {
        Stop::Memory
    }
}

impl From<TestsError> for Stop {
    fn from(error: TestsError) -> Self {
        match error {
            TestsError::Fault(fault) => Stop::Fault {
                location: fault.location,
                what: fault.what,
            },
            TestsError::Memory => Stop::Memory,
        }
    }
}

fn main(rt: HostRuntime) -> ExitCode {
    match run(&rt) {
        Ok(true) => ExitCode::from(0),
        Ok(false) => ExitCode::from(1),
        Err(stop) => report_stop(&rt, stop),
    }
}

// Reports why nothing is played, and gives the status of the process.
fn report_stop(rt: &HostRuntime, stop: Stop) -> ExitCode {
    let (report, status) = match &stop {
        Stop::Help(text) => (print!(rt; "{text}"), 0),
        Stop::BadOptions => (eprintln!(rt; "rule_test: bad options"), 2),
        Stop::Fault { location, what } if location.is_empty() => (
            eprintln!(rt; "rule_test: {what}"),
            2,
        ),
        Stop::Fault { location, what } => (eprintln!(rt; "rule_test: {location}: {what}"), 2),
        Stop::Rules(text) => (report_rules(rt, text.as_str()), 2),
        Stop::Unread(file) => (eprintln!(rt; "rule_test: {file} cannot be read"), 3),
        Stop::Memory => (eprintln!(rt; "rule_test: out of memory"), 3),
        Stop::Unwritten => (Ok(()), 3),
    };
    match report {
        Ok(()) => ExitCode::from(status),
        Err(_) => ExitCode::from(3),
    }
}

// Reports the faults of a rule file, each line after the name of the program.
fn report_rules(rt: &HostRuntime, text: &str) -> io::Result<()> {
    for line in text.split_terminator('\n') {
        eprintln!(rt; "rule_test: {line}")?;
    }
    Ok(())
}

// Plays the test file that is asked for. Whether nothing failed.
fn run(rt: &HostRuntime) -> Result<bool, Stop> {
    let alloc = rt.alloc();
    let file = read_options(rt)?;
    let text = read_file(rt, &file)?;
    let table = read_table(alloc, text.as_str())?;
    let mut document = read_document(alloc, &table)?;
    read_edits(rt, &file, &mut document.tests)?;
    let groups = read_groups(rt, &file, document.rules)?;
    let mut report = Report::new(alloc);
    for test in &document.tests {
        play(alloc, &groups, test, &mut report)?;
    }
    report.finish()?;
    match print!(rt; "{}", report.text) {
        Ok(()) => Ok(report.failed == 0),
        Err(_) => Err(Stop::Unwritten),
    }
}
