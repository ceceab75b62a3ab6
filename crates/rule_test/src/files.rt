//! The files of a run: the test file, and the rule files that it names.
use crate::Stop;
use rl_plain::PlainText;
use rl_rule_reports::{Manner, OutOfMemory, report_of};
use rl_rule_tests::Test;
use rl_rules::{Group, RulesError, read_rules};
use std::alloc::Global;
use std::io::ErrorKind;
use std::{fs, io};

/// The text of the test file, or of standard input where none is named.
pub(crate) fn read_file(rt: &HostRuntime, file: &Option<PlainText>) -> Result<String, Stop> {
    let alloc = rt.alloc();
    match file {
        Some(file) => text_of(alloc, file.as_str(), fs::read_to_string(rt, file.as_str())),
        None => text_of(
            alloc,
            "standard input",
            io::read_to_string(alloc, rt.reader()),
        ),
    }
}

/// Reads the rule files of all edits.
pub(crate) fn read_edits(
    rt: &HostRuntime,
    file: &Option<PlainText>,
    tests: &mut Vec<Test<'_>>,
) -> Result<(), Stop> {
    for test in tests.iter_mut() {
        for edit in test.edits.iter_mut() {
            edit.groups = read_groups(rt, file, edit.rules)?;
        }
    }
    Ok(())
}

/// The groups of a rule file that a test file names.
pub(crate) fn read_groups(
    rt: &HostRuntime,
    file: &Option<PlainText>,
    name: &str,
) -> Result<Vec<Group>, Stop> {
    let alloc = rt.alloc();
    let path = path_of(alloc, file, name)?;
    let text = text_of(alloc, name, fs::read_to_string(rt, path.as_str()))?;
    match read_rules(alloc, text.as_str()) {
        Ok(groups) => Ok(groups),
        Err(RulesError::Fault(_)) => Err(stop_of_rules(alloc, name, text.as_str())),
        Err(RulesError::Memory) => Err(Stop::Memory),
    }
}

// Why the program stops at a rule file that has a fault: what the rule checker reports of a file of this name.
fn stop_of_rules(alloc: Global, name: &str, text: &str) -> Stop {
    let manner = Manner {
        prints: false,
        is_strict: false,
        name: Some(name),
        is_one_of_several: false,
    };
    match report_of(alloc, text, manner) {
        Ok(report) => Stop::Rules(report.text),
        Err(OutOfMemory) => Stop::Memory,
    }
}

// The text that was read of a file.
fn text_of(alloc: Global, file: &str, read: io::Result<String>) -> Result<String, Stop> {
    match read {
        Ok(text) => Ok(text),
        Err(error) => match error.kind() {
            ErrorKind::OutOfMemory => Err(Stop::Memory),
            ErrorKind::InvalidData => Err(Stop::Fault {
                location: format!(in alloc; "{file}")?,
                what: format!(in alloc; "no UTF-8 text")?,
            }),
            _ => Err(Stop::Unread(format!(in alloc; "{file}")?)),
        },
    }
}

// The path of a file that a test file names, from the folder of the test file.
fn path_of(alloc: Global, file: &Option<PlainText>, name: &str) -> Result<String, Stop> {
    let folder = match file {
        Some(file) => file.as_str().rsplit_once('/'),
        None => None,
    };
    match folder {
        Some((folder, _)) if !name.starts_with('/') => Ok(format!(in alloc; "{folder}/{name}")?),
        _ => Ok(format!(in alloc; "{name}")?),
    }
}
