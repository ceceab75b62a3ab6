//! The command line: a test file, or none.
use crate::Stop;
use clap::error::ErrorKind as OptionsFault;
use clap::{Arg, Command, Error};
use rl_plain::PlainText;
use std::alloc::Global;
use std::env;
use std::io::ErrorKind;

const ABOUT: &str =
    "Plays the tests of a test file to the rules that it names, and reports where these give something else than is wanted.";

const FILE: &str = "The test file; standard input where there is none";

const STATUS: &str =
    "Status: 0 where all checks passed, 1 where one failed, 2 for a fault of the options or of a file, 3 for a file that cannot be read";

/// The test file that is asked for, if one is.
pub(crate) fn read_options(rt: &HostRuntime) -> Result<Option<PlainText>, Stop> {
    let words: Vec<String> = words_of(rt)?;
    let words = words.as_slice();
    file_in(rt.alloc(), words)
}

// The program's name and the words after it.
fn words_of(rt: &HostRuntime) -> Result<Vec<String>, Stop> {
    match env::args(rt) {
        Ok(words) => Ok(words.collect(rt.alloc())?),
        Err(error) if error.kind() == ErrorKind::OutOfMemory => Err(Stop::Memory),
        Err(_error) => Err(Stop::BadOptions),
    }
}

fn file_in<'a>(alloc: Global, words: &'a [String]) -> Result<Option<PlainText>, Stop> {
    let file = Arg::new(alloc, "FILE").help(FILE);
    let command = Command::new(alloc, "rule_test")
        .bin_name("rule_test")?
        .about(ABOUT)
        .after_help(STATUS)
        .arg(file)?;
    match command.try_get_matches_from(words) {
        Ok(matches) => match matches.get_str("FILE") {
            Some(file) => Ok(Some(PlainText::from_str(alloc, file)?)),
            None => Ok(None),
        },
        Err(error) => Err(stop_of(alloc, &error)),
    }
}

// Why the program stops, by what is wrong with its options.
fn stop_of(alloc: Global, error: &Error) -> Stop {
    match error.kind() {
        OptionsFault::OutOfMemory => Stop::Memory,
        OptionsFault::DisplayHelp => match format!(in alloc; "{error}") {
            Ok(text) => Stop::Help(text),
            Err(_) => Stop::Memory,
        },
        _ => Stop::BadOptions,
    }
}
