//! The command line.

use clap::builder::ValueRange;
use clap::error::ErrorKind as OptionsFault;
use clap::{Arg, ArgAction, ArgMatches, Command};
use rl_labels::number_of;
use rl_plain::PlainText;
use std::alloc::{AllocError, AllocFailed, Global};
use std::env;
use std::io::ErrorKind;

/// What is printed for a request for help, line by line.
pub(crate) const HELP: [&str; 14] = [
    "rule_check [--print] [--strict] [FILE ..]",
    "rule_check [--print] [--strict] [--cap N] [--pump] --session FILE",
    "",
    "Reports what a ruler would do with rule files. Without a FILE one is read from standard input, and so is a FILE -.",
    "  --print         prints the groups and the rules as a ruler reads them",
    "  --strict        makes the status 1 also where something looks like a mistake",
    "  --session FILE  checks an input of rule_shell: rules, a line %%, commands",
    "  --cap N         how many evaluations may wait in a sink of the session, 1 to 1048576; without it 1024",
    "  --pump          takes the session as one of a ruler with --pump, where no evaluation waits",
    "  --help          prints this",
    "A file that is taken is answered by how much it has, after a line `lint:` for each thing that looks like a mistake.",
    "Of a file that is not taken each fault is reported with its position and, where something near is lawful, with that.",
    "The status is 0 where each file is taken, 1 where one is not or cannot be read or where memory runs out,",
    "and 2 where the command line is bad.",
];

// How many texts wait in a sink where a session is not asked for otherwise, and at most.
const WAITING: u64 = 1024;

const MOST_WAITING: u64 = 1_048_576;

// The most digits of a number.
const MOST_DIGITS: usize = 19;

/// The path that stands for standard input.
pub(crate) const STANDARD_INPUT: &str = "-";

/// What is checked.
#[derive(Drop)]
pub(crate) enum Input {
    // A rule file from standard input.
    Standard,
    // Rule files by their paths.
    Files(Vec<PlainText>),
    // The input of a session by its path.
    Session(PlainText),
}

/// What the command line asks for.
#[derive(Drop)]
pub(crate) struct Options {
    pub(crate) prints: bool,
    pub(crate) is_strict: bool,
    // How many texts wait in a sink of a session at most, where a ruler does not pump by itself.
    pub(crate) cap: Option<u64>,
    pub(crate) input: Input,
}

/// Why nothing is checked.
#[derive(Drop)]
pub(crate) enum Stop {
    Help,
    BadOptions,
    Memory,
}

impl From<AllocError> for Stop {
    fn from(_error: AllocError) -> Self {
        Stop::Memory
    }
}

impl<T: Drop> From<AllocFailed<T>> for Stop {
    fn from(_error: AllocFailed<T>) -> Self {
        Stop::Memory
    }
}

/// Reads the command line.
pub(crate) fn read_options(rt: &HostRuntime) -> Result<Options, Stop> {
    let words: Vec<String> = words_of(rt)?;
    let words = words.as_slice();
    options_in(rt.alloc(), words)
}

// The program's name and the words after it.
fn words_of(rt: &HostRuntime) -> Result<Vec<String>, Stop> {
    match env::args(rt) {
        Ok(words) => Ok(words.collect(rt.alloc())?),
        Err(error) if error.kind() == ErrorKind::OutOfMemory => Err(Stop::Memory),
        Err(_error) => Err(Stop::BadOptions),
    }
}

fn options_in<'a>(alloc: Global, words: &'a [String]) -> Result<Options, Stop> {
    let session = Arg::new(alloc, "session").long("session");
    let cap = Arg::new(alloc, "cap").long("cap");
    let files = Arg::new(alloc, "file").num_args(ValueRange::new(1..));
    let command = Command::new(alloc, "rule_check").arg(flag(alloc, "print"))?;
    let command = command.arg(flag(alloc, "strict"))?;
    let command = command.arg(flag(alloc, "pump"))?;
    let command = command.arg(session)?.arg(cap)?.arg(files)?;
    match command.try_get_matches_from(words) {
        Ok(matches) => options_of(alloc, &matches),
        Err(error) => Err(stop_of(error.kind())),
    }
}

fn flag<'a>(alloc: Global, name: &'a str) -> Arg<'a> {
    Arg::new(alloc, name).long(name).action(ArgAction::SetTrue)
}

// Why the program stops at what clap refuses.
fn stop_of(kind: OptionsFault) -> Stop {
    match kind {
        OptionsFault::OutOfMemory => Stop::Memory,
        OptionsFault::DisplayHelp => Stop::Help,
        _ => Stop::BadOptions,
    }
}

fn options_of(alloc: Global, matches: &ArgMatches<'_>) -> Result<Options, Stop> {
    let cap = cap_of(matches)?;
    let input = match (matches.get_str("session"), matches.get_strs("file")) {
        (None, None) => Input::Standard,
        (None, Some(paths)) => Input::Files(files_of(alloc, paths)?),
        (Some(path), None) => Input::Session(PlainText::from_str(alloc, path)?),
        (Some(_), Some(_)) => return Err(Stop::BadOptions),
    };
    Ok(Options {
        prints: matches.get_flag("print"),
        is_strict: matches.get_flag("strict"),
        cap,
        input,
    })
}

fn files_of(alloc: Global, paths: &[&str]) -> Result<Vec<PlainText>, Stop> {
    let mut files = Vec::new(alloc);
    for path in paths {
        files.push(PlainText::from_str(alloc, path)?)?;
    }
    Ok(files)
}

// How many texts wait in a sink at most. A ruler that pumps after each evaluation has no such limit.
fn cap_of(matches: &ArgMatches<'_>) -> Result<Option<u64>, Stop> {
    let cap = match matches.get_str("cap") {
        Some(text) => number_of(text.as_bytes(), MOST_DIGITS),
        None => Some(WAITING),
    };
    match cap {
        Some(cap) if cap >= 1 && cap <= MOST_WAITING => Ok(if matches.get_flag("pump") {
            None
        } else {
            Some(cap)
        }),
        _ => Err(Stop::BadOptions),
    }
}
