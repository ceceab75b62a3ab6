//! The rule checker: reports what a ruler would do with rule files, or with the input of a session.
//!
//! What is reported of a rule file is decided by `rl_rule_reports`.
//!
//! - `options`: the command line.
//! - `session`: what is reported of the input of a session. `commands`: its command lines. `waiting`: evaluations that no
//!   pump follows.
#![tactic(auto)]

mod commands;
mod options;
mod session;
mod waiting;

use options::{HELP, Input, Options, STANDARD_INPUT, Stop, read_options};
use rl_plain::PlainText;
use rl_rule_reports::{Manner, OutOfMemory, Report, report_of};
use session::session_report;
use std::io::ErrorKind;
use std::process::ExitCode;
use std::{fs, io};

fn main(rt: HostRuntime) -> ExitCode {
    match read_options(&rt) {
        Ok(options) => match run(&rt, options) {
            Ok(true) => ExitCode::from(0),
            Ok(false) | Err(_) => ExitCode::from(1),
        },
        Err(stop) => stopped(&rt, stop),
    }
}

// Reports why nothing is checked.
fn stopped(rt: &HostRuntime, stop: Stop) -> ExitCode {
    match stop {
        Stop::Help => match print_help(rt) {
            Ok(()) => ExitCode::from(0),
            Err(_) => ExitCode::from(1),
        },
        Stop::BadOptions => {
            let _ = eprintln!(rt; "rule_check: bad options");
            ExitCode::from(2)
        }
        Stop::Memory => {
            let _ = eprintln!(rt; "rule_check: out of memory");
            ExitCode::from(1)
        }
    }
}

fn print_help(rt: &HostRuntime) -> io::Result<()> {
    for line in HELP {
        println!(rt; "{line}")?;
    }
    Ok(())
}

// Reports what a ruler would do with the input, and whether it would take it.
fn run(rt: &HostRuntime, options: Options) -> io::Result<bool> {
    let Options {
        prints,
        is_strict,
        cap,
        input,
    } = options;
    let manner = Manner {
        prints,
        is_strict,
        name: None,
        is_one_of_several: false,
    };
    match input {
        Input::Standard => print_standard(rt, "the file", manner),
        Input::Files(paths) => print_files(rt, &paths, manner),
        Input::Session(path) => match fs::read(rt, path.as_str()) {
            Ok(bytes) => print_report(rt, session_report(rt.alloc(), bytes, manner, cap)),
            Err(_) => {
                eprintln!(rt; "rule_check: {path} cannot be read", path = path.as_str())?;
                Ok(false)
            }
        },
    }
}

// Reports what a ruler would do with each of the files, and whether it would take all.
fn print_files(rt: &HostRuntime, paths: &[PlainText], manner: Manner<'_>) -> io::Result<bool> {
    let mut is_taken = true;
    for path in paths {
        let name = shown(path.as_str());
        let manner = Manner {
            prints: manner.prints,
            is_strict: manner.is_strict,
            name: Some(name),
            is_one_of_several: paths.len() > 1,
        };
        if !print_file(rt, path.as_str(), name, manner)? {
            is_taken = false;
        }
    }
    Ok(is_taken)
}

// A file as lines name it.
fn shown(path: &str) -> &str {
    if path == STANDARD_INPUT {
        "standard input"
    } else {
        path
    }
}

fn print_file(rt: &HostRuntime, path: &str, name: &str, manner: Manner<'_>) -> io::Result<bool> {
    if path == STANDARD_INPUT {
        return print_standard(rt, name, manner);
    }
    let read = fs::read_to_string(rt, path);
    print_rules(rt, name, read, manner)
}

fn print_standard(rt: &HostRuntime, name: &str, manner: Manner<'_>) -> io::Result<bool> {
    let read = io::read_to_string(rt.alloc(), rt.reader());
    print_rules(rt, name, read, manner)
}

// Reports what a ruler would do with a rule file that was read. What cannot be read is reported on standard error.
fn print_rules(
    rt: &HostRuntime,
    name: &str,
    read: io::Result<String>,
    manner: Manner<'_>,
) -> io::Result<bool> {
    match read {
        Ok(file) => print_report(rt, report_of(rt.alloc(), file.as_str(), manner)),
        Err(error) if error.kind() == ErrorKind::InvalidData => {
            eprintln!(rt; "rule_check: {name} is no UTF-8 text")?;
            Ok(false)
        }
        Err(_) => {
            eprintln!(rt; "rule_check: {name} cannot be read")?;
            Ok(false)
        }
    }
}

// Prints a report, if there is one.
fn print_report(rt: &HostRuntime, report: Result<Report, OutOfMemory>) -> io::Result<bool> {
    match report {
        Ok(report) => {
            let Report { text, is_taken } = report;
            print!(rt; "{text}")?;
            Ok(is_taken)
        }
        Err(_) => {
            eprintln!(rt; "rule_check: out of memory")?;
            Ok(false)
        }
    }
}
