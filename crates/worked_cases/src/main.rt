//! Worked cases: what calls of the libraries answer that no program shows, compared with answers that were worked out by hand.
//!
//! Each argument names a file of cases, as `cases` says; the part of its name before the first `_` or `.` is the module
//! that knows its directives. A directive that ends in `..` is asked of each line of its input, and gives a line each. A
//! case that differs is printed, and the last line counts.
#![tactic(auto)]

mod aggregate;
mod cases;
mod chunks;
mod compared;
mod failing_store;
mod given;
mod labels;
mod output;
mod pipeline;
mod plain;
mod query;
mod record;
mod rules;
mod session;
mod shard;
mod shard_faults;
mod shard_random;
mod shard_steps;
mod sinks;
mod streams;
mod streams_random;
mod trouble;
mod windows;
mod windows_built;
mod world;
mod world_audit;
mod world_steps;

use cases::{case_in, meant};
use std::process::ExitCode;
use std::rt::{Env, Files};
use std::{env, fs, io};
use trouble::Trouble;

fn main(rt: HostRuntime) -> ExitCode {
    match run(&rt) {
        Ok(true) => ExitCode::SUCCESS,
        Ok(false) => ExitCode::from(1),
        Err(trouble) => {
            let _ = eprintln!(rt; "worked_cases: {trouble:?}");
            ExitCode::from(3)
        }
    }
}

// Runs the files that the arguments name. Whether each case has its answer.
fn run(rt: &HostRuntime) -> Result<bool, Trouble> {
    let mut count = 0u64;
    let mut differ = 0u64;
    for name in env::args(rt)?.skip(1) {
        run_file(rt, name.as_str(), &mut count, &mut differ)?;
    }
    println!(rt; "{count} cases, {differ} differ")?;
    Ok(differ == 0)
}

// Runs the cases of a file, and counts them and those that differ.
fn run_file(
    rt: &HostRuntime,
    name: &str,
    count: &mut u64,
    differ: &mut u64,
) -> Result<(), Trouble> {
    let text = fs::read_to_string(rt, name)?;
    for part in text.as_str().split("\n== ").skip(1) {
        *count = count.saturating_add(1);
        if !has_its_answer(rt, name, part)? {
            *differ = differ.saturating_add(1);
        }
    }
    Ok(())
}

// Runs a case of a file, and prints it where its answer is another one.
fn has_its_answer(rt: &HostRuntime, name: &str, part: &str) -> Result<bool, Trouble> {
    let case = case_in(part)?;
    let input = meant(rt.alloc(), case.input)?;
    let want = meant(rt.alloc(), case.want)?;
    let mut output = String::new(rt.alloc());
    let ended = answer(&mut output, family_of(name), case.directive, input.as_str());
    let (output, want) = (
        output.as_str().trim_end_matches('\n'),
        want.as_str().trim_end_matches('\n'),
    );
    if ended.is_ok() && output == want {
        return Ok(true);
    }
    println!(rt;
        "{name}: {}: wanted\n{want}\nand not\n{output}\n{ended:?}",
        case.title
    )?;
    Ok(false)
}

// The module that knows a file's directives.
fn family_of(path: &str) -> &str {
    let (_, name) = path.rsplit_once('/').unwrap_or(("", path));
    let (name, _) = name.split_once('.').unwrap_or((name, ""));
    let (family, _) = name.split_once('_').unwrap_or((name, ""));
    family
}

// Writes what a directive gives for its input, or for each line of it.
fn answer(output: &mut String, family: &str, directive: &str, input: &str) -> Result<(), Trouble> {
    let Some(directive) = directive.strip_suffix("..") else {
        return push_answer(output, family, directive, input);
    };
    for line in input.split('\n') {
        push_answer(output, family, directive, line)?;
    }
    Ok(())
}

fn push_answer(
    output: &mut String,
    family: &str,
    directive: &str,
    input: &str,
) -> Result<(), Trouble> {
    match family {
        "aggregate" => aggregate::answer(output, directive, input),
        "chunks" => chunks::answer(output, directive, input),
        "labels" => labels::answer(output, directive, input),
        "pipeline" => pipeline::answer(output, directive, input),
        "plain" => plain::answer(output, directive, input),
        "query" => query::answer(output, directive, input),
        "record" => record::answer(output, directive, input),
        "rules" => rules::answer(output, directive, input),
        "session" => session::answer(output, directive, input),
        "sinks" => sinks::answer(output, directive, input),
        "shard" => shard::answer(output, directive, input),
        "streams" => streams::answer(output, directive, input),
        "windows" => windows::answer(output, directive, input),
        "world" => world::answer(output, directive, input),
        _ => Err(Trouble::NoSuchDirective),
    }
}
