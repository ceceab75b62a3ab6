//! The options of the program.
ghost use Rattle.std.specs.Prelude.{◌≡◌, ◌≢◌, ◌≤◌, List, map, option_map, string_bytes, Ok, IfErr, IfOk};
ghost use Rattle.std.specs.Option.{option_copied};
ghost use Rattle.clap.specs.Words.{Text, app_of, first_of, found_of, one_of, rows_of, with_rule};
ghost use Rattle.rule_shell.specs.Options.{command_line, flag_rule, limits_of, number_or, number_asked, kinds_asked, option_rule, with_flags, with_options, AreChecked, AreOptions, AreOptionsIn, AreSinks, AreWithin, IsChecked, IsFlag, IsPlan};

use crate::Stop;
use clap::error::ErrorKind as OptionsFault;
use clap::{Arg, ArgAction, ArgMatches, Command};
use rl_labels::{DEFAULT_LIMITS, Limits, RawLimits, number_of};
use rl_plain::PlainText;
use std::alloc::{AllocError, Global};
use std::env;
use std::io::ErrorKind;

// Each has a value, and stands at most once.
const OPTIONS: [&str; 11] = [
    "shards",
    "callers",
    "entries",
    "chunk-entries",
    "chunk-age",
    "cancel",
    "keep",
    "store",
    "sinks",
    "cap",
    "tail",
];

// Each has no value, and stands at most once.
const FLAGS: [&str; 3] = ["pump", "summary", "new"];

// The most shards and callers, the most texts that may wait in a sink, and the most that a tail keeps; and how many where none is
// asked for.
const MOST_SHARDS: u64 = 16;

const MOST_CALLERS: u64 = 64;

const MOST_WAITING: u64 = 1_048_576;

const MOST_KEPT: u64 = 65_536;

const CALLERS: u64 = 2;

const WAITING: u64 = 1_024;

const KEPT: u64 = 8;

/// The sinks of each group.
#[derive(Clone, Copy)]
pub(crate) struct SinkOptions {
    // A notifier and a tail beside the recorder.
    pub(crate) all: bool,
    // How many texts may wait in a recorder and in a notifier.
    pub(crate) cap: usize,
    // How many texts a tail keeps.
    pub(crate) tail: usize,
}

/// What is asked of a run besides its stores.
#[derive(Clone, Copy)]
pub(crate) struct Plan {
    pub(crate) limits: Limits,
    pub(crate) callers: usize,
    pub(crate) sinks: SinkOptions,
    // After each evaluation the sinks of its group catch up.
    pub(crate) pumps: bool,
    // At the end it is printed what the run did.
    pub(crate) summary: bool,
}

/// What the options ask for.
#[derive(Drop)]
pub(crate) struct Options {
    pub(crate) shards: usize,
    // The folder for the chunks of all shards; without one they stay in memory.
    pub(crate) store: Option<PlainText>,
    // The folder has to be empty, and no other run may have it.
    pub(crate) is_new: bool,
    pub(crate) plan: Plan,
}

/// Reads the options.
pub(crate) fn read_options(rt: &HostRuntime) -> Result<Options, Stop>
    ensures asked { IfOk result (λ options. (words : List Text) × AreOptionsIn words (Ok options)) }
    ensures within { IfOk result (λ options. AreWithin options.shards options.plan.callers) }
{
    let words: Vec<String> = words_of(rt)?;
    let words = words.as_slice();
    options_in(rt.alloc(), words)
}

// The program's name and the words after it.
fn words_of(rt: &HostRuntime) -> Result<Vec<String>, Stop> {
    match env::args(rt) {
        Ok(words) => Ok(words.collect(rt.alloc())?),
        Err(error) if error.kind() == ErrorKind::OutOfMemory => Err(Stop::Failed),
        Err(_error) => Err(Stop::BadOptions),
    }
}

// The options that the words ask for, of which the first is the program's name.
fn options_in<'a>(alloc: Global, words: &'a [String]) -> Result<Options, Stop>
    ensures asked { AreOptionsIn (map string_bytes words.now) result }
    ensures within { IfOk result (λ options. AreWithin options.shards options.plan.callers) }
{
    let command = command_line(alloc)?;
    match command.try_get_matches_from(words) {
        Ok(matches) => options_of(alloc, &matches),
        Err(error) => Err(stop_of(error.kind())),
    }
}

// The command line of the program.
fn command_line<'a>(alloc: Global) -> Result<Command<'a>, AllocError>
    ensures { IfOk result (λ command. app_of command ≡ command_line) }
{
    let command = Command::new(alloc, "rule_shell");
    let command = with_options(alloc, command, &OPTIONS)?;
    with_flags(alloc, command, &FLAGS)
}

// The command with these options more.
fn with_options<'a>(
    alloc: Global,
    command: Command<'a>,
    names: &[&'a str],
) -> Result<Command<'a>, AllocError>
    ensures { IfOk result (λ all. app_of all ≡ with_options (app_of command.entry) (map (λ name. name.now) names.now)) }
{
    let mut command = command;
    for name in names {
        command = with_option(alloc, command, name)?;
    }
    Ok(command)
}

// The command with an option more, which has a value and stands at most once.
fn with_option<'a>(
    alloc: Global,
    command: Command<'a>,
    name: &'a str,
) -> Result<Command<'a>, AllocError>
    ensures { IfOk result (λ more. app_of more ≡ with_rule (app_of command.entry) (option_rule name.entry.now)) }
{
    let option = Arg::new(alloc, name).long(name);
    command.arg(option)
}

// The command with these flags more.
fn with_flags<'a>(
    alloc: Global,
    command: Command<'a>,
    names: &[&'a str],
) -> Result<Command<'a>, AllocError>
    ensures { IfOk result (λ all. app_of all ≡ with_flags (app_of command.entry) (map (λ name. name.now) names.now)) }
{
    let mut command = command;
    for name in names {
        command = with_flag(alloc, command, name)?;
    }
    Ok(command)
}

// The command with a flag more, which stands at most once.
fn with_flag<'a>(
    alloc: Global,
    command: Command<'a>,
    name: &'a str,
) -> Result<Command<'a>, AllocError>
    ensures { IfOk result (λ more. app_of more ≡ with_rule (app_of command.entry) (flag_rule name.entry.now)) }
{
    let flag = Arg::new(alloc, name).long(name);
    command.arg(flag.action(ArgAction::SetTrue))
}

// Why the program stops at a fault of its options.
fn stop_of(kind: OptionsFault) -> Stop
    ensures memory { kind ≡ OptionsFault.OutOfMemory → result ≡ Stop.Failed }
    ensures other { kind ≢ OptionsFault.OutOfMemory → result ≡ Stop.BadOptions }
{
    match kind {
        OptionsFault::OutOfMemory => Stop::Failed,
        _ => Stop::BadOptions,
    }
}

fn options_of(alloc: Global, matches: &ArgMatches<'_>) -> Result<Options, Stop>
    ensures asked { AreOptions (rows_of (found_of matches.now)) result }
    ensures within { IfOk result (λ options. AreWithin options.shards options.plan.callers) }
{
    let shards = number_in(matches, "shards", 1, MOST_SHARDS)?;
    let plan = plan_of(matches)?;
    let is_new = flag_in(matches, "new");
    let store = match text_in(matches, "store") {
        Some("") => return Err(Stop::BadOptions),
        Some(folder) => Some(PlainText::from_str(alloc, folder)?),
        None if is_new => return Err(Stop::BadOptions),
        None => None,
    };
    Ok(Options {
        shards,
        store,
        is_new,
        plan,
    })
}

// Whether a flag stands among the words.
fn flag_in(matches: &ArgMatches<'_>, flag: &str) -> bool
    ensures { IsFlag (one_of flag.now (rows_of (found_of matches.now))) result }
{
    matches.get_flag(flag)
}

// What is asked of the run besides its stores.
fn plan_of(matches: &ArgMatches<'_>) -> Result<Plan, Stop>
    ensures asked { IsPlan (rows_of (found_of matches.now)) result }
    ensures refuses { IfErr result (λ stop. stop ≡ Stop.BadOptions) }
    ensures within { IfOk result (λ plan. (1 ≤ plan.callers) × (plan.callers ≤ 64)) }
{
    let callers = number_in(matches, "callers", CALLERS, MOST_CALLERS)?;
    let limits = limits_of(matches)?;
    let sinks = sinks_of(matches)?;
    Ok(Plan {
        limits,
        callers,
        sinks,
        pumps: flag_in(matches, "pump"),
        summary: flag_in(matches, "summary"),
    })
}

// The sinks that are asked for.
fn sinks_of(matches: &ArgMatches<'_>) -> Result<SinkOptions, Stop>
    ensures asked { AreSinks (rows_of (found_of matches.now)) result }
    ensures refuses { IfErr result (λ stop. stop ≡ Stop.BadOptions) }
{
    let all = kinds_of(text_in(matches, "sinks"))?;
    let cap = number_in(matches, "cap", WAITING, MOST_WAITING)?;
    let tail = number_in(matches, "tail", KEPT, MOST_KEPT)?;
    Ok(SinkOptions { all, cap, tail })
}

// The text of an option, where it is used.
fn text_in<'a>(matches: &ArgMatches<'a>, option: &str) -> Option<&'a str>
    ensures { option_map (λ text. text.now) result ≡ first_of option.now (rows_of (found_of matches.now)) }
{
    matches.get_str(option)
}

// Whether sinks of all kinds are asked for, or a recorder alone.
fn kinds_of(asked: Option<&str>) -> Result<bool, Stop>
    ensures asked { result ≡ kinds_asked (option_copied asked.entry) }
    ensures refuses { IfErr result (λ stop. stop ≡ Stop.BadOptions) }
{
    match asked {
        None | Some("recorder") => Ok(false),
        Some("all") => Ok(true),
        Some(_) => Err(Stop::BadOptions),
    }
}

// The number that an option has, or the other where it is not used: one from 1 to the most.
fn number_in(matches: &ArgMatches<'_>, option: &str, other: u64, most: u64) -> Result<usize, Stop>
    ensures asked { result ≡ number_asked (first_of option.now (rows_of (found_of matches.now))) other most }
    ensures refuses { IfErr result (λ stop. stop ≡ Stop.BadOptions) }
    ensures within { IfOk result (λ number. (1 ≤ number) × (number ≤ most)) }
{
    let number = number_or(matches, option, other)?;
    if number < 1 || number > most {
        return Err(Stop::BadOptions);
    }
    Ok(number as usize)
}

// The limits that are asked for, if they are in their ranges.
fn limits_of(matches: &ArgMatches<'_>) -> Result<Limits, Stop>
    ensures asked { AreChecked (limits_of (rows_of (found_of matches.now))) result }
    ensures refuses { IfErr result (λ stop. stop ≡ Stop.BadOptions) }
{
    let defaults = DEFAULT_LIMITS;
    let entries = number_or(matches, "entries", defaults.entries)?;
    let chunk_entries = number_or(matches, "chunk-entries", defaults.chunk_entries)?;
    let chunk_age = number_or(matches, "chunk-age", defaults.chunk_age)?;
    let cancel = number_or(matches, "cancel", defaults.cancel)?;
    let keep = number_or(matches, "keep", defaults.keep)?;
    checked(RawLimits {
        entries,
        chunk_entries,
        chunk_age,
        cancel,
        keep,
        ..defaults
    })
}

// The limits, if they are in their ranges.
fn checked(raw: RawLimits) -> Result<Limits, Stop>
    ensures asked { IsChecked raw result }
    ensures refuses { IfErr result (λ stop. stop ≡ Stop.BadOptions) }
{
    match Limits::check(raw) {
        Ok(limits) => Ok(limits),
        Err(_bad) => Err(Stop::BadOptions),
    }
}

// The number that an option has, or the other where it is not used.
fn number_or(matches: &ArgMatches<'_>, option: &str, other: u64) -> Result<u64, Stop>
    ensures asked { result ≡ number_or (first_of option.now (rows_of (found_of matches.now))) other }
    ensures refuses { IfErr result (λ stop. stop ≡ Stop.BadOptions) }
{
    match text_in(matches, option) {
        Some(text) => number_of(text.as_bytes(), 19).ok_or(Stop::BadOptions),
        None => Ok(other),
    }
}
