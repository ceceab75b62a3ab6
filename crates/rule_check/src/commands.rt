//! Command lines of a session, and why one is no command.

use crate::waiting::Evaluations;
use rl_labels::number_of;
use rl_query::QueryError;
use rl_rule_reports::{
    Findings, Location, OutOfMemory, Standing, is_near, push_name, push_query_fault, push_refusal,
};
use rl_rules::{Group, RulesError, read_rules};
use rl_selector_text::parse_delete;
use rl_session::command::cut_at;
use rl_session::names::push_error_name;
use rl_session::{Command, PushError, PushReader, read_command, read_in_block};
use std::alloc::Global;
use std::fmt::Write;

// The greatest number of a sink, where a group has sinks of all kinds.
const LAST_SINK: usize = 2;

// The greatest number of a caller.
const LAST_CALLER: u64 = 63;

// The longest word that is shown, in bytes.
const LONGEST_WORD: usize = 60;

// The words of the commands, and what each wants after it.
const WANTED: [(&str, &str); 14] = [
    ("push", "wants the JSON of a push"),
    ("cut", "stands alone"),
    ("flush", "stands alone"),
    (
        "delete",
        "wants the number of a request, three moments in seconds and a selector",
    ),
    ("cancel", "wants the number of a request"),
    (
        "process",
        "wants the number of a request and a moment in seconds",
    ),
    ("retain", "wants a moment in seconds"),
    ("edit", "wants a rule file of one line"),
    ("tick", "wants a moment in seconds"),
    ("eval", "wants a moment in seconds and the name of a group"),
    ("pump", "wants the name of a group"),
    ("show", "wants the number of a sink and the name of a group"),
    ("par", "stands alone"),
    ("end", "stands alone"),
];

/// What is known while commands are looked at: the groups, where the rules are taken, their evaluations, whether a block has begun,
/// and the memory of a reader.
#[derive(Drop)]
pub(crate) struct Known<'a> {
    groups: Option<&'a [Group]>,
    evaluations: Evaluations<'a>,
    in_block: bool,
    reader: PushReader,
}

impl<'a> Known<'a> {
    /// What is known before the first command.
    pub(crate) fn new(
        alloc: Global,
        groups: Option<&'a [Group]>,
        cap: Option<u64>,
    ) -> Result<Self, OutOfMemory> {
        let evaluations = Evaluations::new(alloc, groups.unwrap_or(&[]), cap)?;
        Ok(Known {
            groups,
            evaluations,
            in_block: false,
            reader: PushReader::new(alloc),
        })
    }
}

/// The faults of a line that is not blank, and whether it ends the session.
pub(crate) fn push_command(
    findings: &mut Findings,
    known: &mut Known<'_>,
    number: usize,
    line: &str,
) -> Result<bool, OutOfMemory> {
    let before = findings.count;
    let location = Location::whole(Some(number));
    let ends = if known.in_block {
        push_in_block(findings, known, &location, line)?;
        false
    } else {
        push_outside(findings, known, &location, number, line)?
    };
    if findings.count > before && line.ends_with('\r') {
        findings.text.push_str(
            "  in its place: the line without the carriage return at its end\n",
        )?;
    }
    Ok(ends)
}

// The faults of a line outside a block, and whether it ends the session.
fn push_outside(
    findings: &mut Findings,
    known: &mut Known<'_>,
    location: &Location<'_>,
    number: usize,
    line: &str,
) -> Result<bool, OutOfMemory> {
    match read_command(line) {
        Some(Command::End) => return Ok(true),
        Some(Command::Par) => known.in_block = true,
        Some(command) => push_asked(findings, known, location, number, &command)?,
        None => push_no_command(findings, location, line)?,
    }
    Ok(false)
}

// The faults of a line of a block, which it may end.
fn push_in_block(
    findings: &mut Findings,
    known: &mut Known<'_>,
    location: &Location<'_>,
    line: &str,
) -> Result<(), OutOfMemory> {
    if line == "end" {
        known.in_block = false;
        return Ok(());
    }
    if let Some((word, command)) = cut_at(line, ' ') {
        if is_caller(word) {
            return push_of_caller(findings, known, location, command);
        }
    }
    findings.begin(location)?;
    writeln!(
        findings.text,
        "a line of a block begins with the number of a caller, from 0 to {}",
        LAST_CALLER
    )?;
    Ok(())
}

fn is_caller(word: &str) -> bool {
    number_of(word.as_bytes(), 19).is_some_and(|number| number <= LAST_CALLER)
}

// The faults of a caller's command in a block.
fn push_of_caller(
    findings: &mut Findings,
    known: &mut Known<'_>,
    location: &Location<'_>,
    line: &str,
) -> Result<(), OutOfMemory> {
    match read_in_block(line) {
        Some(command) => push_asked_in_block(findings, known, location, &command),
        None if read_command(line).is_some() => {
            let word = first_word(line);
            findings.begin(location)?;
            writeln!(findings.text, "no line of a block has {word}")?;
            Ok(())
        }
        None => push_no_command(findings, location, line),
    }
}

// The faults of what a command of a block asks for. Which of a block's evaluations is the last, no line says.
fn push_asked_in_block(
    findings: &mut Findings,
    known: &mut Known<'_>,
    location: &Location<'_>,
    command: &Command<'_>,
) -> Result<(), OutOfMemory> {
    match *command {
        Command::Push(body) => push_body(findings, known, location, body),
        Command::Delete(ref deletion) => push_selector(findings, location, deletion.selector),
        Command::Eval { group, .. } => push_unnamed(findings, known, location, group),
        _ => Ok(()),
    }
}

// The faults of what a command asks for.
fn push_asked(
    findings: &mut Findings,
    known: &mut Known<'_>,
    location: &Location<'_>,
    number: usize,
    command: &Command<'_>,
) -> Result<(), OutOfMemory> {
    match *command {
        Command::Push(body) => push_body(findings, known, location, body),
        Command::Edit(document) => push_edit(findings, known, location, number, document),
        Command::Delete(ref deletion) => push_selector(findings, location, deletion.selector),
        Command::Eval { t, group } => {
            push_unnamed(findings, known, location, group)?;
            known.evaluations.eval(findings, location, t, group)
        }
        Command::Tick { now } => known.evaluations.tick(findings, location, now),
        Command::Pump(group) => {
            known.evaluations.pump(group);
            push_unnamed(findings, known, location, group)
        }
        Command::Show { sink, group } => {
            if sink > LAST_SINK {
                findings.begin(location)?;
                findings
                    .text
                    .push_str("a group has sink 0, and with --sinks all 1 and 2\n")?;
            }
            push_unnamed(findings, known, location, group)
        }
        _ => Ok(()),
    }
}

fn push_body(
    findings: &mut Findings,
    known: &mut Known<'_>,
    location: &Location<'_>,
    body: &str,
) -> Result<(), OutOfMemory> {
    match known.reader.read(body.as_bytes()) {
        Ok(_) => Ok(()),
        Err(PushError::Memory) => Err(OutOfMemory),
        Err(error) => {
            findings.begin(location)?;
            writeln!(findings.text, "the body: {}", push_error_name(error))?;
            Ok(())
        }
    }
}

fn push_selector(
    findings: &mut Findings,
    location: &Location<'_>,
    selector: &str,
) -> Result<(), OutOfMemory> {
    match parse_delete(*findings.text.allocator(), selector) {
        Ok(_) => Ok(()),
        Err(QueryError::Memory) => Err(OutOfMemory),
        Err(QueryError::Fault(fault)) => {
            findings.begin(location)?;
            findings.text.push_str("the selector: ")?;
            push_query_fault(findings, selector, fault)
        }
    }
}

// The faults of the rule file of an edit, which has one group with the name of another.
fn push_edit(
    findings: &mut Findings,
    known: &mut Known<'_>,
    location: &Location<'_>,
    number: usize,
    document: &str,
) -> Result<(), OutOfMemory> {
    match read_rules(*findings.text.allocator(), document) {
        Ok(groups) => match groups.as_slice() {
            [group] => {
                known.evaluations.edit(group);
                push_unnamed(findings, known, location, group.name.as_str())
            }
            groups => {
                findings.begin(location)?;
                let count = groups.len();
                writeln!(findings.text, "{count} groups, where an edit has one")?;
                Ok(())
            }
        },
        Err(RulesError::Fault(fault)) => {
            let standing = Standing {
                first_line: number,
                lead: "edit ",
            };
            push_refusal(findings, location, standing, document, fault)
        }
        Err(RulesError::Memory) => Err(OutOfMemory),
    }
}

// That no group has the name, where the groups are known.
fn push_unnamed(
    findings: &mut Findings,
    known: &Known<'_>,
    location: &Location<'_>,
    name: &str,
) -> Result<(), OutOfMemory> {
    let Some(groups) = known.groups else {
        return Ok(());
    };
    if groups.iter().any(|group| group.name.as_str() == name) {
        return Ok(());
    }
    findings.begin(location)?;
    findings.text.push_str("no group is named ")?;
    push_word(&mut findings.text, name)?;
    findings.text.push('\n')?;
    for group in groups {
        let near = group.name.as_str();
        if is_meant(near, name) {
            writeln!(findings.text, "  in its place: {near}")?;
            return Ok(());
        }
    }
    Ok(())
}

// Why a line is no command.
fn push_no_command(
    findings: &mut Findings,
    location: &Location<'_>,
    line: &str,
) -> Result<(), OutOfMemory> {
    let word = first_word(line);
    findings.begin(location)?;
    if word.is_empty() {
        findings.text.push_str("no command begins with a space\n")?;
        return Ok(());
    }
    match wanted_of(word) {
        Some(wanted) => {
            writeln!(findings.text, "{word} {wanted}")?;
            Ok(())
        }
        None => push_no_word(&mut findings.text, word),
    }
}

// A line up to its first space.
fn first_word(line: &str) -> &str {
    match line.split_once(' ') {
        Some((word, _)) => word,
        None => line,
    }
}

// What a command wants after its word, if it is one of a command.
fn wanted_of(word: &str) -> Option<&'static str> {
    for (command, wanted) in WANTED {
        if command == word {
            return Some(wanted);
        }
    }
    None
}

// A word that begins no command, and one that is near it.
fn push_no_word(text: &mut String, word: &str) -> Result<(), OutOfMemory> {
    text.push_str("no command begins with ")?;
    push_word(text, word)?;
    text.push('\n')?;
    if let Some(command) = meant_by(word) {
        writeln!(text, "  in its place: {command}")?;
    }
    Ok(())
}

fn meant_by(word: &str) -> Option<&'static str> {
    for (command, _) in WANTED {
        if is_meant(command, word) {
            return Some(command);
        }
    }
    None
}

// Whether a word may stand for one that is written. A carriage return at the end of that is reported instead.
fn is_meant(word: &str, written: &str) -> bool {
    !written.ends_with('\r') && is_near(word, written)
}

// Writes a word as a key, or how long it is.
fn push_word(text: &mut String, word: &str) -> Result<(), OutOfMemory> {
    if word.len() > LONGEST_WORD {
        write!(text, "a text of {} bytes", word.len())?;
        return Ok(());
    }
    push_name(text, word)
}
