//! Sessions over one group with two recorders, and bodies of pushes.
//!
//! The first line of `run` has limits, or how many texts may wait in the first recorder, as `cap=1`. In the second it is
//! two. After it stand a rule file, the mark and commands. `push` has a body, in which `�` is the byte 255, which is in no
//! text.
ghost use Rattle.std.specs.Prelude.{◌≡◌, false, length, map, IfOk};
ghost use Rattle.std.specs.List.{AllByRecursion};
ghost use Rattle.rl_world.specs.BookCalls.{IsFresh};

use crate::given::{limits_in, number_in};
use crate::output::{push_fault_text, push_value};
use crate::trouble::Trouble;
use crate::world::{Kept, stores_of};
use rl_labels::{Entry, Limits};
use rl_rules::{Group, RulesFault};
use rl_session::names::{front_fault_name, push_error_name};
use rl_session::{
    Closes, Front, FrontError, FrontFault, Printer, PushError, RunError, Session, Status,
    WorldEngine, is_blank, read_front, read_push,
};
use rl_sinks::{Recorder, Sink};
use std::alloc::{AllocError, Global};
use std::mem;

pub(crate) fn answer(output: &mut String, directive: &str, input: &str) -> Result<(), Trouble> {
    match directive {
        "run" => run(output, input),
        "push" => push(output, input),
        "others" => others(output),
        _ => Err(Trouble::NoSuchDirective),
    }
}

// How many entries a body has, or its fault by its name and as an operator reads it.
fn push(output: &mut String, input: &str) -> Result<(), Trouble> {
    let body = body_in(*output.allocator(), input)?;
    match read_push(*output.allocator(), &body) {
        Ok(entries) => push_count(output, &entries),
        Err(error) => push_error(output, error),
    }
}

fn body_in(alloc: Global, input: &str) -> Result<Vec<u8>, Trouble> {
    let mut body = Vec::new(alloc);
    for c in input.chars() {
        match c {
            '�' => body.push(255)?,
            _ => body.extend_from_slice(c.encode_utf8(&mut [0; 4]).as_bytes())?,
        }
    }
    Ok(body)
}

fn push_count(output: &mut String, entries: &[Entry]) -> Result<(), Trouble> {
    writeln!(output, "{} entries", entries.len())?;
    Ok(())
}

fn push_error(output: &mut String, error: PushError) -> Result<(), Trouble> {
    let name = push_error_name(error);
    writeln!(output, "{name}: {error}")?;
    Ok(())
}

fn run(output: &mut String, input: &str) -> Result<(), Trouble> {
    let (words, rest) = input.split_once('\n').ok_or(Trouble::BadInput)?;
    let (limits, cap) = words.split_once("cap=").unwrap_or((words, "1024"));
    let (limits, cap) = (limits_in(limits)?, number_in(cap)? as usize);
    match read_front(*output.allocator(), &mut rest.as_bytes()) {
        Ok(front) => play(output, limits, cap, front),
        Err(_) => Err(Trouble::BadInput),
    }
}

// What a session prints, and what each recorder writes.
#[derive(Drop)]
struct Written {
    printed: Vec<u8>,
    first: Vec<u8>,
    second: Vec<u8>,
}

// What the session prints, what each recorder writes, and how it ends.
fn play(output: &mut String, limits: Limits, cap: usize, front: Front) -> Result<(), Trouble> {
    let alloc = *output.allocator();
    let (printed, first, second) = (Vec::new(alloc), Vec::new(alloc), Vec::new(alloc));
    let mut written = Written {
        printed,
        first,
        second,
    };
    let ended = run_session(alloc, limits, cap, front, &mut written)?;
    push_written(output, &written, ended)
}

fn push_written(
    output: &mut String,
    written: &Written,
    ended: Result<Status, RunError>,
) -> Result<(), Trouble> {
    let (printed, first) = (text_of(&written.printed)?, text_of(&written.first)?);
    let second = text_of(&written.second)?;
    writeln!(
        output,
        "{printed}recorded\n{first}recorded\n{second}{ended:?}"
    )?;
    Ok(())
}

fn text_of(bytes: &[u8]) -> Result<&str, Trouble> {
    str::from_utf8(bytes).or(Err(Trouble::BadInput))
}

fn run_session(
    alloc: Global,
    limits: Limits,
    cap: usize,
    front: Front,
    written: &mut Written,
) -> Result<Result<Status, RunError>, Trouble> {
    let Front { groups, commands } = front;
    let first = Recorder::new(alloc, &mut written.first, cap);
    let second = Recorder::new(alloc, &mut written.second, 2);
    let sinks = of_one_group(alloc, first, second)?;
    let session = opened(alloc, limits, groups, sinks)?;
    let (printed, ended) = run_commands(alloc, session, commands.as_str());
    written.printed = printed;
    Ok(ended)
}

// What is printed, and how the session ends.
fn run_commands<E: Closes>(
    alloc: Global,
    session: Session<E>,
    commands: &str,
) -> (Vec<u8>, Result<Status, RunError>)
    requires { E.calls.blocks ≡ false }
{
    let mut session = session;
    let mut printer = Printer::new(Vec::new(alloc));
    let ended = session.run_commands(commands, &mut printer);
    mem::forget(session);
    (printer.into_writer(), ended)
}

// A session over a shard, and one group with its sinks.
fn opened<S: Sink>(
    alloc: Global,
    limits: Limits,
    groups: Vec<Group>,
    sinks: Vec<Vec<S>>,
) -> Result<Session<WorldEngine<Kept, S>>, Trouble>
    requires one { length sinks.items ≡ 1 }
    requires fresh { AllByRecursion (λ own. AllByRecursion IsFresh (map S.state own.items)) sinks.items }
{
    if groups.len() != 1 {
        return Err(Trouble::BadInput);
    }
    let stores = stores_of(alloc, 1, "")?;
    let engine = WorldEngine::open(alloc, limits, stores, groups, sinks)?;
    Ok(Session::new(alloc, engine))
}

// The sinks of one group, which has these two.
fn of_one_group<S: Sink>(alloc: Global, first: S, second: S) -> Result<Vec<Vec<S>>, AllocError>
    requires first { IsFresh (S.state first) }
    requires second { IsFresh (S.state second) }
    ensures one { IfOk result (λ sinks. length sinks.items ≡ 1) }
    ensures fresh { IfOk result (λ sinks. AllByRecursion (λ own. AllByRecursion IsFresh (map S.state own.items)) sinks.items) }
{
    let mut own = Vec::new(alloc);
    own.push(first)?;
    own.push(second)?;
    let mut sinks = Vec::new(alloc);
    sinks.push(own)?;
    Ok(sinks)
}

// The faults that no input has, and those of an input as an operator reads them; and that a line feed is no blank line.
fn others(output: &mut String) -> Result<(), Trouble> {
    push_error(output, PushError::Memory)?;
    push_fault(output, FrontFault::ReadFault)?;
    push_fault(output, FrontFault::TooLong)?;
    push_fault(output, FrontFault::NotText)?;
    push_fault(output, FrontFault::NoMark)?;
    push_fault(output, FrontFault::Rules(RulesFault::MissingKey))?;
    push_value(output, &FrontError::Memory)?;
    push_fault_text(output, &RunError::WriteFault)?;
    push_fault_text(output, &RunError::Memory)?;
    push_value(output, &is_blank("\n"))
}

fn push_fault(output: &mut String, fault: FrontFault) -> Result<(), Trouble> {
    let name = front_fault_name(fault);
    writeln!(output, "{name}: {fault}")?;
    Ok(())
}
