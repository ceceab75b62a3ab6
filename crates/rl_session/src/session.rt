//! A session: commands in their order over an engine, and what they print.
ghost use Rattle.std.specs.Prelude.{◌≡◌, Some, false};
ghost use Rattle.rl_session.specs.Command.{asked, blocks, command_of};
ghost use Rattle.rl_session.specs.Engine.{number_named};
ghost use Rattle.rl_session.specs.Printed.{closed_line, not_closed_line};
ghost use Rattle.rl_session.specs.Session.{Executes, ExecutesInBlock, ExecutesLine, ExecutesText, ExecutesSession, IsEnded, ShowsTo, is_refusal, ended_by, stop_at};
ghost use Rattle.rl_session.specs.declared.session.Status.TheVariants.{Refused};
ghost use Rattle.rl_session.specs.declared.session.RunError.TheVariants.{WriteFault, Memory};

use crate::asking::{ask_all, catch_up, delete, edit, eval, push, tick};
use crate::command::{Command, is_blank, read_command, read_in_block};
use crate::engine::{Closes, Engine};
use crate::front::first_line;
use crate::output::{Answer, CommandResult, write_not_closed, write_result};
use crate::printer::Printer;
use crate::push::PushReader;
use rl_shard::ShardStep;
use std::alloc::{AllocError, AllocFailed, Global};
use std::io;
use std::io::Write;
use thiserror::Error;

/// How a session ended.
#[derive(Clone, Copy, Debug, PartialEq, Eq)]
pub enum Status {
    /// Each command was taken whole.
    Taken,
    /// A command was refused, wholly or in part, or the sinks could not be closed.
    Refused,
    /// A sink could not write all that it had.
    Unwritten,
}

/// Why a session stopped before its end.
#[derive(Clone, Copy, Debug, Drop, Error, PartialEq, Eq)]
pub enum RunError {
    #[error("a write failed")]
    WriteFault,
    /// Of an engine that could not be opened: a session that runs prints without memory.
    #[error("out of memory")]
    Memory,
}

impl From<io::Error> for RunError {
    ghost from_gives = { λ _ e. e ≡ WriteFault };

    fn from(_error: io::Error) -> Self {
        RunError::WriteFault
    }
}

impl From<AllocError> for RunError {
    ghost from_gives = { λ _ e. e ≡ Memory };

    fn from(_error: AllocError) -> Self {
        RunError::Memory
    }
}

impl<T: Drop> From<AllocFailed<T>> for RunError {
    ghost from_gives = { λ _ e. e ≡ Memory };

    fn from(_error: AllocFailed<T>) -> Self {
        RunError::Memory
    }
}

/// Where lines stopped.
#[derive(Clone, Copy)]
pub enum StoppedAt<'a> {
    /// After the last one, or at an `end`.
    End,
    /// At one that begins a block: the text after it, if it is not the last.
    Block(Option<&'a str>),
}

/// How lines stopped.
#[derive(Clone, Copy)]
pub struct Stopped<'a> {
    /// Whether one was refused, wholly or in part.
    pub refused: bool,
    pub at: StoppedAt<'a>,
}

/// Commands over an engine.
#[derive(Drop)]
pub struct Session<E: Closes> {
    alloc: Global,
    engine: E,
}

impl<E: Closes> Session<E> {
    /// A session over the engine as it is, which takes no blocks.
    pub fn new(alloc: Global, engine: E) -> Self
        ensures { result.engine ≡ engine }
    {
        Session { alloc, engine }
    }

    /// Carries out the commands of a text, and prints what they print. At `end`, or at the end of the text, it closes the
    /// sinks. A session that stopped early, after a write that failed, closes them too, so that they write what they have taken;
    /// what is printed then is the beginning of what its lines print.
    pub fn run_commands<W: Write>(
        &mut self,
        commands: &str,
        out: &mut Printer<W>,
    ) -> Result<Status, RunError>
        requires { E.calls.blocks ≡ false }
        ensures { ExecutesSession E.calls E.closes self.old.engine commands.now out.old result out.new self.new.engine }
    {
        let stopped = run_lines(self.alloc, &mut self.engine, commands, out);
        let failed = self.engine.close();
        let stopped = stopped?;
        end_closed(failed, stopped.refused, out)
    }

    /// The engine as the session left it.
    pub fn into_engine(self) -> E
        ensures { result ≡ self.engine }
    {
        self.engine
    }
}

/// Prints that the sinks are closed, of which so many could not write all. How the session ends.
pub fn end_closed<W: Write>(
    failed: u64,
    refused: bool,
    out: &mut Printer<W>,
) -> Result<Status, RunError>
    ensures { IsEnded closed_line (ended_by failed refused) out.old result out.new }
{
    out.text("closed\n");
    out.flush()?;
    Ok(status_of(failed, refused))
}

/// Prints why the sinks were not closed.
pub fn end_not_closed<W: Write>(name: &str, out: &mut Printer<W>) -> Result<Status, RunError>
    ensures { IsEnded (not_closed_line name.now) Refused out.old result out.new }
{
    write_not_closed(name, out);
    out.flush()?;
    Ok(Status::Refused)
}

// How a session ends that was closed.
fn status_of(failed: u64, refused: bool) -> Status
    ensures { result ≡ ended_by failed refused }
{
    if failed > 0 {
        Status::Unwritten
    } else if refused {
        Status::Refused
    } else {
        Status::Taken
    }
}

/// Carries out the commands of a text, and prints what they print, up to `end`, or up to `par`, if the engine takes blocks. After a
/// write that failed no line is looked at.
pub fn run_lines<'a, E: Engine, W: Write>(
    alloc: Global,
    engine: &mut E,
    commands: &'a str,
    out: &mut Printer<W>,
) -> io::Result<Stopped<'a>>
    ensures { ExecutesText E.calls engine.old commands.now out.old result out.new engine.new }
{
    let mut reader = PushReader::new(alloc);
    let mut refused = false;
    let mut rest = commands;
    loop {
        let (line, following) = first_line(rest);
        let answer = answer_line(alloc, &mut reader, engine, line, out)?;
        if let Some(at) = stop_at(answer, following) {
            return Ok(Stopped { refused, at });
        }
        refused |= is_refusal(answer);
        rest = match following {
            Some(following) => following,
            None => return Ok(Stopped {
                refused,
                at: StoppedAt::End,
            }),
        };
    }
}

// Where lines stop at an answer, if they do.
fn stop_at(answer: Answer, following: Option<&str>) -> Option<StoppedAt<'_>>
    ensures { result ≡ stop_at answer following.entry }
{
    match answer {
        Answer::Ended => Some(StoppedAt::End),
        Answer::Block => Some(StoppedAt::Block(following)),
        Answer::Taken | Answer::Refused => None,
    }
}

/// Executes the command of a line of a block, and prints what it prints. Whether it was refused, wholly or in part.
pub fn answer_in_block<E: Engine, W: Write>(
    alloc: Global,
    reader: &mut PushReader,
    engine: &mut E,
    line: &str,
    out: &mut Printer<W>,
) -> bool
    ensures { ExecutesInBlock E.calls engine.old line.now out.old result out.new engine.new }
{
    let answer = match read_in_block(line) {
        Some(command) => execute(alloc, reader, engine, &command, out),
        None => write_result(&CommandResult::Refused, out),
    };
    is_refusal(answer)
}

fn is_refusal(answer: Answer) -> bool
    ensures { result ≡ is_refusal answer }
{
    matches!(answer, Answer::Refused)
}

// Answers a line, and passes over a blank one.
fn answer_line<E: Engine, W: Write>(
    alloc: Global,
    reader: &mut PushReader,
    engine: &mut E,
    line: &str,
    out: &mut Printer<W>,
) -> io::Result<Answer>
    ensures { ExecutesLine E.calls engine.old line.now out.old result out.new engine.new }
{
    if is_blank(line) {
        return Ok(Answer::Taken);
    }
    let answer = answer_command(alloc, reader, engine, line, out);
    out.flush()?;
    Ok(answer)
}

// Executes the command of a line, and prints its result.
fn answer_command<E: Engine, W: Write>(
    alloc: Global,
    reader: &mut PushReader,
    engine: &mut E,
    line: &str,
    out: &mut Printer<W>,
) -> Answer
    ensures { Executes E.calls engine.old (command_of line.now) out.old result out.new engine.new }
{
    match read_command(line) {
        Some(command) => execute(alloc, reader, engine, &command, out),
        None => write_result(&CommandResult::Refused, out),
    }
}

fn execute<E: Engine, W: Write>(
    alloc: Global,
    reader: &mut PushReader,
    engine: &mut E,
    command: &Command<'_>,
    out: &mut Printer<W>,
) -> Answer
    ensures { Executes E.calls engine.old (Some (asked command.now)) out.old result out.new engine.new }
{
    match *command {
        Command::Push(json) => write_result(&push(alloc, reader, engine, json), out),
        Command::Cut => write_result(&ask_all(engine, ShardStep::Cut), out),
        Command::Flush => write_result(&ask_all(engine, ShardStep::Flush), out),
        Command::Delete(ref deletion) => write_result(&delete(alloc, engine, deletion), out),
        Command::Cancel { id } => write_result(&ask_all(engine, ShardStep::Cancel { id }), out),
        Command::Process { id, now } => {
            write_result(&ask_all(engine, ShardStep::Process { id, now }), out)
        }
        Command::Retain { now } => write_result(&ask_all(engine, ShardStep::Retain { now }), out),
        Command::Edit(document) => write_result(&edit(alloc, engine, document), out),
        Command::Eval { t, group } => write_result(&eval(engine, t, group), out),
        Command::Tick { now } => write_result(&tick(alloc, engine, now), out),
        Command::Pump(group) => write_result(&catch_up(engine, group), out),
        Command::Show { sink, group } => show(engine, sink, group, out),
        Command::Par => begin_block(engine, out),
        Command::End => Answer::Ended,
    }
}

// Begins a block, if the engine takes one.
fn begin_block<E: Engine, W: Write>(engine: &E, out: &mut Printer<W>) -> Answer
    ensures { Executes E.calls engine.now (Some blocks) out.old result out.new engine.now }
{
    if engine.takes_blocks() {
        Answer::Block
    } else {
        write_result(&CommandResult::Refused, out)
    }
}

// Shows what a sink of the group with the name keeps.
fn show<E: Engine, W: Write>(engine: &E, sink: usize, name: &str, out: &mut Printer<W>) -> Answer
    ensures { ShowsTo E.calls engine.now (number_named name.now (E.calls.groups engine.now)) sink out.old result out.new }
{
    match engine.group(name) {
        Some(group) => show_of(engine, group, sink, out),
        None => write_result(&CommandResult::Refused, out),
    }
}

// Shows what a sink of the group at a number keeps.
fn show_of<E: Engine, W: Write>(
    engine: &E,
    group: usize,
    sink: usize,
    out: &mut Printer<W>,
) -> Answer
    ensures { ShowsTo E.calls engine.now (Some group) sink out.old result out.new }
{
    if engine.show(group, sink, out) {
        Answer::Taken
    } else {
        write_result(&CommandResult::Refused, out)
    }
}
