//! What is printed of the results of commands.
ghost use Rattle.std.specs.Prelude.{◌≡◌, flat_map, Some, is_err};
ghost use Rattle.std.specs.List.{list_any};
ghost use Rattle.std.specs.Option.{option_map};
ghost use Rattle.rl_sinks.specs.Texts.{tail_text};
ghost use Rattle.rl_session.specs.Engine.{IsAnswered};
ghost use Rattle.rl_session.specs.Printer.{Prints};
ghost use Rattle.rl_session.specs.Printed.{refusal_line, bad_push_line, counts_line, entry_line, entry_lines, is_refused, evaluated_text, ticked_text, pushed_text, none_pushed, asked_text, decided_text, partly_line, number_text, behind_line, caught_up_text, committed_text, printed, answer_of, answer_to, not_closed_line};

use crate::edit::EditRefusal;
use crate::engine::Partly;
use crate::names::{
    edit_refusal_name, push_error_name, push_refusal, query_error_name, refusal_name, shard_refusal,
};
use crate::printer::Printer;
use crate::push::PushError;
use rl_plain::PlainList;
use rl_query::QueryError;
use rl_rules::Evaluation;
use rl_shard::ShardReply;
use rl_sinks::write_tail;
use rl_world::{Committed, Refusal};
use std::io::Write;

/// What became of a command.
#[derive(Clone, Copy)]
pub enum Answer {
    Taken,
    // Wholly or in part.
    Refused,
    // A block begins.
    Block,
    Ended,
}

/// The result of a command, but for a sink that is shown.
#[derive(Drop)]
pub(crate) enum CommandResult {
    // No command, or no such group or sink.
    Refused,
    // A push body that gave no entries.
    Unread(PushError),
    // An answer to each entry of a push.
    Pushed(Vec<Result<ShardReply, Refusal>>),
    // No memory for the answers to this number of entries, of which none was handed in.
    Unpushed(usize),
    // What kept a request from being asked.
    NoSelector(QueryError),
    // Whether each shard decided a step, and the first reply that is a refusal.
    Asked(Result<Option<ShardReply>, Partly>),
    // Whether a group was edited.
    Edited(Result<(), EditRefusal>),
    // The evaluation that was committed, or the first refusal.
    Evaluated(Result<Committed, Refusal>),
    // That of each group that was due.
    Ticked(Vec<Result<Committed, Refusal>>),
    // The sinks that are still behind after they could catch up.
    CaughtUp(Result<PlainList<u64>, Refusal>),
}

// What becomes of a command by its result.
fn answer_to(command_result: &CommandResult) -> Answer
    ensures { result ≡ answer_to command_result.now }
{
    match command_result {
        CommandResult::Pushed(answers) => answer_of(has_refused(answers)),
        CommandResult::Unpushed(count) => answer_of(*count > 0),
        CommandResult::Asked(asked) => answer_of(!matches!(asked, Ok(None))),
        CommandResult::Edited(result) => answer_of(result.is_err()),
        CommandResult::Evaluated(result) => answer_of(result.is_err()),
        CommandResult::Ticked(results) => answer_of(has_failed(results)),
        CommandResult::CaughtUp(result) => answer_of(result.is_err()),
        CommandResult::Refused | CommandResult::Unread(_) | CommandResult::NoSelector(_) =>
            Answer::Refused,
    }
}

fn has_refused(answers: &[Result<ShardReply, Refusal>]) -> bool
    ensures { result ≡ list_any is_refused answers.now }
{
    answers.iter().any(|answer| is_refused(answer))
}

fn has_failed(results: &[Result<Committed, Refusal>]) -> bool
    ensures { result ≡ list_any is_err results.now }
{
    results.iter().any(|evaluated| evaluated.is_err())
}

fn answer_of(refused: bool) -> Answer
    ensures { result ≡ answer_of refused }
{
    if refused {
        Answer::Refused
    } else {
        Answer::Taken
    }
}

/// Prints the result of a command. What becomes of the command.
pub(crate) fn write_result<W: Write>(command_result: &CommandResult, out: &mut Printer<W>) -> Answer
    ensures { IsAnswered (answer_to command_result.now) (printed command_result.now) out.old result out.new }
{
    print(command_result, out);
    answer_to(command_result)
}

// Prints the result of a command.
fn print<W: Write>(command_result: &CommandResult, out: &mut Printer<W>)
    ensures { Prints out.old (printed command_result.now) out.new }
{
    match command_result {
        CommandResult::Refused => refuse(out, "BadCommand"),
        CommandResult::Unread(error) => refuse_push(out, push_error_name(*error)),
        CommandResult::Pushed(answers) => write_pushed(answers, out),
        CommandResult::Unpushed(count) => write_none_pushed(*count, out),
        CommandResult::NoSelector(error) => refuse(out, query_error_name(*error)),
        CommandResult::Asked(asked) => write_asked(asked, out),
        CommandResult::Edited(Ok(())) => out.text("ok\n"),
        CommandResult::Edited(Err(refusal)) => refuse(out, edit_refusal_name(*refusal)),
        CommandResult::Evaluated(result) => write_evaluated(result, out),
        CommandResult::Ticked(results) => write_ticked(results, out),
        CommandResult::CaughtUp(result) => write_caught_up(result, out),
    }
}

fn refuse<W: Write>(out: &mut Printer<W>, name: &str)
    ensures { Prints out.old (refusal_line name.now) out.new }
{
    out.text("refused ");
    out.text(name);
    out.text("\n");
}

fn refuse_push<W: Write>(out: &mut Printer<W>, name: &str)
    ensures { Prints out.old (bad_push_line name.now) out.new }
{
    out.text("refused BadPush ");
    out.text(name);
    out.text("\n");
}

// Prints how many entries were accepted, and each of the others with its number and its refusal.
fn write_pushed<W: Write>(answers: &[Result<ShardReply, Refusal>], out: &mut Printer<W>)
    ensures { Prints out.old (pushed_text answers.now) out.new }
{
    let refused = answers.iter().filter(|answer| is_refused(answer)).count();
    write_counts(answers.len() - refused, refused, out);
    write_refusals(answers, out);
}

fn is_refused(answer: &Result<ShardReply, Refusal>) -> bool
    ensures { result ≡ is_refused answer.now }
{
    push_refusal(answer).is_some()
}

// Prints how many entries were accepted, and how many refused if some were.
fn write_counts<W: Write>(accepted: usize, refused: usize, out: &mut Printer<W>)
    ensures { Prints out.old (counts_line accepted refused) out.new }
{
    out.text("accepted ");
    out.number(accepted as u64);
    if refused > 0 {
        out.text(" refused ");
        out.number(refused as u64);
    }
    out.text("\n");
}

// Prints the number and the refusal of each entry that was refused.
fn write_refusals<W: Write>(answers: &[Result<ShardReply, Refusal>], out: &mut Printer<W>)
    ensures { Prints out.old (entry_lines 0 answers.now) out.new }
{
    for (number, answer) in answers.iter().enumerate() {
        if let Some(name) = push_refusal(answer) {
            write_refusal(number, name, out);
        }
    }
}

fn write_refusal<W: Write>(number: usize, name: &str, out: &mut Printer<W>)
    ensures { Prints out.old (entry_line number (Some name.now)) out.new }
{
    out.text("  ");
    out.number(number as u64);
    out.text(" ");
    out.text(name);
    out.text("\n");
}

// Prints that there was no memory for any of `count` entries.
fn write_none_pushed<W: Write>(count: usize, out: &mut Printer<W>)
    ensures { Prints out.old (pushed_text (none_pushed count)) out.new }
{
    write_counts(0, count, out);
    write_each_refused(count, out);
}

// Prints of each of `count` entries that there was no memory for it.
fn write_each_refused<W: Write>(count: usize, out: &mut Printer<W>)
    ensures { Prints out.old (entry_lines 0 (none_pushed count)) out.new }
{
    for number in 0..count {
        write_refusal(number, "Memory", out);
    }
}

// Prints whether each shard decided a step, or how many did and why the next one did not.
fn write_asked<W: Write>(asked: &Result<Option<ShardReply>, Partly>, out: &mut Printer<W>)
    ensures { Prints out.old (asked_text asked.now) out.new }
{
    match asked {
        Ok(None) => out.text("ok\n"),
        Ok(Some(reply)) => write_decided(shard_refusal(reply), out),
        Err(partly) => write_partly(partly.done, refusal_name(partly.refusal), out),
    }
}

// Prints why a shard refused, if it did.
fn write_decided<W: Write>(refusal: Option<&'static str>, out: &mut Printer<W>)
    ensures { Prints out.old (decided_text (option_map (λ name. name.now) refusal.entry)) out.new }
{
    match refusal {
        Some(name) => refuse(out, name),
        None => out.text("ok\n"),
    }
}

fn write_partly<W: Write>(done: u64, name: &str, out: &mut Printer<W>)
    ensures { Prints out.old (partly_line done name.now) out.new }
{
    out.text("partly ");
    out.number(done);
    out.text(" ");
    out.text(name);
    out.text("\n");
}

// Prints what the groups that were due gave, if some were.
fn write_ticked<W: Write>(results: &[Result<Committed, Refusal>], out: &mut Printer<W>)
    ensures { Prints out.old (ticked_text results.now) out.new }
{
    if results.is_empty() {
        return out.text("ok\n");
    }
    for evaluated in results {
        write_evaluated(evaluated, out);
    }
}

// Prints what an evaluation found, or why it was refused.
fn write_evaluated<W: Write>(evaluated: &Result<Committed, Refusal>, out: &mut Printer<W>)
    ensures { Prints out.old (evaluated_text evaluated.now) out.new }
{
    match evaluated {
        Ok(committed) => write_committed(committed, out),
        Err(refusal) => refuse(out, refusal_name(*refusal)),
    }
}

// Prints what an evaluation found, and which sinks are behind.
fn write_committed<W: Write>(committed: &Committed, out: &mut Printer<W>)
    ensures { Prints out.old (committed_text committed.now) out.new }
{
    write_text(out, committed.evaluation.get());
    write_behind(committed.behind.as_slice(), out);
}

// Prints what a tail is given of an evaluation.
fn write_text<W: Write>(out: &mut Printer<W>, evaluation: &Evaluation)
    ensures { Prints out.old (tail_text evaluation.now) out.new }
{
    match write_tail(out, evaluation) {
        Ok(()) => {}
        Err(never) => match never {},
    }
}

// Prints which sinks are behind, or that none is.
fn write_caught_up<W: Write>(caught: &Result<PlainList<u64>, Refusal>, out: &mut Printer<W>)
    ensures { Prints out.old (caught_up_text caught.now) out.new }
{
    match caught {
        Ok(behind) if behind.is_empty() => out.text("ok\n"),
        Ok(behind) => write_behind(behind.as_slice(), out),
        Err(refusal) => refuse(out, refusal_name(*refusal)),
    }
}

// Prints the numbers of the sinks that are behind, if some are.
fn write_behind<W: Write>(behind: &[u64], out: &mut Printer<W>)
    ensures { Prints out.old (behind_line behind.now) out.new }
{
    if behind.is_empty() {
        return;
    }
    out.text("behind");
    write_numbers(behind, out);
    out.text("\n");
}

fn write_numbers<W: Write>(numbers: &[u64], out: &mut Printer<W>)
    ensures { Prints out.old (flat_map number_text numbers.now) out.new }
{
    for number in numbers {
        out.text(" ");
        out.number(*number);
    }
}

/// Prints why the sinks were not closed.
pub(crate) fn write_not_closed<W: Write>(name: &str, out: &mut Printer<W>)
    ensures { Prints out.old (not_closed_line name.now) out.new }
{
    out.text("not closed ");
    out.text(name);
    out.text("\n");
}
