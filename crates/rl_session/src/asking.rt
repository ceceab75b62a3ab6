//! What commands ask of an engine, and their results.
ghost use Rattle.std.specs.Prelude.{◌≡◌, ◌+◌, ◌<◌, ◌≤◌, length, IfOk, OnErr, vec_len, vec_capacity};
ghost use Rattle.rl_deletes.specs.Deletes.{with_selector};
ghost use Rattle.rl_session.specs.Asking.{IsForPush, IsForAll, IsForDelete, IsForEdit, IsForTick, IsForCatchUp, IsForEvaluation, PushesAll, EvaluatesDue, TakesTurn, PutsGroup, SelectsIn};
ghost use Rattle.rl_session.specs.Engine.{number_named};
ghost use Rattle.rl_session.specs.PushBody.{entries_of};

use crate::edit::{EditRefusal, read_group};
use crate::engine::Engine;
use crate::output::CommandResult;
use crate::push::PushReader;
use rl_deletes::Deletion;
use rl_labels::{Entry, Ns};
use rl_plain::Shared;
use rl_query::QueryError;
use rl_records::SieveText;
use rl_rules::Group;
use rl_selector_text::parse_delete;
use rl_shard::{ShardReply, ShardStep};
use rl_world::{Committed, Refusal};
use std::alloc::{AllocError, Global};

/// Hands in the entries of a push body, in their order.
pub(crate) fn push<E: Engine>(
    alloc: Global,
    reader: &mut PushReader,
    engine: &mut E,
    json: &str,
) -> CommandResult
    ensures { IsForPush E.calls engine.old (entries_of json.now) result engine.new }
{
    let entries = match reader.read(json.as_bytes()) {
        Ok(entries) => entries,
        Err(error) => return CommandResult::Unread(error),
    };
    let count = entries.len();
    match push_all(alloc, engine, entries) {
        Ok(answers) => CommandResult::Pushed(answers),
        Err(AllocError) => CommandResult::Unpushed(count),
    }
}

// What the engine answers to each entry. With no room for all of them and all answers it is handed none.
fn push_all<E: Engine>(
    alloc: Global,
    engine: &mut E,
    entries: Vec<Entry>,
) -> Result<Vec<Result<ShardReply, Refusal>>, AllocError>
    ensures each { IfOk result (λ answers. PushesAll E.calls engine.old entries.items answers.items engine.new) }
    ensures none { OnErr result (engine.new ≡ engine.old) }
{
    let entries = share(alloc, entries)?;
    let mut answers = Vec::with_capacity(alloc, entries.len())?;
    for entry in entries {
        let answer = engine.push(entry);
        answers.push_reserved(answer);
    }
    Ok(answers)
}

// The entries, each where its owners can share it.
fn share(alloc: Global, entries: Vec<Entry>) -> Result<Vec<Shared<Entry>>, AllocError>
    ensures { IfOk result (λ shared. shared.items ≡ entries.items) }
{
    let mut shared = Vec::with_capacity(alloc, entries.len())?;
    for entry in entries {
        shared.push(Shared::new(alloc, entry)?)?;
    }
    Ok(shared)
}

/// Asks each shard for a step.
pub(crate) fn ask_all<E: Engine>(engine: &mut E, step: ShardStep) -> CommandResult
    ensures { IsForAll E.calls engine.old step result engine.new }
{
    CommandResult::Asked(engine.ask_all(step))
}

/// Asks each shard to receive a request, if the selector is one that a delete may have.
pub(crate) fn delete<E: Engine>(
    alloc: Global,
    engine: &mut E,
    deletion: &Deletion<&str>,
) -> CommandResult
    ensures { IsForDelete E.calls engine.old (with_selector deletion.now.selector.now deletion.now) result engine.new }
{
    match read_sieve(alloc, deletion.selector) {
        Ok(selector) => {
            let step = ShardStep::Delete(deletion.with_selector(selector));
            CommandResult::Asked(engine.ask_all(step))
        }
        Err(error) => CommandResult::NoSelector(error),
    }
}

// The selector with its line filters, where each shard can share it.
fn read_sieve(alloc: Global, selector: &str) -> Result<SieveText, QueryError>
    ensures { SelectsIn selector.now result }
{
    let sieve = parse_delete(alloc, selector)?;
    Ok(SieveText::new(alloc, sieve)?)
}

/// Evaluates the group with the name.
pub(crate) fn eval<E: Engine>(engine: &mut E, t: Ns, name: &str) -> CommandResult
    ensures { IsForEvaluation E.calls engine.old t (number_named name.now (E.calls.groups engine.old)) result engine.new }
{
    match engine.group(name) {
        Some(group) => CommandResult::Evaluated(engine.evaluate(group, t)),
        None => CommandResult::Refused,
    }
}

/// Evaluates each group that is due, in their order. With no room for what they may give it evaluates none.
pub(crate) fn tick<E: Engine>(alloc: Global, engine: &mut E, now: Ns) -> CommandResult
    ensures { IsForTick E.calls engine.old now result engine.new }
{
    match Vec::with_capacity(alloc, engine.groups()) {
        Ok(results) => CommandResult::Ticked(evaluate_due(engine, now, results)),
        Err(AllocError) => CommandResult::Evaluated(Err(Refusal::Memory)),
    }
}

// Puts what each group gave that is due into an empty list, which has room for all groups.
fn evaluate_due<E: Engine>(
    engine: &mut E,
    now: Ns,
    mut results: Vec<Result<Committed, Refusal>>,
) -> Vec<Result<Committed, Refusal>>
    requires empty { vec_len results ≡ 0 }
    requires room { length (E.calls.groups engine.old) ≤ vec_capacity results }
    ensures { EvaluatesDue E.calls engine.old now 0 (length (E.calls.groups engine.old)) result.items engine.new }
{
    for group in 0..engine.groups() {
        evaluate_if_due(engine, group, now, &mut results);
    }
    results
}

// Adds what a group gives, if it is due.
fn evaluate_if_due<E: Engine>(
    engine: &mut E,
    group: usize,
    now: Ns,
    results: &mut Vec<Result<Committed, Refusal>>,
)
    requires { vec_len results.old < vec_capacity results.old }
    ensures turn { TakesTurn E.calls engine.old now group results.old.items results.new.items engine.new }
    ensures len { vec_len results.new ≤ vec_len results.old + 1 }
    ensures capacity { vec_capacity results.old ≤ vec_capacity results.new }
{
    if engine.is_due(group, now) {
        let answer = engine.evaluate(group, now);
        results.push_reserved(answer);
    }
}

/// Pumps the sinks of the group with the name, and offers each what it has not taken.
pub(crate) fn catch_up<E: Engine>(engine: &mut E, name: &str) -> CommandResult
    ensures { IsForCatchUp E.calls engine.old (number_named name.now (E.calls.groups engine.old)) result engine.new }
{
    match engine.group(name) {
        Some(group) => CommandResult::CaughtUp(engine.catch_up(group)),
        None => CommandResult::Refused,
    }
}

/// Puts the one group of a document instead of the group with its name.
pub(crate) fn edit<E: Engine>(alloc: Global, engine: &mut E, document: &str) -> CommandResult
    ensures { IsForEdit E.calls engine.old document.now result engine.new }
{
    match read_group(alloc, document) {
        Ok(to) => CommandResult::Edited(put_group(engine, to)),
        Err(refusal) => CommandResult::Edited(Err(refusal)),
    }
}

// Puts a group instead of the group with its name, or says why not.
fn put_group<E: Engine>(engine: &mut E, to: Group) -> Result<(), EditRefusal>
    ensures { PutsGroup E.calls engine.old to result engine.new }
{
    let Some(group) = engine.group(to.name.as_str()) else {
        return Err(EditRefusal::NoSuchGroup);
    };
    match engine.edit(group, to) {
        Ok(()) => Ok(()),
        Err(refusal) => Err(EditRefusal::Engine(refusal)),
    }
}
