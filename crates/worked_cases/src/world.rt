//! Worlds of rule groups over shards, and books on their own.
//!
//! An input is a line of settings, a rule file, a line `%%`, and a step or a look-up in each line. The settings are how many
//! shards there are, the number under which a book asks, the room of each recorder, as `1,8/-` for two of the first group
//! and none of the second, limits by their names, and after a `|` how reads of the first shard's store are spoilt, as for
//! streams.
ghost use Rattle.std.specs.Prelude.{◌≡◌, ◌≤◌, IfOk, length, map};
ghost use Rattle.std.specs.List.{AllByRecursion};
ghost use Rattle.rl_sinks.specs.LogState.{log_state};
ghost use Rattle.rl_sinks.specs.declared.sink.SinkKind.TheVariants as kinds;
ghost use Rattle.rl_world.specs.BookCalls.{IsFresh};
ghost use Rattle.rl_world.specs.ShardAnswers.{most_shards};

use crate::given::{Read, limits_in, number_in, words_of};
use crate::output::push_value;
use crate::streams::plan_in;
use crate::trouble::Trouble;
use crate::world_audit::push_audit;
use crate::world_steps::{Asking, push_lines};
use rl_chunks::{MemStore, SpoilStore};
use rl_labels::Limits;
use rl_rules::{Group, read_rules};
use rl_shard::ShardFault;
use rl_sinks::Recorder;
use rl_world::{Book, BookError, Refusal, World};
use std::alloc::{AllocError, Global};
use std::mem;

/// A recorder over a writer that nobody reads.
pub(crate) type Sunk = Recorder<Vec<u8>>;

/// A store in memory, whose reads may be spoilt.
pub(crate) type Kept = SpoilStore<MemStore>;

/// What a directive gives for its input.
pub(crate) fn answer(output: &mut String, directive: &str, input: &str) -> Result<(), Trouble> {
    match directive {
        "run" => run(output, input),
        "audit" => audited(output, input),
        "book" => book(output, input),
        "others" => others(output),
        _ => Err(Trouble::NoSuchDirective),
    }
}

// What a world answers to each line.
fn run(output: &mut String, input: &str) -> Result<(), Trouble> {
    let (settings, file, lines) = parts_of(input)?;
    let mut world = opened(*output.allocator(), settings, file)?;
    let ended = push_lines(output, &mut world, lines);
    mem::forget(world);
    ended
}

// What an audit says of a world that was run, and of what callers came away with.
fn audited(output: &mut String, input: &str) -> Result<(), Trouble> {
    let (ran, callers) = input.rsplit_once("%%\n").ok_or(Trouble::BadInput)?;
    let (settings, file, lines) = parts_of(ran)?;
    let alloc = *output.allocator();
    let mut world = opened(alloc, settings, file)?;
    let mut unseen = String::new(alloc);
    push_lines(&mut unseen, &mut world, lines.trim_end_matches('\n'))?;
    let (mut shards, books) = world.into_parts();
    push_audit(output, &mut shards, &books, callers.trim_end_matches('\n'))
}

// What a book on its own answers to each line.
fn book(output: &mut String, input: &str) -> Result<(), Trouble> {
    let (settings, file, lines) = parts_of(input)?;
    let mut asking = opened_book(*output.allocator(), settings, file)?;
    let ended = asking.push_calls(output, lines);
    mem::forget(asking);
    ended
}

// What is printed of the faults that no step has.
fn others(output: &mut String) -> Result<(), Trouble> {
    push_value(output, &BookError::Memory)?;
    push_value(output, &Refusal::Memory)?;
    push_value(output, &ShardFault::JournalFull)?;
    push_value(output, &ShardFault::from(AllocError))?;
    push_value(output, &ShardFault::Fault)?;
    push_value(output, &Refusal::Fault)?;
    push_value(output, &ShardFault::Damaged)?;
    push_value(output, &Refusal::Damaged)?;
    push_value(output, &ShardFault::NumbersSpent)?;
    push_value(output, &Refusal::NumbersSpent)
}

// What the first line of an input says.
#[derive(Drop)]
struct Settings<'a> {
    shards: usize,
    slot: u64,
    caps: &'a str,
    limits: Limits,
    spoils: &'a str,
    ghost few: { shards ≤ most_shards },
}

// The settings, the rule file and the lines of an input.
fn parts_of<'a>(input: &'a str) -> Result<(Settings<'a>, &'a str, &'a str), Trouble> {
    let (before, lines) = input.rsplit_once("%%\n").ok_or(Trouble::BadInput)?;
    let (words, file) = before.split_once('\n').ok_or(Trouble::BadInput)?;
    Ok((settings_in(words)?, file, lines))
}

fn settings_in<'a>(words: &'a str) -> Result<Settings<'a>, Trouble> {
    let (words, spoils) = words.split_once('|').unwrap_or((words, ""));
    let (shards, words) = words_of(words);
    let (slot, words) = words_of(words);
    let (caps, limits) = words_of(words);
    let (shards, slot, limits) = (number_in(shards)?, number_in(slot)?, limits_in(limits)?);
    if shards > 16 {
        return Err(Trouble::BadInput);
    }
    Ok(Settings {
        shards: shards as usize,
        slot,
        caps,
        limits,
        spoils,
    })
}

fn opened(alloc: Global, settings: Settings<'_>, file: &str) -> Result<World<Kept, Sunk>, Trouble> {
    let stores = stores_of(alloc, settings.shards, settings.spoils)?;
    let sinks = sinks_in(alloc, settings.caps)?;
    let groups = groups_in(alloc, file, sinks.len())?;
    Ok(World::open(alloc, settings.limits, stores, groups, sinks)?)
}

// The groups of a rule file, `count` of them.
fn groups_in(alloc: Global, file: &str, count: usize) -> Result<Vec<Group>, Trouble>
    ensures { IfOk result (λ groups. length groups.items ≡ count) }
{
    let groups = read_rules(alloc, file).or(Err(Trouble::BadInput))?;
    if groups.len() != count {
        return Err(Trouble::BadInput);
    }
    Ok(groups)
}

/// A store for each shard, of which the first is spoilt.
pub(crate) fn stores_of(alloc: Global, shards: usize, spoils: &str) -> Result<Vec<Kept>, Trouble>
    ensures { IfOk result (λ stores. length stores.items ≡ shards) }
{
    let mut stores = Vec::with_capacity(alloc, shards)?;
    for number in 0..shards {
        let plan = plan_in(alloc, if number == 0 { spoils } else { "" })?;
        stores.push(SpoilStore::new(MemStore::new(alloc), plan))?;
    }
    Ok(stores)
}

// A book of the one group, with the recorders of one.
fn opened_book(alloc: Global, settings: Settings<'_>, file: &str) -> Result<Asking, Trouble> {
    let sinks = recorders(alloc, settings.caps)?;
    let group = Group::read(alloc, file)?;
    let (shards, records) = (settings.shards, settings.limits.records);
    let book = Book::open(alloc, group, settings.slot, shards, sinks, records)?;
    Ok(Asking { book, shards })
}

// The recorders of two groups, or of one, or of none.
fn sinks_in(alloc: Global, caps: &str) -> Result<Vec<Vec<Sunk>>, Trouble>
    ensures { IfOk result (λ sinks. AllByRecursion (λ own. AllByRecursion IsFresh (map (log_state kinds.Recorder) own.items)) sinks.items) }
{
    let mut sinks = Vec::new(alloc);
    let (first, second) = caps.split_once('/').unwrap_or((caps, ""));
    if !first.is_empty() {
        sinks.push(recorders(alloc, first)?)?;
    }
    if !second.is_empty() {
        sinks.push(recorders(alloc, second)?)?;
    }
    Ok(sinks)
}

// Two recorders, or one, or none.
fn recorders(alloc: Global, caps: &str) -> Result<Vec<Sunk>, Trouble>
    ensures { IfOk result (λ own. AllByRecursion IsFresh (map (log_state kinds.Recorder) own.items)) }
{
    let mut own = Vec::new(alloc);
    let (first, second) = caps.split_once(',').unwrap_or((caps, ""));
    if first != "-" {
        own.push(recorder(alloc, first)?)?;
    }
    if !second.is_empty() {
        own.push(recorder(alloc, second)?)?;
    }
    Ok(own)
}

// A recorder with room for `cap` texts.
fn recorder(alloc: Global, cap: &str) -> Result<Sunk, Trouble>
    ensures { IfOk result (λ sink. IsFresh (log_state kinds.Recorder sink)) }
{
    let cap = number_in(cap)? as usize;
    Ok(Recorder::new(alloc, Vec::new(alloc), cap))
}
