//! A world on one thread as an engine: a call is a step, and an evaluation a list of steps.
ghost use Rattle.std.specs.Prelude.{◌≡◌, ◌≤◌, length, map, slice_get, option_map, is_some, Some, IfOk, IfSome};
ghost use Rattle.std.specs.List.{AllByRecursion, concat};
ghost use Rattle.rl_shard.specs.ShardState.{opened_over};
ghost use Rattle.rl_world.specs.BookCalls.{books_from, IsFresh};
ghost use Rattle.rl_world.specs.ShardAnswers.{most_shards};
ghost use Rattle.rl_session.specs.Engine.{IsAnswered, number_named, kept_text};
ghost use Rattle.rl_session.specs.Printer.{Prints};
ghost use Rattle.rl_session.specs.WorldEngine.{IsAlike, IsAskedOne, IsAskedFor, IsAskedOfAll, or_else, refusing, listed, shown_of};

use crate::engine::{Closes, Engine, Partly};
use crate::names::shard_refusal;
use crate::printer::Printer;
use rl_chunks::Store;
use rl_labels::{Entry, Limits, Ns, shard_of};
use rl_plain::{PlainList, Shared, TryCopy};
use rl_rules::Group;
use rl_shard::{ShardReply, ShardStep};
use rl_sinks::Sink;
use rl_world::{Book, Committed, Refusal, World};
use std::alloc::{AllocError, Global};
use std::io::Write;
use std::marker::Model;

/// Shards and books on one thread. An entry goes to its stream's shard, and an evaluation asks each. Contracts see its world.
#[derive(Drop)]
pub struct WorldEngine<D: Store, S: Sink> {
    world: World<D, S>,
    shards: usize,
}

impl<D: Store, S: Sink> Model for WorldEngine<D, S> {
    ghost use Rattle.std.specs.Prelude.{◌≡◌, length};
    ghost use Rattle.rl_world.specs.WorldState.{WorldBooks};

    ghost Value = { WorldBooks };

    ghost use Rattle.std.specs.Coded.{codes};
    ghost use Rattle.rl_labels.specs.LabelSet.{label_set_code};
    ghost use Rattle.rl_aggregate.specs.contracts.totals.Totals as totals_type;
    ghost use Rattle.rl_query.specs.contracts.label_test.LabelTests as tests_type;
    ghost use Rattle.rl_shard.specs.ShardState.{shard_view_code};

    ghost coded = { Prim.hlevel (codes, label_set_code, totals_type.the_row.coded, tests_type.the_row.coded, shard_view_code) };

    ghost view = { λ a. a.world };

    ghost use Rattle.std.specs.Prelude.{◌≤◌};

    ghost invariant = { λ a. (1 ≤ a.shards) × (a.shards ≡ length a.world.shards) };
}

impl<D: Store, S: Sink> WorldEngine<D, S> {
    /// An empty shard over each store, and a book for each group with its sinks, which have taken nothing.
    pub fn open(
        alloc: Global,
        limits: Limits,
        stores: Vec<D>,
        groups: Vec<Group>,
        sinks: Vec<Vec<S>>,
    ) -> Result<Self, AllocError>
        requires some { 1 ≤ length stores.items }
        requires shards { length stores.items ≤ most_shards }
        requires lists { length sinks.items ≡ length groups.items }
        requires fresh { AllByRecursion (λ own. AllByRecursion IsFresh (map S.state own.items)) sinks.items }
        ensures shards { IfOk result (λ world. world.shards ≡ map (λ store. opened_over limits (D.seen store)) stores.items) }
        ensures books { IfOk result (λ world. world.books ≡ books_from 0 limits.records (length stores.items) groups.items (map (λ own. map S.state own.items) sinks.items)) }
    {
        let shards = stores.len();
        let world = World::open(alloc, limits, stores, groups, sinks)?;
        Ok(WorldEngine { world, shards })
    }

    /// Its world, as it is now.
    pub fn world(&self) -> &World<D, S>
        ensures { result.now ≡ self.now }
    {
        &self.world
    }

    /// The books of its world, for an end that takes nothing apart but the sinks: the shards are let go.
    pub fn into_books(self) -> Vec<Book<S>>
        ensures { result.items ≡ self.books }
    {
        self.world.into_books()
    }

    // Asks a shard for a step.
    fn ask_one(&mut self, number: usize, step: ShardStep) -> Result<ShardReply, Refusal>
        ensures made { IsAskedOne self.old number step result self.new }
        ensures alike { IsAlike self.old self.new }
    {
        match self.world.ask(number, step) {
            Ok((_place, reply)) => Ok(reply),
            Err(refusal) => Err(refusal),
        }
    }

    // Asks a shard for a step, after those that decided it.
    fn ask(&mut self, number: usize, step: &ShardStep) -> Result<ShardReply, Partly>
        ensures made { IsAskedFor self.old step.now number result self.new }
        ensures alike { IsAlike self.old self.new }
    {
        let done = number as u64;
        let Ok(step) = step.try_copy() else {
            let refusal = Refusal::Memory;
            return Err(Partly { done, refusal });
        };
        match self.ask_one(number, step) {
            Ok(reply) => Ok(reply),
            Err(refusal) => Err(Partly { done, refusal }),
        }
    }

    // Asks each shard in order. The first reply that is a refusal.
    fn ask_each(&mut self, step: &ShardStep) -> Result<Option<ShardReply>, Partly>
        ensures made { IsAskedOfAll self.old step.now result self.new }
        ensures alike { IsAlike self.old self.new }
    {
        let mut refused = None;
        for number in 0..self.shards() {
            let reply = self.ask(number, step)?;
            refused = first_refused(refused, reply);
        }
        Ok(refused)
    }

    // How many shards it asks.
    fn shards(&self) -> usize
        ensures count { result ≡ length self.now.shards }
        ensures some { 1 ≤ result }
    {
        self.shards
    }
}

impl<D: Store, S: Sink> Engine for WorldEngine<D, S> {
    ghost use Rattle.rl_session.specs.WorldEngine.{world_calls};

    ghost calls = { world_calls };

    fn groups(&self) -> usize {
        self.world.groups()
    }

    fn group(&self, name: &str) -> Option<usize> {
        group_named(&self.world, name)
    }

    fn push(&mut self, entry: Shared<Entry>) -> Result<ShardReply, Refusal> {
        let number = shard_of(&entry.get().labels, self.shards());
        self.ask_one(number, ShardStep::Push(entry))
    }

    fn ask_all(&mut self, step: ShardStep) -> Result<Option<ShardReply>, Partly> {
        self.ask_each(&step)
    }

    fn edit(&mut self, group: usize, to: Group) -> Result<(), Refusal> {
        self.world.edit(group, to)?;
        Ok(())
    }

    fn evaluate(&mut self, group: usize, t: Ns) -> Result<Committed, Refusal> {
        self.world.evaluate(group, t)
    }

    fn catch_up(&mut self, group: usize) -> Result<PlainList<u64>, Refusal> {
        self.world.catch_up(group)
    }

    fn is_due(&self, group: usize, now: Ns) -> bool {
        match self.world.book(group) {
            Some(book) => book.due(now),
            None => false,
        }
    }

    fn show<W: Write>(&self, group: usize, sink: usize, out: &mut Printer<W>) -> bool {
        match self.world.book(group) {
            Some(book) => print_sink(book, sink, out),
            None => false,
        }
    }

    fn takes_blocks(&self) -> bool {
        false
    }
}

impl<D: Store, S: Sink> Closes for WorldEngine<D, S> {
    ghost use Rattle.rl_session.specs.WorldEngine.{IsClosed};

    ghost closes = { IsClosed S.state S.close_answers };

    fn close(&mut self) -> u64 {
        self.world.close_sinks()
    }
}

// The first reply that is a refusal, of one before and a reply.
fn first_refused(before: Option<ShardReply>, reply: ShardReply) -> Option<ShardReply>
    ensures { result ≡ or_else before (refusing reply) }
{
    if before.is_none() && shard_refusal(&reply).is_some() {
        Some(reply)
    } else {
        before
    }
}

// The number of the first group with the name.
fn group_named<D: Store, S: Sink>(world: &World<D, S>, name: &str) -> Option<usize>
    ensures { result ≡ number_named name.now (map listed world.now.books) }
{
    for number in 0..world.groups() {
        let book = world.book(number)?;
        if book.group().name.as_str() == name {
            return Some(number);
        }
    }
    None
}

// Prints how many texts a sink has taken, and those that it keeps. Whether there is such a sink.
fn print_sink<S: Sink, W: Write>(book: &Book<S>, sink: usize, out: &mut Printer<W>) -> bool
    ensures { let shown = option_map shown_of (slice_get book.now.sinks sink) in IsAnswered (is_some shown) (kept_text shown) out.old result out.new }
{
    let Some(count) = book.sink_count(sink) else {
        return false;
    };
    out.text("count ");
    out.number(count);
    out.text("\n");
    print_texts(book, sink, count, out);
    true
}

// Prints the texts that a sink keeps, which are at most `count`.
fn print_texts<S: Sink, W: Write>(book: &Book<S>, sink: usize, count: u64, out: &mut Printer<W>)
    requires { IfSome (slice_get book.now.sinks sink) (λ sink. length sink.kept ≤ count) }
    ensures { IfSome (slice_get book.now.sinks sink) (λ sink. Prints out.old (concat sink.kept) out.new) }
{
    for index in 0..count {
        let Some(text) = book.sink_text(sink, index) else {
            break;
        };
        out.text(text);
    }
}
