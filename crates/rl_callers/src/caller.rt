//! A caller of a ruler as an engine.
ghost use Rattle.std.specs.Prelude.{◌≡◌, ℕ, List, map};
ghost use Rattle.std.specs.List.{concat};
ghost use Rattle.rl_session.specs.Engine.{number_named};
ghost use Rattle.rl_session.specs.Printer.{Prints};
ghost use Rattle.rl_session.specs.WorldEngine.{first_refused};
ghost use Rattle.rl_callers.specs.Callers.{listed, partly_of, refusal_of_edit, refusal_of_evaluation, refusal_of_group};

use rl_chunks::Store;
use rl_labels::{Entry, Ns};
use rl_plain::{PlainList, PlainText, Shared};
use rl_rules::Group;
use rl_session::names::shard_refusal;
use rl_session::{Engine, Partly, Printer};
use rl_shard::{ShardReply, ShardStep};
use rl_sinks::Sink;
use rl_workers::{AllFault, Crew, EditFault, EvaluationFault, GroupFault, Pass, Ruler};
use rl_world::{BookFault, Committed, Refusal, refusal_of_shard};
use std::io::Write;
use std::marker::Model;
use std::sync::Wait;

/// A group as callers know it: its name, which no edit changes, and how many sinks it has.
#[derive(Drop)]
pub struct Listing {
    pub name: PlainText,
    pub sinks: usize,
}

/// One of the callers of a ruler. Its calls may wait for those of others. Contracts see a `CallerView`.
#[derive(Drop)]
pub struct Caller<'a, D: Store, S: Sink, L: Crew, P: Crew, R> {
    rt: &'a R,
    ruler: &'a Ruler<D, S, L, P>,
    groups: &'a [Listing],
    pass: Pass<P>,
}

impl<'a, D: Store, S: Sink, L: Crew, P: Crew, R> Model for Caller<'a, D, S, L, P, R> {
    ghost use Rattle.std.specs.Prelude.{map};
    ghost use Rattle.std.specs.Coded.{codes};
    ghost use Rattle.rl_labels.specs.LabelSet.{label_set_code};
    ghost use Rattle.rl_query.specs.contracts.label_test.LabelTests as tests_type;
    ghost use Rattle.rl_callers.specs.Callers.{CallerView, listed};

    ghost Value = { CallerView };

    ghost coded = { Prim.hlevel (codes, label_set_code, tests_type.the_row.coded) };

    ghost view = { λ a. record { pass = a.pass; shards = a.ruler.now.shards; groups = map listed a.groups.now } };
}

impl<'a, D: Store, S: Sink, L: Crew, P: Crew, R: Wait> Caller<'a, D, S, L, P, R> {
    /// The caller with the pass, of a ruler with these groups.
    pub fn new(
        rt: &'a R,
        ruler: &'a Ruler<D, S, L, P>,
        groups: &'a [Listing],
        pass: Pass<P>,
    ) -> Self
        ensures { result ≡ record { pass = pass; shards = ruler.entry.now.shards; groups = map listed groups.entry.now } }
    {
        Caller {
            rt,
            ruler,
            groups,
            pass,
        }
    }

    /// The pass, with what its calls have added.
    pub fn into_pass(self) -> Pass<P>
        ensures { result ≡ self.entry.pass }
    {
        self.pass
    }

    // Prints the texts that a sink keeps, of at most `count`, up to one for which there is no memory.
    fn print_texts<W: Write>(&self, group: usize, sink: usize, count: u64, out: &mut Printer<W>)
        ensures { (kept : List (List ℕ)) × Prints out.old (concat kept) out.new }
    {
        for index in 0..count {
            match self.ruler.sink_text(self.rt, group, sink, index) {
                Ok(Some(text)) => out.text(text.as_str()),
                Ok(None) => break,
                Err(_error) => {
                    out.fail();
                    break;
                }
            }
        }
    }
}

impl<'a, D: Store, S: Sink, L: Crew, P: Crew, R: Wait> Engine for Caller<'a, D, S, L, P, R> {
    ghost use Rattle.rl_callers.specs.Callers.{caller_calls};

    ghost calls = { caller_calls };

    fn groups(&self) -> usize {
        self.groups.len()
    }

    fn group(&self, name: &str) -> Option<usize> {
        group_named(self.groups, name)
    }

    fn push(&mut self, entry: Shared<Entry>) -> Result<ShardReply, Refusal> {
        match self.ruler.push(self.rt, &mut self.pass, entry) {
            Ok(reply) => Ok(reply),
            Err(fault) => Err(refusal_of_shard(fault)),
        }
    }

    fn ask_all(&mut self, step: ShardStep) -> Result<Option<ShardReply>, Partly> {
        match self.ruler.ask_all(self.rt, &mut self.pass, &step) {
            Ok(replies) => Ok(first_refused(replies)),
            Err(fault) => Err(partly_of(fault)),
        }
    }

    fn edit(&mut self, group: usize, to: Group) -> Result<(), Refusal> {
        match self.ruler.edit(self.rt, &mut self.pass, group, to) {
            Ok(()) => Ok(()),
            Err(fault) => Err(refusal_of_edit(fault)),
        }
    }

    fn evaluate(&mut self, group: usize, t: Ns) -> Result<Committed, Refusal> {
        match self.ruler.evaluate(self.rt, &mut self.pass, group, t) {
            Ok(committed) => Ok(committed),
            Err(fault) => Err(refusal_of_evaluation(fault)),
        }
    }

    fn catch_up(&mut self, group: usize) -> Result<PlainList<u64>, Refusal> {
        match self.ruler.catch_up(self.rt, group) {
            Ok(behind) => Ok(behind),
            Err(fault) => Err(refusal_of_group(fault)),
        }
    }

    fn is_due(&self, group: usize, now: Ns) -> bool {
        self.ruler.is_due(self.rt, group, now)
    }

    fn show<W: Write>(&self, group: usize, sink: usize, out: &mut Printer<W>) -> bool {
        let Some(count) = self.ruler.sink_count(self.rt, group, sink) else {
            return false;
        };
        out.text("count ");
        out.number(count);
        out.text("\n");
        self.print_texts(group, sink, count, out);
        true
    }

    fn takes_blocks(&self) -> bool {
        true
    }
}

// The number of the first group with the name.
fn group_named(groups: &[Listing], name: &str) -> Option<usize>
    ensures { result ≡ number_named name.now (map listed groups.now) }
{
    groups.iter().position(|group| group.name.as_str() == name)
}

// The first of replies that is a refusal.
fn first_refused(replies: PlainList<ShardReply>) -> Option<ShardReply>
    ensures { result ≡ first_refused replies }
{
    replies
        .into_vec()
        .into_iter()
        .find(|reply| shard_refusal(reply).is_some())
}

// Why not all shards decided a step, as a session prints it.
fn partly_of(fault: AllFault) -> Partly
    ensures { result ≡ partly_of fault }
{
    match fault {
        AllFault::Partly { done, fault } => Partly {
            done: done as u64,
            refusal: refusal_of_shard(fault),
        },
        AllFault::Memory => Partly {
            done: 0,
            refusal: Refusal::Memory,
        },
    }
}

// Why a group was not edited, as a session prints it.
fn refusal_of_edit(fault: EditFault) -> Refusal
    ensures { result ≡ refusal_of_edit fault }
{
    match fault {
        EditFault::NoSuch => Refusal::NoSuch,
        EditFault::SessionFull => Refusal::Book(BookFault::SessionFull),
        EditFault::Memory => Refusal::Memory,
    }
}

// Why the sinks of a group did not catch up, as a session prints it.
fn refusal_of_group(fault: GroupFault) -> Refusal
    ensures { result ≡ refusal_of_group fault }
{
    match fault {
        GroupFault::NoSuch => Refusal::NoSuch,
        GroupFault::Memory => Refusal::Memory,
    }
}

// Why a group was not evaluated, as a session prints it.
fn refusal_of_evaluation(fault: EvaluationFault) -> Refusal
    ensures { result ≡ refusal_of_evaluation fault }
{
    match fault {
        EvaluationFault::NoSuch => Refusal::NoSuch,
        EvaluationFault::MomentNotLater { last } => Refusal::Book(BookFault::MomentNotLater {
            last,
        }),
        EvaluationFault::AtShard { fault, .. } => refusal_of_shard(fault),
        EvaluationFault::SessionFull => Refusal::Book(BookFault::SessionFull),
        EvaluationFault::Memory => Refusal::Memory,
    }
}
