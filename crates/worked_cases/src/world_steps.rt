//! Steps of a world, calls of a book and look-ups in books, and what they are answered.
ghost use Rattle.std.specs.Prelude.{◌≡◌};

use crate::given::{Read, moment_in, number_in, words_of};
use crate::output::push_value;
use crate::shard::{self, push_digest};
use crate::trouble::Trouble;
use crate::world::{Kept, Sunk};
use rl_plain::{PlainList, Same, Shared};
use rl_query_text::print_term;
use rl_rules::{Alert, Evaluation, Group, KeptRule};
use rl_shard::{Shard, ShardReply, ShardStep};
use rl_sinks::{SinkKind, evaluation_text};
use rl_world::{Book, Committed, Item, Reply, Step, World};
use std::alloc::Global;
use std::fmt::{Debug, Display};
use std::mem;

/// Writes what a world answers to each line. It is asked all steps up to a look-up at once.
pub(crate) fn push_lines(
    output: &mut String,
    world: &mut World<Kept, Sunk>,
    lines: &str,
) -> Result<(), Trouble> {
    let mut steps = Vec::new(*output.allocator());
    for line in lines.split('\n') {
        push_line(output, world, &mut steps, line)?;
    }
    ask(output, world, &mut steps)
}

// Adds a step to those that are to be asked, or asks them and looks something up.
fn push_line(
    output: &mut String,
    world: &mut World<Kept, Sunk>,
    steps: &mut Vec<Step>,
    line: &str,
) -> Result<(), Trouble> {
    let (word, rest) = words_of(line);
    if is_look_up(word) {
        ask(output, world, steps)?;
        return look_at(output, world, word, rest);
    }
    steps.push(step_in(*output.allocator(), word, rest)?)?;
    Ok(())
}

fn is_look_up(word: &str) -> bool {
    match word {
        "groups" | "close" | "store" | "meter" | "live" => true,
        "group" | "first" => true,
        "alerts" | "due" | "item" | "evaluation" | "mark" | "show" => true,
        _ => false,
    }
}

// Asks the world the steps, which are gone then, and writes what it answers.
fn ask(
    output: &mut String,
    world: &mut World<Kept, Sunk>,
    steps: &mut Vec<Step>,
) -> Result<(), Trouble> {
    let asked = mem::replace(steps, Vec::new(*output.allocator()));
    let mut replies = Vec::new(*output.allocator());
    let ran = world.run(asked, &mut replies);
    let ended = push_replies(output, replies.as_slice());
    mem::forget(replies);
    ran?;
    ended
}

// The step at a shard or a group, by its word and what follows it.
fn step_in(alloc: Global, word: &str, rest: &str) -> Result<Step, Trouble> {
    let (number, rest) = words_of(rest);
    let number = number_in(number)? as usize;
    match word {
        "edit" => {
            let to = Group::read(alloc, rest)?;
            Ok(Step::Edit { group: number, to })
        }
        "begin" | "gather" | "commit" | "abandon" | "catch" => evaluation_step(word, number, rest),
        _ => {
            let step = shard::step_in(alloc, word, rest)?;
            Ok(Step::Shard { number, step })
        }
    }
}

// A step of an evaluation of a group.
fn evaluation_step(word: &str, group: usize, rest: &str) -> Result<Step, Trouble> {
    Ok(match word {
        "begin" => Step::Begin {
            group,
            t: moment_in(rest)?,
        },
        "gather" => Step::Gather {
            group,
            number: number_in(rest)? as usize,
        },
        "commit" => Step::Commit { group },
        "abandon" => Step::Abandon { group },
        _ => Step::CatchUp { group },
    })
}

fn push_replies(output: &mut String, replies: &[Reply]) -> Result<(), Trouble> {
    for reply in replies {
        push_reply(output, reply)?;
    }
    Ok(())
}

fn push_reply(output: &mut String, reply: &Reply) -> Result<(), Trouble> {
    match reply {
        Reply::Decided { place, reply } => push_decision(output, *place, reply),
        Reply::Edited { place } => Ok(writeln!(output, "{place} edited")?),
        Reply::Begun => push_value(output, &"begun"),
        Reply::Gathered { place } => Ok(writeln!(output, "{place} gathered")?),
        Reply::Committed(answer) => push_commit(output, answer),
        Reply::Abandoned => push_value(output, &"abandoned"),
        Reply::CaughtUp { behind } => push_caught_up(output, behind.as_slice()),
        Reply::Refused(refusal) => push_refusal(output, refusal),
    }
}

/// What a shard decided, with the newest moment of a stream that an entry is too far behind, or the horizon.
pub(crate) fn push_decision(
    output: &mut String,
    place: u64,
    reply: &ShardReply,
) -> Result<(), Trouble> {
    let word = word_of(reply);
    write!(output, "{place} {word}")?;
    if let Some(moment) = moment_of(reply) {
        write!(output, " {moment}")?;
    }
    output.push('\n')?;
    Ok(())
}

fn moment_of(reply: &ShardReply) -> Option<u64> {
    match reply {
        ShardReply::TooFarBehind { newest } => Some(newest.get()),
        ShardReply::Expired { horizon } => Some(horizon.get()),
        _ => None,
    }
}

/// The name of what a shard replied.
pub(crate) fn word_of(reply: &ShardReply) -> &'static str {
    match reply {
        ShardReply::Accepted => "Accepted",
        ShardReply::Done => "Done",
        ShardReply::Full => "Full",
        ShardReply::TooFarBehind { .. } => "TooFarBehind",
        ShardReply::Expired { .. } => "Expired",
        ShardReply::IdTaken => "IdTaken",
        ShardReply::RequestsFull => "RequestsFull",
        ShardReply::NoSuchRequest => "NoSuchRequest",
        ShardReply::AlreadyProcessed => "AlreadyProcessed",
        ShardReply::WasCancelled => "WasCancelled",
        ShardReply::TooEarly => "TooEarly",
        ShardReply::Collected(_) => "Collected",
    }
}

// What was committed, with what a tail says of it.
fn push_commit(output: &mut String, answer: &Committed) -> Result<(), Trouble> {
    let evaluation = answer.evaluation.get();
    write!(output, "{} committed, places", answer.number)?;
    push_numbers(output, evaluation.places.as_slice())?;
    output.push_str(", behind")?;
    push_numbers(output, answer.behind.as_slice())?;
    output.push('\n')?;
    push_evaluation(output, Some(evaluation))
}

// The sinks that are still behind.
fn push_caught_up(output: &mut String, behind: &[u64]) -> Result<(), Trouble> {
    output.push_str("caught up, behind")?;
    push_numbers(output, behind)?;
    output.push('\n')?;
    Ok(())
}

// Numbers, each after a space.
fn push_numbers(output: &mut String, numbers: &[u64]) -> Result<(), Trouble> {
    for number in numbers {
        write!(output, " {number}")?;
    }
    Ok(())
}

// What a tail says of an evaluation.
fn push_evaluation(output: &mut String, evaluation: Option<&Evaluation>) -> Result<(), Trouble> {
    let Some(evaluation) = evaluation else {
        return push_value(output, &"None");
    };
    let text = evaluation_text(*output.allocator(), SinkKind::Tail, evaluation)?;
    output.push_str(text.as_str())?;
    Ok(())
}

// A refusal as it is, and in words.
fn push_refusal<F: Debug + Display>(output: &mut String, fault: &F) -> Result<(), Trouble> {
    writeln!(output, "refused {fault:?}: {fault}")?;
    Ok(())
}

// What a look-up finds in a world.
fn look_at(
    output: &mut String,
    world: &mut World<Kept, Sunk>,
    word: &str,
    rest: &str,
) -> Result<(), Trouble> {
    let (group, rest) = words_of(rest);
    match word {
        "groups" => push_value(output, &world.groups()),
        "close" => Ok(writeln!(output, "{} not written", world.close_sinks())?),
        "store" => push_store(output, world, number_in(group)? as usize),
        "meter" => push_meter(output, world, number_in(group)? as usize),
        "live" => push_live(output, world, number_in(group)? as usize, rest),
        _ => match world.book(number_in(group)? as usize) {
            Some(book) => look(output, book, word, rest),
            None => push_value(output, &"None"),
        },
    }
}

// How many chunks the store of a shard has, and how often it was read.
fn push_store(
    output: &mut String,
    world: &World<Kept, Sunk>,
    number: usize,
) -> Result<(), Trouble> {
    let Some(shard) = world.shard(number) else {
        return push_value(output, &"None");
    };
    let store = shard.store().inner();
    writeln!(output, "{} chunks, {} reads", store.len(), store.reads())?;
    Ok(())
}

// How many lines went through pipelines for the windows of a shard, and how many buckets of these were visited.
fn push_meter(
    output: &mut String,
    world: &World<Kept, Sunk>,
    number: usize,
) -> Result<(), Trouble> {
    let Some(shard) = world.shard(number) else {
        return push_value(output, &"None");
    };
    let meter = shard.meter();
    writeln!(output, "{} runs, {} visits", meter.runs(), meter.visits())?;
    Ok(())
}

// Whether windows of a shard answer a question: the number of a slot, a moment and a query, as a step `collect` has them.
fn push_live(
    output: &mut String,
    world: &World<Kept, Sunk>,
    number: usize,
    question: &str,
) -> Result<(), Trouble> {
    let step = shard::step_in(*output.allocator(), "collect", question)?;
    let is_live = is_live(world.shard(number), &step);
    mem::forget(step);
    push_value(output, &is_live)
}

fn is_live(shard: Option<&Shard<Kept>>, step: &ShardStep) -> bool {
    match (shard, step) {
        (Some(shard), ShardStep::Collect { slot, terms, t }) => {
            shard.is_live(*slot, terms.list().get(), *t)
        }
        _ => false,
    }
}

// What a look-up finds in a book: its group, the group as it began, the alerts of each rule, whether it is due, an item of
// its history, what a tail says of an evaluation, the SHA-256 of that, or how many texts a sink has taken and one that it keeps.
fn look(output: &mut String, book: &Book<Sunk>, word: &str, rest: &str) -> Result<(), Trouble> {
    let (first, second) = words_of(rest);
    match word {
        "group" => push_group(output, book),
        "first" => push_count(output, "", book.first_group()),
        "alerts" => push_alerts(output, book.alerts()),
        "due" => push_value(output, &book.due(moment_in(first)?)),
        "item" => push_item(output, book.item(number_in(first)?)),
        "evaluation" => push_evaluation(output, book.evaluation(number_in(first)?)),
        "mark" => push_digest(output, book.mark(number_in(first)?)),
        "show" => push_kept(output, book, number_in(first)? as usize, number_in(second)?),
        _ => Err(Trouble::BadInput),
    }
}

fn push_count(output: &mut String, before: &str, group: &Group) -> Result<(), Trouble> {
    writeln!(output, "{before}{} rules", group.rules.len())?;
    Ok(())
}

// How many texts a sink has taken, and one that it keeps.
fn push_kept(
    output: &mut String,
    book: &Book<Sunk>,
    sink: usize,
    index: u64,
) -> Result<(), Trouble> {
    let (count, text) = (book.sink_count(sink), book.sink_text(sink, index));
    writeln!(output, "{count:?} {text:?}")?;
    Ok(())
}

// The alerts of each rule, each after the number of the rule.
fn push_alerts(output: &mut String, rules: &[KeptRule]) -> Result<(), Trouble> {
    writeln!(output, "of {} rules", rules.len())?;
    for (number, kept) in rules.iter().enumerate() {
        for alert in kept.alerts().as_slice() {
            push_alert(output, number, alert)?;
        }
    }
    Ok(())
}

fn push_alert(output: &mut String, number: usize, alert: &Alert) -> Result<(), Trouble> {
    let (state, labels, active_at) = (alert.state, &alert.labels, alert.active_at.get());
    let (numerator, denominator) = (alert.value.numerator, alert.value.denominator);
    write!(
        output,
        "{number} {state:?} {labels} {numerator}/{denominator} since {active_at}"
    )?;
    if let Some(fired) = alert.fired {
        write!(output, " fired {}", fired.get())?;
    }
    output.push('\n')?;
    Ok(())
}

fn push_item(output: &mut String, item: Option<&Item>) -> Result<(), Trouble> {
    match item {
        Some(Item::Edited(group)) => push_count(output, "edited to ", group.get()),
        Some(Item::Evaluated(evaluation)) => push_evaluation(output, Some(evaluation.get())),
        None => push_evaluation(output, None),
    }
}

// The name of a book's group, the number under which it asks, and its terms.
fn push_group(output: &mut String, book: &Book<Sunk>) -> Result<(), Trouble> {
    writeln!(output, "{}, slot {}", book.group().name, book.slot())?;
    for term in book.terms().list().get().as_slice() {
        let text = print_term(*output.allocator(), term)?;
        push_value(output, &text)?;
    }
    Ok(())
}

/// A book, and how many shards it asks.
#[derive(Drop)]
pub(crate) struct Asking {
    pub(crate) book: Book<Sunk>,
    pub(crate) shards: usize,
    ghost same: { book.shards ≡ shards },
}

impl Asking {
    /// Writes what the book answers to each line.
    pub(crate) fn push_calls(&mut self, output: &mut String, lines: &str) -> Result<(), Trouble> {
        for line in lines.split('\n') {
            self.push_call(output, line)?;
        }
        Ok(())
    }

    fn push_call(&mut self, output: &mut String, line: &str) -> Result<(), Trouble> {
        let (word, rest) = words_of(line);
        match word {
            "begin" => push_answer(output, &self.book.begin(moment_in(rest)?)),
            "edit" => self.edit(output, rest),
            "asks" => self.push_asked(output, number_in(rest)? as usize),
            "put" => self.put_nothing(output, rest),
            "commit" => self.commit(output),
            "abandon" => push_answer(output, &self.book.abandon()),
            "catch" => self.catch_up(output),
            "close" => Ok(writeln!(output, "{} not written", self.book.close_sinks())?),
            _ => look(output, &self.book, word, rest),
        }
    }

    fn commit(&mut self, output: &mut String) -> Result<(), Trouble> {
        match self.book.commit() {
            Ok(answer) => push_commit(output, &answer),
            Err(error) => push_refusal(output, &error),
        }
    }

    fn catch_up(&mut self, output: &mut String) -> Result<(), Trouble> {
        let behind = self.book.catch_up()?;
        push_caught_up(output, behind.as_slice())
    }

    // The moment at which a shard is to be asked.
    fn push_asked(&self, output: &mut String, shard: usize) -> Result<(), Trouble> {
        if shard >= self.shards {
            return Err(Trouble::BadInput);
        }
        push_answer(output, &self.book.asks(shard))
    }

    // Edits the group under its name.
    fn edit(&mut self, output: &mut String, file: &str) -> Result<(), Trouble> {
        let to = Group::read(*output.allocator(), file)?;
        if !to.name.is_same(&self.book.group().name) {
            return Err(Trouble::BadInput);
        }
        let to = Shared::new(*output.allocator(), to)?;
        push_answer(output, &self.book.edit(to))
    }

    // Hands in what a shard shows of no term, at a place.
    fn put_nothing(&mut self, output: &mut String, words: &str) -> Result<(), Trouble> {
        let (shard, place) = words_of(words);
        let (shard, place) = (number_in(shard)? as usize, number_in(place)?);
        if shard >= self.shards || self.book.terms().list().get().len() > 0 {
            return Err(Trouble::BadInput);
        }
        let nothing = PlainList::new(*output.allocator());
        push_answer(output, &self.book.put_partials(shard, place, nothing))
    }
}

// What a call is answered.
fn push_answer<T, F>(output: &mut String, answer: &Result<T, F>) -> Result<(), Trouble>
where
    T: Debug,
    F: Debug + Display,
{
    match answer {
        Ok(taken) => {
            writeln!(output, "Ok({taken:?})")?;
            Ok(())
        }
        Err(fault) => push_refusal(output, fault),
    }
}
