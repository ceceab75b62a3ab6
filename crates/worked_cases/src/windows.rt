//! Windows that run, and a plain list of lines that LogQL adds up anew.
//!
//! The first line of an input is a query, whose range the window has. The second has how many turns there are, the most lines
//! of the window, the time between most timestamps, and a number from which turns are drawn.
ghost use Rattle.std.specs.Prelude.{◌≡◌, IfOk};
ghost use Rattle.rl_windows.specs.Buckets.{IsShort};

use crate::chunks::Draws;
use crate::given::{entry_in, moment_in, number_in, words_of};
use crate::query::query_in;
use crate::trouble::Trouble;
use rl_aggregate::{Partial, Run, Volume, scratch};
use rl_labels::entry::MAX_LINE_LEN;
use rl_labels::{Entry, Ns, SECOND};
use rl_pipeline::Meter;
use rl_plain::{Same, Shared, TryCopy};
use rl_query::Term;
use rl_windows::{Element, Window};
use std::alloc::{AllocError, Global};
use std::mem;

pub(crate) fn answer(output: &mut String, directive: &str, input: &str) -> Result<(), Trouble> {
    match directive {
        "random" => random(output, input),
        _ => Err(Trouble::NoSuchDirective),
    }
}

// After how many turns a window answers as the list, and whether each kind of turn came often.
fn random(output: &mut String, input: &str) -> Result<(), Trouble> {
    let (query, settings) = input.split_once('\n').ok_or(Trouble::BadInput)?;
    let query = query_in(*output.allocator(), query)?;
    let ended = push_turns(output, &query.left, settings);
    mem::forget(query);
    ended
}

fn push_turns(output: &mut String, term: &Term, settings: &str) -> Result<(), Trouble> {
    let (count, settings) = words_of(settings);
    let (most, settings) = words_of(settings);
    let (step, seed) = words_of(settings);
    let state = number_in(seed)?;
    let mut drawn = Drawn {
        alloc: *output.allocator(),
        draws: Draws { state },
        step: moment_in(step)?.get(),
        last: moment_in("0")?,
    };
    let mut driven = Driven::new(*output.allocator(), term, number_in(most)?)?;
    driven.push_turns(output, term, &mut drawn, number_in(count)?)
}

// What is drawn for turns. Most timestamps are whole steps.
#[derive(Drop)]
struct Drawn {
    alloc: Global,
    draws: Draws,
    step: u64,
    last: Ns,
}

impl Drawn {
    // A line, often late or of the future, of one of the three series that there are about the turn.
    fn entry(&mut self, moment: Ns, number: u64) -> Result<Entry, Trouble> {
        let timestamp = self.timestamp(moment)?.get();
        let series = (number / 128).saturating_add(u64::from(self.draws.up_to(2)));
        let line = match self.draws.up_to(5) {
            0 => "{}",
            1 => "{ }",
            2 => "{    }",
            3 => "{                }",
            4 => "no JSON",
            _ => "-",
        };
        let text = format!(in self.alloc; "{timestamp} app={series} {line}")?;
        entry_in(self.alloc, text.as_str())
    }

    // The last timestamp again, or one from twelve steps before the moment to four after it, at times from long before.
    fn timestamp(&mut self, moment: Ns) -> Result<Ns, Trouble> {
        if self.draws.up_to(2) > 0 {
            self.last = self.new_timestamp(moment)?;
        }
        Ok(self.last)
    }

    fn new_timestamp(&mut self, moment: Ns) -> Result<Ns, Trouble> {
        let latest = self.whole_steps(moment).saturating_add(4);
        let greatest = if self.draws.up_to(7) == 0 { 64 } else { 16 };
        let earlier = u64::from(self.draws.up_to(greatest));
        let nanoseconds = latest.saturating_sub(earlier).saturating_mul(self.step);
        self.about(nanoseconds)
    }

    // The moment, or a later one: a nanosecond, some steps or many.
    fn later(&mut self, moment: Ns) -> Result<Ns, Trouble> {
        let steps = match self.draws.up_to(31) {
            0 => return Ok(moment),
            1 => return at(moment.get().saturating_add(1)),
            2 => 8,
            3 => 40,
            _ => u64::from(self.draws.up_to(2)),
        };
        let whole = self.whole_steps(moment).saturating_add(steps);
        at(whole.saturating_mul(self.step).max(moment.get()))
    }

    fn whole_steps(&self, moment: Ns) -> u64 {
        moment.get().checked_div(self.step).unwrap_or(0)
    }

    // The timestamp, at times one beside it.
    fn about(&mut self, nanoseconds: u64) -> Result<Ns, Trouble> {
        match self.draws.up_to(7) {
            0 => at(nanoseconds.saturating_sub(1)),
            1 => at(nanoseconds.saturating_add(1)),
            _ => at(nanoseconds),
        }
    }
}

fn at(nanoseconds: u64) -> Result<Ns, Trouble> {
    Ns::new(nanoseconds).ok_or(Trouble::BadInput)
}

// What a turn does.
#[derive(Clone, Copy)]
enum Turn {
    Adds,
    FindsNoRoom,
    TakesOut,
    TakesNothing,
    MovesOn,
    MeetsNoLine,
    // Moves on by other visits than it should.
    Differs,
}

// How many turns of each kind there were, and after how many the partial had several label sets and an error.
#[derive(Clone, Copy)]
struct TurnCounts {
    added: u64,
    full: u64,
    taken: u64,
    absent: u64,
    moved: u64,
    mixed: u64,
}

impl TurnCounts {
    fn new() -> TurnCounts {
        TurnCounts {
            added: 0,
            full: 0,
            taken: 0,
            absent: 0,
            moved: 0,
            mixed: 0,
        }
    }

    fn count(&mut self, turn: Turn) {
        let count = match turn {
            Turn::Adds => &mut self.added,
            Turn::FindsNoRoom => &mut self.full,
            Turn::TakesOut => &mut self.taken,
            Turn::TakesNothing => &mut self.absent,
            Turn::MovesOn => &mut self.moved,
            Turn::MeetsNoLine | Turn::Differs => return,
        };
        *count = count.saturating_add(1);
    }

    fn is_each_often(self) -> bool {
        let outside = self.full.min(self.absent);
        let within = self.added.min(self.taken);
        outside.min(within).min(self.moved).min(self.mixed) >= 50
    }
}

// A window, its moment, and the lines that were added and not taken out.
#[derive(Drop)]
struct Driven {
    window: Window,
    moment: Ns,
    lines: Vec<Shared<Entry>>,
    most: u64,
    ghost at: { window.moment ≡ moment },
}

impl Driven {
    fn new(alloc: Global, term: &Term, most: u64) -> Result<Driven, Trouble> {
        if most > 1_000 {
            return Err(Trouble::BadInput);
        }
        let moment = moment_in("0")?;
        Ok(Driven {
            window: Window::new(alloc, term.range.seconds, moment, most),
            moment,
            lines: Vec::new(alloc),
            most,
        })
    }

    fn push_turns(
        &mut self,
        output: &mut String,
        term: &Term,
        drawn: &mut Drawn,
        count: u64,
    ) -> Result<(), Trouble> {
        let mut counts = TurnCounts::new();
        let mut same = 0u64;
        for number in 0..count {
            let turn = self.take(drawn, number, range_of(term))?;
            counts.count(turn);
            let is_same = self.is_as_list(term, drawn.timestamp(self.moment)?, &mut counts)?;
            if is_same && !matches!(turn, Turn::Differs) {
                same = same.saturating_add(1);
            }
        }
        let is_varied = counts.is_each_often();
        writeln!(
            output,
            "{same} of {count}; each kind came often: {is_varied}"
        )?;
        Ok(())
    }

    // Takes a turn.
    fn take(&mut self, drawn: &mut Drawn, number: u64, range: u64) -> Result<Turn, Trouble> {
        match drawn.draws.up_to(15) {
            0..=8 => self.add(drawn.entry(self.moment, number)?),
            9 | 10 => self.take_out(&drawn.entry(self.moment, number)?),
            11 | 12 => self.take_one(drawn),
            _ => self.move_on(drawn.later(self.moment)?, range),
        }
    }

    // Adds a line, where there is room.
    fn add(&mut self, entry: Entry) -> Result<Turn, Trouble> {
        if !self.window.has_room() {
            return Ok(Turn::FindsNoRoom);
        }
        self.window.add(&element_of(&entry)?)?;
        let alloc = *self.lines.allocator();
        self.lines.push(Shared::new(alloc, entry)?)?;
        Ok(Turn::Adds)
    }

    // Takes a line out that may not be there. One that is not is asked for only where it cannot be there.
    fn take_out(&mut self, entry: &Entry) -> Result<Turn, Trouble> {
        if let Some(index) = index_of(&self.lines, entry) {
            return self.take_at(index);
        }
        if cannot_have(&self.lines, entry) {
            self.window.take_out(&element_of(entry)?);
        }
        Ok(Turn::TakesNothing)
    }

    // Takes one of the last lines out.
    fn take_one(&mut self, drawn: &mut Drawn) -> Result<Turn, Trouble> {
        let last = self.lines.len().saturating_sub(1);
        self.take_at(last.saturating_sub(drawn.draws.up_to(15) as usize))
    }

    fn take_at(&mut self, index: usize) -> Result<Turn, Trouble> {
        if index >= self.lines.len() {
            return Ok(Turn::TakesNothing);
        }
        let line = self.lines.swap_remove(index);
        self.window.take_out(&element_of(line.get())?);
        Ok(Turn::TakesOut)
    }

    fn move_on(&mut self, to: Ns, range: u64) -> Result<Turn, Trouble> {
        if to < self.moment {
            return Err(Trouble::BadInput);
        }
        let wanted = visits(&self.lines, range, self.moment, to)?;
        let mut meter = Meter::new();
        self.window.slide(to, &mut meter)?;
        self.moment = to;
        forget_old(&mut self.lines, range, to);
        Ok(match wanted {
            _ if meter.visits() != wanted => Turn::Differs,
            0 => Turn::MeetsNoLine,
            _ => Turn::MovesOn,
        })
    }

    // Whether the window answers as its lines do.
    fn is_as_list(
        &mut self,
        term: &Term,
        probe: Ns,
        counts: &mut TurnCounts,
    ) -> Result<bool, Trouble> {
        if self.lines.len() > 100_000 {
            return Err(Trouble::BadInput);
        }
        let anew = scratch(*self.lines.allocator(), &self.lines, term, self.moment)?;
        let shown = self.window.partial()?;
        let needed = count_needed(&self.lines, range_of(term), self.moment);
        let is_same = is_same_partial(shown.get(), &anew, counts);
        let has_room = self.window.has_room() == (needed < self.most);
        let needs = self.window.needs(probe) == is_needed(probe, range_of(term), self.moment);
        Ok(is_same && has_room && needs)
    }
}

// The range of a term, in nanoseconds.
fn range_of(term: &Term) -> u64 {
    term.range.seconds.saturating_mul(SECOND)
}

// What a line counts as: a line is sound JSON without a value, or has an error.
fn element_of(entry: &Entry) -> Result<Element, AllocError>
    ensures one { IfOk result (λ element. element.volume.count ≡ 1) }
    ensures short { IfOk result (λ element. IsShort element.volume) }
{
    let volume = Volume {
        count: 1,
        bytes: entry.line.len() as u64,
    };
    let labels = if has_error(entry) {
        None
    } else {
        Some(entry.labels.try_copy()?)
    };
    Ok(Element::new(entry.timestamp, Run { labels, volume }))
}

fn has_error(entry: &Entry) -> bool {
    !entry.line.as_str().starts_with('{')
}

// Whether two lines count alike.
fn is_alike(entry: &Entry, other: &Entry) -> bool {
    if entry.timestamp != other.timestamp || has_error(entry) != has_error(other) {
        return false;
    }
    has_error(entry) || entry.labels == other.labels
}

fn index_of(lines: &[Shared<Entry>], entry: &Entry) -> Option<usize> {
    for (index, line) in lines.iter().enumerate() {
        if line.get() == entry {
            return Some(index);
        }
    }
    None
}

// Whether the line cannot be one of those that count alike: there is none, they have fewer bytes, or more would be left than
// the others can have.
fn cannot_have(lines: &[Shared<Entry>], entry: &Entry) -> bool {
    let own = entry.line.len() as u64;
    let mut count = 0u64;
    let mut bytes = 0u64;
    for line in lines {
        if is_alike(line.get(), entry) {
            count = count.saturating_add(1);
            bytes = bytes.saturating_add(line.get().line.len() as u64);
        }
    }
    let longest = count.saturating_sub(1).saturating_mul(MAX_LINE_LEN as u64);
    count == 0 || bytes < own || bytes.saturating_sub(own) > longest
}

fn is_needed(timestamp: Ns, range: u64, moment: Ns) -> bool {
    moment.get() < timestamp.get().saturating_add(range)
}

// Lets go of lines that were needed a range before and longer ago.
fn forget_old(lines: &mut Vec<Shared<Entry>>, range: u64, moment: Ns) {
    for index in (0..lines.len()).rev() {
        if index < lines.len()
            && !is_needed(
                lines[index].get().timestamp,
                range.saturating_mul(2),
                moment,
            )
        {
            lines.swap_remove(index);
        }
    }
}

fn count_needed(lines: &[Shared<Entry>], range: u64, moment: Ns) -> u64 {
    let mut count = 0u64;
    for line in lines {
        if is_needed(line.get().timestamp, range, moment) {
            count = count.saturating_add(1);
        }
    }
    count
}

// How many different timestamps come due on the way to a later moment, and how many leave.
fn visits(lines: &Vec<Shared<Entry>>, range: u64, from: Ns, to: Ns) -> Result<u64, AllocError> {
    let mut seen = Vec::new(*lines.allocator());
    for line in lines {
        let timestamp = line.get().timestamp;
        if from < timestamp && timestamp <= to {
            push_once(&mut seen, (timestamp, true))?;
        }
        if is_needed(timestamp, range, from) && !is_needed(timestamp, range, to) {
            push_once(&mut seen, (timestamp, false))?;
        }
    }
    Ok(seen.len() as u64)
}

fn push_once(seen: &mut Vec<(Ns, bool)>, one: (Ns, bool)) -> Result<(), AllocError> {
    if !seen.contains(&one) {
        seen.push(one)?;
    }
    Ok(())
}

// Whether the partials are one. It is counted where they have several label sets and an error.
fn is_same_partial(shown: &Partial, anew: &Partial, counts: &mut TurnCounts) -> bool {
    if anew.errors > 0 && anew.totals.len() > 1 {
        counts.mixed = counts.mixed.saturating_add(1);
    }
    shown.is_same(anew)
}
