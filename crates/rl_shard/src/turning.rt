//! What entries that a step hides or shows change in the windows.
ghost use Rattle.std.specs.Prelude.{◌≡◌, ◌++◌, [], true, IfOk, OnOk, if◌then◌else◌};
ghost use Rattle.std.specs.List.{AllByRecursion};
ghost use Rattle.rl_labels.specs.declared.entry.Entry.{Entry};
ghost use Rattle.rl_parts.specs.StoreUse.{Right, after_read};
ghost use Rattle.rl_slots.specs.Slots.{changes_of, IsOfLine};
ghost use Rattle.rl_streams.specs.StreamsState.{Looks};
ghost use Rattle.rl_shard.specs.Turning.{with_line, AreTurned, IsWithin};

use rl_chunks::Store;
use rl_labels::{Covers, Labels, Matcher, Ns, TimeRange};
use rl_parts::{ReadFault, Visitor};
use rl_pipeline::{Meter, ParsedLine};
use rl_plain::PlainList;
use rl_slots::{AskedSlots, Change, Slots};
use rl_streams::Streams;
use std::alloc::{AllocError, Global};
use std::marker::Model;

// Changes, and what listing them costs. Contracts see the changes.
#[derive(Drop)]
pub(crate) struct Listing {
    pub(crate) changes: Vec<Change>,
    pub(crate) meter: Meter,
}

impl Model for Listing {
    ghost use Rattle.std.specs.Prelude.{List};
    ghost use Rattle.std.specs.Coded.{coded_list};
    ghost use Rattle.rl_slots.specs.contracts.change.Change as change;
    ghost use Rattle.rl_slots.specs.declared.change.Change.{Change};

    ghost Value = { List Change };

    ghost coded = { coded_list change.the_row.coded };

    ghost view = { λ a. a.changes.items };
}

impl Listing {
    // No changes, and what was counted so far.
    pub(crate) fn new(alloc: Global, meter: Meter) -> Listing
        ensures { result ≡ [] }
    {
        Listing {
            changes: Vec::new(alloc),
            meter,
        }
    }

    // Lists what a line changes in the windows.
    fn add(
        &mut self,
        slots: &mut AskedSlots<'_>,
        labels: &Labels,
        timestamp: Ns,
        text: &str,
    ) -> Result<(), AllocError>
        ensures listed { OnOk result (self.new ≡ self.old ++ changes_of (record { labels = labels.now; text = text.now }) timestamp slots.old) }
        ensures same { slots.new ≡ slots.old }
    {
        let mut line = ParsedLine::new(labels, text);
        slots.list(&mut self.meter, &mut line, timestamp, &mut self.changes)
    }
}

// Lists what each visited line that turns changes in the windows.
#[derive(Drop)]
struct Lister<'a, C: Covers> {
    slots: AskedSlots<'a>,
    turning: &'a C,
    listing: Listing,
}

impl<'a, C: Covers> Visitor for Lister<'a, C> {
    ghost visiting = { λ lister line. if C.covers_line lister.turning.now line.0 line.1.timestamp line.1.text then record { slots = lister.slots; turning = lister.turning; listing = with_line lister.slots lister.listing line } else lister };

    fn visit(&mut self, labels: &Labels, timestamp: Ns, text: &str) -> Result<(), AllocError> {
        if !self.turning.covers_line(labels, timestamp, text)? {
            return Ok(());
        }
        self.listing.add(&mut self.slots, labels, timestamp, text)
    }
}

// What the held entries that turn change in the windows. These are of streams that the selector selects, and in the range of time.
pub(crate) fn changes_of_turned<S: Store, C: Covers>(
    streams: &mut Streams<S>,
    slots: &Slots,
    selector: &PlainList<Matcher>,
    range: TimeRange,
    turning: &C,
    listing: Listing,
) -> Result<Listing, ReadFault>
    requires within { (entry : Entry) → C.covers turning.now entry ≡ true → IsWithin selector.now range entry }
    requires empty { listing ≡ [] }
    ensures same { Looks streams.old streams.new }
    ensures faults { streams.new.seen.faults ≡ after_read result streams.old.seen.faults }
    ensures lines { IfOk result (AllByRecursion (λ change. IsOfLine change.element.volume)) }
    ensures right { streams.old.seen.honest ≡ true → Right result (AreTurned (C.covers turning.now) streams.old.held slots.now) }
{
    let first = slots.first_needed(range.to.get() + 1).max(range.from.get());
    let Some(from) = Ns::new(first) else {
        return Ok(listing);
    };
    if range.to < from {
        return Ok(listing);
    }
    let needed = TimeRange { from, to: range.to };
    let mut lister = Lister {
        slots: slots.asked(),
        turning,
        listing,
    };
    streams.each(selector, needed, &mut lister)?;
    Ok(lister.listing)
}
