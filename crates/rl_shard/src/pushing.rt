//! How windows take an entry that is pushed.
ghost use Rattle.std.specs.Prelude.{◌≡◌, ◌≤◌, [], ◌∷◌, true, false, map, IfOk, OnErr, OnOk};
ghost use Rattle.std.specs.List.{AllByRecursion};
ghost use Rattle.rl_labels.specs.Quantity.{greatest_moment};
ghost use Rattle.rl_deletes.specs.Deletes.{covered};
ghost use Rattle.rl_slots.specs.Slots.{changes_of_all, outline, term_count, with_changes, AllStand, Contents, IsOfLine};
ghost use Rattle.rl_windows.specs.Ranges.{HasRuns};
ghost use Rattle.rl_shard.specs.Live.{IsLetIn};

use rl_deletes::Requests;
use rl_labels::{Covers, Entry};
use rl_pipeline::{Meter, ParsedLine};
use rl_slots::{AddFault, Change, Slots};
use std::alloc::{AllocError, Global};

// Lets an entry into the windows that need it, unless a received request covers it, and answers what it changed. Where one of the
// windows has no room none takes it: the shard has none for it then, or its store lies.
pub(crate) fn let_in(
    alloc: Global,
    slots: &mut Slots,
    requests: &Requests,
    meter: &mut Meter,
    entry: &Entry,
) -> Result<Vec<Change>, AllocError>
    ensures let_in { OnOk result (IsLetIn requests.now entry.now slots.old slots.new) }
    ensures stand { IfOk result (λ changes. (contents : Contents) → AllStand slots.old contents → AllStand slots.new (with_changes changes.items contents)) }
    ensures refused { OnErr result ((contents : Contents) → AllStand slots.old contents → AllStand slots.new contents) }
    ensures outline { map outline slots.new ≡ map outline slots.old }
    ensures runs { HasRuns (term_count slots.old) meter.old meter.new }
    ensures timely { entry.now.timestamp ≤ greatest_moment }
{
    // Read for contracts, which learn that it is within the greatest.
    let _timestamp = entry.timestamp.get();
    let changes = changes_of(alloc, slots, requests, meter, entry)?;
    match slots.add(&changes) {
        Ok(()) => Ok(changes),
        Err(AddFault::Full) => Ok(Vec::new(alloc)),
        Err(AddFault::Memory) => Err(AllocError),
    }
}

// What an entry changes in the windows.
fn changes_of(
    alloc: Global,
    slots: &mut Slots,
    requests: &Requests,
    meter: &mut Meter,
    entry: &Entry,
) -> Result<Vec<Change>, AllocError>
    ensures covered { IfOk result (λ changes. covered requests.now entry.now ≡ true → changes.items ≡ []) }
    ensures listed { IfOk result (λ changes. covered requests.now entry.now ≡ false → changes.items ≡ changes_of_all (entry.now ∷ []) slots.old) }
    ensures lines { IfOk result (λ changes. AllByRecursion (λ change. IsOfLine change.element.volume) changes.items) }
    ensures same { slots.new ≡ slots.old }
    ensures runs { HasRuns (term_count slots.old) meter.old meter.new }
{
    let mut changes = Vec::new(alloc);
    if requests.covers(entry)? {
        return Ok(changes);
    }
    let mut line = ParsedLine::new(&entry.labels, entry.line.as_str());
    slots.list(meter, &mut line, entry.timestamp, &mut changes)?;
    Ok(changes)
}

// Takes what an entry changed out of the windows again, unless the entry was taken.
pub(crate) fn settle(slots: &mut Slots, changes: &[Change], is_taken: bool)
    ensures taken { is_taken ≡ true → slots.new ≡ slots.old }
    ensures back { is_taken ≡ false → (contents : Contents) → AllStand slots.old (with_changes changes.now contents) → AllStand slots.new contents }
    ensures outline { map outline slots.new ≡ map outline slots.old }
{
    if !is_taken {
        slots.take_out(changes);
    }
}
