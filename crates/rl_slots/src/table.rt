//! Which windows select a stream, kept for its later lines.
ghost use Rattle.std.specs.Prelude.{◌≡◌, ◌≤◌, ◌++◌, List, length, IfOk, OnOk};
ghost use Rattle.rl_windows.specs.Ranges.{HasRuns};
ghost use Rattle.rl_slots.specs.Slots.{changes_at, changes_of, selecting_from, term_count, AreSelecting, IsTable, SlotView};

use crate::change::Change;
use crate::slot::Slot;
use crate::window_index::WindowIndex;
use indexmap::IndexMap;
use rl_labels::{Labels, Ns};
use rl_pipeline::{Meter, ParsedLine};
use rl_plain::{PlainList, TryCopy};
use std::alloc::{AllocError, Global};

/// The most streams of a table. A table that has as many is begun anew.
pub const MOST_STREAMS: usize = 65_536;

// Lists what a line changes in all windows. Only those that select its stream are asked, which the table has or is given.
pub(crate) fn list_by(
    table: &mut IndexMap<Labels, PlainList<WindowIndex>>,
    slots: &[Slot],
    meter: &mut Meter,
    line: &mut ParsedLine<'_>,
    timestamp: Ns,
    changes: &mut Vec<Change>,
) -> Result<(), AllocError>
    requires { IsTable slots.now table.old.entries }
    ensures table { IsTable slots.now table.new.entries }
    ensures listed { OnOk result (changes.new.items ≡ changes.old.items ++ changes_of line.old timestamp slots.now) }
    ensures runs { HasRuns (term_count slots.now) meter.old meter.new }
    ensures line { line.new ≡ line.old }
{
    if slots.is_empty() {
        return Ok(());
    }
    if let Some(indices) = table.get(line.labels()) {
        return list_at(slots, indices.as_slice(), meter, line, timestamp, changes);
    }
    let indices = selecting(*table.allocator(), slots, line.labels())?;
    list_at(slots, indices.as_slice(), meter, line, timestamp, changes)?;
    keep(table, line.labels(), indices)
}

// Lists what a line changes in the windows at indices.
fn list_at(
    slots: &[Slot],
    indices: &[WindowIndex],
    meter: &mut Meter,
    line: &mut ParsedLine<'_>,
    timestamp: Ns,
    changes: &mut Vec<Change>,
) -> Result<(), AllocError>
    ensures listed { OnOk result (changes.new.items ≡ changes.old.items ++ changes_at line.old timestamp slots.now indices.now) }
    ensures runs { HasRuns (length indices.now) meter.old meter.new }
    ensures line { line.new ≡ line.old }
{
    for index in indices {
        let Some(slot) = slots.get(index.slot) else {
            continue;
        };
        slot.list(*index, meter, line, timestamp, changes)?;
    }
    Ok(())
}

// Where the windows are that select a stream, slot by slot.
fn selecting(
    alloc: Global,
    slots: &[Slot],
    labels: &Labels,
) -> Result<PlainList<WindowIndex>, AllocError>
    ensures { IfOk result (AreSelecting slots.now labels.now) }
{
    let mut indices = Vec::new(alloc);
    for (index, slot) in slots.iter().enumerate() {
        slot.select(index, labels, &mut indices)?;
    }
    Ok(PlainList::from_vec(indices))
}

// Keeps where the windows are that select a stream.
fn keep(
    table: &mut IndexMap<Labels, PlainList<WindowIndex>>,
    labels: &Labels,
    indices: PlainList<WindowIndex>,
) -> Result<(), AllocError>
    ensures { (slots : List SlotView) → IsTable slots table.old.entries → AreSelecting slots labels.now indices → IsTable slots table.new.entries }
{
    make_room(table);
    table.insert(labels.try_copy()?, indices)?;
    Ok(())
}

// Empties a table that has as many streams as it may have.
fn make_room(table: &mut IndexMap<Labels, PlainList<WindowIndex>>)
    ensures { (slots : List SlotView) → IsTable slots table.old.entries → IsTable slots table.new.entries }
{
    if table.len() >= MOST_STREAMS {
        table.clear();
    }
}
