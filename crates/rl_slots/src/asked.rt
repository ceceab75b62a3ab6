//! Slots that are asked about many lines while they stay as they are.
ghost use Rattle.std.specs.Prelude.{◌≡◌, ◌++◌, OnOk};
ghost use Rattle.rl_windows.specs.Ranges.{HasRuns};
ghost use Rattle.rl_slots.specs.Slots.{changes_of, term_count};

use crate::change::Change;
use crate::slot::Slot;
use crate::table::list_by;
use crate::window_index::WindowIndex;
use indexmap::IndexMap;
use rl_labels::{Labels, Ns};
use rl_pipeline::{Meter, ParsedLine};
use rl_plain::PlainList;
use std::alloc::{AllocError, Global};
use std::marker::Model;

/// Slots that are borrowed, with a table of their own by streams. Contracts see the slots.
#[derive(Drop)]
pub struct AskedSlots<'a> {
    slots: &'a [Slot],
    table: IndexMap<Labels, PlainList<WindowIndex>>,
}

impl<'a> Model for AskedSlots<'a> {
    ghost use Rattle.std.specs.Prelude.{List};
    ghost use Rattle.std.specs.Coded.{coded_list};
    ghost use Rattle.rl_slots.specs.Slots.{slot_code, IsTable, SlotView};

    ghost Value = { List SlotView };

    ghost coded = { coded_list slot_code };

    ghost view = { λ a. a.slots.now };

    ghost invariant = { λ a. IsTable a.slots.now a.table.entries };
}

impl<'a> AskedSlots<'a> {
    // Slots whose windows were not asked yet.
    pub(crate) fn new(alloc: Global, slots: &'a [Slot]) -> AskedSlots<'a>
        ensures { result ≡ slots.now }
    {
        AskedSlots {
            slots,
            table: IndexMap::new(alloc),
        }
    }

    /// Lists what a line changes in all windows, as `Slots::list` does.
    pub fn list(
        &mut self,
        meter: &mut Meter,
        line: &mut ParsedLine<'_>,
        timestamp: Ns,
        changes: &mut Vec<Change>,
    ) -> Result<(), AllocError>
        ensures listed { OnOk result (changes.new.items ≡ changes.old.items ++ changes_of line.old timestamp self.old) }
        ensures same { self.new ≡ self.old }
        ensures runs { HasRuns (term_count self.old) meter.old meter.new }
        ensures line { line.new ≡ line.old }
    {
        list_by(&mut self.table, self.slots, meter, line, timestamp, changes)
    }
}
