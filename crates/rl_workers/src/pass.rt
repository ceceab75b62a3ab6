//! What a caller holds of a ruler.
ghost use Rattle.std.specs.Prelude.{◌≡◌, ◌+◌, ◌<◌, ◌≤◌, ◌++◌, ◌∷◌, [], OnOk};
ghost use Rattle.rl_workers.specs.Receipts.{HasKept, HasReceived};

use crate::crew::Crew;
use rl_audit::{Carrier, Note, Receipt};
use std::alloc::{AllocError, Global};
use std::marker::Model;
use std::sync::ledger::Share;

/// A caller's receipts and notes, in the order in which they came. Contracts see both, and how many more there is room for.
#[derive(Drop)]
pub struct Pass<P: Crew> {
    pub(crate) receipts: Vec<Receipt>,
    pub(crate) notes: Vec<Note>,
    pub(crate) share: Share<P>,
}

impl<P: Crew> Model for Pass<P> {
    ghost use Rattle.std.specs.Prelude.{◌≡◌, ◌-◌, length, vec_capacity};
    ghost use Rattle.rl_workers.specs.Receipts.{PassView};
    ghost use Rattle.rl_labels.specs.LabelSet.{label_set_code};
    ghost use Rattle.rl_query.specs.contracts.label_test.LabelTests as tests_type;
    ghost use Rattle.std.specs.Coded.{codes};

    ghost Value = { PassView };

    ghost coded = { Prim.hlevel (codes, label_set_code, tests_type.the_row.coded) };

    ghost view = { λ a. record { receipts = a.receipts.items; notes = a.notes.items; receipt_room = vec_capacity a.receipts - length a.receipts.items; note_room = vec_capacity a.notes - length a.notes.items } };

    ghost invariant = { λ a. (a.share.parts ≡ 1) × (a.share.amount ≡ length a.receipts.items) };
}

impl<P: Crew> Pass<P> {
    // A pass without receipts and notes.
    pub(crate) fn new(alloc: Global, share: Share<P>) -> Self
        requires share { (share.parts ≡ 1) × (share.amount ≡ 0) }
        ensures { (result.receipts ≡ []) × (result.notes ≡ []) }
    {
        Pass {
            receipts: Vec::new(alloc),
            notes: Vec::new(alloc),
            share,
        }
    }

    // Makes room for so many receipts and notes more.
    pub(crate) fn reserve(&mut self, receipts: usize, notes: usize) -> Result<(), AllocError>
        ensures kept { HasKept self.old self.new }
        ensures room { OnOk result ((receipts ≤ self.new.receipt_room) × (notes ≤ self.new.note_room)) }
    {
        self.receipts.reserve(receipts)?;
        self.notes.reserve(notes)
    }

    // Takes a note, for which there is room.
    pub(crate) fn note(&mut self, note: Note)
        requires { 0 < self.old.note_room }
        ensures receipts { self.new.receipts ≡ self.old.receipts }
        ensures notes { self.new.notes ≡ self.old.notes ++ note ∷ [] }
    {
        self.notes.push_reserved(note);
    }
}

impl<P: Crew> Carrier for Pass<P> {
    ghost receipts = { λ pass. pass.receipts };

    ghost notes = { λ pass. pass.notes };

    fn receipts(&self) -> &[Receipt] {
        &self.receipts
    }

    fn notes(&self) -> &[Note] {
        &self.notes
    }
}
