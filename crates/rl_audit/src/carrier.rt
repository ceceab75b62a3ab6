//! Who carries receipts and notes.
ghost use Rattle.std.specs.Prelude.{◌≡◌, List};
ghost use Rattle.rl_audit.specs.declared.receipt.Note.{Note};
ghost use Rattle.rl_audit.specs.declared.receipt.Receipt.{Receipt};

use crate::receipt::{Note, Receipt};

/// What a caller came away with.
pub trait Carrier {
    ghost receipts: { Self → List Receipt };

    ghost notes: { Self → List Note };

    /// The receipts, in the order in which they came.
    fn receipts(&self) -> &[Receipt]
        ensures { result.now ≡ receipts self.now };

    /// The notes, in the order in which they came.
    fn notes(&self) -> &[Note]
        ensures { result.now ≡ notes self.now };
}
