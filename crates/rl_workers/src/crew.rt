//! Ledgers of which facts can say how many parts they have.
ghost use Rattle.std.specs.Prelude.{ℕ};

use std::marker::Brand;
use std::sync::ledger::Ledger;

/// The ledger of what shards record, with a part for each of them, or of what callers receive, with a part for each caller.
pub trait Crew: Ledger {
    /// How many parts it has.
    ghost all: { ℕ };
}

impl Crew for Brand {
    ghost all = { 0 };
}
