//! What lines add up to, with the copy that was shown last.
ghost use Rattle.std.specs.Prelude.{◌≡◌, IfOk, OnErr, OnOk};
ghost use Rattle.std.specs.FinMap as map;
ghost use Rattle.rl_aggregate.specs.Partials.{Fits};
ghost use Rattle.rl_aggregate.specs.Runs.{with_volume, IsOneLess, IsOneMore};

use rl_aggregate::{Partial, Volume};
use rl_labels::Labels;
use rl_plain::{Shared, TryCopy};
use std::alloc::{AllocError, Global};
use std::marker::Model;

// What lines add up to. Contracts see the partial.
#[derive(Drop)]
pub(crate) struct Found {
    alloc: Global,
    sum: Partial,
    // The copy that was shown last, where nothing has changed since.
    shown: Option<Shared<Partial>>,
}

impl Model for Found {
    ghost use Rattle.std.specs.Prelude.{◌≡◌, IfSome};
    ghost use Rattle.rl_aggregate.specs.declared.partial.Partial.{Partial};
    ghost use Rattle.rl_aggregate.specs.contracts.partial.Partial as partial_type;

    ghost Value = { Partial };

    ghost coded = { partial_type.the_row.coded };

    ghost view = { λ a. a.sum };

    ghost invariant = { λ a. IfSome a.shown (λ shown. shown ≡ a.sum) };
}

impl Found {
    // What no line adds up to.
    pub(crate) fn new(alloc: Global) -> Self
        ensures { result ≡ record { errors = 0; totals = map.empty } }
    {
        Found {
            alloc,
            sum: Partial::empty(alloc),
            shown: None,
        }
    }

    // Adds lines. Refused, it stays as it was.
    pub(crate) fn add(&mut self, labels: &Option<Labels>, volume: Volume) -> Result<(), AllocError>
        requires { Fits (with_volume labels.now volume self.old) }
        ensures err { OnErr result (self.new ≡ self.old) }
        ensures one_more { OnOk result (IsOneMore (record { labels = labels.now; volume = volume }) self.old self.new) }
    {
        self.sum.add(labels, volume)?;
        self.shown = None;
        Ok(())
    }

    // Takes lines out, if there are at least these. Takes no memory.
    pub(crate) fn take_out(&mut self, labels: &Option<Labels>, volume: Volume)
        ensures { IsOneLess (record { labels = labels.now; volume = volume }) self.old self.new }
    {
        self.sum.take_out(labels, volume);
        self.shown = None;
    }

    // The partial. It is copied where something has changed since it was shown.
    pub(crate) fn shared(&mut self) -> Result<Shared<Partial>, AllocError>
        ensures shown { IfOk result (λ shown. shown ≡ self.old) }
        ensures same { self.new ≡ self.old }
    {
        if let Some(shown) = &self.shown {
            return shown.try_copy();
        }
        let shown = Shared::new(self.alloc, self.sum.try_copy()?)?;
        let copy = shown.try_copy()?;
        self.shown = Some(shown);
        Ok(copy)
    }
}
