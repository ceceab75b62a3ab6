//! A shard without its journal, as one value.
ghost use Rattle.std.specs.Prelude.{◌≡◌, ◌≤◌, length};

use crate::collecting::show_few;
use rl_chunks::Store;
use rl_deletes::{Horizon, Requests};
use rl_labels::{Limits, Ns};
use rl_pipeline::Meter;
use rl_plain::PlainList;
use rl_query::Term;
use rl_slots::Slots;
use rl_streams::Streams;
use std::alloc::Global;
use std::marker::Model;

// What the steps of a shard change. Contracts see a `PartsView`.
#[derive(Drop)]
pub(crate) struct ShardParts<S: Store> {
    pub(crate) alloc: Global,
    pub(crate) streams: Streams<S>,
    pub(crate) requests: Requests,
    pub(crate) horizon: Horizon,
    // The windows of the ranges that groups ask about, and what they cost.
    pub(crate) slots: Slots,
    pub(crate) meter: Meter,
}

impl<S: Store> Model for ShardParts<S> {
    ghost use Rattle.std.specs.Prelude.{◌≤◌};
    ghost use Rattle.rl_chunks.specs.StoreState.{greatest};
    ghost use Rattle.rl_shard.specs.ShardState.{PartsView, parts_code};
    ghost use Rattle.rl_shard.specs.Live.{AreRight};

    ghost Value = { PartsView };

    ghost coded = { parts_code };

    ghost view = { λ a. record { streams = a.streams; requests = a.requests; horizon = a.horizon; slots = a.slots; meter = a.meter } };

    ghost invariant = { λ a. (a.streams.next ≤ greatest) × AreRight a.streams a.requests a.slots };
}

impl<S: Store> ShardParts<S> {
    ghost use Rattle.std.specs.Bool.{Decides};
    ghost use Rattle.rl_chunks.specs.StoreState.{greatest};
    ghost use Rattle.rl_slots.specs.Slots.{IsLiveIn};
    ghost use Rattle.rl_shard.specs.ShardState.{opened_over, parts_of, state_of, visible};

    // Those of a shard that holds nothing.
    pub(crate) fn new(alloc: Global, store: S, limits: Limits) -> Self
        ensures { result ≡ parts_of (opened_over limits (S.seen store)) }
    {
        ShardParts {
            alloc,
            requests: Requests::new(alloc, &limits),
            streams: Streams::new(alloc, store, limits),
            horizon: Horizon::first(),
            slots: Slots::new(alloc),
            meter: Meter::new(),
        }
    }

    pub(crate) fn streams(&self) -> &Streams<S>
        ensures { result.now ≡ self.now.streams }
    {
        &self.streams
    }

    // Whether the windows of a slot answer terms at a moment.
    pub(crate) fn is_live(&self, slot: u64, terms: &PlainList<Term>, t: Ns) -> bool
        ensures { Decides result (IsLiveIn slot terms.now t self.now.slots) }
    {
        self.slots.live(slot, terms, t).is_some()
    }

    // What windows cost so far.
    pub(crate) fn meter(&self) -> &Meter
        ensures { result.now ≡ self.now.meter }
    {
        &self.meter
    }

    // Shows contracts that no more is visible than may be held, and that the next number is one of 64 bits.
    pub(crate) fn show_bounds(&self)
        ensures numbers { self.now.streams.next ≤ greatest }
        ensures few { length (visible (state_of self.now)) ≤ self.now.streams.limits.entries }
    {
        show_few(&self.streams, &self.requests);
    }
}
