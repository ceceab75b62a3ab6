//! Windows that run over the lines of a range.
ghost use Rattle.std.specs.Prelude.{◌≡◌, ◌+◌, ◌*◌, ◌≤◌, nat_le, nat_lt, false, List, [], ◌∷◌, IfOk, OnErr, OnOk, if◌then◌else◌};
ghost use Rattle.std.specs.Bool.{Decides};
ghost use Rattle.std.specs.FinMap as map;
ghost use Rattle.rl_pipeline.specs.Metering.{with_visits};
ghost use Rattle.rl_labels.specs.declared.entry.Entry.{Entry};
ghost use Rattle.rl_query.specs.Limits.{longest_range};
ghost use Rattle.rl_query.specs.declared.query.Term.{Term};
ghost use Rattle.rl_aggregate.specs.InRange.{second};
ghost use Rattle.rl_aggregate.specs.Limited.{IsWithin};
ghost use Rattle.rl_aggregate.specs.Partials.{most_entries, partial};
ghost use Rattle.rl_aggregate.specs.TotalsMap.{added, taken};
ghost use Rattle.rl_windows.specs.Buckets.{may_go, AreShort, IsShort};
ghost use Rattle.rl_windows.specs.Ranges.{code_of, elements_for};
ghost use Rattle.rl_windows.specs.Windows.{count_of, first_needed, in_range, visits, with_element, IsOfSameRange, IsSumOf, StandsFor};
ghost use Rattle.rl_windows.specs.declared.element.Element.{Element};

use crate::buckets::Buckets;
use crate::element::Element;
use crate::found::Found;
use rl_aggregate::Partial;
use rl_labels::{Ns, SECOND};
use rl_pipeline::Meter;
use rl_plain::{Shared, TryCopy};
use std::alloc::{AllocError, Global};
use std::marker::Model;

/// The lines of a range, as far as its moment and later ones need them, and what those in the range add up to at the moment.
/// Contracts see the range in seconds, the moment, the lines by stamp, and the most that there may be.
#[derive(Drop)]
pub struct Window {
    seconds: u64,
    moment: Ns,
    buckets: Buckets,
    found: Found,
    lines: u64,
    most: u64,
}

impl Model for Window {
    ghost use Rattle.rl_windows.specs.Windows.{IsWindow, WindowView, window_code};

    ghost Value = { WindowView };

    ghost coded = { window_code };

    ghost view = { λ a. record { seconds = a.seconds; moment = a.moment; buckets = a.buckets; most = a.most } };

    ghost invariant = { λ a. IsWindow a.seconds a.moment a.buckets a.found a.lines a.most };
}

impl Window {
    /// A window of a range in seconds at a moment, without a line.
    pub fn new(alloc: Global, seconds: u64, moment: Ns, most: u64) -> Window
        requires range { seconds ≤ longest_range }
        requires few { most ≤ most_entries }
        ensures new { result ≡ record { seconds = seconds; moment = moment; buckets = map.empty; most = most } }
        ensures stands { StandsFor result [] }
    {
        Window {
            seconds,
            moment,
            buckets: Buckets::new(alloc),
            found: Found::new(alloc),
            lines: 0,
            most,
        }
    }

    /// Whether a line of the timestamp counts at the moment or a later one.
    pub fn needs(&self, timestamp: Ns) -> bool
        ensures { result ≡ nat_lt self.now.moment (timestamp + self.now.seconds * second) }
    {
        is_needed(self.seconds, self.moment, timestamp.get())
    }

    /// The first timestamp that it needs, in nanoseconds.
    pub fn first_needed(&self) -> u64
        ensures { result ≡ first_needed self.now.seconds self.now.moment }
    {
        first_needed(self.seconds, self.moment)
    }

    /// Whether there may be a line more.
    pub fn has_room(&self) -> bool
        ensures { Decides result (count_of self.now.buckets + 1 ≤ self.now.most) }
    {
        self.lines < self.most
    }

    /// Adds lines, if they are needed. Takes memory for a stamp or a label set that is new; refused, the window stays as it
    /// was.
    pub fn add(&mut self, element: &Element) -> Result<(), AllocError>
        requires short { IsShort element.now.volume }
        requires room { count_of self.old.buckets + element.now.volume.count ≤ self.old.most }
        ensures ok { OnOk result (self.new ≡ with_element element.now self.old) }
        ensures stands { OnOk result ((es : List Element) → StandsFor self.old es → StandsFor self.new (element.now ∷ es)) }
        ensures range { IsOfSameRange self.old self.new }
        ensures err { OnErr result (self.new ≡ self.old) }
    {
        if !is_needed(self.seconds, self.moment, element.stamp.timestamp) {
            return Ok(());
        }
        add_to(&mut self.buckets, &mut self.found, self.moment, element)?;
        self.lines += element.volume.count;
        Ok(())
    }

    /// Takes lines out, if they are needed and can be there; else nothing changes. Takes no memory.
    pub fn take_out(&mut self, element: &Element)
        ensures stands { (es : List Element) → StandsFor self.old (element.now ∷ es) → StandsFor self.new es }
        ensures range { IsOfSameRange self.old self.new }
        ensures absent { may_go (map.get self.old.buckets element.now.stamp) element.now.volume ≡ false → self.new ≡ self.old }
    {
        if !is_needed(self.seconds, self.moment, element.stamp.timestamp) {
            return;
        }
        if !take_from(&mut self.buckets, &mut self.found, self.moment, element) {
            return;
        }
        self.lines -= element.volume.count;
    }

    /// Moves on to a later moment: lines that are due by then come in, those that no later range has go, and each timestamp of
    /// these is a visit. Takes memory for label sets that are new to what is due; refused, the window stays as it was.
    pub fn slide(&mut self, moment: Ns, meter: &mut Meter) -> Result<(), AllocError>
        requires { self.old.moment ≤ moment }
        ensures stands { (es : List Element) → StandsFor self.old es → StandsFor self.new es }
        ensures moved { OnOk result (self.new.moment ≡ moment) }
        ensures range { (self.new.seconds ≡ self.old.seconds) × (self.new.most ≡ self.old.most) }
        ensures visits { OnOk result (meter.new ≡ with_visits (visits self.old moment) meter.old) }
        ensures unvisited { OnErr result (meter.new ≡ meter.old) }
        ensures lines { AreShort (map.entries self.old.buckets) }
        ensures err { OnErr result (self.new ≡ self.old) }
    {
        self.buckets.enter(&mut self.found, self.moment, moment)?;
        let first = first_needed(self.seconds, moment);
        let entered = self
            .buckets
            .moments(self.moment.get() + 1, moment.get() + 1);
        let left = self.buckets.moments(0, first);
        self.moment = moment;
        self.lines -= self.buckets.leave(&mut self.found, first, moment);
        meter.count_visits(entered + left);
        Ok(())
    }

    /// What the lines in the range add up to at the moment. It is copied where something has changed since.
    pub fn partial(&mut self) -> Result<Shared<Partial>, AllocError>
        ensures partial { IfOk result (λ partial. (es : List Element) → StandsFor self.old es → partial ≡ in_range self.old.seconds self.old.moment es) }
        ensures scratch { IfOk result (λ found. (term : Term) (entries : List Entry) → term.range.seconds ≡ self.old.seconds → StandsFor self.old (elements_for (code_of term) entries) → found ≡ partial entries term self.old.moment) }
        ensures within { IfOk result (λ partial. IsWithin self.old.most partial) }
        ensures same { self.new ≡ self.old }
    {
        self.found.shared()
    }
}

// Whether a line of the timestamp counts at the moment or a later one.
fn is_needed(seconds: u64, moment: Ns, timestamp: u64) -> bool
    requires { seconds ≤ longest_range }
    ensures { result ≡ nat_lt moment (timestamp + seconds * second) }
{
    let range = seconds * SECOND;
    let moment = moment.get();
    moment < range || moment - range < timestamp
}

// The first timestamp that a range needs at the moment.
pub(crate) fn first_needed(seconds: u64, moment: Ns) -> u64
    requires { seconds ≤ longest_range }
    ensures { result ≡ first_needed seconds moment }
{
    (moment.get() + 1).saturating_sub(seconds * SECOND)
}

// Whether lines of the timestamp were written by the moment.
fn is_due(moment: Ns, timestamp: u64) -> bool
    ensures { result ≡ nat_le timestamp moment }
{
    timestamp <= moment.get()
}

// Adds lines that are needed, to what is due too where they are due. Refused, both stay as they were.
fn add_to(
    buckets: &mut Buckets,
    found: &mut Found,
    moment: Ns,
    element: &Element,
) -> Result<(), AllocError>
    requires sum { IsSumOf moment buckets.old found.old }
    requires short { IsShort element.now.volume }
    requires few { count_of buckets.old + element.now.volume.count ≤ most_entries }
    ensures ok { OnOk result (buckets.new ≡ added buckets.old element.now.stamp element.now.volume) }
    ensures sum { OnOk result (IsSumOf moment buckets.new found.new) }
    ensures err { OnErr result ((buckets.new ≡ buckets.old) × (found.new ≡ found.old)) }
{
    let stamp = element.stamp.try_copy()?;
    if !is_due(moment, element.stamp.timestamp) {
        return buckets.add(stamp, element.volume);
    }
    found.add(&element.stamp.labels, element.volume)?;
    if buckets.add(stamp, element.volume).is_err() {
        found.take_out(&element.stamp.labels, element.volume);
        return Err(AllocError);
    }
    Ok(())
}

// Takes lines out that can be there, of what is due too where they are due, and says whether they can.
fn take_from(buckets: &mut Buckets, found: &mut Found, moment: Ns, element: &Element) -> bool
    requires { IsSumOf moment buckets.old found.old }
    ensures there { result ≡ may_go (map.get buckets.old element.now.stamp) element.now.volume }
    ensures left { buckets.new ≡ (if may_go (map.get buckets.old element.now.stamp) element.now.volume then taken buckets.old element.now.stamp element.now.volume else buckets.old) }
    ensures sum { IsSumOf moment buckets.new found.new }
    ensures same { result ≡ false → found.new ≡ found.old }
{
    if !buckets.take_out(&element.stamp, element.volume) {
        return false;
    }
    if !is_due(moment, element.stamp.timestamp) {
        return true;
    }
    found.take_out(&element.stamp.labels, element.volume);
    true
}
