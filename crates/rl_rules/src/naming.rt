//! Final label sets: the labels of a sample, a rule's over them, and its name over all.
ghost use Rattle.std.specs.Prelude.{◌≡◌, true, IfOk, IfSome, OnOk};
ghost use Rattle.rl_rules.specs.Naming.{final_by, naming_of, AreFinal, Naming};
ghost use Rattle.rl_rules.specs.Outcomes.{name_label, with_pair, with_pairs};

use crate::rule::{Rule, RuleKind};
use rl_labels::Labels;
use rl_labels::labels::is_label_name;
use rl_plain::{PlainList, PlainText, Same, TryCopy};
use std::alloc::{AllocError, Global};
use std::marker::Model;
use std::mem;

/// The label that has the name of a metric.
pub const NAME_LABEL: &str = "__name__";

/// The label that has the name of a rule's alerts.
pub const ALERT_LABEL: &str = "alertname";

/// Gives the samples of a rule their final label sets, and shares those that it gave at the last evaluation. Contracts see
/// what it takes of the rule.
#[derive(Drop)]
pub struct LabelSetCache {
    kind: RuleKind,
    name: PlainText,
    labels: PlainList<(PlainText, PlainText)>,
    // Label sets of samples with their final ones: those of the last evaluation, the index from which they are sought, and
    // those of this one.
    known: Vec<(Labels, Labels)>,
    position: usize,
    fresh: Vec<(Labels, Labels)>,
}

impl Model for LabelSetCache {
    ghost use Rattle.rl_rules.specs.Naming.{Naming, AreFinal};

    ghost Value = { Naming };

    ghost view = { λ a. record { kind = a.kind; name = a.name; labels = a.labels } };

    ghost invariant = { λ a. AreFinal (record { kind = a.kind; name = a.name; labels = a.labels }) a.known.items × AreFinal (record { kind = a.kind; name = a.name; labels = a.labels }) a.fresh.items };
}

impl LabelSetCache {
    /// One that is of no rule yet.
    pub fn new(alloc: Global) -> LabelSetCache {
        LabelSetCache {
            kind: RuleKind::Recording,
            name: PlainText::from_string(String::new(alloc)),
            labels: PlainList::new(alloc),
            known: Vec::new(alloc),
            position: 0,
            fresh: Vec::new(alloc),
        }
    }

    // Whether it is the rule's.
    fn is_of(&self, rule: &Rule) -> bool
        ensures { result ≡ true → self.now ≡ naming_of rule.now }
    {
        self.kind.is_same(&rule.kind)
            && self.name.is_same(&rule.name)
            && self.labels.is_same(&rule.labels)
    }

    // It is the rule's from now on, and shares nothing of another.
    pub(crate) fn begin(&mut self, rule: &Rule) -> Result<(), AllocError>
        ensures { OnOk result (self.new ≡ naming_of rule.now) }
    {
        self.fresh.clear();
        self.position = 0;
        if self.is_of(rule) {
            return Ok(());
        }
        let name = rule.name.try_copy()?;
        let labels = rule.labels.try_copy()?;
        self.known.clear();
        self.kind = rule.kind;
        self.name = name;
        self.labels = labels;
        Ok(())
    }

    // The final label set of a sample. Samples in the order of their label sets find what their series had before.
    pub(crate) fn named(&mut self, labels: &Labels) -> Result<Labels, AllocError>
        ensures same { self.new ≡ self.old }
        ensures named { IfOk result (λ named. named ≡ final_by self.old labels.now) }
    {
        if let Some(named) = self.as_before(labels)? {
            return Ok(named);
        }
        self.position = first_from(&self.known, self.position, labels);
        let known = known_at(&self.known, self.position, labels)?;
        self.position = self.position.saturating_add(known.is_some() as usize);
        let named = known_or_made(known, self.kind, &self.name, &self.labels, labels)?;
        self.fresh.push((labels.try_copy()?, named.try_copy()?))?;
        Ok(named)
    }

    // The known one, where all series so far are those of the last evaluation, which then stay where they are.
    fn as_before(&mut self, labels: &Labels) -> Result<Option<Labels>, AllocError>
        ensures same { self.new ≡ self.old }
        ensures named { IfOk result (λ found. IfSome found (λ named. named ≡ final_by self.old labels.now)) }
    {
        if !self.fresh.is_empty() {
            return Ok(None);
        }
        let known = known_at(&self.known, self.position, labels)?;
        if known.is_some() {
            self.position = self.position.saturating_add(1);
            return Ok(known);
        }
        push_first(&mut self.fresh, &self.known, self.position)?;
        Ok(None)
    }

    // What was not asked for after `begin` goes.
    pub(crate) fn end(&mut self)
        ensures { self.new ≡ self.old }
    {
        if self.fresh.is_empty() {
            self.known.truncate(self.position);
        } else {
            mem::swap(&mut self.known, &mut self.fresh);
        }
    }
}

// Adds copies of the first known pairs, up to an index.
fn push_first(
    fresh: &mut Vec<(Labels, Labels)>,
    known: &[(Labels, Labels)],
    position: usize,
) -> Result<(), AllocError>
    ensures { (naming : Naming) → AreFinal naming known.now → AreFinal naming fresh.old.items → AreFinal naming fresh.new.items }
{
    let first = &known[..position.min(known.len())];
    for pair in first {
        fresh.push((pair.0.try_copy()?, pair.1.try_copy()?))?;
    }
    Ok(())
}

// The first index, from one on, whose label set is not less.
fn first_from(known: &[(Labels, Labels)], from: usize, labels: &Labels) -> usize {
    for position in from..known.len() {
        if known[position].0 >= *labels {
            return position;
        }
    }
    known.len()
}

// The final label set at the index, if it is that of the labels.
fn known_at(
    known: &[(Labels, Labels)],
    position: usize,
    labels: &Labels,
) -> Result<Option<Labels>, AllocError>
    ensures { (naming : Naming) → AreFinal naming known.now → IfOk result (λ found. IfSome found (λ named. named ≡ final_by naming labels.now)) }
{
    if position >= known.len() {
        return Ok(None);
    }
    let (before, named) = &known[position];
    if before == labels {
        Ok(Some(named.try_copy()?))
    } else {
        Ok(None)
    }
}

// The final label set of the labels where it is known, and else it is made.
fn known_or_made(
    known: Option<Labels>,
    kind: RuleKind,
    name: &PlainText,
    pairs: &PlainList<(PlainText, PlainText)>,
    labels: &Labels,
) -> Result<Labels, AllocError>
    requires { IfSome known (λ named. named ≡ final_by (record { kind = kind; name = name.now; labels = pairs.now }) labels.now) }
    ensures { IfOk result (λ made. made ≡ final_by (record { kind = kind; name = name.now; labels = pairs.now }) labels.now) }
{
    match known {
        Some(named) => Ok(named),
        None => final_labels(kind, name, pairs, labels),
    }
}

// The labels, those of the rule over them, and the name over all.
fn final_labels(
    kind: RuleKind,
    name: &PlainText,
    pairs: &PlainList<(PlainText, PlainText)>,
    labels: &Labels,
) -> Result<Labels, AllocError>
    ensures { IfOk result (λ made. made ≡ final_by (record { kind = kind; name = name.now; labels = pairs.now }) labels.now) }
{
    let under = with_pairs(labels, pairs.as_slice())?;
    under.with_label(name_label(kind), name.as_str())
}

fn name_label(kind: RuleKind) -> &'static str
    ensures { result.now ≡ name_label kind }
{
    match kind {
        RuleKind::Recording => NAME_LABEL,
        RuleKind::Alerting => ALERT_LABEL,
    }
}

// The labels with one pair after another.
fn with_pairs(labels: &Labels, pairs: &[(PlainText, PlainText)]) -> Result<Labels, AllocError>
    ensures { IfOk result (λ made. made ≡ with_pairs labels.now pairs.now) }
{
    let mut made = labels.try_copy()?;
    for pair in pairs {
        made = with_pair(&made, pair)?;
    }
    Ok(made)
}

fn with_pair(labels: &Labels, pair: &(PlainText, PlainText)) -> Result<Labels, AllocError>
    ensures { IfOk result (λ made. made ≡ with_pair labels.now pair.now) }
{
    let name = pair.0.as_str();
    if is_label_name(name) {
        labels.with_label(name, pair.1.as_str())
    } else {
        labels.try_copy()
    }
}
