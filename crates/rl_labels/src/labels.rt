//! Label sets: a finite map from names to values, with its canonical text kept beside it.
ghost use Rattle.std.specs.Prelude.{◌≡◌, ◌==◌, ◌-◌, ◌≤◌, map, if◌then◌else◌, [], nat_lt, length, not, IsTrue, IfOk, IsOk, IsErrOf, OnOk, SomeIff, ◌++◌, Some, ◌∷◌, List, ℕ, string_bytes};
ghost use Rattle.std.specs.Option.{option_copied};
ghost use Rattle.std.specs.List.{filter, list_all, flat_map, join_with_byte};
ghost use Rattle.std.specs.List.Sorted.{IsPermutation, IsSorted};
ghost use Rattle.std.specs.FinMap.Entries.{find, put, where_key};
ghost use Rattle.rl_labels.specs.Name.{name_cmp, is_text, is_name, is_name_start, is_name_byte, is_stream_name};
ghost use Rattle.rl_labels.specs.LabelSet.{are_labels, label_set_of, override};
ghost use Rattle.rl_labels.specs.LabelText.{label_text, labels_text};
ghost use Rattle.rl_labels.specs.Rising.{pair_cmp, rises, has_value};
ghost use Rattle.rl_labels.specs.Pairs.{labels_from, longest_text, names_are_good};
ghost use Rattle.rl_plain.specs.Answers.{Answers, Gives};
ghost use Rattle.rl_plain.specs.declared.refusal.OrMemory.TheVariants.{Fault, Memory};

use crate::short::ShortText;
use rl_plain::{
    OrMemory, PlainList, PlainText, Same, Shared, TryCopy, count_escapes, push_escaped,
};
use std::alloc::{AllocError, Global};
use std::cmp::Ordering;
use std::fmt;
use std::hash::{Hash, Hasher};
use std::marker::Model;
use thiserror::Error;

/// The label that a pipeline sets on a line that it cannot read.
pub const ERROR_LABEL: &str = "__error__";

/// The longest canonical text of a stream's labels, in bytes.
pub const MAX_TEXT_LEN: usize = 4096;

// Up to this many labels are gone through one by one, and more are sought by halves.
const FEW: usize = 8;

// What is escaped in a value: a backslash, a quote and a newline.
const ESCAPES: [(u8, u8); 3] = [(b'\\', b'\\'), (b'"', b'"'), (b'\n', b'n')];

/// Why pairs make no label set, the lowest first.
#[derive(Clone, Copy, Debug, Drop, Error)]
pub enum LabelsFault {
    #[error("a label name is not [a-zA-Z_][a-zA-Z0-9_]*, or is __error__")]
    BadName,
    #[error("a label name stands twice")]
    SameName,
    #[error("the labels' text is longer than 4096 bytes")]
    TooLong,
}

/// Why no label set was made.
pub type LabelsError = OrMemory<LabelsFault>;

impl From<LabelsFault> for LabelsError {
    ghost from_gives = { λ fault e. e ≡ Fault fault };

    fn from(fault: LabelsFault) -> Self {
        OrMemory::Fault(fault)
    }
}

/// Whether the text is `[a-zA-Z_][a-zA-Z0-9_]*`, the name of a label.
pub fn is_label_name(name: &str) -> bool
    ensures { result ≡ is_name name.now }
{
    match name.as_bytes() {
        [] => false,
        [first, rest @ ..] => is_name_start(*first) && are_name_bytes(rest),
    }
}

fn is_name_start(byte: u8) -> bool
    ensures { result ≡ is_name_start byte }
{
    byte.is_ascii_lowercase() || byte.is_ascii_uppercase() || byte == b'_'
}

fn are_name_bytes(bytes: &[u8]) -> bool
    ensures { result ≡ list_all is_name_byte bytes.now }
{
    bytes
        .iter()
        .all(|byte| is_name_start(*byte) || byte.is_ascii_digit())
}

fn is_stream_name(name: &str) -> bool
    ensures { result ≡ is_stream_name name.now }
{
    is_label_name(name) && name != ERROR_LABEL
}

// The labels of the pairs by rising name. The lowest fault is answered.
fn labels_in(
    mut pairs: Vec<(PlainText, PlainText)>,
) -> Result<Vec<(PlainText, PlainText)>, LabelsFault>
    ensures set { Answers (λ labels. label_set_of labels.items) result (labels_from pairs.items) }
    ensures by_name { IfOk result (λ labels. IsTrue (are_labels labels.items)) }
{
    if !names_are_good(&pairs) {
        return Err(LabelsFault::BadName);
    }
    sort_pairs(&mut pairs);
    if !names_rise(&pairs) {
        return Err(LabelsFault::SameName);
    }
    keep_values(&mut pairs);
    if is_long(&pairs) {
        return Err(LabelsFault::TooLong);
    }
    Ok(pairs)
}

// Whether each name is one that a stream may have.
fn names_are_good(pairs: &[(PlainText, PlainText)]) -> bool
    ensures { result ≡ names_are_good pairs.now }
{
    pairs.iter().all(|pair| is_stream_name(pair.0.as_str()))
}

// Sorts the pairs by name, and then by value.
fn sort_pairs(pairs: &mut Vec<(PlainText, PlainText)>)
    ensures moved { IsPermutation pairs.old.items pairs.new.items }
    ensures in_order { IsSorted pair_cmp pairs.new.items }
{
    pairs.sort_unstable();
}

// Whether each name is below the next.
fn names_rise(pairs: &[(PlainText, PlainText)]) -> bool
    ensures { result ≡ rises pairs.now }
{
    for index in 1..pairs.len() {
        if pairs[index - 1].0 >= pairs[index].0 {
            return false;
        }
    }
    true
}

// Leaves out the pairs with an empty value.
fn keep_values(pairs: &mut Vec<(PlainText, PlainText)>)
    ensures { pairs.new.items ≡ filter has_value pairs.old.items }
{
    pairs.retain(|pair| !pair.1.is_empty());
}

// Whether the text of these labels is longer than a stream's may be, counted without memory. Before each label stands a
// brace or a comma, and one brace after the last.
#[tactic(auto, using(crate::proofs::TextLengths::long_from_marked))]
fn is_long(labels: &[(PlainText, PlainText)]) -> bool
    ensures { result ≡ nat_lt longest_text (length (labels_text labels.now)) }
{
    let mut room = MAX_TEXT_LEN - 1;
    for label in labels {
        let Some(left) = room_after(room, label) else {
            return true;
        };
        room = left;
    }
    false
}

// The room that is left after a label and its separator, if they fit. Four bytes are the separator, `=` and two quotes.
#[tactic(auto, using(crate::proofs::TextLengths::marked_length))]
fn room_after(room: usize, label: &(PlainText, PlainText)) -> Option<usize>
    ensures { SomeIff result (length (44 ∷ label_text label.now) ≤ room) (room - length (44 ∷ label_text label.now)) }
{
    let value = label.1.as_str();
    let escapes = count_escapes(&ESCAPES, value);
    room.checked_sub(4)?
        .checked_sub(label.0.len())?
        .checked_sub(value.len())?
        .checked_sub(escapes)
}

// The labels of pairs, as a set has them.
fn short_labels(
    alloc: Global,
    pairs: &[(PlainText, PlainText)],
) -> Result<Vec<(ShortText, ShortText)>, AllocError>
    ensures { IfOk result (λ labels. labels.items ≡ pairs.now) }
{
    let mut labels = Vec::with_capacity(alloc, pairs.len())?;
    for pair in pairs {
        labels.push(short_label(alloc, pair.0.as_str(), pair.1.as_str())?)?;
    }
    Ok(labels)
}

// A label as a set has it.
pub(crate) fn short_label(
    alloc: Global,
    name: &str,
    value: &str,
) -> Result<(ShortText, ShortText), AllocError>
    ensures { IfOk result (λ label. label ≡ (name.now, value.now)) }
{
    let name = ShortText::from_str(alloc, name)?;
    let value = ShortText::from_str(alloc, value)?;
    Ok((name, value))
}

// The value of the label with this name.
pub(crate) fn value_in<'a>(labels: &'a [(ShortText, ShortText)], name: &str) -> Option<&'a str>
    ensures { option_copied result ≡ find name_cmp name.now labels.now }
{
    for label in labels {
        if name == label.0.as_str() {
            return Some(label.1.as_str());
        }
    }
    None
}

// The value of the label with this name, sought by halves among labels by rising name.
fn value_by_halves<'a>(labels: &'a [(ShortText, ShortText)], name: &str) -> Option<&'a str>
    requires { IsTrue (are_labels labels.now) }
    ensures { option_copied result ≡ find name_cmp name.now labels.now }
{
    let mut rest = labels;
    while !rest.is_empty() {
        let middle = rest.len() / 2;
        let label = &rest[middle];
        match name.cmp(label.0.as_str()) {
            Ordering::Less => rest = rest.split_at(middle).0,
            Ordering::Equal => return Some(label.1.as_str()),
            Ordering::Greater => rest = rest.split_at(middle + 1).1,
        }
    }
    None
}

// The labels with one set, or removed where the value is empty.
fn overridden(
    alloc: Global,
    labels: &[(ShortText, ShortText)],
    name: &str,
    value: &str,
) -> Result<Vec<(ShortText, ShortText)>, AllocError>
    ensures { IfOk result (λ all. all.items ≡ override name.now value.now labels.now) }
{
    if value.is_empty() {
        return without(alloc, labels, name);
    }
    with(alloc, labels, name, value)
}

// The labels but the one with this name.
fn without(
    alloc: Global,
    labels: &[(ShortText, ShortText)],
    name: &str,
) -> Result<Vec<(ShortText, ShortText)>, AllocError>
    ensures { IfOk result (λ kept. kept.items ≡ where_key name_cmp (λ other. not (is_text name.now other)) labels.now) }
{
    let mut kept = Vec::with_capacity(alloc, labels.len())?;
    for label in labels {
        push_other(&mut kept, label, name)?;
    }
    Ok(kept)
}

fn push_other(
    kept: &mut Vec<(ShortText, ShortText)>,
    label: &(ShortText, ShortText),
    name: &str,
) -> Result<(), AllocError>
    ensures { OnOk result (kept.new.items ≡ kept.old.items ++ (if is_text name.now label.now.0 then [] else label.now ∷ [])) }
{
    if name == label.0.as_str() {
        return Ok(());
    }
    kept.push(label.try_copy()?)?;
    Ok(())
}

// The labels with this one, which replaces one with its name.
fn with(
    alloc: Global,
    labels: &[(ShortText, ShortText)],
    name: &str,
    value: &str,
) -> Result<Vec<(ShortText, ShortText)>, AllocError>
    ensures { IfOk result (λ all. all.items ≡ put name_cmp name.now value.now labels.now) }
{
    let (before, following) = around(labels, name);
    let mut all = Vec::with_capacity(alloc, labels.len().saturating_add(1))?;
    push_copies(&mut all, before)?;
    push_new(&mut all, alloc, name, value)?;
    push_copies(&mut all, following)?;
    Ok(all)
}

// The labels that stand before one with this name, and those that stand after it.
fn around<'a>(
    labels: &'a [(ShortText, ShortText)],
    name: &str,
) -> (&'a [(ShortText, ShortText)], &'a [(ShortText, ShortText)])
    ensures { (value : List ℕ) → put name_cmp name.now value labels.now ≡ result.0.now ++ (name.now, value) ∷ result.1.now }
{
    for (index, label) in labels.iter().enumerate() {
        match name.cmp(label.0.as_str()) {
            Ordering::Less => return labels.split_at(index),
            Ordering::Equal => return (&labels[..index], &labels[index + 1..]),
            Ordering::Greater => {}
        }
    }
    labels.split_at(labels.len())
}

fn push_new(
    all: &mut Vec<(ShortText, ShortText)>,
    alloc: Global,
    name: &str,
    value: &str,
) -> Result<(), AllocError>
    ensures { OnOk result (all.new.items ≡ all.old.items ++ (name.now, value.now) ∷ []) }
{
    all.push(short_label(alloc, name, value)?)?;
    Ok(())
}

pub(crate) fn push_copies(
    all: &mut Vec<(ShortText, ShortText)>,
    labels: &[(ShortText, ShortText)],
) -> Result<(), AllocError>
    ensures { OnOk result (all.new.items ≡ all.old.items ++ labels.now) }
{
    for label in labels {
        all.push(label.try_copy()?)?;
    }
    Ok(())
}

// The canonical text of labels.
fn text_of(alloc: Global, labels: &[(ShortText, ShortText)]) -> Result<String, AllocError>
    ensures { IfOk result (λ text. string_bytes text ≡ labels_text labels.now) }
{
    let mut text = String::with_capacity(alloc, room_for(labels))?;
    text.push('{')?;
    push_labels(&mut text, labels)?;
    text.push('}')?;
    Ok(text)
}

// About how many bytes the text of these labels has.
fn room_for(labels: &[(ShortText, ShortText)]) -> usize {
    let mut room = 2usize;
    for label in labels {
        room = room
            .saturating_add(label.0.as_str().len())
            .saturating_add(label.1.as_str().len())
            .saturating_add(4);
    }
    room
}

#[tactic(auto, using(crate::proofs::Steps::labels_joined))]
fn push_labels(text: &mut String, labels: &[(ShortText, ShortText)]) -> Result<(), AllocError>
    ensures { OnOk result (string_bytes text.new ≡ string_bytes text.old ++ join_with_byte 44 (map label_text labels.now)) }
{
    match labels {
        [] => {}
        [first, rest @ ..] => {
            push_label(text, first.0.as_str(), first.1.as_str())?;
            push_others(text, rest)?;
        }
    }
    Ok(())
}

fn push_others(text: &mut String, labels: &[(ShortText, ShortText)]) -> Result<(), AllocError>
    ensures { OnOk result (string_bytes text.new ≡ string_bytes text.old ++ flat_map (λ label. 44 ∷ label_text label) labels.now) }
{
    for label in labels {
        text.push(',')?;
        push_label(text, label.0.as_str(), label.1.as_str())?;
    }
    Ok(())
}

fn push_label(text: &mut String, name: &str, value: &str) -> Result<(), AllocError>
    ensures { OnOk result (string_bytes text.new ≡ string_bytes text.old ++ label_text (name.now, value.now)) }
{
    text.push_str(name)?;
    text.push_str("=\"")?;
    push_escaped(text, &ESCAPES, value)?;
    text.push_str("\"")
}

// The labels by rising name, and their canonical text.
#[derive(Drop)]
struct Parts {
    labels: PlainList<(ShortText, ShortText)>,
    text: PlainText,
}

/// A label set, shared by its copies. It is compared, ordered and hashed by its canonical text, as in
/// `{app="a",job="b"}`.
#[derive(Drop)]
pub struct Labels {
    parts: Shared<Parts>,
}

impl Model for Labels {
    ghost use Rattle.rl_labels.specs.LabelSet.{LabelSet, label_set_code};

    ghost Value = { LabelSet };

    ghost coded = { label_set_code };

    ghost use Rattle.rl_labels.specs.Parts.{set_of, AreParts};

    ghost view = { set_of };

    ghost invariant = { AreParts };
}

impl Labels {
    ghost use Rattle.rl_labels.specs.LabelSet.{no_labels, with_label, label, labels_of, given};
    ghost use Rattle.rl_labels.specs.LabelText.{canonical_text};
    ghost use Rattle.rl_labels.specs.EntryParts.{are_stream_labels};

    /// The set of the pairs with a value that is not empty, in any order. The lowest fault is answered.
    pub fn from_pairs(
        alloc: Global,
        pairs: Vec<(PlainText, PlainText)>,
    ) -> Result<Labels, LabelsError>
        ensures exact { Gives (λ labels. labels) result (labels_from pairs.items) }
        ensures memory { IsErrOf result Memory → IsOk (labels_from pairs.items) }
        ensures of_stream { IfOk result (λ labels. IsTrue (are_stream_labels labels)) }
        ensures given { IfOk result (λ labels. (name : List ℕ) → label labels name ≡ given pairs.items name) }
    {
        let pairs = labels_in(pairs)?;
        let labels = short_labels(alloc, &pairs)?;
        Ok(Labels::from_labels(alloc, labels)?)
    }

    /// The set without labels.
    pub fn empty(alloc: Global) -> Result<Labels, AllocError>
        ensures { IfOk result (λ labels. labels ≡ no_labels) }
    {
        Labels::from_labels(alloc, Vec::new(alloc))
    }

    // The set of labels by rising name.
    pub(crate) fn from_labels(
        alloc: Global,
        labels: Vec<(ShortText, ShortText)>,
    ) -> Result<Labels, AllocError>
        requires { IsTrue (are_labels labels.items) }
        ensures { IfOk result (λ made. made ≡ label_set_of labels.items) }
    {
        let text = PlainText::from_string(text_of(alloc, &labels)?);
        let labels = PlainList::from_vec(labels);
        let parts = Shared::new(alloc, Parts { labels, text })?;
        Ok(Labels { parts })
    }

    /// The set with one label set, or removed where the value is empty. It has no limit of length.
    pub fn with_label(&self, name: &str, value: &str) -> Result<Labels, AllocError>
        requires { IsTrue (is_name name.now) }
        ensures { IfOk result (λ labels. labels ≡ with_label self.now name.now value.now) }
    {
        let alloc = self.parts.get().text.allocator();
        let labels = overridden(alloc, self.pairs(), name, value)?;
        let made = Labels::from_labels(alloc, labels)?;
        Ok(made)
    }

    /// The value of a label, if the set has it.
    pub fn get(&self, name: &str) -> Option<&str>
        ensures { option_copied result ≡ label self.now name.now }
    {
        let pairs = self.pairs();
        if pairs.len() > FEW {
            return value_by_halves(pairs, name);
        }
        value_in(pairs, name)
    }

    /// The labels by rising name.
    pub fn pairs(&self) -> &[(ShortText, ShortText)]
        ensures { result.now ≡ labels_of self.now }
    {
        self.parts.get().labels.as_slice()
    }

    /// The canonical text, borrowed.
    pub fn as_text(&self) -> &str
        ensures { result.now ≡ canonical_text self.now }
    {
        self.parts.get().text.as_str()
    }

    /// A copy of the canonical text.
    pub fn text(&self) -> Result<String, AllocError>
        ensures { IfOk result (λ text. string_bytes text ≡ canonical_text self.now) }
    {
        String::from_str(self.parts.get().text.allocator(), self.as_text())
    }
}

impl TryCopy for Labels {
    /// Shares the labels, without memory, as `Shared` does.
    fn try_copy(&self) -> Result<Self, AllocError> {
        let parts = self.parts.try_copy()?;
        Ok(Labels { parts })
    }
}

impl Clone for Labels {
    ghost use Rattle.std.specs.Prelude.{◌≡◌};

    ghost is_clone = { λ labels copy. copy ≡ labels };

    /// Shares the labels, as `try_copy` does.
    fn clone(&self) -> Result<Self, AllocError> {
        self.try_copy()
    }
}

impl Same for Labels {
    fn is_same(&self, other: &Self) -> bool {
        self == other
    }
}

impl PartialEq for Labels {
    ghost use Rattle.std.specs.Cmp;
    ghost use Rattle.rl_labels.specs.LabelText.{label_set_eq};
    ghost use Rattle.rl_labels.specs.laws.TextLaws.{label_set_eq_equiv};

    ghost eq = { label_set_eq };

    ghost laws = { Cmp.partial_equiv_from_equiv label_set_eq_equiv };

    fn eq(&self, other: &Self) -> bool {
        self.as_text() == other.as_text()
    }
}

impl Eq for Labels {
    ghost use Rattle.rl_labels.specs.laws.TextLaws.{label_set_eq_equiv};

    ghost laws = { label_set_eq_equiv };
}

impl PartialOrd for Labels {
    ghost use Rattle.std.specs.Prelude.{Some};
    ghost use Rattle.rl_labels.specs.LabelText.{label_set_cmp};
    ghost use Rattle.rl_labels.specs.laws.TextLaws.{label_set_po};

    ghost partial_cmp = { λ x y. Some (label_set_cmp x y) };

    ghost laws = { label_set_po };

    fn partial_cmp(&self, other: &Self) -> Option<Ordering> {
        Some(self.cmp(other))
    }
}

impl Ord for Labels {
    ghost use Rattle.std.specs.Prelude.{refl};
    ghost use Rattle.std.specs.Cmp.Lexicographic.{texts_ties};
    ghost use Rattle.rl_labels.specs.LabelText.{label_set_cmp, canonical_text};
    ghost use Rattle.rl_labels.specs.laws.TextLaws.{label_set_cmp_total};

    ghost cmp = { label_set_cmp };

    ghost total = { label_set_cmp_total };

    ghost matches_partial_cmp = { λ x y. refl };

    ghost matches_eq = { λ x y. texts_ties (canonical_text x) (canonical_text y) };

    fn cmp(&self, other: &Self) -> Ordering {
        self.as_text().cmp(other.as_text())
    }
}

impl Hash for Labels {
    ghost use Rattle.std.proofs.Common.{rules};
    ghost use Rattle.std.specs.Hash as fed;
    ghost use Rattle.std.specs.Cmp.Rules.{hashing};
    ghost use Rattle.rl_labels.specs.LabelText.{canonical_text};

    ghost hash_input = { λ labels. fed.str (canonical_text labels) };

    ghost respects_eq = { Prim.search (hashing, rules) };

    fn hash<H: Hasher>(&self, state: &mut H) {
        self.as_text().hash(state);
    }
}

impl fmt::Display for Labels {
    ghost use Rattle.std.specs.Prelude.{Some};
    ghost use Rattle.rl_labels.specs.LabelText.{canonical_text};

    ghost output = { λ labels. Some (canonical_text labels) };

    fn fmt<W: fmt::Write>(&self, f: &mut fmt::Formatter<W>) -> fmt::Result {
        f.write_str(self.as_text())
    }
}
