//! Push bodies: log entries from the JSON that a Loki client sends.
ghost use Rattle.std.specs.Prelude.{◌≡◌, IsTrue, IfOk, map, option_map};
ghost use Rattle.json.specs.Value.{items_view, members_view};
ghost use Rattle.serde_json.specs.Data.{no_members};
ghost use Rattle.serde_json.specs.Find.{get, as_str, as_object};
ghost use Rattle.rl_plain.specs.Answers.{Gives, Answers, with_front};
ghost use Rattle.rl_plain.specs.declared.refusal.OrMemory.TheVariants.{Fault};
ghost use Rattle.rl_labels.specs.EntryParts.{is_stream};
ghost use Rattle.rl_json.specs.JsonData.{items_data, members_data};
ghost use Rattle.rl_session.specs.PushForms.{datum, entry_form, parts_form};
ghost use Rattle.rl_session.specs.PushBody.{entries_of, document_of, array_of, object_of, pair_of, pairs_of, labels_in, labels_of, metadata_in, parts_in, parts_of, required, moment_of, is_empty_object, has_no_metadata, entry_of, value_entry, entries_from, stream_entries, streams_entries};

use crate::known_labels::KnownLabels;
use json::{Scratch, Value};
use rl_json::{read_bytes, sorted, value_at};
use rl_labels::entry::MAX_LINE_LEN;
use rl_labels::{Entry, Labels, Ns, number_of};
use rl_plain::{OrMemory, PlainText, TryCopy};
use std::alloc::Global;
use thiserror::Error;

/// Why a push body is refused: the first fault that it has.
#[derive(Clone, Copy, Debug, Drop, Error)]
pub enum PushFault {
    #[error("not JSON in UTF-8")]
    NotJson,
    #[error("not a push: streams, each with labels at stream and [nanoseconds, line] pairs of texts at values")]
    Shape,
    #[error("a stream needs a label, names as [a-zA-Z_][a-zA-Z0-9_]* but not __error__, and at most 4096 bytes of labels")]
    Label,
    #[error("a timestamp is not 1 to 19 digits up to 9223372036854775807")]
    Time,
    #[error("a line is longer than 65535 bytes")]
    Line,
    #[error("a value has metadata, which is not taken")]
    Metadata,
}

/// Why a push body gave no entries.
pub type PushError = OrMemory<PushFault>;

impl From<PushFault> for PushError {
    ghost from_gives = { λ fault e. e ≡ Fault fault };

    fn from(fault: PushFault) -> Self {
        OrMemory::Fault(fault)
    }
}

// What a value has, before it is looked at.
#[derive(Clone, Copy)]
struct Parts<'m, 'v> {
    time: &'v str,
    line: &'v str,
    metadata: Option<&'m Value<'v>>,
}

/// Reads push bodies. The memory that reading needs is lent from one to the next, and label sets that came before are shared.
#[derive(Drop)]
pub struct PushReader {
    alloc: Global,
    scratch: Scratch,
    known: KnownLabels,
}

impl PushReader {
    /// A reader that has read none.
    pub fn new(alloc: Global) -> Self {
        PushReader {
            alloc,
            scratch: Scratch::new(alloc),
            known: KnownLabels::new(alloc),
        }
    }

    /// The entries of a push body in its order, unless it has a fault.
    #[tactic(auto, unfolding(crate::specs::PushBody::entries_of))]
    pub fn read(&mut self, bytes: &[u8]) -> Result<Vec<Entry>, PushError>
        ensures { Gives (λ entries. map entry_form entries.items) result (entries_of bytes.now) }
    {
        let document = document_of(self.alloc, bytes, &mut self.scratch)?;
        let streams = array_of(member_of(&document, "streams"))?;
        let mut entries = Vec::new(self.alloc);
        push_streams(self.alloc, &mut self.known, &mut entries, streams)?;
        Ok(entries)
    }
}

/// The entries of one push body, as `PushReader` reads them.
pub fn read_push(alloc: Global, bytes: &[u8]) -> Result<Vec<Entry>, PushError>
    ensures { Gives (λ entries. map entry_form entries.items) result (entries_of bytes.now) }
{
    PushReader::new(alloc).read(bytes)
}

// The document that the bytes are.
fn document_of<'v>(
    alloc: Global,
    bytes: &'v [u8],
    scratch: &'v mut Scratch,
) -> Result<Value<'v>, PushError>
    ensures { Gives datum result (document_of bytes.now) }
{
    match read_bytes(alloc, bytes, scratch)? {
        Some(document) => Ok(document),
        None => Err(OrMemory::Fault(PushFault::NotJson)),
    }
}

// The value at a key, if this is an object that has it.
fn member_of<'m, 'v>(value: &'m Value<'v>, key: &str) -> Option<&'m Value<'v>>
    ensures { option_map (λ member. datum member.now) result ≡ get key.now (datum value.now) }
{
    match value {
        Value::Object(members) => value_at(members, key),
        _ => None,
    }
}

// The array that was found.
fn array_of<'m, 'v>(found: Option<&'m Value<'v>>) -> Result<&'m [Value<'v>], PushFault>
    ensures { Answers (λ items. items_data (items_view items.now)) result (array_of (option_map (λ value. datum value.now) found.entry)) }
{
    match found {
        Some(Value::Array(items)) => Ok(items),
        _ => Err(PushFault::Shape),
    }
}

// The object that was found.
fn object_of<'m, 'v>(found: Option<&'m Value<'v>>) -> Result<&'m [(&'v str, Value<'v>)], PushFault>
    ensures { Answers (λ members. members_data (members_view members.now) no_members) result (object_of (option_map (λ value. datum value.now) found.entry)) }
{
    match found {
        Some(Value::Object(members)) => Ok(members),
        _ => Err(PushFault::Shape),
    }
}

// Adds the entries of each stream.
fn push_streams(
    alloc: Global,
    known: &mut KnownLabels,
    entries: &mut Vec<Entry>,
    streams: &[Value<'_>],
) -> Result<(), PushError>
    ensures { Gives (λ _. map entry_form entries.new.items) result (with_front (map entry_form entries.old.items) (streams_entries (items_data (items_view streams.now)))) }
{
    for stream in streams {
        push_stream(alloc, known, entries, stream)?;
    }
    Ok(())
}

// Adds the entries of a stream.
fn push_stream(
    alloc: Global,
    known: &mut KnownLabels,
    entries: &mut Vec<Entry>,
    stream: &Value<'_>,
) -> Result<(), PushError>
    ensures { Gives (λ _. map entry_form entries.new.items) result (with_front (map entry_form entries.old.items) (stream_entries (datum stream.now))) }
{
    let labels = labels_of(alloc, known, member_of(stream, "stream"))?;
    let values = array_of(member_of(stream, "values"))?;
    push_values(alloc, entries, &labels, values)
}

// Adds the entry of each value, with the labels.
fn push_values(
    alloc: Global,
    entries: &mut Vec<Entry>,
    labels: &Labels,
    values: &[Value<'_>],
) -> Result<(), PushError>
    requires { IsTrue (is_stream labels.now) }
    ensures { Gives (λ _. map entry_form entries.new.items) result (with_front (map entry_form entries.old.items) (entries_from labels.now (items_data (items_view values.now)))) }
{
    entries.reserve(values.len())?;
    for value in values {
        let entry = value_entry(alloc, labels, value)?;
        entries.push(entry)?;
    }
    Ok(())
}

// The entry of a value, with the labels.
fn value_entry(alloc: Global, labels: &Labels, value: &Value<'_>) -> Result<Entry, PushError>
    requires { IsTrue (is_stream labels.now) }
    ensures { Gives entry_form result (value_entry labels.now (datum value.now)) }
{
    let parts = parts_of(value)?;
    entry_of(alloc, labels, parts)
}

// The labels that were found.
fn labels_of(
    alloc: Global,
    known: &mut KnownLabels,
    found: Option<&Value<'_>>,
) -> Result<Labels, PushError>
    ensures labels { Gives (λ labels. labels) result (labels_of (option_map (λ value. datum value.now) found.entry)) }
    ensures of_stream { IfOk result (λ labels. IsTrue (is_stream labels)) }
{
    let members = object_of(found)?;
    labels_in(alloc, known, members)
}

// The labels of an object's members: the set that is known, or a new one, which is known from now on.
fn labels_in<'v>(
    alloc: Global,
    known: &mut KnownLabels,
    members: &[(&'v str, Value<'v>)],
) -> Result<Labels, PushError>
    ensures labels { Gives (λ labels. labels) result (labels_in (members_data (members_view members.now) no_members)) }
    ensures of_stream { IfOk result (λ labels. IsTrue (is_stream labels)) }
{
    if let Some(labels) = known.find(members) {
        return Ok(labels.try_copy()?);
    }
    let labels = new_labels(alloc, members)?;
    known.keep(members, &labels);
    Ok(labels)
}

// The labels of an object's members, made anew.
fn new_labels<'v>(alloc: Global, members: &[(&'v str, Value<'v>)]) -> Result<Labels, PushError>
    ensures labels { Gives (λ labels. labels) result (labels_in (members_data (members_view members.now) no_members)) }
    ensures of_stream { IfOk result (λ labels. IsTrue (is_stream labels)) }
{
    let pairs = pairs_of(alloc, members)?;
    match Labels::from_pairs(alloc, pairs) {
        Ok(labels) if labels.pairs().is_empty() => Err(OrMemory::Fault(PushFault::Label)),
        Ok(labels) => Ok(labels),
        Err(OrMemory::Memory) => Err(OrMemory::Memory),
        Err(OrMemory::Fault(_)) => Err(OrMemory::Fault(PushFault::Label)),
    }
}

// The names with their values, which are texts.
fn pairs_of<'m, 'v>(
    alloc: Global,
    members: &'m [(&'v str, Value<'v>)],
) -> Result<Vec<(PlainText, PlainText)>, PushError>
    ensures { Gives (λ pairs. pairs.items) result (pairs_of (members_data (members_view members.now) no_members)) }
{
    let members = sorted(alloc, members)?;
    let mut pairs = Vec::with_capacity(alloc, members.len())?;
    for (name, value) in members {
        let pair = pair_of(alloc, name, value)?;
        pairs.push(pair)?;
    }
    Ok(pairs)
}

// The name with its value, which is a text.
fn pair_of(
    alloc: Global,
    name: &str,
    value: &Value<'_>,
) -> Result<(PlainText, PlainText), PushError>
    ensures { Gives (λ pair. pair) result (pair_of name.now (datum value.now)) }
{
    let text = text_of(value)?;
    let name = PlainText::from_str(alloc, name)?;
    Ok((name, PlainText::from_str(alloc, text)?))
}

// The parts of a value.
fn parts_of<'m, 'v>(value: &'m Value<'v>) -> Result<Parts<'m, 'v>, PushFault>
    ensures { Answers parts_form result (parts_of (datum value.now)) }
{
    match value {
        Value::Array(items) => parts_in(items),
        _ => Err(PushFault::Shape),
    }
}

// A time and a line as texts, and metadata.
fn parts_in<'m, 'v>(items: &'m [Value<'v>]) -> Result<Parts<'m, 'v>, PushFault>
    ensures { Answers parts_form result (parts_in (items_data (items_view items.now))) }
{
    let [time, line, rest @ ..] = items else {
        return Err(PushFault::Shape);
    };
    let time = text_of(time)?;
    let line = text_of(line)?;
    let metadata = metadata_in(rest)?;
    Ok(Parts {
        time,
        line,
        metadata,
    })
}

// The text that a value is.
fn text_of<'v>(value: &Value<'v>) -> Result<&'v str, PushFault>
    ensures { Answers (λ text. text.now) result (required PushFault.Shape (as_str (datum value.now))) }
{
    match value {
        Value::String(text) => Ok(text),
        _ => Err(PushFault::Shape),
    }
}

// What follows the line: metadata, or nothing.
fn metadata_in<'m, 'v>(rest: &'m [Value<'v>]) -> Result<Option<&'m Value<'v>>, PushFault>
    ensures { Answers (option_map (λ value. datum value.now)) result (metadata_in (items_data (items_view rest.now))) }
{
    match rest {
        [] => Ok(None),
        [metadata] => Ok(Some(metadata)),
        _ => Err(PushFault::Shape),
    }
}

// The entry of a value's parts, with the labels.
fn entry_of(alloc: Global, labels: &Labels, parts: Parts<'_, '_>) -> Result<Entry, PushError>
    requires { IsTrue (is_stream labels.now) }
    ensures { Gives entry_form result (entry_of labels.now (parts_form parts.entry)) }
{
    let timestamp = moment_of(parts.time)?;
    if parts.line.len() > MAX_LINE_LEN {
        return Err(OrMemory::Fault(PushFault::Line));
    }
    if !has_no_metadata(parts.metadata) {
        return Err(OrMemory::Fault(PushFault::Metadata));
    }
    Ok(Entry {
        labels: labels.try_copy()?,
        timestamp,
        line: PlainText::from_str(alloc, parts.line)?,
    })
}

// The moment that a text of 1 to 19 digits is, in nanoseconds.
fn moment_of(text: &str) -> Result<Ns, PushFault>
    ensures { result ≡ moment_of text.now }
{
    match number_of(text.as_bytes(), 19) {
        Some(number) => Ns::new(number).ok_or(PushFault::Time),
        None => Err(PushFault::Time),
    }
}

// Whether there is none, or an empty object.
fn has_no_metadata(metadata: Option<&Value<'_>>) -> bool
    ensures { result ≡ has_no_metadata (option_map (λ value. datum value.now) metadata.entry) }
{
    match metadata {
        Some(value) => is_empty_object(value),
        None => true,
    }
}

fn is_empty_object(value: &Value<'_>) -> bool
    ensures { result ≡ is_empty_object (as_object (datum value.now)) }
{
    match value {
        Value::Object(members) => members.is_empty(),
        _ => false,
    }
}
