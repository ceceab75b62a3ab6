//! The label sets that push bodies had, kept so that a body of a stream that came before makes none.
ghost use Rattle.std.specs.Prelude.{◌≡◌, ◌<◌, IfOk, IfSome, IsTrue, Ok};
ghost use Rattle.json.specs.Json.{string};
ghost use Rattle.json.specs.Value.{members_view, value_view};
ghost use Rattle.serde_json.specs.Data.{no_members};
ghost use Rattle.rl_labels.specs.EntryParts.{is_stream};
ghost use Rattle.rl_json.specs.JsonData.{members_data};
ghost use Rattle.rl_session.specs.KnownLabels.{labels_of_texts, texts_view};
ghost use Rattle.rl_session.specs.PushBody.{labels_in};

use json::Value;
use rl_labels::Labels;
use rl_labels::labels::MAX_TEXT_LEN;
use rl_plain::{PlainList, PlainText, TryCopy};
use std::alloc::{AllocError, Global};

// How many label sets are kept, and of the misses at an index that is taken one of how many replaces what stands there.
const MANY: usize = 4096;

const SELDOM: u64 = 16;

// A label set, and the members of the object that it was made of, as they stood.
#[derive(Drop)]
struct Known {
    members: PlainList<(PlainText, PlainText)>,
    labels: Labels,
    ghost made: { labels_of_texts members ≡ Ok labels },
    ghost of_stream: { IsTrue (is_stream labels) },
}

// Label sets by the members of the objects that they were made of.
#[derive(Drop)]
pub(crate) struct KnownLabels {
    alloc: Global,
    table: Vec<Option<Known>>,
    misses: u64,
}

impl KnownLabels {
    // None is known.
    pub(crate) fn new(alloc: Global) -> Self {
        KnownLabels {
            alloc,
            table: Vec::new(alloc),
            misses: 0,
        }
    }

    // The label set of an object with these members, if it is known.
    pub(crate) fn find<'v>(&self, members: &[(&'v str, Value<'v>)]) -> Option<&Labels>
        ensures made { IfSome result (λ labels. labels_in (members_data (members_view members.now) no_members) ≡ Ok labels.now) }
        ensures of_stream { IfSome result (λ labels. IsTrue (is_stream labels.now)) }
    {
        let known = self.table.get(index_of(members))?.as_ref()?;
        if !are_members(known.members.as_slice(), members) {
            return None;
        }
        Some(&known.labels)
    }

    // Keeps the label set of an object with these members, from the second object on and where memory is there for it.
    pub(crate) fn keep<'v>(&mut self, members: &[(&'v str, Value<'v>)], labels: &Labels)
        requires made { labels_in (members_data (members_view members.now) no_members) ≡ Ok labels.now }
        requires of_stream { IsTrue (is_stream labels.now) }
    {
        self.misses = self.misses.wrapping_add(1);
        if self.misses == 1 || self.table.is_empty() && make_room(&mut self.table).is_err() {
            return;
        }
        let index = index_of(members);
        let is_free = matches!(self.table.get(index), Some(None));
        if !is_free && self.misses % SELDOM != 0 || !are_short(members) {
            return;
        }
        if let Ok(Some(known)) = known_of(self.alloc, members, labels) {
            put(&mut self.table, index, known);
        }
    }
}

// What is kept of an object whose values are texts.
fn known_of<'v>(
    alloc: Global,
    members: &[(&'v str, Value<'v>)],
    labels: &Labels,
) -> Result<Option<Known>, AllocError>
    requires made { labels_in (members_data (members_view members.now) no_members) ≡ Ok labels.now }
    requires of_stream { IsTrue (is_stream labels.now) }
{
    let Some(texts) = texts_of(alloc, members)? else {
        return Ok(None);
    };
    Ok(Some(Known {
        members: PlainList::from_vec(texts),
        labels: labels.try_copy()?,
    }))
}

// Makes a table of many with nothing in it.
fn make_room(table: &mut Vec<Option<Known>>) -> Result<(), AllocError> {
    table.reserve(MANY)?;
    for _ in 0..MANY {
        table.push(None)?;
    }
    Ok(())
}

fn put(table: &mut Vec<Option<Known>>, index: usize, known: Known) {
    if index < table.len() {
        table[index] = Some(known);
    }
}

// Whether the members have no more bytes than the text of a label set, which leaves out those with an empty value.
fn are_short<'v>(members: &[(&'v str, Value<'v>)]) -> bool {
    let mut room = MAX_TEXT_LEN;
    for (name, value) in members {
        let Value::String(text) = value else {
            return false;
        };
        let Some(left) = room.checked_sub(name.len().saturating_add(text.len())) else {
            return false;
        };
        room = left;
    }
    members.len() <= MAX_TEXT_LEN
}

// Where the label set of such members has its room, by the sum FNV-1a of their bytes.
fn index_of<'v>(members: &[(&'v str, Value<'v>)]) -> usize {
    let mut sum = 0xcbf2_9ce4_8422_2325u64;
    for (name, value) in members {
        sum = sum_of(sum, name.as_bytes());
        if let Value::String(text) = value {
            sum = sum_of(sum, text.as_bytes());
        }
    }
    (sum % MANY as u64) as usize
}

fn sum_of(sum: u64, bytes: &[u8]) -> u64 {
    let mut sum = sum;
    for byte in bytes {
        sum = (sum ^ u64::from(*byte)).wrapping_mul(0x0100_0000_01b3);
    }
    sum
}

// Whether these are the members.
fn are_members<'v>(texts: &[(PlainText, PlainText)], members: &[(&'v str, Value<'v>)]) -> bool
    ensures { IsTrue result → members_view members.now ≡ texts_view texts.now }
{
    let mut rest = members;
    for pair in texts {
        let [member, following @ ..] = rest else {
            return false;
        };
        if !is_member(pair, member) {
            return false;
        }
        rest = following;
    }
    rest.is_empty()
}

fn is_member<'v>(pair: &(PlainText, PlainText), member: &(&'v str, Value<'v>)) -> bool
    ensures name { IsTrue result → member.now.0.now ≡ pair.now.0 }
    ensures value { IsTrue result → value_view member.now.1 ≡ string pair.now.1 }
{
    match &member.1 {
        Value::String(text) => member.0 == pair.0.as_str() && *text == pair.1.as_str(),
        _ => false,
    }
}

// The members as texts, if all values are texts.
fn texts_of<'v>(
    alloc: Global,
    members: &[(&'v str, Value<'v>)],
) -> Result<Option<Vec<(PlainText, PlainText)>>, AllocError>
    ensures { IfOk result (λ found. IfSome found (λ texts. texts_view texts.items ≡ members_view members.now)) }
{
    let mut texts = Vec::with_capacity(alloc, members.len())?;
    for member in members {
        let Some(pair) = pair_of(alloc, member)? else {
            return Ok(None);
        };
        texts.push(pair)?;
    }
    Ok(Some(texts))
}

fn pair_of<'v>(
    alloc: Global,
    member: &(&'v str, Value<'v>),
) -> Result<Option<(PlainText, PlainText)>, AllocError>
    ensures name { IfOk result (λ found. IfSome found (λ pair. pair.0 ≡ member.now.0.now)) }
    ensures value { IfOk result (λ found. IfSome found (λ pair. string pair.1 ≡ value_view member.now.1)) }
{
    let Value::String(text) = &member.1 else {
        return Ok(None);
    };
    let name = PlainText::from_str(alloc, member.0)?;
    Ok(Some((name, PlainText::from_str(alloc, text)?)))
}
