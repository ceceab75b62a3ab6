//! Label sets read from their canonical texts.
ghost use Rattle.std.specs.Prelude.{◌≡◌, ◌==◌, ◌<◌, length, IfErr, IfSome, Ok, OnOk};
ghost use Rattle.std.specs.List.{position};
ghost use Rattle.std.specs.Option.{option_map};
ghost use Rattle.rl_labels.specs.LabelSet.{Pair};
ghost use Rattle.rl_labels.specs.LabelText.{label_escapes};
ghost use Rattle.rl_plain.specs.Answers.{Answers, Fails, Gives};
ghost use Rattle.rl_plain.specs.Escapes.{unescape};
ghost use Rattle.rl_segments.specs.FrameReading.{after, utf8};
ghost use Rattle.rl_segments.specs.LabelReading.{labels_in, name_in, pair_in, pair_then, pairs_in, set_of, value_in, with_new};

use crate::fault::{RecordError, RecordFault};
use rl_labels::labels::is_label_name;
use rl_labels::{Labels, LabelsBuilder};
use rl_plain::{PlainText, unescape};
use std::alloc::Global;

// What is escaped in a value: a backslash, a quote and a newline.
const ESCAPES: [(u8, u8); 3] = [(b'\\', b'\\'), (b'"', b'"'), (b'\n', b'n')];

/// The label set that has the canonical text.
#[tactic(auto, unfolding(crate::specs::LabelReading::labels_in))]
pub(crate) fn labels_in(alloc: Global, text: &[u8]) -> Result<Labels, RecordError>
    ensures { Gives (λ labels. labels) result (labels_in text.now) }
{
    let rest = after(b'{', text)?;
    let pairs = if rest == b"}".as_slice() {
        Vec::new(alloc)
    } else {
        pairs_in(alloc, rest)?
    };
    set_of(alloc, &pairs)
}

// The bytes after one that stands in front.
pub(crate) fn after(byte: u8, bytes: &[u8]) -> Result<&[u8], RecordFault>
    ensures { Answers (λ rest. rest.now) result (after byte bytes.now) }
{
    match bytes {
        [first, rest @ ..] if *first == byte => Ok(rest),
        _ => Err(RecordFault::NotARecord),
    }
}

// Labels with commas between them, up to the brace at the end.
pub(crate) fn pairs_in(
    alloc: Global,
    bytes: &[u8],
) -> Result<Vec<(PlainText, PlainText)>, RecordError>
    ensures { Gives (λ pairs. pairs.items) result (pairs_in (length bytes.now) bytes.now) }
{
    let mut pairs = Vec::new(alloc);
    let mut rest = bytes;
    for _ in 0..bytes.len() {
        let (pair, following) = match pair_then(alloc, rest) {
            Ok(next) => next,
            Err(error) => return Err(error),
        };
        pairs.push(pair)?;
        match following {
            Some(others) => rest = others,
            None => return Ok(pairs),
        }
    }
    Err(RecordFault::NotARecord.into())
}

// A label, and what follows the comma after it; nothing where a brace ends the labels.
#[tactic(auto, unfolding(crate::specs::LabelReading::pair_then))]
fn pair_then(
    alloc: Global,
    bytes: &[u8],
) -> Result<((PlainText, PlainText), Option<&[u8]>), RecordError>
    ensures { Gives (λ x. (x.0, option_map (λ rest. rest.now) x.1)) result (pair_then bytes.now) }
{
    let (pair, rest) = pair_in(alloc, bytes)?;
    if rest == b"}".as_slice() {
        return Ok((pair, None));
    }
    let rest = after(b',', rest)?;
    Ok((pair, Some(rest)))
}

// A name and a value.
#[tactic(auto, unfolding(crate::specs::LabelReading::pair_in))]
fn pair_in(alloc: Global, bytes: &[u8]) -> Result<((PlainText, PlainText), &[u8]), RecordError>
    ensures { Gives (λ x. (x.0, x.1.now)) result (pair_in bytes.now) }
{
    let (name, rest) = name_in(bytes)?;
    let rest = after(b'"', rest)?;
    let (value, rest) = value_in(alloc, rest)?;
    let name = utf8(name)?;
    let value = utf8(&value)?;
    let name = PlainText::from_str(alloc, name)?;
    let value = PlainText::from_str(alloc, value)?;
    Ok(((name, value), rest))
}

// Bytes that are UTF-8.
pub(crate) fn utf8(bytes: &[u8]) -> Result<&str, RecordFault>
    ensures { Answers (λ text. text.now) result (utf8 bytes.now) }
{
    match str::from_utf8(bytes) {
        Ok(text) => Ok(text),
        Err(_) => Err(RecordFault::NotARecord),
    }
}

// A name, up to the equals sign.
#[tactic(auto, unfolding(crate::specs::LabelReading::name_in))]
fn name_in(bytes: &[u8]) -> Result<(&[u8], &[u8]), RecordFault>
    ensures { Answers (λ x. (x.0.now, x.1.now)) result (name_in bytes.now) }
{
    match equals_at(bytes) {
        Some(at) => Ok((&bytes[..at], &bytes[at + 1..])),
        None => Err(RecordFault::NotARecord),
    }
}

// Where the first equals sign stands.
fn equals_at(bytes: &[u8]) -> Option<usize>
    ensures at { result ≡ position (λ byte. byte == 61) bytes.now }
    ensures within { IfSome result (λ at. at < length bytes.now) }
{
    bytes.iter().position(|byte| *byte == b'=')
}

// A value, up to the quote that ends it.
fn value_in(alloc: Global, bytes: &[u8]) -> Result<(Vec<u8>, &[u8]), RecordError>
    ensures { Gives (λ x. (x.0.items, x.1.now)) result (value_in bytes.now) }
{
    let mut value = Vec::new(alloc);
    let mut rest = bytes;
    while let Some((byte, following)) = rest.split_first() {
        if *byte == b'"' {
            return Ok((value, following));
        }
        if *byte != b'\\' {
            value.push(*byte)?;
            rest = following;
            continue;
        }
        let Some((letter, others)) = following.split_first() else {
            return Err(RecordFault::NotARecord.into());
        };
        let Some(own) = unescape(&ESCAPES, *letter) else {
            return Err(RecordFault::NotARecord.into());
        };
        value.push(own)?;
        rest = others;
    }
    Err(RecordFault::NotARecord.into())
}

// The set of labels, from the last one on.
fn set_of(alloc: Global, pairs: &[(PlainText, PlainText)]) -> Result<Labels, RecordError>
    ensures { Gives (λ labels. labels) result (set_of pairs.now) }
{
    let none = Labels::empty(alloc)?;
    let mut set = LabelsBuilder::new(alloc, &none)?;
    let mut left = pairs.len();
    while left > 0 {
        left -= 1;
        match add(&mut set, &pairs[left]) {
            Ok(()) => {}
            Err(error) => return Err(error),
        }
    }
    Ok(set.build()?)
}

// Adds a label that the set has not.
fn add(set: &mut LabelsBuilder, pair: &(PlainText, PlainText)) -> Result<(), RecordError>
    ensures ok { OnOk result (with_new pair.now set.old ≡ Ok set.new) }
    ensures err { IfErr result (λ error. Fails error (with_new pair.now set.old)) }
{
    let (name, value) = (pair.0.as_str(), pair.1.as_str());
    if !is_label_name(name) || value.is_empty() || set.get(name).is_some() {
        return Err(RecordFault::NotARecord.into());
    }
    set.add(name, value)?;
    Ok(())
}
