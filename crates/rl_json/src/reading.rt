//! Documents.
ghost use Rattle.std.specs.Prelude.{◌≡◌, IfOk, None, option_map, option_and_then, if◌then◌else◌};
ghost use Rattle.std.specs.Str.{is_utf8};
ghost use Rattle.json.specs.Json.{value, if_last};
ghost use Rattle.json.specs.Lex.{tokens};
ghost use Rattle.json.specs.Value.{value_view, items_view, members_view};
ghost use Rattle.serde_json.specs.Read.{max_depth, of_json, read};
ghost use Rattle.rl_json.specs.JsonData.{in_range, items_in_range, members_in_range, data_of};

use crate::number::number_of;
use json::{Error, Reader, Scratch, Value};
use std::alloc::{AllocError, Global};
use std::str;

// As deep as `serde_json` lets arrays and objects nest.
const MAX_DEPTH: usize = 127;

/// The value that a text is, or none where it is no JSON document. What reading needs is lent.
pub fn read<'v>(
    alloc: Global,
    text: &'v str,
    scratch: &'v mut Scratch,
) -> Result<Option<Value<'v>>, AllocError>
    ensures { IfOk result (λ found. option_map (λ v. data_of (value_view v)) found ≡ read text.now) }
{
    let Some(document) = document_of(alloc, text, scratch)? else {
        return Ok(None);
    };
    Ok(in_range_or_none(document))
}

/// The value that bytes are, or none where they are no UTF-8 or no JSON document.
#[tactic(auto, using(crate::proofs::JsonData::read_text, crate::proofs::JsonData::read_no_text))]
pub fn read_bytes<'v>(
    alloc: Global,
    bytes: &'v [u8],
    scratch: &'v mut Scratch,
) -> Result<Option<Value<'v>>, AllocError>
    ensures { IfOk result (λ found. option_map (λ v. data_of (value_view v)) found ≡ (if is_utf8 bytes.now then read bytes.now else None)) }
{
    match str::from_utf8(bytes) {
        Ok(text) => read(alloc, text, scratch),
        Err(_) => Ok(None),
    }
}

// The value that a text is. Numbers may be out of range.
fn document_of<'v>(
    alloc: Global,
    text: &'v str,
    scratch: &'v mut Scratch,
) -> Result<Option<Value<'v>>, AllocError>
    ensures { IfOk result (λ found. option_map (λ v. value_view v) found ≡ option_and_then (λ p. if_last p.0 p.1) (value max_depth (tokens text.now))) }
{
    let mut reader = Reader::new(text, scratch)?;
    match Value::read(alloc, &mut reader, MAX_DEPTH) {
        Ok(value) => {
            if reader.next().is_some() {
                return Ok(None);
            }
            Ok(Some(value))
        }
        Err(Error::OutOfMemory) => Err(AllocError),
        Err(Error::Invalid | Error::TooLong | Error::DuplicateKey) => Ok(None),
    }
}

// A value in which each number is in range.
#[tactic(auto, using(crate::proofs::JsonData::as_data))]
fn in_range_or_none<'v>(document: Value<'v>) -> Option<Value<'v>>
    ensures { option_map (λ v. data_of (value_view v)) result ≡ of_json (value_view document.entry) }
{
    if in_range(&document) {
        Some(document)
    } else {
        None
    }
}

// Whether each number of a value is in range.
#[cycle(ranges)]
fn in_range(value: &Value<'_>) -> bool
    ensures { result ≡ in_range (value_view value.now) }
{
    match value {
        Value::Null | Value::Bool(_) | Value::String(_) => true,
        Value::Number(text) => number_of(text).is_some(),
        Value::Array(items) => items_in_range(items),
        Value::Object(members) => members_in_range(members),
    }
}

#[cycle(ranges)]
fn items_in_range(items: &[Value<'_>]) -> bool
    ensures { result ≡ items_in_range (items_view items.now) }
{
    for item in items {
        if !in_range(item) {
            return false;
        }
    }
    true
}

#[cycle(ranges)]
fn members_in_range(members: &[(&str, Value<'_>)]) -> bool
    ensures { result ≡ members_in_range (members_view members.now) }
{
    for member in members {
        if !in_range(&member.1) {
            return false;
        }
    }
    true
}
