//! The parser `json`: the leaves of a line that is a JSON object.
ghost use Rattle.std.specs.Prelude.{◌≡◌, IfOk, OnOk, None, Some, option_map, codes, string_bytes, if◌then◌else◌};
ghost use Rattle.std.specs.Option.{option_map_or};
ghost use Rattle.json.specs.Value.{value_view, members_view};
ghost use Rattle.serde_json.specs.Data.{no_members, null, number};
ghost use Rattle.serde_json.specs.Read.{number_of};
ghost use Rattle.rl_pipeline.specs.Extracting.{with_pairs};
ghost use Rattle.rl_json.specs.JsonData.{data_of, members_data};
ghost use Rattle.rl_pipeline.specs.JsonLeaves.{below, leaves_at, leaves_below, json_leaves};
ghost use Rattle.rl_pipeline.specs.Parsed.{json_labels};

use crate::extracting::{add_error, add_pair};
use json::{Scratch, Value};
use rl_json::{Number, number_of, read, sorted};
use rl_labels::{Labels, LabelsBuilder};
use std::alloc::{AllocError, Global};

// The error of a line that is no JSON object.
const JSON_PARSER_ERROR: &str = "JSONParserErr";

/// The labels of a stream's line after `json`. What reading needs is lent from line to line.
pub(crate) fn json_labels<'v>(
    alloc: Global,
    scratch: &'v mut Scratch,
    labels: &Labels,
    line: &'v str,
) -> Result<LabelsBuilder, AllocError>
    ensures { IfOk result (λ all. all ≡ json_labels labels.now line.now) }
{
    let mut all = LabelsBuilder::new(alloc, labels)?;
    match object_of(alloc, line, scratch)? {
        Some(members) => add_members(alloc, labels, &mut all, members)?,
        None => add_error(&mut all, JSON_PARSER_ERROR)?,
    }
    Ok(all)
}

// The members of the object that a line is.
#[tactic(auto, using(crate::proofs::Leaves::number_leaves))]
fn object_of<'v>(
    alloc: Global,
    line: &'v str,
    scratch: &'v mut Scratch,
) -> Result<Option<Vec<(&'v str, Value<'v>)>>, AllocError>
    ensures { IfOk result (λ found. option_map (λ members. leaves_below None (members_data (members_view members.items) no_members)) found ≡ json_leaves line.now) }
{
    match read(alloc, line, scratch)? {
        Some(Value::Object(members)) => Ok(Some(members)),
        _ => Ok(None),
    }
}

// Adds the leaves of the members of a line.
fn add_members<'v>(
    alloc: Global,
    stream: &Labels,
    labels: &mut LabelsBuilder,
    members: Vec<(&'v str, Value<'v>)>,
) -> Result<(), AllocError>
    ensures { OnOk result (labels.new ≡ with_pairs stream.now labels.old (leaves_below None (members_data (members_view members.entry.items) no_members))) }
{
    add_leaves(alloc, stream, labels, None, &members)
}

// Adds the leaves of an object, which stands at a path or at none.
#[cycle(leaves)]
#[tactic(auto, using(crate::proofs::Pairs::with_more))]
fn add_leaves<'m, 'v>(
    alloc: Global,
    stream: &Labels,
    labels: &mut LabelsBuilder,
    path: Option<&str>,
    members: &'m [(&'v str, Value<'v>)],
) -> Result<(), AllocError>
    ensures { OnOk result (labels.new ≡ with_pairs stream.now labels.old (leaves_below (option_map (λ t. t.now) path.entry) (members_data (members_view members.now) no_members))) }
{
    for (key, value) in sorted(alloc, members)? {
        add_member(alloc, stream, labels, path, key, value)?;
    }
    Ok(())
}

// Adds the leaves of a member of such an object.
#[cycle(leaves)]
fn add_member<'m, 'v>(
    alloc: Global,
    stream: &Labels,
    labels: &mut LabelsBuilder,
    path: Option<&str>,
    key: &str,
    value: &'m Value<'v>,
) -> Result<(), AllocError>
    ensures { OnOk result (labels.new ≡ with_pairs stream.now labels.old (leaves_at (below (option_map (λ t. t.now) path.entry) key.now) (data_of (value_view value.now)))) }
{
    match path {
        None => add_value(alloc, stream, labels, key, value),
        Some(path) => {
            let path = joined(alloc, path, key)?;
            add_value(alloc, stream, labels, path.as_str(), value)
        }
    }
}

// Adds the leaves of a value at a path.
#[cycle(leaves)]
fn add_value<'m, 'v>(
    alloc: Global,
    stream: &Labels,
    labels: &mut LabelsBuilder,
    path: &str,
    value: &'m Value<'v>,
) -> Result<(), AllocError>
    ensures { OnOk result (labels.new ≡ with_pairs stream.now labels.old (leaves_at path.now (data_of (value_view value.now)))) }
{
    match value {
        Value::Null | Value::Array(_) => Ok(()),
        Value::Bool(truth) => add_pair(alloc, stream, labels, path, truth_text(*truth)),
        Value::Number(text) => add_number(alloc, stream, labels, path, text),
        Value::String(text) => add_pair(alloc, stream, labels, path, text),
        Value::Object(members) => add_leaves(alloc, stream, labels, Some(path), members),
    }
}

fn truth_text(truth: bool) -> &'static str
    ensures { result.now ≡ (if truth then codes "true" else codes "false") }
{
    if truth { "true" } else { "false" }
}

// The path of a key below another.
fn joined(alloc: Global, path: &str, key: &str) -> Result<String, AllocError>
    ensures { IfOk result (λ joined. string_bytes joined ≡ below (Some path.now) key.now) }
{
    let room = path.len().saturating_add(key.len()).saturating_add(1);
    let mut joined = String::with_capacity(alloc, room)?;
    joined.push_str(path)?;
    joined.push('_')?;
    joined.push_str(key)?;
    Ok(joined)
}

// Adds the digits of a whole number at a path.
fn add_number(
    alloc: Global,
    stream: &Labels,
    labels: &mut LabelsBuilder,
    path: &str,
    text: &str,
) -> Result<(), AllocError>
    ensures { OnOk result (labels.new ≡ with_pairs stream.now labels.old (leaves_at path.now (option_map_or number (number_of text.now) null))) }
{
    let mut buffer = itoa::Buffer::new();
    match number_of(text) {
        Some(Number::Unsigned(whole)) => add_pair(
            alloc,
            stream,
            labels,
            path,
            buffer.format(whole),
        ),
        Some(Number::Negative(whole)) => add_pair(
            alloc,
            stream,
            labels,
            path,
            buffer.format(whole),
        ),
        Some(Number::Float(_)) | None => Ok(()),
    }
}
