//! The labels that the pairs of a parser become.
ghost use Rattle.std.specs.Prelude.{◌≡◌, ◌<◌, ◌++◌, IfOk, OnOk, true, false, codes, string_bytes};
ghost use Rattle.rl_labels.specs.LabelSet.{is_empty};
ghost use Rattle.rl_labels.specs.Name.{is_name};
ghost use Rattle.rl_pipeline.specs.Extracting.{name_byte, begins_with_digit, name_of_key, gives_none, with_named, with_pair, with_error};

use rl_labels::labels::{ERROR_LABEL, is_label_name};
use rl_labels::{Labels, LabelsBuilder};
use rl_plain::PlainText;
use std::alloc::{AllocError, Global};

// A byte of a name, and an underscore for every other byte.
fn name_byte(byte: u8) -> char
    ensures name { result ≡ name_byte byte }
    ensures ascii { result < 128 }
{
    if byte.is_ascii_alphanumeric() || byte == b'_' {
        return char::from(byte);
    }
    '_'
}

fn begins_with_digit(key: &str) -> bool
    ensures { result ≡ begins_with_digit key.now }
{
    match key.as_bytes() {
        [] => false,
        [first, ..] => first.is_ascii_digit(),
    }
}

// The key with an underscore for each byte that no name has, and before a digit at its front.
fn cleaned(alloc: Global, key: &str) -> Result<PlainText, AllocError>
    ensures { IfOk result (λ name. name ≡ name_of_key key.now) }
{
    let mut name = String::with_capacity(alloc, key.len())?;
    if begins_with_digit(key) {
        name.push('_')?;
    }
    for byte in key.as_bytes() {
        name.push(name_byte(*byte))?;
    }
    Ok(PlainText::from_string(name))
}

// Whether a name and a value give no label.
fn gives_none(name: &str, value: &str) -> bool
    ensures { result ≡ gives_none name.now value.now }
{
    name.is_empty() || name == ERROR_LABEL || value.is_empty()
}

// The name of a label whose own name is one of the stream's.
fn extracted(alloc: Global, name: &str) -> Result<String, AllocError>
    ensures { IfOk result (λ longer. string_bytes longer ≡ name.now ++ codes "_extracted") }
{
    let mut longer = String::from_str(alloc, name)?;
    longer.push_str("_extracted")?;
    Ok(longer)
}

// Adds the label that a name and a value give, if they give one.
#[tactic(auto, using(crate::proofs::Names::own_label, crate::proofs::Names::longer_label))]
fn add_named(
    alloc: Global,
    stream: &Labels,
    labels: &mut LabelsBuilder,
    name: &str,
    value: &str,
) -> Result<(), AllocError>
    requires { is_empty name.now ≡ false → is_name name.now ≡ true }
    ensures { OnOk result (labels.new ≡ with_named stream.now labels.old name.now value.now) }
{
    if gives_none(name, value) {
        return Ok(());
    }
    if stream.get(name).is_none() {
        return labels.add(name, value);
    }
    let longer = extracted(alloc, name)?;
    labels.add(longer.as_str(), value)
}

/// Adds the label that a pair gives, if it gives one. Most keys are names as they stand.
#[tactic(auto, using(crate::proofs::Names::name_itself, crate::proofs::Names::key_named))]
pub(crate) fn add_pair(
    alloc: Global,
    stream: &Labels,
    labels: &mut LabelsBuilder,
    key: &str,
    value: &str,
) -> Result<(), AllocError>
    ensures { OnOk result (labels.new ≡ with_pair stream.now labels.old (key.now, value.now)) }
{
    if is_label_name(key) {
        return add_named(alloc, stream, labels, key, value);
    }
    let name = cleaned(alloc, key)?;
    add_named(alloc, stream, labels, name.as_str(), value)
}

// Adds an error, unless one is set.
pub(crate) fn add_error(labels: &mut LabelsBuilder, error: &str) -> Result<(), AllocError>
    requires { is_empty error.now ≡ false }
    ensures { OnOk result (labels.new ≡ with_error labels.old error.now) }
{
    labels.add(ERROR_LABEL, error)
}
