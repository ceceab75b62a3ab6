//! The parser `logfmt`: the pairs of a line.
ghost use Rattle.std.specs.Prelude.{◌≡◌, [], ◌+◌, ◌-◌, ◌<◌, ◌≤◌, ◌==◌, ◌||◌, false, length, take, drop, IfSome, IfOk, OnOk, slice_index};
ghost use Rattle.std.specs.Option.{option_map, option_map_or};
ghost use Rattle.std.specs.List.{list_any};
ghost use Rattle.rl_pipeline.specs.Extracting.{with_pair, with_pairs};
ghost use Rattle.rl_pipeline.specs.Parsed.{logfmt_labels};
ghost use Rattle.rl_plain.specs.Runs.{run_at};
ghost use Rattle.rl_pipeline.specs.LogfmtPairs.{is_blank, is_of_pair, is_in_run, after_pair, closed_at, unit_at, is_high, is_low, low_at, character_at, escape_at, escape_front, unescaped, goes_on, quoted_pair, plain_pair, value_at, after_key, pair_at, logfmt_pairs};
ghost use Rattle.rl_pipeline.specs.laws.Runs.{run_ends};

use crate::extracting::add_pair;
use crate::lent::LentText;
use rl_labels::{Labels, LabelsBuilder};
use rl_plain::{ByteClass, PlainText, after_first, hex_number, run_front, unescape};
use std::alloc::{AllocError, Global};

// The escapes of one byte. 8 is a backspace, 12 a form feed.
const ESCAPES: [(u8, u8); 8] = [
    (b'"', b'"'),
    (b'\\', b'\\'),
    (b'/', b'/'),
    (8, b'b'),
    (12, b'f'),
    (b'\n', b'n'),
    (b'\r', b'r'),
    (b'\t', b't'),
];

/// The labels of a stream's line after `logfmt`.
pub(crate) fn logfmt_labels(
    alloc: Global,
    labels: &Labels,
    line: &str,
) -> Result<LabelsBuilder, AllocError>
    ensures { IfOk result (λ all. all ≡ logfmt_labels labels.now line.now) }
{
    let mut all = LabelsBuilder::new(alloc, labels)?;
    add_pairs(alloc, labels, &mut all, line)?;
    Ok(all)
}

// Adds the labels that the pairs of a line give.
fn add_pairs(
    alloc: Global,
    stream: &Labels,
    labels: &mut LabelsBuilder,
    line: &str,
) -> Result<(), AllocError>
    ensures { OnOk result (labels.new ≡ with_pairs stream.now labels.old (logfmt_pairs line.now)) }
{
    let mut rest = line;
    for _turn in 0..line.len() {
        let start = after_blanks(rest);
        if start.is_empty() {
            return Ok(());
        }
        let (pair, following) = pair_at(alloc, start)?;
        add_found(alloc, stream, labels, pair)?;
        rest = following;
    }
    Ok(())
}

// Adds the label that a pair gives, if one was found.
fn add_found(
    alloc: Global,
    stream: &Labels,
    labels: &mut LabelsBuilder,
    pair: Option<(&str, LentText<'_>)>,
) -> Result<(), AllocError>
    ensures { OnOk result (labels.new ≡ option_map_or (with_pair stream.now labels.old) (option_map (λ p. (p.0.now, p.1)) pair.entry) labels.old) }
{
    match pair {
        Some((key, value)) => add_pair(alloc, stream, labels, key, value.as_str()),
        None => Ok(()),
    }
}

// What stands at the front of a line, if it is a pair, and what follows it. The key is borrowed.
fn pair_at<'a>(
    alloc: Global,
    text: &'a str,
) -> Result<(Option<(&'a str, LentText<'a>)>, &'a str), AllocError>
    ensures { IfOk result (λ x. (option_map (λ p. (p.0.now, p.1)) x.0, x.1.now) ≡ pair_at text.now) }
{
    let (key, rest) = run_front(&Run::Key, text);
    after_key(alloc, key, rest)
}

// What stands after the blanks at the front.
fn after_blanks(text: &str) -> &str
    ensures { result.now ≡ (run_at is_blank text.now).1 }
{
    let (_, rest) = run_front(&Run::Blank, text);
    rest
}

// After a key: the sign and a value, or no pair.
#[tactic(auto, unfolding(crate::specs::LogfmtPairs::after_key))]
fn after_key<'a>(
    alloc: Global,
    key: &'a str,
    text: &'a str,
) -> Result<(Option<(&'a str, LentText<'a>)>, &'a str), AllocError>
    ensures { IfOk result (λ x. (option_map (λ p. (p.0.now, p.1)) x.0, x.1.now) ≡ after_key key.now text.now) }
{
    let bytes = text.as_bytes();
    if bytes.is_empty() {
        return Ok((None, text));
    }
    if bytes[0] == b'=' && !key.is_empty() {
        let following = after_first(text);
        return value_at(alloc, key, following);
    }
    Ok((None, after_pair(text)))
}

// The value after the sign.
#[tactic(auto, unfolding(crate::specs::LogfmtPairs::value_at))]
fn value_at<'a>(
    alloc: Global,
    key: &'a str,
    text: &'a str,
) -> Result<(Option<(&'a str, LentText<'a>)>, &'a str), AllocError>
    ensures { IfOk result (λ x. (option_map (λ p. (p.0.now, p.1)) x.0, x.1.now) ≡ value_at key.now text.now) }
{
    let bytes = text.as_bytes();
    if bytes.is_empty() {
        return Ok(plain_pair(key, text));
    }
    if bytes[0] == b'"' {
        let following = after_first(text);
        return quoted_pair(alloc, key, following);
    }
    Ok(plain_pair(key, text))
}

// A value in quotes, after the first of them.
fn quoted_pair<'a>(
    alloc: Global,
    key: &'a str,
    text: &'a str,
) -> Result<(Option<(&'a str, LentText<'a>)>, &'a str), AllocError>
    ensures { IfOk result (λ x. (option_map (λ p. (p.0.now, p.1)) x.0, x.1.now) ≡ quoted_pair key.now (closed_at false text.now)) }
{
    let Some((content, following)) = closed_at(text) else {
        return Ok((None, ""));
    };
    let rest = after_pair(following);
    if goes_on(following.as_bytes()) {
        return Ok((None, rest));
    }
    match read_content(alloc, content)? {
        Some(value) => Ok((Some((key, value)), rest)),
        None => Ok((None, rest)),
    }
}

// What stands between quotes, escapes read. It is lent where no escape stands in it.
#[tactic(auto, using(crate::proofs::LogfmtTexts::all_plain))]
fn read_content<'a>(alloc: Global, content: &'a str) -> Result<Option<LentText<'a>>, AllocError>
    ensures { IfOk result (λ value. value ≡ unescaped 0 content.now) }
{
    let (_, following) = run_front(&Run::Plain, content);
    if following.is_empty() {
        return Ok(Some(LentText::lent(content)));
    }
    match unescaped(alloc, content)? {
        Some(value) => Ok(Some(LentText::own(value))),
        None => Ok(None),
    }
}

// A value without quotes, which has no sign of a pair in it.
fn plain_pair<'a>(key: &'a str, text: &'a str) -> (Option<(&'a str, LentText<'a>)>, &'a str)
    ensures { (option_map (λ p. (p.0.now, p.1)) result.0, result.1.now) ≡ plain_pair key.now (run_at is_of_pair text.now) }
{
    let (value, rest) = run_front(&Run::Pair, text);
    if has_sign(value.as_bytes()) {
        return (None, rest);
    }
    (Some((key, LentText::lent(value))), rest)
}

// A sign of a pair stands among the bytes.
fn has_sign(bytes: &[u8]) -> bool
    ensures { result ≡ list_any (λ byte. byte == 61 || byte == 34) bytes.now }
{
    bytes.iter().any(|byte| *byte == b'=' || *byte == b'"')
}

// A pair follows without a blank.
fn goes_on(bytes: &[u8]) -> bool
    ensures { result ≡ goes_on bytes.now }
{
    match bytes {
        [] => false,
        [byte, ..] => Run::Pair.has(*byte),
    }
}

// What follows the rest of a pair.
fn after_pair(text: &str) -> &str
    ensures { result.now ≡ after_pair text.now }
{
    let (_, rest) = run_front(&Run::Pair, text);
    rest
}

/// Bytes that go on with each other.
#[derive(Clone, Copy)]
pub enum Run {
    /// What stands between pairs.
    Blank,
    /// A key.
    Key,
    /// Whatever stands between blanks.
    Pair,
    /// What stands for itself between quotes.
    Plain,
}

impl ByteClass for Run {
    ghost has = { is_in_run };

    fn has(&self, byte: u8) -> bool {
        match *self {
            Run::Blank => byte <= b' ',
            Run::Key => byte > b' ' && byte != b'=' && byte != b'"',
            Run::Pair => byte > b' ',
            Run::Plain => byte != b'\\',
        }
    }

    ghost cuts = { run_ends };
}

// What stands up to the quote that closes, and what follows it.
fn closed_at(text: &str) -> Option<(&str, &str)>
    ensures { option_map (λ x. (x.0.now, x.1.now)) result ≡ closed_at false text.now }
{
    let index = quote_at(text.as_bytes())?;
    let (content, following) = (&text[..index], &text[index + 1..]);
    Some((content, following))
}

// Where the quote that closes stands: the first with no backslash before it.
fn quote_at(bytes: &[u8]) -> Option<usize>
    ensures parts { option_map (λ index. (take index bytes.now, drop (index + 1) bytes.now)) result ≡ closed_at false bytes.now }
    ensures quote { IfSome result (λ index. (index < length bytes.now) × (slice_index bytes.now index ≡ 34)) }
{
    let mut escaped = false;
    for (index, byte) in bytes.iter().enumerate() {
        if *byte == b'"' && !escaped {
            return Some(index);
        }
        escaped = *byte == b'\\' && !escaped;
    }
    None
}

// What stands between quotes, escapes read. What stands before an escape is copied at once.
fn unescaped(alloc: Global, content: &str) -> Result<Option<PlainText>, AllocError>
    ensures { IfOk result (λ value. value ≡ unescaped 0 content.now) }
{
    let mut value = String::new(alloc);
    let mut rest = content;
    loop {
        let (plain, following) = run_front(&Run::Plain, rest);
        value.push_str(plain)?;
        if following.is_empty() {
            return Ok(Some(PlainText::from_string(value)));
        }
        let after = after_first(following);
        let Some((c, left)) = escape_front(after) else {
            return Ok(None);
        };
        value.push(c)?;
        rest = left;
    }
}

// After a backslash: the character of the escape, and what follows it.
fn escape_front(text: &str) -> Option<(char, &str)>
    ensures character { option_map (λ x. (x.0, x.1.now)) result ≡ escape_front text.now }
    ensures shorter { IfSome result (λ x. length x.1.now ≤ length text.now) }
{
    let (c, len) = escape_at(text.as_bytes())?;
    let (_, rest) = text.split_at(len);
    Some((c, rest))
}

// After a backslash: the character of the escape, and how many bytes it takes.
fn escape_at(bytes: &[u8]) -> Option<(char, usize)>
    ensures escape { result ≡ escape_at bytes.now }
    ensures ascii { IfSome result (λ x. (0 < x.1) × (x.1 ≤ length bytes.now) × (slice_index bytes.now (x.1 - 1) < 128)) }
{
    match bytes {
        [] => None,
        [b'u', digits @ ..] => {
            let (c, len) = character_at(digits)?;
            Some((c, len + 1))
        }
        [letter, ..] => {
            let byte = unescape(&ESCAPES, *letter)?;
            Some((char::from(byte), 1))
        }
    }
}

// After `\u`: the character, and how many bytes it takes. Two halves stand for one.
fn character_at(bytes: &[u8]) -> Option<(char, usize)>
    ensures character { result ≡ character_at bytes.now }
    ensures ascii { IfSome result (λ x. (0 < x.1) × (x.1 ≤ length bytes.now) × (slice_index bytes.now (x.1 - 1) < 128)) }
{
    let unit = unit_at(bytes)?;
    if is_high(unit) {
        let low = low_at(&bytes[4..])?;
        let c = char::from_u32(0x10000 + (unit - 0xD800) * 1024 + (low - 0xDC00))?;
        return Some((c, 10));
    }
    if is_low(unit) {
        return None;
    }
    let c = char::from_u32(unit)?;
    Some((c, 4))
}

// After the first half of a character: the other half, after `\u`.
fn low_at(bytes: &[u8]) -> Option<u32>
    ensures low { result ≡ low_at bytes.now }
    ensures fits { IfSome result (λ low. (56320 ≤ low) × (low < 57344)) }
    ensures ascii { IfSome result (λ low. (6 ≤ length bytes.now) × (slice_index bytes.now 5 < 128)) }
{
    match bytes {
        [b'\\', b'u', digits @ ..] => {
            let unit = unit_at(digits)?;
            if is_low(unit) { Some(unit) } else { None }
        }
        _ => None,
    }
}

fn is_high(unit: u32) -> bool
    ensures { result ≡ is_high unit }
{
    unit >= 0xD800 && unit < 0xDC00
}

fn is_low(unit: u32) -> bool
    ensures { result ≡ is_low unit }
{
    unit >= 0xDC00 && unit < 0xE000
}

// The number of the four hexadecimal digits at the front.
fn unit_at(bytes: &[u8]) -> Option<u32>
    ensures number { result ≡ unit_at bytes.now }
    ensures fits { IfSome result (λ number. number < 65536) }
    ensures ascii { IfSome result (λ number. (4 ≤ length bytes.now) × (slice_index bytes.now 3 < 128)) }
{
    match bytes {
        [a, b, c, d, ..] => hex_number(*a, *b, *c, *d),
        _ => None,
    }
}
