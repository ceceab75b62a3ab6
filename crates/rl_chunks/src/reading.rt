//! Chunks read from bytes. Each reader lends what it reads from the bytes; memory is taken for what a chunk keeps.
ghost use Rattle.std.specs.Prelude.{◌≡◌, ◌-◌, ◌<◌, length, slice_get, IfOk, Ok, None};
ghost use Rattle.std.specs.Int.{w16, w32, w64};
ghost use Rattle.rl_labels.specs.Pairs.{labels_from};
ghost use Rattle.rl_chunks.specs.declared.chunk.Chunk.{Chunk};
ghost use Rattle.rl_plain.specs.Answers.{Answers, Gives};
ghost use Rattle.rl_chunks.specs.ChunkText.{IsChunkText, line_width};
ghost use Rattle.rl_chunks.specs.ChunkReading.{number_at, text_of, text_at, format_at, name_at, value_at, is_next_name, label_at, moment_at, is_next_line, next_line_at, in_turn, label_count_at, labels_at, lines_at, read_chunk, in_chunk};

use crate::chunk::Chunk;
use crate::fault::{ChunkError, ChunkFault};
use crate::format::Format;
use crate::line::Line;
use rl_labels::labels::{ERROR_LABEL, is_label_name};
use rl_labels::{Labels, Ns};
use rl_plain::{OrMemory, PlainList, PlainText};
use std::alloc::Global;
use std::cmp::Ordering;

#[tactic(auto, unfolding(crate::specs::ChunkReading::number_at))]
fn u16_at(bytes: &[u8]) -> Result<(u16, &[u8]), ChunkFault>
    ensures { Answers (λ x. (x.0, x.1.now)) result (number_at w16 bytes.now) }
{
    if bytes.len() < 2 {
        return Err(ChunkFault::CutShort);
    }
    let (front, rest) = bytes.split_at(2);
    Ok((u16::from_be_bytes([front[0], front[1]]), rest))
}

#[tactic(auto, unfolding(crate::specs::ChunkReading::number_at))]
fn u32_at(bytes: &[u8]) -> Result<(u32, &[u8]), ChunkFault>
    ensures { Answers (λ x. (x.0, x.1.now)) result (number_at w32 bytes.now) }
{
    if bytes.len() < 4 {
        return Err(ChunkFault::CutShort);
    }
    let (front, rest) = bytes.split_at(4);
    let number = u32::from_be_bytes([front[0], front[1], front[2], front[3]]);
    Ok((number, rest))
}

#[tactic(auto, unfolding(crate::specs::ChunkReading::number_at))]
fn u64_at(bytes: &[u8]) -> Result<(u64, &[u8]), ChunkFault>
    ensures { Answers (λ x. (x.0, x.1.now)) result (number_at w64 bytes.now) }
{
    if bytes.len() < 8 {
        return Err(ChunkFault::CutShort);
    }
    let (front, rest) = bytes.split_at(8);
    let number = u64::from_be_bytes([
        front[0], front[1], front[2], front[3], front[4], front[5], front[6], front[7],
    ]);
    Ok((number, rest))
}

// The first `len` bytes, which are UTF-8.
#[tactic(auto, unfolding(crate::specs::ChunkReading::text_of))]
fn text_of(len: usize, bytes: &[u8]) -> Result<(&str, &[u8]), ChunkFault>
    ensures { Answers (λ x. (x.0.now, x.1.now)) result (text_of len bytes.now) }
{
    if bytes.len() < len {
        return Err(ChunkFault::CutShort);
    }
    let (front, rest) = bytes.split_at(len);
    match str::from_utf8(front) {
        Ok(text) => Ok((text, rest)),
        Err(_) => Err(ChunkFault::NotAChunk),
    }
}

// A text after two bytes of length.
#[tactic(auto, unfolding(crate::specs::ChunkReading::text_at))]
fn short_text_at(bytes: &[u8]) -> Result<(&str, &[u8]), ChunkFault>
    ensures { Answers (λ x. (x.0.now, x.1.now)) result (text_at w16 bytes.now) }
{
    let (len, rest) = u16_at(bytes)?;
    text_of(usize::from(len), rest)
}

// A line's text after its length.
fn line_text_at(format: Format, bytes: &[u8]) -> Result<(&str, &[u8]), ChunkFault>
    ensures { Answers (λ x. (x.0.now, x.1.now)) result (text_at (line_width format) bytes.now) }
{
    match format {
        Format::Short => short_text_at(bytes),
    }
}

// The format, read from the first bytes.
#[tactic(auto, unfolding(crate::specs::ChunkReading::format_at))]
fn format_at(bytes: &[u8]) -> Result<(Format, &[u8]), ChunkFault>
    ensures { Answers (λ x. (x.0, x.1.now)) result (format_at bytes.now) }
{
    if bytes.len() < 4 {
        return Err(ChunkFault::CutShort);
    }
    let (front, rest) = bytes.split_at(4);
    if front != b"RLC1".as_slice() {
        return Err(ChunkFault::NotAChunk);
    }
    Ok((Format::Short, rest))
}

// Whether a name is above that of the last label.
fn is_next_name(before: &[(PlainText, PlainText)], name: &str) -> bool
    ensures { result ≡ is_next_name (slice_get before.now (length before.now - 1)) name.now }
{
    match before.last() {
        None => true,
        Some(label) => label.0.as_str() < name,
    }
}

// A name that a stream's label may have after these labels.
#[tactic(auto, unfolding(crate::specs::ChunkReading::name_at))]
fn name_at<'a>(
    before: &[(PlainText, PlainText)],
    bytes: &'a [u8],
) -> Result<(&'a str, &'a [u8]), ChunkFault>
    ensures { Answers (λ x. (x.0.now, x.1.now)) result (name_at (slice_get before.now (length before.now - 1)) bytes.now) }
{
    let (name, rest) = short_text_at(bytes)?;
    if is_label_name(name) && name != ERROR_LABEL && is_next_name(before, name) {
        return Ok((name, rest));
    }
    Err(ChunkFault::NotAChunk)
}

// A value that is not empty.
#[tactic(auto, unfolding(crate::specs::ChunkReading::value_at))]
fn value_at(bytes: &[u8]) -> Result<(&str, &[u8]), ChunkFault>
    ensures { Answers (λ x. (x.0.now, x.1.now)) result (value_at bytes.now) }
{
    let (value, rest) = short_text_at(bytes)?;
    if value.is_empty() {
        return Err(ChunkFault::NotAChunk);
    }
    Ok((value, rest))
}

// The next label after these.
#[tactic(auto, unfolding(crate::specs::ChunkReading::label_at))]
fn next_label<'a>(
    alloc: Global,
    before: &[(PlainText, PlainText)],
    bytes: &'a [u8],
) -> Result<((PlainText, PlainText), &'a [u8]), ChunkError>
    ensures { Gives (λ x. (x.0, x.1.now)) result (label_at (slice_get before.now (length before.now - 1)) bytes.now) }
{
    let (name, rest) = name_at(before, bytes)?;
    let (value, rest) = value_at(rest)?;
    let name = PlainText::from_str(alloc, name)?;
    let value = PlainText::from_str(alloc, value)?;
    Ok(((name, value), rest))
}

// `count` labels, by rising name.
fn pairs_at(
    alloc: Global,
    count: u16,
    bytes: &[u8],
) -> Result<(Vec<(PlainText, PlainText)>, &[u8]), ChunkError>
    ensures { Gives (λ x. (x.0.items, x.1.now)) result (in_turn label_at count None bytes.now) }
{
    let mut pairs = Vec::new(alloc);
    let mut rest = bytes;
    for _ in 0..count {
        let (label, following) = next_label(alloc, &pairs, rest)?;
        pairs.push(label)?;
        rest = following;
    }
    Ok((pairs, rest))
}

// How many labels there are, at least one.
#[tactic(auto, unfolding(crate::specs::ChunkReading::label_count_at))]
fn label_count_at(bytes: &[u8]) -> Result<(u16, &[u8]), ChunkFault>
    ensures { Answers (λ x. (x.0, x.1.now)) result (label_count_at bytes.now) }
{
    let (count, rest) = u16_at(bytes)?;
    if count == 0 {
        return Err(ChunkFault::NotAChunk);
    }
    Ok((count, rest))
}

// The set of the labels, if a stream may have it.
fn stream_of(alloc: Global, pairs: Vec<(PlainText, PlainText)>) -> Result<Labels, ChunkError>
    ensures { Gives (λ labels. labels) result (in_chunk (labels_from pairs.items)) }
{
    match Labels::from_pairs(alloc, pairs) {
        Ok(labels) => Ok(labels),
        Err(OrMemory::Fault(_)) => Err(ChunkFault::NotAChunk.into()),
        Err(OrMemory::Memory) => Err(OrMemory::Memory),
    }
}

#[tactic(auto, unfolding(crate::specs::ChunkReading::labels_at))]
fn labels_at(alloc: Global, bytes: &[u8]) -> Result<(Labels, &[u8]), ChunkError>
    ensures { Gives (λ x. (x.0, x.1.now)) result (labels_at bytes.now) }
{
    let (count, rest) = label_count_at(bytes)?;
    let (pairs, rest) = pairs_at(alloc, count, rest)?;
    let labels = stream_of(alloc, pairs)?;
    Ok((labels, rest))
}

// A timestamp up to the greatest moment.
#[tactic(auto, unfolding(crate::specs::ChunkReading::moment_at))]
fn moment_at(bytes: &[u8]) -> Result<(Ns, &[u8]), ChunkFault>
    ensures { Answers (λ x. (x.0, x.1.now)) result (moment_at bytes.now) }
{
    let (nanoseconds, rest) = u64_at(bytes)?;
    match Ns::new(nanoseconds) {
        Some(moment) => Ok((moment, rest)),
        None => Err(ChunkFault::NotAChunk),
    }
}

// Whether a line is above the last of these.
fn is_next_line(before: &[Line], timestamp: Ns, text: &str) -> bool
    ensures { result ≡ is_next_line (slice_get before.now (length before.now - 1)) (record { timestamp = timestamp; text = text.now }) }
{
    match before.last() {
        None => true,
        Some(last) => match last.timestamp.cmp(&timestamp) {
            Ordering::Less => true,
            Ordering::Equal => last.text.as_str() < text,
            Ordering::Greater => false,
        },
    }
}

// The next line after these.
#[tactic(auto, unfolding(crate::specs::ChunkReading::next_line_at, crate::specs::ChunkReading::line_at))]
fn next_line<'a>(
    alloc: Global,
    format: Format,
    before: &[Line],
    bytes: &'a [u8],
) -> Result<(Line, &'a [u8]), ChunkError>
    ensures { Gives (λ x. (x.0, x.1.now)) result (next_line_at format (slice_get before.now (length before.now - 1)) bytes.now) }
{
    let (timestamp, rest) = match moment_at(bytes) {
        Ok(moment) => moment,
        Err(fault) => return Err(fault.into()),
    };
    let (text, rest) = line_text_at(format, rest)?;
    if !is_next_line(before, timestamp, text) {
        return Err(ChunkFault::Disorder.into());
    }
    let text = PlainText::from_str(alloc, text)?;
    Ok((Line { timestamp, text }, rest))
}

// The fewest bytes of a line.
const LEAST_LINE: usize = 10;

// `count` lines, each above the one before it. The bytes bound the room that is made at first, whatever the count is.
fn rising_lines(
    alloc: Global,
    format: Format,
    count: u32,
    bytes: &[u8],
) -> Result<(Vec<Line>, &[u8]), ChunkError>
    ensures { Gives (λ x. (x.0.items, x.1.now)) result (in_turn (next_line_at format) count None bytes.now) }
{
    let room = (count as usize).min(bytes.len() / LEAST_LINE);
    let mut lines = Vec::with_capacity(alloc, room)?;
    let mut rest = bytes;
    for _ in 0..count {
        let (line, following) = match next_line(alloc, format, &lines, rest) {
            Ok(line) => line,
            Err(error) => return Err(error),
        };
        lines.push(line)?;
        rest = following;
    }
    Ok((lines, rest))
}

#[tactic(auto, unfolding(crate::specs::ChunkReading::lines_at))]
fn lines_at(alloc: Global, format: Format, bytes: &[u8]) -> Result<(Vec<Line>, &[u8]), ChunkError>
    ensures { Gives (λ x. (x.0.items, x.1.now)) result (lines_at format bytes.now) }
{
    let (count, rest) = u32_at(bytes)?;
    rising_lines(alloc, format, count, rest)
}

// The chunk that the bytes are, or the first fault from the left.
#[tactic(auto, unfolding(crate::specs::ChunkReading::read_chunk))]
fn chunk_at(alloc: Global, bytes: &[u8]) -> Result<Chunk, ChunkError>
    ensures { Gives (λ chunk. chunk) result (read_chunk bytes.now) }
{
    let (format, rest) = format_at(bytes)?;
    let (labels, rest) = match labels_at(alloc, rest) {
        Ok(labels) => labels,
        Err(error) => return Err(error),
    };
    let (lines, rest) = match lines_at(alloc, format, rest) {
        Ok(lines) => lines,
        Err(error) => return Err(error),
    };
    if !rest.is_empty() {
        return Err(ChunkFault::TrailingBytes.into());
    }
    let lines = PlainList::from_vec(lines);
    Ok(Chunk { labels, lines })
}

/// The chunk that the bytes are, all of them. The first fault from the left is answered.
pub fn decode(alloc: Global, bytes: &[u8]) -> Result<Chunk, ChunkError>
    // What is read is these bytes.
    ensures found { IfOk result (λ chunk. IsChunkText bytes.now chunk) }
    // Bytes that are a chunk are read as that chunk, unless memory runs out.
    ensures only { (chunk : Chunk) → IsChunkText bytes.now chunk → Gives (λ chunk. chunk) result (Ok chunk) }
    // Which fault it is.
    ensures exact { Gives (λ chunk. chunk) result (read_chunk bytes.now) }
{
    chunk_at(alloc, bytes)
}
