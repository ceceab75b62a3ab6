//! Chunks written as bytes.
ghost use Rattle.std.specs.Prelude.{◌≡◌, ◌<◌, ◌≤◌, ◌^◌, ◌++◌, length, map, IsTrue, OnOk, IfOk, Ok};
ghost use Rattle.std.specs.Int.{w16};
ghost use Rattle.std.specs.List.{All};
ghost use Rattle.std.specs.List.Sorted.{IsStrictlySortedBy};
ghost use Rattle.std.specs.Str.{is_utf8};
ghost use Rattle.rl_labels.specs.EntryParts.{is_stream, longest_line};
ghost use Rattle.rl_chunks.specs.ChunkText.{magic, line_width, sized, labels_bytes, label_bytes, line_bytes, lines_bytes, line_cmp, IsText, IsLine, IsChunkText};
ghost use Rattle.rl_chunks.specs.ChunkReading.{read_chunk};

use crate::as_line::AsLine;
use crate::format::Format;
use rl_labels::{Labels, ShortText};
use std::alloc::{AllocError, Global};

// A text after two bytes of length. What is a `&str` is UTF-8.
fn push_short_text(out: &mut Vec<u8>, text: &str) -> Result<(), AllocError>
    requires { length text.now < 2 ^ 16 }
    ensures bytes { OnOk result (out.new.items ≡ out.old.items ++ sized w16 text.now) }
    ensures text { OnOk result (IsTrue (is_utf8 text.now)) }
{
    out.extend_from_slice(&(text.len() as u16).to_be_bytes())?;
    out.extend_from_slice(text.as_bytes())
}

fn push_magic(out: &mut Vec<u8>, format: Format) -> Result<(), AllocError>
    ensures { OnOk result (out.new.items ≡ out.old.items ++ magic format) }
{
    match format {
        Format::Short => out.extend_from_slice(b"RLC1"),
    }
}

fn push_label(out: &mut Vec<u8>, label: &(ShortText, ShortText)) -> Result<(), AllocError>
    requires name { length label.now.0 < 2 ^ 16 }
    requires value { length label.now.1 < 2 ^ 16 }
    ensures bytes { OnOk result (out.new.items ≡ out.old.items ++ label_bytes label.now) }
    ensures text { OnOk result (IsText label.now) }
{
    push_short_text(out, label.0.as_str())?;
    push_short_text(out, label.1.as_str())
}

// How many labels, and the labels.
fn push_labels(out: &mut Vec<u8>, labels: &[(ShortText, ShortText)]) -> Result<(), AllocError>
    requires few { length labels.now < 2 ^ 16 }
    requires names { All (λ label. length label.0 < 2 ^ 16) labels.now }
    requires values { All (λ label. length label.1 < 2 ^ 16) labels.now }
    ensures bytes { OnOk result (out.new.items ≡ out.old.items ++ labels_bytes labels.now) }
    ensures texts { OnOk result (All IsText labels.now) }
{
    out.extend_from_slice(&(labels.len() as u16).to_be_bytes())?;
    for label in labels {
        push_label(out, label)?;
    }
    Ok(())
}

// A line's text after its length.
fn push_line_text(out: &mut Vec<u8>, format: Format, text: &str) -> Result<(), AllocError>
    requires { length text.now ≤ longest_line }
    ensures bytes { OnOk result (out.new.items ≡ out.old.items ++ sized (line_width format) text.now) }
    ensures text { OnOk result (IsTrue (is_utf8 text.now)) }
{
    match format {
        Format::Short => push_short_text(out, text),
    }
}

fn push_line<L: AsLine>(out: &mut Vec<u8>, format: Format, line: &L) -> Result<(), AllocError>
    requires { length (L.line line.now).text ≤ longest_line }
    ensures bytes { OnOk result (out.new.items ≡ out.old.items ++ line_bytes format (L.line line.now)) }
    ensures line { OnOk result (IsLine (L.line line.now)) }
{
    out.extend_from_slice(&line.timestamp().get().to_be_bytes())?;
    push_line_text(out, format, line.text())
}

// How many lines, and the lines.
fn push_lines<L: AsLine>(out: &mut Vec<u8>, format: Format, lines: &[L]) -> Result<(), AllocError>
    requires few { length lines.now < 2 ^ 32 }
    requires short { All (λ line. length line.text ≤ longest_line) (map L.line lines.now) }
    ensures bytes { OnOk result (out.new.items ≡ out.old.items ++ lines_bytes format (map L.line lines.now)) }
    ensures lines { OnOk result (All IsLine (map L.line lines.now)) }
{
    out.extend_from_slice(&(lines.len() as u32).to_be_bytes())?;
    for line in lines {
        push_line(out, format, line)?;
    }
    Ok(())
}

// The bytes of a line beside its text: a timestamp and a length.
const LINE_HEAD: usize = 10;

// About how many bytes a chunk has.
fn room_for<L: AsLine>(labels: &Labels, lines: &[L]) -> usize {
    let mut room = labels.as_text().len().saturating_add(LINE_HEAD);
    for line in lines {
        room = room
            .saturating_add(LINE_HEAD)
            .saturating_add(line.text().len());
    }
    room
}

/// The one text of the chunk that these lines of a stream are. The lines are lent, and none is copied but into the text.
pub fn encode<L: AsLine>(alloc: Global, labels: &Labels, lines: &[L]) -> Result<Vec<u8>, AllocError>
    requires stream { IsTrue (is_stream labels.now) }
    requires short { All (λ line. length line.text ≤ longest_line) (map L.line lines.now) }
    requires rising { IsStrictlySortedBy line_cmp (map L.line lines.now) }
    requires few { length lines.now < 2 ^ 32 }
    ensures text { IfOk result (λ bytes. IsChunkText bytes.items (record { labels = labels.now; lines = map L.line lines.now })) }
    // What is written is read again.
    ensures again { IfOk result (λ bytes. read_chunk bytes.items ≡ Ok (record { labels = labels.now; lines = map L.line lines.now })) }
{
    let format = Format::Short;
    let mut out = Vec::with_capacity(alloc, room_for(labels, lines))?;
    push_magic(&mut out, format)?;
    push_labels(&mut out, labels.pairs())?;
    push_lines(&mut out, format, lines)?;
    Ok(out)
}
