//! Texts and a last line, written piece by piece to a writer that may stop anywhere.
ghost use Rattle.std.specs.Prelude.{◌≡◌, ◌≢◌, ◌+◌, ◌<◌, ◌≤◌, ◌^◌, true, [], length, drop, OnOk, OnErr, IfErr, slice_index_or};
ghost use Rattle.rl_sinks.specs.Pieces.{Writes, IsPosition, pieces, rest_of};
ghost use Rattle.rl_sinks.specs.declared.sink.SinkFault.TheVariants as faults;

use crate::sink::SinkFault;
use rl_plain::PlainText;
use std::io::Write;

// The parts of the last line: its words, how many texts were taken, and the newline.
const END_PIECES: usize = 3;

// Writes what is left of the texts, and of the last line where it is wanted, from a byte of the piece that is next.
pub(crate) fn write_rest<W: Write>(
    writer: &mut W,
    texts: &[PlainText],
    count: u64,
    ended: bool,
    next: &mut usize,
    part: &mut usize,
) -> Result<(), SinkFault>
    requires { IsPosition (pieces true texts.now count) next.old part.old }
    ensures fault { IfErr result (λ fault. fault ≡ faults.WriteFault) }
    ensures position { IsPosition (pieces true texts.now count) next.new part.new }
    ensures wanted { Writes (W.contents writer.old) (W.contents writer.new) (rest_of (pieces ended texts.now count) next.old part.old) (rest_of (pieces ended texts.now count) next.new part.new) }
    ensures writes { Writes (W.contents writer.old) (W.contents writer.new) (rest_of (pieces true texts.now count) next.old part.old) (rest_of (pieces true texts.now count) next.new part.new) }
    ensures stays { IsPosition (pieces ended texts.now count) next.old part.old → IsPosition (pieces ended texts.now count) next.new part.new }
    ensures all { OnOk result (length (pieces ended texts.now count) ≤ next.new) }
    ensures none { OnOk result (rest_of (pieces ended texts.now count) next.new part.new ≡ []) }
    ensures left { OnErr result (rest_of (pieces ended texts.now count) next.new part.new ≢ []) }
{
    let all = texts.len() + if ended { END_PIECES } else { 0 };
    while *next < all {
        let mut buffer = itoa::Buffer::new();
        let piece = piece_at(texts, count, *next, &mut buffer);
        write_piece(writer, piece, next, part)?;
    }
    Ok(())
}

// A text, or a part of the last line.
fn piece_at<'a>(
    texts: &'a [PlainText],
    count: u64,
    index: usize,
    buffer: &'a mut itoa::Buffer,
) -> &'a [u8]
    requires { index < length (pieces true texts.now count) }
    ensures { result.now ≡ slice_index_or (pieces true texts.now count) index [] }
{
    if index < texts.len() {
        return texts[index].as_str().as_bytes();
    }
    match index - texts.len() {
        0 => b"# end ",
        1 => buffer.format(count).as_bytes(),
        _ => b"\n",
    }
}

// Writes what is left of a piece, and goes on to the next one if that is all.
fn write_piece<W: Write>(
    writer: &mut W,
    piece: &[u8],
    next: &mut usize,
    part: &mut usize,
) -> Result<(), SinkFault>
    requires fits { part.old ≤ length piece.now }
    requires counts { next.old + 1 < 2 ^ 64 }
    ensures fault { IfErr result (λ fault. fault ≡ faults.WriteFault) }
    ensures ok { OnOk result ((next.new ≡ next.old + 1) × (part.new ≡ 0) × Writes (W.contents writer.old) (W.contents writer.new) (drop part.old piece.now) []) }
    ensures err { OnErr result ((next.new ≡ next.old) × (part.new < length piece.now) × Writes (W.contents writer.old) (W.contents writer.new) (drop part.old piece.now) (drop part.new piece.now)) }
{
    let rest = write_some(writer, &piece[*part..]);
    if !rest.is_empty() {
        *part = piece.len() - rest.len();
        return Err(SinkFault::WriteFault);
    }
    *next += 1;
    *part = 0;
    Ok(())
}

// Writes the bytes, and answers what is left: a write that fails or takes nothing ends it.
fn write_some<'a, W: Write>(writer: &mut W, bytes: &'a [u8]) -> &'a [u8]
    ensures { Writes (W.contents writer.old) (W.contents writer.new) bytes.now result.now }
{
    let mut rest = bytes;
    while !rest.is_empty() {
        match writer.write(rest) {
            Ok(count) if count > 0 => rest = &rest[count..],
            _ => return rest,
        }
    }
    rest
}
