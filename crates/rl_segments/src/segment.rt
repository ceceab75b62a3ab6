//! Segments of a journal, written and read.
ghost use Rattle.std.specs.Prelude.{◌≡◌, ◌<◌, ◌^◌, ◌++◌, ℕ, List, length, map, IfOk, OnOk};
ghost use Rattle.std.specs.List.{flat_map};
ghost use Rattle.std.specs.Option.{option_map};
ghost use Rattle.rl_records.specs.RecordBytes.{frame, record_bytes};
ghost use Rattle.rl_segments.specs.FrameReading.{frame_in};
ghost use Rattle.rl_segments.specs.SegmentReading.{frame_at, head_in, record_in};
ghost use Rattle.rl_segments.specs.SegmentText.{at_place, head_text, segment_text};

use crate::frames::{frame_in, number_in};
use rl_records::{Record, record_bytes};
use std::alloc::{AllocError, Global};

// What a segment begins with.
const MAGIC: &[u8; 4] = b"RLJ1";

/// The bytes of a segment that has the records, of which the first stands at the place `first` of the journal.
pub fn segment_bytes(alloc: Global, first: u64, records: &[Record]) -> Result<Vec<u8>, AllocError>
    requires { length records.now < 2 ^ 32 }
    ensures { IfOk result (λ bytes. bytes.items ≡ segment_text first (map record_bytes records.now)) }
{
    let mut bytes = Vec::new(alloc);
    push_head(&mut bytes, first, records.len() as u32)?;
    push_records(alloc, &mut bytes, records)?;
    Ok(bytes)
}

// The place of the first record, and how many there are.
#[tactic(auto, unfolding(rl_records::specs::RecordBytes::number))]
fn push_head(bytes: &mut Vec<u8>, first: u64, count: u32) -> Result<(), AllocError>
    ensures { OnOk result (bytes.new.items ≡ bytes.old.items ++ head_text first count) }
{
    bytes.extend_from_slice(MAGIC)?;
    bytes.extend_from_slice(&first.to_be_bytes())?;
    bytes.extend_from_slice(&count.to_be_bytes())
}

// The bytes of each record, after their length.
fn push_records(alloc: Global, bytes: &mut Vec<u8>, records: &[Record]) -> Result<(), AllocError>
    ensures { OnOk result (bytes.new.items ≡ bytes.old.items ++ flat_map frame (map record_bytes records.now)) }
{
    for record in records {
        let own = record_bytes(alloc, record)?;
        push_frame(bytes, &own)?;
    }
    Ok(())
}

#[tactic(auto, unfolding(rl_records::specs::RecordBytes::number))]
fn push_frame(bytes: &mut Vec<u8>, own: &[u8]) -> Result<(), AllocError>
    ensures { OnOk result (bytes.new.items ≡ bytes.old.items ++ frame own.now) }
{
    bytes.extend_from_slice(&(own.len() as u64).to_be_bytes())?;
    bytes.extend_from_slice(own)
}

/// The bytes of the record at a place of its journal, if a segment has it.
pub fn record_at(segment: &[u8], place: u64) -> Option<&[u8]>
    ensures { (first : ℕ) (records : List (List ℕ)) → first < 2 ^ 64 → segment.now ≡ segment_text first records → option_map (λ found. found.now) result ≡ at_place first records place }
{
    record_in(segment, place)
}

#[tactic(auto, unfolding(crate::specs::SegmentReading::record_in))]
fn record_in(segment: &[u8], place: u64) -> Option<&[u8]>
    ensures found { option_map (λ found. found.now) result ≡ record_in place segment.now }
    ensures fits { length segment.now < 2 ^ 64 }
{
    let (first, frames) = head_in(segment)?;
    if place < first {
        return None;
    }
    frame_at(frames, place - first)
}

// The place of the first record, and the frames of all.
#[tactic(auto, unfolding(crate::specs::SegmentReading::head_in))]
fn head_in(segment: &[u8]) -> Option<(u64, &[u8])>
    ensures found { option_map (λ head. (head.0, head.1.now)) result ≡ head_in segment.now }
    ensures fits { length segment.now < 2 ^ 64 }
{
    if segment.len() < 4 {
        return None;
    }
    let (magic, rest) = segment.split_at(4);
    if magic != MAGIC.as_slice() {
        return None;
    }
    let (first, rest) = number_in(rest)?;
    if rest.len() < 4 {
        return None;
    }
    let (_count, frames) = rest.split_at(4);
    Some((first, frames))
}

// What stands in the frame at an index.
fn frame_at(frames: &[u8], index: u64) -> Option<&[u8]>
    ensures { option_map (λ found. found.now) result ≡ frame_at index frames.now }
{
    let mut rest = frames;
    for _ in 0..index {
        let Some((_, following)) = frame_in(rest) else {
            return None;
        };
        rest = following;
    }
    match frame_in(rest) {
        Some((found, _)) => Some(found),
        None => None,
    }
}
