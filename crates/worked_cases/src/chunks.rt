//! Cases of chunks.
//!
//! Bytes are written in hexadecimal, with white space between two bytes as one likes.
ghost use Rattle.std.specs.Prelude.{◌≤◌};

use crate::given::number_in;
use crate::output::{push_refused, push_value};
use crate::trouble::Trouble;
use rl_chunks::{Chunk, decode, encode};
use rl_plain::OrMemory;
use std::alloc::{AllocError, Global};

pub(crate) fn answer(output: &mut String, directive: &str, input: &str) -> Result<(), Trouble> {
    if directive == "random" {
        return random(output, number_in(input)?);
    }
    let bytes = bytes_in(*output.allocator(), input)?;
    of_bytes(output, directive, &bytes)
}

fn of_bytes(output: &mut String, directive: &str, bytes: &[u8]) -> Result<(), Trouble> {
    match directive {
        "decode" => decoded(output, bytes),
        "encode" => encoded(output, bytes),
        "cut" => cut(output, bytes),
        _ => Err(Trouble::NoSuchDirective),
    }
}

/// The bytes of hexadecimal digits.
pub(crate) fn bytes_in(alloc: Global, input: &str) -> Result<Vec<u8>, Trouble> {
    let mut bytes = Vec::new(alloc);
    let mut high = None;
    for c in input.chars() {
        if c.is_ascii_whitespace() {
            continue;
        }
        let digit = digit_of(c).ok_or(Trouble::BadInput)?;
        match high {
            None => high = Some(digit),
            Some(first) => {
                bytes.push((first << 4) | digit)?;
                high = None;
            }
        }
    }
    Ok(bytes)
}

fn digit_of(c: char) -> Option<u8> {
    let digit = c.to_digit(16)?;
    u8::try_from(digit).ok()
}

// The bytes of the chunk that the bytes are, in hexadecimal.
fn encoded(output: &mut String, bytes: &[u8]) -> Result<(), Trouble> {
    let bytes = again(*output.allocator(), bytes)?;
    push_bytes(output, &bytes)
}

/// Writes bytes in hexadecimal.
pub(crate) fn push_bytes(output: &mut String, bytes: &[u8]) -> Result<(), Trouble> {
    for byte in bytes {
        write!(output, "{byte:02x}")?;
    }
    Ok(())
}

// The labels of a chunk and its lines, each with its timestamp; or the fault.
fn decoded(output: &mut String, bytes: &[u8]) -> Result<(), Trouble> {
    match decode(*output.allocator(), bytes) {
        Ok(chunk) => push_chunk(output, &chunk),
        Err(refused) => push_refused(output, &refused),
    }
}

fn push_chunk(output: &mut String, chunk: &Chunk) -> Result<(), Trouble> {
    push_value(output, &chunk.labels)?;
    for line in chunk.lines.as_slice() {
        writeln!(output, "{} {}", line.timestamp.get(), line.text)?;
    }
    Ok(())
}

// The bytes of the chunk that the bytes are.
fn again(alloc: Global, bytes: &[u8]) -> Result<Vec<u8>, Trouble> {
    match decode(alloc, bytes) {
        Ok(chunk) => Ok(encode(alloc, &chunk.labels, chunk.lines.as_slice())?),
        Err(OrMemory::Fault(_)) => Err(Trouble::BadInput),
        Err(OrMemory::Memory) => Err(Trouble::Memory),
    }
}

// What the first bytes are read as, from each length on at which that changes.
fn cut(output: &mut String, bytes: &[u8]) -> Result<(), Trouble> {
    let mut last = String::new(*output.allocator());
    for len in 0..=bytes.len() {
        let (front, _) = bytes.split_at(len);
        push_front(output, &mut last, front)?;
    }
    Ok(())
}

// Writes what a front is read as, if it is not what the last one was.
fn push_front(output: &mut String, last: &mut String, front: &[u8]) -> Result<(), Trouble> {
    let now = read_as(*output.allocator(), front)?;
    if now != *last {
        writeln!(output, "{} {now}", front.len())?;
        *last = now;
    }
    Ok(())
}

fn read_as(alloc: Global, bytes: &[u8]) -> Result<String, AllocError> {
    match decode(alloc, bytes) {
        Ok(_) => format!(in alloc; "a chunk"),
        Err(fault) => format!(in alloc; "{fault}"),
    }
}

// Numbers that look random, and are the same in each run.
#[derive(Drop)]
pub(crate) struct Draws {
    pub(crate) state: u64,
}

impl Draws {
    // A number up to the greatest one.
    pub(crate) fn up_to(&mut self, greatest: u32) -> u32
        ensures { result ≤ greatest }
    {
        let next = self.state.wrapping_mul(6_364_136_223_846_793_005);
        self.state = next.wrapping_add(1_442_695_040_888_963_407);
        let drawn = self.state >> 33;
        (drawn % (u64::from(greatest) + 1)) as u32
    }
}

// How many chunks of such bytes are read as one whose bytes are these.
fn random(output: &mut String, count: u64) -> Result<(), Trouble> {
    let mut draws = Draws { state: 1 };
    let mut same = 0u64;
    for _ in 0..count {
        if is_again(*output.allocator(), &mut draws)? {
            same = same.saturating_add(1);
        }
    }
    writeln!(output, "{same} of {count}")?;
    Ok(())
}

fn is_again(alloc: Global, draws: &mut Draws) -> Result<bool, Trouble> {
    let bytes = random_chunk(alloc, draws)?;
    Ok(again(alloc, &bytes)? == bytes)
}

// The bytes of a chunk, written by hand: up to four labels, up to twenty lines.
fn random_chunk(alloc: Global, draws: &mut Draws) -> Result<Vec<u8>, AllocError> {
    let mut bytes = Vec::from_slice(alloc, b"RLC1")?;
    push_labels(&mut bytes, draws)?;
    push_lines(&mut bytes, draws)?;
    Ok(bytes)
}

fn push_labels(bytes: &mut Vec<u8>, draws: &mut Draws) -> Result<(), AllocError> {
    let labels = draws.up_to(3) as u8 + 1;
    bytes.extend_from_slice(&[0, labels])?;
    for label in 0..labels {
        let value = draws.up_to(20) as u8 + 1;
        bytes.extend_from_slice(&[0, 1, b'a' + label, 0, value])?;
        push_letters(bytes, draws, value)?;
    }
    Ok(())
}

fn push_lines(bytes: &mut Vec<u8>, draws: &mut Draws) -> Result<(), AllocError> {
    let lines = draws.up_to(20) as u8;
    bytes.extend_from_slice(&[0, 0, 0, lines])?;
    let mut timestamp = 0u64;
    for line in 0..lines {
        timestamp = timestamp.saturating_add(u64::from(draws.up_to(1)));
        let letters = draws.up_to(40) as u8;
        bytes.extend_from_slice(&timestamp.to_be_bytes())?;
        bytes.extend_from_slice(&[0, letters + 1, line])?;
        push_letters(bytes, draws, letters)?;
    }
    Ok(())
}

fn push_letters(bytes: &mut Vec<u8>, draws: &mut Draws, count: u8) -> Result<(), AllocError> {
    for _ in 0..count {
        bytes.push(b'!' + draws.up_to(90) as u8)?;
    }
    Ok(())
}
