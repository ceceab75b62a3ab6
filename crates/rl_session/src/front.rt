//! The input of the program: a document of rules, a line `%%`, and commands.
ghost use Rattle.std.specs.Prelude.{◌≡◌, ◌⊎◌, ℕ, ◌<◌, ◌++◌, List, length, map, false, Ok, IfSome, OnOk, IfErr};
ghost use Rattle.std.specs.Option.{option_copied, option_map};
ghost use Rattle.std.specs.Io.KnownBytes.{Consumes, Keeps, IsAtEnd};
ghost use Rattle.rl_plain.specs.declared.refusal.OrMemory.TheVariants.{Fault, Memory};
ghost use Rattle.rl_rules.specs.Forms.{group_form};
ghost use Rattle.rl_session.specs.Front.{IsFirstLine, front_of, IsCut, front_form, HasGroups, Says};
ghost use Rattle.rl_session.specs.Reading.{GivesOne, Reads, ReadsFront, ReadsAll};
ghost use Rattle.rl_session.specs.declared.front.fault.FrontFault.TheVariants as faults;

mod commands;
mod fault;

pub use commands::Commands;
pub use fault::{FrontError, FrontFault};
use memchr::memchr;
use rl_rules::{Group, RulesError, read_rules};
use std::alloc::Global;
use std::io::{ErrorKind, Read};

/// The longest input in bytes, and the most turns of its reader.
pub const MAX_INPUT_LEN: usize = 67_108_864;

// How many bytes a turn may give.
const ROOM: usize = 65_536;

// The line between the document and the commands.
const MARK: &str = "%%";

/// What an input has.
#[derive(Drop)]
pub struct Front {
    pub groups: Vec<Group>,
    pub commands: Commands,
}

/// The groups and the commands of all that a reader gives, or the lowest fault that it has.
pub fn read_front<R: Read>(alloc: Global, reader: &mut R) -> Result<Front, FrontError>
    ensures answers { GivesOne front_form (ReadsFront 67_108_864 (R.remaining reader.old) (R.remaining reader.new)) result }
    ensures known { IfSome (R.remaining reader.old) (λ all. GivesOne front_form (ReadsAll 67_108_864 all) result) }
{
    let bytes = read_all(alloc, reader, MAX_INPUT_LEN)?;
    front_in(alloc, bytes)
}

// All that a reader gives: at most `most` bytes, in at most `most` turns.
fn read_all<R: Read>(alloc: Global, reader: &mut R, most: usize) -> Result<Vec<u8>, FrontError>
    ensures { GivesOne (λ bytes. bytes.items) (Reads most (R.remaining reader.old) (R.remaining reader.new)) result }
{
    let mut buffer = vec![in alloc; 0; ROOM]?;
    gather(alloc, reader, &mut buffer, most)
}

// All that a reader gives, through a buffer that has room for a turn.
fn gather<R: Read>(
    alloc: Global,
    reader: &mut R,
    buffer: &mut [u8],
    most: usize,
) -> Result<Vec<u8>, FrontError>
    requires { 0 < length buffer.old }
    ensures { GivesOne (λ bytes. bytes.items) (Reads most (R.remaining reader.old) (R.remaining reader.new)) result }
{
    let mut bytes = Vec::new(alloc);
    for _ in 0..most {
        if !take_turn(reader, buffer, &mut bytes)? {
            return Ok(bytes);
        }
        if bytes.len() > most {
            return Err(FrontError::Fault(FrontFault::TooLong));
        }
    }
    Err(FrontError::Fault(FrontFault::TooLong))
}

// Adds the bytes of one turn, none where it is interrupted. False at the end.
fn take_turn<R: Read>(
    reader: &mut R,
    buffer: &mut [u8],
    bytes: &mut Vec<u8>,
) -> Result<bool, FrontError>
    requires { 0 < length buffer.old }
    ensures ok { OnOk result ((piece : List ℕ) × Consumes (R.remaining reader.old) (R.remaining reader.new) piece × (bytes.new.items ≡ bytes.old.items ++ piece)) }
    ensures end { result ≡ Ok false → IsAtEnd (R.remaining reader.new) × (bytes.new.items ≡ bytes.old.items) }
    ensures err { IfErr result (λ error. (error ≡ Memory) ⊎ ((error ≡ Fault faults.ReadFault) × Keeps (R.remaining reader.old) (R.remaining reader.new))) }
{
    match reader.read(buffer) {
        Ok(count) => {
            bytes.extend_from_slice(&buffer[..count])?;
            Ok(count > 0)
        }
        Err(error) if error.kind() == ErrorKind::Interrupted => Ok(true),
        Err(_) => Err(FrontError::Fault(FrontFault::ReadFault)),
    }
}

// What bytes say, or the lowest fault that they have.
fn front_in(alloc: Global, bytes: Vec<u8>) -> Result<Front, FrontError>
    ensures { GivesOne front_form (Says bytes.items) result }
{
    let Ok(text) = String::from_utf8(bytes) else {
        return Err(FrontError::Fault(FrontFault::NotText));
    };
    let Some((document, commands)) = split_front(text.as_str()) else {
        return Err(FrontError::Fault(FrontFault::NoMark));
    };
    let start = text.len() - commands.len();
    let groups = groups_in(alloc, document)?;
    let commands = Commands::new(text, start);
    Ok(Front { groups, commands })
}

// The groups of a document.
fn groups_in(alloc: Global, document: &str) -> Result<Vec<Group>, FrontError>
    ensures { GivesOne (λ groups. map group_form groups.items) (HasGroups document.now) result }
{
    match read_rules(alloc, document) {
        Ok(groups) => Ok(groups),
        Err(RulesError::Fault(fault)) => Err(FrontError::Fault(FrontFault::Rules(fault))),
        Err(RulesError::Memory) => Err(FrontError::Memory),
    }
}

/// The document before the first line that is `%%`, and the commands after that line.
pub fn split_front(text: &str) -> Option<(&str, &str)>
    ensures front { option_map (λ parts. (parts.0.now, parts.1.now)) result ≡ front_of text.now }
    ensures cut { IfSome result (λ parts. IsCut text.now (parts.0.now, parts.1.now)) }
{
    let mut rest = text;
    loop {
        let (line, rest_after) = first_line(rest);
        if line == MARK {
            let (document, _) = text.split_at(text.len() - rest.len());
            return Some((document, rest_after.unwrap_or("")));
        }
        rest = rest_after?;
    }
}

/// A text's first line, and what follows its line feed.
pub fn first_line(text: &str) -> (&str, Option<&str>)
    ensures { IsFirstLine text.now result.0.now (option_copied result.1) }
{
    match memchr(b'\n', text.as_bytes()) {
        Some(at) => (&text[..at], Some(&text[at + 1..])),
        None => (text, None),
    }
}
