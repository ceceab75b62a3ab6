//! Command lines: words one space apart, of which the last may be the rest of the line.
ghost use Rattle.std.specs.Prelude.{◌≡◌, ◌<◌};
ghost use Rattle.std.specs.Char.{is_ascii_digit};
ghost use Rattle.std.specs.List.{list_all};
ghost use Rattle.std.specs.Option.{option_map, option_and_then};
ghost use Rattle.rl_session.specs.Command.{asked, cut_at, delete_of, ticks, time_of, eval_of, id_of, process_of, request_of_words, show_of, command_of_words, command_of, command_in_block, is_blank_byte, is_for_block, is_number};

use rl_deletes::Deletion;
use rl_labels::{Decimal, Ns, number_of};

/// What a command line asks for.
#[derive(Clone, Copy)]
pub enum Command<'a> {
    /// To take the entries of a JSON body.
    Push(&'a str),
    /// To seal the head of each stream as a chunk.
    Cut,
    /// To write the sealed chunks to the stores.
    Flush,
    /// To receive a request to delete what a selector with line filters selects.
    Delete(Deletion<&'a str>),
    /// To cancel a request.
    Cancel { id: u64 },
    /// To remove what a request covers.
    Process { id: u64, now: Ns },
    /// To remove what retention no longer keeps at the moment.
    Retain { now: Ns },
    /// To put the one group of a TOML document instead of the group with its name.
    Edit(&'a str),
    /// To evaluate a group at a moment.
    Eval { t: Ns, group: &'a str },
    /// To evaluate each group that is due at a moment.
    Tick { now: Ns },
    /// To pump the sinks of a group, and to offer each what it has not taken.
    Pump(&'a str),
    /// To show the texts that a sink of a group keeps.
    Show { sink: usize, group: &'a str },
    /// To begin a block of lines, each of a caller.
    Par,
    /// To end the session.
    End,
}

/// The command of a line, if it is one.
pub fn read_command(line: &str) -> Option<Command<'_>>
    ensures { option_map asked result ≡ command_of line.now }
{
    if line == "end" {
        return Some(Command::End);
    }
    if line == "cut" {
        return Some(Command::Cut);
    }
    if line == "flush" {
        return Some(Command::Flush);
    }
    if line == "par" {
        return Some(Command::Par);
    }
    let (word, rest) = cut_at(line, ' ')?;
    read_words(word, rest)
}

/// The command of a line of a block, if it may have it: push, cut, flush, delete, cancel, process, retain or eval.
pub fn read_in_block(line: &str) -> Option<Command<'_>>
    ensures { option_map asked result ≡ command_in_block line.now }
{
    match read_command(line) {
        Some(command) if is_for_block(&command) => Some(command),
        _ => None,
    }
}

fn is_for_block(command: &Command<'_>) -> bool
    ensures { result ≡ is_for_block (asked command.now) }
{
    !matches!(
        command,
        Command::Edit(_)
            | Command::Tick { .. }
            | Command::Pump(_)
            | Command::Show { .. }
            | Command::Par
            | Command::End
    )
}

/// Whether a line has nothing but spaces, tabs and carriage returns.
pub fn is_blank(line: &str) -> bool
    ensures { result ≡ list_all is_blank_byte line.now }
{
    line.as_bytes().iter().all(|byte| is_blank_byte(*byte))
}

fn is_blank_byte(byte: u8) -> bool
    ensures { result ≡ is_blank_byte byte }
{
    byte == b' ' || byte == b'\t' || byte == b'\r'
}

// The command of its first word and the rest of the line.
fn read_words<'a>(word: &str, rest: &'a str) -> Option<Command<'a>>
    ensures { option_map asked result ≡ command_of_words (word.now, rest.entry.now) }
{
    if word == "push" {
        Some(Command::Push(rest))
    } else if word == "edit" {
        Some(Command::Edit(rest))
    } else if word == "eval" {
        read_eval(rest)
    } else if word == "tick" {
        read_tick(rest)
    } else if word == "pump" {
        Some(Command::Pump(rest))
    } else if word == "show" {
        read_show(rest)
    } else {
        read_request(word, rest)
    }
}

// The command of a request or of retention.
fn read_request<'a>(word: &str, rest: &'a str) -> Option<Command<'a>>
    ensures { option_map asked result ≡ request_of_words (word.now, rest.entry.now) }
{
    if word == "delete" {
        read_delete(rest)
    } else if word == "cancel" {
        let id = id_of(rest)?;
        Some(Command::Cancel { id })
    } else if word == "process" {
        read_process(rest)
    } else if word == "retain" {
        let now = time_of(rest)?;
        Some(Command::Retain { now })
    } else {
        None
    }
}

fn read_delete(words: &str) -> Option<Command<'_>>
    ensures { option_map asked result ≡ delete_of words.now }
{
    let (id, words) = cut_at(words, ' ')?;
    let (start, words) = cut_at(words, ' ')?;
    let (end, words) = cut_at(words, ' ')?;
    let (created, selector) = cut_at(words, ' ')?;
    let (id, start) = (id_of(id)?, time_of(start)?);
    let (end, created) = (time_of(end)?, time_of(created)?);
    Some(Command::Delete(Deletion {
        id,
        selector,
        start,
        end,
        created,
    }))
}

fn read_process(words: &str) -> Option<Command<'_>>
    ensures { option_map asked result ≡ option_and_then process_of (cut_at 32 words.now) }
{
    let (id, now) = cut_at(words, ' ')?;
    let (id, now) = (id_of(id)?, time_of(now)?);
    Some(Command::Process { id, now })
}

// The number of a word of digits, if it is one of 64 bits.
fn id_of(word: &str) -> Option<u64>
    ensures { result ≡ id_of word.now }
{
    if !is_number(word.as_bytes()) {
        return None;
    }
    word.parse::<u64>().ok()
}

fn is_number(word: &[u8]) -> bool
    ensures { result ≡ is_number word.now }
{
    !word.is_empty() && are_digits(word)
}

fn are_digits(bytes: &[u8]) -> bool
    ensures { result ≡ list_all is_ascii_digit bytes.now }
{
    bytes.iter().all(|byte| byte.is_ascii_digit())
}

fn read_eval(words: &str) -> Option<Command<'_>>
    ensures { option_map asked result ≡ option_and_then eval_of (cut_at 32 words.now) }
{
    let (time, group) = cut_at(words, ' ')?;
    let t = time_of(time)?;
    Some(Command::Eval { t, group })
}

fn read_tick(word: &str) -> Option<Command<'_>>
    ensures { option_map asked result ≡ option_map ticks (time_of word.now) }
{
    let now = time_of(word)?;
    Some(Command::Tick { now })
}

fn read_show(words: &str) -> Option<Command<'_>>
    ensures { option_map asked result ≡ option_and_then show_of (cut_at 32 words.now) }
{
    let (number, group) = cut_at(words, ' ')?;
    let sink = number_of(number.as_bytes(), 19)? as usize;
    Some(Command::Show { sink, group })
}

// The moment of a time word: 1 to 10 digits of seconds, and perhaps a point and 1 to 9 digits.
fn time_of(word: &str) -> Option<Ns>
    ensures { result ≡ time_of word.now }
{
    let seconds = Decimal::of_digits(word.as_bytes(), 10)?;
    Ns::new(u64::try_from(seconds.billionths()).ok()?)
}

/// The parts before and after the first such character.
pub fn cut_at(text: &str, sign: char) -> Option<(&str, &str)>
    requires { sign < 128 }
    ensures { option_map (λ parts. (parts.0.now, parts.1.now)) result ≡ cut_at sign text.now }
{
    text.split_once(sign)
}
