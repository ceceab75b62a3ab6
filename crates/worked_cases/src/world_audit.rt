//! Audits of worlds that were run, with what callers came away with.
//!
//! An input is that of a world, a line `%%`, and a line for each caller. There `0:2` is the receipt of a shard's record at a place,
//! `e0:1` the note of a group's evaluation by its number, and `d0:1` that of an edit at an index. What ends with `!` has another
//! digest, or the group as it began.
use crate::given::number_in;
use crate::output::push_fault_text;
use crate::trouble::Trouble;
use crate::world::{Kept, Sunk};
use rl_audit::{Carrier, Note, Receipt, audit};
use rl_plain::{Shared, TryCopy};
use rl_records::digest_of;
use rl_rules::Group;
use rl_shard::Shard;
use rl_world::{Book, Item};
use std::alloc::Global;

// What one caller came away with.
#[derive(Drop)]
struct Carried {
    receipts: Vec<Receipt>,
    notes: Vec<Note>,
}

impl Carrier for Carried {
    ghost receipts = { λ carried. carried.receipts.items };

    ghost notes = { λ carried. carried.notes.items };

    fn receipts(&self) -> &[Receipt] {
        &self.receipts
    }

    fn notes(&self) -> &[Note] {
        &self.notes
    }
}

/// What an audit says of shards and books, and of callers as the lines have them.
pub(crate) fn push_audit(
    output: &mut String,
    shards: &mut [Shard<Kept>],
    books: &[Book<Sunk>],
    lines: &str,
) -> Result<(), Trouble> {
    let alloc = *output.allocator();
    let mut callers = Vec::new(alloc);
    for line in lines.split('\n') {
        callers.push(carried_in(alloc, shards, books, line)?)?;
    }
    if shards.len() > 16 {
        return Err(Trouble::BadInput);
    }
    match audit(alloc, shards, books, &callers) {
        Ok(()) => output.push_str("ok\n")?,
        Err(fault) => push_fault_text(output, &fault)?,
    }
    Ok(())
}

// What a caller came away with, word by word.
fn carried_in(
    alloc: Global,
    shards: &mut [Shard<Kept>],
    books: &[Book<Sunk>],
    line: &str,
) -> Result<Carried, Trouble> {
    let mut receipts = Vec::new(alloc);
    let mut notes = Vec::new(alloc);
    for word in line.split(' ') {
        let (word, is_other) = match word.strip_suffix("!") {
            Some(word) => (word, true),
            None => (word, false),
        };
        if let Some(numbers) = word.strip_prefix("e") {
            notes.push(evaluated_in(books, numbers, is_other)?)?;
        } else if let Some(numbers) = word.strip_prefix("d") {
            notes.push(edited_in(alloc, books, numbers, is_other)?)?;
        } else if !word.is_empty() {
            receipts.push(receipt_in(shards, word, is_other)?)?;
        }
    }
    Ok(Carried { receipts, notes })
}

fn numbers_in(text: &str) -> Result<(usize, u64), Trouble> {
    let (first, second) = text.split_once(':').ok_or(Trouble::BadInput)?;
    Ok((number_in(first)? as usize, number_in(second)?))
}

fn receipt_in(
    shards: &mut [Shard<Kept>],
    numbers: &str,
    is_other: bool,
) -> Result<Receipt, Trouble> {
    let (shard, place) = numbers_in(numbers)?;
    let digest = if is_other || shard >= shards.len() {
        [0; 32]
    } else {
        digest_at(&mut shards[shard], place)?
    };
    Ok(Receipt {
        shard,
        place,
        digest,
    })
}

fn digest_at(shard: &mut Shard<Kept>, place: u64) -> Result<[u8; 32], Trouble> {
    match shard.journal_at(place) {
        Ok(Some(record)) => Ok(digest_of(&record)),
        Ok(None) => Ok([0; 32]),
        Err(_fault) => Err(Trouble::Memory),
    }
}

fn evaluated_in(books: &[Book<Sunk>], numbers: &str, is_other: bool) -> Result<Note, Trouble> {
    let (group, number) = numbers_in(numbers)?;
    let digest = match books.get(group) {
        Some(book) if !is_other => book.mark(number).unwrap_or([0; 32]),
        _ => [0; 32],
    };
    Ok(Note::Evaluated {
        group,
        number,
        digest,
    })
}

fn edited_in(
    alloc: Global,
    books: &[Book<Sunk>],
    numbers: &str,
    is_other: bool,
) -> Result<Note, Trouble> {
    let (group, index) = numbers_in(numbers)?;
    let book = books.get(group).ok_or(Trouble::BadInput)?;
    let to = group_at(alloc, book, index, is_other)?;
    Ok(Note::Edited { group, index, to })
}

// The group that a book was edited to at an index, or as it began.
fn group_at(
    alloc: Global,
    book: &Book<Sunk>,
    index: u64,
    is_other: bool,
) -> Result<Shared<Group>, Trouble> {
    match book.item(index) {
        Some(Item::Edited(group)) if !is_other => Ok(group.try_copy()?),
        _ => Ok(Shared::new(alloc, book.first_group().try_copy()?)?),
    }
}
