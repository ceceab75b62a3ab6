//! Files of cases, in the manner of data-driven tests.
//!
//! A case is a line `== directive and a title`, the lines of its input, a line `----`, and the lines of its answer;
//! what stands before the first case says what the file has. Empty lines at the end of an answer do not count.
//! Control characters are written as their pictures (`␊`, `␉`), a space at the end of a line as `␠`, and a long row of
//! a character as `⟨4090×x⟩`.
use crate::trouble::Trouble;
use std::alloc::Global;

/// One case: its first line, its directive, its input, and the answer that is wanted.
#[derive(Drop)]
pub(crate) struct Case<'a> {
    pub(crate) title: &'a str,
    pub(crate) directive: &'a str,
    pub(crate) input: &'a str,
    pub(crate) want: &'a str,
}

/// The case of what a file has from one `== ` to the next.
pub(crate) fn case_in<'a>(text: &'a str) -> Result<Case<'a>, Trouble> {
    let (asked, want) = text.split_once("\n----\n").ok_or(Trouble::BadInput)?;
    let (title, input) = asked.split_once('\n').unwrap_or((asked, ""));
    let (directive, _) = title.split_once(' ').unwrap_or((title, ""));
    Ok(Case {
        title,
        directive,
        input,
        want,
    })
}

/// What a text of a file means, with pictures of control characters and rows for what they stand for.
pub(crate) fn meant(alloc: Global, text: &str) -> Result<String, Trouble> {
    let mut to = String::new(alloc);
    let mut pieces = text.split('⟨');
    push_pictures(&mut to, pieces.next().unwrap_or(""))?;
    for piece in pieces {
        let (row, following) = piece.split_once('⟩').ok_or(Trouble::BadInput)?;
        push_row(&mut to, row)?;
        push_pictures(&mut to, following)?;
    }
    Ok(to)
}

// Adds a row, as `4090×x`.
fn push_row(to: &mut String, row: &str) -> Result<(), Trouble> {
    let (count, text) = row.split_once('×').ok_or(Trouble::BadInput)?;
    let Ok(count) = count.parse::<u32>() else {
        return Err(Trouble::BadInput);
    };
    for _ in 0..count {
        push_pictures(to, text)?;
    }
    Ok(())
}

fn push_pictures(to: &mut String, text: &str) -> Result<(), Trouble> {
    for c in text.chars() {
        to.push(character_of(c))?;
    }
    Ok(())
}

// The character that a picture stands for, any other itself.
fn character_of(c: char) -> char {
    match c {
        '␀' => '\0',
        '␁' => '\u{1}',
        '␈' => '\u{8}',
        '␉' => '\t',
        '␊' => '\n',
        '␋' => '\u{b}',
        '␌' => '\u{c}',
        '␍' => '\r',
        '␛' => '\u{1b}',
        '␟' => '\u{1f}',
        '␠' => ' ',
        '␡' => '\u{7f}',
        _ => c,
    }
}
