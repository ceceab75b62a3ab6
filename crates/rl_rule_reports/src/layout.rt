//! The lines at which a document has its groups, its rules and their keys.

use crate::findings::OutOfMemory;
use std::alloc::Global;

// The quotes of texts of several lines.
const LONG_QUOTES: [&str; 2] = ["\"\"\"", "'''"];

/// A line at which a table or one of its keys begins: of the file, of a group or of a rule, each counted from 0. The key is empty
/// at the head of the table.
#[derive(Clone, Copy)]
pub(crate) struct Entry<'a> {
    group: Option<usize>,
    rule: Option<usize>,
    key: &'a str,
    line: usize,
}

// What is open while lines are read.
#[derive(Drop)]
struct Reading {
    group: Option<usize>,
    rule: Option<usize>,
    // Inside the array at the key `rules`.
    is_in_array: bool,
    // The quotes of a text that goes on.
    quotes: Option<&'static str>,
}

/// The entries of a document, from the first line on. What begins no line has none.
pub(crate) fn entries_of(alloc: Global, document: &str) -> Result<Vec<Entry<'_>>, OutOfMemory> {
    let mut entries = Vec::new(alloc);
    let mut reading = Reading {
        group: None,
        rule: None,
        is_in_array: false,
        quotes: None,
    };
    let mut number = 0usize;
    for line in document.split('\n') {
        number = number.saturating_add(1);
        if let Some(key) = reading.pass(line.trim()) {
            entries.push(Entry {
                group: reading.group,
                rule: reading.rule,
                key,
                line: number,
            })?;
        }
    }
    Ok(entries)
}

impl Reading {
    // The key that begins the line, or an empty one for the head of a table, if it has one of them.
    fn pass<'a>(&mut self, line: &'a str) -> Option<&'a str> {
        if let Some(quotes) = self.quotes {
            if line.contains(quotes) {
                self.quotes = None;
            }
            return None;
        }
        if line.starts_with('#') {
            return None;
        }
        self.quotes = opened_in(line);
        if self.is_in_array && line.starts_with('{') {
            self.rule = next(self.rule);
            return Some("");
        }
        if self.is_in_array && line.starts_with(']') {
            self.is_in_array = false;
            self.rule = None;
            return None;
        }
        match head_of(line) {
            Some(head) => self.pass_head(head),
            None => self.pass_key(line),
        }
    }

    // The head of a table.
    fn pass_head<'a>(&mut self, head: &'a str) -> Option<&'a str> {
        self.is_in_array = false;
        match head {
            "groups" => {
                self.group = next(self.group);
                self.rule = None;
                Some("")
            }
            "groups.rules" => {
                self.rule = next(self.rule);
                Some("")
            }
            _ => match head.rsplit_once('.') {
                Some((_, key)) => Some(key),
                None => Some(head),
            },
        }
    }

    // A key and what stands at it.
    fn pass_key<'a>(&mut self, line: &'a str) -> Option<&'a str> {
        let (name, value) = line.split_once('=')?;
        let name = match name.split_once('.') {
            Some((front, _)) => front,
            None => name,
        };
        let name = name.trim().trim_matches('"');
        if name == "rules" && value.trim() == "[" {
            self.is_in_array = true;
        }
        Some(name)
    }
}

// The number after one.
fn next(number: Option<usize>) -> Option<usize> {
    match number {
        Some(number) => Some(number.saturating_add(1)),
        None => Some(0),
    }
}

// What stands in the brackets of the head of a table.
fn head_of(line: &str) -> Option<&str> {
    let rest = line.strip_prefix('[')?;
    let rest = rest.strip_prefix('[').unwrap_or(rest);
    let (head, _) = rest.split_once(']')?;
    Some(head.trim())
}

// The quotes of a text that goes on in the next line.
fn opened_in(line: &str) -> Option<&'static str> {
    for quotes in LONG_QUOTES {
        if line.split(quotes).count() % 2 == 0 {
            return Some(quotes);
        }
    }
    None
}

/// The line at which a text of several lines begins that no line closes, and its quotes, if there is one.
pub(crate) fn open_text(document: &str) -> Option<(usize, &'static str)> {
    let mut open = None;
    let mut number = 0usize;
    for line in document.split('\n') {
        number = number.saturating_add(1);
        open = match open {
            Some((_, quotes)) if line.contains(quotes) => None,
            Some(open) => Some(open),
            None if line.trim_start().starts_with('#') => None,
            None => match opened_in(line) {
                Some(quotes) => Some((number, quotes)),
                None => None,
            },
        };
    }
    open
}

/// The line of a key of the file, of a group or of a rule; else that of the nearest table that has a line of its own.
pub(crate) fn line_of(
    entries: &[Entry<'_>],
    group: Option<usize>,
    rule: Option<usize>,
    key: &str,
) -> usize {
    let near = if rule.is_some() { "rules" } else { "" };
    let wanted = [
        (group, rule, key),
        (group, rule, ""),
        (group, None, near),
        (group, None, ""),
        (None, None, "groups"),
    ];
    for (group, rule, key) in wanted {
        if let Some(line) = find(entries, group, rule, key) {
            return line;
        }
    }
    1
}

fn find(
    entries: &[Entry<'_>],
    group: Option<usize>,
    rule: Option<usize>,
    key: &str,
) -> Option<usize> {
    for entry in entries {
        if entry.group == group && entry.rule == rule && entry.key == key {
            return Some(entry.line);
        }
    }
    None
}
