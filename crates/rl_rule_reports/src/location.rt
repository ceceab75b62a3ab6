//! Where a fault is: a line of a session, a group, a rule, and a byte of a text.

use crate::findings::OutOfMemory;
use crate::layout::{Entry, line_of};
use std::fmt::Write;

/// The file or the line of a session, the group, the rule and the key that a fault is in, as far as it is in one.
#[derive(Clone, Copy)]
pub struct Location<'a> {
    file: Option<Place<'a>>,
    line: Option<usize>,
    group: Option<Spot<'a>>,
    rule: Option<Spot<'a>>,
    key: &'a str,
}

// A file by its name, and the lines of what it has.
#[derive(Clone, Copy)]
struct Place<'a> {
    name: &'a str,
    entries: &'a [Entry<'a>],
}

/// A group or a rule: its name, where it has one that groups may have, and its number, from 0.
#[derive(Clone, Copy)]
pub(crate) struct Spot<'a> {
    pub(crate) name: Option<&'a str>,
    pub(crate) number: usize,
}

impl<'a> Location<'a> {
    /// A document as a whole, on a line of a session or in a file of its own.
    pub fn whole(line: Option<usize>) -> Self {
        Location {
            file: None,
            line,
            group: None,
            rule: None,
            key: "",
        }
    }

    /// A document as a whole, in a file by its name.
    pub(crate) fn in_file(name: &'a str, entries: &'a [Entry<'a>]) -> Self {
        Location {
            file: Some(Place { name, entries }),
            line: None,
            group: None,
            rule: None,
            key: "",
        }
    }

    /// A group of it.
    pub(crate) fn of_group(self, group: Spot<'a>) -> Self {
        Location {
            file: self.file,
            line: self.line,
            group: Some(group),
            rule: None,
            key: "",
        }
    }

    /// A rule of that.
    pub(crate) fn of_rule(self, rule: Spot<'a>) -> Self {
        Location {
            file: self.file,
            line: self.line,
            group: self.group,
            rule: Some(rule),
            key: "",
        }
    }

    /// A key of one of them.
    pub(crate) fn of_key(self, key: &'a str) -> Self {
        Location {
            file: self.file,
            line: self.line,
            group: self.group,
            rule: self.rule,
            key,
        }
    }

    /// The name of the file, if it goes by one.
    pub(crate) fn file_name(&self) -> Option<&'a str> {
        match self.file {
            Some(file) => Some(file.name),
            None => None,
        }
    }
}

// The number of a spot, from 0.
fn number_of(spot: Option<Spot<'_>>) -> Option<usize> {
    match spot {
        Some(spot) => Some(spot.number),
        None => None,
    }
}

/// Writes the name of the file and the line in it, as `rules.toml:7: `, where the file goes by one.
pub(crate) fn push_place(text: &mut String, location: &Location<'_>) -> Result<(), OutOfMemory> {
    if let Some(file) = location.file {
        let (group, rule) = (number_of(location.group), number_of(location.rule));
        let line = line_of(file.entries, group, rule, location.key);
        write!(text, "{}:{line}: ", file.name)?;
    }
    Ok(())
}

/// Writes the position as `line 7: group shop, rule Errors: `, as much as there is of it.
pub fn push_location(text: &mut String, location: &Location<'_>) -> Result<(), OutOfMemory> {
    if let Some(line) = location.line {
        write!(text, "line {line}: ")?;
    }
    if location.group.is_some() {
        push_names(text, location)?;
        text.push_str(": ")?;
    }
    Ok(())
}

/// Writes the group and the rule as `group shop, rule Errors`.
pub(crate) fn push_names(text: &mut String, location: &Location<'_>) -> Result<(), OutOfMemory> {
    if let Some(group) = location.group {
        text.push_str("group ")?;
        push_spot(text, group)?;
    }
    if let Some(rule) = location.rule {
        text.push_str(", rule ")?;
        push_spot(text, rule)?;
    }
    Ok(())
}

// Writes the name, or the number from 1.
fn push_spot(text: &mut String, spot: Spot<'_>) -> Result<(), OutOfMemory> {
    match spot.name {
        Some(name) => text.push_str(name)?,
        None => write!(text, "number {}", spot.number.saturating_add(1))?,
    }
    Ok(())
}

/// A line without its line feed, cut in two at a byte.
#[derive(Clone, Copy)]
pub(crate) struct CutLine<'a> {
    pub(crate) before: &'a str,
    pub(crate) following: &'a str,
}

/// A text cut in two at a byte, where one of its characters begins there.
pub(crate) fn cut_at(text: &str, location: usize) -> (&str, &str) {
    if text.is_char_boundary(location) {
        text.split_at(location)
    } else {
        (text, "")
    }
}

/// The line that has the byte, or the last one where the text is no longer.
pub(crate) fn line_at(text: &str, location: usize) -> CutLine<'_> {
    let (front, back) = cut_at(text, location);
    let before = match front.rsplit_once('\n') {
        Some((_, before)) => before,
        None => front,
    };
    let following = match back.split_once('\n') {
        Some((following, _)) => following,
        None => back,
    };
    CutLine { before, following }
}

/// Writes the line after two spaces, and below it a caret under the byte.
pub(crate) fn push_line(text: &mut String, line: CutLine<'_>) -> Result<(), OutOfMemory> {
    writeln!(text, "  {}{}", line.before, line.following)?;
    text.push_str("  ")?;
    for letter in line.before.chars() {
        text.push(if letter == '\t' { '\t' } else { ' ' })?;
    }
    text.push_str("^\n")?;
    Ok(())
}
