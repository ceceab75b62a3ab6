//! Cases of plain data: texts, lists, copies and comparisons.
//!
//! A list of numbers is `7,8`; `-` is an empty list, or no number. A pair has `=` between its halves.
use crate::compared::compared;
use crate::given::{Read, list_in, number_in, words_of};
use crate::output::{push_debug, push_value};
use crate::trouble::Trouble;
use rl_plain::{PlainList, PlainText};
use std::alloc::Global;

pub(crate) fn answer(output: &mut String, directive: &str, input: &str) -> Result<(), Trouble> {
    match directive {
        "text" => text(output, input),
        "list" => list(output, input),
        "put" => put(output, input),
        "bools" => compared::<bool>(output, input),
        "numbers" => compared::<u64>(output, input),
        "texts" => compared::<PlainText>(output, input),
        "options" => compared::<Option<u64>>(output, input),
        "pairs" => compared::<(u64, bool)>(output, input),
        "lists" => compared::<PlainList<u64>>(output, input),
        "shelves" => compared::<Shelves>(output, input),
        _ => Err(Trouble::NoSuchDirective),
    }
}

impl Read for bool {
    fn read(_alloc: Global, text: &str) -> Result<Self, Trouble> {
        Ok(text == "true")
    }
}

impl Read for Option<u64> {
    fn read(_alloc: Global, text: &str) -> Result<Self, Trouble> {
        if text == "-" {
            return Ok(None);
        }
        Ok(Some(number_in(text)?))
    }
}

impl Read for PlainList<u64> {
    fn read(alloc: Global, text: &str) -> Result<Self, Trouble> {
        Ok(PlainList::from_vec(list_in(alloc, text, ",")?))
    }
}

type Shelves = PlainList<(PlainText, PlainList<u64>)>;

// Lists by their names, as `left=4;right=-`.
impl Read for Shelves {
    fn read(alloc: Global, text: &str) -> Result<Self, Trouble> {
        Ok(PlainList::from_vec(list_in(alloc, text, ";")?))
    }
}

// A text's length, and what it holds: shown, borrowed and given back.
fn text(output: &mut String, input: &str) -> Result<(), Trouble> {
    let text = PlainText::from_string(String::from_str(*output.allocator(), input)?);
    push_text(output, &text)?;
    let given_back = text.into_string();
    push_value(output, &given_back)
}

fn push_text(output: &mut String, text: &PlainText) -> Result<(), Trouble> {
    let (len, is_empty, part) = (text.len(), text.is_empty(), text.as_str());
    let shown = format!(in text.allocator(); "{len} {is_empty} {text} {part}")?;
    write!(output, "{shown} ")?;
    Ok(())
}

// A list's length, whether it is the empty one, and what it holds: borrowed and given back.
fn list(output: &mut String, input: &str) -> Result<(), Trouble> {
    let list = PlainList::<u64>::read(*output.allocator(), input)?;
    push_list(output, &list)?;
    let given_back = list.into_vec();
    push_debug(output, &given_back)
}

fn push_list(output: &mut String, list: &PlainList<u64>) -> Result<(), Trouble> {
    let (len, is_empty, items) = (list.len(), list.is_empty(), list.as_slice());
    let is_new = *list == PlainList::new(list.allocator());
    write!(output, "{len} {is_empty} {is_new} {items:?} ")?;
    Ok(())
}

// A list with an item instead of the one at an index, as `7,8 1 9`.
fn put(output: &mut String, input: &str) -> Result<(), Trouble> {
    let (items, rest) = words_of(input);
    let (index, item) = words_of(rest);
    let (index, item) = (number_in(index)? as usize, number_in(item)?);
    let mut list = PlainList::<u64>::read(*output.allocator(), items)?;
    if index >= list.len() {
        return Err(Trouble::BadInput);
    }
    list.set(index, item);
    push_debug(output, &list.as_slice())
}
