//! Texts as they are written between quotes: some bytes as a backslash and a letter.
ghost use Rattle.std.specs.Prelude.{◌≡◌, ◌<◌, ◌+◌, ◌++◌, ◌∷◌, [], length, IsTrue, OnOk, string_bytes};
ghost use Rattle.std.specs.Option.{MatchOption};
ghost use Rattle.rl_plain.specs.Escapes.{escape, escaped, unescape, are_ascii, IsCutAt};

use std::alloc::AllocError;

/// Pushes the text, with each byte that the table has as a backslash and its letter.
pub fn push_escaped(text: &mut String, table: &[(u8, u8)], value: &str) -> Result<(), AllocError>
    requires { IsTrue (are_ascii table.now) }
    ensures { OnOk result (string_bytes text.new ≡ string_bytes text.old ++ escaped table.now value.now) }
{
    let mut rest = value;
    while let Some((plain, letter, following)) = cut(table, rest) {
        text.push_str(plain)?;
        text.push('\\')?;
        text.push(letter)?;
        rest = following;
    }
    text.push_str(rest)
}

/// How many bytes of the text are written as two.
pub fn count_escapes(table: &[(u8, u8)], value: &str) -> usize
    ensures { length (escaped table.now value.now) ≡ length value.now + result }
{
    let mut count = 0;
    for byte in value.as_bytes() {
        if letter_of(table, *byte).is_some() {
            count += 1;
        }
    }
    count
}

/// The byte that a backslash and the letter stand for.
pub fn unescape(table: &[(u8, u8)], letter: u8) -> Option<u8>
    ensures { result ≡ unescape table.now letter }
{
    for entry in table {
        if letter == entry.1 {
            return Some(entry.0);
        }
    }
    None
}

// What stands before the first byte that the table has, its letter, and the rest.
fn cut<'a>(table: &[(u8, u8)], value: &'a str) -> Option<(&'a str, char, &'a str)>
    requires { IsTrue (are_ascii table.now) }
    ensures { MatchOption result (escaped table.now value.now ≡ value.now) (λ parts. IsCutAt table.now value.now parts.0.now parts.1 parts.2.now) }
{
    for (index, byte) in value.as_bytes().iter().enumerate() {
        if let Some(letter) = letter_of(table, *byte) {
            let (plain, following) = (&value[..index], &value[index + 1..]);
            return Some((plain, char::from(letter), following));
        }
    }
    None
}

// The letter that the table has for the byte.
fn letter_of(table: &[(u8, u8)], byte: u8) -> Option<u8>
    ensures { MatchOption result (escape table.now byte ≡ byte ∷ []) (λ letter. escape table.now byte ≡ 92 ∷ letter ∷ []) }
{
    for entry in table {
        if byte == entry.0 {
            return Some(entry.1);
        }
    }
    None
}
