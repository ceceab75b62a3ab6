//! The lexer: the tokens of a text.
ghost use Rattle.std.specs.Prelude.{◌≡◌, [], ◌∷◌, ◌+◌, ◌-◌, ◌<◌, ◌≤◌, true, false, length, drop, IfSome, IfOk, Some, slice_index, ◌++◌};
ghost use Rattle.std.specs.Option.{option_map};
ghost use Rattle.rl_labels.specs.Name.{is_name_start, is_name_byte};
ghost use Rattle.rl_selector_text.specs.Lexing.{is_space, gap_len, character, unicode_at, escape_at, escape_front, quoted, backquoted, sign_at, token_at, lexemes_of, or_bad, is_in_run};
ghost use Rattle.rl_selector_text.specs.laws.Runs.{run_ends};
ghost use Rattle.rl_query.specs.Tables.{two_bytes, one_byte};
ghost use Rattle.rl_query.specs.declared.token.Token.TheVariants as tokens;

use rl_plain::{ByteClass, PlainText, after_first, hex_number, run_front, unescape};
use rl_query::token::{ESCAPES, Lexeme, Sign, Token};
use std::alloc::{AllocError, Global};

/// The tokens of a text with the bytes at which they begin. The last is the end.
pub fn lexemes_of(alloc: Global, text: &str) -> Result<Vec<Lexeme>, AllocError>
    ensures { IfOk result (λ lexemes. lexemes.items ≡ lexemes_of text.now) }
{
    let mut lexemes = Vec::new(alloc);
    let mut rest = text;
    for _turn in 0..text.len() {
        let start = past_gap(rest);
        if start.is_empty() {
            return with_end(lexemes, text.len());
        }
        let offset = text.len().saturating_sub(start.len());
        let (token, following) = token_at(alloc, start)?;
        lexemes.push(Lexeme { token, offset })?;
        rest = following;
    }
    with_end(lexemes, text.len())
}

// The tokens, and the end.
fn with_end(lexemes: Vec<Lexeme>, offset: usize) -> Result<Vec<Lexeme>, AllocError>
    ensures { IfOk result (λ all. all.items ≡ lexemes.items ++ record { token = tokens.End; offset = offset } ∷ []) }
{
    let mut lexemes = lexemes;
    lexemes.push(Lexeme {
        token: Token::End,
        offset,
    })?;
    Ok(lexemes)
}

// What follows spaces and comments.
#[tactic(auto, using(crate::proofs::Cuts::gap_boundary))]
fn past_gap(text: &str) -> &str
    ensures { result.now ≡ drop (gap_len false text.now) text.now }
{
    let (_, rest) = text.split_at(gap_len(text.as_bytes()));
    rest
}

fn gap_len(bytes: &[u8]) -> usize
    ensures { result ≡ gap_len false bytes.now }
{
    let mut comment = false;
    for (index, byte) in bytes.iter().enumerate() {
        if comment {
            comment = *byte != b'\n';
        } else if *byte == b'#' {
            comment = true;
        } else if !is_space(*byte) {
            return index;
        }
    }
    bytes.len()
}

fn is_space(byte: u8) -> bool
    ensures { result ≡ is_space byte }
{
    byte == b' ' || byte == b'\t' || byte == b'\r' || byte == b'\n'
}

// The token that begins the text, and what follows it.
#[tactic(auto, unfolding(crate::specs::Lexing::token_at))]
fn token_at(alloc: Global, text: &str) -> Result<(Token, &str), AllocError>
    ensures { IfOk result (λ x. (x.0, x.1.now) ≡ token_at text.now) }
{
    let bytes = text.as_bytes();
    if bytes.is_empty() {
        return Ok((Token::End, text));
    }
    let first = bytes[0];
    if is_name_start(first) {
        let (word, rest) = run_front(&Run::Word, text);
        return Ok((Token::Word(PlainText::from_str(alloc, word)?), rest));
    }
    if first.is_ascii_digit() {
        let (number, rest) = run_front(&Run::Number, text);
        return Ok((Token::Number(PlainText::from_str(alloc, number)?), rest));
    }
    if first == b'"' {
        let following = after_first(text);
        return Ok(text_or_bad(quoted(alloc, following)?));
    }
    if first == b'`' {
        let following = after_first(text);
        return Ok(text_or_bad(backquoted(alloc, following)?));
    }
    Ok(sign_or_bad(text))
}

/// Bytes that go on with each other.
#[derive(Clone, Copy)]
pub enum Run {
    Word,
    Number,
    /// What stands for itself between quotes.
    Plain,
    /// What stands for itself between backquotes.
    Raw,
}

impl ByteClass for Run {
    ghost has = { is_in_run };

    fn has(&self, byte: u8) -> bool {
        match *self {
            Run::Word => is_name_byte(byte),
            Run::Number => is_name_byte(byte) || byte == b'.' || byte >= 128,
            Run::Plain => byte != b'"' && byte != b'\\',
            Run::Raw => byte != b'`',
        }
    }

    ghost cuts = { run_ends };
}

// The longest sign at the front, and what follows it.
#[tactic(auto, using(rl_plain::specs::laws::Cuts::rest_ascii))]
fn sign_front(text: &str) -> Option<(Sign, &str)>
    ensures { option_map (λ x. (x.0, x.1.now)) result ≡ sign_at text.now }
{
    let (sign, len) = sign_at(text.as_bytes())?;
    let (_, rest) = text.split_at(len);
    Some((sign, rest))
}

// The sign with what follows it, or a bad token.
fn sign_or_bad(text: &str) -> (Token, &str)
    ensures { (result.0, result.1.now) ≡ or_bad tokens.Sign (sign_at text.now) }
{
    match sign_front(text) {
        Some((sign, rest)) => (Token::Sign(sign), rest),
        None => (Token::Bad, ""),
    }
}

// A text with what follows it, or a bad token.
fn text_or_bad(read: Option<(PlainText, &str)>) -> (Token, &str)
    ensures { (result.0, result.1.now) ≡ or_bad tokens.Text (option_map (λ x. (x.0, x.1.now)) read.entry) }
{
    match read {
        Some((text, rest)) => (Token::Text(text), rest),
        None => (Token::Bad, ""),
    }
}

// After a backslash: the character of the escape, and what follows it.
#[tactic(auto, using(crate::proofs::Texts::escape_boundary))]
fn escape_front(text: &str) -> Option<(char, &str)>
    ensures { option_map (λ x. (x.0, x.1.now)) result ≡ escape_front text.now }
{
    let (c, len) = escape_at(text.as_bytes())?;
    let (_, rest) = text.split_at(len);
    Some((c, rest))
}

// After a backquote: the text up to the next one, and what follows it.
#[tactic(auto, using(crate::proofs::Texts::raw_read, crate::proofs::Texts::stop_first, crate::specs::laws::Runs::raw_stop))]
fn backquoted(alloc: Global, text: &str) -> Result<Option<(PlainText, &str)>, AllocError>
    ensures { IfOk result (λ found. option_map (λ x. (x.0, x.1.now)) found ≡ backquoted text.now) }
{
    let (raw, following) = run_front(&Run::Raw, text);
    if following.is_empty() {
        return Ok(None);
    }
    let rest = after_first(following);
    Ok(Some((PlainText::from_str(alloc, raw)?, rest)))
}

// After a quote: the text up to the next quote that is not escaped, and what follows it.
#[tactic(auto, using(crate::proofs::Texts::stop_first, crate::specs::laws::Runs::plain_stop))]
fn quoted(alloc: Global, text: &str) -> Result<Option<(PlainText, &str)>, AllocError>
    ensures { IfOk result (λ found. option_map (λ x. (x.0, x.1.now)) found ≡ quoted 0 text.now) }
{
    let mut content = String::new(alloc);
    let mut rest = text;
    loop {
        let (plain, following) = run_front(&Run::Plain, rest);
        content.push_str(plain)?;
        if following.is_empty() {
            return Ok(None);
        }
        let after = after_first(following);
        if following.as_bytes()[0] == b'"' {
            return Ok(Some((PlainText::from_string(content), after)));
        }
        let Some((c, left)) = escape_front(after) else {
            return Ok(None);
        };
        content.push(c)?;
        rest = left;
    }
}

// The longest sign at the front, and how many bytes it takes.
fn sign_at(bytes: &[u8]) -> Option<(Sign, usize)>
    ensures sign { option_map (λ x. (x.0, drop x.1 bytes.now)) result ≡ sign_at bytes.now }
    ensures ascii { IfSome result (λ x. (0 < x.1) × (x.1 ≤ length bytes.now) × (slice_index bytes.now (x.1 - 1) < 128)) }
{
    match bytes {
        [] => None,
        [first] => Some((one_byte(*first)?, 1)),
        [first, second, ..] => {
            if let Some(sign) = two_bytes(*first, *second) {
                return Some((sign, 2));
            }
            Some((one_byte(*first)?, 1))
        }
    }
}

fn is_name_start(byte: u8) -> bool
    ensures { result ≡ is_name_start byte }
{
    byte.is_ascii_lowercase() || byte.is_ascii_uppercase() || byte == b'_'
}

fn is_name_byte(byte: u8) -> bool
    ensures { result ≡ is_name_byte byte }
{
    is_name_start(byte) || byte.is_ascii_digit()
}

// The character of four hexadecimal digits at the front.
fn unicode_at(bytes: &[u8]) -> Option<char>
    ensures { result ≡ unicode_at bytes.now }
{
    if bytes.len() < 4 {
        return None;
    }
    character(hex_number(bytes[0], bytes[1], bytes[2], bytes[3])?)
}

fn character(number: u32) -> Option<char>
    requires { number < 65536 }
    ensures { result ≡ character number }
{
    if number >= 0xD800 && number <= 0xDFFF {
        return None;
    }
    char::from_u32(number)
}

// After a backslash: the character of the escape, and how many bytes it takes.
fn escape_at(bytes: &[u8]) -> Option<(char, usize)>
    ensures { result ≡ escape_at bytes.now }
{
    match bytes {
        [] => None,
        [b'u', digits @ ..] => {
            let c = unicode_at(digits)?;
            Some((c, 5))
        }
        [letter, ..] => {
            let byte = unescape(&ESCAPES, *letter)?;
            Some((char::from(byte), 1))
        }
    }
}

fn two_bytes(first: u8, second: u8) -> Option<Sign>
    ensures { result ≡ two_bytes first second }
{
    match (first, second) {
        (b'=', b'=') => Some(Sign::EqualTo),
        (b'!', b'=') => Some(Sign::NotEqual),
        (b'>', b'=') => Some(Sign::GreaterOrEqual),
        (b'<', b'=') => Some(Sign::LessOrEqual),
        (b'|', b'=') => Some(Sign::Contains),
        (b'=', b'~') => Some(Sign::Matches),
        (b'!', b'~') => Some(Sign::NotMatches),
        (b'|', b'~') => Some(Sign::ContainsMatch),
        (b'|', b'>') => Some(Sign::ContainsPattern),
        (b'!', b'>') => Some(Sign::LacksPattern),
        _ => None,
    }
}

fn one_byte(byte: u8) -> Option<Sign>
    ensures { result ≡ one_byte byte }
{
    match byte {
        b'{' => Some(Sign::OpenBrace),
        b'}' => Some(Sign::CloseBrace),
        b'(' => Some(Sign::OpenParenthesis),
        b')' => Some(Sign::CloseParenthesis),
        b'[' => Some(Sign::OpenBracket),
        b']' => Some(Sign::CloseBracket),
        b',' => Some(Sign::Comma),
        b':' => Some(Sign::Colon),
        b'=' => Some(Sign::Equal),
        b'>' => Some(Sign::Greater),
        b'<' => Some(Sign::Less),
        b'|' => Some(Sign::Pipe),
        b'/' => Some(Sign::Slash),
        b'+' => Some(Sign::Plus),
        b'-' => Some(Sign::Minus),
        b'*' => Some(Sign::Times),
        b'%' => Some(Sign::Percent),
        b'^' => Some(Sign::Power),
        b'@' => Some(Sign::At),
        _ => None,
    }
}
