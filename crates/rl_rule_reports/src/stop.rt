//! Where the reading of a query stopped: the token there, and those around it.

use rl_query::token::{Lexeme, Sign, Token};

/// A token, as far as advice asks for it.
#[derive(Clone, Copy)]
pub(crate) enum Piece<'a> {
    Word(&'a str),
    Number(&'a str),
    Text,
    Sign(Sign),
    Bad,
    End,
    // Before the first token, or after the last.
    Nothing,
}

/// The byte at which reading stopped, and the tokens of the query.
#[derive(Clone, Copy)]
pub(crate) struct Stop<'a> {
    pub(crate) query: &'a str,
    pub(crate) byte: usize,
    lexemes: &'a [Lexeme],
    index: usize,
}

impl<'a> Stop<'a> {
    /// At a byte of the query that has these tokens.
    pub(crate) fn new(query: &'a str, byte: usize, lexemes: &'a [Lexeme]) -> Self {
        let mut index = 0usize;
        for lexeme in lexemes {
            if lexeme.offset < byte {
                index = index.saturating_add(1);
            }
        }
        Stop {
            query,
            byte,
            lexemes,
            index,
        }
    }

    /// The token at which reading stopped.
    pub(crate) fn piece(self) -> Piece<'a> {
        piece_of(self.lexemes.get(self.index))
    }

    /// The token that stands so many before it.
    pub(crate) fn before(self, count: usize) -> Piece<'a> {
        match self.index.checked_sub(count) {
            Some(index) => piece_of(self.lexemes.get(index)),
            None => Piece::Nothing,
        }
    }

    /// The token that stands so many after it.
    pub(crate) fn following(self, count: usize) -> Piece<'a> {
        piece_of(self.lexemes.get(self.index.saturating_add(count)))
    }

    /// The byte at which the token before it begins.
    pub(crate) fn byte_before(self) -> Option<usize> {
        let index = self.index.checked_sub(1)?;
        match self.lexemes.get(index) {
            Some(lexeme) => Some(lexeme.offset),
            None => None,
        }
    }

    /// Whether a token after it begins with a quote and is not closed.
    pub(crate) fn has_quote_following(self) -> bool {
        for lexeme in self.lexemes {
            if lexeme.offset > self.byte && matches!(lexeme.token, Token::Bad) {
                let quote = self.query.as_bytes().get(lexeme.offset);
                return quote == Some(&b'"') || quote == Some(&b'`');
            }
        }
        false
    }
}

fn piece_of(lexeme: Option<&Lexeme>) -> Piece<'_> {
    let Some(lexeme) = lexeme else {
        return Piece::Nothing;
    };
    match &lexeme.token {
        Token::Word(word) => Piece::Word(word.as_str()),
        Token::Number(number) => Piece::Number(number.as_str()),
        Token::Text(_) => Piece::Text,
        Token::Sign(sign) => Piece::Sign(*sign),
        Token::Bad => Piece::Bad,
        Token::End => Piece::End,
    }
}

/// A comparison of a threshold as it is written.
pub(crate) fn comparison_of(piece: Piece<'_>) -> Option<&'static str> {
    match piece {
        Piece::Sign(sign) if is_comparison(sign) => Some(sign.as_str()),
        _ => None,
    }
}

fn is_comparison(sign: Sign) -> bool {
    matches!(
        sign,
        Sign::EqualTo
            | Sign::NotEqual
            | Sign::Greater
            | Sign::GreaterOrEqual
            | Sign::Less
            | Sign::LessOrEqual
    )
}
