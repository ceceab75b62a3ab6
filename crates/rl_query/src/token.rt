//! The tokens of a query text.
ghost use Rattle.std.specs.Prelude.{◌≡◌};
ghost use Rattle.rl_query.specs.Tables.{sign_text};

use rl_plain::PlainText;

// What is escaped between quotes, beside characters by their number.
pub const ESCAPES: [(u8, u8); 5] = [
    (b'\\', b'\\'),
    (b'"', b'"'),
    (b'\n', b'n'),
    (b'\r', b'r'),
    (b'\t', b't'),
];

/// A sign of the grammar.
#[derive(Clone, Copy, PartialEq, Eq)]
pub enum Sign {
    OpenBrace,
    CloseBrace,
    OpenParenthesis,
    CloseParenthesis,
    OpenBracket,
    CloseBracket,
    Comma,
    Colon,
    Equal,
    EqualTo,
    NotEqual,
    Matches,
    NotMatches,
    Greater,
    GreaterOrEqual,
    Less,
    LessOrEqual,
    Pipe,
    Contains,
    ContainsMatch,
    ContainsPattern,
    LacksPattern,
    Slash,
    Plus,
    Minus,
    Times,
    Percent,
    Power,
    At,
}

impl Sign {
    // The sign as it is written.
    pub fn as_str(self) -> &'static str
        ensures { result.now ≡ sign_text self }
    {
        match self {
            Sign::OpenBrace => "{",
            Sign::CloseBrace => "}",
            Sign::OpenParenthesis => "(",
            Sign::CloseParenthesis => ")",
            Sign::OpenBracket => "[",
            Sign::CloseBracket => "]",
            Sign::Comma => ",",
            Sign::Colon => ":",
            Sign::Equal => "=",
            Sign::EqualTo => "==",
            Sign::NotEqual => "!=",
            Sign::Matches => "=~",
            Sign::NotMatches => "!~",
            Sign::Greater => ">",
            Sign::GreaterOrEqual => ">=",
            Sign::Less => "<",
            Sign::LessOrEqual => "<=",
            Sign::Pipe => "|",
            Sign::Contains => "|=",
            Sign::ContainsMatch => "|~",
            Sign::ContainsPattern => "|>",
            Sign::LacksPattern => "!>",
            Sign::Slash => "/",
            Sign::Plus => "+",
            Sign::Minus => "-",
            Sign::Times => "*",
            Sign::Percent => "%",
            Sign::Power => "^",
            Sign::At => "@",
        }
    }
}

/// A token of a query text.
#[derive(Drop, PartialEq, Eq)]
pub enum Token {
    /// A name or a keyword.
    Word(PlainText),
    /// A run of digits, letters, `_`, `.` and characters beyond ASCII that begins with a digit.
    Number(PlainText),
    /// What stands between quotes or backquotes, escapes read.
    Text(PlainText),
    Sign(Sign),
    /// What begins no token, up to the end of the text.
    Bad,
    End,
}

/// A token and the byte at which it begins.
#[derive(Drop)]
pub struct Lexeme {
    pub token: Token,
    pub offset: usize,
}
