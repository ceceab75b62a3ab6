//! The front of the tokens: what a token is at its position, and why it is refused there.
ghost use Rattle.std.specs.Prelude.{◌≡◌, ◌-◌, ◌<◌, [], Ok, Err, min, not};
ghost use Rattle.std.specs.List.{list_any};
ghost use Rattle.rl_query.specs.Form.{matcher_form};
ghost use Rattle.rl_plain.specs.Answers.{Gives, Answers};
ghost use Rattle.rl_selector_text.specs.Fronts.{is_unsupported, is_unsupported_word, is_unsupported_sign, is_later_stage, is_operator, is_in_any_case, is_later_word, is_matching_word, is_joining_word, refusal, next, expected, is_sign, name_of, content_of, is_match, operator_of, checked_matcher, matcher_at};
ghost use Rattle.rl_query.specs.declared.token.Token.TheVariants as tokens;
ghost use Rattle.rl_query.specs.Tables.{function_text};

use crate::stop::{Stop, Stopped};
use rl_labels::{MatchOp, Matcher, MatcherFault};
use rl_plain::{OrMemory, PlainText, TryCopy};
use rl_query::fault::QueryFault;
use rl_query::query::{ALL_FUNCTIONS, RangeFunction};
use rl_query::token::{Lexeme, Sign, Token};

/// The words that begin a query in LogQL, beside those of range aggregations. The ruler reads the first five, in lower case.
pub const LATER_WORDS: [&str; 24] = [
    "sum",
    "count",
    "min",
    "max",
    "topk",
    "avg",
    "stddev",
    "stdvar",
    "bottomk",
    "approx_topk",
    "sort",
    "sort_desc",
    "label_replace",
    "vector",
    "sum_over_time",
    "avg_over_time",
    "max_over_time",
    "min_over_time",
    "first_over_time",
    "last_over_time",
    "stdvar_over_time",
    "stddev_over_time",
    "quantile_over_time",
    "rate_counter",
];

// The words that LogQL has after an operator.
const MATCHING_WORDS: [&str; 5] = ["bool", "on", "ignoring", "group_left", "group_right"];

/// Where in a query a token was looked for.
#[derive(Clone, Copy)]
pub enum Position {
    /// At the start of a query, also in parentheses.
    Start,
    /// Inside a vector aggregation or a term's parentheses.
    InTerm,
    /// After the slash of a ratio.
    Divisor,
    /// After the comparison of a threshold.
    InThreshold,
    /// After the parenthesis of `topk`.
    InParameter,
    /// After the selector of a range.
    AfterSelector,
    /// After the sign of a line filter.
    InFilter,
    /// After a line filter of a range.
    AfterFilter,
    /// After a parser.
    AfterParser,
    /// After the comparison of a label test.
    InTest,
    /// After label tests.
    AfterTests,
    /// After label tests in parentheses.
    AfterInnerTests,
    /// After the selector of a sieve.
    AfterSieveSelector,
    /// After a line filter of a sieve.
    AfterSieveFilter,
    /// After the duration.
    InRange,
    /// After the bracket that closes a range.
    AfterRange,
    /// After that bracket, where stages stand before the duration.
    AfterFilteredRange,
    /// After a term or a threshold.
    AfterTerm,
    Elsewhere,
}

/// The fault of a token that does not fit its position.
pub fn refusal(position: Position, offset: usize, token: &Token) -> Stop
    ensures { result ≡ refusal position offset token.now }
{
    if is_unsupported(position, token) {
        Stop::unsupported(offset)
    } else {
        Stop::syntax(offset)
    }
}

/// The fault of a word that does not fit its position.
pub fn refused_word(position: Position, offset: usize, word: &str) -> Stop
    ensures { result ≡ refusal position offset (tokens.Word word.now) }
{
    if is_unsupported_word(position, word) {
        Stop::unsupported(offset)
    } else {
        Stop::syntax(offset)
    }
}

// Whether LogQL has the token at the position, and the ruler has it not.
fn is_unsupported(position: Position, token: &Token) -> bool
    ensures { result ≡ is_unsupported position token.now }
{
    match token {
        Token::Word(word) => is_unsupported_word(position, word.as_str()),
        Token::Sign(sign) => is_unsupported_sign(position, *sign),
        _ => false,
    }
}

fn is_unsupported_word(position: Position, word: &str) -> bool
    ensures { result ≡ is_unsupported_word position word.now }
{
    match position {
        Position::Start | Position::InTerm => is_later_word(word),
        Position::Divisor | Position::InThreshold => is_later_word(word) || is_matching_word(word),
        Position::AfterRange | Position::AfterFilteredRange => {
            word.eq_ignore_ascii_case("offset")
        }
        Position::AfterTests | Position::AfterInnerTests => is_joining_word(word),
        Position::AfterTerm => is_joining_word(word) || word.eq_ignore_ascii_case("unless"),
        Position::InFilter | Position::AfterParser => true,
        Position::InTest => word.eq_ignore_ascii_case("ip"),
        Position::AfterFilter | Position::AfterSieveFilter => word.eq_ignore_ascii_case("or"),
        _ => false,
    }
}

// A word that LogQL has after an operator.
fn is_matching_word(word: &str) -> bool
    ensures { result ≡ is_matching_word word.now }
{
    is_one_of(&MATCHING_WORDS, word)
}

// A word that joins label tests.
pub(crate) fn is_joining_word(word: &str) -> bool
    ensures { result ≡ is_joining_word word.now }
{
    word.eq_ignore_ascii_case("and") || word.eq_ignore_ascii_case("or")
}

// Such a word, or that of a range aggregation in any case.
fn is_later_word(word: &str) -> bool
    ensures { result ≡ is_later_word word.now }
{
    is_one_of(&LATER_WORDS, word) || is_text_of_one(&ALL_FUNCTIONS, word)
}

fn is_text_of_one(functions: &[RangeFunction], word: &str) -> bool
    ensures { result ≡ list_any (λ function. is_in_any_case (function_text function) word.now) functions.now }
{
    functions.iter().any(|function| is_text_of(*function, word))
}

fn is_text_of(function: RangeFunction, word: &str) -> bool
    ensures { result ≡ is_in_any_case (function_text function) word.now }
{
    function.as_str().eq_ignore_ascii_case(word)
}

pub(crate) fn is_one_of(words: &[&str], word: &str) -> bool
    ensures { result ≡ list_any (λ one. is_in_any_case one.now word.now) words.now }
{
    words.iter().any(|one| one.eq_ignore_ascii_case(word))
}

fn is_unsupported_sign(position: Position, sign: Sign) -> bool
    ensures { result ≡ is_unsupported_sign position sign }
{
    match position {
        Position::Start => matches!(sign, Sign::OpenBrace | Sign::Minus | Sign::Plus),
        Position::Divisor => matches!(sign, Sign::Minus),
        Position::InThreshold => matches!(sign, Sign::Minus | Sign::OpenParenthesis),
        Position::AfterSelector | Position::AfterFilter | Position::AfterTests => {
            is_later_stage(sign)
        }
        Position::AfterSieveSelector | Position::AfterSieveFilter => {
            is_later_stage(sign) || matches!(sign, Sign::Pipe)
        }
        Position::AfterParser => is_later_stage(sign) || matches!(sign, Sign::Minus),
        Position::InTest | Position::InParameter => matches!(sign, Sign::Minus),
        Position::InRange => matches!(sign, Sign::Colon),
        Position::AfterRange => is_later_stage(sign) || matches!(sign, Sign::At),
        Position::AfterFilteredRange => matches!(sign, Sign::At),
        Position::AfterTerm => is_operator(sign),
        Position::InTerm | Position::InFilter | Position::AfterInnerTests | Position::Elsewhere =>
            false,
    }
}

// A sign that begins a stage in LogQL, and in the ruler none.
fn is_later_stage(sign: Sign) -> bool
    ensures { result ≡ is_later_stage sign }
{
    matches!(sign, Sign::ContainsPattern | Sign::LacksPattern)
}

// A sign between terms.
fn is_operator(sign: Sign) -> bool
    ensures { result ≡ is_operator sign }
{
    matches!(
        sign,
        Sign::Slash
            | Sign::Plus
            | Sign::Minus
            | Sign::Times
            | Sign::Percent
            | Sign::Power
            | Sign::At
            | Sign::OpenBracket
            | Sign::EqualTo
            | Sign::NotEqual
            | Sign::Greater
            | Sign::GreaterOrEqual
            | Sign::Less
            | Sign::LessOrEqual
    )
}

/// The first token, and those after it.
pub fn next(lexemes: &[Lexeme]) -> Result<(&Lexeme, &[Lexeme]), Stop>
    ensures { Answers (λ x. (x.0.now, x.1.now)) result (next lexemes.now) }
{
    match lexemes {
        [first, rest @ ..] => Ok((first, rest)),
        [] => Err(Stop::syntax(0)),
    }
}

/// What follows the sign, which has to stand at the front.
#[tactic(auto, unfolding(crate::specs::Fronts::expected))]
pub fn expected(sign: Sign, position: Position, lexemes: &[Lexeme]) -> Result<&[Lexeme], Stop>
    ensures { Answers (λ rest. rest.now) result (expected sign position lexemes.now) }
{
    let (lexeme, rest) = next(lexemes)?;
    if is_sign(sign, &lexeme.token) {
        return Ok(rest);
    }
    Err(refusal(position, lexeme.offset, &lexeme.token))
}

/// Whether a token is the sign.
pub fn is_sign(sign: Sign, token: &Token) -> bool
    ensures { result ≡ is_sign sign token.now }
{
    match token {
        Token::Sign(found) => found.as_str() == sign.as_str(),
        _ => false,
    }
}

/// The word that a token is.
pub fn name_of(lexeme: &Lexeme) -> Result<&PlainText, Stop>
    ensures { Answers (λ name. name.now) result (name_of lexeme.now.offset lexeme.now.token) }
{
    match &lexeme.token {
        Token::Word(name) => Ok(name),
        token => Err(refusal(Position::Elsewhere, lexeme.offset, token)),
    }
}

// The text that a token is.
fn content_of(lexeme: &Lexeme) -> Result<&PlainText, Stop>
    ensures { Answers (λ content. content.now) result (content_of lexeme.now.offset lexeme.now.token) }
{
    match &lexeme.token {
        Token::Text(content) => Ok(content),
        token => Err(refusal(Position::Elsewhere, lexeme.offset, token)),
    }
}

// A token that is the operator of a matcher.
pub(crate) fn is_match(token: &Token) -> bool
    ensures { result ≡ is_match token.now }
{
    matches!(
        token,
        Token::Sign(Sign::Equal | Sign::NotEqual | Sign::Matches | Sign::NotMatches)
    )
}

// The operator of a matcher that a token is.
fn operator_of(lexeme: &Lexeme) -> Result<MatchOp, Stop>
    ensures { result ≡ operator_of lexeme.now.offset lexeme.now.token }
{
    match &lexeme.token {
        Token::Sign(Sign::Equal) => Ok(MatchOp::Equal),
        Token::Sign(Sign::NotEqual) => Ok(MatchOp::NotEqual),
        Token::Sign(Sign::Matches) => Ok(MatchOp::Matches),
        Token::Sign(Sign::NotMatches) => Ok(MatchOp::NotMatches),
        token => Err(refusal(Position::Elsewhere, lexeme.offset, token)),
    }
}

// The matcher of its parts, where its name is one, and its pattern.
#[tactic(auto, using(crate::proofs::Items::unread))]
fn checked_matcher(
    offset: usize,
    name: &PlainText,
    op: MatchOp,
    value: &PlainText,
) -> Result<Matcher, Stopped>
    ensures { Gives matcher_form result (checked_matcher offset (record { name = name.now; op = op; value = value.now })) }
{
    match Matcher::read(name.try_copy()?, op, value.try_copy()?) {
        Ok(matcher) => Ok(matcher),
        Err(OrMemory::Fault(MatcherFault::BadName)) => Err(Stopped::Fault(Stop::syntax(offset))),
        Err(OrMemory::Fault(MatcherFault::BadRegex)) => Err(Stopped::Fault(Stop::new(
            QueryFault::BadRegex,
            offset,
        ))),
        Err(OrMemory::Memory) => Err(Stopped::Memory),
    }
}

// One matcher: a name, an operator and a text.
#[tactic(auto, unfolding(crate::specs::Fronts::matcher_at))]
pub(crate) fn matcher_at(lexemes: &[Lexeme]) -> Result<(Matcher, &[Lexeme]), Stopped>
    ensures { Gives (λ x. (matcher_form x.0, x.1.now)) result (matcher_at lexemes.now) }
{
    let (first, rest) = next(lexemes)?;
    let name = name_of(first)?;
    let (sign, rest) = next(rest)?;
    let op = operator_of(sign)?;
    let (text, rest) = next(rest)?;
    let value = content_of(text)?;
    let matcher = checked_matcher(first.offset, name, op, value)?;
    Ok((matcher, rest))
}
