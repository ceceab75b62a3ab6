//! Line filters and stages, read from their tokens.
ghost use Rattle.std.specs.Prelude.{◌≡◌, ℕ, ◌≤◌, Bool, ◌||◌, [], Option, None, Some, IfOk, length, map, false};
ghost use Rattle.rl_plain.specs.Answers.{Gives, Answers};
ghost use Rattle.rl_query.specs.Form.{filter_form, stage_form, parses};
ghost use Rattle.rl_query.specs.Limits.{is_line_pattern, most_stages};
ghost use Rattle.rl_selector_text.specs.Testing.{operator_comes};
ghost use Rattle.rl_selector_text.specs.Parsing.{filter_op, filter_text, checked_filter, filter_at, filters_at, begins_stage, stage_comes, named_parser, parser_of, only_parser, is_later_stage_word, word_begins, parenthesis_begins, tests_begin, tested_at, piped_at, stage_at, stages_at, stages_in, after_stage, after_stages};

use crate::front::{Position, is_one_of, is_sign, next, refusal};
use crate::room::Room;
use crate::stop::{Stop, Stopped, offset_of};
use crate::testing::{operator_comes, tests_at};
use rl_patterns::is_pattern;
use rl_plain::{PlainText, TryCopy};
use rl_query::fault::QueryFault;
use rl_query::filter::{LineFilter, LineOp};
use rl_query::stages::{Parser, Stage};
use rl_query::token::{Lexeme, Sign, Token};
use std::alloc::Global;

/// The most stages of a text.
pub const MOST_STAGES: usize = 256;

/// The words that begin a stage in LogQL. `json` and `logfmt` are supported in lower case, the others in no case.
pub const LATER_STAGES: [&str; 12] = [
    "json",
    "logfmt",
    "line_format",
    "label_format",
    "pattern",
    "regexp",
    "unpack",
    "drop",
    "keep",
    "decolorize",
    "unwrap",
    "distinct",
];

// The line filter that a token begins.
fn filter_op(token: &Token) -> Option<LineOp>
    ensures { result ≡ filter_op token.now }
{
    match token {
        Token::Sign(Sign::Contains) => Some(LineOp::Contains),
        Token::Sign(Sign::NotEqual) => Some(LineOp::Lacks),
        Token::Sign(Sign::ContainsMatch) => Some(LineOp::Matches),
        Token::Sign(Sign::NotMatches) => Some(LineOp::NotMatches),
        _ => None,
    }
}

// The text of a line filter.
fn filter_text(lexeme: &Lexeme) -> Result<&PlainText, Stop>
    ensures { Answers (λ text. text.now) result (filter_text lexeme.now.offset lexeme.now.token) }
{
    match &lexeme.token {
        Token::Text(text) => Ok(text),
        token => Err(refusal(Position::InFilter, lexeme.offset, token)),
    }
}

fn is_line_pattern(op: LineOp) -> bool
    ensures { result ≡ is_line_pattern op }
{
    matches!(op, LineOp::Matches | LineOp::NotMatches)
}

// The line filter of its parts, where its pattern is one.
fn checked_filter(op: LineOp, offset: usize, text: &PlainText) -> Result<LineFilter, Stopped>
    ensures { Gives filter_form result (checked_filter offset (record { op = op; text = text.now })) }
{
    if is_line_pattern(op) && !is_pattern(text.allocator(), text.as_str())? {
        return Err(Stopped::Fault(Stop::new(QueryFault::BadRegex, offset)));
    }
    let text = text.try_copy()?;
    Ok(LineFilter { op, text })
}

// The text of a line filter, after its sign.
#[tactic(auto, unfolding(crate::specs::Parsing::filter_at))]
fn filter_at(op: LineOp, lexemes: &[Lexeme]) -> Result<(LineFilter, &[Lexeme]), Stopped>
    ensures { Gives (λ x. (filter_form x.0, x.1.now)) result (filter_at op lexemes.now) }
{
    let (lexeme, rest) = next(lexemes)?;
    let text = filter_text(lexeme)?;
    let filter = checked_filter(op, lexeme.offset, text)?;
    Ok((filter, rest))
}

// Line filters, up to the first token that begins none.
pub(crate) fn filters_at(
    alloc: Global,
    lexemes: &[Lexeme],
) -> Result<(Vec<LineFilter>, &[Lexeme]), Stopped>
    ensures read { Gives (λ x. (map filter_form x.0.items, x.1.now)) result (filters_at most_stages lexemes.now) }
    ensures few { IfOk result (λ x. length x.0.items ≤ most_stages) }
{
    let mut filters = Vec::new(alloc);
    let mut rest = lexemes;
    for _turn in 0..MOST_STAGES {
        let (first, following) = next(rest)?;
        let Some(op) = filter_op(&first.token) else {
            return Ok((filters, rest));
        };
        let (filter, following) = filter_at(op, following)?;
        filters.push(filter)?;
        rest = following;
    }
    no_filter(rest)?;
    Ok((filters, rest))
}

// No line filter begins where there may be no more.
#[tactic(auto, unfolding(crate::specs::Parsing::filters_at))]
fn no_filter(lexemes: &[Lexeme]) -> Result<(), Stop>
    ensures { Answers (λ _. ([], lexemes.now)) result (filters_at 0 lexemes.now) }
{
    let (first, _) = next(lexemes)?;
    if filter_op(&first.token).is_some() {
        return Err(Stop::new(QueryFault::TooDeep, first.offset));
    }
    Ok(())
}

// A token that begins a stage: a line filter, or what follows a pipe.
fn begins_stage(token: &Token) -> bool
    ensures { result ≡ begins_stage token.now }
{
    filter_op(token).is_some() || is_sign(Sign::Pipe, token)
}

// Whether a stage comes.
fn stage_comes(lexemes: &[Lexeme]) -> Result<bool, Stop>
    ensures { result ≡ stage_comes lexemes.now }
{
    let (first, _) = next(lexemes)?;
    Ok(begins_stage(&first.token))
}

// The parser that a token names.
fn parser_of(token: &Token) -> Option<Parser>
    ensures { result ≡ parser_of token.now }
{
    match token {
        Token::Word(word) => named_parser(word.as_str()),
        _ => None,
    }
}

fn named_parser(word: &str) -> Option<Parser>
    ensures { result ≡ named_parser word.now }
{
    if word == "json" {
        return Some(Parser::Json);
    }
    if word == "logfmt" {
        return Some(Parser::Logfmt);
    }
    None
}

// A parser comes once.
fn only_parser(offset: usize, parsed: bool, parser: Parser) -> Result<Parser, Stop>
    ensures { result ≡ only_parser offset parsed parser }
{
    if parsed {
        return Err(Stop::new(QueryFault::TwoParsers, offset));
    }
    Ok(parser)
}

fn is_later_stage_word(word: &str) -> bool
    ensures { result ≡ is_later_stage_word word.now }
{
    is_one_of(&LATER_STAGES, word)
}

// That label tests begin with a token; a word of LogQL's names a label only before an operator.
fn tests_begin(first: &Lexeme, rest: &[Lexeme]) -> Result<(), Stop>
    ensures { result ≡ tests_begin first.now.offset first.now.token rest.now }
{
    match &first.token {
        Token::Word(word) => word_begins(first.offset, word.as_str(), rest),
        token => parenthesis_begins(first.offset, token),
    }
}

fn word_begins(offset: usize, word: &str, rest: &[Lexeme]) -> Result<(), Stop>
    ensures { result ≡ word_begins offset word.now rest.now }
{
    if is_later_stage_word(word) && !operator_comes(rest) {
        return Err(Stop::unsupported(offset));
    }
    Ok(())
}

fn parenthesis_begins(offset: usize, token: &Token) -> Result<(), Stop>
    ensures { result ≡ parenthesis_begins offset token.now }
{
    if is_sign(Sign::OpenParenthesis, token) {
        return Ok(());
    }
    Err(refusal(Position::Elsewhere, offset, token))
}

// Label tests, after their pipe.
#[tactic(auto, unfolding(crate::specs::Parsing::tested_at))]
fn tested_at(
    alloc: Global,
    depth: usize,
    left: usize,
    lexemes: &[Lexeme],
) -> Result<(Stage, usize, &[Lexeme]), Stopped>
    ensures { Gives (λ x. (stage_form x.0, x.1, x.2.now)) result (tested_at depth left lexemes.now) }
{
    let (first, rest) = next(lexemes)?;
    tests_begin(first, rest)?;
    let (tests, left, rest) = tests_at(alloc, depth, left, lexemes)?;
    Ok((Stage::Tests(tests), left, rest))
}

// A parser or label tests, after the pipe.
#[tactic(auto, unfolding(crate::specs::Parsing::piped_at))]
fn piped_at(
    alloc: Global,
    parsed: bool,
    depth: usize,
    left: usize,
    lexemes: &[Lexeme],
) -> Result<(Stage, usize, &[Lexeme]), Stopped>
    ensures { Gives (λ x. (stage_form x.0, x.1, x.2.now)) result (piped_at parsed depth left lexemes.now) }
{
    let (first, rest) = next(lexemes)?;
    if let Some(parser) = parser_of(&first.token) {
        let parser = only_parser(first.offset, parsed, parser)?;
        return Ok((Stage::Parser(parser), left, rest));
    }
    tested_at(alloc, depth, left, lexemes)
}

// A stage, where one comes.
#[tactic(auto, unfolding(crate::specs::Parsing::stage_at))]
fn stage_at(
    alloc: Global,
    parsed: bool,
    depth: usize,
    left: usize,
    lexemes: &[Lexeme],
) -> Result<(Stage, usize, &[Lexeme]), Stopped>
    ensures { Gives (λ x. (stage_form x.0, x.1, x.2.now)) result (stage_at parsed depth left lexemes.now) }
{
    let (sign, rest) = next(lexemes)?;
    if let Some(op) = filter_op(&sign.token) {
        let (filter, rest) = filter_at(op, rest)?;
        return Ok((Stage::Filter(filter), left, rest));
    }
    piped_at(alloc, parsed, depth, left, rest)
}

// Whether a parser was read, before a stage or with it.
fn is_parsed(before: bool, stage: &Stage) -> bool
    ensures { result ≡ (before || parses (stage_form stage.now)) }
{
    before || matches!(stage, Stage::Parser(_))
}

/// Stages, up to the first token that begins none.
pub fn stages_at(
    alloc: Global,
    room: Room,
    lexemes: &[Lexeme],
) -> Result<(Vec<Stage>, &[Lexeme]), Stopped>
    ensures { Gives (λ x. (map stage_form x.0.items, x.1.now)) result (stages_in room lexemes.now) }
{
    let mut stages = Vec::new(alloc);
    let mut parsed = false;
    let mut left = room.tests;
    let mut rest = lexemes;
    for _turn in 0..room.stages {
        if !stage_comes(rest)? {
            return Ok((stages, rest));
        }
        let (stage, fewer, following) = stage_at(alloc, parsed, room.depth, left, rest)?;
        parsed = is_parsed(parsed, &stage);
        left = fewer;
        stages.push(stage)?;
        rest = following;
    }
    no_stage(rest)?;
    Ok((stages, rest))
}

// No stage comes where there may be no more.
#[tactic(auto, unfolding(crate::specs::Parsing::stages_at))]
fn no_stage(lexemes: &[Lexeme]) -> Result<(), Stop>
    ensures { (parsed : Bool) (depth left : ℕ) → Answers (λ _. ([], lexemes.now)) result (stages_at parsed depth left 0 lexemes.now) }
{
    if stage_comes(lexemes)? {
        return Err(Stop::new(QueryFault::TooDeep, offset_of(lexemes)));
    }
    Ok(())
}

fn after_stage(stage: &Stage) -> Position
    ensures { result ≡ after_stage (stage_form stage.now) }
{
    match stage {
        Stage::Filter(_) => Position::AfterFilter,
        Stage::Parser(_) => Position::AfterParser,
        Stage::Tests(_) => Position::AfterTests,
    }
}

/// The position after the last stage, or where there is none that before the stages.
pub fn after_stages(position: Position, stages: &[Stage]) -> Position
    ensures { result ≡ after_stages position (map stage_form stages.now) }
{
    match stages {
        [] => position,
        [first, rest @ ..] => after_stages(after_stage(first), rest),
    }
}
