//! Label tests, read from their tokens.
ghost use Rattle.std.specs.Prelude.{◌≡◌, ◌+◌, Ok, IfOk, IfSome, IsTrue, not, true};
ghost use Rattle.std.specs.Option.{option_map};
ghost use Rattle.rl_plain.specs.Answers.{Gives};
ghost use Rattle.rl_query.specs.Limits.{is_taken};
ghost use Rattle.rl_query.specs.Form.{quantity_form, test_form, tests_form};
ghost use Rattle.rl_query.specs.Quantities.{has_unit, quantity_of, is_quantity};
ghost use Rattle.rl_query.specs.Tables.{comparison_of};
ghost use Rattle.rl_selector_text.specs.TestGrammar.{AreTests};
ghost use Rattle.rl_query.specs.TestTree.{count_tests};
ghost use Rattle.rl_selector_text.specs.Testing.{IsEnd, Read, is_word, is_label, label_at, label_comes, one_fewer, comparison_at, quantity_at, named_test, quantity_test_at, compares, is_content, quantity_comes, label_test_at, test_at, is_and, operator_comes, begins, after_and, after_or, after_join, enclosed_at, one_at, joined_at, part_at, inside_at, tests_at};

use crate::front::{
    Position, expected, is_joining_word, is_match, is_sign, matcher_at, name_of, next, refusal,
};
use crate::stop::{Stop, Stopped, offset_of};
use rl_labels::labels::is_label_name;
use rl_labels::{Decimal, Duration, Size};
use rl_plain::{PlainText, TryCopy};
use rl_query::fault::QueryFault;
use rl_query::label_test::{Join, LabelTest, LabelTests};
use rl_query::matcher_test::MatcherTest;
use rl_query::quantity_test::{Comparison, Quantity, QuantityTest};
use rl_query::token::{Lexeme, Sign, Token};
use std::alloc::Global;

/// Whether a token is the word.
pub fn is_word(word: &str, token: &Token) -> bool
    ensures { result ≡ is_word word.now token.now }
{
    match token {
        Token::Word(found) => found.as_str() == word,
        _ => false,
    }
}

// The words that name no label in a test.
fn is_taken(word: &str) -> bool
    ensures { result ≡ is_taken word.now }
{
    word == "and" || word == "or" || word == "json" || word == "logfmt"
}

pub(crate) fn is_label(token: &Token) -> bool
    ensures { result ≡ is_label token.now }
{
    match token {
        Token::Word(word) => !is_taken(word.as_str()),
        _ => false,
    }
}

fn label_at(lexeme: &Lexeme) -> Result<(), Stop>
    ensures { result ≡ label_at lexeme.now.offset lexeme.now.token }
{
    if is_label(&lexeme.token) {
        return Ok(());
    }
    Err(refusal(Position::Elsewhere, lexeme.offset, &lexeme.token))
}

// One fewer may still come, where one may.
fn one_fewer(offset: usize, most: usize) -> Result<usize, Stop>
    ensures { result ≡ one_fewer offset most }
{
    if most == 0 {
        return Err(Stop::new(QueryFault::TooDeep, offset));
    }
    Ok(most - 1)
}

/// The comparison that a sign is.
pub fn comparison_of(sign: Sign) -> Option<Comparison>
    ensures { result ≡ comparison_of sign }
{
    match sign {
        Sign::Equal | Sign::EqualTo => Some(Comparison::Equal),
        Sign::NotEqual => Some(Comparison::NotEqual),
        Sign::Greater => Some(Comparison::Greater),
        Sign::GreaterOrEqual => Some(Comparison::GreaterOrEqual),
        Sign::Less => Some(Comparison::Less),
        Sign::LessOrEqual => Some(Comparison::LessOrEqual),
        _ => None,
    }
}

fn comparison_at(lexeme: &Lexeme) -> Result<Comparison, Stop>
    ensures { result ≡ comparison_at lexeme.now.offset lexeme.now.token }
{
    match &lexeme.token {
        Token::Sign(sign) => match comparison_of(*sign) {
            Some(comparison) => Ok(comparison),
            None => Err(refusal(Position::Elsewhere, lexeme.offset, &lexeme.token)),
        },
        token => Err(refusal(Position::Elsewhere, lexeme.offset, token)),
    }
}

// Some byte is neither a digit nor a point.
fn has_unit(text: &str) -> bool
    ensures { result ≡ has_unit text.now }
{
    text.as_bytes()
        .iter()
        .any(|byte| !(byte.is_ascii_digit() || *byte == b'.'))
}

// The quantity that a text is: without a unit a number, with one a duration or else a size.
fn quantity_of(text: &str) -> Option<Quantity>
    ensures quantity { result ≡ quantity_of text.now }
    ensures proper { IfSome result (λ quantity. IsTrue (is_quantity quantity)) }
{
    if !has_unit(text) {
        let number = Decimal::read(text).ok()?;
        return Some(Quantity::Number(number));
    }
    if let Ok(duration) = Duration::read(text) {
        return Some(Quantity::Duration(duration));
    }
    let size = Size::read(text).ok()?;
    Some(Quantity::Size(size))
}

fn quantity_at(lexeme: &Lexeme) -> Result<Quantity, Stop>
    ensures quantity { result ≡ quantity_at lexeme.now.offset lexeme.now.token }
    ensures proper { IfOk result (λ quantity. IsTrue (is_quantity quantity)) }
{
    match &lexeme.token {
        Token::Number(number) => quantity_of(number.as_str()).ok_or(Stop::syntax(lexeme.offset)),
        token => Err(refusal(Position::InTest, lexeme.offset, token)),
    }
}

// The test by quantity of its parts, where its name is one.
fn named_test(
    offset: usize,
    name: &PlainText,
    comparison: Comparison,
    quantity: Quantity,
) -> Result<QuantityTest, Stopped>
    requires free { IsTrue (not (is_taken name.now)) }
    requires proper { IsTrue (is_quantity quantity) }
    ensures { Gives quantity_form result (named_test offset (record { name = name.now; comparison = comparison; quantity = quantity })) }
{
    if !is_label_name(name.as_str()) {
        return Err(Stopped::Fault(Stop::syntax(offset)));
    }
    let name = name.try_copy()?;
    Ok(QuantityTest {
        name,
        comparison,
        quantity,
    })
}

// A name, a comparison and a quantity.
#[tactic(auto, using(crate::proofs::FreeNames::free_word), unfolding(crate::specs::Testing::quantity_test_at))]
fn quantity_test_at(lexemes: &[Lexeme]) -> Result<(QuantityTest, &[Lexeme]), Stopped>
    requires { label_comes lexemes.now ≡ true }
    ensures { Gives (λ x. (quantity_form x.0, x.1.now)) result (quantity_test_at lexemes.now) }
{
    let (first, rest) = next(lexemes)?;
    let name = name_of(first)?;
    let (sign, rest) = next(rest)?;
    let comparison = comparison_at(sign)?;
    let (number, rest) = next(rest)?;
    let quantity = quantity_at(number)?;
    let test = named_test(first.offset, name, comparison, quantity)?;
    Ok((test, rest))
}

// A token that is a comparison.
pub(crate) fn compares(token: &Token) -> bool
    ensures { result ≡ compares token.now }
{
    match token {
        Token::Sign(sign) => comparison_of(*sign).is_some(),
        _ => false,
    }
}

fn is_content(token: &Token) -> bool
    ensures { result ≡ is_content token.now }
{
    matches!(token, Token::Text(_))
}

// After a name a comparison comes. `=` and `!=` stand before a text in the tests of texts.
fn quantity_comes(lexemes: &[Lexeme]) -> bool
    ensures { result ≡ quantity_comes lexemes.now }
{
    match lexemes {
        [_, sign, value, ..] => {
            compares(&sign.token) && !(is_content(&value.token) && is_match(&sign.token))
        }
        _ => false,
    }
}

// The test of a label's quantity, or of its text.
#[tactic(auto, unfolding(crate::specs::Testing::label_test_at))]
fn label_test_at(lexemes: &[Lexeme]) -> Result<(LabelTest, &[Lexeme]), Stopped>
    requires { label_comes lexemes.now ≡ true }
    ensures { Gives (λ x. (test_form x.0, x.1.now)) result (label_test_at lexemes.now) }
{
    if quantity_comes(lexemes) {
        let (test, rest) = quantity_test_at(lexemes)?;
        return Ok((LabelTest::Quantity(test), rest));
    }
    let (matcher, rest) = matcher_at(lexemes)?;
    let test = MatcherTest { matcher };
    Ok((LabelTest::Text(test), rest))
}

// The test of a label, by its name, where one may still come. The test is large, so it lies in a frame of its own.
#[inline(never)]
#[tactic(auto, using(crate::proofs::FreeNames::label_first), unfolding(crate::specs::Testing::test_at))]
fn test_at(
    alloc: Global,
    left: usize,
    lexemes: &[Lexeme],
) -> Result<(LabelTests, usize, &[Lexeme]), Stopped>
    ensures { Gives (λ x. (tests_form x.0, x.1, x.2.now)) result (test_at left lexemes.now) }
{
    let (first, _) = next(lexemes)?;
    label_at(first)?;
    let fewer = one_fewer(first.offset, left)?;
    let (test, rest) = label_test_at(lexemes)?;
    let tests = LabelTests::one(alloc, test)?;
    Ok((tests, fewer, rest))
}

// A token that joins two tests by `and`.
fn is_and(token: &Token) -> bool
    ensures { result ≡ is_and token.now }
{
    is_word("and", token) || is_sign(Sign::Comma, token)
}

// Whether the operator of a test comes.
pub(crate) fn operator_comes(lexemes: &[Lexeme]) -> bool
    ensures { result ≡ operator_comes lexemes.now }
{
    match lexemes {
        [first, ..] => is_match(&first.token) || compares(&first.token),
        [] => false,
    }
}

// A token that stands where a test begins. A word that joins tests in another case names a label only before an operator.
fn begins(token: &Token, following: &[Lexeme]) -> bool
    ensures { result ≡ begins token.now following.now }
{
    match token {
        Token::Word(word) => {
            word.as_str() != "or" && (!is_joining_word(word.as_str()) || operator_comes(following))
        }
        token => is_sign(Sign::OpenParenthesis, token),
    }
}

// The tokens of what `and` joins, if it joins more.
fn after_and(lexemes: &[Lexeme]) -> Option<&[Lexeme]>
    ensures { option_map (λ rest. rest.now) result ≡ after_and lexemes.now }
{
    match lexemes {
        [first, rest @ ..] if is_and(&first.token) => Some(rest),
        [first, rest @ ..] if begins(&first.token, rest) => Some(lexemes),
        _ => None,
    }
}

// The tokens of what `or` joins, if it joins more.
fn after_or(lexemes: &[Lexeme]) -> Option<&[Lexeme]>
    ensures { option_map (λ rest. rest.now) result ≡ after_or lexemes.now }
{
    match lexemes {
        [first, rest @ ..] if is_word("or", &first.token) => Some(rest),
        _ => None,
    }
}

fn after_join(join: Join, lexemes: &[Lexeme]) -> Option<&[Lexeme]>
    ensures { option_map (λ rest. rest.now) result ≡ after_join join lexemes.now }
{
    match join {
        Join::And => after_and(lexemes),
        Join::Or => after_or(lexemes),
    }
}

// Tests and the parenthesis that closes them.
#[cycle(tests)]
#[tactic(auto, unfolding(crate::specs::Testing::enclosed_at))]
fn enclosed_at(
    alloc: Global,
    depth: usize,
    left: usize,
    lexemes: &[Lexeme],
) -> Result<(LabelTests, usize, &[Lexeme]), Stopped>
    ensures { Gives (λ x. (tests_form x.0, x.1, x.2.now)) result (enclosed_at (inside_at depth) left lexemes.now) }
{
    let fewer = one_fewer(offset_of(lexemes), depth)?;
    let (tests, left, rest) = joined_at(alloc, Join::Or, fewer, left, lexemes)?;
    let rest = expected(Sign::CloseParenthesis, Position::AfterInnerTests, rest)?;
    Ok((tests, left, rest))
}

// Tests in parentheses, or the test of a label.
#[cycle(tests)]
#[tactic(auto, unfolding(crate::specs::Testing::one_at))]
fn one_at(
    alloc: Global,
    depth: usize,
    left: usize,
    lexemes: &[Lexeme],
) -> Result<(LabelTests, usize, &[Lexeme]), Stopped>
    ensures { Gives (λ x. (tests_form x.0, x.1, x.2.now)) result (one_at (inside_at depth) left lexemes.now) }
{
    let (first, rest) = next(lexemes)?;
    if is_sign(Sign::OpenParenthesis, &first.token) {
        return enclosed_at(alloc, depth, left, rest);
    }
    test_at(alloc, left, lexemes)
}

// What `and` joins, and what `or` joins.
#[cycle(tests)]
fn part_at(
    alloc: Global,
    join: Join,
    depth: usize,
    left: usize,
    lexemes: &[Lexeme],
) -> Result<(LabelTests, usize, &[Lexeme]), Stopped>
    ensures { Gives (λ x. (tests_form x.0, x.1, x.2.now)) result (part_at join (inside_at depth) left lexemes.now) }
{
    match join {
        Join::And => one_at(alloc, depth, left, lexemes),
        Join::Or => joined_at(alloc, Join::And, depth, left, lexemes),
    }
}

// Parts joined in one way.
#[cycle(tests)]
fn joined_at(
    alloc: Global,
    join: Join,
    depth: usize,
    left: usize,
    lexemes: &[Lexeme],
) -> Result<(LabelTests, usize, &[Lexeme]), Stopped>
    ensures { Gives (λ x. (tests_form x.0, x.1, x.2.now)) result (joined_at join (part_at join (inside_at depth)) left lexemes.now) }
{
    let (mut tests, mut fewer, mut rest) = part_at(alloc, join, depth, left, lexemes)?;
    for _turn in 0..left {
        let Some(following) = after_join(join, rest) else {
            return Ok((tests, fewer, rest));
        };
        let (other, still, after) = part_at(alloc, join, depth, fewer, following)?;
        tests = LabelTests::joined(alloc, join, tests, other)?;
        fewer = still;
        rest = after;
    }
    Ok((tests, fewer, rest))
}

// Label tests, where `depth` parentheses may be opened within one another, and `left` tests may come.
#[tactic(auto, using(crate::proofs::TestProductions::tests_derived))]
pub(crate) fn tests_at(
    alloc: Global,
    depth: usize,
    left: usize,
    lexemes: &[Lexeme],
) -> Result<(LabelTests, usize, &[Lexeme]), Stopped>
    ensures read { Gives (λ x. (tests_form x.0, x.1, x.2.now)) result (tests_at depth left lexemes.now) }
    ensures derives { IfOk result (λ x. AreTests depth (tests_form x.0) lexemes.now x.2.now × (count_tests (tests_form x.0) + x.1 ≡ left)) }
    ensures complete { (read : Read) → AreTests depth read.0 lexemes.now read.2 → IsEnd read.2 → count_tests read.0 + read.1 ≡ left → Gives (λ x. (tests_form x.0, x.1, x.2.now)) result (Ok read) }
{
    joined_at(alloc, Join::Or, depth, left, lexemes)
}
