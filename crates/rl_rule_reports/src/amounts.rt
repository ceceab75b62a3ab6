//! Numbers and signs of a query that stand where the ruler has none, and what it has instead.

use crate::findings::OutOfMemory;
use crate::location::cut_at;
use crate::opened::Opened;
use crate::stop::{Piece, Stop, comparison_of};
use rl_query::token::Sign;
use std::fmt::Write;

/// Writes what stands in the place of a number or a sign, if something does; whether it did. The bracket is the innermost one
/// that is open there.
pub(crate) fn push_amount(
    text: &mut String,
    stop: Stop<'_>,
    innermost: Option<Opened>,
) -> Result<bool, OutOfMemory> {
    match stop.piece() {
        Piece::Number(number) => push_number(text, stop, number, innermost),
        Piece::Sign(Sign::Percent) => push_percent(text, stop),
        Piece::Sign(Sign::Times) => push_times(text, stop),
        piece => match hint_of_sign(piece, stop, innermost) {
            Some(hint) => {
                writeln!(text, "  in its place: {hint}")?;
                Ok(true)
            }
            None => Ok(false),
        },
    }
}

// A number at the front of a query, or one with a unit.
fn push_number(
    text: &mut String,
    stop: Stop<'_>,
    number: &str,
    innermost: Option<Opened>,
) -> Result<bool, OutOfMemory> {
    if let Some(turned) = turned(stop.following(1)) {
        if matches!(stop.before(1), Piece::Nothing) {
            writeln!(
                text,
                "  in its place: the number on the right, as rate(..) {turned} {number}"
            )?;
            return Ok(true);
        }
    }
    if comparison_of(stop.before(1)).is_some() && has_unit(number) {
        text.push_str(match innermost {
            Some(_) => "  in its place: a number, a duration as 1.5s or a size as 2kb\n",
            None => "  in its place: a number without a unit\n",
        })?;
        return Ok(true);
    }
    match (stop.before(1), stop.following(1)) {
        (Piece::Nothing, Piece::Sign(Sign::Times)) => {
            text.push_str("  in its place: a threshold divided by as much\n")?;
            Ok(true)
        }
        _ => Ok(false),
    }
}

fn has_unit(number: &str) -> bool {
    number.bytes().any(|byte| byte.is_ascii_alphabetic())
}

// A comparison with its sides exchanged.
fn turned(piece: Piece<'_>) -> Option<&'static str> {
    match comparison_of(piece)? {
        ">" => Some("<"),
        ">=" => Some("<="),
        "<" => Some(">"),
        "<=" => Some(">="),
        same => Some(same),
    }
}

// A share in hundredths after a comparison.
fn push_percent(text: &mut String, stop: Stop<'_>) -> Result<bool, OutOfMemory> {
    match (comparison_of(stop.before(2)), stop.before(1)) {
        (Some(comparison), Piece::Number(number)) => {
            write!(text, "  in its place: {comparison} ")?;
            push_hundredth(text, number)?;
            text.push('\n')?;
            Ok(true)
        }
        _ => Ok(false),
    }
}

// A factor: that of 100 before a threshold has another threshold.
fn push_times(text: &mut String, stop: Stop<'_>) -> Result<bool, OutOfMemory> {
    match (
        stop.following(1),
        comparison_of(stop.following(2)),
        stop.following(3),
    ) {
        (Piece::Number("100"), Some(comparison), Piece::Number(number)) => {
            write!(text, "  in its place: {comparison} ")?;
            push_hundredth(text, number)?;
            text.push_str(" without the factor\n")?;
        }
        _ => text.push_str(
            "  in its place: nothing: a share is a fraction, and its threshold is divided by as much\n",
        )?,
    }
    Ok(true)
}

// Writes the hundredth of a decimal.
fn push_hundredth(text: &mut String, number: &str) -> Result<(), OutOfMemory> {
    let (whole, part) = match number.split_once('.') {
        Some(parts) => parts,
        None => (number, ""),
    };
    let mut digits = String::new(*text.allocator());
    digits.push_str("00")?;
    digits.push_str(whole)?;
    let point = digits.len().saturating_sub(2);
    digits.push_str(part)?;
    let (front, back) = cut_at(digits.as_str(), point);
    let front = front.trim_start_matches('0');
    text.push_str(if front.is_empty() { "0" } else { front })?;
    let back = back.trim_end_matches('0');
    if !back.is_empty() {
        write!(text, ".{back}")?;
    }
    Ok(())
}

// Near a sign between terms, or a comparison where none is.
fn hint_of_sign(
    piece: Piece<'_>,
    stop: Stop<'_>,
    innermost: Option<Opened>,
) -> Option<&'static str> {
    if comparison_of(piece).is_some() && !matches!(stop.before(1), Piece::Sign(Sign::Slash)) {
        return match (innermost, stop.before(1)) {
            (Some(_), Piece::Sign(Sign::CloseParenthesis)) => {
                Some("the comparison after the last parenthesis, as sum(..) > 1")
            }
            (None, Piece::Number(_) | Piece::Sign(Sign::CloseParenthesis)) => {
                Some("a rule for each comparison")
            }
            _ => None,
        };
    }
    match (piece, stop.before(1)) {
        (Piece::Sign(Sign::Equal), Piece::Sign(Sign::CloseParenthesis)) => Some("=="),
        (Piece::Sign(Sign::Plus), Piece::Sign(Sign::CloseParenthesis)) => {
            Some("one selector for both sides, as {app=~\"a|b\"}")
        }
        (Piece::Sign(Sign::Minus), Piece::Sign(Sign::CloseParenthesis)) => {
            Some("a rule for each side")
        }
        (Piece::Sign(Sign::At), _) => Some("nothing: a range ends at the evaluation"),
        (Piece::Sign(Sign::CloseParenthesis), last) => hint_of_close(last, innermost),
        _ => None,
    }
}

// Near a parenthesis that closes: a range is missing before it, or nothing is open.
fn hint_of_close(last: Piece<'_>, innermost: Option<Opened>) -> Option<&'static str> {
    match (last, innermost) {
        (Piece::Sign(Sign::CloseBrace) | Piece::Text, Some(_)) => {
            Some("a range before it, as [5m]")
        }
        (_, None) => Some("nothing: no parenthesis is open"),
        _ => None,
    }
}
