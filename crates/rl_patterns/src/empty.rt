//! Whether a pattern matches the empty text, decided from the pattern as it is read.
ghost use Rattle.std.specs.Prelude.{◌≡◌, IfOk, [], map};
ghost use Rattle.regex_hir.specs.Looks.{holds};
ghost use Rattle.regex_hir.specs.Meaning.{meaning, cat_all, alt_all};
ghost use Rattle.rl_patterns.specs.Empty.{tree_matches_empty};
ghost use Rattle.rl_patterns.specs.Matching.{matches_whole};

use crate::pattern::wrapped;
use regex_hir::{Hir, Look};
use regex_syntax::{Config, ErrorKind};
use std::alloc::{AllocError, Global};

/// Whether the pattern matches the empty text, as `^(?:pattern)$`. It is read and not built, so none is too big; a text
/// that is no pattern matches nothing.
pub fn matches_empty(alloc: Global, pattern: &str) -> Result<bool, AllocError>
    ensures { IfOk result (λ answer. answer ≡ matches_whole pattern.now []) }
{
    let text = wrapped(alloc, pattern)?;
    match regex_syntax::parse(alloc, text.as_str(), &Config::default()) {
        Ok(parsed) => Ok(tree_matches_empty(&parsed.hir)),
        Err(error) => match error.kind {
            ErrorKind::OutOfMemory => Err(AllocError),
            _ => Ok(false),
        },
    }
}

// Whether the pattern matches the empty text, by its tree.
#[cycle(tree)]
fn tree_matches_empty(tree: &Hir) -> bool
    ensures { result ≡ tree_matches_empty (meaning tree.now) }
{
    match tree {
        Hir::Empty => true,
        Hir::Literal(bytes) => bytes.is_empty(),
        Hir::Bytes(_) | Hir::Chars(_) => false,
        Hir::Look(look) => holds_on_empty(*look),
        Hir::Repetition { min, sub, .. } => *min == 0 || tree_matches_empty(sub),
        Hir::Capture { sub, .. } => tree_matches_empty(sub),
        Hir::Concat(parts) => all_match_empty(parts),
        Hir::Alternation(branches) => any_matches_empty(branches),
    }
}

#[cycle(tree)]
fn all_match_empty(parts: &[Hir]) -> bool
    ensures { result ≡ tree_matches_empty (cat_all (map meaning parts.now)) }
{
    for part in parts {
        if !tree_matches_empty(part) {
            return false;
        }
    }
    true
}

#[cycle(tree)]
fn any_matches_empty(branches: &[Hir]) -> bool
    ensures { result ≡ tree_matches_empty (alt_all (map meaning branches.now)) }
{
    for branch in branches {
        if tree_matches_empty(branch) {
            return true;
        }
    }
    false
}

// Whether the assertion holds where the text starts and ends at once.
fn holds_on_empty(look: Look) -> bool
    ensures { result ≡ holds look [] 0 }
{
    match look {
        Look::Start
        | Look::End
        | Look::StartLf
        | Look::EndLf
        | Look::StartCrlf
        | Look::EndCrlf
        | Look::WordAsciiNegate
        | Look::WordUnicodeNegate
        | Look::WordStartHalfAscii
        | Look::WordEndHalfAscii
        | Look::WordStartHalfUnicode
        | Look::WordEndHalfUnicode => true,
        Look::WordAscii
        | Look::WordUnicode
        | Look::WordStartAscii
        | Look::WordEndAscii
        | Look::WordStartUnicode
        | Look::WordEndUnicode => false,
    }
}
