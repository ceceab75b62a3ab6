//! The printer of terms.
ghost use Rattle.std.specs.Prelude.{◌≡◌, IfOk, string_bytes};
ghost use Rattle.rl_query.specs.Form.{term_form};
ghost use Rattle.rl_query.specs.Printing.{term_text};
ghost use Rattle.rl_query.specs.declared.query.Term.{Term};

use rl_query::printer::term_text;
use rl_query::query::Term;
use std::alloc::{AllocError, Global};

/// The canonical text of a term, which no other term has.
pub fn print_term(alloc: Global, term: &Term) -> Result<String, AllocError>
    ensures text { IfOk result (λ text. string_bytes text ≡ term_text (term_form term.now)) }
    ensures alone { IfOk result (λ text. (other : Term) → string_bytes text ≡ term_text (term_form other) → other ≡ term.now) }
{
    let text = term_text(alloc, term)?;
    Ok(text)
}
