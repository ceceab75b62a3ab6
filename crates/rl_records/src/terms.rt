//! The terms that a group asks about, with what is printed of them.
ghost use Rattle.std.specs.Prelude.{◌≡◌, map, IfOk, string_bytes};
ghost use Rattle.rl_records.specs.Prints.{term_print};

use rl_plain::{PlainList, PlainText, Same, Shared, TryCopy};
use rl_query::Term;
use rl_query::printer::term_text;
use std::alloc::{AllocError, Global};
use std::marker::Model;

/// Terms, and the text of each. Both are made once, and copies share them. Contracts see the list of terms.
#[derive(Drop)]
pub struct Terms {
    list: Shared<PlainList<Term>>,
    texts: Shared<PlainList<PlainText>>,
}

impl Model for Terms {
    ghost use Rattle.std.specs.Prelude.{◌≡◌, List, map};
    ghost use Rattle.std.specs.Coded.{coded_list};
    ghost use Rattle.rl_query.specs.contracts.query.Term as term;
    ghost use Rattle.rl_query.specs.declared.query.Term.{Term};
    ghost use Rattle.rl_records.specs.Prints.{term_print};

    ghost Value = { List Term };

    ghost coded = { coded_list term.the_row.coded };

    ghost view = { λ a. a.list };

    ghost invariant = { λ a. a.texts ≡ map term_print a.list };
}

impl Terms {
    /// Terms in their order, with repeats.
    pub fn new(alloc: Global, terms: Vec<Term>) -> Result<Self, AllocError>
        ensures { IfOk result (λ made. made ≡ terms.items) }
    {
        let texts = texts_of(alloc, &terms)?;
        Ok(Terms {
            list: Shared::new(alloc, PlainList::from_vec(terms))?,
            texts: Shared::new(alloc, PlainList::from_vec(texts))?,
        })
    }

    /// The terms.
    pub fn list(&self) -> &Shared<PlainList<Term>>
        ensures { result.now ≡ self.now }
    {
        &self.list
    }

    /// The terms, without memory.
    pub fn into_list(self) -> Shared<PlainList<Term>>
        ensures { result ≡ self }
    {
        self.list
    }

    /// The text of each.
    pub fn texts(&self) -> &[PlainText]
        ensures { result.now ≡ map term_print self.now }
    {
        self.texts.get().as_slice()
    }
}

// The text of each term.
fn texts_of(alloc: Global, terms: &[Term]) -> Result<Vec<PlainText>, AllocError>
    ensures { IfOk result (λ texts. texts.items ≡ map term_print terms.now) }
{
    let mut texts = Vec::with_capacity(alloc, terms.len())?;
    for term in terms {
        texts.push(PlainText::from_string(term_text(alloc, term)?))?;
    }
    Ok(texts)
}

impl TryCopy for Terms {
    /// Shares the terms and their texts, and takes no memory.
    fn try_copy(&self) -> Result<Self, AllocError> {
        Ok(Terms {
            list: self.list.try_copy()?,
            texts: self.texts.try_copy()?,
        })
    }
}

impl Same for Terms {
    fn is_same(&self, other: &Self) -> bool {
        self.list.is_same(&other.list)
    }
}
