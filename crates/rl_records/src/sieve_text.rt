//! What a delete request selects, with what is printed of it.
ghost use Rattle.std.specs.Prelude.{◌≡◌, IfOk};
ghost use Rattle.rl_records.specs.Prints.{sieve_print};

use rl_plain::{PlainText, Same, Shared, TryCopy};
use rl_query::Sieve;
use rl_query::printer::sieve_text;
use std::alloc::{AllocError, Global};
use std::marker::Model;

/// A sieve and its text. Both are made once, and copies share them. Contracts see the sieve.
#[derive(Drop)]
pub struct SieveText {
    sieve: Shared<Sieve>,
    text: Shared<PlainText>,
}

impl Model for SieveText {
    ghost use Rattle.std.specs.Prelude.{◌≡◌};
    ghost use Rattle.rl_query.specs.contracts.filter.Sieve as selected;
    ghost use Rattle.rl_query.specs.declared.filter.Sieve.{Sieve};
    ghost use Rattle.rl_records.specs.Prints.{sieve_print};

    ghost Value = { Sieve };

    ghost coded = { selected.the_row.coded };

    ghost view = { λ a. a.sieve };

    ghost invariant = { λ a. a.text ≡ sieve_print a.sieve };
}

impl SieveText {
    pub fn new(alloc: Global, sieve: Sieve) -> Result<Self, AllocError>
        ensures { IfOk result (λ made. made ≡ sieve) }
    {
        let text = PlainText::from_string(sieve_text(alloc, &sieve)?);
        Ok(SieveText {
            sieve: Shared::new(alloc, sieve)?,
            text: Shared::new(alloc, text)?,
        })
    }

    /// The sieve.
    pub fn sieve(&self) -> &Shared<Sieve>
        ensures { result.now ≡ self.now }
    {
        &self.sieve
    }

    /// The sieve, without memory.
    pub fn into_sieve(self) -> Shared<Sieve>
        ensures { result ≡ self }
    {
        self.sieve
    }

    /// Its text.
    pub fn text(&self) -> &str
        ensures { result.now ≡ sieve_print self.now }
    {
        self.text.get().as_str()
    }
}

impl TryCopy for SieveText {
    /// Shares the sieve and its text, and takes no memory.
    fn try_copy(&self) -> Result<Self, AllocError> {
        Ok(SieveText {
            sieve: self.sieve.try_copy()?,
            text: self.text.try_copy()?,
        })
    }
}

impl Same for SieveText {
    fn is_same(&self, other: &Self) -> bool {
        self.sieve.is_same(&other.sieve)
    }
}
