//! Texts that are lent where they stand in a line.
ghost use Rattle.std.specs.Prelude.{◌≡◌};

use rl_plain::PlainText;
use std::marker::Model;

/// A text that is lent, or has memory of its own. Contracts see its bytes.
#[derive(Drop)]
pub(crate) struct LentText<'a> {
    form: Form<'a>,
}

#[derive(Drop)]
enum Form<'a> {
    Lent(&'a str),
    Own(PlainText),
}

impl<'a> Model for LentText<'a> {
    ghost use Rattle.std.specs.Prelude.{List, ℕ};
    ghost use Rattle.rl_pipeline.specs.Lent.{bytes_in};

    ghost Value = { List ℕ };

    ghost view = { λ a. bytes_in a.form };
}

impl<'a> LentText<'a> {
    /// The text, lent.
    pub(crate) fn lent(text: &'a str) -> LentText<'a>
        ensures { result ≡ text.now }
    {
        LentText {
            form: Form::Lent(text),
        }
    }

    /// The text, which is kept.
    pub(crate) fn own(text: PlainText) -> LentText<'a>
        ensures { result ≡ text }
    {
        LentText {
            form: Form::Own(text),
        }
    }

    /// The text, borrowed.
    pub(crate) fn as_str(&self) -> &str
        ensures { result.now ≡ self.now }
    {
        match &self.form {
            Form::Lent(text) => text,
            Form::Own(text) => text.as_str(),
        }
    }
}
