//! Texts that need no memory of their own where they are short.
ghost use Rattle.std.specs.Prelude.{◌≡◌, IfOk, Some};

use arrayvec::ArrayString;
use rl_plain::{PlainText, TryCopy};
use std::alloc::{AllocError, Global};
use std::fmt;
use std::marker::Model;

/// A text, which lies in the value itself where it has at most 24 bytes. Contracts see its bytes.
#[derive(Drop)]
pub struct ShortText {
    form: Form,
}

#[derive(Drop)]
enum Form {
    Short(ArrayString<24>),
    Long(PlainText),
}

impl Model for ShortText {
    ghost use Rattle.std.specs.Prelude.{List, ℕ};
    ghost use Rattle.rl_labels.specs.Short.{bytes_in};

    ghost Value = { List ℕ };

    ghost view = { λ a. bytes_in a.form };
}

impl ShortText {
    /// A copy of the text.
    pub fn from_str(alloc: Global, text: &str) -> Result<ShortText, AllocError>
        ensures { IfOk result (λ copy. copy ≡ text.now) }
    {
        let form = match ArrayString::from(text) {
            Ok(short) => Form::Short(short),
            Err(_) => Form::Long(PlainText::from_str(alloc, text)?),
        };
        Ok(ShortText { form })
    }

    /// The text, borrowed.
    pub fn as_str(&self) -> &str
        ensures { result.now ≡ self.now }
    {
        match &self.form {
            Form::Short(short) => short.as_str(),
            Form::Long(long) => long.as_str(),
        }
    }
}

impl TryCopy for ShortText {
    /// Takes memory only for a text that is not short.
    fn try_copy(&self) -> Result<Self, AllocError> {
        let form = match &self.form {
            Form::Short(short) => Form::Short(copied(short)),
            Form::Long(long) => Form::Long(long.try_copy()?),
        };
        Ok(ShortText { form })
    }
}

fn copied(text: &ArrayString<24>) -> ArrayString<24>
    ensures { result.bytes ≡ text.now.bytes }
{
    let mut copy = ArrayString::new();
    copy.push_str(text.as_str());
    copy
}

impl fmt::Display for ShortText {
    ghost output = { λ t. Some t };

    fn fmt<W: fmt::Write>(&self, f: &mut fmt::Formatter<W>) -> fmt::Result {
        f.write_str(self.as_str())
    }
}
