//! The labels of a line on its way through stages.
ghost use Rattle.std.specs.Prelude.{◌≡◌, false, IfOk, OnOk};
ghost use Rattle.std.specs.Option.{option_copied};
ghost use Rattle.rl_labels.specs.LabelSet.{is_empty, label};
ghost use Rattle.rl_pipeline.specs.Extracting.{with_error};
ghost use Rattle.rl_pipeline.specs.Parsed.{parsed};

use crate::extracting::add_error;
use crate::parsing::ParserRunning;
use rl_labels::{Labels, LabelsBuilder};
use rl_plain::TryCopy;
use std::alloc::{AllocError, Global};
use std::marker::Model;

/// The labels of a line: those of its stream, or those that a parser found for several pipelines, until a stage changes
/// them. Contracts see the set.
#[derive(Drop)]
pub(crate) struct Draft<'a> {
    form: Form<'a>,
}

#[derive(Drop)]
enum Form<'a> {
    Stream(&'a Labels),
    Parsed(&'a LabelsBuilder),
    Own(LabelsBuilder),
}

impl<'a> Model for Draft<'a> {
    ghost use Rattle.rl_labels.specs.LabelSet.{LabelSet, label_set_code};
    ghost use Rattle.rl_pipeline.specs.Drafts.{labels_in};

    ghost Value = { LabelSet };

    ghost coded = { label_set_code };

    ghost view = { λ a. labels_in a.form };
}

impl<'a> Draft<'a> {
    // The labels of a stream.
    pub(crate) fn of(stream: &'a Labels) -> Draft<'a>
        ensures { result ≡ stream.now }
    {
        Draft {
            form: Form::Stream(stream),
        }
    }

    // What a parser found.
    pub(crate) fn parsed(found: &'a LabelsBuilder) -> Draft<'a>
        ensures { result ≡ found.now }
    {
        Draft {
            form: Form::Parsed(found),
        }
    }

    // The value of a label, if the set has it.
    pub(crate) fn get(&self, name: &str) -> Option<&str>
        ensures { option_copied result ≡ label self.now name.now }
    {
        match &self.form {
            Form::Stream(labels) => labels.get(name),
            Form::Parsed(found) => found.get(name),
            Form::Own(own) => own.get(name),
        }
    }

    // Sets an error, unless one is set.
    pub(crate) fn set_error(&mut self, alloc: Global, error: &str) -> Result<(), AllocError>
        requires { is_empty error.now ≡ false }
        ensures { OnOk result (self.new ≡ with_error self.old error.now) }
    {
        let labels = self.labels()?;
        let mut own = LabelsBuilder::new(alloc, &labels)?;
        add_error(&mut own, error)?;
        self.form = Form::Own(own);
        Ok(())
    }

    // Adds what a parser finds in the line.
    pub(crate) fn parse(
        &mut self,
        alloc: Global,
        parser: &mut ParserRunning,
        line: &str,
    ) -> Result<(), AllocError>
        ensures labels { OnOk result (self.new ≡ parsed parser.old self.old line.now) }
        ensures same { parser.new ≡ parser.old }
    {
        let labels = self.labels()?;
        let own = parser.labels_after(alloc, &labels, line)?;
        self.form = Form::Own(own);
        Ok(())
    }

    // The set. It is the stream's own, shared, where nothing changed it.
    pub(crate) fn labels(&self) -> Result<Labels, AllocError>
        ensures { IfOk result (λ labels. labels ≡ self.now) }
    {
        match &self.form {
            Form::Stream(labels) => labels.try_copy(),
            Form::Parsed(found) => found.build(),
            Form::Own(own) => own.build(),
        }
    }
}
