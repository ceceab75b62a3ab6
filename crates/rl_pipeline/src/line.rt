//! Lines that go through several pipelines.
ghost use Rattle.std.specs.Prelude.{◌≡◌, IfSome};
ghost use Rattle.rl_pipeline.specs.Parsed.{parsed};

use rl_labels::{Labels, LabelsBuilder};
use rl_query::Parser;
use std::marker::Model;

/// A line of a stream, and what parsers found in it, so that each reads it once for all pipelines. Contracts see the labels
/// of the stream and the bytes of the line.
#[derive(Drop)]
pub struct ParsedLine<'a> {
    labels: &'a Labels,
    text: &'a str,
    json: Option<LabelsBuilder>,
    logfmt: Option<LabelsBuilder>,
}

impl<'a> Model for ParsedLine<'a> {
    ghost use Rattle.std.specs.Prelude.{IfSome};
    ghost use Rattle.rl_pipeline.specs.Lines.{StreamLine, line_code};
    ghost use Rattle.rl_pipeline.specs.Parsed.{json_labels, logfmt_labels};
    ghost use Rattle.std.specs.Prelude.{◌≡◌};

    ghost Value = { StreamLine };

    ghost coded = { line_code };

    ghost view = { λ a. record { labels = a.labels.now; text = a.text.now } };

    ghost invariant = { λ a. (IfSome a.json (λ found. found ≡ json_labels a.labels.now a.text.now)) × (IfSome a.logfmt (λ found. found ≡ logfmt_labels a.labels.now a.text.now)) };
}

impl<'a> ParsedLine<'a> {
    /// A line that no parser has read.
    pub fn new(labels: &'a Labels, text: &'a str) -> ParsedLine<'a>
        ensures { result ≡ record { labels = labels.now; text = text.now } }
    {
        ParsedLine {
            labels,
            text,
            json: None,
            logfmt: None,
        }
    }

    /// The labels of the stream.
    pub fn labels(&self) -> &'a Labels
        ensures { result.now ≡ self.now.labels }
    {
        self.labels
    }

    /// The bytes that were pushed.
    pub fn text(&self) -> &'a str
        ensures { result.now ≡ self.now.text }
    {
        self.text
    }

    // What the parser found in the line, if it has read it.
    pub(crate) fn found(&self, parser: Parser) -> Option<&LabelsBuilder>
        ensures { IfSome result (λ all. all.now ≡ parsed parser self.now.labels self.now.text) }
    {
        match parser {
            Parser::Json => self.json.as_ref(),
            Parser::Logfmt => self.logfmt.as_ref(),
        }
    }

    // Keeps what the parser finds in the line.
    pub(crate) fn keep(&mut self, parser: Parser, all: LabelsBuilder)
        requires { all ≡ parsed parser self.old.labels self.old.text }
        ensures { self.new ≡ self.old }
    {
        match parser {
            Parser::Json => self.json = Some(all),
            Parser::Logfmt => self.logfmt = Some(all),
        }
    }
}
