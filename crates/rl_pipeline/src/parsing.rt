//! The labels of a line after a parser.
ghost use Rattle.std.specs.Prelude.{◌≡◌, IfOk};
ghost use Rattle.rl_pipeline.specs.Parsed.{parsed};

use crate::json_labels::json_labels;
use crate::logfmt::logfmt_labels;
use json::Scratch;
use rl_labels::{Labels, LabelsBuilder};
use rl_query::Parser;
use std::alloc::{AllocError, Global};
use std::marker::Model;

/// The labels that a stream's line has after a parser (LogQL).
pub fn parsed(
    alloc: Global,
    parser: Parser,
    labels: &Labels,
    line: &str,
) -> Result<Labels, AllocError>
    ensures { IfOk result (λ all. all ≡ parsed parser labels.now line.now) }
{
    let mut running = ParserRunning::new(alloc, parser)?;
    running.labels_after(alloc, labels, line)?.build()
}

/// A parser that reads many lines, with what reading needs kept from line to line. Contracts see the parser.
#[derive(Drop)]
pub(crate) struct ParserRunning {
    reading: Reading,
}

#[derive(Drop)]
enum Reading {
    Json(Box<Scratch>),
    Logfmt,
}

impl Model for ParserRunning {
    ghost use Rattle.rl_query.specs.declared.stages.Parser.{Parser};
    ghost use Rattle.rl_query.specs.contracts.stages.Parser as parser;
    ghost use Rattle.rl_pipeline.specs.Reading.{read_by};

    ghost Value = { Parser };

    ghost coded = { parser.the_row.coded };

    ghost view = { λ a. read_by a.reading };
}

impl ParserRunning {
    pub(crate) fn new(alloc: Global, parser: Parser) -> Result<ParserRunning, AllocError>
        ensures { IfOk result (λ running. running ≡ parser) }
    {
        let reading = match parser {
            Parser::Json => Reading::Json(Box::new(alloc, Scratch::new(alloc))?),
            Parser::Logfmt => Reading::Logfmt,
        };
        Ok(ParserRunning { reading })
    }

    // Which parser it is.
    pub(crate) fn parser(&self) -> Parser
        ensures { result ≡ self.now }
    {
        match &self.reading {
            Reading::Json(_) => Parser::Json,
            Reading::Logfmt => Parser::Logfmt,
        }
    }

    // The labels that a line of a stream has, without their text.
    pub(crate) fn labels_after(
        &mut self,
        alloc: Global,
        labels: &Labels,
        line: &str,
    ) -> Result<LabelsBuilder, AllocError>
        ensures labels { IfOk result (λ all. all ≡ parsed self.old labels.now line.now) }
        ensures same { self.new ≡ self.old }
    {
        match &mut self.reading {
            Reading::Json(scratch) => json_labels(alloc, scratch, labels, line),
            Reading::Logfmt => logfmt_labels(alloc, labels, line),
        }
    }
}
