//! Cases of pipelines: the labels that lines have after a parser where an error is set, what is counted of lines that go
//! through stages, and what sieves cover.
//!
//! `json` and `logfmt` have the label set of a stream, which gets the error `E`, and its lines. `runs` has a query before these.
//! `covers` has a delete selector, and an entry in each other line.
use crate::given::{Read, entry_in, labels_in};
use crate::output::push_value;
use crate::query::query_in;
use crate::trouble::Trouble;
use rl_labels::labels::{ERROR_LABEL, is_label_name};
use rl_labels::{Covers, Labels};
use rl_pipeline::{Meter, Pipeline, Running, SieveCode, parsed};
use rl_query::{Parser, Sieve};
use std::alloc::Global;
use std::mem;

pub(crate) fn answer(output: &mut String, directive: &str, input: &str) -> Result<(), Trouble> {
    let (first, lines) = input.split_once('\n').ok_or(Trouble::BadInput)?;
    match directive {
        "json" => push_after_parser(output, Parser::Json, first, lines),
        "logfmt" => push_after_parser(output, Parser::Logfmt, first, lines),
        "runs" => runs(output, first, lines),
        "covers" => covers(output, first, lines),
        _ => Err(Trouble::NoSuchDirective),
    }
}

// The labels that each line of a stream has after the parser, where an error is set before it.
fn push_after_parser(
    output: &mut String,
    parser: Parser,
    labels: &str,
    lines: &str,
) -> Result<(), Trouble> {
    let labels = faulty_labels(*output.allocator(), labels)?;
    for line in lines.split('\n') {
        push_parsed(output, parser, &labels, line)?;
    }
    Ok(())
}

// A label set with an error.
fn faulty_labels(alloc: Global, labels: &str) -> Result<Labels, Trouble> {
    if !is_label_name(ERROR_LABEL) {
        return Err(Trouble::BadInput);
    }
    let labels = labels_in(alloc, labels)?;
    Ok(labels.with_label(ERROR_LABEL, "E")?)
}

fn push_parsed(
    output: &mut String,
    parser: Parser,
    labels: &Labels,
    line: &str,
) -> Result<(), Trouble> {
    let labels = parsed(*output.allocator(), parser, labels, line)?;
    push_value(output, &labels)
}

// The labels that each line has after all stages, and what was counted.
fn runs(output: &mut String, query: &str, rest: &str) -> Result<(), Trouble> {
    let (labels, lines) = rest.split_once('\n').ok_or(Trouble::BadInput)?;
    let labels = labels_in(*output.allocator(), labels)?;
    let pipeline = pipeline_in(*output.allocator(), query)?;
    let ended = push_runs(output, &pipeline, &labels, lines);
    mem::forget(pipeline);
    ended
}

// The built stages of the first term of a query.
fn pipeline_in(alloc: Global, query: &str) -> Result<Pipeline, Trouble> {
    let query = query_in(alloc, query)?;
    let built = Pipeline::build(alloc, &query.left);
    mem::forget(query);
    built.or(Err(Trouble::BadInput))
}

fn push_runs(
    output: &mut String,
    pipeline: &Pipeline,
    labels: &Labels,
    lines: &str,
) -> Result<(), Trouble> {
    let mut running = pipeline.running()?;
    let mut meter = Meter::new();
    let ended = push_lines(output, &mut running, &mut meter, labels, lines);
    let is_plain = running.is_plain();
    mem::forget(running);
    ended?;
    meter.count_visits(u64::MAX - 1);
    meter.count_visits(meter.runs());
    let (runs, visits) = (meter.runs(), meter.visits());
    writeln!(output, "{runs} runs, {visits} visits, plain {is_plain}")?;
    Ok(())
}

fn push_lines(
    output: &mut String,
    running: &mut Running<'_>,
    meter: &mut Meter,
    labels: &Labels,
    lines: &str,
) -> Result<(), Trouble> {
    for line in lines.split('\n') {
        push_run(output, running, meter, labels, line)?;
    }
    Ok(())
}

fn push_run(
    output: &mut String,
    running: &mut Running<'_>,
    meter: &mut Meter,
    labels: &Labels,
    line: &str,
) -> Result<(), Trouble> {
    match running.run(meter, labels, line)? {
        Some(labels) => push_value(output, &labels),
        None => push_value(output, &"left out"),
    }
}

// Whether a sieve covers each entry.
fn covers(output: &mut String, selector: &str, entries: &str) -> Result<(), Trouble> {
    let code = code_in(*output.allocator(), selector)?;
    let ended = push_covered(output, &code, entries);
    mem::forget(code);
    ended
}

fn code_in(alloc: Global, selector: &str) -> Result<SieveCode, Trouble> {
    let sieve = Sieve::read(alloc, selector)?;
    SieveCode::build(alloc, &sieve).or(Err(Trouble::BadInput))
}

fn push_covered(output: &mut String, code: &SieveCode, entries: &str) -> Result<(), Trouble> {
    for entry in entries.split('\n') {
        let is_covered = is_covered(*output.allocator(), code, entry)?;
        push_value(output, &is_covered)?;
    }
    Ok(())
}

fn is_covered(alloc: Global, code: &SieveCode, entry: &str) -> Result<bool, Trouble> {
    let entry = entry_in(alloc, entry)?;
    Ok(code.covers(&entry)?)
}
