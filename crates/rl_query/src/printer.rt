//! The printer: the canonical text of a query.
ghost use Rattle.std.specs.Prelude.{◌≡◌, IfOk, map, string_bytes, ◌++◌, [], option_map, OnOk, codes};
ghost use Rattle.rl_query.specs.Form.{filter_form, sieve_form, matcher_form, stage_form, range_form, aggregation_form, term_form, threshold_form, query_form};
ghost use Rattle.rl_query.specs.Printing.{sieve_text, matchers_text, filter_op_text, filter_print, filters_text, parser_text, stage_print, stages_text, range_text, names_text, grouping_text, parameter_text, aggregation_text, nest_text, bare_text, term_text, over_text, threshold_text, query_text};
ghost use Rattle.std.specs.List.{flat_map};
ghost use Rattle.rl_query.specs.MatcherPrinting.{operator_text, matcher_text};
ghost use Rattle.rl_query.specs.Tables.{operator_word};
ghost use Rattle.std.specs.Fmt.{decimal};

use crate::aggregation::{Aggregation, Grouping, Threshold, VectorOperator};
use crate::filter::{LineFilter, LineOp, Sieve};
use crate::query::{LogRange, Query, Term};
use crate::stages::{Parser, Stage};
use crate::test_printer::{comparison_sign, push_tests};
use crate::token::ESCAPES;
use rl_labels::{MatchOp, Matcher};
use rl_plain::{PlainText, push_escaped};
use std::alloc::{AllocError, Global};

/// The canonical text of a sieve.
pub fn sieve_text(alloc: Global, sieve: &Sieve) -> Result<String, AllocError>
    ensures { IfOk result (λ text. string_bytes text ≡ sieve_text (sieve_form sieve.now)) }
{
    let mut text = String::new(alloc);
    text.push('{')?;
    push_matchers(&mut text, sieve.selector.matchers.as_slice())?;
    text.push('}')?;
    push_filters(&mut text, sieve.filters.as_slice())?;
    Ok(text)
}

/// The canonical text of a query, as `sum by (app) (rate({app="a"} [300s])) / count_over_time({app="b"} [60s]) > 0.5`.
pub fn print(alloc: Global, query: &Query) -> Result<String, AllocError>
    ensures { IfOk result (λ text. string_bytes text ≡ query_text (query_form query.now)) }
{
    let mut text = String::new(alloc);
    push_term(&mut text, &query.left)?;
    push_over(&mut text, &query.over)?;
    push_threshold(&mut text, &query.test)?;
    Ok(text)
}

/// The canonical text of a term.
pub fn term_text(alloc: Global, term: &Term) -> Result<String, AllocError>
    ensures { IfOk result (λ text. string_bytes text ≡ term_text (term_form term.now)) }
{
    let mut text = String::new(alloc);
    push_term(&mut text, term)?;
    Ok(text)
}

fn push_term(text: &mut String, term: &Term) -> Result<(), AllocError>
    ensures { OnOk result (string_bytes text.new ≡ string_bytes text.old ++ term_text (term_form term.now)) }
{
    push_nested(text, term.aggregations.as_slice(), term)
}

// Vector aggregations, the outermost first, around the range aggregation of a term.
fn push_nested(
    text: &mut String,
    aggregations: &[Aggregation],
    term: &Term,
) -> Result<(), AllocError>
    ensures { OnOk result (string_bytes text.new ≡ string_bytes text.old ++ nest_text (map aggregation_form aggregations.now) (bare_text (term_form term.now))) }
{
    match aggregations {
        [] => push_bare(text, term),
        [first, rest @ ..] => {
            push_aggregation(text, first)?;
            push_nested(text, rest, term)?;
            text.push(')')
        }
    }
}

fn push_bare(text: &mut String, term: &Term) -> Result<(), AllocError>
    ensures { OnOk result (string_bytes text.new ≡ string_bytes text.old ++ bare_text (term_form term.now)) }
{
    text.push_str(term.function.as_str())?;
    text.push('(')?;
    push_range(text, &term.range)?;
    text.push(')')
}

// What stands before the term that is aggregated.
fn push_aggregation(text: &mut String, aggregation: &Aggregation) -> Result<(), AllocError>
    ensures { OnOk result (string_bytes text.new ≡ string_bytes text.old ++ aggregation_text (aggregation_form aggregation.now)) }
{
    text.push_str(operator_word(aggregation.operator))?;
    push_grouping(text, &aggregation.grouping)?;
    text.push('(')?;
    push_parameter(text, aggregation.operator)
}

fn operator_word(operator: VectorOperator) -> &'static str
    ensures { result.now ≡ operator_word operator }
{
    match operator {
        VectorOperator::Sum => "sum",
        VectorOperator::Count => "count",
        VectorOperator::Min => "min",
        VectorOperator::Max => "max",
        VectorOperator::Topk(_) => "topk",
    }
}

fn push_grouping(text: &mut String, grouping: &Grouping) -> Result<(), AllocError>
    ensures { OnOk result (string_bytes text.new ≡ string_bytes text.old ++ grouping_text grouping.now) }
{
    match grouping {
        Grouping::All => Ok(()),
        Grouping::By(names) => {
            text.push_str(" by (")?;
            push_names(text, names.as_slice())?;
            text.push_str(") ")
        }
        Grouping::Without(names) => {
            text.push_str(" without (")?;
            push_names(text, names.as_slice())?;
            text.push_str(") ")
        }
    }
}

fn push_names(text: &mut String, names: &[PlainText]) -> Result<(), AllocError>
    ensures { OnOk result (string_bytes text.new ≡ string_bytes text.old ++ names_text names.now) }
{
    match names {
        [] => Ok(()),
        [first, rest @ ..] => {
            text.push_str(first.as_str())?;
            push_other_names(text, rest)
        }
    }
}

fn push_other_names(text: &mut String, names: &[PlainText]) -> Result<(), AllocError>
    ensures { OnOk result (string_bytes text.new ≡ string_bytes text.old ++ flat_map (λ other. codes ", " ++ other) names.now) }
{
    for name in names {
        text.push_str(", ")?;
        text.push_str(name.as_str())?;
    }
    Ok(())
}

// The number of samples that topk keeps.
fn push_parameter(text: &mut String, operator: VectorOperator) -> Result<(), AllocError>
    ensures { OnOk result (string_bytes text.new ≡ string_bytes text.old ++ parameter_text operator) }
{
    match operator {
        VectorOperator::Topk(k) => {
            push_number(text, u64::from(k))?;
            text.push_str(", ")
        }
        _ => Ok(()),
    }
}

fn push_over(text: &mut String, over: &Option<Term>) -> Result<(), AllocError>
    ensures { OnOk result (string_bytes text.new ≡ string_bytes text.old ++ over_text (option_map term_form over.now)) }
{
    match over {
        None => Ok(()),
        Some(term) => {
            text.push_str(" / ")?;
            push_term(text, term)
        }
    }
}

fn push_threshold(text: &mut String, test: &Option<Threshold>) -> Result<(), AllocError>
    ensures { OnOk result (string_bytes text.new ≡ string_bytes text.old ++ threshold_text (option_map threshold_form test.now)) }
{
    match test {
        None => Ok(()),
        Some(threshold) => {
            text.push(' ')?;
            text.push_str(comparison_sign(threshold.comparison).as_str())?;
            text.push(' ')?;
            threshold.value.push_to(text)
        }
    }
}

fn push_range(text: &mut String, range: &LogRange) -> Result<(), AllocError>
    ensures { OnOk result (string_bytes text.new ≡ string_bytes text.old ++ range_text (range_form range.now)) }
{
    text.push('{')?;
    push_matchers(text, range.selector.matchers.as_slice())?;
    text.push('}')?;
    push_stages(text, range.stages.as_slice())?;
    text.push_str(" [")?;
    push_number(text, range.seconds)?;
    text.push_str("s]")
}

fn push_number(text: &mut String, number: u64) -> Result<(), AllocError>
    ensures { OnOk result (string_bytes text.new ≡ string_bytes text.old ++ decimal number) }
{
    write!(text, "{number}")
}

pub(crate) fn push_matchers(text: &mut String, matchers: &[Matcher]) -> Result<(), AllocError>
    ensures { OnOk result (string_bytes text.new ≡ string_bytes text.old ++ matchers_text (map matcher_form matchers.now)) }
{
    match matchers {
        [] => {}
        [first, rest @ ..] => {
            push_matcher(text, first)?;
            push_others(text, rest)?;
        }
    }
    Ok(())
}

fn push_others(text: &mut String, matchers: &[Matcher]) -> Result<(), AllocError>
    ensures { OnOk result (string_bytes text.new ≡ string_bytes text.old ++ flat_map (λ other. codes ", " ++ matcher_text other) (map matcher_form matchers.now)) }
{
    for matcher in matchers {
        text.push_str(", ")?;
        push_matcher(text, matcher)?;
    }
    Ok(())
}

pub(crate) fn push_matcher(text: &mut String, matcher: &Matcher) -> Result<(), AllocError>
    ensures { OnOk result (string_bytes text.new ≡ string_bytes text.old ++ matcher_text (matcher_form matcher.now)) }
{
    text.push_str(matcher.name.as_str())?;
    text.push_str(operator_sign(matcher.op))?;
    text.push('"')?;
    push_escaped(text, &ESCAPES, matcher.value.as_str())?;
    text.push('"')?;
    Ok(())
}

fn operator_sign(op: MatchOp) -> &'static str
    ensures { result.now ≡ operator_text op }
{
    match op {
        MatchOp::Equal => "=",
        MatchOp::NotEqual => "!=",
        MatchOp::Matches => "=~",
        MatchOp::NotMatches => "!~",
    }
}

// Each line filter after a space.
pub(crate) fn push_filters(text: &mut String, filters: &[LineFilter]) -> Result<(), AllocError>
    ensures { OnOk result (string_bytes text.new ≡ string_bytes text.old ++ filters_text (map filter_form filters.now)) }
{
    for filter in filters {
        text.push(' ')?;
        push_filter(text, filter)?;
    }
    Ok(())
}

// Each stage after a space.
fn push_stages(text: &mut String, stages: &[Stage]) -> Result<(), AllocError>
    ensures { OnOk result (string_bytes text.new ≡ string_bytes text.old ++ stages_text (map stage_form stages.now)) }
{
    for stage in stages {
        text.push(' ')?;
        push_stage(text, stage)?;
    }
    Ok(())
}

fn push_stage(text: &mut String, stage: &Stage) -> Result<(), AllocError>
    ensures { OnOk result (string_bytes text.new ≡ string_bytes text.old ++ stage_print (stage_form stage.now)) }
{
    match stage {
        Stage::Filter(filter) => push_filter(text, filter),
        Stage::Parser(parser) => {
            text.push_str("| ")?;
            text.push_str(parser_name(*parser))
        }
        Stage::Tests(tests) => {
            text.push_str("| ")?;
            push_tests(text, tests)
        }
    }
}

fn parser_name(parser: Parser) -> &'static str
    ensures { result.now ≡ parser_text parser }
{
    match parser {
        Parser::Json => "json",
        Parser::Logfmt => "logfmt",
    }
}

fn push_filter(text: &mut String, filter: &LineFilter) -> Result<(), AllocError>
    ensures { OnOk result (string_bytes text.new ≡ string_bytes text.old ++ filter_print (filter_form filter.now)) }
{
    text.push_str(filter_sign(filter.op))?;
    text.push_str(" \"")?;
    push_escaped(text, &ESCAPES, filter.text.as_str())?;
    text.push('"')
}

fn filter_sign(op: LineOp) -> &'static str
    ensures { result.now ≡ filter_op_text op }
{
    match op {
        LineOp::Contains => "|=",
        LineOp::Lacks => "!=",
        LineOp::Matches => "|~",
        LineOp::NotMatches => "!~",
    }
}
