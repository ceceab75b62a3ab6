//! The fields of records, read from the front of bytes.
ghost use Rattle.std.specs.Prelude.{◌≡◌, IfOk, IsTrue};
ghost use Rattle.rl_labels.specs.EntryParts.{are_stream_labels};
ghost use Rattle.rl_labels.specs.Pairs.{labels_from};
ghost use Rattle.rl_plain.specs.Answers.{Answers, Gives};
ghost use Rattle.rl_query.specs.Form.{query_form, sieve_form, term_form};
ghost use Rattle.rl_selector_text.specs.Sieving.{sieve_of};
ghost use Rattle.rl_query_text.specs.QueryReading.{query_of};
ghost use Rattle.rl_segments.specs.RecordReading.{byte_at, labels_at, lone_term, moment_at, number_at, of_stream, of_text, sieve_at, stream_at, term_at, text_at, text_error};
ghost use Rattle.rl_segments.specs.FrameReading.{found, frame_in};

use crate::fault::{RecordError, RecordFault};
use crate::frames::{frame_in, number_in};
use crate::label_text::{after, labels_in, pairs_in, utf8};
use rl_labels::{Labels, Ns};
use rl_plain::{OrMemory, PlainText};
use rl_query::fault::{QueryError, QueryFault};
use rl_query::{Query, Sieve, Term};
use rl_query_text::parse;
use rl_records::SieveText;
use rl_selector_text::parse_delete;
use std::alloc::Global;

pub(crate) fn byte_at(bytes: &[u8]) -> Result<(u8, &[u8]), RecordFault>
    ensures { Answers (λ x. (x.0, x.1.now)) result (byte_at bytes.now) }
{
    match bytes.split_first() {
        Some((byte, rest)) => Ok((*byte, rest)),
        None => Err(RecordFault::NotARecord),
    }
}

/// A number of eight bytes.
pub(crate) fn number_at(bytes: &[u8]) -> Result<(u64, &[u8]), RecordFault>
    ensures { Answers (λ x. (x.0, x.1.now)) result (number_at bytes.now) }
{
    match number_in(bytes) {
        Some(read) => Ok(read),
        None => Err(RecordFault::NotARecord),
    }
}

/// A moment up to the greatest.
#[tactic(auto, unfolding(crate::specs::RecordReading::moment_at))]
pub(crate) fn moment_at(bytes: &[u8]) -> Result<(Ns, &[u8]), RecordError>
    ensures { Gives (λ x. (x.0, x.1.now)) result (moment_at bytes.now) }
{
    let (nanoseconds, rest) = number_at(bytes)?;
    match Ns::new(nanoseconds) {
        Some(moment) => Ok((moment, rest)),
        None => Err(RecordFault::NotARecord.into()),
    }
}

// What stands after its length.
fn framed_at(bytes: &[u8]) -> Result<(&[u8], &[u8]), RecordFault>
    ensures { Answers (λ x. (x.0.now, x.1.now)) result (found (frame_in bytes.now)) }
{
    match frame_in(bytes) {
        Some(framed) => Ok(framed),
        None => Err(RecordFault::NotARecord),
    }
}

/// A text after its length.
#[tactic(auto, unfolding(crate::specs::RecordReading::text_at))]
pub(crate) fn text_at(bytes: &[u8]) -> Result<(&str, &[u8]), RecordFault>
    ensures { Answers (λ x. (x.0.now, x.1.now)) result (text_at bytes.now) }
{
    let (framed, rest) = framed_at(bytes)?;
    let text = utf8(framed)?;
    Ok((text, rest))
}

/// A label set.
#[tactic(auto, unfolding(crate::specs::RecordReading::labels_at))]
pub(crate) fn labels_at(alloc: Global, bytes: &[u8]) -> Result<(Labels, &[u8]), RecordError>
    ensures { Gives (λ x. (x.0, x.1.now)) result (labels_at bytes.now) }
{
    let (framed, rest) = framed_at(bytes)?;
    let labels = labels_in(alloc, framed)?;
    Ok((labels, rest))
}

/// The labels of a stream.
#[tactic(auto, unfolding(crate::specs::RecordReading::stream_at))]
pub(crate) fn stream_at(alloc: Global, bytes: &[u8]) -> Result<(Labels, &[u8]), RecordError>
    ensures read { Gives (λ x. (x.0, x.1.now)) result (stream_at bytes.now) }
    ensures of_stream { IfOk result (λ x. IsTrue (are_stream_labels x.0)) }
{
    let (framed, following) = framed_at(bytes)?;
    let rest = after(b'{', framed)?;
    let pairs = pairs_in(alloc, rest)?;
    let labels = stream_of(alloc, pairs)?;
    Ok((labels, following))
}

// The label set of pairs, if a stream may have it.
fn stream_of(alloc: Global, pairs: Vec<(PlainText, PlainText)>) -> Result<Labels, RecordError>
    ensures read { Gives (λ labels. labels) result (of_stream (labels_from pairs.items)) }
    ensures of_stream { IfOk result (λ labels. IsTrue (are_stream_labels labels)) }
{
    match Labels::from_pairs(alloc, pairs) {
        Ok(labels) => Ok(labels),
        Err(OrMemory::Fault(_)) => Err(RecordFault::NotARecord.into()),
        Err(OrMemory::Memory) => Err(OrMemory::Memory),
    }
}

/// A sieve, with its text.
#[tactic(auto, unfolding(crate::specs::RecordReading::sieve_at))]
pub(crate) fn sieve_at(alloc: Global, bytes: &[u8]) -> Result<(SieveText, &[u8]), RecordError>
    ensures { Gives (λ x. (sieve_form x.0, x.1.now)) result (sieve_at bytes.now) }
{
    let (text, rest) = text_at(bytes)?;
    let sieve = sieve_of(alloc, text)?;
    let sieve = SieveText::new(alloc, sieve)?;
    Ok((sieve, rest))
}

// The sieve of a text. A pattern that has no room is a lack of memory.
fn sieve_of(alloc: Global, text: &str) -> Result<Sieve, RecordError>
    ensures { Gives sieve_form result (of_text (sieve_of text.now)) }
{
    match parse_delete(alloc, text) {
        Ok(sieve) => Ok(sieve),
        Err(error) => Err(text_error(error)),
    }
}

/// A term.
#[tactic(auto, unfolding(crate::specs::RecordReading::term_at))]
pub(crate) fn term_at(alloc: Global, bytes: &[u8]) -> Result<(Term, &[u8]), RecordError>
    ensures { Gives (λ x. (term_form x.0, x.1.now)) result (term_at bytes.now) }
{
    let (text, rest) = text_at(bytes)?;
    let query = query_of(alloc, text)?;
    let term = lone_term(query)?;
    Ok((term, rest))
}

// The query of a text. A pattern that has no room is a lack of memory.
fn query_of(alloc: Global, text: &str) -> Result<Query, RecordError>
    ensures { Gives query_form result (of_text (query_of text.now)) }
{
    match parse(alloc, text) {
        Ok(query) => Ok(query),
        Err(error) => Err(text_error(error)),
    }
}

// The term that is all of a query.
fn lone_term(query: Query) -> Result<Term, RecordFault>
    ensures { Answers term_form result (lone_term (query_form query)) }
{
    match query {
        Query {
            left,
            over: None,
            test: None,
        } => Ok(left),
        _ => Err(RecordFault::NotARecord),
    }
}

// Why a text is none that was printed.
fn text_error(error: QueryError) -> RecordError
    ensures { result ≡ text_error error }
{
    match error {
        OrMemory::Memory | OrMemory::Fault(QueryFault::BadRegex) => OrMemory::Memory,
        OrMemory::Fault(_) => RecordFault::NotARecord.into(),
    }
}
