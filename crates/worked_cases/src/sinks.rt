//! Evaluations, what sinks write of them, and sinks of each kind.
//!
//! An evaluation is `moment place group`, and after it `; ` and `name annotations outcome` for each rule, where the
//! outcome is samples, or the cause of its failure.
use crate::compared::matched;
use crate::given::{Read, labels_in, list_in, moment_in, number_in, words_of};
use crate::output::{push_debug, push_fault_text};
use crate::trouble::Trouble;
use rl_aggregate::{Fraction, Sample};
use rl_plain::{PlainList, PlainText};
use rl_rules::{Alert, AlertState, Cause, Evaluation, RuleKind, RuleOutcome, RuleResult};
use rl_sinks::{Notifier, Recorder, Sink, SinkFault, SinkKind, Tail, evaluation_text};
use std::alloc::{AllocError, AllocFailed, Global};

pub(crate) fn answer(output: &mut String, directive: &str, input: &str) -> Result<(), Trouble> {
    match directive {
        "evaluations" => matched::<Evaluation>(output, input),
        "text" => text(output, input),
        "recorder" | "notifier" | "tail" => sink(output, directive, input),
        "boxed" => boxed(output, input),
        "fault" => fault(output),
        _ => Err(Trouble::NoSuchDirective),
    }
}

// What each kind of sink writes of an evaluation.
fn text(output: &mut String, input: &str) -> Result<(), Trouble> {
    let evaluation = Evaluation::read(*output.allocator(), input)?;
    push_text(output, SinkKind::Recorder, &evaluation)?;
    push_text(output, SinkKind::Tail, &evaluation)?;
    push_text(output, SinkKind::Notifier, &evaluation)
}

fn push_text(output: &mut String, kind: SinkKind, evaluation: &Evaluation) -> Result<(), Trouble> {
    let text = evaluation_text(*output.allocator(), kind, evaluation)?;
    write!(output, "{kind:?}:\n{text}")?;
    Ok(())
}

// How many texts a sink of the kind has room for, or keeps, and in each line `pump`, `close`, or an evaluation that it takes;
// and what was written when the sink is gone.
fn sink(output: &mut String, kind: &str, input: &str) -> Result<(), Trouble> {
    let alloc = *output.allocator();
    let (room, lines) = input.split_once('\n').unwrap_or((input, ""));
    let room = number_in(room)? as usize;
    let mut written = Vec::new(alloc);
    match kind {
        "recorder" => push_answers(output, Recorder::new(alloc, &mut written, room), lines)?,
        "notifier" => push_answers(output, Notifier::new(alloc, &mut written, room), lines)?,
        _ => push_answers(output, Tail::new(alloc, &mut written, room)?, lines)?,
    }
    push_written(output, &written)
}

fn push_written(output: &mut String, written: &[u8]) -> Result<(), Trouble> {
    let written = str::from_utf8(written).or(Err(Trouble::BadInput))?;
    write!(output, "written:\n{written}")?;
    Ok(())
}

// A recorder with room for one text, in a box.
fn boxed(output: &mut String, input: &str) -> Result<(), Trouble> {
    let alloc = *output.allocator();
    let recorder = Recorder::new(alloc, Vec::new(alloc), 1);
    let sink: Box<dyn Sink + Send> = Box::new(alloc, recorder)?;
    push_answers(output, sink, input)
}

// What a sink answers to each line, up to ten texts, and then what it is and keeps. The sink is gone then.
fn push_answers<S: Sink>(output: &mut String, mut sink: S, lines: &str) -> Result<(), Trouble> {
    for line in lines.split_terminator('\n') {
        push_answer(output, &mut sink, line)?;
    }
    push_kept(output, &sink)
}

fn push_answer<S: Sink>(output: &mut String, sink: &mut S, line: &str) -> Result<(), Trouble> {
    match line {
        "pump" => push_debug(output, &sink.pump()),
        "close" => push_debug(output, &sink.close()),
        _ => push_taken(output, sink, line),
    }
}

fn push_taken<S: Sink>(output: &mut String, sink: &mut S, line: &str) -> Result<(), Trouble> {
    let evaluation = Evaluation::read(*output.allocator(), line)?;
    if sink.count() > 9 {
        return Err(Trouble::BadInput);
    }
    push_debug(output, &sink.take(&evaluation))
}

// Its kind, its limit and its count, and the texts that it keeps, up to one past the last.
fn push_kept<S: Sink>(output: &mut String, sink: &S) -> Result<(), Trouble> {
    let (kind, limit, count) = (sink.kind(), sink.limit(), sink.count());
    writeln!(output, "{kind:?}, limit {limit:?}, count {count}")?;
    for index in 0..=count {
        let kept = sink.kept(index);
        writeln!(output, "{index}: {kept:?}")?;
    }
    Ok(())
}

// What is printed of each fault.
fn fault(output: &mut String) -> Result<(), Trouble> {
    push_fault_text(output, &SinkFault::Full)?;
    push_fault_text(output, &SinkFault::Refused(1))?;
    push_fault_text(output, &SinkFault::Refused(2))?;
    push_fault_text(output, &SinkFault::WriteFault)?;
    push_fault_text(output, &SinkFault::from(AllocError))?;
    push_fault_text(output, &SinkFault::from(AllocFailed { value: 1 }))
}

impl Read for Evaluation {
    fn read(alloc: Global, line: &str) -> Result<Self, Trouble> {
        let (head, results) = line.split_once("; ").unwrap_or((line, ""));
        let (moment, head) = words_of(head);
        let (place, group) = words_of(head);
        let t = moment_in(moment)?;
        let group = PlainText::from_str(alloc, group)?;
        let places = PlainList::<u64>::read(alloc, place)?;
        let outcomes = outcomes_in(alloc, results)?;
        Ok(Evaluation {
            group,
            t,
            places,
            outcomes,
        })
    }
}

fn outcomes_in(alloc: Global, results: &str) -> Result<PlainList<RuleResult>, Trouble> {
    Ok(PlainList::from_vec(list_in(alloc, results, "; ")?))
}

impl Read for RuleResult {
    fn read(alloc: Global, text: &str) -> Result<Self, Trouble> {
        let (name, rest) = words_of(text);
        let (annotations, outcome) = words_of(rest);
        let (kind, outcome) = match outcome.strip_prefix("alerts") {
            Some(alerts) => (RuleKind::Alerting, alerts.trim_start()),
            None => (RuleKind::Recording, outcome),
        };
        let name = PlainText::from_str(alloc, name)?;
        let annotations = labels_in(alloc, annotations)?;
        let outcome = outcome_in(alloc, kind, outcome)?;
        Ok(RuleResult {
            kind,
            name,
            annotations,
            outcome,
        })
    }
}

fn outcome_in(alloc: Global, kind: RuleKind, text: &str) -> Result<RuleOutcome, Trouble> {
    let cause = match text {
        "PipelineError" => Cause::PipelineError,
        "SameLabels" => Cause::SameLabels,
        "LimitExceeded" => Cause::LimitExceeded,
        _ => return found_in(alloc, kind, text),
    };
    Ok(RuleOutcome::Failed(cause))
}

// What a rule that did not fail found: samples or alerts, one space apart.
fn found_in(alloc: Global, kind: RuleKind, text: &str) -> Result<RuleOutcome, Trouble> {
    Ok(match kind {
        RuleKind::Recording => {
            RuleOutcome::Samples(PlainList::from_vec(list_in(alloc, text, " ")?))
        }
        RuleKind::Alerting => RuleOutcome::Alerts(PlainList::from_vec(list_in(alloc, text, " ")?)),
    })
}

// An alert is `state@active_at@fired@labels:value`, of which the third may be `-`.
impl Read for Alert {
    fn read(alloc: Global, word: &str) -> Result<Self, Trouble> {
        let (state, rest) = word.split_once('@').unwrap_or((word, ""));
        let (active_at, rest) = rest.split_once('@').unwrap_or((rest, ""));
        let (fired, sample) = rest.split_once('@').unwrap_or((rest, ""));
        let (active_at, state) = (moment_in(active_at)?, state_in(state)?);
        let fired = if fired == "-" {
            None
        } else {
            Some(moment_in(fired)?)
        };
        let Sample { labels, value } = Sample::read(alloc, sample)?;
        Ok(Alert {
            labels,
            value,
            active_at,
            fired,
            state,
        })
    }
}

fn state_in(word: &str) -> Result<AlertState, Trouble> {
    match word {
        "pending" => Ok(AlertState::Pending),
        "firing" => Ok(AlertState::Firing),
        "resolved" => Ok(AlertState::Resolved),
        _ => Err(Trouble::BadInput),
    }
}

// A sample is `labels:value`, with the value `n` or `n/d`.
impl Read for Sample {
    fn read(alloc: Global, word: &str) -> Result<Self, Trouble> {
        let (labels, value) = word.split_once(':').ok_or(Trouble::BadInput)?;
        let (numerator, denominator) = value.split_once('/').unwrap_or((value, "1"));
        let value = Fraction {
            numerator: u128::from(number_in(numerator)?),
            denominator: u128::from(number_in(denominator)?),
        };
        let labels = labels_in(alloc, labels)?;
        Ok(Sample { labels, value })
    }
}
