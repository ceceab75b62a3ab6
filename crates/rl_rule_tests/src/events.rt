//! All that happens in a test, in its order.
ghost use Rattle.std.specs.Prelude.{◌≡◌, [], ◌∷◌, ◌++◌, map, IfOk, OnOk};
ghost use Rattle.std.specs.List.{enumerate_from, flat_map};
ghost use Rattle.std.specs.List.Sorted.{IsPermutation, IsSorted};
ghost use Rattle.rl_rule_tests.specs.Happening.{check_event, edit_event, evaluations_of, event_cmp, happenings, interval_steps, last_check, later, moments_of, rank, steps_of, stream_events};

use crate::document::{Check, Edit, MOST_MOMENTS, Span, Test};
use crate::judging::is_named;
use crate::lines::Stream;
use crate::part::Steps;
use rl_labels::SECOND;
use rl_rules::Group;
use std::alloc::{AllocError, Global};
use std::cmp::Ordering;

/// What happens. At one moment lines arrive first.
#[derive(Clone, Copy)]
pub(crate) enum What {
    /// A line of a stream.
    Line,
    Edit,
    /// The evaluation of a group.
    Evaluation,
    /// What is wanted is looked for.
    Check,
}

/// What happens at a moment: to which stream, edit, group or check, counted from 0, and by which of its lines.
#[derive(Clone, Copy)]
pub(crate) struct Event {
    pub(crate) at: u64,
    pub(crate) what: What,
    pub(crate) number: usize,
    pub(crate) line: usize,
}

/// What happens in a test of these groups. An evaluation may stand there more than once.
pub(crate) fn events_of(
    alloc: Global,
    groups: &[Group],
    test: &Test<'_>,
) -> Result<Vec<Event>, AllocError>
    ensures all { IfOk result (λ events. IsPermutation (happenings groups.now test.now) events.items) }
    ensures in_order { IfOk result (λ events. IsSorted event_cmp events.items) }
{
    let mut events = Vec::new(alloc);
    push_streams(&mut events, &test.streams)?;
    push_edits(&mut events, &test.edits)?;
    push_evaluations(&mut events, groups, &test.spans, &test.checks)?;
    push_checks(&mut events, &test.checks)?;
    events.sort_unstable_by(|one, other| order(one, other));
    Ok(events)
}

// The order of what happens: by moment, by what it is, by its number, and by its line.
fn order(one: &Event, other: &Event) -> Ordering
    ensures { result ≡ event_cmp one.now other.now }
{
    one.at
        .cmp(&other.at)
        .then(rank(one.what).cmp(&rank(other.what)))
        .then(one.number.cmp(&other.number))
        .then(one.line.cmp(&other.line))
}

// What comes first of what happens at one moment.
fn rank(what: What) -> u8
    ensures { result ≡ rank what }
{
    match what {
        What::Line => 0,
        What::Edit => 1,
        What::Evaluation => 2,
        What::Check => 3,
    }
}

fn push_streams(events: &mut Vec<Event>, streams: &[Stream<'_>]) -> Result<(), AllocError>
    ensures { OnOk result (events.new.items ≡ events.old.items ++ flat_map stream_events (enumerate_from 0 streams.now)) }
{
    for (number, stream) in streams.iter().enumerate() {
        push_lines(events, number, stream)?;
    }
    Ok(())
}

fn push_lines(events: &mut Vec<Event>, number: usize, stream: &Stream<'_>) -> Result<(), AllocError>
    ensures { OnOk result (events.new.items ≡ events.old.items ++ stream_events (number, stream.now)) }
{
    for (index, line) in stream.lines.iter().enumerate() {
        let at = line.moment.saturating_add(stream.late);
        push(events, at, What::Line, number, index)?;
    }
    Ok(())
}

fn push_edits(events: &mut Vec<Event>, edits: &[Edit<'_>]) -> Result<(), AllocError>
    ensures { OnOk result (events.new.items ≡ events.old.items ++ map edit_event (enumerate_from 0 edits.now)) }
{
    for (number, edit) in edits.iter().enumerate() {
        push(events, edit.at, What::Edit, number, 0)?;
    }
    Ok(())
}

fn push_checks(events: &mut Vec<Event>, checks: &[Check<'_>]) -> Result<(), AllocError>
    ensures { OnOk result (events.new.items ≡ events.old.items ++ map check_event (enumerate_from 0 checks.now)) }
{
    for (number, check) in checks.iter().enumerate() {
        push(events, check.at, What::Check, number, 0)?;
    }
    Ok(())
}

fn push(
    events: &mut Vec<Event>,
    at: u64,
    what: What,
    number: usize,
    line: usize,
) -> Result<(), AllocError>
    ensures { OnOk result (events.new.items ≡ events.old.items ++ record { at = at; what = what; number = number; line = line } ∷ []) }
{
    events.push(Event {
        at,
        what,
        number,
        line,
    })?;
    Ok(())
}

fn push_evaluations(
    events: &mut Vec<Event>,
    groups: &[Group],
    spans: &[Span<'_>],
    checks: &[Check<'_>],
) -> Result<(), AllocError>
    ensures { OnOk result (events.new.items ≡ events.old.items ++ flat_map (evaluations_of spans.now checks.now) (enumerate_from 0 groups.now)) }
{
    for (number, group) in groups.iter().enumerate() {
        push_group(events, number, group, spans, checks)?;
    }
    Ok(())
}

// Evaluates a group at the moments that are asked for, or by its interval where none are.
fn push_group(
    events: &mut Vec<Event>,
    number: usize,
    group: &Group,
    spans: &[Span<'_>],
    checks: &[Check<'_>],
) -> Result<(), AllocError>
    ensures { OnOk result (events.new.items ≡ events.old.items ++ evaluations_of spans.now checks.now (number, group.now)) }
{
    if spans.is_empty() {
        return push_steps(events, number, by_interval(group, checks));
    }
    push_spans(events, number, group.name.as_str(), spans)
}

fn push_spans(
    events: &mut Vec<Event>,
    number: usize,
    name: &str,
    spans: &[Span<'_>],
) -> Result<(), AllocError>
    ensures { OnOk result (events.new.items ≡ events.old.items ++ flat_map (λ span. moments_of number (steps_of name.now span)) spans.now) }
{
    for span in spans {
        if is_named(span.group, name) {
            push_steps(events, number, span.steps)?;
        }
    }
    Ok(())
}

// The start, and the moments by the interval of a group up to the last one at which something is wanted, if something is.
fn by_interval(group: &Group, checks: &[Check<'_>]) -> Steps
    ensures { result ≡ interval_steps group.now.interval (last_check checks.now) }
{
    let step = group.interval.saturating_mul(SECOND);
    let count = match last_check(checks) {
        Some(last) => last.checked_div(step).unwrap_or(0).saturating_add(1),
        None => 0,
    };
    Steps {
        from: 0,
        step,
        count,
    }
}

// The last moment at which something is wanted.
fn last_check(checks: &[Check<'_>]) -> Option<u64>
    ensures { result ≡ last_check checks.now }
{
    let mut last = None;
    for check in checks {
        last = Some(later(last, check.at));
    }
    last
}

// The later of a moment and one that may be there.
fn later(last: Option<u64>, at: u64) -> u64
    ensures { result ≡ later last at }
{
    match last {
        Some(last) => last.max(at),
        None => at,
    }
}

// Evaluates a group at moments, and at no more than a ruler keeps of a group.
fn push_steps(events: &mut Vec<Event>, number: usize, steps: Steps) -> Result<(), AllocError>
    ensures { OnOk result (events.new.items ≡ events.old.items ++ moments_of number steps) }
{
    let mut at = steps.from;
    for _ in 0..steps.count.min(MOST_MOMENTS) {
        push(events, at, What::Evaluation, number, 0)?;
        at = at.saturating_add(steps.step);
    }
    Ok(())
}
