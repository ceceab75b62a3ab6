//! Plays a test: its lines, edits and evaluations to a ruler of its own, and its checks to what that gave.
ghost use Rattle.std.specs.Prelude.{◌≡◌, nat_lt, [], length, map, slice_get, if◌then◌else◌, is_some, IfOk, IsTrue, OnOk};
ghost use Rattle.std.specs.List.{AllByRecursion};
ghost use Rattle.rl_labels.specs.EntryParts.{are_stream_labels};
ghost use Rattle.rl_world.specs.BookCalls.{IsFresh};
ghost use Rattle.rl_rule_tests.specs.Counting.{counts_of, passes, IsCounted};
ghost use Rattle.rl_rule_tests.specs.Numbering.{IsNumbered};
ghost use Rattle.rl_rule_tests.specs.Playing.{is_given, line_at, moment_of, ruler_of, stage_of, AsksOfNobody, Chain, Checks, Evaluates, HandsLine, Happens, IsFreshRuler, IsHanded, IsHandedParts, IsOneStore, IsPlayed, IsPut, IsTextOf, PlaysAll, PutsGroup, PutsGroups};

use crate::differences::{push_differences, push_side};
use crate::document::{Check, Edit, Span, Test};
use crate::events::{Event, What, events_of};
use crate::judging::{agree, given, is_named, results_of};
use crate::lines::{Stream, TestLine};
use crate::report::Report;
use crate::rows::Outcome;
use crate::wanted::wanted_of;
use rl_chunks::MemStore;
use rl_labels::{DEFAULT_LIMITS, Entry, Labels, Limits, Ns};
use rl_plain::{PlainText, Shared, TryCopy};
use rl_rules::{Evaluation, Group, RuleResult};
use rl_session::names::{push_refusal, refusal_name};
use rl_session::{Engine, WorldEngine};
use rl_sinks::{Recorder, Sink};
use std::alloc::{AllocError, Global};

// The start of each test, 2000-01-01T00:00:00Z, in nanoseconds.
const START: u64 = 946_684_800_000_000_000;

// A ruler with one shard in memory. No group has a sink.
type Ruler = WorldEngine<MemStore, Recorder<Vec<u8>>>;

// A test on its way: the moment of what happened last, and what groups gave at it.
#[derive(Drop)]
struct Moment {
    at: u64,
    given: Vec<Shared<Evaluation>>,
}

/// Plays a test of these groups to a ruler of its own, and reports how many checks passed and failed, and of each failure
/// what differs.
pub fn play(
    alloc: Global,
    groups: &[Group],
    test: &Test<'_>,
    report: &mut Report,
) -> Result<(), AllocError>
    ensures { OnOk result (IsPlayed groups.now test.now (counts_of report.old) (counts_of report.new)) }
{
    let events = events_of(alloc, groups, test)?;
    let mut engine = ruler(alloc, groups)?;
    report_spans(&engine, test, report)?;
    play_events(alloc, &mut engine, groups, test, &events, report)?;
    Ok(())
}

// Reports evaluations that are asked for of groups that are not there.
fn report_spans<E: Engine>(
    engine: &E,
    test: &Test<'_>,
    report: &mut Report,
) -> Result<(), AllocError>
    ensures { OnOk result (Chain (AsksOfNobody (ruler_of E.calls) engine.now) (counts_of report.old) test.now.spans.items (counts_of report.new)) }
{
    for span in &test.spans {
        report_span(engine, test.name, span, report)?;
    }
    Ok(())
}

fn report_span<E: Engine>(
    engine: &E,
    test: &str,
    span: &Span<'_>,
    report: &mut Report,
) -> Result<(), AllocError>
    ensures { OnOk result (AsksOfNobody (ruler_of E.calls) engine.now (counts_of report.old) span.now (counts_of report.new)) }
{
    let Some(name) = span.group else {
        return Ok(());
    };
    if engine.group(name).is_some() {
        return Ok(());
    }
    report.refuse(test, span.steps.from, "evaluation of", name, "NoSuchGroup")
}

// A ruler that holds nothing.
fn ruler(alloc: Global, groups: &[Group]) -> Result<Ruler, AllocError>
    ensures { IfOk result (IsFreshRuler groups.now) }
{
    let Ok(limits) = Limits::check(DEFAULT_LIMITS) else {
        return Err(AllocError);
    };
    let groups = copies(alloc, groups)?;
    let stores = one_store(alloc)?;
    let sinks = no_sinks(alloc, &groups)?;
    let ruler = WorldEngine::open(alloc, limits, stores, groups, sinks)?;
    Ok(ruler)
}

fn copies(alloc: Global, groups: &[Group]) -> Result<Vec<Group>, AllocError>
    ensures { IfOk result (λ copies. copies.items ≡ groups.now) }
{
    let mut copies = Vec::with_capacity(alloc, groups.len())?;
    for group in groups {
        copies.push(group.try_copy()?)?;
    }
    Ok(copies)
}

fn one_store(alloc: Global) -> Result<Vec<MemStore>, AllocError>
    ensures { IfOk result (λ stores. IsOneStore stores.items) }
{
    let mut stores = Vec::new(alloc);
    stores.push(MemStore::new(alloc))?;
    Ok(stores)
}

// For each group, no sinks.
fn no_sinks<S: Sink>(alloc: Global, groups: &[Group]) -> Result<Vec<Vec<S>>, AllocError>
    ensures lists { IfOk result (λ sinks. length sinks.items ≡ length groups.now) }
    ensures fresh { IfOk result (λ sinks. AllByRecursion (λ own. AllByRecursion IsFresh (map S.state own.items)) sinks.items) }
    ensures none { IfOk result (λ sinks. map (λ own. map S.state own.items) sinks.items ≡ map (λ _. []) groups.now) }
{
    let mut sinks = Vec::with_capacity(alloc, groups.len())?;
    for _ in 0..groups.len() {
        sinks.push(Vec::new(alloc))?;
    }
    Ok(sinks)
}

fn play_events<E: Engine>(
    alloc: Global,
    engine: &mut E,
    groups: &[Group],
    test: &Test<'_>,
    events: &[Event],
    report: &mut Report,
) -> Result<(), AllocError>
    ensures { OnOk result (PlaysAll (ruler_of E.calls) groups.now test.now (record { engine = engine.old; counts = counts_of report.old }) events.now (record { engine = engine.new; counts = counts_of report.new })) }
{
    let mut moment = Moment {
        at: 0,
        given: Vec::new(alloc),
    };
    for event in events {
        play_event(alloc, engine, groups, test, *event, &mut moment, report)?;
    }
    Ok(())
}

fn play_event<E: Engine>(
    alloc: Global,
    engine: &mut E,
    groups: &[Group],
    test: &Test<'_>,
    event: Event,
    moment: &mut Moment,
    report: &mut Report,
) -> Result<(), AllocError>
    ensures { OnOk result (Happens (ruler_of E.calls) groups.now test.now (stage_of engine.old moment.old (counts_of report.old)) event (stage_of engine.new moment.new (counts_of report.new))) }
{
    arrive(moment, event.at);
    match event.what {
        What::Line => play_line(alloc, engine, test, event, report),
        What::Edit => play_edit(engine, test, event, report),
        What::Evaluation => play_evaluation(engine, groups, test.name, event, moment, report),
        What::Check => play_check(alloc, groups, test, event, &moment.given, report),
    }
}

// At a later moment nothing has been given yet.
fn arrive(moment: &mut Moment, at: u64)
    ensures at { moment.new.at ≡ (if nat_lt moment.old.at at then at else moment.old.at) }
    ensures given { moment.new.given.items ≡ (if nat_lt moment.old.at at then [] else moment.old.given.items) }
{
    if at > moment.at {
        moment.at = at;
        moment.given.clear();
    }
}

// A moment of the ruler, which lies some nanoseconds before one of the test.
fn moment_of(at: u64, before: u64) -> Option<Ns>
    ensures { result ≡ moment_of at before }
{
    Ns::new(START.saturating_add(at).saturating_sub(before))
}

fn play_line<E: Engine>(
    alloc: Global,
    engine: &mut E,
    test: &Test<'_>,
    event: Event,
    report: &mut Report,
) -> Result<(), AllocError>
    ensures { OnOk result (HandsLine (ruler_of E.calls) (record { engine = engine.old; counts = counts_of report.old }) (line_at test.now event) (record { engine = engine.new; counts = counts_of report.new })) }
{
    let Some(stream) = test.streams.get(event.number) else {
        return Ok(());
    };
    let Some(line) = stream.lines.get(event.line) else {
        return Ok(());
    };
    match push_line(alloc, engine, stream, *line)? {
        Some(why) => {
            let labels = stream.labels.as_text();
            report.refuse(test.name, event.at, "line of", labels, why)
        }
        None => Ok(()),
    }
}

// Hands a line to the ruler. Why it is refused, if it is.
fn push_line<E: Engine>(
    alloc: Global,
    engine: &mut E,
    stream: &Stream<'_>,
    line: TestLine<'_>,
) -> Result<Option<&'static str>, AllocError>
    ensures { IfOk result (λ why. IsHanded (ruler_of E.calls) engine.old (stream.now, line.entry) (is_some why) engine.new) }
{
    let Some(moment) = moment_of(line.moment, line.before) else {
        return Ok(Some("Time"));
    };
    let text = text_of(alloc, line)?;
    let labels = stream.labels.try_copy()?;
    let why = push_parts(alloc, engine, labels, moment, text)?;
    Ok(why)
}

// The text of a line, with its number where it has one.
fn text_of(alloc: Global, line: TestLine<'_>) -> Result<PlainText, AllocError>
    ensures { IfOk result (IsTextOf line.entry) }
{
    let Some(number) = line.number else {
        return PlainText::from_str(alloc, line.text);
    };
    numbered(alloc, line.text, number)
}

// The text with the number for each `{n}`.
fn numbered(alloc: Global, text: &str, number: u64) -> Result<PlainText, AllocError>
    ensures { IfOk result (IsNumbered number text.now) }
{
    let from = "{n}";
    let number = format!(in alloc; "{number}")?;
    let text = text.replace(alloc, from, number.as_str())?;
    Ok(PlainText::from_string(text))
}

// Hands an entry of these parts to the ruler. Why it is refused, if it is.
fn push_parts<E: Engine>(
    alloc: Global,
    engine: &mut E,
    labels: Labels,
    moment: Ns,
    text: PlainText,
) -> Result<Option<&'static str>, AllocError>
    requires { IsTrue (are_stream_labels labels) }
    ensures { IfOk result (λ why. IsHandedParts (ruler_of E.calls) engine.old labels moment text (is_some why) engine.new) }
{
    match Entry::new(labels, moment, text) {
        Ok(entry) => {
            let entry = Shared::new(alloc, entry)?;
            let answer = engine.push(entry);
            Ok(push_refusal(&answer))
        }
        Err(_) => Ok(Some("TooLong")),
    }
}

fn play_edit<E: Engine>(
    engine: &mut E,
    test: &Test<'_>,
    event: Event,
    report: &mut Report,
) -> Result<(), AllocError>
    ensures { OnOk result (PutsGroups (ruler_of E.calls) (record { engine = engine.old; counts = counts_of report.old }) (slice_get test.now.edits.items event.number) (record { engine = engine.new; counts = counts_of report.new })) }
{
    let Some(edit) = test.edits.get(event.number) else {
        return Ok(());
    };
    play_groups(engine, test.name, event.at, &edit.groups, report)
}

fn play_groups<E: Engine>(
    engine: &mut E,
    test: &str,
    at: u64,
    groups: &[Group],
    report: &mut Report,
) -> Result<(), AllocError>
    ensures { OnOk result (Chain (PutsGroup (ruler_of E.calls)) (record { engine = engine.old; counts = counts_of report.old }) groups.now (record { engine = engine.new; counts = counts_of report.new })) }
{
    for group in groups {
        play_group(engine, test, at, group, report)?;
    }
    Ok(())
}

fn play_group<E: Engine>(
    engine: &mut E,
    test: &str,
    at: u64,
    group: &Group,
    report: &mut Report,
) -> Result<(), AllocError>
    ensures { OnOk result (PutsGroup (ruler_of E.calls) (record { engine = engine.old; counts = counts_of report.old }) group.now (record { engine = engine.new; counts = counts_of report.new })) }
{
    match put_group(engine, group)? {
        Some(why) => report.refuse(test, at, "edit of", group.name.as_str(), why),
        None => Ok(()),
    }
}

// Puts a group instead of the one with its name. Why this is refused, if it is.
fn put_group<E: Engine>(engine: &mut E, group: &Group) -> Result<Option<&'static str>, AllocError>
    ensures { IfOk result (λ why. IsPut (ruler_of E.calls) engine.old group.now (is_some why) engine.new) }
{
    let Some(number) = engine.group(group.name.as_str()) else {
        return Ok(Some("NoSuchGroup"));
    };
    let group = group.try_copy()?;
    match engine.edit(number, group) {
        Ok(()) => Ok(None),
        Err(refusal) => Ok(Some(refusal_name(refusal))),
    }
}

// Evaluates a group, unless that was done at this moment.
fn play_evaluation<E: Engine>(
    engine: &mut E,
    groups: &[Group],
    test: &str,
    event: Event,
    moment: &mut Moment,
    report: &mut Report,
) -> Result<(), AllocError>
    ensures { OnOk result (Evaluates (ruler_of E.calls) (stage_of engine.old moment.old (counts_of report.old)) event.number (slice_get groups.now event.number) (moment_of event.at 0) (stage_of engine.new moment.new (counts_of report.new))) }
{
    let (Some(group), Some(t)) = (groups.get(event.number), moment_of(event.at, 0)) else {
        return Ok(());
    };
    let name = group.name.as_str();
    if is_given(&moment.given, name) {
        return Ok(());
    }
    match engine.evaluate(event.number, t) {
        Ok(committed) => {
            moment.given.push(committed.evaluation)?;
            Ok(())
        }
        Err(refusal) => report.refuse(test, event.at, "evaluation of", name, refusal_name(refusal)),
    }
}

// Whether one of the evaluations is of the group.
fn is_given(evaluations: &[Shared<Evaluation>], name: &str) -> bool
    ensures { result ≡ is_given evaluations.now name.now }
{
    for evaluation in evaluations {
        if evaluation.get().group.as_str() == name {
            return true;
        }
    }
    false
}

fn play_check(
    alloc: Global,
    groups: &[Group],
    test: &Test<'_>,
    event: Event,
    evaluations: &[Shared<Evaluation>],
    report: &mut Report,
) -> Result<(), AllocError>
    ensures { OnOk result (Checks (slice_get test.now.checks.items event.number) evaluations.now (counts_of report.old) (counts_of report.new)) }
{
    let Some(check) = test.checks.get(event.number) else {
        return Ok(());
    };
    count_check(alloc, groups, test, check, evaluations, report)
}

// Counts a check, and reports it where it fails.
fn count_check(
    alloc: Global,
    groups: &[Group],
    test: &Test<'_>,
    check: &Check<'_>,
    evaluations: &[Shared<Evaluation>],
    report: &mut Report,
) -> Result<(), AllocError>
    ensures { OnOk result (IsCounted check.now evaluations.now (counts_of report.old) (counts_of report.new)) }
{
    let results = results_of(alloc, check, evaluations)?;
    let wanted = wanted_of(alloc, check)?;
    let given = given(alloc, &results)?;
    if passes(&results, &wanted, &given) {
        report.pass();
        return Ok(());
    }
    let mut differences = String::new(alloc);
    if results.is_empty() {
        push_absence(&mut differences, check, groups, &test.edits, &wanted)?;
    } else {
        push_differences(&mut differences, &wanted, &given)?;
    }
    report.fail(test.name, check, differences.as_str())?;
    Ok(())
}

// Whether rules gave something, and this is what is wanted.
fn passes(results: &[&RuleResult], wanted: &Outcome<'_>, given: &Outcome<'_>) -> bool
    ensures { result ≡ passes (map (λ one. one.now) results.now) wanted.now given.now }
{
    !results.is_empty() && agree(wanted, given)
}

// Adds what is wanted of a rule that gave nothing, and why it did not: it was not evaluated, or no group has it, neither from
// the start on nor by an edit.
fn push_absence(
    text: &mut String,
    check: &Check<'_>,
    groups: &[Group],
    edits: &[Edit<'_>],
    wanted: &Outcome<'_>,
) -> Result<(), AllocError> {
    let mut is_known = has_rule(check, groups);
    for edit in edits {
        is_known = is_known || has_rule(check, &edit.groups);
    }
    push_side(text, "wanted", wanted)?;
    let why = if is_known {
        "no evaluation"
    } else {
        "no such rule"
    };
    writeln!(text, "  got     {why}")
}

fn has_rule(check: &Check<'_>, groups: &[Group]) -> bool {
    for group in groups {
        if is_named(check.group, group.name.as_str()) {
            for rule in group.rules.as_slice() {
                if rule.kind == check.kind && rule.name.as_str() == check.name {
                    return true;
                }
            }
        }
    }
    false
}
