//! The text of an evaluation for each kind of sink.
ghost use Rattle.std.specs.Prelude.{◌≡◌, ◌++◌, codes, IfOk, OnOk, string_bytes};
ghost use Rattle.std.specs.Fmt.{decimal};
ghost use Rattle.std.specs.List.{flat_map};
ghost use Rattle.std.specs.Io.KnownBytes.{Appends};
ghost use Rattle.sha2.specs.Sha256.{sha256};
ghost use Rattle.rl_sinks.specs.Texts.{evaluation_text, recorder_text, notifier_text, tail_text, recorded_lines, notified_lines, tail_lines, recorded_line, notified_line, tail_line, alert_line, failed_line, sample_text, alert_text, is_notified, state_text, value_text, cause_text};

use crate::sink::SinkKind;
use crate::target::{InMemory, TextTarget};
use rl_aggregate::{Fraction, Sample};
use rl_digests::Hasher;
use rl_labels::{Labels, Ns};
use rl_plain::PlainText;
use rl_rules::{Alert, AlertState, Cause, Evaluation, RuleKind, RuleOutcome, RuleResult};
use std::alloc::{AllocError, Global};

/// What a sink of the kind is given of the evaluation. Each line ends with a newline; moments are nanoseconds.
pub fn evaluation_text(
    alloc: Global,
    kind: SinkKind,
    evaluation: &Evaluation,
) -> Result<String, AllocError>
    ensures { IfOk result (λ text. string_bytes text ≡ evaluation_text kind evaluation.now) }
{
    text_with_room(alloc, kind, evaluation, 0)
}

/// What it is given, in a text that has room for `room` bytes before it grows.
pub(crate) fn text_with_room(
    alloc: Global,
    kind: SinkKind,
    evaluation: &Evaluation,
    room: usize,
) -> Result<String, AllocError>
    ensures { IfOk result (λ text. string_bytes text ≡ evaluation_text kind evaluation.now) }
{
    let mut target = InMemory {
        text: String::with_capacity(alloc, room)?,
    };
    match kind {
        SinkKind::Recorder => put_recorded(&mut target, evaluation)?,
        SinkKind::Notifier => put_notified(&mut target, evaluation)?,
        SinkKind::Tail => put_tail(&mut target, evaluation)?,
    }
    Ok(target.text)
}

/// Gives a target what a tail is given of the evaluation. It takes no memory of its own.
pub fn write_tail<T: TextTarget>(target: &mut T, evaluation: &Evaluation) -> Result<(), T::Error>
    ensures { OnOk result (Appends (T.contents target.old) (T.contents target.new) (tail_text evaluation.now)) }
{
    put_tail(target, evaluation)
}

/// The SHA-256 (FIPS 180-4) of what a tail is given of the evaluation. It takes no memory.
pub fn tail_digest(evaluation: &Evaluation) -> [u8; 32]
    ensures { result ≡ sha256 (tail_text evaluation.now) }
{
    let mut hasher = Hasher::new();
    match put_tail(&mut hasher, evaluation) {
        Ok(()) => hasher.digest(),
        Err(never) => match never {},
    }
}

fn put_recorded<T: TextTarget>(target: &mut T, evaluation: &Evaluation) -> Result<(), T::Error>
    ensures { OnOk result (Appends (T.contents target.old) (T.contents target.new) (recorder_text evaluation.now)) }
{
    for rule in evaluation.outcomes.as_slice() {
        put_recorded_lines(target, evaluation.t, rule)?;
    }
    Ok(())
}

fn put_recorded_lines<T: TextTarget>(
    target: &mut T,
    t: Ns,
    rule: &RuleResult,
) -> Result<(), T::Error>
    ensures { OnOk result (Appends (T.contents target.old) (T.contents target.new) (recorded_lines t rule.now.kind rule.now.name rule.now.outcome)) }
{
    match &rule.outcome {
        RuleOutcome::Samples(samples) => put_recorded_samples(target, t, samples.as_slice()),
        RuleOutcome::Alerts(_) => Ok(()),
        RuleOutcome::Failed(cause) => put_failed(target, rule.kind, t, *cause, rule.name.as_str()),
    }
}

fn put_recorded_samples<T: TextTarget>(
    target: &mut T,
    t: Ns,
    samples: &[Sample],
) -> Result<(), T::Error>
    ensures { OnOk result (Appends (T.contents target.old) (T.contents target.new) (flat_map (λ sample. recorded_line t sample) samples.now)) }
{
    let mut buffer = itoa::Buffer::new();
    let moment = buffer.format(t.get());
    for sample in samples {
        put_recorded_line(target, t, moment, sample)?;
    }
    Ok(())
}

// The moment's digits are those of all lines.
fn put_recorded_line<T: TextTarget>(
    target: &mut T,
    _t: Ns,
    moment: &str,
    sample: &Sample,
) -> Result<(), T::Error>
    requires { moment.now ≡ decimal _t }
    ensures { OnOk result (Appends (T.contents target.old) (T.contents target.new) (recorded_line _t sample.now)) }
{
    put_sample(target, sample)?;
    target.put(" ")?;
    target.put(moment)?;
    target.put("\n")
}

fn put_failed<T: TextTarget>(
    target: &mut T,
    kind: RuleKind,
    t: Ns,
    cause: Cause,
    name: &str,
) -> Result<(), T::Error>
    ensures { OnOk result (Appends (T.contents target.old) (T.contents target.new) (failed_line kind t cause name.now)) }
{
    match kind {
        RuleKind::Recording => {
            target.put("# failed ")?;
            put_number(target, t.get())?;
            target.put(" ")?;
            target.put(cause_text(cause))?;
            target.put(" ")?;
            target.put(name)?;
            target.put("\n")
        }
        RuleKind::Alerting => Ok(()),
    }
}

fn cause_text(cause: Cause) -> &'static str
    ensures { result.now ≡ cause_text cause }
{
    match cause {
        Cause::PipelineError => "PipelineError",
        Cause::SameLabels => "SameLabels",
        Cause::LimitExceeded => "LimitExceeded",
    }
}

fn put_notified<T: TextTarget>(target: &mut T, evaluation: &Evaluation) -> Result<(), T::Error>
    ensures { OnOk result (Appends (T.contents target.old) (T.contents target.new) (notifier_text evaluation.now)) }
{
    for rule in evaluation.outcomes.as_slice() {
        put_notified_lines(target, evaluation.t, rule)?;
    }
    Ok(())
}

fn put_notified_lines<T: TextTarget>(
    target: &mut T,
    t: Ns,
    rule: &RuleResult,
) -> Result<(), T::Error>
    ensures { OnOk result (Appends (T.contents target.old) (T.contents target.new) (notified_lines t rule.now.annotations rule.now.outcome)) }
{
    match &rule.outcome {
        RuleOutcome::Alerts(alerts) => {
            put_notified_alerts(target, t, &rule.annotations, alerts.as_slice())
        }
        RuleOutcome::Samples(_) | RuleOutcome::Failed(_) => Ok(()),
    }
}

fn put_notified_alerts<T: TextTarget>(
    target: &mut T,
    t: Ns,
    annotations: &Labels,
    alerts: &[Alert],
) -> Result<(), T::Error>
    ensures { OnOk result (Appends (T.contents target.old) (T.contents target.new) (flat_map (λ alert. notified_line t annotations.now alert) alerts.now)) }
{
    for alert in alerts {
        put_notified_line(target, t, annotations, alert)?;
    }
    Ok(())
}

#[tactic(auto, unfolding(crate::specs::Texts::notified_line))]
fn put_notified_line<T: TextTarget>(
    target: &mut T,
    t: Ns,
    annotations: &Labels,
    alert: &Alert,
) -> Result<(), T::Error>
    ensures { OnOk result (Appends (T.contents target.old) (T.contents target.new) (notified_line t annotations.now alert.now)) }
{
    if !is_notified(t, alert.state, alert.fired) {
        return Ok(());
    }
    put_alert(target, alert)?;
    target.put(" ")?;
    put_number(target, t.get())?;
    target.put(" ")?;
    target.put(annotations.as_text())?;
    target.put("\n")
}

// Whether an alert became firing at the moment, or is resolved.
fn is_notified(t: Ns, state: AlertState, fired: Option<Ns>) -> bool
    ensures { result ≡ is_notified t state fired }
{
    match (state, fired) {
        (AlertState::Firing, Some(fired)) => fired == t,
        (AlertState::Firing, None) | (AlertState::Pending, _) => false,
        (AlertState::Resolved, _) => true,
    }
}

fn put_tail<T: TextTarget>(target: &mut T, evaluation: &Evaluation) -> Result<(), T::Error>
    ensures { OnOk result (Appends (T.contents target.old) (T.contents target.new) (tail_text evaluation.now)) }
{
    put_heading(target, evaluation.t, evaluation.group.as_str())?;
    for rule in evaluation.outcomes.as_slice() {
        put_tail_lines(target, rule)?;
    }
    Ok(())
}

// The moment and the group.
fn put_heading<T: TextTarget>(target: &mut T, t: Ns, group: &str) -> Result<(), T::Error>
    ensures { OnOk result (Appends (T.contents target.old) (T.contents target.new) (codes "eval " ++ decimal t ++ codes " " ++ group.now ++ codes "\n")) }
{
    target.put("eval ")?;
    put_number(target, t.get())?;
    target.put(" ")?;
    target.put(group)?;
    target.put("\n")
}

fn put_tail_lines<T: TextTarget>(target: &mut T, rule: &RuleResult) -> Result<(), T::Error>
    ensures { OnOk result (Appends (T.contents target.old) (T.contents target.new) (tail_lines rule.now.name rule.now.outcome)) }
{
    match &rule.outcome {
        RuleOutcome::Samples(samples) => put_tail_samples(target, samples.as_slice()),
        RuleOutcome::Alerts(alerts) => put_tail_alerts(target, alerts.as_slice()),
        RuleOutcome::Failed(cause) => { put_failure(target, *cause, rule.name.as_str()) }
    }
}

// Why a rule failed, and its name.
fn put_failure<T: TextTarget>(target: &mut T, cause: Cause, name: &str) -> Result<(), T::Error>
    ensures { OnOk result (Appends (T.contents target.old) (T.contents target.new) (codes "failed " ++ cause_text cause ++ codes " " ++ name.now ++ codes "\n")) }
{
    target.put("failed ")?;
    target.put(cause_text(cause))?;
    target.put(" ")?;
    target.put(name)?;
    target.put("\n")
}

fn put_tail_samples<T: TextTarget>(target: &mut T, samples: &[Sample]) -> Result<(), T::Error>
    ensures { OnOk result (Appends (T.contents target.old) (T.contents target.new) (flat_map (λ sample. tail_line sample) samples.now)) }
{
    for sample in samples {
        put_tail_line(target, sample)?;
    }
    Ok(())
}

fn put_tail_line<T: TextTarget>(target: &mut T, sample: &Sample) -> Result<(), T::Error>
    ensures { OnOk result (Appends (T.contents target.old) (T.contents target.new) (tail_line sample.now)) }
{
    put_sample(target, sample)?;
    target.put("\n")
}

fn put_tail_alerts<T: TextTarget>(target: &mut T, alerts: &[Alert]) -> Result<(), T::Error>
    ensures { OnOk result (Appends (T.contents target.old) (T.contents target.new) (flat_map (λ alert. alert_line alert) alerts.now)) }
{
    for alert in alerts {
        put_alert_line(target, alert)?;
    }
    Ok(())
}

#[tactic(auto, unfolding(crate::specs::Texts::alert_line))]
fn put_alert_line<T: TextTarget>(target: &mut T, alert: &Alert) -> Result<(), T::Error>
    ensures { OnOk result (Appends (T.contents target.old) (T.contents target.new) (alert_line alert.now)) }
{
    put_alert(target, alert)?;
    target.put("\n")
}

#[tactic(auto, unfolding(crate::specs::Texts::alert_text))]
fn put_alert<T: TextTarget>(target: &mut T, alert: &Alert) -> Result<(), T::Error>
    ensures { OnOk result (Appends (T.contents target.old) (T.contents target.new) (alert_text alert.now)) }
{
    target.put(state_text(alert.state))?;
    target.put(" ")?;
    target.put(alert.labels.as_text())?;
    target.put(" ")?;
    put_value(target, alert.value)?;
    target.put(" ")?;
    put_number(target, alert.active_at.get())
}

fn state_text(state: AlertState) -> &'static str
    ensures { result.now ≡ state_text state }
{
    match state {
        AlertState::Pending => "pending",
        AlertState::Firing => "firing",
        AlertState::Resolved => "resolved",
    }
}

fn put_sample<T: TextTarget>(target: &mut T, sample: &Sample) -> Result<(), T::Error>
    ensures { OnOk result (Appends (T.contents target.old) (T.contents target.new) (sample_text sample.now)) }
{
    target.put(sample.labels.as_text())?;
    target.put(" ")?;
    put_value(target, sample.value)
}

fn put_value<T: TextTarget>(target: &mut T, value: Fraction) -> Result<(), T::Error>
    ensures { OnOk result (Appends (T.contents target.old) (T.contents target.new) (value_text value)) }
{
    let mut buffer = itoa::Buffer::new();
    target.put(buffer.format(value.numerator))?;
    if value.denominator == 1 {
        return Ok(());
    }
    target.put("/")?;
    target.put(buffer.format(value.denominator))
}

fn put_number<T: TextTarget>(target: &mut T, number: u64) -> Result<(), T::Error>
    ensures { OnOk result (Appends (T.contents target.old) (T.contents target.new) (decimal number)) }
{
    let mut buffer = itoa::Buffer::new();
    target.put(buffer.format(number))
}
