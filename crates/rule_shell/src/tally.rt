//! What a run did, counted as its engine answers, and printed at the end.

use rl_labels::Entry;
use rl_plain::{PlainText, TryCopy};
use rl_rules::{Cause, Evaluation, RuleOutcome};
use rl_session::names::{push_refusal, refusal_name};
use rl_shard::ShardReply;
use rl_world::Refusal;
use std::alloc::{AllocError, Global};
use std::io;

// The year 2000, in nanoseconds. What lies before it is most often a time in seconds or milliseconds.
const YEAR_2000: u64 = 946_684_800_000_000_000;

// How often something was refused for a reason.
#[derive(Drop)]
struct Reason {
    name: PlainText,
    times: u64,
}

// How often a rule failed, and when it first did.
#[derive(Drop)]
struct RuleFailures {
    group: PlainText,
    rule: PlainText,
    first: Cause,
    // In nanoseconds.
    t: u64,
    times: u64,
}

/// What was counted. What no memory is there for is not counted.
#[derive(Drop)]
pub(crate) struct Tally {
    accepted: u64,
    refused: Vec<Reason>,
    before_2000: u64,
    evaluations: u64,
    unevaluated: Vec<Reason>,
    failures: Vec<RuleFailures>,
}

impl Tally {
    /// With nothing counted yet.
    pub(crate) fn new(alloc: Global) -> Self {
        Tally {
            accepted: 0,
            refused: Vec::new(alloc),
            before_2000: 0,
            evaluations: 0,
            unevaluated: Vec::new(alloc),
            failures: Vec::new(alloc),
        }
    }

    /// Counts a line by the moment it has.
    pub(crate) fn count_time(&mut self, entry: &Entry) {
        if entry.timestamp.get() < YEAR_2000 {
            self.before_2000 = self.before_2000.saturating_add(1);
        }
    }

    /// Counts the answer to a line.
    pub(crate) fn count_push(&mut self, answer: &Result<ShardReply, Refusal>) {
        match push_refusal(answer) {
            Some(name) => {
                let _ = count_reason(&mut self.refused, name, 1);
            }
            None => self.accepted = self.accepted.saturating_add(1),
        }
    }

    /// Counts an evaluation, and the rules that failed in it.
    pub(crate) fn count_evaluation(&mut self, evaluation: &Evaluation) {
        self.evaluations = self.evaluations.saturating_add(1);
        for given in evaluation.outcomes.as_slice() {
            if let RuleOutcome::Failed(cause) = &given.outcome {
                let of = (&evaluation.group, &given.name);
                let first = (evaluation.t.get(), *cause);
                let _ = count_failures(&mut self.failures, of, first, 1);
            }
        }
    }

    /// Counts an evaluation that was refused.
    pub(crate) fn count_refusal(&mut self, refusal: Refusal) {
        let _ = count_reason(&mut self.unevaluated, refusal_name(refusal), 1);
    }

    /// Adds what another caller's engine has counted.
    pub(crate) fn add(&mut self, other: &Tally) {
        self.accepted = self.accepted.saturating_add(other.accepted);
        self.before_2000 = self.before_2000.saturating_add(other.before_2000);
        self.evaluations = self.evaluations.saturating_add(other.evaluations);
        for reason in &other.refused {
            let _ = count_reason(&mut self.refused, reason.name.as_str(), reason.times);
        }
        for reason in &other.unevaluated {
            let _ = count_reason(&mut self.unevaluated, reason.name.as_str(), reason.times);
        }
        for more in &other.failures {
            let of = (&more.group, &more.rule);
            let first = (more.t, more.first);
            let _ = count_failures(&mut self.failures, of, first, more.times);
        }
    }

    /// Prints what was counted.
    pub(crate) fn print(&self, rt: &HostRuntime) -> io::Result<()> {
        let refused = total(&self.refused);
        eprint!(rt; "lines: {} accepted, {refused} refused", self.accepted)?;
        print_reasons(rt, &self.refused)?;
        if self.before_2000 > 0 {
            eprintln!(rt;
                "lines from before the year 2000: {}; times are nanoseconds",
                self.before_2000
            )?;
        }
        let refused = total(&self.unevaluated);
        eprint!(rt;
            "evaluations: {} committed, {refused} refused",
            self.evaluations
        )?;
        print_reasons(rt, &self.unevaluated)?;
        for failures in &self.failures {
            print_failures(rt, failures)?;
        }
        Ok(())
    }
}

// So many refusals more for the reason.
fn count_reason(reasons: &mut Vec<Reason>, name: &str, times: u64) -> Result<(), AllocError> {
    for reason in reasons.iter_mut() {
        if reason.name.as_str() == name {
            reason.times = reason.times.saturating_add(times);
            return Ok(());
        }
    }
    let alloc = *reasons.allocator();
    let name = PlainText::from_str(alloc, name)?;
    reasons.push(Reason { name, times })?;
    Ok(())
}

// So many failures more of the rule of the group, of which this is the first.
fn count_failures(
    all: &mut Vec<RuleFailures>,
    of: (&PlainText, &PlainText),
    first: (u64, Cause),
    times: u64,
) -> Result<(), AllocError> {
    let (group, rule) = of;
    let (t, cause) = first;
    for failures in all.iter_mut() {
        if is_of(failures, group, rule) {
            failures.times = failures.times.saturating_add(times);
            if t < failures.t {
                failures.t = t;
                failures.first = cause;
            }
            return Ok(());
        }
    }
    let group = group.try_copy()?;
    let rule = rule.try_copy()?;
    all.push(RuleFailures {
        group,
        rule,
        first: cause,
        t,
        times,
    })?;
    Ok(())
}

// Whether the failures are those of the group's rule.
fn is_of(failures: &RuleFailures, group: &PlainText, rule: &PlainText) -> bool {
    failures.group.as_str() == group.as_str() && failures.rule.as_str() == rule.as_str()
}

// How often something was refused for any reason.
fn total(reasons: &[Reason]) -> u64 {
    let mut all = 0u64;
    for reason in reasons {
        all = all.saturating_add(reason.times);
    }
    all
}

// Prints the reasons in brackets, if there are some, and ends the line.
fn print_reasons(rt: &HostRuntime, reasons: &[Reason]) -> io::Result<()> {
    let mut before = " (";
    for reason in reasons {
        let name = reason.name.as_str();
        eprint!(rt; "{before}{name} {}", reason.times)?;
        before = ", ";
    }
    if reasons.is_empty() {
        eprintln!(rt)
    } else {
        eprintln!(rt; ")")
    }
}

// Prints how often a rule failed.
fn print_failures(rt: &HostRuntime, failures: &RuleFailures) -> io::Result<()> {
    let times = failures.times;
    let group = failures.group.as_str();
    let rule = failures.rule.as_str();
    let t = failures.t;
    eprintln!(rt;
        "failures of rule {rule} of group {group}: {times}, the first at {t} with {:?}",
        failures.first
    )
}
