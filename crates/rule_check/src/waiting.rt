//! Evaluations of a session that wait in the sinks of their groups, because no pump follows them.

use rl_labels::{Ns, SECOND};
use rl_rule_reports::{Findings, Location, OutOfMemory, push_location};
use rl_rules::Group;
use std::alloc::Global;
use std::fmt::Write;

// A group, when it was evaluated last, and how many of its evaluations no pump has followed.
#[derive(Drop)]
struct Waiting<'a> {
    name: &'a str,
    interval: u64,
    last: Option<u64>,
    count: u64,
}

/// The evaluations of each group, and how many of them a sink holds.
#[derive(Drop)]
pub(crate) struct Evaluations<'a> {
    groups: Vec<Waiting<'a>>,
    cap: Option<u64>,
}

impl<'a> Evaluations<'a> {
    /// None yet. Without a cap each evaluation is pumped.
    pub(crate) fn new(
        alloc: Global,
        groups: &'a [Group],
        cap: Option<u64>,
    ) -> Result<Self, OutOfMemory> {
        let mut waiting = Vec::new(alloc);
        for group in groups {
            waiting.push(Waiting {
                name: group.name.as_str(),
                interval: group.interval.saturating_mul(SECOND),
                last: None,
                count: 0,
            })?;
        }
        Ok(Evaluations {
            groups: waiting,
            cap,
        })
    }

    /// Evaluates the group of the name. The first evaluation that a sink refuses is reported.
    pub(crate) fn eval(
        &mut self,
        findings: &mut Findings,
        location: &Location<'_>,
        now: Ns,
        name: &str,
    ) -> Result<(), OutOfMemory> {
        for group in self.groups.iter_mut() {
            if group.name == name && group.is_due(now, 1) {
                group.evaluate(findings, location, now, self.cap)?;
            }
        }
        Ok(())
    }

    /// Evaluates each group that is due.
    pub(crate) fn tick(
        &mut self,
        findings: &mut Findings,
        location: &Location<'_>,
        now: Ns,
    ) -> Result<(), OutOfMemory> {
        for group in self.groups.iter_mut() {
            if group.is_due(now, group.interval) {
                group.evaluate(findings, location, now, self.cap)?;
            }
        }
        Ok(())
    }

    /// Puts a group in the place of that with its name.
    pub(crate) fn edit(&mut self, edited: &Group) {
        for group in self.groups.iter_mut() {
            if group.name == edited.name.as_str() {
                group.interval = edited.interval.saturating_mul(SECOND);
            }
        }
    }

    /// Pumps the sinks of the group.
    pub(crate) fn pump(&mut self, name: &str) {
        for group in self.groups.iter_mut() {
            if group.name == name {
                group.count = 0;
            }
        }
    }
}

impl Waiting<'_> {
    // Whether so many nanoseconds have passed since it was evaluated last.
    fn is_due(&self, now: Ns, nanoseconds: u64) -> bool {
        match self.last {
            Some(last) => last.saturating_add(nanoseconds) <= now.get(),
            None => true,
        }
    }

    fn evaluate(
        &mut self,
        findings: &mut Findings,
        location: &Location<'_>,
        now: Ns,
        cap: Option<u64>,
    ) -> Result<(), OutOfMemory> {
        self.last = Some(now.get());
        self.count = self.count.saturating_add(1);
        match cap {
            Some(cap) if self.count == cap.saturating_add(1) => {
                push_waiting(findings, location, self.name, cap)
            }
            _ => Ok(()),
        }
    }
}

// The first evaluation for which a sink has no room.
fn push_waiting(
    findings: &mut Findings,
    location: &Location<'_>,
    name: &str,
    cap: u64,
) -> Result<(), OutOfMemory> {
    findings.begin_lint(location)?;
    push_location(&mut findings.text, location)?;
    let count = cap.saturating_add(1);
    writeln!(
        findings.text,
        "evaluation {count} of group {name} without a pump, where a sink holds {cap}"
    )?;
    writeln!(
        findings.text,
        "  in its place: pump {name} before it, or a ruler with --pump"
    )?;
    Ok(())
}
