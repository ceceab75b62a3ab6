//! What is printed of tests, and how many checks passed and failed.
ghost use Rattle.std.specs.Prelude.{◌≡◌, ◌++◌, string_bytes, OnOk};
ghost use Rattle.rl_rule_tests.specs.Counting.{counted_text, counts_of, no_counts, one_failed, one_passed};

use crate::document::Check;
use rl_rules::RuleKind;
use std::alloc::{AllocError, Global};

/// What is printed so far, and how many checks passed and failed. What a ruler refuses is one failure more.
#[derive(Drop)]
pub struct Report {
    pub text: String,
    pub passed: u64,
    pub failed: u64,
}

impl Report {
    /// Nothing printed, and no checks.
    pub fn new(alloc: Global) -> Report
        ensures { counts_of result ≡ no_counts }
    {
        Report {
            text: String::new(alloc),
            passed: 0,
            failed: 0,
        }
    }

    // Reports why a line, an edit or an evaluation of a test was refused, which is a failure.
    pub(crate) fn refuse(
        &mut self,
        test: &str,
        at: u64,
        what: &str,
        whose: &str,
        why: &str,
    ) -> Result<(), AllocError>
        ensures { OnOk result (counts_of self.new ≡ one_failed (counts_of self.old)) }
    {
        self.failed = self.failed.saturating_add(1);
        let text = &mut self.text;
        write!(text, "{test}, at ")?;
        push_time(text, at)?;
        writeln!(text, ", {what} {whose}: {why}")
    }

    // Counts a check that is met.
    pub(crate) fn pass(&mut self)
        ensures { counts_of self.new ≡ one_passed (counts_of self.old) }
    {
        self.passed = self.passed.saturating_add(1);
    }

    // Reports where a rule of a test differs from what is wanted, which is a failure.
    pub(crate) fn fail(
        &mut self,
        test: &str,
        check: &Check<'_>,
        differences: &str,
    ) -> Result<(), AllocError>
        ensures { OnOk result (counts_of self.new ≡ one_failed (counts_of self.old)) }
    {
        self.failed = self.failed.saturating_add(1);
        let text = &mut self.text;
        write!(text, "{test}, at ")?;
        push_time(text, check.at)?;
        push_name(text, check)?;
        write!(text, "\n{differences}")
    }

    /// Adds how many passed and failed.
    pub fn finish(&mut self) -> Result<(), AllocError>
        ensures text { OnOk result (string_bytes self.new.text ≡ string_bytes self.old.text ++ counted_text (counts_of self.old)) }
        ensures counts { counts_of self.new ≡ counts_of self.old }
    {
        let (passed, failed) = (self.passed, self.failed);
        let text = &mut self.text;
        writeln!(text, "{passed} passed, {failed} failed")
    }
}

// Adds the name of the rules of a check, and of their group where it is named.
fn push_name(text: &mut String, check: &Check<'_>) -> Result<(), AllocError> {
    let name = check.name;
    let kind = match check.kind {
        RuleKind::Alerting => "alert",
        RuleKind::Recording => "record",
    };
    write!(text, ", {kind} {name}")?;
    match check.group {
        Some(group) => write!(text, " of {group}"),
        None => Ok(()),
    }
}

// Adds a time from the start on, as 1m30s.
fn push_time(text: &mut String, time: u64) -> Result<(), AllocError> {
    let (all, nanoseconds) = (time / 1_000_000_000, time % 1_000_000_000);
    let (hours, minutes, seconds) = (all / 3_600, all / 60 % 60, all % 60);
    if hours > 0 {
        write!(text, "{hours}h")?;
    }
    if minutes > 0 {
        write!(text, "{minutes}m")?;
    }
    if nanoseconds > 0 {
        let digits = format!(in *text.allocator(); "{nanoseconds:09}")?;
        return write!(text, "{seconds}.{}s", digits.trim_end_matches('0'));
    }
    if seconds > 0 || time == 0 {
        write!(text, "{seconds}s")?;
    }
    Ok(())
}
