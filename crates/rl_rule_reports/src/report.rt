//! What is reported of a rule file.
ghost use Rattle.std.specs.Prelude.{◌≡◌, ◌⊎◌, IfOk, map, true, false};
ghost use Rattle.rl_rules.specs.Forms.{group_form};
ghost use Rattle.rl_rule_reports.specs.Taking.{HasGroups, HasNoGroups, FindsGroups};

use crate::faults::push_faults;
use crate::findings::{Findings, Manner, OutOfMemory, Report};
use crate::layout::{Entry, entries_of};
use crate::lint::push_lints;
use crate::location::Location;
use crate::no_toml::{ALONE, Standing, push_no_toml};
use crate::print::push_groups;
use rl_rules::{Group, RulesError, RulesFault, read_rules};
use std::alloc::Global;
use std::fmt::Write;

/// What is reported of a rule file: its groups, if they are to be printed, what looks like a mistake, and how much it has; or
/// each of its faults.
pub fn report_of(alloc: Global, file: &str, manner: Manner<'_>) -> Result<Report, OutOfMemory>
    ensures taken { IfOk result (λ report. report.is_taken ≡ true → HasGroups file.now) }
    ensures refused { IfOk result (λ report. report.is_taken ≡ false → (manner.entry.is_strict ≡ true) ⊎ HasNoGroups file.now) }
{
    let mut findings = Findings::new(alloc, manner.is_full());
    let entries = entries_of(alloc, file)?;
    let location = location_of(manner.name, entries.as_slice());
    match push_rules(&mut findings, &location, file, manner.prints)? {
        Some(groups) => {
            push_answer(&mut findings.text, manner, &groups)?;
            Ok(findings.into_report(true, manner.is_strict))
        }
        None => Ok(findings.into_report(false, manner.is_strict)),
    }
}

// The line of a file that is taken.
fn push_answer(text: &mut String, manner: Manner<'_>, groups: &[Group]) -> Result<(), OutOfMemory> {
    if let Some(name) = manner.name {
        if manner.is_one_of_several {
            write!(text, "{name}: ")?;
        }
    }
    push_counts(text, groups)?;
    text.push('\n')?;
    Ok(())
}

// A file by its name, if it has one.
fn location_of<'a>(name: Option<&'a str>, entries: &'a [Entry<'a>]) -> Location<'a> {
    match name {
        Some(name) => Location::in_file(name, entries),
        None => Location::whole(None),
    }
}

/// The groups of a file that is taken, with all that is reported of it but how much it has; or none, with its faults.
pub fn push_rules(
    findings: &mut Findings,
    location: &Location<'_>,
    file: &str,
    prints: bool,
) -> Result<Option<Vec<Group>>, OutOfMemory>
    ensures { FindsGroups (λ groups. map group_form groups.items) file.now result }
{
    match read_rules(*findings.text.allocator(), file) {
        Ok(groups) => {
            if prints {
                push_groups(&mut findings.text, &groups)?;
            }
            push_lints(findings, location, &groups)?;
            Ok(Some(groups))
        }
        Err(RulesError::Fault(fault)) => {
            push_refusal(findings, location, ALONE, file, fault)?;
            Ok(None)
        }
        Err(RulesError::Memory) => Err(OutOfMemory),
    }
}

/// Each fault of a document that the reader refused for its lowest one.
pub fn push_refusal(
    findings: &mut Findings,
    location: &Location<'_>,
    standing: Standing<'_>,
    file: &str,
    fault: RulesFault,
) -> Result<(), OutOfMemory> {
    let before = findings.count;
    match toml::table_from_str(*findings.text.allocator(), file) {
        Ok(document) => push_faults(findings, location, &document)?,
        Err(error) if error.is_memory() => return Err(OutOfMemory),
        Err(error) => push_no_toml(findings, location, standing, file, &error)?,
    }
    if findings.count == before {
        findings.begin(location)?;
        writeln!(findings.text, "{fault}")?;
    }
    Ok(())
}

/// How many groups and rules there are.
pub fn push_counts(text: &mut String, groups: &[Group]) -> Result<(), OutOfMemory> {
    let mut rules = 0usize;
    for group in groups {
        rules = rules.saturating_add(group.rules.len());
    }
    let (many, more) = (ending(groups.len()), ending(rules));
    write!(text, "ok: {} group{many}, {rules} rule{more}", groups.len())?;
    Ok(())
}

/// The ending of a word for a count.
pub fn ending(count: usize) -> &'static str {
    if count == 1 { "" } else { "s" }
}
