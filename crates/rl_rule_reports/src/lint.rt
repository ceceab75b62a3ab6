//! What a ruler takes and what looks like a mistake.

use crate::doubt::{Doubt, doubt_of};
use crate::findings::{Findings, OutOfMemory};
use crate::location::{Location, Spot, push_location, push_names};
use crate::meaning::push_more;
use rl_plain::{PlainText, Same};
use rl_query::{Query, RangeFunction, Term};
use rl_rules::naming::{ALERT_LABEL, NAME_LABEL};
use rl_rules::{Group, Rule, RuleKind};
use std::fmt::Write;

/// A line for each such thing of each rule, in their order.
pub(crate) fn push_lints(
    findings: &mut Findings,
    document: &Location<'_>,
    groups: &[Group],
) -> Result<(), OutOfMemory> {
    for (number, group) in groups.iter().enumerate() {
        let location = document.of_group(spot_of(&group.name, number));
        let rules = group.rules.as_slice();
        for (number, rule) in rules.iter().enumerate() {
            let location = location.of_rule(spot_of(&rule.name, number));
            push_twin(findings, &location, rules, number, rule)?;
            push_rule(findings, &location, group.interval, rule)?;
            if findings.is_full {
                push_more(findings, &location, group.interval, rule)?;
            }
        }
    }
    Ok(())
}

fn spot_of(name: &PlainText, number: usize) -> Spot<'_> {
    Spot {
        name: Some(name.as_str()),
        number,
    }
}

/// Begins a line.
pub(crate) fn begin(findings: &mut Findings, location: &Location<'_>) -> Result<(), OutOfMemory> {
    findings.begin_lint(location)?;
    push_location(&mut findings.text, location)
}

// A rule that is equal in all fields to one before it, or where all is said in its name and labels. A group has at most 256.
fn push_twin(
    findings: &mut Findings,
    location: &Location<'_>,
    rules: &[Rule],
    number: usize,
    rule: &Rule,
) -> Result<(), OutOfMemory> {
    if let Some(first) = rules.iter().take(number).position(|one| one.is_same(rule)) {
        findings.begin_lint(location)?;
        push_names(&mut findings.text, location)?;
        let (one, other) = (first.saturating_add(1), number.saturating_add(1));
        writeln!(findings.text, " stands twice, at {one} and {other}")?;
        return Ok(());
    }
    if !findings.is_full {
        return Ok(());
    }
    let alike = rules
        .iter()
        .take(number)
        .position(|one| is_alike(one, rule));
    if let Some(first) = alike {
        begin(findings, location)?;
        let one = first.saturating_add(1);
        writeln!(
            findings.text,
            "rule {one} has this name and these labels too, so nothing parts what the two give"
        )?;
    }
    Ok(())
}

// Whether two rules give what has the same name and the same labels of its rule.
fn is_alike(one: &Rule, other: &Rule) -> bool {
    one.kind.is_same(&other.kind)
        && one.name.is_same(&other.name)
        && one.labels.is_same(&other.labels)
}

fn push_rule(
    findings: &mut Findings,
    location: &Location<'_>,
    interval: u64,
    rule: &Rule,
) -> Result<(), OutOfMemory> {
    if matches!(rule.kind, RuleKind::Alerting) && compares_nothing(&rule.query) {
        begin(findings, location)?;
        findings
            .text
            .push_str("no comparison, so each element is an alert\n")?;
    }
    push_doubts(findings, location, &rule.query)?;
    push_overwritten(findings, location, rule)?;
    for (name, value) in rule.labels.as_slice() {
        push_template(findings, location, "label", name.as_str(), value.as_str())?;
    }
    for (name, value) in rule.annotations.pairs() {
        push_template(
            findings,
            location,
            "annotation",
            name.as_str(),
            value.as_str(),
        )?;
    }
    let hold = rule.hold;
    if hold > 0 && hold < interval {
        begin(findings, location)?;
        writeln!(
            findings.text,
            "for {hold}s is shorter than the interval {interval}s"
        )?;
    }
    Ok(())
}

// Whether all samples stay. That of an absence is there only where something is wrong.
fn compares_nothing(query: &Query) -> bool {
    let is_absence = matches!(query.left.function, RangeFunction::AbsentOverTime);
    query.test.is_none() && !(is_absence && query.over.is_none())
}

fn push_doubts(
    findings: &mut Findings,
    location: &Location<'_>,
    query: &Query,
) -> Result<(), OutOfMemory> {
    push_doubt(findings, location, &query.left)?;
    match &query.over {
        Some(over) => push_doubt(findings, location, over),
        None => Ok(()),
    }
}

// A line that would fail the rule.
fn push_doubt(
    findings: &mut Findings,
    location: &Location<'_>,
    term: &Term,
) -> Result<(), OutOfMemory> {
    let Some(doubt) = doubt_of(*findings.text.allocator(), term.range.stages.as_slice())? else {
        return Ok(());
    };
    begin(findings, location)?;
    match doubt {
        Doubt::Unread => findings.text.push_str(
            "one line that json cannot read fails the rule; | __error__=\"\" leaves such lines out\n",
        )?,
        Doubt::Other(name, kind) => writeln!(
            findings.text,
            "one line whose {name} is no {kind} fails the rule; | __error__=\"\" after it leaves such lines out"
        )?,
    }
    Ok(())
}

// A label over which the rule's name stands.
fn push_overwritten(
    findings: &mut Findings,
    location: &Location<'_>,
    rule: &Rule,
) -> Result<(), OutOfMemory> {
    let own = match rule.kind {
        RuleKind::Recording => NAME_LABEL,
        RuleKind::Alerting => ALERT_LABEL,
    };
    for (name, _) in rule.labels.as_slice() {
        if name.as_str() == own {
            begin(findings, location)?;
            writeln!(
                findings.text,
                "the label {own} is overwritten by the rule's name"
            )?;
        }
    }
    Ok(())
}

// A text that another ruler would fill in.
fn push_template(
    findings: &mut Findings,
    location: &Location<'_>,
    word: &str,
    name: &str,
    value: &str,
) -> Result<(), OutOfMemory> {
    if value.contains("{{") {
        begin(findings, location)?;
        writeln!(
            findings.text,
            "the {word} {name} has {{{{ .. }}}}, which stays as it is"
        )?;
    }
    Ok(())
}
