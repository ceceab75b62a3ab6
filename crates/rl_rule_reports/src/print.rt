//! Groups and rules as a ruler reads them, a line each.
use crate::findings::OutOfMemory;
use rl_plain::{PlainText, push_escaped};
use rl_query::print;
use rl_rules::{Group, Rule, RuleKind};

// What is escaped in a label text.
const ESCAPES: [(u8, u8); 3] = [(b'\\', b'\\'), (b'"', b'"'), (b'\n', b'n')];

/// Each group with its interval and its limit, and below it its rules.
pub(crate) fn push_groups(text: &mut String, groups: &[Group]) -> Result<(), OutOfMemory> {
    for group in groups {
        let (name, interval, limit) = (&group.name, group.interval, group.limit);
        writeln!(text, "group {name}, interval {interval}s, limit {limit}")?;
        for rule in group.rules.as_slice() {
            push_rule(text, rule)?;
        }
    }
    Ok(())
}

// A rule with its query in canonical form, and below it its labels and its annotations, where it has some.
fn push_rule(text: &mut String, rule: &Rule) -> Result<(), OutOfMemory> {
    push_query(text, rule)?;
    let labels = rule.labels.as_slice();
    if !labels.is_empty() {
        text.push_str("    labels {")?;
        push_labels(text, labels)?;
        text.push_str("}\n")?;
    }
    let annotations = rule.annotations.as_text();
    if annotations != "{}" {
        writeln!(text, "    annotations {annotations}")?;
    }
    Ok(())
}

fn push_query(text: &mut String, rule: &Rule) -> Result<(), OutOfMemory> {
    let query = print(*text.allocator(), &rule.query)?;
    let (name, hold) = (&rule.name, rule.hold);
    match rule.kind {
        RuleKind::Recording => writeln!(text, "  record {name}: {query}")?,
        RuleKind::Alerting => writeln!(text, "  alert {name}, for {hold}s: {query}")?,
    }
    Ok(())
}

// Labels as in a label text, those without a value too.
fn push_labels(text: &mut String, labels: &[(PlainText, PlainText)]) -> Result<(), OutOfMemory> {
    let mut between = "";
    for (name, value) in labels {
        write!(text, "{between}{name}=\"")?;
        push_escaped(text, &ESCAPES, value.as_str())?;
        text.push('"')?;
        between = ",";
    }
    Ok(())
}
