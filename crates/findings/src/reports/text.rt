//! A verdict as lines, as compilers write them.

use crate::reports::names::FileNames;
use crate::reports::spots::{step_text, told_at};
use crate::{ChainStep, Finding, FindingSeverity, JudgedText, TextPlace, Verdict};
use diagnostics::Printed;
use std::alloc::{AllocError, Global};

/// So many steps of a chain are reported.
const MOST_STEPS: usize = 12;

/// The findings, the gravest first, each a line `NAME:LINE:COLUMN: SEVERITY: MESSAGE [RULE]` with its steps as notes and what to
/// do below it; and a last line that counts them.
pub fn text_report(
    alloc: Global,
    verdict: &Verdict,
    names: FileNames<'_>,
) -> Result<String, AllocError> {
    let mut text = String::new(alloc);
    for severity in FindingSeverity::ALL {
        for finding in verdict.findings_of(severity) {
            push_finding(&mut text, alloc, severity, finding, names)?;
        }
    }
    push_count(&mut text, verdict)?;
    Ok(text)
}

/// Adds a finding: its line, and what stands below it.
pub fn push_finding(
    text: &mut String,
    alloc: Global,
    severity: FindingSeverity,
    finding: &Finding,
    names: FileNames<'_>,
) -> Result<(), AllocError> {
    let severity = severity.word();
    let message = finding.message.as_str();
    let rule = finding.rule.id();
    push_place(text, names, finding.text, finding.place)?;
    writeln!(text, " {severity}: {message} [{rule}]")?;
    push_below(text, alloc, finding, names)
}

/// Adds what stands below a finding: its steps, and what to do about it.
pub fn push_below(
    text: &mut String,
    alloc: Global,
    finding: &Finding,
    names: FileNames<'_>,
) -> Result<(), AllocError> {
    for step in finding.chain.iter().take(MOST_STEPS) {
        push_step(text, alloc, step, names)?;
    }
    let more = finding.chain.len().saturating_sub(MOST_STEPS);
    if more > 0 {
        writeln!(text, "  and {more} more steps")?;
    }
    if let Some(help) = &finding.help {
        let help = help.as_str();
        writeln!(text, "  help: {help}")?;
    }
    Ok(())
}

/// Adds a step.
fn push_step(
    text: &mut String,
    alloc: Global,
    step: &ChainStep,
    names: FileNames<'_>,
) -> Result<(), AllocError> {
    push_place(text, names, JudgedText::Program, step.place)?;
    let message = step_text(alloc, names, step)?;
    writeln!(text, " note: {message}")
}

/// Adds a place in a text, or what it stands for in another one.
fn push_place(
    text: &mut String,
    names: FileNames<'_>,
    kind: JudgedText,
    place: Option<TextPlace>,
) -> Result<(), AllocError> {
    let (name, place) = told_at(names, kind, place);
    let name = Printed(name);
    match place {
        Some(TextPlace { line, column }) => write!(text, "{name}:{line}:{column}:"),
        None => write!(text, "{name}:"),
    }
}

/// Adds how many findings there are, of which severities where not all are errors, and how many are accepted.
fn push_count(text: &mut String, verdict: &Verdict) -> Result<(), AllocError> {
    let reported = verdict.reported();
    match reported {
        0 => text.push_str("no findings")?,
        1 => text.push_str("1 finding")?,
        many => write!(text, "{many} findings")?,
    }
    if reported > verdict.errors.len() {
        let mut joint = ": ";
        for severity in FindingSeverity::ALL {
            let count = verdict.findings_of(severity).len();
            let word = severity.word();
            if count > 0 {
                let end = if count == 1 { "" } else { "s" };
                write!(text, "{joint}{count} {word}{end}")?;
                joint = ", ";
            }
        }
    }
    match (verdict.more(), verdict.is_least) {
        (0, false) => {}
        (0, true) => text.push_str(", and more")?,
        (more, false) => write!(text, ", and {more} more")?,
        (more, true) => write!(text, ", and at least {more} more")?,
    }
    let accepted = verdict.accepted;
    if accepted > 0 {
        write!(text, ", {accepted} accepted")?;
    }
    text.push_str("\n")
}
