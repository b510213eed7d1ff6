//! A verdict as JSON (docs/verdict.md).

use crate::reports::names::{FileNames, name_text};
use crate::reports::pretty::json_text;
use crate::reports::spots::origin;
use crate::{ChainStep, Finding, FindingSeverity, JudgedText, TextPlace, Verdict};
use serde::Serialize;
use std::alloc::{AllocError, Global};

/// The version of the form: it rises where a field goes or means something else.
const FORM: usize = 1;

/// A verdict.
#[derive(Drop, Serialize)]
struct Report<'v> {
    version: usize,
    findings: Vec<FindingEntry<'v>>,
    more: usize,
    #[serde(rename = "atLeast", skip_serializing_if = "Option::is_none")]
    at_least: Option<bool>,
    accepted: usize,
}

/// A finding.
#[derive(Drop, Serialize)]
struct FindingEntry<'v> {
    rule: &'v str,
    #[serde(skip_serializing_if = "Option::is_none")]
    number: Option<u8>,
    severity: &'v str,
    message: &'v str,
    #[serde(skip_serializing_if = "Option::is_none")]
    help: Option<&'v str>,
    #[serde(flatten)]
    standing: Standing,
    chain: Vec<StepEntry<'v>>,
}

/// A step of a chain.
#[derive(Drop, Serialize)]
struct StepEntry<'v> {
    from: &'v str,
    to: &'v str,
    by: &'v str,
    #[serde(skip_serializing_if = "Option::is_none")]
    queued: Option<bool>,
    message: &'v str,
    #[serde(flatten)]
    standing: Standing,
}

/// A place of a text.
#[derive(Drop, Serialize)]
struct PlaceEntry {
    file: String,
    #[serde(skip_serializing_if = "Option::is_none")]
    line: Option<usize>,
    #[serde(skip_serializing_if = "Option::is_none")]
    column: Option<usize>,
}

/// Where something stands: in the other text, where that is known, and then in the program too.
#[derive(Drop, Serialize)]
struct Standing {
    #[serde(flatten)]
    spot: PlaceEntry,
    #[serde(skip_serializing_if = "Option::is_none")]
    words: Option<String>,
    #[serde(skip_serializing_if = "Vec::is_empty")]
    conditions: Vec<String>,
    #[serde(skip_serializing_if = "Option::is_none")]
    program: Option<PlaceEntry>,
}

/// The verdict as one object of JSON. Its only error is that memory was refused.
pub fn json_report(
    alloc: Global,
    verdict: &Verdict,
    names: FileNames<'_>,
) -> Result<String, AllocError> {
    let mut findings = Vec::new(alloc);
    for severity in FindingSeverity::ALL {
        for finding in verdict.findings_of(severity) {
            findings.push(entry_of(alloc, severity, finding, names)?)?;
        }
    }
    let report = Report {
        version: FORM,
        findings,
        more: verdict.more(),
        at_least: if verdict.is_least { Some(true) } else { None },
        accepted: verdict.accepted,
    };
    json_text(alloc, &report)
}

/// A finding, with its steps.
fn entry_of<'v>(
    alloc: Global,
    severity: FindingSeverity,
    finding: &'v Finding,
    names: FileNames<'_>,
) -> Result<FindingEntry<'v>, AllocError> {
    let mut chain = Vec::new(alloc);
    for step in finding.chain.as_slice() {
        chain.push(step_of(alloc, step, names)?)?;
    }
    Ok(FindingEntry {
        rule: finding.rule.id(),
        number: finding.rule.number(),
        severity: severity.word(),
        message: finding.message.as_str(),
        help: help_of(finding),
        standing: standing_at(alloc, names, finding.text, finding.place)?,
        chain,
    })
}

/// A step.
fn step_of<'v>(
    alloc: Global,
    step: &'v ChainStep,
    names: FileNames<'_>,
) -> Result<StepEntry<'v>, AllocError> {
    Ok(StepEntry {
        from: step.from.as_str(),
        to: step.to.as_str(),
        by: step.link.word(),
        queued: if step.is_posted { Some(true) } else { None },
        message: step.message.as_str(),
        standing: standing_at(alloc, names, JudgedText::Program, step.place)?,
    })
}

/// Where this place of a text stands.
fn standing_at(
    alloc: Global,
    names: FileNames<'_>,
    text: JudgedText,
    place: Option<TextPlace>,
) -> Result<Standing, AllocError> {
    let own = PlaceEntry {
        file: name_text(alloc, names.of(text))?,
        line: line_of(place),
        column: column_of(place),
    };
    let mut conditions = Vec::new(alloc);
    let Some(other) = origin(names, text, place) else {
        return Ok(Standing {
            spot: own,
            words: None,
            conditions,
            program: None,
        });
    };
    for condition in other.conditions.as_slice() {
        conditions.push(name_text(alloc, condition)?)?;
    }
    Ok(Standing {
        spot: PlaceEntry {
            file: name_text(alloc, other.file)?,
            line: Some(other.other_line),
            column: Some(other.other_column),
        },
        words: Some(name_text(alloc, other.words)?),
        conditions,
        program: Some(own),
    })
}

/// What to do about it.
fn help_of(finding: &Finding) -> Option<&str> {
    match &finding.help {
        Some(help) => Some(help.as_str()),
        None => None,
    }
}

fn line_of(place: Option<TextPlace>) -> Option<usize> {
    Some(place?.line)
}

fn column_of(place: Option<TextPlace>) -> Option<usize> {
    Some(place?.column)
}
