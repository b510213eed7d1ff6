//! A verdict as SARIF 2.1.0, which code hosts and editors take in: the parts that are written, by the names that they have
//! there, and how they are made.

use crate::reports::names::FileNames;
use crate::reports::pretty::json_text;
use crate::reports::rules::page_of;
use crate::reports::spots::{origin, step_text, told_at};
use crate::reports::uri::uri_of;
use crate::{ChainStep, Finding, FindingSeverity, JudgedText, Rule, TextPlace, Verdict};
use serde::Serialize;
use std::alloc::{AllocError, Global};

/// Where the format's schema stands.
const SCHEMA: &str = "https://json.schemastore.org/sarif-2.1.0.json";

/// The version of the format.
const FORMAT: &str = "2.1.0";

/// The tool's name, and its version.
const TOOL: &str = "gammonfig";

const VERSION: &str = "0.4.0";

/// A log file.
#[derive(Drop, Serialize)]
struct Log<'v> {
    #[serde(rename = "$schema")]
    schema: &'v str,
    version: &'v str,
    runs: Vec<SarifRun<'v>>,
}

/// A run of a tool.
#[derive(Drop, Serialize)]
struct SarifRun<'v> {
    tool: Tool<'v>,
    results: Vec<SarifResult<'v>>,
    properties: SarifCounts,
}

/// What isn't reported, by its number.
#[derive(Drop, Serialize)]
struct SarifCounts {
    more: usize,
    #[serde(rename = "atLeast", skip_serializing_if = "Option::is_none")]
    at_least: Option<bool>,
    accepted: usize,
}

/// A tool.
#[derive(Drop, Serialize)]
struct Tool<'v> {
    driver: Driver<'v>,
}

/// The part of a tool that finds, with its rules.
#[derive(Drop, Serialize)]
struct Driver<'v> {
    name: &'v str,
    version: &'v str,
    rules: Vec<SarifRule<'v>>,
}

/// A rule.
#[derive(Drop, Serialize)]
#[serde(rename_all = "camelCase")]
struct SarifRule<'v> {
    id: &'v str,
    short_description: Words<'v>,
    help: Words<'v>,
    default_configuration: Configuration<'v>,
    properties: RuleFacts,
}

/// How grave a rule is by default.
#[derive(Drop, Serialize)]
struct Configuration<'v> {
    level: &'v str,
}

/// What else is known of a rule.
#[derive(Drop, Serialize)]
struct RuleFacts {
    #[serde(skip_serializing_if = "Option::is_none")]
    number: Option<u8>,
    page: String,
}

/// A text.
#[derive(Drop, Serialize)]
struct Words<'v> {
    text: &'v str,
}

/// A finding.
#[derive(Drop, Serialize)]
#[serde(rename_all = "camelCase")]
struct SarifResult<'v> {
    rule_id: &'v str,
    level: &'v str,
    message: Message,
    locations: Vec<Location>,
    #[serde(skip_serializing_if = "Vec::is_empty")]
    related_locations: Vec<Location>,
    #[serde(skip_serializing_if = "Vec::is_empty")]
    code_flows: Vec<CodeFlow>,
    #[serde(skip_serializing_if = "Option::is_none")]
    partial_fingerprints: Option<Fingerprints>,
}

/// What makes a finding the same in other runs.
#[derive(Drop, Serialize)]
struct Fingerprints {
    /// Its rule, and the edge that it is about.
    #[serde(rename = "gammonfigEdge/v1")]
    edge: String,
}

/// A message of its own.
#[derive(Drop, Serialize)]
struct Message {
    text: String,
}

/// A place, and what is said of it.
#[derive(Drop, Serialize)]
#[serde(rename_all = "camelCase")]
struct Location {
    physical_location: PhysicalLocation,
    #[serde(skip_serializing_if = "Option::is_none")]
    message: Option<Message>,
}

/// A region of a file.
#[derive(Drop, Serialize)]
#[serde(rename_all = "camelCase")]
struct PhysicalLocation {
    artifact_location: ArtifactLocation,
    #[serde(skip_serializing_if = "Option::is_none")]
    region: Option<Region>,
}

/// A file.
#[derive(Drop, Serialize)]
struct ArtifactLocation {
    uri: String,
}

/// Where a region begins.
#[derive(Drop, Serialize)]
#[serde(rename_all = "camelCase")]
struct Region {
    start_line: usize,
    start_column: usize,
}

/// The ways to a finding.
#[derive(Drop, Serialize)]
#[serde(rename_all = "camelCase")]
struct CodeFlow {
    thread_flows: Vec<ThreadFlow>,
}

/// A way to a finding.
#[derive(Drop, Serialize)]
struct ThreadFlow {
    locations: Vec<FlowLocation>,
}

/// A step of a way.
#[derive(Drop, Serialize)]
struct FlowLocation {
    location: Location,
}

/// The verdict as a log file. Its only error is that memory was refused.
pub fn sarif_report(
    alloc: Global,
    verdict: &Verdict,
    names: FileNames<'_>,
) -> Result<String, AllocError> {
    let run = run_of(alloc, verdict, names)?;
    let mut runs = Vec::new(alloc);
    runs.push(run)?;
    let log = Log {
        schema: SCHEMA,
        version: FORMAT,
        runs,
    };
    json_text(alloc, &log)
}

/// The run whose findings these are, with its rules.
fn run_of<'v>(
    alloc: Global,
    verdict: &'v Verdict,
    names: FileNames<'_>,
) -> Result<SarifRun<'v>, AllocError> {
    let mut results = Vec::new(alloc);
    for severity in FindingSeverity::ALL {
        for finding in verdict.findings_of(severity) {
            results.push(outcome_of(alloc, severity, finding, names)?)?;
        }
    }
    Ok(SarifRun {
        tool: Tool {
            driver: Driver {
                name: TOOL,
                version: VERSION,
                rules: rules_of(alloc)?,
            },
        },
        results,
        properties: SarifCounts {
            more: verdict.more(),
            at_least: if verdict.is_least { Some(true) } else { None },
            accepted: verdict.accepted,
        },
    })
}

/// The rules.
fn rules_of<'v>(alloc: Global) -> Result<Vec<SarifRule<'v>>, AllocError> {
    let mut rules = Vec::new(alloc);
    for rule in Rule::ALL {
        rules.push(SarifRule {
            id: rule.id(),
            short_description: Words {
                text: rule.summary(),
            },
            help: Words { text: rule.help() },
            default_configuration: Configuration {
                level: rule.severity().word(),
            },
            properties: RuleFacts {
                number: rule.number(),
                page: page_of(alloc, rule)?,
            },
        })?;
    }
    Ok(rules)
}

/// A finding.
fn outcome_of<'v>(
    alloc: Global,
    severity: FindingSeverity,
    finding: &'v Finding,
    names: FileNames<'_>,
) -> Result<SarifResult<'v>, AllocError> {
    let (text, place) = (finding.text, finding.place);
    let mut locations = Vec::new(alloc);
    locations.push(location_of(alloc, names, text, place, None)?)?;
    let mut related_locations = Vec::new(alloc);
    if origin(names, text, place).is_some() {
        related_locations.push(own_location(alloc, names, text, place)?)?;
    }
    for location in steps_of(alloc, finding.chain.as_slice(), names)? {
        related_locations.push(location)?;
    }
    let mut code_flows = Vec::new(alloc);
    if !finding.chain.is_empty() {
        code_flows.push(flow_of(alloc, finding.chain.as_slice(), names)?)?;
    }
    Ok(SarifResult {
        rule_id: finding.rule.id(),
        level: severity.word(),
        message: Message {
            text: message_of(alloc, finding)?,
        },
        locations,
        related_locations,
        code_flows,
        partial_fingerprints: fingerprints_of(alloc, finding)?,
    })
}

/// What makes the finding the same in other runs: its rule, and the edge that it is about, if it is about one.
fn fingerprints_of(alloc: Global, finding: &Finding) -> Result<Option<Fingerprints>, AllocError> {
    let Some(step) = finding.edge() else {
        return Ok(None);
    };
    let rule = finding.rule.id();
    let from = step.from.as_str();
    let to = step.to.as_str();
    let edge = format!(in alloc; "{rule} {from} -> {to}")?;
    Ok(Some(Fingerprints { edge }))
}

/// What is wrong, and what to do about it.
fn message_of(alloc: Global, finding: &Finding) -> Result<String, AllocError> {
    let mut text = String::new(alloc);
    push_literal(&mut text, finding.message.as_str())?;
    if let Some(help) = &finding.help {
        text.push_str("\nhelp: ")?;
        push_literal(&mut text, help.as_str())?;
    }
    Ok(text)
}

/// Adds a text to a message, in which a single brace begins or ends a placeholder: each of its own is written twice.
fn push_literal(text: &mut String, literal: &str) -> Result<(), AllocError> {
    for letter in literal.chars() {
        if letter == '{' || letter == '}' {
            text.push(letter)?;
        }
        text.push(letter)?;
    }
    Ok(())
}

/// The steps to a finding, as a way.
fn flow_of(
    alloc: Global,
    chain: &[ChainStep],
    names: FileNames<'_>,
) -> Result<CodeFlow, AllocError> {
    let mut locations = Vec::new(alloc);
    for location in steps_of(alloc, chain, names)? {
        locations.push(FlowLocation { location })?;
    }
    let mut thread_flows = Vec::new(alloc);
    thread_flows.push(ThreadFlow { locations })?;
    Ok(CodeFlow { thread_flows })
}

/// The places of the steps to a finding, with what is said of each.
fn steps_of(
    alloc: Global,
    chain: &[ChainStep],
    names: FileNames<'_>,
) -> Result<Vec<Location>, AllocError> {
    let mut locations = Vec::new(alloc);
    for step in chain {
        let told = step_text(alloc, names, step)?;
        let mut text = String::new(alloc);
        push_literal(&mut text, told.as_str())?;
        let message = Some(Message { text });
        locations.push(location_of(alloc, names, JudgedText::Program, step.place, message)?)?;
    }
    Ok(locations)
}

/// A place of a text, or what it stands for in the other one.
fn location_of(
    alloc: Global,
    names: FileNames<'_>,
    text: JudgedText,
    place: Option<TextPlace>,
    message: Option<Message>,
) -> Result<Location, AllocError> {
    let (file, place) = told_at(names, text, place);
    location_in(alloc, file, place, message)
}

/// A place of the program, where it isn't the place that is told.
fn own_location(
    alloc: Global,
    names: FileNames<'_>,
    text: JudgedText,
    place: Option<TextPlace>,
) -> Result<Location, AllocError> {
    let message = Message {
        text: String::from_str(alloc, "in the program that was written from it")?,
    };
    location_in(alloc, names.of(text), place, Some(message))
}

/// A place in the file of this name.
fn location_in(
    alloc: Global,
    file: &[u8],
    place: Option<TextPlace>,
    message: Option<Message>,
) -> Result<Location, AllocError> {
    Ok(Location {
        physical_location: PhysicalLocation {
            artifact_location: ArtifactLocation {
                uri: uri_of(alloc, file)?,
            },
            region: place.map(region_of),
        },
        message,
    })
}

/// The region that begins at this place.
fn region_of(place: TextPlace) -> Region {
    Region {
        start_line: place.line,
        start_column: place.column,
    }
}
