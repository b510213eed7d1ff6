//! A verdict in the form of JUnit's reports, which build servers read that take no SARIF.

use crate::reports::names::{FileNames, name_text};
use crate::reports::spots::told_at;
use crate::reports::text::push_below;
use crate::{Finding, FindingSeverity, TextPlace, Verdict};
use std::alloc::{AllocError, Global};

/// The verdict as a suite with a test for each finding: an error is a failure, and a warning or a note an output of a test that
/// passed. Where nothing is found one test passed. Its only error is that memory was refused.
pub fn junit_report(
    alloc: Global,
    verdict: &Verdict,
    names: FileNames<'_>,
) -> Result<String, AllocError> {
    let mut tests = String::new(alloc);
    for severity in FindingSeverity::ALL {
        for finding in verdict.findings_of(severity) {
            push_test(&mut tests, alloc, severity, finding, names)?;
        }
    }
    let failures = verdict.errors.len();
    let mut count = verdict.reported();
    if count == 0 {
        tests.push_str("  <testcase classname=\"gammonfig\" name=\"no findings\"/>\n")?;
        count = 1;
    }
    let tests = tests.as_str();
    format!(in alloc;
        "<?xml version=\"1.0\" encoding=\"UTF-8\"?>\n<testsuites>\n<testsuite name=\"gammonfig verdict\" tests=\"{count}\" failures=\"{failures}\" errors=\"0\">\n{tests}</testsuite>\n</testsuites>\n"
    )
}

/// What stands below a finding in a text.
fn details_of(
    alloc: Global,
    finding: &Finding,
    names: FileNames<'_>,
) -> Result<String, AllocError> {
    let mut details = String::new(alloc);
    push_below(&mut details, alloc, finding, names)?;
    Ok(details)
}

/// Adds a finding as a test.
fn push_test(
    text: &mut String,
    alloc: Global,
    severity: FindingSeverity,
    finding: &Finding,
    names: FileNames<'_>,
) -> Result<(), AllocError> {
    let details = details_of(alloc, finding, names)?;
    let details = details.as_str();
    let rule = finding.rule.id();
    let (file, place) = told_at(names, finding.text, finding.place);
    let file = name_text(alloc, file)?;
    text.push_str("  <testcase classname=\"")?;
    push_escaped(text, file.as_str())?;
    write!(text, "\" name=\"{rule}")?;
    if let Some(TextPlace { line, column }) = place {
        write!(text, " {line}:{column}")?;
    }
    text.push_str("\">\n")?;
    match severity {
        FindingSeverity::Error => {
            write!(text, "    <failure type=\"{rule}\" message=\"")?;
            push_escaped(text, finding.message.as_str())?;
            text.push_str("\">")?;
            push_escaped(text, details)?;
            text.push_str("</failure>\n")?;
        }
        FindingSeverity::Warning | FindingSeverity::Note => {
            let word = severity.word();
            write!(text, "    <system-out>{word}: ")?;
            push_escaped(text, finding.message.as_str())?;
            text.push_str("\n")?;
            push_escaped(text, details)?;
            text.push_str("</system-out>\n")?;
        }
    }
    text.push_str("  </testcase>\n")
}

/// Adds a text as XML has it: what XML 1.0 has no character for is a `?`.
fn push_escaped(text: &mut String, literal: &str) -> Result<(), AllocError> {
    for letter in literal.chars() {
        match letter {
            '&' => text.push_str("&amp;")?,
            '<' => text.push_str("&lt;")?,
            '>' => text.push_str("&gt;")?,
            '"' => text.push_str("&quot;")?,
            '\n' | '\t' => text.push(letter)?,
            '\u{0}'..='\u{1f}' | '\u{fffe}' | '\u{ffff}' => text.push('?')?,
            _ => text.push(letter)?,
        }
    }
    Ok(())
}
