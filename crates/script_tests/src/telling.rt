//! What is said of the events of a script that was run as a test.

use crate::difference::LineDifference;
use crate::expected::ExpectedAnswer;
use crate::finding::{EventOutcome, find};
use crate::judging::Test;
use diagnostics::push_printed;
use std::alloc::{AllocError, Global};

/// How it is said.
#[derive(Clone, Copy, Debug, PartialEq, Eq)]
pub enum TestFormat {
    /// The events that went otherwise than is expected, and how many there are.
    Plain,
    /// Each event, in the Test Anything Protocol, version 13.
    Tap,
}

/// What is said of the events, in whole lines, and how many of them went otherwise than is expected.
pub fn report(
    alloc: Global,
    tests: &[Test<'_>],
    form: TestFormat,
) -> Result<(String, usize), AllocError> {
    let mut text = String::new(alloc);
    let count = tests.len();
    if form == TestFormat::Tap {
        write!(text, "TAP version 13\n1..{count}\n")?;
    }
    let mut failed = 0usize;
    for (place, test) in tests.iter().enumerate() {
        let finding = find(&test.expected, test.happened);
        let is_as_expected = matches!(finding, EventOutcome::AsExpected);
        if !is_as_expected {
            failed = failed.saturating_add(1);
        }
        match form {
            TestFormat::Tap => push_tap(&mut text, place.saturating_add(1), test, finding)?,
            TestFormat::Plain if is_as_expected => {}
            TestFormat::Plain => push_plain(&mut text, test, finding)?,
        }
    }
    if form == TestFormat::Plain {
        match failed {
            0 => write!(text, "{count} events, each as expected\n")?,
            _ => write!(text, "{count} events, {failed} not as expected\n")?,
        }
    }
    Ok((text, failed))
}

/// Adds how an event went, with the line of the script that expects it otherwise: a comment below the event, or its own.
fn push_plain(
    text: &mut String,
    test: &Test<'_>,
    finding: EventOutcome<'_>,
) -> Result<(), AllocError> {
    let line = match finding {
        EventOutcome::Wrote(difference) => test.expected.comment(difference.line),
        _ => test.expected.line,
    };
    write!(text, "line {line} of the script, `")?;
    push_printed(text, test.expected.event)?;
    text.push_str("`: ")?;
    push_finding(text, test, finding)?;
    text.push_str("\n")
}

/// Adds an event's line, and below it as a comment how it went otherwise.
fn push_tap(
    text: &mut String,
    number: usize,
    test: &Test<'_>,
    finding: EventOutcome<'_>,
) -> Result<(), AllocError> {
    let is_as_expected = matches!(finding, EventOutcome::AsExpected);
    text.push_str(if is_as_expected { "ok" } else { "not ok" })?;
    let line = test.expected.line;
    write!(text, " {number} - line {line}: ")?;
    push_escaped(text, test.expected.event)?;
    text.push_str("\n")?;
    if !is_as_expected {
        text.push_str("# ")?;
        if let EventOutcome::Wrote(difference) = finding {
            let line = test.expected.comment(difference.line);
            write!(text, "line {line}: ")?;
        }
        push_finding(text, test, finding)?;
        text.push_str("\n")?;
    }
    Ok(())
}

/// Adds how an event went otherwise than is expected.
fn push_finding(
    text: &mut String,
    test: &Test<'_>,
    finding: EventOutcome<'_>,
) -> Result<(), AllocError> {
    match finding {
        EventOutcome::AsExpected => text.push_str("as expected"),
        EventOutcome::Answered(answer) => {
            push_answer(text, answer)?;
            text.push_str(", and is expected to be ")?;
            push_answer(text, test.expected.answer)
        }
        EventOutcome::NotRun => text.push_str("not run, as the run ended before"),
        EventOutcome::Wrote(difference) => push_difference(text, difference),
        EventOutcome::Stopped(number) => write!(text, "the run stopped with fault {number}"),
        EventOutcome::WentOn => text.push_str("the run went on, and is expected to stop"),
    }
}

fn push_answer(text: &mut String, answer: ExpectedAnswer) -> Result<(), AllocError> {
    match answer {
        ExpectedAnswer::Accepted => text.push_str("accepted"),
        ExpectedAnswer::Refused(number) => write!(text, "refused with {number}"),
    }
}

/// Adds the first line that the run wrote otherwise.
fn push_difference(text: &mut String, difference: LineDifference<'_>) -> Result<(), AllocError> {
    let LineDifference {
        line,
        wanted,
        found,
    } = difference;
    write!(text, "its line {line} is ")?;
    push_line(text, found)?;
    text.push_str(", and is expected to be ")?;
    push_line(text, wanted)
}

/// Adds a line of a trace, or that there is none.
fn push_line(text: &mut String, line: &[u8]) -> Result<(), AllocError> {
    if line.is_empty() {
        return text.push_str("none");
    }
    text.push_str("`")?;
    push_printed(text, line.strip_suffix(b"\n".as_slice()).unwrap_or(line))?;
    text.push_str("`")
}

/// Adds bytes, as a person is shown them, with a backslash before each `#` and each backslash, which mean something in a line of
/// the protocol.
fn push_escaped(text: &mut String, bytes: &[u8]) -> Result<(), AllocError> {
    let mut printed = String::new(*text.allocator());
    push_printed(&mut printed, bytes)?;
    for letter in printed.as_str().chars() {
        if letter == '#' || letter == '\\' {
            text.push('\\')?;
        }
        text.push(letter)?;
    }
    Ok(())
}
