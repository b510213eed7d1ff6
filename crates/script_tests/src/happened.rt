//! What a trace tells of events.

use crate::expected::ExpectedAnswer;
use texts::split_line;
use traces::TraceLine;

/// What a trace tells of an event.
#[derive(Clone, Copy, Debug, PartialEq, Eq)]
pub struct Happened<'t> {
    /// How it was answered; `None` where it has no line of its own, since the run ended before.
    pub answer: Option<ExpectedAnswer>,
    /// The lines that the run wrote below it, each with its newline, but for a fault's.
    pub lines: &'t [u8],
    /// The fault whose line comes next.
    pub fault: Option<u8>,
}

/// What a trace tells of its first event, and what it has behind that event's lines.
pub fn split_event(trace: &[u8]) -> (Happened<'_>, &[u8]) {
    let (answer, inner) = match own_line(trace) {
        Some((answer, inner)) => (Some(answer), inner),
        None => (None, trace),
    };
    let mut left = inner;
    let mut fault = None;
    while let Some((line, rest)) = split_line(left) {
        match TraceLine::of(line) {
            Some(TraceLine::Accepted(_) | TraceLine::Refused(_, _)) => break,
            Some(TraceLine::Fault(number)) => {
                fault = Some(number);
                break;
            }
            Some(TraceLine::At(_, _)) | None => left = rest,
        }
    }
    let lines = inner
        .get(..inner.len().saturating_sub(left.len()))
        .unwrap_or(inner);
    let happened = Happened {
        answer,
        lines,
        fault,
    };
    (happened, left)
}

/// How the event is answered with whose line the trace begins, if it begins with one, and what it has behind that line.
fn own_line(trace: &[u8]) -> Option<(ExpectedAnswer, &[u8])> {
    let (line, rest) = split_line(trace)?;
    match TraceLine::of(line)? {
        TraceLine::Accepted(_) => Some((ExpectedAnswer::Accepted, rest)),
        TraceLine::Refused(_, number) => Some((ExpectedAnswer::Refused(number), rest)),
        TraceLine::At(_, _) | TraceLine::Fault(_) => None,
    }
}
