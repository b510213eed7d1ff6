//! What a script expects of its events: by a comment behind an event how it is answered, and by comments below it what the
//! run writes of it.

use diagnostics::{has_tokens, number_behind};
use std::alloc::{AllocError, Global};
use texts::split_line;
use thiserror::Error;

/// How a line begins that expects a line of the trace.
pub const MARK: &str = "//=";

/// What comes before a number at the end of an event's line.
pub const REFUSED: &str = "// refused";

pub const FAULT: &str = "// fault";

/// How an event is answered.
#[derive(Clone, Copy, Debug, PartialEq, Eq)]
pub enum ExpectedAnswer {
    /// It is accepted.
    Accepted,
    /// It is refused with this number.
    Refused(u8),
}

/// What a script expects of one of its events.
#[derive(Drop)]
pub struct Expected<'t> {
    /// The number of its line in the script, counted from 1.
    pub line: usize,
    /// What its line has in front of what is expected, without blanks at its ends.
    pub event: &'t [u8],
    /// How it is answered.
    pub answer: ExpectedAnswer,
    /// The fault with which the run stops in it, or before its own line is written; `None` where the run goes on.
    pub fault: Option<u8>,
    /// The lines that the run writes below the event's own, each with its newline; `None` where any will do.
    pub lines: Option<Vec<u8>>,
    /// The numbers of the script's lines that expect one of these each, in their order.
    pub comments: Vec<usize>,
    /// The number of its last comment that speaks of these lines, or where there is none of its own line.
    pub last: usize,
}

/// Why it isn't known what a script expects.
#[derive(Clone, Copy, Debug, PartialEq, Eq, Error)]
pub enum ExpectationFault {
    /// The line of this number, counted from 1, expects a line of the trace and stands above all events.
    #[error("line {0} of the script expects a line of the trace and stands above all events")]
    Misplaced(usize),
    /// A growth of memory was refused.
    #[error("out of memory")]
    Memory,
}

impl From<AllocError> for ExpectationFault {
    fn from(_: AllocError) -> ExpectationFault {
        ExpectationFault::Memory
    }
}

/// What the script expects of each of its events, in their order. Errors: a line that expects something stands above all
/// events (`Misplaced`, with the first such line); `Memory`.
pub fn expectations(alloc: Global, script: &[u8]) -> Result<Vec<Expected<'_>>, ExpectationFault> {
    let mut events = Vec::new(alloc);
    let mut current: Option<Expected<'_>> = None;
    let mut left = script;
    let mut number = 0usize;
    while let Some((line, rest)) = split_line(left) {
        number = number.saturating_add(1);
        left = rest;
        if let Some(wanted) = wanted_line(line) {
            let Some(mut event) = current else {
                return Err(ExpectationFault::Misplaced(number));
            };
            event.expect(alloc, number, wanted)?;
            current = Some(event);
        } else if has_tokens(alloc, line)? {
            keep(&mut events, current)?;
            current = Some(Expected::of(alloc, number, line));
        }
    }
    keep(&mut events, current)?;
    Ok(events)
}

/// Adds what is expected of an event behind that of those before it, if there is one.
fn keep<'t>(events: &mut Vec<Expected<'t>>, event: Option<Expected<'t>>) -> Result<(), AllocError> {
    if let Some(event) = event {
        events.push(event)?;
    }
    Ok(())
}

impl<'t> Expected<'t> {
    /// What the line of an event expects of it.
    fn of(alloc: Global, number: usize, line: &'t [u8]) -> Expected<'t> {
        let text = line.trim_ascii();
        let mut expected = Expected {
            line: number,
            event: text,
            answer: ExpectedAnswer::Accepted,
            fault: None,
            lines: None,
            comments: Vec::new(alloc),
            last: number,
        };
        if let Some((event, refusal)) = number_behind(text, REFUSED) {
            expected.event = event;
            expected.answer = ExpectedAnswer::Refused(refusal);
        } else if let Some((event, fault)) = number_behind(text, FAULT) {
            expected.event = event;
            expected.fault = Some(fault);
        }
        expected
    }

    /// Adds what the comment of this number says that the run is to write of it: a line, or where it is empty none.
    fn expect(&mut self, alloc: Global, number: usize, wanted: &[u8]) -> Result<(), AllocError> {
        let mut lines = match self.lines.take() {
            Some(lines) => lines,
            None => Vec::new(alloc),
        };
        if !wanted.is_empty() {
            lines.extend_from_slice(wanted)?;
            lines.push(b'\n')?;
            self.comments.push(number)?;
        }
        self.lines = Some(lines);
        self.last = number;
        Ok(())
    }

    /// The number of the line of the script that expects the line of this number, counted from 1, and where none does
    /// that of its last comment.
    pub fn comment(&self, line: usize) -> usize {
        let found = self.comments.get(line.saturating_sub(1));
        found.copied().unwrap_or(self.last)
    }
}

/// The line of a trace that this line of a script expects, if it expects one; an empty one where it expects none.
pub fn wanted_line(line: &[u8]) -> Option<&[u8]> {
    let wanted = line.trim_ascii().strip_prefix(MARK.as_bytes())?;
    Some(wanted.trim_ascii())
}
