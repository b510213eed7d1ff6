//! Each event of a script beside what a trace tells of it.

use crate::expected::{ExpectationFault, Expected, ExpectedAnswer, expectations};
use crate::happened::{Happened, split_event};
use std::alloc::{AllocError, Global};

/// An event of a script, what is expected of it, and what a trace tells of it.
#[derive(Drop)]
pub struct Test<'t> {
    pub expected: Expected<'t>,
    pub happened: Happened<'t>,
}

/// What the script expects of each of its events, and what the trace of its run tells of that event. A fault that comes
/// where the next event is to be taken has its line below the event before; it is reported of the next one, if that is
/// expected to stop the run so, or if the one before was refused, since nothing goes on after that. Errors: as of
/// `expectations`.
pub fn judge<'t>(
    alloc: Global,
    script: &'t [u8],
    trace: &'t [u8],
) -> Result<Vec<Test<'t>>, ExpectationFault> {
    let events = expectations(alloc, script)?;
    let tests = beside(alloc, events, trace)?;
    Ok(tests)
}

/// What is expected of events beside what the trace tells of them.
fn beside<'t>(
    alloc: Global,
    events: Vec<Expected<'t>>,
    trace: &'t [u8],
) -> Result<Vec<Test<'t>>, AllocError> {
    let mut tests = Vec::with_capacity(alloc, events.len())?;
    let mut left = trace;
    let mut before: Option<Test<'t>> = None;
    for expected in events {
        let (happened, rest) = split_event(left);
        left = rest;
        if let Some(mut test) = before {
            if happened.answer.is_none() && (expected.fault.is_some() || test.is_refused()) {
                test.leave_fault();
            }
            tests.push(test)?;
        }
        before = Some(Test { expected, happened });
    }
    if let Some(test) = before {
        tests.push(test)?;
    }
    Ok(tests)
}

impl Test<'_> {
    /// The fault is the next event's, unless this one is expected to stop the run and may have done so.
    fn leave_fault(&mut self) {
        if self.expected.fault.is_none() || self.is_refused() {
            self.happened.fault = None;
        }
    }

    /// Whether the event was refused.
    fn is_refused(&self) -> bool {
        matches!(self.happened.answer, Some(ExpectedAnswer::Refused(_)))
    }
}
