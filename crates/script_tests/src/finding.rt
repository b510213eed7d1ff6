//! Whether an event went as is expected, and how it didn't.

ghost use Rattle.std.specs.Prelude.{◌≡◌, ◌↔◌, ◌⊎◌, Some, None, IfSome, IsSome, IsTrue};
ghost use Rattle.script_tests.specs.Expectations.{WentAsExpected};

use crate::difference::{LineDifference, first_difference};
use crate::expected::{Expected, ExpectedAnswer};
use crate::happened::Happened;

/// How an event went beside what is expected of it.
#[derive(Clone, Copy)]
pub enum EventOutcome<'t> {
    /// It went as is expected.
    AsExpected,
    /// It was answered otherwise: so.
    Answered(ExpectedAnswer),
    /// It isn't run, as the run ended before it.
    NotRun,
    /// The run wrote other lines of it; this is where they differ first.
    Wrote(LineDifference<'t>),
    /// The run stopped with this fault, which isn't expected.
    Stopped(u8),
    /// The run went on, and is expected to stop.
    WentOn,
}

/// How an event went beside what is expected of it: where several findings hold, the first of these is given: the answer,
/// the lines, the stop.
pub fn find<'t>(expected: &'t Expected<'_>, happened: Happened<'t>) -> EventOutcome<'t> {
    if went_as_expected(expected, &happened) {
        return EventOutcome::AsExpected;
    }
    match happened.answer {
        Some(answer) if answer != expected.answer => return EventOutcome::Answered(answer),
        None if expected.fault.is_none() => return EventOutcome::NotRun,
        _ => {}
    }
    if let Some(lines) = &expected.lines {
        if let Some(difference) = first_difference(lines.as_slice(), happened.lines) {
            return EventOutcome::Wrote(difference);
        }
    }
    match happened.fault {
        Some(number) => EventOutcome::Stopped(number),
        None => EventOutcome::WentOn,
    }
}

/// Whether an event went as is expected: it was answered so, or, where the run is to stop, the run ended before it was; the
/// run stopped with the fault that is expected, or went on where none is; and it wrote the lines that are expected, where
/// some are, and no others.
pub fn went_as_expected(expected: &Expected<'_>, happened: &Happened<'_>) -> bool
    ensures { IsTrue result ↔ WentAsExpected expected.now happened.now }
{
    is_answered(expected, happened)
        && happened.fault == expected.fault
        && has_lines(expected, happened)
}

/// Whether the event was answered as is expected, or, where the run is to stop, the run ended before it was.
fn is_answered(expected: &Expected<'_>, happened: &Happened<'_>) -> bool
    ensures { IsTrue result ↔ ((happened.now.answer ≡ Some expected.now.answer)
        ⊎ ((happened.now.answer ≡ None) × IsSome expected.now.fault)) }
{
    match happened.answer {
        Some(answer) => answer == expected.answer,
        None => expected.fault.is_some(),
    }
}

/// Whether the run wrote the lines that are expected, where some are.
fn has_lines(expected: &Expected<'_>, happened: &Happened<'_>) -> bool
    ensures { IsTrue result
        ↔ IfSome expected.now.lines (λ lines. lines.items ≡ happened.now.lines.now) }
{
    match &expected.lines {
        Some(lines) => lines.as_slice() == happened.lines,
        None => true,
    }
}
