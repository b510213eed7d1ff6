//! A trace as lines for a terminal, with the script's own.

ghost use Rattle.std.specs.Prelude.{◌≡◌, ◌++◌, IfOk, OnOk};
ghost use Rattle.traces.specs.LaidOut.{IsLaidOut, IsLaidOutBeside, FindsStatement, LaysOutLine, behind_of};

use crate::layout::push_shown;
use crate::reading::{Statements, TraceLine};
use std::alloc::{AllocError, Global};
use texts::split_line;

/// What is between the line of an event and the line of the script that it comes from.
const FROM: &[u8] = b"  <- ";

/// The lines of a trace as `trace_layout` shows them, in their order, each with a newline. Behind the line of an event is
/// the line of the script that it comes from, which is found by the event's number; where the script has fewer, the line
/// stands alone.
pub fn laid_out_trace(
    alloc: Global,
    trace: &[u8],
    script: &[u8],
    colours: bool,
) -> Result<Vec<u8>, AllocError>
    ensures { IfOk result (λ shown. IsLaidOut colours trace.now script.now shown.items) }
{
    let statements = Statements::of(alloc, script)?;
    laid_out_beside(alloc, trace, &statements, colours)
}

/// The lines of a trace beside the lines of a script that have events.
fn laid_out_beside(
    alloc: Global,
    trace: &[u8],
    statements: &Statements<'_>,
    colours: bool,
) -> Result<Vec<u8>, AllocError>
    ensures { IfOk result (λ shown. IsLaidOutBeside colours statements.now trace.now shown.items) }
{
    let mut shown = Vec::with_capacity(alloc, trace.len())?;
    let mut left = trace;
    while let Some((line, rest)) = split_line(left) {
        push_laid_out(&mut shown, line, statements, colours)?;
        left = rest;
    }
    Ok(shown)
}

/// Adds a line of a trace as it is laid out, where it stands without its newline.
fn push_laid_out(
    shown: &mut Vec<u8>,
    line: &[u8],
    statements: &Statements<'_>,
    colours: bool,
) -> Result<(), AllocError>
    ensures { OnOk result (LaysOutLine colours statements.now line.now shown.old.items shown.new.items) }
{
    push_shown(shown, line, colours)?;
    push_behind(shown, statement_of(statements, line))?;
    shown.push(b'\n')?;
    Ok(())
}

/// Adds the line of the script that a line comes from, if there is one.
fn push_behind(shown: &mut Vec<u8>, statement: Option<&[u8]>) -> Result<(), AllocError>
    ensures { OnOk result (shown.new.items ≡ shown.old.items ++ behind_of statement.entry) }
{
    let Some(statement) = statement else {
        return Ok(());
    };
    shown.extend_from_slice(FROM)?;
    shown.extend_from_slice(statement)?;
    Ok(())
}

/// The line of the script that a line of the trace comes from, where it is an event's.
fn statement_of<'s>(statements: &Statements<'s>, line: &[u8]) -> Option<&'s [u8]>
    ensures { FindsStatement statements.now line.now result }
{
    let event = TraceLine::event(line)?;
    statements.line(event)
}
