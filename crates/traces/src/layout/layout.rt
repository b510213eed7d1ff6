//! One line, as it is shown.

ghost use Rattle.std.specs.Prelude.{◌≡◌, ◌++◌, List, ℕ, OnOk};
ghost use Rattle.traces.specs.Shown.{ShowsLine, AddsColoured, AddsRemark, indent_of};

use crate::layout::colour::colour_of;
use crate::layout::remarks::remark;
use crate::reading::TraceLine;
use std::alloc::AllocError;
use texts::{MOST_DEPTH, split_line};

/// What ends a colour.
const RESET: &[u8] = b"\x1b[0m";

/// Adds a line as it is shown, where both stand without a newline: two blanks for each level of its depth, in its kind's
/// colour where colours are wanted, the line itself, and a sentence behind a refusal or a fault. A line that is none of a
/// trace is added as it is.
pub fn push_shown(shown: &mut Vec<u8>, line: &[u8], colours: bool) -> Result<(), AllocError>
    ensures { OnOk result (ShowsLine colours line.now shown.old.items shown.new.items) }
{
    let Some(told) = TraceLine::of(line) else {
        return shown.extend_from_slice(line);
    };
    push_indent(shown, told)?;
    push_coloured(shown, told, line, colours)?;
    push_remark(shown, told)?;
    Ok(())
}

/// Adds a line in its kind's colour, where colours are wanted.
fn push_coloured(
    shown: &mut Vec<u8>,
    told: TraceLine,
    line: &[u8],
    colours: bool,
) -> Result<(), AllocError>
    ensures { OnOk result (AddsColoured colours line.now shown.old.items shown.new.items) }
{
    if !colours {
        return shown.extend_from_slice(line);
    }
    shown.extend_from_slice(colour_of(told))?;
    shown.extend_from_slice(line)?;
    shown.extend_from_slice(RESET)?;
    Ok(())
}

/// Adds two blanks for each level of a line's depth, up to the greatest that there is.
fn push_indent(shown: &mut Vec<u8>, told: TraceLine) -> Result<(), AllocError>
    ensures { OnOk result (shown.new.items ≡ shown.old.items ++ indent_of told) }
{
    let TraceLine::At(depth, _) = told else {
        return Ok(());
    };
    for _ in 0..depth.min(MOST_DEPTH as u64) {
        shown.extend_from_slice(b"  ")?;
    }
    Ok(())
}

/// Adds what the number of a refusal or a fault means, where the line has one.
fn push_remark(shown: &mut Vec<u8>, told: TraceLine) -> Result<(), AllocError>
    ensures { OnOk result (AddsRemark shown.old.items shown.new.items) }
{
    let Some(about) = remark(told) else {
        return Ok(());
    };
    let Some((words, _)) = split_line(about.as_bytes()) else {
        return Ok(());
    };
    shown.extend_from_slice(b"  -- ")?;
    shown.extend_from_slice(words)?;
    Ok(())
}
