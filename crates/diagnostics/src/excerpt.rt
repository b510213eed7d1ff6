//! A place in a line.

ghost use Rattle.std.specs.Prelude.{◌≤◌, length};

use crate::printed::push_printed;
use std::alloc::AllocError;

/// So many bytes of a line are shown before a place, and as many behind it.
const SHOWN: usize = 60;

/// Adds the line, or what stands near this byte in a long one, and a caret below the byte.
pub fn push_excerpt(text: &mut String, line: &[u8], at: usize) -> Result<(), AllocError>
    requires { at ≤ length line.now }
{
    let from = at.saturating_sub(SHOWN);
    let to = line.len().min(at.saturating_add(SHOWN));
    text.push_str("  | ")?;
    push_printed(text, line.get(from..to).unwrap_or(&[]))?;
    text.push_str("\n  | ")?;
    for _ in from..at {
        text.push(' ')?;
    }
    text.push_str("^\n")
}
