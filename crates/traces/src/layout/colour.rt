//! Colours, as terminals take them: "select graphic rendition" of ECMA-48.

ghost use Rattle.traces.specs.Shown.{IsColour};

use crate::reading::{LineKind, TraceLine};

/// The colour in which a line is shown.
pub fn colour_of(line: TraceLine) -> &'static [u8]
    ensures { IsColour result.now }
{
    match line {
        TraceLine::Accepted(_) => b"\x1b[1m",
        TraceLine::Refused(_, _) => b"\x1b[1;31m",
        TraceLine::Fault(_) => b"\x1b[1;37;41m",
        TraceLine::At(_, kind) => colour_of_kind(kind),
    }
}

fn colour_of_kind(kind: LineKind) -> &'static [u8]
    ensures { IsColour result.now }
{
    match kind {
        LineKind::Emit => b"\x1b[33m",
        LineKind::Call => b"\x1b[32m",
        LineKind::Native => b"\x1b[92m",
        LineKind::Post => b"\x1b[36m",
        LineKind::Dead => b"\x1b[35m",
        LineKind::Set => b"\x1b[34m",
        LineKind::Bind => b"\x1b[94m",
        LineKind::Follow => b"\x1b[96m",
        LineKind::Connect => b"\x1b[93m",
        LineKind::Disconnect => b"\x1b[95m",
        LineKind::Refused(_) => b"\x1b[31m",
        LineKind::Null => b"\x1b[90m",
        LineKind::Group => b"\x1b[34m",
    }
}
