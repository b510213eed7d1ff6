//! The lines of a script that have events (docs/language.md, "Scripts").

ghost use Rattle.std.specs.Prelude.{IfOk};
ghost use Rattle.explained_commands.specs.EventLines.{FindsEvent};

use diagnostics::has_tokens;
use std::alloc::{AllocError, Global};
use texts::split_line;

/// A line of a script that has an event.
#[derive(Clone, Copy, Debug, PartialEq, Eq)]
pub struct EventLine<'a> {
    /// The line, without its newline.
    pub line: &'a [u8],
    /// The byte of the script at which it begins.
    pub at: usize,
}

/// The line of the event of this number, counted from 1; `None` where the script has fewer events. A line that has more
/// than blanks and a comment counts as an event.
pub fn event_line<'a>(
    alloc: Global,
    script: &'a [u8],
    event: u64,
) -> Result<Option<EventLine<'a>>, AllocError>
    ensures { IfOk result (FindsEvent script.now event) }
{
    let mut left = script;
    let mut number = 0u64;
    while let Some((line, rest)) = split_line(left) {
        if has_tokens(alloc, line)? {
            number += 1;
            if number == event {
                let at = script.len() - left.len();
                return Ok(Some(EventLine { line, at }));
            }
        }
        left = rest;
    }
    Ok(None)
}
