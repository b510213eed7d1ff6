//! What is wrong with a line of a script, or of a certificate.

ghost use Rattle.std.specs.Prelude.{◌≤◌, length, IfOk, IfSome};
ghost use Rattle.text_flaws.specs.LinePlaces.{IsInLine};

use crate::limits::{parameters_flaw, reference_flaw};
use crate::parts::{placed_or_flaw, whole, within};
use crate::unexpected::{TokenizedText, Unexpected, is_among};
use diagnostics::{Flaw, tokens_or_none};
use script_lang::event_trail;
use std::alloc::{AllocError, Global};
use texts::split_line;
use token_reading::{Trail, Wanted};

/// What is wrong with this line of a script, counted from 1: its place is in that line.
pub fn script_flaw(alloc: Global, text: &[u8], line: usize) -> Result<Option<Flaw>, AllocError>
    ensures inside { IfOk result (λ flaw. IfSome flaw (λ f. f.at ≤ length text.now)) }
    ensures in_line { IfOk result (λ flaw. IfSome flaw (λ f. IsInLine text.now line f.at)) }
{
    let mut left = text;
    let mut number = 0usize;
    while let Some((content, rest)) = split_line(left) {
        number += 1;
        if number == line {
            let begin = text.len() - left.len();
            let flaw = event_flaw(alloc, content)?;
            return Ok(within(begin, begin + content.len(), flaw));
        }
        left = rest;
    }
    Ok(None)
}

/// What is wrong with a line that is to be an event.
fn event_flaw(alloc: Global, line: &[u8]) -> Result<Option<Flaw>, AllocError> {
    let placed = match placed_or_flaw(alloc, line)? {
        Ok(placed) => placed,
        Err(flaw) => return Ok(Some(flaw)),
    };
    let source = TokenizedText {
        text: line,
        tokens: placed.as_slice(),
    };
    let trail = trail_of_event(alloc, line)?;
    line_flaw(alloc, source, &trail, false)
}

/// The way of the reader of events through the line.
fn trail_of_event(alloc: Global, line: &[u8]) -> Result<Trail, AllocError> {
    let tokens = tokens_or_none(alloc, line)?;
    whole(event_trail(alloc, tokens.as_slice()))
}

/// What is wrong with a line through which the reader went so.
pub fn line_flaw<'t>(
    alloc: Global,
    source: TokenizedText<'t>,
    trail: &'t Trail,
    is_certificate: bool,
) -> Result<Option<Flaw>, AllocError> {
    if trail.farthest() < source.tokens.len() || !is_among(&Wanted::End, trail.wanted()) {
        return Ok(Some(Unexpected::new(source, trail).flaw(alloc)?));
    }
    match reference_flaw(alloc, source)? {
        Some(flaw) => Ok(Some(flaw)),
        None => parameters_flaw(alloc, source, is_certificate),
    }
}
