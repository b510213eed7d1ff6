//! What is wrong with a program.

ghost use Rattle.std.specs.Prelude.{◌≤◌, length, IfOk, IfSome};

use crate::limits::{count_flaw, depth_flaw, parameters_flaw, program_size_flaw, reference_flaw};
use crate::parts::{placed_or_flaw, whole, within};
use crate::unexpected::{TokenizedText, Unexpected};
use class_lang::{Limits, program_trail};
use diagnostics::{Flaw, tokens_or_none};
use std::alloc::{AllocError, Global};
use token_reading::Trail;

/// What is wrong with a program that was read by these limits and is refused for the reason of this number, where that has a
/// place in its text: a byte that begins no token (4), the first token that can't stand where it does (5), one that nests too
/// deep (6), a reference that isn't const (2), a ninth parameter (3), or too many bytes or declarations (7).
pub fn program_flaw(
    alloc: Global,
    limits: Limits,
    text: &[u8],
    number: u8,
) -> Result<Option<Flaw>, AllocError>
    ensures { IfOk result (λ flaw. IfSome flaw (λ f. f.at ≤ length text.now)) }
{
    let flaw = flaw_of(alloc, limits, text, number)?;
    Ok(within(0, text.len(), flaw))
}

fn flaw_of(
    alloc: Global,
    limits: Limits,
    text: &[u8],
    number: u8,
) -> Result<Option<Flaw>, AllocError> {
    if number == 7
        && let Some(flaw) = program_size_flaw(alloc, limits, text)?
    {
        return Ok(Some(flaw));
    }
    match placed_or_flaw(alloc, text)? {
        Ok(placed) => {
            let tokens = placed.as_slice();
            flaw_in(alloc, limits, TokenizedText { text, tokens }, number)
        }
        Err(flaw) => Ok(Some(flaw)),
    }
}

/// What is wrong with a program of these tokens.
fn flaw_in(
    alloc: Global,
    limits: Limits,
    source: TokenizedText,
    number: u8,
) -> Result<Option<Flaw>, AllocError> {
    match number {
        2 => reference_flaw(alloc, source),
        3 => parameters_flaw(alloc, source, false),
        5 => {
            let trail = trail_of(alloc, source.text)?;
            Ok(Some(Unexpected::new(source, &trail).flaw(alloc)?))
        }
        6 => depth_flaw(alloc, source),
        7 => {
            let trail = trail_of(alloc, source.text)?;
            count_flaw(alloc, limits, source, &trail)
        }
        _ => Ok(None),
    }
}

/// The way of the reader of programs through the text.
fn trail_of(alloc: Global, text: &[u8]) -> Result<Trail, AllocError> {
    let tokens = tokens_or_none(alloc, text)?;
    whole(program_trail(alloc, tokens.as_slice()))
}
