//! A text that is cut into tokens, how a reader went through it, and parts of texts.

ghost use Rattle.std.specs.Prelude.{◌≤◌, IfSome};

use crate::bytes::bad_byte;
use diagnostics::Flaw;
use sqlite_items::Items;
use std::alloc::{AllocError, Global};
use texts::{PlaceFault, PlacedToken, placed_tokens};
use token_reading::Trail;

/// The tokens of a text, or of a line of one, with their places; or what is wrong with its bytes.
pub fn placed_or_flaw(
    alloc: Global,
    text: &[u8],
) -> Result<Result<Items<PlacedToken>, Flaw>, AllocError> {
    match placed_tokens(alloc, text) {
        Ok(placed) => Ok(Ok(placed)),
        Err(PlaceFault::BadByte(at)) => Ok(Err(bad_byte(alloc, text, at)?)),
        Err(PlaceFault::Memory) => Err(AllocError),
    }
}

/// The trail, if all was noted.
pub fn whole(trail: Option<Trail>) -> Result<Trail, AllocError> {
    match trail {
        Some(trail) if trail.is_whole() => Ok(trail),
        _ => Err(AllocError),
    }
}

/// The flaw of a part of a text, which goes from one byte to another, as one of the text, if there is one.
pub fn within(begin: usize, end: usize, flaw: Option<Flaw>) -> Option<Flaw>
    requires { begin ≤ end }
    ensures begun { IfSome result (λ f. begin ≤ f.at) }
    ensures ended { IfSome result (λ f. f.at ≤ end) }
{
    match flaw {
        Some(flaw) => Some(flaw.within(begin, end)),
        None => None,
    }
}
