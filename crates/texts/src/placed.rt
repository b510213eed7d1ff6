//! Tokens with their places.

ghost use Rattle.std.specs.Prelude.{IfOk, IfErr};
ghost use Rattle.texts.specs.code.Places.{ArePlaced, StopsPlacing};

use crate::interner::Interner;
use crate::lexer::{LexFault, split_piece};
use crate::token::Token;
use sqlite_items::Items;
use std::alloc::{AllocError, Global};
use thiserror::Error;

/// A token, and where it begins.
#[derive(Drop)]
pub struct PlacedToken {
    /// Its first byte, counted from 0.
    pub at: usize,
    /// What follows its last byte.
    pub end: usize,
    pub token: Token,
}

/// Why a text isn't cut into tokens.
#[derive(Debug, Drop, Error)]
pub enum PlaceFault {
    /// At this byte, counted from 0, no token begins.
    #[error("no token begins at byte {0}")]
    BadByte(usize),
    /// A growth of memory was refused.
    #[error("out of memory")]
    Memory,
}

impl From<AllocError> for PlaceFault {
    ghost use Rattle.std.specs.Prelude.{◌≡◌};
    ghost use Rattle.texts.specs.declared.placed.PlaceFault.TheVariants.{Memory};

    ghost from_gives = { λ _ fault. fault ≡ Memory };

    fn from(_: AllocError) -> PlaceFault {
        PlaceFault::Memory
    }
}

/// The tokens of a text, each with its place; or the byte where no token begins: where texts' `tokens` answers that a
/// byte is bad, it is this one.
pub fn placed_tokens(alloc: Global, text: &[u8]) -> Result<Items<PlacedToken>, PlaceFault>
    ensures placed { IfOk result (ArePlaced text.now) }
    ensures stuck { IfErr result (StopsPlacing text.now) }
{
    let mut interner = Interner::new(alloc, text.len())?;
    let mut found = Items::new(alloc);
    let mut rest = text;
    while !rest.is_empty() {
        let at = text.len() - rest.len();
        match split_piece(&mut interner, rest) {
            Ok((token, after)) => {
                if let Some(token) = token {
                    let end = text.len() - after.len();
                    found.push(PlacedToken { at, end, token })?;
                }
                rest = after;
            }
            Err(LexFault::BadByte) => return Err(PlaceFault::BadByte(at)),
            Err(LexFault::Memory) => return Err(PlaceFault::Memory),
        }
    }
    Ok(found)
}
