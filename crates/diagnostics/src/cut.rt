//! What a text is cut into, for who says something of a text that may be wrong.

ghost use Rattle.std.specs.Prelude.{IfOk};
ghost use Rattle.diagnostics.specs.Cut.{HasTokens, HasPlacedTokens};

use sqlite_items::Items;
use std::alloc::{AllocError, Global};
use texts::{LexFault, PlaceFault, PlacedToken, Token, placed_tokens, tokens};

/// The tokens of a text, or of a line of one; none where a byte begins no token.
pub fn tokens_or_none(alloc: Global, text: &[u8]) -> Result<Items<Token>, AllocError>
    ensures { IfOk result (HasTokens text.now) }
{
    match tokens(alloc, text) {
        Ok(tokens) => Ok(tokens),
        Err(LexFault::BadByte) => Ok(Items::new(alloc)),
        Err(LexFault::Memory) => Err(AllocError),
    }
}

/// The same, each token with its place.
pub fn placed_or_none(alloc: Global, text: &[u8]) -> Result<Items<PlacedToken>, AllocError>
    ensures { IfOk result (HasPlacedTokens text.now) }
{
    match placed_tokens(alloc, text) {
        Ok(placed) => Ok(placed),
        Err(PlaceFault::BadByte(_)) => Ok(Items::new(alloc)),
        Err(PlaceFault::Memory) => Err(AllocError),
    }
}
