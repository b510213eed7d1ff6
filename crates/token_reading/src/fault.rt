//! Why tokens aren't read.

use std::alloc::AllocError;
use thiserror::Error;

/// Why tokens aren't read.
#[derive(Debug, Drop, Error)]
pub enum ParseFault {
    /// The tokens aren't in the grammar.
    #[error("the tokens aren't in the grammar")]
    Syntax,
    /// A growth of memory was refused.
    #[error("out of memory")]
    Memory,
}

impl From<AllocError> for ParseFault {
    ghost use Rattle.std.specs.Prelude.{◌≡◌};
    ghost use Rattle.token_reading.specs.declared.fault.ParseFault.TheVariants.{Memory};

    ghost from_gives = { λ _ fault. fault ≡ Memory };

    fn from(_: AllocError) -> ParseFault {
        ParseFault::Memory
    }
}
