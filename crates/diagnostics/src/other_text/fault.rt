//! Why places can't be read.

use std::alloc::AllocError;
use thiserror::Error;

/// Why a text has no places.
#[derive(Clone, Copy, Debug, PartialEq, Eq, Error)]
pub enum PlacesFault {
    /// The first line, counted from 1, that is no place, or no place behind the one before it.
    #[error("line {0} of the places: this is no place, or none behind the one above it")]
    NoPlace(usize),
    /// A growth of memory was refused.
    #[error("out of memory")]
    Memory,
}

impl From<AllocError> for PlacesFault {
    ghost use Rattle.std.specs.Prelude.{◌≡◌};
    ghost use Rattle.diagnostics.specs.declared.other_text.fault.PlacesFault.TheVariants.{Memory};

    ghost from_gives = { λ _ fault. fault ≡ Memory };

    fn from(_: AllocError) -> PlacesFault {
        PlacesFault::Memory
    }
}
