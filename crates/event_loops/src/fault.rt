//! Why no loop is added, and nothing is posted to a loop or moved to it.

ghost use Rattle.std.specs.Prelude.{◌≡◌};
ghost use Rattle.event_loops.specs.FaultNumbers.{add_number, post_number};

use std::alloc::AllocError;
use thiserror::Error;

/// Why no loop is added.
#[derive(Clone, Copy, Debug, Error, PartialEq, Eq)]
pub enum AddFault {
    /// A loop of this name is there.
    #[error("the loop exists")]
    Exists,
    /// A growth of memory was refused.
    #[error("out of memory")]
    Memory,
}

impl From<AllocError> for AddFault {
    ghost use Rattle.std.specs.Prelude.{◌≡◌};
    ghost use Rattle.event_loops.specs.declared.fault.AddFault.TheVariants.{Memory};

    ghost from_gives = { λ _ fault. fault ≡ Memory };

    fn from(_: AllocError) -> AddFault {
        AddFault::Memory
    }
}

impl AddFault {
    /// The refusal's number; running out of memory has none.
    pub fn number(self) -> Option<u8>
        ensures { result ≡ add_number self }
    {
        match self {
            AddFault::Exists => Some(43),
            AddFault::Memory => None,
        }
    }
}

/// Why nothing is posted to a loop, or moved to it.
#[derive(Clone, Copy, Debug, Error, PartialEq, Eq)]
pub enum PostFault {
    /// There is no such loop.
    #[error("no such loop")]
    NoLoop,
    /// A growth of memory was refused.
    #[error("out of memory")]
    Memory,
}

impl From<AllocError> for PostFault {
    ghost use Rattle.std.specs.Prelude.{◌≡◌};
    ghost use Rattle.event_loops.specs.declared.fault.PostFault.TheVariants.{Memory};

    ghost from_gives = { λ _ fault. fault ≡ Memory };

    fn from(_: AllocError) -> PostFault {
        PostFault::Memory
    }
}

impl PostFault {
    /// The refusal's number; running out of memory has none.
    pub fn number(self) -> Option<u8>
        ensures { result ≡ post_number self }
    {
        match self {
            PostFault::NoLoop => Some(42),
            PostFault::Memory => None,
        }
    }
}
