//! Why a certificate isn't valid for a program.

ghost use Rattle.std.specs.Prelude.{◌≡◌};
ghost use Rattle.rank_check.specs.Checks.{number_of};

use std::alloc::AllocError;
use thiserror::Error;

/// The first condition of a valid certificate that doesn't hold.
#[derive(Debug, Drop, Error)]
pub enum No {
    /// The method of a wire doesn't fit its signal.
    #[error("a wire's method doesn't fit its signal")]
    Wire,
    /// A literal, a body or a binding isn't typed.
    #[error("a literal, a body or a binding isn't typed")]
    BodyType,
    /// A node has no line.
    #[error("a node has no line")]
    Missing,
    /// A line is for something that isn't a node, or for the node of another line, or a class in its set isn't there.
    #[error("a line or a class of a set is out of place")]
    Extra,
    /// A rank doesn't fall along an edge.
    #[error("a rank doesn't fall along an edge")]
    Edge,
    /// A set lacks a class of the set at the end of an edge or of its closure, or that of a slot of C holds C.
    #[error("a set lacks a class, or holds the class of its slot")]
    Destroys,
    /// A rank isn't below the bound, or the bound is over 256.
    #[error("a rank isn't below the bound, or the bound is too great")]
    Bound,
    /// A growth of memory was refused.
    #[error("out of memory")]
    Memory,
}

impl From<AllocError> for No {
    ghost use Rattle.std.specs.Prelude.{◌≡◌};
    ghost use Rattle.rank_check.specs.declared.no.No.TheVariants.{Memory};

    ghost from_gives = { λ _ no. no ≡ Memory };

    fn from(_: AllocError) -> No {
        No::Memory
    }
}

impl No {
    /// The number of the no; running out of memory has none.
    pub fn number(&self) -> Option<u8>
        ensures { result ≡ number_of self.now }
    {
        match self {
            No::Wire => Some(70),
            No::BodyType => Some(71),
            No::Missing => Some(72),
            No::Extra => Some(73),
            No::Edge => Some(74),
            No::Destroys => Some(75),
            No::Bound => Some(76),
            No::Memory => None,
        }
    }
}
