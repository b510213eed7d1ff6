//! Why a graph can't be drawn.

ghost use Rattle.std.specs.Prelude.{◌≡◌, MatchOption};
ghost use Rattle.program_commands.specs.Refusals.{refusal_number};
ghost use Rattle.class_graph.specs.declared.fault.GraphFault.TheVariants.{Refused, Memory};

use program_commands::Refusal;
use std::alloc::AllocError;
use thiserror::Error;

/// Why a program has no graph, or not the part that was asked for.
#[derive(Debug, Drop, Error)]
pub enum GraphFault {
    /// The text can't be read, or the program doesn't load: the number of the refusal.
    #[error("the program is refused")]
    Refused(u8),
    /// The part names a class, or a member of a class, that isn't there, as this sentence says.
    #[error("{0}")]
    Unknown(String),
    /// There are more edges than are drawn.
    #[error("the program has more than 262144 edges")]
    TooLarge,
    /// A growth of memory was refused.
    #[error("out of memory")]
    Memory,
}

impl From<AllocError> for GraphFault {
    ghost use Rattle.std.specs.Prelude.{◌≡◌};
    ghost use Rattle.class_graph.specs.declared.fault.GraphFault.TheVariants.{Memory};

    ghost from_gives = { λ _ fault. fault ≡ Memory };

    fn from(_: AllocError) -> GraphFault {
        GraphFault::Memory
    }
}

/// Why a part of a graph can't be drawn.
#[derive(Debug, Drop)]
pub enum GraphPartFault {
    /// It names a class, or a member of a class, that isn't there, as this sentence says.
    Unknown(String),
    /// There are more edges than are drawn.
    TooLarge,
    /// A growth of memory was refused.
    Memory,
}

impl From<AllocError> for GraphPartFault {
    fn from(_: AllocError) -> GraphPartFault {
        GraphPartFault::Memory
    }
}

/// What refuses a program, by its number; only running out of memory has none.
pub fn refused(refusal: &Refusal) -> GraphFault
    ensures { MatchOption (refusal_number refusal.now) (result ≡ Memory) (λ number. result ≡ Refused number) }
{
    match refusal.number() {
        Some(number) => GraphFault::Refused(number),
        None => GraphFault::Memory,
    }
}
