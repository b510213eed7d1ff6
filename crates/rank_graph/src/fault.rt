//! Why the nodes of a graph have no ranks.

use sqlite_items::Items;
use std::alloc::AllocError;
use thiserror::Error;

/// Why the nodes of a graph have no ranks.
#[derive(Debug, Drop, Error)]
pub enum Unranked {
    /// These nodes, by number, are a cycle: an edge leads from each to the next. The least of them is at both ends, and
    /// no other one twice.
    #[error("there is a cycle")]
    Cycle(Items<usize>),
    /// A growth of memory was refused.
    #[error("out of memory")]
    Memory,
}

impl From<AllocError> for Unranked {
    ghost use Rattle.std.specs.Prelude.{◌≡◌};
    ghost use Rattle.rank_graph.specs.declared.fault.Unranked.TheVariants.{Memory};

    ghost from_gives = { λ _ fault. fault ≡ Memory };

    fn from(_: AllocError) -> Unranked {
        Unranked::Memory
    }
}
