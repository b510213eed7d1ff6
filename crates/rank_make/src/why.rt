//! Why no certificate is valid for a program.

use effect_scan::Node;
use sqlite_items::Items;
use std::alloc::AllocError;
use thiserror::Error;
use type_check::Spot;

/// The first reason why no certificate is valid for a program, or that memory was refused.
#[derive(Debug, Drop, Error)]
pub enum Why {
    /// The place, from 0, of the first wire whose method doesn't fit its signal.
    #[error("a wire's method doesn't fit its signal")]
    Wire(usize),
    /// The first node that isn't typed, by the order of nodes, else the first such binding.
    #[error("a literal, a body or a binding isn't typed")]
    BodyType(Spot),
    /// The nodes of a cycle of edges, from its first one in the order of nodes back to it: that one is at both ends,
    /// and no other one twice.
    #[error("members lead back to themselves")]
    Cycle(Items<Node>),
    /// The nodes of a path along edges from a slot or native of a class C to a `~X` whose closure holds C, none of them
    /// twice.
    #[error("a slot or native may destroy its own object")]
    DestroyPath(Items<Node>),
    /// A chain of 257 nodes along edges, none of them twice.
    #[error("a chain is longer than any bound")]
    TooHigh(Items<Node>),
    /// A growth of memory was refused.
    #[error("out of memory")]
    Memory,
}

impl From<AllocError> for Why {
    ghost use Rattle.std.specs.Prelude.{◌≡◌};
    ghost use Rattle.rank_make.specs.declared.why.Why.TheVariants.{Memory};

    ghost from_gives = { λ _ why. why ≡ Memory };

    fn from(_: AllocError) -> Why {
        Why::Memory
    }
}
