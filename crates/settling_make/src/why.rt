//! Why no settling certificate was made for a program.

use crate::circles::Circle;
use effect_scan::Node;
use rank_check::Spot;
use std::alloc::AllocError;
use thiserror::Error;

/// Why no settling certificate was made for a program.
#[derive(Debug, Drop, Error)]
pub enum Why {
    /// The place, from 0, of the first wire whose method doesn't fit its signal.
    #[error("a wire's method doesn't fit its signal")]
    Wire(usize),
    /// The first node that isn't typed, by the order of nodes, else the first such binding.
    #[error("a literal, a body or a binding isn't typed")]
    BodyType(Spot),
    /// A circle that doesn't settle.
    #[error("a circle doesn't settle")]
    Circling(Circle),
    /// A slot or native of a class C from which edges lead to a `~X` whose closure holds C.
    #[error("a slot or native may destroy its own object")]
    Ending(Node),
    /// A node from which a chain of 256 edges or more leads along circles, none of them into a property.
    #[error("a chain along circles is longer than any bound")]
    TooLong(Node),
    /// With the sets that would be made, a rank isn't below the greatest bound.
    #[error("a rank isn't below the greatest bound")]
    TooHigh,
    /// With the sets that would be made, a step is greater than a number of a certificate's text may be.
    #[error("a step is greater than a certificate may hold")]
    TooSteep,
    /// A growth of memory was refused.
    #[error("out of memory")]
    Memory,
}

impl From<AllocError> for Why {
    ghost use Rattle.std.specs.Prelude.{◌≡◌};
    ghost use Rattle.settling_make.specs.declared.why.Why.TheVariants.{Memory};

    ghost from_gives = { λ _ why. why ≡ Memory };

    fn from(_: AllocError) -> Why {
        Why::Memory
    }
}
