use std::alloc::AllocError;
use thiserror::Error;

/// Why no object is created.
#[derive(Clone, Copy, Debug, Error, PartialEq, Eq)]
pub enum CreateFault {
    /// The name was ever used.
    #[error("the object's name was ever used")]
    NameUsed,
    /// There is no class of this name.
    #[error("no such class")]
    NoClass,
    /// As many objects as may be were created.
    #[error("too many objects were created")]
    TooMany,
    /// A property's initial value isn't of the property's type.
    #[error("an initial value isn't of its property's type")]
    BadType,
    /// A growth of memory was refused.
    #[error("out of memory")]
    Memory,
}

impl From<AllocError> for CreateFault {
    ghost use Rattle.std.specs.Prelude.{◌≡◌};
    ghost use Rattle.object_tree.specs.declared.fault.CreateFault.TheVariants.{Memory};

    ghost from_gives = { λ _ fault. fault ≡ Memory };

    fn from(_: AllocError) -> CreateFault {
        CreateFault::Memory
    }
}

/// Why an object doesn't get a parent.
#[derive(Clone, Copy, Debug, Error, PartialEq, Eq)]
pub enum AdoptFault {
    /// No declaration lets an object of the parent's class own one of the child's.
    #[error("no `owns` covers parent and child")]
    NotOwned,
    /// The child is the parent or one of its ancestors.
    #[error("the child is the parent or one of its ancestors")]
    Cycle,
    /// The two live in different loops.
    #[error("the objects live in different loops")]
    OtherLoop,
    /// A growth of memory was refused.
    #[error("out of memory")]
    Memory,
}

impl From<AllocError> for AdoptFault {
    ghost use Rattle.std.specs.Prelude.{◌≡◌};
    ghost use Rattle.object_tree.specs.declared.fault.AdoptFault.TheVariants.{Memory};

    ghost from_gives = { λ _ fault. fault ≡ Memory };

    fn from(_: AllocError) -> AdoptFault {
        AdoptFault::Memory
    }
}
