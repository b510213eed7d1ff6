ghost use Rattle.std.specs.Prelude.{◌≡◌};
ghost use Rattle.class_outlines.specs.FaultNumbers.{number_of};

use crate::offence::LoadFault;
use std::alloc::AllocError;
use thiserror::Error;

/// Why a program doesn't load.
#[derive(Debug, Drop, Error)]
pub enum MetaFault {
    /// A class's name appears twice, or is one that no class may have.
    #[error("a class name stands twice, or no class may have it")]
    DuplicateClass,
    /// A class's base is neither `QObject` nor a class that stands before it.
    #[error("a base doesn't stand before its class")]
    NoBase,
    /// Two methods of one name and number of parameters or two properties of one name in a class and its bases, or two
    /// parameters of one name in a method.
    #[error("a member or a parameter stands twice")]
    DuplicateMember,
    /// A class, a member or a parameter that is used isn't there.
    #[error("a name that is used isn't there")]
    NoMember,
    /// A property's notify signature isn't a signal of its class that has no parameter or one of the property's type.
    #[error("a notify signature isn't a signal that fits")]
    BadNotify,
    /// The type of a property or a parameter isn't one.
    #[error("a type isn't there")]
    NoType,
    /// A growth of memory was refused.
    #[error("out of memory")]
    Memory,
}

impl From<AllocError> for MetaFault {
    ghost use Rattle.std.specs.Prelude.{◌≡◌};
    ghost use Rattle.class_outlines.specs.declared.fault.MetaFault.TheVariants.{Memory};

    ghost from_gives = { λ _ fault. fault ≡ Memory };

    fn from(_: AllocError) -> MetaFault {
        MetaFault::Memory
    }
}

impl From<LoadFault> for MetaFault {
    ghost use Rattle.std.specs.Prelude.{◌≡◌};
    ghost use Rattle.class_outlines.specs.Offences.{fault_told};

    ghost from_gives = { λ load fault. fault ≡ fault_told load };

    fn from(fault: LoadFault) -> MetaFault {
        fault.fault()
    }
}

impl MetaFault {
    /// The refusal's number; running out of memory has none.
    pub fn number(&self) -> Option<u8>
        ensures { result ≡ number_of self.now }
    {
        match self {
            MetaFault::DuplicateClass => Some(10),
            MetaFault::NoBase => Some(11),
            MetaFault::DuplicateMember => Some(12),
            MetaFault::NoMember => Some(13),
            MetaFault::BadNotify => Some(14),
            MetaFault::NoType => Some(15),
            MetaFault::Memory => None,
        }
    }
}
