//! Why a text is no signature.

ghost use Rattle.std.specs.Prelude.{◌≡◌};
ghost use Rattle.signatures.specs.Normalising.{number_of};

use std::alloc::AllocError;
use thiserror::Error;

/// Why a text is no signature.
#[derive(Debug, Drop, Error)]
pub enum SigFault {
    /// It isn't a name and a list in brackets, or has a byte that no signature has.
    #[error("the text isn't a name and a list in brackets")]
    BadName,
    /// A piece of the list isn't a type.
    #[error("a parameter isn't a type")]
    BadType,
    /// There are more than 8 parameters.
    #[error("more than 8 parameters")]
    TooMany,
    /// A growth of memory was refused.
    #[error("out of memory")]
    Memory,
}

impl From<AllocError> for SigFault {
    ghost use Rattle.std.specs.Prelude.{◌≡◌};
    ghost use Rattle.signatures.specs.declared.fault.SigFault.TheVariants.{Memory};

    ghost from_gives = { λ _ fault. fault ≡ Memory };

    fn from(_: AllocError) -> SigFault {
        SigFault::Memory
    }
}

impl SigFault {
    /// The refusal's number; running out of memory has none.
    pub fn number(&self) -> Option<u8>
        ensures { result ≡ number_of self.now }
    {
        match self {
            SigFault::BadName => Some(1),
            SigFault::BadType => Some(2),
            SigFault::TooMany => Some(3),
            SigFault::Memory => None,
        }
    }
}
