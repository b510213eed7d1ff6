//! Why objects don't move to another event loop.

ghost use Rattle.std.specs.Prelude.{◌≡◌};
ghost use Rattle.delete_later.specs.FaultNumbers.{move_number};

use event_loops::PostFault;
use std::alloc::AllocError;
use thiserror::Error;

/// Why an object and what is below it don't move to another event loop.
#[derive(Clone, Copy, Debug, Error, PartialEq, Eq)]
pub enum MoveFault {
    /// There is no such loop.
    #[error("no such loop")]
    NoLoop,
    /// The object has a parent, which may be dead.
    #[error("the object has a parent")]
    HasParent,
    /// A binding would join objects of two loops.
    #[error("a binding would join objects of two loops")]
    Bound,
    /// A growth of memory was refused.
    #[error("out of memory")]
    Memory,
}

impl From<AllocError> for MoveFault {
    ghost use Rattle.std.specs.Prelude.{◌≡◌};
    ghost use Rattle.delete_later.specs.declared.fault.MoveFault.TheVariants.{Memory};

    ghost from_gives = { λ _ fault. fault ≡ Memory };

    fn from(_: AllocError) -> MoveFault {
        MoveFault::Memory
    }
}

impl From<PostFault> for MoveFault {
    ghost use Rattle.std.specs.Prelude.{◌≡◌};
    ghost use Rattle.delete_later.specs.FaultNumbers.{fault_of};

    ghost from_gives = { λ fault moved. moved ≡ fault_of fault };

    fn from(fault: PostFault) -> MoveFault {
        match fault {
            PostFault::NoLoop => MoveFault::NoLoop,
            PostFault::Memory => MoveFault::Memory,
        }
    }
}

impl MoveFault {
    /// The refusal's number; running out of memory has none.
    pub fn number(self) -> Option<u8>
        ensures { result ≡ move_number self }
    {
        match self {
            MoveFault::NoLoop => Some(42),
            MoveFault::HasParent => Some(48),
            MoveFault::Bound => Some(49),
            MoveFault::Memory => None,
        }
    }
}
