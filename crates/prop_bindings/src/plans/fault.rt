ghost use Rattle.std.specs.Prelude.{◌≡◌};
ghost use Rattle.prop_bindings.specs.FaultNumbers.{refusal_number};

use expressions::EvalFault;
use std::alloc::AllocError;
use thiserror::Error;

/// Why no binding is installed.
#[derive(Clone, Copy, Debug, Error, PartialEq, Eq)]
pub enum BindFault {
    /// There is no such site, it has another number of sources, or it doesn't cover the objects' classes.
    #[error("no binding site covers target and sources")]
    BadSource,
    /// A source lives in another event loop than the target.
    #[error("target and sources live in different event loops")]
    OtherLoop,
    /// The expression has no value of the target's type.
    #[error("the expression has no value of the target's type")]
    BadType,
    /// A chain of bindings would lead from a property back to itself.
    #[error("a chain of bindings would close")]
    BindingLoop,
    /// A growth of memory was refused.
    #[error("out of memory")]
    Memory,
}

impl From<AllocError> for BindFault {
    ghost use Rattle.std.specs.Prelude.{◌≡◌};
    ghost use Rattle.prop_bindings.specs.declared.plans.fault.BindFault.TheVariants.{Memory};

    ghost from_gives = { λ _ fault. fault ≡ Memory };

    fn from(_: AllocError) -> BindFault {
        BindFault::Memory
    }
}

impl BindFault {
    /// The refusal's number; the others are faults of a run.
    pub fn number(self) -> Option<u8>
        ensures { result ≡ refusal_number self }
    {
        match self {
            BindFault::BadSource => Some(44),
            BindFault::OtherLoop => Some(36),
            BindFault::BadType | BindFault::BindingLoop | BindFault::Memory => None,
        }
    }
}

/// Why no value is written.
#[derive(Clone, Copy, Debug, Error, PartialEq, Eq)]
pub enum WriteFault {
    /// The value isn't of the property's type.
    #[error("the value isn't of the property's type")]
    BadType,
    /// A growth of memory was refused.
    #[error("out of memory")]
    Memory,
}

impl From<AllocError> for WriteFault {
    ghost use Rattle.std.specs.Prelude.{◌≡◌};
    ghost use Rattle.prop_bindings.specs.declared.plans.fault.WriteFault.TheVariants.{Memory};

    ghost from_gives = { λ _ fault. fault ≡ Memory };

    fn from(_: AllocError) -> WriteFault {
        WriteFault::Memory
    }
}

impl From<EvalFault> for BindFault {
    ghost use Rattle.expressions.specs.declared.evaluation.EvalFault.{EvalFault};
    ghost use Rattle.prop_bindings.specs.FaultNumbers.{fault_of};
    ghost use Rattle.std.specs.Prelude.{◌≡◌};

    ghost from_gives = { λ given fault. fault ≡ fault_of given };

    fn from(fault: EvalFault) -> BindFault {
        match fault {
            EvalFault::BadType => BindFault::BadType,
            EvalFault::Memory => BindFault::Memory,
        }
    }
}
