ghost use Rattle.std.specs.Prelude.{◌≡◌};
ghost use Rattle.trace_entries.specs.Faults.{number_of};

use expressions::EvalFault;
use std::alloc::AllocError;
use thiserror::Error;

/// What became of an event.
#[derive(Clone, Copy, Debug, PartialEq, Eq)]
pub enum Answer {
    /// It was accepted, and the run went on until nothing was active.
    Done,
    /// It was refused for the reason of this number, and only its line was written.
    Refused(u8),
}

/// Why a run stops.
#[derive(Clone, Copy, Debug, Error, PartialEq, Eq)]
pub enum Fault {
    /// A value isn't of the type that an operator, a statement, a property or a method asks.
    #[error("a value isn't of the type that is asked")]
    BadType,
    /// The stack of activations would pass the depth.
    #[error("activations nest too deep")]
    TooDeep,
    /// A chain of bindings would lead from a property back to itself.
    #[error("a chain of bindings would close")]
    BindingLoop,
    /// An object would die while a body of it is active.
    #[error("an object would die while a body of it is active")]
    InUse,
    /// The limit of rules is used up, and another rule is due.
    #[error("the limit of rules is used up")]
    Steps,
    /// A growth of memory was refused.
    #[error("out of memory")]
    Memory,
    /// A fault came before.
    #[error("the machine has stopped")]
    Stopped,
}

impl Fault {
    /// The fault's number.
    pub fn number(self) -> u8
        ensures { result ≡ number_of self }
    {
        match self {
            Fault::BadType => 60,
            Fault::TooDeep => 61,
            Fault::BindingLoop => 62,
            Fault::InUse => 63,
            Fault::Steps => 64,
            Fault::Memory => 65,
            Fault::Stopped => 66,
        }
    }
}

impl From<AllocError> for Fault {
    ghost use Rattle.std.specs.Prelude.{◌≡◌};
    ghost use Rattle.trace_entries.specs.declared.fault.Fault.TheVariants.{Memory};

    ghost from_gives = { λ _ fault. fault ≡ Memory };

    fn from(_: AllocError) -> Fault {
        Fault::Memory
    }
}

impl From<EvalFault> for Fault {
    ghost use Rattle.trace_entries.specs.Faults.{IsFaultOf};

    ghost from_gives = { λ found fault. IsFaultOf found fault };

    fn from(fault: EvalFault) -> Fault {
        match fault {
            EvalFault::BadType => Fault::BadType,
            EvalFault::Memory => Fault::Memory,
        }
    }
}
