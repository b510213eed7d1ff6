//! Why an event isn't accepted.

use std::alloc::AllocError;
use trace_entries::Refusal;

/// Why an event isn't accepted.
#[derive(Clone, Copy, Debug, PartialEq, Eq)]
pub enum NotAccepted {
    /// It is refused.
    Refused(Refusal),
    /// A growth of memory was refused.
    Memory,
}

impl From<AllocError> for NotAccepted {
    ghost use Rattle.std.specs.Prelude.{◌≡◌};
    ghost use Rattle.object_machine.specs.declared.not_accepted.NotAccepted.TheVariants.{Memory};

    ghost from_gives = { λ _ reason. reason ≡ Memory };

    fn from(_: AllocError) -> NotAccepted {
        NotAccepted::Memory
    }
}

impl From<Refusal> for NotAccepted {
    ghost use Rattle.std.specs.Prelude.{◌≡◌};
    ghost use Rattle.object_machine.specs.declared.not_accepted.NotAccepted.TheVariants.{Refused};

    ghost from_gives = { λ refusal reason. reason ≡ Refused refusal };

    fn from(refusal: Refusal) -> NotAccepted {
        NotAccepted::Refused(refusal)
    }
}
