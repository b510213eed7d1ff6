ghost use Rattle.std.specs.Prelude.{◌≡◌};
ghost use Rattle.native_slots.specs.FaultNumbers.{number_of};

use thiserror::Error;

/// Why closures aren't those that a program declares.
#[derive(Clone, Copy, Debug, PartialEq, Eq, Error)]
pub enum NativeFault {
    /// A native that the program declares has no closure.
    #[error("a native has no closure")]
    NoNative,
    /// A closure's effects aren't those declared, in their order.
    #[error("a closure's effects aren't those declared")]
    EffectsDiffer,
}

impl NativeFault {
    /// The refusal's number.
    pub fn number(self) -> u8
        ensures { result ≡ number_of self }
    {
        match self {
            NativeFault::NoNative => 17,
            NativeFault::EffectsDiffer => 18,
        }
    }
}
