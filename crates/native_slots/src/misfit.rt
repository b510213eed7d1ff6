//! Which native of a program has no closure that fits it, and why.

ghost use Rattle.std.specs.Prelude.{◌≡◌};
ghost use Rattle.native_slots.specs.Misfits.{fault_of, place_of};
ghost use Rattle.native_slots.specs.code.Joining.{first_of};

use crate::fault::NativeFault;
use thiserror::Error;

/// A native of a program: the number of the class that declares it, and its own number among that class's methods.
#[derive(Clone, Copy, Debug, PartialEq, Eq)]
pub struct NativePlace {
    /// The class.
    pub class: usize,
    /// The method.
    pub method: usize,
}

/// The first of a native's lists in which the effects of a closure aren't those declared.
#[derive(Clone, Copy, Debug, PartialEq, Eq)]
pub enum Difference {
    /// The types of the parameters.
    Parameters,
    /// What it reads.
    Reads,
    /// What it emits.
    Emits,
    /// What it sets.
    Sets,
}

/// Why closures aren't those that a program declares, and of which native: the first one, in the order of the classes and
/// of their methods, of those that are refused under this number.
#[derive(Clone, Copy, Debug, PartialEq, Eq, Error)]
pub enum Misfit {
    /// This native has no closure.
    #[error("a native has no closure")]
    NoNative(NativePlace),
    /// The effects of this native's closure aren't those declared, in this list.
    #[error("a closure's effects aren't those declared")]
    EffectsDiffer(NativePlace, Difference),
}

impl Misfit {
    /// The native that it is about.
    pub fn place(self) -> NativePlace
        ensures { result ≡ place_of self }
    {
        match self {
            Misfit::NoNative(place) => place,
            Misfit::EffectsDiffer(place, _) => place,
        }
    }

    /// The refusal that it is.
    pub fn fault(self) -> NativeFault
        ensures { result ≡ fault_of self }
    {
        match self {
            Misfit::NoNative(_) => NativeFault::NoNative,
            Misfit::EffectsDiffer(_, _) => NativeFault::EffectsDiffer,
        }
    }
}

impl From<Misfit> for NativeFault {
    ghost use Rattle.std.specs.Prelude.{◌≡◌};
    ghost use Rattle.native_slots.specs.Misfits.{fault_of};

    ghost from_gives = { λ misfit fault. fault ≡ fault_of misfit };

    fn from(misfit: Misfit) -> NativeFault {
        misfit.fault()
    }
}

/// Of the answers for some natives and for others behind them the one of the lower number, and of two with one number the
/// first.
pub fn first_of(one: Result<(), Misfit>, other: Result<(), Misfit>) -> Result<(), Misfit>
    ensures { result ≡ first_of one other }
{
    match (one, other) {
        (Ok(()), _) => other,
        (Err(Misfit::NoNative(place)), _) => Err(Misfit::NoNative(place)),
        (Err(Misfit::EffectsDiffer(place, list)), Ok(())) => {
            Err(Misfit::EffectsDiffer(place, list))
        }
        (Err(Misfit::EffectsDiffer(_, _)), Err(Misfit::NoNative(place))) => {
            Err(Misfit::NoNative(place))
        }
        (Err(Misfit::EffectsDiffer(place, list)), Err(Misfit::EffectsDiffer(_, _))) => {
            Err(Misfit::EffectsDiffer(place, list))
        }
    }
}
