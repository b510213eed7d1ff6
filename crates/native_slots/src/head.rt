ghost use Rattle.std.specs.Prelude.{◌≡◌, ◌↔◌, IsTrue};
ghost use Rattle.native_slots.specs.Heads.{is_for};

use crate::effects::Effects;
use basic_types::{Name, Sig};

/// Which native a closure is for, and the effects that it keeps to.
pub struct NativeHead {
    /// The class that declares the native.
    pub class: Name,
    /// The native's signature there.
    pub sig: Sig,
    /// What it takes, and what it may read and do.
    pub effects: Effects,
}

impl Drop for NativeHead {
    fn drop(self) {
        let NativeHead {
            class: _,
            sig: _,
            effects: _,
        } = self;
    }
}

impl NativeHead {
    /// Whether it is for the native of this class and signature.
    pub fn is_for(&self, class: &Name, sig: &Sig) -> bool
        ensures value { result ≡ is_for class.now sig.now self.now }
        ensures same { IsTrue result ↔ ((self.now.class ≡ class.now) × (self.now.sig ≡ sig.now)) }
    {
        self.class.is_same(class) && self.sig.is_same(sig)
    }
}
