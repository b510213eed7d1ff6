//! What commands ask of natives.

ghost use Rattle.std.specs.Prelude.{List, OnOk, map};
ghost use Rattle.native_slots.specs.declared.head.NativeHead.{NativeHead};
ghost use Rattle.native_slots.specs.Misfits.{Fits};
ghost use Rattle.native_slots.specs.Promises.{Promises};

use meta_model::Meta;
use native_slots::{Answering, Misfit, Natives};

/// Natives that can be compared with what a program declares.
pub trait FittingNatives: Answering + Drop {
    /// What they are for, in the order in which they were given: the class, the signature and the effects of each.
    ghost heads: { Self → List NativeHead };

    /// Whether they fit the program, as [`Natives::fitting`] says; where they do, they keep what the program may expect of its
    /// natives.
    fn fitting(&self, meta: &Meta) -> Result<(), Misfit>
        ensures exact { Fits (heads self.now) meta.now result }
        ensures promises { OnOk result (Promises meta.now (Self.takes self.now) (Self.gives self.now)) };
}

impl FittingNatives for Natives {
    ghost heads = { λ natives. map (λ slot. slot.head) natives.slots.items };

    fn fitting(&self, meta: &Meta) -> Result<(), Misfit> {
        Natives::fitting(self, meta)
    }
}
