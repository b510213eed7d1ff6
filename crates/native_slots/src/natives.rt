//! The closures that a caller hands in.

use crate::action::Action;
use crate::answering::Answering;
use crate::fault::NativeFault;
use crate::fitting::difference;
use crate::head::NativeHead;
use crate::misfit::{Misfit, NativePlace, first_of};
use crate::native_slot::{NativeSlot, Work};
use basic_types::{Name, Sig, Value};
use meta_model::{Meta, MetaMethod, MetaObject, Work as MethodWork};
use std::alloc::AllocError;

/// Closures for natives, in the order in which they were given. Of two for one native the first counts, and one for what
/// isn't declared as a native in that very class is never called.
pub struct Natives {
    /// The closures in their order.
    pub slots: Vec<NativeSlot>,
}

impl Drop for Natives {
    fn drop(self) {
        let Natives { slots: _ } = self;
    }
}

impl Natives {
    ghost use Rattle.std.specs.Prelude.{◌≡◌, ◌<◌, IsTrue, IfOk, length, map, position, slice_get, Some, OnOk};
    ghost use Rattle.std.specs.Fn.{FnReturnsAtPair};
    ghost use Rattle.std.specs.Option.{option_copied};
    ghost use Rattle.native_slots.specs.Answers.{takes_any, MayAnswer};
    ghost use Rattle.native_slots.specs.Effects.{accepts, are_within};
    ghost use Rattle.native_slots.specs.Fitting.{Fit};
    ghost use Rattle.native_slots.specs.Misfits.{FitsAmong, Fits};
    ghost use Rattle.native_slots.specs.code.Joining.{IsNativeFrom, IsThis};
    ghost use Rattle.native_slots.specs.Heads.{is_for, first_for};
    ghost use Rattle.native_slots.specs.Promises.{Promises};

    /// These closures.
    pub fn of(slots: Vec<NativeSlot>) -> Natives
        ensures { result.slots ≡ slots }
    {
        Natives { slots }
    }

    /// Whether each native that the program declares has a closure that keeps to the effects declared: their parameter
    /// types, the names and types of what they read and set and the names and parameter types of what they emit, each
    /// list in its order. `NoNative`, where a native has no closure; else `EffectsDiffer`, where a native's first closure
    /// keeps to other effects.
    pub fn fits(&self, meta: &Meta) -> Result<(), NativeFault>
        ensures exact { Fit (map (λ slot. slot.head) self.now.slots.items) meta.now result }
        // Where they fit, they keep what the program may expect of its natives.
        ensures promises { OnOk result (Promises meta.now
            (λ class sig arguments reads.
            takes_any (map (λ slot. slot.head) self.now.slots.items) class sig arguments reads)
            (λ class sig arguments reads actions.
            MayAnswer (λ slot. slot.head) (λ slot. FnReturnsAtPair Work.Fn slot.work)
            self.now.slots.items class sig arguments reads actions)) }
    {
        self.fitting(meta)?;
        Ok(())
    }

    /// The same, where a refusal says which native leads to it: the first one of those that have no closure, or else of
    /// those whose first closure keeps to other effects, in the order of the classes and of their methods; and which list
    /// is the first that differs.
    pub fn fitting(&self, meta: &Meta) -> Result<(), Misfit>
        ensures exact { Fits (map (λ slot. slot.head) self.now.slots.items) meta.now result }
        ensures promises { OnOk result (Promises meta.now
            (λ class sig arguments reads.
            takes_any (map (λ slot. slot.head) self.now.slots.items) class sig arguments reads)
            (λ class sig arguments reads actions.
            MayAnswer (λ slot. slot.head) (λ slot. FnReturnsAtPair Work.Fn slot.work)
            self.now.slots.items class sig arguments reads actions)) }
    {
        let mut answer = Ok(());
        let classes = meta.classes();
        for number in 0..classes.len() {
            let inherited = meta.method_offset(number);
            let of_class = self.class_fits(number, &classes[number], inherited);
            answer = first_of(answer, of_class);
        }
        answer
    }

    /// The same of the natives of the class of this number from this method on.
    fn class_fits(&self, number: usize, class: &MetaObject, first: usize) -> Result<(), Misfit>
        ensures { FitsAmong (map (λ slot. slot.head) self.now.slots.items)
            (IsNativeFrom number class.now first) result }
    {
        let methods = class.methods.as_slice();
        let mut answer = Ok(());
        for method in first..methods.len() {
            let place = NativePlace {
                class: number,
                method,
            };
            answer = first_of(
                answer,
                self.method_fits(place, class, methods[method].get()),
            );
        }
        answer
    }

    /// The same of the one method of this place, of this class.
    fn method_fits(
        &self,
        place: NativePlace,
        class: &MetaObject,
        method: &MetaMethod,
    ) -> Result<(), Misfit>
        ensures { FitsAmong (map (λ slot. slot.head) self.now.slots.items)
            (IsThis place class.now method.now) result }
    {
        let MethodWork::Native(declared) = &method.work else {
            return Ok(());
        };
        match self.head_for(&class.name, &method.sig) {
            None => Err(Misfit::NoNative(place)),
            Some(head) => match difference(class, method, declared, &head.effects) {
                Some(list) => Err(Misfit::EffectsDiffer(place, list)),
                None => Ok(()),
            },
        }
    }

    /// What the first closure for the native of this class and signature is for, or `None` where there is none.
    fn head_for(&self, class: &Name, sig: &Sig) -> Option<&NativeHead>
        ensures { option_copied result ≡
            first_for class.now sig.now (map (λ slot. slot.head) self.now.slots.items) }
    {
        match self.find(class, sig) {
            Some(place) => Some(&self.slots[place].head),
            None => None,
        }
    }

    /// The place of the first closure for the native of this class and signature, or `None` where there is none.
    pub fn find(&self, class: &Name, sig: &Sig) -> Option<usize>
        ensures { result ≡
            position (λ slot. is_for class.now sig.now slot.head) self.now.slots.items }
    {
        let slots = self.slots.as_slice();
        for place in 0..slots.len() {
            if slots[place].head.is_for(class, sig) {
                return Some(place);
            }
        }
        None
    }

    /// What the closure at this place answers; the error is its own, or that memory ran out.
    pub fn call(
        &self,
        place: usize,
        arguments: &[Value],
        reads: &[Value],
    ) -> Result<Vec<Action>, AllocError>
        requires there { place < length self.now.slots.items }
        requires accepted { (slot : _) → slice_get self.now.slots.items place ≡ Some slot
            → IsTrue (accepts slot.head.effects arguments.now reads.now) }
        ensures answers { (slot : _) → slice_get self.now.slots.items place ≡ Some slot
            → FnReturnsAtPair Work.Fn slot.work arguments.now reads.now result }
        ensures within { (slot : _) → slice_get self.now.slots.items place ≡ Some slot
            → IfOk result (λ actions. IsTrue (are_within slot.head.effects actions.items)) }
    {
        self.slots[place].call(arguments, reads)
    }
}

impl Answering for Natives {
    ghost use Rattle.std.specs.Prelude.{map};
    ghost use Rattle.std.specs.Fn.{FnReturnsAtPair};
    ghost use Rattle.native_slots.specs.Answers.{takes_any, MayAnswer};

    ghost takes = { λ natives class sig arguments reads.
        takes_any (map (λ slot. slot.head) natives.slots.items) class sig arguments reads };

    ghost gives = { λ natives class sig arguments reads actions.
        MayAnswer (λ slot. slot.head) (λ slot. FnReturnsAtPair Work.Fn slot.work)
        natives.slots.items class sig arguments reads actions };

    fn answer(
        &self,
        class: &Name,
        sig: &Sig,
        arguments: &[Value],
        reads: &[Value],
    ) -> Result<Vec<Action>, AllocError> {
        match self.find(class, sig) {
            Some(place) => self.call(place, arguments, reads),
            None => unreachable!(),
        }
    }
}
