//! A closure beside what it promises.

ghost use Rattle.std.specs.Prelude.{◌≡◌, IsTrue, IfOk};
ghost use Rattle.std.specs.Fn.{FnReturnsAtPair};
ghost use Rattle.std.proofs.Props.{props};
ghost use Rattle.native_slots.specs.Effects.{accepts, are_within};

use crate::action::Action;
use crate::effects::Effects;
use crate::head::NativeHead;
use basic_types::{Name, Sig, Value};
use std::alloc::AllocError;

/// What a native does: from its arguments, and the present values of the properties that it reads, it tells what it asks
/// for.
pub type Work = Box<dyn Fn(&[Value], &[Value]) -> Result<Vec<Action>, AllocError>>;

/// A closure for a native, with its promise: it may be called on all arguments and read values of the declared types, and
/// each list of actions that it answers lies within its effects.
pub struct NativeSlot {
    /// Which native it is for, and its effects.
    pub head: NativeHead,
    work: Work,
    pub ghost callable: { (arguments reads : _)
        → IsTrue (accepts head.effects arguments.now reads.now) → Work.pre work arguments reads },
    pub ghost within: { (arguments reads outcome : _)
        → IsTrue (accepts head.effects arguments.now reads.now)
        → Work.post work arguments reads outcome
        → IfOk outcome
        (λ actions. IsTrue (are_within head.effects actions.items)) } by { Prim.hlevel props },
}

impl Drop for NativeSlot {
    fn drop(self) {
        let NativeSlot { head: _, work: _ } = self;
    }
}

impl NativeSlot {
    /// The closure for the native of this class and signature. Whoever makes it shows its promise: on arguments and read
    /// values of the types that its effects declare it may be called, and a list that it answers has at most 64 actions,
    /// each an emission of a signal of its effects with arguments of that signal's types, or a write of a property of
    /// its effects with a value of that property's type.
    pub fn new(class: Name, sig: Sig, effects: Effects, work: Work) -> NativeSlot
        requires callable { (arguments reads : _)
            → IsTrue (accepts effects arguments.now reads.now) → Work.pre work arguments reads }
        requires within { (arguments reads outcome : _)
            → IsTrue (accepts effects arguments.now reads.now)
            → Work.post work arguments reads outcome
            → IfOk outcome (λ actions. IsTrue (are_within effects actions.items)) }
        ensures head { result.head ≡ record { class = class; sig = sig; effects = effects } }
        ensures work { result.work ≡ work }
    {
        let head = NativeHead {
            class,
            sig,
            effects,
        };
        NativeSlot { head, work }
    }

    /// What the closure answers; the error is its own, or that memory ran out.
    pub fn call(&self, arguments: &[Value], reads: &[Value]) -> Result<Vec<Action>, AllocError>
        requires { IsTrue (accepts self.now.head.effects arguments.now reads.now) }
        ensures answers { FnReturnsAtPair Work.Fn self.now.work arguments.now reads.now result }
        ensures within { IfOk result
            (λ actions. IsTrue (are_within self.now.head.effects actions.items)) }
    {
        (self.work)(arguments, reads)
    }
}
