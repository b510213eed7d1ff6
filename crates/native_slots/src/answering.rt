//! What a machine asks of natives.

ghost use Rattle.std.specs.Prelude.{ℕ, List, Bool, IsTrue, IfOk};
ghost use Rattle.basic_types.specs.declared.sig.Sig.{Sig as ASig};
ghost use Rattle.basic_types.specs.declared.value.Value.{Value as AValue};
ghost use Rattle.native_slots.specs.declared.action.Action.{Action as AnAction};

use crate::action::Action;
use basic_types::{Name, Sig, Value};
use std::alloc::AllocError;

/// What answers the calls of natives. A native is named by the class that declares it, and its signature there.
pub trait Answering {
    /// Whether the native may be called on these arguments, with these present values of the properties that it reads.
    ghost takes: { Self → List ℕ → ASig → List AValue → List AValue → Bool };

    /// Which lists of actions such a call may answer.
    ghost gives: { Self → List ℕ → ASig → List AValue → List AValue → List AnAction → Type 0 };

    /// What the native of this class and signature asks for, when it is called with these arguments while the properties
    /// that it reads have these values. The error is that the native answered so, or that it was refused memory.
    fn answer(
        &self,
        class: &Name,
        sig: &Sig,
        arguments: &[Value],
        reads: &[Value],
    ) -> Result<Vec<Action>, AllocError>
        requires { IsTrue (takes self.now class.now sig.now arguments.now reads.now) }
        ensures { IfOk result (λ actions.
            gives self.now class.now sig.now arguments.now reads.now actions.items) };
}
