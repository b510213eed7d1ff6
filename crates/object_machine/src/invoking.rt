//! `emit` and `call`: which method begins, and what it is given.

ghost use Rattle.std.specs.Prelude.{◌↔◌, [], Ok, length, IfOk, IfErr, IsTrue, MatchOption};
ghost use Rattle.machine_state.specs.Worlds.{at};
ghost use Rattle.machine_rules.specs.Good.{ArgumentsFit};
ghost use Rattle.machine_rules.specs.Judgement.{NothingIs, numbered};
ghost use Rattle.object_machine.specs.code.Judgement.{IsNotAccepted};
ghost use Rattle.object_machine.specs.code.Accepted.{AsksFor, invoking};
ghost use Rattle.object_machine.specs.Events.{invoke, May, IsAskedOf};

use crate::ends::is_signal;
use crate::named::find_living;
use crate::not_accepted::NotAccepted;
use crate::values::read_inputs;
use basic_types::{Arguments, Name, ObjectId};
use machine_state::World;
use meta_model::{Meta, MetaMethod, OBJECT_NAME_CHANGED};
use run_context::RunContext;
use script_lang::Input;
use trace_entries::Refusal;

/// What an event asks of a method.
#[derive(Clone, Copy, Debug, PartialEq, Eq)]
pub enum Invocation {
    /// That the signal is emitted.
    Emit,
    /// That the slot is called.
    Call,
}

impl Invocation {
    /// Whether an event may ask this of the method of this number. `QObject`'s own signals come first.
    fn may(self, number: usize, method: &MetaMethod) -> bool
        ensures { IsTrue result ↔ May self number method.now }
    {
        match self {
            Invocation::Emit => number > OBJECT_NAME_CHANGED && is_signal(method),
            Invocation::Call => !is_signal(method),
        }
    }
}

/// The numbers of an object and of its method, and the values that it is given.
#[derive(Drop)]
pub struct Invoked {
    /// The object.
    pub object: ObjectId,
    /// The number of its method.
    pub method: usize,
    /// The values, one for each parameter.
    pub values: Arguments,
}

/// What the event begins, or why it isn't accepted.
pub fn judge_invocation(
    context: &RunContext,
    world: &World,
    invocation: Invocation,
    name: &Name,
    called: &Name,
    inputs: &[Input],
) -> Result<Invoked, NotAccepted>
    ensures accepted { IfOk result (λ i. AsksFor context.now.meta world.now
        i.object i.method i.values (invoking invocation name.now called.now inputs.now)) }
    ensures fits { IfOk result (λ i. ArgumentsFit context.now.meta world.now.store.tree
        i.object i.method i.values) }
    ensures refused { IfErr result (IsNotAccepted
        (invoke context.now.meta (at world.now [])
        invocation name.now called.now inputs.now)) }
{
    let (object, life) = find_living(world, name)?;
    let Some((method, declared)) = method_of(
        &context.meta,
        life.class,
        invocation,
        called,
        inputs.len(),
    ) else {
        return Err(NotAccepted::Refused(Refusal::NoMember));
    };
    let values = read_inputs(context.alloc, world, inputs)?;
    if world.store.tree.have_types(&context.meta, values.as_slice(), declared.types.as_slice()) {
        Ok(Invoked {
            object: ObjectId::new(object),
            method,
            values,
        })
    } else {
        Err(NotAccepted::Refused(Refusal::BadArgs))
    }
}

/// The class's method of this name and number of parameters of which the event may ask this.
fn method_of<'m>(
    meta: &'m Meta,
    class: usize,
    invocation: Invocation,
    name: &Name,
    count: usize,
) -> Option<(usize, &'m MetaMethod)>
    ensures { MatchOption result
        (NothingIs (IsAskedOf meta.now class invocation name.now count))
        (λ f. IsAskedOf meta.now class invocation name.now count (numbered f.0 f.1.now)) }
{
    let Some(number) = meta.by_name(class, name, count) else {
        return None;
    };
    let Some(method) = meta.method_at(class, number) else {
        return None;
    };
    if invocation.may(number, method) {
        Some((number, method))
    } else {
        None
    }
}
