//! What is done with natives of one's own.

ghost use Rattle.std.specs.Prelude.{IsTrue, IfOk};
ghost use Rattle.native_slots.specs.Effects.{are_within};
ghost use Rattle.worked_examples.specs.Thermostat.{thermostat_effects};

use crate::calls::thermostat::{DeclaredNative, declared, judged};
use anyhow::Result;
use basic_types::Value;
use native_slots::{Action, NativeSlot, Natives, built_in};
use std::alloc::{AllocError, Global};

/// What is done once with natives.
pub trait NativesTask {
    fn perform(&mut self, natives: Natives) -> Result<()>;
}

/// What the thermostat's closure answers.
#[derive(Clone, Copy)]
pub enum Reply {
    /// What a thermostat does.
    Judged,
    /// No action.
    Nothing,
    /// That it had no memory.
    NoMemory,
}

/// The answer of the thermostat's closure.
fn answer(
    alloc: Global,
    reply: Reply,
    arguments: &[Value],
    reads: &[Value],
) -> Result<Vec<Action>, AllocError>
    ensures { IfOk result (λ actions. IsTrue (are_within thermostat_effects actions.items)) }
{
    match (reply, arguments, reads) {
        (Reply::NoMemory, _, _) => Err(AllocError),
        (Reply::Judged, [Value::Int(degrees)], [Value::Int(wanted), Value::Bool(heating)]) =>
            judged(alloc, *degrees, *wanted, *heating),
        _ => Ok(Vec::new(alloc)),
    }
}

/// Performs a task with the native of a thermostat.
pub fn with_thermostat(alloc: Global, reply: Reply, task: &mut impl NativesTask) -> Result<()> {
    let DeclaredNative {
        class,
        sig,
        effects,
    } = declared(alloc)?;
    let work = Box::new(alloc, move |arguments: &[Value], reads: &[Value]| {
        answer(alloc, reply, arguments, reads)
    })?;
    let mut slots = Vec::new(alloc);
    slots.push(NativeSlot::new(class, sig, effects, work))?;
    task.perform(Natives::of(slots))
}

/// Performs a task with a closure for the program's own native that does nothing.
pub fn with_idle_doubler(alloc: Global, task: &mut impl NativesTask) -> Result<()> {
    let work = Box::new(alloc, move |_: &[Value], _: &[Value]| Ok(Vec::new(alloc)))?;
    task.perform(built_in::natives(alloc, work)?)
}
