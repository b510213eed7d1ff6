//! The calls for natives.

ghost use Rattle.std.specs.Prelude.{◌≡◌, ◌<◌, IfOk, Some, length, slice_get};
ghost use Rattle.native_slots.specs.Doubling.{doubling};

use crate::once_or_twice;
use crate::trials::{ReportBuffer, TrialAnswer, loaded};
use basic_types::{Name, Sig, Value};
use meta_model::Meta;
use native_slots::built_in::{answer, class, effects, twice};
use native_slots::{Action, Effects, NativeSlot, Natives};
use std::alloc::{AllocError, Global};

/// A class with the native.
const DOUBLER: &str =
    "class Doubler { property int out; signal done(int); native twice(int v) emits done(int) sets out; }";

/// `NativeSlot::new`, `Natives::of`, `fits` and `find`, none of which takes memory.
pub fn doubler_fits(alloc: Global, told: &mut ReportBuffer) -> Option<TrialAnswer> {
    let meta = loaded(alloc, DOUBLER)?;
    with_doubler(alloc, Some(&meta), told).ok()
}

/// `Natives::call`.
pub fn doubler_call(alloc: Global, told: &mut ReportBuffer) -> Option<TrialAnswer> {
    with_doubler(alloc, None, told).ok()
}

/// The class that declares the native, its signature there, and what it may do.
fn parts(alloc: Global) -> Result<(Name, Sig, Effects), AllocError>
    ensures { IfOk result (λ parts. parts.2 ≡ doubling) }
{
    let class = class(alloc)?;
    let sig = twice(alloc)?;
    let effects = effects(alloc)?;
    Ok((class, sig, effects))
}

/// Calls the native's closure, or asks for which native of a program it is.
fn with_doubler(
    alloc: Global,
    program: Option<&Meta>,
    told: &mut ReportBuffer,
) -> Result<TrialAnswer, AllocError> {
    let (class, sig, effects) = parts(alloc)?;
    let work = Box::new(
        alloc,
        move |arguments: &[Value], _: &[Value]| answer(alloc, arguments),
    )?;
    let mut slots = Vec::new(alloc);
    slots.push(NativeSlot::new(class, sig, effects, work))?;
    let natives = Natives::of(slots);
    match program {
        Some(meta) => Ok(tell_fitting(&natives, meta, told)),
        None => Ok(once_or_twice!(tell_actions(&natives, told), true)),
    }
}

fn tell_fitting(natives: &Natives, meta: &Meta, told: &mut ReportBuffer) -> TrialAnswer {
    told.flag("fits ", natives.fits(meta).is_ok());
    for slot in natives.slots.as_slice() {
        if let Some(place) = natives.find(&slot.head.class, &slot.head.sig) {
            told.count(", found at ", place);
        }
    }
    TrialAnswer::Ample
}

fn tell_actions(natives: &Natives, told: &mut ReportBuffer) -> TrialAnswer
    requires there { 0 < length natives.now.slots.items }
    requires doubling { (slot : _) → slice_get natives.now.slots.items 0 ≡ Some slot
        → slot.head.effects ≡ doubling }
{
    match natives.call(0, &[Value::Int(21)], &[]) {
        Ok(actions) => {
            for action in actions.as_slice() {
                tell_action(action, told);
            }
            TrialAnswer::Ample
        }
        Err(AllocError) => TrialAnswer::Memory,
    }
}

fn tell_action(action: &Action, told: &mut ReportBuffer) {
    match action {
        Action::Set(place, value) => {
            told.count("set ", *place);
            told.bytes(b" ");
            told.value(value);
        }
        Action::Emit(place, arguments) => {
            told.count("emit ", *place);
            told.values(arguments.as_slice());
        }
    }
    told.end();
}
