//! Whether a program is as large as it may be, or larger.

ghost use Rattle.std.specs.Prelude.{◌≡◌, ◌↔◌, IsTrue, IfSome, All};
ghost use Rattle.syntax_trees.specs.Connections.{HasFewTypes};
ghost use Rattle.class_lang.specs.Limits.{is_native, natives_among, HaveFewNatives, signatures_at_work, SlotHasFewParameters, ClassHasFewParameters, WireHasFewParameters, HasFewParameters, ClassIsWithinLimits, IsWithinLimits};

use crate::names::has_short_names;
use crate::size::Limits;
use basic_types::MOST_PARAMETERS;
use slot_lang::body_has_few_parameters;
use syntax_trees::{Class, Program, Property, Slot, SlotWork, Wire, has_few_types};

/// Whether its signal's signature has at most 8 parameters, if it names one.
fn property_has_few_parameters(property: &Property) -> bool
    ensures { IsTrue result ↔ IfSome property.now.notify HasFewTypes }
{
    match &property.notify {
        Some(sig) => has_few_types(sig),
        None => true,
    }
}

/// Whether each signature in the body, or among what the native may emit, has at most 8 types.
fn work_has_few_parameters(work: &SlotWork) -> bool
    ensures { IsTrue result ↔ All HasFewTypes (signatures_at_work work.now) }
{
    match work {
        SlotWork::Body(body) => body_has_few_parameters(body.as_slice()),
        SlotWork::Native(effects) => effects
            .emits
            .as_slice()
            .iter()
            .all(|sig| has_few_types(sig)),
    }
}

/// Whether the slot or native has at most 8 parameters, and so has each signature in its body or among what it may emit.
fn slot_has_few_parameters(slot: &Slot) -> bool
    ensures { IsTrue result ↔ SlotHasFewParameters slot.now }
{
    slot.parameters.len() <= MOST_PARAMETERS && work_has_few_parameters(&slot.work)
}

#[tactic(auto, unfolding(crate::specs::Limits::ClassHasFewParameters))]
fn class_has_few_parameters(class: &Class) -> bool
    ensures { IsTrue result ↔ ClassHasFewParameters class.now }
{
    class
        .properties
        .as_slice()
        .iter()
        .all(|property| property_has_few_parameters(property))
        && class
            .signals
            .as_slice()
            .iter()
            .all(|signal| signal.parameters.len() <= MOST_PARAMETERS)
        && class
            .slots
            .as_slice()
            .iter()
            .all(|slot| slot_has_few_parameters(slot))
}

fn class_is_within(class: &Class, limits: Limits) -> bool
    ensures { IsTrue result ↔ ClassIsWithinLimits limits class.now }
{
    class.properties.len() <= limits.properties
        && class.signals.len() <= limits.methods
        && class.slots.len() <= limits.methods - class.signals.len()
}

/// Whether it is a native.
fn is_native(slot: &Slot) -> bool
    ensures { result ≡ is_native slot.now }
{
    match &slot.work {
        SlotWork::Body(_) => false,
        SlotWork::Native(_) => true,
    }
}

/// How many of the slots are natives.
fn natives_among(slots: &[Slot]) -> usize
    ensures { result ≡ natives_among slots.now }
{
    let mut natives = 0;
    for slot in slots {
        if is_native(slot) {
            natives += 1;
        }
    }
    natives
}

/// Whether the classes have at most so many natives, all of them together.
fn have_few_natives(classes: &[Class], most: usize) -> bool
    ensures { IsTrue result ↔ HaveFewNatives most classes.now }
{
    let mut left = most;
    for class in classes {
        let natives = natives_among(class.slots.as_slice());
        if natives > left {
            return false;
        }
        left -= natives;
    }
    true
}

fn wire_has_few_parameters(wire: &Wire) -> bool
    ensures { IsTrue result ↔ WireHasFewParameters wire.now }
{
    has_few_types(&wire.signal) && has_few_types(&wire.method)
}

/// Whether no signature of the program has more than 8 parameters, and no binding more than 8 formal sources.
pub fn has_few_parameters(program: &Program) -> bool
    ensures { IsTrue result ↔ HasFewParameters program.now }
{
    program
        .classes
        .as_slice()
        .iter()
        .all(|class| class_has_few_parameters(class))
        && program
            .wires
            .as_slice()
            .iter()
            .all(|wire| wire_has_few_parameters(wire))
        && program
            .sites
            .as_slice()
            .iter()
            .all(|site| site.formals.len() <= MOST_PARAMETERS)
}

/// Whether the program has no more classes, methods and properties in each, natives in all of them, wires, `owns` and bindings
/// than these limits say, and declares no longer name.
pub fn is_within_limits(program: &Program, limits: Limits) -> bool
    ensures { IsTrue result ↔ IsWithinLimits limits program.now }
{
    program.classes.len() <= limits.classes
        && program.wires.len() <= limits.wires
        && program.owns.len() <= limits.owns
        && program.sites.len() <= limits.sites
        && program
            .classes
            .as_slice()
            .iter()
            .all(|class| class_is_within(class, limits))
        && have_few_natives(program.classes.as_slice(), limits.natives)
        && has_short_names(program, limits.name)
}
