//! A thermostat: a class with a native, and the parts of its closure.

ghost use Rattle.std.specs.Prelude.{◌≡◌, IsTrue, IfOk};
ghost use Rattle.native_slots.specs.Effects.{are_within};
ghost use Rattle.worked_examples.specs.Thermostat.{thermostat_effects};

use basic_types::{Arguments, Name, QType, Sig, Value};
use native_slots::{Action, Effects, PlainProperty, PlainSignal, PlainType};
use sqlite_items::Items;
use std::alloc::{AllocError, Global};

/// A thermostat, and a lamp that shows whether it heats.
pub const PROGRAM: &str =
    "class Thermostat { property int wanted; property int room; property bool heating; signal switched(bool); native measured(int degrees) reads wanted, heating emits switched(bool) sets room, heating; } class Lamp { property bool lit; slot show(bool on) { set this.lit = on; } } wire Thermostat switched(bool) -> Lamp show(bool) direct;";

/// The place of `room` among the properties that the native sets.
const ROOM: usize = 0;

/// The place of `heating` there.
const HEATING: usize = 1;

/// The place of `switched(bool)` among the signals that it emits.
const SWITCHED: usize = 0;

/// A native as a program declares it.
#[derive(Drop)]
pub struct DeclaredNative {
    /// The class that declares it.
    pub class: Name,
    /// Its signature there.
    pub sig: Sig,
    /// What it takes, and what it may read and do.
    pub effects: Effects,
}

/// The thermostat's native.
pub fn declared(alloc: Global) -> Result<DeclaredNative, AllocError>
    ensures { IfOk result (λ declared. declared.effects ≡ thermostat_effects) }
{
    let class = Name::new(alloc, b"Thermostat")?;
    let sig = measured(alloc)?;
    let effects = effects(alloc)?;
    Ok(DeclaredNative {
        class,
        sig,
        effects,
    })
}

/// The native's signature: `measured(int)`.
fn measured(alloc: Global) -> Result<Sig, AllocError> {
    let name = Name::new(alloc, b"measured")?;
    let int = Name::new(alloc, b"int")?;
    let mut types = Items::new(alloc);
    types.push(QType::value(int))?;
    Sig::new(alloc, name, types)
}

/// What the program declares of it: it takes an `int`, reads `wanted` and `heating`, emits `switched(bool)`, and sets
/// `room` and `heating`.
fn effects(alloc: Global) -> Result<Effects, AllocError>
    ensures { IfOk result (λ effects. effects ≡ thermostat_effects) }
{
    let mut parameters = Items::new(alloc);
    parameters.push(PlainType::Int)?;
    let wanted = Name::new(alloc, b"wanted")?;
    let heats = Name::new(alloc, b"heating")?;
    let mut reads = Items::new(alloc);
    reads.push(PlainProperty {
        name: wanted,
        kind: PlainType::Int,
    })?;
    reads.push(PlainProperty {
        name: heats,
        kind: PlainType::Bool,
    })?;
    let mut types = Items::new(alloc);
    types.push(PlainType::Bool)?;
    let name = Name::new(alloc, b"switched")?;
    let mut emits = Items::new(alloc);
    emits.push(PlainSignal { name, types })?;
    let room = Name::new(alloc, b"room")?;
    let heating = Name::new(alloc, b"heating")?;
    let mut sets = Items::new(alloc);
    sets.push(PlainProperty {
        name: room,
        kind: PlainType::Int,
    })?;
    sets.push(PlainProperty {
        name: heating,
        kind: PlainType::Bool,
    })?;
    Ok(Effects {
        parameters,
        reads,
        emits,
        sets,
    })
}

/// What a thermostat asks for when `degrees` are measured: that the room has them; and where it is colder than `wanted`
/// and it doesn't heat, or warmer and it does, that it switches, and tells so.
pub fn judged(
    alloc: Global,
    degrees: i32,
    wanted: i32,
    heating: bool,
) -> Result<Vec<Action>, AllocError>
    ensures { IfOk result (λ actions. IsTrue (are_within thermostat_effects actions.items)) }
{
    let mut actions = Vec::new(alloc);
    actions.push(Action::Set(ROOM, Value::Int(degrees)))?;
    let needed = if heating {
        degrees <= wanted
    } else {
        degrees < wanted
    };
    if needed != heating {
        let mut arguments = Arguments::new(alloc);
        arguments.push(Value::Bool(needed))?;
        actions.push(Action::Set(HEATING, Value::Bool(needed)))?;
        actions.push(Action::Emit(SWITCHED, arguments))?;
    }
    Ok(actions)
}
