//! `set`: a property is written.

ghost use Rattle.std.specs.Prelude.{◌≡◌, ◌<◌, None};
ghost use Rattle.script_lang.specs.declared.event.Event.TheVariants.{Set};
ghost use Rattle.prop_bindings.specs.Fits.{FitsAt};
ghost use Rattle.object_machine.specs.code.Accepted.{WritesTo};
ghost use Rattle.qt_runtime.specs.code.Taking.{MayTake, TookBy};
ghost use Rattle.script_lang.specs.declared.event.Event.{Event as AnEvent};

use crate::quiet::{accept_write, refuse};
use basic_types::{Name, Value};
use machine_state::World;
use native_slots::Answering;
use object_machine::judge_write;
use prop_bindings::{Assignment, Place};
use rule_interpreter::{Active, Interpreter};
use script_lang::Input;
use trace_entries::{Answer, Fault};

/// Writes a property, and runs what it notifies.
pub fn assign<N: Answering>(
    interpreter: &Interpreter<N>,
    world: &mut World,
    name: &Name,
    property: &Name,
    input: &Input,
) -> Result<Answer, Fault>
    requires may { MayTake N.takes N.gives interpreter.now world.old }
    requires left { 0 < world.old.left }
    ensures { TookBy N.gives interpreter.now (Set name.now property.now input.now)
        world.old world.new result }
{
    match judge_write(&interpreter.context, world, name, property, input) {
        Err(reason) => refuse(world, reason),
        Ok(Assignment { place, value }) => write(interpreter, world, &place, value),
    }
}

/// Writes a property for an event that is accepted, and runs what it notifies.
fn write<N: Answering>(
    interpreter: &Interpreter<N>,
    world: &mut World,
    place: &Place,
    value: Value,
) -> Result<Answer, Fault>
    requires may { MayTake N.takes N.gives interpreter.now world.old }
    requires left { 0 < world.old.left }
    requires fits { FitsAt interpreter.now.context.meta world.old.store.tree place.now value }
    ensures { (e : AnEvent) →
        WritesTo interpreter.now.context.meta world.old place.now value e →
        TookBy N.gives interpreter.now e world.old world.new result }
{
    let changed = accept_write(world, &interpreter.context.meta, place, value)?;
    interpreter.run_update(world, &Active::nothing(), changed.as_slice())?;
    Ok(Answer::Done)
}
