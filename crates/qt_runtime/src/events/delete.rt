//! `delete`: an object is destroyed, and all its children.

ghost use Rattle.std.specs.Prelude.{◌<◌, ◌≡◌, None};
ghost use Rattle.script_lang.specs.declared.event.Event.TheVariants.{Delete};
ghost use Rattle.qt_runtime.specs.code.Taking.{MayTake, TookBy};

use crate::quiet::{accept, refuse};
use basic_types::{Name, ObjectId};
use machine_state::World;
use native_slots::Answering;
use object_machine::find_living;
use rule_interpreter::{Active, Interpreter};
use trace_entries::{Answer, Fault};

/// Begins the deletion of an object, and carries it out.
pub fn delete<N: Answering>(
    interpreter: &Interpreter<N>,
    world: &mut World,
    name: &Name,
) -> Result<Answer, Fault>
    requires may { MayTake N.takes N.gives interpreter.now world.old }
    requires left { 0 < world.old.left }
    ensures { TookBy N.gives interpreter.now (Delete name.now) world.old world.new result }
{
    let object = match find_living(world, name) {
        Ok((number, _)) => ObjectId::new(number),
        Err(reason) => return refuse(world, reason),
    };
    accept(world)?;
    let below = Active::nothing();
    interpreter.run_deletion(world, &below, object)?;
    Ok(Answer::Done)
}
