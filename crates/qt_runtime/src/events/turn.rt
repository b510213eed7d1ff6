//! `turn`: an event loop delivers what waits in it.

ghost use Rattle.std.specs.Prelude.{◌≡◌, ◌<◌, None};
ghost use Rattle.script_lang.specs.declared.event.Event.TheVariants.{Turn};
ghost use Rattle.qt_runtime.specs.code.Taking.{MayTake, TookBy};

use crate::quiet::{accept_turn, reject};
use basic_types::Name;
use machine_state::World;
use native_slots::Answering;
use rule_interpreter::Interpreter;
use trace_entries::{Answer, Fault, Refusal};

/// Begins a turn of an event loop, and carries it to its end.
pub fn turn<N: Answering>(
    interpreter: &Interpreter<N>,
    world: &mut World,
    name: &Name,
) -> Result<Answer, Fault>
    requires may { MayTake N.takes N.gives interpreter.now world.old }
    requires left { 0 < world.old.left }
    ensures { TookBy N.gives interpreter.now (Turn name.now) world.old world.new result }
{
    let Some(home) = world.store.loops.find(name) else {
        return reject(world, Refusal::NoLoop);
    };
    accept_turn(world, home)?;
    interpreter.run_turn(world)?;
    Ok(Answer::Done)
}
