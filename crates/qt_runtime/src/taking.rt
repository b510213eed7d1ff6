//! The taking of events.

ghost use Rattle.std.specs.Prelude.{◌<◌, ◌≡◌, None};
ghost use Rattle.qt_runtime.specs.code.Taking.{MayTake, TookBy};

use crate::events::assign::assign;
use crate::events::bind::bind;
use crate::events::delete::delete;
use crate::events::invoke::invoke;
use crate::events::turn::turn;
use crate::quiet::{add_loop, adopt, block, connect, create, disconnect, later, move_object};
use machine_state::World;
use native_slots::Answering;
use object_machine::Invocation;
use rule_interpreter::Interpreter;
use script_lang::Event;
use trace_entries::{Answer, Fault};

/// Takes an event, and runs until nothing is going on. Then no emission stands on a connection that was removed, and what
/// these still take up is given back.
pub fn take_event<N: Answering>(
    interpreter: &Interpreter<N>,
    world: &mut World,
    event: &Event,
) -> Result<Answer, Fault>
    requires may { MayTake N.takes N.gives interpreter.now world.old }
    ensures { TookBy N.gives interpreter.now event.now world.old world.new result }
{
    let result = run_event(interpreter, world, event);
    world.sweep();
    result
}

/// Takes an event, and runs until nothing is going on.
fn run_event<N: Answering>(
    interpreter: &Interpreter<N>,
    world: &mut World,
    event: &Event,
) -> Result<Answer, Fault>
    requires may { MayTake N.takes N.gives interpreter.now world.old }
    ensures { TookBy N.gives interpreter.now event.now world.old world.new result }
{
    if world.left == 0 {
        return Err(Fault::Steps);
    }
    match event {
        Event::Loop(name) => add_loop(&interpreter.context, world, name),
        Event::Turn(name) => turn(interpreter, world, name),
        Event::New(name, class, home) => create(&interpreter.context, world, name, class, home),
        Event::Adopt(parent, child) => adopt(&interpreter.context, world, parent, child),
        Event::Move(name, home) => move_object(&interpreter.context, world, name, home),
        Event::Connect(named, how) => connect(&interpreter.context, world, named, *how),
        Event::Disconnect(named) => disconnect(&interpreter.context, world, named),
        Event::Set(name, property, input) => assign(interpreter, world, name, property, input),
        Event::Emit(name, signal, inputs) => {
            let inputs = inputs.as_slice();
            invoke(interpreter, world, Invocation::Emit, name, signal, inputs)
        }
        Event::Call(name, slot, inputs) => {
            let inputs = inputs.as_slice();
            invoke(interpreter, world, Invocation::Call, name, slot, inputs)
        }
        Event::Bind(site, target, sources) => {
            bind(interpreter, world, site, target, sources.as_slice())
        }
        Event::Block(name) => block(&interpreter.context, world, name, true),
        Event::Unblock(name) => block(&interpreter.context, world, name, false),
        Event::Delete(name) => delete(interpreter, world, name),
        Event::Later(name) => later(&interpreter.context, world, name),
    }
}
