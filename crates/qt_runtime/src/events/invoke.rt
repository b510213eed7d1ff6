//! `emit` and `call`: a method begins.

ghost use Rattle.std.specs.Prelude.{◌≡◌, ◌<◌, None};
ghost use Rattle.run_context.specs.code.Activating.{CallFits};
ghost use Rattle.object_machine.specs.code.Accepted.{AsksFor, invoking};
ghost use Rattle.qt_runtime.specs.code.Taking.{MayTake, TookBy};
ghost use Rattle.script_lang.specs.declared.event.Event.{Event as AnEvent};

use crate::quiet::{accept_with, refuse};
use basic_types::Name;
use machine_state::World;
use native_slots::Answering;
use object_machine::{Invocation, Invoked, judge_invocation};
use rule_interpreter::{Active, Interpreter};
use run_context::MethodCall;
use script_lang::Input;
use trace_entries::{Answer, Fault};

/// Emits a signal or calls a slot, and runs it.
pub fn invoke<N: Answering>(
    interpreter: &Interpreter<N>,
    world: &mut World,
    invocation: Invocation,
    name: &Name,
    called: &Name,
    inputs: &[Input],
) -> Result<Answer, Fault>
    requires may { MayTake N.takes N.gives interpreter.now world.old }
    requires left { 0 < world.old.left }
    ensures { TookBy N.gives interpreter.now (invoking invocation name.now called.now inputs.now)
        world.old world.new result }
{
    match judge_invocation(
        &interpreter.context,
        world,
        invocation,
        name,
        called,
        inputs,
    ) {
        Err(reason) => refuse(world, reason),
        Ok(
            Invoked {
                object,
                method,
                values,
            },
        ) => {
            let call = MethodCall {
                object,
                method,
                arguments: values.as_slice(),
            };
            begin(interpreter, world, &call)
        }
    }
}

/// Begins a method for an event that is accepted, and runs it.
fn begin<N: Answering>(
    interpreter: &Interpreter<N>,
    world: &mut World,
    call: &MethodCall<'_>,
) -> Result<Answer, Fault>
    requires may { MayTake N.takes N.gives interpreter.now world.old }
    requires left { 0 < world.old.left }
    requires fit { CallFits interpreter.now.context.meta world.old.store.tree call.now }
    ensures { (e : AnEvent) →
        AsksFor interpreter.now.context.meta world.old
        call.now.object call.now.method call.now.arguments.now e →
        TookBy N.gives interpreter.now e world.old world.new result }
{
    let (line, callee) = interpreter.context.activate(world, 0, call)?;
    accept_with(world, line)?;
    interpreter.run_callee(world, &Active::nothing(), call, &callee)?;
    Ok(Answer::Done)
}
