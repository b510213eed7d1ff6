//! `move`: an object moves to another event loop, with what is below it.

ghost use Rattle.std.specs.Prelude.{◌≡◌, ◌<◌, None};
ghost use Rattle.script_lang.specs.declared.event.Event.TheVariants.{Move};
ghost use Rattle.qt_runtime.specs.code.Quiet.{WorldInvariant, TookQuietly, moving_reason};

use crate::quiet::accepting::{accept_move, reject};
use crate::quiet::refusing::refuse;
use basic_types::{Name, ObjectId};
use delete_later::MoveFault;
use machine_state::World;
use object_machine::find_living;
use run_context::RunContext;
use trace_entries::{Answer, Fault, Refusal};

/// Moves an object and all that is below it to another event loop, with what waits for them.
pub fn move_object(
    context: &RunContext,
    world: &mut World,
    name: &Name,
    event_loop: &Name,
) -> Result<Answer, Fault>
    requires left { 0 < world.old.left }
    requires idle { world.old.turn ≡ None }
    requires keeps { WorldInvariant context.now.meta world.old }
    ensures { TookQuietly context.now.meta world.old (Move name.now event_loop.now)
        world.new result }
{
    let object = match find_living(world, name) {
        Ok((number, _)) => ObjectId::new(number),
        Err(reason) => return refuse(world, reason),
    };
    let Some(home) = world.store.loops.find(event_loop) else {
        return reject(world, Refusal::NoLoop);
    };
    match accept_move(world, object, home) {
        Ok(()) => Ok(Answer::Done),
        Err(fault) => {
            let refusal = reason(fault)?;
            reject(world, refusal)
        }
    }
}

/// Why the event is refused, or the run stops, where an object doesn't move.
fn reason(fault: MoveFault) -> Result<Refusal, Fault>
    ensures { result ≡ moving_reason fault }
{
    match fault {
        MoveFault::NoLoop => Ok(Refusal::NoLoop),
        MoveFault::HasParent => Ok(Refusal::HasParent),
        MoveFault::Bound => Ok(Refusal::Bound),
        MoveFault::Memory => Err(Fault::Memory),
    }
}
