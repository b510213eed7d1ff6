//! `block` and `unblock`: an object's emissions call nothing, or call again.

ghost use Rattle.std.specs.Prelude.{◌<◌, ◌≡◌, None};
ghost use Rattle.qt_runtime.specs.code.Quiet.{WorldInvariant, TookQuietly, blocking};

use crate::quiet::accepting::accept_block;
use crate::quiet::refusing::refuse;
use basic_types::{Name, ObjectId};
use machine_state::World;
use object_machine::find_living;
use run_context::RunContext;
use trace_entries::{Answer, Fault};

/// Blocks an object, or lets it emit again.
pub fn block(
    context: &RunContext,
    world: &mut World,
    name: &Name,
    on: bool,
) -> Result<Answer, Fault>
    requires left { 0 < world.old.left }
    requires idle { world.old.turn ≡ None }
    requires keeps { WorldInvariant context.now.meta world.old }
    ensures { TookQuietly context.now.meta world.old (blocking on name.now) world.new result }
{
    let object = match find_living(world, name) {
        Ok((number, _)) => ObjectId::new(number),
        Err(reason) => return refuse(world, reason),
    };
    accept_block(world, object, on)?;
    Ok(Answer::Done)
}
