//! `disconnect`: connections are removed.

ghost use Rattle.std.specs.Prelude.{◌<◌, ◌≡◌, None};
ghost use Rattle.script_lang.specs.declared.event.Event.TheVariants.{Disconnect};
ghost use Rattle.qt_runtime.specs.code.Quiet.{WorldInvariant, TookQuietly};

use crate::quiet::accepting::accept_disconnection;
use crate::quiet::refusing::refuse;
use basic_types::Name;
use machine_state::World;
use object_machine::judge_disconnect;
use run_context::RunContext;
use syntax_trees;
use trace_entries::{Answer, Fault};

/// Removes the connections between two objects' methods.
pub fn disconnect(
    context: &RunContext,
    world: &mut World,
    named: &syntax_trees::Endpoints<Name>,
) -> Result<Answer, Fault>
    requires left { 0 < world.old.left }
    requires idle { world.old.turn ≡ None }
    requires keeps { WorldInvariant context.now.meta world.old }
    ensures { TookQuietly context.now.meta world.old (Disconnect named.now) world.new result }
{
    match judge_disconnect(context, world, named) {
        Err(reason) => refuse(world, reason),
        Ok(ends) => {
            accept_disconnection(world, ends)?;
            Ok(Answer::Done)
        }
    }
}
