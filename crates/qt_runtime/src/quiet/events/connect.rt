//! `connect`: a connection is made.

ghost use Rattle.std.specs.Prelude.{◌≡◌, ◌<◌, None};
ghost use Rattle.script_lang.specs.declared.event.Event.TheVariants.{Connect};
ghost use Rattle.qt_runtime.specs.code.Quiet.{WorldInvariant, TookQuietly};

use crate::quiet::accepting::accept_connection;
use crate::quiet::refusing::refuse;
use basic_types::Name;
use machine_state::World;
use object_machine::judge_connect;
use run_context::RunContext;
use syntax_trees::{self, ConnectionType};
use trace_entries::{Answer, Fault};

/// Makes a connection.
pub fn connect(
    context: &RunContext,
    world: &mut World,
    named: &syntax_trees::Endpoints<Name>,
    how: ConnectionType,
) -> Result<Answer, Fault>
    requires left { 0 < world.old.left }
    requires idle { world.old.turn ≡ None }
    requires keeps { WorldInvariant context.now.meta world.old }
    ensures { TookQuietly context.now.meta world.old (Connect named.now how) world.new result }
{
    match judge_connect(context, world, named, how) {
        Err(reason) => refuse(world, reason),
        Ok(ends) => {
            accept_connection(world, ends, how)?;
            Ok(Answer::Done)
        }
    }
}
