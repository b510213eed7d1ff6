//! `loop`: an event loop is added.

ghost use Rattle.std.specs.Prelude.{◌≡◌, ◌<◌, None};
ghost use Rattle.script_lang.specs.declared.event.Event.TheVariants.{Loop};
ghost use Rattle.qt_runtime.specs.code.Quiet.{WorldInvariant, TookQuietly};

use crate::quiet::accepting::{accept_loop, reject};
use basic_types::Name;
use machine_state::World;
use run_context::RunContext;
use trace_entries::{Answer, Fault, Refusal};

/// Adds an event loop.
pub fn add_loop(context: &RunContext, world: &mut World, name: &Name) -> Result<Answer, Fault>
    requires left { 0 < world.old.left }
    requires idle { world.old.turn ≡ None }
    requires keeps { WorldInvariant context.now.meta world.old }
    ensures { TookQuietly context.now.meta world.old (Loop name.now) world.new result }
{
    match world.store.loops.find(name) {
        Some(_) => reject(world, Refusal::LoopExists),
        None => {
            accept_loop(world, name)?;
            Ok(Answer::Done)
        }
    }
}
