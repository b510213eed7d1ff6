//! `later`: an object is deleted when its event loop comes to it.

ghost use Rattle.std.specs.Prelude.{◌<◌, ◌≡◌, None};
ghost use Rattle.script_lang.specs.declared.event.Event.TheVariants.{Later};
ghost use Rattle.qt_runtime.specs.code.Quiet.{WorldInvariant, TookQuietly};

use crate::quiet::accepting::{accept, accept_schedule};
use crate::quiet::refusing::refuse;
use basic_types::{Name, ObjectId};
use machine_state::World;
use object_machine::find_living;
use run_context::RunContext;
use trace_entries::{Answer, Entry, EntryKind, Fault};

/// Schedules an object for deletion, unless it is scheduled already.
pub fn later(context: &RunContext, world: &mut World, name: &Name) -> Result<Answer, Fault>
    requires left { 0 < world.old.left }
    requires idle { world.old.turn ≡ None }
    requires keeps { WorldInvariant context.now.meta world.old }
    ensures { TookQuietly context.now.meta world.old (Later name.now) world.new result }
{
    let (object, life) = match find_living(world, name) {
        Ok((number, life)) => (ObjectId::new(number), life),
        Err(reason) => return refuse(world, reason),
    };
    if life.scheduled {
        accept(world)?;
        return Ok(Answer::Done);
    }
    let Some(event_loop) = world.store.loops.name(life.home) else {
        unreachable!()
    };
    let scheduled = EntryKind::Scheduled {
        event_loop: event_loop.copy()?,
        object: name.copy()?,
    };
    accept_schedule(world, Entry::At(0, scheduled), object)?;
    Ok(Answer::Done)
}
