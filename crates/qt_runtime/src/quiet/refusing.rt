//! What becomes of an event that isn't accepted.

ghost use Rattle.std.specs.Prelude.{◌<◌, ◌^◌};
ghost use Rattle.qt_runtime.specs.code.Quiet.{IsRefused};

use crate::quiet::accepting::reject;
use machine_state::World;
use object_machine::NotAccepted;
use trace_entries::{Answer, Fault};

/// Writes down that the event is refused, or stops without memory; then nothing changes.
pub fn refuse(world: &mut World, reason: NotAccepted) -> Result<Answer, Fault>
    requires left { 0 < world.old.left }
    requires few { world.old.events < 2 ^ 63 }
    ensures { IsRefused world.old reason world.new result }
{
    match reason {
        NotAccepted::Refused(refusal) => reject(world, refusal),
        NotAccepted::Memory => Err(Fault::Memory),
    }
}
