//! `adopt`: an object gets a parent.

ghost use Rattle.std.specs.Prelude.{◌≡◌, ◌<◌, [], IfOk, IfErr, None};
ghost use Rattle.script_lang.specs.declared.event.Event.TheVariants.{Adopt};
ghost use Rattle.qt_runtime.specs.code.Quiet.{WorldInvariant, TookQuietly, adoption_reason};

use crate::quiet::accepting::{accept_adoption, reject};
use crate::quiet::refusing::refuse;
use basic_types::{Name, ObjectId};
use machine_state::World;
use object_machine::find_living;
use object_tree::AdoptFault;
use run_context::RunContext;
use trace_entries::{Answer, Fault, Refusal};

/// Makes one object the parent of another.
pub fn adopt(
    context: &RunContext,
    world: &mut World,
    parent: &Name,
    child: &Name,
) -> Result<Answer, Fault>
    requires left { 0 < world.old.left }
    requires idle { world.old.turn ≡ None }
    requires keeps { WorldInvariant context.now.meta world.old }
    ensures { TookQuietly context.now.meta world.old (Adopt parent.now child.now)
        world.new result }
{
    let parent = match find_living(world, parent) {
        Ok((number, _)) => ObjectId::new(number),
        Err(reason) => return refuse(world, reason),
    };
    let child = match find_living(world, child) {
        Ok((number, _)) => ObjectId::new(number),
        Err(reason) => return refuse(world, reason),
    };
    match accept_adoption(world, &context.meta, parent, child) {
        Ok(()) => Ok(Answer::Done),
        Err(fault) => {
            let refusal = reason(fault)?;
            reject(world, refusal)
        }
    }
}

/// Why the event is refused, or the run stops, where an object isn't adopted.
fn reason(fault: AdoptFault) -> Result<Refusal, Fault>
    ensures { result ≡ adoption_reason fault }
{
    match fault {
        AdoptFault::NotOwned => Ok(Refusal::NotOwned),
        AdoptFault::Cycle => Ok(Refusal::Cycle),
        AdoptFault::OtherLoop => Ok(Refusal::OtherLoop),
        AdoptFault::Memory => Err(Fault::Memory),
    }
}
