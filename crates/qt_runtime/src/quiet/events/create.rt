//! `new`: an object is created.

ghost use Rattle.std.specs.Prelude.{◌≡◌, ◌<◌, None, ℕ, List, [], Option, Err, MatchOption};
ghost use Rattle.script_lang.specs.declared.event.Event.TheVariants.{New};
ghost use Rattle.qt_runtime.specs.code.Quiet.{WorldInvariant, TookQuietly, creation_reason};
ghost use Rattle.machine_state.specs.Worlds.{at};
ghost use Rattle.machine_rules.specs.Judgement.{NothingIs};
ghost use Rattle.object_machine.specs.Events.{judged, IsHome};

use crate::quiet::accepting::{accept_creation, reject};
use basic_types::{LoopId, Name};
use machine_state::{MAIN, World};
use object_tree::CreateFault;
use run_context::RunContext;
use trace_entries::{Answer, Fault, Refusal};

/// Creates an object in the event loop of a name, or in `main` where none is named.
pub fn create(
    context: &RunContext,
    world: &mut World,
    name: &Name,
    class: &Name,
    home: &Option<Name>,
) -> Result<Answer, Fault>
    requires left { 0 < world.old.left }
    requires idle { world.old.turn ≡ None }
    requires keeps { WorldInvariant context.now.meta world.old }
    ensures { TookQuietly context.now.meta world.old (New name.now class.now home.now)
        world.new result }
{
    let Some(home) = home_of(world, home) else {
        let refusal = refusal_without_loop(context, world, name, class);
        return reject(world, refusal);
    };
    match accept_creation(world, &context.meta, name, class, home) {
        Ok(_object) => Ok(Answer::Done),
        Err(fault) => {
            let refusal = reason(fault)?;
            reject(world, refusal)
        }
    }
}

/// The event loop of this name; where none is named, `main`.
fn home_of(world: &World, name: &Option<Name>) -> Option<LoopId>
    ensures { MatchOption result (NothingIs (IsHome world.now.store.loops.loops name.now))
        (IsHome world.now.store.loops.loops name.now) }
{
    match name {
        None => Some(LoopId::new(MAIN)),
        Some(name) => world.store.loops.find(name),
    }
}

/// Why the event is refused where there is no such event loop.
fn refusal_without_loop(context: &RunContext, world: &World, name: &Name, class: &Name) -> Refusal
    ensures { (home : Option (List ℕ)) → NothingIs (IsHome world.now.store.loops.loops home) →
        judged context.now.meta (at world.now []) (New name.now class.now home) (Err result) }
{
    match world.find(name) {
        Some(_) => Refusal::NameUsed,
        None => match context.meta.class(class) {
            Some(_) => Refusal::NoLoop,
            None => Refusal::NoClass,
        },
    }
}

/// Why the event is refused, or the run stops, where no object is created.
fn reason(fault: CreateFault) -> Result<Refusal, Fault>
    ensures { result ≡ creation_reason fault }
{
    match fault {
        CreateFault::NameUsed => Ok(Refusal::NameUsed),
        CreateFault::NoClass => Ok(Refusal::NoClass),
        CreateFault::TooMany => Ok(Refusal::TooManyObjects),
        CreateFault::BadType => Err(Fault::BadType),
        CreateFault::Memory => Err(Fault::Memory),
    }
}
