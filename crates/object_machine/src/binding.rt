//! `bind`: what is bound.

ghost use Rattle.std.specs.Prelude.{[], IfOk, IfErr};
ghost use Rattle.machine_state.specs.Worlds.{at};
ghost use Rattle.object_machine.specs.code.Judgement.{IsNotAccepted};
ghost use Rattle.object_machine.specs.code.Accepted.{AsksToBind};
ghost use Rattle.object_machine.specs.Events.{may_bind};

use crate::named::{find_all_living, find_living};
use crate::not_accepted::NotAccepted;
use basic_types::{Name, ObjectId};
use machine_state::World;
use run_context::RunContext;
use sqlite_items::Items;
use trace_entries::Refusal;

/// A binding site, and the objects whose properties it is to join.
#[derive(Drop)]
pub struct Asked {
    /// The site's number.
    pub site: usize,
    /// The object whose property is to be bound.
    pub target: ObjectId,
    /// The objects that it is to read, one for each formal source of the site.
    pub sources: Items<ObjectId>,
}

/// What is to be bound, or why the event isn't accepted. Whether the site covers the objects is judged as the binding is
/// installed.
pub fn judge_bind(
    context: &RunContext,
    world: &World,
    site: &Name,
    target: &Name,
    sources: &[Name],
) -> Result<Asked, NotAccepted>
    ensures asked { IfOk result (λ a. AsksToBind context.now.meta world.now
        site.now target.now sources.now a.site a.target a.sources) }
    ensures refused { IfErr result (IsNotAccepted
        (may_bind context.now.meta (at world.now []) site.now target.now sources.now)) }
{
    let Some(number) = context.meta.site(site) else {
        return Err(NotAccepted::Refused(Refusal::BadSource));
    };
    let Some(declared) = context.meta.site_at(number) else {
        unreachable!()
    };
    if sources.len() != declared.formals.len() {
        return Err(NotAccepted::Refused(Refusal::BadSource));
    }
    let (target, _) = find_living(world, target)?;
    let sources = find_all_living(context.alloc, world, sources)?;
    Ok(Asked {
        site: number,
        target: ObjectId::new(target),
        sources,
    })
}
