//! `connect` and `disconnect`: which methods are connected.

ghost use Rattle.std.specs.Prelude.{[], IfOk, IfErr, IsTrue};
ghost use Rattle.script_lang.specs.declared.event.Event.TheVariants.{Connect, Disconnect};
ghost use Rattle.machine_state.specs.Connections.{are_joined};
ghost use Rattle.machine_state.specs.Worlds.{at};
ghost use Rattle.object_machine.specs.code.Judgement.{IsNotAccepted};
ghost use Rattle.object_machine.specs.code.Accepted.{ConnectsThese, DisconnectsThese};
ghost use Rattle.object_machine.specs.Events.{judged};

use crate::ends::find_ends;
use crate::not_accepted::NotAccepted;
use basic_types::Name;
use machine_state::{Endpoints, World};
use meta_model::ConnectionEnd;
use run_context::RunContext;
use syntax_trees::{self, ConnectionType};
use trace_entries::Refusal;

/// What is connected, or why the event isn't accepted.
pub fn judge_connect(
    context: &RunContext,
    world: &World,
    named: &syntax_trees::Endpoints<Name>,
    how: ConnectionType,
) -> Result<Endpoints, NotAccepted>
    ensures accepted { IfOk result
        (ConnectsThese context.now.meta world.now named.now how) }
    ensures refused { IfErr result (IsNotAccepted
        (judged context.now.meta (at world.now []) (Connect named.now how))) }
{
    let found = find_ends(context, world, named)?;
    let from = ConnectionEnd {
        class: found.from,
        number: None,
        sig: &named.signal,
    };
    let to = ConnectionEnd {
        class: found.to,
        number: None,
        sig: &named.method,
    };
    match context.may_connect(world, &from, &to, &found.ends, how) {
        Ok(()) => Ok(found.ends),
        Err(refusal) => Err(NotAccepted::Refused(refusal)),
    }
}

/// What is no longer connected, or why the event isn't accepted.
pub fn judge_disconnect(
    context: &RunContext,
    world: &World,
    named: &syntax_trees::Endpoints<Name>,
) -> Result<Endpoints, NotAccepted>
    ensures accepted { IfOk result
        (DisconnectsThese context.now.meta world.now named.now) }
    ensures joined { IfOk result (λ ends. IsTrue (are_joined ends world.now.store.connections)) }
    ensures refused { IfErr result (IsNotAccepted
        (judged context.now.meta (at world.now []) (Disconnect named.now))) }
{
    let found = find_ends(context, world, named)?;
    if !world.are_joined(&found.ends) {
        return Err(NotAccepted::Refused(Refusal::NoConnection));
    }
    Ok(found.ends)
}
