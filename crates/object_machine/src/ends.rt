//! What a connect or a disconnect names.

ghost use Rattle.std.specs.Prelude.{◌≡◌, ◌↔◌, IfOk, IfErr, IsTrue, MatchOption};
ghost use Rattle.meta_model.specs.declared.object.Work.TheVariants.{Signal};
ghost use Rattle.machine_rules.specs.Judgement.{NothingIs};
ghost use Rattle.object_machine.specs.code.Judgement.{IsNotAccepted, FindsEnds};
ghost use Rattle.object_machine.specs.Events.{find_ends, IsSignalOf};

use crate::named::find_living;
use crate::not_accepted::NotAccepted;
use basic_types::{Name, ObjectId, Sig};
use machine_rules::{FoundEnds, named_signal};
use machine_state::{Endpoints, World};
use meta_model::{Meta, MetaMethod, Work};
use run_context::RunContext;
use syntax_trees;
use trace_entries::Refusal;

/// The objects and methods that are named, or why the event isn't accepted.
pub fn find_ends(
    context: &RunContext,
    world: &World,
    named: &syntax_trees::Endpoints<Name>,
) -> Result<FoundEnds, NotAccepted>
    ensures found { IfOk result
        (λ f. FindsEnds context.now.meta world.now.store.tree named.now f) }
    ensures refused { IfErr result (IsNotAccepted
        (find_ends context.now.meta world.now.store.tree named.now)) }
{
    let (sender, from) = find_living(world, &named.sender)?;
    let (receiver, to) = find_living(world, &named.receiver)?;
    let Some(signal) = signal_of(&context.meta, from.class, &named.signal) else {
        return Err(NotAccepted::Refused(Refusal::NoMember));
    };
    let Some(method) = context.meta.method(to.class, &named.method) else {
        return Err(NotAccepted::Refused(Refusal::NoMember));
    };
    Ok(FoundEnds {
        from: from.class,
        to: to.class,
        ends: Endpoints {
            sender: ObjectId::new(sender),
            signal: named_signal(signal),
            receiver: ObjectId::new(receiver),
            method,
        },
    })
}

/// The number of the class's signal of this signature.
fn signal_of(meta: &Meta, class: usize, sig: &Sig) -> Option<usize>
    ensures { MatchOption result (NothingIs (IsSignalOf meta.now class sig.now))
        (IsSignalOf meta.now class sig.now) }
{
    let Some(number) = meta.method(class, sig) else {
        return None;
    };
    match meta.method_at(class, number) {
        Some(method) if is_signal(method) => Some(number),
        _ => None,
    }
}

/// Whether the method is a signal.
pub fn is_signal(method: &MetaMethod) -> bool
    ensures { IsTrue result ↔ (method.now.work ≡ Signal) }
{
    matches!(method.work, Work::Signal)
}
