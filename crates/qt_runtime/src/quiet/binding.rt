//! Writes and binds of accepted events, and what changes with them. A change is planned, and the lines that tell of it are added
//! to the trace, before anything else changes: where memory is refused for one of these, the world is as it was.

ghost use Rattle.std.specs.Prelude.{◌<◌, ◌^◌};
ghost use Rattle.binding_graph.specs.Bindings.{binding_at};
ghost use Rattle.binding_graph.specs.code.Graph.{Unread};
ghost use Rattle.prop_bindings.specs.Fits.{Agree, FitsAt};
ghost use Rattle.machine_state.specs.Telling.{Alone};
ghost use Rattle.machine_state.specs.code.Changing.{accepting_entries, WritesIn, BindsIn};

use crate::quiet::accepting::count_event;
use basic_types::{ObjectId, Value};
use delete_later::Store;
use machine_state::{Cause, Telling, World, line_of};
use meta_model::Meta;
use prop_bindings::{BindFault, ChangedPlaces, Place};
use trace_entries::Fault;

/// Writes a property of a living object for an accepted event, as `write` does, over the empty stack.
pub fn accept_write(
    world: &mut World,
    meta: &Meta,
    place: &Place,
    value: Value,
) -> Result<ChangedPlaces, Fault>
    requires left { 0 < world.old.left }
    requires few { world.old.events < 2 ^ 63 }
    requires agree { Agree meta.now world.old.store.tree world.old.store.bindings }
    requires fits { FitsAt meta.now world.old.store.tree place.now value }
    ensures value { WritesIn meta.now 1 (Alone place.now value) world.old
        (accepting_entries world.old) result world.new }
    ensures agree { Agree meta.now world.new.store.tree world.new.store.bindings }
{
    if world.store.bindings.is_unread(place) {
        return accept_unread(world, meta, place, value);
    }
    accept_followed(world, meta, place, value)
}

/// Writes a property that no binding reads for an accepted event, as `accept_write` does: nothing follows from it.
fn accept_unread(
    world: &mut World,
    meta: &Meta,
    place: &Place,
    value: Value,
) -> Result<ChangedPlaces, Fault>
    requires left { 0 < world.old.left }
    requires few { world.old.events < 2 ^ 63 }
    requires agree { Agree meta.now world.old.store.tree world.old.store.bindings }
    requires fits { FitsAt meta.now world.old.store.tree place.now value }
    requires unread { Unread (binding_at world.old.store.bindings) place.now }
    ensures value { WritesIn meta.now 1 (Alone place.now value) world.old
        (accepting_entries world.old) result world.new }
    ensures agree { Agree meta.now world.new.store.tree world.new.store.bindings }
{
    let line = line_of(meta, &world.store.tree, 1, Cause::Write, place, &value)?;
    world.trace.accept(world.events + 1, [line])?;
    count_event(world);
    Ok(world.write_alone(place, value))
}

/// Writes a property that bindings may read for an accepted event, as `accept_write` does: others may follow.
#[inline(never)]
fn accept_followed(
    world: &mut World,
    meta: &Meta,
    place: &Place,
    value: Value,
) -> Result<ChangedPlaces, Fault>
    requires left { 0 < world.old.left }
    requires few { world.old.events < 2 ^ 63 }
    requires agree { Agree meta.now world.old.store.tree world.old.store.bindings }
    requires fits { FitsAt meta.now world.old.store.tree place.now value }
    ensures value { WritesIn meta.now 1 (Alone place.now value) world.old
        (accepting_entries world.old) result world.new }
    ensures agree { Agree meta.now world.new.store.tree world.new.store.bindings }
{
    let planned = world.plan_write(meta, place, value)?;
    let telling = Telling {
        meta,
        tree: &world.store.tree,
        planned: &planned.planned,
        depth: 1,
    };
    telling.accept(&mut world.trace, world.events + 1, Cause::Write, place)?;
    count_event(world);
    Ok(world.carry_out(planned))
}

/// Installs the binding of a site for living objects for an accepted event, in place of the target's old one; what
/// follows from it changes with it, and all this is written down. It answers the properties that no longer read as
/// they did: the target, if it changed, then the others in the order in which their bindings were installed. Refused,
/// where the first of these holds, with `BadSource`, `OtherLoop`, `BadType` and `BindingLoop`, and without memory with
/// `Memory`; then nothing changes.
pub fn accept_bind(
    world: &mut World,
    meta: &Meta,
    site: usize,
    target: ObjectId,
    sources: &[ObjectId],
) -> Result<ChangedPlaces, BindFault>
    requires left { 0 < world.old.left }
    requires few { world.old.events < 2 ^ 63 }
    requires agree { Agree meta.now world.old.store.tree world.old.store.bindings }
    ensures value { BindsIn meta.now site target sources.now world.old
        (accepting_entries world.old) result world.new }
    ensures agree { Agree meta.now world.new.store.tree world.new.store.bindings }
{
    let store = &world.store;
    let planned = store
        .bindings
        .plan_bind(meta, &store.tree, site, target, sources)?;
    let telling = Telling {
        meta,
        tree: &store.tree,
        planned: planned.planned(),
        depth: 1,
    };
    let (told, event) = (world.trace.len(), world.events + 1);
    telling.accept(&mut world.trace, event, Cause::Bind, &planned.target())?;
    let Store { tree, bindings, .. } = &mut world.store;
    match bindings.carry_out_bind(tree, planned) {
        Ok(changed) => {
            count_event(world);
            Ok(changed)
        }
        Err(_) => {
            world.trace.keep_first(told);
            Err(BindFault::Memory)
        }
    }
}
