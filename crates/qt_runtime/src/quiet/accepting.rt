//! What the world becomes where an event is refused or accepted.

ghost use Rattle.std.specs.Prelude.{◌≡◌, ◌∷◌, [], ◌<◌, ◌^◌, ◌-◌, OnOk, OnErr, IsErrAnd, IsSome, IsTrue};
ghost use Rattle.delete_later.specs.Moving.{MovesOrNot, StayAgreeing};
ghost use Rattle.delete_later.specs.Scheduling.{IsHoused};
ghost use Rattle.event_loops.specs.Queues.{IsTaken};
ghost use Rattle.object_tree.specs.Adopting.{AdoptsLiving, MayBeGone};
ghost use Rattle.object_tree.specs.Creating.{Creates};
ghost use Rattle.object_tree.specs.Objects.{IsGone, life_of};
ghost use Rattle.machine_state.specs.Connections.{are_joined};
ghost use Rattle.machine_state.specs.code.Changing.{IsUnscheduled, counted, accepting, accepting_store, accepting_objects, accepting_block, accepting_entries, accepting_connection, accepting_disconnection, accepting_loop, accepting_schedule, accepting_turn, GoesTo, Rejects};

use basic_types::{LoopId, Name, ObjectId};
use delete_later::MoveFault;
use machine_state::{Endpoints, Turn, World, join, part};
use meta_model::Meta;
use object_tree::{AdoptFault, CreateFault};
use syntax_trees::ConnectionType;
use trace_entries::{Answer, Entry, Fault, Refusal};

/// Writes down that the event is refused; without memory nothing changes.
pub fn reject(world: &mut World, refusal: Refusal) -> Result<Answer, Fault>
    requires left { 0 < world.old.left }
    requires few { world.old.events < 2 ^ 63 }
    ensures { Rejects world.old refusal world.new result }
{
    let number = refusal.number();
    world.trace.push(Entry::Refused(world.events + 1, number))?;
    count_event(world);
    Ok(Answer::Refused(number))
}

/// Counts an event that is taken, which is one rule.
pub fn count_event(world: &mut World)
    requires left { 0 < world.old.left }
    requires few { world.old.events < 2 ^ 63 }
    ensures { world.new ≡ counted world.old }
{
    world.events += 1;
    world.left -= 1;
}

/// Creates an object of the class of this name in an event loop for an accepted event, or answers the first of
/// `NameUsed`, `NoClass`, `TooMany` and `BadType` that holds, or `Memory`; then nothing changes.
pub fn accept_creation(
    world: &mut World,
    meta: &Meta,
    name: &Name,
    class: &Name,
    home: LoopId,
) -> Result<ObjectId, CreateFault>
    requires left { 0 < world.old.left }
    requires few { world.old.events < 2 ^ 63 }
    ensures objects { Creates meta.now world.old.store.tree name.now class.now home result
        world.new.store.tree }
    ensures ok { OnOk result (world.new ≡ accepting_objects world.old world.new.store.tree) }
    ensures err { OnErr result (world.new ≡ world.old) }
{
    let Ok(()) = world.trace.accept(world.events + 1, []) else {
        return Err(CreateFault::Memory);
    };
    match world.store.tree.create(meta, name, class, home) {
        Ok(object) => {
            count_event(world);
            Ok(object)
        }
        Err(fault) => {
            world.trace.pop();
            Err(fault)
        }
    }
}

/// Makes one living object the parent of another for an accepted event, or answers the first of `NotOwned`, `Cycle`
/// and `OtherLoop` that holds, or `Memory`; then nothing changes. Where one of the two doesn't live, the answer is
/// `NotOwned` or `Memory`.
pub fn accept_adoption(
    world: &mut World,
    meta: &Meta,
    parent: ObjectId,
    child: ObjectId,
) -> Result<(), AdoptFault>
    requires left { 0 < world.old.left }
    requires few { world.old.events < 2 ^ 63 }
    ensures objects { AdoptsLiving meta.now parent child world.old.store.tree result
        world.new.store.tree }
    ensures no_parent { IsGone world.old.store.tree parent → IsErrAnd result MayBeGone }
    ensures no_child { IsGone world.old.store.tree child → IsErrAnd result MayBeGone }
    ensures ok { OnOk result (world.new ≡ accepting_objects world.old world.new.store.tree) }
    ensures err { OnErr result (world.new ≡ world.old) }
{
    let Ok(()) = world.trace.accept(world.events + 1, []) else {
        return Err(AdoptFault::Memory);
    };
    match world.store.tree.adopt(meta, parent, child) {
        Ok(()) => {
            count_event(world);
            Ok(())
        }
        Err(fault) => {
            world.trace.pop();
            Err(fault)
        }
    }
}

/// Moves a living object and its living descendants to another event loop for an accepted event, or answers the first of
/// `NoLoop`, `HasParent` and `Bound` that holds, or `Memory`; then nothing changes.
pub fn accept_move(world: &mut World, object: ObjectId, home: LoopId) -> Result<(), MoveFault>
    requires left { 0 < world.old.left }
    requires few { world.old.events < 2 ^ 63 }
    requires lives { IsSome (life_of world.old.store.tree object) }
    ensures stores { MovesOrNot object home world.old.store result world.new.store }
    ensures agree { StayAgreeing world.old.store world.new.store }
    ensures ok { OnOk result (world.new ≡ accepting_store world.old world.new.store) }
    ensures err { OnErr result (world.new ≡ world.old) }
{
    let Ok(()) = world.trace.accept(world.events + 1, []) else {
        return Err(MoveFault::Memory);
    };
    match world.store.move_tree(object, home) {
        Ok(()) => {
            count_event(world);
            Ok(())
        }
        Err(fault) => {
            world.trace.pop();
            Err(fault)
        }
    }
}

/// Adds an event loop for an accepted event; without memory nothing changes.
pub fn accept_loop(world: &mut World, name: &Name) -> Result<(), Fault>
    requires left { 0 < world.old.left }
    requires few { world.old.events < 2 ^ 63 }
    requires free { ¬ IsTaken world.old.store.loops.loops name.now }
    ensures { GoesTo world.old (accepting_loop world.old name.now) world.new result }
{
    world.trace.accept(world.events + 1, [])?;
    match world.store.loops.add(name) {
        Ok(()) => {
            count_event(world);
            Ok(())
        }
        Err(_) => {
            world.trace.pop();
            Err(Fault::Memory)
        }
    }
}

/// Begins a turn of an event loop for an accepted event; without memory nothing changes.
pub fn accept_turn(world: &mut World, home: LoopId) -> Result<(), Fault>
    requires left { 0 < world.old.left }
    requires few { world.old.events < 2 ^ 63 }
    ensures { GoesTo world.old (accepting_turn world.old home) world.new result }
{
    world.trace.accept(world.events + 1, [])?;
    let limit = world.store.loops.next_number();
    world.turn = Some(Turn { home, limit });
    count_event(world);
    Ok(())
}

/// Blocks a living object for an accepted event, or lets it emit again; without memory nothing changes.
pub fn accept_block(world: &mut World, object: ObjectId, on: bool) -> Result<(), Fault>
    requires left { 0 < world.old.left }
    requires few { world.old.events < 2 ^ 63 }
    ensures { GoesTo world.old (accepting_block world.old object on) world.new result }
{
    world.trace.accept(world.events + 1, [])?;
    world.store.tree.block(object, on);
    count_event(world);
    Ok(())
}

/// Writes down that the event is accepted; without memory nothing changes.
pub fn accept(world: &mut World) -> Result<(), Fault>
    requires left { 0 < world.old.left }
    requires few { world.old.events < 2 ^ 63 }
    ensures { GoesTo world.old (accepting world.old) world.new result }
{
    world.trace.accept(world.events + 1, [])?;
    count_event(world);
    Ok(())
}

/// Writes down that the event is accepted, and then this entry; without memory nothing changes.
pub fn accept_with(world: &mut World, entry: Entry) -> Result<(), Fault>
    requires left { 0 < world.old.left }
    requires few { world.old.events < 2 ^ 63 }
    ensures { GoesTo world.old (accepting_entries world.old (entry ∷ [])) world.new result }
{
    world.trace.accept(world.events + 1, [entry])?;
    count_event(world);
    Ok(())
}

/// Schedules an object for deletion for an accepted event, and writes this entry down; without memory nothing changes.
pub fn accept_schedule(world: &mut World, entry: Entry, object: ObjectId) -> Result<(), Fault>
    requires left { 0 < world.old.left }
    requires few { world.old.events < 2 ^ 63 }
    requires unscheduled { IsUnscheduled world.old.store.tree object }
    requires home { IsHoused object world.old.store }
    requires few_posted { world.old.store.loops.posted < 2 ^ 63 - 1 }
    ensures { let target = accepting_schedule world.old (entry ∷ []) object in
        GoesTo world.old target world.new result }
{
    world.trace.accept(world.events + 1, [entry])?;
    match world.store.schedule(object) {
        Ok(()) => {
            count_event(world);
            Ok(())
        }
        Err(_) => {
            world.trace.pop();
            world.trace.pop();
            Err(Fault::Memory)
        }
    }
}

/// Adds the connection of an accepted event; without memory nothing changes. Whether a unique one exists isn't asked.
pub fn accept_connection(
    world: &mut World,
    ends: Endpoints,
    how: ConnectionType,
) -> Result<(), Fault>
    requires left { 0 < world.old.left }
    requires few { world.old.events < 2 ^ 63 }
    requires few_connected { world.old.store.connections.last < 2 ^ 63 - 1 }
    ensures { GoesTo world.old (accepting_connection world.old ends how) world.new result }
{
    world.trace.accept(world.events + 1, [])?;
    match join(&mut world.store.connections, &ends, how) {
        Ok(()) => {
            count_event(world);
            Ok(())
        }
        Err(fault) => {
            world.trace.pop();
            Err(fault)
        }
    }
}

/// Removes the connections that join these ends for an accepted event; without memory nothing changes.
pub fn accept_disconnection(world: &mut World, ends: Endpoints) -> Result<(), Fault>
    requires left { 0 < world.old.left }
    requires few { world.old.events < 2 ^ 63 }
    requires joined { IsTrue (are_joined ends world.old.store.connections) }
    ensures { GoesTo world.old (accepting_disconnection world.old ends) world.new result }
{
    world.trace.accept(world.events + 1, [])?;
    part(&mut world.store.connections, &ends);
    count_event(world);
    Ok(())
}
