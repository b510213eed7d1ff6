ghost use Rattle.std.specs.Prelude.{◌≡◌, ◌↔◌, ◌<◌, ◌-◌, ◌^◌, length, IfOk, OnOk, OnErr, IsSome, Some, IsTrue, MatchOption, IfErr, false};
ghost use Rattle.object_tree.specs.Objects.{life_of, home_of};
ghost use Rattle.object_tree.specs.Typed.{StayTyped};
ghost use Rattle.event_loops.specs.Queues.{posted_to, rehomed};
ghost use Rattle.binding_graph.specs.Bindings.{lead_out};
ghost use Rattle.event_loops.specs.declared.item.Item.TheVariants.{Deletion};
ghost use Rattle.delete_later.specs.Scheduling.{empty, IsHoused, scheduled_in};
ghost use Rattle.delete_later.specs.Moving.{MovesOrNot, StayAgreeing, DontFollow};
ghost use Rattle.delete_later.specs.Ending.{died_in, ended_in, next_in, IsNext, NoneIsNext};

use crate::fault::MoveFault;
use crate::live_connections::LiveConnections;
use basic_types::{LoopId, ObjectId};
use event_loops::{Item, Loops, PostFault};
use object_tree::Tree;
use prop_bindings::UncountedBindings;
use std::alloc::{AllocError, Global};

/// The stores in which a run keeps its objects, what connects them and what waits for them.
pub struct Store {
    /// The objects, and who is whose parent.
    pub tree: Tree,
    /// The connections between the objects.
    pub connections: LiveConnections,
    /// The event loops, with the items that wait in them.
    pub loops: Loops,
    /// The bindings of the objects' properties.
    pub bindings: UncountedBindings,
}

impl Drop for Store {
    fn drop(self) {
        let Store {
            tree: _,
            connections: _,
            loops: _,
            bindings: _,
        } = self;
    }
}

impl Store {
    /// No objects, connections and bindings; `main` is the only loop, and nothing waits in it.
    pub fn new(alloc: Global) -> Result<Store, AllocError>
        ensures { IfOk result (λ store. store ≡ empty) }
    {
        let loops = Loops::new(alloc)?;
        Ok(Store {
            tree: Tree::new(alloc),
            connections: LiveConnections::new(alloc),
            loops,
            bindings: UncountedBindings::new(alloc),
        })
    }

    /// Schedules an object for deletion: the deletion waits, with the next number, at the end of the loop in which the
    /// object lives. An object that is scheduled already, or doesn't live, changes nothing; nor does running out of
    /// memory.
    pub fn schedule(&mut self, object: ObjectId) -> Result<(), AllocError>
        requires home { IsHoused object self.old }
        requires few { self.old.loops.posted < 2 ^ 63 - 1 }
        ensures scheduled { OnOk result (self.new ≡ scheduled_in object self.old) }
        ensures err { OnErr result (self.new ≡ self.old) }
        ensures typed { StayTyped self.old.tree self.new.tree }
    {
        let Some(life) = self.tree.life(object) else {
            return Ok(());
        };
        if life.scheduled {
            return Ok(());
        }
        post_deletion(&mut self.loops, life.home, object)?;
        self.tree.mark_scheduled(object);
        Ok(())
    }

    /// An object lives no more: it leaves its parent's children, and the bindings go whose target or source it is; the
    /// properties that they bound keep their values. Its own children, its connections and what waits for it stay.
    pub fn mark_dead(&mut self, object: ObjectId)
        ensures { self.new ≡ died_in object self.old }
    {
        self.tree.mark_dead(object);
        self.bindings.drop_object(object);
    }

    /// Ends a dead object: all connections from and to it go, and all items that wait for it, calls and its deletion.
    pub fn end_one(&mut self, object: ObjectId)
        ensures { self.new ≡ ended_in object self.old }
    {
        self.connections.drop_object(object);
        self.loops.drop_object(object);
    }

    /// Moves a living object with its living descendants, reached through living objects, to another event loop: they live
    /// there from now on, and the calls and deletions that wait for them move to the end of the loop and keep their numbers.
    /// Bindings and connections stay, and so does what waits for dead objects. Where the object lives in the loop already,
    /// nothing changes.
    ///
    /// Refused, where the first of these holds, with `NoLoop` (there is no such loop), `HasParent` (the object has a parent,
    /// which may be dead), `Bound` (a binding would join objects of two loops); `Memory` comes only where a growth was
    /// refused. Then nothing changes.
    pub fn move_tree(&mut self, object: ObjectId, home: LoopId) -> Result<(), MoveFault>
        requires { IsSome (life_of self.old.tree object) }
        ensures value { MovesOrNot object home self.old result self.new }
        ensures typed { StayTyped self.old.tree self.new.tree }
        ensures agree { StayAgreeing self.old self.new }
    {
        if !is_there(&self.loops, home) {
            return Err(MoveFault::NoLoop);
        }
        if self.tree.has_parent(object) {
            return Err(MoveFault::HasParent);
        }
        let from = home_in(&self.tree, object);
        if from == home {
            return Ok(());
        }
        let below = self.tree.move_below(object, from, home)?;
        let objects = below.as_slice();
        match follow(&self.bindings, &mut self.loops, objects, home) {
            Ok(()) => Ok(()),
            Err(fault) => {
                self.tree.set_home(objects, from);
                Err(fault)
            }
        }
    }

    /// Gives back what removed connections still take up, which no rule can tell. It is for moments at which no emission
    /// goes on, since one may stand on a connection that was removed.
    pub fn sweep(&mut self)
        ensures { self.new ≡ self.old }
    {
        self.connections.sweep();
    }

    /// The object that is deleted next while these are torn down, the latest of them last: the first living child of the
    /// last one.
    pub fn next_to_end(&self, torn: &[ObjectId]) -> Option<ObjectId>
        ensures next { result ≡ next_in self.now.tree torn.now }
        ensures lives { MatchOption result
            (NoneIsNext self.now.tree torn.now)
            (IsNext self.now.tree torn.now) }
    {
        match torn.last() {
            Some(last) => self.tree.first_child(*last),
            None => None,
        }
    }
}

/// Posts an object's deletion to a loop that is there; without memory nothing changes.
fn post_deletion(loops: &mut Loops, home: LoopId, object: ObjectId) -> Result<(), AllocError>
    requires there { home < length loops.old.loops }
    requires few { loops.old.posted < 2 ^ 63 - 1 }
    ensures posted { OnOk result (loops.new ≡ posted_to home (Deletion object) loops.old) }
    ensures err { OnErr result (loops.new ≡ loops.old) }
{
    match loops.post(home, Item::Deletion { object }) {
        Ok(()) => Ok(()),
        Err(PostFault::Memory) => Err(AllocError),
        Err(PostFault::NoLoop) => unreachable!(),
    }
}

/// Whether there is such a loop.
fn is_there(loops: &Loops, home: LoopId) -> bool
    ensures { IsTrue result ↔ (home < length loops.now.loops) }
{
    loops.name(home).is_some()
}

/// The loop in which a living object lives.
fn home_in(tree: &Tree, object: ObjectId) -> LoopId
    requires { IsSome (life_of tree.now object) }
    ensures { home_of tree.now object ≡ Some result }
{
    match tree.home(object) {
        Some(home) => home,
        None => unreachable!(),
    }
}

/// What waits for these objects follows them to another loop, unless a binding joins one of them with another object.
/// Where it doesn't, nothing changes.
fn follow(
    bindings: &UncountedBindings,
    loops: &mut Loops,
    objects: &[ObjectId],
    home: LoopId,
) -> Result<(), MoveFault>
    ensures alone { OnOk result (lead_out objects.now bindings.now ≡ false) }
    ensures moved { OnOk result (loops.new ≡ rehomed objects.now home loops.old) }
    ensures refused { IfErr result (DontFollow objects.now home bindings.now loops.old) }
    ensures err { OnErr result (loops.new ≡ loops.old) }
{
    if bindings.joins(objects) {
        return Err(MoveFault::Bound);
    }
    loops.rehome(objects, home)?;
    Ok(())
}
