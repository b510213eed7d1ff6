//! Deletions of objects.

ghost use Rattle.std.specs.Prelude.{◌≡◌, ◌<◌, true, false, [], length, Some, OnOk};
ghost use Rattle.rule_interpreter.specs.code.Calls.{Finishes, TurnsInto, RunsDeath, RunsDeletion};
ghost use Rattle.machine_rules.specs.Reaches.{Forgets};
ghost use Rattle.machine_rules.specs.code.Sound.{IsSoundWorld};
ghost use Rattle.machine_state.specs.Connections.{is_living};
ghost use Rattle.machine_state.specs.State.{Destroy};
ghost use Rattle.machine_rules.specs.Natives.{KeepPromises};

use crate::active::Active;
use crate::interpreter::Interpreter;
use basic_types::{ObjectId, Value};
use machine_state::World;
use meta_model::DESTROYED;
use native_slots::Answering;
use run_context::MethodCall;
use trace_entries::{Entry, EntryKind, Fault};

impl<N: Answering> Interpreter<N> {
    /// Deletes an object, over what is left of the top of the stack.
    #[cycle(machine)]
    #[inline(never)]
    pub fn delete(
        &self,
        world: &mut World,
        active: &Active<'_>,
        object: ObjectId,
    ) -> Result<(), Fault>
        requires promises { KeepPromises N.takes N.gives self.now.context.meta self.now.natives }
        requires sound { IsSoundWorld self.now.context.meta world.old }
        requires left { 0 < world.old.left }
        ensures ends { RunsDeletion self.now.context.meta (N.gives self.now.natives)
            self.now.context.depth active.now object world.old world.new result }
    {
        self.context.may_nest(active.count())?;
        world.tick()?;
        self.run_deletion(world, active, object)
    }

    /// Carries a deletion out: an object dies, and then its children, and theirs. Those that are torn down are in a list,
    /// so that no depth of a tree needs a place on the host's stack.
    #[cycle(machine)]
    pub fn run_deletion(
        &self,
        world: &mut World,
        active: &Active<'_>,
        object: ObjectId,
    ) -> Result<(), Fault>
        requires promises { KeepPromises N.takes N.gives self.now.context.meta self.now.natives }
        requires room { length active.now < self.now.context.depth }
        requires sound { IsSoundWorld self.now.context.meta world.old }
        ensures ends { Finishes self.now.context.meta (N.gives self.now.natives)
            self.now.context.depth active.now (Destroy (Some object) [])
            world.old world.new result }
    {
        self.announce_living(world, active, object)?;
        let mut torn = Vec::new(self.context.alloc);
        forget(world, &mut torn, object)?;
        while !torn.is_empty() {
            match world.store.next_to_end(torn.as_slice()) {
                Some(child) => {
                    self.announce(world, active, child)?;
                    forget(world, &mut torn, child)?;
                }
                None => {
                    world.tick()?;
                    torn.pop();
                }
            }
        }
        world.tick()
    }

    /// Lets an object die by the first rule of its deletion, if it lives.
    #[cycle(machine)]
    fn announce_living(
        &self,
        world: &mut World,
        active: &Active<'_>,
        object: ObjectId,
    ) -> Result<(), Fault>
        requires promises { KeepPromises N.takes N.gives self.now.context.meta self.now.natives }
        requires room { length active.now < self.now.context.depth }
        requires sound { IsSoundWorld self.now.context.meta world.old }
        ensures ends { TurnsInto self.now.context.meta (N.gives self.now.natives)
            self.now.context.depth active.now (Destroy (Some object) []) (Destroy (Some object) [])
            world.old world.new result }
        ensures dead { OnOk result (is_living world.new.store.tree object ≡ false) }
    {
        if world.store.tree.life(object).is_some() {
            self.announce(world, active, object)
        } else {
            Ok(())
        }
    }

    /// Lets an object die, over a deletion, and emits its `destroyed`; `InUse` where a body of it is active.
    #[cycle(machine)]
    fn announce(
        &self,
        world: &mut World,
        active: &Active<'_>,
        object: ObjectId,
    ) -> Result<(), Fault>
        requires promises { KeepPromises N.takes N.gives self.now.context.meta self.now.natives }
        requires room { length active.now < self.now.context.depth }
        requires sound { IsSoundWorld self.now.context.meta world.old }
        requires lives { is_living world.old.store.tree object ≡ true }
        ensures ends { RunsDeath self.now.context.meta (N.gives self.now.natives)
            self.now.context.depth active.now object world.old world.new result }
        ensures dead { OnOk result (is_living world.new.store.tree object ≡ false) }
    {
        world.require_rule()?;
        if active.has_body(object) {
            return Err(Fault::InUse);
        }
        let over = (&*active).over(None);
        let depth = over.count();
        self.context.may_nest(depth)?;
        let Some(name) = world.store.tree.name(object) else {
            unreachable!()
        };
        let died = Entry::At(
            depth,
            EntryKind::Died {
                object: name.copy()?,
            },
        );
        let emitted = self.context.destroyed_entry(depth + 1, name)?;
        let last = world.store.connections.last();
        world.mark_dead([died, emitted], object)?;
        let call = MethodCall {
            object,
            method: DESTROYED,
            arguments: &[Value::Ref(None)],
        };
        self.run_emission(world, &over, &call, last)
    }
}

/// A rule by which a dead object is forgotten, which is torn down then; without memory nothing changes in the world.
fn forget(world: &mut World, torn: &mut Vec<ObjectId>, object: ObjectId) -> Result<(), Fault>
    ensures { Forgets world.old torn.old.items object world.new torn.new.items result }
{
    world.require_rule()?;
    if torn.push(object).is_err() {
        return Err(Fault::Memory);
    }
    world.end_one(object);
    Ok(())
}
