//! Writes of properties, and the notifications that follow them.

ghost use Rattle.std.specs.Prelude.{◌≡◌, ◌<◌, is_some, length, IfOk, IfErr, MatchOption};
ghost use Rattle.machine_rules.specs.code.Sound.{IsSoundWorld};
ghost use Rattle.machine_state.specs.State.{Update};
ghost use Rattle.rule_interpreter.specs.code.Calls.{Finishes, NotifiesFirst, RunsWrite};
ghost use Rattle.machine_rules.specs.Settling.{signal_at, notified};
ghost use Rattle.machine_rules.specs.Writing.{MayWrite, IsUnwritten, FitsOrNot, MayNotify, Announces};
ghost use Rattle.machine_state.specs.Telling.{Alone, Grouped, writes_of};
ghost use Rattle.prop_bindings.specs.Changes.{one};
ghost use Rattle.machine_rules.specs.Natives.{KeepPromises};

use crate::active::Active;
use crate::interpreter::Interpreter;
use basic_types::Value;
use machine_state::World;
use native_slots::Answering;
use object_tree::Tree;
use prop_bindings::{Assignment, Place};
use run_context::{MethodCall, front};
use std::alloc::AllocError;
use trace_entries::Fault;

impl<N: Answering> Interpreter<N> {
    /// Writes a property of an object, over what is left of the top of the stack, and notifies what changes with it;
    /// `BadType` where the object has no such property, or the value isn't of its type.
    #[cycle(machine)]
    pub fn write(
        &self,
        world: &mut World,
        active: &Active<'_>,
        place: &Place,
        value: Value,
    ) -> Result<(), Fault>
        requires promises { KeepPromises N.takes N.gives self.now.context.meta self.now.natives }
        requires sound { IsSoundWorld self.now.context.meta world.old }
        requires left { 0 < world.old.left }
        ensures ends { RunsWrite self.now.context.meta (N.gives self.now.natives)
            self.now.context.depth active.now (Alone place.now value) world.old world.new result }
    {
        self.may_begin_write(world, active, place, &value)?;
        let changed = world.write(&self.context.meta, active.count() + 1, place, value)?;
        self.run_update(world, active, changed.as_slice())
    }

    /// Does the sets of a group, over what is left of the top of the stack, and notifies what changes with the properties
    /// that they write; `BadType` where one of them has no such property, or its value isn't of the type.
    #[cycle(machine)]
    #[inline(never)]
    pub fn write_group(
        &self,
        world: &mut World,
        active: &Active<'_>,
        sets: &[Option<Assignment>],
    ) -> Result<(), Fault>
        requires promises { KeepPromises N.takes N.gives self.now.context.meta self.now.natives }
        requires sound { IsSoundWorld self.now.context.meta world.old }
        requires left { 0 < world.old.left }
        ensures ends { RunsWrite self.now.context.meta (N.gives self.now.natives)
            self.now.context.depth active.now (Grouped sets.now) world.old world.new result }
    {
        self.may_write_group(world, active, sets)?;
        let changed = world.write_group(&self.context.meta, active.count() + 1, sets)?;
        self.run_update(world, active, changed.as_slice())
    }

    /// Whether an activation may stand over these, for a write; where none may, `BadType` if the object has no such property,
    /// or the value isn't of its type, and else `TooDeep`.
    #[inline(always)]
    fn may_begin_write(
        &self,
        world: &World,
        active: &Active<'_>,
        place: &Place,
        value: &Value,
    ) -> Result<(), Fault>
        ensures ok { IfOk result (λ may. length active.now < self.now.context.depth) }
        ensures err { IfErr result (IsUnwritten self.now.context.meta
            self.now.context.depth active.now world.now.store.tree (one place.now value.now)) }
    {
        if active.count() < self.context.depth {
            return Ok(());
        }
        self.may_write(world, active, place, value)
    }

    /// Whether a property may be written over these activations: `BadType` where the object has no such property, or the
    /// value isn't of its type; `TooDeep` where no activation may stand over these.
    #[cold]
    #[inline(never)]
    fn may_write(
        &self,
        world: &World,
        active: &Active<'_>,
        place: &Place,
        value: &Value,
    ) -> Result<(), Fault>
        ensures ok { IfOk result (λ may. MayWrite self.now.context.meta
            self.now.context.depth active.now world.now.store.tree (one place.now value.now)) }
        ensures err { IfErr result (IsUnwritten self.now.context.meta
            self.now.context.depth active.now world.now.store.tree (one place.now value.now)) }
    {
        if !self.fits(world, place, value) {
            return Err(Fault::BadType);
        }
        self.context.may_nest(active.count())
    }

    /// Whether the sets of a group may be done over these activations: `BadType` where one of them writes no property of a
    /// living object, or a value that isn't of its type, also where a later set writes the property again; else `TooDeep`
    /// where no activation may stand over these.
    fn may_write_group(
        &self,
        world: &World,
        active: &Active<'_>,
        sets: &[Option<Assignment>],
    ) -> Result<(), Fault>
        ensures ok { IfOk result (λ may. MayWrite self.now.context.meta
            self.now.context.depth active.now world.now.store.tree (writes_of (Grouped sets.now))) }
        ensures err { IfErr result (IsUnwritten self.now.context.meta
            self.now.context.depth active.now world.now.store.tree (writes_of (Grouped sets.now))) }
    {
        for set in sets {
            if let Some(set) = set {
                if !self.fits(world, &set.place, &set.value) {
                    return Err(Fault::BadType);
                }
            }
        }
        self.context.may_nest(active.count())
    }

    /// Whether the object lives and has the property, and the value is of its type.
    fn fits(&self, world: &World, place: &Place, value: &Value) -> bool
        ensures { FitsOrNot self.now.context.meta world.now.store.tree place.now value.now result }
    {
        match self.context.field(world, place.object, place.property) {
            Some((_, declared)) => {
                world
                    .store
                    .tree
                    .has_type(&self.context.meta, value, declared.kind)
            }
            None => false,
        }
    }

    /// Notifies those of the changed properties that have a notify signal, one after the other, and ends the update.
    #[cycle(machine)]
    pub fn run_update(
        &self,
        world: &mut World,
        active: &Active<'_>,
        changed: &[Place],
    ) -> Result<(), Fault>
        requires promises { KeepPromises N.takes N.gives self.now.context.meta self.now.natives }
        requires room { length active.now < self.now.context.depth }
        requires sound { IsSoundWorld self.now.context.meta world.old }
        ensures ends { Finishes self.now.context.meta (N.gives self.now.natives)
            self.now.context.depth active.now
            (Update (notified self.now.context.meta world.old.store.tree changed.now))
            world.old world.new result }
    {
        world.require_rule()?;
        let places = self.notified(&world.store.tree, changed)?;
        let mut left = places.as_slice();
        while let Some((place, rest)) = left.split_first() {
            self.notify(world, active, place)?;
            left = rest;
        }
        world.tick()
    }

    /// Those of the changed properties that have a notify signal, in their order.
    fn notified(&self, objects: &Tree, changed: &[Place]) -> Result<Vec<Place>, AllocError>
        ensures { IfOk result (λ places.
            places.items ≡ notified self.now.context.meta objects.now changed.now) }
    {
        let mut places = Vec::new(self.context.alloc);
        for place in changed {
            if self.signal_at(objects, place).is_some() {
                places.push(*place)?;
            }
        }
        Ok(places)
    }

    /// The notify signal of a property of a living object, if it has one.
    fn signal_at(&self, objects: &Tree, place: &Place) -> Option<usize>
        ensures { result ≡ signal_at self.now.context.meta objects.now place.now }
    {
        let life = objects.life(place.object)?;
        let class = self.context.meta.object(life.class)?;
        class.property(place.property)?.notify
    }

    /// Notifies that a property has changed, if its object lives.
    #[cycle(machine)]
    fn notify(&self, world: &mut World, active: &Active<'_>, place: &Place) -> Result<(), Fault>
        requires promises { KeepPromises N.takes N.gives self.now.context.meta self.now.natives }
        requires room { length active.now < self.now.context.depth }
        requires sound { IsSoundWorld self.now.context.meta world.old }
        requires notifies { MayNotify self.now.context.meta world.old.store.tree place.now }
        ensures ends { NotifiesFirst self.now.context.meta (N.gives self.now.natives)
            self.now.context.depth active.now place.now world.old world.new result }
    {
        match self.signal_at(&world.store.tree, place) {
            Some(signal) => self.emit_change(world, active, place, signal),
            None => world.tick(),
        }
    }

    /// Emits the notify signal of a property, with its present value if the signal has a parameter.
    #[cycle(machine)]
    fn emit_change(
        &self,
        world: &mut World,
        active: &Active<'_>,
        place: &Place,
        signal: usize,
    ) -> Result<(), Fault>
        requires promises { KeepPromises N.takes N.gives self.now.context.meta self.now.natives }
        requires room { length active.now < self.now.context.depth }
        requires sound { IsSoundWorld self.now.context.meta world.old }
        requires announces { Announces self.now.context.meta world.old.store.tree place.now signal }
        ensures ends { NotifiesFirst self.now.context.meta (N.gives self.now.natives)
            self.now.context.depth active.now place.now world.old world.new result }
    {
        world.require_rule()?;
        let Some((_, declared)) = self.context.member(world, place.object, signal) else {
            unreachable!()
        };
        let Some(value) = world.store.tree.value(place.object, place.property) else {
            unreachable!()
        };
        let present = [value.copy()?];
        let taken = front(present.as_slice(), declared.types.len());
        let over = (&*active).over(None);
        let call = MethodCall {
            object: place.object,
            method: signal,
            arguments: taken,
        };
        self.begin(world, &over, &call)
    }
}
