//! What the statements of a body do.

ghost use Rattle.std.specs.Prelude.{◌<◌, [], ◌∷◌, length};
ghost use Rattle.meta_model.specs.declared.object.Statement.TheOpen.{Emit, Call, Connect, Disconnect, Later};
ghost use Rattle.machine_rules.specs.Natives.{KeepPromises};
ghost use Rattle.machine_rules.specs.code.Sound.{IsSoundWorld};
ghost use Rattle.machine_state.specs.code.Changing.{GoesTo, noted};
ghost use Rattle.trace_entries.specs.declared.entry.Entry.TheVariants.{At};
ghost use Rattle.trace_entries.specs.declared.entry.EntryKind.TheVariants.{OnNull};
ghost use Rattle.rule_interpreter.specs.code.Calls.{CarriesOutAlone};

use crate::active::Active;
use crate::interpreter::Interpreter;
use machine_state::World;
use meta_model::{MetaEndpoints, MetaPath};
use native_slots::Answering;
use run_context::MethodCall;
use syntax_trees::{ConnectionType, Expr};
use trace_entries::{Entry, EntryKind, Fault};

impl<N: Answering> Interpreter<N> {
    /// A signal of the body's object is emitted.
    #[cycle(machine)]
    #[inline(always)]
    pub fn emit(
        &self,
        world: &mut World,
        active: &Active<'_>,
        call: &MethodCall<'_>,
        signal: usize,
        given: &[Expr<MetaPath>],
    ) -> Result<(), Fault>
        requires promises { KeepPromises N.takes N.gives self.now.context.meta self.now.natives }
        requires room { length active.now < self.now.context.depth }
        requires sound { IsSoundWorld self.now.context.meta world.old }
        requires due { 0 < world.old.left }
        ensures advances { CarriesOutAlone self.now.context.meta (N.gives self.now.natives)
            self.now.context.depth active.now call.now (Emit signal given.now)
            world.old world.new result }
    {
        let over = (&*active).over(Some(call.object));
        let values = self.scope(world, &*call).values_of(given)?;
        let emission = MethodCall {
            object: call.object,
            method: signal,
            arguments: values.as_slice(),
        };
        self.begin_typed(world, &over, &emission)
    }

    /// A method of the object that a path leads to is called.
    #[cycle(machine)]
    #[inline(always)]
    pub fn call(
        &self,
        world: &mut World,
        active: &Active<'_>,
        call: &MethodCall<'_>,
        path: &MetaPath,
        method: usize,
        given: &[Expr<MetaPath>],
    ) -> Result<(), Fault>
        requires promises { KeepPromises N.takes N.gives self.now.context.meta self.now.natives }
        requires room { length active.now < self.now.context.depth }
        requires sound { IsSoundWorld self.now.context.meta world.old }
        requires due { 0 < world.old.left }
        ensures advances { CarriesOutAlone self.now.context.meta (N.gives self.now.natives)
            self.now.context.depth active.now call.now (Call path.now method given.now)
            world.old world.new result }
    {
        let over = (&*active).over(Some(call.object));
        let scope = self.scope(world, &*call);
        let Some(object) = scope.object_at(path)? else {
            return pass_null(world, over.count());
        };
        let values = scope.values_of(given)?;
        let called = MethodCall {
            object,
            method,
            arguments: values.as_slice(),
        };
        self.begin_typed(world, &over, &called)
    }

    /// A signal is connected to a method.
    #[inline(always)]
    pub fn connect(
        &self,
        world: &mut World,
        active: &Active<'_>,
        call: &MethodCall<'_>,
        ends: &MetaEndpoints,
        how: ConnectionType,
    ) -> Result<(), Fault>
        requires room { length active.now < self.now.context.depth }
        requires sound { IsSoundWorld self.now.context.meta world.old }
        requires due { 0 < world.old.left }
        ensures advances { CarriesOutAlone self.now.context.meta (N.gives self.now.natives)
            self.now.context.depth active.now call.now (Connect ends.now how)
            world.old world.new result }
    {
        let over = (&*active).over(Some(call.object));
        let found = self.scope(world, &*call).ends_at(ends)?;
        match found {
            Some(between) => self.context.connect(world, over.count(), between, how),
            None => pass_null(world, over.count()),
        }
    }

    /// The connections between a signal and a method are removed.
    #[inline(always)]
    pub fn disconnect(
        &self,
        world: &mut World,
        active: &Active<'_>,
        call: &MethodCall<'_>,
        ends: &MetaEndpoints,
    ) -> Result<(), Fault>
        requires room { length active.now < self.now.context.depth }
        requires sound { IsSoundWorld self.now.context.meta world.old }
        requires due { 0 < world.old.left }
        ensures advances { CarriesOutAlone self.now.context.meta (N.gives self.now.natives)
            self.now.context.depth active.now call.now (Disconnect ends.now)
            world.old world.new result }
    {
        let over = (&*active).over(Some(call.object));
        let found = self.scope(world, &*call).ends_at(ends)?;
        match found {
            Some(between) => self.context.disconnect(world, over.count(), between),
            None => pass_null(world, over.count()),
        }
    }

    /// The object that a path leads to is deleted when control returns to the event loop in which it lives.
    #[inline(always)]
    pub fn schedule_at(
        &self,
        world: &mut World,
        active: &Active<'_>,
        call: &MethodCall<'_>,
        path: &MetaPath,
    ) -> Result<(), Fault>
        requires room { length active.now < self.now.context.depth }
        requires sound { IsSoundWorld self.now.context.meta world.old }
        requires due { 0 < world.old.left }
        ensures advances { CarriesOutAlone self.now.context.meta (N.gives self.now.natives)
            self.now.context.depth active.now call.now (Later path.now)
            world.old world.new result }
    {
        let over = (&*active).over(Some(call.object));
        let found = self.scope(world, &*call).object_at(path)?;
        match found {
            Some(object) => self.context.schedule(world, over.count(), object),
            None => pass_null(world, over.count()),
        }
    }
}

/// Nothing is done, since a path leads to null; so many activations are on the stack.
pub fn pass_null(world: &mut World, depth: usize) -> Result<(), Fault>
    requires { 0 < world.old.left }
    ensures { GoesTo world.old (noted world.old (At depth OnNull ∷ [])) world.new result }
{
    world.note(Entry::At(depth, EntryKind::OnNull))
}
