//! What a run goes by, and what its numbers lead to.

ghost use Rattle.std.specs.Prelude.{◌≡◌, ◌≤◌, IfOk, IfErr, MatchOption};
ghost use Rattle.run_context.specs.code.Activating.{CallFits, entry_of_call, MayNest, IsActivated, IsBarred};
ghost use Rattle.texts.specs.Limits.{most_depth};
ghost use Rattle.machine_rules.specs.There.{IsMember, IsField, LacksMember, LacksField};

use crate::method_call::MethodCall;
use basic_types::ObjectId;
use machine_state::{World, is_silent, show_all};
use meta_model::{Meta, MetaMethod, MetaProperty, Work};
use object_tree::Object;
use std::alloc::{AllocError, Global};
use trace_entries::{Entry, EntryKind, Fault};

/// What a run goes by and never changes.
pub struct RunContext {
    /// Where memory is asked for.
    pub alloc: Global,
    /// The program.
    pub meta: Meta,
    /// How many activations may nest, up to 256.
    pub depth: usize,
    pub ghost bounded: { depth ≤ most_depth },
}

impl Drop for RunContext {
    fn drop(self) {
        let RunContext {
            alloc: _,
            meta: _,
            depth: _,
        } = self;
    }
}

/// What is found of a method that may begin.
#[derive(Clone, Copy)]
pub struct Callee<'s> {
    /// What is to run.
    pub work: &'s Work,
    /// The last connection that was made before.
    pub last: u64,
}

impl RunContext {
    /// A run of a program; at most `depth` activations nest, up to 256.
    pub fn new(alloc: Global, meta: Meta, depth: usize) -> RunContext
        requires { depth ≤ most_depth }
        ensures meta { result.meta ≡ meta }
        ensures depth { result.depth ≡ depth }
    {
        RunContext { alloc, meta, depth }
    }

    /// A living object and one of its methods, or `None` where either isn't there.
    #[inline(always)]
    pub fn member<'s, 'w>(
        &'s self,
        world: &'w World,
        object: ObjectId,
        method: usize,
    ) -> Option<(&'w Object, &'s MetaMethod)>
        ensures { MatchOption result (LacksMember self.now.meta world.now.store.tree object method)
            (λ f. IsMember self.now.meta world.now.store.tree object method f.0.now f.1.now) }
    {
        let Some((found, life)) = world.store.tree.get(object) else {
            return None;
        };
        let Some(declared) = self.meta.method_at(life.class, method) else {
            return None;
        };
        Some((found, declared))
    }

    /// A living object and one of its properties, or `None` where either isn't there.
    pub fn field<'s, 'w>(
        &'s self,
        world: &'w World,
        object: ObjectId,
        property: usize,
    ) -> Option<(&'w Object, &'s MetaProperty)>
        ensures { MatchOption result
            (LacksField self.now.meta world.now.store.tree object property)
            (λ f. IsField self.now.meta world.now.store.tree object property f.0.now f.1.now) }
    {
        let Some((found, life)) = world.store.tree.get(object) else {
            return None;
        };
        let Some(class) = self.meta.object(life.class) else {
            return None;
        };
        let Some(declared) = class.property(property) else {
            return None;
        };
        Some((found, declared))
    }

    /// `TooDeep` where no activation may stand over as many as are below.
    #[inline(always)]
    pub fn may_nest(&self, below: usize) -> Result<(), Fault>
        ensures { MayNest self.now.depth below result }
    {
        if below < self.depth {
            Ok(())
        } else {
            Err(Fault::TooDeep)
        }
    }

    /// The line that is written down as a method begins over so many activations, and what is found of it before; or why it
    /// doesn't begin.
    #[inline(always)]
    pub fn activate<'s>(
        &'s self,
        world: &World,
        below: usize,
        call: &MethodCall<'_>,
    ) -> Result<(Entry, Callee<'s>), Fault>
        requires fit { CallFits self.now.meta world.now.store.tree call.now }
        ensures ok { IfOk result (λ b. IsActivated self.now.meta self.now.depth below world.now
            call.now.object call.now.method call.now.arguments.now
            b.0 b.1.work.now b.1.last) }
        ensures err { IfErr result (IsBarred self.now.depth below) }
    {
        let Some((found, declared)) = self.member(world, call.object, call.method) else {
            unreachable!()
        };
        self.activate_found(world, below, call, found, declared)
    }

    /// The same of a method that is found already, with its living object.
    #[inline(always)]
    pub fn activate_found<'s>(
        &self,
        world: &World,
        below: usize,
        call: &MethodCall<'_>,
        object: &Object,
        declared: &'s MetaMethod,
    ) -> Result<(Entry, Callee<'s>), Fault>
        requires found { IsMember self.now.meta world.now.store.tree
            call.now.object call.now.method object.now declared.now }
        ensures ok { IfOk result (λ b. IsActivated self.now.meta self.now.depth below world.now
            call.now.object call.now.method call.now.arguments.now
            b.0 b.1.work.now b.1.last) }
        ensures err { IfErr result (IsBarred self.now.depth below) }
    {
        self.may_nest(below)?;
        let line = self.begin_entry(world, below + 1, object, declared, call)?;
        let callee = Callee {
            work: &declared.work,
            last: world.store.connections.last(),
        };
        Ok((line, callee))
    }

    /// The entry of a call of a method of an object that begins.
    #[inline(always)]
    fn begin_entry(
        &self,
        world: &World,
        depth: usize,
        object: &Object,
        method: &MetaMethod,
        call: &MethodCall<'_>,
    ) -> Result<Entry, AllocError>
        ensures { IfOk result (λ entry. entry ≡
            entry_of_call world.now depth object.now
            call.now.method method.now call.now.arguments.now) }
    {
        let name = object.name.copy()?;
        let called = method.sig.name.copy()?;
        let arguments = show_all(self.alloc, &world.store.tree, call.arguments)?;
        let entry_kind = match method.work {
            Work::Signal => EntryKind::Emitted {
                object: name,
                signal: called,
                arguments,
                blocked: is_silent(object, call.method),
            },
            Work::Slot(_) => EntryKind::Called {
                object: name,
                slot: called,
                arguments,
            },
            Work::Native(_) => EntryKind::Called {
                object: name,
                slot: called,
                arguments,
            },
        };
        Ok(Entry::At(depth, entry_kind))
    }
}
