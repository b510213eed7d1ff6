//! Calls that are posted to event loops.

ghost use Rattle.std.specs.Prelude.{◌≡◌, ◌<◌, IfOk};
ghost use Rattle.machine_rules.specs.code.Sound.{IsSoundWorld};
ghost use Rattle.run_context.specs.code.Activating.{CallFits};
ghost use Rattle.run_context.specs.code.Posting.{PostsCall, entry_of_post};

use crate::context::RunContext;
use crate::method_call::MethodCall;
use basic_types::{Arguments, Name, Value};
use connections::Connection;
use event_loops::Item;
use machine_state::{World, show_all};
use meta_model::MetaMethod;
use object_tree::Object;
use std::alloc::AllocError;
use trace_entries::{Entry, EntryKind, Fault};

impl RunContext {
    /// Uses a connection and posts its call to the event loop in which the object that is called lives, where `depth`
    /// activations are on the stack; without memory nothing changes.
    #[inline(never)]
    pub fn post(
        &self,
        world: &mut World,
        depth: usize,
        connection: &Connection,
        call: &MethodCall<'_>,
    ) -> Result<(), Fault>
        requires sound { IsSoundWorld self.now.meta world.old }
        requires left { 0 < world.old.left }
        requires fit { CallFits self.now.meta world.old.store.tree call.now }
        ensures { PostsCall self.now.meta world.old depth connection.now
            call.now.object call.now.method call.now.arguments.now world.new result }
    {
        let Some((receiver, declared)) = self.member(world, call.object, call.method) else {
            unreachable!()
        };
        let Some(home) = world.home(call.object) else {
            unreachable!()
        };
        let Some(event_loop) = world.store.loops.name(home) else {
            unreachable!()
        };
        let entry = self.post_entry(world, depth, event_loop, receiver, declared, call.arguments)?;
        let arguments = Arguments::copy_of(self.alloc, call.arguments)?;
        let item = Item::Call {
            object: call.object,
            method: call.method,
            arguments,
        };
        world.post(entry, connection, home, item)
    }

    /// The entry of a call that is posted to the event loop of this name.
    fn post_entry(
        &self,
        world: &World,
        depth: usize,
        event_loop: &Name,
        object: &Object,
        method: &MetaMethod,
        arguments: &[Value],
    ) -> Result<Entry, AllocError>
        ensures { IfOk result (λ entry. entry ≡
            entry_of_post world.now depth event_loop.now object.now method.now arguments.now) }
    {
        let posted = EntryKind::Posted {
            event_loop: event_loop.copy()?,
            object: object.name.copy()?,
            method: method.sig.name.copy()?,
            arguments: show_all(self.alloc, &world.store.tree, arguments)?,
        };
        Ok(Entry::At(depth, posted))
    }
}
