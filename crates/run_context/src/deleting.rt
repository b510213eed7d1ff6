//! Deletions that statements schedule, and what is written down of one.

ghost use Rattle.std.specs.Prelude.{◌≡◌, ◌<◌, IfOk};
ghost use Rattle.run_context.specs.code.Activating.{entry_of_destroyed};
ghost use Rattle.run_context.specs.code.Statements.{SchedulesIn};
ghost use Rattle.machine_rules.specs.code.Sound.{IsSoundWorld};

use crate::context::RunContext;
use basic_types::{Name, ObjectId};
use machine_state::World;
use std::alloc::AllocError;
use trace_entries::{Entry, EntryKind, Fault, Shown, ShownValues};

impl RunContext {
    /// The entry of the `destroyed` of an object of this name.
    pub fn destroyed_entry(&self, depth: usize, name: &Name) -> Result<Entry, AllocError>
        ensures { IfOk result (λ entry. entry ≡ entry_of_destroyed depth name.now) }
    {
        let mut arguments = ShownValues::new(self.alloc);
        arguments.push(Shown::Null)?;
        let emitted = EntryKind::Emitted {
            object: name.copy()?,
            signal: Name::new(self.alloc, b"destroyed")?,
            arguments,
            blocked: false,
        };
        Ok(Entry::At(depth, emitted))
    }

    /// Schedules an object for deletion by a statement, where `depth` activations are on the stack. An object that is
    /// scheduled already, or doesn't live, changes nothing; nor does running out of memory.
    #[inline(never)]
    pub fn schedule(&self, world: &mut World, depth: usize, object: ObjectId) -> Result<(), Fault>
        requires sound { IsSoundWorld self.now.meta world.old }
        requires left { 0 < world.old.left }
        ensures { SchedulesIn world.old depth object world.new result }
    {
        let Some((found, life)) = world.store.tree.get(object) else {
            return world.tick();
        };
        if life.scheduled {
            return world.tick();
        }
        let Some(event_loop) = world.store.loops.name(life.home) else {
            unreachable!()
        };
        let scheduled = EntryKind::Scheduled {
            event_loop: event_loop.copy()?,
            object: found.name.copy()?,
        };
        world.schedule(Entry::At(depth, scheduled), object)
    }
}
