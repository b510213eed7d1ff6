//! Deletions: an object's life ends, what is left of it goes, and a deletion is scheduled.

ghost use Rattle.std.specs.Prelude.{◌≡◌, ◌∷◌, [], ◌<◌, ◌-◌, ◌^◌};
ghost use Rattle.delete_later.specs.Scheduling.{IsHoused};
ghost use Rattle.machine_state.specs.code.Changing.{GoesTo, IsUnscheduled, dying, ending, scheduling};

use crate::world::World;
use basic_types::ObjectId;
use trace_entries::{Entry, Fault};

impl World {
    /// A rule by which an object lives no more and leaves its parent's children, the bindings go whose target or source it
    /// is, and both entries are written down, of its death and of its `destroyed`; without memory nothing changes. Its own
    /// children, its connections and what waits for it stay.
    pub fn mark_dead(&mut self, entries: [Entry; 2], object: ObjectId) -> Result<(), Fault>
        requires left { 0 < self.old.left }
        ensures { GoesTo self.old (dying self.old entries object) self.new result }
    {
        self.trace.append(entries)?;
        self.store.mark_dead(object);
        self.left -= 1;
        Ok(())
    }

    /// A rule that ends a dead object: all connections from and to it go, and all that waits for it. Nothing is written
    /// down.
    pub fn end_one(&mut self, object: ObjectId)
        requires left { 0 < self.old.left }
        ensures { self.new ≡ ending self.old object }
    {
        self.store.end_one(object);
        self.left -= 1;
    }

    /// A rule that schedules an object for deletion, and writes this entry down; without memory nothing changes.
    pub fn schedule(&mut self, entry: Entry, object: ObjectId) -> Result<(), Fault>
        requires left { 0 < self.old.left }
        requires unscheduled { IsUnscheduled self.old.store.tree object }
        requires home { IsHoused object self.old.store }
        requires few { self.old.store.loops.posted < 2 ^ 63 - 1 }
        ensures { GoesTo self.old (scheduling self.old (entry ∷ []) object) self.new result }
    {
        self.trace.push(entry)?;
        match self.store.schedule(object) {
            Ok(()) => {
                self.left -= 1;
                Ok(())
            }
            Err(_) => {
                self.trace.pop();
                Err(Fault::Memory)
            }
        }
    }
}
