//! Turns of event loops: which loop runs, what is posted and what is taken.

ghost use Rattle.std.specs.Prelude.{◌≡◌, ◌<◌, ◌-◌, ◌^◌, ◌∷◌, [], length};
ghost use Rattle.object_tree.specs.Objects.{home_of};
ghost use Rattle.machine_state.specs.Turns.{running, reaches_at_once};
ghost use Rattle.machine_state.specs.code.Changing.{GoesTo, TakesFirst, having_used, posting, taking_unwritten, turn_ended};

use crate::world::World;
use basic_types::{Kind, LoopId, ObjectId};
use connections::Connection;
use event_loops::{Item, Posted};
use trace_entries::{Entry, Fault};

/// The number of the loop `main`.
pub const MAIN: usize = 0;

/// A turn of an event loop. It delivers the items that were posted before it began.
#[derive(Clone, Copy)]
pub struct Turn {
    /// The loop that runs.
    pub home: LoopId,
    /// The number below which the items were posted that it delivers.
    pub limit: u64,
}

impl World {
    /// The loop in which a living object lives.
    #[inline(always)]
    pub fn home(&self, object: ObjectId) -> Option<LoopId>
        ensures { result ≡ home_of self.now.store.tree object }
    {
        self.store.tree.home(object)
    }

    /// The loop that runs: that of the turn that goes on, and outside a turn `main`.
    #[inline(always)]
    pub fn running(&self) -> LoopId
        ensures { result ≡ running self.now.turn }
    {
        match self.turn {
            Some(turn) => turn.home,
            None => LoopId::new(MAIN),
        }
    }

    /// A rule that uses a connection, so that a single-shot one is removed, posts an item to an event loop, and writes this
    /// entry down; without memory nothing changes.
    #[inline(always)]
    pub fn post(
        &mut self,
        entry: Entry,
        connection: &Connection,
        home: LoopId,
        item: Item,
    ) -> Result<(), Fault>
        requires left { 0 < self.old.left }
        requires there { home < length self.old.store.loops.loops }
        requires few { self.old.store.loops.posted < 2 ^ 63 - 1 }
        ensures { let used = having_used self.old connection.now in
            let target = posting used (entry ∷ []) home item in
            GoesTo self.old target self.new result }
    {
        self.trace.push(entry)?;
        match self.store.loops.post(home, item) {
            Ok(()) => {
                if connection.single {
                    self.store.connections.cut(connection.number);
                }
                self.left -= 1;
                Ok(())
            }
            Err(_) => {
                self.trace.pop();
                Err(Fault::Memory)
            }
        }
    }

    /// A rule that takes the first item of an event loop that was posted before the one of this number, gives it, and
    /// writes this entry down; without memory nothing changes.
    #[inline(always)]
    pub fn take_before(
        &mut self,
        entry: Entry,
        home: LoopId,
        number: u64,
    ) -> Result<Option<Posted>, Fault>
        requires left { 0 < self.old.left }
        ensures { TakesFirst self.old (entry ∷ []) home number self.new result }
    {
        self.note(entry)?;
        Ok(self.store.loops.take_before(home, number))
    }

    /// A rule that takes the first item of an event loop that was posted before the one of this number, if there is one.
    /// Nothing is written down.
    pub fn take_unwritten(&mut self, home: LoopId, number: u64)
        requires left { 0 < self.old.left }
        ensures { self.new ≡ taking_unwritten self.old home number }
    {
        self.left -= 1;
        let _taken = self.store.loops.take_before(home, number);
    }

    /// A rule that ends the turn.
    pub fn end_turn(&mut self)
        requires left { 0 < self.old.left }
        ensures { self.new ≡ turn_ended self.old }
    {
        self.turn = None;
        self.left -= 1;
    }
}

/// Whether a connection of this kind calls its receiver at once, where the receiver lives in the loop `home`: a direct
/// one does, a queued one doesn't, and one of kind auto does where this is the loop that runs.
#[inline(always)]
pub fn reaches_at_once(kind: Kind, home: LoopId, running: LoopId) -> bool
    ensures { result ≡ reaches_at_once kind home running }
{
    match kind {
        Kind::Direct => true,
        Kind::Auto => home == running,
        Kind::Queued => false,
    }
}
