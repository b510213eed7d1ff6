//! All of the machine's state but the stack.

ghost use Rattle.std.specs.Prelude.{◌≡◌, ◌<◌, ◌≤◌, [], ◌∷◌, IfOk, IfSome, MatchOption};
ghost use Rattle.std.specs.List.{find};
ghost use Rattle.std.specs.Option.{option_copied};
ghost use Rattle.object_tree.specs.Objects.{IsFree, IsNamed, life_of};
ghost use Rattle.machine_state.specs.Connections.{next_used, can_be_used, silences, is_silent};
ghost use Rattle.machine_state.specs.Worlds.{untouched};
ghost use Rattle.machine_state.specs.code.Changing.{Ticks, IsLeft, GoesTo, noted, using};

use crate::turn::Turn;
use basic_types::{Name, ObjectId};
use connections::{Connection, SignalHint};
use delete_later::Store;
use meta_model::DESTROYED;
use object_tree::{Life, Object};
use std::alloc::{AllocError, Global};
use trace_entries::{Entry, Fault, Trace};

/// All of a machine's state but the stack, and how many rules are left.
pub struct World {
    /// The objects, the connections between them, the event loops, and the bindings of the objects' properties.
    pub store: Store,
    /// The turn that goes on, if one does.
    pub turn: Option<Turn>,
    /// What was written down so far.
    pub trace: Trace,
    /// How many events were taken.
    pub events: u64,
    /// How many rules may still be used.
    pub left: u64,
}

impl Drop for World {
    fn drop(self) {
        let World {
            store: _,
            turn: _,
            trace: _,
            events: _,
            left: _,
        } = self;
    }
}

impl World {
    /// The world before anything has happened, with so many rules to use.
    pub fn new(alloc: Global, steps: u64) -> Result<World, AllocError>
        ensures { IfOk result (λ world. world ≡ untouched steps) }
    {
        let store = Store::new(alloc)?;
        Ok(World {
            store,
            turn: None,
            trace: Trace::new(alloc),
            events: 0,
            left: steps,
        })
    }

    /// The number of the object that has or had this name.
    pub fn find(&self, name: &Name) -> Option<ObjectId>
        ensures { MatchOption result (IsFree self.now.store.tree name.now)
            (IsNamed self.now.store.tree name.now) }
    {
        self.store.tree.find(name)
    }

    /// The connection that an emission uses next: the first of this sender and signal that was made later than the one
    /// of the number `used`, and not later than that of `last`, and whose receiver lives; none where the sender lives and
    /// is blocked, unless the signal is `destroyed`. An emission keeps one hint for all its calls; the answer is the same
    /// whatever it holds.
    #[inline(always)]
    pub fn next_used(
        &self,
        sender: ObjectId,
        signal: usize,
        used: u64,
        last: u64,
        hint: &mut SignalHint,
    ) -> Option<Connection>
        ensures value { let connections = self.now.store.connections.connections in
            result ≡ next_used self.now.store.tree connections sender signal used last }
        ensures within { IfSome result (λ c. (used < c.number) × (c.number ≤ last)) }
    {
        if self.is_silent(sender, signal) {
            None
        } else {
            self.first_to_living(sender, signal, used, last, hint)
        }
    }

    /// The first connection that is due and whose receiver lives.
    #[inline(always)]
    fn first_to_living(
        &self,
        sender: ObjectId,
        signal: usize,
        used: u64,
        last: u64,
        hint: &mut SignalHint,
    ) -> Option<Connection>
        ensures { let can_be_used = can_be_used self.now.store.tree sender signal used last in
            result ≡ find can_be_used self.now.store.connections.connections }
    {
        let store = &self.store;
        store.connections.numbers_rise();
        let mut passed = used;
        while let Some(connection) = store
            .connections
            .next_due(sender, signal, passed, last, hint)
        {
            if store.tree.life(connection.receiver).is_some() {
                return Some(connection);
            }
            passed = connection.number;
        }
        None
    }

    /// Whether an emission of this signal calls nothing, since the sender lives and is blocked.
    #[inline(always)]
    fn is_silent(&self, sender: ObjectId, signal: usize) -> bool
        ensures { result ≡ silences (life_of self.now.store.tree sender) signal }
    {
        silences(self.store.tree.life(sender), signal)
    }

    /// A rule that writes nothing down.
    #[inline(always)]
    pub fn tick(&mut self) -> Result<(), Fault>
        ensures { Ticks self.old self.new result }
    {
        if self.left == 0 {
            return Err(Fault::Steps);
        }
        self.left -= 1;
        Ok(())
    }

    /// `Steps` where no rule is left; nothing changes.
    #[inline(always)]
    pub fn require_rule(&self) -> Result<(), Fault>
        ensures { IsLeft self.now result }
    {
        if self.left == 0 {
            Err(Fault::Steps)
        } else {
            Ok(())
        }
    }

    /// A rule that writes this entry down; without memory nothing changes.
    #[inline(always)]
    pub fn note(&mut self, entry: Entry) -> Result<(), Fault>
        requires left { 0 < self.old.left }
        ensures { GoesTo self.old (noted self.old (entry ∷ [])) self.new result }
    {
        self.trace.push(entry)?;
        self.left -= 1;
        Ok(())
    }

    /// A rule that uses a connection, so that a single-shot one is removed, and writes this entry down; without memory
    /// nothing changes.
    #[inline(always)]
    pub fn use_connection(&mut self, entry: Entry, connection: &Connection) -> Result<(), Fault>
        requires left { 0 < self.old.left }
        ensures { GoesTo self.old (using self.old (entry ∷ []) connection.now) self.new result }
    {
        self.note(entry)?;
        if connection.single {
            self.store.connections.cut(connection.number);
        }
        Ok(())
    }

    /// Gives back what removed connections still take up, where no emission goes on; the world stays as it is.
    #[inline(always)]
    pub fn sweep(&mut self)
        ensures { self.new ≡ self.old }
    {
        self.store.sweep();
    }
}

/// Whether an emission of this signal calls nothing, since its object lives and is blocked; `destroyed` always calls.
pub fn is_silent(object: &Object, signal: usize) -> bool
    ensures { result ≡ is_silent object.now signal }
{
    silences(object.life.as_ref(), signal)
}

/// Whether an object that lives this life is blocked, and the signal isn't `destroyed`.
#[inline(always)]
fn silences(life: Option<&Life>, signal: usize) -> bool
    ensures { result ≡ silences (option_copied life.entry) signal }
{
    match life {
        Some(life) => life.blocked && signal != DESTROYED,
        None => false,
    }
}
