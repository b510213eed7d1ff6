//! What a run writes down.

ghost use Rattle.std.specs.Prelude.{◌≡◌, [], ◌∷◌, ◌++◌, ◌+◌, ◌<◌, ◌≤◌, ◌^◌, OnOk, OnErr, length, take, vec_len, vec_capacity};
ghost use Rattle.trace_entries.specs.Lists.{LosesLast};
ghost use Rattle.trace_entries.specs.declared.entry.Entry.TheVariants.{Accepted};

use crate::shown_values::ShownValues;
use basic_types::{Name, Text};
use sqlite_items::Items;
use std::alloc::{AllocError, Global};
use std::marker::Model;
use syntax_trees::{ConnectionType, Endpoints};

/// A value as it is written down.
#[derive(Drop)]
pub enum Shown {
    /// A number.
    Int(i32),
    /// A truth value.
    Bool(bool),
    /// A text.
    Text(Text),
    /// A reference to the object of this name.
    Object(Name),
    /// A reference to no object.
    Null,
}

/// Null.
impl Default for Shown {
    ghost use Rattle.std.specs.Prelude.{◌≡◌};
    ghost use Rattle.trace_entries.specs.declared.entry.Shown.TheVariants.{Null};

    ghost is_default = { λ v. v ≡ Null };

    fn default() -> Shown {
        Shown::Null
    }
}

/// An action of a native as it is written down.
#[derive(Drop)]
pub enum ShownAction {
    /// A property of its object is set.
    Set {
        /// The property.
        property: Name,
        /// Its new value.
        value: Shown,
    },
    /// A signal of its object is emitted.
    Emit {
        /// The signal.
        signal: Name,
        /// With these arguments.
        arguments: ShownValues,
    },
}

/// What happens by a rule or an event.
#[derive(Drop)]
pub enum EntryKind {
    /// A signal is emitted.
    Emitted {
        /// Whose signal.
        object: Name,
        /// The signal.
        signal: Name,
        /// With these arguments.
        arguments: ShownValues,
        /// Whether it calls nothing, since the object is blocked.
        blocked: bool,
    },
    /// A slot or a native is called.
    Called {
        /// Whose slot or native.
        object: Name,
        /// The slot or native.
        slot: Name,
        /// With these arguments.
        arguments: ShownValues,
    },
    /// A native that was called answers these actions, which come next.
    Answered {
        /// The actions, in their order.
        actions: Items<ShownAction>,
    },
    /// A property is written.
    Written {
        /// Whose property.
        object: Name,
        /// The property.
        property: Name,
        /// Its new value.
        value: Shown,
    },
    /// A property is bound.
    Bound {
        /// Whose property.
        object: Name,
        /// The property.
        property: Name,
        /// Its new value.
        value: Shown,
    },
    /// A property changes by its binding.
    Followed {
        /// Whose property.
        object: Name,
        /// The property.
        property: Name,
        /// Its new value.
        value: Shown,
    },
    /// A call of a slot, or of a signal, is posted to an event loop.
    Posted {
        /// The loop.
        event_loop: Name,
        /// Whose method.
        object: Name,
        /// The method.
        method: Name,
        /// With these arguments.
        arguments: ShownValues,
    },
    /// An object dies.
    Died {
        /// Which object.
        object: Name,
    },
    /// The deletion of an object is posted to an event loop.
    Scheduled {
        /// The loop.
        event_loop: Name,
        /// Which object.
        object: Name,
    },
    /// A statement, or a set of a group, does nothing, since a path leads to null.
    OnNull,
    /// The sets of a group are done at once; each comes next, in their order.
    Grouped,
    /// A statement makes a connection between the objects of these names, in this way.
    Connected(Endpoints<Name>, ConnectionType),
    /// A statement removes the connections between the objects of these names.
    Disconnected(Endpoints<Name>),
    /// A statement is refused for the reason of this number.
    Refused(u8),
}

/// An entry of the trace.
#[derive(Drop)]
pub enum Entry {
    /// The event of this number, counted from 1, was accepted.
    Accepted(u64),
    /// The event of this number was refused for the reason of this number.
    Refused(u64, u8),
    /// This happens at this depth: the length of the stack of activations, after what was pushed.
    At(usize, EntryKind),
}

/// The entries of a run, in their order.
pub struct Trace {
    entries: Vec<Entry>,
}

impl Drop for Trace {
    fn drop(self) {
        let Trace { entries: _ } = self;
    }
}

impl Model for Trace {
    ghost use Rattle.std.specs.Prelude.{List};
    ghost use Rattle.trace_entries.specs.declared.entry.Entry.{Entry};

    ghost Value = { List Entry };

    ghost view = { λ trace. trace.entries.items };
}

impl Trace {
    /// A trace with no entry.
    pub fn new(alloc: Global) -> Trace
        ensures { result ≡ [] }
    {
        Trace {
            entries: Vec::new(alloc),
        }
    }

    /// The entries.
    pub fn as_slice(&self) -> &[Entry]
        ensures { result.now ≡ self.now }
    {
        self.entries.as_slice()
    }

    /// Makes room for so many more entries, so that it grows once for them. The entries stay as they were.
    pub fn reserve(&mut self, more: usize) -> Result<(), AllocError>
        ensures { self.new ≡ self.old }
    {
        self.entries.reserve(more)
    }

    /// Adds an entry; without memory the trace stays as it was. A push into room that is there writes the entry where it
    /// stays; `Vec::push`, which may fail, is called with a copy of it.
    #[inline(always)]
    pub fn push(&mut self, entry: Entry) -> Result<(), AllocError>
        ensures ok { OnOk result (self.new ≡ self.old ++ entry ∷ []) }
        ensures err { OnErr result (self.new ≡ self.old) }
    {
        self.entries.reserve(1)?;
        self.entries.push_reserved(entry);
        Ok(())
    }

    /// Adds entries in their order; without memory for all of them the trace stays as it was.
    pub fn append<const N: usize>(&mut self, entries: [Entry; N]) -> Result<(), AllocError>
        requires few { N < 2 ^ 32 }
        ensures ok { OnOk result (self.new ≡ self.old ++ entries.entry) }
        ensures err { OnErr result (self.new ≡ self.old) }
    {
        self.entries.reserve(N)?;
        push_all(&mut self.entries, entries);
        Ok(())
    }

    /// Adds the entry of an accepted event, and then those of what it does; without memory for all of them the trace
    /// stays as it was.
    pub fn accept<const N: usize>(
        &mut self,
        event: u64,
        entries: [Entry; N],
    ) -> Result<(), AllocError>
        requires few { N < 2 ^ 32 }
        ensures ok { OnOk result (self.new ≡ self.old ++ Accepted event ∷ [] ++ entries.entry) }
        ensures err { OnErr result (self.new ≡ self.old) }
    {
        self.entries.reserve(N + 1)?;
        self.entries.push_reserved(Entry::Accepted(event));
        push_all(&mut self.entries, entries);
        Ok(())
    }

    /// How many entries there are.
    pub fn len(&self) -> usize
        ensures { result ≡ length self.now }
    {
        self.entries.len()
    }

    /// Takes all entries after these first ones off again.
    pub fn keep_first(&mut self, count: usize)
        ensures { self.new ≡ take count self.old }
    {
        self.entries.truncate(count);
    }

    /// The allocator from which the trace takes its memory.
    pub fn allocator(&self) -> Global {
        *self.entries.allocator()
    }

    /// Takes the last entry off again.
    pub fn pop(&mut self)
        ensures { LosesLast self.old self.new }
    {
        let _last = self.entries.pop();
    }
}

/// Adds entries in their order to a list that has room for them.
fn push_all<const N: usize>(list: &mut Vec<Entry>, entries: [Entry; N])
    requires few { N < 2 ^ 32 }
    requires room { vec_len list.old + N ≤ vec_capacity list.old }
    ensures { list.new.items ≡ list.old.items ++ entries.entry }
{
    for entry in entries {
        list.push_reserved(entry);
    }
}
