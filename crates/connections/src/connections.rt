ghost use Rattle.std.specs.Prelude.{◌≡◌, ◌↔◌, ℕ, ◌+◌, ◌^◌, ◌<◌, ◌-◌, ◌≤◌, ◌&&◌, Err, [], ◌∷◌, ◌++◌, length, IsTrue, IsOk, OnOk, OnErr, count_by};
ghost use Rattle.std.specs.List.{find};
ghost use Rattle.connections.specs.Connected.{unconnected, joins, is_later, is_due, is_numbered, touches, are_connected, connected_by, removed_in, not_above, Rises};
ghost use Rattle.connections.specs.code.Cells.{fits};
ghost use Rattle.connections.specs.declared.fault.ConnectFault.TheVariants.{Exists};

use crate::adding::{make_rooms, put};
use crate::cell::Cell;
use crate::connection::Connection;
use crate::fault::{ConnectFault, DisconnectFault};
use crate::hint::SignalHint;
use crate::lists::Lists;
use crate::removing::{Removal, remove};
use crate::search::{lead_to_any, next_above};
use crate::sweeping::{sweep, tidy};
use basic_types::{Kind, ObjectId};
use slab::Slab;
use std::alloc::{AllocError, Global};
use std::marker::Model;

/// The connections that were made and not removed, in the order in which they were made, and the last number given.
///
/// Each has a cell, to which lists lead: one of all, one for each sender and signal, one for each object. A list holds
/// numbers and keys of cells, and what it holds leads to the connection of that number alone: a removed one is marked, and
/// no list has to be searched for it, nor when its cell is emptied and used again. So an emission costs what is connected
/// to its signal, and a disconnect the less of what is connected to the signal and to the receiver. Cells of removed
/// connections are taken until the next [`Connections::sweep`]. Lists and keys are tidied once more than half of what they
/// hold leads nowhere. Only `new`, which takes no memory yet, and `connect` ever take memory.
#[derive(Drop)]
pub struct Connections {
    alloc: Global,
    cells: Slab<Cell>,
    lists: Lists,
    marked: Vec<usize>,
    emptied: usize,
    last: u64,
}

impl Model for Connections {
    ghost use Rattle.connections.specs.Connected.{Held};

    ghost Value = { Held };

    ghost use Rattle.std.specs.Vec.{vec_len};
    ghost use Rattle.connections.specs.code.Lists.{shown_in, Tied};

    ghost view = { λ c. record {
      connected = record { connections = shown_in c.cells c.lists; last = c.last };
      marked = vec_len c.marked;
    } };

    ghost invariant = { λ c. Tied c.cells c.lists c.marked c.last };
}

impl Connections {
    /// No connections, no number given, and nothing marked.
    pub fn new(alloc: Global) -> Connections
        ensures connected { result.connected ≡ unconnected }
        ensures marked { result.marked ≡ 0 }
    {
        Connections {
            alloc,
            cells: Slab::new(alloc),
            lists: Lists::new(alloc),
            marked: Vec::new(alloc),
            emptied: 0,
            last: 0,
        }
    }

    /// The last number that was given to a connection, 0 at first.
    pub fn last(&self) -> u64
        ensures { result ≡ self.now.connected.last }
    {
        self.last
    }

    /// How many connections were removed since the last sweep: they are marked, and their cells are still taken.
    pub fn marked(&self) -> usize
        ensures { result ≡ self.now.marked }
    {
        self.marked.len()
    }

    /// How many cells are taken: one by each connection, and one by each that is marked.
    pub fn cells(&self) -> usize
        ensures { result ≡ self.now.marked + length self.now.connected.connections }
    {
        self.cells.len()
    }

    /// The numbers rise in the order of the connections, from 1 on, and none is above the last one given.
    pub fn numbers_rise(&self)
        ensures { Rises 0 self.now.connected.connections self.now.connected.last }
    {
        let _last = self.last;
    }

    /// The first connection of this sender and signal that was made later than the one of this number. Who walks all
    /// that is connected to a signal calls this; an emission, which stops at those made since it began, `next_due`.
    pub fn next_after(&self, sender: ObjectId, signal: usize, number: u64) -> Option<Connection>
        ensures { result ≡ find (is_later sender signal number) self.now.connected.connections }
    {
        let places = self.lists.of_signal(sender, signal);
        next_above(&self.cells, places, number)
    }

    /// The connection that an emission uses next: the first of its sender and signal that was made later than the last
    /// one used, and not later than the last one that was made when the emission began. An emission keeps one hint for
    /// all its calls and so searches for its signal once. The answer is the same whatever the hint holds, and nothing is
    /// said of what it holds afterwards.
    pub fn next_due(
        &self,
        sender: ObjectId,
        signal: usize,
        used: u64,
        made: u64,
        hint: &mut SignalHint,
    ) -> Option<Connection>
        ensures { result ≡ find (is_due sender signal used made) self.now.connected.connections }
    {
        let places = self.lists.of_signal_near(sender, signal, hint);
        let next = next_above(&self.cells, places, used);
        not_above(next, made)
    }

    /// Whether this signal of the sender is connected to this method of the receiver, in whatever way.
    pub fn are_connected(
        &self,
        sender: ObjectId,
        signal: usize,
        receiver: ObjectId,
        method: usize,
    ) -> bool
        ensures { result ≡ are_connected sender signal receiver method self.now.connected }
    {
        let places = self.lists.of_either(sender, signal, receiver);
        let same = Removal::Between(sender, signal, receiver, method);
        lead_to_any(&self.cells, places, &same)
    }

    /// Makes a connection with the next number, unless a `unique` one exists; without memory nothing changes.
    pub fn connect(
        &mut self,
        sender: ObjectId,
        signal: usize,
        receiver: ObjectId,
        method: usize,
        kind: Kind,
        unique: bool,
        single: bool,
    ) -> Result<(), ConnectFault>
        requires { self.old.connected.last < 2 ^ 63 - 1 }
        ensures made { OnOk result
            (self.new.connected
            ≡ connected_by self.old.connected sender signal receiver method kind single) }
        ensures marked { self.new.marked ≡ self.old.marked }
        ensures exists { (result ≡ Err Exists)
            ↔ IsTrue (unique && are_connected sender signal receiver method self.old.connected) }
        ensures err { OnErr result (self.new ≡ self.old) }
    {
        if unique && self.are_connected(sender, signal, receiver, method) {
            return Err(ConnectFault::Exists);
        }
        let connection = Connection {
            number: self.last + 1,
            sender,
            signal,
            receiver,
            method,
            kind,
            single,
        };
        self.append(connection)?;
        Ok(())
    }

    /// Adds a connection that has the next number.
    fn append(&mut self, connection: Connection) -> Result<(), AllocError>
        requires number { connection.number ≡ self.old.connected.last + 1 }
        ensures made { OnOk result
            (self.new.connected.connections ≡ self.old.connected.connections ++ connection ∷ []) }
        ensures numbered { OnOk result (self.new.connected.last ≡ self.old.connected.last + 1) }
        ensures marked { self.new.marked ≡ self.old.marked }
        ensures err { OnErr result (self.new ≡ self.old) }
    {
        make_rooms(
            self.alloc,
            &mut self.cells,
            &mut self.lists,
            &mut self.marked,
            &connection,
        )?;
        put(&mut self.cells, &mut self.lists, connection);
        self.last = connection.number;
        Ok(())
    }

    /// Removes all connections from this signal of the sender to this method of the receiver, and marks each.
    pub fn disconnect(
        &mut self,
        sender: ObjectId,
        signal: usize,
        receiver: ObjectId,
        method: usize,
    ) -> Result<(), DisconnectFault>
        ensures removed { OnOk result
            (self.new ≡ removed_in (joins sender signal receiver method) self.old) }
        ensures there { IsOk result
            ↔ IsTrue (are_connected sender signal receiver method self.old.connected) }
        ensures err { OnErr result (self.new ≡ self.old) }
    {
        let count = self.remove(Removal::Between(sender, signal, receiver, method));
        if count == 0 {
            return Err(DisconnectFault::NoConnection);
        }
        Ok(())
    }

    /// Removes the connections from and to an object, and marks each.
    pub fn drop_object(&mut self, object: ObjectId)
        ensures { self.new ≡ removed_in (touches object) self.old }
    {
        self.remove(Removal::Touching(object));
    }

    /// Removes the connection of this number, if it is there, and marks it.
    pub fn cut(&mut self, number: u64)
        ensures { self.new ≡ removed_in (is_numbered number) self.old }
    {
        self.remove(Removal::Numbered(number));
    }

    /// Removes the connections that are to be removed, and marks each: so many.
    fn remove(&mut self, removal: Removal) -> usize
        ensures removed { self.new ≡ removed_in (fits removal) self.old }
        ensures count { result ≡ count_by (fits removal) self.old.connected.connections }
    {
        remove(&mut self.cells, &mut self.lists, &mut self.marked, &removal)
    }

    /// Gives back the cells of the connections that were removed. No emission may go on that stands on one of them.
    pub fn sweep(&mut self)
        ensures connected { self.new.connected ≡ self.old.connected }
        ensures marked { self.new.marked ≡ 0 }
    {
        let emptied = self.emptied.saturating_add(self.marked.len());
        sweep(&mut self.cells, &mut self.marked);
        self.emptied = tidy(&self.cells, &mut self.lists, emptied);
    }
}

/// The connection, unless it was made later than the one of this number.
fn not_above(connection: Option<Connection>, made: u64) -> Option<Connection>
    ensures { result ≡ not_above made connection }
{
    match connection {
        Some(c) if c.number <= made => Some(c),
        _ => None,
    }
}
