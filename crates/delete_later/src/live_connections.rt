ghost use Rattle.std.specs.Prelude.{◌≡◌, ◌↔◌, ◌^◌, ◌<◌, ◌-◌, ◌&&◌, Err, IsTrue, IsOk, OnOk, OnErr};
ghost use Rattle.std.specs.List.{find};
ghost use Rattle.connections.specs.Connected.{unconnected, joins, is_due, is_numbered, touches, are_connected, connected_by, removed, Rises};
ghost use Rattle.connections.specs.declared.fault.ConnectFault.TheVariants.{Exists};

use basic_types::{Kind, ObjectId};
use connections::{ConnectFault, Connection, Connections, DisconnectFault, SignalHint};
use std::alloc::Global;
use std::marker::Model;

/// The connections of a run, as the machine's state has them: those that were made and not removed. How many removed
/// ones wait to be swept isn't part of that state, and no rule can tell.
pub struct LiveConnections {
    held: Connections,
}

impl Drop for LiveConnections {
    fn drop(self) {
        let LiveConnections { held: _ } = self;
    }
}

impl Model for LiveConnections {
    ghost use Rattle.connections.specs.Connected.{Connected};

    ghost Value = { Connected };

    ghost view = { λ live. live.held.connected };
}

impl LiveConnections {
    /// No connections, and no number given.
    pub fn new(alloc: Global) -> LiveConnections
        ensures { result ≡ unconnected }
    {
        LiveConnections {
            held: Connections::new(alloc),
        }
    }

    /// The last number that was given to a connection, 0 at first.
    pub fn last(&self) -> u64
        ensures { result ≡ self.now.last }
    {
        self.held.last()
    }

    /// The numbers rise in the order of the connections, from 1 on, and none is above the last one given.
    pub fn numbers_rise(&self)
        ensures { Rises 0 self.now.connections self.now.last }
    {
        self.held.numbers_rise();
    }

    /// The connection that an emission uses next: the first of its sender and signal that was made later than the last
    /// one used, and not later than the last one that was made when the emission began. The hint is as
    /// [`Connections::next_due`] takes it: the answer is the same whatever it holds.
    pub fn next_due(
        &self,
        sender: ObjectId,
        signal: usize,
        used: u64,
        made: u64,
        hint: &mut SignalHint,
    ) -> Option<Connection>
        ensures { result ≡ find (is_due sender signal used made) self.now.connections }
    {
        self.held.next_due(sender, signal, used, made, hint)
    }

    /// Whether this signal of the sender is connected to this method of the receiver, in whatever way.
    pub fn are_connected(
        &self,
        sender: ObjectId,
        signal: usize,
        receiver: ObjectId,
        method: usize,
    ) -> bool
        ensures { result ≡ are_connected sender signal receiver method self.now }
    {
        self.held.are_connected(sender, signal, receiver, method)
    }

    /// Makes a connection with the next number, unless a `unique` one exists; without memory nothing changes.
    pub fn connect(
        &mut self,
        sender: ObjectId,
        signal: usize,
        receiver: ObjectId,
        method: usize,
        kind: Kind,
        unique: bool,
        single: bool,
    ) -> Result<(), ConnectFault>
        requires { self.old.last < 2 ^ 63 - 1 }
        ensures made { OnOk result
            (self.new ≡ connected_by self.old sender signal receiver method kind single) }
        ensures exists { (result ≡ Err Exists)
            ↔ IsTrue (unique && are_connected sender signal receiver method self.old) }
        ensures err { OnErr result (self.new ≡ self.old) }
    {
        self.held
            .connect(sender, signal, receiver, method, kind, unique, single)
    }

    /// Removes all connections from this signal of the sender to this method of the receiver.
    pub fn disconnect(
        &mut self,
        sender: ObjectId,
        signal: usize,
        receiver: ObjectId,
        method: usize,
    ) -> Result<(), DisconnectFault>
        ensures removed { OnOk result
            (self.new ≡ removed (joins sender signal receiver method) self.old) }
        ensures there { IsOk result
            ↔ IsTrue (are_connected sender signal receiver method self.old) }
        ensures err { OnErr result (self.new ≡ self.old) }
    {
        self.held.disconnect(sender, signal, receiver, method)
    }

    /// Removes the connections from and to an object.
    pub fn drop_object(&mut self, object: ObjectId)
        ensures { self.new ≡ removed (touches object) self.old }
    {
        self.held.drop_object(object);
    }

    /// Removes the connection of this number, if it is there.
    pub fn cut(&mut self, number: u64)
        ensures { self.new ≡ removed (is_numbered number) self.old }
    {
        self.held.cut(number);
    }

    /// Gives back the cells of the connections that were removed.
    pub fn sweep(&mut self)
        ensures { self.new ≡ self.old }
    {
        self.held.sweep();
    }
}
