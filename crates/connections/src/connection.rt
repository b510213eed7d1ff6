ghost use Rattle.std.specs.Prelude.{◌≡◌};
ghost use Rattle.connections.specs.Connected.{is_of, joins, touches};

use basic_types::{Kind, ObjectId};

/// A connection, with the number under which it was made.
#[derive(Clone, Copy, Debug)]
pub struct Connection {
    /// Its number, from 1 on.
    pub number: u64,
    /// The object whose signal is connected.
    pub sender: ObjectId,
    /// The signal's number in the sender's class.
    pub signal: usize,
    /// The object whose method is called.
    pub receiver: ObjectId,
    /// The method's number in the receiver's class.
    pub method: usize,
    /// How it reaches its receiver.
    pub kind: Kind,
    /// Whether it is removed as it is used.
    pub single: bool,
}

impl Connection {
    /// Whether it is of this sender and signal.
    pub fn is_of(&self, sender: ObjectId, signal: usize) -> bool
        ensures { result ≡ is_of sender signal self.now }
    {
        self.sender == sender && self.signal == signal
    }

    /// Whether it joins this signal of the sender to this method of the receiver.
    pub fn joins(&self, sender: ObjectId, signal: usize, receiver: ObjectId, method: usize) -> bool
        ensures { result ≡ joins sender signal receiver method self.now }
    {
        self.is_of(sender, signal) && self.receiver == receiver && self.method == method
    }

    /// Whether it leads from or to the object.
    pub fn touches(&self, object: ObjectId) -> bool
        ensures { result ≡ touches object self.now }
    {
        self.sender == object || self.receiver == object
    }
}
