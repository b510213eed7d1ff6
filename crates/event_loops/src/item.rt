ghost use Rattle.std.specs.Prelude.{◌≡◌};
ghost use Rattle.event_loops.specs.Queues.{receiver_of};

use basic_types::{Arguments, ObjectId};

/// What a loop delivers.
#[derive(Drop)]
pub enum Item {
    /// A call of an object's method, by the method's number in the object's class.
    Call {
        object: ObjectId,
        method: usize,
        arguments: Arguments,
    },
    /// The deletion of an object.
    Deletion {
        object: ObjectId,
    },
}

impl Item {
    /// The object that it is for.
    pub fn object(&self) -> ObjectId
        ensures { result ≡ receiver_of self.now }
    {
        match self {
            Item::Call { object, .. } => *object,
            Item::Deletion { object } => *object,
        }
    }
}

/// An item that waits, with the number under which it was posted.
#[derive(Drop)]
pub struct Posted {
    /// Its number, from 1 on, in all loops together.
    pub number: u64,
    /// What is to be delivered.
    pub item: Item,
}
