ghost use Rattle.std.specs.Prelude.{◌≡◌, ◌↔◌, IsTrue, Some};

use crate::values::Values;
use basic_types::{LoopId, ObjectId};

/// What an object has while it lives.
#[derive(Drop)]
pub struct Life {
    /// Its class's number.
    pub class: usize,
    /// The loop that it lives in.
    pub home: LoopId,
    /// Its parent, which may be dead.
    pub parent: Option<ObjectId>,
    /// Whether its signals call nothing.
    pub blocked: bool,
    /// Whether its deletion is scheduled.
    pub scheduled: bool,
    /// Its properties' values, by the properties' numbers.
    pub values: Values,
}

impl Life {
    /// Whether this is the object's parent.
    pub fn is_under(&self, parent: ObjectId) -> bool
        ensures { IsTrue result ↔ (self.now.parent ≡ Some parent) }
    {
        self.parent == Some(parent)
    }
}
