ghost use Rattle.std.specs.Prelude.{◌≡◌};

use std::marker::Model;

/// An object's creation number: the first object of a run has 0, the next one 1, and a number is never used again.
#[derive(Clone, Copy, Debug, PartialEq, Eq)]
pub struct ObjectId {
    number: usize,
}

impl Model for ObjectId {
    ghost use Rattle.std.specs.Prelude.{ℕ};

    ghost Value = { ℕ };

    ghost view = { λ id. id.number };

    ghost inverse = { λ n. record { number = n } };
}

impl ObjectId {
    /// The object that is created after this many others.
    pub fn new(number: usize) -> ObjectId
        ensures { result ≡ number }
    {
        ObjectId { number }
    }

    /// How many objects were created before it.
    pub fn number(self) -> usize
        ensures { result ≡ self }
    {
        self.number
    }
}
