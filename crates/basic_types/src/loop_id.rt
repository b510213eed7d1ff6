ghost use Rattle.std.specs.Prelude.{◌≡◌};

use std::marker::Model;

/// An event loop, by its place in the order in which the loops were added: `main` is 0.
#[derive(Clone, Copy, Debug, PartialEq, Eq)]
pub struct LoopId {
    number: usize,
}

impl Model for LoopId {
    ghost use Rattle.std.specs.Prelude.{ℕ};

    ghost Value = { ℕ };

    ghost view = { λ id. id.number };

    ghost inverse = { λ n. record { number = n } };
}

impl LoopId {
    /// The loop that is added after this many others.
    pub fn new(number: usize) -> LoopId
        ensures { result ≡ number }
    {
        LoopId { number }
    }

    /// How many loops were added before it.
    pub fn number(self) -> usize
        ensures { result ≡ self }
    {
        self.number
    }
}
