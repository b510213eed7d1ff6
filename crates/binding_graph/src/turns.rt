//! Readers that wait for their turn.

ghost use Rattle.std.specs.Prelude.{◌≡◌, ◌∷◌, [], length, MatchOption, OnOk};
ghost use Rattle.std.specs.List.Sorted.{IsPermutation};
ghost use Rattle.binding_graph.specs.code.Turns.{AreTurns, IsNext, turns_in};

use std::alloc::{AllocError, Global};
use std::cmp::Reverse;
use std::collections::{BinaryHeap, VecDeque};

/// Readers that wait for their turn, with their numbers, of which the lowest comes first. One waits once for each of its
/// sources. Most come in the order of their numbers, and wait in a row, which is cheaper than a heap.
#[derive(Drop)]
pub struct Turns {
    /// Those that came in the order of their numbers.
    pub row: VecDeque<Reverse<(usize, (usize, usize))>>,
    /// No number in the row is above this one.
    pub last: usize,
    /// The others.
    pub others: BinaryHeap<Reverse<(usize, (usize, usize))>>,
}

impl Turns {
    /// None waits.
    pub fn new(alloc: Global) -> Turns
        ensures none { turns_in result ≡ [] }
        ensures turns { AreTurns result }
    {
        Turns {
            row: VecDeque::new(alloc),
            last: 0,
            others: BinaryHeap::new(alloc),
        }
    }

    /// One more waits. Its error is that memory was refused.
    #[inline(always)]
    pub fn push(&mut self, turn: Reverse<(usize, (usize, usize))>) -> Result<(), AllocError>
        requires { AreTurns self.old }
        ensures put { OnOk result (IsPermutation (turn ∷ turns_in self.old) (turns_in self.new)) }
        ensures turns { OnOk result (AreTurns self.new) }
    {
        let number = turn.0.0;
        if number < self.last {
            self.others.push(turn)?;
            return Ok(());
        }
        self.row.push_back(turn)?;
        self.last = number;
        Ok(())
    }

    /// Takes the one whose turn is next.
    #[inline(always)]
    pub fn pop(&mut self) -> Option<Reverse<(usize, (usize, usize))>>
        requires { AreTurns self.old }
        ensures next { MatchOption result (length (turns_in self.old) ≡ 0)
            (IsNext (turns_in self.old) (turns_in self.new)) }
        ensures turns { AreTurns self.new }
    {
        let Some(first) = self.row.front() else {
            return self.others.pop();
        };
        let Some(other) = self.others.peek() else {
            return self.row.pop_front();
        };
        if other.0.0 < first.0.0 {
            return self.others.pop();
        }
        self.row.pop_front()
    }
}
