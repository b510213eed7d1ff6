//! Numbers that are gathered one after another.

ghost use Rattle.std.specs.Prelude.{◌≡◌, ◌++◌, ◌∷◌, [], IfOk, OnOk, IsTrue};
ghost use Rattle.std.specs.List.Sorted.{IsStrictlyIncreasing};
ghost use Rattle.effect_scan.specs.code.Adding.{IsOrdered, HasBoth};

use std::alloc::{AllocError, Global};
use std::marker::Model;

/// Numbers as they are added, in any order, and some perhaps more than once.
#[derive(Drop)]
pub struct Added {
    numbers: Vec<usize>,
}

impl Model for Added {
    ghost use Rattle.std.specs.Prelude.{List, ℕ};

    ghost Value = { List ℕ };

    ghost view = { λ added. added.numbers.items };
}

impl Added {
    /// No numbers.
    pub fn new(alloc: Global) -> Added
        ensures { result ≡ [] }
    {
        Added {
            numbers: Vec::new(alloc),
        }
    }

    /// These numbers, in a list that has room for so many more. The error is that memory was refused.
    pub fn with_room(alloc: Global, numbers: &[usize], more: usize) -> Result<Added, AllocError>
        ensures { IfOk result (λ added. added ≡ numbers.now) }
    {
        let mut all = Vec::with_capacity(alloc, numbers.len().saturating_add(more))?;
        all.extend_from_slice(numbers)?;
        Ok(Added { numbers: all })
    }

    /// The numbers of both lists: where both are in their order, so are these, each once. The error is that memory was refused.
    pub fn of_both(alloc: Global, first: &[usize], other: &[usize]) -> Result<Added, AllocError>
        ensures { IfOk result (λ all. HasBoth first.now other.now all) }
    {
        let mut numbers = Vec::with_capacity(alloc, first.len().saturating_add(other.len()))?;
        let mut i = 0;
        let mut j = 0;
        while i < first.len() && j < other.len() {
            let left = first[i];
            let right = other[j];
            if left < right {
                numbers.push(left)?;
                i += 1;
            } else {
                numbers.push(right)?;
                j += 1;
                if left == right {
                    i += 1;
                }
            }
        }
        numbers.extend_from_slice(&first[i..])?;
        numbers.extend_from_slice(&other[j..])?;
        Ok(Added { numbers })
    }

    /// The numbers as they were added.
    pub fn as_slice(&self) -> &[usize]
        ensures { result.now ≡ self.now }
    {
        self.numbers.as_slice()
    }

    /// Adds the number to the end.
    pub fn add(&mut self, number: usize) -> Result<(), AllocError>
        ensures { OnOk result (self.new ≡ self.old ++ number ∷ []) }
    {
        self.numbers.push(number)?;
        Ok(())
    }

    /// Adds the numbers to the end.
    pub fn add_all(&mut self, numbers: &[usize]) -> Result<(), AllocError>
        ensures { OnOk result (self.new ≡ self.old ++ numbers.now) }
    {
        self.numbers.extend_from_slice(numbers)?;
        Ok(())
    }

    /// Puts the numbers in their order, each once.
    pub fn put_in_order(&mut self)
        ensures { IsOrdered self.old self.new }
    {
        if is_increasing(self.numbers.as_slice()) {
            return;
        }
        self.numbers.sort_unstable();
        self.numbers.dedup();
    }

    /// The numbers in their order, each once, in no more memory than they need.
    pub fn fitted(self) -> Added
        ensures { IsOrdered self result }
    {
        let mut added = self;
        added.put_in_order();
        let Added { mut numbers } = added;
        numbers.shrink_to_fit();
        Added { numbers }
    }
}

/// Whether each of the numbers is above the one before it.
pub fn is_increasing(numbers: &[usize]) -> bool
    ensures { IsTrue result → IsStrictlyIncreasing numbers.now }
{
    for place in 1..numbers.len() {
        let before = numbers[place - 1];
        let here = numbers[place];
        if before >= here {
            return false;
        }
    }
    true
}
