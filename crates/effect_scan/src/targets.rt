//! The numbers that the edges from a node lead to, in little memory: most nodes have one of them, and many the same list.

ghost use Rattle.std.specs.Prelude.{◌≡◌, ◌++◌, ◌∷◌, [], length, IfOk, OnOk};
ghost use Rattle.effect_scan.specs.code.Adding.{IsOrdered, HasBoth};
ghost use Rattle.effect_scan.specs.code.Holding.{held_list};

use crate::added::{Added, is_increasing};
use basic_types::Shared;
use std::alloc::{AllocError, Global};
use std::marker::Model;
use std::mem;

/// How numbers are held.
#[derive(Drop)]
pub enum HeldNumbers {
    /// There are none.
    Nothing,
    /// There is one.
    One([usize; 1]),
    /// They are a list that other nodes have too.
    Common(Shared<Added>),
    /// They are a list of the node's own.
    Own(Added),
}

impl HeldNumbers {
    /// The numbers.
    fn as_slice(&self) -> &[usize]
        ensures { result.now ≡ held_list self.now }
    {
        match self {
            HeldNumbers::Nothing => &[],
            HeldNumbers::One(number) => number.as_slice(),
            HeldNumbers::Common(list) => list.get().as_slice(),
            HeldNumbers::Own(list) => list.as_slice(),
        }
    }

    /// Just these numbers; the error is that memory was refused.
    fn just(alloc: Global, numbers: &[usize]) -> Result<HeldNumbers, AllocError>
        ensures { IfOk result (λ held. held_list held ≡ numbers.now) }
    {
        if numbers.len() == 1 {
            return Ok(HeldNumbers::One([numbers[0]]));
        }
        let list = Added::with_room(alloc, numbers, 0)?;
        Ok(HeldNumbers::Own(list))
    }

    /// The numbers in a list of their own, which has room for so many more; the error is that memory was refused.
    fn into_own(self, alloc: Global, more: usize) -> Result<Added, AllocError>
        ensures { IfOk result (λ own. own ≡ held_list self) }
    {
        match self {
            HeldNumbers::Own(list) => Ok(list),
            held => Added::with_room(alloc, held.as_slice(), more),
        }
    }

    /// The numbers with these behind them; the error is that memory was refused.
    fn with_all(self, alloc: Global, numbers: &[usize]) -> Result<HeldNumbers, AllocError>
        ensures { IfOk result (λ held. held_list held ≡ held_list self ++ numbers.now) }
    {
        match self {
            HeldNumbers::Nothing => HeldNumbers::just(alloc, numbers),
            held => {
                let mut list = held.into_own(alloc, numbers.len())?;
                list.add_all(numbers)?;
                Ok(HeldNumbers::Own(list))
            }
        }
    }

    /// The numbers of both lists: where both are in their order, so are these, each once; the error is that memory was refused.
    fn united(self, alloc: Global, numbers: &[usize]) -> Result<HeldNumbers, AllocError>
        ensures { IfOk result (λ held. HasBoth (held_list self) numbers.now (held_list held)) }
    {
        match self {
            HeldNumbers::Nothing => HeldNumbers::just(alloc, numbers),
            held => {
                let list = Added::of_both(alloc, held.as_slice(), numbers)?;
                Ok(HeldNumbers::Own(list))
            }
        }
    }

    /// The numbers in their order, each once; the error is that memory was refused. A list that is in order stays the one that
    /// other nodes have too.
    fn in_order(self, alloc: Global) -> Result<HeldNumbers, AllocError>
        ensures { IfOk result (λ held. IsOrdered (held_list self) (held_list held)) }
    {
        match self {
            HeldNumbers::Own(list) => Ok(HeldNumbers::Own(list.fitted())),
            held => {
                if is_increasing(held.as_slice()) {
                    return Ok(held);
                }
                let list = Added::with_room(alloc, held.as_slice(), 0)?;
                Ok(HeldNumbers::Own(list.fitted()))
            }
        }
    }

    /// The numbers, in a list that other nodes can have too; the error is that memory was refused.
    fn into_common(self, alloc: Global) -> Result<HeldNumbers, AllocError>
        ensures { IfOk result (λ held. held_list held ≡ held_list self) }
    {
        match self {
            HeldNumbers::Own(list) => {
                let list = Shared::new(alloc, list)?;
                Ok(HeldNumbers::Common(list))
            }
            held => Ok(held),
        }
    }

    /// The same numbers, in the same list where other nodes can have it; the error is that memory was refused.
    fn copy(&self, alloc: Global) -> Result<HeldNumbers, AllocError>
        ensures { IfOk result (λ held. held_list held ≡ held_list self.now) }
    {
        match self {
            HeldNumbers::Nothing => Ok(HeldNumbers::Nothing),
            HeldNumbers::One(number) => Ok(HeldNumbers::One(*number)),
            HeldNumbers::Common(list) => {
                let list = list.copy()?;
                Ok(HeldNumbers::Common(list))
            }
            HeldNumbers::Own(list) => {
                let list = Added::with_room(alloc, list.as_slice(), 0)?;
                Ok(HeldNumbers::Own(list))
            }
        }
    }
}

/// The numbers that the edges from a node lead to.
#[derive(Drop)]
pub struct Targets {
    held: HeldNumbers,
}

impl Model for Targets {
    ghost use Rattle.std.specs.Prelude.{List, ℕ};
    ghost use Rattle.effect_scan.specs.code.Holding.{held_list};

    ghost Value = { List ℕ };

    ghost view = { λ targets. held_list targets.held };
}

impl Targets {
    /// No numbers.
    pub fn new() -> Targets
        ensures { result ≡ [] }
    {
        Targets {
            held: HeldNumbers::Nothing,
        }
    }

    /// The numbers.
    pub fn as_slice(&self) -> &[usize]
        ensures { result.now ≡ self.now }
    {
        self.held.as_slice()
    }

    /// Adds the number to the end.
    pub fn add(&mut self, alloc: Global, number: usize) -> Result<(), AllocError>
        ensures { OnOk result (self.new ≡ self.old ++ number ∷ []) }
    {
        self.add_all(alloc, &[number])
    }

    /// Adds the numbers to the end.
    pub fn add_all(&mut self, alloc: Global, numbers: &[usize]) -> Result<(), AllocError>
        ensures { OnOk result (self.new ≡ self.old ++ numbers.now) }
    {
        if numbers.is_empty() {
            return Ok(());
        }
        let held = mem::replace(&mut self.held, HeldNumbers::Nothing);
        self.held = held.with_all(alloc, numbers)?;
        Ok(())
    }

    /// Adds the numbers, among those before: where both are in their order, so are all, each once.
    pub fn unite(&mut self, alloc: Global, numbers: &[usize]) -> Result<(), AllocError>
        ensures { IfOk result (λ _. HasBoth self.old numbers.now self.new) }
    {
        let held = mem::replace(&mut self.held, HeldNumbers::Nothing);
        self.held = held.united(alloc, numbers)?;
        Ok(())
    }

    /// Puts the numbers in their order, each once.
    pub fn put_in_order(&mut self, alloc: Global) -> Result<(), AllocError>
        ensures { IfOk result (λ _. IsOrdered self.old self.new) }
    {
        let held = mem::replace(&mut self.held, HeldNumbers::Nothing);
        self.held = held.in_order(alloc)?;
        Ok(())
    }

    /// Keeps the numbers so that copies share them. The error is that memory was refused.
    pub fn share(&mut self, alloc: Global) -> Result<(), AllocError>
        ensures { IfOk result (λ _. self.new ≡ self.old) }
    {
        let held = mem::replace(&mut self.held, HeldNumbers::Nothing);
        self.held = held.into_common(alloc)?;
        Ok(())
    }

    /// The same numbers, in the same list where they are shared. The error is that memory was refused.
    pub fn copy(&self, alloc: Global) -> Result<Targets, AllocError>
        ensures { IfOk result (λ copy. copy ≡ self.now) }
    {
        let held = self.held.copy(alloc)?;
        Ok(Targets { held })
    }
}
