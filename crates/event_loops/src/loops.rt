ghost use Rattle.std.specs.Prelude.{◌≡◌, ◌↔◌, ◌+◌, ◌-◌, ◌^◌, ◌<◌, ◌≤◌, Err, length, IfOk, IfSome, OnOk, OnErr, MatchOption};
ghost use Rattle.std.specs.List.{find};
ghost use Rattle.std.specs.Option.{option_copied};
ghost use Rattle.event_loops.specs.Queues.{start, name_at, items_at, HasName, IsNamed, IsTaken, is_before, posted_to, taken_before, dropped, rehomed, with_loop};
ghost use Rattle.event_loops.specs.Numbers.{AreDistinct, AreGiven};
ghost use Rattle.event_loops.specs.declared.fault.AddFault.TheVariants.{Exists};
ghost use Rattle.event_loops.specs.declared.fault.PostFault.TheVariants.{NoLoop};

use crate::fault::{AddFault, PostFault};
use crate::item::{Item, Posted};
use crate::marks::Marks;
use crate::moving::{rehome_at, waiting_among};
use crate::rings::{forget, peek_at, post_at, take_at};
use basic_types::{LoopId, Name, ObjectId};
use indexmap::IndexMap;
use std::alloc::{AllocError, Global};
use std::collections::VecDeque;
use std::marker::Model;

/// The event loops in the order in which they were added, each with the items that wait in it, and how many items were
/// ever posted. A loop is found by its name in time that doesn't grow with their number.
///
/// What an object's removal leaves out of the loops stays in their rings until it comes to the front: so a removal costs no
/// search among the items that wait.
pub struct Loops {
    alloc: Global,
    queues: IndexMap<Name, VecDeque<Posted>>,
    marks: Marks,
    posted: u64,
}

impl Drop for Loops {
    fn drop(self) {
        let Loops {
            alloc: _,
            queues: _,
            marks: _,
            posted: _,
        } = self;
    }
}

impl Model for Loops {
    ghost use Rattle.event_loops.specs.Queues.{Queues};

    ghost Value = { Queues };

    ghost use Rattle.event_loops.specs.code.Kept.{seen};
    ghost use Rattle.event_loops.specs.code.Sure.{Held};

    ghost view = { λ l. record { loops = seen l.queues l.marks; posted = l.posted } };

    ghost invariant = { λ l. Held l.queues l.marks l.posted };
}

impl Loops {
    /// The loop `main`, in which nothing waits.
    pub fn new(alloc: Global) -> Result<Loops, AllocError>
        ensures { IfOk result (λ loops. loops ≡ start) }
    {
        let mut queues = IndexMap::new(alloc);
        let main = Name::new(alloc, b"main")?;
        queues.insert(main, VecDeque::new(alloc))?;
        Ok(Loops {
            alloc,
            queues,
            marks: Marks::new(alloc),
            posted: 0,
        })
    }

    /// The loop of this name.
    pub fn find(&self, name: &Name) -> Option<LoopId>
        ensures value { MatchOption result
            (¬ IsTaken self.now.loops name.now)
            (HasName self.now.loops name.now) }
        ensures named { IfSome result (IsNamed self.now.loops name.now) }
    {
        match self.queues.get_index_of(name) {
            Some(place) => Some(LoopId::new(place)),
            None => None,
        }
    }

    /// The name of a loop, if the loop is there.
    pub fn name(&self, home: LoopId) -> Option<&Name>
        ensures { option_copied result ≡ name_at self.now.loops home }
    {
        match self.queues.get_index(home.number()) {
            Some((name, _)) => Some(name),
            None => None,
        }
    }

    /// Adds a loop with no items; without memory nothing changes.
    pub fn add(&mut self, name: &Name) -> Result<(), AddFault>
        ensures added { OnOk result (self.new ≡ with_loop name.now self.old) }
        ensures exists { (result ≡ Err Exists) ↔ IsTaken self.old.loops name.now }
        ensures err { OnErr result (self.new ≡ self.old) }
    {
        match self.find(name) {
            Some(_) => Err(AddFault::Exists),
            None => {
                self.append(name)?;
                Ok(())
            }
        }
    }

    /// Adds a loop of a name that no loop has.
    fn append(&mut self, name: &Name) -> Result<(), AllocError>
        requires { ¬ IsTaken self.old.loops name.now }
        ensures added { OnOk result (self.new ≡ with_loop name.now self.old) }
        ensures err { OnErr result (self.new ≡ self.old) }
    {
        let name = name.copy()?;
        self.queues.insert(name, VecDeque::new(self.alloc))?;
        Ok(())
    }

    /// No two items that wait have one number, and each number is from 1 on and below the next one.
    pub fn numbers_differ(&self)
        ensures distinct { AreDistinct self.now.loops }
        ensures given { AreGiven self.now.loops self.now.posted }
    {
        let _posted = self.posted;
    }

    /// The number that the next item gets.
    pub fn next_number(&self) -> u64
        ensures { result ≡ self.now.posted + 1 }
    {
        self.posted + 1
    }

    /// Posts an item with the next number at the end of a loop; without memory nothing changes.
    #[inline(always)]
    pub fn post(&mut self, home: LoopId, item: Item) -> Result<(), PostFault>
        requires { self.old.posted < 2 ^ 63 - 1 }
        ensures posted { OnOk result (self.new ≡ posted_to home item self.old) }
        ensures no_loop { (result ≡ Err NoLoop) ↔ (length self.old.loops ≤ home) }
        ensures err { OnErr result (self.new ≡ self.old) }
    {
        post_at(&mut self.queues, &mut self.marks, home, item, self.posted)?;
        self.posted += 1;
        Ok(())
    }

    /// The first item of a loop that was posted before the one of this number.
    pub fn first_before(&self, home: LoopId, number: u64) -> Option<&Posted>
        ensures { option_copied result ≡ find (is_before number) (items_at self.now.loops home) }
    {
        peek_at(&self.queues, &self.marks, home.number(), number)
    }

    /// Removes the first item of a loop that was posted before the one of this number, and gives it.
    #[inline(always)]
    pub fn take_before(&mut self, home: LoopId, number: u64) -> Option<Posted>
        ensures taken { result ≡ find (is_before number) (items_at self.old.loops home) }
        ensures rest { self.new ≡ taken_before home number self.old }
    {
        let taken = take_at(&mut self.queues, &self.marks, home.number(), number);
        self.marks.count_taken(&taken);
        taken
    }

    /// Moves the items that wait for these objects to the end of a loop, where they keep their numbers and their order; those
    /// of several loops come loop by loop as these were added, and those that wait there already stay where they are.
    /// `NoLoop` where there is no such loop, `Memory` where a growth was refused; then nothing changes.
    pub fn rehome(&mut self, objects: &[ObjectId], home: LoopId) -> Result<(), PostFault>
        ensures rehomed { OnOk result (self.new ≡ rehomed objects.now home self.old) }
        ensures no_loop { (result ≡ Err NoLoop) ↔ (length self.old.loops ≤ home) }
        ensures err { OnErr result (self.new ≡ self.old) }
    {
        if home.number() >= self.queues.len() {
            return Err(PostFault::NoLoop);
        }
        if self.marks.is_empty() {
            return Ok(());
        }
        let going = waiting_among(self.alloc, &self.marks, objects)?;
        if going.is_empty() {
            return Ok(());
        }
        rehome_at(&mut self.queues, &going, home.number(), self.alloc)?;
        self.marks.rehome(going.as_slice(), home);
        Ok(())
    }

    /// Removes the items for an object from all loops.
    pub fn drop_object(&mut self, object: ObjectId)
        ensures { self.new ≡ dropped object self.old }
    {
        forget(&mut self.queues, &mut self.marks, object, self.posted);
    }
}
