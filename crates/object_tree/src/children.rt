ghost use Rattle.std.specs.Prelude.{◌≡◌, ◌<◌, ◌≤◌, ◌+◌, [], ◌∷◌, ◌++◌, OnOk, OnErr, MatchOption, slice_get, true, not, length, ◌==◌, position};
ghost use Rattle.std.specs.List.{remove};
ghost use Rattle.std.specs.Vec.{vec_len, vec_capacity};
ghost use Rattle.object_tree.specs.code.Adoptions.{adopted};
ghost use Rattle.object_tree.specs.Children.{without, is_child, are_distinct};
ghost use Rattle.object_tree.specs.Held.{are_any};

use basic_types::ObjectId;
use std::alloc::{AllocError, Global};
use std::collections::VecDeque;
use std::marker::Model;

/// A child among an object's children, with the number of its adoption. The numbers rise along the list.
#[derive(Clone, Copy)]
pub struct Adoption {
    pub number: u64,
    pub child: ObjectId,
}

/// An object's living children, in the order of adoption.
#[derive(Drop)]
pub struct Children {
    items: VecDeque<Adoption>,
}

impl Model for Children {
    ghost use Rattle.std.specs.Prelude.{List, ℕ};

    ghost Value = { List ℕ };

    ghost use Rattle.object_tree.specs.code.Adoptions.{adopted};

    ghost view = { λ children. adopted children.items.items };
}

impl Children {
    /// No children, which takes no memory.
    pub fn new(alloc: Global) -> Children
        ensures { result ≡ [] }
    {
        Children {
            items: VecDeque::new(alloc),
        }
    }

    /// Whether there is no child.
    pub fn is_empty(&self) -> bool
        ensures { result ≡ not (are_any self.now) }
    {
        self.items.is_empty()
    }

    /// The child that was adopted first.
    pub fn first(&self) -> Option<ObjectId>
        ensures { result ≡ slice_get self.now 0 }
    {
        match self.items.front() {
            Some(adoption) => Some(adoption.child),
            None => None,
        }
    }

    /// Adds a child behind the others, and tells the number of its adoption. The error is that memory was refused: then
    /// nothing changes.
    pub fn push(&mut self, child: ObjectId) -> Result<u64, AllocError>
        ensures ok { OnOk result (self.new ≡ self.old ++ child ∷ []) }
        ensures err { OnErr result (self.new ≡ self.old) }
    {
        let number = match self.items.back() {
            Some(last) => last.number.saturating_add(1),
            None => 0,
        };
        self.items.push_back(Adoption { number, child })?;
        Ok(number)
    }

    /// Takes a child out; the others stay in their order. The first and the last are found at once, another by halves where
    /// `number` is that of its adoption.
    pub fn remove(&mut self, child: ObjectId, number: u64)
        requires { are_distinct self.old ≡ true }
        ensures { self.new ≡ without child self.old }
    {
        if let Some(place) = self.place(child, number) {
            self.items.remove(place);
        }
    }

    /// Appends the children to a list. The error is that memory was refused: then the list is as it was.
    #[inline(always)]
    pub fn push_into(&self, list: &mut Vec<ObjectId>) -> Result<(), AllocError>
        ensures ok { OnOk result (list.new.items ≡ list.old.items ++ self.now) }
        ensures err { OnErr result (list.new.items ≡ list.old.items) }
    {
        push_adopted(&self.items, list)
    }

    /// How many children stand before this one.
    fn place(&self, child: ObjectId, number: u64) -> Option<usize>
        requires { are_distinct self.now ≡ true }
        ensures { MatchOption result (without child self.now ≡ self.now)
            (λ place. (remove self.now place ≡ without child self.now) × (place < length self.now)) }
    {
        let place = self.likely_place(child, number);
        if self.is_at(place, child) {
            Some(place)
        } else {
            first_of(&self.items, child)
        }
    }

    /// Where this child stands if it is the first, the last, or was adopted under this number.
    fn likely_place(&self, child: ObjectId, number: u64) -> usize {
        if self.is_at(0, child) {
            return 0;
        }
        let last = self.items.len().saturating_sub(1);
        if self.is_at(last, child) {
            return last;
        }
        self.items
            .partition_point(|adoption| adoption.number < number)
    }

    /// Whether it is this child that comes after so many others.
    fn is_at(&self, place: usize, child: ObjectId) -> bool
        ensures { result ≡ is_child child (slice_get self.now place) }
    {
        match self.items.get(place) {
            Some(adoption) => adoption.child == child,
            None => false,
        }
    }
}

/// How many adoptions stand before that of a child, which is looked for from the front.
fn first_of(items: &VecDeque<Adoption>, child: ObjectId) -> Option<usize>
    ensures { result ≡ position (λ a. a.child == child) items.now.items }
{
    items.iter().position(|adoption| adoption.child == child)
}

/// Appends the children that were adopted to a list, for which room is made once; without memory the list is as it was.
#[inline(always)]
fn push_adopted(items: &VecDeque<Adoption>, list: &mut Vec<ObjectId>) -> Result<(), AllocError>
    ensures ok { OnOk result (list.new.items ≡ list.old.items ++ adopted items.now.items) }
    ensures err { OnErr result (list.new.items ≡ list.old.items) }
{
    if items.is_empty() {
        return Ok(());
    }
    list.reserve(items.len())?;
    let (front, back) = items.as_slices();
    push_run(front, list);
    push_run(back, list);
    Ok(())
}

/// Appends children to a list that has room for them.
#[inline(always)]
fn push_run(adoptions: &[Adoption], list: &mut Vec<ObjectId>)
    requires { vec_len list.old + length adoptions.now ≤ vec_capacity list.old }
    ensures items { list.new.items ≡ list.old.items ++ adopted adoptions.now }
    ensures len { vec_len list.new ≡ vec_len list.old + length adoptions.now }
    ensures capacity { vec_capacity list.new ≡ vec_capacity list.old }
{
    for adoption in adoptions {
        list.push_reserved(adoption.child);
    }
}
