//! The numbers of bound properties, in whose order they are evaluated.

ghost use Rattle.std.specs.Prelude.{◌≡◌, ℕ, ◌<◌, ◌≤◌, ◌^◌, false, None, Some, length, OnOk};
ghost use Rattle.indexmap.specs.IndexMap.{spare};
ghost use Rattle.binding_graph.specs.declared.place.Place.{Place};
ghost use Rattle.binding_graph.specs.Places.{same_place};
ghost use Rattle.binding_graph.specs.code.BindingRanks.{HasNumbers, KeepRanks, Renumbers, rank_of};

use crate::place::Place;
use indexmap::IndexMap;
use std::alloc::{AllocError, Global};

/// The number of each bound property. A source's is below those of its readers.
#[derive(Drop)]
pub struct BindingRanks {
    pub by_place: IndexMap<(usize, usize), usize>,
    /// The number that is given next, above all that are given.
    pub next: usize,
}

impl BindingRanks {
    /// No numbers.
    pub fn new(alloc: Global) -> BindingRanks
        ensures { (p : Place) → rank_of result p ≡ None }
    {
        BindingRanks {
            by_place: IndexMap::new(alloc),
            next: 0,
        }
    }

    /// The number of a property.
    pub fn rank(&self, place: &Place) -> Option<usize>
        ensures { result ≡ rank_of self.now place.now }
    {
        match self.by_place.get(&place.key()) {
            Some(rank) => Some(*rank),
            None => None,
        }
    }

    /// The same, of a property that likely is the one after this many others in the order in which they got their first
    /// numbers: a comparison tells that it is, and only where it isn't it is looked up.
    #[inline(always)]
    pub fn rank_near(&self, likely: usize, place: &Place) -> Option<usize>
        ensures { result ≡ rank_of self.now place.now }
    {
        if let Some((key, rank)) = self.by_place.as_slice().get_index(likely) {
            if key.0 == place.object.number() && key.1 == place.property {
                return Some(*rank);
            }
        }
        self.rank(place)
    }

    /// Makes room for so many numbers. Its error is that memory was refused. Where there are no more numbers, all that are
    /// given become lower; their order stays.
    pub fn reserve(&mut self, count: usize) -> Result<(), AllocError>
        requires { count < 2 ^ 63 }
        ensures kept { KeepRanks self.old self.new }
        ensures room { OnOk result (HasNumbers count self.new) }
    {
        self.by_place.reserve(count)?;
        match self.next.checked_add(count) {
            Some(_) => Ok(()),
            None => self.compact(),
        }
    }

    /// Gives the properties that have a number the lowest numbers, in the order of those that they had. Its error is that
    /// memory was refused; then no number changes.
    fn compact(&mut self) -> Result<(), AllocError>
        ensures kept { KeepRanks self.old self.new }
        ensures few { OnOk result (self.new.next < 2 ^ 63) }
        ensures room { spare self.old.by_place ≤ spare self.new.by_place }
    {
        self.by_place.sort_by_key(|_, number| *number)?;
        for index in 0..self.by_place.len() {
            self.by_place[index] = index;
        }
        self.next = self.by_place.len();
        Ok(())
    }

    /// Gives these properties the next numbers, in their order.
    pub fn renumber(&mut self, places: &[Place])
        requires { HasNumbers (length places.now) self.old }
        ensures { Renumbers places.now self.old self.new }
    {
        for place in places {
            let Ok(_) = self.by_place.insert(place.key(), self.next) else {
                unreachable!()
            };
            self.next += 1;
        }
    }

    /// A property has no number any more.
    pub fn forget(&mut self, place: &Place)
        ensures next { self.new.next ≡ self.old.next }
        ensures others { (q : Place) → same_place place.now q ≡ false
            → rank_of self.new q ≡ rank_of self.old q }
        ensures fewer { (q : Place) (i : ℕ) → rank_of self.new q ≡ Some i → rank_of self.old q ≡ Some i }
    {
        self.by_place.swap_remove(&place.key());
    }
}
