//! Places of connections, and lists of them.

ghost use Rattle.std.specs.Prelude.{◌≡◌, ◌∷◌, [], ◌++◌, ◌<◌, ◌≤◌, OnOk, IfOk, filter};
ghost use Rattle.std.specs.Vec.{vec_len, vec_capacity};
ghost use Rattle.connections.specs.code.CellPlaces.{leads, Tidies};

use crate::cell::{Cell, leads};
use slab::Slab;
use std::alloc::{AllocError, Global};

/// The places that a list keeps room for.
const FEW: usize = 4;

/// The cell into which the connection of a number was put. Once the connection is removed, the place leads nowhere, even if
/// the cell is used again.
#[derive(Clone, Copy)]
pub struct CellPlace {
    pub number: u64,
    pub key: usize,
}

/// Places in the order of their numbers, and how many of them are known to lead nowhere.
#[derive(Drop)]
pub struct CellPlaces {
    pub items: Vec<CellPlace>,
    stale: usize,
}

impl CellPlaces {
    /// No places.
    pub fn new(alloc: Global) -> CellPlaces
        ensures { result.items.items ≡ [] }
    {
        CellPlaces {
            items: Vec::new(alloc),
            stale: 0,
        }
    }

    /// No places, and room for one alone, since most lists keep to one.
    pub fn for_one(alloc: Global) -> Result<CellPlaces, AllocError>
        ensures items { IfOk result (λ places. places.items.items ≡ []) }
        ensures room { IfOk result (λ places. vec_len places.items < vec_capacity places.items) }
    {
        let items = Vec::with_capacity(alloc, 1)?;
        Ok(CellPlaces { items, stale: 0 })
    }

    /// Makes room for one more place.
    pub fn reserve(&mut self) -> Result<(), AllocError>
        ensures room { OnOk result (vec_len self.new.items < vec_capacity self.new.items) }
        ensures items { self.new.items.items ≡ self.old.items.items }
        ensures len { vec_len self.new.items ≡ vec_len self.old.items }
        ensures capacity { vec_capacity self.old.items ≤ vec_capacity self.new.items }
    {
        self.items.reserve(1)
    }

    /// One more place at the end, for which there is room.
    pub fn push(&mut self, place: CellPlace)
        requires { vec_len self.old.items < vec_capacity self.old.items }
        ensures { self.new.items.items ≡ self.old.items.items ++ place ∷ [] }
    {
        self.items.push_reserved(place);
    }

    /// So many more of the places lead nowhere. Once more than half of them do, they are dropped.
    pub fn forget(&mut self, more: usize, cells: &Slab<Cell>)
        ensures { Tidies cells.now self.old.items.items self.new.items.items }
    {
        if self.items.is_empty() {
            return;
        }
        self.stale = self.stale.saturating_add(more);
        if self.stale > self.items.len() / 2 {
            keep_leading(cells, &mut self.items);
            give_back(&mut self.items);
            self.stale = 0;
        }
    }
}

/// Keeps the places that lead to a connection.
fn keep_leading(cells: &Slab<Cell>, places: &mut Vec<CellPlace>)
    ensures { places.new.items ≡ filter (leads cells.now) places.old.items }
{
    places.retain(|place| leads(cells, place));
}

/// Gives back a quarter of the memory, where most of it is unused: what was filled once is often filled again.
fn give_back(places: &mut Vec<CellPlace>)
    ensures { places.new.items ≡ places.old.items }
{
    if places.len() < places.capacity() / 4 {
        let kept = places.capacity().saturating_sub(places.capacity() / 4);
        places.shrink_to(kept.max(FEW));
    }
}
