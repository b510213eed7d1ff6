//! The installed bindings, by the properties that they bind.

ghost use Rattle.std.specs.Prelude.{◌≡◌, ◌↔◌, [], ◌∷◌, ◌++◌, false, length, slice_get, None, IfOk, MatchOption, OnOk, IsTrue};
ghost use Rattle.std.specs.List.{filter, list_any};
ghost use Rattle.std.specs.Option.{is_some, option_copied, option_map};
ghost use Rattle.binding_graph.specs.Places.{is_in};
ghost use Rattle.binding_graph.specs.Bindings.{AreApart, binding_at, lead_out, leads_out, read_by, reads_any, without};
ghost use Rattle.binding_graph.specs.code.Graph.{AreKeyed, HasRoom, bindings_in, slot_of};
ghost use Rattle.binding_graph.specs.code.Slots.{in_slot};

use crate::binding::Binding;
use crate::place::{Place, contains};
use basic_types::ObjectId;
use indexmap::IndexMap;
use std::alloc::{AllocError, Global};
use std::marker::Model;

/// A binding, with the properties that it reads, which are those that its expression names.
#[derive(Drop)]
pub struct Reader {
    binding: Binding,
    reads: Vec<Place>,
}

impl Model for Reader {
    ghost use Rattle.std.specs.Prelude.{◌≡◌};
    ghost use Rattle.binding_graph.specs.contracts.binding.Binding as held;
    ghost use Rattle.binding_graph.specs.declared.binding.Binding.{Binding};
    ghost use Rattle.binding_graph.specs.Bindings.{read_by};

    ghost Value = { Binding };

    ghost coded = { held.the_row.coded };

    ghost view = { λ r. r.binding };

    ghost invariant = { λ r. r.reads.items ≡ read_by r.binding };
}

impl Reader {
    /// The binding as a reader. Its error is that memory was refused.
    pub fn new(alloc: Global, binding: Binding) -> Result<Reader, AllocError>
        ensures { IfOk result (λ reader. reader ≡ binding) }
    {
        let reads = binding.reads(alloc)?;
        Ok(Reader { binding, reads })
    }

    /// The binding.
    pub fn binding(&self) -> &Binding
        ensures { result.now ≡ self.now }
    {
        &self.binding
    }

    /// The properties that it reads.
    pub fn reads(&self) -> &[Place]
        ensures { result.now ≡ read_by self.now }
    {
        &self.reads
    }

    /// Whether it reads one of these properties.
    pub fn reads_any(&self, places: &[Place]) -> bool
        ensures { result ≡ reads_any self.now places.now }
    {
        are_any(&self.reads, places)
    }
}

/// Whether one of the first is among the second.
fn are_any(reads: &[Place], places: &[Place]) -> bool
    ensures { result ≡ list_any (is_in places.now) reads.now }
{
    for read in reads {
        if contains(places, read) {
            return true;
        }
    }
    false
}

/// The bindings in the order in which they were installed, each in a slot. One that is removed leaves its slot empty, so
/// that those behind it stay where they are.
#[derive(Drop)]
pub struct Installed {
    pub slots: Vec<Option<Reader>>,
    /// The slot of each target.
    pub by_target: IndexMap<(usize, usize), usize>,
}

impl Installed {
    /// No bindings.
    pub fn new(alloc: Global) -> Installed
        ensures none { bindings_in result ≡ [] }
        ensures keyed { AreKeyed result }
    {
        Installed {
            slots: Vec::new(alloc),
            by_target: IndexMap::new(alloc),
        }
    }

    /// Whether there are none.
    pub fn is_empty(&self) -> bool
        requires { AreKeyed self.now }
        ensures { IsTrue result ↔ (length (bindings_in self.now) ≡ 0) }
    {
        self.by_target.is_empty()
    }

    /// The one in this slot.
    pub fn at(&self, slot: usize) -> Option<&Reader>
        ensures { option_copied result ≡ in_slot self.now.slots.items slot }
    {
        match self.slots.get(slot) {
            Some(held) => held.as_ref(),
            None => None,
        }
    }

    /// The one that was installed after so many others that are installed. It is looked for from the first on.
    pub fn nth(&self, position: usize) -> Option<&Reader>
        ensures { option_copied result ≡ slice_get (bindings_in self.now) position }
    {
        let mut before = position;
        for slot in 0..self.slots.len() {
            let Some(reader) = self.at(slot) else {
                continue;
            };
            if before == 0 {
                return Some(reader);
            }
            before -= 1;
        }
        None
    }

    /// Whether one of them has one of its objects among these and another that isn't.
    pub fn lead_out(&self, objects: &[ObjectId]) -> bool
        ensures { result ≡ lead_out objects.now (bindings_in self.now) }
    {
        for slot in 0..self.slots.len() {
            if self.leads_out_at(slot, objects) {
                return true;
            }
        }
        false
    }

    /// Whether the one in this slot does, if there is one.
    fn leads_out_at(&self, slot: usize, objects: &[ObjectId]) -> bool
        ensures { MatchOption (in_slot self.now.slots.items slot) (result ≡ false)
            (λ b. result ≡ leads_out objects.now b) }
    {
        match self.at(slot) {
            Some(reader) => reader.binding().leads_out(objects),
            None => false,
        }
    }

    /// The binding of a property.
    pub fn reader(&self, place: &Place) -> Option<&Reader>
        requires { AreKeyed self.now }
        ensures { option_copied result ≡ binding_at (bindings_in self.now) place.now }
    {
        match self.by_target.get(&place.key()) {
            Some(slot) => self.at(*slot),
            None => None,
        }
    }

    /// The binding of a property, and its slot: the lower one was installed earlier.
    pub fn find(&self, place: &Place) -> Option<(usize, &Reader)>
        requires { AreKeyed self.now }
        ensures slot { option_map (λ f. f.0) result ≡ slot_of self.now place.now }
        ensures reader { option_map (λ f. f.1.now) result ≡ binding_at (bindings_in self.now) place.now }
    {
        let Some(slot) = self.by_target.get(&place.key()) else {
            return None;
        };
        match self.at(*slot) {
            Some(reader) => Some((*slot, reader)),
            None => None,
        }
    }

    /// The same, where the slot likely is this one: a comparison tells that it is, and only where it isn't the binding is
    /// looked up.
    #[inline(always)]
    pub fn find_near(&self, likely: usize, place: &Place) -> Option<(usize, &Reader)>
        requires { AreKeyed self.now }
        ensures slot { option_map (λ f. f.0) result ≡ slot_of self.now place.now }
        ensures reader { option_map (λ f. f.1.now) result ≡ binding_at (bindings_in self.now) place.now }
    {
        if let Some(reader) = self.at(likely) {
            if reader.binding().target.is_same(place) {
                return Some((likely, reader));
            }
        }
        self.find(place)
    }

    /// Makes room for one more; where memory is refused nothing changes that is seen.
    pub fn reserve(&mut self) -> Result<(), AllocError>
        requires { AreKeyed self.old }
        ensures same { bindings_in self.new ≡ bindings_in self.old }
        ensures keyed { AreKeyed self.new }
        ensures room { OnOk result (HasRoom self.new) }
    {
        self.close_up();
        self.slots.reserve(1)?;
        self.by_target.reserve(1)
    }

    /// Where more slots are empty than not, these go, and the others stand in their order from the first on: so each removal
    /// is paid for once. It takes no memory.
    fn close_up(&mut self)
        requires { AreKeyed self.old }
        ensures same { bindings_in self.new ≡ bindings_in self.old }
        ensures keyed { AreKeyed self.new }
    {
        if self.by_target.len() >= self.slots.len() / 2 {
            return;
        }
        keep_filled(&mut self.slots);
        for slot in 0..self.slots.len() {
            let Some(reader) = self.at(slot) else {
                continue;
            };
            let key = reader.binding().target.key();
            let Ok(_) = self.by_target.insert(key, slot) else {
                unreachable!()
            };
        }
    }

    /// Removes the binding of a property. No other one moves.
    pub fn remove(&mut self, place: &Place)
        requires keyed { AreKeyed self.old }
        requires apart { AreApart (bindings_in self.old) }
        ensures left { bindings_in self.new ≡ without place.now (bindings_in self.old) }
        ensures keyed { AreKeyed self.new }
        ensures room { HasRoom self.old → HasRoom self.new }
    {
        if let Some(slot) = self.by_target.swap_remove(&place.key()) {
            self.slots[slot] = None;
        }
    }

    /// Adds a binding of a property that has none, for which there is room.
    pub fn push(&mut self, reader: Reader)
        requires keyed { AreKeyed self.old }
        requires room { HasRoom self.old }
        requires unbound { binding_at (bindings_in self.old) reader.target ≡ None }
        ensures pushed { bindings_in self.new ≡ bindings_in self.old ++ reader ∷ [] }
        ensures keyed { AreKeyed self.new }
    {
        let key = reader.binding.target.key();
        let slot = self.slots.len();
        let Ok(_) = self.by_target.insert(key, slot) else {
            unreachable!()
        };
        let Ok(_) = self.slots.push(Some(reader)) else {
            unreachable!()
        };
    }
}

/// Takes out the empty slots.
fn keep_filled(slots: &mut Vec<Option<Reader>>)
    ensures { slots.new.items ≡ filter is_some slots.old.items }
{
    slots.retain(|slot| slot.is_some());
}
