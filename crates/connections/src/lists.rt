//! The lists of places: of all connections, of those of each sender and signal, and of those of each object.

ghost use Rattle.std.specs.Prelude.{◌≡◌, ◌∷◌, [], ◌++◌, OnOk, IfSome};
ghost use Rattle.slab.specs.Slab.{Slab};
ghost use Rattle.connections.specs.declared.cell.Cell.{Cell};
ghost use Rattle.connections.specs.code.Groups.{list_of};
ghost use Rattle.connections.specs.code.Lists.{same_pair, all_of, of_signal, of_object, AreOfEither, IsEmpty, TidiesLists};
ghost use Rattle.connections.specs.code.Rooms.{HasRooms, PushesBySignal, PushesByObject};

use crate::connection::Connection;
use crate::groups::{make_room, places_near, push_place};
use crate::hint::SignalHint;
use crate::place::{CellPlace, CellPlaces};
use basic_types::ObjectId;
use indexmap::IndexMap;
use std::alloc::{AllocError, Global};

/// The places of all connections, those of each sender and signal, and those of the connections from and to each object.
///
/// The last keys that were used mostly are the next ones too, so there is noted where they stand. Any index gives the same
/// answers: one at which another key stands costs a search.
#[derive(Drop)]
pub struct Lists {
    pub all: CellPlaces,
    pub by_signal: IndexMap<(usize, usize), CellPlaces>,
    pub by_object: IndexMap<usize, CellPlaces>,
    pub near_signal: usize,
    pub near_sender: usize,
    pub near_receiver: usize,
}

impl Lists {
    /// No places.
    pub fn new(alloc: Global) -> Lists
        ensures { IsEmpty result }
    {
        Lists {
            all: CellPlaces::new(alloc),
            by_signal: IndexMap::new(alloc),
            by_object: IndexMap::new(alloc),
            near_signal: 0,
            near_sender: 0,
            near_receiver: 0,
        }
    }

    /// The places of the connections of this sender and signal.
    pub fn of_signal(&self, sender: ObjectId, signal: usize) -> &[CellPlace]
        ensures { result.now ≡ of_signal self.now sender signal }
    {
        places_near(&self.by_signal, self.near_signal, (sender.number(), signal))
    }

    /// The same, found with no search where the hint leads to them. A hint that doesn't is set to where they were found.
    pub fn of_signal_near(
        &self,
        sender: ObjectId,
        signal: usize,
        hint: &mut SignalHint,
    ) -> &[CellPlace]
        ensures { result.now ≡ of_signal self.now sender signal }
    {
        let pair = (sender.number(), signal);
        if let Some(places) = places_at(&self.by_signal, hint.index, pair) {
            return places;
        }
        match self.by_signal.get_full(&pair) {
            None => &[],
            Some((index, _, places)) => {
                hint.index = index;
                &places.items
            }
        }
    }

    /// The places of the connections from and to an object.
    pub fn of_object(&self, object: ObjectId) -> &[CellPlace]
        ensures { result.now ≡ of_object self.now object }
    {
        places_near(&self.by_object, self.near_receiver, object.number())
    }

    /// The places of the connections of this sender and signal, or those of the connections from and to the receiver,
    /// whichever are fewer.
    pub fn of_either(&self, sender: ObjectId, signal: usize, receiver: ObjectId) -> &[CellPlace]
        ensures { AreOfEither self.now sender signal receiver result.now }
    {
        let of_signal = self.of_signal(sender, signal);
        let of_receiver = self.of_object(receiver);
        if of_receiver.len() < of_signal.len() {
            of_receiver
        } else {
            of_signal
        }
    }

    /// Makes room for one more connection, or changes nothing that is seen.
    pub fn make_room(&mut self, alloc: Global, c: &Connection) -> Result<(), AllocError>
        ensures rooms { OnOk result (HasRooms self.new c.now) }
        ensures kept { (cells : Slab Cell) → TidiesLists cells self.old self.new }
    {
        self.all.reserve()?;
        make_room(
            alloc,
            &mut self.by_signal,
            &mut self.near_signal,
            (c.sender.number(), c.signal),
        )?;
        make_room(
            alloc,
            &mut self.by_object,
            &mut self.near_sender,
            c.sender.number(),
        )?;
        make_room(
            alloc,
            &mut self.by_object,
            &mut self.near_receiver,
            c.receiver.number(),
        )?;
        Ok(())
    }

    /// One more connection, whose place this is.
    pub fn push(&mut self, c: &Connection, place: CellPlace)
        requires { HasRooms self.old c.now }
        ensures all { all_of self.new ≡ all_of self.old ++ place ∷ [] }
        ensures signals { PushesBySignal self.old self.new c.now place }
        ensures objects { PushesByObject self.old self.new c.now place }
    {
        let (sender, receiver) = (c.sender.number(), c.receiver.number());
        self.all.push(place);
        push_place(
            &mut self.by_signal,
            self.near_signal,
            (sender, c.signal),
            place,
        );
        push_place(&mut self.by_object, self.near_sender, sender, place);
        if receiver != sender {
            push_place(&mut self.by_object, self.near_receiver, receiver, place);
        }
    }
}

/// The places at this index, if they are those of this sender and signal.
fn places_at(
    groups: &IndexMap<(usize, usize), CellPlaces>,
    index: usize,
    pair: (usize, usize),
) -> Option<&[CellPlace]>
    ensures { IfSome result (λ places. places.now ≡ list_of same_pair groups.now pair) }
{
    match groups.get_index(index) {
        Some((found, places)) if *found == pair => Some(&places.items),
        _ => None,
    }
}
