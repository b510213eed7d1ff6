ghost use Rattle.std.specs.Prelude.{◌≡◌, [], ◌∷◌, ◌++◌, length, OnOk, OnErr};

use binding_graph::Place;
use std::alloc::{AllocError, Global};
use std::marker::Model;
use std::slice;

/// The properties that no longer read as they did, in the order in which they are notified. Most writes change one
/// property or none: up to one of them needs no memory.
pub struct ChangedPlaces {
    held: HeldPlaces,
    alloc: Global,
}

/// Where they are held.
#[derive(Drop)]
pub(crate) enum HeldPlaces {
    Nothing,
    One(Place),
    Many(Vec<Place>),
}

impl Drop for ChangedPlaces {
    fn drop(self) {
        let ChangedPlaces { held: _, alloc: _ } = self;
    }
}

impl Model for ChangedPlaces {
    ghost use Rattle.std.specs.Prelude.{List};
    ghost use Rattle.binding_graph.specs.declared.place.Place.{Place};

    ghost Value = { List Place };

    ghost use Rattle.prop_bindings.specs.code.Holding.{places_held};

    ghost view = { λ changed. places_held changed.held };
}

impl ChangedPlaces {
    /// None, which takes no memory.
    #[inline(always)]
    pub fn new(alloc: Global) -> ChangedPlaces
        ensures { result ≡ [] }
    {
        ChangedPlaces {
            held: HeldPlaces::Nothing,
            alloc,
        }
    }

    /// This one alone, which takes no memory.
    #[inline(always)]
    pub fn one(alloc: Global, place: Place) -> ChangedPlaces
        ensures { result ≡ place ∷ [] }
    {
        ChangedPlaces {
            held: HeldPlaces::One(place),
            alloc,
        }
    }

    /// The properties in their order.
    #[inline(always)]
    pub fn as_slice(&self) -> &[Place]
        ensures { result.now ≡ self.now }
    {
        match &self.held {
            HeldPlaces::Nothing => &[],
            HeldPlaces::One(place) => slice::from_ref(place),
            HeldPlaces::Many(places) => places.as_slice(),
        }
    }

    /// How many there are.
    pub fn len(&self) -> usize
        ensures { result ≡ length self.now }
    {
        self.as_slice().len()
    }

    /// Adds a property at the end; without memory they stay as they were.
    pub fn push(&mut self, place: Place) -> Result<(), AllocError>
        ensures ok { OnOk result (self.new ≡ self.old ++ place ∷ []) }
        ensures err { OnErr result (self.new ≡ self.old) }
    {
        match &mut self.held {
            HeldPlaces::Nothing => self.held = HeldPlaces::One(place),
            HeldPlaces::One(first) => {
                let places = Vec::from_array(self.alloc, [*first, place])?;
                self.held = HeldPlaces::Many(places);
            }
            HeldPlaces::Many(places) => places.push(place)?,
        }
        Ok(())
    }
}
