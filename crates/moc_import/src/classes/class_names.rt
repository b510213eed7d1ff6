//! Classes by their names.

use crate::classes::moc::MocClass;
use crate::classes::scopes::{full_name, last_part, own_name};
use std::alloc::{AllocError, Global};
use std::collections::HashMap;

/// Places in a list, by names.
#[derive(Drop)]
pub struct NamedPlaces<'f> {
    places: HashMap<&'f str, Vec<usize>>,
}

impl<'f> NamedPlaces<'f> {
    /// Nothing has a place yet.
    pub fn new(alloc: Global) -> NamedPlaces<'f> {
        NamedPlaces {
            places: HashMap::new(alloc),
        }
    }

    /// The places that have the name, in the order in which they were added.
    pub fn of(&self, name: &str) -> &[usize] {
        match self.places.get(name) {
            Some(places) => places.as_slice(),
            None => &[],
        }
    }

    /// Gives a place the name.
    pub fn add(&mut self, alloc: Global, name: &'f str, place: usize) -> Result<(), AllocError> {
        let places = self.places.entry(name)?.or_insert(Vec::new(alloc));
        places.push(place)?;
        Ok(())
    }
}

/// The places of classes in a list, by the last parts of their names: of those with their scope, and of those without.
#[derive(Drop)]
pub struct MocClassNames<'f> {
    parts: NamedPlaces<'f>,
}

impl<'f> MocClassNames<'f> {
    /// No class has a place yet.
    pub fn new(alloc: Global) -> MocClassNames<'f> {
        MocClassNames {
            parts: NamedPlaces::new(alloc),
        }
    }

    /// Adds a class, whose place is behind those of the classes before it.
    pub fn add(
        &mut self,
        alloc: Global,
        class: &'f MocClass,
        place: usize,
    ) -> Result<(), AllocError> {
        let full = last_part(full_name(class));
        let own = own_name(class);
        self.parts.add(alloc, full, place)?;
        if own != full {
            self.parts.add(alloc, own, place)?;
        }
        Ok(())
    }

    /// The places of all classes that may be called so, in their order; others may be among them.
    pub fn near(&self, name: &str) -> &[usize] {
        self.parts.of(last_part(name))
    }
}
