//! All classes that are read, which needn't be imported.

use crate::classes::class_names::{MocClassNames, NamedPlaces};
use crate::classes::moc::{MocClass, MocEnum, MocFile};
use crate::classes::scopes::{is_called, is_in_scope};
use std::alloc::{AllocError, Global};

/// All classes that are read, which needn't be imported.
#[derive(Drop)]
pub struct ReadClasses<'f> {
    pub all: Vec<&'f MocClass>,
    /// The places of these by their names.
    pub names: MocClassNames<'f>,
    /// The places of the classes that have an enum, by the names of enums and flags.
    with_enum: NamedPlaces<'f>,
}

impl<'f> ReadClasses<'f> {
    /// The classes of the files.
    pub fn of(alloc: Global, files: &'f [MocFile]) -> Result<ReadClasses<'f>, AllocError> {
        let all = classes(alloc, files)?;
        let names = names(alloc, all.as_slice())?;
        let with_enum = enums(alloc, all.as_slice())?;
        Ok(ReadClasses {
            all,
            names,
            with_enum,
        })
    }

    /// Whether a class of objects has this name.
    pub fn has_object(&self, name: &str) -> bool {
        for place in self.names.near(name) {
            if let Some(it) = self.all.get(*place) {
                if it.object && is_called(it, name) {
                    return true;
                }
            }
        }
        false
    }

    /// Whether a class has the enum.
    pub fn has_enum(&self, name: &str) -> bool {
        !self.with_enum.of(name).is_empty()
    }

    /// Whether a class that is called so has the enum.
    pub fn has_enum_of(&self, class: &str, name: &str) -> bool {
        for place in self.with_enum.of(name) {
            if let Some(it) = self.all.get(*place) {
                if is_called(it, class) {
                    return true;
                }
            }
        }
        false
    }

    /// Whether the class, or what one of its scopes is, has the enum.
    pub fn has_enum_around(&self, class: &MocClass, name: &str) -> bool {
        for place in self.with_enum.of(name) {
            if let Some(it) = self.all.get(*place) {
                if is_in_scope(it, class) {
                    return true;
                }
            }
        }
        false
    }
}

/// The classes of the files.
fn classes<'f>(alloc: Global, files: &'f [MocFile]) -> Result<Vec<&'f MocClass>, AllocError> {
    let mut all = Vec::new(alloc);
    for file in files {
        for class in file.classes.as_slice() {
            all.push(class)?;
        }
    }
    Ok(all)
}

/// The places of the classes by their names.
fn names<'f>(alloc: Global, all: &[&'f MocClass]) -> Result<MocClassNames<'f>, AllocError> {
    let mut names = MocClassNames::new(alloc);
    for (place, class) in all.iter().enumerate() {
        names.add(alloc, *class, place)?;
    }
    Ok(names)
}

/// The places of the classes that have an enum, by the names of enums and flags.
fn enums<'f>(alloc: Global, all: &[&'f MocClass]) -> Result<NamedPlaces<'f>, AllocError> {
    let mut places = NamedPlaces::new(alloc);
    for (place, class) in all.iter().enumerate() {
        let class: &'f MocClass = *class;
        for it in class.enums.as_slice() {
            add_enum(alloc, &mut places, it, place)?;
        }
    }
    Ok(places)
}

/// Adds an enum of the class of this place, by its names.
fn add_enum<'f>(
    alloc: Global,
    places: &mut NamedPlaces<'f>,
    it: &'f MocEnum,
    place: usize,
) -> Result<(), AllocError> {
    places.add(alloc, it.name.as_str(), place)?;
    places.add(alloc, it.alias.as_str(), place)
}
