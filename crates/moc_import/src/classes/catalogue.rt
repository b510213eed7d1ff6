//! The classes that are imported, by number: bases stand before the classes that have them.

use crate::classes::class_names::MocClassNames;
use crate::classes::listing::Listing;
use crate::classes::members::is_free;
use crate::classes::moc::{MocClass, MocFile};
use crate::classes::read_classes::ReadClasses;
use crate::classes::scopes::{full_name, nearer, nearness};
use basic_types::is_value_name;
use std::alloc::{AllocError, Global};

/// The class of which all others are.
pub const QOBJECT: &str = "QObject";

/// A class that is imported.
#[derive(Clone, Copy)]
pub struct Listed<'f> {
    pub class: &'f MocClass,
    /// The number of its base; `None` for `QObject`.
    pub base: Option<usize>,
}

/// Why a class of objects is left out.
#[derive(Clone, Copy)]
pub enum NoClass {
    /// No class of the language can have its name.
    Name,
    /// Its bases lead back to it.
    Circle,
}

/// The classes that are imported, and those whose enums are known.
#[derive(Drop)]
pub struct Catalogue<'f> {
    /// The classes that are imported, with the names that they have here.
    listing: Listing<'f>,
    /// The numbers of these by their names in C++.
    imported: MocClassNames<'f>,
    read: ReadClasses<'f>,
}

impl<'f> Catalogue<'f> {
    /// The objects' classes of the files; where some are named, these and their bases alone.
    pub fn of(
        alloc: Global,
        files: &'f [MocFile],
        only: &[&str],
    ) -> Result<Catalogue<'f>, AllocError> {
        let read = ReadClasses::of(alloc, files)?;
        let listing = Listing::of(alloc, &read, only)?;
        let imported = listing.cpp_names(alloc)?;
        Ok(Catalogue {
            listing,
            imported,
            read,
        })
    }

    /// The classes.
    pub fn classes(&self) -> &[Listed<'f>] {
        self.listing.classes.as_slice()
    }

    /// Classes of objects that are left out.
    pub fn left_out(&self) -> &[(&'f MocClass, NoClass)] {
        self.listing.left_out.as_slice()
    }

    /// The name that a class has here; that of `QObject` for `None`.
    pub fn name(&self, class: Option<usize>) -> &str {
        let Some(number) = class else {
            return QOBJECT;
        };
        match self.listing.names.get(number) {
            Some(name) => name.as_str(),
            None => QOBJECT,
        }
    }

    /// The names that the classes have here.
    pub fn class_names(&self) -> &[String] {
        self.listing.names.as_slice()
    }

    /// The number of the class that has this name here, or else of the first one that C++ calls so, with its scope or without.
    pub fn number(&self, name: &str) -> Option<usize> {
        match self.listing.named.get(name) {
            Some(number) => Some(*number),
            None => self.number_from("", name),
        }
    }

    /// Whether a class of objects of this name is read, which needn't be imported.
    pub fn is_read(&self, name: &str) -> bool {
        self.read.has_object(name)
    }

    /// The number of the class that the name leads to where it is in the class of the full name `from`.
    fn number_from(&self, from: &str, name: &str) -> Option<usize> {
        let mut nearest = None;
        for number in self.imported.near(name) {
            if let Some(it) = self.classes().get(*number) {
                if let Some(near) = nearness(it.class, name, from) {
                    nearest = nearer(nearest, *number, near);
                }
            }
        }
        let (number, _) = nearest?;
        Some(number)
    }

    /// The class that a pointer to this name leads to where it is in a class: `Some(None)` for `QObject`, `None` where
    /// it isn't imported.
    pub fn pointed(&self, class: usize, name: &str) -> Option<Option<usize>> {
        if name == QOBJECT {
            return Some(None);
        }
        let from = full_name(self.classes().get(class)?.class);
        match self.number_from(from, name) {
            Some(number) => Some(Some(number)),
            // A class that has another name here.
            None => Some(Some(self.number(name)?)),
        }
    }

    /// The base of a class.
    fn base(&self, class: usize) -> Option<usize> {
        self.classes().get(class)?.base
    }

    /// The class and its bases, the nearest first; none for `QObject`.
    pub fn lineage(&self, class: Option<usize>) -> Lineage<'_, 'f> {
        Lineage {
            catalogue: self,
            next: class,
            left: self.classes().len(),
        }
    }

    /// Whether each object of the one class is one of the other.
    pub fn is_below(&self, class: Option<usize>, above: Option<usize>) -> bool {
        above.is_none() || self.lineage(class).any(|number| Some(number) == above)
    }

    /// Whether the name is an enum's or a flag's: with a scope of any class; else of this class, a base of it, or what its
    /// scopes are.
    pub fn has_enum(&self, class: usize, name: &str) -> bool {
        if let Some((scope, own)) = name.rsplit_once("::") {
            return self.read.has_enum_of(scope, own);
        }
        if !self.read.has_enum(name) {
            return false;
        }
        for number in self.lineage(Some(class)) {
            if let Some(listed) = self.classes().get(number)
                && self.read.has_enum_around(listed.class, name)
            {
                return true;
            }
        }
        false
    }
}

/// A class and its bases.
#[derive(Clone, Copy)]
pub struct Lineage<'c, 'f> {
    catalogue: &'c Catalogue<'f>,
    next: Option<usize>,
    /// So many follow at most: no base is below its class.
    left: usize,
}

impl Iterator for Lineage<'_, '_> {
    ghost use Rattle.std.specs.Iterator.{at_most};

    type Item = usize;

    ghost remaining = { λ lineage. at_most lineage.left };

    fn next(&mut self) -> Option<usize> {
        let number = self.next?;
        if self.left == 0 {
            return None;
        }
        self.left -= 1;
        self.next = self.catalogue.base(number);
        Some(number)
    }
}

/// Whether a program may declare a class of this name.
pub fn may_be_class(name: &str) -> bool {
    is_free(name) && name != QOBJECT && !is_value_name(name.as_bytes())
}
