//! What paths of effects lead to.

use crate::classes::{
    Catalogue, Import, ImportedMethod, LanguageType, LeftOut, Members, MissingMember,
};
use crate::effects::fault::EffectFault;
use crate::effects::near::NearestName;
use std::alloc::{AllocError, Global};

/// The property that every object has.
const OBJECT_NAME: &str = "objectName";

const CONST_POINTER: &str = "a pointer to a `const` object, which nobody calls, writes or deletes";

/// What is imported, in which names are looked up.
#[derive(Clone, Copy)]
pub struct Lookup<'i, 'f> {
    pub import: &'i Import<'f>,
}

/// A member that is looked for in a class and its bases; the class is `QObject` where it is `None`.
#[derive(Clone, Copy)]
pub struct SoughtMember<'i> {
    pub class: Option<usize>,
    pub sort: SoughtSort,
    pub name: &'i str,
}

/// What a member is.
#[derive(Clone, Copy, PartialEq, Eq)]
pub enum SoughtSort {
    Property,
    Signal,
    Slot,
}

impl SoughtSort {
    /// The word for it.
    pub fn word(self) -> &'static str {
        match self {
            SoughtSort::Property => "property",
            SoughtSort::Signal => "signal",
            SoughtSort::Slot => "slot",
        }
    }

    /// Whether the method is a signal, or a slot, as this is.
    pub fn is_of(self, method: &ImportedMethod<'_>) -> bool {
        method.is_signal() == (self == SoughtSort::Signal)
    }
}

impl SoughtMember<'_> {
    /// Whether the method is a signal, or a slot, of this name.
    pub fn is_called_as(self, method: &ImportedMethod<'_>) -> bool {
        self.sort.is_of(method) && method.moc.name.as_str() == self.name
    }
}

impl<'i, 'f> Lookup<'i, 'f> {
    /// The classes.
    pub fn catalogue(self) -> &'i Catalogue<'f> {
        &self.import.catalogue
    }

    /// The type of what a path leads to from an object of the class.
    fn kind_of(self, alloc: Global, class: usize, path: &str) -> Result<LanguageType, EffectFault> {
        let mut kind = LanguageType::Object(Some(class));
        if path == "this" {
            return Ok(kind);
        }
        for name in path.split('.') {
            let (LanguageType::Object(at) | LanguageType::ConstObject(at)) = kind else {
                return Err(no_pointer(alloc, path));
            };
            kind = self.property(alloc, at, name)?;
        }
        Ok(kind)
    }

    /// The class of the object that a path leads to, of which something is written, called or deleted.
    pub fn object(
        self,
        alloc: Global,
        class: usize,
        path: &str,
    ) -> Result<Option<usize>, EffectFault> {
        match self.kind_of(alloc, class, path)? {
            LanguageType::Object(found) => Ok(found),
            LanguageType::ConstObject(_) => Err(EffectFault::of_name(alloc, path, CONST_POINTER)),
            LanguageType::Int | LanguageType::Bool | LanguageType::Text => Err(no_pointer(
                alloc, path,
            )),
        }
    }

    /// The type of a property of a class.
    pub fn property(
        self,
        alloc: Global,
        class: Option<usize>,
        name: &str,
    ) -> Result<LanguageType, EffectFault> {
        if name == OBJECT_NAME {
            return Ok(LanguageType::Text);
        }
        for number in self.catalogue().lineage(class) {
            if let Some(kind) = self.own_property(number, name) {
                return Ok(kind);
            }
        }
        let sort = SoughtSort::Property;
        Err(self.no_member(alloc, SoughtMember { class, sort, name })?)
    }

    /// The type of a property that the class itself has.
    fn own_property(self, class: usize, name: &str) -> Option<LanguageType> {
        for property in self.import.members.get(class)?.properties.as_slice() {
            if property.moc.name.as_str() == name {
                return Some(property.mapped.kind);
            }
        }
        None
    }

    /// That there is no such member, and why.
    pub fn no_member(
        self,
        alloc: Global,
        sought: SoughtMember<'i>,
    ) -> Result<EffectFault, AllocError> {
        let class = self.catalogue().name(sought.class);
        let what = sought.sort.word();
        let name = sought.name;
        let why = self.why_not_there(alloc, sought)?;
        let told = format!(in alloc; "`{class}` has no {what} `{name}`{why}")?;
        Ok(EffectFault::of(alloc, &[told.as_str()]))
    }

    /// Why there is no such member, or which may have been meant, to be told behind its name.
    fn why_not_there(self, alloc: Global, sought: SoughtMember<'i>) -> Result<String, AllocError> {
        match self.why_left_out(sought) {
            Some(left_out) => {
                let [why, kind] = left_out.parts();
                format!(in alloc; " here: {why}{kind}")
            }
            None => {
                let nearest = self.nearest(alloc, sought)?;
                let [before, meant, behind] = nearest.question();
                format!(in alloc; "{before}{meant}{behind}")
            }
        }
    }

    /// Why the member is left out, if it is.
    fn why_left_out(self, sought: SoughtMember<'_>) -> Option<LeftOut<'f>> {
        for (number, missing) in self.import.missing.as_slice() {
            let (called, why, is_property) = match *missing {
                MissingMember::Property(moc, why) => (moc.name.as_str(), why, true),
                MissingMember::Method(moc, why) => (moc.name.as_str(), why, false),
            };
            let is_sort = is_property == (sought.sort == SoughtSort::Property);
            let is_there = is_sort && called == sought.name;
            if is_there && self.catalogue().is_below(sought.class, Some(*number)) {
                return Some(why);
            }
        }
        None
    }

    /// Which member of the class and its bases may have been meant.
    fn nearest(
        self,
        alloc: Global,
        sought: SoughtMember<'i>,
    ) -> Result<NearestName<'i>, AllocError> {
        let mut nearest = NearestName::to(sought.name);
        if sought.sort == SoughtSort::Property {
            nearest.look_at(alloc, OBJECT_NAME)?;
        }
        for class in self.catalogue().lineage(sought.class) {
            if let Some(own) = self.import.members.get(class) {
                if sought.sort == SoughtSort::Property {
                    look_at_properties(alloc, own, &mut nearest)?;
                } else {
                    look_at_methods(alloc, own, sought.sort, &mut nearest)?;
                }
            }
        }
        Ok(nearest)
    }
}

/// The fault of a path that has to lead to an object.
fn no_pointer(alloc: Global, path: &str) -> EffectFault {
    EffectFault::of_name(alloc, path, "no pointer to an object")
}

/// Looks at the names of the properties of a class.
fn look_at_properties<'i>(
    alloc: Global,
    own: &'i Members<'_>,
    nearest: &mut NearestName<'i>,
) -> Result<(), AllocError> {
    for property in own.properties.as_slice() {
        nearest.look_at(alloc, property.moc.name.as_str())?;
    }
    Ok(())
}

/// Looks at the names of the signals, or the slots, of a class.
fn look_at_methods<'i>(
    alloc: Global,
    own: &'i Members<'_>,
    sort: SoughtSort,
    nearest: &mut NearestName<'i>,
) -> Result<(), AllocError> {
    for method in own.methods.as_slice() {
        if sort.is_of(method) {
            nearest.look_at(alloc, method.moc.name.as_str())?;
        }
    }
    Ok(())
}
