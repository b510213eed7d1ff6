//! Which members are imported, class by class.

use crate::classes::catalogue::{Catalogue, Listed};
use crate::classes::kinds::LanguageType;
use crate::classes::members::{
    ImportedMethod, ImportedProperty, LeftOut, Members, MethodSort, parameters_of, property_of,
};
use crate::classes::moc::{MocClass, MocMethod, MocProperty};
use std::alloc::{AllocError, Global};

/// Which members are wanted.
#[derive(Drop)]
pub struct Choice<'f> {
    /// Of properties those alone that notify, or that a slot writes.
    pub is_lean: bool,
    /// The names of properties that are wanted even so.
    pub kept: Vec<&'f str>,
    /// Slots that the classes have besides, each with its class's number. Those that the language can't have are passed over.
    pub added: Vec<(usize, &'f MocMethod)>,
}

/// What is imported so far.
#[derive(Drop)]
pub struct Import<'f> {
    pub catalogue: Catalogue<'f>,
    /// For each class, by number, its own members.
    pub members: Vec<Members<'f>>,
    /// What is left out, each with its class's number.
    pub missing: Vec<(usize, MissingMember<'f>)>,
}

/// A method, with its class and its place among the methods of that.
#[derive(Clone, Copy)]
pub struct Placed<'i, 'f> {
    pub class: usize,
    pub place: usize,
    pub method: &'i ImportedMethod<'f>,
}

/// A member that is left out, and why.
#[derive(Clone, Copy)]
pub enum MissingMember<'f> {
    Property(&'f MocProperty, LeftOut<'f>),
    Method(&'f MocMethod, LeftOut<'f>),
}

impl<'f> Import<'f> {
    /// The members of all classes.
    pub fn of(
        alloc: Global,
        catalogue: Catalogue<'f>,
        choice: &Choice<'f>,
    ) -> Result<Import<'f>, AllocError> {
        let mut import = Import {
            catalogue,
            members: Vec::new(alloc),
            missing: Vec::new(alloc),
        };
        import.push_all(alloc, choice)?;
        Ok(import)
    }

    /// Adds the members of all classes.
    fn push_all(&mut self, alloc: Global, choice: &Choice<'f>) -> Result<(), AllocError> {
        for number in 0..self.catalogue.classes().len() {
            self.members.push(Members {
                properties: Vec::new(alloc),
                methods: Vec::new(alloc),
            })?;
            if let Some(class) = self.class(number) {
                self.push_methods(alloc, number, class.signals.as_slice(), MethodSort::Signal)?;
                self.push_methods(alloc, number, class.slots.as_slice(), MethodSort::Slot)?;
                self.push_methods(alloc, number, class.methods.as_slice(), MethodSort::Slot)?;
                self.push_added(alloc, number, choice.added.as_slice())?;
                self.push_properties(number, class, choice)?;
            }
        }
        Ok(())
    }

    /// The class of this number, as moc has it.
    fn class(&self, number: usize) -> Option<&'f MocClass> {
        let listed: &Listed<'f> = self.catalogue.classes().get(number)?;
        Some(listed.class)
    }

    /// Adds those of the methods that the language can have.
    fn push_methods(
        &mut self,
        alloc: Global,
        class: usize,
        methods: &'f [MocMethod],
        sort: MethodSort,
    ) -> Result<(), AllocError> {
        for moc in methods {
            if let Some(why) = self.push_method(alloc, class, moc, sort)? {
                self.missing.push((class, MissingMember::Method(moc, why)))?;
            }
        }
        Ok(())
    }

    /// Adds those of the slots that the class has besides.
    fn push_added(
        &mut self,
        alloc: Global,
        class: usize,
        added: &[(usize, &'f MocMethod)],
    ) -> Result<(), AllocError> {
        for (number, moc) in added {
            if *number == class {
                let _passed_over = self.push_method(alloc, class, moc, MethodSort::AddedSlot)?;
            }
        }
        Ok(())
    }

    /// Adds the method, or answers why the language can't have it.
    fn push_method(
        &mut self,
        alloc: Global,
        class: usize,
        moc: &'f MocMethod,
        sort: MethodSort,
    ) -> Result<Option<LeftOut<'f>>, AllocError> {
        let method = match self.method(alloc, class, moc, sort)? {
            Ok(method) => method,
            Err(why) => return Ok(Some(why)),
        };
        if let Some(members) = self.members.get_mut(class) {
            members.methods.push(method)?;
        }
        Ok(None)
    }

    /// The method, or why it is left out.
    fn method(
        &self,
        alloc: Global,
        class: usize,
        moc: &'f MocMethod,
        sort: MethodSort,
    ) -> Result<Result<ImportedMethod<'f>, LeftOut<'f>>, AllocError> {
        let parameters = match parameters_of(alloc, &self.catalogue, class, moc)? {
            Ok(parameters) => parameters,
            Err(why) => return Ok(Err(why)),
        };
        let name = moc.name.as_str();
        let count = parameters.len();
        if is_of_qobject(name, count) {
            return Ok(Err(LeftOut::Inherited));
        }
        Ok(
            match self.holder(class, WantedMember::Method(name, count)) {
                Some(holder) if holder == class => Err(LeftOut::Overload),
                Some(_) => Err(LeftOut::Inherited),
                None => Ok(ImportedMethod {
                    moc,
                    sort,
                    parameters,
                }),
            },
        )
    }

    /// Adds those of the properties that the language can have; of a lean import those alone that notify or are written.
    fn push_properties(
        &mut self,
        number: usize,
        class: &'f MocClass,
        choice: &Choice<'f>,
    ) -> Result<(), AllocError> {
        for moc in class.properties.as_slice() {
            match self.property(number, moc) {
                Ok(found) => {
                    let is_wanted = !choice.is_lean
                        || self.is_used(number, &found, choice.kept.as_slice());
                    if is_wanted {
                        self.push_property(number, found)?;
                    }
                }
                Err(why) => self
                    .missing
                    .push((number, MissingMember::Property(moc, why)))?,
            }
        }
        Ok(())
    }

    /// The property, or why it is left out.
    fn property(
        &self,
        class: usize,
        moc: &'f MocProperty,
    ) -> Result<ImportedProperty<'f>, LeftOut<'f>> {
        let found = property_of(&self.catalogue, class, moc)?;
        if self.has_property(class, moc.name.as_str()) {
            return Err(LeftOut::Inherited);
        }
        Ok(found)
    }

    /// Adds the property.
    fn push_property(
        &mut self,
        class: usize,
        property: ImportedProperty<'f>,
    ) -> Result<(), AllocError> {
        if let Some(members) = self.members.get_mut(class) {
            members.properties.push(property)?;
        }
        Ok(())
    }

    /// Whether the property notifies, a slot of one parameter writes it, or it is kept by its name.
    fn is_used(&self, class: usize, property: &ImportedProperty<'f>, kept: &[&str]) -> bool {
        let notify = property.moc.notify.as_str();
        kept.contains(&property.moc.name.as_str())
            || self.notifies(class, notify, property.mapped.kind).is_some()
            || self.is_written(class, property)
    }

    /// Whether a slot of the class itself writes the property.
    fn is_written(&self, class: usize, property: &ImportedProperty<'f>) -> bool {
        let Some(own) = self.members.get(class) else {
            return false;
        };
        for method in own.methods.as_slice() {
            if writes(method, property) {
                return true;
            }
        }
        false
    }

    /// Whether the class or a base of it has the property.
    fn has_property(&self, class: usize, name: &str) -> bool {
        name == "objectName" || self.holder(class, WantedMember::Property(name)).is_some()
    }

    /// Whether the notify signal of a property of this type is there, and then whether it carries the value.
    pub fn notifies(&self, class: usize, notify: &str, kind: LanguageType) -> Option<bool> {
        if self
            .holder(class, WantedMember::Telling(notify, kind))
            .is_some()
        {
            return Some(true);
        }
        if self.holder(class, WantedMember::Silent(notify)).is_some() {
            return Some(false);
        }
        None
    }

    /// The property that the slot of this class writes, by its name and type.
    pub fn written(&self, class: usize, slot: &ImportedMethod<'f>) -> Option<&'f str> {
        for number in self.catalogue.lineage(Some(class)) {
            for property in self.members.get(number)?.properties.as_slice() {
                if writes(slot, property) {
                    return Some(property.moc.name.as_str());
                }
            }
        }
        None
    }

    /// The method of a class or the nearest of its bases with this name and so many parameters.
    pub fn find_method(&self, class: usize, name: &str, count: usize) -> Option<Placed<'_, 'f>> {
        let class = self.holder(class, WantedMember::Method(name, count))?;
        let own = self.members.get(class)?;
        for (place, method) in own.methods.as_slice().iter().enumerate() {
            if method.is_called(name, count) {
                return Some(Placed {
                    class,
                    place,
                    method,
                });
            }
        }
        None
    }

    /// The first class, from this one up, that has the member itself.
    fn holder(&self, class: usize, sought: WantedMember<'_>) -> Option<usize> {
        for number in self.catalogue.lineage(Some(class)) {
            if sought.is_in(self.members.get(number)?) {
                return Some(number);
            }
        }
        None
    }
}

/// A member that is looked for.
#[derive(Clone, Copy)]
enum WantedMember<'n> {
    /// The property of this name.
    Property(&'n str),
    /// The method of this name with so many parameters.
    Method(&'n str, usize),
    /// The signal of this name with one parameter, of this type.
    Telling(&'n str, LanguageType),
    /// The signal of this name without parameters.
    Silent(&'n str),
}

impl WantedMember<'_> {
    /// Whether it is one of these members.
    fn is_in(self, members: &Members<'_>) -> bool {
        for property in members.properties.as_slice() {
            if self.is_property(property) {
                return true;
            }
        }
        for method in members.methods.as_slice() {
            if self.is_method(method) {
                return true;
            }
        }
        false
    }

    fn is_property(self, property: &ImportedProperty<'_>) -> bool {
        match self {
            WantedMember::Property(name) => property.moc.name.as_str() == name,
            _ => false,
        }
    }

    fn is_method(self, method: &ImportedMethod<'_>) -> bool {
        match self {
            WantedMember::Property(_) => false,
            WantedMember::Method(name, count) => method.is_called(name, count),
            WantedMember::Telling(name, kind) => {
                method.is_signal() && method.is_called(name, 1) && method.takes(kind)
            }
            WantedMember::Silent(name) => method.is_signal() && method.is_called(name, 0),
        }
    }
}

/// Whether the slot is the one that writes the property.
fn writes(slot: &ImportedMethod<'_>, property: &ImportedProperty<'_>) -> bool {
    !slot.is_signal()
        && slot.moc.name.as_str() == property.moc.write.as_str()
        && slot.takes(property.mapped.kind)
}

/// Whether `QObject` has the method.
fn is_of_qobject(name: &str, count: usize) -> bool {
    match name {
        "destroyed" => count <= 1,
        "objectNameChanged" => count == 1,
        "deleteLater" => count == 0,
        _ => false,
    }
}
