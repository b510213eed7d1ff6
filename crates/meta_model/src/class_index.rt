//! Indexes by which classes and their members are found by name.

ghost use Rattle.std.specs.Prelude.{◌≡◌, IfOk};
ghost use Rattle.std.specs.List.{AllZip};
ghost use Rattle.name_indexes.specs.NamePlaces.{place_in};
ghost use Rattle.meta_model.specs.Indexes.{IndexesClasses, IndexesMembers, IsIndexOf, IndexesSites, property_in, method_in};

use crate::object::MetaObject;
use crate::site::MetaSite;
use basic_types::Name;
use name_indexes::{CallIndex, NameIndex};
use sqlite_items::Items;
use std::alloc::{AllocError, Global};

/// Where the members of a class stand, by their names.
pub struct MemberIndex {
    /// Where its properties stand; they have no parameters.
    pub properties: CallIndex,
    /// Where its methods stand, by their numbers of parameters too.
    pub methods: CallIndex,
}

impl Drop for MemberIndex {
    fn drop(self) {
        let MemberIndex {
            properties: _,
            methods: _,
        } = self;
    }
}

/// Where classes and their members stand, by their names.
pub struct ClassIndex {
    /// The classes' numbers.
    pub classes: NameIndex,
    /// Their members, by the classes' numbers.
    pub members: Items<MemberIndex>,
}

impl Drop for ClassIndex {
    fn drop(self) {
        let ClassIndex {
            classes: _,
            members: _,
        } = self;
    }
}

impl ClassIndex {
    /// The index of these classes, of whose members these are the indexes; its error is that memory was refused.
    pub fn new(
        alloc: Global,
        classes: &[MetaObject],
        members: Items<MemberIndex>,
    ) -> Result<ClassIndex, AllocError>
        requires { AllZip IndexesMembers classes.now members }
        ensures { IfOk result (λ index. IsIndexOf classes.now index) }
    {
        let names = index_classes(alloc, classes)?;
        Ok(ClassIndex {
            classes: names,
            members,
        })
    }

    /// The number of the class of this name.
    pub fn class(&self, name: &Name) -> Option<usize>
        ensures { result ≡ place_in self.now.classes name.now }
    {
        self.classes.find(name)
    }

    /// The number of the property of this name, in the class of this number.
    pub fn property(&self, class: usize, name: &Name) -> Option<usize>
        ensures { result ≡ property_in self.now.members class name.now }
    {
        self.members.get(class)?.properties.find(name, 0)
    }

    /// The number of the method of this name with so many parameters, in the class of this number.
    pub fn method(&self, class: usize, name: &Name, count: usize) -> Option<usize>
        ensures { result ≡ method_in self.now.members class name.now count }
    {
        self.members.get(class)?.methods.find(name, count)
    }
}

/// The classes' numbers by their names.
fn index_classes(alloc: Global, classes: &[MetaObject]) -> Result<NameIndex, AllocError>
    ensures { IfOk result (IndexesClasses classes.now) }
{
    let mut index = NameIndex::new(alloc);
    for (number, class) in classes.iter().enumerate() {
        index.insert(&class.name, number)?;
    }
    Ok(index)
}

/// The binding sites' numbers, by their names; its error is that memory was refused.
pub fn index_sites(alloc: Global, sites: &[MetaSite]) -> Result<NameIndex, AllocError>
    ensures { IfOk result (λ index. IndexesSites sites.now index) }
{
    let mut index = NameIndex::new(alloc);
    for (number, site) in sites.iter().enumerate() {
        index.insert(&site.name, number)?;
    }
    Ok(index)
}
