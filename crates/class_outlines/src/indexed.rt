ghost use Rattle.std.specs.Prelude.{◌≡◌, ◌↔◌, IsTrue, IfOk, Any};
ghost use Rattle.class_outlines.specs.Notifiers.{IsSignalOf};
ghost use Rattle.class_outlines.specs.Clashes.{HasTwoMembers};
ghost use Rattle.class_outlines.specs.Ends.{IsSigned};
ghost use Rattle.class_outlines.specs.Indexed.{IsCallOf, IsPropertyOfName, IsIndexed, IndexesOutlines};
ghost use Rattle.class_outlines.specs.Indexed.{IndexesHeadings, IndexesDeclared};
ghost use Rattle.class_outlines.specs.Offences.{LoadsOf};
ghost use Rattle.class_outlines.specs.Outlines.{Outlines};
ghost use Rattle.name_indexes.specs.Places.{IsPlace, IsFirst, IsAlone};
ghost use Rattle.class_outlines.specs.code.NearMembers.{IsNear, IsNearOf, IsNamesake};
ghost use Rattle.class_outlines.specs.code.OwnMembers.{IsNext, IsOverBase};
ghost use Rattle.class_outlines.specs.declared.fault.MetaFault.TheVariants as fault;

use crate::bases::base_of;
use crate::offence::LoadFault;
use crate::outline::{Heading, Outline};
use crate::reason::Near;
use crate::twin_members::{find_twin_members, twin_offence};
use basic_types::{Name, Shared, Sig};
use meta_model::OBJECT_NAME_CHANGED;
use name_indexes::{CallIndex, index_all, index_calls};
use sqlite_items::Items;
use std::alloc::{AllocError, Global};
use std::marker::Model;
use syntax_trees::{Program, Property};

/// A class with its whole lists of members, each of which appears once. They are found by name, methods also by their
/// number of parameters, in time that doesn't grow with their number. Members that it inherits are shared with its base.
pub struct IndexedOutline {
    outline: Outline,
    methods: CallIndex,
    properties: CallIndex,
}

impl Drop for IndexedOutline {
    fn drop(self) {
        let IndexedOutline {
            outline: _,
            methods: _,
            properties: _,
        } = self;
    }
}

impl Model for IndexedOutline {
    ghost use Rattle.class_outlines.specs.declared.outline.Outline.{Outline};
    ghost use Rattle.class_outlines.specs.Indexed.{IndexesOutline};

    ghost Value = { Outline };

    ghost view = { λ indexed. indexed.outline };

    ghost invariant = { λ indexed. IndexesOutline indexed.outline indexed.methods indexed.properties };
}

impl IndexedOutline {
    /// The class's name.
    pub fn name(&self) -> &Name
        ensures { result.now ≡ self.now.name }
    {
        &self.outline.name
    }

    /// The number of its base, which only `QObject` lacks.
    pub fn base(&self) -> Option<usize>
        ensures { result ≡ self.now.base }
    {
        self.outline.base
    }

    /// The base's methods, then its own signals, then its own slots and natives.
    pub fn methods(&self) -> &[Shared<Heading>]
        ensures { result.now ≡ self.now.methods }
    {
        self.outline.methods.as_slice()
    }

    /// The base's properties, then its own.
    pub fn properties(&self) -> &[Shared<Property>]
        ensures { result.now ≡ self.now.properties }
    {
        self.outline.properties.as_slice()
    }

    /// The index of its methods.
    pub fn method_index(&self) -> &CallIndex
        ensures { IndexesHeadings self.now.methods result.now }
    {
        &self.methods
    }

    /// The index of its properties, which have no parameters.
    pub fn property_index(&self) -> &CallIndex
        ensures { IndexesDeclared self.now.properties result.now }
    {
        &self.properties
    }

    /// The method of this name and with so many parameters, with its place.
    pub fn find_call(&self, name: &Name, count: usize) -> Option<(usize, &Heading)>
        ensures value { IsFirst (IsCallOf name.now count) self.now.methods result }
        ensures only { IsAlone (IsCallOf name.now count) self.now.methods result }
    {
        let place = self.methods.find(name, count)?;
        let shared = self.outline.methods.get(place)?;
        let method = shared.get();
        Some((place, method))
    }

    /// The property of this name, with its place.
    pub fn find_property(&self, name: &Name) -> Option<(usize, &Property)>
        ensures { IsFirst (IsPropertyOfName name.now) self.now.properties result }
    {
        let place = self.properties.find(name, 0)?;
        let shared = self.outline.properties.get(place)?;
        let property = shared.get();
        Some((place, property))
    }

    /// The place of the method of this signature.
    pub fn place_of_signed(&self, sig: &Sig) -> Option<usize>
        ensures { IsPlace (IsSigned sig.now) self.now.methods result }
    {
        let Some((place, method)) = self.find_call(&sig.name, sig.types.len()) else {
            return None;
        };
        if method.sig.is_same(sig) {
            Some(place)
        } else {
            None
        }
    }

    /// The place of the signal of this signature.
    pub fn place_of_signal(&self, sig: &Sig) -> Option<usize>
        ensures { IsPlace (IsSignalOf sig.now) self.now.methods result }
    {
        let Some((place, method)) = self.find_call(&sig.name, sig.types.len()) else {
            return None;
        };
        if method.is_signal() && method.sig.is_same(sig) {
            Some(place)
        } else {
            None
        }
    }

    /// What there is of the name of a method that is looked for by its name and so many parameters.
    pub fn near_call(&self, name: &Name, count: usize) -> Near
        ensures { IsNear (IsCallOf name.now count) name.now self.now result }
    {
        match self.find_call(name, count) {
            Some((place, method)) => near_of(place, method),
            None => near_name(self.methods(), name),
        }
    }

    /// What there is of the name of a method that is looked for by its signature.
    pub fn near_signed(&self, sig: &Sig) -> Near
        ensures { IsNear (IsSigned sig.now) sig.now.name self.now result }
    {
        let Some((place, method)) = self.find_call(&sig.name, sig.types.len()) else {
            return near_name(self.methods(), &sig.name);
        };
        if method.sig.is_same(sig) {
            near_of(place, method)
        } else {
            near_name(self.methods(), &sig.name)
        }
    }
}

/// What the method is, which has this number.
fn near_of(number: usize, method: &Heading) -> Near
    ensures { IsNearOf number method.now result }
{
    if method.is_signal() {
        if number <= OBJECT_NAME_CHANGED {
            Near::RuntimeSignal
        } else {
            Near::Signal
        }
    } else {
        Near::Slot
    }
}

/// Whether there is a method of this name at all, where none is the one that is looked for.
fn near_name(methods: &[Shared<Heading>], name: &Name) -> Near
    ensures { IsNamesake methods.now name.now result }
{
    if has_named(methods, name) {
        Near::Namesake
    } else {
        Near::Nothing
    }
}

/// Whether one of the methods has this name.
fn has_named(methods: &[Shared<Heading>], name: &Name) -> bool
    ensures { IsTrue result ↔ Any (λ h. h.sig.name ≡ name.now) methods.now }
{
    methods
        .iter()
        .any(|method| method.get().sig.name.is_same(name))
}

/// The classes with indexes of their members; or the first class of which a member appears twice.
pub fn index_outlines(
    alloc: Global,
    program: &Program,
    outlines: Vec<Outline>,
) -> Result<Items<IndexedOutline>, LoadFault>
    requires { Outlines program.now.classes outlines.items }
    ensures { IndexesOutlines program.now outlines.items result }
{
    let mut indexed = Items::new(alloc);
    for outline in outlines {
        let next = index_outline(alloc, program, indexed.as_slice(), outline)?;
        indexed.push(next)?;
    }
    Ok(indexed)
}

/// The class that comes next behind these, with indexes of its members; or which of them appears twice.
fn index_outline(
    alloc: Global,
    program: &Program,
    before: &[IndexedOutline],
    outline: Outline,
) -> Result<IndexedOutline, LoadFault>
    requires { IsNext program.now before.now outline }
    ensures { LoadsOf program.now fault.DuplicateMember (HasTwoMembers outline) (IsIndexed outline) result }
{
    let methods = index_methods(alloc, before, &outline)?;
    let properties = index_properties(alloc, before, &outline)?;
    if let Some(twins) = find_twin_members(before, &outline, &methods, &properties) {
        let offence = twin_offence(program, before, &outline, twins);
        return Err(LoadFault::Offence(offence));
    }
    Ok(IndexedOutline {
        outline,
        methods,
        properties,
    })
}

/// The index of the methods of the class that comes next behind these, over its base's.
fn index_methods(
    alloc: Global,
    before: &[IndexedOutline],
    outline: &Outline,
) -> Result<CallIndex, AllocError>
    requires { IsOverBase before.now outline.now }
    ensures { IfOk result (IndexesHeadings outline.now.methods) }
{
    let methods = outline.methods.as_slice();
    match base_of(before, outline.base) {
        Some(base) => index_calls(alloc, base.method_index(), base.methods().len(), methods),
        None => index_all(alloc, methods),
    }
}

/// The index of the properties of the class that comes next behind these, over its base's.
fn index_properties(
    alloc: Global,
    before: &[IndexedOutline],
    outline: &Outline,
) -> Result<CallIndex, AllocError>
    requires { IsOverBase before.now outline.now }
    ensures { IfOk result (IndexesDeclared outline.now.properties) }
{
    let properties = outline.properties.as_slice();
    match base_of(before, outline.base) {
        Some(base) => index_calls(
            alloc,
            base.property_index(),
            base.properties().len(),
            properties,
        ),
        None => index_all(alloc, properties),
    }
}
