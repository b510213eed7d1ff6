//! Classes whose members are resolved.

ghost use Rattle.std.specs.Prelude.{◌≡◌, ℕ, [], IfOk, IfSome, option_copied};
ghost use Rattle.class_outlines.specs.Notifiers.{BadNotify};
ghost use Rattle.name_resolution.specs.code.Inherited.{AreOutlined, IsNextObject, InheritMethods, InheritProperties, inherited_method, inherited_property};
ghost use Rattle.name_resolution.specs.code.Loading.{IsMethodOf, AreMethodsOf, work_of, work_at, found_work};
ghost use Rattle.name_resolution.specs.InitialValues.{initial_of};
ghost use Rattle.name_resolution.specs.code.Loading.{IsNotify, IsPropertyOf, ArePropertiesOf};
ghost use Rattle.name_resolution.specs.code.Loading.{IsObject, AreObjects};

use crate::body_resolution::ResolvedWork;
use basic_types::{Shared, Value};
use class_outlines::{ClassTable, Heading, IndexedOutline, Sort, read_type, read_types};
use meta_model::{
    MetaMethod, MetaObject, MetaProperty, SlotBody, ValueType, Work, delete_later_body,
};
use sqlite_items::Items;
use std::alloc::{AllocError, Global};
use syntax_trees::{Literal, Property};

/// The classes in their order, where the program's slots and natives do this. A class shares its base's members: a signal
/// that notifies an inherited property has the same number in both, as each that is declared is there.
pub fn resolve_objects(
    alloc: Global,
    outlines: &ClassTable,
    works: &[Items<ResolvedWork>],
) -> Result<Items<MetaObject>, AllocError>
    requires outlined { AreOutlined outlines.now }
    requires notified { ¬ BadNotify outlines.now }
    ensures { IfOk result (AreObjects outlines.now works.now) }
{
    let all = outlines.as_slice();
    let mut objects = Items::new(alloc);
    for outline in all {
        let object = resolve_object(alloc, outlines, works, objects.as_slice(), outline)?;
        objects.push(object)?;
    }
    Ok(objects)
}

/// The class with its methods and its properties, behind those that stand before it.
fn resolve_object(
    alloc: Global,
    outlines: &ClassTable,
    works: &[Items<ResolvedWork>],
    before: &[MetaObject],
    outline: &IndexedOutline,
) -> Result<MetaObject, AllocError>
    requires { IsNextObject outlines.now works.now before.now outline.now }
    ensures { IfOk result (IsObject outlines.now works.now outline.now) }
{
    let name = outline.name().copy()?;
    let methods = resolve_methods(alloc, outlines, works, before, outline)?;
    let properties = resolve_properties(alloc, outlines, before, outline)?;
    Ok(MetaObject {
        name,
        base: outline.base(),
        methods,
        properties,
    })
}

/// The methods in their order: the base's, which are shared, and the class's own.
fn resolve_methods(
    alloc: Global,
    outlines: &ClassTable,
    works: &[Items<ResolvedWork>],
    before: &[MetaObject],
    outline: &IndexedOutline,
) -> Result<Items<Shared<MetaMethod>>, AllocError>
    requires { InheritMethods outlines.now works.now before.now outline.now }
    ensures { IfOk result (AreMethodsOf outlines.now works.now outline.now.methods) }
{
    let headings = outline.methods();
    let base = outline.base();
    let mut methods = Items::from_vec(Vec::with_capacity(alloc, headings.len())?);
    for (place, heading) in headings.iter().enumerate() {
        let inherited = inherited_method(before, base, place);
        let method = method_over(alloc, outlines, works, inherited, heading.get())?;
        methods.push(method)?;
    }
    Ok(methods)
}

/// The method of this place of the base, where there is one.
fn inherited_method(
    before: &[MetaObject],
    base: Option<usize>,
    place: usize,
) -> Option<&Shared<MetaMethod>>
    ensures { option_copied result ≡ inherited_method before.now base place }
{
    before.get(base?)?.methods.get(place)
}

/// The method that is inherited, if one is; else it is resolved.
fn method_over(
    alloc: Global,
    outlines: &ClassTable,
    works: &[Items<ResolvedWork>],
    inherited: Option<&Shared<MetaMethod>>,
    heading: &Heading,
) -> Result<Shared<MetaMethod>, AllocError>
    requires { IfSome (option_copied inherited) (IsMethodOf outlines.now works.now heading.now) }
    ensures { IfOk result (IsMethodOf outlines.now works.now heading.now) }
{
    match inherited {
        Some(method) => method.copy(),
        None => {
            let method = resolve_method(alloc, outlines, works, heading)?;
            Shared::new(alloc, method)
        }
    }
}

/// The method with its types and what it does.
fn resolve_method(
    alloc: Global,
    outlines: &ClassTable,
    works: &[Items<ResolvedWork>],
    heading: &Heading,
) -> Result<MetaMethod, AllocError>
    ensures { IfOk result (IsMethodOf outlines.now works.now heading.now) }
{
    let copy = heading.sig.copy()?;
    let sig = Shared::new(alloc, copy)?;
    let types = read_types(alloc, outlines, heading.sig.types.as_slice())?;
    let work = work_of(alloc, works, heading.sort)?;
    Ok(MetaMethod { sig, types, work })
}

/// What a method of this sort does.
fn work_of(alloc: Global, works: &[Items<ResolvedWork>], sort: Sort) -> Result<Work, AllocError>
    ensures { IfOk result (λ work. work ≡ work_of works.now sort) }
{
    match sort {
        Sort::Signal => Ok(Work::Signal),
        Sort::DeleteLater => {
            let body = delete_later_body(alloc)?;
            Ok(Work::Slot(body))
        }
        Sort::Slot(class, slot) => found_work(alloc, works, class, slot),
    }
}

/// A body without statements.
fn empty_body(alloc: Global) -> Result<SlotBody, AllocError>
    ensures { IfOk result (λ body. body ≡ []) }
{
    SlotBody::new(alloc, Items::new(alloc))
}

/// What this slot or native of this class does, of which a body is shared; it is among what a program's slots and natives do.
fn found_work(
    alloc: Global,
    works: &[Items<ResolvedWork>],
    class: usize,
    slot: usize,
) -> Result<Work, AllocError>
    ensures { IfOk result (λ work. work ≡ found_work (work_at works.now class slot)) }
{
    match work_at(works, class, slot) {
        Some(ResolvedWork::Body(body)) => {
            let body = body.copy()?;
            Ok(Work::Slot(body))
        }
        Some(ResolvedWork::Native(effects)) => {
            let effects = effects.copy(alloc)?;
            Ok(Work::Native(effects))
        }
        None => {
            let body = empty_body(alloc)?;
            Ok(Work::Slot(body))
        }
    }
}

/// What this slot or native of this class does.
fn work_at(works: &[Items<ResolvedWork>], class: usize, slot: usize) -> Option<&ResolvedWork>
    ensures { option_copied result ≡ work_at works.now class slot }
{
    works.get(class)?.get(slot)
}

/// The properties in their order: the base's, which are shared, and the class's own.
fn resolve_properties(
    alloc: Global,
    outlines: &ClassTable,
    before: &[MetaObject],
    outline: &IndexedOutline,
) -> Result<Items<Shared<MetaProperty>>, AllocError>
    requires { InheritProperties outlines.now before.now outline.now }
    ensures { IfOk result (ArePropertiesOf outlines.now outline.now) }
{
    let all = outline.properties();
    let base = outline.base();
    let mut properties = Items::from_vec(Vec::with_capacity(alloc, all.len())?);
    for (place, declared) in all.iter().enumerate() {
        let inherited = inherited_property(before, base, place);
        let property = property_over(alloc, outlines, outline, inherited, declared.get())?;
        properties.push(property)?;
    }
    Ok(properties)
}

/// The property of this place of the base, where there is one.
fn inherited_property(
    before: &[MetaObject],
    base: Option<usize>,
    place: usize,
) -> Option<&Shared<MetaProperty>>
    ensures { option_copied result ≡ inherited_property before.now base place }
{
    before.get(base?)?.properties.get(place)
}

/// The property that is inherited, if one is; else it is resolved.
fn property_over(
    alloc: Global,
    outlines: &ClassTable,
    outline: &IndexedOutline,
    inherited: Option<&Shared<MetaProperty>>,
    declared: &Property,
) -> Result<Shared<MetaProperty>, AllocError>
    requires { IfSome (option_copied inherited) (IsPropertyOf outlines.now outline.now declared.now) }
    ensures { IfOk result (IsPropertyOf outlines.now outline.now declared.now) }
{
    match inherited {
        Some(property) => property.copy(),
        None => {
            let property = resolve_property(alloc, outlines, outline, declared)?;
            Shared::new(alloc, property)
        }
    }
}

/// The property with its type, its first value and its notify signal.
fn resolve_property(
    alloc: Global,
    outlines: &ClassTable,
    outline: &IndexedOutline,
    declared: &Property,
) -> Result<MetaProperty, AllocError>
    ensures { IfOk result (IsPropertyOf outlines.now outline.now declared.now) }
{
    let name = declared.name.copy()?;
    let kind = read_type(outlines, &declared.kind);
    let initial = initial_of(alloc, &declared.initial, kind)?;
    let notify = notify_of(outline, declared);
    let declared = declared.kind.copy()?;
    Ok(MetaProperty {
        name,
        declared,
        kind,
        initial,
        notify,
    })
}

/// The number of the notify signal, if one is given and is there.
fn notify_of(outline: &IndexedOutline, declared: &Property) -> Option<usize>
    ensures { IsNotify outline.now declared.now.notify result }
{
    match &declared.notify {
        Some(sig) => outline.place_of_signal(sig),
        None => None,
    }
}

/// The value that a property of this type has at first, where this literal is given for it.
fn initial_of(alloc: Global, given: &Option<Literal>, kind: ValueType) -> Result<Value, AllocError>
    ensures { IfOk result (λ value. value ≡ initial_of given.now kind) }
{
    match given {
        Some(literal) => literal.value(),
        None => kind.default_value(alloc),
    }
}
