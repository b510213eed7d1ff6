//! Classes with their whole lists of members.

ghost use Rattle.std.specs.Prelude.{◌≡◌, ℕ, map, IfOk, OnOk, codes, [], ◌∷◌, ◌++◌};
ghost use Rattle.class_outlines.specs.Bases.{LacksBase};
ghost use Rattle.meta_model.specs.QObject.{sig_of};
ghost use Rattle.class_outlines.specs.Outlines.{types_of, signal_heading, slot_headings, own_methods};
ghost use Rattle.class_outlines.specs.Outlines.{FindsBase, OutlinesClass, Outlines};
ghost use Rattle.class_outlines.specs.Offences.{fault_of, LoadsOf};
ghost use Rattle.class_outlines.specs.declared.fault.MetaFault.TheVariants as fault;

use crate::offence::{Breach, Declaration, LoadFault, PartFault};
use crate::outline::{Heading, Outline, Sort};
use crate::places::find;
use crate::qobject::qobject;
use crate::reason::{BasePlace, Reason};
use basic_types::{Name, QType, Shared, Sig, copy_all};
use sqlite_items::Items;
use std::alloc::{AllocError, Global};
use syntax_trees::{Class, Literal, Parameter, Program, Property, Signal, Slot};

/// `QObject` and the program's classes, as declared; or the first class whose base doesn't stand before it.
pub fn outline_classes(alloc: Global, program: &Program) -> Result<Vec<Outline>, LoadFault>
    ensures { LoadsOf program.now fault.NoBase (LacksBase (codes "QObject" ∷ []) program.now.classes)
        (λ outlines. Outlines program.now.classes outlines.items) result }
{
    let root = Name::new(alloc, b"QObject")?;
    let mut outlines = Vec::new(alloc);
    let first = qobject(alloc)?;
    add(&mut outlines, first)?;
    let classes = program.classes.as_slice();
    for (number, class) in classes.iter().enumerate() {
        match outline_class(alloc, &root, outlines.as_slice(), number, classes, class) {
            Ok(outline) => add(&mut outlines, outline)?,
            Err(fault) => return Err(fault.of(Declaration::Class(number))),
        }
    }
    Ok(outlines)
}

/// Puts a class after the others; the error is that memory was refused.
fn add(outlines: &mut Vec<Outline>, outline: Outline) -> Result<(), AllocError>
    ensures { OnOk result (outlines.new.items ≡ outlines.old.items ++ outline ∷ []) }
{
    outlines.push(outline)?;
    Ok(())
}

/// The class of this number among the program's, over those before it.
fn outline_class(
    alloc: Global,
    root: &Name,
    before: &[Outline],
    number: usize,
    classes: &[Class],
    class: &Class,
) -> Result<Outline, PartFault>
    requires { root.now ≡ codes "QObject" }
    ensures { OutlinesClass before.now number class.now result }
{
    let Some((base, above)) = find_base(root, before, &class.base) else {
        return Err(PartFault::Breach(missing_base(classes, class)));
    };
    let name = class.name.copy()?;
    let methods = all_methods(alloc, above, number, class)?;
    let properties = all_properties(alloc, above, class)?;
    Ok(Outline {
        name,
        base: Some(base),
        methods,
        properties,
    })
}

/// That the base of the class doesn't stand before it.
fn missing_base(classes: &[Class], class: &Class) -> Breach
    ensures { fault_of result.reason ≡ fault.NoBase }
{
    Breach {
        name: 1,
        reason: Reason::NoBase(base_place(classes, class)),
    }
}

/// Where the base of the class stands among the program's classes, which isn't before the class.
fn base_place(classes: &[Class], class: &Class) -> BasePlace {
    let Some(base) = &class.base else {
        return BasePlace::Nowhere;
    };
    if base.is_same(&class.name) {
        BasePlace::Itself
    } else if classes.iter().any(|other| other.name.is_same(base)) {
        BasePlace::Behind
    } else {
        BasePlace::Nowhere
    }
}

/// The base among the classes before its class, with its number.
fn find_base<'a>(
    root: &Name,
    before: &'a [Outline],
    base: &Option<Name>,
) -> Option<(usize, &'a Outline)>
    requires { root.now ≡ codes "QObject" }
    ensures { FindsBase before.now base.now result }
{
    match base {
        Some(name) => find(before, name),
        None => find(before, root),
    }
}

/// The base's methods, which both share, then those of the class of this number among the program's.
fn all_methods(
    alloc: Global,
    above: &Outline,
    number: usize,
    class: &Class,
) -> Result<Items<Shared<Heading>>, AllocError>
    ensures { IfOk result (λ methods. methods ≡ above.now.methods ++ own_methods number class.now) }
{
    let own = own_headings(alloc, number, class)?;
    let mut methods = copy_all(alloc, above.methods.as_slice(), own.len())?;
    methods.append(own)?;
    Ok(methods)
}

/// The base's properties, which both share, then the class's own.
fn all_properties(
    alloc: Global,
    above: &Outline,
    class: &Class,
) -> Result<Items<Shared<Property>>, AllocError>
    ensures { IfOk result (λ properties. properties ≡ above.now.properties ++ class.now.properties) }
{
    let own = own_properties(alloc, class.properties.as_slice())?;
    let mut properties = copy_all(alloc, above.properties.as_slice(), own.len())?;
    properties.append(own)?;
    Ok(properties)
}

/// The class's signals, then its slots and natives.
fn own_headings(
    alloc: Global,
    number: usize,
    class: &Class,
) -> Result<Items<Shared<Heading>>, AllocError>
    ensures { IfOk result (λ headings. headings ≡ own_methods number class.now) }
{
    let mut headings = signal_headings(alloc, class.signals.as_slice())?;
    let slots = slot_headings(alloc, number, class.slots.as_slice())?;
    headings.append(slots)?;
    Ok(headings)
}

/// The signals, as declared.
fn signal_headings(alloc: Global, signals: &[Signal]) -> Result<Items<Shared<Heading>>, AllocError>
    ensures { IfOk result (λ headings. headings ≡ map signal_heading signals.now) }
{
    let mut headings = Items::from_vec(Vec::with_capacity(alloc, signals.len())?);
    for signal in signals {
        let sig = declared_sig(alloc, &signal.name, signal.parameters.as_slice())?;
        let heading = Heading::shared(alloc, sig, Sort::Signal)?;
        headings.push(heading)?;
    }
    Ok(headings)
}

/// The slots and natives, as declared, of the class of this number among the program's.
fn slot_headings(
    alloc: Global,
    number: usize,
    slots: &[Slot],
) -> Result<Items<Shared<Heading>>, AllocError>
    ensures { IfOk result (λ headings. headings ≡ slot_headings number 0 slots.now) }
{
    let mut headings = Items::from_vec(Vec::with_capacity(alloc, slots.len())?);
    for (place, slot) in slots.iter().enumerate() {
        let sig = declared_sig(alloc, &slot.name, slot.parameters.as_slice())?;
        let heading = Heading::shared(alloc, sig, Sort::Slot(number, place))?;
        headings.push(heading)?;
    }
    Ok(headings)
}

/// The signature of a method with these parameters.
fn declared_sig(alloc: Global, name: &Name, parameters: &[Parameter]) -> Result<Sig, AllocError>
    ensures { IfOk result (λ sig. sig ≡ sig_of name.now (types_of parameters.now)) }
{
    let name = name.copy()?;
    let mut types: Items<QType> = Items::new(alloc);
    for parameter in parameters {
        let kind = parameter.kind.copy()?;
        types.push(kind)?;
    }
    Sig::new(alloc, name, types)
}

/// The properties, as declared.
fn own_properties(
    alloc: Global,
    properties: &[Property],
) -> Result<Items<Shared<Property>>, AllocError>
    ensures { IfOk result (λ own. own ≡ properties.now) }
{
    let mut own = Items::new(alloc);
    for property in properties {
        let property = copy_property(property)?;
        let property = Shared::new(alloc, property)?;
        own.push(property)?;
    }
    Ok(own)
}

/// The same property, which shares its names.
fn copy_property(property: &Property) -> Result<Property, AllocError>
    ensures { IfOk result (λ copy. copy ≡ property.now) }
{
    let kind = property.kind.copy()?;
    let name = property.name.copy()?;
    let initial = copy_literal(&property.initial)?;
    let notify = copy_sig(&property.notify)?;
    Ok(Property {
        kind,
        name,
        initial,
        notify,
    })
}

/// The same literal, if there is one.
fn copy_literal(literal: &Option<Literal>) -> Result<Option<Literal>, AllocError>
    ensures { IfOk result (λ copy. copy ≡ literal.now) }
{
    match literal {
        Some(found) => {
            let found = found.copy()?;
            Ok(Some(found))
        }
        None => Ok(None),
    }
}

/// The same signature, if there is one.
fn copy_sig(sig: &Option<Sig>) -> Result<Option<Sig>, AllocError>
    ensures { IfOk result (λ copy. copy ≡ sig.now) }
{
    match sig {
        Some(found) => {
            let found = found.copy()?;
            Ok(Some(found))
        }
        None => Ok(None),
    }
}
