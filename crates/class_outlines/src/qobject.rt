//! The class `QObject`, the base of all others.

ghost use Rattle.std.specs.Prelude.{◌≡◌, false, [], ◌∷◌, ◌++◌, IfOk, OnOk, codes};
ghost use Rattle.basic_types.specs.Name.{IsName};
ghost use Rattle.basic_types.specs.Normal.{pointer_type};
ghost use Rattle.basic_types.specs.Types.{text_name, value_type};
ghost use Rattle.meta_model.specs.QObject.{sig_of, name_changed};
ghost use Rattle.class_outlines.specs.Outlines.{qobject, heading, object_name};

use crate::outline::{Heading, Outline, Sort};
use basic_types::{Name, QSTRING, QType, Shared, Sig};
use sqlite_items::Items;
use std::alloc::{AllocError, Global};
use syntax_trees::Property;

/// `QObject` with its four methods and its property.
pub fn qobject(alloc: Global) -> Result<Outline, AllocError>
    ensures { IfOk result (λ outline. outline ≡ qobject) }
{
    let name = Name::new(alloc, b"QObject")?;
    let methods = root_methods(alloc, &name)?;
    let properties = root_properties(alloc)?;
    Ok(Outline {
        name,
        base: None,
        methods,
        properties,
    })
}

/// The methods of `QObject`, which has this name.
fn root_methods(alloc: Global, root: &Name) -> Result<Items<Shared<Heading>>, AllocError>
    requires { root.now ≡ codes "QObject" }
    ensures { IfOk result (λ methods. methods ≡ qobject.methods) }
{
    let mut methods = Items::new(alloc);
    let object = reference_to(root)?;
    let destroyed = sig_of_one(alloc, b"destroyed", object)?;
    add(alloc, &mut methods, destroyed, Sort::Signal)?;
    let destroyed_alone = sig_of_none(alloc, b"destroyed")?;
    add(alloc, &mut methods, destroyed_alone, Sort::Signal)?;
    let name_changed = name_changed(alloc)?;
    add(alloc, &mut methods, name_changed, Sort::Signal)?;
    let delete_later = sig_of_none(alloc, b"deleteLater")?;
    add(alloc, &mut methods, delete_later, Sort::DeleteLater)?;
    Ok(methods)
}

/// Puts a method with this signature after the others. The error is that memory was refused.
fn add(
    alloc: Global,
    methods: &mut Items<Shared<Heading>>,
    sig: Sig,
    sort: Sort,
) -> Result<(), AllocError>
    ensures { OnOk result (methods.new ≡ methods.old ++ heading sig sort ∷ []) }
{
    let method = Heading::shared(alloc, sig, sort)?;
    methods.push(method)?;
    Ok(())
}

/// The properties of `QObject`.
fn root_properties(alloc: Global) -> Result<Items<Shared<Property>>, AllocError>
    ensures { IfOk result (λ properties. properties ≡ object_name ∷ []) }
{
    let object_name = object_name(alloc)?;
    let shared = Shared::new(alloc, object_name)?;
    let mut properties = Items::new(alloc);
    properties.push(shared)?;
    Ok(properties)
}

/// The signature of this name without parameters.
fn sig_of_none(alloc: Global, name: &[u8]) -> Result<Sig, AllocError>
    requires { IsName name.now }
    ensures { IfOk result (λ sig. sig ≡ sig_of name.now []) }
{
    let name = Name::new(alloc, name)?;
    Sig::new(alloc, name, Items::new(alloc))
}

/// The signature of this name with one parameter.
fn sig_of_one(alloc: Global, name: &[u8], kind: QType) -> Result<Sig, AllocError>
    requires { IsName name.now }
    ensures { IfOk result (λ sig. sig ≡ sig_of name.now (kind ∷ [])) }
{
    let name = Name::new(alloc, name)?;
    let mut types = Items::new(alloc);
    types.push(kind)?;
    Sig::new(alloc, name, types)
}

/// The type `C*` of references to objects of this class.
pub fn reference_to(class: &Name) -> Result<QType, AllocError>
    ensures { IfOk result (λ kind. kind ≡ pointer_type class.now false) }
{
    let name = class.copy()?;
    Ok(QType::pointer_to(name, false))
}

/// `QString`
fn text_type(alloc: Global) -> Result<QType, AllocError>
    ensures { IfOk result (λ kind. kind ≡ value_type text_name) }
{
    let name = Name::new(alloc, QSTRING)?;
    Ok(QType::value(name))
}

/// `objectNameChanged(QString)`
fn name_changed(alloc: Global) -> Result<Sig, AllocError>
    ensures { IfOk result (λ sig. sig ≡ name_changed) }
{
    let kind = text_type(alloc)?;
    sig_of_one(alloc, b"objectNameChanged", kind)
}

/// `property QString objectName notify objectNameChanged(QString);`
fn object_name(alloc: Global) -> Result<Property, AllocError>
    ensures { IfOk result (λ property. property ≡ object_name) }
{
    let kind = text_type(alloc)?;
    let name = Name::new(alloc, b"objectName")?;
    let notify = name_changed(alloc)?;
    Ok(Property {
        kind,
        name,
        initial: None,
        notify: Some(notify),
    })
}
