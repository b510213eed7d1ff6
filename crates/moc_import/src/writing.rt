//! What is written: class declarations, with comments on what isn't as in C++.

use crate::bodies::push_body;
use crate::classes::{
    Catalogue, Import, ImportedParameter, ImportedProperty, LanguageType, Listed, Mapped,
    MethodSort, MissingMember, MocMethod, NoClass, Placed, QOBJECT, full_name, is_free, push_parts,
    push_plain,
};
use crate::effects::GivenBodies;
use basic_types::is_name;
use std::alloc::{AllocError, Global};

/// The class declarations, one after another, each with what is left out of it.
pub fn program(
    alloc: Global,
    import: &Import<'_>,
    effects: &GivenBodies<'_>,
) -> Result<String, AllocError> {
    let mut text = String::new(alloc);
    push_left_out(&mut text, &import.catalogue)?;
    push_classes(&mut text, alloc, import, effects)?;
    Ok(text)
}

/// Adds which classes are left out.
fn push_left_out(text: &mut String, catalogue: &Catalogue<'_>) -> Result<(), AllocError> {
    for (class, why) in catalogue.left_out() {
        text.push_str("// left out: the class ")?;
        push_plain(text, full_name(class))?;
        text.push_str(match why {
            NoClass::Name => ": the language has no class of this name\n",
            NoClass::Circle => ": its bases lead in a circle\n",
        })?;
    }
    Ok(())
}

/// Adds the classes that are imported, each with what is left out of it.
fn push_classes(
    text: &mut String,
    alloc: Global,
    import: &Import<'_>,
    effects: &GivenBodies<'_>,
) -> Result<(), AllocError> {
    let mut told = 0usize;
    for (number, listed) in import.catalogue.classes().iter().enumerate() {
        if number > 0 {
            text.push_str("\n")?;
        }
        push_class(text, alloc, import, effects, number, *listed)?;
        let missing = import.missing.get(told..).unwrap_or(&[]);
        told = told.saturating_add(push_all_missing(text, number, missing)?);
        text.push_str("}\n")?;
    }
    Ok(())
}

/// Adds the members of the class that are left out, which stand first among these, and answers how many they are.
fn push_all_missing(
    text: &mut String,
    number: usize,
    missing: &[(usize, MissingMember<'_>)],
) -> Result<usize, AllocError> {
    let mut count = 0usize;
    for (class, member) in missing {
        if *class != number {
            break;
        }
        push_missing(text, *member)?;
        count = count.saturating_add(1);
    }
    Ok(count)
}

/// Adds a class but for its end.
fn push_class(
    text: &mut String,
    alloc: Global,
    import: &Import<'_>,
    effects: &GivenBodies<'_>,
    number: usize,
    listed: Listed<'_>,
) -> Result<(), AllocError> {
    push_parts(text, &["class ", import.catalogue.name(Some(number))])?;
    if listed.base.is_some() {
        push_parts(text, &[" : ", import.catalogue.name(listed.base)])?;
    }
    text.push_str(" {\n")?;
    push_other_bases(text, listed)?;
    let Some(own) = import.members.get(number) else {
        return Ok(());
    };
    for property in own.properties.as_slice() {
        push_property(text, import, number, property)?;
    }
    for (place, method) in own.methods.as_slice().iter().enumerate() {
        let placed = Placed {
            class: number,
            place,
            method,
        };
        push_method(text, alloc, import, effects, placed)?;
    }
    Ok(())
}

/// Adds which bases the class has in C++ and doesn't have here.
fn push_other_bases(text: &mut String, listed: Listed<'_>) -> Result<(), AllocError> {
    for (place, base) in listed.class.super_classes.as_slice().iter().enumerate() {
        let name = base.name.as_str();
        let is_kept = place == 0 && (listed.base.is_some() || name == QOBJECT);
        if !is_kept {
            text.push_str("    // left out: the base ")?;
            push_plain(text, name)?;
            text.push_str("\n")?;
        }
    }
    Ok(())
}

/// Adds a property.
fn push_property(
    text: &mut String,
    import: &Import<'_>,
    class: usize,
    property: &ImportedProperty<'_>,
) -> Result<(), AllocError> {
    let notify = property.moc.notify.as_str();
    let notified = import.notifies(class, notify, property.mapped.kind);
    text.push_str("    property ")?;
    push_type(text, &import.catalogue, property.mapped.kind)?;
    push_parts(text, &[" ", property.moc.name.as_str()])?;
    match notified {
        Some(true) => {
            push_parts(text, &[" notify ", notify, "("])?;
            push_type(text, &import.catalogue, property.mapped.kind)?;
            text.push_str(")")?;
        }
        Some(false) => push_parts(text, &[" notify ", notify, "()"])?,
        None => {}
    }
    text.push_str(";")?;
    push_narrowed(text, property.mapped, property.moc.kind.as_str())?;
    if !notify.is_empty() && notified.is_none() {
        text.push_str(" // left out: its notify signal ")?;
        push_plain(text, notify)?;
    }
    text.push_str("\n")
}

/// Adds a type as it is declared.
fn push_type(
    text: &mut String,
    catalogue: &Catalogue<'_>,
    kind: LanguageType,
) -> Result<(), AllocError> {
    push_parts(text, &kind.parts(catalogue))
}

/// Adds that a type is an `int` here.
fn push_narrowed(text: &mut String, mapped: Mapped, kind: &str) -> Result<(), AllocError> {
    if mapped.is_narrowed {
        text.push_str(" // ")?;
        push_plain(text, kind)?;
    }
    Ok(())
}

/// Adds a signal, or a slot with its body.
fn push_method(
    text: &mut String,
    alloc: Global,
    import: &Import<'_>,
    effects: &GivenBodies<'_>,
    placed: Placed<'_, '_>,
) -> Result<(), AllocError> {
    let parameters = placed.method.parameters.as_slice();
    let names = parameter_names(alloc, parameters)?;
    push_head(text, import, placed, names.as_slice())?;
    push_end(text, import, effects, placed, names.as_slice())
}

/// Adds what is declared of a signal or a slot, with its parameters, which have these names.
fn push_head(
    text: &mut String,
    import: &Import<'_>,
    placed: Placed<'_, '_>,
    names: &[String],
) -> Result<(), AllocError> {
    let method = placed.method;
    let word = if method.is_signal() {
        "    signal "
    } else {
        "    slot "
    };
    push_parts(text, &[word, method.moc.name.as_str(), "("])?;
    let mut comma = "";
    for (place, parameter) in method.parameters.as_slice().iter().enumerate() {
        text.push_str(comma)?;
        push_type(text, &import.catalogue, parameter.mapped.kind)?;
        if let Some(name) = names.get(place) {
            push_parts(text, &[" ", name.as_str()])?;
        }
        comma = ", ";
    }
    text.push_str(")")
}

/// Adds the end of a signal, or the body of a slot, and which of its parameters are an `int` here.
fn push_end(
    text: &mut String,
    import: &Import<'_>,
    effects: &GivenBodies<'_>,
    placed: Placed<'_, '_>,
    names: &[String],
) -> Result<(), AllocError> {
    match placed.method.sort {
        MethodSort::Signal => text.push_str(";")?,
        MethodSort::Slot => push_body(text, import, effects, placed, names)?,
        MethodSort::AddedSlot => {
            push_body(text, import, effects, placed, names)?;
            text.push_str(" // added")?;
        }
    }
    for parameter in placed.method.parameters.as_slice() {
        push_narrowed(text, parameter.mapped, parameter.moc.kind.as_str())?;
    }
    text.push_str("\n")
}

/// The names of the parameters: their own, or `a1`, `a2`, .. by their places, and with a `_` behind a name that is a word of
/// the language or that one before it has.
fn parameter_names(
    alloc: Global,
    parameters: &[ImportedParameter<'_>],
) -> Result<Vec<String>, AllocError> {
    let mut names = Vec::new(alloc);
    for (place, parameter) in parameters.iter().enumerate() {
        let own = parameter.moc.name.as_str();
        let name = parameter_name(alloc, own, place, names.as_slice())?;
        names.push(name)?;
    }
    Ok(names)
}

/// The name of the parameter of this place, which isn't one of those before it.
fn parameter_name(
    alloc: Global,
    own: &str,
    place: usize,
    before: &[String],
) -> Result<String, AllocError> {
    let mut name = first_name(alloc, own, place)?;
    // Each `_` steps past a name at least.
    for _ in 0..before.len().saturating_add(2) {
        if is_free(name.as_str()) && !is_among(name.as_str(), before) {
            break;
        }
        name.push_str("_")?;
    }
    Ok(name)
}

/// The parameter's own name, or one by its place.
fn first_name(alloc: Global, own: &str, place: usize) -> Result<String, AllocError> {
    if is_name(own.as_bytes()) {
        return String::from_str(alloc, own);
    }
    let number = place.saturating_add(1);
    format!(in alloc; "a{number}")
}

fn is_among(name: &str, names: &[String]) -> bool {
    for it in names {
        if it.as_str() == name {
            return true;
        }
    }
    false
}

/// Adds a member that is left out, and why.
fn push_missing(text: &mut String, member: MissingMember<'_>) -> Result<(), AllocError> {
    let why = match member {
        MissingMember::Property(moc, why) => {
            text.push_str("    // left out: property ")?;
            push_plain(text, moc.name.as_str())?;
            why
        }
        MissingMember::Method(moc, why) => {
            text.push_str("    // left out: ")?;
            push_cpp(text, moc)?;
            why
        }
    };
    let [why, kind] = why.parts();
    push_parts(text, &[": ", why])?;
    push_plain(text, kind)?;
    text.push_str("\n")
}

/// Adds a method as it is in C++.
fn push_cpp(text: &mut String, moc: &MocMethod) -> Result<(), AllocError> {
    push_plain(text, moc.name.as_str())?;
    text.push_str("(")?;
    let mut comma = "";
    for argument in moc.arguments.as_slice() {
        text.push_str(comma)?;
        push_plain(text, argument.kind.as_str())?;
        comma = ", ";
    }
    text.push_str(")")
}
