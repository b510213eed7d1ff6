//! Declared names that are like one that isn't there.

use crate::declarations::declarations::DeclarationRef;
use crate::declarations::words::ReportedOffence;
use crate::named_classes::{class_names, lineage};
use basic_types::{BOOL, INT, QSTRING};
use class_outlines::{Near, Reason, Unfit};
use diagnostics::did_you_mean;
use std::alloc::{AllocError, Global};
use syntax_trees::{Class, Formal, Parameter, Program};

/// The members of `QObject`.
const OF_EACH_OBJECT: [&[u8]; 4] = [
    b"objectName",
    b"objectNameChanged",
    b"destroyed",
    b"deleteLater",
];

/// The types of values.
const VALUE_TYPES: [&[u8]; 3] = [INT, BOOL, QSTRING];

/// What to write in place of the name for which a declaration is wrong, where it is declared nowhere: one that could stand there,
/// if they differ in few letters.
pub fn likely(told: &ReportedOffence, reason: &Reason) -> Result<Option<String>, AllocError> {
    let name = told.name.bytes();
    let names = candidates(told, reason)?;
    if names.iter().any(|other| *other == name) {
        return Ok(None);
    }
    did_you_mean(told.alloc, name, names.as_slice())
}

/// The names that could stand there.
fn candidates<'a>(
    told: &ReportedOffence<'a>,
    reason: &Reason,
) -> Result<Vec<&'a [u8]>, AllocError> {
    match (reason, told.declared) {
        (Reason::NoBase(_), DeclarationRef::Class(class)) => {
            let mut names = Vec::new(told.alloc);
            for name in class_names(told.alloc, told.program)? {
                if name == class.name.bytes() {
                    break;
                }
                names.push(name)?;
            }
            Ok(names)
        }
        (Reason::NoType(Unfit::PointerToNothing), _) => class_names(told.alloc, told.program),
        (Reason::NoType(Unfit::Unknown), _) => {
            let mut names = class_names(told.alloc, told.program)?;
            add_each(&mut names, &VALUE_TYPES)?;
            Ok(names)
        }
        (Reason::BadNotify(Near::Nothing), DeclarationRef::Property(class, _)) => signal_names(
            told, class,
        ),
        (Reason::NoMember(_), _) => declared_names(told.alloc, told.program),
        _ => Ok(Vec::new(told.alloc)),
    }
}

/// Adds each of these names.
fn add_each<'a>(names: &mut Vec<&'a [u8]>, others: &[&'a [u8]]) -> Result<(), AllocError> {
    for name in others {
        names.push(*name)?;
    }
    Ok(())
}

/// The names of the signals that objects of the class have.
fn signal_names<'a>(
    told: &ReportedOffence<'a>,
    class: &Class,
) -> Result<Vec<&'a [u8]>, AllocError> {
    let mut names = Vec::new(told.alloc);
    for class in lineage(told.alloc, told.program, class.name.bytes())? {
        for signal in class.signals.as_slice() {
            names.push(signal.name.bytes())?;
        }
    }
    Ok(names)
}

/// The names that the program declares, and those of `QObject` and its members.
fn declared_names<'a>(alloc: Global, program: &'a Program) -> Result<Vec<&'a [u8]>, AllocError> {
    let mut names = Vec::new(alloc);
    for class in program.classes.as_slice() {
        add_names(&mut names, class)?;
    }
    for site in program.sites.as_slice() {
        add_formals(&mut names, site.formals.as_slice())?;
    }
    names.push(b"QObject".as_slice())?;
    add_each(&mut names, &OF_EACH_OBJECT)?;
    Ok(names)
}

/// Adds the names of the formal sources.
fn add_formals<'a>(names: &mut Vec<&'a [u8]>, formals: &'a [Formal]) -> Result<(), AllocError> {
    for formal in formals {
        names.push(formal.name.bytes())?;
    }
    Ok(())
}

/// Adds the name of the class and those of its members and their parameters.
pub fn add_names<'a>(names: &mut Vec<&'a [u8]>, class: &'a Class) -> Result<(), AllocError> {
    names.push(class.name.bytes())?;
    for property in class.properties.as_slice() {
        names.push(property.name.bytes())?;
    }
    for signal in class.signals.as_slice() {
        names.push(signal.name.bytes())?;
    }
    for slot in class.slots.as_slice() {
        names.push(slot.name.bytes())?;
        add_parameters(names, slot.parameters.as_slice())?;
    }
    Ok(())
}

/// Adds the names of the parameters that have one.
fn add_parameters<'a>(
    names: &mut Vec<&'a [u8]>,
    parameters: &'a [Parameter],
) -> Result<(), AllocError> {
    for parameter in parameters {
        if let Some(name) = &parameter.name {
            names.push(name.bytes())?;
        }
    }
    Ok(())
}
