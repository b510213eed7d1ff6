//! What has to be there before a chain of members is begun: an object of each class, parents, and references among the objects.

use crate::names::{push_name, push_object, push_value};
use meta_model::{Meta, MetaObject, ValueType};
use std::alloc::{AllocError, Global};

/// Adds the events that set the stage.
pub fn push_stage(alloc: Global, meta: &Meta, events: &mut Vec<String>) -> Result<(), AllocError> {
    for (number, class) in meta.classes().iter().enumerate().skip(1) {
        push_new(alloc, number, class, events)?;
    }
    for owns in meta.owned() {
        let mut text = String::from_str(alloc, "adopt ")?;
        push_object(&mut text, owns.parent)?;
        text.push_str(" ")?;
        push_object(&mut text, owns.child)?;
        events.push(text)?;
    }
    for (number, class) in meta.classes().iter().enumerate().skip(1) {
        push_references(alloc, number, class, events)?;
    }
    Ok(())
}

/// Adds that the object of a class is created.
fn push_new(
    alloc: Global,
    number: usize,
    class: &MetaObject,
    events: &mut Vec<String>,
) -> Result<(), AllocError> {
    let mut text = String::from_str(alloc, "new ")?;
    push_object(&mut text, number)?;
    text.push_str(" ")?;
    push_name(&mut text, &class.name)?;
    events.push(text)?;
    Ok(())
}

/// Adds that each reference of an object leads to the object of its class.
fn push_references(
    alloc: Global,
    number: usize,
    class: &MetaObject,
    events: &mut Vec<String>,
) -> Result<(), AllocError> {
    for property in class.properties.as_slice() {
        let property = property.get();
        if let ValueType::Reference(_, _) = property.kind {
            let mut text = String::from_str(alloc, "set ")?;
            push_object(&mut text, number)?;
            text.push_str(".")?;
            push_name(&mut text, &property.name)?;
            text.push_str(" ")?;
            push_value(&mut text, property.kind, number, true)?;
            events.push(text)?;
        }
    }
    Ok(())
}
