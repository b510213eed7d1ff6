//! The bodies of slots.

use crate::classes::{Import, Placed, push_parts};
use crate::effects::{EffectVerb, GivenBodies, GivenStatement, GivenValue};
use std::alloc::AllocError;

/// Adds the body of a slot, whose parameters have these names: what effects say, the write of its property, or none that is
/// known.
pub fn push_body(
    text: &mut String,
    import: &Import<'_>,
    effects: &GivenBodies<'_>,
    slot: Placed<'_, '_>,
    names: &[String],
) -> Result<(), AllocError> {
    if let Some(statements) = effects.statements(slot.class, slot.place) {
        text.push_str(" {")?;
        for statement in statements {
            push_statement(text, statement, names)?;
        }
        return text.push_str(" }");
    }
    match (import.written(slot.class, slot.method), names.first()) {
        (Some(property), Some(name)) => {
            push_parts(
                text,
                &[" { set this.", property, " = ", name.as_str(), "; }"],
            )
        }
        _ => text.push_str(" { } // body unknown"),
    }
}

/// Adds a statement, with a blank in front.
fn push_statement(
    text: &mut String,
    statement: &GivenStatement<'_>,
    names: &[String],
) -> Result<(), AllocError> {
    let (before, behind) = match statement.verb {
        EffectVerb::Emits => (" emit ", "("),
        EffectVerb::Sets => (" set this.", " = "),
        EffectVerb::Calls => (" call this.", "("),
        EffectVerb::Deletes if statement.path == "this" => (" delete ", ""),
        EffectVerb::Deletes => (" delete this.", ""),
    };
    push_parts(text, &[before, statement.path, behind])?;
    push_values(text, statement.values.as_slice(), names)?;
    text.push_str(if statement.verb.names_method() {
        ");"
    } else {
        ";"
    })
}

/// Adds values, with commas between them.
fn push_values(
    text: &mut String,
    values: &[GivenValue],
    names: &[String],
) -> Result<(), AllocError> {
    let mut comma = "";
    for value in values {
        push_parts(text, &[comma, word(*value, names)])?;
        comma = ", ";
    }
    Ok(())
}

/// A value as it is written, where the slot's parameters have these names.
fn word(value: GivenValue, names: &[String]) -> &str {
    match value {
        GivenValue::Literal(literal) => literal,
        GivenValue::Parameter(place) => match names.get(place) {
            Some(name) => name.as_str(),
            None => "",
        },
    }
}
