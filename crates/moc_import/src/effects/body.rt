//! Bodies, as effects give them.

use crate::classes::{Catalogue, ImportedParameter, LanguageType};
use crate::effects::line::EffectVerb;
use std::alloc::{AllocError, Global};

/// A statement of a body.
#[derive(Drop)]
pub struct GivenStatement<'e> {
    pub verb: EffectVerb,
    /// What is emitted, set, called or deleted: `this`, or a path from the slot's object.
    pub path: &'e str,
    /// The values that are passed, or the one that is set.
    pub values: Vec<GivenValue>,
}

/// A value in a statement.
#[derive(Clone, Copy, PartialEq, Eq)]
pub enum GivenValue {
    /// The slot's parameter of this place.
    Parameter(usize),
    Literal(&'static str),
}

/// Values for the parameters of a method: each one the slot's next parameter that the type takes, and a literal where there is
/// none left.
pub fn values(
    alloc: Global,
    catalogue: &Catalogue<'_>,
    wanted: &[ImportedParameter<'_>],
    parameters: &[ImportedParameter<'_>],
) -> Result<Vec<GivenValue>, AllocError> {
    let mut values = Vec::new(alloc);
    for it in wanted {
        let next = next_value(catalogue, it.mapped.kind, parameters, values.as_slice());
        values.push(next)?;
    }
    Ok(values)
}

/// A value of this type alone.
pub fn only_value(
    alloc: Global,
    catalogue: &Catalogue<'_>,
    kind: LanguageType,
    parameters: &[ImportedParameter<'_>],
) -> Result<Vec<GivenValue>, AllocError> {
    let mut values = Vec::new(alloc);
    values.push(next_value(catalogue, kind, parameters, &[]))?;
    Ok(values)
}

/// A value of this type: the first parameter that it takes and that isn't among the values so far, or a literal.
fn next_value(
    catalogue: &Catalogue<'_>,
    kind: LanguageType,
    parameters: &[ImportedParameter<'_>],
    so_far: &[GivenValue],
) -> GivenValue {
    for (place, parameter) in parameters.iter().enumerate() {
        let own = GivenValue::Parameter(place);
        if kind.accepts(parameter.mapped.kind, catalogue) && !so_far.contains(&own) {
            return own;
        }
    }
    GivenValue::Literal(match kind {
        LanguageType::Int => "0",
        LanguageType::Bool => "false",
        LanguageType::Text => "\"\"",
        LanguageType::Object(_) | LanguageType::ConstObject(_) => "null",
    })
}
