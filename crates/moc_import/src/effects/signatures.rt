//! Signatures of methods, as they are shown.

use crate::classes::{Catalogue, ImportedMethod, push_parts};
use std::alloc::{AllocError, Global};

/// The signature of a method, with its parameters' types as they are declared.
pub fn signature(
    alloc: Global,
    catalogue: &Catalogue<'_>,
    method: &ImportedMethod<'_>,
) -> Result<String, AllocError> {
    let mut text = String::new(alloc);
    push_signature(&mut text, catalogue, method)?;
    Ok(text)
}

/// Adds the signature of a method.
pub fn push_signature(
    text: &mut String,
    catalogue: &Catalogue<'_>,
    method: &ImportedMethod<'_>,
) -> Result<(), AllocError> {
    push_parts(text, &[method.moc.name.as_str(), "("])?;
    let mut comma = "";
    for parameter in method.parameters.as_slice() {
        let [first, second, third] = parameter.mapped.kind.parts(catalogue);
        push_parts(text, &[comma, first, second, third])?;
        comma = ", ";
    }
    text.push_str(")")
}
