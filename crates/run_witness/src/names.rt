//! How classes, members and values are written in a script.

use basic_types::{Kind, Name};
use meta_model::{Meta, ValueType};
use std::alloc::AllocError;

/// Adds a name.
pub fn push_name(text: &mut String, name: &Name) -> Result<(), AllocError> {
    push_bytes(text, name.bytes())
}

/// Adds bytes of names and types, which are ASCII.
pub fn push_bytes(text: &mut String, bytes: &[u8]) -> Result<(), AllocError> {
    for byte in bytes {
        text.push(char::from(*byte))?;
    }
    Ok(())
}

/// Adds the name of the object of this class: of each class there is one.
pub fn push_object(text: &mut String, class: usize) -> Result<(), AllocError> {
    write!(text, "o{class}")
}

/// Adds the signature of a method of the class, where both are there.
pub fn push_signature(
    text: &mut String,
    meta: &Meta,
    class: usize,
    method: usize,
) -> Result<(), AllocError> {
    if let Some(found) = meta.method_at(class, method) {
        let bytes = found.sig.text(*text.allocator())?;
        push_bytes(text, bytes.as_slice())?;
    }
    Ok(())
}

/// Adds a value of this type, which is another one in another round. A reference is to the object of the type's class, or,
/// where that is `QObject`, to this one.
pub fn push_value(
    text: &mut String,
    kind: ValueType,
    own: usize,
    is_first: bool,
) -> Result<(), AllocError> {
    match kind {
        ValueType::Int => text.push_str(if is_first { "1" } else { "2" }),
        ValueType::Bool => text.push_str(if is_first { "true" } else { "false" }),
        ValueType::Text => text.push_str(if is_first { "\"x\"" } else { "\"y\"" }),
        ValueType::Reference(0, _) => push_object(text, own),
        ValueType::Reference(class, _) => push_object(text, class),
    }
}

/// How a connection of this kind is written.
pub fn kind_word(kind: Kind) -> &'static str {
    match kind {
        Kind::Auto => "auto",
        Kind::Direct => "direct",
        Kind::Queued => "queued",
    }
}
