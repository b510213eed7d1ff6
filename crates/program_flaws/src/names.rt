//! How classes, members and their types are written.

use basic_types::{QType, Sig};
use effect_scan::{Member, Node};
use meta_model::{Meta, MetaObject};
use std::alloc::{AllocError, Global};

/// Bytes of names and types, which are ASCII, as a text.
pub fn text_of(alloc: Global, bytes: &[u8]) -> Result<String, AllocError> {
    let mut text = String::new(alloc);
    for byte in bytes {
        text.push(char::from(*byte))?;
    }
    Ok(text)
}

/// `m(T,..)`
pub fn sig_text(alloc: Global, sig: &Sig) -> Result<String, AllocError> {
    let bytes = sig.text(alloc)?;
    text_of(alloc, bytes.as_slice())
}

/// `T`
pub fn type_text(alloc: Global, kind: &QType) -> Result<String, AllocError> {
    let bytes = kind.text(alloc)?;
    text_of(alloc, bytes.as_slice())
}

/// The name of the class of this number.
pub fn class_text(alloc: Global, meta: &Meta, class: usize) -> Result<String, AllocError> {
    match meta.object(class) {
        Some(object) => text_of(alloc, object.name.bytes()),
        None => Ok(String::new(alloc)),
    }
}

/// The name of the property of this number in the class, where both are there.
pub fn property_text(
    alloc: Global,
    meta: &Meta,
    class: Option<usize>,
    property: usize,
) -> Result<String, AllocError> {
    if let Some(class) = class {
        if let Some(object) = meta.object(class) {
            if let Some(found) = object.property(property) {
                return text_of(alloc, found.name.bytes());
            }
        }
    }
    Ok(String::new(alloc))
}

/// The name, without types, of the method of this number in the class, where both are there.
pub fn method_text(
    alloc: Global,
    meta: &Meta,
    class: Option<usize>,
    method: usize,
) -> Result<String, AllocError> {
    if let Some(class) = class {
        if let Some(found) = meta.method_at(class, method) {
            return text_of(alloc, found.sig.name.bytes());
        }
    }
    Ok(String::new(alloc))
}

/// A node as a certificate names it: `C.m(T,..)`, `C.p` or `~C`.
pub fn node_text(alloc: Global, meta: &Meta, node: Node) -> Result<String, AllocError> {
    match meta.object(node.class) {
        Some(object) => member_text(alloc, object, node.member),
        None => Ok(String::new(alloc)),
    }
}

/// A member of the class, as a node.
fn member_text(alloc: Global, class: &MetaObject, member: Member) -> Result<String, AllocError> {
    let mut text = text_of(alloc, class.name.bytes())?;
    match member {
        Member::Method(method) => {
            if let Some(found) = class.method(method) {
                let sig = sig_text(alloc, &found.sig)?;
                write!(text, ".{sig}")?;
            }
            Ok(text)
        }
        Member::Property(property) => {
            if let Some(found) = class.property(property) {
                let name = text_of(alloc, found.name.bytes())?;
                write!(text, ".{name}")?;
            }
            Ok(text)
        }
        Member::Destruction => format!(in alloc; "~{text}"),
    }
}
