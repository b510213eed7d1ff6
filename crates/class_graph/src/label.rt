//! How nodes and edges are written.

use crate::edge::EdgeCause;
use effect_scan::{Member, Node};
use meta_model::{Meta, MetaObject, Work};
use std::alloc::{AllocError, Global};

/// Bytes of names and types, which are ASCII, as a text.
fn text_of(alloc: Global, bytes: &[u8]) -> Result<String, AllocError> {
    let mut text = String::new(alloc);
    for byte in bytes {
        text.push(char::from(*byte))?;
    }
    Ok(text)
}

/// The name of a class.
pub fn class_text(alloc: Global, class: &MetaObject) -> Result<String, AllocError> {
    text_of(alloc, class.name.bytes())
}

/// The member that a node is, without its class: `m(T,..)`, `p`, or `~C` for the deletion of an object.
pub fn member_text(alloc: Global, meta: &Meta, node: Node) -> Result<String, AllocError> {
    let Some(class) = meta.object(node.class) else {
        return Ok(String::new(alloc));
    };
    match node.member {
        Member::Method(method) => match class.method(method) {
            Some(found) => {
                let bytes = found.sig.text(alloc)?;
                text_of(alloc, bytes.as_slice())
            }
            None => Ok(String::new(alloc)),
        },
        Member::Property(property) => match class.property(property) {
            Some(found) => text_of(alloc, found.name.bytes()),
            None => Ok(String::new(alloc)),
        },
        Member::Destruction => {
            let name = class_text(alloc, class)?;
            format!(in alloc; "~{name}")
        }
    }
}

/// The name of a node: its class and member, or the deletion of an object of a class.
pub fn node_text(alloc: Global, meta: &Meta, node: Node) -> Result<String, AllocError> {
    let member = member_text(alloc, meta, node)?;
    match (node.member, meta.object(node.class)) {
        (Member::Destruction, _) | (_, None) => Ok(member),
        (_, Some(class)) => {
            let class = class_text(alloc, class)?;
            format!(in alloc; "{class}.{member}")
        }
    }
}

/// What a node is, in a word.
pub fn kind_word(meta: &Meta, node: Node) -> &'static str {
    match node.member {
        Member::Property(_) => "property",
        Member::Destruction => "destruction",
        Member::Method(method) => match meta.method_at(node.class, method) {
            Some(found) => match found.work {
                Work::Signal => "signal",
                Work::Slot(_) => "slot",
                Work::Native(_) => "native",
            },
            None => "signal",
        },
    }
}

/// What draws an edge, in a word or two; wires are counted from 1.
pub fn cause_text(alloc: Global, meta: &Meta, cause: EdgeCause) -> Result<String, AllocError> {
    match cause {
        EdgeCause::Set => format!(in alloc; "set"),
        EdgeCause::Emit => format!(in alloc; "emit"),
        EdgeCause::Call => format!(in alloc; "call"),
        EdgeCause::Delete => format!(in alloc; "delete"),
        EdgeCause::Native => format!(in alloc; "native"),
        EdgeCause::Notify => format!(in alloc; "notify"),
        EdgeCause::Deletion => format!(in alloc; "deletion"),
        EdgeCause::Wire(place) => {
            let number = place.saturating_add(1);
            format!(in alloc; "wire {number}")
        }
        EdgeCause::Queued(place, more) => {
            let number = place.saturating_add(1);
            if more == 0 {
                format!(in alloc; "queued wire {number}")
            } else {
                format!(in alloc; "queued wire {number} and {more} more")
            }
        }
        EdgeCause::Binding(place) => binding_text(alloc, meta, place),
    }
}

/// A binding by its name.
fn binding_text(alloc: Global, meta: &Meta, place: usize) -> Result<String, AllocError> {
    match meta.site_at(place) {
        Some(site) => {
            let name = text_of(alloc, site.name.bytes())?;
            format!(in alloc; "binding {name}")
        }
        None => Ok(String::new(alloc)),
    }
}
