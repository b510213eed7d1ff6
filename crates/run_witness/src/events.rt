//! The events that join the members of a chain, and those that begin it.

use crate::names::{kind_word, push_name, push_object, push_signature, push_value};
use edge_reasons::{Reason, reason_for};
use effect_scan::{Member, Node};
use meta_model::{Meta, MetaWire, Work};
use std::alloc::{AllocError, Global};

/// Adds a connection or a bind for each two members that follow one another by a wire or a binding.
pub fn push_joints(
    alloc: Global,
    meta: &Meta,
    nodes: &[Node],
    events: &mut Vec<String>,
) -> Result<(), AllocError> {
    let mut before: Option<Node> = None;
    for node in nodes {
        if let Some(from) = before {
            match reason_for(meta, from, *node) {
                Some(Reason::Wire(place)) => {
                    if let Some(wire) = meta.wires().get(place) {
                        events.push(connect_text(alloc, meta, wire, from.class, node.class)?)?;
                    }
                }
                Some(Reason::Binding(place)) => {
                    events.push(bind_text(alloc, meta, place, from.class, node.class)?)?;
                }
                _ => {}
            }
        }
        before = Some(*node);
    }
    Ok(())
}

/// The event that connects the objects of two classes as a wire allows.
fn connect_text(
    alloc: Global,
    meta: &Meta,
    wire: &MetaWire,
    sender: usize,
    receiver: usize,
) -> Result<String, AllocError> {
    let mut text = String::from_str(alloc, "connect ")?;
    push_object(&mut text, sender)?;
    text.push_str(" ")?;
    push_signature(&mut text, meta, wire.sender, wire.signal)?;
    text.push_str(" ")?;
    push_object(&mut text, receiver)?;
    text.push_str(" ")?;
    push_signature(&mut text, meta, wire.receiver, wire.method)?;
    let kind = kind_word(wire.kind);
    write!(text, " {kind}")?;
    Ok(text)
}

/// The event that binds the object of one class to that of another, by the binding at this place; where it has other sources
/// too they are the objects of their classes.
fn bind_text(
    alloc: Global,
    meta: &Meta,
    place: usize,
    source: usize,
    target: usize,
) -> Result<String, AllocError> {
    let mut text = String::from_str(alloc, "bind ")?;
    if let Some(site) = meta.site_at(place) {
        push_name(&mut text, &site.name)?;
        text.push_str(" ")?;
        push_object(&mut text, target)?;
        for class in site.formals.as_slice() {
            text.push_str(" ")?;
            let chosen = if meta.inherits(source, *class) {
                source
            } else {
                *class
            };
            push_object(&mut text, chosen)?;
        }
    }
    Ok(text)
}

/// Adds for each member the event that begins with it, once with the first values and once with the others.
pub fn push_begins(
    alloc: Global,
    meta: &Meta,
    nodes: &[Node],
    events: &mut Vec<String>,
) -> Result<(), AllocError> {
    for node in nodes {
        for is_first in [true, false] {
            if let Some(text) = begin_text(alloc, meta, *node, is_first)? {
                events.push(text)?;
            }
        }
    }
    Ok(())
}

/// The event that begins with a member: a write, a call or an emission, or the deletion of the object.
fn begin_text(
    alloc: Global,
    meta: &Meta,
    node: Node,
    is_first: bool,
) -> Result<Option<String>, AllocError> {
    let Some(class) = meta.object(node.class) else {
        return Ok(None);
    };
    let mut text = String::new(alloc);
    match node.member {
        Member::Destruction => {
            text.push_str("delete ")?;
            push_object(&mut text, node.class)?;
        }
        Member::Property(property) => {
            let Some(found) = class.property(property) else {
                return Ok(None);
            };
            text.push_str("set ")?;
            push_object(&mut text, node.class)?;
            text.push_str(".")?;
            push_name(&mut text, &found.name)?;
            text.push_str(" ")?;
            push_value(&mut text, found.kind, node.class, is_first)?;
        }
        Member::Method(method) => push_call(&mut text, meta, node.class, method, is_first)?,
    }
    Ok(Some(text))
}

/// Adds the event that calls or emits a method.
fn push_call(
    text: &mut String,
    meta: &Meta,
    class: usize,
    method: usize,
    is_first: bool,
) -> Result<(), AllocError> {
    let Some(found) = meta.method_at(class, method) else {
        return Ok(());
    };
    match found.work {
        Work::Signal => text.push_str("emit ")?,
        Work::Slot(_) | Work::Native(_) => text.push_str("call ")?,
    }
    push_object(text, class)?;
    text.push_str(".")?;
    push_name(text, &found.sig.name)?;
    text.push_str("(")?;
    for (place, kind) in found.types.as_slice().iter().enumerate() {
        if place > 0 {
            text.push_str(", ")?;
        }
        push_value(text, *kind, class, is_first)?;
    }
    text.push_str(")")
}
