//! Wires: how they are written, and why one doesn't fit.

use crate::names::{class_text, sig_text, type_text};
use crate::source::ProgramSource;
use basic_types::{Kind, Sig};
use meta_model::{Meta, MetaWire};
use std::alloc::{AllocError, Global};

/// The wire at this place as it is declared, if there is one.
pub fn wire_at(source: ProgramSource<'_>, place: usize) -> Result<String, AllocError> {
    match source.meta.wires().get(place) {
        Some(wire) => wire_text(source.alloc, source.meta, wire),
        None => Ok(String::new(source.alloc)),
    }
}

/// The wire as it is declared: `wire C s(T) -> D m(T) kind;`
pub fn wire_text(alloc: Global, meta: &Meta, wire: &MetaWire) -> Result<String, AllocError> {
    let sender = class_text(alloc, meta, wire.sender)?;
    let signal = end_text(alloc, meta, wire.sender, wire.signal)?;
    let receiver = class_text(alloc, meta, wire.receiver)?;
    let method = end_text(alloc, meta, wire.receiver, wire.method)?;
    let kind = kind_word(wire.kind);
    format!(in alloc; "wire {sender} {signal} -> {receiver} {method} {kind};")
}

/// The signature of the method of this number.
fn end_text(alloc: Global, meta: &Meta, class: usize, method: usize) -> Result<String, AllocError> {
    match meta.method_at(class, method) {
        Some(found) => sig_text(alloc, &found.sig),
        None => Ok(String::new(alloc)),
    }
}

fn kind_word(kind: Kind) -> &'static str {
    match kind {
        Kind::Auto => "auto",
        Kind::Direct => "direct",
        Kind::Queued => "queued",
    }
}

/// Why the wire at this place, which is one whose method doesn't fit its signal, can't work.
pub fn unfit_text(source: ProgramSource<'_>, place: usize) -> Result<String, AllocError> {
    let number = place.saturating_add(1);
    let wire = wire_at(source, place)?;
    let mut text = format!(in source.alloc; "wire {number}, `{wire}`, can't work: ")?;
    if let Some(found) = source.meta.wires().get(place) {
        push_difference(&mut text, source, found)?;
    }
    text.push_str(
        "\nhelp: a method takes the first values of the signal, of just their types; it may leave the last ones out\n",
    )?;
    Ok(text)
}

/// Adds where the method of a wire takes something else than its signal gives.
fn push_difference(
    text: &mut String,
    source: ProgramSource<'_>,
    wire: &MetaWire,
) -> Result<(), AllocError> {
    let Some(signal) = source.meta.method_at(wire.sender, wire.signal) else {
        return Ok(());
    };
    let Some(method) = source.meta.method_at(wire.receiver, wire.method) else {
        return Ok(());
    };
    let place = first_difference(&signal.sig, &method.sig);
    push_parameter(text, source.alloc, &signal.sig, &method.sig, place)
}

/// The place of the first parameter of the method whose type isn't that of the signal's.
fn first_difference(signal: &Sig, method: &Sig) -> usize {
    for (place, kind) in method.types.as_slice().iter().enumerate() {
        match signal.types.get(place) {
            Some(given) if given.is_same(kind) => {}
            _ => return place,
        }
    }
    method.types.len()
}

/// Adds what the method takes at this place, and what the signal gives.
fn push_parameter(
    text: &mut String,
    alloc: Global,
    signal: &Sig,
    method: &Sig,
    place: usize,
) -> Result<(), AllocError> {
    let Some(taken) = method.types.get(place) else {
        return Ok(());
    };
    let number = place.saturating_add(1);
    let taken = type_text(alloc, taken)?;
    write!(
        text,
        "the method takes `{taken}` as parameter {number}, and the signal "
    )?;
    match signal.types.get(place) {
        Some(given) => {
            let given = type_text(alloc, given)?;
            write!(text, "gives `{given}`")
        }
        None => text.push_str("has none there"),
    }
}
