//! What is worth a warning.

use crate::places::ProgramPlaces;
use crate::source::ProgramSource;
use class_outlines::Declaration;
use diagnostics::TextPlace;
use effect_scan::{Member, Node};
use meta_model::MetaWire;

/// Something in a program that has a certificate which its author hardly meant.
#[derive(Drop)]
pub enum Warning {
    /// The program declares nothing.
    Empty,
    /// The wire at the one place, from 0, covers no connection that the wire at the other one doesn't cover.
    IdleWire {
        wire: usize,
        other: usize,
    },
    /// No wire covers the connection that the `connect` of this number in the body of the slot is to make, whatever objects its
    /// paths lead to; the wire that would.
    Unwired {
        class: usize,
        method: usize,
        statement: usize,
        wanted: MetaWire,
    },
    /// On a way through its body a slot sets the property of its own object, and emits the property's notify signal by the
    /// `emit` of this number.
    NotifiedTwice {
        class: usize,
        method: usize,
        property: usize,
        emit: usize,
    },
    /// What the signal leads to at once may destroy an object of the signal's own class.
    LostSender {
        class: usize,
        signal: usize,
    },
}

impl Warning {
    /// Where in the program's text it points: to the declaration of the wire or of the signal, or to the statement.
    pub fn place(&self, source: ProgramSource<'_>, places: &ProgramPlaces) -> Option<TextPlace> {
        let part = match self {
            Warning::Empty => return Some(TextPlace { line: 1, column: 1 }),
            Warning::IdleWire { wire, .. } => places.declared(Declaration::Wire(*wire)),
            Warning::Unwired {
                class,
                method,
                statement: number,
                ..
            }
            | Warning::NotifiedTwice {
                class,
                method,
                emit: number,
                ..
            } => {
                let slot = source.declaration(method_node(*class, *method))?;
                places.statement(slot, *number)
            }
            Warning::LostSender { class, signal } => {
                places.declared(source.declaration(method_node(*class, *signal))?)
            }
        };
        Some(part?.place)
    }
}

/// The method of this number in the class.
pub fn method_node(class: usize, method: usize) -> Node {
    Node {
        class,
        member: Member::Method(method),
    }
}
