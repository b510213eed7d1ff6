//! Queued wires, those that join the same members together.

use basic_types::Kind;
use effect_scan::{Member, Node, Scan};
use meta_model::{DESTROYED, DESTROYED_ALONE, Meta, MetaWire};
use std::alloc::{AllocError, Global};

/// Queued wires that all join the same signal of the same class with the same method of the same class. Objects of the classes
/// below go along them too.
#[derive(Clone, Copy, Debug, PartialEq, Eq)]
pub struct Family {
    /// The class of the signal.
    pub sender: usize,
    /// The signal as a node's member: `destroyed()` is `destroyed(QObject*)`.
    pub signal: usize,
    /// The class of the method.
    pub receiver: usize,
    pub method: usize,
    /// The place of the first of the wires, from 0.
    pub first: usize,
    /// How many there are.
    pub count: usize,
}

/// The program's queued wires, in the order of the first one of each family.
pub fn families(alloc: Global, meta: &Meta) -> Result<Vec<Family>, AllocError> {
    let mut families = Vec::new(alloc);
    for (place, wire) in meta.wires().iter().enumerate() {
        if wire.kind == Kind::Queued && !joins(&mut families, wire) {
            families.push(Family {
                sender: wire.sender,
                signal: signal_of(wire),
                receiver: wire.receiver,
                method: wire.method,
                first: place,
                count: 1,
            })?;
        }
    }
    Ok(families)
}

/// Counts the wire among those of its family, if that is one of these, and answers whether it is.
fn joins(families: &mut Vec<Family>, wire: &MetaWire) -> bool {
    for family in families.iter_mut() {
        let is_one = family.sender == wire.sender
            && family.signal == signal_of(wire)
            && family.receiver == wire.receiver
            && family.method == wire.method;
        if is_one {
            family.count = family.count.saturating_add(1);
            return true;
        }
    }
    false
}

/// The wire's signal as a node: `destroyed()` is `destroyed(QObject*)`.
fn signal_of(wire: &MetaWire) -> usize {
    if wire.signal == DESTROYED_ALONE {
        DESTROYED
    } else {
        wire.signal
    }
}

impl Family {
    /// Whether the node is the signal, of an object whose signal the wires may join.
    pub fn begins_at(&self, meta: &Meta, node: Node) -> bool {
        node.member == Member::Method(self.signal) && meta.inherits(node.class, self.sender)
    }

    /// The numbers of the signal's and of the method's nodes of the classes that the wires name.
    pub fn ends(&self, scan: &Scan) -> (Option<usize>, Option<usize>) {
        let from = scan.number(Node {
            class: self.sender,
            member: Member::Method(self.signal),
        });
        let to = scan.number(Node {
            class: self.receiver,
            member: Member::Method(self.method),
        });
        (from, to)
    }

    /// The numbers of the method's nodes, of all classes whose objects the wires may call.
    pub fn targets(
        &self,
        alloc: Global,
        meta: &Meta,
        scan: &Scan,
    ) -> Result<Vec<usize>, AllocError> {
        let mut targets = Vec::new(alloc);
        for class in 0..meta.classes().len() {
            if meta.inherits(class, self.receiver) {
                let member = Member::Method(self.method);
                if let Some(to) = scan.number(Node { class, member }) {
                    targets.push(to)?;
                }
            }
        }
        Ok(targets)
    }
}
