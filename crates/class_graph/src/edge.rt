//! Edges: what may lead from one member to another, at once or later.

use crate::family::{Family, families};
use edge_reasons::{Reason, reason_for};
use effect_scan::{Member, Node, Scan};
use meta_model::{Meta, Work};
use std::alloc::{AllocError, Global};

/// So many edges are drawn at most.
pub const MOST_EDGES: usize = 262_144;

/// What draws an edge.
#[derive(Clone, Copy, Debug, PartialEq, Eq)]
pub enum EdgeCause {
    /// A statement of a slot's body sets the property.
    Set,
    /// A statement of a slot's body emits the signal.
    Emit,
    /// A statement of a slot's body calls the slot.
    Call,
    /// A statement of a slot's body deletes an object.
    Delete,
    /// A native is declared to do so.
    Native,
    /// The wire at this place, from 0, joins a signal with what it calls at once.
    Wire(usize),
    /// Queued wires post a call, which comes when the receiver's event loop turns: the one at this place, from 0, and so many
    /// more.
    Queued(usize, usize),
    /// The signal tells of a change of the property.
    Notify,
    /// The binding at this place, from 0, reads the property.
    Binding(usize),
    /// Objects of the one class are deleted with one of the other, and a deletion emits `destroyed`.
    Deletion,
}

/// An edge between the nodes of these numbers.
#[derive(Clone, Copy, Debug, PartialEq, Eq)]
pub struct NodeEdge {
    pub from: usize,
    pub to: usize,
    pub cause: EdgeCause,
}

/// All edges of a program: those of the scan, from one node after another, and those of queued wires by families.
#[derive(Drop)]
pub struct Edges {
    all: Vec<NodeEdge>,
    /// For each node, by number, how many edges lead from those before it.
    before: Vec<usize>,
    families: Vec<Family>,
}

impl Edges {
    /// The edges of a scanned program; `None` where there are more than are drawn.
    pub fn of(alloc: Global, meta: &Meta, scan: &Scan) -> Result<Option<Edges>, AllocError> {
        let mut edges = Edges {
            all: Vec::new(alloc),
            before: Vec::new(alloc),
            families: families(alloc, meta)?,
        };
        for (from, node) in scan.nodes().iter().enumerate() {
            edges.before.push(edges.all.len())?;
            if !edges.push_direct(meta, scan, from, *node)? {
                return Ok(None);
            }
        }
        Ok(Some(edges))
    }

    /// The edges from the node of this number, but for those of queued wires.
    pub fn from(&self, node: usize) -> &[NodeEdge] {
        let Some(start) = self.before.get(node) else {
            return &[];
        };
        let end = match self.before.get(node.saturating_add(1)) {
            Some(end) => *end,
            None => self.all.len(),
        };
        self.all.get(*start..end).unwrap_or(&[])
    }

    /// All edges but for those of queued wires.
    pub fn all(&self) -> &[NodeEdge] {
        self.all.as_slice()
    }

    /// The queued wires.
    pub fn families(&self) -> &[Family] {
        self.families.as_slice()
    }

    /// Adds what the node may lead to at once, and answers whether that isn't more than is drawn.
    fn push_direct(
        &mut self,
        meta: &Meta,
        scan: &Scan,
        from: usize,
        node: Node,
    ) -> Result<bool, AllocError> {
        for to in scan.targets(from) {
            if let Some(target) = scan.nodes().get(*to) {
                if self.all.len() >= MOST_EDGES {
                    return Ok(false);
                }
                let cause = cause_of(meta, node, *target);
                self.all.push(NodeEdge {
                    from,
                    to: *to,
                    cause,
                })?;
            }
        }
        Ok(true)
    }
}

/// What draws the edge from the one node to the other.
fn cause_of(meta: &Meta, from: Node, to: Node) -> EdgeCause {
    match reason_for(meta, from, to) {
        Some(Reason::Native) => EdgeCause::Native,
        Some(Reason::Wire(place)) => EdgeCause::Wire(place),
        Some(Reason::Notify) => EdgeCause::Notify,
        Some(Reason::Binding(place)) => EdgeCause::Binding(place),
        Some(Reason::Statement(_)) => statement_on(meta, to),
        Some(Reason::Deletion) | None => EdgeCause::Deletion,
    }
}

/// What a statement does that leads to this node.
fn statement_on(meta: &Meta, node: Node) -> EdgeCause {
    match node.member {
        Member::Property(_) => EdgeCause::Set,
        Member::Destruction => EdgeCause::Delete,
        Member::Method(method) => match meta.method_at(node.class, method) {
            Some(found) if matches!(found.work, Work::Signal) => EdgeCause::Emit,
            _ => EdgeCause::Call,
        },
    }
}

impl NodeEdge {
    /// Whether what it leads to comes later, when an event loop turns.
    pub fn is_queued(&self) -> bool {
        matches!(self.cause, EdgeCause::Queued(_, _))
    }
}
