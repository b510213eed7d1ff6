//! A program together with the places of its parts, and steps from member to member with their places.

use diagnostics::TextPlace;
use edge_reasons::{Reason, reason_for};
use effect_scan::Node;
use findings::{ChainStep, Levels, Link};
use meta_model::Meta;
use program_flaws::{ProgramPlaces, ProgramSource, ReadProgram, node_text, push_edge};
use std::alloc::{AllocError, Global};

/// A program that loads, where its parts are in its text, and how grave the rules are.
#[derive(Clone, Copy)]
pub struct Located<'s> {
    /// The program.
    pub source: ProgramSource<'s>,
    /// The places.
    pub places: &'s ProgramPlaces,
    /// How grave the rules are.
    pub levels: Levels<'s>,
}

impl<'s> Located<'s> {
    /// What is read, which loads as this, with the rules as grave as these levels say.
    pub fn of(
        alloc: Global,
        read: &'s ReadProgram,
        meta: &'s Meta,
        levels: Levels<'s>,
    ) -> Located<'s> {
        Located {
            source: read.source(alloc, meta),
            places: &read.places,
            levels,
        }
    }

    /// Whether the node's class declares it, or it is the destruction of its objects.
    pub fn is_own(&self, node: Node) -> bool {
        self.source.declared(node) == node
    }

    /// Where the member stands; where it is the destruction of objects, their class.
    pub fn node_place(&self, node: Node) -> Option<TextPlace> {
        let declaration = self.source.declaration(node)?;
        Some(self.places.declared(declaration)?.place)
    }

    /// The statement of this number in the body of the slot that the node is.
    pub fn statement_place(&self, node: Node, number: usize) -> Option<TextPlace> {
        let declaration = self.source.declaration(node)?;
        Some(self.places.statement(declaration, number)?.place)
    }

    /// Where that stands by which the one node leads to the other.
    pub fn reason_place(&self, reason: Reason, from: Node) -> Option<TextPlace> {
        match reason {
            Reason::Statement(number) => self.statement_place(from, number),
            Reason::Wire(place) => self.places.wire(place),
            Reason::Binding(place) => self.places.site(place),
            Reason::Native | Reason::Notify | Reason::Deletion => self.node_place(from),
        }
    }

    /// Where that stands by which the one node leads to the other.
    pub fn edge_place(&self, from: Node, to: Node) -> Option<TextPlace> {
        let reason = reason_for(self.source.meta, from, to)?;
        self.reason_place(reason, from)
    }

    /// Whether the node is a slot or native that its class declares and that is said to run an event loop.
    pub fn is_modal(&self, node: Node) -> bool {
        match self.source.declaration(node) {
            Some(declaration) => self.is_own(node) && self.places.is_modal(declaration),
            None => false,
        }
    }

    /// The step from the one node to the other, to which it leads.
    pub fn step(&self, from: Node, to: Node) -> Result<ChainStep, AllocError> {
        let alloc = self.source.alloc;
        let mut line = String::new(alloc);
        let reason = push_edge(&mut line, self.source, from, to)?.unwrap_or(Reason::Deletion);
        Ok(ChainStep {
            from: node_text(alloc, self.source.meta, from)?,
            to: node_text(alloc, self.source.meta, to)?,
            link: Link::of(reason),
            is_posted: false,
            message: String::from_str(alloc, line.as_str().trim())?,
            place: self.reason_place(reason, from),
        })
    }

    /// The steps from each of the nodes to the one behind it.
    pub fn steps(&self, nodes: &[Node]) -> Result<Vec<ChainStep>, AllocError> {
        let mut steps = Vec::new(self.source.alloc);
        for (from, to) in nodes.iter().zip(nodes.iter().skip(1)) {
            steps.push(self.step(*from, *to)?)?;
        }
        Ok(steps)
    }
}
