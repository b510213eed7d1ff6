//! The nodes that a search has entered and not left, the last one on top.

ghost use Rattle.std.specs.Prelude.{◌≡◌, [], ◌∷◌, OnOk, MatchOption};

use crate::bits::Bits;
use std::alloc::{AllocError, Global};
use std::marker::Model;

/// A node's rank, and the classes of a group that it leads to.
#[derive(Clone, Copy)]
pub struct NodeRank {
    /// How many edges the longest chain from the node has.
    pub rank: usize,
    /// The classes, by their places in the group.
    pub classes: Bits,
}

/// How far a search has come with a node.
#[derive(Clone, Copy)]
pub enum VisitState {
    /// It wasn't entered.
    New,
    /// It was entered, and some of its edges weren't followed.
    Open,
    /// All its edges were followed.
    Done(NodeRank),
}

/// A node some of whose edges were followed.
#[derive(Clone, Copy)]
pub struct Visit {
    /// The node, by its number.
    pub node: usize,
    /// How many of its edges were followed.
    pub next: usize,
    /// What these edges give.
    pub entry: NodeRank,
}

/// The nodes that a search has entered and not left, but for the last one.
#[derive(Drop)]
pub struct VisitPath {
    visits: Vec<Visit>,
}

impl Model for VisitPath {
    ghost use Rattle.std.specs.Prelude.{List, reverse};
    ghost use Rattle.rank_graph.specs.declared.path.Visit.{Visit};

    ghost Value = { List Visit };

    ghost view = { λ p. reverse p.visits.items };
}

impl VisitPath {
    /// No node.
    pub fn new(alloc: Global) -> VisitPath
        ensures { result ≡ [] }
    {
        VisitPath {
            visits: Vec::new(alloc),
        }
    }

    /// Puts the node on top.
    pub fn push(&mut self, visit: Visit) -> Result<(), AllocError>
        ensures { OnOk result (self.new ≡ visit ∷ self.old) }
    {
        self.visits.push(visit)?;
        Ok(())
    }

    /// Takes the node on top off, if there is one.
    pub fn pop(&mut self) -> Option<Visit>
        ensures { MatchOption result ((self.old ≡ []) × (self.new ≡ [])) (λ visit.
            self.old ≡ visit ∷ self.new) }
    {
        self.visits.pop()
    }
}
