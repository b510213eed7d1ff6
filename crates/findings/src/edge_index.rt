//! Lists of edges in which others are looked for.

use crate::edge::Edge;
use std::alloc::{AllocError, Global};
use std::collections::BTreeSet;

/// Edges, found without going through all of them.
#[derive(Drop)]
pub struct EdgeIndex {
    edges: BTreeSet<Edge>,
}

impl EdgeIndex {
    /// All these edges.
    pub fn of(alloc: Global, edges: Vec<Edge>) -> Result<EdgeIndex, AllocError> {
        let edges = edges.into_iter().collect::<BTreeSet<Edge>>(alloc)?;
        Ok(EdgeIndex { edges })
    }

    /// Whether the edge is one of them.
    pub fn contains(&self, edge: &Edge) -> bool {
        self.edges.contains(edge)
    }
}
