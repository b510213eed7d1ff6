//! A program whose edges are searched.

use crate::program::located::Located;
use crate::program::walks::{DirectedGraph, components};
use effect_scan::{Node, Scan};
use std::alloc::AllocError;

/// A program's nodes and edges, and its strongly connected components.
#[derive(Drop)]
pub struct ProgramGraph {
    scan: Scan,
    graph: DirectedGraph,
    components: Vec<Vec<usize>>,
}

impl ProgramGraph {
    /// Those of this program.
    pub fn of(located: Located<'_>) -> Result<ProgramGraph, AllocError> {
        let alloc = located.source.alloc;
        let scan = Scan::of(alloc, located.source.meta)?;
        let graph = DirectedGraph::of(alloc, &scan)?;
        let components = components(&graph)?;
        Ok(ProgramGraph {
            scan,
            graph,
            components,
        })
    }

    /// The program, which these are of, to be searched.
    pub fn search<'s>(&'s self, located: Located<'s>) -> ProgramSearch<'s> {
        ProgramSearch {
            located,
            scan: &self.scan,
            graph: &self.graph,
            components: self.components.as_slice(),
        }
    }
}

/// A program, its nodes and edges, and its strongly connected components.
#[derive(Clone, Copy)]
pub struct ProgramSearch<'s> {
    /// The program.
    pub located: Located<'s>,
    /// Its nodes.
    pub scan: &'s Scan,
    /// The edges between them.
    pub graph: &'s DirectedGraph,
    /// The strongly connected components that have a cycle.
    pub components: &'s [Vec<usize>],
}

impl<'s> ProgramSearch<'s> {
    /// The nodes of these numbers, as far as they are there.
    pub fn nodes_at(&self, numbers: &[usize]) -> Result<Vec<Node>, AllocError> {
        let mut nodes = Vec::new(self.located.source.alloc);
        for number in numbers {
            if let Some(node) = self.scan.nodes().get(*number) {
                nodes.push(*node)?;
            }
        }
        Ok(nodes)
    }
}
