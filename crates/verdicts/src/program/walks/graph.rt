//! Edges between numbered nodes, along them and against them, and ways along them.

use crate::program::walks::connected::finished;
use crate::program::walks::hops::{Hop, Hops};
use crate::program::walks::marking::{is_marked, marks, set_mark};
use effect_scan::Scan;
use std::alloc::{AllocError, Global};

/// Edges between nodes that are numbers from 0.
#[derive(Drop)]
pub struct DirectedGraph {
    /// What memory is taken from.
    pub alloc: Global,
    /// For each node those that it leads to.
    after: Vec<Vec<usize>>,
    /// For each node those that lead to it.
    before: Vec<Vec<usize>>,
    edges: usize,
}

impl DirectedGraph {
    /// So many nodes without edges.
    pub fn without_edges(alloc: Global, count: usize) -> Result<DirectedGraph, AllocError> {
        let mut graph = DirectedGraph {
            alloc,
            after: Vec::new(alloc),
            before: Vec::new(alloc),
            edges: 0,
        };
        for _ in 0..count {
            graph.add_node()?;
        }
        Ok(graph)
    }

    /// The edges of the scan, between the numbers of its nodes.
    pub fn of(alloc: Global, scan: &Scan) -> Result<DirectedGraph, AllocError> {
        let count = scan.nodes().len();
        let mut graph = DirectedGraph::without_edges(alloc, count)?;
        for from in 0..count {
            for to in scan.targets(from) {
                graph.join(from, *to)?;
            }
        }
        Ok(graph)
    }

    /// Adds a node without edges, and answers its number.
    pub fn add_node(&mut self) -> Result<usize, AllocError> {
        let number = self.after.len();
        self.after.push(Vec::new(self.alloc))?;
        self.before.push(Vec::new(self.alloc))?;
        Ok(number)
    }

    /// Adds an edge from the one node to the other.
    pub fn join(&mut self, from: usize, to: usize) -> Result<(), AllocError> {
        self.edges = self.edges.saturating_add(1);
        push_at(&mut self.after, from, to)?;
        push_at(&mut self.before, to, from)
    }

    /// How many nodes there are.
    pub fn len(&self) -> usize {
        self.after.len()
    }

    /// How many edges there are.
    pub fn edge_count(&self) -> usize {
        self.edges
    }

    /// The nodes that this one leads to.
    pub fn after(&self, node: usize) -> &[usize] {
        list_at(self.after.as_slice(), node)
    }

    /// The nodes that lead to this one.
    pub fn before(&self, node: usize) -> &[usize] {
        list_at(self.before.as_slice(), node)
    }

    /// For each node that leads to one of the targets, through nodes that aren't marked alone, a shortest way there.
    pub fn ways_to(&self, targets: &[usize], marks: &[bool]) -> Result<Hops, AllocError> {
        let mut hops = Hops::none(self.alloc, self.len())?;
        let mut waiting = Vec::new(self.alloc);
        for target in targets {
            if hops.at(*target).is_none() {
                let next = *target;
                hops.set(*target, Hop { next, left: 0 });
                waiting.push(*target)?;
            }
        }
        // Each node waits once at most.
        for place in 0..self.len() {
            let Some(next) = waiting.get(place).copied() else {
                break;
            };
            let left = match hops.at(next) {
                Some(hop) => hop.left.saturating_add(1),
                None => 0,
            };
            for node in self.before(next) {
                if hops.at(*node).is_none() && !is_marked(marks, *node) {
                    hops.set(*node, Hop { next, left });
                    waiting.push(*node)?;
                }
            }
        }
        Ok(hops)
    }

    /// A shortest cycle through these nodes alone that begins with the edge from the one node to the other: the first node is at
    /// both ends. Only this node where none of them leads back to it.
    pub fn cycle_by(
        &self,
        from: usize,
        to: usize,
        nodes: &[usize],
    ) -> Result<Vec<usize>, AllocError> {
        let mut outside = marks(self.alloc, self.len(), true)?;
        for node in nodes {
            set_mark(&mut outside, *node, false);
        }
        let hops = self.ways_to(&[from], outside.as_slice())?;
        let mut cycle = Vec::new(self.alloc);
        cycle.push(from)?;
        if let Some(hop) = hops.at(to) {
            let mut rest = hops.way(self.alloc, to, hop.left)?;
            cycle.append(&mut rest)?;
        }
        Ok(cycle)
    }

    /// A shortest cycle through this node and others of these alone: it is at both ends. Only this node where none of them leads
    /// back to it.
    pub fn cycle_through(&self, node: usize, nodes: &[usize]) -> Result<Vec<usize>, AllocError> {
        let mut outside = marks(self.alloc, self.len(), true)?;
        for inner in nodes {
            set_mark(&mut outside, *inner, false);
        }
        let hops = self.ways_to(&[node], outside.as_slice())?;
        let mut second: Option<(usize, usize)> = None;
        for target in self.after(node) {
            if let Some(hop) = hops.at(*target) {
                match second {
                    Some((left, _)) if left <= hop.left => {}
                    _ => second = Some((hop.left, *target)),
                }
            }
        }
        let mut cycle = Vec::new(self.alloc);
        cycle.push(node)?;
        if let Some((left, target)) = second {
            let mut rest = hops.way(self.alloc, target, left)?;
            cycle.append(&mut rest)?;
        }
        Ok(cycle)
    }

    /// The longest chain through nodes that aren't marked, where it has so many edges; the marked ones are those of components that
    /// have cycles. Of several that are as long it is the one that begins with the first node.
    pub fn long_chain(
        &self,
        marks: &[bool],
        edges: usize,
    ) -> Result<Option<Vec<usize>>, AllocError> {
        let mut hops = Hops::none(self.alloc, self.len())?;
        let order = finished(self)?;
        for node in order.as_slice() {
            if !is_marked(marks, *node) {
                let hop = self.longest(&hops, *node);
                hops.set(*node, hop);
            }
        }
        match hops.longest() {
            Some((node, left)) if left >= edges => Ok(Some(hops.way(self.alloc, node, left)?)),
            _ => Ok(None),
        }
    }

    /// How the longest chain goes on from a node, where those of the nodes are known that it leads to.
    fn longest(&self, hops: &Hops, node: usize) -> Hop {
        let mut longest = Hop {
            next: node,
            left: 0,
        };
        for target in self.after(node) {
            if let Some(hop) = hops.at(*target) {
                let left = hop.left.saturating_add(1);
                if left > longest.left {
                    longest = Hop {
                        next: *target,
                        left,
                    };
                }
            }
        }
        longest
    }
}

/// The list at this place.
fn list_at(lists: &[Vec<usize>], place: usize) -> &[usize] {
    match lists.get(place) {
        Some(found) => found.as_slice(),
        None => &[],
    }
}

/// Adds the number to the list at this place.
pub fn push_at(lists: &mut Vec<Vec<usize>>, place: usize, number: usize) -> Result<(), AllocError> {
    if let Some(list) = lists.get_mut(place) {
        list.push(number)?;
    }
    Ok(())
}
