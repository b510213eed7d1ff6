//! Ways along edges, as each node's next one.

use std::alloc::{AllocError, Global};

/// How a way goes on from a node.
#[derive(Clone, Copy, Debug, PartialEq, Eq)]
pub struct Hop {
    /// The next node; the node itself at the way's end.
    pub next: usize,
    /// How many edges are left.
    pub left: usize,
}

/// For each node of a graph, by number, how a way goes on from it; nodes may have none.
#[derive(Drop)]
pub struct Hops {
    hops: Vec<Option<Hop>>,
}

impl Hops {
    /// No way from any of so many nodes.
    pub fn none(alloc: Global, count: usize) -> Result<Hops, AllocError> {
        let mut hops = Vec::new(alloc);
        for _ in 0..count {
            hops.push(None)?;
        }
        Ok(Hops { hops })
    }

    /// How the way goes on from this node.
    pub fn at(&self, node: usize) -> Option<Hop> {
        *self.hops.get(node)?
    }

    /// Sets how the way goes on from this node.
    pub fn set(&mut self, node: usize, hop: Hop) {
        if let Some(place) = self.hops.get_mut(node) {
            *place = Some(hop);
        }
    }

    /// The first node from which a longest way goes on, and how many edges that has; `None` where there are no ways.
    pub fn longest(&self) -> Option<(usize, usize)> {
        let mut longest: Option<(usize, usize)> = None;
        for (node, hop) in self.hops.iter().enumerate() {
            if let Some(hop) = hop {
                match longest {
                    Some((_, left)) if left >= hop.left => {}
                    _ => longest = Some((node, hop.left)),
                }
            }
        }
        longest
    }

    /// The nodes of the way from this one, itself first: as many edges of it as are asked for, and fewer where it ends.
    pub fn way(&self, alloc: Global, from: usize, most: usize) -> Result<Vec<usize>, AllocError> {
        let mut nodes = Vec::new(alloc);
        nodes.push(from)?;
        let mut at = from;
        for _ in 0..most {
            match self.at(at) {
                Some(hop) if hop.left > 0 => at = hop.next,
                _ => break,
            }
            nodes.push(at)?;
        }
        Ok(nodes)
    }
}
