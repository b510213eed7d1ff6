//! Strongly connected components: sets of nodes that all lead to one another. Each cycle lies within one of them.

use crate::program::walks::graph::{DirectedGraph, push_at};
use crate::program::walks::marking::{marks, set_mark};
use std::alloc::{AllocError, Global};

/// A node on the way of a search, and how many of its edges were followed.
#[derive(Clone, Copy, Debug, PartialEq, Eq)]
struct SearchFrame {
    node: usize,
    next: usize,
}

/// For each node the set of those to which it belongs, as one of them; those that aren't in a set yet have none.
#[derive(Drop)]
struct Roots {
    roots: Vec<Option<usize>>,
}

impl Roots {
    /// No node has one.
    fn none(alloc: Global, count: usize) -> Result<Roots, AllocError> {
        let mut roots = Vec::new(alloc);
        for _ in 0..count {
            roots.push(None)?;
        }
        Ok(Roots { roots })
    }

    /// That of the node.
    fn at(&self, node: usize) -> Option<usize> {
        *self.roots.get(node)?
    }

    /// Gives the node one, and answers whether it had none.
    fn give(&mut self, node: usize, root: usize) -> bool {
        match self.roots.get_mut(node) {
            Some(place) => {
                let is_new = place.is_none();
                if is_new {
                    *place = Some(root);
                }
                is_new
            }
            None => false,
        }
    }
}

/// The strongly connected components that have a cycle: a node alone is one where it leads to itself. The nodes of each are in their
/// order, and the components in that of their first nodes.
pub fn components(graph: &DirectedGraph) -> Result<Vec<Vec<usize>>, AllocError> {
    let order = finished(graph)?;
    let mut roots = Roots::none(graph.alloc, graph.len())?;
    for root in order.iter().rev() {
        if roots.give(*root, *root) {
            gather(graph, *root, &mut roots)?;
        }
    }
    let mut components = Vec::new(graph.alloc);
    for set in sets(graph, &roots)? {
        if is_cyclic(graph, set.as_slice()) {
            components.push(set)?;
        }
    }
    Ok(components)
}

/// All nodes, each behind those that it leads to, but where these lead back to it.
pub fn finished(graph: &DirectedGraph) -> Result<Vec<usize>, AllocError> {
    let mut order = Vec::new(graph.alloc);
    let mut entered = marks(graph.alloc, graph.len(), false)?;
    for root in 0..graph.len() {
        if set_mark(&mut entered, root, true) {
            finish_from(graph, root, &mut entered, &mut order)?;
        }
    }
    Ok(order)
}

/// Adds the node, which was just entered, and those that it leads to, as far as they weren't entered.
fn finish_from(
    graph: &DirectedGraph,
    root: usize,
    entered: &mut Vec<bool>,
    order: &mut Vec<usize>,
) -> Result<(), AllocError> {
    let mut path = Vec::new(graph.alloc);
    path.push(SearchFrame {
        node: root,
        next: 0,
    })?;
    // Each step follows an edge or leaves a node.
    let steps = graph.edge_count().saturating_add(graph.len());
    for _ in 0..steps {
        let Some(visit) = path.pop() else {
            break;
        };
        match graph.after(visit.node).get(visit.next) {
            Some(target) => {
                path.push(SearchFrame {
                    node: visit.node,
                    next: visit.next.saturating_add(1),
                })?;
                if set_mark(entered, *target, true) {
                    path.push(SearchFrame {
                        node: *target,
                        next: 0,
                    })?;
                }
            }
            None => order.push(visit.node)?,
        }
    }
    Ok(())
}

/// Gives the root to each node that leads to it and has none yet.
fn gather(graph: &DirectedGraph, root: usize, roots: &mut Roots) -> Result<(), AllocError> {
    let mut waiting = Vec::new(graph.alloc);
    waiting.push(root)?;
    // Each node waits once at most.
    for _ in 0..graph.len() {
        let Some(node) = waiting.pop() else {
            break;
        };
        for before in graph.before(node) {
            if roots.give(*before, root) {
                waiting.push(*before)?;
            }
        }
    }
    Ok(())
}

/// The sets of nodes that have one root, in the order of their first nodes.
fn sets(graph: &DirectedGraph, roots: &Roots) -> Result<Vec<Vec<usize>>, AllocError> {
    let mut sets: Vec<Vec<usize>> = Vec::new(graph.alloc);
    let mut places = Roots::none(graph.alloc, graph.len())?;
    for node in 0..graph.len() {
        if let Some(root) = roots.at(node) {
            match places.at(root) {
                Some(place) => push_at(&mut sets, place, node)?,
                None => {
                    places.give(root, sets.len());
                    let mut set = Vec::new(graph.alloc);
                    set.push(node)?;
                    sets.push(set)?;
                }
            }
        }
    }
    Ok(sets)
}

/// Whether nodes that all lead to one another, or one alone, have a cycle.
fn is_cyclic(graph: &DirectedGraph, nodes: &[usize]) -> bool {
    match nodes {
        [] => false,
        [only] => graph.after(*only).contains(only),
        _ => true,
    }
}

/// For each node the component that it is in, by its place among them; `None` for one that is in none.
pub fn components_of_nodes(
    graph: &DirectedGraph,
    components: &[Vec<usize>],
) -> Result<Vec<Option<usize>>, AllocError> {
    let mut places = Roots::none(graph.alloc, graph.len())?;
    for (place, component) in components.iter().enumerate() {
        for node in component.iter() {
            places.give(*node, place);
        }
    }
    Ok(places.roots)
}
