//! Cycles: members that may lead to one another without end.

use crate::program::located::Located;
use crate::program::resting::obstacles;
use crate::program::search::ProgramSearch;
use crate::program::sentences::{BINDINGS_MAY_BE_FALSE, MAY_BE_FALSE, doubted_help, push_names};
use crate::program::walks::{DirectedGraph, components, components_of_nodes};
use effect_scan::{Member, Node};
use findings::{ChainStep, Edge, Finding, JudgedText, Link, PlacedEdge, Rule, TextPlace, Verdict};
use program_flaws::{Obstacle, node_text, obstacle_along, obstacle_text};
use std::alloc::AllocError;
use std::collections::BTreeSet;

/// So many cycles of one strongly connected component are told.
pub const MOST_CYCLES: usize = 10;

/// What is said of a cycle against which nothing stands.
const COMES_TO_REST: &str =
    "this comes to rest by itself, as one value is handed on unchanged: `certify --settling` takes it";

/// The edges of a program's bindings, and their strongly connected components.
#[derive(Drop)]
pub struct BindingEdges {
    graph: DirectedGraph,
    components: Vec<Vec<usize>>,
    /// For each node the component that it is in.
    places: Vec<Option<usize>>,
}

impl BindingEdges {
    /// Those of the program.
    pub fn of(search: ProgramSearch<'_>) -> Result<BindingEdges, AllocError> {
        let nodes = search.scan.nodes();
        let mut graph = DirectedGraph::without_edges(search.graph.alloc, nodes.len())?;
        for component in search.components {
            for from in component.iter() {
                for to in search.graph.after(*from) {
                    if is_property(nodes, *from) && is_property(nodes, *to) {
                        graph.join(*from, *to)?;
                    }
                }
            }
        }
        let components = components(&graph)?;
        let places = components_of_nodes(&graph, components.as_slice())?;
        Ok(BindingEdges {
            graph,
            components,
            places,
        })
    }

    /// The component of bindings that the edge is in, if both of its nodes are properties.
    fn component(&self, from: usize, to: usize) -> Option<&[usize]> {
        let place = same_component(self.places.as_slice(), from, to)?;
        Some(self.components.get(place)?.as_slice())
    }
}

/// Whether the node is a property.
pub fn is_property(nodes: &[Node], number: usize) -> bool {
    match nodes.get(number) {
        Some(node) => matches!(node.member, Member::Property(_)),
        None => false,
    }
}

/// The component in which both nodes are.
pub fn same_component(places: &[Option<usize>], from: usize, to: usize) -> Option<usize> {
    let place = (*places.get(from)?)?;
    if (*places.get(to)?)? == place {
        Some(place)
    } else {
        None
    }
}

/// Adds the edges of each component, and of those that aren't accepted cycles that have them: each a shortest one by an edge that is
/// on none before.
pub fn gather_cycles(
    search: ProgramSearch<'_>,
    accepted: &[Edge],
    found: &mut Verdict,
) -> Result<(), AllocError> {
    let bindings = BindingEdges::of(search)?;
    let places = components_of_nodes(search.graph, search.components)?;
    let obstacles = obstacles(search, places.as_slice())?;
    for (place, component) in search.components.iter().enumerate() {
        let mut left = Vec::new(search.graph.alloc);
        let before = found.edges.len();
        for from in component.iter() {
            for to in search.graph.after(*from) {
                if same_component(places.as_slice(), *from, *to) == Some(place) {
                    let is_left = add_edge(search, &bindings, accepted, (*from, *to), found)?;
                    if is_left {
                        left.push((*from, *to))?;
                    }
                }
            }
        }
        let told = ComponentCycles {
            search,
            bindings: &bindings,
            component: component.as_slice(),
            obstacle: obstacles.get(place).copied().flatten(),
            has_accepted: found.edges.len().saturating_sub(before) > left.len(),
        };
        told.gather(left.as_slice(), found)?;
    }
    Ok(())
}

/// Adds the edge to those that there are, and answers whether it isn't accepted.
fn add_edge(
    search: ProgramSearch<'_>,
    bindings: &BindingEdges,
    accepted: &[Edge],
    edge: (usize, usize),
    found: &mut Verdict,
) -> Result<bool, AllocError> {
    let (from, to) = edge;
    if bindings.component(from, to).is_some() {
        found.bound = found.bound.saturating_add(1);
        return Ok(true);
    }
    let nodes = search.scan.nodes();
    let (Some(from), Some(to)) = (nodes.get(from), nodes.get(to)) else {
        return Ok(false);
    };
    let source = search.located.source;
    let first = node_text(source.alloc, source.meta, *from)?;
    let second = node_text(source.alloc, source.meta, *to)?;
    let edge = Edge::of(source.alloc, first.as_str(), second.as_str())?;
    let is_left = !accepted.contains(&edge);
    let place = search.located.edge_place(*from, *to);
    found.edges.push(PlacedEdge { edge, place })?;
    Ok(is_left)
}

/// A component of which cycles are told.
#[derive(Clone, Copy)]
pub struct ComponentCycles<'t> {
    pub search: ProgramSearch<'t>,
    pub bindings: &'t BindingEdges,
    pub component: &'t [usize],
    /// What stands against it that it comes to rest.
    pub obstacle: Option<Obstacle>,
    /// Whether some of its edges are accepted.
    pub has_accepted: bool,
}

impl ComponentCycles<'_> {
    /// Adds cycles that have these edges, until each is on one.
    fn gather(&self, edges: &[(usize, usize)], found: &mut Verdict) -> Result<(), AllocError> {
        let mut passed: BTreeSet<(usize, usize)> = BTreeSet::new(self.search.graph.alloc);
        let mut cycles = 0usize;
        let level = self.search.located.levels.of(Rule::Cycle);
        for edge in edges {
            if passed.contains(edge) {
                continue;
            }
            if cycles == MOST_CYCLES {
                found.is_least |= level.is_some();
                return Ok(());
            }
            cycles = cycles.saturating_add(1);
            let Some(severity) = found.taken(Rule::Cycle, level) else {
                // It was counted. Which other edges are on it isn't looked for.
                found.is_least |= level.is_some() && !self.is_one_cycle(edges);
                return Ok(());
            };
            let cycle = self.pass(*edge, &mut passed)?;
            let finding = self.finding(cycle.as_slice())?;
            found.push(severity, finding)?;
        }
        Ok(())
    }

    /// Whether these edges, which are those of the component that aren't accepted, are a single cycle.
    pub fn is_one_cycle(&self, edges: &[(usize, usize)]) -> bool {
        !self.has_accepted && edges.len() == self.component.len()
    }

    /// The nodes of a shortest cycle that begins with the edge. Its edges are passed then.
    pub fn pass(
        &self,
        edge: (usize, usize),
        passed: &mut BTreeSet<(usize, usize)>,
    ) -> Result<Vec<Node>, AllocError> {
        let numbers = self.cycle_by(edge)?;
        for pair in numbers.iter().zip(numbers.iter().skip(1)) {
            let (from, to) = pair;
            passed.insert((*from, *to))?;
        }
        self.search.nodes_at(numbers.as_slice())
    }

    /// A shortest cycle that begins with the edge: by bindings alone where there is one.
    fn cycle_by(&self, edge: (usize, usize)) -> Result<Vec<usize>, AllocError> {
        let (from, to) = edge;
        match self.bindings.component(from, to) {
            Some(component) => self.bindings.graph.cycle_by(from, to, component),
            None => self.search.graph.cycle_by(from, to, self.component),
        }
    }

    /// That a cycle leads from its first node back to it.
    fn finding(&self, cycle: &[Node]) -> Result<Finding, AllocError> {
        let located = self.search.located;
        let alloc = located.source.alloc;
        let chain = located.steps(cycle)?;
        let advice = breaking(
            has_link(chain.as_slice(), Link::Wire),
            has_link(chain.as_slice(), Link::Binding),
        );
        let help = self.help(cycle, advice)?;
        // Where others are accepted it is told by the edge that isn't.
        let place = if self.has_accepted {
            chain.first().and_then(|step: &ChainStep| step.place)
        } else {
            place_in(chain.as_slice())
        };
        Ok(Finding {
            rule: Rule::Cycle,
            message: cycle_text(located, cycle, self.component.len())?,
            help,
            text: JudgedText::Program,
            place,
            chain,
        })
    }

    /// What to do about a cycle of these nodes, which this advice breaks; and whether it comes to rest by itself, or what stands
    /// against that: on the cycle, or else in its component.
    fn help(&self, cycle: &[Node], advice: &str) -> Result<Option<String>, AllocError> {
        let source = self.search.located.source;
        let alloc = source.alloc;
        if is_bound(cycle) {
            return doubted_help(alloc, advice, BINDINGS_MAY_BE_FALSE);
        }
        let Some(obstacle) = obstacle_along(source.meta, cycle).or(self.obstacle) else {
            let help = format!(in alloc; "{COMES_TO_REST}; or {advice}")?;
            return Ok(Some(help));
        };
        let obstacle = obstacle_text(source, obstacle)?;
        let advice = format!(in alloc; "{advice}. It isn't seen to come to rest: {obstacle}")?;
        doubted_help(alloc, advice.as_str(), MAY_BE_FALSE)
    }
}

/// Whether a cycle of these nodes is one of bindings alone.
fn is_bound(cycle: &[Node]) -> bool {
    cycle
        .iter()
        .all(|node: &Node| matches!(node.member, Member::Property(_)))
}

/// What a cycle means, and which members are on it, that are some of so many which all lead to one another.
fn cycle_text(located: Located<'_>, cycle: &[Node], members: usize) -> Result<String, AllocError> {
    let alloc = located.source.alloc;
    let meta = located.source.meta;
    let mut text = String::new(alloc);
    if let [first, others @ .., _] = cycle {
        push_names(&mut text, alloc, meta, &[*first])?;
        text.push_str(" may lead back to itself at once, and so without end")?;
        if !others.is_empty() {
            text.push_str(", through ")?;
            push_names(&mut text, alloc, meta, others)?;
        }
        if members > others.len().saturating_add(1) {
            write!(text, "; {members} members may all lead to one another")?;
        }
    }
    Ok(text)
}

/// How to break a cycle on which wires lead from one node to the next, or bindings, or neither.
fn breaking(is_wired: bool, is_bound: bool) -> &'static str {
    if is_wired {
        "make one of these wires `queued`: then its slot runs later, when the event loop turns, and the chain ends there"
    } else if is_bound {
        "a binding may not come to read what it is for: leave one of these properties out of an expression"
    } else {
        "in the place of one of these statements, emit a signal that a `queued` wire takes to the next slot"
    }
}

/// Where a cycle is reported: at its first wire, where it has one.
pub fn place_in(chain: &[ChainStep]) -> Option<TextPlace> {
    let wire = chain
        .iter()
        .find(|step: &&ChainStep| step.link == Link::Wire);
    match wire {
        Some(step) => step.place,
        None => chain.first()?.place,
    }
}

/// Whether one of the steps is of this sort.
fn has_link(chain: &[ChainStep], link: Link) -> bool {
    chain.iter().any(|step: &ChainStep| step.link == link)
}
