//! Cycles that come to rest (docs/settling.md), and what stands against that.

use crate::program::cycles::{
    BindingEdges, ComponentCycles, MOST_CYCLES, is_property, place_in, same_component,
};
use crate::program::remarks::Remarks;
use crate::program::search::ProgramSearch;
use crate::program::sentences::push_names;
use crate::program::turns::remark;
use crate::program::walks::{DirectedGraph, components, components_of_nodes};
use certificate_lang::{CertificateFault, MemberName, NodeName};
use effect_scan::{Member, Node};
use findings::{Finding, Rule};
use program_flaws::{Obstacle, obstacle_between};
use settling_texts::read_settling_certificate;
use std::alloc::AllocError;
use std::collections::BTreeSet;

/// Of so many cycles the steps are looked for: no more findings of one severity are reported.
const MOST_SHOWN: usize = 100;

/// For each strongly connected component what stands against it that it comes to rest, if something does. The components of the
/// nodes are at these places.
pub fn obstacles(
    search: ProgramSearch<'_>,
    places: &[Option<usize>],
) -> Result<Vec<Option<Obstacle>>, AllocError> {
    let mut silent = DirectedGraph::without_edges(search.graph.alloc, search.graph.len())?;
    let mut obstacles = Vec::new(search.graph.alloc);
    for place in 0..search.components.len() {
        let obstacle = obstacle_in(search, places, place, &mut silent)?;
        obstacles.push(obstacle)?;
    }
    for circle in components(&silent)? {
        add_silent(search, places, circle.as_slice(), &mut obstacles);
    }
    Ok(obstacles)
}

/// What stands against it along the edges inside the component at this place. Where nothing does, those that lead to no property
/// are added to a graph.
fn obstacle_in(
    search: ProgramSearch<'_>,
    places: &[Option<usize>],
    place: usize,
    silent: &mut DirectedGraph,
) -> Result<Option<Obstacle>, AllocError> {
    let nodes = search.scan.nodes();
    for (from, to) in edges_inside(search, places, place)? {
        if let Some(first) = nodes.get(from)
            && let Some(second) = nodes.get(to)
        {
            let obstacle = obstacle_between(search.located.source.meta, *first, *second);
            if obstacle.is_some() {
                return Ok(obstacle);
            }
            if !is_property(nodes, to) {
                silent.join(from, to)?;
            }
        }
    }
    Ok(None)
}

/// That the nodes of a circle, none of which is a property, stand against it, where nothing else does.
fn add_silent(
    search: ProgramSearch<'_>,
    places: &[Option<usize>],
    circle: &[usize],
    obstacles: &mut Vec<Option<Obstacle>>,
) {
    if let Some(first) = circle.first()
        && let Some(node) = search.scan.nodes().get(*first)
        && let Some(place) = same_component(places, *first, *first)
        && let Some(obstacle) = obstacles.get_mut(place)
        && obstacle.is_none()
    {
        *obstacle = Some(Obstacle::NoProperty(*node));
    }
}

/// Adds the cycles of a program that has this settling certificate: of each set shortest ones, as of what doesn't come to rest.
pub fn add_settling_cycles(
    search: ProgramSearch<'_>,
    certificate: &[u8],
    remarks: &mut Remarks,
) -> Result<(), AllocError> {
    let bindings = BindingEdges::of(search)?;
    let places = components_of_nodes(search.graph, search.components)?;
    let rounds = rounds(search, places.as_slice(), certificate)?;
    let mut shown = 0usize;
    for (place, component) in search.components.iter().enumerate() {
        let most = most_properties(search, component.as_slice())?;
        let cycles = SettlingCycles {
            cycles: ComponentCycles {
                search,
                bindings: &bindings,
                component: component.as_slice(),
                obstacle: None,
                has_accepted: false,
            },
            depth: match rounds.get(place).copied().flatten() {
                Some(round) => Some(most.saturating_mul(round as usize)),
                None => None,
            },
        };
        let edges = edges_inside(search, places.as_slice(), place)?;
        cycles.add(edges.as_slice(), &mut shown, remarks)?;
    }
    Ok(())
}

/// The edges inside the component at this place.
fn edges_inside(
    search: ProgramSearch<'_>,
    places: &[Option<usize>],
    place: usize,
) -> Result<Vec<(usize, usize)>, AllocError> {
    let mut edges = Vec::new(search.graph.alloc);
    let component = match search.components.get(place) {
        Some(component) => component.as_slice(),
        None => &[],
    };
    for from in component {
        for to in search.graph.after(*from) {
            if same_component(places, *from, *to) == Some(place) {
                edges.push((*from, *to))?;
            }
        }
    }
    Ok(edges)
}

/// For each component the round of its set in the certificate, where that has one.
fn rounds(
    search: ProgramSearch<'_>,
    places: &[Option<usize>],
    certificate: &[u8],
) -> Result<Vec<Option<u32>>, AllocError> {
    let alloc = search.graph.alloc;
    let mut rounds = Vec::new(alloc);
    for _ in 0..search.components.len() {
        rounds.push(None)?;
    }
    let read = match read_settling_certificate(alloc, certificate) {
        Ok(read) => read,
        Err(CertificateFault::Memory) => return Err(AllocError),
        Err(CertificateFault::Format) => return Ok(rounds),
    };
    for set in read.sets.as_slice() {
        if let Some(name) = set.members.as_slice().first()
            && let Some(number) = number_of(search, name)
            && let Some(place) = same_component(places, number, number)
            && let Some(round) = rounds.get_mut(place)
        {
            *round = Some(set.round);
        }
    }
    Ok(rounds)
}

/// The number of the node of this name.
fn number_of(search: ProgramSearch<'_>, name: &NodeName) -> Option<usize> {
    let meta = search.located.source.meta;
    let class = meta.class(&name.class)?;
    let member = match &name.member {
        MemberName::Method(sig) => Member::Method(meta.method(class, sig)?),
        MemberName::Property(property) => Member::Property(meta.property(class, property)?),
        MemberName::Destruction => Member::Destruction,
    };
    search.scan.number(Node { class, member })
}

/// The most properties that a class has among these nodes.
fn most_properties(search: ProgramSearch<'_>, component: &[usize]) -> Result<usize, AllocError> {
    let mut classes = Vec::new(search.graph.alloc);
    for number in component {
        if let Some(node) = search.scan.nodes().get(*number)
            && let Member::Property(_) = node.member
        {
            classes.push(node.class)?;
        }
    }
    classes.sort()?;
    let mut most = 0usize;
    let mut count = 0usize;
    let mut before = None;
    for class in classes {
        count = if before == Some(class) {
            count.saturating_add(1)
        } else {
            1
        };
        before = Some(class);
        most = most.max(count);
    }
    Ok(most)
}

/// The cycles of a component that comes to rest.
#[derive(Clone, Copy)]
struct SettlingCycles<'t> {
    cycles: ComponentCycles<'t>,
    /// How much deeper calls may nest for each object, where that is known.
    depth: Option<usize>,
}

impl SettlingCycles<'_> {
    /// Adds cycles by these edges, until each is on one.
    fn add(
        &self,
        edges: &[(usize, usize)],
        shown: &mut usize,
        remarks: &mut Remarks,
    ) -> Result<(), AllocError> {
        let mut passed: BTreeSet<(usize, usize)> = BTreeSet::new(self.cycles.search.graph.alloc);
        let mut told = 0usize;
        for edge in edges {
            if passed.contains(edge) {
                continue;
            }
            if told == MOST_CYCLES {
                remarks.cut.push(Rule::SettlingCycle)?;
                return Ok(());
            }
            if *shown == MOST_SHOWN {
                return self.leave(edges, remarks);
            }
            told = told.saturating_add(1);
            *shown = shown.saturating_add(1);
            let cycle = self.cycles.pass(*edge, &mut passed)?;
            let finding = self.finding(cycle.as_slice())?;
            remarks.findings.push(finding)?;
        }
        Ok(())
    }

    /// Counts a cycle by these edges that isn't looked for.
    fn leave(&self, edges: &[(usize, usize)], remarks: &mut Remarks) -> Result<(), AllocError> {
        remarks.untold.push(Rule::SettlingCycle)?;
        if !self.cycles.is_one_cycle(edges) {
            remarks.cut.push(Rule::SettlingCycle)?;
        }
        Ok(())
    }

    /// That the cycle, whose first node is at both ends, comes to rest.
    fn finding(&self, cycle: &[Node]) -> Result<Finding, AllocError> {
        let search = self.cycles.search;
        let message = self.message(cycle)?;
        let chain = search.located.steps(cycle)?;
        let place = place_in(chain.as_slice());
        remark(search, Rule::SettlingCycle, message, place, chain)
    }

    /// Which members are on it, which properties are changed, and how deep calls nest.
    fn message(&self, cycle: &[Node]) -> Result<String, AllocError> {
        let source = self.cycles.search.located.source;
        let alloc = source.alloc;
        let mut methods = Vec::new(alloc);
        let mut properties = Vec::new(alloc);
        for node in cycle.iter().take(cycle.len().saturating_sub(1)) {
            match node.member {
                Member::Property(_) => properties.push(*node)?,
                _ => methods.push(*node)?,
            }
        }
        let mut text = String::new(alloc);
        push_names(&mut text, alloc, source.meta, methods.as_slice())?;
        text.push_str(" may call one another, but come to rest: ")?;
        push_names(&mut text, alloc, source.meta, properties.as_slice())?;
        text.push_str(if properties.len() == 1 {
            " changes once in each object"
        } else {
            " change once in each object"
        })?;
        if let Some(depth) = self.depth {
            write!(text, ", and calls nest at most {depth} deeper for each")?;
        }
        Ok(text)
    }
}
