//! What is drawn: nodes with their ranks, edges, and those on the way of the reason why there is no certificate.

use crate::edge::{EdgeCause, Edges, MOST_EDGES, NodeEdge};
use crate::family::Family;
use crate::fault::GraphPartFault;
use crate::origin::Origins;
use crate::part::{GraphPart, drawn, is_marked};
use effect_scan::{Member, Node, Scan};
use meta_model::Meta;
use rank_make::{Why, make};
use sqlite_items::Items;
use std::alloc::{AllocError, Global};

/// Whether a program has a certificate.
#[derive(Clone, Copy, Debug, PartialEq, Eq)]
pub enum CertificateVerdict {
    /// It has one, with this bound.
    Bound(u32),
    /// It has none, for this reason, as `certify` names it.
    No(&'static str),
}

/// A node that is drawn.
#[derive(Clone, Copy, Debug, PartialEq, Eq)]
pub struct DrawnNode {
    /// Its number among all nodes.
    pub number: usize,
    /// The member that it is.
    pub node: Node,
    /// Its rank, where the program has a certificate.
    pub rank: Option<u32>,
    /// Whether it is one of those that the reason names.
    pub is_marked: bool,
}

/// An edge that is drawn.
#[derive(Clone, Copy, Debug, PartialEq, Eq)]
pub struct DrawnEdge {
    pub edge: NodeEdge,
    /// Whether it is on the way that the reason names.
    pub is_marked: bool,
}

/// A graph, or a part of one.
#[derive(Drop)]
pub struct GraphDrawing<'m> {
    pub meta: &'m Meta,
    pub verdict: CertificateVerdict,
    /// In the order of nodes: class by class.
    pub nodes: Vec<DrawnNode>,
    /// Those between the nodes, in the order of the nodes that they lead from.
    pub edges: Vec<DrawnEdge>,
    /// What the members and the edges stand for in another text, where that is told.
    pub origins: Option<Origins<'m>>,
}

/// What a maker of certificates finds of a program.
#[derive(Drop)]
struct MakerFindings {
    verdict: CertificateVerdict,
    /// The ranks of all nodes, by number, where there is a certificate.
    ranks: Vec<u32>,
    /// The nodes that lead from one to the next, where these are why there is none.
    chain: Items<Node>,
}

impl<'m> GraphDrawing<'m> {
    /// What is drawn of a program that loads.
    pub fn of(
        alloc: Global,
        meta: &'m Meta,
        part: GraphPart<'_>,
        origins: Option<Origins<'m>>,
    ) -> Result<GraphDrawing<'m>, GraphPartFault> {
        let scan = Scan::of(alloc, meta)?;
        let Some(edges) = Edges::of(alloc, meta, &scan)? else {
            return Err(GraphPartFault::TooLarge);
        };
        let is_drawn = drawn(alloc, meta, &scan, &edges, part)?;
        let finding = MakerFindings::of(alloc, meta)?;
        let mut drawing = GraphDrawing {
            meta,
            verdict: finding.verdict,
            nodes: Vec::new(alloc),
            edges: Vec::new(alloc),
            origins,
        };
        drawing.push_nodes(&scan, &finding, is_drawn.as_slice())?;
        let Some(posted) = posted(alloc, meta, &scan, &edges, is_drawn.as_slice())? else {
            return Err(GraphPartFault::TooLarge);
        };
        for (number, queued) in posted.iter().enumerate() {
            drawing.push_edges(&scan, edges.from(number), &finding, is_drawn.as_slice())?;
            drawing.push_edges(&scan, queued.as_slice(), &finding, is_drawn.as_slice())?;
        }
        Ok(drawing)
    }

    /// The node of this number, if it is drawn.
    pub fn node_of(&self, number: usize) -> Option<Node> {
        let nodes = self.nodes.as_slice();
        // They stand in the order of their numbers.
        let place = nodes
            .binary_search_by_key(&number, |drawn: &DrawnNode| drawn.number)
            .ok()?;
        Some(nodes.get(place)?.node)
    }

    /// Adds the nodes that are drawn.
    fn push_nodes(
        &mut self,
        scan: &Scan,
        finding: &MakerFindings,
        is_drawn: &[bool],
    ) -> Result<(), AllocError> {
        for (number, node) in scan.nodes().iter().enumerate() {
            if is_marked(is_drawn, number) {
                self.nodes.push(DrawnNode {
                    number,
                    node: *node,
                    rank: finding.ranks.get(number).copied(),
                    is_marked: finding.chain.as_slice().contains(node),
                })?;
            }
        }
        Ok(())
    }

    /// Adds those of the edges that are between nodes which are drawn.
    fn push_edges(
        &mut self,
        scan: &Scan,
        edges: &[NodeEdge],
        finding: &MakerFindings,
        is_drawn: &[bool],
    ) -> Result<(), AllocError> {
        let nodes = scan.nodes();
        for edge in edges {
            if !is_marked(is_drawn, edge.from) || !is_marked(is_drawn, edge.to) {
                continue;
            }
            if let (Some(from), Some(to)) = (nodes.get(edge.from), nodes.get(edge.to)) {
                self.edges.push(DrawnEdge {
                    edge: *edge,
                    is_marked: !edge.is_queued() && finding.follows(*from, *to),
                })?;
            }
        }
        Ok(())
    }
}

/// For each node, by number, the edges that queued wires draw from it: between the uppermost of the classes that they may join
/// and whose members are drawn, since the classes below have them from there. `None` where there are more than are drawn.
fn posted(
    alloc: Global,
    meta: &Meta,
    scan: &Scan,
    edges: &Edges,
    is_drawn: &[bool],
) -> Result<Option<Vec<Vec<NodeEdge>>>, AllocError> {
    let mut posted: Vec<Vec<NodeEdge>> = Vec::new(alloc);
    for _ in scan.nodes() {
        posted.push(Vec::new(alloc))?;
    }
    let mut count = 0usize;
    for family in edges.families() {
        let Family {
            sender,
            signal,
            receiver,
            method,
            first,
            count: wires,
        } = *family;
        let cause = EdgeCause::Queued(first, wires.saturating_sub(1));
        let receivers = uppermost(alloc, meta, scan, is_drawn, receiver, method)?;
        for from in uppermost(alloc, meta, scan, is_drawn, sender, signal)? {
            count = count.saturating_add(receivers.len());
            if count > MOST_EDGES {
                return Ok(None);
            }
            push_all(&mut posted, from, receivers.as_slice(), cause)?;
        }
    }
    Ok(Some(posted))
}

/// Adds edges for this reason from the one node to each of the others.
fn push_all(
    posted: &mut Vec<Vec<NodeEdge>>,
    from: usize,
    targets: &[usize],
    cause: EdgeCause,
) -> Result<(), AllocError> {
    if let Some(list) = posted.get_mut(from) {
        for to in targets {
            list.push(NodeEdge {
                from,
                to: *to,
                cause,
            })?;
        }
    }
    Ok(())
}

/// The numbers of the nodes that are the method in the uppermost classes, from this one down, in which it is drawn.
fn uppermost(
    alloc: Global,
    meta: &Meta,
    scan: &Scan,
    is_drawn: &[bool],
    top: usize,
    method: usize,
) -> Result<Vec<usize>, AllocError> {
    let mut found = Vec::new(alloc);
    // Whether the method is drawn in the class or in one between it and the top one: bases have the lower numbers.
    let mut is_covered: Vec<bool> = Vec::new(alloc);
    for (class, object) in meta.classes().iter().enumerate() {
        let is_below = object
            .base
            .is_some_and(|base: usize| is_marked(is_covered.as_slice(), base));
        let member = Member::Method(method);
        let number = if is_below || !meta.inherits(class, top) {
            None
        } else {
            scan.number(Node { class, member })
        };
        match number {
            Some(number) if is_marked(is_drawn, number) => {
                found.push(number)?;
                is_covered.push(true)?;
            }
            _ => is_covered.push(is_below)?,
        }
    }
    Ok(found)
}

impl MakerFindings {
    /// The least certificate's ranks, or the reason why there is no certificate.
    fn of(alloc: Global, meta: &Meta) -> Result<MakerFindings, AllocError> {
        match make(alloc, meta) {
            Ok(certificate) => {
                let mut ranks = Vec::new(alloc);
                for line in certificate.lines.as_slice() {
                    ranks.push(line.rank)?;
                }
                Ok(MakerFindings {
                    verdict: CertificateVerdict::Bound(certificate.bound),
                    ranks,
                    chain: Items::new(alloc),
                })
            }
            Err(why) => MakerFindings::without(alloc, why),
        }
    }

    /// There is no certificate.
    fn without(alloc: Global, why: Why) -> Result<MakerFindings, AllocError> {
        let (word, chain) = match why {
            Why::Wire(_) => ("wire", Items::new(alloc)),
            Why::BodyType(_) => ("type", Items::new(alloc)),
            Why::Cycle(nodes) => ("cycle", nodes),
            Why::DestroyPath(nodes) => ("destroy", nodes),
            Why::TooHigh(nodes) => ("high", nodes),
            Why::Memory => return Err(AllocError),
        };
        Ok(MakerFindings {
            verdict: CertificateVerdict::No(word),
            ranks: Vec::new(alloc),
            chain,
        })
    }

    /// Whether the one node comes after the other in the chain.
    fn follows(&self, from: Node, to: Node) -> bool {
        let mut before: Option<Node> = None;
        for node in self.chain.as_slice() {
            if before == Some(from) && *node == to {
                return true;
            }
            before = Some(*node);
        }
        false
    }
}
