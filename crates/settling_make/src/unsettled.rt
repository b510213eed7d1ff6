//! Circles with a node that carries no value, or with a way that doesn't hand its value on.

ghost use Rattle.std.specs.Prelude.{MatchOption};
ghost use Rattle.effect_scan.specs.Nodes.{nodes_of, IsAt};
ghost use Rattle.effect_scan.specs.Rows.{Edge};
ghost use Rattle.effect_scan.specs.Scans.{IsScan};
ghost use Rattle.settling_make.specs.Circles.{DoesNotSettle, EdgesSettle};
ghost use Rattle.settling_make.specs.Components.{AreComponents};
ghost use Rattle.settling_make.specs.Inside.{EdgeHandsOn, EdgesHandOn};

use crate::circles::Circle;
use crate::components::Components;
use effect_scan::{Node, Scan, edges_join_nodes};
use meta_model::Meta;
use settling::{carries, hand_on};

/// Of a program with this scan, whose edges have these components: a circle that doesn't settle since one of its nodes carries no
/// value, or a way between two of them doesn't hand it on. `None` where along each edge that is a part of a circle a value is
/// carried and handed on. Takes time linear in the nodes and edges, and what `hand_on` takes for each edge inside a component.
pub fn first_unsettled(meta: &Meta, scan: &Scan, found: &Components) -> Option<Circle>
    requires scan { IsScan meta.now scan.now }
    requires found { AreComponents scan.now.rows found.now }
    ensures { MatchOption result (EdgesSettle meta.now) (DoesNotSettle meta.now) }
{
    // All edges are between nodes.
    edges_join_nodes(meta);
    for (number, node) in scan.nodes().iter().enumerate() {
        match unsettled_at(meta, scan, found, number, *node) {
            Some(circle) => return Some(circle),
            None => {}
        }
    }
    None
}

/// The same of the edges from this node, which has this number.
fn unsettled_at(
    meta: &Meta,
    scan: &Scan,
    found: &Components,
    number: usize,
    node: Node,
) -> Option<Circle>
    requires scan { IsScan meta.now scan.now }
    requires found { AreComponents scan.now.rows found.now }
    requires node { IsAt (nodes_of meta.now) node number }
    ensures { MatchOption result
        (EdgesHandOn meta.now scan.now.rows found.now.numbers number node)
        (DoesNotSettle meta.now) }
{
    for target in scan.targets(number) {
        match unsettled_edge(meta, scan, found, number, node, *target) {
            Some(circle) => return Some(circle),
            None => {}
        }
    }
    None
}

/// The same of the edge to the node of another number.
fn unsettled_edge(
    meta: &Meta,
    scan: &Scan,
    found: &Components,
    number: usize,
    node: Node,
    target: usize,
) -> Option<Circle>
    requires scan { IsScan meta.now scan.now }
    requires found { AreComponents scan.now.rows found.now }
    requires node { IsAt (nodes_of meta.now) node number }
    requires edge { Edge scan.now.rows number target }
    ensures { MatchOption result
        (EdgeHandsOn meta.now found.now.numbers number node target)
        (DoesNotSettle meta.now) }
{
    if found.number(number) != found.number(target) {
        return None;
    }
    let to = scan.nodes()[target];
    if !carries(meta, node) {
        return Some(Circle::NoValue(node, to));
    }
    if !hand_on(meta, node, to) {
        return Some(Circle::OtherValue(node, to));
    }
    None
}
