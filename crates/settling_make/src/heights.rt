//! Chains inside components of edges that lead to no property, and circles of such edges.

ghost use Rattle.std.specs.Prelude.{◌≡◌, ◌<◌, ◌↔◌, ℕ, [], length, replicate, IfOk, IsTrue, MatchResult};
ghost use Rattle.effect_scan.specs.Rows.{Edge};
ghost use Rattle.effect_scan.specs.Scans.{IsScan};
ghost use Rattle.rank_graph.specs.Solutions.{rank_of};
ghost use Rattle.settling.specs.Settles.{IsProperty};
ghost use Rattle.settling_make.specs.Circles.{DoesNotSettle, AreHeights};
ghost use Rattle.settling_make.specs.Components.{AreComponents};
ghost use Rattle.settling_make.specs.Inside.{AreEdgesInside, IsSilentEnd, AreSilentEnds, AreSilent, AreThemselves};

use crate::circles::Circle;
use crate::components::Components;
use effect_scan::{Member, Node, Scan, Targets, edges_join_nodes};
use meta_model::Meta;
use rank_graph::{Solution, Unranked, solve};
use sqlite_items::Items;
use std::alloc::{AllocError, Global};

/// Of a program with this scan, whose edges have these components: as the ranks of the nodes, how many edges the longest chain along
/// circles has without an edge into a property; or a circle that doesn't settle since it has no property. Takes time linear in the
/// nodes and edges. The outer error is that memory was refused.
pub fn heights_of(
    alloc: Global,
    meta: &Meta,
    scan: &Scan,
    found: &Components,
) -> Result<Result<Solution, Circle>, AllocError>
    requires scan { IsScan meta.now scan.now }
    requires found { AreComponents scan.now.rows found.now }
    ensures { IfOk result (λ told. MatchResult told
        (λ solution. AreHeights meta.now (rank_of solution))
        (DoesNotSettle meta.now)) }
{
    // All edges are between nodes.
    edges_join_nodes(meta);
    let rows = silent_rows(alloc, scan, found)?;
    let own = no_rows(alloc, rows.len())?;
    let alike = each_itself(alloc, rows.len())?;
    match solve(alloc, rows.as_slice(), alike.as_slice(), own.as_slice(), 0) {
        Ok(solution) => Ok(Ok(solution)),
        Err(Unranked::Cycle(numbers)) => {
            let first = numbers.as_slice()[0];
            let node = scan.nodes()[first];
            Ok(Err(Circle::NoProperty(node)))
        }
        Err(Unranked::Memory) => Err(AllocError),
    }
}

/// For each node the ends of the edges from it inside its component that lead to no property. The error is that memory was refused.
fn silent_rows(alloc: Global, scan: &Scan, found: &Components) -> Result<Items<Targets>, AllocError>
    requires { AreEdgesInside scan.now.rows scan.now.nodes }
    ensures { IfOk result (AreSilent scan.now.nodes scan.now.rows found.now.numbers) }
{
    let mut rows = Items::new(alloc);
    for number in 0..scan.rows().len() {
        let row = silent_row(alloc, scan, found, number)?;
        rows.push(row)?;
    }
    Ok(rows)
}

/// The ends of such edges from this node. The error is that memory was refused.
fn silent_row(
    alloc: Global,
    scan: &Scan,
    found: &Components,
    number: usize,
) -> Result<Targets, AllocError>
    requires { AreEdgesInside scan.now.rows scan.now.nodes }
    ensures { IfOk result (AreSilentEnds scan.now.nodes scan.now.rows found.now.numbers number) }
{
    let mut row = Targets::new();
    for target in scan.targets(number) {
        if is_silent(scan, found, number, *target) {
            row.add(alloc, *target)?;
        }
    }
    Ok(row)
}

/// Whether an edge between these nodes lies inside a component and leads to no property.
pub fn is_silent(scan: &Scan, found: &Components, number: usize, target: usize) -> bool
    requires { target < length scan.now.nodes }
    ensures { IsTrue result ↔ IsSilentEnd scan.now.nodes found.now.numbers number target }
{
    found.number(number) == found.number(target) && !is_property(scan.nodes()[target])
}

/// Whether the node is a property.
fn is_property(node: Node) -> bool
    ensures { IsTrue result ↔ IsProperty node }
{
    match node.member {
        Member::Property(_) => true,
        Member::Method(_) | Member::Destruction => false,
    }
}

/// So many empty rows. The error is that memory was refused.
fn no_rows(alloc: Global, count: usize) -> Result<Items<Items<usize>>, AllocError>
    ensures { IfOk result (λ rows. rows ≡ replicate count []) }
{
    let mut rows = Items::new(alloc);
    for _row in 0..count {
        rows.push(Items::new(alloc))?;
    }
    Ok(rows)
}

/// Each of so many numbers, in order. The error is that memory was refused.
pub fn each_itself(alloc: Global, count: usize) -> Result<Items<usize>, AllocError>
    ensures { IfOk result (AreThemselves count) }
{
    let mut numbers = Items::new(alloc);
    for number in 0..count {
        numbers.push(number)?;
    }
    Ok(numbers)
}
