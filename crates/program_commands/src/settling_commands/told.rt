//! Why no settling certificate was made, as `certify` tells reasons: with the nodes that show it.

ghost use Rattle.std.specs.Prelude.{◌≡◌, IfOk, Err};
ghost use Rattle.effect_scan.specs.Scans.{IsScan};
ghost use Rattle.rank_make.specs.Walks.{LeadsToDestruction};
ghost use Rattle.settling_make.specs.Circles.{DoesNotSettle, LeadsRound, LeadsToEnd};
ghost use Rattle.rank_make.specs.declared.why.Why.TheVariants.{Memory};
ghost use Rattle.settling_make.specs.Makes.{Makes};
ghost use Rattle.settling_make.specs.declared.why.Why.TheVariants as unmade;
ghost use Rattle.program_commands.specs.Settling.{GoesBy, IsToldReason, IsUnsettled};

use crate::node_ways::{destructions, no_flags, nodes_between, nodes_to, properties};
use effect_scan::{Node, Scan, edges_join_nodes};
use meta_model::Meta;
use rank_make::Why;
use settling_make::{Circle, Why as Unmade};
use sqlite_items::Items;
use std::alloc::{AllocError, Global};

/// The reason why no settling certificate was made of this program, with the nodes that show it; or that memory was refused.
pub fn told_reason(alloc: Global, meta: &Meta, why: Unmade) -> Why
    requires { Makes meta.now (Err why) }
    ensures told { IsToldReason meta.now result }
    ensures memory { why ≡ unmade.Memory → result ≡ Memory }
{
    match why {
        Unmade::Wire(place) => Why::Wire(place),
        Unmade::BodyType(spot) => Why::BodyType(spot),
        Unmade::Circling(circle) => match circle_nodes(alloc, meta, circle) {
            Ok(nodes) => Why::Cycle(nodes),
            Err(_) => Why::Memory,
        },
        Unmade::Ending(node) => match ending_nodes(alloc, meta, node) {
            Ok(nodes) => Why::DestroyPath(nodes),
            Err(_) => Why::Memory,
        },
        Unmade::TooLong(node) => match Items::from_slice(alloc, &[node]) {
            Ok(nodes) => Why::TooHigh(nodes),
            Err(_) => Why::Memory,
        },
        Unmade::TooHigh | Unmade::TooSteep => Why::TooHigh(Items::new(alloc)),
        Unmade::Memory => Why::Memory,
    }
}

/// The nodes of a circle that doesn't settle, from one where that is seen and back to it. The error is that memory was refused.
fn circle_nodes(alloc: Global, meta: &Meta, circle: Circle) -> Result<Items<Node>, AllocError>
    requires { DoesNotSettle meta.now circle }
    ensures { IfOk result (IsUnsettled meta.now) }
{
    // All edges are between nodes.
    edges_join_nodes(meta);
    let scan = Scan::of(alloc, meta)?;
    match circle {
        Circle::NoValue(node, _) => {
            let closed = no_flags(alloc, scan.nodes().len())?;
            nodes_between(alloc, meta, &scan, closed, node, node)
        }
        Circle::OtherValue(node, next) => nodes_along(alloc, meta, &scan, node, next),
        Circle::NoProperty(node) => {
            let closed = properties(alloc, &scan)?;
            nodes_between(alloc, meta, &scan, closed, node, node)
        }
    }
}

/// The nodes of a circle from this one by that one and back. The error is that memory was refused.
fn nodes_along(
    alloc: Global,
    meta: &Meta,
    scan: &Scan,
    from: Node,
    next: Node,
) -> Result<Items<Node>, AllocError>
    requires scan { IsScan meta.now scan.now }
    requires round { LeadsRound meta.now from next }
    ensures { IfOk result (GoesBy meta.now from next) }
{
    // All edges are between nodes.
    edges_join_nodes(meta);
    let mut nodes = Items::from_slice(alloc, &[from])?;
    if from == next {
        nodes.push(next)?;
        return Ok(nodes);
    }
    let closed = no_flags(alloc, scan.nodes().len())?;
    nodes.append(nodes_between(alloc, meta, scan, closed, next, from)?)?;
    Ok(nodes)
}

/// The nodes on a way from a slot or native to the deletion of its own object. The error is that memory was refused.
fn ending_nodes(alloc: Global, meta: &Meta, node: Node) -> Result<Items<Node>, AllocError>
    requires { LeadsToEnd meta.now node }
    ensures { IfOk result (LeadsToDestruction meta.now) }
{
    // All edges are between nodes.
    edges_join_nodes(meta);
    let scan = Scan::of(alloc, meta)?;
    let closed = no_flags(alloc, scan.nodes().len())?;
    let ends = destructions(alloc, &scan, node.class)?;
    nodes_to(alloc, meta, &scan, closed, ends.as_slice(), node)
}
