//! Slots and natives that may destroy their own object.

ghost use Rattle.std.specs.Prelude.{IfOk, MatchOption};
ghost use Rattle.effect_scan.specs.Scans.{IsScan};
ghost use Rattle.rank_graph.specs.Solutions.{leads_of};
ghost use Rattle.settling_make.specs.Circles.{LeadsToEnd, NoneEnds, AreDestroyed};
ghost use Rattle.settling_make.specs.Collected.{LeadsOut, AreCollected};
ghost use Rattle.settling_make.specs.Components.{AreComponents};

use crate::components::{Components, number_at};
use crate::heights::each_itself;
use crate::outer::outer_own;
use effect_scan::{Node, Scan, Targets, edges_join_nodes};
use meta_model::Meta;
use rank_check::has_body;
use rank_graph::{Solution, Unranked, solve};
use std::alloc::{AllocError, Global};

/// Of a program with this scan, whose edges have these components, which lead to these: of each component, by number, the classes of
/// the objects that may be destroyed from its nodes. Takes time linear in the nodes and edges, for each 128 classes. The error is that memory was refused.
pub fn destroyed(
    alloc: Global,
    meta: &Meta,
    scan: &Scan,
    found: &Components,
    outer: &[Targets],
) -> Result<Solution, AllocError>
    requires scan { IsScan meta.now scan.now }
    requires found { AreComponents scan.now.rows found.now }
    requires outer { AreCollected (LeadsOut scan.now.rows found.now.numbers) found.now.sets outer.now }
    ensures { IfOk result (λ solution. AreDestroyed meta.now found.now.numbers (leads_of solution)) }
{
    // All edges are between nodes.
    edges_join_nodes(meta);
    let own = outer_own(alloc, scan, found)?;
    let alike = each_itself(alloc, outer.len())?;
    let classes = meta.classes().len();
    match solve(alloc, outer, alike.as_slice(), own.as_slice(), classes) {
        Ok(solution) => Ok(solution),
        // Along these edges the numbers of components fall.
        Err(Unranked::Cycle(_)) => unreachable!(),
        Err(Unranked::Memory) => Err(AllocError),
    }
}

/// The first slot or native, by the order of nodes, that may destroy an object of its own class: edges lead from it to a `~X` whose
/// closure has that class. What may be destroyed from the nodes is known, by these numbers of nodes.
pub fn first_ending(
    meta: &Meta,
    scan: &Scan,
    numbers: &[usize],
    destroyed: &Solution,
) -> Option<Node>
    requires scan { IsScan meta.now scan.now }
    requires destroyed { AreDestroyed meta.now numbers.now (leads_of destroyed.now) }
    ensures { MatchOption result (NoneEnds meta.now) (LeadsToEnd meta.now) }
{
    // All edges are between nodes.
    edges_join_nodes(meta);
    for (place, node) in scan.nodes().iter().enumerate() {
        if destroyed.leads_to(number_at(numbers, place), node.class) && has_body(meta, *node) {
            return Some(*node);
        }
    }
    None
}
