//! The maker of certificates.

ghost use Rattle.effect_scan.specs.Scans.{IsScan};
ghost use Rattle.rank_check.specs.Entries.{IsReady};
ghost use Rattle.rank_graph.specs.Solutions.{rank_of, leads_of};
ghost use Rattle.rank_make.specs.Makes.{Makes, ReadyOrReason};
ghost use Rattle.rank_make.specs.Ranked.{BoundsSolved, MakesBound, RanksReady};
ghost use Rattle.rank_make.specs.Solved.{IsSolved};

use crate::bounds::bound_of;
use crate::naming::lines;
use crate::ranking::{Ranks, rank};
use crate::reasons::{destroy_path, high_chain};
use crate::why::Why;
use effect_scan::{Scan, edges_join_nodes};
use meta_model::Meta;
use rank_check::Certificate;
use rank_graph::Solution;
use std::alloc::Global;
use type_check::{unfit_wire, untyped};

/// The least valid certificate of the program: its lines are those of the nodes in their order, each with the number of
/// edges of the longest chain from the node and the set of the classes of those objects that may be destroyed from there;
/// its bound is just above all ranks. Of a set is written, in the order of classes, `~E` for each class E in it that isn't
/// in the closure of one written before. No valid certificate has a smaller bound, a smaller rank of a node, or a set of a
/// node without one of these classes. Where no certificate is valid, the error is the first reason that holds:
/// `Wire`, where a wire's method doesn't fit its signal; `BodyType`, where a literal, a body or a binding isn't typed;
/// `Cycle`, where edges lead back to a node; `DestroyPath`, where they lead from a slot or native of a class C to a `~X`
/// whose closure holds C; `TooHigh`, where a chain has 257 nodes. `Memory` comes only where a growth of memory was
/// refused. Beside the scan, time is linear in the nodes and edges for each 128 classes, in nodes times classes, and in the
/// closures of the classes that are written.
pub fn make(alloc: Global, meta: &Meta) -> Result<Certificate, Why>
    ensures { Makes meta.now result }
{
    let (bound, ranks) = make_bound(alloc, meta)?;
    let lines = lines(alloc, meta, &ranks.scan, &ranks.solution)?;
    Ok(Certificate { bound, lines })
}

/// The bound of the same certificate, with the program's ranks, of which `line_of` makes its lines one by one: so they needn't
/// be in memory together. The errors are those of `make`.
pub fn make_bound(alloc: Global, meta: &Meta) -> Result<(u32, Ranks), Why>
    ensures { MakesBound meta.now result }
{
    let ranks = rank_ready(alloc, meta)?;
    let bound = bound_solved(alloc, meta, &ranks.scan, &ranks.solution)?;
    Ok((bound, ranks))
}

/// The ranks of a program whose wires, literals, bodies and bindings are as they should be, or the first reason of these and
/// of cycles.
fn rank_ready(alloc: Global, meta: &Meta) -> Result<Ranks, Why>
    ensures { RanksReady meta.now result }
{
    judge_program(alloc, meta)?;
    match rank(alloc, meta) {
        Ok(ranks) => Ok(ranks),
        Err(why) => Err(why),
    }
}

/// The reasons that the program's wires, literals, bodies and bindings give.
fn judge_program(alloc: Global, meta: &Meta) -> Result<(), Why>
    ensures { ReadyOrReason meta.now result }
{
    if let Some(wire) = unfit_wire(meta) {
        return Err(Why::Wire(wire));
    }
    match untyped(alloc, meta)? {
        Some(spot) => Err(Why::BodyType(spot)),
        None => Ok(()),
    }
}

/// The bound of the certificate, or the reason that ranks and sets give.
fn bound_solved(alloc: Global, meta: &Meta, scan: &Scan, solution: &Solution) -> Result<u32, Why>
    requires scan { IsScan meta.now scan.now }
    requires ready { IsReady meta.now }
    requires solved { IsSolved scan.now (rank_of solution.now) (leads_of solution.now) }
    ensures { BoundsSolved meta.now scan.now (rank_of solution.now) (leads_of solution.now) result }
{
    // All edges are between nodes, and names are those of one member.
    edges_join_nodes(meta);
    let _classes = meta.classes();
    if let Some(nodes) = destroy_path(alloc, meta, scan, solution)? {
        return Err(Why::DestroyPath(nodes));
    }
    if let Some(nodes) = high_chain(alloc, meta, scan, solution)? {
        return Err(Why::TooHigh(nodes));
    }
    let bound = bound_of(solution, scan.nodes().len());
    Ok(bound)
}
