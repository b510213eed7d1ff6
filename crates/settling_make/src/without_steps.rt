//! Programs whose edges lead back to no node: their certificates need no sets, and no steps.

ghost use Rattle.std.specs.Prelude.{IfOk, IfSome};
ghost use Rattle.effect_scan.specs.Scans.{IsScan};
ghost use Rattle.rank_graph.specs.Solutions.{rank_of, leads_of};
ghost use Rattle.rank_make.specs.Solved.{IsSolved, AreLow};
ghost use Rattle.settling_make.specs.Fits.{AreRanksAt};
ghost use Rattle.settling_make.specs.Makes.{IsMadeAlone};

use crate::ends::first_ending;
use crate::heights::each_itself;
use crate::highest::zeros;
use crate::limits::just_above;
use crate::lines::lines_of;
use effect_scan::{Scan, edges_join_nodes};
use meta_model::Meta;
use rank_graph::Solution;
use rank_make::{Why, first_high, rank_scan};
use settling::SettlingCertificate;
use sqlite_items::Items;
use std::alloc::{AllocError, Global};

/// The certificate of a program with this scan that has a certificate without steps, whose wires, literals, bodies and bindings are as
/// they should be: each node is a component of its own, and none is a set. `None` where edges lead back to a node, a chain has 257
/// nodes, or a slot or native may destroy its own object. The error is that memory was refused. Takes the time of a certificate without
/// steps.
pub fn flat_certificate(
    alloc: Global,
    meta: &Meta,
    scan: &Scan,
) -> Result<Option<SettlingCertificate>, AllocError>
    requires { IsScan meta.now scan.now }
    ensures { IfOk result (λ made. IfSome made (IsMadeAlone meta.now)) }
{
    match rank_scan(alloc, meta, scan) {
        Ok(solution) => with_ranks(alloc, meta, scan, &solution),
        Err(Why::Memory) => Err(AllocError),
        Err(_) => Ok(None),
    }
}

/// The same where the ranks of nodes are known, and the classes of the objects that may be destroyed from them.
fn with_ranks(
    alloc: Global,
    meta: &Meta,
    scan: &Scan,
    solution: &Solution,
) -> Result<Option<SettlingCertificate>, AllocError>
    requires scan { IsScan meta.now scan.now }
    requires solved { IsSolved scan.now (rank_of solution.now) (leads_of solution.now) }
    ensures { IfOk result (λ made. IfSome made (IsMadeAlone meta.now)) }
{
    // All edges are between nodes.
    edges_join_nodes(meta);
    let count = scan.nodes().len();
    if let Some(_high) = first_high(solution, count) {
        return Ok(None);
    }
    let numbers = each_itself(alloc, count)?;
    if let Some(_ending) = first_ending(meta, scan, numbers.as_slice(), solution) {
        return Ok(None);
    }
    let ranks = ranks_at(alloc, solution, count)?;
    let steps = zeros(alloc, count)?;
    let lines = lines_of(
        alloc,
        meta,
        scan,
        numbers.as_slice(),
        solution,
        ranks.as_slice(),
        steps.as_slice(),
    )?;
    Ok(Some(SettlingCertificate {
        bound: just_above(ranks.as_slice()),
        step: 0,
        lines,
        sets: Items::new(alloc),
    }))
}

/// The ranks of so many nodes. The error is that memory was refused.
fn ranks_at(alloc: Global, solution: &Solution, count: usize) -> Result<Items<u32>, AllocError>
    requires { AreLow count (rank_of solution.now) }
    ensures { IfOk result (AreRanksAt (rank_of solution.now) count) }
{
    let mut ranks = Items::new(alloc);
    for node in 0..count {
        ranks.push(solution.rank(node) as u32)?;
    }
    Ok(ranks)
}
