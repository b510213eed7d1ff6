//! Walks along edges that no valid certificate allows.

ghost use Rattle.std.specs.Prelude.{length, IfOk, MatchOption};
ghost use Rattle.effect_scan.specs.Scans.{IsScan};
ghost use Rattle.effect_scan.specs.declared.node.Node.{Node};
ghost use Rattle.rank_graph.specs.Solutions.{rank_of, leads_of};
ghost use Rattle.rank_make.specs.Walks.{IsDestroyPath, IsHighChain};
ghost use Rattle.rank_make.specs.Solved.{IsSolved, EndsItself, NoneEnds, AreLow};

use crate::bounds::first_high;
use crate::rows::{nodes_at, own_rows};
use effect_scan::{Node, Scan};
use meta_model::Meta;
use rank_check::{MOST_BOUND, has_body};
use rank_graph::{Solution, chain_from, path_to};
use sqlite_items::Items;
use std::alloc::{AllocError, Global};

/// A path from a slot or native to the destruction of an object of its class, if there is one. Its error is that memory
/// was refused.
pub fn destroy_path(
    alloc: Global,
    meta: &Meta,
    scan: &Scan,
    solution: &Solution,
) -> Result<Option<Items<Node>>, AllocError>
    requires scan { IsScan meta.now scan.now }
    requires solved { IsSolved scan.now (rank_of solution.now) (leads_of solution.now) }
    ensures { IfOk result (λ found. MatchOption found (NoneEnds meta.now (leads_of solution.now)) (IsDestroyPath meta.now)) }
{
    let Some(from) = first_ending(meta, scan, solution) else {
        return Ok(None);
    };
    let class = scan.nodes()[from].class;
    let own = own_rows(alloc, scan)?;
    let numbers = path_to(alloc, scan.rows(), own.as_slice(), solution, from, class)?;
    let nodes = nodes_at(alloc, scan, numbers.as_slice())?;
    Ok(Some(nodes))
}

/// The number of the first slot or native that may destroy an object of its own class.
fn first_ending(meta: &Meta, scan: &Scan, solution: &Solution) -> Option<usize>
    requires { IsScan meta.now scan.now }
    ensures { MatchOption result
        (NoneEnds meta.now (leads_of solution.now))
        (λ n. (x : Node) × EndsItself meta.now (leads_of solution.now) n x) }
{
    for (number, node) in scan.nodes().iter().enumerate() {
        if solution.leads_to(number, node.class) && has_body(meta, *node) {
            return Some(number);
        }
    }
    None
}

/// A chain of more nodes than the greatest bound, if there is one. Its error is that memory was refused.
pub fn high_chain(
    alloc: Global,
    meta: &Meta,
    scan: &Scan,
    solution: &Solution,
) -> Result<Option<Items<Node>>, AllocError>
    requires scan { IsScan meta.now scan.now }
    requires solved { IsSolved scan.now (rank_of solution.now) (leads_of solution.now) }
    ensures { IfOk result (λ found.
        MatchOption found (AreLow (length scan.now.nodes) (rank_of solution.now)) (IsHighChain meta.now)) }
{
    let Some(from) = first_high(solution, scan.nodes().len()) else {
        return Ok(None);
    };
    let numbers = chain_from(alloc, scan.rows(), solution, from, MOST_BOUND as usize)?;
    let nodes = nodes_at(alloc, scan, numbers.as_slice())?;
    Ok(Some(nodes))
}
