//! Paths and chains along edges.

ghost use Rattle.std.specs.Prelude.{◌≡◌, ℕ, ◌≤◌, true, false, IfOk, MatchOption};
ghost use Rattle.std.specs.List.{Contains};
ghost use Rattle.effect_scan.specs.Rows.{Edge};
ghost use Rattle.rank_graph.specs.Graphs.{IsPathTo};
ghost use Rattle.rank_graph.specs.Solutions.{AreRanks, AreClasses, rank_of, leads_of};
ghost use Rattle.rank_graph.specs.Walks.{IsChain};

use crate::solution::Solution;
use effect_scan::{Targets, row_at, targets_at};
use sqlite_items::Items;
use std::alloc::{AllocError, Global};

/// A path along edges from the node to one that has the class itself: each node has the classes of its row of `own`. None of
/// its nodes appears twice. Its error is that memory was refused.
pub fn path_to(
    alloc: Global,
    rows: &[Targets],
    own: &[Items<usize>],
    solution: &Solution,
    from: usize,
    class: usize,
) -> Result<Items<usize>, AllocError>
    requires ranks { AreRanks rows.now (rank_of solution.now) }
    requires classes { AreClasses rows.now own.now (leads_of solution.now) }
    requires leads { leads_of solution.now from class ≡ true }
    ensures { IfOk result (IsPathTo rows.now own.now class from) }
{
    let mut nodes = Items::new(alloc);
    nodes.push(from)?;
    let mut at = from;
    while !row_at(own, at).contains(&class) {
        match next_leading(targets_at(rows, at), solution, class) {
            Some(node) => {
                at = node;
                nodes.push(at)?;
            }
            None => unreachable!(),
        }
    }
    Ok(nodes)
}

/// The first of the nodes that leads to the class.
fn next_leading(nodes: &[usize], solution: &Solution, class: usize) -> Option<usize>
    ensures { MatchOption result
        ((b : ℕ) → Contains nodes.now b → leads_of solution.now b class ≡ false)
        (λ b. Contains nodes.now b × (leads_of solution.now b class ≡ true)) }
{
    for node in nodes {
        if solution.leads_to(*node, class) {
            return Some(*node);
        }
    }
    None
}

/// A chain from the node of this many edges, of which there is one: none of its nodes appears twice. Its error is that
/// memory was refused.
pub fn chain_from(
    alloc: Global,
    rows: &[Targets],
    solution: &Solution,
    from: usize,
    count: usize,
) -> Result<Items<usize>, AllocError>
    requires ranks { AreRanks rows.now (rank_of solution.now) }
    requires count { count ≤ rank_of solution.now from }
    ensures { IfOk result (IsChain (Edge rows.now) count from) }
{
    let mut nodes = Items::new(alloc);
    nodes.push(from)?;
    let mut at = from;
    for _edge in 0..count {
        let rank = solution.rank(at);
        match next_ranked(targets_at(rows, at), solution, rank - 1) {
            Some(node) => {
                at = node;
                nodes.push(at)?;
            }
            None => unreachable!(),
        }
    }
    Ok(nodes)
}

/// The first of the nodes that has this rank.
fn next_ranked(nodes: &[usize], solution: &Solution, rank: usize) -> Option<usize>
    ensures { MatchOption result
        ((b : ℕ) → Contains nodes.now b → rank_of solution.now b ≡ rank → ⊥)
        (λ b. Contains nodes.now b × (rank_of solution.now b ≡ rank)) }
{
    for node in nodes {
        if solution.rank(*node) == rank {
            return Some(*node);
        }
    }
    None
}
