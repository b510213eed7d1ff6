//! The cycle that a search meets.

ghost use Rattle.std.specs.Prelude.{◌≡◌, ℕ, ◌<◌, ◌≤◌, ◌⊎◌, List, length, slice_index, IfOk};
ghost use Rattle.effect_scan.specs.Rows.{Edge};
ghost use Rattle.rank_graph.specs.Graphs.{IsToldCycle};
ghost use Rattle.rank_graph.specs.Searching.{OnPath, AreOnce, Climbs, LeadsRound};
ghost use Rattle.rank_graph.specs.Walks.{AreDistinct};

use crate::path::VisitPath;
use sqlite_items::Items;
use std::alloc::{AllocError, Global};

/// The nodes of the path from the target up to the top, from whose last one an edge leads to the target: told from the least of
/// them on back to it, each of the others once.
pub fn back_to(
    alloc: Global,
    mut path: VisitPath,
    top: usize,
    target: usize,
) -> Result<Items<usize>, AllocError>
    requires target { (target ≡ top) ⊎ OnPath target path }
    requires once { AreOnce top path }
    ensures { IfOk result (λ nodes. (rows : List (List ℕ)) →
        Climbs rows top path → Edge rows top target → IsToldCycle rows nodes) }
{
    let mut nodes = Vec::new(alloc);
    nodes.push(top)?;
    let mut current = top;
    while current != target {
        match path.pop() {
            Some(visit) => {
                current = visit.node;
                nodes.push(current)?;
            }
            None => unreachable!(),
        }
    }
    nodes.reverse();
    let told = from_least(alloc, nodes.as_slice())?;
    Ok(Items::from_vec(told))
}

/// The same cycle from its least node on back to it.
fn from_least(alloc: Global, nodes: &[usize]) -> Result<Vec<usize>, AllocError>
    requires { 0 < length nodes.now }
    ensures { IfOk result (λ told. (rows : List (List ℕ)) →
        LeadsRound rows nodes.now → AreDistinct nodes.now → IsToldCycle rows told.items) }
{
    let place = least_place(nodes);
    let mut told = Vec::new(alloc);
    told.extend_from_slice(&nodes[place..])?;
    told.extend_from_slice(&nodes[..place + 1])?;
    Ok(told)
}

/// The place of the least number.
fn least_place(nodes: &[usize]) -> usize
    requires { 0 < length nodes.now }
    ensures inside { result < length nodes.now }
    ensures least { (k : ℕ) → k < length nodes.now →
        slice_index nodes.now result ≤ slice_index nodes.now k }
{
    let mut place = 0;
    for k in 0..nodes.len() {
        if nodes[k] < nodes[place] {
            place = k;
        }
    }
    place
}
