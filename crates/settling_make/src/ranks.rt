//! The least ranks of nodes, component by component.

ghost use Rattle.std.specs.Prelude.{◌≡◌, ◌↔◌, ◌<◌, ◌≤◌, ◌+◌, ℕ, List, length, IfOk, IsTrue, MatchBool, MatchOption};
ghost use Rattle.std.specs.List.{Contains};
ghost use Rattle.effect_scan.specs.Rows.{row};
ghost use Rattle.rank_check.specs.Valid.{most_bound};
ghost use Rattle.rank_graph.specs.Solutions.{rank_of};
ghost use Rattle.settling_make.specs.Fits.{margin_of, at_place, Falls, AreLeastRanks, RanksAreHigh};
ghost use Rattle.settling_make.specs.Ranking.{AreGiven, AreByHeight, RankedTo, IsNeed, AreNeeds, IsFloor, AreRaised, IsHighest};

use crate::components::Components;
use crate::heights::is_silent;
use crate::highest::{highest_of, over, zeros};
use crate::margin::Margin;
use effect_scan::{Scan, row_at};
use rank_check::MOST_BOUND;
use rank_graph::Solution;
use sqlite_items::Items;
use std::alloc::{AllocError, Global};

/// The least ranks of nodes with these components, which ask this; `None` where one isn't below the greatest bound. The heights are
/// those of the chains inside components without an edge into a property. Takes time linear in the nodes and edges, but for the sorting of
/// each component. The error is that memory was refused.
pub fn ranks_of(
    alloc: Global,
    scan: &Scan,
    found: &Components,
    heights: &Solution,
    margins: &[Margin],
) -> Result<Option<Items<u32>>, AllocError>
    requires { AreGiven scan.now.nodes scan.now.rows found.now (rank_of heights.now) margins.now }
    ensures { IfOk result (λ told. MatchOption told
        (RanksAreHigh scan.now.nodes scan.now.rows found.now.numbers margins.now)
        (AreLeastRanks scan.now.nodes scan.now.rows found.now.numbers margins.now)) }
{
    let mut ranks = zeros(alloc, scan.rows().len())?;
    for component in 0..margins.len() {
        let members = by_height(alloc, heights, row_at(found.sets.as_slice(), component))?;
        if !rank_component(
            scan,
            found,
            heights,
            margins,
            component,
            members.as_slice(),
            &mut ranks,
        ) {
            return Ok(None);
        }
    }
    Ok(Some(ranks))
}

/// The nodes, those of a lesser height before the others. The error is that memory was refused.
fn by_height(
    alloc: Global,
    heights: &Solution,
    members: &[usize],
) -> Result<Items<usize>, AllocError>
    ensures { IfOk result (AreByHeight members.now (rank_of heights.now)) }
{
    let mut sorted = Vec::from_slice(alloc, members)?;
    sorted.sort_by_key(|member| heights.rank(*member))?;
    Ok(Items::from_vec(sorted))
}

/// Ranks the nodes of this component, where those before it are ranked; or tells by `false` that a rank isn't below the greatest bound.
fn rank_component(
    scan: &Scan,
    found: &Components,
    heights: &Solution,
    margins: &[Margin],
    component: usize,
    members: &[usize],
    ranks: &mut Items<u32>,
) -> bool
    requires given { AreGiven scan.now.nodes scan.now.rows found.now (rank_of heights.now) margins.now }
    requires component { component < length margins.now }
    requires members { AreByHeight (row found.now.sets component) (rank_of heights.now) members.now }
    requires ranked { RankedTo scan.now.nodes scan.now.rows found.now.numbers margins.now component ranks.old }
    ensures { MatchBool result
        (RankedTo scan.now.nodes scan.now.rows found.now.numbers margins.now (component + 1) ranks.new)
        (RanksAreHigh scan.now.nodes scan.now.rows found.now.numbers margins.now) }
{
    let margin = margins[component];
    if !need_all(scan, found, heights, margins, component, members, ranks) {
        return false;
    }
    let highest = highest_of(ranks.as_slice(), members);
    let floor = floor_of(highest, margin);
    raise_all(heights, members, floor, ranks)
}

/// Gives each of these nodes the least rank above those of the nodes that it has to fall to, or tells by `false` that one isn't below
/// the greatest bound.
fn need_all(
    scan: &Scan,
    found: &Components,
    heights: &Solution,
    margins: &[Margin],
    component: usize,
    members: &[usize],
    ranks: &mut Items<u32>,
) -> bool
    requires given { AreGiven scan.now.nodes scan.now.rows found.now (rank_of heights.now) margins.now }
    requires component { component < length margins.now }
    requires members { AreByHeight (row found.now.sets component) (rank_of heights.now) members.now }
    requires ranked { RankedTo scan.now.nodes scan.now.rows found.now.numbers margins.now component ranks.old }
    ensures { MatchBool result
        (AreNeeds scan.now.nodes scan.now.rows found.now.numbers margins.now component members.now ranks.old ranks.new)
        (RanksAreHigh scan.now.nodes scan.now.rows found.now.numbers margins.now) }
{
    let least = margins[component].least;
    for member in members {
        match need_of(scan, found, ranks.as_slice(), *member, least) {
            Some(need) => ranks.set(*member, need),
            None => return false,
        }
    }
    true
}

/// The least rank that is at least so great, and above those of the nodes that this node has to fall to; `None` where it isn't below the
/// greatest bound.
fn need_of(scan: &Scan, found: &Components, ranks: &[u32], member: usize, least: u32) -> Option<u32>
    requires inside { (b : ℕ) → Contains (row scan.now.rows member) b → b < length ranks.now }
    requires nodes { length scan.now.nodes ≡ length ranks.now }
    requires low { (a : ℕ) → at_place ranks.now a < most_bound }
    ensures { MatchOption result
        ((need : ℕ) × IsNeed scan.now.nodes scan.now.rows found.now.numbers ranks.now member least need × (most_bound ≤ need))
        (λ need. IsNeed scan.now.nodes scan.now.rows found.now.numbers ranks.now member least need × (need < most_bound)) }
{
    let mut need = least;
    for target in scan.targets(member) {
        if falls(scan, found, member, *target) {
            need = over(need, ranks[*target]);
        }
    }
    if need < MOST_BOUND { Some(need) } else { None }
}

/// Whether the rank has to fall along an edge from the one node to the other.
fn falls(scan: &Scan, found: &Components, number: usize, target: usize) -> bool
    requires { target < length scan.now.nodes }
    ensures { IsTrue result ↔ Falls scan.now.nodes found.now.numbers number target }
{
    found.number(number) != found.number(target) || is_silent(scan, found, number, target)
}

/// The least rank of a component whose nodes have these ranks at least, the highest of which this is.
fn floor_of(highest: u32, margin: Margin) -> u32
    requires highest { highest < most_bound }
    requires least { margin.least ≤ 1 }
    ensures floor { (values members : List ℕ) → IsHighest values members highest → 0 < margin.round → IsFloor values members margin result }
    ensures low { result ≤ most_bound }
{
    let floor = (highest + 1).saturating_sub(margin.round);
    if floor < margin.least {
        margin.least
    } else {
        floor
    }
}

/// Raises the rank of each of these nodes to what its height is above the floor, or tells by `false` that this isn't below the greatest
/// bound.
fn raise_all(heights: &Solution, members: &[usize], floor: u32, ranks: &mut Items<u32>) -> bool
    requires inside { (a : ℕ) → Contains members.now a → a < length ranks.old }
    requires heights { (a : ℕ) → Contains members.now a → rank_of heights.now a < most_bound }
    requires low { (a : ℕ) → at_place ranks.old a < most_bound }
    requires floor { floor ≤ most_bound }
    ensures { MatchBool result
        (AreRaised members.now floor (rank_of heights.now) ranks.old ranks.new)
        ((a : ℕ) × Contains members.now a × (most_bound ≤ floor + rank_of heights.now a)) }
{
    for member in members {
        let raised = floor + heights.rank(*member) as u32;
        if raised >= MOST_BOUND {
            return false;
        }
        if ranks.as_slice()[*member] < raised {
            ranks.set(*member, raised);
        }
    }
    true
}
