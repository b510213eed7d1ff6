//! The sets of a settling certificate.

ghost use Rattle.std.specs.Prelude.{◌≡◌, ◌<◌, ◌≤◌, ℕ, length, IfOk, IsTrue, MatchBool, MatchOption};
ghost use Rattle.std.specs.List.{Contains, AllZip};
ghost use Rattle.effect_scan.specs.Rows.{row, Edge};
ghost use Rattle.effect_scan.specs.Scans.{IsScan};
ghost use Rattle.rank_check.specs.Valid.{most_bound};
ghost use Rattle.rank_graph.specs.Solutions.{rank_of};
ghost use Rattle.settling_make.specs.Components.{AreComponents, number_of};
ghost use Rattle.settling_make.specs.Sets.{HasInside, IsRound, IsNameOf, AreSetsOf};

use crate::components::Components;
use crate::highest::over;
use certificate_lang::NodeName;
use effect_scan::{Scan, row_at};
use meta_model::Meta;
use rank_check::MOST_BOUND;
use rank_graph::Solution;
use rank_make::node_name;
use settling::SettlingSet;
use sqlite_items::Items;
use std::alloc::{AllocError, Global};

/// The sets of a certificate.
pub struct Sets {
    /// The sets, each with its round and its members.
    pub sets: Items<SettlingSet>,
    /// For each component the place of its set, or `None` where no edge leads from one of its nodes to another or itself.
    pub places: Items<Option<usize>>,
}

impl Drop for Sets {
    fn drop(self) {
        let Sets { sets: _, places: _ } = self;
    }
}

impl Sets {
    /// The sets.
    pub fn into_sets(self) -> Items<SettlingSet>
        ensures { result ≡ self.sets }
    {
        let Sets { sets, places: _ } = self;
        sets
    }
}

/// The sets of a program with this scan, these components and heights: the components with an edge inside, each with the least round
/// above its heights. `None` where a height isn't below the greatest bound. Takes time linear in the nodes and edges. The error is
/// that memory was refused.
pub fn sets_of(
    alloc: Global,
    meta: &Meta,
    scan: &Scan,
    found: &Components,
    heights: &Solution,
) -> Result<Option<Sets>, AllocError>
    requires scan { IsScan meta.now scan.now }
    requires found { AreComponents scan.now.rows found.now }
    ensures { IfOk result (λ told. MatchOption told
        ((a : ℕ) × (a < length scan.now.rows) × (most_bound ≤ rank_of heights.now a))
        (AreSetsOf meta.now scan.now.rows found.now (rank_of heights.now))) }
{
    let mut sets = Items::new(alloc);
    let mut places = Items::new(alloc);
    for component in 0..found.sets.len() {
        let members = row_at(found.sets.as_slice(), component);
        if has_inside(scan, found, component, members) {
            match round_of(heights, members) {
                Some(round) => {
                    let members = names_of(alloc, meta, scan, members)?;
                    places.push(Some(sets.len()))?;
                    sets.push(SettlingSet { round, members })?;
                }
                None => return Ok(None),
            }
        } else {
            places.push(None)?;
        }
    }
    Ok(Some(Sets { sets, places }))
}

/// Whether an edge leads from one of these nodes to a node of this component.
fn has_inside(scan: &Scan, found: &Components, component: usize, members: &[usize]) -> bool
    ensures { MatchBool result
        (HasInside scan.now.rows found.now.numbers component members.now)
        (HasInside scan.now.rows found.now.numbers component members.now → ⊥) }
{
    for member in members {
        if leads_inside(scan, found, component, *member) {
            return true;
        }
    }
    false
}

/// Whether an edge leads from this node to a node of this component.
fn leads_inside(scan: &Scan, found: &Components, component: usize, member: usize) -> bool
    ensures { MatchBool result
        ((to : ℕ) × Edge scan.now.rows member to × (number_of found.now.numbers to ≡ component))
        ((to : ℕ) → Edge scan.now.rows member to → number_of found.now.numbers to ≡ component → ⊥) }
{
    for target in scan.targets(member) {
        let other = found.number(*target);
        if other == component {
            return true;
        }
    }
    false
}

/// The least number above the heights of these nodes, of which there is one; `None` where a height isn't below the greatest bound.
fn round_of(heights: &Solution, members: &[usize]) -> Option<u32>
    requires { 0 < length members.now }
    ensures { MatchOption result
        ((a : ℕ) × Contains members.now a × (most_bound ≤ rank_of heights.now a))
        (IsRound members.now (rank_of heights.now)) }
{
    let mut round = 0;
    for member in members {
        let height = heights.rank(*member);
        if height >= MOST_BOUND as usize {
            return None;
        }
        round = over(round, height as u32);
    }
    Some(round)
}

/// The names of these nodes. The error is that memory was refused.
fn names_of(
    alloc: Global,
    meta: &Meta,
    scan: &Scan,
    members: &[usize],
) -> Result<Items<NodeName>, AllocError>
    requires scan { IsScan meta.now scan.now }
    requires members { (a : ℕ) → Contains members.now a → a < length scan.now.nodes }
    ensures { IfOk result (AllZip (IsNameOf meta.now) members.now) }
{
    let nodes = scan.nodes();
    let mut names = Items::from_vec(Vec::with_capacity(alloc, members.len())?);
    for member in members {
        let name = node_name(meta, nodes[*member])?;
        names.push(name)?;
    }
    Ok(names)
}
