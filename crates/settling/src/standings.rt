//! What a certificate says of nodes, by their numbers.

ghost use Rattle.std.specs.Prelude.{◌≡◌, ◌↔◌, ◌<◌, ℕ, length, slice_get, Some, IsTrue, IfOk};
ghost use Rattle.effect_scan.specs.Scans.{IsScan};
ghost use Rattle.settling.specs.code.Standings.{AreStandingsAt};

use crate::certificate::SettlingLine;
use effect_scan::{Node, Scan};
use sqlite_items::Items;
use std::alloc::{AllocError, Global};

/// A node with what the certificate says of it.
#[derive(Clone, Copy)]
pub struct Standing {
    /// The node.
    pub node: Node,
    /// Its rank.
    pub rank: u32,
    /// Its step.
    pub step: u32,
    /// The place of the set that it is of, if it is of one.
    pub set: Option<usize>,
}

impl Standing {
    /// Whether its node is of the set at this place.
    pub fn is_of(self, place: usize) -> bool
        ensures { IsTrue result ↔ (self.set ≡ Some place) }
    {
        match self.set {
            Some(set) => set == place,
            None => false,
        }
    }
}

/// The standings of all nodes, whose lines are at these places, and whose sets at those. Its error is that memory was refused.
pub fn standings(
    alloc: Global,
    scan: &Scan,
    lines: &[SettlingLine],
    places: &[usize],
    sets: &[Option<usize>],
) -> Result<Items<Standing>, AllocError>
    requires places { length places.now ≡ length scan.now.nodes }
    requires sets { length sets.now ≡ length scan.now.nodes }
    requires inside { (n k : ℕ) → slice_get places.now n ≡ Some k → k < length lines.now }
    ensures { IfOk result (AreStandingsAt scan.now.nodes lines.now places.now sets.now) }
{
    let mut standings = Items::from_vec(Vec::with_capacity(alloc, places.len())?);
    for (number, node) in scan.nodes().iter().enumerate() {
        let place = places[number];
        let line = &lines[place];
        standings.push(Standing {
            node: *node,
            rank: line.rank,
            step: line.step,
            set: sets[number],
        })?;
    }
    Ok(standings)
}
