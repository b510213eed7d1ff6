//! Ranks that don't fall along edges, or aren't below the bound.

ghost use Rattle.std.specs.Prelude.{ℕ, ◌<◌, length, IsTrue, MatchOption};
ghost use Rattle.std.specs.List.{Contains};
ghost use Rattle.effect_scan.specs.Rows.{row, Edge};
ghost use Rattle.rank_check.specs.Valid.{IsBounded};
ghost use Rattle.rank_check.specs.Causes.{IsLoose};
ghost use Rattle.rank_check.specs.ByNumbers.{AreLower, IsAsHigh, Fall, FallFirst, IsRiseIn};

use crate::causes::{Loose, NodeLine, Rise};
use crate::entries::NodeClaim;
use crate::twins::earlier_twin;
use certificate_lang::Certificate;
use effect_scan::Scan;
use sqlite_items::at;
use texts::MOST_DEPTH;

/// The greatest bound of a valid certificate: as many activations as nest at most.
pub const MOST_BOUND: u32 = MOST_DEPTH;

/// The first edge along which the rank doesn't fall, in the order of nodes.
pub fn first_rise(scan: &Scan, entries: &[NodeClaim]) -> Option<Rise>
    requires { (a b : ℕ) → Edge scan.now.rows a b → b < length entries.now }
    ensures { MatchOption result (Fall scan.now.rows entries.now) (IsRiseIn scan.now.rows entries.now) }
{
    for (node, entry) in entries.iter().enumerate() {
        if let Some(to) = first_risen(scan, entries, node, entry.rank) {
            let from = NodeLine {
                node,
                line: entry.line,
            };
            return Some(Rise { from, to });
        }
    }
    None
}

/// The first node that the node of this number may lead to and that hasn't a rank below this one, which is the node's. Where a
/// node before it leads to the same ones and has no higher rank, they have been looked at.
fn first_risen(scan: &Scan, entries: &[NodeClaim], node: usize, rank: u32) -> Option<NodeLine>
    requires inside { (b : ℕ) → Edge scan.now.rows node b → b < length entries.now }
    requires before { FallFirst scan.now.rows entries.now node }
    ensures { MatchOption result (AreLower (row scan.now.rows node) entries.now rank)
        (IsAsHigh (row scan.now.rows node) entries.now rank) }
{
    if is_above_twin(scan, entries, node, rank) {
        return None;
    }
    first_as_high(scan.targets(node), entries, rank)
}

/// Whether a node before this one leads to the same ones, and has a rank that isn't above this one.
fn is_above_twin(scan: &Scan, entries: &[NodeClaim], node: usize, rank: u32) -> bool
    requires { FallFirst scan.now.rows entries.now node }
    ensures { IsTrue result → AreLower (row scan.now.rows node) entries.now rank }
{
    match earlier_twin(scan, node) {
        Some(twin) => match at(entries, twin) {
            Some(entry) => entry.rank <= rank,
            None => false,
        },
        None => false,
    }
}

/// The first of these nodes that hasn't a rank below this one.
fn first_as_high(targets: &[usize], entries: &[NodeClaim], rank: u32) -> Option<NodeLine>
    requires { (b : ℕ) → Contains targets.now b → b < length entries.now }
    ensures { MatchOption result (AreLower targets.now entries.now rank) (IsAsHigh targets.now entries.now rank) }
{
    for target in targets {
        let entry = &entries[*target];
        if entry.rank >= rank {
            return Some(NodeLine {
                node: *target,
                line: entry.line,
            });
        }
    }
    None
}

/// What is wrong with the bound, which has to be above each rank and at most 256.
pub fn loose_bound(certificate: &Certificate) -> Option<Loose>
    ensures { MatchOption result (IsBounded certificate.now) (IsLoose certificate.now) }
{
    if certificate.bound > MOST_BOUND {
        return Some(Loose::TooGreat);
    }
    for (place, line) in certificate.lines.as_slice().iter().enumerate() {
        if line.rank >= certificate.bound {
            return Some(Loose::NotAbove(place));
        }
    }
    None
}
