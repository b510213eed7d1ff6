//! Search in depth: the ranks of the nodes, and the classes of a group that they lead to.

ghost use Rattle.std.specs.Prelude.{◌≡◌, ℕ, ◌<◌, ◌+◌, ◌^◌, ◌||◌, length, max, IfOk, IfErr, IfSome, IsTrue, OnOk};
ghost use Rattle.effect_scan.specs.Rows.{AreAlike};
ghost use Rattle.rank_graph.specs.Bits.{has};
ghost use Rattle.rank_graph.specs.Graphs.{InRange};
ghost use Rattle.rank_graph.specs.Entries.{IsSearched, owns};
ghost use Rattle.rank_graph.specs.Faults.{IsUnranked};
ghost use Rattle.rank_graph.specs.Searching.{AllDone, Finished, Visited, NoneOpen, IsBegun, IsKnown, PassesDone, state_of};
ghost use Rattle.rank_graph.specs.declared.path.NodeRank.{NodeRank};
ghost use Rattle.rank_graph.specs.declared.path.VisitState.TheVariants.{New, Done};

use crate::bits::Bits;
use crate::cycle::back_to;
use crate::fault::Unranked;
use crate::path::{NodeRank, Visit, VisitPath, VisitState};
use crate::states::{Found, States};
use effect_scan::{Targets, targets_at};
use sqlite_items::at;
use std::alloc::Global;

/// The longest chains of the nodes, and the classes that they lead to, where each has these classes itself; or why there are
/// none. The edges of nodes that are told to be alike are followed once.
pub fn search(
    alloc: Global,
    rows: &[Targets],
    alike: &[usize],
    own: &[Bits],
) -> Result<Found, Unranked>
    requires alike { AreAlike rows.now alike.now }
    requires inside { InRange rows.now }
    requires own { length own.now ≡ length rows.now }
    ensures ok { IfOk result (IsSearched rows.now own.now) }
    ensures err { IfErr result (IsUnranked rows.now) }
{
    let mut states = States::fresh(alloc, rows.len())?;
    visit_all(alloc, rows, alike, own, &mut states)?;
    let found = states.found(alloc)?;
    Ok(found)
}

/// Visits each node that no earlier visit came to.
fn visit_all(
    alloc: Global,
    rows: &[Targets],
    alike: &[usize],
    own: &[Bits],
    states: &mut States,
) -> Result<(), Unranked>
    requires alike { AreAlike rows.now alike.now }
    requires inside { InRange rows.now }
    requires states { length states.old ≡ length rows.now }
    requires own { length own.now ≡ length rows.now }
    requires fresh { (a : ℕ) → state_of states.old a ≡ New }
    ensures ok { OnOk result (Finished rows.now own.now states.new × AllDone states.new) }
    ensures len { OnOk result (length states.new ≡ length rows.now) }
    ensures err { IfErr result (IsUnranked rows.now) }
{
    for root in 0..rows.len() {
        if let VisitState::New = states.get(root) {
            visit(alloc, rows, alike, own, states, root)?;
        }
    }
    Ok(())
}

/// The entry of a node that has an edge to a node with the entry `below`.
#[inline(always)]
fn over(entry: NodeRank, below: NodeRank) -> NodeRank
    requires { below.rank + 1 < 2 ^ 64 }
    ensures rank { result.rank ≡ max entry.rank (below.rank + 1) }
    ensures classes { (c : ℕ) → has result.classes c ≡ (has entry.classes c || has below.classes c) }
{
    NodeRank {
        rank: entry.rank.max(below.rank + 1),
        classes: entry.classes.union(below.classes),
    }
}

/// The visit with which a node is entered. Where a node with the same edges is done, what they give is known, and none is left to
/// follow.
fn begun(rows: &[Targets], alike: &[usize], own: &[Bits], states: &States, node: usize) -> Visit
    requires alike { AreAlike rows.now alike.now }
    requires states { length states.now ≡ length rows.now }
    requires own { length own.now ≡ length rows.now }
    requires node { node < length rows.now }
    requires finished { Finished rows.now own.now states.now }
    ensures { IsBegun rows.now own.now states.now node result }
{
    let classes = own[node];
    match known(alike, own, states, node) {
        Some(entry) => Visit {
            node,
            next: targets_at(rows, node).len(),
            entry: NodeRank {
                rank: entry.rank,
                classes: classes.union(entry.classes),
            },
        },
        None => Visit {
            node,
            next: 0,
            entry: NodeRank { rank: 0, classes },
        },
    }
}

/// The entry of the node that is told to be alike, if that is done, and has no class itself that this one hasn't.
fn known(alike: &[usize], own: &[Bits], states: &States, node: usize) -> Option<NodeRank>
    requires states { length states.now ≡ length own.now }
    requires node { node < length own.now }
    ensures { IfSome result (IsKnown alike.now own.now states.now node) }
{
    let twin = *at(alike, node)?;
    if twin >= own.len() || !adds_nothing(own, twin, node) {
        return None;
    }
    match states.get(twin) {
        VisitState::Done(entry) => Some(entry),
        _ => None,
    }
}

/// Whether each class that the first node has itself is one of those that the other one has itself.
fn adds_nothing(own: &[Bits], first: usize, other: usize) -> bool
    requires first { first < length own.now }
    requires other { other < length own.now }
    ensures { IsTrue result → (c : ℕ) → owns own.now first c → owns own.now other c }
{
    let classes = own[other];
    own[first].union(classes).is_same(classes)
}

/// The visit, after those of its next edges were followed that lead to nodes that are done, up to the first other one.
#[inline(always)]
fn past_done(rows: &[Targets], states: &States, visit: Visit) -> Visit
    requires inside { InRange rows.now }
    requires states { length states.now ≡ length rows.now }
    requires low { (a : ℕ) (e : NodeRank) → state_of states.now a ≡ Done e → e.rank + 1 < 2 ^ 64 }
    ensures { PassesDone rows.now states.now visit result }
{
    let row = targets_at(rows, visit.node);
    let mut at = visit;
    while at.next < row.len() {
        match states.get(row[at.next]) {
            VisitState::Done(entry) => {
                at.entry = over(at.entry, entry);
                at.next += 1;
            }
            _ => return at,
        }
    }
    at
}

/// Follows the edges from a node, and from each node that is met for the first time, until all of these are done or a cycle is
/// met.
fn visit(
    alloc: Global,
    rows: &[Targets],
    alike: &[usize],
    own: &[Bits],
    states: &mut States,
    root: usize,
) -> Result<(), Unranked>
    requires alike { AreAlike rows.now alike.now }
    requires inside { InRange rows.now }
    requires states { length states.old ≡ length rows.now }
    requires own { length own.now ≡ length rows.now }
    requires root { root < length rows.now }
    requires fresh { state_of states.old root ≡ New }
    requires finished { Finished rows.now own.now states.old }
    requires closed { NoneOpen states.old }
    ensures ok { OnOk result (Visited rows.now own.now states.old root states.new) }
    ensures err { IfErr result (IsUnranked rows.now) }
{
    let _count = states.len();
    let mut path = VisitPath::new(alloc);
    let mut at = begun(rows, alike, own, states, root);
    states.enter(root);
    'search: loop {
        at = past_done(rows, states, at);
        let row = targets_at(rows, at.node);
        if at.next < row.len() {
            let target = row[at.next];
            match states.get(target) {
                VisitState::Done(entry) => {
                    at.entry = over(at.entry, entry);
                    at.next += 1;
                }
                VisitState::New => {
                    path.push(at)?;
                    at = begun(rows, alike, own, states, target);
                    states.enter(target);
                }
                VisitState::Open => {
                    let cycle = back_to(alloc, path, at.node, target)?;
                    return Err(Unranked::Cycle(cycle));
                }
            }
        } else {
            states.leave(at.node, at.entry)?;
            match path.pop() {
                Some(visit) => at = visit,
                None => return Ok(()),
            }
        }
    }
}
