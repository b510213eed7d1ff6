//! Destroy sets that lack a class, or hold that of their slot.

ghost use Rattle.std.specs.Prelude.{ℕ, ◌≡◌, ◌↔◌, ◌<◌, length, IsTrue, MatchOption};
ghost use Rattle.std.specs.List.{Contains};
ghost use Rattle.effect_scan.specs.Rows.{row, Edge};
ghost use Rattle.class_sets.specs.Marks.{IsMarked};
ghost use Rattle.effect_scan.specs.Scans.{IsScan};
ghost use Rattle.rank_check.specs.Valid.{RunsBody, HasBody};
ghost use Rattle.rank_check.specs.ByNumbers.{AreWithin, PassFirst, HasLost, HoldsOwn, IsOwnMistake, Hold, IsMistakeIn};

use crate::causes::{Mistake, NodeLine};
use crate::entries::NodeClaim;
use crate::twins::earlier_twin;
use class_sets::ClassSet;
use effect_scan::{Member, Node, Scan, row_at};
use meta_model::{Meta, Work};
use sqlite_items::at;

/// What is wrong with the first set that doesn't hold what it has to, in the order of nodes: the set of each node that it
/// may lead to; for the destruction of a class its closure; for a slot or native not its own class.
pub fn first_mistake(meta: &Meta, scan: &Scan, entries: &[NodeClaim]) -> Option<Mistake>
    requires scan { IsScan meta.now scan.now }
    requires inside { (a b : ℕ) → Edge scan.now.rows a b → b < length entries.now }
    requires count { length entries.now ≡ length scan.now.nodes }
    ensures { let nodes = scan.now.nodes in let rows = scan.now.rows in
        MatchOption result (Hold meta.now nodes rows entries.now) (IsMistakeIn meta.now nodes rows entries.now) }
{
    for (number, node) in scan.nodes().iter().enumerate() {
        let entry = &entries[number];
        let place = NodeLine {
            node: number,
            line: entry.line,
        };
        let set = entry.destroys.get();
        if let Some(mistake) = own_mistake(meta, scan, *node, set, place) {
            return Some(mistake);
        }
        if let Some((to, class)) = lost_from(scan, entries, number, set) {
            return Some(Mistake::Lost(place, to, class));
        }
    }
    None
}

/// The first class of the sets of those that the node of this number may lead to that isn't in this one, which is the node's, with
/// the place of the node that has it. Where a node before it leads to the same ones and its set is within this one, they have been
/// looked at.
fn lost_from(
    scan: &Scan,
    entries: &[NodeClaim],
    node: usize,
    set: &ClassSet,
) -> Option<(NodeLine, usize)>
    requires inside { (b : ℕ) → Edge scan.now.rows node b → b < length entries.now }
    requires before { PassFirst scan.now.rows entries.now node }
    ensures { MatchOption result (AreWithin (row scan.now.rows node) entries.now set.now)
        (λ lost. HasLost (row scan.now.rows node) entries.now set.now lost.0 lost.1) }
{
    if holds_twin(scan, entries, node, set) {
        return None;
    }
    lost_class(scan.targets(node), entries, set)
}

/// Whether a node before this one leads to the same ones, and its set is within this one.
fn holds_twin(scan: &Scan, entries: &[NodeClaim], node: usize, set: &ClassSet) -> bool
    requires { PassFirst scan.now.rows entries.now node }
    ensures { IsTrue result → AreWithin (row scan.now.rows node) entries.now set.now }
{
    match earlier_twin(scan, node) {
        Some(twin) => match at(entries, twin) {
            Some(entry) => entry.destroys.get().first_lost(set).is_none(),
            None => false,
        },
        None => false,
    }
}

/// The first class of the sets of these nodes that isn't in this one, with the place of the node that has it.
fn lost_class(targets: &[usize], entries: &[NodeClaim], set: &ClassSet) -> Option<(NodeLine, usize)>
    requires { (b : ℕ) → Contains targets.now b → b < length entries.now }
    ensures { MatchOption result (AreWithin targets.now entries.now set.now)
        (λ lost. HasLost targets.now entries.now set.now lost.0 lost.1) }
{
    for target in targets {
        let entry = &entries[*target];
        if let Some(class) = entry.destroys.get().first_lost(set) {
            let to = NodeLine {
                node: *target,
                line: entry.line,
            };
            return Some((to, class));
        }
    }
    None
}

/// What is wrong with the set of the node at this place, whatever the node may lead to.
fn own_mistake(
    meta: &Meta,
    scan: &Scan,
    node: Node,
    set: &ClassSet,
    place: NodeLine,
) -> Option<Mistake>
    requires { IsScan meta.now scan.now }
    ensures { MatchOption result (HoldsOwn meta.now node set.now) (IsOwnMistake meta.now node set.now place) }
{
    match node.member {
        Member::Destruction => match first_unmarked(row_at(scan.destroys(), node.class), set) {
            Some(class) => Some(Mistake::Unclosed(place, class)),
            None => None,
        },
        Member::Method(method) => {
            if set.contains(node.class) && runs_body(meta, node.class, method) {
                Some(Mistake::Own(place))
            } else {
                None
            }
        }
        Member::Property(_) => None,
    }
}

/// The first of the classes that isn't in the set.
fn first_unmarked(classes: &[usize], set: &ClassSet) -> Option<usize>
    ensures { MatchOption result ((d : ℕ) → Contains classes.now d → IsMarked set.now d)
        (λ d. Contains classes.now d × (IsMarked set.now d → ⊥)) }
{
    for class in classes {
        if !set.contains(*class) {
            return Some(*class);
        }
    }
    None
}

/// Whether the node is a slot or a native.
pub fn has_body(meta: &Meta, node: Node) -> bool
    ensures { IsTrue result ↔ HasBody meta.now node }
{
    match node.member {
        Member::Method(method) => runs_body(meta, node.class, method),
        Member::Property(_) | Member::Destruction => false,
    }
}

/// Whether the method of this number, in the class of this number, has a body, which may be that of a native.
pub fn runs_body(meta: &Meta, class: usize, method: usize) -> bool
    ensures { IsTrue result ↔ RunsBody meta.now class method }
{
    match meta.method_at(class, method) {
        Some(found) => !matches!(found.work, Work::Signal),
        None => false,
    }
}
