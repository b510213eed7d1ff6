//! Destroy sets that hold what they have to.

ghost use Rattle.std.specs.Prelude.{ℕ, ◌≡◌, ◌<◌, length, MatchBool};
ghost use Rattle.std.specs.List.{Contains};
ghost use Rattle.effect_scan.specs.Rows.{Edge};
ghost use Rattle.effect_scan.specs.Scans.{IsScan};
ghost use Rattle.class_sets.specs.Marks.{IsMarked};
ghost use Rattle.rank_check.specs.ByNumbers.{HoldsOwn};
ghost use Rattle.settling.specs.code.ByNumbers.{AreWithin, Hold};

use class_sets::ClassSet;
use effect_scan::{Member, Node, Scan, row_at};
use meta_model::Meta;
use rank_check::runs_body;

/// Whether each of these sets, in the order of nodes, holds what it has to: the set of each node that its node may lead to; for the
/// destruction of a class its closure; for a slot or native not its own class.
pub fn sets_hold(meta: &Meta, scan: &Scan, sets: &[ClassSet]) -> bool
    requires scan { IsScan meta.now scan.now }
    requires inside { (a b : ℕ) → Edge scan.now.rows a b → b < length sets.now }
    requires count { length sets.now ≡ length scan.now.nodes }
    ensures { MatchBool result (Hold meta.now scan.now.nodes scan.now.rows sets.now)
        (Hold meta.now scan.now.nodes scan.now.rows sets.now → ⊥) }
{
    for (number, node) in scan.nodes().iter().enumerate() {
        let set = &sets[number];
        if !holds_own(meta, scan, *node, set) {
            return false;
        }
        if !holds_targets(scan.targets(number), sets, set) {
            return false;
        }
    }
    true
}

/// Whether the sets of these nodes are within this one.
fn holds_targets(targets: &[usize], sets: &[ClassSet], set: &ClassSet) -> bool
    requires { (b : ℕ) → Contains targets.now b → b < length sets.now }
    ensures { MatchBool result (AreWithin targets.now sets.now set.now)
        (AreWithin targets.now sets.now set.now → ⊥) }
{
    for target in targets {
        let other = &sets[*target];
        if let Some(_lost) = other.first_lost(set) {
            return false;
        }
    }
    true
}

/// Whether the set of this node holds what it has to, whatever the node may lead to.
fn holds_own(meta: &Meta, scan: &Scan, node: Node, set: &ClassSet) -> bool
    requires { IsScan meta.now scan.now }
    ensures { MatchBool result (HoldsOwn meta.now node set.now) (HoldsOwn meta.now node set.now → ⊥) }
{
    match node.member {
        Member::Destruction => holds_all(row_at(scan.destroys(), node.class), set),
        Member::Method(method) => {
            !(set.contains(node.class) && runs_body(meta, node.class, method))
        }
        Member::Property(_) => true,
    }
}

/// Whether all these classes are in the set.
fn holds_all(classes: &[usize], set: &ClassSet) -> bool
    ensures { let P = (d : ℕ) → Contains classes.now d → IsMarked set.now d in MatchBool result P (P → ⊥) }
{
    for class in classes {
        if !set.contains(*class) {
            return false;
        }
    }
    true
}
