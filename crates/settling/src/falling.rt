//! Edges along which ranks and steps fall as they have to.

ghost use Rattle.std.specs.Prelude.{ℕ, IsTrue, ◌↔◌, ◌<◌, MatchBool};
ghost use Rattle.std.specs.List.{Contains};
ghost use Rattle.effect_scan.specs.Edges.{MayLead};
ghost use Rattle.settling.specs.Settles.{IsProperty};
ghost use Rattle.settling.specs.code.ByNumbers.{Shares, FallsAlong, FallFrom, Fall, LeadsIn, LeadIn};

use crate::edges::hand_on;
use crate::standings::Standing;
use effect_scan::{Member, Node, Scan};
use meta_model::Meta;

/// Whether each edge between these nodes is as it has to be.
pub fn edges_fall(meta: &Meta, scan: &Scan, standings: &[Standing]) -> bool
    requires { LeadIn meta.now scan.now.rows standings.now }
    ensures { MatchBool result (Fall meta.now scan.now.rows standings.now)
        (Fall meta.now scan.now.rows standings.now → ⊥) }
{
    for (number, from) in standings.iter().enumerate() {
        if !falls_from(meta, *from, scan.targets(number), standings) {
            return false;
        }
    }
    true
}

/// Whether each edge from this node to those of these numbers is.
fn falls_from(meta: &Meta, from: Standing, targets: &[usize], standings: &[Standing]) -> bool
    requires { LeadsIn meta.now from targets.now standings.now }
    ensures { MatchBool result (FallFrom meta.now from targets.now standings.now)
        (FallFrom meta.now from targets.now standings.now → ⊥) }
{
    for target in targets {
        let to = standings[*target];
        if !falls_along(meta, from, to) {
            return false;
        }
    }
    true
}

/// Whether the edge from the one node to the other is: in a set each way hands on, and the rank falls but to a property; else the
/// rank falls; the step never rises.
fn falls_along(meta: &Meta, from: Standing, to: Standing) -> bool
    requires { MayLead meta.now from.node to.node }
    ensures { IsTrue result ↔ FallsAlong meta.now from to }
{
    if from.step < to.step {
        return false;
    }
    if share(from, to) {
        if !falls_within(from, to) {
            return false;
        }
        hand_on(meta, from.node, to.node)
    } else {
        to.rank < from.rank
    }
}

/// Whether the second is a property, or its rank is below that of the first.
fn falls_within(from: Standing, to: Standing) -> bool
    ensures { IsTrue result ↔ ((IsProperty to.node → ⊥) → to.rank < from.rank) }
{
    is_property(to.node) || to.rank < from.rank
}

/// Whether both are of one set.
fn share(one: Standing, other: Standing) -> bool
    ensures { IsTrue result ↔ Shares one.set other.set }
{
    match one.set {
        Some(set) => other.is_of(set),
        None => false,
    }
}

/// Whether the node is a property.
pub fn is_property(node: Node) -> bool
    ensures { IsTrue result ↔ IsProperty node }
{
    matches!(node.member, Member::Property(_))
}
