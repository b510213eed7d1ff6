//! Edges that hand one value on unchanged.

ghost use Rattle.std.specs.Prelude.{IsTrue};
ghost use Rattle.effect_scan.specs.Edges.{ByWork, MayLead};
ghost use Rattle.settling.specs.Hands.{HandOn};
ghost use Rattle.settling.specs.code.Bodies.{WorksHand};

use crate::bodies::BodySearch;
use edge_reasons::{Reason, reason_for};
use effect_scan::{Member, Node};
use meta_model::{Meta, Work};

/// Whether each way from the one node to the other hands on the value that it begins with. It may be asked of any two nodes;
/// where nothing leads from the one to the other `false` says nothing. Time is linear in the body of a slot, in wires or in
/// bindings.
pub fn hand_on(meta: &Meta, from: Node, to: Node) -> bool
    ensures hands { IsTrue result → HandOn meta.now from to }
    ensures each { MayLead meta.now from to → HandOn meta.now from to → IsTrue result }
{
    let Some(reason) = reason_for(meta, from, to) else {
        return true;
    };
    match reason {
        Reason::Statement(_) => works_hand_on(meta, from, to),
        Reason::Wire(_) | Reason::Notify => true,
        Reason::Native | Reason::Binding(_) | Reason::Deletion => false,
    }
}

/// Whether each statement of the method that does something to the node hands on the value that it was called with.
fn works_hand_on(meta: &Meta, from: Node, to: Node) -> bool
    ensures hands { IsTrue result → WorksHand meta.now from to }
    ensures each { ByWork meta.now from to → WorksHand meta.now from to → IsTrue result }
{
    let Member::Method(method) = from.member else {
        return true;
    };
    let Some(found) = meta.method_at(from.class, method) else {
        return true;
    };
    match &found.work {
        Work::Signal => true,
        Work::Slot(body) => {
            let search = BodySearch {
                meta,
                class: from.class,
                types: found.types.as_slice(),
                to,
            };
            search.all_hand_on(body.as_slice(), false)
        }
        Work::Native(_) => false,
    }
}
