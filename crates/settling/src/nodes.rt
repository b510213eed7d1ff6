//! Nodes that carry one value.

ghost use Rattle.std.specs.Prelude.{IsTrue, ◌↔◌};
ghost use Rattle.settling.specs.Settles.{TakesOne, Carries};

use effect_scan::{Member, Node};
use meta_model::{Meta, Work};

/// Whether the node is a property, or a signal or slot with one parameter.
pub fn carries(meta: &Meta, node: Node) -> bool
    ensures { IsTrue result ↔ Carries meta.now node }
{
    match node.member {
        Member::Method(method) => takes_one(meta, node.class, method),
        Member::Property(_) => true,
        Member::Destruction => false,
    }
}

/// Whether the method, which is no native, has one parameter.
fn takes_one(meta: &Meta, class: usize, method: usize) -> bool
    ensures { IsTrue result ↔ TakesOne meta.now class method }
{
    let Some(found) = meta.method_at(class, method) else {
        return false;
    };
    match &found.work {
        Work::Signal | Work::Slot(_) => found.types.len() == 1,
        Work::Native(_) => false,
    }
}
