//! Signals whose sender may be destroyed while it emits them.
//!
//! No slot may lead to the destruction of an object of its own class, and so none may emit such a signal of its own object. But
//! a script may, and a write of a property of another object may have its notify signal emitted. In C++ a function of the
//! sender emits it, and goes on when the sender is gone.

ghost use Rattle.std.specs.Prelude.{All, IfOk};
ghost use Rattle.program_flaws.specs.Wires.{IsSo};

use crate::warned::ranked::Ranked;
use crate::warned::warning::Warning;
use effect_scan::{Member, Node};
use meta_model::{Meta, Statement, Work};
use std::alloc::{AllocError, Global};

/// Whether some slot destroys an object at once: else nothing leads to a destruction.
pub fn has_deletion(meta: &Meta) -> bool {
    meta.classes().iter().any(|class| class
        .methods
        .as_slice()
        .iter()
        .any(|method| deletes(&method.get().work)))
}

/// Whether the method destroys an object by itself.
fn deletes(work: &Work) -> bool {
    match work {
        Work::Slot(body) => has_delete(body.as_slice()),
        Work::Signal | Work::Native(_) => false,
    }
}

/// Whether some statement is a `delete`, or some that is in one.
#[cycle(deletions)]
fn has_delete(body: &[Statement]) -> bool {
    for statement in body {
        if is_delete(statement) {
            return true;
        }
    }
    false
}

/// Whether the statement is a `delete`, or one that is in it.
#[cycle(deletions)]
fn is_delete(statement: &Statement) -> bool {
    match statement {
        Statement::Delete(_) => true,
        Statement::If(_, chosen, other) => {
            has_delete(chosen.as_slice()) || has_delete(other.as_slice())
        }
        _ => false,
    }
}

/// Adds a warning for each signal whose destroy set holds its own class, of the first class in which it is so: not again for
/// those below. It is never so of `destroyed`, to which the destruction would lead back.
pub fn add_lost_senders(
    alloc: Global,
    meta: &Meta,
    ranked: Ranked<'_>,
    found: &mut Vec<Warning>,
) -> Result<(), AllocError>
    requires { All (IsSo meta.now) found.old.items }
    ensures { IfOk result (λ _. All (IsSo meta.now) found.new.items) }
{
    // The nodes of which that is reported, of themselves or for a class above.
    let mut told = Vec::new(alloc);
    for (number, node) in ranked.scan.nodes().iter().enumerate() {
        if let Some(signal) = signal_at(meta, *node)
            && ranked.destroys(number, node.class)
        {
            if !is_told_above(ranked, told.as_slice(), *node) {
                found.push(Warning::LostSender {
                    class: node.class,
                    signal,
                })?;
            }
            told.push(number)?;
        }
    }
    Ok(())
}

/// The number of the signal that the node is, if it is one.
fn signal_at(meta: &Meta, node: Node) -> Option<usize> {
    let Member::Method(method) = node.member else {
        return None;
    };
    match &meta.method_at(node.class, method)?.work {
        Work::Signal => Some(method),
        Work::Slot(_) | Work::Native(_) => None,
    }
}

/// Whether the same signal of the base is one of these nodes, which are in their order.
fn is_told_above(ranked: Ranked<'_>, told: &[usize], node: Node) -> bool {
    let Some(base) = ranked.meta.base(node.class) else {
        return false;
    };
    let above = Node {
        class: base,
        member: node.member,
    };
    match ranked.scan.number(above) {
        Some(number) => told.binary_search(&number).is_ok(),
        None => false,
    }
}
