//! The first part of a program that isn't typed.

ghost use Rattle.std.specs.Prelude.{IfOk, MatchOption};
ghost use Rattle.type_check.specs.Typed.{FindsNode, FindsUntyped, IsTypedSpot, IsInSpot};

use crate::flaws::TypeFlaw;
use crate::members::node_flaw;
use crate::sites::{site_flaw, untyped_site};
use crate::spot::Spot;
use effect_scan::{Node, Numbering};
use meta_model::Meta;
use std::alloc::{AllocError, Global};

/// The first node that isn't typed, in the order of nodes, else the first binding site that isn't, or `None` where the
/// whole program is typed. A node isn't typed where it is a slot with an ill-typed statement in its body, which is
/// reported for `this` of the class that declares the slot, or a property whose value at first isn't of its type. Its
/// error is that memory was refused.
pub fn untyped(alloc: Global, meta: &Meta) -> Result<Option<Spot>, AllocError>
    ensures { IfOk result (FindsUntyped meta.now) }
{
    if let Some(node) = untyped_node(alloc, meta)? {
        return Ok(Some(Spot::Node(node)));
    }
    let site = untyped_site(alloc, meta)?;
    Ok(site.map(Spot::Binding))
}

/// What isn't typed in this part of a program, and why: just what `untyped` judges by; `None` where the part is typed, or
/// isn't there. Its error is that memory was refused.
pub fn flaw_at(alloc: Global, meta: &Meta, spot: Spot) -> Result<Option<TypeFlaw>, AllocError>
    ensures { IfOk result (λ found.
        let Typed = IsTypedSpot meta.now spot in
        MatchOption found Typed (λ flaw. (Typed → ⊥) × IsInSpot meta.now spot flaw.statement)) }
{
    match spot {
        Spot::Node(node) => {
            // The contract of `classes` says what a program that loads is.
            let _classes = meta.classes();
            node_flaw(alloc, meta, node)
        }
        Spot::Binding(number) => match meta.sites().get(number) {
            Some(site) => site_flaw(alloc, meta, site),
            None => Ok(None),
        },
    }
}

/// The first node that isn't typed.
fn untyped_node(alloc: Global, meta: &Meta) -> Result<Option<Node>, AllocError>
    ensures { IfOk result (FindsNode meta.now) }
{
    let numbering = Numbering::of(alloc, meta.classes())?;
    for node in numbering.nodes() {
        match node_flaw(alloc, meta, *node)? {
            Some(_) => return Ok(Some(*node)),
            None => {}
        }
    }
    Ok(None)
}
