//! Typed members of classes.

ghost use Rattle.std.specs.Prelude.{◌≡◌, ◌≤◌, IfOk, MatchOption};
ghost use Rattle.effect_scan.specs.declared.node.Member.TheVariants.{Method};
ghost use Rattle.meta_model.specs.Members.{method_offset};
ghost use Rattle.meta_model.specs.Sound.{IsSound};
ghost use Rattle.type_check.specs.Typed.{IsTypedProperty, IsTypedMemberHere, IsTypedHere, IsUntypedStatement, IsInMember};

use crate::bodies::body_flaw;
use crate::flaws::{TypeFault, TypeFlaw, given_by};
use crate::scope::BodyScope;
use effect_scan::{Member, Node};
use meta_model::{Meta, Work};
use std::alloc::{AllocError, Global};
use std::ops::ControlFlow;

/// What isn't typed in the method, where the class of this number doesn't inherit it. Its error is that memory was refused.
fn method_flaw(
    alloc: Global,
    meta: &Meta,
    class: usize,
    method: usize,
) -> Result<Option<TypeFlaw>, AllocError>
    requires sound { IsSound meta.now }
    requires own { method_offset meta.now class ≤ method }
    ensures { IfOk result (λ found.
        let Typed = IsTypedMemberHere meta.now class (Method method) in
        MatchOption found Typed (λ flaw. (Typed → ⊥) × IsUntypedStatement meta.now class method flaw.statement)) }
{
    let Some(method) = meta.method_at(class, method) else {
        return Ok(None);
    };
    let Work::Slot(body) = &method.work else {
        return Ok(None);
    };
    let scope = BodyScope {
        alloc,
        meta,
        class,
        types: method.types.as_slice(),
    };
    match body_flaw(&scope, body.as_slice(), 0)? {
        ControlFlow::Break(flaw) => Ok(Some(flaw)),
        ControlFlow::Continue(_) => Ok(None),
    }
}

/// Why the property's value at first isn't of its type, if it isn't.
fn property_flaw(meta: &Meta, class: usize, property: usize) -> Option<TypeFlaw>
    ensures { let Typed = IsTypedProperty meta.now class property in
        MatchOption result Typed (λ flaw. (Typed → ⊥) × (flaw.statement ≡ None)) }
{
    let Some(object) = meta.object(class) else {
        return None;
    };
    let Some(property) = object.property(property) else {
        return None;
    };
    if meta.has_type(&property.initial, None, property.kind) {
        return None;
    }
    Some(TypeFlaw {
        statement: None,
        fault: TypeFault::Mismatch(0, given_by(&property.initial), property.kind),
    })
}

/// What isn't typed in the node; an inherited method is judged where it is declared, and here it is taken to be typed.
pub fn node_flaw(alloc: Global, meta: &Meta, node: Node) -> Result<Option<TypeFlaw>, AllocError>
    requires { IsSound meta.now }
    ensures { IfOk result (λ found.
        let Typed = IsTypedHere meta.now node in
        MatchOption found Typed (λ flaw. (Typed → ⊥) × IsInMember meta.now node.class node.member flaw.statement)) }
{
    match node.member {
        Member::Method(method) if method < meta.method_offset(node.class) => Ok(None),
        Member::Method(method) => method_flaw(alloc, meta, node.class, method),
        Member::Property(property) => Ok(property_flaw(meta, node.class, property)),
        Member::Destruction => Ok(None),
    }
}
