//! The nodes that lines are for.

ghost use Rattle.std.specs.Prelude.{IfOk, IfSome, IsTrue};
ghost use Rattle.name_indexes.specs.LookUps.{LooksUp, FindsOnly};
ghost use Rattle.meta_model.specs.Members.{IsClassNamed, HasSig, IsPropertyNamed};
ghost use Rattle.effect_scan.specs.Scans.{IsScan};
ghost use Rattle.rank_check.specs.Names.{IsMemberNamed, IsMemberOf};
ghost use Rattle.rank_check.specs.Entries.{IsNumberNamed, AreNumbers};

use basic_types::{Name, Sig};
use certificate_lang::{Line, MemberName, NodeName};
use effect_scan::{Member, Node, Scan};
use meta_model::Meta;
use sqlite_items::{Items, at};
use std::alloc::{AllocError, Global};

/// For each line the number of the node that it is for, or `None` where it is for none; its error is that memory was
/// refused. Where the lines are in the order of the nodes, no name is looked up.
pub fn line_numbers(
    alloc: Global,
    meta: &Meta,
    scan: &Scan,
    lines: &[Line],
) -> Result<Items<Option<usize>>, AllocError>
    requires { IsScan meta.now scan.now }
    ensures { IfOk result (AreNumbers meta.now lines.now) }
{
    let mut numbers = Items::from_vec(Vec::with_capacity(alloc, lines.len())?);
    for (place, line) in lines.iter().enumerate() {
        let number = line_number(meta, scan, place, &line.node);
        numbers.push(number)?;
    }
    Ok(numbers)
}

/// The number of the node of this name, or `None` where there is none; the name is that of the line at this place.
fn line_number(meta: &Meta, scan: &Scan, place: usize, name: &NodeName) -> Option<usize>
    requires { IsScan meta.now scan.now }
    ensures value { LooksUp (IsNumberNamed meta.now name.now) result }
    ensures only { FindsOnly (IsNumberNamed meta.now name.now) result }
{
    // The contract of `classes` says that a name is that of one class, and of one member of it.
    let _classes = meta.classes();
    match node_there(meta, scan, place, name) {
        Some(node) => scan.number(node),
        None => node_number(meta, scan, name),
    }
}

/// The node of this number, if it has this name.
fn node_there(meta: &Meta, scan: &Scan, number: usize, name: &NodeName) -> Option<Node>
    ensures { IfSome result (λ node. IsMemberOf meta.now name.now node) }
{
    let node = *at(scan.nodes(), number)?;
    if is_class_named(meta, node.class, &name.class)
        && is_member_named(meta, node.class, node.member, &name.member)
    {
        Some(node)
    } else {
        None
    }
}

/// Whether the class has this name.
fn is_class_named(meta: &Meta, class: usize, name: &Name) -> bool
    ensures { IsTrue result → IsClassNamed meta.now name.now class }
{
    match meta.object(class) {
        Some(found) => found.name.is_same(name),
        None => false,
    }
}

/// Whether the member of the class has this name.
fn is_member_named(meta: &Meta, class: usize, member: Member, name: &MemberName) -> bool
    ensures { IsTrue result → IsMemberNamed meta.now class name.now member }
{
    match name {
        MemberName::Method(sig) => match member {
            Member::Method(method) => has_sig(meta, class, method, sig),
            _ => false,
        },
        MemberName::Property(name) => match member {
            Member::Property(property) => is_property_named(meta, class, property, name),
            _ => false,
        },
        MemberName::Destruction => member == Member::Destruction,
    }
}

/// Whether the method of the class has this signature.
fn has_sig(meta: &Meta, class: usize, method: usize, sig: &Sig) -> bool
    ensures { IsTrue result → HasSig meta.now class sig.now method }
{
    match meta.method_at(class, method) {
        Some(found) => found.sig.is_same(sig),
        None => false,
    }
}

/// Whether the property of the class has this name.
fn is_property_named(meta: &Meta, class: usize, property: usize, name: &Name) -> bool
    ensures { IsTrue result → IsPropertyNamed meta.now class name.now property }
{
    let Some(object) = meta.object(class) else {
        return false;
    };
    match object.property(property) {
        Some(found) => found.name.is_same(name),
        None => false,
    }
}

/// The number of the node of this name, by which it is found among all nodes of the program, or `None` where there is none.
pub fn node_number(meta: &Meta, scan: &Scan, name: &NodeName) -> Option<usize>
    requires { IsScan meta.now scan.now }
    ensures value { LooksUp (IsNumberNamed meta.now name.now) result }
    ensures only { FindsOnly (IsNumberNamed meta.now name.now) result }
{
    let class = meta.class(&name.class)?;
    let member = member_named(meta, class, &name.member)?;
    scan.number(Node { class, member })
}

/// The member of this name, in the class of this number, or `None` where there is none.
fn member_named(meta: &Meta, class: usize, name: &MemberName) -> Option<Member>
    ensures value { LooksUp (IsMemberNamed meta.now class name.now) result }
    ensures only { FindsOnly (IsMemberNamed meta.now class name.now) result }
{
    match name {
        MemberName::Method(sig) => {
            let method = meta.method(class, sig)?;
            Some(Member::Method(method))
        }
        MemberName::Property(name) => {
            let property = meta.property(class, name)?;
            Some(Member::Property(property))
        }
        MemberName::Destruction => Some(Member::Destruction),
    }
}
