//! The names of nodes, and their lines.

ghost use Rattle.std.specs.Prelude.{ℕ, ◌≡◌, ◌<◌, true, length, IfOk};
ghost use Rattle.meta_model.specs.Loaded.{Loaded};
ghost use Rattle.meta_model.specs.Members.{IsClass};
ghost use Rattle.effect_scan.specs.Laws.{IsNode};
ghost use Rattle.effect_scan.specs.Scans.{IsScan};
ghost use Rattle.rank_check.specs.Names.{IsNodeNamed, IsMemberNamed};
ghost use Rattle.rank_check.specs.Valid.{most_bound};
ghost use Rattle.rank_graph.specs.Solutions.{rank_of, leads_of};
ghost use Rattle.rank_make.specs.Solved.{AreLow, AreItems, IsLineFor, AreLinesFor, HasMember};

use basic_types::Sig;
use effect_scan::{Member, Node, Scan, row_at};
use meta_model::{Meta, MetaObject};
use rank_check::{ClassSet, Line, MemberName, NodeName, SetItem};
use rank_graph::Solution;
use sqlite_items::Items;
use std::alloc::{AllocError, Global};

/// The lines of all nodes, in their order. Its error is that memory was refused.
pub fn lines(
    alloc: Global,
    meta: &Meta,
    scan: &Scan,
    solution: &Solution,
) -> Result<Items<Line>, AllocError>
    requires scan { IsScan meta.now scan.now }
    requires low { AreLow (length scan.now.nodes) (rank_of solution.now) }
    ensures { IfOk result (AreLinesFor meta.now (rank_of solution.now) (leads_of solution.now)) }
{
    let mut lines = Items::from_vec(Vec::with_capacity(alloc, scan.nodes().len())?);
    for (number, node) in scan.nodes().iter().enumerate() {
        let line = line_of(alloc, meta, scan, solution, number, *node)?;
        lines.push(line)?;
    }
    Ok(lines)
}

/// The line of this node, which has this number. Its error is that memory was refused.
pub fn line_of(
    alloc: Global,
    meta: &Meta,
    scan: &Scan,
    solution: &Solution,
    number: usize,
    node: Node,
) -> Result<Line, AllocError>
    requires scan { IsScan meta.now scan.now }
    requires node { IsNode meta.now node }
    requires low { rank_of solution.now number < most_bound }
    ensures { IfOk result (IsLineFor meta.now (rank_of solution.now) (leads_of solution.now) number node) }
{
    let name = node_name(meta, node)?;
    let destroys = set_items(alloc, meta, scan, solution, number)?;
    Ok(Line {
        node: name,
        rank: solution.rank(number) as u32,
        destroys,
    })
}

/// The items of the set of the node of this number: in the order of classes, `~E` for each class E that it leads to and
/// that isn't in the closure of one written before it. Its error is that memory was refused.
pub fn set_items(
    alloc: Global,
    meta: &Meta,
    scan: &Scan,
    solution: &Solution,
    node: usize,
) -> Result<Items<SetItem>, AllocError>
    requires { IsScan meta.now scan.now }
    ensures { IfOk result (AreItems meta.now (λ d. leads_of solution.now node d ≡ true) (length meta.now.classes)) }
{
    if solution.leads_nowhere(node) {
        return Ok(Items::new(alloc));
    }
    let classes = meta.classes();
    // Most sets are written by one item, and there is a list for each node.
    let mut items = Items::from_vec(Vec::with_capacity(alloc, 1)?);
    // The classes in the closures of those that are written.
    let mut implied = ClassSet::with_room(alloc, classes.len())?;
    for (class, object) in classes.iter().enumerate() {
        if solution.leads_to(node, class) && !implied.contains(class) {
            let name = object.name.copy()?;
            items.push(SetItem::Closure(name))?;
            implied.add_all(row_at(scan.destroys(), class));
        }
    }
    Ok(items)
}

/// The name of the node. Its error is that memory was refused.
pub fn node_name(meta: &Meta, node: Node) -> Result<NodeName, AllocError>
    requires { IsNode meta.now node }
    ensures { IfOk result (λ name. IsNodeNamed meta.now name node) }
{
    let Some(class) = meta.object(node.class) else {
        unreachable!();
    };
    let member = member_name(class, node.member)?;
    let class = class.name.copy()?;
    Ok(NodeName { class, member })
}

/// The name of the member, which the class has. Its error is that memory was refused.
fn member_name(class: &MetaObject, member: Member) -> Result<MemberName, AllocError>
    requires { HasMember class.now member }
    ensures { IfOk result (λ name. (p : Loaded) (c : ℕ) → IsClass p c class.now → IsMemberNamed p c name member) }
{
    match member {
        Member::Method(method) => match class.method(method) {
            Some(found) => {
                let sig = found.sig.get().copy()?;
                Ok(MemberName::Method(sig))
            }
            None => unreachable!(),
        },
        Member::Property(property) => match class.property(property) {
            Some(found) => {
                let name = found.name.copy()?;
                Ok(MemberName::Property(name))
            }
            None => unreachable!(),
        },
        Member::Destruction => Ok(MemberName::Destruction),
    }
}
