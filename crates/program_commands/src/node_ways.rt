//! Ways along the edges of a program.

ghost use Rattle.std.specs.Prelude.{◌≡◌, ◌↔◌, ◌<◌, ℕ, false, List, length, replicate, IfOk, IsTrue};
ghost use Rattle.std.specs.List.{Contains, AllZip};
ghost use Rattle.effect_scan.specs.declared.node.Node.{Node};
ghost use Rattle.effect_scan.specs.Laws.{IsNode};
ghost use Rattle.effect_scan.specs.Nodes.{nodes_of, IsAt};
ghost use Rattle.effect_scan.specs.Scans.{IsScan};
ghost use Rattle.rank_graph.specs.Walks.{LeadsBy, IsWalk};
ghost use Rattle.settling.specs.Settles.{IsProperty};
ghost use Rattle.program_commands.specs.NodeWays.{AreFlags, HasWay, IsDestructionOf, IsWay, MayPass};

use crate::ways::way_to;
use effect_scan::{Member, Node, Scan, edges_join_nodes, row_at};
use meta_model::Meta;
use sqlite_items::Items;
use std::alloc::{AllocError, Global};

/// The nodes on a way from this one, along one edge at least, to one that has a flag in `ends`; none that has one in `closed` lies
/// on it behind the first. The error is that memory was refused.
pub fn nodes_to(
    alloc: Global,
    meta: &Meta,
    scan: &Scan,
    closed: Items<bool>,
    ends: &[bool],
    from: Node,
) -> Result<Items<Node>, AllocError>
    requires scan { IsScan meta.now scan.now }
    requires closed { length closed ≡ length scan.now.nodes }
    requires ends { length ends.now ≡ length scan.now.nodes }
    requires leads { HasWay meta.now closed ends.now from }
    ensures { IfOk result (IsWay meta.now closed ends.now from) }
{
    // All edges are between nodes.
    edges_join_nodes(meta);
    let first = number_of(meta, scan, from);
    match way_to(alloc, scan.rows(), closed, ends, first)? {
        Some(numbers) => nodes_at(alloc, scan, numbers.as_slice()),
        None => unreachable!(),
    }
}

/// The nodes on a way from this node to that, along one edge at least, behind the first of which none has a flag. The error is that
/// memory was refused.
pub fn nodes_between(
    alloc: Global,
    meta: &Meta,
    scan: &Scan,
    closed: Items<bool>,
    from: Node,
    to: Node,
) -> Result<Items<Node>, AllocError>
    requires scan { IsScan meta.now scan.now }
    requires closed { length closed ≡ length scan.now.nodes }
    requires node { IsNode meta.now to }
    requires leads { (along : List Node) × LeadsBy (MayPass meta.now closed) from along to × (0 < length along) }
    ensures { IfOk result (λ nodes. IsWalk (MayPass meta.now closed) from to nodes × (1 < length nodes)) }
{
    let last = number_of(meta, scan, to);
    let mut ends = no_flags(alloc, scan.nodes().len())?;
    ends.set(last, true);
    nodes_to(alloc, meta, scan, closed, ends.as_slice(), from)
}

/// The number of a node.
fn number_of(meta: &Meta, scan: &Scan, node: Node) -> usize
    requires scan { IsScan meta.now scan.now }
    requires node { IsNode meta.now node }
    ensures { IsAt (nodes_of meta.now) node result }
{
    match scan.number(node) {
        Some(number) => number,
        None => unreachable!(),
    }
}

/// The nodes of these numbers. The error is that memory was refused.
fn nodes_at(alloc: Global, scan: &Scan, numbers: &[usize]) -> Result<Items<Node>, AllocError>
    requires { (n : ℕ) → Contains numbers.now n → n < length scan.now.nodes }
    ensures { IfOk result (AllZip (λ n x. IsAt scan.now.nodes x n) numbers.now) }
{
    let all = scan.nodes();
    let mut nodes = Items::new(alloc);
    for number in numbers {
        nodes.push(all[*number])?;
    }
    Ok(nodes)
}

/// So many nodes have no flag. The error is that memory was refused.
pub fn no_flags(alloc: Global, count: usize) -> Result<Items<bool>, AllocError>
    ensures { IfOk result (λ flags. flags ≡ replicate count false) }
{
    let mut flags = Vec::new(alloc);
    flags.resize(count, false)?;
    Ok(Items::from_vec(flags))
}

/// The properties have a flag. The error is that memory was refused.
pub fn properties(alloc: Global, scan: &Scan) -> Result<Items<bool>, AllocError>
    ensures { IfOk result (AreFlags IsProperty scan.now.nodes) }
{
    let mut flags = Items::new(alloc);
    for node in scan.nodes() {
        flags.push(is_property(*node))?;
    }
    Ok(flags)
}

/// Whether the node is a property.
fn is_property(node: Node) -> bool
    ensures { IsTrue result ↔ IsProperty node }
{
    matches!(node.member, Member::Property(_))
}

/// The destructions have a flag with which an object of the class may be destroyed at once. The error is that memory was refused.
pub fn destructions(alloc: Global, scan: &Scan, class: usize) -> Result<Items<bool>, AllocError>
    ensures { IfOk result (AreFlags (IsDestructionOf scan.now.closures class) scan.now.nodes) }
{
    let mut flags = Items::new(alloc);
    for node in scan.nodes() {
        flags.push(destroys(scan, class, *node))?;
    }
    Ok(flags)
}

/// Whether the node is a destruction with which an object of the class may be destroyed at once.
fn destroys(scan: &Scan, class: usize, node: Node) -> bool
    ensures { IsTrue result ↔ IsDestructionOf scan.now.closures class node }
{
    match node.member {
        Member::Destruction => row_at(scan.destroys(), node.class).contains(&class),
        Member::Method(_) | Member::Property(_) => false,
    }
}
