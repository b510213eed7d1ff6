//! The edges between components, and the classes that components destroy themselves.

ghost use Rattle.std.specs.Prelude.{◌≡◌, IfOk};
ghost use Rattle.effect_scan.specs.Rows.{row, Edge};
ghost use Rattle.rank_make.specs.Solved.{own_of, own_rows};
ghost use Rattle.settling_make.specs.Collected.{LeadsOut, Adds, IsCollected, AreCollected};

use crate::components::Components;
use effect_scan::{Member, Node, Scan, Targets, row_at};
use sqlite_items::{Items, at};
use std::alloc::{AllocError, Global};

/// For each component the others that edges from its nodes lead to. The error is that memory was refused.
pub fn outer_rows(
    alloc: Global,
    scan: &Scan,
    found: &Components,
) -> Result<Items<Targets>, AllocError>
    ensures { IfOk result (AreCollected (LeadsOut scan.now.rows found.now.numbers) found.now.sets) }
{
    let mut rows = Items::new(alloc);
    for component in 0..found.sets.len() {
        let row = outer_row(alloc, scan, found, component)?;
        rows.push(row)?;
    }
    Ok(rows)
}

/// The others that edges from the nodes of this component lead to. The error is that memory was refused.
fn outer_row(
    alloc: Global,
    scan: &Scan,
    found: &Components,
    component: usize,
) -> Result<Targets, AllocError>
    ensures { IfOk result (IsCollected
        (LeadsOut scan.now.rows found.now.numbers component) (row found.now.sets component)) }
{
    let mut others = Targets::new();
    for member in row_at(found.sets.as_slice(), component) {
        add_outer(alloc, scan, found, component, *member, &mut others)?;
    }
    Ok(others)
}

/// Adds those that edges from this node lead to. The error is that memory was refused.
fn add_outer(
    alloc: Global,
    scan: &Scan,
    found: &Components,
    component: usize,
    member: usize,
    others: &mut Targets,
) -> Result<(), AllocError>
    ensures { IfOk result (λ _.
        Adds (LeadsOut scan.now.rows found.now.numbers component) member others.old others.new) }
{
    for target in scan.targets(member) {
        let other = found.number(*target);
        if other != component {
            others.add(alloc, other)?;
        }
    }
    Ok(())
}

/// For each component the classes whose objects are destroyed at once with its nodes. The error is that memory was refused.
pub fn outer_own(
    alloc: Global,
    scan: &Scan,
    found: &Components,
) -> Result<Items<Items<usize>>, AllocError>
    ensures { IfOk result (AreCollected (λ k. Edge (own_rows scan.now)) found.now.sets) }
{
    let mut rows = Items::new(alloc);
    for component in 0..found.sets.len() {
        let classes = own_classes(alloc, scan, row_at(found.sets.as_slice(), component))?;
        rows.push(classes)?;
    }
    Ok(rows)
}

/// The classes whose objects are destroyed at once with these nodes. The error is that memory was refused.
fn own_classes(alloc: Global, scan: &Scan, members: &[usize]) -> Result<Items<usize>, AllocError>
    ensures { IfOk result (IsCollected (Edge (own_rows scan.now)) members.now) }
{
    let mut classes = Items::new(alloc);
    for member in members {
        add_own(alloc, scan, *member, &mut classes)?;
    }
    Ok(classes)
}

/// Adds those whose objects are destroyed at once with this node. The error is that memory was refused.
fn add_own(
    alloc: Global,
    scan: &Scan,
    member: usize,
    classes: &mut Items<usize>,
) -> Result<(), AllocError>
    ensures { IfOk result (λ _. Adds (Edge (own_rows scan.now)) member classes.old classes.new) }
{
    match at(scan.nodes(), member) {
        Some(node) => {
            let own = own_row(alloc, scan, *node)?;
            classes.append(own)?;
            Ok(())
        }
        None => Ok(()),
    }
}

/// The classes whose objects are destroyed at once with this node. The error is that memory was refused.
fn own_row(alloc: Global, scan: &Scan, node: Node) -> Result<Items<usize>, AllocError>
    ensures { IfOk result (λ classes. classes ≡ own_of scan.now.closures node) }
{
    match node.member {
        Member::Destruction => Items::from_slice(alloc, row_at(scan.destroys(), node.class)),
        Member::Method(_) | Member::Property(_) => Ok(Items::new(alloc)),
    }
}
