//! What memory the stores hold: as much as what is in them needs, and not what ever was.

use crate::calls::loading::loaded;
use anyhow::Result;
use basic_types::{Kind, LoopId, Name, ObjectId};
use connections::Connections;
use meta_model::Meta;
use object_tree::{MOST_OBJECTS, Tree};
use std::alloc::{AllocError, Global};

/// A node may own others.
const NODES: &str = "class Node { } owns Node Node;";

/// How often one pair of objects is connected.
const TIMES: u64 = 1_000_000;

/// After how many of these the connections are swept.
const SWEPT_AFTER: u64 = 500;

/// How many things were made, and for how many of them memory was held at the most and at the end.
#[derive(Clone, Copy)]
struct Holding {
    made: usize,
    most: usize,
    left: usize,
}

/// For how many objects memory is held: for a parent and its child, once the parent is dead, once the child is dead too,
/// and once another one was created.
#[derive(Clone, Copy)]
struct HeldObjects {
    both: usize,
    child: usize,
    none: usize,
    other: usize,
}

/// Writes what memory the stores hold.
pub fn tell_holding<R: Print + AllocGlobal>(rt: &R) -> Result<()> {
    let alloc = rt.alloc();
    tell(rt, "connections", connected_in_turn(alloc))?;
    let meta = loaded(alloc, NODES)?;
    let HeldObjects {
        both,
        child,
        none,
        other,
    } = held_objects(alloc, &meta)?;
    println!(rt;
        "object_tree: {both} held, {child} where the parent is dead, {none} where both are, {other} with a third"
    )?;
    tell(rt, "object_tree", created_in_turn(alloc, &meta)?)
}

/// Writes how many things were made one after the other, and for how many of them a store held memory.
fn tell(rt: &impl Print, store: &str, holding: Holding) -> Result<()> {
    let Holding { made, most, left } = holding;
    println!(rt; "{store}: {made} one after the other, {most} held at most, {left} at the end")?;
    Ok(())
}

/// Connects and disconnects one pair of objects, one after the other, and sweeps at times: how many connections were made,
/// and how many cells were taken.
fn connected_in_turn(alloc: Global) -> Holding {
    let (sender, receiver) = (ObjectId::new(0), ObjectId::new(1));
    let mut connections = Connections::new(alloc);
    let mut most = 0;
    for time in 0..TIMES {
        if connections.last() < TIMES {
            let _ = connections.connect(sender, 4, receiver, 5, Kind::Auto, true, false);
        }
        let _ = connections.disconnect(sender, 4, receiver, 5);
        most = connections.cells().max(most);
        if time % SWEPT_AFTER == SWEPT_AFTER - 1 {
            connections.sweep();
        }
    }
    Holding {
        made: connections.last() as usize,
        most,
        left: connections.cells(),
    }
}

/// A parent that dies before its child, and an object that is created afterwards.
fn held_objects(alloc: Global, meta: &Meta) -> Result<HeldObjects, AllocError> {
    let mut tree = Tree::new(alloc);
    create(alloc, meta, &mut tree, 0)?;
    create(alloc, meta, &mut tree, 1)?;
    let (parent, child) = (ObjectId::new(0), ObjectId::new(1));
    let _ = tree.adopt(meta, parent, child);
    let both = tree.held();
    tree.mark_dead(parent);
    let child_alone = tree.held();
    tree.mark_dead(child);
    let none = tree.held();
    create(alloc, meta, &mut tree, 2)?;
    Ok(HeldObjects {
        both,
        child: child_alone,
        none,
        other: tree.held(),
    })
}

/// Creates as many objects as may be, each of which dies before the next one is created.
fn created_in_turn(alloc: Global, meta: &Meta) -> Result<Holding, AllocError> {
    let mut tree = Tree::new(alloc);
    let mut most = 0;
    for number in 0..MOST_OBJECTS {
        create(alloc, meta, &mut tree, number)?;
        most = tree.held().max(most);
        tree.mark_dead(ObjectId::new(number));
    }
    Ok(Holding {
        made: tree.len(),
        most,
        left: tree.held(),
    })
}

/// Creates the node of a number.
fn create(alloc: Global, meta: &Meta, tree: &mut Tree, number: usize) -> Result<(), AllocError> {
    let class = Name::new(alloc, b"Node")?;
    let text = format!(in alloc; "object{number}")?;
    if let Some(name) = Name::of(alloc, text.as_bytes())? {
        let _ = tree.create(meta, &name, &class, LoopId::new(0));
    }
    Ok(())
}
