//! The calls of the stores of objects, connections and event loops.

ghost use Rattle.object_tree.specs.Typed.{AreTyped};

use crate::calls::holds::{Reportable, is_as_told, told_of};
use crate::once_or_twice;
use crate::trials::{ReportBuffer, TrialAnswer, loaded};
use basic_types::{Arguments, Kind, LoopId, Name, ObjectId, Value};
use connections::{ConnectFault, Connections};
use delete_later::Store;
use event_loops::{AddFault, Item, Loops, PostFault};
use meta_model::Meta;
use object_tree::{AdoptFault, CreateFault, Tree};
use prop_bindings::Bindings;
use std::alloc::{AllocError, Global};

const NODES: &str = "class Node { } class Leaf { } owns Node Node;";

/// More connections and items than are made here.
const MANY: u64 = 9;

/// The loops `main` and `io`.
pub const MAIN: usize = 0;

pub const IO: usize = 1;

/// `Tree::new`, `Connections::new` and `Bindings::new`, which take no memory.
pub fn empty_tree(alloc: Global, told: &mut ReportBuffer) -> TrialAnswer {
    Tree::new(alloc).tell(told);
    TrialAnswer::Ample
}

pub fn no_connections(alloc: Global, told: &mut ReportBuffer) -> TrialAnswer {
    Connections::new(alloc).tell(told);
    TrialAnswer::Ample
}

pub fn no_bindings(alloc: Global, told: &mut ReportBuffer) -> TrialAnswer {
    Bindings::new(alloc).tell(told);
    TrialAnswer::Ample
}

/// `Loops::new`.
pub fn first_loops(alloc: Global, told: &mut ReportBuffer) -> TrialAnswer {
    match Loops::new(alloc) {
        Ok(loops) => {
            loops.tell(told);
            TrialAnswer::Ample
        }
        Err(AllocError) => TrialAnswer::Memory,
    }
}

/// `Store::new`.
pub fn first_store(alloc: Global, told: &mut ReportBuffer) -> TrialAnswer {
    match Store::new(alloc) {
        Ok(store) => {
            store.tell(told);
            TrialAnswer::Ample
        }
        Err(AllocError) => TrialAnswer::Memory,
    }
}

/// Creates an object in the tree.
pub fn put(
    alloc: Global,
    meta: &Meta,
    tree: &mut Tree,
    name: &[u8],
    class: &[u8],
    home: usize,
) -> Option<()>
    ensures { AreTyped meta.now tree.old → AreTyped meta.now tree.new }
{
    let name = Name::of(alloc, name).ok()??;
    let class = Name::of(alloc, class).ok()??;
    match tree.create(meta, &name, &class, LoopId::new(home)) {
        Ok(_) => Some(()),
        Err(_) => None,
    }
}

/// `create`, where an object is there.
pub fn create(alloc: Global, told: &mut ReportBuffer) -> Option<TrialAnswer> {
    let meta = loaded(alloc, NODES)?;
    let mut tree = Tree::new(alloc);
    put(alloc, &meta, &mut tree, b"a", b"Node", MAIN)?;
    let before = told_of(alloc, &tree)?;
    create_in(alloc, &meta, &mut tree, &before, told)
}

fn create_in(
    alloc: Global,
    meta: &Meta,
    tree: &mut Tree,
    before: &ReportBuffer,
    told: &mut ReportBuffer,
) -> Option<TrialAnswer> {
    let name = Name::new(alloc, b"b").ok()?;
    let class = Name::new(alloc, b"Node").ok()?;
    Some(once_or_twice!(
        tell_create(meta, tree, &name, &class, told),
        is_as_told(alloc, tree, before)
    ))
}

fn tell_create(
    meta: &Meta,
    tree: &mut Tree,
    name: &Name,
    class: &Name,
    told: &mut ReportBuffer,
) -> TrialAnswer {
    match tree.create(meta, name, class, LoopId::new(IO)) {
        Ok(_) => {
            tree.tell(told);
            TrialAnswer::Ample
        }
        Err(CreateFault::Memory) => TrialAnswer::Memory,
        Err(_) => TrialAnswer::Other,
    }
}

/// `adopt`, where the parent and the child have each another parent already or none.
pub fn adopt(alloc: Global, told: &mut ReportBuffer) -> Option<TrialAnswer> {
    let meta = loaded(alloc, NODES)?;
    let mut tree = Tree::new(alloc);
    put_family(alloc, &meta, &mut tree)?;
    let before = told_of(alloc, &tree)?;
    Some(once_or_twice!(
        tell_adopt(&meta, &mut tree, told),
        is_as_told(alloc, &tree, &before)
    ))
}

/// A parent of two, and one more.
fn put_family(alloc: Global, meta: &Meta, tree: &mut Tree) -> Option<()> {
    for name in [b"p", b"a", b"b", b"c"] {
        put(alloc, meta, tree, name, b"Node", MAIN)?;
    }
    tree.adopt(meta, ObjectId::new(0), ObjectId::new(1)).ok()?;
    tree.adopt(meta, ObjectId::new(0), ObjectId::new(2)).ok()?;
    Some(())
}

fn tell_adopt(meta: &Meta, tree: &mut Tree, told: &mut ReportBuffer) -> TrialAnswer {
    match tree.adopt(meta, ObjectId::new(1), ObjectId::new(3)) {
        Ok(()) => {
            tree.tell(told);
            TrialAnswer::Ample
        }
        Err(AdoptFault::Memory) => TrialAnswer::Memory,
        Err(_) => TrialAnswer::Other,
    }
}

/// `connect` of two objects, where two others are connected and were connected before.
pub fn connect(alloc: Global, told: &mut ReportBuffer) -> Option<TrialAnswer> {
    let mut store = Connections::new(alloc);
    join(&mut store, 2, 3).ok()?;
    let (sender, receiver) = (ObjectId::new(2), ObjectId::new(3));
    store.disconnect(sender, 4, receiver, 4).ok()?;
    join(&mut store, 2, 3).ok()?;
    let before = told_of(alloc, &store)?;
    Some(once_or_twice!(
        tell_connect(&mut store, told),
        is_as_told(alloc, &store, &before)
    ))
}

/// Connects two objects that aren't connected yet, unless many connections were made.
fn join(store: &mut Connections, sender: usize, receiver: usize) -> Result<(), ConnectFault> {
    if store.last() > MANY {
        return Err(ConnectFault::Exists);
    }
    let (sender, receiver) = (ObjectId::new(sender), ObjectId::new(receiver));
    store.connect(sender, 4, receiver, 4, Kind::Direct, true, false)
}

fn tell_connect(store: &mut Connections, told: &mut ReportBuffer) -> TrialAnswer {
    match join(store, 0, 1) {
        Ok(()) => {
            store.tell(told);
            TrialAnswer::Ample
        }
        Err(ConnectFault::Memory) => TrialAnswer::Memory,
        Err(ConnectFault::Exists) => TrialAnswer::Other,
    }
}

/// `add`.
pub fn add(alloc: Global, told: &mut ReportBuffer) -> Option<TrialAnswer> {
    let mut loops = Loops::new(alloc).ok()?;
    let name = Name::new(alloc, b"io").ok()?;
    let before = told_of(alloc, &loops)?;
    Some(once_or_twice!(
        tell_add(&mut loops, &name, told),
        is_as_told(alloc, &loops, &before)
    ))
}

fn tell_add(loops: &mut Loops, name: &Name, told: &mut ReportBuffer) -> TrialAnswer {
    match loops.add(name) {
        Ok(()) => {
            loops.tell(told);
            TrialAnswer::Ample
        }
        Err(AddFault::Memory) => TrialAnswer::Memory,
        Err(AddFault::Exists) => TrialAnswer::Other,
    }
}

/// `post` to a loop in which nothing waits, where something waits in another one.
pub fn post(alloc: Global, told: &mut ReportBuffer) -> Option<TrialAnswer> {
    let mut loops = Loops::new(alloc).ok()?;
    let name = Name::new(alloc, b"io").ok()?;
    loops.add(&name).ok()?;
    let object = ObjectId::new(0);
    post_to(&mut loops, MAIN, Item::Deletion { object }).ok()?;
    let before = told_of(alloc, &loops)?;
    post_in(alloc, &mut loops, &before, told)
}

/// Posts an item, unless many were posted.
pub fn post_to(loops: &mut Loops, home: usize, item: Item) -> Result<(), PostFault> {
    if loops.next_number() > MANY {
        return Err(PostFault::NoLoop);
    }
    loops.post(LoopId::new(home), item)
}

fn post_in(
    alloc: Global,
    loops: &mut Loops,
    before: &ReportBuffer,
    told: &mut ReportBuffer,
) -> Option<TrialAnswer> {
    let first = call_of(alloc, ObjectId::new(1))?;
    match tell_post(loops, first, told) {
        TrialAnswer::Memory => {
            let is_as_before = is_as_told(alloc, loops, before);
            let second = call_of(alloc, ObjectId::new(1))?;
            Some(tell_post(loops, second, told).again(is_as_before))
        }
        answer => Some(answer),
    }
}

/// A call with one argument.
pub fn call_of(alloc: Global, object: ObjectId) -> Option<Item> {
    let mut arguments = Arguments::new(alloc);
    arguments.push(Value::Int(7)).ok()?;
    Some(Item::Call {
        object,
        method: 4,
        arguments,
    })
}

fn tell_post(loops: &mut Loops, item: Item, told: &mut ReportBuffer) -> TrialAnswer {
    match post_to(loops, IO, item) {
        Ok(()) => {
            loops.tell(told);
            TrialAnswer::Ample
        }
        Err(PostFault::Memory) => TrialAnswer::Memory,
        Err(PostFault::NoLoop) => TrialAnswer::Other,
    }
}
