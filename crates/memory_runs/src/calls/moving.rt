//! The calls that move objects from one event loop to another.

use crate::calls::holds::{Reportable, is_as_told, told_of};
use crate::calls::stores::{IO, MAIN, call_of, post_to, put};
use crate::once_or_twice;
use crate::trials::{ReportBuffer, TrialAnswer, loaded};
use basic_types::{LoopId, Name, ObjectId};
use delete_later::{MoveFault, Store};
use event_loops::{Item, Loops, PostFault};
use object_tree::Tree;
use std::alloc::{AllocError, Global};

const TARGETS: &str = "class T { property int n; slot hit(int v) { set this.n = v; } } owns T T;";

/// An object and its child, for each of which something waits in the loop `main`, beside the loop `io`.
fn filled(alloc: Global) -> Option<Store> {
    let meta = loaded(alloc, TARGETS)?;
    let mut store = Store::new(alloc).ok()?;
    put(alloc, &meta, &mut store.tree, b"t", b"T", MAIN)?;
    put(alloc, &meta, &mut store.tree, b"u", b"T", MAIN)?;
    let (parent, child) = (ObjectId::new(0), ObjectId::new(1));
    store.tree.adopt(&meta, parent, child).ok()?;
    let io = Name::of(alloc, b"io").ok()??;
    store.loops.add(&io).ok()?;
    let call = call_of(alloc, parent)?;
    post_to(&mut store.loops, MAIN, call).ok()?;
    post_to(&mut store.loops, MAIN, Item::Deletion { object: child }).ok()?;
    Some(store)
}

/// `Tree::below`.
pub fn below(alloc: Global, told: &mut ReportBuffer) -> Option<TrialAnswer> {
    let store = filled(alloc)?;
    let before = told_of(alloc, &store)?;
    Some(once_or_twice!(
        tell_below(&store.tree, told),
        is_as_told(alloc, &store, &before)
    ))
}

fn tell_below(tree: &Tree, told: &mut ReportBuffer) -> TrialAnswer {
    let object = ObjectId::new(0);
    if tree.life(object).is_none() {
        return TrialAnswer::Other;
    }
    match tree.below(object) {
        Ok(found) => {
            for each in found.as_slice() {
                told.count(" #", each.number());
            }
            TrialAnswer::Ample
        }
        Err(AllocError) => TrialAnswer::Memory,
    }
}

/// `Loops::rehome`.
pub fn rehome(alloc: Global, told: &mut ReportBuffer) -> Option<TrialAnswer> {
    let mut store = filled(alloc)?;
    let before = told_of(alloc, &store)?;
    Some(once_or_twice!(
        tell_rehome(&mut store.loops, told),
        is_as_told(alloc, &store, &before)
    ))
}

fn tell_rehome(loops: &mut Loops, told: &mut ReportBuffer) -> TrialAnswer {
    match loops.rehome(&[ObjectId::new(0), ObjectId::new(1)], LoopId::new(IO)) {
        Ok(()) => {
            loops.tell(told);
            TrialAnswer::Ample
        }
        Err(PostFault::Memory) => TrialAnswer::Memory,
        Err(PostFault::NoLoop) => TrialAnswer::Other,
    }
}

/// `Store::move_tree`.
pub fn move_tree(alloc: Global, told: &mut ReportBuffer) -> Option<TrialAnswer> {
    let mut store = filled(alloc)?;
    let before = told_of(alloc, &store)?;
    Some(once_or_twice!(
        tell_move(&mut store, told),
        is_as_told(alloc, &store, &before)
    ))
}

fn tell_move(store: &mut Store, told: &mut ReportBuffer) -> TrialAnswer {
    let object = ObjectId::new(0);
    if store.tree.life(object).is_none() {
        return TrialAnswer::Other;
    }
    match store.move_tree(object, LoopId::new(IO)) {
        Ok(()) => {
            store.tell(told);
            TrialAnswer::Ample
        }
        Err(MoveFault::Memory) => TrialAnswer::Memory,
        Err(_) => TrialAnswer::Other,
    }
}
