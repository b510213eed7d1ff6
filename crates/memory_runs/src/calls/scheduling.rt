//! The deletion of an object at a later time.

use crate::calls::holds::{Reportable, is_as_told, told_of};
use crate::calls::stores::put;
use crate::once_or_twice;
use crate::trials::{ReportBuffer, TrialAnswer, loaded};
use basic_types::{Arguments, Kind, LoopId, ObjectId, Value};
use delete_later::Store;
use event_loops::Item;
use std::alloc::{AllocError, Global};

/// What is emitted waits in the loop of its target.
const TARGETS: &str =
    "class A { signal s(int); } class T { property int n; slot hit(int v) { set this.n = v; } } wire A s(int) -> T hit(int) queued;";

/// The number from which on nothing is posted here.
const LAST_NUMBER: u64 = 1000;

/// `schedule` of an object that is connected, and for which something waits.
pub fn schedule(alloc: Global, told: &mut ReportBuffer) -> Option<TrialAnswer> {
    let mut store = Store::new(alloc).ok()?;
    fill(alloc, &mut store)?;
    let before = told_of(alloc, &store)?;
    Some(once_or_twice!(
        tell_schedule(&mut store, told),
        is_as_told(alloc, &store, &before)
    ))
}

/// Two objects, a connection between them, and an item that came along it.
fn fill(alloc: Global, store: &mut Store) -> Option<()> {
    let meta = loaded(alloc, TARGETS)?;
    put(alloc, &meta, &mut store.tree, b"a", b"A", 0)?;
    put(alloc, &meta, &mut store.tree, b"t", b"T", 0)?;
    connect_and_post(alloc, store)
}

fn connect_and_post(alloc: Global, store: &mut Store) -> Option<()> {
    let (sender, receiver) = (ObjectId::new(0), ObjectId::new(1));
    if store.connections.last() > 0 || store.loops.next_number() > 1 {
        return None;
    }
    store
        .connections
        .connect(sender, 4, receiver, 4, Kind::Queued, false, false)
        .ok()?;
    let mut arguments = Arguments::new(alloc);
    arguments.push(Value::Int(1)).ok()?;
    let item = Item::Call {
        object: receiver,
        method: 4,
        arguments,
    };
    store.loops.post(LoopId::new(0), item).ok()
}

fn tell_schedule(store: &mut Store, told: &mut ReportBuffer) -> TrialAnswer {
    let object = ObjectId::new(1);
    match store.tree.home(object) {
        Some(home) if store.loops.name(home).is_some() => {}
        _ => return TrialAnswer::Other,
    }
    if store.loops.next_number() > LAST_NUMBER {
        return TrialAnswer::Other;
    }
    match store.schedule(object) {
        Ok(()) => {
            store.tell(told);
            TrialAnswer::Ample
        }
        Err(AllocError) => TrialAnswer::Memory,
    }
}
