//! An object's deletion, which waits once, and what its end takes with it.

use crate::calls::following::{FOLLOWERS, stocked};
use crate::calls::loading::loaded;
use anyhow::Result;
use basic_types::{LoopId, ObjectId};
use delete_later::Store;
use std::alloc::AllocError;

/// The number from which on nothing is posted here.
const LAST_NUMBER: u64 = 1000;

/// Schedules an object where the loop in which it lives is there; answers whether it does.
fn schedule(store: &mut Store, object: ObjectId) -> Result<bool, AllocError> {
    let Some(home) = store.tree.home(object) else {
        return Ok(false);
    };
    if store.loops.name(home).is_none() || store.loops.next_number() >= LAST_NUMBER {
        return Ok(false);
    }
    store.schedule(object)?;
    Ok(true)
}

/// Writes how many items wait for an object that is scheduled twice, and what is left once it ends.
pub fn tell_scheduling<R: Print + AllocGlobal>(rt: &R) -> Result<()> {
    let meta = loaded(rt.alloc(), FOLLOWERS)?;
    let mut store = Store::new(rt.alloc())?;
    store.tree = stocked(rt.alloc(), &meta)?;
    let object = ObjectId::new(0);
    let is_scheduled = schedule(&mut store, object)? && schedule(&mut store, object)?;
    let posted = store.loops.next_number() - 1;
    println!(rt; "Scheduled twice: {is_scheduled}, {posted} posted")?;
    store.mark_dead(object);
    store.end_one(object);
    let waits = store.loops.take_before(LoopId::new(0), u64::MAX).is_some();
    let next = store.next_to_end(&[object]).is_some();
    println!(rt; "At its end something waits: {waits}, and a child is left: {next}")?;
    Ok(())
}
