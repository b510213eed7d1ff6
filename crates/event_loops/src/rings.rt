//! The rings of all loops, with the marks that say which of the items in them wait.

ghost use Rattle.std.specs.Prelude.{◌≡◌, ◌↔◌, ◌+◌, ◌^◌, ◌<◌, ◌≤◌, Err, length, OnOk, OnErr, map};
ghost use Rattle.std.specs.List.{find};
ghost use Rattle.std.specs.Option.{option_copied};
ghost use Rattle.event_loops.specs.Queues.{items_at, change, is_before, next_item, with_item, without_first_before, without_object};
ghost use Rattle.event_loops.specs.code.Rings.{loops_in};
ghost use Rattle.event_loops.specs.code.Kept.{seen, Within, StayWithin};
ghost use Rattle.event_loops.specs.code.Counts.{Counted};
ghost use Rattle.event_loops.specs.code.Sure.{AllTold};
ghost use Rattle.event_loops.specs.declared.fault.PostFault.TheVariants.{NoLoop};

use crate::fault::PostFault;
use crate::item::{Item, Posted};
use crate::marks::Marks;
use crate::queue::{peek_before, push, take_before, trim};
use basic_types::{LoopId, Name, ObjectId};
use indexmap::IndexMap;
use std::alloc::AllocError;
use std::collections::VecDeque;

/// One more item at the end of the loop at a place, after so many were posted; without memory nothing is seen to change.
#[inline(always)]
pub fn post_at(
    queues: &mut IndexMap<Name, VecDeque<Posted>>,
    marks: &mut Marks,
    home: LoopId,
    item: Item,
    posted: u64,
) -> Result<(), PostFault>
    requires within { Within posted queues.old marks.old }
    requires few { posted + 1 < 2 ^ 64 }
    requires told { AllTold queues.old marks.old }
    requires counted { Counted queues.old marks.old }
    ensures pushed { OnOk result
        (seen queues.new marks.new
        ≡ change home (with_item (next_item posted item)) (seen queues.old marks.old)) }
    ensures within { OnOk result (Within (posted + 1) queues.new marks.new) }
    ensures no_loop { (result ≡ Err NoLoop) ↔ (length queues.old.entries ≤ home) }
    ensures err { OnErr result (seen queues.new marks.new ≡ seen queues.old marks.old) }
    ensures still { OnErr result (Within posted queues.new marks.new) }
    ensures told { AllTold queues.new marks.new }
    ensures counted { Counted queues.new marks.new }
{
    if home.number() >= queues.len() {
        return Err(PostFault::NoLoop);
    }
    marks.note(item.object(), home, posted)?;
    let next = Posted {
        number: posted + 1,
        item,
    };
    push_at(queues, home.number(), next)?;
    Ok(())
}

/// One more item in the ring of the loop at a place.
#[inline(always)]
fn push_at(
    queues: &mut IndexMap<Name, VecDeque<Posted>>,
    home: usize,
    posted: Posted,
) -> Result<(), AllocError>
    requires { home < length queues.old.entries }
    ensures pushed { OnOk result
        (loops_in queues.new ≡ change home (with_item posted) (loops_in queues.old)) }
    ensures err { OnErr result (loops_in queues.new ≡ loops_in queues.old) }
{
    match queues.get_index_mut(home) {
        None => unreachable!(),
        Some(items) => push(items, posted),
    }
}

/// The first item that waits in the loop at a place and was posted before the one of this number.
pub fn peek_at<'a>(
    queues: &'a IndexMap<Name, VecDeque<Posted>>,
    marks: &Marks,
    home: usize,
    number: u64,
) -> Option<&'a Posted>
    requires { AllTold queues.now marks.now }
    ensures { option_copied result
        ≡ find (is_before number) (items_at (seen queues.now marks.now) home) }
{
    match queues.get_index(home) {
        None => None,
        Some((_, items)) => peek_before(items, marks, number),
    }
}

/// Takes the first such item, if there is one.
#[inline(always)]
pub fn take_at(
    queues: &mut IndexMap<Name, VecDeque<Posted>>,
    marks: &Marks,
    home: usize,
    number: u64,
) -> Option<Posted>
    requires { AllTold queues.old marks.now }
    ensures taken { result
        ≡ find (is_before number) (items_at (seen queues.old marks.now) home) }
    ensures rest { seen queues.new marks.now
        ≡ change home (without_first_before number) (seen queues.old marks.now) }
    ensures within { StayWithin queues.old marks.now queues.new marks.now }
    ensures told { AllTold queues.new marks.now }
{
    match queues.get_index_mut(home) {
        None => None,
        Some(items) => take_before(items, marks, number),
    }
}

/// No item waits for an object any more, after so many were posted.
pub fn forget(
    queues: &mut IndexMap<Name, VecDeque<Posted>>,
    marks: &mut Marks,
    object: ObjectId,
    posted: u64,
)
    requires within { Within posted queues.old marks.old }
    requires told { AllTold queues.old marks.old }
    requires counted { Counted queues.old marks.old }
    ensures dropped { seen queues.new marks.new
        ≡ map (without_object object) (seen queues.old marks.old) }
    ensures within { StayWithin queues.old marks.old queues.new marks.new }
    ensures told { AllTold queues.new marks.new }
    ensures counted { Counted queues.new marks.new }
{
    match marks.forget(object) {
        None => {}
        Some(home) => {
            marks.last_stale = posted;
            trim_at(queues, marks, home);
        }
    }
}

/// Removes the stale items from the front of the ring of the loop at a place.
fn trim_at(queues: &mut IndexMap<Name, VecDeque<Posted>>, marks: &Marks, home: usize)
    requires { AllTold queues.old marks.now }
    ensures seen { seen queues.new marks.now ≡ seen queues.old marks.now }
    ensures within { StayWithin queues.old marks.now queues.new marks.now }
    ensures told { AllTold queues.new marks.now }
{
    match queues.get_index_mut(home) {
        None => {}
        Some(items) => trim(items, marks),
    }
}
