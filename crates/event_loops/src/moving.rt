//! Items that move to another loop with their objects.

ghost use Rattle.std.specs.Prelude.{◌≡◌, ◌+◌, ◌<◌, ◌≤◌, ◌++◌, ◌&&◌, ℕ, eqb, nat_lt, length, map, take, drop, IfOk, IfSome, OnOk, OnErr};
ghost use Rattle.std.specs.List.{list_any};
ghost use Rattle.std.specs.VecDeque.{deque_len, deque_capacity};
ghost use Rattle.indexmap.specs.IndexSet.{contains};
ghost use Rattle.event_loops.specs.Queues.{all_items, items_at, change, with_items};
ghost use Rattle.event_loops.specs.code.Rings.{loops_in, goes, those_going, those_staying, without_going, gathered};
ghost use Rattle.event_loops.specs.code.Counts.{waiting_of};

use crate::item::Posted;
use crate::marks::Marks;
use basic_types::{Name, ObjectId};
use indexmap::{IndexMap, IndexSet};
use std::alloc::{AllocError, Global};
use std::collections::VecDeque;
use std::mem;

/// The numbers of those of these objects for which items wait. Its error is that memory was refused.
pub fn waiting_among(
    alloc: Global,
    marks: &Marks,
    objects: &[ObjectId],
) -> Result<IndexSet<usize>, AllocError>
    ensures { IfOk result (λ numbers. (o : ℕ) → contains eqb numbers o
        ≡ (list_any (λ k. eqb o k) objects.now && nat_lt 0 (waiting_of marks.now o))) }
{
    let mut numbers = IndexSet::new(alloc);
    for object in objects {
        if !marks.awaits(object.number()) {
            continue;
        }
        numbers.insert(object.number())?;
    }
    Ok(numbers)
}

/// Moves the items for objects of these numbers from all other rings to the end of the ring at a place; without memory
/// nothing changes.
pub fn rehome_at(
    queues: &mut IndexMap<Name, VecDeque<Posted>>,
    going: &IndexSet<usize>,
    home: usize,
    alloc: Global,
) -> Result<(), AllocError>
    requires { home < length queues.old.entries }
    ensures gathered { OnOk result
        (loops_in queues.new ≡ gathered (contains eqb going.now) home (loops_in queues.old)) }
    ensures err { OnErr result (loops_in queues.new ≡ loops_in queues.old) }
{
    let mut ring = replace_at(queues, home, VecDeque::new(alloc));
    let gathered = gather(queues, going, &mut ring);
    replace_at(queues, home, ring);
    gathered
}

/// Puts another ring in place of the one at a place, and gives that.
fn replace_at(
    queues: &mut IndexMap<Name, VecDeque<Posted>>,
    home: usize,
    ring: VecDeque<Posted>,
) -> VecDeque<Posted>
    requires { home < length queues.old.entries }
    ensures there { length queues.new.entries ≡ length queues.old.entries }
    ensures put { loops_in queues.new ≡ change home (with_items (λ items. ring.items)) (loops_in queues.old) }
    ensures old { result.items ≡ items_at (loops_in queues.old) home }
{
    match queues.get_index_mut(home) {
        None => unreachable!(),
        Some(items) => mem::replace(items, ring),
    }
}

/// Moves the items for objects of these numbers from all rings to the end of another; without memory nothing changes.
fn gather(
    queues: &mut IndexMap<Name, VecDeque<Posted>>,
    going: &IndexSet<usize>,
    ring: &mut VecDeque<Posted>,
) -> Result<(), AllocError>
    ensures there { length queues.new.entries ≡ length queues.old.entries }
    ensures left { OnOk result
        (loops_in queues.new ≡ map (without_going (contains eqb going.now)) (loops_in queues.old)) }
    ensures moved { OnOk result (ring.new.items
        ≡ ring.old.items ++ those_going (contains eqb going.now) (all_items (loops_in queues.old))) }
    ensures err { OnErr result
        ((loops_in queues.new ≡ loops_in queues.old) × (ring.new.items ≡ ring.old.items)) }
{
    let Some(count) = count_in_all(queues, going) else {
        return Err(AllocError);
    };
    ring.reserve(count)?;
    for place in 0..queues.len() {
        part_at(queues, going, place, ring);
    }
    Ok(())
}

/// How many items of all rings are for objects of these numbers; `None` where a `usize` can't say.
fn count_in_all(queues: &IndexMap<Name, VecDeque<Posted>>, going: &IndexSet<usize>) -> Option<usize>
    ensures { IfSome result (λ count. count
        ≡ length (those_going (contains eqb going.now) (all_items (loops_in queues.now)))) }
{
    let mut count: usize = 0;
    for place in 0..queues.len() {
        count = count.checked_add(count_at(queues, going, place))?;
    }
    Some(count)
}

/// How many items of the ring at a place are for objects of these numbers.
fn count_at(
    queues: &IndexMap<Name, VecDeque<Posted>>,
    going: &IndexSet<usize>,
    place: usize,
) -> usize
    ensures { result
        ≡ length (those_going (contains eqb going.now) (items_at (loops_in queues.now) place)) }
{
    match queues.get_index(place) {
        None => 0,
        Some((_, items)) => count_in(items, going),
    }
}

/// How many items of a ring are for objects of these numbers.
fn count_in(items: &VecDeque<Posted>, going: &IndexSet<usize>) -> usize
    ensures { result ≡ length (those_going (contains eqb going.now) items.now.items) }
{
    let mut count = 0;
    for place in 0..items.len() {
        if goes(&items[place], going) {
            count += 1;
        }
    }
    count
}

/// Whether an item is for an object of these numbers.
fn goes(posted: &Posted, going: &IndexSet<usize>) -> bool
    ensures { result ≡ goes (contains eqb going.now) posted.now }
{
    going.contains(&posted.item.object().number())
}

/// Moves the items for objects of these numbers from the ring at a place to the end of another, which has room for them.
fn part_at(
    queues: &mut IndexMap<Name, VecDeque<Posted>>,
    going: &IndexSet<usize>,
    place: usize,
    ring: &mut VecDeque<Posted>,
)
    requires room { deque_len ring.old + length (those_going (contains eqb going.now) (items_at (loops_in queues.old) place))
        ≤ deque_capacity ring.old }
    ensures left { loops_in queues.new
        ≡ change place (without_going (contains eqb going.now)) (loops_in queues.old) }
    ensures moved { ring.new.items
        ≡ ring.old.items ++ those_going (contains eqb going.now) (items_at (loops_in queues.old) place) }
    ensures len { deque_len ring.new ≡ deque_len ring.old
        + length (those_going (contains eqb going.now) (items_at (loops_in queues.old) place)) }
    ensures capacity { deque_capacity ring.new ≡ deque_capacity ring.old }
{
    match queues.get_index_mut(place) {
        None => {}
        Some(items) => part(items, going, ring),
    }
}

/// Moves the items for objects of these numbers from one ring to the end of another, which has room for them.
fn part(items: &mut VecDeque<Posted>, going: &IndexSet<usize>, ring: &mut VecDeque<Posted>)
    requires room { deque_len ring.old
        + length (those_going (contains eqb going.now) items.old.items) ≤ deque_capacity ring.old }
    ensures left { items.new.items ≡ those_staying (contains eqb going.now) items.old.items }
    ensures moved { ring.new.items
        ≡ ring.old.items ++ those_going (contains eqb going.now) items.old.items }
    ensures len { deque_len ring.new
        ≡ deque_len ring.old + length (those_going (contains eqb going.now) items.old.items) }
    ensures capacity { deque_capacity ring.new ≡ deque_capacity ring.old }
{
    for turn in 0..items.len() {
        part_first(items, going, ring);
    }
}

/// The first item of a ring goes to the end of another, which has room for it, if it is for an object of these numbers, and
/// else to the end of its own.
fn part_first(items: &mut VecDeque<Posted>, going: &IndexSet<usize>, ring: &mut VecDeque<Posted>)
    requires room { deque_len ring.old
        + length (those_going (contains eqb going.now) (take 1 items.old.items))
        ≤ deque_capacity ring.old }
    ensures left { items.new.items ≡ drop 1 items.old.items
        ++ those_staying (contains eqb going.now) (take 1 items.old.items) }
    ensures moved { ring.new.items ≡ ring.old.items
        ++ those_going (contains eqb going.now) (take 1 items.old.items) }
    ensures len { deque_len ring.new ≡ deque_len ring.old
        + length (those_going (contains eqb going.now) (take 1 items.old.items)) }
    ensures capacity { deque_capacity ring.new ≡ deque_capacity ring.old }
{
    let Some(first) = items.front() else {
        return;
    };
    if !goes(first, going) {
        items.rotate_left(1);
        return;
    }
    if let Some(posted) = items.pop_front() {
        ring.push_back_reserved(posted);
    }
}
