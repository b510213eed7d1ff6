//! The items of one loop, in a ring. Some of them may be stale.

ghost use Rattle.std.specs.Prelude.{◌≡◌, true, [], ◌∷◌, ◌++◌, OnOk, OnErr};
ghost use Rattle.std.specs.List.{find};
ghost use Rattle.std.specs.Option.{option_copied};
ghost use Rattle.event_loops.specs.Queues.{without_first};
ghost use Rattle.event_loops.specs.code.Rings.{place_of_first};
ghost use Rattle.event_loops.specs.code.Marks.{since_of, is_due, taken_due, trimmed};
ghost use Rattle.event_loops.specs.code.Sure.{AreTold, is_told};

use crate::item::Posted;
use crate::marks::Marks;
use std::alloc::AllocError;
use std::collections::VecDeque;

/// One more item at the end; without memory nothing changes.
#[inline(always)]
pub fn push(items: &mut VecDeque<Posted>, posted: Posted) -> Result<(), AllocError>
    ensures ok { OnOk result (items.new.items ≡ items.old.items ++ posted ∷ []) }
    ensures err { OnErr result (items.new.items ≡ items.old.items) }
{
    items.reserve(1)?;
    items.push_back_reserved(posted);
    Ok(())
}

/// The first item that waits and was posted before the one of this number. Where one is there, it mostly is the first of
/// all.
#[inline(always)]
#[tactic(auto, using(crate::proofs::Places::by_place))]
pub fn peek_before<'a>(
    items: &'a VecDeque<Posted>,
    marks: &Marks,
    number: u64,
) -> Option<&'a Posted>
    requires { AreTold marks.now items.now.items }
    ensures { option_copied result ≡ find (is_due (since_of marks.now) number) items.now.items }
{
    let first = items.front()?;
    if is_due(first, marks, number) {
        return Some(first);
    }
    match first_before(items, marks, number) {
        None => None,
        Some(place) => items.get(place),
    }
}

/// Removes the first item that waits and was posted before the one of this number, and gives it.
#[inline(always)]
pub fn take_before(items: &mut VecDeque<Posted>, marks: &Marks, number: u64) -> Option<Posted>
    requires { AreTold marks.now items.old.items }
    ensures taken { result ≡ find (is_due (since_of marks.now) number) items.old.items }
    ensures rest { items.new.items ≡ taken_due (since_of marks.now) number items.old.items }
{
    let taken = remove_before(items, marks, number);
    trim(items, marks);
    taken
}

#[inline(always)]
#[tactic(auto, using(crate::proofs::Places::by_place))]
fn remove_before(items: &mut VecDeque<Posted>, marks: &Marks, number: u64) -> Option<Posted>
    requires { AreTold marks.now items.old.items }
    ensures taken { result ≡ find (is_due (since_of marks.now) number) items.old.items }
    ensures rest { items.new.items
        ≡ without_first (is_due (since_of marks.now) number) items.old.items }
{
    let first = items.front()?;
    if is_due(first, marks, number) {
        return items.pop_front();
    }
    match first_before(items, marks, number) {
        None => None,
        Some(place) => items.remove(place),
    }
}

/// The place of the first item that waits and was posted before the one of this number.
#[inline(never)]
fn first_before(items: &VecDeque<Posted>, marks: &Marks, number: u64) -> Option<usize>
    requires { AreTold marks.now items.now.items }
    ensures { result ≡ place_of_first (is_due (since_of marks.now) number) items.now.items }
{
    for place in 0..items.len() {
        if is_due(&items[place], marks, number) {
            return Some(place);
        }
    }
    None
}

/// Whether an item waits and was posted before the one of this number.
#[inline(always)]
fn is_due(posted: &Posted, marks: &Marks, number: u64) -> bool
    requires { is_told marks.now posted.now ≡ true }
    ensures { result ≡ is_due (since_of marks.now) number posted.now }
{
    posted.number < number && marks.waits(posted)
}

/// Removes the items in front of the first that waits.
#[inline(always)]
pub fn trim(items: &mut VecDeque<Posted>, marks: &Marks)
    requires { AreTold marks.now items.old.items }
    ensures { items.new.items ≡ trimmed (since_of marks.now) items.old.items }
{
    'trim: while let Some(first) = items.front() {
        if marks.waits(first) {
            return;
        }
        items.pop_front();
    }
}
