//! Slots of objects, which are used again.

ghost use Rattle.std.specs.Prelude.{◌≡◌, ◌<◌, ◌+◌, [], ◌∷◌, ◌++◌, None, Some, length, OnOk, OnErr, IsSome};
ghost use Rattle.std.specs.Vec.{vec_len, vec_capacity};
ghost use Rattle.std.specs.Option.{option_copied};
ghost use Rattle.slab.specs.Slab.{get, slab_len, Updates, HasRoomFor};
ghost use Rattle.object_tree.specs.Objects.{with_life, blocked, scheduled, written};
ghost use Rattle.object_tree.specs.Family.{children_in, joined_by, left_by, put_under, dead};
ghost use Rattle.object_tree.specs.Moving.{in_loop};
ghost use Rattle.object_tree.specs.code.Slots.{new_slot, key_at, name_at, object_in, adoption_in, is_idle, AreDistinctIn, Changes, Writes, KeepsSlots, GivesUp};

use crate::object::Object;
use basic_types::{LoopId, Name, ObjectId, Value};
use slab::Slab;
use std::alloc::AllocError;

/// An object that lives or has a living child, with its number.
#[derive(Drop)]
pub struct Slot {
    pub serial: usize,
    /// The number under which its parent adopted it, if it has one.
    pub adoption: u64,
    pub object: Object,
}

/// What is kept of an object for ever: its name, and the key of the slot that it got. Once the object is dead and has no
/// living child, the slot may be that of another object, which its serial tells.
#[derive(Drop)]
pub struct ObjectRecord {
    pub name: Name,
    pub key: usize,
}

/// The key of the slot that an object got.
pub fn key_of(entries: &[ObjectRecord], object: ObjectId) -> Option<usize>
    ensures { result ≡ key_at entries.now object }
{
    match entries.get(object.number()) {
        Some(entry) => Some(entry.key),
        None => None,
    }
}

/// The name of an object, which may be dead.
pub fn name_in(entries: &[ObjectRecord], object: ObjectId) -> Option<&Name>
    ensures { option_copied result ≡ name_at entries.now object }
{
    match entries.get(object.number()) {
        Some(entry) => Some(&entry.name),
        None => None,
    }
}

/// The object of this number, if the slot is still its own.
pub fn object_in(slots: &Slab<Slot>, key: usize, object: ObjectId) -> Option<&Object>
    ensures { option_copied result ≡ object_in object (get slots.now key) }
{
    match slots.get(key) {
        Some(slot) if slot.serial == object.number() => Some(&slot.object),
        _ => None,
    }
}

/// Puts an object, for which there is room, into a slot, with its name for ever.
pub fn put(
    entries: &mut Vec<ObjectRecord>,
    slots: &mut Slab<Slot>,
    name: Name,
    object: Object,
) -> usize
    requires entry { vec_len entries.old < vec_capacity entries.old }
    requires slot { HasRoomFor slots.old 1 }
    ensures vacant { get slots.old result ≡ None }
    ensures slot { Updates slots.old slots.new result
        (Some (new_slot (length entries.old.items) object)) }
    ensures len { slab_len slots.new ≡ slab_len slots.old + 1 }
    ensures entry { entries.new.items
        ≡ entries.old.items ++ record { name = name; key = result } ∷ [] }
{
    let serial = entries.len();
    let key = slots.insert_reserved(Slot {
        serial,
        adoption: 0,
        object,
    });
    entries.push_reserved(ObjectRecord { name, key });
    key
}

/// Blocks a living object, or lets it emit again.
pub fn block_in(slots: &mut Slab<Slot>, key: usize, object: ObjectId, on: bool)
    ensures { Writes key object (with_life (blocked on)) slots.old slots.new }
{
    if let Some(slot) = slots.get_mut(key) {
        if slot.serial == object.number() {
            slot.object.block(on);
        }
    }
}

/// Marks that a living object's deletion is scheduled.
pub fn schedule_in(slots: &mut Slab<Slot>, key: usize, object: ObjectId)
    ensures { Writes key object (with_life scheduled) slots.old slots.new }
{
    if let Some(slot) = slots.get_mut(key) {
        if slot.serial == object.number() {
            slot.object.schedule();
        }
    }
}

/// A living object lives in another loop.
pub fn house_in(slots: &mut Slab<Slot>, key: usize, object: ObjectId, home: LoopId)
    ensures { Writes key object (with_life (in_loop home)) slots.old slots.new }
{
    if let Some(slot) = slots.get_mut(key) {
        if slot.serial == object.number() {
            slot.object.set_home(home);
        }
    }
}

/// An object lives in another loop, if it lives, and its children are appended to a list. Without memory nothing changes.
#[inline(always)]
pub fn rehouse_in(
    slots: &mut Slab<Slot>,
    key: usize,
    object: ObjectId,
    home: LoopId,
    list: &mut Vec<ObjectId>,
) -> Result<(), AllocError>
    requires { IsSome (object_in object (get slots.old key)) }
    ensures ok { OnOk result (Writes key object (with_life (in_loop home)) slots.old slots.new) }
    ensures list { OnOk result
        (list.new.items ≡ list.old.items ++ children_in (object_in object (get slots.old key))) }
    ensures err { OnErr result (KeepsSlots slots.old slots.new) }
    ensures err_list { OnErr result (list.new.items ≡ list.old.items) }
{
    if let Some(slot) = slots.get_mut(key) {
        if slot.serial == object.number() {
            slot.object.children.push_into(list)?;
            slot.object.set_home(home);
            return Ok(());
        }
    }
    unreachable!()
}

/// Writes a property of a living object.
pub fn write_in(slots: &mut Slab<Slot>, key: usize, object: ObjectId, property: usize, value: Value)
    ensures { Writes key object (with_life (written property value)) slots.old slots.new }
{
    if let Some(slot) = slots.get_mut(key) {
        if slot.serial == object.number() {
            slot.object.write(property, value);
        }
    }
}

/// The number under which the parent of an object adopted it; of no use where the slot isn't its own.
pub fn adoption_in(slots: &Slab<Slot>, key: usize) -> u64
    ensures { result ≡ adoption_in (get slots.now key) }
{
    match slots.get(key) {
        Some(slot) => slot.adoption,
        None => 0,
    }
}

/// A living object has this parent, which adopted it under this number.
pub fn put_under_in(
    slots: &mut Slab<Slot>,
    key: usize,
    child: ObjectId,
    parent: ObjectId,
    adoption: u64,
)
    ensures { Changes key child (λ _. adoption) (with_life (put_under parent)) slots.old slots.new }
{
    if let Some(slot) = slots.get_mut(key) {
        if slot.serial == child.number() {
            slot.adoption = adoption;
            slot.object.put_under(parent);
        }
    }
}

/// A child comes last among an object's children, and the number of its adoption is answered. Without memory nothing
/// changes.
pub fn join_in(
    slots: &mut Slab<Slot>,
    key: usize,
    parent: ObjectId,
    child: ObjectId,
) -> Result<u64, AllocError>
    requires { IsSome (object_in parent (get slots.old key)) }
    ensures ok { OnOk result (Writes key parent (joined_by child) slots.old slots.new) }
    ensures err { OnErr result (KeepsSlots slots.old slots.new) }
{
    if let Some(slot) = slots.get_mut(key) {
        if slot.serial == parent.number() {
            return slot.object.children.push(child);
        }
    }
    unreachable!()
}

/// An object loses a child.
pub fn lose_in(slots: &mut Slab<Slot>, key: usize, parent: ObjectId, child: ObjectId, adoption: u64)
    requires { AreDistinctIn (object_in parent (get slots.old key)) }
    ensures { Writes key parent (left_by child) slots.old slots.new }
{
    if let Some(slot) = slots.get_mut(key) {
        if slot.serial == parent.number() {
            slot.object.children.remove(child, adoption);
        }
    }
}

/// An object lives no more.
pub fn end_in(slots: &mut Slab<Slot>, key: usize, object: ObjectId)
    ensures { Writes key object dead slots.old slots.new }
{
    if let Some(slot) = slots.get_mut(key) {
        if slot.serial == object.number() {
            slot.object.end_life();
        }
    }
}

/// Gives up the slot, if its object is dead and has no living child.
pub fn give_up(slots: &mut Slab<Slot>, key: usize)
    ensures { GivesUp key slots.old slots.new }
{
    if is_idle(slots, key) {
        slots.try_remove(key);
    }
}

/// Whether the slot is that of an object which is dead and has no living child.
fn is_idle(slots: &Slab<Slot>, key: usize) -> bool
    ensures { result ≡ is_idle (get slots.now key) }
{
    match slots.get(key) {
        Some(slot) => !slot.object.is_held(),
        None => false,
    }
}
