//! The objects as a plain list, and the changes of one of them.

ghost use Rattle.std.specs.Prelude.{◌≡◌, [], ◌∷◌, ◌++◌, ◌<◌, length, slice_get, count_by, true, OnOk, OnErr, IsSome, IfSome, Some, ◌≢◌};
ghost use Rattle.std.specs.Option.{option_copied};
ghost use Rattle.name_indexes.specs.NamePlaces.{Adds};
ghost use Rattle.object_tree.specs.Objects.{name_of, life_of, class_of, class_with, change, change_life, blocked, scheduled, written};
ghost use Rattle.object_tree.specs.Held.{is_held, held_in, is_dead};
ghost use Rattle.object_tree.specs.Forest.{Forest, HasDistinct};
ghost use Rattle.object_tree.specs.Moving.{in_loop, all_in_loop};
ghost use Rattle.object_tree.specs.Family.{parent_of, children_of, joined_by, left_by, leaves, put_under, moved, dead, without_life};

use crate::life::Life;
use crate::object::Object;
use crate::slot::{
    ObjectRecord, Slot, adoption_in, block_in, end_in, give_up, house_in, join_in, key_of, lose_in,
    name_in, object_in, put, put_under_in, rehouse_in, schedule_in, write_in,
};
use basic_types::{LoopId, Name, ObjectId, Value};
use meta_model::NameIndex;
use slab::Slab;
use std::alloc::{AllocError, Global};
use std::marker::Model;

/// The objects in the order of their creation; an object's number is its place. One that is dead and has no living child
/// takes up no slot.
#[derive(Drop)]
pub struct Objects {
    entries: Vec<ObjectRecord>,
    slots: Slab<Slot>,
}

impl Model for Objects {
    ghost use Rattle.std.specs.Prelude.{List};
    ghost use Rattle.object_tree.specs.declared.object.Object.{Object};

    ghost Value = { List Object };

    ghost use Rattle.object_tree.specs.code.Slots.{shown_from, AreHoused};

    ghost view = { λ objects. shown_from objects.slots 0 objects.entries.items };

    ghost invariant = { λ objects. AreHoused objects.slots objects.entries.items };
}

impl Objects {
    /// No objects, which takes no memory.
    pub fn new(alloc: Global) -> Objects
        ensures { result ≡ [] }
    {
        Objects {
            entries: Vec::new(alloc),
            slots: Slab::new(alloc),
        }
    }

    /// How many objects were created.
    pub fn len(&self) -> usize
        ensures { result ≡ length self.now }
    {
        self.entries.len()
    }

    /// How many objects live or have a living child.
    pub fn held(&self) -> usize
        ensures { result ≡ count_by is_held self.now }
    {
        self.slots.len()
    }

    /// The object of this number, if it lives or has a living child.
    pub fn get(&self, object: ObjectId) -> Option<&Object>
        ensures { option_copied result ≡ held_in (slice_get self.now object) }
    {
        match key_of(&self.entries, object) {
            Some(key) => object_in(&self.slots, key, object),
            None => None,
        }
    }

    /// The name of an object, which may be dead.
    pub fn name(&self, object: ObjectId) -> Option<&Name>
        ensures { option_copied result ≡ name_of self.now object }
    {
        name_in(&self.entries, object)
    }

    /// What an object has while it lives.
    pub fn life(&self, object: ObjectId) -> Option<&Life>
        ensures { option_copied result ≡ life_of self.now object }
    {
        match self.get(object) {
            Some(found) => found.life.as_ref(),
            None => None,
        }
    }

    /// Whether an object was created with this number and lives no more.
    pub fn is_dead(&self, object: ObjectId) -> bool
        ensures { result ≡ is_dead (slice_get self.now object) }
    {
        if self.class(object).is_some() {
            return false;
        }
        object.number() < self.len()
    }

    /// The class of a living object.
    pub fn class(&self, object: ObjectId) -> Option<usize>
        ensures { result ≡ class_of self.now object }
    {
        match self.life(object) {
            Some(life) => Some(life.class),
            None => None,
        }
    }

    /// The class of a living object, where one more of the class `new` comes last.
    pub fn class_with(&self, object: ObjectId, new: usize) -> Option<usize>
        ensures { result ≡ class_with self.now new object }
    {
        if object.number() == self.len() {
            Some(new)
        } else {
            self.class(object)
        }
    }

    /// The parent of a living object.
    pub fn parent(&self, object: ObjectId) -> Option<ObjectId>
        ensures { result ≡ parent_of self.now object }
    {
        match self.life(object) {
            Some(life) => life.parent,
            None => None,
        }
    }

    /// The child of an object, which may be dead, that was adopted first.
    pub fn first_child(&self, object: ObjectId) -> Option<ObjectId>
        ensures { result ≡ slice_get (children_of self.now object) 0 }
    {
        match self.get(object) {
            Some(found) => found.children.first(),
            None => None,
        }
    }

    /// Adds an object that lives, under its name, which the index of names gets too. Without memory nothing changes.
    pub fn add(&mut self, names: &mut NameIndex, object: Object) -> Result<(), AllocError>
        requires { is_held object ≡ true }
        ensures named { OnOk result (Adds object.name (length self.old) names.old names.new) }
        ensures added { OnOk result (self.new ≡ self.old ++ object ∷ []) }
        ensures names { OnErr result (names.new ≡ names.old) }
        ensures objects { OnErr result (self.new ≡ self.old) }
    {
        let name = object.name.copy()?;
        self.entries.reserve(1)?;
        self.slots.reserve(1)?;
        names.insert(&name, self.entries.len())?;
        put(&mut self.entries, &mut self.slots, name, object);
        Ok(())
    }

    /// Blocks a living object, or lets it emit again.
    pub fn block(&mut self, object: ObjectId, on: bool)
        ensures { self.new ≡ change_life object (blocked on) self.old }
    {
        if let Some(key) = key_of(&self.entries, object) {
            block_in(&mut self.slots, key, object, on);
        }
    }

    /// Marks that a living object's deletion is scheduled.
    pub fn schedule(&mut self, object: ObjectId)
        ensures { self.new ≡ change_life object scheduled self.old }
    {
        if let Some(key) = key_of(&self.entries, object) {
            schedule_in(&mut self.slots, key, object);
        }
    }

    /// Each of these objects that lives does so in this loop.
    pub fn set_homes(&mut self, objects: &[ObjectId], home: LoopId)
        ensures { self.new ≡ all_in_loop objects.now home self.old }
    {
        for object in objects {
            self.set_home(*object, home);
        }
    }

    /// A living object lives in this loop.
    fn set_home(&mut self, object: ObjectId, home: LoopId)
        ensures { self.new ≡ change_life object (in_loop home) self.old }
    {
        if let Some(key) = key_of(&self.entries, object) {
            house_in(&mut self.slots, key, object, home);
        }
    }

    /// A living object lives in this loop, and its children are appended to a list. Without memory nothing changes.
    #[inline(always)]
    pub fn rehouse(
        &mut self,
        object: ObjectId,
        home: LoopId,
        list: &mut Vec<ObjectId>,
    ) -> Result<(), AllocError>
        requires { IsSome (life_of self.old object) }
        ensures ok { OnOk result (self.new ≡ change_life object (in_loop home) self.old) }
        ensures list { OnOk result
            (list.new.items ≡ list.old.items ++ children_of self.old object) }
        ensures err { OnErr result (self.new ≡ self.old) }
        ensures err_list { OnErr result (list.new.items ≡ list.old.items) }
    {
        match key_of(&self.entries, object) {
            Some(key) => {
                rehouse_in(&mut self.slots, key, object, home, list)?;
                Ok(())
            }
            None => unreachable!(),
        }
    }

    /// Writes a property of a living object.
    pub fn write(&mut self, object: ObjectId, property: usize, value: Value)
        ensures { self.new ≡ change_life object (written property value) self.old }
    {
        if let Some(key) = key_of(&self.entries, object) {
            write_in(&mut self.slots, key, object, property, value);
        }
    }

    /// The child comes last among a living object's children and leaves those of its old parent, which is another one.
    /// Without memory nothing changes.
    pub fn move_under(&mut self, parent: ObjectId, child: ObjectId) -> Result<(), AllocError>
        requires forest { Forest self.old }
        requires lives { IsSome (life_of self.old parent) }
        requires elsewhere { parent_of self.old child ≢ Some parent }
        ensures ok { OnOk result (self.new ≡ moved parent child self.old) }
        ensures err { OnErr result (self.new ≡ self.old) }
    {
        let from = self.parent(child);
        let adoption = self.join(parent, child)?;
        self.leave(from, child);
        self.put_under(parent, child, adoption);
        Ok(())
    }

    /// An object lives no more and leaves its parent's children; its own children stay its children.
    pub fn mark_dead(&mut self, object: ObjectId)
        requires { Forest self.old }
        ensures { self.new ≡ without_life object self.old }
    {
        let from = self.parent(object);
        self.leave(from, object);
        self.end_life(object);
    }

    /// A child comes last among a living object's children, and the number of its adoption is answered. Without memory
    /// nothing changes.
    fn join(&mut self, parent: ObjectId, child: ObjectId) -> Result<u64, AllocError>
        requires { IsSome (life_of self.old parent) }
        ensures ok { OnOk result (self.new ≡ change parent (joined_by child) self.old) }
        ensures err { OnErr result (self.new ≡ self.old) }
    {
        match key_of(&self.entries, parent) {
            Some(key) => {
                let adoption = join_in(&mut self.slots, key, parent, child)?;
                Ok(adoption)
            }
            None => unreachable!(),
        }
    }

    /// A child leaves the children of its parent, if it has one.
    fn leave(&mut self, parent: Option<ObjectId>, child: ObjectId)
        requires { IfSome parent (HasDistinct self.old) }
        ensures { self.new ≡ leaves parent child self.old }
    {
        match parent {
            Some(parent) => self.lose(parent, child),
            None => {}
        }
    }

    /// An object loses a child.
    fn lose(&mut self, parent: ObjectId, child: ObjectId)
        requires { HasDistinct self.old parent }
        ensures { self.new ≡ change parent (left_by child) self.old }
    {
        let adoption = self.adoption(child);
        if let Some(key) = key_of(&self.entries, parent) {
            lose_in(&mut self.slots, key, parent, child, adoption);
            give_up(&mut self.slots, key);
        }
    }

    /// The number under which its parent adopted a living object, if it has one. Whatever it is, the child is found.
    fn adoption(&self, child: ObjectId) -> u64 {
        match key_of(&self.entries, child) {
            Some(key) => adoption_in(&self.slots, key),
            None => 0,
        }
    }

    /// A living object has this parent, which adopted it under this number.
    fn put_under(&mut self, parent: ObjectId, child: ObjectId, adoption: u64)
        ensures { self.new ≡ change_life child (put_under parent) self.old }
    {
        if let Some(key) = key_of(&self.entries, child) {
            put_under_in(&mut self.slots, key, child, parent, adoption);
        }
    }

    /// An object lives no more, and gives back the memory of its values.
    fn end_life(&mut self, object: ObjectId)
        ensures { self.new ≡ change object dead self.old }
    {
        if let Some(key) = key_of(&self.entries, object) {
            end_in(&mut self.slots, key, object);
            give_up(&mut self.slots, key);
        }
    }
}
