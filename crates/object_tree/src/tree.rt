ghost use Rattle.std.specs.Prelude.{◌≡◌, [], ◌↔◌, length, slice_get, count_by, is_some, IsTrue, IsSome, IfOk, Err, OnErr, MatchOption, None, Some};
ghost use Rattle.std.specs.Option.{option_copied};
ghost use Rattle.object_tree.specs.Adopting.{AdoptsLiving};
ghost use Rattle.object_tree.specs.Creating.{Creates};
ghost use Rattle.object_tree.specs.Family.{IsChild, IsChildless, parent_of, children_of, without_life};
ghost use Rattle.object_tree.specs.Forest.{Forest};
ghost use Rattle.object_tree.specs.Held.{is_held};
ghost use Rattle.object_tree.specs.Moving.{AreWhole, AreBelow, all_in_loop};
ghost use Rattle.object_tree.specs.Objects.{Lives, IsGone, IsNamed, IsFree, name_of, life_of, home_of, stored, change_life, blocked, scheduled, written};
ghost use Rattle.object_tree.specs.Seen.{seen, seen_reference};
ghost use Rattle.object_tree.specs.Typed.{AreTyped, StayTyped, StayTypedIf, FitsProperty, ReadsAs, ReadAs};
ghost use Rattle.object_tree.specs.declared.fault.AdoptFault.TheVariants.{NotOwned};

use crate::ancestors::may_adopt;
use crate::below::below;
use crate::creation::{may_create, new_object};
use crate::fault::{AdoptFault, CreateFault};
use crate::life::Life;
use crate::moves::move_below;
use crate::object::Object;
use crate::objects::Objects;
use crate::seen::{is_same, seen, seen_reference};
use crate::typing::{has_type, have_types};
use basic_types::{LoopId, Name, ObjectId, Value};
use meta_model::{Meta, NameIndex, ValueType};
use std::alloc::{AllocError, Global};
use std::marker::Model;

/// The objects of a run, by number and name, and who is whose parent. Names and numbers are never used again.
pub struct Tree {
    names: NameIndex,
    objects: Objects,
    alloc: Global,
}

impl Drop for Tree {
    fn drop(self) {
        let Tree {
            names: _,
            objects: _,
            alloc: _,
        } = self;
    }
}

impl Model for Tree {
    ghost use Rattle.std.specs.Prelude.{List};
    ghost use Rattle.object_tree.specs.declared.object.Object.{Object};
    ghost use Rattle.object_tree.specs.code.Kept.{Kept};

    ghost Value = { List Object };

    ghost view = { λ tree. tree.objects };

    ghost invariant = { λ tree. Kept tree.names tree.objects };
}

impl Tree {
    /// No objects, which takes no memory. The tree's own calls take theirs from this allocator.
    pub fn new(alloc: Global) -> Tree
        ensures { result ≡ [] }
    {
        Tree {
            names: NameIndex::new(alloc),
            objects: Objects::new(alloc),
            alloc,
        }
    }

    /// How many objects were created.
    pub fn len(&self) -> usize
        ensures { result ≡ length self.now }
    {
        self.objects.len()
    }

    /// How many objects memory is held for: those that live, and those that have a living child.
    pub fn held(&self) -> usize
        ensures { result ≡ count_by is_held self.now }
    {
        self.objects.held()
    }

    /// The number of the object that has or had this name, in time that doesn't grow with the number of objects.
    pub fn find(&self, name: &Name) -> Option<ObjectId>
        ensures { MatchOption result (IsFree self.now name.now) (IsNamed self.now name.now) }
    {
        match self.names.find(name) {
            Some(number) => Some(ObjectId::new(number)),
            None => None,
        }
    }

    /// A living object and its life, or `None` for any other number.
    pub fn get(&self, object: ObjectId) -> Option<(&Object, &Life)>
        ensures value { MatchOption result (IsGone self.now object)
            (λ f. Lives self.now object f.0.now f.1.now) }
        ensures forest { Forest self.now }
    {
        let found = self.objects.get(object)?;
        let life = found.life.as_ref()?;
        Some((found, life))
    }

    /// What an object has while it lives, or `None` for any other number.
    pub fn life(&self, object: ObjectId) -> Option<&Life>
        ensures { option_copied result ≡ life_of self.now object }
    {
        self.objects.life(object)
    }

    /// The event loop in which a living object lives.
    pub fn home(&self, object: ObjectId) -> Option<LoopId>
        ensures { result ≡ home_of self.now object }
    {
        match self.life(object) {
            Some(life) => Some(life.home),
            None => None,
        }
    }

    /// The value of a living object's property.
    pub fn value(&self, object: ObjectId, property: usize) -> Option<&Value>
        ensures { option_copied result ≡ stored self.now object property }
    {
        self.life(object)?.values.get(property)
    }

    /// A value as it reads: a reference to a dead object is null. It takes no memory.
    pub fn seen(&self, value: Value) -> Value
        ensures { result ≡ seen self.now value }
    {
        seen(&self.objects, value)
    }

    /// What a reference refers to as it reads: nothing where its object is dead.
    pub fn seen_reference(&self, reference: Option<ObjectId>) -> Option<ObjectId>
        ensures { result ≡ seen_reference self.now reference }
    {
        seen_reference(&self.objects, reference)
    }

    /// Whether both values read alike.
    pub fn is_same(&self, a: &Value, b: &Value) -> bool
        ensures { IsTrue result ↔ (seen self.now a.now ≡ seen self.now b.now) }
    {
        is_same(&self.objects, a, b)
    }

    /// Whether the value, as it reads, is of the type; a reference refers to one of these objects.
    pub fn has_type(&self, meta: &Meta, value: &Value, kind: ValueType) -> bool
        ensures { IsTrue result ↔ ReadsAs meta.now self.now value.now kind }
    {
        has_type(meta, &self.objects, value, kind)
    }

    /// Whether there are as many values as types, each, as it reads, of its type.
    pub fn have_types(&self, meta: &Meta, values: &[Value], types: &[ValueType]) -> bool
        ensures { IsTrue result ↔ ReadAs meta.now self.now values.now types.now }
    {
        have_types(meta, &self.objects, values, types)
    }

    /// The name of an object, which may be dead, or `None` where no object has the number.
    pub fn name(&self, object: ObjectId) -> Option<&Name>
        ensures { option_copied result ≡ name_of self.now object }
    {
        self.objects.name(object)
    }

    /// The first living child of an object, which may be dead, in the order of adoption.
    pub fn first_child(&self, parent: ObjectId) -> Option<ObjectId>
        ensures first { result ≡ slice_get (children_of self.now parent) 0 }
        ensures lives { MatchOption result (IsChildless self.now parent) (IsChild self.now parent) }
    {
        self.objects.first_child(parent)
    }

    /// Whether a living object has a parent, which may be dead. It takes no memory.
    pub fn has_parent(&self, object: ObjectId) -> bool
        ensures { result ≡ is_some (parent_of self.now object) }
    {
        self.objects.parent(object).is_some()
    }

    /// A living object and its living descendants, reached through living objects. The error is that memory was refused.
    pub fn below(&self, object: ObjectId) -> Result<Vec<ObjectId>, AllocError>
        requires { IsSome (life_of self.now object) }
        ensures { IfOk result (λ found. AreBelow self.now object found.items) }
    {
        below(self.alloc, &self.objects, object)
    }

    /// A living object without a parent and its living descendants, reached through living objects, go from the loop in which
    /// they live to another: it tells which these are, so that they can go back. Where memory was refused, nothing changes.
    pub fn move_below(
        &mut self,
        object: ObjectId,
        from: LoopId,
        home: LoopId,
    ) -> Result<Vec<ObjectId>, AllocError>
        requires lives { home_of self.old object ≡ Some from }
        requires root { parent_of self.old object ≡ None }
        ensures below { IfOk result (λ found. AreBelow self.old object found.items) }
        ensures moved { IfOk result (λ found. self.new ≡ all_in_loop found.items home self.old) }
        ensures back { IfOk result (λ found. all_in_loop found.items from self.new ≡ self.old) }
        ensures err { OnErr result (self.new ≡ self.old) }
        ensures typed { StayTyped self.old self.new }
    {
        let found = move_below(self.alloc, &mut self.objects, object, from, home)?;
        Ok(found)
    }

    /// Each of these objects that lives does so in this loop from now on. A child and its parent are both among them, or
    /// neither is. It takes no memory.
    pub fn set_home(&mut self, objects: &[ObjectId], home: LoopId)
        requires { AreWhole objects.now self.old }
        ensures value { self.new ≡ all_in_loop objects.now home self.old }
        ensures typed { StayTyped self.old self.new }
    {
        self.objects.set_homes(objects, home);
    }

    /// Blocks a living object, or lets it emit again; any other number changes nothing.
    pub fn block(&mut self, object: ObjectId, on: bool)
        ensures value { self.new ≡ change_life object (blocked on) self.old }
        ensures typed { StayTyped self.old self.new }
    {
        self.objects.block(object, on);
    }

    /// Marks that a living object's deletion is scheduled; any other number changes nothing.
    pub fn mark_scheduled(&mut self, object: ObjectId)
        ensures value { self.new ≡ change_life object scheduled self.old }
        ensures typed { StayTyped self.old self.new }
    {
        self.objects.schedule(object);
    }

    /// Writes a property of a living object; a number of no living object or of no property changes nothing.
    pub fn set_value(&mut self, object: ObjectId, property: usize, value: Value)
        ensures value { self.new ≡ change_life object (written property value) self.old }
        ensures typed { StayTypedIf (FitsProperty self.old object property value)
            self.old self.new }
    {
        self.objects.write(object, property, value);
    }

    /// The object lives no more and leaves its parent's children; its own children stay its children.
    pub fn mark_dead(&mut self, object: ObjectId)
        ensures value { self.new ≡ without_life object self.old }
        ensures typed { StayTyped self.old self.new }
    {
        self.objects.mark_dead(object);
    }

    /// Creates an object of the class of this name, which lives in this loop, with its properties' initial values, or
    /// answers the first of these that holds: `NameUsed`, `NoClass`, `TooMany`, `BadType`. Then nothing changes, and
    /// a new name stays free; so too where memory was refused.
    pub fn create(
        &mut self,
        meta: &Meta,
        name: &Name,
        class: &Name,
        home: LoopId,
    ) -> Result<ObjectId, CreateFault>
        ensures value { Creates meta.now self.old name.now class.now home result self.new }
        ensures typed { AreTyped meta.now self.old → AreTyped meta.now self.new }
    {
        let (number, kind) = may_create(meta, &self.names, &self.objects, name, class)?;
        let count = self.objects.len();
        let object = new_object(self.alloc, name, number, home, kind)?;
        self.objects.add(&mut self.names, object)?;
        Ok(ObjectId::new(count))
    }

    /// Makes one living object the parent of another, or answers the first of these that holds: `NotOwned`, `Cycle`,
    /// `OtherLoop`. Under the same parent nothing changes; else the child leaves its old parent's children and comes
    /// last among the new parent's. Where there is no such answer and memory was refused, nothing changes. Where one of
    /// the two doesn't live, the answer is `NotOwned`.
    pub fn adopt(
        &mut self,
        meta: &Meta,
        parent: ObjectId,
        child: ObjectId,
    ) -> Result<(), AdoptFault>
        ensures value { AdoptsLiving meta.now parent child self.old result self.new }
        ensures no_parent { IsGone self.old parent → result ≡ Err NotOwned }
        ensures no_child { IsGone self.old child → result ≡ Err NotOwned }
        ensures unchanged { OnErr result (self.new ≡ self.old) }
        ensures typed { StayTyped self.old self.new }
    {
        let (Some((_, owner)), Some((_, owned))) = (self.get(parent), self.get(child)) else {
            return Err(AdoptFault::NotOwned);
        };
        may_adopt(meta, &self.objects, parent, owner, child, owned)?;
        if owned.is_under(parent) {
            return Ok(());
        }
        self.objects.move_under(parent, child)?;
        Ok(())
    }
}
