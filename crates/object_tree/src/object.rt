ghost use Rattle.std.specs.Prelude.{◌≡◌};
ghost use Rattle.object_tree.specs.Objects.{with_life, blocked, scheduled, written};
ghost use Rattle.object_tree.specs.Held.{is_held};
ghost use Rattle.object_tree.specs.Family.{put_under, dead};
ghost use Rattle.object_tree.specs.Moving.{in_loop};

use crate::children::Children;
use crate::life::Life;
use basic_types::{LoopId, Name, ObjectId, Value};

/// An object that was created.
#[derive(Drop)]
pub struct Object {
    /// Its name, which no other object ever has.
    pub name: Name,
    /// Its living children, in the order of adoption. Those of a dead object stay its children until they die.
    pub children: Children,
    /// What it has while it lives, or `None` once it is dead.
    pub life: Option<Life>,
}

impl Object {
    /// Whether the object lives or has a living child.
    pub fn is_held(&self) -> bool
        ensures { result ≡ is_held self.now }
    {
        self.life.is_some() || !self.children.is_empty()
    }

    /// Blocks the object, or lets it emit again, if it lives.
    pub fn block(&mut self, on: bool)
        ensures { self.new ≡ with_life (blocked on) self.old }
    {
        match &mut self.life {
            Some(life) => life.blocked = on,
            None => {}
        }
    }

    /// Marks that the object's deletion is scheduled, if it lives.
    pub fn schedule(&mut self)
        ensures { self.new ≡ with_life scheduled self.old }
    {
        match &mut self.life {
            Some(life) => life.scheduled = true,
            None => {}
        }
    }

    /// The object lives in this loop, if it lives.
    pub fn set_home(&mut self, home: LoopId)
        ensures { self.new ≡ with_life (in_loop home) self.old }
    {
        match &mut self.life {
            Some(life) => life.home = home,
            None => {}
        }
    }

    /// Writes a property of the object, if it lives.
    pub fn write(&mut self, property: usize, value: Value)
        ensures { self.new ≡ with_life (written property value) self.old }
    {
        match &mut self.life {
            Some(life) => life.values.set(property, value),
            None => {}
        }
    }

    /// The object has this parent, if it lives.
    pub fn put_under(&mut self, parent: ObjectId)
        ensures { self.new ≡ with_life (put_under parent) self.old }
    {
        match &mut self.life {
            Some(life) => life.parent = Some(parent),
            None => {}
        }
    }

    /// The object lives no more, and gives back the memory of its values.
    pub fn end_life(&mut self)
        ensures { self.new ≡ dead self.old }
    {
        self.life = None;
    }
}
