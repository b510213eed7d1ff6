//! For each object, the properties whose bindings touch it.

ghost use Rattle.std.specs.Prelude.{◌≡◌, eqb, OnOk};
ghost use Rattle.binding_graph.specs.code.Graph.{AreTouched, KeepTouched, LosesPlace, LosesTarget, LosesTouch, Touched, target_keys};
ghost use Rattle.binding_graph.specs.code.Lists.{keys_in, Clears};

use crate::binding::Binding;
use crate::lists::{Places, add_place, drop_empty, forget_place, places_of, take_places};
use crate::place::Place;
use basic_types::ObjectId;
use indexmap::IndexMap;
use std::alloc::{AllocError, Global};

/// The properties whose bindings have an object as their target's or as a source, under its number.
#[derive(Drop)]
pub struct Touching {
    pub by_object: IndexMap<usize, Places>,
}

impl Touching {
    /// Nothing is touched.
    pub fn new(alloc: Global) -> Touching {
        Touching {
            by_object: IndexMap::new(alloc),
        }
    }

    /// The numbers of the properties whose bindings touch this object.
    pub fn of(&self, object: ObjectId) -> &[(usize, usize)]
        ensures { result.now ≡ target_keys self.now object }
    {
        places_of(&self.by_object, object.number())
    }

    /// Adds a binding's target to each object that it touches. Its error is that memory was refused; then some have it.
    pub fn add_binding(&mut self, alloc: Global, binding: &Binding) -> Result<(), AllocError>
        ensures kept { KeepTouched self.old self.new }
        ensures touched { OnOk result (AreTouched self.new binding.now) }
    {
        let target = binding.target;
        self.add(alloc, target.object, &target)?;
        let sources = binding.sources.as_slice();
        for source in sources {
            self.add(alloc, *source, &target)?;
        }
        Ok(())
    }

    /// Removes a binding's target from each object that it touches.
    pub fn leave(&mut self, binding: &Binding)
        ensures { LosesPlace binding.now.target self.old self.new }
    {
        let target = binding.target;
        self.forget(target.object, &target);
        let sources = binding.sources.as_slice();
        for source in sources {
            self.forget(*source, &target);
        }
    }

    /// Removes a binding's target from each of its sources that another binding of this target doesn't touch.
    pub fn leave_to(&mut self, binding: &Binding, other: &Binding)
        ensures { LosesTarget other.now binding.now.target self.old self.new }
    {
        let target = binding.target;
        let sources = binding.sources.as_slice();
        for source in sources {
            if other.touches(*source) {
                continue;
            }
            self.forget(*source, &target);
        }
    }

    /// Takes all targets from an object.
    pub fn take(&mut self, object: ObjectId) -> Option<Places>
        ensures taken { keys_in result ≡ target_keys self.old object }
        ensures left { Clears eqb self.old.by_object self.new.by_object object }
    {
        take_places(&mut self.by_object, object.number())
    }

    /// Adds a target of an object.
    fn add(&mut self, alloc: Global, object: ObjectId, target: &Place) -> Result<(), AllocError>
        ensures kept { KeepTouched self.old self.new }
        ensures there { OnOk result (Touched self.new object target.now) }
    {
        add_place(alloc, &mut self.by_object, object.number(), target.key())?;
        Ok(())
    }

    /// Removes a target of an object, and the object where it has no other.
    fn forget(&mut self, object: ObjectId, target: &Place)
        ensures { LosesTouch object target.now self.old self.new }
    {
        forget_place(&mut self.by_object, object.number(), target.key());
        drop_empty(&mut self.by_object, object.number());
    }
}
