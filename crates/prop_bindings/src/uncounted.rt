//! The installed bindings, without the count of evaluations.

ghost use Rattle.std.specs.Prelude.{◌≡◌, [], ◌∷◌, IfOk, IsTrue, OnOk, OnErr};
ghost use Rattle.object_tree.specs.Objects.{change_life, written};
ghost use Rattle.binding_graph.specs.Bindings.{binding_at, dropped, lead_out, replaced, without, without_all};
ghost use Rattle.binding_graph.specs.code.Graph.{Unread};
ghost use Rattle.prop_bindings.specs.Changes.{AreChanged, once, one, places_in};
ghost use Rattle.prop_bindings.specs.Fits.{Agree};
ghost use Rattle.prop_bindings.specs.Plans.{PlansBind, PlansGroup, PlansWrite, after};
ghost use Rattle.prop_bindings.specs.code.Parts.{MayInstall};

use crate::bindings::Bindings;
use crate::plans::{
    Assignment, BindFault, ChangedPlaces, PlannedBind, PlannedGroup, PlannedWrite, WriteFault,
};
use basic_types::{ObjectId, Value};
use binding_graph::Place;
use meta_model::Meta;
use object_tree::Tree;
use std::alloc::{AllocError, Global};
use std::marker::Model;

/// `Bindings` of which contracts see the installed ones alone: how many evaluations a call took is no part of the state of
/// which they are a part.
#[derive(Drop)]
pub struct UncountedBindings {
    bindings: Bindings,
}

impl Model for UncountedBindings {
    ghost use Rattle.std.specs.Coded.{coded_list};
    ghost use Rattle.std.specs.Prelude.{List};
    ghost use Rattle.binding_graph.specs.contracts.binding.Binding as held;
    ghost use Rattle.binding_graph.specs.declared.binding.Binding.{Binding};

    ghost Value = { List Binding };

    ghost coded = { coded_list held.the_row.coded };

    ghost view = { λ b. b.bindings.installed };
}

impl UncountedBindings {
    /// No bindings, which takes no memory. The later calls take theirs from this allocator.
    pub fn new(alloc: Global) -> UncountedBindings
        ensures { result ≡ [] }
    {
        UncountedBindings {
            bindings: Bindings::new(alloc),
        }
    }

    /// The bindings with their count.
    pub fn counted(&self) -> &Bindings
        ensures { result.now.installed ≡ self.now }
    {
        &self.bindings
    }

    /// Whether it is certain that no binding reads the property, as `Bindings::is_unread` says.
    #[inline(always)]
    pub fn is_unread(&self, place: &Place) -> bool
        ensures { IsTrue result → Unread (binding_at self.now) place.now }
    {
        self.bindings.is_unread(place)
    }

    /// Writes a property alone, as `Bindings::write_alone` does. It takes no memory.
    #[inline(always)]
    pub fn write_alone(&mut self, tree: &mut Tree, place: &Place, value: Value) -> ChangedPlaces
        ensures changed { AreChanged tree.old
            (change_life place.now.object (written place.now.property value) tree.old)
            (place.now ∷ []) result }
        ensures left { self.new ≡ without place.now self.old }
        ensures objects { tree.new
            ≡ change_life place.now.object (written place.now.property value) tree.old }
    {
        self.bindings.write_alone(tree, place, value)
    }

    /// Plans a write of a property, as `Bindings::plan_write` does.
    pub fn plan_write(
        &self,
        meta: &Meta,
        tree: &Tree,
        place: &Place,
        value: Value,
    ) -> Result<PlannedWrite, WriteFault>
        requires agree { Agree meta.now tree.now self.now }
        ensures value { PlansWrite meta.now (one place.now value) self.now tree.now result }
        ensures target { IfOk result (λ plan. plan.target ≡ place.now) }
        ensures agree { IfOk result (λ plan. Agree meta.now (after plan.planned tree.now)
            (without place.now self.now)) }
    {
        self.bindings.plan_write(meta, tree, place, value)
    }

    /// Carries out a planned write, as `Bindings::carry_out` does. It takes no memory.
    pub fn carry_out(&mut self, tree: &mut Tree, planned: PlannedWrite) -> ChangedPlaces
        ensures value { result ≡ planned.planned.changed }
        ensures left { self.new ≡ without planned.target self.old }
        ensures objects { tree.new ≡ after planned.planned tree.old }
    {
        self.bindings.carry_out(tree, planned)
    }

    /// Plans a group of writes, as `Bindings::plan_group` does.
    pub fn plan_group(
        &self,
        meta: &Meta,
        tree: &Tree,
        writes: &[Assignment],
    ) -> Result<PlannedGroup, WriteFault>
        requires agree { Agree meta.now tree.now self.now }
        ensures value { PlansGroup meta.now writes.now self.now tree.now result }
        ensures targets { IfOk result (λ plan. plan.targets ≡ once (places_in writes.now)) }
        ensures left { IfOk result (λ plan. without_all plan.targets self.now
            ≡ without_all (places_in writes.now) self.now) }
        ensures agree { IfOk result (λ plan. Agree meta.now (after plan.planned tree.now)
            (without_all (places_in writes.now) self.now)) }
    {
        self.bindings.plan_group(meta, tree, writes)
    }

    /// Carries out a planned group of writes, as `Bindings::carry_out_group` does. It takes no memory.
    pub fn carry_out_group(&mut self, tree: &mut Tree, planned: PlannedGroup) -> ChangedPlaces
        ensures value { result ≡ planned.planned.changed }
        ensures left { self.new ≡ without_all planned.targets self.old }
        ensures objects { tree.new ≡ after planned.planned tree.old }
    {
        self.bindings.carry_out_group(tree, planned)
    }

    /// Plans to install the binding of a site, as `Bindings::plan_bind` does.
    pub fn plan_bind(
        &self,
        meta: &Meta,
        tree: &Tree,
        site: usize,
        target: ObjectId,
        sources: &[ObjectId],
    ) -> Result<PlannedBind, BindFault>
        requires agree { Agree meta.now tree.now self.now }
        ensures value { PlansBind meta.now site target sources.now self.now tree.now result }
        ensures may { IfOk result (MayInstall self.now) }
        ensures agree { IfOk result (λ plan. Agree meta.now (after plan.planned tree.now)
            (replaced self.now plan.reader)) }
    {
        self.bindings.plan_bind(meta, tree, site, target, sources)
    }

    /// Carries out a planned bind, as `Bindings::carry_out_bind` does. Its error is that memory was refused; then nothing
    /// changes.
    pub fn carry_out_bind(
        &mut self,
        tree: &mut Tree,
        planned: PlannedBind,
    ) -> Result<ChangedPlaces, AllocError>
        requires may { MayInstall self.old planned }
        ensures value { IfOk result (λ changed. changed ≡ planned.planned.changed) }
        ensures installed { OnOk result (self.new ≡ replaced self.old planned.reader) }
        ensures objects { OnOk result (tree.new ≡ after planned.planned tree.old) }
        ensures err { OnErr result ((self.new ≡ self.old) × (tree.new ≡ tree.old)) }
    {
        self.bindings.carry_out_bind(tree, planned)
    }

    /// Whether a binding joins these objects with another, as `Bindings::joins` says. It takes no memory.
    pub fn joins(&self, objects: &[ObjectId]) -> bool
        ensures { result ≡ lead_out objects.now self.now }
    {
        self.bindings.joins(objects)
    }

    /// Removes the bindings of an object, as `Bindings::drop_object` does. It takes no memory.
    pub fn drop_object(&mut self, object: ObjectId)
        ensures { self.new ≡ dropped object self.old }
    {
        self.bindings.drop_object(object);
    }
}
