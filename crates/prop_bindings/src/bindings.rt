//! The installed bindings.

ghost use Rattle.std.specs.Prelude.{◌≡◌, ◌∷◌, [], slice_get, IfOk, IsTrue, OnOk, OnErr};
ghost use Rattle.std.specs.Option.{option_copied};
ghost use Rattle.object_tree.specs.Objects.{change_life, written};
ghost use Rattle.binding_graph.specs.Bindings.{binding_at, dropped, lead_out, replaced, without, without_all};
ghost use Rattle.prop_bindings.specs.Calls.{Binds, Writes};
ghost use Rattle.binding_graph.specs.code.Graph.{Unread};
ghost use Rattle.prop_bindings.specs.Changes.{AreChanged, once, one, places_in};
ghost use Rattle.prop_bindings.specs.Counts.{CountsBound, CountsFrom, CountsGroup, CountsWritten, Kept, nothing_kept};
ghost use Rattle.prop_bindings.specs.Fits.{Agree};
ghost use Rattle.binding_graph.specs.Laws.{Determines};
ghost use Rattle.prop_bindings.specs.Plans.{PlansBind, PlansGroup, PlansWrite, after};
ghost use Rattle.prop_bindings.specs.code.Parts.{AgreesWith, Installs, MayInstall, StayAgreeing};

use crate::assigning::assign;
use crate::changes::{changed_alone, plan};
use crate::plans::{
    Assignment, BindFault, ChangedPlaces, Planned, PlannedBind, PlannedGroup, PlannedWrite,
    WriteFault,
};
use crate::preparing::{PreparedBinding, fits, has_value, prepare};
use crate::writes::{GivenValues, all_fit, give_all, give_one, have_all, plan_given, plan_one};
use basic_types::{ObjectId, Value};
use binding_graph::{Binding, Graph, Place, Reader, followers};
use meta_model::Meta;
use object_tree::Tree;
use sqlite_items::Items;
use std::alloc::{AllocError, Global};
use std::marker::Model;

/// Bindings in the order in which they were installed, at most one of each property, and of which no chain leads from a
/// property back to itself, and how many evaluations the last write or bind took.
///
/// They are kept with the readers of each property, and with numbers of the bound ones, a source's below its readers': a
/// write and a bind look at what depends on the property, and at nothing else.
#[derive(Drop)]
pub struct Bindings {
    graph: Graph,
    evaluated: usize,
    alloc: Global,
}

impl Model for Bindings {
    ghost use Rattle.std.specs.Coded.{codes};
    ghost use Rattle.binding_graph.specs.contracts.binding.Binding as held;
    ghost use Rattle.prop_bindings.specs.Counts.{Kept};
    ghost use Rattle.binding_graph.specs.code.Graph.{IsGraph, bindings_of};

    ghost Value = { Kept };

    ghost coded = { Prim.hlevel (codes, held.the_row.coded) };

    ghost view = { λ b. record { installed = bindings_of b.graph; evaluated = b.evaluated } };

    ghost invariant = { λ b. IsGraph b.graph };
}

impl Bindings {
    /// No bindings, which takes no memory. The later calls take theirs from this allocator.
    pub fn new(alloc: Global) -> Bindings
        ensures { result ≡ nothing_kept }
    {
        Bindings {
            graph: Graph::new(alloc),
            evaluated: 0,
            alloc,
        }
    }

    /// The binding that was installed after this many others that are installed.
    pub fn get(&self, position: usize) -> Option<&Binding>
        ensures { option_copied result ≡ slice_get self.now.installed position }
    {
        match self.graph.installed.nth(position) {
            Some(reader) => Some(reader.binding()),
            None => None,
        }
    }

    /// How many expressions the last write, group or bind evaluated that wasn't refused, 0 at first. A write evaluates the
    /// bindings to whose targets a chain leads from the property, each once, and none where the property had the value
    /// already; a group those to which one leads from any of its properties; a bind the new binding, and those to whose
    /// targets a chain leads from its target.
    pub fn last_evaluated(&self) -> usize
        ensures { result ≡ self.now.evaluated }
    {
        self.evaluated
    }

    /// Over whatever other values, the bound properties have exactly one list of settled values.
    pub fn settle_once(&self)
        ensures { Determines (binding_at self.now.installed) }
    {
        let _graph = &self.graph;
    }

    /// Whether it is certain that no binding reads the property, so that nothing follows from it.
    #[inline(always)]
    pub fn is_unread(&self, place: &Place) -> bool
        ensures { IsTrue result → Unread (binding_at self.now.installed) place.now }
    {
        self.graph.is_unread(place)
    }

    /// Writes a property alone: it loses its binding and gets the value, and nothing else changes or is evaluated. That is
    /// all that a write does where no binding reads the property and the value is of its type. It takes no memory, and
    /// answers the property, if it no longer reads as it did.
    #[inline(always)]
    pub fn write_alone(&mut self, tree: &mut Tree, place: &Place, value: Value) -> ChangedPlaces
        ensures changed { AreChanged tree.old
            (change_life place.now.object (written place.now.property value) tree.old)
            (place.now ∷ []) result }
        ensures left { self.new.installed ≡ without place.now self.old.installed }
        ensures objects { tree.new
            ≡ change_life place.now.object (written place.now.property value) tree.old }
        ensures counted { self.new.evaluated ≡ 0 }
    {
        let changed = changed_alone(self.alloc, place, tree, &value);
        self.graph.remove(place);
        tree.set_value(place.object, place.property, value);
        self.evaluated = 0;
        changed
    }

    /// Plans a write of a property of a living object, which ends its binding; the values that follow from it change with
    /// it. `BadType` where no such object lives, it has no such property, or the value isn't of its type; `Memory` comes
    /// only where a growth was refused.
    pub fn plan_write(
        &self,
        meta: &Meta,
        tree: &Tree,
        place: &Place,
        value: Value,
    ) -> Result<PlannedWrite, WriteFault>
        requires agree { Agree meta.now tree.now self.now.installed }
        ensures value { PlansWrite meta.now (one place.now value) self.now.installed tree.now result }
        ensures target { IfOk result (λ plan. plan.target ≡ place.now) }
        ensures agree { IfOk result (λ plan. Agree meta.now (after plan.planned tree.now)
            (without place.now self.now.installed)) }
        ensures counted { IfOk result (λ plan. CountsWritten
            (binding_at (without place.now self.now.installed)) place.now value tree.now
            plan.planned.changed plan.planned.evaluated) }
    {
        if !fits(meta, tree, place, &value) {
            return Err(WriteFault::BadType);
        }
        if has_value(tree, place, &value) {
            return Ok(PlannedWrite {
                target: *place,
                planned: Planned::nothing(self.alloc),
            });
        }
        let planned = plan_one(self.alloc, &self.graph, tree, place, value)?;
        Ok(PlannedWrite {
            target: *place,
            planned,
        })
    }

    /// Carries out a planned write, for the bindings and objects for which it was planned. It takes no memory, and answers
    /// the properties that no longer read as they did, in the order in which they are notified.
    pub fn carry_out(&mut self, tree: &mut Tree, planned: PlannedWrite) -> ChangedPlaces
        ensures value { result ≡ planned.planned.changed }
        ensures left { self.new.installed ≡ without planned.target self.old.installed }
        ensures objects { tree.new ≡ after planned.planned tree.old }
        ensures counted { self.new.evaluated ≡ planned.planned.evaluated }
    {
        let PlannedWrite { target, planned } = planned;
        let Planned {
            values,
            changed,
            evaluated,
        } = planned;
        self.graph.remove(&target);
        assign(tree, values);
        self.evaluated = evaluated;
        changed
    }

    /// Plans a group of writes, in which a property may be written more than once. All written properties lose their
    /// bindings, also one that follows another, and each is to have the value that is written last; only then is what
    /// follows from any of them evaluated, each binding once, and nothing where none of them gets another value. So no
    /// expression is evaluated over some of the new values and some of the old ones. Refused as `plan_write` is, where one
    /// of the values isn't of its property's type, also one that another write replaces.
    pub fn plan_group(
        &self,
        meta: &Meta,
        tree: &Tree,
        writes: &[Assignment],
    ) -> Result<PlannedGroup, WriteFault>
        requires agree { Agree meta.now tree.now self.now.installed }
        ensures value { PlansGroup meta.now writes.now self.now.installed tree.now result }
        ensures targets { IfOk result (λ plan. plan.targets ≡ once (places_in writes.now)) }
        ensures left { IfOk result (λ plan. without_all plan.targets self.now.installed
            ≡ without_all (places_in writes.now) self.now.installed) }
        ensures agree { IfOk result (λ plan. Agree meta.now (after plan.planned tree.now)
            (without_all (places_in writes.now) self.now.installed)) }
        ensures counted { IfOk result (λ plan. CountsGroup
            (binding_at (without_all (places_in writes.now) self.now.installed)) writes.now
            tree.now plan.planned.changed plan.planned.evaluated) }
    {
        if !all_fit(meta, tree, writes) {
            return Err(WriteFault::BadType);
        }
        let given = give_all(self.alloc, writes)?;
        let GivenValues { targets, values } = given;
        let targets = Items::from_vec(targets);
        if have_all(tree, targets.as_slice(), &values) {
            return Ok(PlannedGroup {
                targets,
                planned: Planned::nothing(self.alloc),
            });
        }
        let planned = plan_given(self.alloc, &self.graph, tree, targets.as_slice(), values)?;
        Ok(PlannedGroup { targets, planned })
    }

    /// Carries out a planned group of writes, for the bindings and objects for which it was planned. It takes no memory, and
    /// answers the properties that no longer read as they did, in the order in which they are notified.
    pub fn carry_out_group(&mut self, tree: &mut Tree, planned: PlannedGroup) -> ChangedPlaces
        ensures value { result ≡ planned.planned.changed }
        ensures left { self.new.installed ≡ without_all planned.targets self.old.installed }
        ensures objects { tree.new ≡ after planned.planned tree.old }
        ensures counted { self.new.evaluated ≡ planned.planned.evaluated }
    {
        let PlannedGroup { targets, planned } = planned;
        let Planned {
            values,
            changed,
            evaluated,
        } = planned;
        self.graph.remove_all(targets.as_slice());
        assign(tree, values);
        self.evaluated = evaluated;
        changed
    }

    /// Plans to install the binding of a site for living objects, in place of the target's old one; the target and the
    /// values that follow from it change with it. Refused, where the first of these holds, with `BadSource` (there is no
    /// such site, or it doesn't cover the objects, or not so many), `OtherLoop` (a source lives in another event loop),
    /// `BadType` (the expression has no value of the target's type), `BindingLoop` (a chain of bindings would lead from a
    /// property back to itself); `Memory` comes only where a growth was refused.
    pub fn plan_bind(
        &self,
        meta: &Meta,
        tree: &Tree,
        site: usize,
        target: ObjectId,
        sources: &[ObjectId],
    ) -> Result<PlannedBind, BindFault>
        requires agree { Agree meta.now tree.now self.now.installed }
        ensures value { PlansBind meta.now site target sources.now self.now.installed tree.now
            result }
        ensures may { IfOk result (MayInstall self.now.installed) }
        ensures agree { IfOk result (λ plan. Agree meta.now (after plan.planned tree.now)
            (replaced self.now.installed plan.reader)) }
        ensures counted { IfOk result (λ plan. CountsFrom
            (binding_at (replaced self.now.installed plan.reader)) plan.reader.target
            plan.planned.changed plan.planned.evaluated) }
    {
        let mut count = 0;
        let prepared = prepare(self.alloc, meta, tree, site, target, sources, &mut count)?;
        self.plan_install(tree, prepared, count)
    }

    /// Plans to install a binding whose expression has this value, after so many evaluations. `BindingLoop` where it would
    /// close a chain, `Memory` only where a growth was refused.
    fn plan_install(
        &self,
        tree: &Tree,
        prepared: PreparedBinding,
        before: usize,
    ) -> Result<PlannedBind, BindFault>
        requires agree { AgreesWith tree.now self.now.installed prepared.binding prepared.value }
        requires once { before ≡ 1 }
        ensures value { Installs prepared.binding self.now.installed tree.now result }
        ensures may { IfOk result (MayInstall self.now.installed) }
        ensures agree { IfOk result (λ plan. StayAgreeing tree.now (after plan.planned tree.now)
            self.now.installed (replaced self.now.installed plan.reader) prepared.binding) }
        ensures counted { IfOk result (λ plan. CountsFrom
            (binding_at (replaced self.now.installed plan.reader)) plan.reader.target
            plan.planned.changed plan.planned.evaluated) }
    {
        let PreparedBinding { binding, value } = prepared;
        let target = binding.target;
        let reader = Reader::new(self.alloc, binding)?;
        let values = give_one(self.alloc, &target, value)?;
        let followers = followers(self.alloc, &self.graph, &[target], &values)?;
        let moved = from_target(self.alloc, &target, &followers)?;
        if reader.reads_any(&moved) {
            return Err(BindFault::BindingLoop);
        }
        let planned = plan(
            self.alloc,
            &self.graph.installed,
            &[target],
            &moved[1..],
            tree,
            values,
            before,
        )?;
        Ok(PlannedBind {
            reader,
            moved,
            planned,
        })
    }

    /// Carries out a planned bind, for the bindings and objects for which it was planned. It answers the properties that no
    /// longer read as they did, in the order in which they are notified. Its error is that memory was refused; then nothing
    /// changes.
    pub fn carry_out_bind(
        &mut self,
        tree: &mut Tree,
        planned: PlannedBind,
    ) -> Result<ChangedPlaces, AllocError>
        requires may { MayInstall self.old.installed planned }
        ensures value { IfOk result (λ changed. changed ≡ planned.planned.changed) }
        ensures installed { OnOk result
            (self.new.installed ≡ replaced self.old.installed planned.reader) }
        ensures objects { OnOk result (tree.new ≡ after planned.planned tree.old) }
        ensures counted { OnOk result (self.new.evaluated ≡ planned.planned.evaluated) }
        ensures err { OnErr result ((self.new ≡ self.old) × (tree.new ≡ tree.old)) }
    {
        let PlannedBind {
            reader,
            moved,
            planned,
        } = planned;
        self.graph.make_room(self.alloc, &reader, moved.len())?;
        self.graph.install(reader, &moved);
        let Planned {
            values,
            changed,
            evaluated,
        } = planned;
        assign(tree, values);
        self.evaluated = evaluated;
        Ok(changed)
    }

    /// Writes a property: plans it, and carries the plan out at once. It answers the properties that no longer read as they
    /// did: this one, if it changed, then the others in the order in which their bindings were installed. Refused as
    /// `plan_write` is; then nothing changes.
    pub fn write(
        &mut self,
        meta: &Meta,
        tree: &mut Tree,
        place: &Place,
        value: Value,
    ) -> Result<ChangedPlaces, WriteFault>
        requires agree { Agree meta.now tree.old self.old.installed }
        ensures value { Writes meta.now (one place.now value) self.old.installed tree.old result
            self.new.installed tree.new }
        ensures agree { Agree meta.now tree.new self.new.installed }
        ensures counted { IfOk result (λ changed. CountsWritten (binding_at self.new.installed)
            place.now value tree.old changed self.new.evaluated) }
        ensures err { OnErr result ((self.new ≡ self.old) × (tree.new ≡ tree.old)) }
    {
        if !fits(meta, tree, place, &value) {
            return Err(WriteFault::BadType);
        }
        if self.is_unread(place) {
            return Ok(self.write_alone(tree, place, value));
        }
        let planned = self.plan_write(meta, tree, place, value)?;
        Ok(self.carry_out(tree, planned))
    }

    /// Writes a group of properties at once: plans it, and carries the plan out at once. It answers the properties that no
    /// longer read as they did: the written ones that changed, in the order in which they are written first, then the
    /// others in the order in which their bindings were installed. Refused as `plan_group` is; then nothing changes.
    pub fn write_group(
        &mut self,
        meta: &Meta,
        tree: &mut Tree,
        writes: &[Assignment],
    ) -> Result<ChangedPlaces, WriteFault>
        requires agree { Agree meta.now tree.old self.old.installed }
        ensures value { Writes meta.now writes.now self.old.installed tree.old result
            self.new.installed tree.new }
        ensures agree { Agree meta.now tree.new self.new.installed }
        ensures counted { IfOk result (λ changed. CountsGroup (binding_at self.new.installed)
            writes.now tree.old changed self.new.evaluated) }
        ensures err { OnErr result ((self.new ≡ self.old) × (tree.new ≡ tree.old)) }
    {
        let planned = self.plan_group(meta, tree, writes)?;
        Ok(self.carry_out_group(tree, planned))
    }

    /// Installs the binding of a site: plans it, and carries the plan out at once. It answers the properties that no longer
    /// read as they did: the target, if it changed, then the others in the order in which their bindings were installed.
    /// Refused as `plan_bind` is; then nothing changes.
    pub fn bind(
        &mut self,
        meta: &Meta,
        tree: &mut Tree,
        site: usize,
        target: ObjectId,
        sources: &[ObjectId],
    ) -> Result<ChangedPlaces, BindFault>
        requires agree { Agree meta.now tree.old self.old.installed }
        ensures value { Binds meta.now site target sources.now self.old.installed tree.old result
            self.new.installed tree.new }
        ensures agree { Agree meta.now tree.new self.new.installed }
        ensures counted { IfOk result (λ changed. CountsBound meta.now site target
            self.new.installed changed self.new.evaluated) }
        ensures err { OnErr result ((self.new ≡ self.old) × (tree.new ≡ tree.old)) }
    {
        let planned = self.plan_bind(meta, tree, site, target, sources)?;
        let changed = self.carry_out_bind(tree, planned)?;
        Ok(changed)
    }

    /// Whether a binding has one of its objects, its target's or a source, among these, and another that isn't. It takes no
    /// memory.
    pub fn joins(&self, objects: &[ObjectId]) -> bool
        ensures { result ≡ lead_out objects.now self.now.installed }
    {
        self.graph.joins(objects)
    }

    /// Removes the bindings whose target is of the object, or of which it is a source; values stay. It takes no memory.
    pub fn drop_object(&mut self, object: ObjectId)
        ensures left { self.new.installed ≡ dropped object self.old.installed }
        ensures counted { self.new.evaluated ≡ self.old.evaluated }
    {
        self.graph.drop_object(object);
    }
}

/// A property, and then what follows from it.
fn from_target(alloc: Global, target: &Place, followers: &[Place]) -> Result<Vec<Place>, AllocError>
    ensures { IfOk result (λ places. places.items ≡ target.now ∷ followers.now) }
{
    let mut places = Vec::with_capacity(alloc, followers.len() + 1)?;
    places.push(*target)?;
    places.extend_from_slice(followers)?;
    Ok(places)
}
