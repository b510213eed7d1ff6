//! Writes, and what changes with them. A change is planned, and the lines that tell of it are added to the trace, before
//! anything else changes: where memory is refused for one of these, the world is as it was. A write of a property that no
//! binding reads, as most are, needs no plan.

ghost use Rattle.std.specs.Prelude.{◌≡◌, [], ◌∷◌, ◌<◌, IfOk, IfErr};
ghost use Rattle.object_tree.specs.Objects.{change_life, written};
ghost use Rattle.binding_graph.specs.Bindings.{binding_at, without, without_all};
ghost use Rattle.binding_graph.specs.code.Graph.{Unread};
ghost use Rattle.prop_bindings.specs.Calls.{AllFit};
ghost use Rattle.prop_bindings.specs.Changes.{AreChanged, once, one, places_in};
ghost use Rattle.prop_bindings.specs.Fits.{Agree, FitsAt};
ghost use Rattle.prop_bindings.specs.Plans.{after};
ghost use Rattle.trace_entries.specs.declared.fault.Fault.TheVariants.{Memory};
ghost use Rattle.machine_state.specs.code.Trying.{fault_of, IsUnplanned, TriesWrite};
ghost use Rattle.machine_state.specs.Telling.{Grouped, writes_of};
ghost use Rattle.machine_state.specs.code.Changing.{noted, with_bound, WritesIn};
ghost use Rattle.machine_state.specs.code.Planned.{WillWrite, WillWriteOne, WillWriteAll};

use crate::changes::{Cause, Telling, line_of};
use crate::world::World;
use basic_types::Value;
use delete_later::Store;
use meta_model::Meta;
use prop_bindings::{
    Assignment, ChangedPlaces, Place, PlannedGroup, PlannedWrite, WriteFault, fits,
};
use std::alloc::{AllocError, Global};
use trace_entries::Fault;

impl World {
    /// A rule that writes a property of a living object, which ends its binding; what follows from it changes with it, and
    /// all this is written down at this depth. It answers the properties that no longer read as they did: this one, if it
    /// changed, then the others in the order in which their bindings were installed. `BadType` where no such object lives, it
    /// has no such property, or the value isn't of its type. Then, and without memory, nothing changes.
    pub fn write(
        &mut self,
        meta: &Meta,
        depth: usize,
        place: &Place,
        value: Value,
    ) -> Result<ChangedPlaces, Fault>
        requires left { 0 < self.old.left }
        requires agree { Agree meta.now self.old.store.tree self.old.store.bindings }
        ensures value { TriesWrite meta.now depth place.now value self.old result self.new }
        ensures agree { Agree meta.now self.new.store.tree self.new.store.bindings }
    {
        if self.store.bindings.is_unread(place) {
            return self.write_unread(meta, depth, place, value);
        }
        self.write_followed(meta, depth, place, value)
    }

    /// Writes a property that no binding reads, as `write` does: nothing follows from it.
    #[inline(always)]
    fn write_unread(
        &mut self,
        meta: &Meta,
        depth: usize,
        place: &Place,
        value: Value,
    ) -> Result<ChangedPlaces, Fault>
        requires left { 0 < self.old.left }
        requires agree { Agree meta.now self.old.store.tree self.old.store.bindings }
        requires unread { Unread (binding_at self.old.store.bindings) place.now }
        ensures value { TriesWrite meta.now depth place.now value self.old result self.new }
        ensures agree { Agree meta.now self.new.store.tree self.new.store.bindings }
    {
        let tree = &self.store.tree;
        if !fits(meta, tree, place, &value) {
            return Err(Fault::BadType);
        }
        let line = line_of(meta, tree, depth, Cause::Write, place, &value)?;
        self.trace.push(line)?;
        self.left -= 1;
        Ok(self.write_alone(place, value))
    }

    /// Writes a property that bindings may read, as `write` does: others may follow.
    #[inline(never)]
    fn write_followed(
        &mut self,
        meta: &Meta,
        depth: usize,
        place: &Place,
        value: Value,
    ) -> Result<ChangedPlaces, Fault>
        requires left { 0 < self.old.left }
        requires agree { Agree meta.now self.old.store.tree self.old.store.bindings }
        ensures value { TriesWrite meta.now depth place.now value self.old result self.new }
        ensures agree { Agree meta.now self.new.store.tree self.new.store.bindings }
    {
        let planned = self.plan_write(meta, place, value)?;
        let telling = Telling {
            meta,
            tree: &self.store.tree,
            planned: &planned.planned,
            depth,
        };
        telling.note(&mut self.trace, Cause::Write, place)?;
        self.left -= 1;
        Ok(self.carry_out(planned))
    }

    /// A rule that does the sets of a group, which ends the bindings of the written properties; what follows from them
    /// changes with them, and all this is written down at this depth. It answers the properties that no longer read as they
    /// did: of the written ones those that changed, in the order in which they were written first, then the others in the
    /// order in which their bindings were installed. Without memory nothing changes.
    pub fn write_group(
        &mut self,
        meta: &Meta,
        depth: usize,
        sets: &[Option<Assignment>],
    ) -> Result<ChangedPlaces, Fault>
        requires left { 0 < self.old.left }
        requires agree { Agree meta.now self.old.store.tree self.old.store.bindings }
        requires fit { AllFit meta.now self.old.store.tree (writes_of (Grouped sets.now)) }
        ensures value { WritesIn meta.now depth (Grouped sets.now) self.old (noted self.old)
            result self.new }
        ensures agree { Agree meta.now self.new.store.tree self.new.store.bindings }
    {
        let planned = self.plan_group(meta, sets)?;
        let telling = Telling {
            meta,
            tree: &self.store.tree,
            planned: &planned.planned,
            depth,
        };
        telling.group(&mut self.trace, sets, planned.targets())?;
        self.left -= 1;
        Ok(self.carry_out_group(planned))
    }

    /// Plans a write of a property of a living object; `BadType` where no such object lives, it has no such property, or the
    /// value isn't of its type, and `Memory` only where a growth was refused.
    #[inline(always)]
    pub fn plan_write(
        &self,
        meta: &Meta,
        place: &Place,
        value: Value,
    ) -> Result<PlannedWrite, Fault>
        requires agree { Agree meta.now self.now.store.tree self.now.store.bindings }
        ensures fits { IfOk result (λ plan. FitsAt meta.now self.now.store.tree place.now value) }
        ensures ok { IfOk result (WillWriteOne meta.now self.now.store.tree self.now.store.bindings
            place.now value) }
        ensures err { IfErr result (IsUnplanned meta.now self.now.store.tree place.now value) }
    {
        let store = &self.store;
        match store.bindings.plan_write(meta, &store.tree, place, value) {
            Ok(planned) => Ok(planned),
            Err(fault) => Err(fault_of(fault)),
        }
    }

    /// Plans the sets of a group; `Memory` only where a growth was refused.
    fn plan_group(&self, meta: &Meta, sets: &[Option<Assignment>]) -> Result<PlannedGroup, Fault>
        requires agree { Agree meta.now self.now.store.tree self.now.store.bindings }
        requires fit { AllFit meta.now self.now.store.tree (writes_of (Grouped sets.now)) }
        ensures ok { IfOk result (WillWriteAll meta.now self.now.store.tree self.now.store.bindings
            (writes_of (Grouped sets.now))) }
        ensures err { IfErr result (λ fault. fault ≡ Memory) }
    {
        let writes = writes_of(self.trace.allocator(), sets)?;
        let store = &self.store;
        match store.bindings.plan_group(meta, &store.tree, &writes) {
            Ok(planned) => Ok(planned),
            Err(WriteFault::Memory) => Err(Fault::Memory),
            Err(WriteFault::BadType) => unreachable!(),
        }
    }

    /// Gives a property that no binding reads a value of its type, and ends its own binding, which takes no memory. It
    /// answers the property, if it no longer reads as it did.
    #[inline(always)]
    pub fn write_alone(&mut self, place: &Place, value: Value) -> ChangedPlaces
        ensures changed { AreChanged self.old.store.tree
            (change_life place.now.object (written place.now.property value) self.old.store.tree)
            (place.now ∷ []) result }
        ensures world { self.new ≡ with_bound self.old
            (change_life place.now.object (written place.now.property value) self.old.store.tree)
            (without place.now self.old.store.bindings) }
    {
        let Store { tree, bindings, .. } = &mut self.store;
        bindings.write_alone(tree, place, value)
    }

    /// Carries out a planned write, which takes no memory, and answers the properties that no longer read as they did.
    pub fn carry_out(&mut self, planned: PlannedWrite) -> ChangedPlaces
        ensures changed { result ≡ planned.planned.changed }
        ensures world { self.new ≡ with_bound self.old (after planned.planned self.old.store.tree)
            (without planned.target self.old.store.bindings) }
    {
        let Store { tree, bindings, .. } = &mut self.store;
        bindings.carry_out(tree, planned)
    }

    /// Carries out a planned group, which takes no memory, and answers the properties that no longer read as they did.
    fn carry_out_group(&mut self, planned: PlannedGroup) -> ChangedPlaces
        ensures changed { result ≡ planned.planned.changed }
        ensures world { self.new ≡ with_bound self.old (after planned.planned self.old.store.tree)
            (without_all planned.targets self.old.store.bindings) }
    {
        let Store { tree, bindings, .. } = &mut self.store;
        bindings.carry_out_group(tree, planned)
    }
}

/// The fault of a run for one of a write.
fn fault_of(fault: WriteFault) -> Fault
    ensures { result ≡ fault_of fault }
{
    match fault {
        WriteFault::BadType => Fault::BadType,
        WriteFault::Memory => Fault::Memory,
    }
}

/// What the sets of a group write. Its error is that memory was refused.
fn writes_of(alloc: Global, sets: &[Option<Assignment>]) -> Result<Vec<Assignment>, AllocError>
    ensures { IfOk result (λ writes. writes.items ≡ writes_of (Grouped sets.now)) }
{
    let mut writes = Vec::with_capacity(alloc, sets.len())?;
    for set in sets {
        if let Some(Assignment { place, value }) = set {
            let (place, value) = (*place, value.copy()?);
            writes.push(Assignment { place, value })?;
        }
    }
    Ok(writes)
}
