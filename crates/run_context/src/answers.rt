//! What natives read, and how their answers are written down.

ghost use Rattle.std.specs.Prelude.{IfOk};
ghost use Rattle.std.specs.List.{AllByRecursion};
ghost use Rattle.machine_rules.specs.Natives.{DeclaredBy, AreRead, IsShownAs};
ghost use Rattle.machine_rules.specs.code.Answering.{HasStored, IsTellable, AreTellable, TellsAnswer};

use crate::context::RunContext;
use basic_types::{ObjectId, Value};
use machine_state::{World, show, show_all};
use meta_model::{Meta, MetaEffects};
use native_slots::Action;
use sqlite_items::Items;
use std::alloc::AllocError;
use trace_entries::{Entry, EntryKind, ShownAction};

impl RunContext {
    /// The present values of properties of an object.
    pub fn read(
        &self,
        world: &World,
        object: ObjectId,
        properties: &[usize],
    ) -> Result<Vec<Value>, AllocError>
        requires there { AllByRecursion (HasStored world.now.store.tree object) properties.now }
        ensures { IfOk result (λ values.
            AreRead world.now.store.tree object properties.now values.items) }
    {
        let mut values = Vec::with_capacity(self.alloc, properties.len())?;
        for property in properties {
            let Some(value) = world.store.tree.value(object, *property) else {
                unreachable!()
            };
            values.push(value.copy()?)?;
        }
        Ok(values)
    }

    /// The entry of a native's answer.
    pub fn answer_entry(
        &self,
        world: &World,
        depth: usize,
        object: ObjectId,
        effects: &MetaEffects,
        actions: &[Action],
    ) -> Result<Entry, AllocError>
        requires within { AreTellable self.now.meta world.now.store.tree
            object effects.now actions.now }
        ensures { IfOk result (TellsAnswer self.now.meta world.now.store.tree depth object
            effects.now actions.now) }
    {
        let mut lines = Vec::with_capacity(self.alloc, actions.len())?;
        for action in actions {
            let line = self.show_action(world, object, effects, action)?;
            lines.push(line)?;
        }
        let actions = Items::from_vec(lines);
        Ok(Entry::At(depth, EntryKind::Answered { actions }))
    }

    /// An action of an object's native as it is written down.
    fn show_action(
        &self,
        world: &World,
        object: ObjectId,
        effects: &MetaEffects,
        action: &Action,
    ) -> Result<ShownAction, AllocError>
        requires within { IsTellable self.now.meta world.now.store.tree
            object effects.now action.now }
        ensures { IfOk result (IsShownAs self.now.meta world.now.store.tree object
            effects.now action.now) }
    {
        match action {
            Action::Set(place, value) => {
                let Some(number) = effects.sets.get(*place) else {
                    unreachable!()
                };
                let Some((_, declared)) = self.field(world, object, *number) else {
                    unreachable!()
                };
                let property = declared.name.copy()?;
                let value = show(&world.store.tree, value)?;
                Ok(ShownAction::Set { property, value })
            }
            Action::Emit(place, given) => {
                let Some(number) = effects.emits.get(*place) else {
                    unreachable!()
                };
                let Some((_, declared)) = self.member(world, object, *number) else {
                    unreachable!()
                };
                let signal = declared.sig.name.copy()?;
                let arguments = show_all(self.alloc, &world.store.tree, given.as_slice())?;
                Ok(ShownAction::Emit { signal, arguments })
            }
        }
    }
}

/// The class that declares a method of a class: this one, unless its base has the method.
pub fn declaring(meta: &Meta, class: usize, method: usize) -> usize
    ensures { DeclaredBy meta.now method class result }
{
    match meta.base(class) {
        Some(base) if method < meta.method_count(base) => declaring(meta, base, method),
        _ => class,
    }
}
