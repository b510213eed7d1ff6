//! Natives: their answers, and the actions of these.

ghost use Rattle.std.specs.Prelude.{◌≡◌, ◌<◌, ◌∷◌, [], IsTrue, is_some, length};
ghost use Rattle.meta_model.specs.declared.object.Work.TheVariants.{Native};
ghost use Rattle.machine_state.specs.State.{Ask, Body};
ghost use Rattle.rule_interpreter.specs.code.Calls.{Finishes, CarriesOutAction};
ghost use Rattle.machine_rules.specs.Natives.{KeepPromises};
ghost use Rattle.machine_rules.specs.code.Answering.{member_of_action};
ghost use Rattle.machine_rules.specs.Reaches.{DoesWork};
ghost use Rattle.run_context.specs.code.Activating.{CallFits};
ghost use Rattle.machine_rules.specs.code.Sound.{IsSoundWorld};

use crate::active::Active;
use crate::interpreter::Interpreter;
use basic_types::ObjectId;
use machine_state::World;
use meta_model::MetaEffects;
use native_slots::{Action, Answering};
use prop_bindings::Place;
use run_context::MethodCall;
use trace_entries::Fault;

impl<N: Answering> Interpreter<N> {
    /// Takes the answer of a native, carries its actions out, and ends its body. A native that was refused memory stops the
    /// run, as running out of memory elsewhere does.
    #[cycle(machine)]
    #[inline(never)]
    pub fn run_native(
        &self,
        world: &mut World,
        active: &Active<'_>,
        call: &MethodCall<'_>,
        effects: &MetaEffects,
    ) -> Result<(), Fault>
        requires promises { KeepPromises N.takes N.gives self.now.context.meta self.now.natives }
        requires room { length active.now < self.now.context.depth }
        requires sound { IsSoundWorld self.now.context.meta world.old }
        requires fit { CallFits self.now.context.meta world.old.store.tree call.now }
        requires native { DoesWork self.now.context.meta world.old.store.tree
            call.now.object call.now.method (Native effects.now) }
        ensures ends { Finishes self.now.context.meta (N.gives self.now.natives)
            self.now.context.depth active.now
            (Body call.now.object call.now.method call.now.arguments.now (Ask effects.now ∷ []))
            world.old world.new result }
    {
        world.require_rule()?;
        let actions = self.answer(world, call, effects)?;
        let depth = active.count() + 1;
        let line = self
            .context
            .answer_entry(world, depth, call.object, effects, actions.as_slice())?;
        world.note(line)?;
        for action in actions {
            world.require_rule()?;
            self.carry_out_action(world, active, call.object, effects, action)?;
        }
        world.tick()
    }

    /// Carries out an action of a native, over what is left of its body.
    #[cycle(machine)]
    fn carry_out_action(
        &self,
        world: &mut World,
        active: &Active<'_>,
        object: ObjectId,
        effects: &MetaEffects,
        action: Action,
    ) -> Result<(), Fault>
        requires promises { KeepPromises N.takes N.gives self.now.context.meta self.now.natives }
        requires room { length active.now < self.now.context.depth }
        requires sound { IsSoundWorld self.now.context.meta world.old }
        requires due { 0 < world.old.left }
        requires within { IsTrue (is_some (member_of_action effects.now action)) }
        ensures advances { CarriesOutAction self.now.context.meta (N.gives self.now.natives)
            self.now.context.depth active.now object effects.now action world.old world.new result }
    {
        let over = (&*active).over(Some(object));
        match action {
            Action::Set(place, value) => {
                let Some(property) = effects.sets.get(place) else {
                    unreachable!()
                };
                let target = Place {
                    object,
                    property: *property,
                };
                self.write(world, &over, &target, value)
            }
            Action::Emit(place, arguments) => {
                let Some(signal) = effects.emits.get(place) else {
                    unreachable!()
                };
                let call = MethodCall {
                    object,
                    method: *signal,
                    arguments: arguments.as_slice(),
                };
                self.begin_typed(world, &over, &call)
            }
        }
    }
}
