//! What natives are asked.

ghost use Rattle.std.specs.Prelude.{IfOk};
ghost use Rattle.meta_model.specs.declared.object.Work.TheVariants.{Native};
ghost use Rattle.machine_rules.specs.Natives.{MayAnswer, KeepPromises};
ghost use Rattle.machine_rules.specs.code.Answering.{AreTellable};
ghost use Rattle.machine_rules.specs.Reaches.{DoesWork};
ghost use Rattle.run_context.specs.code.Activating.{CallFits};
ghost use Rattle.machine_rules.specs.code.Sound.{IsSoundWorld};

use crate::interpreter::Interpreter;
use machine_state::World;
use meta_model::MetaEffects;
use native_slots::{Action, Answering};
use run_context::{MethodCall, declaring};
use std::alloc::AllocError;

impl<N: Answering> Interpreter<N> {
    /// What a native answers, by the class that declares it, its arguments and the present values of what it reads. The
    /// error is that memory was refused, to the native or before.
    pub fn answer(
        &self,
        world: &World,
        call: &MethodCall<'_>,
        effects: &MetaEffects,
    ) -> Result<Vec<Action>, AllocError>
        requires promises { KeepPromises N.takes N.gives self.now.context.meta self.now.natives }
        requires sound { IsSoundWorld self.now.context.meta world.now }
        requires fit { CallFits self.now.context.meta world.now.store.tree call.now }
        requires native { DoesWork self.now.context.meta world.now.store.tree
            call.now.object call.now.method (Native effects.now) }
        ensures may { IfOk result (λ actions. MayAnswer self.now.context.meta
            (N.gives self.now.natives) world.now.store.tree
            call.now.object call.now.method call.now.arguments.now effects.now actions.items) }
        ensures within { IfOk result (λ actions. AreTellable self.now.context.meta
            world.now.store.tree call.now.object effects.now actions.items) }
    {
        let Some((_, declared)) = self.context.member(world, call.object, call.method) else {
            unreachable!()
        };
        let Some(life) = world.store.tree.life(call.object) else {
            unreachable!()
        };
        let number = declaring(&self.context.meta, life.class, call.method);
        let Some(class) = self.context.meta.object(number) else {
            unreachable!()
        };
        let reads = self
            .context
            .read(world, call.object, effects.reads.as_slice())?;
        self.natives.answer(&class.name, &declared.sig, call.arguments, reads.as_slice())
    }
}
