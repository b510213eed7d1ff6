//! Bodies of slots.

ghost use Rattle.std.specs.Prelude.{◌≡◌, ◌<◌, if◌then◌else◌, length, map, None};
ghost use Rattle.meta_model.specs.declared.object.Statement.TheViews.{out-Statement};
ghost use Rattle.machine_rules.specs.code.Sound.{IsSoundWorld};
ghost use Rattle.machine_state.specs.State.{Run, Body};
ghost use Rattle.run_context.specs.code.Scope.{objects_in};
ghost use Rattle.std.specs.Option.{option_copied};
ghost use Rattle.rule_interpreter.specs.code.Calls.{Finishes, CarriesOut};
ghost use Rattle.machine_rules.specs.Natives.{KeepPromises};

use crate::active::Active;
use crate::interpreter::Interpreter;
use crate::remaining::Remaining;
use crate::statements::pass_null;
use machine_state::World;
use meta_model::Statement;
use native_slots::Answering;
use prop_bindings::Assignment;
use run_context::{MethodCall, Scope};
use trace_entries::Fault;

impl<N: Answering> Interpreter<N> {
    /// Carries out the statements of a body, and ends it.
    #[cycle(machine)]
    pub fn run_body(
        &self,
        world: &mut World,
        active: &Active<'_>,
        call: &MethodCall<'_>,
        statements: &[Statement],
    ) -> Result<(), Fault>
        requires promises { KeepPromises N.takes N.gives self.now.context.meta self.now.natives }
        requires room { length active.now < self.now.context.depth }
        requires sound { IsSoundWorld self.now.context.meta world.old }
        ensures ends { Finishes self.now.context.meta (N.gives self.now.natives)
            self.now.context.depth active.now
            (Body call.now.object call.now.method call.now.arguments.now (map Run statements.now))
            world.old world.new result }
    {
        let mut left = Remaining::all(self.context.alloc, statements);
        while let Some(statement) = left.next() {
            world.require_rule()?;
            self.carry_out(world, active, call, statement, &mut left)?;
        }
        world.tick()
    }

    /// Carries out a statement, over what is left of its body.
    #[cycle(machine)]
    #[inline(always)]
    fn carry_out<'p>(
        &self,
        world: &mut World,
        active: &Active<'_>,
        call: &MethodCall<'_>,
        statement: &'p Statement,
        left: &mut Remaining<'p>,
    ) -> Result<(), Fault>
        requires promises { KeepPromises N.takes N.gives self.now.context.meta self.now.natives }
        requires room { length active.now < self.now.context.depth }
        requires sound { IsSoundWorld self.now.context.meta world.old }
        requires due { 0 < world.old.left }
        ensures advances { CarriesOut self.now.context.meta (N.gives self.now.natives)
            self.now.context.depth active.now call.now (out-Statement statement.now)
            left.old left.new world.old world.new result }
    {
        let over = (&*active).over(Some(call.object));
        match statement {
            Statement::Set(path, property, value) => {
                let found = self.scope(world, &*call).set(path, *property, value)?;
                let Some(Assignment { place, value: new }) = found else {
                    return pass_null(world, over.count());
                };
                self.write(world, &over, &place, new)
            }
            Statement::Group(sets) => {
                let found = self.scope(world, &*call).sets(sets.as_slice())?;
                self.write_group(world, &over, found.as_slice())
            }
            Statement::Delete(path) => {
                let Some(object) = self.scope(world, &*call).object_at(path)? else {
                    return pass_null(world, over.count());
                };
                self.delete(world, &over, object)
            }
            Statement::Emit(signal, given) => {
                self.emit(world, active, call, *signal, given.as_slice())
            }
            Statement::Call(path, method, given) => {
                self.call(world, active, call, path, *method, given.as_slice())
            }
            Statement::If(condition, block, other) => {
                let holds = self.scope(world, &*call).truth_of(condition)?;
                left.put(chosen(holds, block.as_slice(), other.as_slice()))?;
                world.tick()
            }
            Statement::Connect(ends, how) => self.connect(world, active, call, ends, *how),
            Statement::Disconnect(ends) => self.disconnect(world, active, call, ends),
            Statement::Later(path) => self.schedule_at(world, active, call, path),
        }
    }

    /// What the body of a call reads.
    #[inline(always)]
    pub fn scope<'w>(&self, world: &'w World, call: &'w MethodCall<'_>) -> Scope<'w>
        ensures objects { objects_in result ≡ world.now.store.tree }
        ensures outside { option_copied result.written ≡ None }
        ensures this { result.this ≡ call.now.object }
        ensures arguments { result.arguments.now ≡ call.now.arguments.now }
    {
        Scope {
            alloc: self.context.alloc,
            objects: &world.store.tree,
            written: None,
            this: call.object,
            arguments: call.arguments,
        }
    }
}

/// The block that a condition chooses.
fn chosen<'p>(holds: bool, block: &'p [Statement], other: &'p [Statement]) -> &'p [Statement]
    ensures { result.now ≡ (if holds then block.now else other.now) }
{
    if holds { block } else { other }
}
