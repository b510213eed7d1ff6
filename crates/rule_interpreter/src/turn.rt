//! Turns of event loops.

ghost use Rattle.std.specs.Prelude.{◌≡◌, ◌<◌, [], Some, None, OnOk};
ghost use Rattle.machine_rules.specs.code.Sound.{IsSoundWorld};
ghost use Rattle.machine_rules.specs.Reaches.{RunsTo, Advances};
ghost use Rattle.rule_interpreter.specs.code.Delivering.{IsCalled, TakesCall};
ghost use Rattle.machine_rules.specs.Natives.{KeepPromises};

use crate::active::Active;
use crate::interpreter::Interpreter;
use basic_types::Arguments;
use event_loops::{Item, Posted};
use machine_state::{Turn, World};
use native_slots::Answering;
use run_context::MethodCall;
use trace_entries::{Entry, Fault};

impl<N: Answering> Interpreter<N> {
    /// Carries the turn that goes on to its end, if one does.
    pub fn run_turn(&self, world: &mut World) -> Result<(), Fault>
        requires promises { KeepPromises N.takes N.gives self.now.context.meta self.now.natives }
        requires room { 0 < self.now.context.depth }
        requires sound { IsSoundWorld self.now.context.meta world.old }
        ensures ends { RunsTo self.now.context.meta (N.gives self.now.natives)
            self.now.context.depth [] world.old [] world.new [] result }
        ensures over { OnOk result (world.new.turn ≡ None) }
    {
        while let Some(turn) = world.turn {
            world.require_rule()?;
            self.serve(world, turn)?;
        }
        Ok(())
    }

    /// Serves the turn once, after which the stack is empty: no emission stands on a connection that was removed, and what
    /// these still take up is given back.
    fn serve(&self, world: &mut World, turn: Turn) -> Result<(), Fault>
        requires promises { KeepPromises N.takes N.gives self.now.context.meta self.now.natives }
        requires room { 0 < self.now.context.depth }
        requires sound { IsSoundWorld self.now.context.meta world.old }
        requires goes_on { world.old.turn ≡ Some turn }
        requires left { 0 < world.old.left }
        ensures { Advances self.now.context.meta (N.gives self.now.natives)
            self.now.context.depth [] world.old [] world.new [] result }
    {
        let result = self.serve_first(world, turn);
        world.sweep();
        result
    }

    /// Delivers the first item that the turn may deliver, and runs the call or the deletion to its end; with none left the
    /// turn ends. A call of a dead object begins nothing.
    fn serve_first(&self, world: &mut World, turn: Turn) -> Result<(), Fault>
        requires promises { KeepPromises N.takes N.gives self.now.context.meta self.now.natives }
        requires room { 0 < self.now.context.depth }
        requires sound { IsSoundWorld self.now.context.meta world.old }
        requires goes_on { world.old.turn ≡ Some turn }
        requires left { 0 < world.old.left }
        ensures { Advances self.now.context.meta (N.gives self.now.natives)
            self.now.context.depth [] world.old [] world.new [] result }
    {
        let Some(first) = world.store.loops.first_before(turn.home, turn.limit) else {
            world.end_turn();
            return Ok(());
        };
        match &first.item {
            Item::Call { object, .. } => {
                if world.store.tree.life(*object).is_some() {
                    return self.serve_call(world, turn);
                }
                world.take_unwritten(turn.home, turn.limit);
                Ok(())
            }
            Item::Deletion { object } => {
                let object = *object;
                world.take_unwritten(turn.home, turn.limit);
                self.run_deletion(world, &Active::nothing(), object)
            }
        }
    }

    /// Delivers the first item, which is a call of a living object, and runs it to its end.
    fn serve_call(&self, world: &mut World, turn: Turn) -> Result<(), Fault>
        requires promises { KeepPromises N.takes N.gives self.now.context.meta self.now.natives }
        requires room { 0 < self.now.context.depth }
        requires sound { IsSoundWorld self.now.context.meta world.old }
        requires goes_on { world.old.turn ≡ Some turn }
        requires left { 0 < world.old.left }
        requires first { IsCalled world.old turn }
        ensures { Advances self.now.context.meta (N.gives self.now.natives)
            self.now.context.depth [] world.old [] world.new [] result }
    {
        let Turn { home, limit } = turn;
        let Some(first) = world.store.loops.first_before(home, limit) else {
            unreachable!()
        };
        let Item::Call {
            object,
            method,
            arguments,
        } = &first.item
        else {
            unreachable!()
        };
        let (object, method) = (*object, *method);
        let call = MethodCall {
            object,
            method,
            arguments: arguments.as_slice(),
        };
        let (line, callee) = self.context.activate(world, 0, &call)?;
        let given = take_call(world, line, turn)?;
        let call = MethodCall {
            object,
            method,
            arguments: given.as_slice(),
        };
        self.run_callee(world, &Active::nothing(), &call, &callee)
    }
}

/// Takes the first item of a turn, which is a call of a living object, writes this entry down, and gives the call's
/// arguments; without memory nothing changes.
#[inline(always)]
fn take_call(world: &mut World, line: Entry, turn: Turn) -> Result<Arguments, Fault>
    requires left { 0 < world.old.left }
    requires first { IsCalled world.old turn }
    ensures { TakesCall world.old turn line world.new result }
{
    let Turn { home, limit } = turn;
    let taken = world.take_before(line, home, limit)?;
    let Some(
        Posted {
            item: Item::Call { arguments, .. },
            ..
        },
    ) = taken
    else {
        unreachable!()
    };
    Ok(arguments)
}
