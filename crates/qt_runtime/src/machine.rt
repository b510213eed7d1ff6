//! The machine, by its code.

use crate::taking::take_event;
use machine_state::World;
use meta_model::Meta;
use native_slots::Answering;
use object_machine::ObjectMachine;
use rank_check::Checked;
use rule_interpreter::Interpreter;
use script_lang::Event;
use std::alloc::{AllocError, Global};
use std::marker::Model;
use std::mem;
use trace_entries::{Answer, Entry, Fault, Trace};

/// A run of a program, event by event.
pub struct Machine<N> {
    interpreter: Interpreter<N>,
    world: World,
    stopped: bool,
}

impl<N: Drop> Drop for Machine<N> {
    fn drop(self) {
        let Machine {
            interpreter: _,
            world: _,
            stopped: _,
        } = self;
    }
}

impl<N> Model for Machine<N> {
    ghost use Rattle.std.specs.Coded.{codes};
    ghost use Rattle.syntax_trees.specs.contracts.syntax.Expr as expr;
    ghost use Rattle.meta_model.specs.contracts.object.Statement as statement;
    ghost use Rattle.meta_model.specs.contracts.site.SourceProperty as source;
    ghost use Rattle.native_slots.specs.Promises.{Promises};
    ghost use Rattle.object_machine.specs.Seen.{Seen};
    ghost use Rattle.qt_runtime.specs.code.Invariant.{MachineInvariant};

    ghost Value = { Seen N };

    ghost coded = { Prim.hlevel
        (codes, statement.the_row.coded, (expr.the_row source.the_row).coded) };

    ghost view = { λ m. record {
      program = m.interpreter.context.meta;
      natives = m.interpreter.natives;
      depth = m.interpreter.context.depth;
      world = m.world;
      stopped = m.stopped;
    } };

    ghost invariant = { λ m.
        MachineInvariant m.interpreter.context.meta m.interpreter.context.depth m.world m.stopped };
}

/// What each call does, and when each fault comes, is said of [`ObjectMachine`].
impl<N: Answering + Drop> ObjectMachine for Machine<N> {
    type Natives = N;

    ghost seen = { λ m. m };

    fn unchecked(
        alloc: Global,
        meta: Meta,
        natives: N,
        depth: usize,
        steps: u64,
    ) -> Result<Machine<N>, AllocError> {
        // The contract of `classes` says that the numbers in bodies are those of members.
        let _ = meta.classes();
        let world = World::new(alloc, steps)?;
        Ok(Machine {
            interpreter: Interpreter::new(alloc, meta, natives, depth),
            world,
            stopped: false,
        })
    }

    fn checked(
        alloc: Global,
        program: Checked,
        natives: N,
        steps: u64,
    ) -> Result<Machine<N>, AllocError> {
        // The contract of `classes` says that the numbers in bodies are those of members.
        let _ = program.meta().classes();
        let depth = program.bound();
        Machine::unchecked(alloc, program.into_meta(), natives, depth, steps)
    }

    fn apply(&mut self, event: &Event) -> Result<Answer, Fault> {
        // The contract of `classes` says that the numbers in bodies are those of members.
        let _ = self.interpreter.context.meta.classes();
        if self.stopped {
            return Err(Fault::Stopped);
        }
        let result = take_event(&self.interpreter, &mut self.world, event);
        self.stopped = result.is_err();
        result
    }

    fn run(&mut self, events: &[Event]) -> Result<(), Fault> {
        // The contract of `classes` says that the numbers in bodies are those of members.
        let _ = self.interpreter.context.meta.classes();
        if self.is_stopped() {
            return Err(Fault::Stopped);
        }
        for event in events {
            let _answer = self.apply(event)?;
        }
        Ok(())
    }

    fn meta(&self) -> &Meta {
        &self.interpreter.context.meta
    }

    fn is_stopped(&self) -> bool {
        self.stopped
    }

    fn hand_over(&mut self, spare: Trace) -> Trace {
        mem::replace(&mut self.world.trace, spare)
    }

    fn trace(&self) -> &[Entry] {
        self.world.trace.as_slice()
    }
}
