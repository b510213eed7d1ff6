//! Emissions, and the beginning of methods.

ghost use Rattle.std.specs.Prelude.{◌<◌, length, OnOk};
ghost use Rattle.machine_rules.specs.code.Sound.{IsSoundWorld, SendsThese, IsDelivered, MayBeHeardIn};
ghost use Rattle.machine_state.specs.State.{Emit};
ghost use Rattle.rule_interpreter.specs.code.Calls.{Finishes, UsesNext, RunsCall, RunsUse, RunsOnlyCall};
ghost use Rattle.machine_rules.specs.Rules.{top_of};
ghost use Rattle.machine_rules.specs.Reaches.{DoesWork};
ghost use Rattle.run_context.specs.code.Activating.{CallFits, IsActivated};
ghost use Rattle.machine_rules.specs.code.Keeps.{KeepsWorld};
ghost use Rattle.machine_rules.specs.Natives.{KeepPromises};

use crate::active::Active;
use crate::interpreter::Interpreter;
use basic_types::Value;
use connections::{Connection, SignalHint};
use machine_state::{World, reaches_at_once};
use meta_model::Work;
use native_slots::Answering;
use run_context::{Callee, MethodCall, front};
use trace_entries::{Entry, Fault};

impl<N: Answering> Interpreter<N> {
    /// Uses the connections of an emission one after the other, and ends it.
    #[cycle(machine)]
    pub fn run_emission(
        &self,
        world: &mut World,
        active: &Active<'_>,
        call: &MethodCall<'_>,
        last: u64,
    ) -> Result<(), Fault>
        requires promises { KeepPromises N.takes N.gives self.now.context.meta self.now.natives }
        requires room { length active.now < self.now.context.depth }
        requires sound { IsSoundWorld self.now.context.meta world.old }
        requires emitted { SendsThese self.now.context.meta world.old.store.tree
            call.now.object call.now.method call.now.arguments.now }
        requires heard { MayBeHeardIn world.old call.now.object call.now.method }
        ensures ends { Finishes self.now.context.meta (N.gives self.now.natives)
            self.now.context.depth active.now
            (Emit call.now.object call.now.method call.now.arguments.now 0 last)
            world.old world.new result }
        ensures keeps { OnOk result (KeepsWorld self.now.context.meta world.old world.new) }
        ensures sound { OnOk result (IsSoundWorld self.now.context.meta world.new) }
    {
        let mut hint = SignalHint::new();
        let mut used = 0;
        while let Some(connection) = world.next_used(
            call.object,
            call.method,
            used,
            last,
            &mut hint,
        ) {
            used = connection.number;
            self.deliver(world, active, connection, call.arguments)?;
        }
        world.tick()
    }

    /// Uses a connection: begins the method that it leads to, or posts a call of it, with as many arguments as it declares.
    #[cycle(machine)]
    fn deliver(
        &self,
        world: &mut World,
        active: &Active<'_>,
        connection: Connection,
        arguments: &[Value],
    ) -> Result<(), Fault>
        requires promises { KeepPromises N.takes N.gives self.now.context.meta self.now.natives }
        requires room { length active.now < self.now.context.depth }
        requires sound { IsSoundWorld self.now.context.meta world.old }
        requires takes { IsDelivered self.now.context.meta world.old.store.tree
            connection arguments.now }
        ensures ends { UsesNext self.now.context.meta (N.gives self.now.natives)
            self.now.context.depth active.now connection arguments.now world.old world.new result }
    {
        world.require_rule()?;
        let (to, number) = (connection.receiver, connection.method);
        let Some((receiver, method)) = self.context.member(world, to, number) else {
            unreachable!()
        };
        let Some(home) = world.home(to) else {
            unreachable!()
        };
        let taken = front(arguments, method.types.len());
        let call = MethodCall {
            object: to,
            method: number,
            arguments: taken,
        };
        if reaches_at_once(connection.kind, home, world.running()) {
            let over = (&*active).over(None);
            let (line, callee) = self
                .context
                .activate_found(world, over.count(), &call, receiver, method)?;
            self.begin_used(world, &over, &connection, &call, line, &callee)
        } else {
            self.context
                .post(world, active.count() + 1, &connection, &call)
        }
    }

    /// Uses a connection and begins its method, of which this is found, over what is left of the top of the stack.
    #[cycle(machine)]
    fn begin_used(
        &self,
        world: &mut World,
        active: &Active<'_>,
        connection: &Connection,
        call: &MethodCall<'_>,
        line: Entry,
        callee: &Callee<'_>,
    ) -> Result<(), Fault>
        requires promises { KeepPromises N.takes N.gives self.now.context.meta self.now.natives }
        requires sound { IsSoundWorld self.now.context.meta world.old }
        requires left { 0 < world.old.left }
        requires fit { CallFits self.now.context.meta world.old.store.tree call.now }
        requires begun { IsActivated self.now.context.meta
            self.now.context.depth (length active.now) world.old
            call.now.object call.now.method call.now.arguments.now
            line callee.now.work.now callee.now.last }
        ensures ends { RunsUse self.now.context.meta (N.gives self.now.natives)
            self.now.context.depth active.now connection.now call.now world.old world.new result }
    {
        world.use_connection(line, connection)?;
        self.run_callee(world, active, call, callee)
    }

    /// Begins a method whose arguments an expression gave, over what is left of the top of the stack; `BadType` where the
    /// object has no such method, or the arguments aren't those that it declares.
    #[cycle(machine)]
    pub fn begin_typed(
        &self,
        world: &mut World,
        active: &Active<'_>,
        call: &MethodCall<'_>,
    ) -> Result<(), Fault>
        requires promises { KeepPromises N.takes N.gives self.now.context.meta self.now.natives }
        requires sound { IsSoundWorld self.now.context.meta world.old }
        requires left { 0 < world.old.left }
        ensures ends { RunsOnlyCall self.now.context.meta (N.gives self.now.natives)
            self.now.context.depth active.now call.now world.old world.new result }
    {
        let Some((found, declared)) = self.context.member(world, call.object, call.method) else {
            return Err(Fault::BadType);
        };
        if !world.store.tree.have_types(
            &self.context.meta,
            call.arguments,
            declared.types.as_slice(),
        ) {
            return Err(Fault::BadType);
        }
        let (line, callee) = self
            .context
            .activate_found(world, active.count(), call, found, declared)?;
        self.begin_found(world, active, call, line, &callee)
    }

    /// Begins a method, over what is left of the top of the stack.
    #[cycle(machine)]
    pub fn begin(
        &self,
        world: &mut World,
        active: &Active<'_>,
        call: &MethodCall<'_>,
    ) -> Result<(), Fault>
        requires promises { KeepPromises N.takes N.gives self.now.context.meta self.now.natives }
        requires sound { IsSoundWorld self.now.context.meta world.old }
        requires left { 0 < world.old.left }
        requires fit { CallFits self.now.context.meta world.old.store.tree call.now }
        ensures ends { RunsCall self.now.context.meta (N.gives self.now.natives)
            self.now.context.depth active.now call.now world.old world.new result }
    {
        let (line, callee) = self.context.activate(world, active.count(), call)?;
        self.begin_found(world, active, call, line, &callee)
    }

    /// Begins a method, of which this is found, over what is left of the top of the stack.
    #[cycle(machine)]
    #[inline(always)]
    fn begin_found(
        &self,
        world: &mut World,
        active: &Active<'_>,
        call: &MethodCall<'_>,
        line: Entry,
        callee: &Callee<'_>,
    ) -> Result<(), Fault>
        requires promises { KeepPromises N.takes N.gives self.now.context.meta self.now.natives }
        requires sound { IsSoundWorld self.now.context.meta world.old }
        requires left { 0 < world.old.left }
        requires fit { CallFits self.now.context.meta world.old.store.tree call.now }
        requires begun { IsActivated self.now.context.meta
            self.now.context.depth (length active.now) world.old
            call.now.object call.now.method call.now.arguments.now
            line callee.now.work.now callee.now.last }
        ensures ends { RunsCall self.now.context.meta (N.gives self.now.natives)
            self.now.context.depth active.now call.now world.old world.new result }
    {
        world.note(line)?;
        self.run_callee(world, active, call, callee)
    }

    /// Runs a method that has begun to its end.
    #[cycle(machine)]
    pub fn run_callee(
        &self,
        world: &mut World,
        active: &Active<'_>,
        call: &MethodCall<'_>,
        callee: &Callee<'_>,
    ) -> Result<(), Fault>
        requires promises { KeepPromises N.takes N.gives self.now.context.meta self.now.natives }
        requires room { length active.now < self.now.context.depth }
        requires sound { IsSoundWorld self.now.context.meta world.old }
        requires fit { CallFits self.now.context.meta world.old.store.tree call.now }
        requires work { DoesWork self.now.context.meta world.old.store.tree
            call.now.object call.now.method callee.now.work.now }
        ensures ends { Finishes self.now.context.meta (N.gives self.now.natives)
            self.now.context.depth active.now
            (top_of call.now.object call.now.method call.now.arguments.now
            callee.now.last callee.now.work.now)
            world.old world.new result }
    {
        match callee.work {
            Work::Signal => self.run_emission(world, active, call, callee.last),
            Work::Slot(body) => self.run_body(world, active, call, body.as_slice()),
            Work::Native(effects) => self.run_native(world, active, call, effects),
        }
    }
}
