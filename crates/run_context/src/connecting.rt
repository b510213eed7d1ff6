//! Connections that statements make and remove.

ghost use Rattle.std.specs.Prelude.{◌≡◌, ◌<◌, ◌^◌, ◌-◌, IfOk, IfErr, MatchOption};
ghost use Rattle.meta_model.specs.code.Ends.{IsEndOf};
ghost use Rattle.trace_entries.specs.Refusals.{refusal_number};
ghost use Rattle.trace_entries.specs.declared.entry.Entry.TheVariants.{At};
ghost use Rattle.trace_entries.specs.declared.entry.EntryKind.TheVariants.{Refused};
ghost use Rattle.machine_rules.specs.Connecting.{may_connect};
ghost use Rattle.run_context.specs.code.Statements.{IsJudged, LacksEnds, NamesEnds, LacksNames, ConnectsIn, DisconnectsIn};

use crate::context::RunContext;
use basic_types::Name;
use machine_rules::kept_ends;
use machine_state::{Endpoints, World};
use meta_model::{ConnectionEnd, Wired};
use syntax_trees::{self, ConnectionType};
use trace_entries::{Entry, EntryKind, Fault, Refusal};

impl RunContext {
    /// Connects by a statement, where `depth` activations are on the stack, or writes down why that is refused: the first
    /// of `NotWired`, `Incompatible` and `Exists` that holds. `BadType` where an object or its method isn't there, and
    /// `Memory`; then nothing changes.
    #[inline(never)]
    pub fn connect(
        &self,
        world: &mut World,
        depth: usize,
        ends: Endpoints,
        how: ConnectionType,
    ) -> Result<(), Fault>
        requires left { 0 < world.old.left }
        requires few { world.old.store.connections.last < 2 ^ 63 - 1 }
        ensures { ConnectsIn self.now.meta world.old depth ends how world.new result }
    {
        let Some(answer) = self.judged(world, &ends, how) else {
            return Err(Fault::BadType);
        };
        if let Err(refusal) = answer {
            return world.note(refused(depth, refusal));
        }
        let kept = kept_ends(&ends);
        let names = self.names(world, &kept)?;
        let line = Entry::At(depth, EntryKind::Connected(names, how));
        world.connect(line, &kept, how)
    }

    /// Disconnects by a statement, where `depth` activations are on the stack, or writes down that nothing is connected.
    /// `BadType` where an object or its method isn't there, and `Memory`; then nothing changes.
    #[inline(never)]
    pub fn disconnect(&self, world: &mut World, depth: usize, ends: Endpoints) -> Result<(), Fault>
        requires left { 0 < world.old.left }
        ensures { DisconnectsIn self.now.meta world.old depth ends world.new result }
    {
        let kept = kept_ends(&ends);
        let names = self.names(world, &kept)?;
        if !world.are_joined(&kept) {
            return world.note(refused(depth, Refusal::NoConnection));
        }
        let line = Entry::At(depth, EntryKind::Disconnected(names));
        world.disconnect(line, &kept)
    }

    /// Whether a connection may be made from a signal to a method, as both are spelled, where these ends would be kept: why not,
    /// the first of `NotWired`, `Incompatible` and `Exists` that holds.
    pub fn may_connect(
        &self,
        world: &World,
        from: &ConnectionEnd<'_>,
        to: &ConnectionEnd<'_>,
        ends: &Endpoints,
        how: ConnectionType,
    ) -> Result<(), Refusal>
        requires from { IsEndOf self.now.meta from.now }
        requires to { IsEndOf self.now.meta to.now }
        ensures { may_connect self.now.meta world.now.store.connections
            (record { from = from.now.class; to = to.now.class; ends = ends.now })
            from.now.sig.now to.now.sig.now how result }
    {
        match self.meta.wired_ends(from, to, how.kind) {
            Wired::No => Err(Refusal::NotWired),
            Wired::Unfit => Err(Refusal::Incompatible),
            Wired::Fit if how.unique && world.are_joined(ends) => Err(Refusal::Exists),
            Wired::Fit => Ok(()),
        }
    }

    /// Whether a statement may connect; `None` where an object or its method isn't there.
    fn judged(
        &self,
        world: &World,
        ends: &Endpoints,
        how: ConnectionType,
    ) -> Option<Result<(), Refusal>>
        ensures { MatchOption result (LacksEnds self.now.meta world.now.store.tree ends.now)
            (IsJudged self.now.meta world.now ends.now how) }
    {
        let Some((_, sender)) = world.store.tree.get(ends.sender) else {
            return None;
        };
        let Some((_, receiver)) = world.store.tree.get(ends.receiver) else {
            return None;
        };
        let Some(signal) = self.meta.method_at(sender.class, ends.signal) else {
            return None;
        };
        let Some(method) = self.meta.method_at(receiver.class, ends.method) else {
            return None;
        };
        let from = ConnectionEnd {
            class: sender.class,
            number: Some(ends.signal),
            sig: &signal.sig,
        };
        let to = ConnectionEnd {
            class: receiver.class,
            number: Some(ends.method),
            sig: &method.sig,
        };
        Some(self.may_connect(world, &from, &to, &kept_ends(ends), how))
    }

    /// The names at two ends; `BadType` where an object or its method isn't there.
    #[inline(always)]
    fn names(&self, world: &World, ends: &Endpoints) -> Result<syntax_trees::Endpoints<Name>, Fault>
        ensures ok { IfOk result (NamesEnds self.now.meta world.now.store.tree ends.now) }
        ensures err { IfErr result (LacksNames self.now.meta world.now.store.tree ends.now) }
    {
        let Some((sender, signal)) = self.member(world, ends.sender, ends.signal) else {
            return Err(Fault::BadType);
        };
        let Some((receiver, method)) = self.member(world, ends.receiver, ends.method) else {
            return Err(Fault::BadType);
        };
        Ok(syntax_trees::Endpoints {
            sender: sender.name.copy()?,
            signal: signal.sig.copy()?,
            receiver: receiver.name.copy()?,
            method: method.sig.copy()?,
        })
    }
}

/// The entry of a statement that is refused.
fn refused(depth: usize, refusal: Refusal) -> Entry
    ensures { result ≡ At depth (Refused (refusal_number refusal)) }
{
    Entry::At(depth, EntryKind::Refused(refusal.number()))
}
