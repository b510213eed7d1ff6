//! Connections that are made and removed.

ghost use Rattle.std.specs.Prelude.{◌≡◌, ◌∷◌, [], ◌<◌, ◌^◌, ◌-◌, OnOk, IfErr, IsTrue};
ghost use Rattle.machine_state.specs.Connections.{are_joined, newly_joined, parted};
ghost use Rattle.machine_state.specs.code.Changing.{connecting, disconnecting, GoesTo};
ghost use Rattle.trace_entries.specs.declared.fault.Fault.TheVariants.{Memory};

use crate::endpoints::Endpoints;
use crate::world::World;
use delete_later::LiveConnections;
use syntax_trees::ConnectionType;
use trace_entries::{Entry, Fault};

impl World {
    /// Whether some connection joins these ends.
    pub fn are_joined(&self, ends: &Endpoints) -> bool
        ensures { result ≡ are_joined ends.now self.now.store.connections }
    {
        self.store
            .connections
            .are_connected(ends.sender, ends.signal, ends.receiver, ends.method)
    }

    /// A rule that makes a connection, and writes this entry down; without memory nothing changes. Whether a unique one
    /// exists isn't asked.
    pub fn connect(
        &mut self,
        entry: Entry,
        ends: &Endpoints,
        how: ConnectionType,
    ) -> Result<(), Fault>
        requires left { 0 < self.old.left }
        requires few { self.old.store.connections.last < 2 ^ 63 - 1 }
        ensures { let target = connecting self.old (entry ∷ []) ends.now how in
            GoesTo self.old target self.new result }
    {
        self.trace.push(entry)?;
        match join(&mut self.store.connections, ends, how) {
            Ok(()) => {
                self.left -= 1;
                Ok(())
            }
            Err(fault) => {
                self.trace.pop();
                Err(fault)
            }
        }
    }

    /// A rule that removes the connections that join these ends, and writes this entry down; without memory nothing
    /// changes.
    pub fn disconnect(&mut self, entry: Entry, ends: &Endpoints) -> Result<(), Fault>
        requires left { 0 < self.old.left }
        requires joined { IsTrue (are_joined ends.now self.old.store.connections) }
        ensures { let target = disconnecting self.old (entry ∷ []) ends.now in
            GoesTo self.old target self.new result }
    {
        self.note(entry)?;
        part(&mut self.store.connections, ends);
        Ok(())
    }
}

/// Adds a connection with the next number; without memory nothing changes. Whether a unique one exists isn't asked.
pub fn join(
    connected: &mut LiveConnections,
    ends: &Endpoints,
    how: ConnectionType,
) -> Result<(), Fault>
    requires few { connected.old.last < 2 ^ 63 - 1 }
    ensures ok { OnOk result (connected.new ≡ newly_joined ends.now how connected.old) }
    ensures err { IfErr result (λ fault. (fault ≡ Memory) × (connected.new ≡ connected.old)) }
{
    let Ok(()) = connected.connect(
        ends.sender,
        ends.signal,
        ends.receiver,
        ends.method,
        how.kind,
        false,
        how.single,
    ) else {
        return Err(Fault::Memory);
    };
    Ok(())
}

/// Removes the connections that join these ends.
pub fn part(connected: &mut LiveConnections, ends: &Endpoints)
    requires joined { IsTrue (are_joined ends.now connected.old) }
    ensures { connected.new ≡ parted ends.now connected.old }
{
    let Ok(()) = connected.disconnect(ends.sender, ends.signal, ends.receiver, ends.method) else {
        unreachable!()
    };
}
