//! Wires that nothing can use.
//!
//! A wire lets connections be made, by statements or by scripts, and nothing tells which of the wires that cover a connection
//! lets it be made. So a wire changes nothing where another one covers each connection that it covers. Whether its signal is
//! ever emitted says nothing: a script may emit any signal of the program, and the runtime emits those of `QObject`.

ghost use Rattle.std.specs.Prelude.{All, IsTrue, IfOk, IfSome};
ghost use Rattle.meta_model.specs.Loaded.{Loaded};
ghost use Rattle.program_flaws.specs.Wires.{IsLineageOf, IsWider, Leaves, IsSo};

use crate::warned::lineage::Lineage;
use crate::warned::warning::Warning;
use meta_model::{Meta, MetaWire};
use std::alloc::AllocError;

/// Adds a warning for each wire beside which another one covers the same connections: a wider one, wherever it stands, or the
/// same one before it.
pub fn add_idle_wires(
    meta: &Meta,
    lineage: &Lineage,
    found: &mut Vec<Warning>,
) -> Result<(), AllocError>
    requires lineage { IsLineageOf meta.now lineage.now }
    requires so { All (IsSo meta.now) found.old.items }
    ensures { IfOk result (λ _. All (IsSo meta.now) found.new.items) }
{
    // The program is sound: its wires are between members that are there.
    let _classes = meta.classes();
    for (place, wire) in meta.wires().iter().enumerate() {
        if let Some(other) = covering(meta, lineage, place, wire) {
            found.push(Warning::IdleWire { wire: place, other })?;
        }
    }
    Ok(())
}

/// The place of the first wire that leaves nothing to the one at this place.
fn covering(meta: &Meta, lineage: &Lineage, place: usize, wire: &MetaWire) -> Option<usize>
    requires { IsLineageOf meta.now lineage.now }
    ensures { IfSome result (Leaves meta.now place wire.now) }
{
    for (other, wider) in meta.wires().iter().enumerate() {
        if other != place
            && is_wider(lineage, wider, wire)
            && (other < place || !is_wider(lineage, wire, wider))
        {
            return Some(other);
        }
    }
    None
}

/// Whether the one wire covers each connection that the other covers.
fn is_wider(lineage: &Lineage, wider: &MetaWire, wire: &MetaWire) -> bool
    ensures { (p : Loaded) → IsLineageOf p lineage.now → IsTrue result → IsWider p wider.now wire.now }
{
    wider.kind == wire.kind
        && wider.signal == wire.signal
        && wider.method == wire.method
        && lineage.is_below(wire.sender, wider.sender)
        && lineage.is_below(wire.receiver, wider.receiver)
}
