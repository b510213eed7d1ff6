//! Wires whose methods take what their signals give.

ghost use Rattle.std.specs.Prelude.{◌↔◌, IsTrue};
ghost use Rattle.type_check.specs.Firsts.{FindsWithout};
ghost use Rattle.type_check.specs.Wires.{IsFitWire};

use basic_types::fits;
use meta_model::{Meta, MetaWire};

/// The place, from 0, of the first wire whose method's parameter types aren't the first ones of its signal; `None` where
/// each wire's are.
pub fn unfit_wire(meta: &Meta) -> Option<usize>
    ensures { FindsWithout (IsFitWire meta.now) meta.now.wires result }
{
    for (place, wire) in meta.wires().iter().enumerate() {
        if !is_fit(meta, wire) {
            return Some(place);
        }
    }
    None
}

/// Whether the wire's method takes what its signal gives.
pub fn is_fit(meta: &Meta, wire: &MetaWire) -> bool
    ensures { IsTrue result ↔ IsFitWire meta.now wire.now }
{
    let Some(signal) = meta.method_at(wire.sender, wire.signal) else {
        return false;
    };
    match meta.method_at(wire.receiver, wire.method) {
        Some(method) => fits(&signal.sig, &method.sig),
        None => false,
    }
}
