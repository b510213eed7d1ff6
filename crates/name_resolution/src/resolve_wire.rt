//! Wires and owns whose names are replaced by numbers.

ghost use Rattle.std.specs.Prelude.{◌≡◌};
ghost use Rattle.class_outlines.specs.Notifiers.{IsSignalOf};
ghost use Rattle.class_outlines.specs.Ends.{IsSigned};
ghost use Rattle.name_resolution.specs.code.Wires.{IsWire, IsOwns};
ghost use Rattle.name_resolution.specs.code.Resolving.{FindsEnd, Resolves, ResolvesAll};

use crate::missing::{no_end, undeclared};
use basic_types::{Name, Sig};
use class_outlines::{ClassTable, Declaration, End, LoadFault, Missing, PartFault, names_of_sig};
use meta_model::{MetaOwns, MetaWire, OBJECT_NAME_CHANGED};
use sqlite_items::Items;
use std::alloc::Global;
use syntax_trees::{Owns, Program, Wire};

/// The wires in their order; `NoMember` where an end of one isn't there.
pub fn resolve_wires(
    alloc: Global,
    program: &Program,
    outlines: &ClassTable,
) -> Result<Items<MetaWire>, LoadFault>
    ensures { ResolvesAll program.now (IsWire outlines.now) program.now.wires result }
{
    let mut loaded = Items::new(alloc);
    for (place, wire) in program.wires.as_slice().iter().enumerate() {
        match resolve_wire(outlines, wire) {
            Ok(wire) => loaded.push(wire)?,
            Err(fault) => return Err(fault.of(Declaration::Wire(place))),
        }
    }
    Ok(loaded)
}

/// The wire; `NoMember` where an end of it isn't there.
fn resolve_wire(outlines: &ClassTable, wire: &Wire) -> Result<MetaWire, PartFault>
    ensures { Resolves (IsWire outlines.now wire.now) result }
{
    let Some((sender, signal)) = signal_end(outlines, &wire.sender, &wire.signal) else {
        return Err(no_end(outlines, 1, &wire.sender, End::Sender, &wire.signal));
    };
    let name = names_of_sig(&wire.signal).saturating_add(2);
    let Some((receiver, method)) = method_end(outlines, &wire.receiver, &wire.method) else {
        return Err(no_end(outlines, name, &wire.receiver, End::Receiver, &wire.method));
    };
    if OBJECT_NAME_CHANGED < method {
        Ok(MetaWire {
            sender,
            signal,
            receiver,
            method,
            kind: wire.kind,
        })
    } else {
        Err(no_end(outlines, name, &wire.receiver, End::Receiver, &wire.method))
    }
}

/// The numbers of the class of this name and of its signal of this signature; `None` where either isn't there.
pub fn signal_end(outlines: &ClassTable, name: &Name, sig: &Sig) -> Option<(usize, usize)>
    ensures { FindsEnd (IsSignalOf sig.now) outlines.now name.now result }
{
    let Some((class, found)) = outlines.find(name) else {
        return None;
    };
    match found.place_of_signal(sig) {
        Some(method) => Some((class, method)),
        None => None,
    }
}

/// The numbers of the class of this name and of its method of this signature.
fn method_end(outlines: &ClassTable, name: &Name, sig: &Sig) -> Option<(usize, usize)>
    ensures { FindsEnd (IsSigned sig.now) outlines.now name.now result }
{
    let Some((class, found)) = outlines.find(name) else {
        return None;
    };
    match found.place_of_signed(sig) {
        Some(method) => Some((class, method)),
        None => None,
    }
}

/// The declarations of owners in their order; `NoMember` where a class isn't there.
pub fn resolve_owns(
    alloc: Global,
    program: &Program,
    outlines: &ClassTable,
) -> Result<Items<MetaOwns>, LoadFault>
    ensures { ResolvesAll program.now (IsOwns outlines.now) program.now.owns result }
{
    let mut loaded = Items::new(alloc);
    for (place, one) in program.owns.as_slice().iter().enumerate() {
        match resolve_one_owns(outlines, one) {
            Ok(one) => loaded.push(one)?,
            Err(fault) => return Err(fault.of(Declaration::Owns(place))),
        }
    }
    Ok(loaded)
}

/// The declaration; `NoMember` where one of its classes isn't there.
fn resolve_one_owns(outlines: &ClassTable, owns: &Owns) -> Result<MetaOwns, PartFault>
    ensures { Resolves (IsOwns outlines.now owns.now) result }
{
    let Some(parent) = outlines.place_of(&owns.parent) else {
        return Err(undeclared(0, Missing::Class));
    };
    let Some(child) = outlines.place_of(&owns.child) else {
        return Err(undeclared(1, Missing::Class));
    };
    Ok(MetaOwns { parent, child })
}
