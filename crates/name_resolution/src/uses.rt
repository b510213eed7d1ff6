//! The parts of a program that use names of classes and members.

ghost use Rattle.name_resolution.specs.code.Resolving.{ResolvesUses};

use crate::body_resolution::{ResolvedWork, resolve_works};
use crate::resolve_site::resolve_sites;
use crate::resolve_wire::{resolve_owns, resolve_wires};
use class_outlines::{ClassTable, LoadFault};
use meta_model::{MetaOwns, MetaSite, MetaWire};
use sqlite_items::Items;
use std::alloc::Global;
use syntax_trees::Program;

/// What slots and natives do, by class, the wires, the owns and the binding sites, their names resolved.
#[derive(Drop)]
pub struct Uses {
    pub works: Items<Items<ResolvedWork>>,
    pub wires: Items<MetaWire>,
    pub owns: Items<MetaOwns>,
    pub sites: Items<MetaSite>,
}

/// What slots and natives do, the wires, the owns and the binding sites; `NoMember` where a name in one of them isn't there.
pub fn resolve_uses(
    alloc: Global,
    program: &Program,
    outlines: &ClassTable,
) -> Result<Uses, LoadFault>
    ensures { ResolvesUses program.now outlines.now result }
{
    let works = resolve_works(alloc, program, outlines)?;
    let wires = resolve_wires(alloc, program, outlines)?;
    let owns = resolve_owns(alloc, program, outlines)?;
    let sites = resolve_sites(alloc, program, outlines)?;
    Ok(Uses {
        works,
        wires,
        owns,
        sites,
    })
}
