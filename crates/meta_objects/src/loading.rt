//! How a program is loaded.

ghost use Rattle.std.specs.Prelude.{Result};
ghost use Rattle.syntax_trees.specs.declared.program.Program.{Program};
ghost use Rattle.class_outlines.specs.declared.fault.MetaFault.{MetaFault};
ghost use Rattle.meta_objects.specs.Builds.{Builds, LoadsProgram};

use crate::clashes::{duplicate_class, repeated_name};
use crate::member_indexes::index_members;
use crate::notify::bad_notifier;
use crate::unfit_types::unfit_type;
use class_outlines::{ClassTable, LoadFault, MetaFault, index_outlines, outline_classes};
use meta_model::Meta;
use name_resolution::{Uses, resolve_objects, resolve_uses};
use std::alloc::Global;
use syntax_trees::Program;

/// What is built of a program: with this trait in scope, `Meta::build` gives a program's meta-objects.
pub trait FromProgram {
    /// What is answered of which program.
    ghost answers: { Program → Result Self MetaFault → Type 0 };

    /// Builds it of the program.
    fn build(alloc: Global, program: &Program) -> Result<Self, MetaFault>
        ensures { answers program.now result };
}

impl FromProgram for Meta {
    ghost answers = { Builds };

    /// Resolves a program's names. Each fault is judged over the whole program, and the first of these is answered:
    /// `DuplicateClass`, where two classes have one name, or one is called `QObject`, `int`, `bool` or `QString`;
    /// `NoBase`, where a class's base is neither `QObject` nor a class that stands before it; `DuplicateMember`, where
    /// two methods of a class, inherited ones too, have one name and one number of parameters, two of its properties one
    /// name, or two parameters of a method, two binding sites, two formal sources of one site or two names in one list of
    /// a native one name; `NoMember`, where a class, a member, a parameter or a formal source that a body, a native, a
    /// wire, an owns or a site uses isn't there; `BadNotify`, where a notify signature isn't a signal of the class or of
    /// a user base, without parameter or with one of the property's type; `NoType`, where the type of a property or a
    /// parameter isn't there, a site binds or reads a reference, or a native takes, reads, emits or sets one. `Memory`
    /// comes only where a growth of memory was refused.
    fn build(alloc: Global, program: &Program) -> Result<Meta, MetaFault> {
        let meta = load(alloc, program)?;
        Ok(meta)
    }
}

/// As `Meta::build`, where a refusal says which declaration leads to it: the first one of those that it is judged by, in the
/// order in which they are judged.
pub fn load(alloc: Global, program: &Program) -> Result<Meta, LoadFault>
    ensures { LoadsProgram program.now result }
{
    if let Some(offence) = duplicate_class(program) {
        return Err(LoadFault::Offence(offence));
    }
    let outlines = outline_classes(alloc, program)?;
    let indexed = index_outlines(alloc, program, outlines)?;
    let table = ClassTable::of(alloc, indexed)?;
    let all = table.as_slice();
    if let Some(offence) = repeated_name(program) {
        return Err(LoadFault::Offence(offence));
    }
    let Uses {
        works,
        wires,
        owns,
        sites,
    } = resolve_uses(alloc, program, &table)?;
    if let Some(offence) = bad_notifier(program, all) {
        return Err(LoadFault::Offence(offence));
    }
    if let Some(offence) = unfit_type(program, &table)? {
        return Err(LoadFault::Offence(offence));
    }
    let classes = resolve_objects(alloc, &table, works.as_slice())?;
    let members = index_members(alloc, all)?;
    let meta = Meta::of(alloc, classes, members, wires, owns, sites)?;
    Ok(meta)
}
