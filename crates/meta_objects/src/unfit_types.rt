//! Types that aren't there, and references where only values may stand.

ghost use Rattle.std.specs.Prelude.{IfOk, Any};
ghost use Rattle.class_outlines.specs.Conditions.{MisusesReference, NoType};
ghost use Rattle.class_outlines.specs.Offences.{TellsOffence};
ghost use Rattle.class_outlines.specs.Outlines.{Outlines};
ghost use Rattle.class_outlines.specs.declared.fault.MetaFault.TheVariants as fault;

use crate::native_types::touched_reference;
use crate::site_references::bound_reference;
use crate::unknown_types::unknown_type;
use class_outlines::{ClassTable, Offence};
use std::alloc::AllocError;
use syntax_trees::Program;

/// The first property or method with a type that isn't there; or else the first binding whose target or a property that it
/// reads is a reference; or else the first native that takes, reads, emits or sets one. The error is that memory was
/// refused.
pub fn unfit_type(program: &Program, outlines: &ClassTable) -> Result<Option<Offence>, AllocError>
    requires { Outlines program.now.classes outlines.now }
    ensures { IfOk result (TellsOffence program.now fault.NoType (NoType program.now outlines.now)) }
{
    match unknown_type(program, outlines) {
        Some(offence) => Ok(Some(offence)),
        None => misused_reference(program, outlines),
    }
}

/// The first binding or native that takes a reference.
fn misused_reference(
    program: &Program,
    outlines: &ClassTable,
) -> Result<Option<Offence>, AllocError>
    ensures { IfOk result (TellsOffence program.now fault.NoType (MisusesReference program.now outlines.now)) }
{
    match bound_reference(program, outlines)? {
        Some(offence) => Ok(Some(offence)),
        None => touched_reference(program, outlines),
    }
}
