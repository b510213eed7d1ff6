//! What refuses a program.

ghost use Rattle.std.specs.Prelude.{IfOk};
ghost use Rattle.meta_objects.specs.Builds.{TellsRefusal};

use crate::loading::load;
use class_outlines::{LoadFault, Offence};
use std::alloc::{AllocError, Global};
use syntax_trees::Program;

/// What of the program breaks a rule of loading, with the number of `Meta::build`'s refusal: the first declaration, in the
/// order in which they are judged. `None` where the program loads. The error is that memory was refused.
pub fn first_offence(alloc: Global, program: &Program) -> Result<Option<Offence>, AllocError>
    ensures { IfOk result (TellsRefusal program.now) }
{
    match load(alloc, program) {
        Ok(_) => Ok(None),
        Err(LoadFault::Offence(offence)) => Ok(Some(offence)),
        Err(LoadFault::Memory) => Err(AllocError),
    }
}
