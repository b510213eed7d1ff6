//! The errors that a verdict has of a program which a command has loaded.

use crate::certificate::gather_cause;
use crate::program::{Located, program_errors};
use findings::{Levels, Verdict};
use meta_model::Meta;
use program_flaws::ReadProgram;
use rank_check::Denied;
use std::alloc::{AllocError, Global};

/// The exit status where errors are found.
const FOUND: u8 = 3;

/// The errors that `verdict` finds in the program of this text, which loads as this; and in its certificate, where one of this
/// text was denied for it. None where the text is no program.
pub fn found_errors(
    alloc: Global,
    text: &[u8],
    meta: &Meta,
    denied: Option<(&[u8], &Denied)>,
) -> Result<Verdict, AllocError> {
    errors_by(alloc, text, meta, denied, Levels { changes: &[] })
}

/// The same, with the rules as grave as these levels say.
fn errors_by(
    alloc: Global,
    text: &[u8],
    meta: &Meta,
    denied: Option<(&[u8], &Denied)>,
    levels: Levels<'_>,
) -> Result<Verdict, AllocError> {
    let mut found = Verdict::new(alloc, FOUND);
    let Some(read) = ReadProgram::of(alloc, text)? else {
        return Ok(found);
    };
    let located = Located::of(alloc, &read, meta, levels);
    program_errors(located, &mut found)?;
    if let Some((certificate, denied)) = denied {
        let said = denied.certificate();
        gather_cause(located, certificate, said, denied.cause(), &mut found)?;
    }
    Ok(found)
}
