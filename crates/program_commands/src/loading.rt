//! From the texts of programs and certificates to what they say, or why they are refused.

ghost use Rattle.program_commands.specs.Loading.{LoadsProgram, LoadsCertified, LoadsValid};

use crate::refusal::Refusal;
use certificate_lang::{Certificate, read_certificate};
use class_lang::{Limits, read_within};
use meta_model::Meta;
use meta_objects::load;
use rank_check::{Checked, examine};
use std::alloc::Global;

/// Reads a program by these limits, and loads it.
pub fn load_program(alloc: Global, limits: Limits, program: &[u8]) -> Result<Meta, Refusal>
    ensures { LoadsProgram limits program.now result }
{
    let program = read_within(alloc, limits, program)?;
    let meta = load(alloc, &program)?;
    Ok(meta)
}

/// Reads a program by these limits, loads it, and reads its certificate.
pub fn load_certified(
    alloc: Global,
    limits: Limits,
    program: &[u8],
    certificate: &[u8],
) -> Result<(Meta, Certificate), Refusal>
    ensures { LoadsCertified limits program.now certificate.now result }
{
    let meta = load_program(alloc, limits, program)?;
    let certificate = read_certificate(alloc, certificate)?;
    Ok((meta, certificate))
}

/// Reads a program by these limits, loads it, reads its certificate, and checks the one with the other.
pub fn load_valid(
    alloc: Global,
    limits: Limits,
    program: &[u8],
    certificate: &[u8],
) -> Result<Checked, Refusal>
    ensures { LoadsValid limits program.now certificate.now result }
{
    let (meta, certificate) = load_certified(alloc, limits, program, certificate)?;
    let checked = examine(alloc, meta, certificate)?;
    Ok(checked)
}
