//! From the texts of programs and settling certificates to what they say, or why they are refused.

ghost use Rattle.program_commands.specs.Loading.{LoadsSettled, LoadsSettling};

use crate::loading::load_program;
use crate::refusal::Refusal;
use class_lang::Limits;
use meta_model::Meta;
use settling::{Checked, SettlingCertificate, check};
use settling_texts::read_settling_certificate;
use std::alloc::Global;

/// Reads a program by these limits, loads it, and reads its settling certificate.
pub fn load_settling(
    alloc: Global,
    limits: Limits,
    program: &[u8],
    certificate: &[u8],
) -> Result<(Meta, SettlingCertificate), Refusal>
    ensures { LoadsSettling limits program.now certificate.now result }
{
    let meta = load_program(alloc, limits, program)?;
    let certificate = read_settling_certificate(alloc, certificate)?;
    Ok((meta, certificate))
}

/// Reads a program by these limits, loads it, reads its settling certificate, and checks the one with the other.
pub fn load_settled(
    alloc: Global,
    limits: Limits,
    program: &[u8],
    certificate: &[u8],
) -> Result<Checked, Refusal>
    ensures { LoadsSettled limits program.now certificate.now result }
{
    let (meta, certificate) = load_settling(alloc, limits, program, certificate)?;
    let checked = check(alloc, meta, certificate)?;
    Ok(checked)
}
