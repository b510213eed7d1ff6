//! The commands `certify --settling` and `check --settling`.

ghost use Rattle.class_lang.specs.Limits.{standard};
ghost use Rattle.program_commands.specs.Outcomes.{Writes};
ghost use Rattle.program_commands.specs.Settling.{Certifies, CertifySettlingComesTo, CheckSettlingComesTo};

use crate::loading::load_program;
use crate::outcome::Outcome;
use crate::settling_commands::loading::load_settled;
use crate::settling_commands::outcome::SettlingOutcome;
use crate::settling_commands::told::told_reason;
use class_lang::Limits;
use command_lines::WriteFault;
use meta_model::Meta;
use rank_make::Why;
use settling_make::make;
use settling_texts::settling_text;
use sqlite_items::Items;
use std::alloc::Global;
use std::io::Write;

/// What `certify --settling` comes to: a settling certificate of a program that is read by these limits, or why none was made,
/// or why the program is refused.
pub fn certify_settling_outcome(alloc: Global, limits: Limits, program: &[u8]) -> Outcome
    ensures { CertifySettlingComesTo limits program.now result }
{
    match load_program(alloc, limits, program) {
        Ok(meta) => certify_loaded(alloc, meta),
        Err(refusal) => Outcome::Refused(refusal),
    }
}

/// The text of a settling certificate of the program, or why none was made.
fn certify_loaded(alloc: Global, meta: Meta) -> Outcome
    ensures { Certifies meta result }
{
    match make(alloc, &meta) {
        Ok(certificate) => match settling_text(alloc, &certificate) {
            Ok(text) => {
                Outcome::Settling(SettlingOutcome::Certificate(meta, Items::from_vec(text)))
            }
            Err(_) => Outcome::Settling(SettlingOutcome::Uncertified(meta, Why::Memory)),
        },
        Err(why) => {
            let told = told_reason(alloc, &meta, why);
            Outcome::Settling(SettlingOutcome::Uncertified(meta, told))
        }
    }
}

/// Writes a settling certificate of a program, or why none was made.
///
/// The answer is the exit status: 0 after a certificate, 3 after a reason, 2 where the program is refused, 1 where
/// memory ran out. There is a `WriteFault` only where a write failed: what was taken by then is the
/// beginning of what is written, and nothing is written after that.
pub fn certify_settling<W: Write>(
    alloc: Global,
    program: &[u8],
    w: &mut W,
) -> Result<u8, WriteFault>
    ensures { Writes (CertifySettlingComesTo standard program.now) (W.contents w.old) (W.contents w.new) result }
{
    certify_settling_outcome(alloc, Limits::standard(), program).write(alloc, w)
}

/// What `check --settling` comes to: the program, read by these limits, with its settling certificate, where that is valid for
/// it, or why it isn't.
pub fn check_settling_outcome(
    alloc: Global,
    limits: Limits,
    program: &[u8],
    certificate: &[u8],
) -> Outcome
    ensures { CheckSettlingComesTo limits program.now certificate.now result }
{
    match load_settled(alloc, limits, program, certificate) {
        Ok(checked) => Outcome::Settling(SettlingOutcome::Valid(checked)),
        Err(refusal) => Outcome::Refused(refusal),
    }
}

/// Checks a program with its settling certificate, and writes `yes`, or why there is none.
///
/// The answer is the exit status: 0 after a yes, 3 after a no, 2 where a text is refused, 1 where memory ran out.
/// There is a `WriteFault` only where a write failed: what was taken by then is the beginning of what is written, and
/// nothing is written after that.
pub fn check_settling<W: Write>(
    alloc: Global,
    program: &[u8],
    certificate: &[u8],
    w: &mut W,
) -> Result<u8, WriteFault>
    ensures { Writes (CheckSettlingComesTo standard program.now certificate.now)
        (W.contents w.old) (W.contents w.new) result }
{
    check_settling_outcome(alloc, Limits::standard(), program, certificate).write(alloc, w)
}
