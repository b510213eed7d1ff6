//! The commands `meta`, `certify` and `check`.

ghost use Rattle.class_lang.specs.Limits.{standard};
ghost use Rattle.program_commands.specs.Commands.{MetaComesTo, CertifyComesTo, CertifiedComesTo, CheckComesTo};
ghost use Rattle.program_commands.specs.Outcomes.{Writes};
ghost use Rattle.rank_make.specs.Ranked.{IsBoundOf};

use crate::certified::Certified;
use crate::certifying::least_text;
use crate::loading::{load_program, load_valid};
use crate::outcome::Outcome;
use class_lang::Limits;
use command_lines::WriteFault;
use meta_model::Meta;
use rank_make::{Ranks, Why, make_bound};
use std::alloc::Global;
use std::io::Write;

/// What `meta` comes to: the classes of a program that is read by these limits, with their members, or why it is refused.
pub fn meta_outcome(alloc: Global, limits: Limits, program: &[u8]) -> Outcome
    ensures { MetaComesTo limits program.now result }
{
    match load_program(alloc, limits, program) {
        Ok(meta) => Outcome::Classes(meta),
        Err(refusal) => Outcome::Refused(refusal),
    }
}

/// Writes the classes of a program with their members, or why it is refused.
///
/// The answer is the exit status: 0 where the classes are written, 2 where the program is refused, 1 where memory ran
/// out. There is a `WriteFault` only where a write failed: what was taken by then is the beginning of what is written,
/// and nothing is written after that.
pub fn meta<W: Write>(alloc: Global, program: &[u8], w: &mut W) -> Result<u8, WriteFault>
    ensures { Writes (MetaComesTo standard program.now) (W.contents w.old) (W.contents w.new) result }
{
    meta_outcome(alloc, Limits::standard(), program).write(alloc, w)
}

/// What `certify` comes to: the least valid certificate of a program that is read by these limits, or the first reason why it has none, or why the program
/// is refused.
pub fn certify_outcome(alloc: Global, limits: Limits, program: &[u8]) -> Outcome
    ensures { CertifyComesTo limits program.now result }
{
    let meta = match load_program(alloc, limits, program) {
        Ok(meta) => meta,
        Err(refusal) => return Outcome::Refused(refusal),
    };
    match make_bound(alloc, &meta) {
        Ok((bound, ranks)) => with_least_text(alloc, meta, bound, ranks),
        Err(why) => Outcome::Uncertified(meta, why),
    }
}

/// The program with the text of its least valid certificate, which has this bound; or that memory was refused.
fn with_least_text(alloc: Global, meta: Meta, bound: u32, ranks: Ranks) -> Outcome
    requires { IsBoundOf meta bound ranks }
    ensures { CertifiedComesTo meta result }
{
    match least_text(alloc, &meta, bound, &ranks) {
        Ok(text) => Outcome::Certificate(Certified::new(meta, text, ranks)),
        Err(_) => Outcome::Uncertified(meta, Why::Memory),
    }
}

/// Writes the least valid certificate of a program, or the first reason why it has none.
///
/// The answer is the exit status: 0 after a certificate, 3 after a reason, 2 where the program is refused, 1 where
/// memory ran out. There is a `WriteFault` only where a write failed: what was taken by then is the
/// beginning of what is written, and nothing is written after that.
pub fn certify<W: Write>(alloc: Global, program: &[u8], w: &mut W) -> Result<u8, WriteFault>
    ensures { Writes (CertifyComesTo standard program.now) (W.contents w.old) (W.contents w.new) result }
{
    certify_outcome(alloc, Limits::standard(), program).write(alloc, w)
}

/// What `check` comes to: the program, read by these limits, with its certificate, where that is valid for it, or why it isn't.
pub fn check_outcome(alloc: Global, limits: Limits, program: &[u8], certificate: &[u8]) -> Outcome
    ensures { CheckComesTo limits program.now certificate.now result }
{
    match load_valid(alloc, limits, program, certificate) {
        Ok(checked) => Outcome::Valid(checked),
        Err(refusal) => Outcome::Refused(refusal),
    }
}

/// Checks a program with its certificate, and writes `yes`, or why there is none.
///
/// The answer is the exit status: 0 after a yes, 3 after a no, 2 where a text is refused, 1 where memory ran out.
/// There is a `WriteFault` only where a write failed: what was taken by then is the beginning of what is written, and
/// nothing is written after that.
pub fn check<W: Write>(
    alloc: Global,
    program: &[u8],
    certificate: &[u8],
    w: &mut W,
) -> Result<u8, WriteFault>
    ensures { Writes (CheckComesTo standard program.now certificate.now)
        (W.contents w.old) (W.contents w.new) result }
{
    check_outcome(alloc, Limits::standard(), program, certificate).write(alloc, w)
}
