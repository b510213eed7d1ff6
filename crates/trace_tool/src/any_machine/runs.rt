//! What the forms of `run` are about to do.

ghost use Rattle.std.specs.Prelude.{◌≡◌, ◌<◌, ◌≤◌, ◌^◌, IfOk};
ghost use Rattle.native_slots.specs.Promises.{Promises};
ghost use Rattle.texts.specs.Limits.{most_depth};
ghost use Rattle.trace_tool.specs.Commands.{Accepting, AcceptingSettling, MayRun, RunComesTo, SettlingRunComesTo, UncheckedRunComesTo, refused};
ghost use Rattle.trace_tool.specs.Prepared.{Prepares, seen_prepared};
ghost use Rattle.trace_tool.specs.declared.any_machine.prepared.Prepared.TheVariants.{Done};

use crate::any_machine::natives::FittingNatives;
use crate::any_machine::outcome::Outcome;
use crate::any_machine::prepared::{Prepared, Ready};
use class_lang::Limits;
use meta_model::Meta;
use object_machine::ObjectMachine;
use program_commands::{
    Outcome as ProgramOutcome, Refusal, load_certified, load_program, load_settling,
};
use rank_check::{Checked, examine};
use script_lang::{Event, read_script};
use settled_runs::settling_machine;
use settling::{Checked as Settled, check as check_settling};
use sqlite_items::Items;
use std::alloc::Global;
use texts::MOST_DEPTH;

/// What `run` is about to do: a run of the program, which is read by these limits, on the script, or to say why there is none.
pub fn prepare_run<N: FittingNatives, M: ObjectMachine<Natives = N>>(
    alloc: Global,
    limits: Limits,
    program: &[u8],
    certificate: &[u8],
    script: &[u8],
    natives: N,
    steps: u64,
) -> Prepared<M>
    requires steps { (1 ≤ steps) × (steps < 2 ^ 63) }
    ensures { let heads = N.heads natives in
        Prepares N.takes N.gives
        (RunComesTo limits N.gives heads natives program.now certificate.now script.now steps)
        (seen_prepared M.seen result) }
{
    let (checked, events) = match accept(alloc, limits, program, certificate, script, &natives) {
        Ok(accepted) => accepted,
        Err(refusal) => return refused(refusal),
    };
    let Ok(machine) = M::checked(alloc, checked, natives, steps) else {
        return Prepared::Done(Outcome::Memory);
    };
    Prepared::Ready(Ready { machine, events })
}

/// What `run --settling` is about to do: a run of the program, which is read by these limits, on the script, in which as many
/// activations may nest as in any machine, or to say why there is none.
pub fn prepare_settling_run<N: FittingNatives, M: ObjectMachine<Natives = N>>(
    alloc: Global,
    limits: Limits,
    program: &[u8],
    certificate: &[u8],
    script: &[u8],
    natives: N,
    steps: u64,
) -> Prepared<M>
    requires steps { (1 ≤ steps) × (steps < 2 ^ 63) }
    ensures { let heads = N.heads natives in
        Prepares N.takes N.gives
        (SettlingRunComesTo limits N.gives heads natives program.now certificate.now script.now steps)
        (seen_prepared M.seen result) }
{
    let accepted = accept_settling(alloc, limits, program, certificate, script, &natives);
    let (checked, events) = match accepted {
        Ok(accepted) => accepted,
        Err(refusal) => return refused(refusal),
    };
    let Ok(machine) = settling_machine::<M>(alloc, checked, natives, MOST_DEPTH as usize, steps)
    else {
        return Prepared::Done(Outcome::Memory);
    };
    Prepared::Ready(Ready { machine, events })
}

/// What `run --unchecked` is about to do: a run of the program, which is read by these limits, on the script, or to say why there is none.
pub fn prepare_unchecked_run<N: FittingNatives, M: ObjectMachine<Natives = N>>(
    alloc: Global,
    limits: Limits,
    program: &[u8],
    script: &[u8],
    natives: N,
    depth: usize,
    steps: u64,
) -> Prepared<M>
    requires depth { (1 ≤ depth) × (depth ≤ most_depth) }
    requires steps { (1 ≤ steps) × (steps < 2 ^ 63) }
    ensures { let heads = N.heads natives in
        Prepares N.takes N.gives
        (UncheckedRunComesTo limits N.gives heads natives program.now script.now depth steps)
        (seen_prepared M.seen result) }
{
    let (meta, events) = match load(alloc, limits, program, script, &natives) {
        Ok(loaded) => loaded,
        Err(refusal) => return refused(refusal),
    };
    let Ok(machine) = M::unchecked(alloc, meta, natives, depth, steps) else {
        return Prepared::Done(Outcome::Memory);
    };
    Prepared::Ready(Ready { machine, events })
}

/// A program is refused, and doesn't run.
fn refused<M: ObjectMachine>(refusal: Refusal) -> Prepared<M>
    ensures { result ≡ Done (refused refusal) }
{
    Prepared::Done(Outcome::Program(ProgramOutcome::Refused(refusal)))
}

/// Reads a program by these limits, loads it, reads its certificate and its script, checks the program, and compares its natives with the
/// closures.
fn accept<N: FittingNatives>(
    alloc: Global,
    limits: Limits,
    program: &[u8],
    certificate: &[u8],
    script: &[u8],
    natives: &N,
) -> Result<(Checked, Items<Event>), Refusal>
    ensures accepting { let heads = N.heads natives.now in
        Accepting limits heads program.now certificate.now script.now result }
    ensures promises { IfOk result (λ accepted. Promises accepted.0.program
        (N.takes natives.now) (N.gives natives.now)) }
{
    let (meta, certificate) = load_certified(alloc, limits, program, certificate)?;
    let events = read_script(alloc, script)?;
    let checked = examine(alloc, meta, certificate)?;
    natives.fitting(checked.meta())?;
    Ok((checked, events))
}

/// Reads a program by these limits, loads it, reads its settling certificate and its script, checks the program, and compares its
/// natives with the closures.
fn accept_settling<N: FittingNatives>(
    alloc: Global,
    limits: Limits,
    program: &[u8],
    certificate: &[u8],
    script: &[u8],
    natives: &N,
) -> Result<(Settled, Items<Event>), Refusal>
    ensures accepting { let heads = N.heads natives.now in
        AcceptingSettling limits heads program.now certificate.now script.now result }
    ensures promises { IfOk result (λ accepted. Promises accepted.0.program
        (N.takes natives.now) (N.gives natives.now)) }
{
    let (meta, certificate) = load_settling(alloc, limits, program, certificate)?;
    let events = read_script(alloc, script)?;
    let checked = check_settling(alloc, meta, certificate)?;
    natives.fitting(checked.meta())?;
    Ok((checked, events))
}

/// Reads a program by these limits, loads it, reads its script, and compares its natives with the closures.
fn load<N: FittingNatives>(
    alloc: Global,
    limits: Limits,
    program: &[u8],
    script: &[u8],
    natives: &N,
) -> Result<(Meta, Items<Event>), Refusal>
    ensures loading { let heads = N.heads natives.now in
        MayRun limits heads program.now script.now result }
    ensures promises { IfOk result (λ loaded. Promises loaded.0
        (N.takes natives.now) (N.gives natives.now)) }
{
    let meta = load_program(alloc, limits, program)?;
    let events = read_script(alloc, script)?;
    natives.fitting(&meta)?;
    Ok((meta, events))
}
