//! The calls of machines.

ghost use Rattle.std.specs.Prelude.{IfOk};
ghost use Rattle.object_machine.specs.Seen.{AreKept};

use crate::commanding::COUNTER;
use crate::trials::{ReportBuffer, SCRIPT, SOURCE, TrialAnswer, certificate, loaded};
use command_lines::Output;
use native_slots::{Answering, Natives};
use qt_runtime::{Answer, Checked, Entry, Event, Fault, Machine, ObjectMachine, read_script};
use rank_check::check;
use std::alloc::{AllocError, Global};

/// How many rules a machine uses at most.
const STEPS: u64 = 100;

/// A program with its certificate.
fn checked_program(alloc: Global) -> Option<Checked> {
    let meta = loaded(alloc, SOURCE)?;
    let certificate = certificate(alloc)?;
    check(alloc, meta, certificate).ok()
}

/// `Machine::checked`, which takes over the program.
pub fn checked_machine(alloc: Global, told: &mut ReportBuffer) -> Option<TrialAnswer> {
    let program = checked_program(alloc)?;
    match started(alloc, program, Natives::of(Vec::new(alloc))) {
        Ok(machine) => told.count("entries ", machine.trace().len()),
        Err(AllocError) => return Some(TrialAnswer::Memory),
    }
    Some(TrialAnswer::Ample)
}

/// `Machine::unchecked`, which takes over the program.
pub fn unchecked_machine(alloc: Global, told: &mut ReportBuffer) -> Option<TrialAnswer> {
    let meta = loaded(alloc, COUNTER)?;
    let natives = Natives::of(Vec::new(alloc));
    let Ok(()) = natives.fits(&meta) else {
        return None;
    };
    match Machine::unchecked(alloc, meta, natives, 7, STEPS) {
        Ok(machine) => told.count("entries ", machine.trace().len()),
        Err(AllocError) => return Some(TrialAnswer::Memory),
    }
    Some(TrialAnswer::Ample)
}

/// `apply` of each event of a script.
pub fn events(alloc: Global, told: &mut ReportBuffer) -> Option<TrialAnswer> {
    let events = read_script(alloc, SCRIPT.as_bytes()).ok()?;
    let program = checked_program(alloc)?;
    let Ok(mut machine) = started(alloc, program, Natives::of(Vec::new(alloc))) else {
        return None;
    };
    Some(apply_each(alloc, &mut machine, events.as_slice(), told))
}

/// A machine of a checked program, before anything has happened.
fn started(
    alloc: Global,
    program: Checked,
    natives: Natives,
) -> Result<Machine<Natives>, AllocError>
    ensures { IfOk result (AreKept ⟦<Natives as Answering>⟧.takes ⟦<Natives as Answering>⟧.gives) }
{
    let Ok(()) = natives.fits(program.meta()) else {
        return Err(AllocError);
    };
    let machine = Machine::checked(alloc, program, natives, STEPS)?;
    Ok(machine)
}

/// Applies events in turn until one isn't done.
fn apply_each<N: Answering + Drop>(
    alloc: Global,
    machine: &mut Machine<N>,
    events: &[Event],
    told: &mut ReportBuffer,
) -> TrialAnswer
    requires { AreKept N.takes N.gives machine.old }
{
    for event in events {
        match machine.apply(event) {
            Ok(Answer::Done) => {}
            Err(Fault::Memory) => return stopped(alloc, machine, event, told),
            _ => return TrialAnswer::Other,
        }
    }
    tell_trace(alloc, machine.trace(), told)
}

/// Applies one more event to a machine that has stopped as memory ran out, and tells its trace.
fn stopped<N: Answering + Drop>(
    alloc: Global,
    machine: &mut Machine<N>,
    event: &Event,
    told: &mut ReportBuffer,
) -> TrialAnswer
    requires { AreKept N.takes N.gives machine.old }
{
    let entries = machine.trace().len();
    let answer = machine.apply(event);
    let stays = answer == Err(Fault::Stopped) && machine.trace().len() == entries;
    match tell_trace(alloc, machine.trace(), told) {
        TrialAnswer::Ample => TrialAnswer::Stopped { stays },
        answer => answer,
    }
}

/// Tells the lines of a trace.
fn tell_trace(alloc: Global, trace: &[Entry], told: &mut ReportBuffer) -> TrialAnswer {
    let mut output = Output::new(alloc, &mut told.text);
    output.entries(trace);
    match output.finish(0) {
        Ok(_) => TrialAnswer::Ample,
        Err(_) => TrialAnswer::Untold,
    }
}
