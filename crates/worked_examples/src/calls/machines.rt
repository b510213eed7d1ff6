//! Machines of one's own, to which events are applied one by one.

ghost use Rattle.std.specs.Prelude.{IfOk};
ghost use Rattle.object_machine.specs.Seen.{AreKept};

use crate::calls::loading::loaded;
use crate::calls::task::{NativesTask, Reply, with_thermostat};
use crate::calls::thermostat::PROGRAM;
use anyhow::Result;
use native_slots::{Answering, Natives};
use qt_runtime::{Answer, Event, Fault, Machine, ObjectMachine, read_script};
use std::alloc::{AllocError, Global};

/// The third event calls a native whose writes are second activations.
const SCRIPT: &[u8] =
    b"new hall Thermostat\nset hall.wanted true\ncall hall.measured(-1)\nblock hall\n";

/// Each of two properties is bound to the other.
const LOOPING: &str =
    "class N { property int p; property int q; } binding pq N.p (N a) = a.q; binding qp N.q (N a) = a.p;";

/// The second bind closes the loop.
const BINDS: &[u8] = b"new n N\nbind pq n n\nbind qp n n\nset n.p 1\nnew m N\n";

/// Events that a machine for a program takes, with what it answers for each, and how many entries its trace has then.
#[derive(Drop)]
struct Taking<'a> {
    alloc: Global,
    program: &'a str,
    events: &'a [Event],
    answers: Vec<Result<Answer, Fault>>,
    entries: usize,
}

impl<'a> Taking<'a> {
    /// Events that aren't taken yet.
    fn new(alloc: Global, program: &'a str, events: &'a [Event]) -> Taking<'a> {
        Taking {
            alloc,
            program,
            events,
            answers: Vec::new(alloc),
            entries: 0,
        }
    }
}

impl NativesTask for Taking<'_> {
    fn perform(&mut self, natives: Natives) -> Result<()> {
        let mut machine = started(self.alloc, self.program, natives)?;
        take_each(&mut machine, self.events, &mut self.answers)?;
        self.entries = machine.trace().len();
        Ok(())
    }
}

/// A machine for a program, where these closures fit: one activation nests and 100 rules are used at most.
fn started(alloc: Global, text: &str, natives: Natives) -> Result<Machine<Natives>>
    ensures { IfOk result (AreKept ⟦<Natives as Answering>⟧.takes ⟦<Natives as Answering>⟧.gives) }
{
    let meta = loaded(alloc, text)?;
    natives.fits(&meta)?;
    let machine = Machine::unchecked(alloc, meta, natives, 1, 100)?;
    Ok(machine)
}

/// Applies each event, and adds what the machine answers.
fn take_each<N: Answering + Drop>(
    machine: &mut Machine<N>,
    events: &[Event],
    answers: &mut Vec<Result<Answer, Fault>>,
) -> Result<(), AllocError>
    requires { AreKept N.takes N.gives machine.old }
{
    for event in events {
        answers.push(machine.apply(event))?;
    }
    Ok(())
}

/// Writes what machines answer.
pub fn tell_machines<R: Print + AllocGlobal>(rt: &R) -> Result<()> {
    let alloc = rt.alloc();
    let events = read_script(alloc, SCRIPT)?;
    let mut taking = Taking::new(alloc, PROGRAM, events.as_slice());
    with_thermostat(alloc, Reply::Judged, &mut taking)?;
    tell_taking(rt, "A machine with a thermostat", &taking)?;
    tell_looping(rt)
}

/// Writes what a machine answers that stops with a loop of bindings.
fn tell_looping<R: Print + AllocGlobal>(rt: &R) -> Result<()> {
    let events = read_script(rt.alloc(), BINDS)?;
    let mut taking = Taking::new(rt.alloc(), LOOPING, events.as_slice());
    taking.perform(Natives::of(Vec::new(rt.alloc())))?;
    tell_taking(rt, "A machine with a loop of bindings", &taking)
}

/// Writes the answer for each event, and the number of entries.
fn tell_taking(rt: &impl Print, title: &str, taking: &Taking<'_>) -> Result<()> {
    println!(rt; "{title}:")?;
    for answer in taking.answers.as_slice() {
        match answer {
            Ok(Answer::Done) => println!(rt; "done")?,
            Ok(Answer::Refused(number)) => println!(rt; "refused {number}")?,
            Err(fault) => tell_fault(rt, *fault)?,
        }
    }
    let entries = taking.entries;
    println!(rt; "{entries} entries")?;
    Ok(())
}

/// Writes a fault's number.
fn tell_fault(rt: &impl Print, fault: Fault) -> Result<()> {
    let number = fault.number();
    println!(rt; "fault {number}")?;
    Ok(())
}
