//! What a command line comes to, and how it is written.

ghost use Rattle.std.specs.Prelude.{◌≡◌, OnErr};
ghost use Rattle.command_lines.specs.Failing.{HasFailed};
ghost use Rattle.command_lines.specs.Sent.{Puts, TakesWith};
ghost use Rattle.trace_tool.specs.Outcomes.{outcome_text, outcome_status, run_text, run_status, seen_outcome};

use command_lines::{Failing, InputFault, Output, UsageFault, WriteFault};
use object_machine::ObjectMachine;
use program_commands::Outcome as ProgramOutcome;
use std::alloc::Global;
use std::io::Write;
use trace_entries::{Entry, Fault};

/// The exit status after a whole run.
const WHOLE: u8 = 0;
/// The exit status where nothing was done.
const UNDONE: u8 = 1;
/// The exit status after a fault.
const FAULT: u8 = 4;

/// A run that has ended.
#[derive(Drop)]
pub struct Ran<M: Drop> {
    /// The machine that ran, as it is at the end.
    pub machine: M,
    /// Whether all events were taken, or the fault that stopped the run.
    pub ended: Result<(), Fault>,
}

/// What a command line comes to.
#[derive(Drop)]
pub enum Outcome<M: Drop> {
    /// The command line or its input isn't one that the program takes.
    Usage(UsageFault),
    /// There is no input.
    NoInput(InputFault),
    /// What a command that runs nothing comes to, or why a program doesn't run.
    Program(ProgramOutcome),
    /// A program ran.
    Ran(Ran<M>),
    /// There was no memory for a machine.
    Memory,
}

/// How the writing of an outcome ended.
#[derive(Clone, Copy)]
pub struct Sent {
    /// The exit status, or why the output couldn't be written.
    pub status: Result<u8, WriteFault>,
    /// Whether a write failed.
    pub writing: Failing,
}

impl<M: ObjectMachine> Ran<M> {
    /// What was written down, in its order.
    pub fn trace(&self) -> &[Entry]
        ensures { let machine = M.seen self.now.machine in result.now ≡ machine.world.trace }
    {
        self.machine.trace()
    }

    /// The exit status: 0 after a whole run, 4 after a fault.
    pub fn status(&self) -> u8
        ensures { result ≡ run_status self.now.ended }
    {
        match self.ended {
            Ok(()) => WHOLE,
            Err(_) => FAULT,
        }
    }

    /// Adds the trace's lines to an output, and that of the fault that stopped the run, if one did.
    pub fn put<W: Write>(&self, output: &mut Output<'_, W>)
        ensures { let machine = M.seen self.now.machine in
            Puts W.contents output.old output.new (run_text machine.world.trace self.now.ended) }
    {
        output.entries(self.machine.trace());
        match self.ended {
            Ok(()) => {}
            Err(fault) => output.numbered(b"fault ", fault.number()),
        }
    }
}

impl<M: ObjectMachine> Outcome<M> {
    /// The exit status: 0 where the command did what it was asked, 1 where nothing was done, 2 where a text or a native is
    /// refused, 3 where no certificate is valid for the program or this one isn't, 4 after a fault.
    pub fn status(&self) -> u8
        ensures { result ≡ outcome_status self.now }
    {
        match self {
            Outcome::Usage(_) | Outcome::NoInput(_) | Outcome::Memory => UNDONE,
            Outcome::Program(outcome) => outcome.status(),
            Outcome::Ran(ran) => ran.status(),
        }
    }

    /// Adds its lines to an output; none where a read failed.
    fn put<W: Write>(&self, output: &mut Output<'_, W>)
        ensures { Puts W.contents output.old output.new
            (outcome_text (seen_outcome M.seen self.now)) }
    {
        match self {
            Outcome::Usage(_) => output.put(b"usage\n"),
            Outcome::NoInput(InputFault::Unread(_)) => {}
            Outcome::NoInput(InputFault::Memory) | Outcome::Memory => output.put(b"memory\n"),
            Outcome::Program(outcome) => outcome.put(output),
            Outcome::Ran(ran) => ran.put(output),
        }
    }

    /// Writes its lines. There is a `WriteFault` only where a write failed: what was taken by then is the beginning of the
    /// lines, and nothing is written after that.
    pub fn write<W: Write>(&self, alloc: Global, w: &mut W) -> Sent
        ensures takes { TakesWith (W.contents w.old) (W.contents w.new)
            (outcome_text (seen_outcome M.seen self.now)) (outcome_status self.now) result.status }
        ensures failed { OnErr result.status (HasFailed result.writing) }
    {
        let mut output = Output::new(alloc, w);
        self.put(&mut output);
        let status = output.finish(self.status());
        Sent {
            status,
            writing: output.failing(),
        }
    }
}
